//! What is told of a round: what workers did at places, why they stopped, what they found held, and how far they found others.
use host_plan::Plan;
use host_shard::Content;
use lamport_clocks::Clock;
use record_text::Request;

/// What a worker did at a place: it served a request there, or, where there is none, scanned the place; from its clock and the
/// content there, with its plan, to the content and the clock after it. It exists in proofs alone.
pub struct Entry {
    pub place: u64,
    pub worker: u64,
    pub clock: Clock,
    pub before: Content,
    pub request: Option<Request>,
    pub plan: Plan,
    pub after: Content,
    pub later: Clock,
}

/// A content that a place has had, with the place, and the request, if there was one, for which a worker took it. It exists in
/// proofs alone.
pub struct Meeting {
    pub place: u64,
    pub content: Content,
    pub request: Option<Request>,
}

/// Where a worker stopped: its clock, and the content at which that ended, if it ended at one. It exists in proofs alone.
pub struct Stop {
    pub clock: Clock,
    pub met: Option<Meeting>,
}

/// A place whose word a worker found held, and the number that stood there. It exists in proofs alone.
pub struct Loss {
    pub place: u64,
    pub found: u64,
}

/// How far a place or a worker, by its number, has come at least: an epoch with whose element the place was given back, or how
/// many epochs the worker was through with. It exists in proofs alone.
pub struct Reached {
    pub of: u64,
    pub least: u64,
}
