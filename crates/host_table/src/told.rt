//! What is told of a phase: what workers served, and where their clocks ended.
use host_plan::Plan;
use host_shard::Content;
use lamport_clocks::Clock;
use record_text::Request;

/// A request that a worker served at a place: from its clock and the content there, with its plan, to the content and the
/// clock after it. It exists in proofs alone.
pub struct Service {
    pub place: u64,
    pub worker: u64,
    pub clock: Clock,
    pub before: Content,
    pub request: Request,
    pub plan: Plan,
    pub after: Content,
    pub later: Clock,
}

/// A request at which a worker's clock ended, with the content that it found. It exists in proofs alone.
pub struct Stop {
    pub place: u64,
    pub clock: Clock,
    pub content: Content,
    pub request: Request,
}
