//! What a script asks of a worker, and what a line of it says.
use record_text::Request;

/// A request, and the number of the worker that is to serve it.
#[derive(Clone, Debug, PartialEq, Eq, Drop)]
pub struct Task {
    pub worker: u16,
    pub request: Request,
}

/// What a line of a script says.
#[derive(Clone, Debug, PartialEq, Eq, Drop)]
pub enum Line {
    /// A worker is asked for something.
    Task(Task),
    /// The epoch is to close here.
    Epoch,
}
