//! What a round asks of a worker, and where.
use script_text::TaskRef;

/// A task of a round, the number of its key's place, and its phase, counted from the epoch in which the round begins.
#[derive(Debug, Drop)]
pub struct Turn<'a> {
    pub place: u32,
    pub phase: u64,
    pub task: TaskRef<'a>,
}
