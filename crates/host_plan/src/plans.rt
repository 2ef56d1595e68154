//! Plans.
use crate::commands::Commands;
use record_text::Blob;

/// What a worker logs for one request, and what it answers: the key's value after it.
#[derive(Debug, Drop)]
pub struct Plan {
    pub commands: Commands,
    pub answer: Blob,
}
