//! What is kept of a path below a frontier.
use record_text::Value;

/// The value of a path, and how often the key was touched in this epoch.
#[derive(Debug, Drop)]
pub struct Record {
    pub value: Value,
    pub touches: u64,
}
