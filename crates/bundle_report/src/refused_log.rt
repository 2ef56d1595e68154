//! A log that is refused.
use record_text::Refusal;

/// A log that is refused: whose, the number of the refused command, and why.
#[derive(Clone, Copy, Debug, PartialEq, Eq)]
pub struct RefusedLog {
    pub verifier: u16,
    pub index: u64,
    pub refusal: Refusal,
}
