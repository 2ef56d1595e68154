//! What a verifier hands in of an epoch that it sealed.
use crate::sum::Sum;

/// What one verifier hands in when it seals an epoch: the sums of the elements that were added and
/// evicted there.
#[derive(Clone, Copy, Debug, PartialEq, Eq)]
pub struct Part {
    pub verifier: u16,
    pub epoch: u32,
    pub added: Sum,
    pub evicted: Sum,
}
