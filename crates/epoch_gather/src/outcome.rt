//! What is said of an epoch over all verifiers.
use multiset_sum::Sum;

/// What the parts of an epoch say of it.
#[derive(Clone, Copy, Debug, PartialEq, Eq)]
pub enum Verdict {
    /// Each verifier has sealed it, and what was added is what was evicted.
    Balanced,
    /// Each verifier has sealed it, and the sums of what was added and of what was evicted differ.
    Unbalanced(Sum, Sum),
    /// This verifier has not sealed it, and each lower one has.
    Missing(u16),
}
