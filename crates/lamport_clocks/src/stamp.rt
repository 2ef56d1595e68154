//! Stamps: an epoch and a counter.

/// A moment of a clock: an epoch, and a counter in that epoch. Stamps are ordered by epoch, then counter.
#[derive(Clone, Copy, Debug, PartialEq, Eq, PartialOrd, Ord, Hash)]
pub struct Stamp {
    pub epoch: u32,
    pub counter: u32,
}
