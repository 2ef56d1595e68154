//! A load that was made of a seed.

/// A load that was made of a seed, as its summary names it.
#[derive(Clone, Copy, Debug, PartialEq, Eq)]
pub struct Load {
    pub seed: u64,
    /// How many operations were asked for.
    pub ops: u32,
}
