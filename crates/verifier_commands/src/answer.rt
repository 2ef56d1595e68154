//! What an accepted command hands up.
use record_text::BlobRef;

/// What an accepted command hands up from the cache and the clock, named after the command. Of an element it has what
/// sums take: its lanes, which are made where its value stands.
#[derive(Debug, Drop)]
pub enum Answer<'a> {
    /// A record came in by its digest.
    AddM,
    /// A record went out into its parent.
    EvictM,
    /// A record came back that had been evicted in this epoch, as an element with these lanes.
    AddB(u32, [u32; 8]),
    /// A record went out as an element with these lanes.
    EvictB([u32; 8]),
    /// A record went out of its parent as an element with these lanes.
    EvictBM([u32; 8]),
    /// The value of a key was read. Before the key it is said whether its tree is the one whose keys have 128 bits.
    Get(bool, u128, BlobRef<'a>),
    /// The value of a key was written, told in the same way.
    Put(bool, u128, BlobRef<'a>),
    /// The clock went to the next epoch, which seals this one, if any.
    NextEpoch(Option<u32>),
}
