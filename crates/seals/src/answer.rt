//! What is answered to bytes that are to be a seal.
use crate::state::SealedState;

/// What the bytes come to that were read of a source so far.
#[derive(Debug, Drop)]
pub enum SealFront {
    /// They begin with a seal of so many bytes, whose tag holds.
    Whole(SealedState, usize),
    /// They are too few to tell: more of them may make a seal.
    Open,
    /// They are no seal, whatever follows.
    BadSeal,
    /// They begin with a seal, whose tag is not that of all before it.
    NotTagged,
    /// Want of memory.
    Memory,
}

/// What all bytes of a source come to.
#[derive(Debug, Drop)]
pub enum ReadSeal {
    /// They begin with a seal of so many bytes, whose tag holds.
    Whole(SealedState, usize),
    /// They don't begin with a seal.
    BadSeal,
    /// They begin with a seal, whose tag is not that of all before it.
    NotTagged,
    /// Want of memory.
    Memory,
}
