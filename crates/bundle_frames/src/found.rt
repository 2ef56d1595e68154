//! What a splitter finds in a piece of a bundle.
use lamport_clocks::Header;

/// What was found in a piece of a bundle.
#[derive(Clone, Copy, Debug, PartialEq, Eq)]
pub enum Found {
    /// The piece is taken whole, and nothing is whole yet.
    Nothing,
    /// The header.
    Head(Header),
    /// A whole frame of this verifier. Its body is lent until more is read.
    Frame(u16),
    /// The offset in bytes of a header or a frame whose fields are bad. Nothing is read behind it.
    Bad(u64),
}

/// How many bytes of a piece were taken, and what was found.
#[derive(Clone, Copy, Debug, PartialEq, Eq)]
pub struct Fed {
    /// How many bytes at the front of the piece were taken.
    pub taken: usize,
    /// What they made whole.
    pub found: Found,
}
