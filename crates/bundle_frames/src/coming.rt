//! What comes next in a bundle that is read.
use lamport_clocks::Header;

/// What comes next in a bundle.
#[derive(Clone, Copy, Debug, PartialEq, Eq)]
pub enum Next {
    /// The header.
    Head(Header),
    /// A frame of this verifier. Its body is lent until more is read.
    Frame(u16),
    /// No more: the source ended, or what follows is bad.
    End,
}
