//! Receipts and certificates as data.
use record_text::Operation;

/// How many bytes a tag has.
pub const TAG_LEN: usize = 32;

/// An operation, and what is said to be the tag of its text.
#[derive(Clone, Debug, PartialEq, Eq, Drop)]
pub struct Receipt {
    pub operation: Operation,
    pub tag: [u8; TAG_LEN],
}

/// The first epoch of a bundle and the last that is certified, and what is said to be the tag of their text.
#[derive(Clone, Copy, Debug, PartialEq, Eq)]
pub struct Certificate {
    pub first: u32,
    pub last: u32,
    pub tag: [u8; TAG_LEN],
}
