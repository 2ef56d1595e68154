//! What a try of a call tells.
use base_words::Memory;
use bundle_rows::RowFault;
use std::alloc::{AllocError, AllocFailed};

/// How a call went that came out as it should.
#[derive(Clone, Copy, Debug, PartialEq, Eq)]
pub enum Outcome {
    /// It was made at once.
    Made,
    /// It wanted memory, all was as before, and it was made when it was called again.
    MadeAgain,
}

/// Why there is no outcome.
#[derive(Clone, Copy, Debug, PartialEq, Eq)]
pub enum Fault {
    /// There was no memory for what the call needs, so that it wasn't called.
    Memory,
    /// This is not as it should be.
    Amiss(&'static str),
}

impl From<Memory> for Fault {
    fn from(_e: Memory) -> Self {
        Fault::Memory
    }
}

impl From<AllocError> for Fault {
    fn from(_e: AllocError) -> Self {
        Fault::Memory
    }
}

impl<T: Drop> From<AllocFailed<T>> for Fault {
    fn from(_e: AllocFailed<T>) -> Self {
        Fault::Memory
    }
}

impl From<RowFault<'_>> for Fault {
    fn from(e: RowFault<'_>) -> Self {
        match e {
            RowFault::Memory => Fault::Memory,
            RowFault::TooLong => Fault::Amiss("rows that are too long"),
            RowFault::BadRow(_) => Fault::Amiss("a row that is no command"),
        }
    }
}
