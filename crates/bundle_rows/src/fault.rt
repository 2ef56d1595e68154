//! Why rows are no bundle.
use base_words::Memory;
use fv_outside::Failed;
use std::alloc::{AllocError, AllocFailed};

/// Why rows are no bundle.
#[derive(Debug, PartialEq, Eq, Drop)]
pub enum RowFault<'a> {
    /// This row has no form that a row may have.
    BadRow(&'a str),
    /// The bundle has more bytes than rows are read into.
    TooLong,
    /// There was no memory.
    Memory,
}

impl From<Failed> for RowFault<'_> {
    fn from(_e: Failed) -> Self {
        RowFault::TooLong
    }
}

impl From<Memory> for RowFault<'_> {
    fn from(_e: Memory) -> Self {
        RowFault::Memory
    }
}

impl From<AllocError> for RowFault<'_> {
    fn from(_e: AllocError) -> Self {
        RowFault::Memory
    }
}

impl<T: Drop> From<AllocFailed<T>> for RowFault<'_> {
    fn from(_e: AllocFailed<T>) -> Self {
        RowFault::Memory
    }
}
