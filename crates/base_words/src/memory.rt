//! The error, and how std's errors of allocation become it.
ghost use Rattle.std.specs.Prelude.{◌≡◌};
ghost use Rattle.base_words.specs.Memory.{memory};

use std::alloc::{AllocError, AllocFailed};

/// Want of memory, and nothing else.
#[derive(Clone, Copy, Debug, PartialEq, Eq)]
pub struct Memory;

impl From<AllocError> for Memory {
    ghost from_gives = { λ _ e. e ≡ memory };

    fn from(_e: AllocError) -> Memory {
        Memory
    }
}

impl<T: Drop> From<AllocFailed<T>> for Memory {
    ghost from_gives = { λ _ e. e ≡ memory };

    fn from(_e: AllocFailed<T>) -> Memory {
        Memory
    }
}
