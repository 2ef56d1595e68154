//! Why a call that reads or writes outside is not carried through.
ghost use Rattle.std.specs.Prelude.{◌≡◌};

use base_words::Memory;
use std::alloc::AllocError;

/// Why a call that reads a source or writes to a sink or a vault could not be carried through.
#[derive(Clone, Copy, Debug, PartialEq, Eq)]
pub enum Failure {
    /// Want of memory.
    Memory,
    /// The source failed.
    ReadFault,
    /// The source gave more than the limit's bytes.
    InputLimit,
    /// The vault failed.
    VaultFault,
    /// The sink failed.
    WriteFault,
}

impl From<Memory> for Failure {
    ghost use Rattle.fv_outside.specs.declared.failure.Failure.TheVariants.{Memory as OutOfMemory};

    ghost from_gives = { λ _ failure. failure ≡ OutOfMemory };

    fn from(_: Memory) -> Failure {
        Failure::Memory
    }
}

impl From<AllocError> for Failure {
    ghost use Rattle.fv_outside.specs.declared.failure.Failure.TheVariants.{Memory as OutOfMemory};

    ghost from_gives = { λ _ failure. failure ≡ OutOfMemory };

    fn from(_: AllocError) -> Failure {
        Failure::Memory
    }
}
