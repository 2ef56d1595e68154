//! Why a part of a seal could not be read.
ghost use Rattle.std.specs.Prelude.{◌≡◌};

use record_text::TextFault;
use std::alloc::{AllocError, AllocFailed};

/// Why a part of a seal could not be read.
#[derive(Clone, Copy, Debug, PartialEq, Eq)]
pub(crate) enum Fault {
    /// The bytes are no such text.
    Text(TextFault),
    /// Want of memory.
    Memory,
}

impl From<AllocError> for Fault {
    ghost use Rattle.seals.specs.declared.fault.Fault.TheVariants.{Memory};

    ghost from_gives = { λ _ fault. fault ≡ Memory };

    fn from(_: AllocError) -> Fault {
        Fault::Memory
    }
}

impl<T: Drop> From<AllocFailed<T>> for Fault {
    ghost use Rattle.seals.specs.declared.fault.Fault.TheVariants.{Memory};

    ghost from_gives = { λ _ fault. fault ≡ Memory };

    fn from(_: AllocFailed<T>) -> Fault {
        Fault::Memory
    }
}
