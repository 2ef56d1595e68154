//! Why nothing goes on from a seal.
ghost use Rattle.std.specs.Prelude.{◌≡◌};
ghost use Rattle.check_core.specs.Unresumed.{is_refusal, unresumed_status};

use base_words::Memory;
use fv_outside::Failure;
use report_text::Status;
use std::alloc::AllocError;

/// Why nothing goes on from a seal.
#[derive(Clone, Copy, Debug, PartialEq, Eq)]
pub(crate) enum Unresumed {
    /// The source begins with no seal.
    BadSeal,
    /// Its tag is another.
    NotTagged,
    /// It has this number, and the counter that number.
    Stale { sealed: u64, device: u64 },
    /// The counter failed.
    CounterFault,
    /// Memory was wanting, or the source failed or gave too much.
    Failed(Failure),
}

impl Unresumed {
    /// The status of a call that goes on for this reason, where its source may give so many bytes.
    pub(crate) fn status(&self, limit: u64) -> Status
        ensures value { result ≡ unresumed_status limit self.now }
    {
        match *self {
            Unresumed::BadSeal => Status::BadSeal,
            Unresumed::NotTagged => Status::NotTagged,
            Unresumed::Stale { sealed, device } => Status::Stale { sealed, device },
            Unresumed::CounterFault => Status::CounterFault,
            Unresumed::Failed(failure) => Status::of_failure(failure, limit),
        }
    }

    /// Whether the seal is refused, so that a line says so.
    pub(crate) fn is_refusal(&self) -> bool
        ensures value { result ≡ is_refusal self.now }
    {
        match self {
            Unresumed::BadSeal | Unresumed::NotTagged | Unresumed::Stale { .. } => true,
            Unresumed::CounterFault | Unresumed::Failed(_) => false,
        }
    }
}

impl From<Memory> for Unresumed {
    ghost use Rattle.fv_outside.specs.declared.failure.Failure.TheVariants.{Memory as OutOfMemory};
    ghost use Rattle.check_core.specs.declared.unresumed.Unresumed.TheVariants.{Failed};

    ghost from_gives = { λ _ unresumed. unresumed ≡ Failed OutOfMemory };

    fn from(_: Memory) -> Unresumed {
        Unresumed::Failed(Failure::Memory)
    }
}

impl From<AllocError> for Unresumed {
    ghost use Rattle.fv_outside.specs.declared.failure.Failure.TheVariants.{Memory as OutOfMemory};
    ghost use Rattle.check_core.specs.declared.unresumed.Unresumed.TheVariants.{Failed};

    ghost from_gives = { λ _ unresumed. unresumed ≡ Failed OutOfMemory };

    fn from(_: AllocError) -> Unresumed {
        Unresumed::Failed(Failure::Memory)
    }
}
