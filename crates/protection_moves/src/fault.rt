//! Why a shard was not moved.
ghost use Rattle.std.specs.Prelude.{◌≡◌};
ghost use Rattle.protection_moves.specs.declared.fault.MoveFault.TheVariants as faults;

use base_words::Memory;

/// Why a shard was not moved.
#[derive(Clone, Copy, Debug, PartialEq, Eq)]
pub enum MoveFault {
    /// The counters that the move takes pass their end.
    ClockEnd,
    /// Want of memory.
    Memory,
}

impl From<Memory> for MoveFault {
    ghost from_gives = { λ _ e. e ≡ faults.Memory };

    fn from(_e: Memory) -> MoveFault {
        MoveFault::Memory
    }
}
