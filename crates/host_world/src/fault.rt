//! Where clocks end, and why there is no world.
ghost use Rattle.std.specs.Prelude.{◌≡◌};
ghost use Rattle.host_world.specs.declared.fault.WorldFault.TheVariants as faults;

use base_words::Memory;
use lamport_clocks::Stamp;

/// A worker's clock ended: a counter would pass its end, or there is no epoch to come.
#[derive(Clone, Copy, Debug, PartialEq, Eq)]
pub struct ClockEnd {
    pub worker: u16,
    /// Where its clock stands.
    pub at: Stamp,
}

/// Why there is no world.
#[derive(Clone, Copy, Debug, PartialEq, Eq)]
pub enum WorldFault {
    /// The setup's counters pass their end.
    ClockEnd(ClockEnd),
    /// Want of memory.
    Memory,
}

impl From<Memory> for WorldFault {
    ghost from_gives = { λ _ e. e ≡ faults.Memory };

    fn from(_e: Memory) -> WorldFault {
        WorldFault::Memory
    }
}

/// Want of memory within a list of events: so many of them are done.
#[derive(Clone, Copy, Debug, PartialEq, Eq)]
pub struct EventStop {
    pub done: usize,
}
