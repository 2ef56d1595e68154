//! Why there is no plan, and no setup.
ghost use Rattle.std.specs.Prelude.{◌≡◌};
ghost use Rattle.host_plan.specs.declared.fault.PlanFault.TheVariants as faults;
ghost use Rattle.host_plan.specs.declared.fault.SetupFault.TheVariants as setups;

use base_words::Memory;

/// Why a request has no plan.
#[derive(Clone, Copy, Debug, PartialEq, Eq)]
pub enum PlanFault {
    /// The counters that it takes pass their end.
    ClockEnd,
    /// Want of memory.
    Memory,
}

impl From<Memory> for PlanFault {
    ghost from_gives = { λ _ e. e ≡ faults.Memory };

    fn from(_e: Memory) -> PlanFault {
        PlanFault::Memory
    }
}

/// Why the shards are not set up.
#[derive(Clone, Copy, Debug, PartialEq, Eq)]
pub enum SetupFault {
    /// The counters end before each shard has one.
    ClockEnd,
    /// Want of memory.
    Memory,
}

impl From<Memory> for SetupFault {
    ghost from_gives = { λ _ e. e ≡ setups.Memory };

    fn from(_e: Memory) -> SetupFault {
        SetupFault::Memory
    }
}
