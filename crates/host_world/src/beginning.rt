//! How a world begins.
ghost use Rattle.std.specs.Prelude.{◌≡◌, ◌<◌, ◌↔◌, [], replicate, IfOk, Err};
ghost use Rattle.host_core.specs.World.{set_up};
ghost use Rattle.host_world.specs.declared.fault.ClockEnd.{ClockEnd};
ghost use Rattle.host_world.specs.declared.fault.WorldFault.TheVariants as faults;
ghost use Rattle.shipped_host.specs.Settings.{IsSettings};
ghost use Rattle.shipped_host.specs.ShippedHost.{shipped_host};
ghost use Rattle.host_world.specs.Shown.{shown_world, digests_of, requests_of, settings_of};
ghost use Rattle.shipped_host.specs.Ranges.{AreInRange, HaveShortValues};
ghost use Rattle.host_world.specs.Behind.{host_of, StandsWith};

use crate::fault::{ClockEnd, WorldFault};
use crate::seats::seats_for;
use crate::worker::workers_for;
use crate::world::World;
use base_words::Memory;
use host_plan::{SetupFault, setup};
use lamport_clocks::Clock;
use record_hash::Digests;
use script_text::Requests;
use shipped_host::Settings;
use std::alloc::Global;

// So many times the same number.
fn repeated(alloc: Global, number: u32, count: usize) -> Result<Vec<u32>, Memory>
    ensures repeated { IfOk result (λ numbers. numbers.items ≡ replicate count number) }
{
    let mut numbers = Vec::with_capacity(alloc, count)?;
    numbers.resize(count, number)?;
    Ok(numbers)
}

impl<'a, D: Digests> World<'a, D> {
    /// The world behind the setup, which worker 0 did, for these requests. It keeps taking memory from `alloc`.
    pub fn new(
        alloc: Global,
        d: &'a D,
        settings: &Settings,
        requests: &'a Requests,
    ) -> Result<Self, WorldFault>
        requires settings { IsSettings settings.now }
        requires keys { AreInRange settings.now.header requests.now }
        requires values { HaveShortValues settings.now.header requests.now }
        ensures set_up { IfOk result (λ world. shown_world world
            ≡ set_up (shipped_host (D.functions d.now) settings.now requests.now)) }
        ensures host { IfOk result (λ world. host_of (D.functions (digests_of world)) world
            ≡ shipped_host (D.functions d.now) settings.now requests.now) }
        ensures digests { IfOk result (λ world. digests_of world ≡ d.now) }
        ensures numbers { IfOk result (λ world. settings_of world ≡ settings.now) }
        ensures asked { IfOk result (λ world. requests_of world ≡ requests.now) }
        ensures behind { IfOk result (λ world. StandsWith (D.functions (digests_of world)) world (replicate settings.now.header.verifiers [])) }
        ensures clock_end { (end : ClockEnd) → (result ≡ Err (faults.ClockEnd end))
            ↔ ((settings.now.header.end < settings.now.shards)
            × (end ≡ record { worker = 0; at = record { epoch = settings.now.header.first; counter = 0 } })) }
    {
        let header = &settings.header;
        let (commands, contents) = match setup(alloc, settings.shards, header) {
            Ok(done) => done,
            Err(SetupFault::ClockEnd) => {
                return Err(WorldFault::ClockEnd(ClockEnd {
                    worker: 0,
                    at: Clock::new(header.first, header.end).at(),
                }));
            }
            Err(SetupFault::Memory) => return Err(WorldFault::Memory),
        };
        let shards = seats_for(alloc, contents)?;
        let workers = workers_for(alloc, header, settings.shards, commands)?;
        let scanned = repeated(alloc, header.first, usize::from(header.verifiers))?;
        let phase = if settings.rolling {
            requests.len() - 1
        } else {
            0
        };
        Ok(World {
            alloc,
            d,
            settings: *settings,
            requests,
            shards,
            workers,
            phase,
            closing: false,
            over: false,
            newest: header.first,
            scanned,
        })
    }
}
