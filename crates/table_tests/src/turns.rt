//! A worker in its thread.
ghost use Rattle.std.specs.Prelude.{◌≡◌, ◌<◌, ◌≤◌, false, length};
ghost use Rattle.host_table.specs.Table.{table, terms};
ghost use Rattle.host_table.specs.Terms.{place_count};
ghost use Rattle.table_tests.specs.Ready.{AreReady, IsOpenBelow};

use crate::shards::request_of;
use host_plan::Plan;
use host_table::{Attempt, Hand, Records, Taking};
use lamport_clocks::Clock;
use record_hash::Digests;
use record_text::Request;
use std::alloc::Global;
use tree_keys::Path;

/// A request that was served, with the clock before it.
#[derive(Drop)]
pub struct Served {
    pub place: usize,
    pub worker: u16,
    pub request: Request,
    pub clock: Clock,
    pub later: Clock,
    pub plan: Plan,
}

/// A worker: its hand, its clock and whether that ended, what it served, how often it found a place held, and how often it
/// wanted memory.
#[derive(Drop)]
pub struct Turn {
    pub hand: Hand,
    pub clock: Clock,
    pub ended: bool,
    pub log: Vec<Served>,
    pub busy: u64,
    pub wanting: u64,
}

impl Turn {
    ghost use Rattle.table_tests.specs.Turns.{CanPass, IsTurn, Works};

    /// Tries so often, first at the place of the worker's number, and each time so many places further.
    pub(crate) fn work<D: Digests>(
        &mut self,
        alloc: Global,
        d: &D,
        records: &Records<D>,
        frontiers: &[Path],
        bits: u8,
        rounds: u64,
        step: u64,
    )
        requires digests { (D.functions d.now).digest ≡ (terms D.functions records.now).digest }
        requires few { (0 < bits) × (bits ≤ 6) }
        requires ready { AreReady frontiers.now (terms D.functions records.now).contents }
        requires some { 0 < length frontiers.now }
        requires turn { IsTurn (terms D.functions records.now) (table records.now) self.old }
        ensures works { Works (terms D.functions records.now) (table records.now) self.old self.new }
    {
        let first = usize::from(self.hand.worker());
        for round in 0..rounds {
            if self.ended {
                break;
            }
            let place = place_of(first, round, step, frontiers.len());
            self.attempt(alloc, d, records, place, &frontiers[place], bits, round);
        }
    }

    /// Takes the place of the worker's number so often, and gives it back as it is.
    pub(crate) fn pass<D: Digests>(&mut self, records: &Records<D>, places: usize, rounds: u64)
        requires can { CanPass (terms D.functions records.now) (table records.now) places self.old }
        ensures works { Works (terms D.functions records.now) (table records.now) self.old self.new }
    {
        if self.ended {
            return;
        }
        let place = usize::from(self.hand.worker()) % places;
        for _ in 0..rounds {
            self.pass_once(records, place);
        }
    }

    fn pass_once<D: Digests>(&mut self, records: &Records<D>, place: usize)
        requires place { place < place_count (terms D.functions records.now) }
        requires turn { IsTurn (terms D.functions records.now) (table records.now) self.old }
        requires going { self.old.ended ≡ false }
        ensures works { Works (terms D.functions records.now) (table records.now) self.old self.new }
        ensures going { self.new.ended ≡ false }
    {
        match records.try_take(&mut self.hand, place) {
            Taking::Taken(content) => records.give(&mut self.hand, place, content, None),
            Taking::Busy => self.busy = self.busy.saturating_add(1),
        }
    }

    // One attempt at a place, for a key below its frontier.
    fn attempt<D: Digests>(
        &mut self,
        alloc: Global,
        d: &D,
        records: &Records<D>,
        place: usize,
        frontier: &Path,
        bits: u8,
        round: u64,
    )
        requires digests { (D.functions d.now).digest ≡ (terms D.functions records.now).digest }
        requires few { (0 < bits) × (bits ≤ 6) }
        requires ready { IsOpenBelow (terms D.functions records.now) place frontier.now }
        requires turn { IsTurn (terms D.functions records.now) (table records.now) self.old }
        requires going { self.old.ended ≡ false }
        ensures works { Works (terms D.functions records.now) (table records.now) self.old self.new }
    {
        let request = request_of(place, bits, round);
        if !Path::of_number(frontier.is_wide(), request.key).is_below(frontier) {
            return;
        }
        let clock = self.clock;
        match records.attempt(alloc, d, &mut self.hand, place, &request, &mut self.clock) {
            Attempt::Served(plan) => {
                let worker = self.hand.worker();
                let served = Served {
                    place,
                    worker,
                    request,
                    clock,
                    later: self.clock,
                    plan,
                };
                if self.log.push(served).is_err() {
                    self.wanting = self.wanting.saturating_add(1);
                }
            }
            Attempt::Busy => self.busy = self.busy.saturating_add(1),
            Attempt::ClockEnd => self.ended = true,
            Attempt::Memory => self.wanting = self.wanting.saturating_add(1),
        }
    }
}

// The place of a round, so many further each time.
fn place_of(first: usize, round: u64, step: u64, places: usize) -> usize
    requires some { 0 < places }
    ensures there { result < places }
{
    (round.wrapping_mul(step) as usize).wrapping_add(first) % places
}
