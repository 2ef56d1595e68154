//! A put that makes a fork, and one for whose last record the tree that keeps them has no room.
ghost use Rattle.host_shard.specs.Shown.{shown_content};
ghost use Rattle.starved_tests.specs.Fit.{IsFit};

use crate::outcome::{Fault, Outcome};
use crate::same::are_written_as;
use crate::seat::Seat;
use bundle_rows::log_of;
use host_plan::Plan;
use lamport_clocks::Stamp;
use record_text::Blob;
use std::alloc::Global;

/// What tools/slow/plans.py prints for the last of two puts.
pub const FORK: &str = "
addB /0 0:63,- 0.4 v0
addM 0/63 -,- /0
addM 1 none 0/63
put 1 62
evictM 1 0/63
evictM 0/63 /0
evictB /0 0.6
";

// The puts before it, where there are 14 records then: a node of the tree that keeps them has room for 15.
const MANY: [(u128, u8); 8] = [
    (0, b'a'),
    (2, b'b'),
    (4, b'c'),
    (6, b'd'),
    (8, b'e'),
    (10, b'f'),
    (12, b'g'),
    (4_611_686_018_427_387_904, b'h'),
];

// What it prints for one behind these.
const SPLIT: &str = "
addB /0 0/60:010d,4611686018427387904:6a 0.18 v0
addM 0/60 0/61:0126,8/61:0161 /0
addM 0/61 0/62:014b,4/62:0157 0/60
addM 0/62 0:63,2:64 0/61
addM 0/63 -,- 0/62
addM 1 none 0/63
put 1 62
evictM 1 0/63
evictM 0/63 0/62
evictM 0/62 0/61
evictM 0/61 0/60
evictM 0/60 /0
evictB /0 0.20
";

/// A put of the key beside the only one.
pub fn fork(alloc: Global) -> Result<Outcome, Fault> {
    put_behind(alloc, &[(0, b'a')], FORK, 6)
}

/// The same put where a node of the records' tree has to be split for it, once the fork has its record.
pub fn split(alloc: Global) -> Result<Outcome, Fault> {
    put_behind(alloc, &MANY, SPLIT, 20)
}

// A put behind others, which is logged in these rows and leaves the clock at this counter.
fn put_behind(
    alloc: Global,
    puts: &[(u128, u8)],
    rows: &str,
    counter: u32,
) -> Result<Outcome, Fault> {
    let mut seat = Seat::after(alloc, puts)?;
    let twin = Seat::after(alloc, puts)?;
    put_once(alloc, &mut seat, &twin, rows, counter)
}

// The put, once or twice.
fn put_once(
    alloc: Global,
    seat: &mut Seat,
    twin: &Seat,
    rows: &str,
    counter: u32,
) -> Result<Outcome, Fault>
    requires fit { IsFit (shown_content seat.old.cold) }
{
    let wanted = log_of(alloc, rows.trim())?;
    match seat.put(alloc, 1, b'b') {
        Ok(plan) => look(&plan, seat, &wanted, counter, Outcome::Made),
        Err(Fault::Memory) => put_again(alloc, seat, twin, &wanted, counter),
        Err(fault) => Err(fault),
    }
}

// The same put, for which memory was wanting, where all is as before.
fn put_again(
    alloc: Global,
    seat: &mut Seat,
    twin: &Seat,
    wanted: &[u8],
    counter: u32,
) -> Result<Outcome, Fault>
    requires fit { IsFit (shown_content seat.old.cold) }
{
    if !seat.is_same(twin) {
        return Err(Fault::Amiss("another shard or clock than before"));
    }
    match seat.put(alloc, 1, b'b') {
        Ok(plan) => look(&plan, seat, wanted, counter, Outcome::MadeAgain),
        Err(_) => Err(Fault::Amiss("no plan when asked again")),
    }
}

// How it was made, where the plan is this one, and the shard waits with the clock's stamp.
fn look(
    plan: &Plan,
    seat: &Seat,
    wanted: &[u8],
    counter: u32,
    outcome: Outcome,
) -> Result<Outcome, Fault> {
    let stamp = Stamp { epoch: 0, counter };
    if !are_written_as(plan.commands.as_slice(), wanted)
        || Some(plan.answer.copy()) != Blob::of_bytes(b"b")
    {
        return Err(Fault::Amiss("another plan"));
    }
    match seat.cold.pending() {
        Some(element) if element.stamp == stamp && seat.clock.at() == stamp => Ok(outcome),
        _ => Err(Fault::Amiss("another stamp")),
    }
}
