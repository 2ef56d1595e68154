//! The move of a shard at a close: of which two keys become hot, and to which they come back while another becomes hot.
ghost use Rattle.std.specs.Prelude.{IfOk};
ghost use Rattle.host_shard.specs.Shown.{shown_content};
ghost use Rattle.starved_tests.specs.Fit.{IsFit};

use crate::outcome::{Fault, Outcome};
use crate::same::are_written_as;
use crate::seat::Seat;
use bundle_rows::log_of;
use host_plan::Commands;
use lamport_clocks::Stamp;
use std::alloc::Global;

// What tools/slow/plans.py prints for this shard at the first close, with a threshold of 1.
const AWAY: &str = "
addB /0 4/63:0152,- 0.6 v0
addM 4/63 4:63,5:64 /0
addM 4 61 4/63
evictBM 4 4/63 1.2
evictM 4/63 /0
addM 4/63 4?63,5:64 /0
addM 5 62 4/63
evictBM 5 4/63 1.3
evictM 4/63 /0
evictB /0 1.4
";

// And at the second.
const BACK: &str = "
addB /0 4/62:0145,- 1.8 v0
addM 4/62 4/63:0154,6:65 /0
addM 4/63 4?63,5?64 4/62
addB 4 61 1.2 v0
evictM 4 4/63
evictM 4/63 4/62
evictM 4/62 /0
addM 4/62 4/63:0153,6:65 /0
addM 4/63 4:63,5?64 4/62
addB 5 62 1.3 v0
evictM 5 4/63
evictM 4/63 4/62
evictM 4/62 /0
addM 4/62 4/63:0152,6:65 /0
addM 6 63 4/62
evictBM 6 4/62 2.4
evictM 4/62 /0
evictB /0 2.5
";

/// Two keys become hot.
pub fn away(alloc: Global) -> Result<Outcome, Fault> {
    let mut seat = two_put(alloc)?;
    let twin = two_put(alloc)?;
    moved(
        alloc,
        &mut seat,
        &twin,
        AWAY,
        Stamp {
            epoch: 1,
            counter: 4,
        },
    )
}

/// They come back, and another key becomes hot.
pub fn back(alloc: Global) -> Result<Outcome, Fault> {
    let mut seat = two_away(alloc)?;
    let twin = two_away(alloc)?;
    moved(
        alloc,
        &mut seat,
        &twin,
        BACK,
        Stamp {
            epoch: 2,
            counter: 5,
        },
    )
}

// Two keys were put, and the epoch is over.
fn two_put(alloc: Global) -> Result<Seat, Fault>
    ensures fit { IfOk result (λ seat. IsFit (shown_content seat.cold)) }
{
    let mut seat = Seat::after(alloc, &[(4, b'a'), (5, b'b')])?;
    seat.next_epoch()?;
    Ok(seat)
}

// They are hot, a third was put, and the next epoch is over. The move of the other shard took the counters up to 6.
fn two_away(alloc: Global) -> Result<Seat, Fault>
    ensures fit { IfOk result (λ seat. IsFit (shown_content seat.cold)) }
{
    let mut seat = two_put(alloc)?;
    match go_away(alloc, &mut seat) {
        Ok(()) => Ok(seat),
        Err(fault) => Err(fault),
    }
}

fn go_away(alloc: Global, seat: &mut Seat) -> Result<(), Fault>
    requires fit { IsFit (shown_content seat.old.cold) }
    ensures fit { IsFit (shown_content seat.new.cold) }
{
    let _ = seat.close(alloc)?;
    seat.go_to(1, 6)?;
    let _ = seat.put(alloc, 6, b'c')?;
    seat.next_epoch()
}

// A move, which is logged in these rows and leaves the clock at this stamp.
fn moved(
    alloc: Global,
    seat: &mut Seat,
    twin: &Seat,
    rows: &str,
    stamp: Stamp,
) -> Result<Outcome, Fault>
    requires fit { IsFit (shown_content seat.old.cold) }
{
    let wanted = log_of(alloc, rows.trim())?;
    match seat.close(alloc) {
        Ok(commands) => look(&commands, seat, &wanted, stamp, Outcome::Made),
        Err(Fault::Memory) => moved_again(alloc, seat, twin, &wanted, stamp),
        Err(fault) => Err(fault),
    }
}

// The same move, for which memory was wanting, where all is as before.
fn moved_again(
    alloc: Global,
    seat: &mut Seat,
    twin: &Seat,
    wanted: &[u8],
    stamp: Stamp,
) -> Result<Outcome, Fault>
    requires fit { IsFit (shown_content seat.old.cold) }
{
    if !seat.is_same(twin) {
        return Err(Fault::Amiss("another shard, hot place or clock than before"));
    }
    match seat.close(alloc) {
        Ok(commands) => look(&commands, seat, wanted, stamp, Outcome::MadeAgain),
        Err(_) => Err(Fault::Amiss("no move when asked again")),
    }
}

// How it was made, where the move is this one, and the shard waits with the clock's stamp.
fn look(
    commands: &Commands,
    seat: &Seat,
    wanted: &[u8],
    stamp: Stamp,
    outcome: Outcome,
) -> Result<Outcome, Fault> {
    if !are_written_as(commands.as_slice(), wanted) {
        return Err(Fault::Amiss("another move"));
    }
    match seat.cold.pending() {
        Some(element) if element.stamp == stamp && seat.clock.at() == stamp => Ok(outcome),
        _ => Err(Fault::Amiss("another stamp")),
    }
}
