//! A table with its workers, for tests and for the benchmark.
ghost use Rattle.std.specs.Prelude.{◌≡◌, ◌<◌, ◌≤◌, All, IfOk, length, map};
ghost use Rattle.host_table.specs.Table.{table, terms};
ghost use Rattle.host_table.specs.Calls.{AreAll, IsNew};
ghost use Rattle.host_table.specs.Terms.{IsClockOf, place_count};
ghost use Rattle.lamport_clocks.specs.Clock.{opening_reading};
ghost use Rattle.lamport_clocks.specs.Header.{header_by_path};
ghost use Rattle.table_tests.specs.Ready.{AreReady};
ghost use Rattle.table_tests.specs.Turns.{AreTurns, CanPass, CanWork, IsAtStart, Works, hand_of};

use crate::shards::shards;
use crate::turns::Turn;
use host_table::{Hand, Records};
use lamport_clocks::{Clock, Header};
use record_hash::Digests;
use std::alloc::{AllocError, Global};
use std::thread::{Threads, for_each_mut};
use tree_keys::Path;

/// A table of so many shards, their frontiers, and so many workers at its places, or for what memory was wanting.
pub fn set_up<D: Digests>(
    alloc: Global,
    d: &D,
    workers: u16,
    bits: u8,
    places: usize,
    end: u32,
) -> Result<(Records<D>, Vec<Path>, Vec<Turn>), &'static str>
    requires workers { (0 < workers) × (workers ≤ 64) }
    requires places { (0 < places) × (places ≤ 64) }
    requires bits { (0 < bits) × (bits ≤ 6) }
    requires end { 64 ≤ end }
    ensures digests { IfOk result (λ made. (D.functions d.now).digest ≡ (terms D.functions made.0).digest) }
    ensures ready { IfOk result (λ made. AreReady made.1.items (terms D.functions made.0).contents) }
    ensures some { IfOk result (λ made. 0 < length made.1.items) }
    ensures turns { IfOk result (λ made. AreTurns (terms D.functions made.0) (table made.0) made.2.items
        × (length made.2.items ≡ (terms D.functions made.0).workers)) }
{
    let Ok((frontiers, contents)) = shards(alloc, places, bits) else {
        return Err("no shards");
    };
    let Ok((records, hands)) = Records::make(alloc, d, &header(end), contents, workers, false)
    else {
        return Err("no table");
    };
    let Ok(turns) = turns_of(alloc, &records, hands, end) else {
        return Err("no workers");
    };
    Ok((records, frontiers, turns))
}

// The numbers of the tests' bundle, whose counters end here.
pub(crate) fn header(end: u32) -> Header
    ensures value { result ≡ header_by_path 64 128 1 end }
{
    Header::by_path(64, 128, 1, end)
}

// The workers with these hands, each with a clock at its start.
fn turns_of<D: Digests>(
    alloc: Global,
    records: &Records<D>,
    hands: Vec<Hand>,
    end: u32,
) -> Result<Vec<Turn>, AllocError>
    requires hands { AreAll (table records.now) (terms D.functions records.now).workers hands.items }
    requires new { All IsNew hands.items }
    requires clock { IsClockOf (terms D.functions records.now) (opening_reading 1 end) }
    ensures turns { IfOk result (λ turns. AreTurns (terms D.functions records.now) (table records.now) turns.items
        × (length turns.items ≡ (terms D.functions records.now).workers)) }
{
    let turns = seated(alloc, hands, end)?;
    Ok(turns)
}

fn seated(alloc: Global, hands: Vec<Hand>, end: u32) -> Result<Vec<Turn>, AllocError>
    ensures hands { IfOk result (λ turns. map hand_of turns.items ≡ hands.items) }
    ensures start { IfOk result (λ turns. All (IsAtStart (opening_reading 1 end)) turns.items) }
{
    let mut turns = Vec::new(alloc);
    for hand in hands {
        turns.push(Turn {
            hand,
            clock: Clock::new(1, end),
            ended: false,
            log: Vec::new(alloc),
            busy: 0,
            wanting: 0,
        })?;
    }
    Ok(turns)
}

/// The workers once all have worked, each in a thread.
pub fn worked<R: Threads + Sync, D: Digests + Sync>(
    rt: &R,
    alloc: Global,
    d: &D,
    records: &Records<D>,
    frontiers: &[Path],
    bits: u8,
    rounds: u64,
    step: u64,
    turns: Vec<Turn>,
) -> Vec<Turn>
    requires digests { (D.functions d.now).digest ≡ (terms D.functions records.now).digest }
    requires bits { (0 < bits) × (bits ≤ 6) }
    requires ready { AreReady frontiers.now (terms D.functions records.now).contents }
    requires some { 0 < length frontiers.now }
    requires turns { AreTurns (terms D.functions records.now) (table records.now) turns.items }
    ensures turns { AreTurns (terms D.functions records.now) (table records.now) result.items }
    ensures count { length result.items ≡ length turns.items }
{
    let mut turns = turns;
    work_all(
        rt,
        alloc,
        d,
        records,
        frontiers,
        bits,
        rounds,
        step,
        turns.as_mut_slice(),
    );
    turns
}

// All workers work, each in a thread.
fn work_all<R: Threads + Sync, D: Digests + Sync>(
    rt: &R,
    alloc: Global,
    d: &D,
    records: &Records<D>,
    frontiers: &[Path],
    bits: u8,
    rounds: u64,
    step: u64,
    turns: &mut [Turn],
)
    requires digests { (D.functions d.now).digest ≡ (terms D.functions records.now).digest }
    requires bits { (0 < bits) × (bits ≤ 6) }
    requires ready { AreReady frontiers.now (terms D.functions records.now).contents }
    requires some { 0 < length frontiers.now }
    requires turns { AreTurns (terms D.functions records.now) (table records.now) turns.old }
    ensures turns { AreTurns (terms D.functions records.now) (table records.now) turns.new }
    ensures count { length turns.new ≡ length turns.old }
{
    let threads = turns.len().max(1);
    for_each_mut(
        rt,
        turns,
        threads,
        &|_: usize, turn: &mut Turn|
            requires { CanWork (D.functions d.now).digest (terms D.functions records.now) (table records.now) bits frontiers.now turn.now }
            ensures { Works (terms D.functions records.entry.now) (table records.entry.now) turn.entry.now turn.exit.now }
        { turn.work(alloc, d, records, frontiers, bits, rounds, step) },
    );
}

/// The workers once each has taken a place and given it back so often, each in a thread.
pub fn passed<R: Threads + Sync, D: Digests + Sync>(
    rt: &R,
    records: &Records<D>,
    places: usize,
    rounds: u64,
    turns: Vec<Turn>,
) -> Vec<Turn>
    requires places { (0 < places) × (places ≤ place_count (terms D.functions records.now)) }
    requires turns { AreTurns (terms D.functions records.now) (table records.now) turns.items }
    ensures turns { AreTurns (terms D.functions records.now) (table records.now) result.items }
    ensures count { length result.items ≡ length turns.items }
{
    let mut turns = turns;
    pass_all(rt, records, places, rounds, turns.as_mut_slice());
    turns
}

fn pass_all<R: Threads + Sync, D: Digests + Sync>(
    rt: &R,
    records: &Records<D>,
    places: usize,
    rounds: u64,
    turns: &mut [Turn],
)
    requires places { (0 < places) × (places ≤ place_count (terms D.functions records.now)) }
    requires turns { AreTurns (terms D.functions records.now) (table records.now) turns.old }
    ensures turns { AreTurns (terms D.functions records.now) (table records.now) turns.new }
    ensures count { length turns.new ≡ length turns.old }
{
    let threads = turns.len().max(1);
    for_each_mut(
        rt,
        turns,
        threads,
        &|_: usize, turn: &mut Turn|
            requires { CanPass (terms D.functions records.now) (table records.now) places turn.now }
            ensures { Works (terms D.functions records.entry.now) (table records.entry.now) turn.entry.now turn.exit.now }
        { turn.pass(records, places, rounds) },
    );
}
