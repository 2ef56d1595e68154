//! A table with epochs and its workers, for tests.
ghost use Rattle.std.specs.Prelude.{◌≡◌, ◌<◌, ◌≤◌, All, IfOk, length, map};
ghost use Rattle.host_epochs.specs.Table.{table, terms};
ghost use Rattle.lamport_clocks.specs.Clock.{opening_reading};
ghost use Rattle.table_tests.specs.Rounds.{AreAtStart, AreRoundWorkers, CanWorkRound, IsNewWorker, IsShape, Works, hand_in};

use crate::round_workers::{RoundEnd, RoundWorker};
use crate::shards::shards;
use crate::table_workers::header;
use host_epochs::{Epochs, Hand};
use lamport_clocks::Clock;
use record_hash::Digests;
use std::alloc::{AllocError, Global};
use std::thread::{Threads, for_each_mut};

/// A table of so many shards, and so many workers at its places who may enter so many epochs more, or for what memory was wanting.
pub fn set_up_round<D: Digests>(
    alloc: Global,
    d: &D,
    workers: u16,
    places: usize,
    more: u64,
    end: u32,
) -> Result<(Epochs<D>, Vec<RoundWorker>), &'static str>
    requires workers { (0 < workers) × (workers ≤ 64) }
    requires places { (0 < places) × (places ≤ 64) }
    requires more { more ≤ 1000 }
    requires end { 64 ≤ end }
    ensures shape { IfOk result (λ made. IsShape (terms D.functions made.0) places workers more) }
    ensures workers { IfOk result (λ made. AreAtStart (terms D.functions made.0) (table made.0) made.1.items) }
{
    let Ok((_, contents)) = shards(alloc, places, 6) else {
        return Err("no shards");
    };
    let Ok((epochs, hands)) = Epochs::make(alloc, d, &header(end), contents, workers, more, false)
    else {
        return Err("no table");
    };
    let Ok(list) = seat_all(alloc, hands, end) else {
        return Err("no workers");
    };
    Ok((epochs, list))
}

// The workers with these hands, each with a clock at its start.
fn seat_all(alloc: Global, hands: Vec<Hand>, end: u32) -> Result<Vec<RoundWorker>, AllocError>
    ensures hands { IfOk result (λ list. map hand_in list.items ≡ hands.items) }
    ensures new { IfOk result (λ list. All (IsNewWorker (opening_reading 1 end)) list.items) }
{
    let mut list = Vec::new(alloc);
    for hand in hands {
        list.push(RoundWorker {
            hand,
            clock: Clock::new(1, end),
            entered: 0,
            scans: 0,
            busy: 0,
            end: RoundEnd::Going,
        })?;
    }
    Ok(list)
}

/// All workers go on from epoch to epoch, each in a thread.
pub fn go_on<R: Threads + Sync, D: Digests + Sync>(
    rt: &R,
    epochs: &Epochs<D>,
    places: usize,
    workers: u16,
    more: u64,
    list: Vec<RoundWorker>,
) -> Vec<RoundWorker>
    requires shape { IsShape (terms D.functions epochs.now) places workers more }
    requires start { AreAtStart (terms D.functions epochs.now) (table epochs.now) list.items }
    ensures all { AreRoundWorkers (terms D.functions epochs.now) (table epochs.now) result.items }
    ensures count { length result.items ≡ length list.items }
{
    let mut list = list;
    go_all(rt, epochs, places, workers, more, list.as_mut_slice());
    list
}

fn go_all<R: Threads + Sync, D: Digests + Sync>(
    rt: &R,
    epochs: &Epochs<D>,
    places: usize,
    workers: u16,
    more: u64,
    list: &mut [RoundWorker],
)
    requires shape { IsShape (terms D.functions epochs.now) places workers more }
    requires start { AreAtStart (terms D.functions epochs.now) (table epochs.now) list.old }
    ensures all { AreRoundWorkers (terms D.functions epochs.now) (table epochs.now) list.new }
    ensures count { length list.new ≡ length list.old }
{
    let threads = list.len().max(1);
    for_each_mut(
        rt,
        list,
        threads,
        &|_: usize, worker: &mut RoundWorker|
            requires { CanWorkRound (terms D.functions epochs.now) (table epochs.now) places workers more worker.now }
            ensures { Works (terms D.functions epochs.entry.now) (table epochs.entry.now) worker.entry.now worker.exit.now }
        { worker.work(epochs, places, workers, more) },
    );
}
