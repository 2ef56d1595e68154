//! The workers of a round, each paired with its verifier before the threads begin, and parted once all have ended.
ghost use Rattle.std.specs.Prelude.{◌≡◌, ◌≤◌, false, All, IfOk, OnOk, length, map};
ghost use Rattle.verifier_run.specs.Progress.{weight};
ghost use Rattle.host_epochs.specs.Table.{table, terms};
ghost use Rattle.worker_threads.specs.Participants.{AreToServe, AreToWatch, HaveAll, HaveServed, HaveReadLogs, hand_in, worker_in};
ghost use Rattle.worker_threads.specs.Pairs.{IsOpened, parcels_in, run_in};
ghost use Rattle.round_workers.specs.Sharing.{turns_in, IsSharedRound};

use crate::serving::serve_all;
use crate::worker_pair::WorkerPair;
use base_words::Memory;
use certified_epochs::FedRun;
use fv_outside::Gate;
use host_epochs::Hand;
use host_world::Worker;
use record_hash::Digests;
use round_workers::{SharedRound, WorkerThread};
use std::alloc::Global;
use std::sync::Wait;
use std::thread::Threads;
use verifier_feeds::open;

/// Who is there in a round: the workers, their hands at the table, and the runs of their verifiers, each with a count.
#[derive(Drop)]
pub(crate) struct Participants {
    pub(crate) workers: Vec<Worker>,
    pub(crate) hands: Vec<Hand>,
    pub(crate) runs: Vec<FedRun>,
    // How many parcels each verifier took so far.
    pub(crate) parcels: Vec<u64>,
}

// A worker with its hand, and beside it the feed of its verifier's run, which was fed so many bytes at most. The
// verifier took so many parcels so far.
fn pair_of(
    alloc: Global,
    worker: Worker,
    hand: Hand,
    run: FedRun,
    bytes: u64,
    parcels: u64,
) -> Result<WorkerPair, Memory>
    requires few { weight run.run ≤ bytes }
    ensures worker { IfOk result (λ pair. worker_in pair ≡ worker) }
    ensures hand { IfOk result (λ pair. hand_in pair ≡ hand) }
    ensures run { IfOk result (λ pair. run_in pair ≡ run) }
    ensures parcels { IfOk result (λ pair. parcels_in pair ≡ parcels) }
    ensures opened { IfOk result IsOpened }
{
    let (outbox, inbox) = open(alloc, run, bytes, parcels)?;
    let thread = WorkerThread {
        worker,
        hand,
        outbox,
        entered: 0,
        wanting: false,
    };
    Ok(WorkerPair { thread, inbox })
}

// The pairs of all workers, in their order.
fn pair_up(alloc: Global, participants: Participants, bytes: u64) -> Result<Vec<WorkerPair>, Memory>
    requires hands { length participants.hands.items ≡ length participants.workers.items }
    requires runs { length participants.runs.items ≡ length participants.workers.items }
    requires parcels { length participants.parcels.items ≡ length participants.workers.items }
    requires few { All (λ fed. weight fed.run ≤ bytes) participants.runs.items }
    ensures workers { IfOk result (λ pairs. map worker_in pairs.items ≡ participants.workers.items) }
    ensures hands { IfOk result (λ pairs. map hand_in pairs.items ≡ participants.hands.items) }
    ensures runs { IfOk result (λ pairs. map run_in pairs.items ≡ participants.runs.items) }
    ensures parcels { IfOk result (λ pairs. map parcels_in pairs.items ≡ participants.parcels.items) }
    ensures opened { IfOk result (λ pairs. All IsOpened pairs.items) }
{
    let Participants {
        workers,
        hands,
        runs,
        parcels,
    } = participants;
    let mut pairs = Vec::with_capacity(alloc, workers.len())?;
    let mut hands = hands.into_iter();
    let mut runs = runs.into_iter();
    let mut parcels = parcels.into_iter();
    for worker in workers {
        let Some(hand) = hands.next() else {
            unreachable!()
        };
        let Some(run) = runs.next() else {
            unreachable!()
        };
        let Some(count) = parcels.next() else {
            unreachable!()
        };
        pairs.push(pair_of(alloc, worker, hand, run, bytes, count)?)?;
    }
    Ok(pairs)
}

// The participants once their threads have ended, where memory was wanting for none.
fn take_apart(alloc: Global, pairs: Vec<WorkerPair>) -> Result<Participants, Memory>
    ensures workers { IfOk result (λ participants. participants.workers.items ≡ map worker_in pairs.items) }
    ensures hands { IfOk result (λ participants. participants.hands.items ≡ map hand_in pairs.items) }
    ensures runs { IfOk result (λ participants. participants.runs.items ≡ map run_in pairs.items) }
    ensures parcels { IfOk result (λ participants. participants.parcels.items ≡ map parcels_in pairs.items) }
    ensures served { OnOk result (All HaveAll pairs.items) }
{
    let mut workers = Vec::with_capacity(alloc, pairs.len())?;
    let mut hands = Vec::with_capacity(alloc, pairs.len())?;
    let mut runs = Vec::with_capacity(alloc, pairs.len())?;
    let mut parcels = Vec::with_capacity(alloc, pairs.len())?;
    for pair in pairs {
        let WorkerPair { thread, inbox } = pair;
        let WorkerThread {
            worker,
            hand,
            outbox: _,
            entered: _,
            wanting,
        } = thread;
        if wanting {
            return Err(Memory);
        }
        workers.push(worker)?;
        hands.push(hand)?;
        parcels.push(inbox.parcels())?;
        runs.push(inbox.into_run()?)?;
    }
    Ok(Participants {
        workers,
        hands,
        runs,
        parcels,
    })
}

/// All workers do their parts of the round, each by its hand, and their verifiers' runs are fed with what they log, each
/// in a thread of its own.
pub(crate) fn serve_at_table<R: Threads + Wait + Sync, D: Digests + Sync, G: Gate + Sync>(
    rt: &R,
    shared: &SharedRound<'_, D>,
    gate: &G,
    participants: Participants,
    bytes: u64,
) -> Result<Participants, Memory>
    requires shared { IsSharedRound D.functions shared.now }
    requires ready { AreToServe (terms D.functions shared.now.epochs.now) (table shared.now.epochs.now) participants.workers.items participants.hands.items }
    requires watch { AreToWatch participants.workers.items bytes participants.runs.items }
    requires parcels { length participants.parcels.items ≡ length participants.workers.items }
    ensures served { IfOk result (λ left. HaveServed (terms D.functions shared.now.epochs.now) (table shared.now.epochs.now)
        (turns_in shared.now) participants.workers.items left.workers.items left.hands.items) }
    ensures taken { IfOk result (λ left. HaveReadLogs (D.functions shared.now.d.now) left.workers.items participants.runs.items left.runs.items) }
    ensures parcels { IfOk result (λ left. length left.parcels.items ≡ length participants.parcels.items) }
{
    let pairs = pair_up(shared.alloc, participants, bytes)?;
    let met = serve_all(rt, shared, gate, pairs)?;
    take_apart(shared.alloc, met)
}
