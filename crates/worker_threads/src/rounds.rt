//! The round of a script, served by all workers at once.
ghost use Rattle.std.specs.Prelude.{◌≡◌, ◌+◌, ◌≤◌, ◌<◌, ℕ, List, IfOk, IfSome, OnOk, Ok, None, length, map, replicate, true, false, if◌then◌else◌};
ghost use Rattle.std.specs.List.{AllByRecursion};
ghost use Rattle.log_codec.specs.declared.command.Command.{Command};
ghost use Rattle.slot_rewriting.specs.Writing.{written_logs};
ghost use Rattle.verifier_run.specs.Progress.{weight};
ghost use Rattle.host_core.specs.World.{logs_of};
ghost use Rattle.host_rounds.specs.Feeding.{AllRead};
ghost use Rattle.host_world.specs.Behind.{host_of, StandsBehind, StandsWith, AreOfOneHost};
ghost use Rattle.host_world.specs.Shown.{shown_world, digests_of, settings_of};
ghost use Rattle.host_world.specs.Workers.{shown_worker};
ghost use Rattle.host_serving.specs.Leading.{Leads, LeadsAs};
ghost use Rattle.host_serving.specs.Form.{AreOfRound};
ghost use Rattle.host_serving.specs.Standing.{turns_of, BeginsRound, EndsRound, NoneStopped, SomeStopped};
ghost use Rattle.worker_threads.specs.Phase.{first_stopped};
ghost use Rattle.worker_threads.specs.Round.{newest_of, noted_of};

use crate::pairing::{Participants, serve_at_table};
use crate::round_laws::{
    rounds_at_once_are_lists_of_events, rounds_can_be_made, tables_are_of_their_rounds,
};
use crate::turns::turns_by_worker;
use base_words::Memory;
use certified_epochs::FedRun;
use fv_outside::Gate;
use host_epochs::Epochs;
use host_world::{ClockEnd, Worker, World};
use merkle_records::digests_have_32_bytes;
use record_hash::Digests;
use round_workers::SharedRound;
use script_text::Requests;
use std::alloc::Global;
use std::mem;
use std::sync::Wait;
use std::sync::atomic::AtomicBool;
use std::thread::Threads;

// Where the clock of the first stopped worker ended.
fn first_end_of(workers: &[Worker]) -> Option<ClockEnd>
    requires few { length workers.now ≤ 65536 }
    ensures first { result ≡ first_stopped 0 (map shown_worker workers.now) }
{
    for (number, worker) in workers.iter().enumerate() {
        if worker.stopped {
            return Some(ClockEnd {
                worker: number as u16,
                at: worker.clock.at(),
            });
        }
    }
    None
}

// The first phase of a round, and how many it has: in a rolling host all.
fn phases_of_round(rolling: bool, phase: usize, requests: &Requests) -> (usize, usize)
    ensures first { result.0 ≡ (if rolling then 0 else phase) }
    ensures phases { result.1 ≡ (if rolling then length requests.now else 1) }
    ensures some { 0 < result.1 }
    ensures fits { result.0 + result.1 ≤ 18446744073709551616 }
{
    if rolling {
        (0, requests.len())
    } else {
        (phase, 1)
    }
}

// The newest of the workers' epochs, which are not before the first.
fn newest_epoch(first: u32, workers: &[Worker]) -> u32
    ensures newest { result ≡ newest_of first (map shown_worker workers.now) }
{
    let mut newest = first;
    for worker in workers {
        newest = newest.max(worker.clock.at().epoch);
    }
    newest
}

// In a rolling host, the world notes how far the workers of a round came, and where the first clock ended.
fn note_round<D: Digests>(
    world: &mut World<'_, D>,
    rolling: bool,
    first: u32,
    workers: &[Worker],
    end: &Option<ClockEnd>,
)
    ensures plain { rolling ≡ false → shown_world world.new ≡ shown_world world.old }
    ensures noted { rolling ≡ true → shown_world world.new ≡ record (shown_world world.old) {
      newest = newest_of first (map shown_worker workers.now);
      scanned = replicate (length (shown_world world.old).scanned) (noted_of end.now first (newest_of first (map shown_worker workers.now)));
    } }
    ensures host { AreOfOneHost world.old world.new }
{
    if !rolling {
        return;
    }
    let newest = newest_epoch(first, workers);
    let scanned = match end {
        None => newest,
        Some(_) => newest.saturating_sub(1).max(first),
    };
    world.note_epochs(newest, scanned);
}

/// Serves the requests of the world's round, all workers at once, each in a thread of its own and its requests in the script's
/// order, past the gate: those of its phase, or in a rolling host the whole script, where each worker goes on to the next epoch as soon
/// as all may. A worker whose clock ends serves no more in this round. What they did was one list of events, those of a round in their
/// one order, and the answer is the first end that these come to. After want of memory the world is of no more use.
///
/// Each worker's verifier takes what is in the worker's log, as it comes, in the version that the header says: its run is that of
/// the worker's number, and was fed so many bytes at most. Before each poll it enters the gate, by its number behind those of the
/// workers and with the number of parcels that it took so far, here and before: it goes on with its count of these, and leaves it as
/// it then is.
pub fn serve_round_at_once<R: Threads + Wait + Sync, D: Digests + Sync, G: Gate + Sync>(
    rt: &R,
    alloc: Global,
    world: &mut World<'_, D>,
    gate: &G,
    runs: &mut Vec<FedRun>,
    bytes: u64,
    parcels: &mut Vec<u64>,
) -> Result<Option<ClockEnd>, Memory>
    requires behind { StandsBehind (D.functions (digests_of world.old)) world.old }
    requires begins { BeginsRound (host_of (D.functions (digests_of world.old)) world.old) (shown_world world.old) }
    requires running { NoneStopped (host_of (D.functions (digests_of world.old)) world.old) (shown_world world.old) }
    requires workers { (phase : ℕ) → AllByRecursion (λ turn. turn.0 < length (shown_world world.old).workers)
        (turns_of (host_of (D.functions (digests_of world.old)) world.old) phase) }
    requires runs { length runs.old.items ≡ length (shown_world world.old).workers }
    requires few { AllByRecursion (λ fed. weight fed.run ≤ bytes) runs.old.items }
    requires parcels { length parcels.old.items ≡ length (shown_world world.old).workers }
    ensures leads { IfOk result (λ end. Leads (host_of (D.functions (digests_of world.old)) world.old)
        (shown_world world.old) (shown_world world.new) end) }
    ensures form { IfOk result (λ end. LeadsAs AreOfRound (host_of (D.functions (digests_of world.old)) world.old)
        (shown_world world.old) (shown_world world.new) end) }
    ensures done { OnOk result (EndsRound (host_of (D.functions (digests_of world.old)) world.old)
        (shown_world world.new)) }
    ensures phase { OnOk result ((shown_world world.new).phase ≡ (shown_world world.old).phase) }
    ensures running { result ≡ Ok None
        → NoneStopped (host_of (D.functions (digests_of world.old)) world.old) (shown_world world.old)
        → NoneStopped (host_of (D.functions (digests_of world.old)) world.old) (shown_world world.new) }
    ensures stopped { IfOk result (λ end. IfSome end
        (λ _. SomeStopped (host_of (D.functions (digests_of world.old)) world.old) (shown_world world.new))) }
    ensures lowest { IfOk result (λ end. end ≡ first_stopped 0 (shown_world world.new).workers) }
    ensures host { AreOfOneHost world.old world.new }
    ensures behind { OnOk result (StandsBehind (D.functions (digests_of world.new)) world.new) }
    ensures goes_on { OnOk result ((logs : List (List Command)) → StandsWith (D.functions (digests_of world.old)) world.old logs
        → StandsWith (D.functions (digests_of world.new)) world.new logs) }
    ensures taken { OnOk result (AllRead (D.functions (digests_of world.old))
        (written_logs (settings_of world.old).header (logs_of (shown_world world.new))) runs.old.items runs.new.items) }
    ensures parcels { OnOk result (length parcels.new.items ≡ length parcels.old.items) }
{
    rounds_can_be_made();
    tables_are_of_their_rounds();
    rounds_at_once_are_lists_of_events();
    let d = world.digests();
    digests_have_32_bytes(d);
    let settings = world.settings();
    let header = settings.header;
    let requests = world.requests();
    let (first, phases) = phases_of_round(settings.rolling, world.phase(), requests);
    let more = (phases - 1) as u64;
    let turns = turns_by_worker(alloc, world, requests, first, phases, header.verifiers)?;
    let contents = world.lend()?;
    let workers = world.lend_workers();
    let Ok((epochs, hands)) = Epochs::make(
        alloc,
        d,
        &header,
        contents,
        header.verifiers,
        more,
        settings.absent,
    ) else {
        return Err(Memory);
    };
    let wanting = AtomicBool::new(false);
    let shared = SharedRound {
        alloc,
        d,
        turns: turns.as_slice(),
        epochs: &epochs,
        header,
        workers: header.verifiers,
        shards: settings.shards,
        more,
        absent: settings.absent,
        wanting: &wanting,
    };
    let participants = Participants {
        workers,
        hands,
        runs: mem::replace(runs, Vec::new(alloc)),
        parcels: mem::replace(parcels, Vec::new(alloc)),
    };
    let left = serve_at_table(rt, &shared, gate, participants, bytes)?;
    let end = first_end_of(left.workers.as_slice());
    *runs = left.runs;
    *parcels = left.parcels;
    world.take_back(epochs.close(left.hands));
    note_round(
        world,
        settings.rolling,
        header.first,
        left.workers.as_slice(),
        &end,
    );
    world.take_workers(left.workers);
    Ok(end)
}
