//! What a round asks of each worker, and where.
ghost use Rattle.std.specs.Prelude.{◌≡◌, ℕ, ◌+◌, ◌<◌, ◌≤◌, List, [], ◌++◌, IfOk, OnOk, get_or, length, map};
ghost use Rattle.std.specs.List.{AllByRecursion};
ghost use Rattle.record_text.specs.Longest.{longest_of};
ghost use Rattle.record_text.specs.Value.{IsBlob};
ghost use Rattle.host_world.specs.Behind.{host_of, StandsBehind};
ghost use Rattle.host_world.specs.Shown.{shown_world, digests_of, settings_of};
ghost use Rattle.record_text.specs.declared.request.Request.{Request};
ghost use Rattle.worker_threads.specs.Parts.{asked_of};
ghost use Rattle.worker_threads.specs.Phase.{numbered};
ghost use Rattle.worker_threads.specs.Round.{AreAskedSo, asked_up_to};

use base_words::Memory;
use host_world::World;
use record_hash::Digests;
use round_workers::Turn;
use script_text::{Phase, Requests};
use std::alloc::Global;

// For each of so many workers no turn yet.
fn no_turns<'a>(alloc: Global, workers: u16) -> Result<Vec<Vec<Turn<'a>>>, Memory>
    ensures count { IfOk result (λ turns. length turns.items ≡ workers) }
    ensures none { IfOk result (λ turns. AllByRecursion (λ own. own.items ≡ []) turns.items) }
{
    let mut turns = Vec::with_capacity(alloc, usize::from(workers))?;
    for _ in 0..workers {
        turns.push(Vec::new(alloc))?;
    }
    Ok(turns)
}

// The turns of a phase, which has this number in the round, join those of the workers, each of which has its own, in their order.
fn add_turns<'a, D: Digests>(
    world: &World<'_, D>,
    tasks: Phase<'a>,
    phase: u64,
    turns: &mut Vec<Vec<Turn<'a>>>,
) -> Result<(), Memory>
    requires behind { StandsBehind (D.functions (digests_of world.now)) world.now }
    requires short { AllByRecursion (λ task. IsBlob (longest_of (settings_of world.now).header) task.request.value) tasks }
    requires workers { AllByRecursion (λ task. task.worker < length turns.old.items) tasks }
    ensures count { OnOk result (length turns.new.items ≡ length turns.old.items) }
    ensures asked { OnOk result ((asks : ℕ → List (ℕ × Request))
        → AreAskedSo (host_of (D.functions (digests_of world.now)) world.now) (shown_world world.now) asks (map (λ own. own.items) turns.old.items)
        → AreAskedSo (host_of (D.functions (digests_of world.now)) world.now) (shown_world world.now)
        (λ i. asks i ++ numbered phase (asked_of i tasks.entry)) (map (λ own. own.items) turns.new.items)) }
{
    for task in tasks {
        let worker = usize::from(task.worker());
        let turn = Turn {
            place: world.place_for(&task.request()),
            phase,
            task,
        };
        turns[worker].push(turn)?;
    }
    Ok(())
}

/// The turns of so many workers in a round of so many phases, from one on: each has the tasks that are its own, in their order, with the
/// number of their phase in the round.
pub(crate) fn turns_by_worker<'a, D: Digests>(
    alloc: Global,
    world: &World<'_, D>,
    requests: &'a Requests,
    first: usize,
    phases: usize,
    workers: u16,
) -> Result<Vec<Vec<Turn<'a>>>, Memory>
    requires behind { StandsBehind (D.functions (digests_of world.now)) world.now }
    requires there { first + phases ≤ length requests.now }
    requires fits { first + phases ≤ 18446744073709551616 }
    requires short { (phase : ℕ) → AllByRecursion (λ task. IsBlob (longest_of (settings_of world.now).header) task.request.value)
        (get_or requests.now phase []) }
    requires workers { (phase : ℕ) → AllByRecursion (λ task. task.worker < workers) (get_or requests.now phase []) }
    ensures count { IfOk result (λ turns. length turns.items ≡ workers) }
    ensures asked { IfOk result (λ turns. AreAskedSo (host_of (D.functions (digests_of world.now)) world.now)
        (shown_world world.now) (λ i. asked_up_to requests.now first i phases) (map (λ own. own.items) turns.items)) }
{
    let mut turns = no_turns(alloc, workers)?;
    for number in 0..phases {
        add_turns(
            world,
            requests.phase(first + number),
            number as u64,
            &mut turns,
        )?;
    }
    Ok(turns)
}
