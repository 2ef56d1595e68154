//! What a run keeps of the commands that its verifier accepts.
ghost use Rattle.std.specs.Prelude.{◌≡◌, ◌<◌, ◌^◌, ◌++◌, ℕ, List, [], IfOk, IfErr, OnOk, OnErr, Err};
ghost use Rattle.std.specs.List.{AllByRecursion};
ghost use Rattle.std.specs.Option.{option_to_list};
ghost use Rattle.merkle_records.specs.Scheme.{scheme_of};
ghost use Rattle.verifier_commands.specs.Event.{Event};
ghost use Rattle.verifier_commands.specs.Trace.{performed};
ghost use Rattle.verifier_run.specs.Kept.{operation_in, part_in, Yields};

use base_words::Memory;
use log_codec::LogCommand;
use multiset_sum::Part;
use operation_queue::OperationQueue;
use record_hash::Digests;
use record_text::{Operation, Refusal};
use std::alloc::Global;
use verifier_commands::{Effect, Verifier};

/// What a run keeps of each accepted command.
pub trait Kept: Drop {
    /// Where what is kept waits.
    type Store: Drop;

    /// What is kept of an event.
    ghost keeps: { Event → List Self };

    /// The epoch of what is kept.
    ghost epoch: { Self → ℕ };

    /// What waits in a store.
    ghost held: { Self.Store → List Self };

    /// A store has room for one more.
    ghost fits: { Self.Store → Type 0 };

    /// A store in which nothing waits.
    fn new_store(alloc: Global) -> Self::Store
        ensures none { held result ≡ [] };

    /// Takes memory for one more.
    fn reserve(store: &mut Self::Store) -> Result<(), Memory>
        ensures room { OnOk result (fits store.new) }
        ensures items { held store.new ≡ held store.old };

    /// Has a verifier take a command, appends to the store what is kept of it, and answers the part of the epoch that it
    /// seals. After a refusal the verifier and what waits are as before.
    fn perform<D: Digests>(
        verifier: &mut Verifier,
        d: &D,
        command: &LogCommand,
        store: &mut Self::Store,
    ) -> Result<Option<Part>, Refusal>
        requires room { verifier.old.accepted < 2 ^ 63 }
        requires fits { fits store.old }
        ensures yields { IfOk result (λ part. Yields keeps (held store.old) (held store.new) part
            (performed (scheme_of (D.functions d.now) verifier.old.header) verifier.old command.now) verifier.new) }
        ensures refused { IfErr result (λ refusal.
            (performed (scheme_of (D.functions d.now) verifier.old.header) verifier.old command.now ≡ Err refusal)
            × (verifier.new ≡ verifier.old)) }
        ensures none_kept { OnErr result (held store.new ≡ held store.old) };

    // What is kept of an event is of the event's epoch.
    ghost of_epoch: { (event : Event) → AllByRecursion (λ item. epoch item ≡ event.at.epoch) (keeps event) };
}

// A check keeps the gets and puts.
impl Kept for Operation {
    ghost use Rattle.std.specs.Prelude.{◌<◌};
    ghost use Rattle.verifier_run.specs.Kept.{keeps_operations};
    ghost use Rattle.verifier_run.specs.Order.{operation_epoch};
    ghost use Rattle.verifier_run.specs.KeptLaws.{operations-of_epoch};

    type Store = OperationQueue;

    ghost keeps = { keeps_operations };

    ghost epoch = { operation_epoch };

    ghost held = { λ queue. queue.items };

    ghost fits = { λ queue. 0 < queue.room };

    ghost of_epoch = { operations-of_epoch };

    fn new_store(alloc: Global) -> OperationQueue {
        OperationQueue::new(alloc)
    }

    fn reserve(store: &mut OperationQueue) -> Result<(), Memory> {
        store.reserve()
    }

    fn perform<D: Digests>(
        verifier: &mut Verifier,
        d: &D,
        command: &LogCommand,
        store: &mut OperationQueue,
    ) -> Result<Option<Part>, Refusal> {
        match verifier.step_any(d, command) {
            Ok(effect) => Ok(keep_operation(effect, store)),
            Err(refusal) => Err(refusal),
        }
    }
}

// Appends the operation that an effect is, if it is one, and answers the part that it hands in.
fn keep_operation(effect: Effect, queue: &mut OperationQueue) -> Option<Part>
    requires room { 0 < queue.old.room }
    ensures items { queue.new.items ≡ queue.old.items ++ operation_in effect.entry }
    ensures part { option_to_list result ≡ part_in effect.entry }
{
    match effect {
        Effect::Did(operation) => {
            queue.push_reserved(&operation);
            None
        }
        Effect::Sealed(part) => Some(part),
        Effect::Plain | Effect::Opened => None,
    }
}
