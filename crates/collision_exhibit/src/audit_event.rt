//! What of a log an audit looks at.
ghost use Rattle.std.specs.Prelude.{◌≡◌, ◌<◌, ◌++◌};
ghost use Rattle.std.specs.Option.{option_map, option_to_list};
ghost use Rattle.verifier_run.specs.Kept.{part_in};

use crate::audit_change::audit_change_of;
use base_words::Memory;
use log_codec::LogCommand;
use multiset_sum::Part;
use record_hash::Digests;
use record_text::{Element, Refusal, Value};
use slice_queue::SliceQueue;
use stamp_order::Moment;
use std::alloc::Global;
use tree_keys::Path;
use verifier_commands::{Effect, Verifier};
use verifier_run::Kept;

/// What of an accepted command an exhibit can be made of, named after the command.
#[derive(Debug, Drop)]
pub enum AuditChange {
    /// A record came back by its digest: the parent's pointer already led to its path.
    AddM(Path, Value),
    /// A record went out into its parent, which keeps its digest.
    EvictM(Path, Value),
    /// An element was added.
    AddB(Element),
    /// An element was evicted.
    EvictB(Element),
}

/// A change, and when it was done.
#[derive(Debug, Drop)]
pub struct AuditEvent {
    pub moment: Moment,
    pub change: AuditChange,
}

// An audit keeps what an exhibit can be made of. That is told from the cache before the command is taken.
impl Kept for AuditEvent {
    ghost use Rattle.std.specs.Prelude.{◌<◌};
    ghost use Rattle.collision_exhibit.specs.AuditEvent.{audit_events_by, audit_epoch};
    ghost use Rattle.collision_exhibit.specs.AuditEventLaws.{audit_events-of_epoch};

    type Store = SliceQueue<AuditEvent>;

    ghost keeps = { audit_events_by };

    ghost epoch = { audit_epoch };

    ghost held = { λ queue. queue.items };

    ghost fits = { λ queue. 0 < queue.room };

    ghost of_epoch = { audit_events-of_epoch };

    fn new_store(alloc: Global) -> SliceQueue<AuditEvent> {
        SliceQueue::new(alloc)
    }

    fn reserve(store: &mut SliceQueue<AuditEvent>) -> Result<(), Memory> {
        store.reserve(1)
    }

    fn perform<D: Digests>(
        verifier: &mut Verifier,
        d: &D,
        command: &LogCommand,
        store: &mut SliceQueue<AuditEvent>,
    ) -> Result<Option<Part>, Refusal> {
        let number = verifier.number();
        let index = verifier.accepted();
        let change = audit_change_of(number, verifier, command);
        match verifier.step_any(d, command) {
            Ok(effect) => {
                let moment = Moment {
                    at: verifier.clock(),
                    verifier: number,
                    index,
                };
                keep_change(moment, change, store);
                Ok(part_of(effect))
            }
            Err(refusal) => Err(refusal),
        }
    }
}

// Appends a change of this moment, if there is one. There is room for it.
fn keep_change(moment: Moment, change: Option<AuditChange>, queue: &mut SliceQueue<AuditEvent>)
    requires room { 0 < queue.old.room }
    ensures items { queue.new.items
        ≡ queue.old.items ++ option_to_list (option_map (λ change. record { moment = moment; change = change }) change) }
{
    if let Some(change) = change {
        queue.push_reserved(AuditEvent { moment, change });
    }
}

// The part that an effect hands in.
fn part_of(effect: Effect) -> Option<Part>
    ensures part { option_to_list result ≡ part_in effect.entry }
{
    match effect {
        Effect::Sealed(part) => Some(part),
        Effect::Did(_) | Effect::Plain | Effect::Opened => None,
    }
}
