//! A run that keeps nothing of the commands that its verifier accepts.
ghost use Rattle.std.specs.Prelude.{◌≡◌};
ghost use Rattle.std.specs.Option.{option_to_list};
ghost use Rattle.verifier_run.specs.Kept.{part_in};

use base_words::Memory;
use log_codec::LogCommand;
use multiset_sum::Part;
use record_hash::Digests;
use record_text::Refusal;
use std::alloc::Global;
use verifier_commands::{Effect, Verifier};
use verifier_run::Kept;

/// What an upgrade keeps of a command: nothing, since how a report ends is all that it asks a run.
#[derive(Clone, Copy, Debug, PartialEq, Eq)]
pub struct NothingKept;

impl Kept for NothingKept {
    ghost use Rattle.std.specs.Prelude.{[]};

    type Store = NothingKept;

    ghost keeps = { λ event. [] };

    ghost epoch = { λ item. 0 };

    ghost held = { λ store. [] };

    ghost fits = { λ store. Unit {0} };

    ghost of_epoch = { λ event. tt };

    fn new_store(_alloc: Global) -> NothingKept {
        NothingKept
    }

    fn reserve(_store: &mut NothingKept) -> Result<(), Memory> {
        Ok(())
    }

    fn perform<D: Digests>(
        verifier: &mut Verifier,
        d: &D,
        command: &LogCommand,
        _store: &mut NothingKept,
    ) -> Result<Option<Part>, Refusal> {
        match verifier.step_any(d, command) {
            Ok(effect) => Ok(part_of(effect)),
            Err(refusal) => Err(refusal),
        }
    }
}

// The part that an effect hands in.
fn part_of(effect: Effect) -> Option<Part>
    ensures part { option_to_list result ≡ part_in effect.entry }
{
    match effect {
        Effect::Sealed(part) => Some(part),
        Effect::Did(_) | Effect::Plain | Effect::Opened => None,
    }
}
