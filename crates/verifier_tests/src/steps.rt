//! Verifiers that only go to their next epochs; logs of every command are tested as bytes, by the crates above.
ghost use Rattle.std.specs.Prelude.{◌≡◌, ◌<◌};

use crate::rows::same;
use lamport_clocks::{Header, Stamp};
use log_codec::Command;
use multiset_sum::Part;
use record_hash::ToyDigests;
use record_text::{Node, Refusal, Value};
use std::alloc::Global;
use std::process::Abort;
use tree_keys::Path;
use verifier_cache::{Entry, Hold};
use verifier_commands::{Effect, EitherState, Verifier};

// A verifier of two, whose caches hold four entries, before its first command.
fn opened(rt: &impl Abort, alloc: Global, number: u16, first: u32) -> Verifier
    requires number { number < 2 }
    ensures unstepped { result.accepted ≡ 0 }
{
    let header = Header::by_path(2, 4, first, 5);
    Verifier::new(alloc, number, &header).expect(rt, "memory")
}

fn start_of(epoch: u32) -> Stamp {
    Stamp { epoch, counter: 0 }
}

// How many entries a verifier has by their paths.
fn entries_of(rt: &impl Abort, verifier: &Verifier) -> usize {
    match verifier.state() {
        EitherState::ByPath(state) => state.cache.len(),
        EitherState::BySlot(_) => panic!(rt; "a verifier of slots"),
    }
}

// The one entry of a verifier is the empty root.
fn assert_root_alone(rt: &impl Abort, verifier: &Verifier) {
    same(rt, "one entry", &entries_of(rt, verifier), &1);
    let root = Path::root();
    let wanted = Entry {
        path: root,
        value: Value::Node(Node::empty()),
        hold: Hold::Root,
        kids: [false, false],
    };
    let found = verifier.entry_of(&root).expect(rt, "no root");
    same(rt, "the root", found, &wanted);
}

#[test]
fn the_root_is_cached_by_verifier_0_alone(rt: HostRuntime) {
    assert_root_alone(&rt, &opened(&rt, rt.alloc(), 0, 7));
    let second = opened(&rt, rt.alloc(), 1, 7);
    same(&rt, "no entries", &entries_of(&rt, &second), &0);
    same(&rt, "the clock", &second.clock(), &start_of(7));
}

// The part that an effect hands in, if it seals an epoch.
fn part_of(effect: &Effect) -> Option<Part> {
    match effect {
        Effect::Sealed(part) => Some(*part),
        _ => None,
    }
}

// The part has no elements, and is verifier 1's of epoch 7.
fn assert_empty_part(rt: &impl Abort, part: &Part) {
    same(rt, "the verifier", &part.verifier, &1);
    same(rt, "the epoch", &part.epoch, &7);
    same(rt, "added", &part.added.count(), &0);
    same(rt, "evicted", &part.evicted.count(), &0);
}

#[test]
fn the_second_turn_seals_the_first_epoch(rt: HostRuntime) {
    let mut verifier = opened(&rt, rt.alloc(), 1, 7);
    let Ok(Effect::Opened) = verifier.step(&ToyDigests, &Command::NextEpoch) else {
        panic!(rt; "no epoch opened");
    };
    let Ok(effect) = verifier.step(&ToyDigests, &Command::NextEpoch) else {
        panic!(rt; "a refusal");
    };
    assert_empty_part(&rt, &part_of(&effect).expect(&rt, "no part"));
    same(&rt, "the clock", &verifier.clock(), &start_of(9));
}

#[test]
fn the_last_epoch_does_not_turn(rt: HostRuntime) {
    let mut verifier = opened(&rt, rt.alloc(), 0, u32::MAX);
    let turn = match verifier.step(&ToyDigests, &Command::NextEpoch) {
        Ok(_) => None,
        Err(refusal) => Some(refusal),
    };
    same(&rt, "the turn", &turn, &Some(Refusal::ClockEnd));
    same(&rt, "the clock", &verifier.clock(), &start_of(u32::MAX));
}
