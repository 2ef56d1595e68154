//! Commands by path beside the same by slots, and the lowest free numbers.
ghost use Rattle.std.specs.Prelude.{◌≡◌, length};
ghost use Rattle.lamport_clocks.specs.Header.{IsHeader};

use crate::rows::same;
use bundle_rows::{command_of, slot_command_of};
use free_numbers::FreeNumbers;
use lamport_clocks::Header;
use log_codec::{Command, SlotCommand};
use record_text::{Blob, Value};
use slot_rewriting::Slots;
use std::alloc::Global;
use std::process::Abort;
use tree_keys::Path;

// Commands of verifier 0, whose cache has 4 entries, each with what it is by slots; `-` where it can't be rewritten.
const OF_VERIFIER_0: &str = "\
addM 5 none root: addM s1 5 none s0
addM 5 none root: -
addM root empty root: -
put 5 6162: put s1 6162
evictM 5 root: evictM s1 s0
evictM 5 root: -
get 5 6162: -
addM 5 6162 root: addM s1 5 6162 s0
get 5 6162: get s1 6162
addM 6 none 7: -
addB 6 none 0.1 v0: addB s2 6 none 0.1 v0
addB 7 none 0.2 v0: addB s3 7 none 0.2 v0
addB 8 none 0.3 v0: -
addM 8 none root: -
evictBM 5 root 0.4: evictBM s1 s0 0.4
evictB 7 0.5: evictB s3 0.5
evictB 7 0.5: -
addB 8 none 0.6 v0: addB s1 8 none 0.6 v0
addM 9 none 6: addM s3 9 none s2
get root empty: get s0 none
";

// Commands of another verifier, whose cache is empty at first.
const OF_VERIFIER_1: &str = "\
get root empty: -
addB root empty 0.1 v0: addB s0 root empty 0.1 v0
addB 5 none 0.2 v0: addB s1 5 none 0.2 v0
addM 6 none 5: addM s2 6 none s1
evictB root 0.3: evictB s0 0.3
addM 7 none 5: addM s0 7 none s1
";

// A bundle of caches of 4 entries.
fn header() -> Header
    ensures good { IsHeader result }
{
    Header::by_path(2, 4, 0, 16_777_215)
}

// A row's command is the other by slots.
fn assert_rewritten(rt: &impl Abort, slots: &mut Slots, row: &str) {
    let (by_path, by_slot) = row.split_once(": ").expect(rt, row);
    let command = command_of(by_path).expect(rt, row);
    if slots.can_rewrite(&command) {
        let rewritten = slots.rewrite(&command);
        same(rt, row, &Some(rewritten), &slot_command_of(by_slot));
    } else {
        same(rt, row, &by_slot, &"-");
    }
}

#[test]
fn each_add_takes_the_lowest_empty_slot(rt: HostRuntime) {
    for (number, rows) in [(0, OF_VERIFIER_0), (1, OF_VERIFIER_1)] {
        let mut slots = Slots::new(rt.alloc(), number, &header()).expect(&rt, "memory");
        for row in rows.lines() {
            assert_rewritten(&rt, &mut slots, row);
        }
    }
}

// The same of version 3, whose keys have 128 bits.
fn wide_header() -> Header
    ensures good { IsHeader result }
{
    Header {
        version: 3,
        bits: 128,
        ..header()
    }
}

// An add of the initial value of a key, by the root of a tree.
fn add_below(root: Path, key: Path) -> Command {
    Command::AddM {
        path: key,
        value: Value::Blob(Blob::none()),
        parent: root,
    }
}

#[test]
fn the_first_slot_has_the_root_of_the_keys(rt: HostRuntime) {
    let key = Path::of_wide(u128::MAX);
    let add = add_below(Path::root_of(true), key);
    let other = add_below(Path::root(), Path::of_key(u64::MAX));
    let mut slots = Slots::new(rt.alloc(), 0, &wide_header()).expect(&rt, "memory");
    same(&rt, "the other root", &slots.can_rewrite(&other), &false);
    if !slots.can_rewrite(&add) {
        panic!(rt; "no root in the first slot");
    }
    let wanted = SlotCommand::AddM {
        slot: 1,
        path: key,
        value: Value::Blob(Blob::none()),
        parent: 0,
    };
    same(&rt, "by slot", &slots.rewrite(&add), &wanted);
}

// The numbers below a bound.
#[derive(Drop)]
struct Numbers {
    free: FreeNumbers,
    bound: u32,
    ghost so_many: { length free ≡ bound },
}

// The numbers below a bound, all of them free.
fn numbers_below(rt: &impl Abort, alloc: Global, bound: u32) -> Numbers {
    let free = FreeNumbers::new(alloc, bound).expect(rt, "memory");
    Numbers { free, bound }
}

// Takes the lowest free number, which must be this one.
fn assert_taken(rt: &impl Abort, numbers: &mut Numbers, wanted: u32) {
    match numbers.free.lowest() {
        Some(number) => {
            same(rt, "the lowest", &number, &wanted);
            numbers.free.take(number);
        }
        None => panic!(rt; "no number is free"),
    }
}

// Gives a number back.
fn give_back(rt: &impl Abort, numbers: &mut Numbers, number: u32) {
    if number >= numbers.bound {
        panic!(rt; "a number past the last");
    }
    numbers.free.give_back(number);
}

// Gives numbers of both ends back, and takes each again: a search from the last one on would go over all of them each time.
#[test]
fn numbers_from_both_ends_are_found(rt: HostRuntime) {
    let mut numbers = numbers_below(&rt, rt.alloc(), 65_536);
    for number in 0..65_536 {
        assert_taken(&rt, &mut numbers, number);
    }
    same(&rt, "none is free", &numbers.free.lowest(), &None);
    for _ in 0..65_536 {
        for number in [0, 65_535] {
            give_back(&rt, &mut numbers, number);
            assert_taken(&rt, &mut numbers, number);
        }
    }
    give_back(&rt, &mut numbers, 65_535);
    give_back(&rt, &mut numbers, 7);
    assert_taken(&rt, &mut numbers, 7);
    assert_taken(&rt, &mut numbers, 65_535);
}
