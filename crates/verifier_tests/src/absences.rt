//! Keys without a record, asked of verifiers whose commands name paths and of those whose commands name slots.
ghost use Rattle.std.specs.Prelude.{◌≡◌, ◌<◌};
ghost use Rattle.lamport_clocks.specs.Header.{IsHeader};

use crate::rows::{answer_of, bytes_of, digits_of, same};
use lamport_clocks::{Header, Stamp};
use log_codec::{Decoded, LogCommand, read_command};
use record_hash::ToyDigests;
use record_text::{Blob, Operation, Refusal};
use std::alloc::Global;
use std::process::Abort;
use verifier_commands::{Effect, Verifier};

// Two verifiers, whose caches have room for eight entries, from epoch 0 on.
fn by_path() -> Header
    ensures header { IsHeader result }
    ensures two { result.verifiers ≡ 2 }
{
    Header::by_path(2, 8, 0, 16_777_215)
}

// The same, where commands name slots.
fn by_slot() -> Header
    ensures header { IsHeader result }
    ensures two { result.verifiers ≡ 2 }
{
    Header {
        version: 2,
        ..Header::by_path(2, 8, 0, 16_777_215)
    }
}

// The get or put that a verifier does at the command that these bytes are, if it is one.
fn step(
    rt: &impl Abort,
    verifier: &mut Verifier,
    text: &[u8],
) -> Result<Option<Operation>, Refusal> {
    let Decoded::Read(command, _) = read_command(verifier.header(), text) else {
        panic!(rt; "a row that is no command");
    };
    if verifier.accepted() > 1000 {
        panic!(rt; "a table of too many rows");
    }
    let answer = match &command {
        LogCommand::ByPath(command) => verifier.step(&ToyDigests, command),
        LogCommand::BySlot(command) => verifier.step_slots(&ToyDigests, command),
    };
    match answer {
        Ok(Effect::Did(operation)) => Ok(Some(operation.to_operation())),
        Ok(_) => Ok(None),
        Err(refusal) => Err(refusal),
    }
}

// How a row tells what was done: a get by whether it answers none.
fn told(operation: &Option<Operation>) -> &'static str {
    match operation {
        Some(operation) => {
            if operation.put {
                "put"
            } else if operation.value.bytes().is_some() {
                "got"
            } else {
                "none"
            }
        }
        None => "ok",
    }
}

// Each command of a table has its answer, one after another: how its effect is told, or the name of the refusal.
fn assert_answers(rt: &impl Abort, verifier: &mut Verifier, alloc: Global, table: &str) {
    for row in table.trim().lines() {
        let text = bytes_of(rt, alloc, digits_of(rt, row));
        let answer = match step(rt, verifier, &text) {
            Ok(operation) => told(&operation),
            Err(refusal) => refusal.name(),
        };
        same(rt, row, &answer, &answer_of(rt, row));
    }
}

// A root is no data path, which is tested before its parent is looked for. Then the key 5 is asked for under a path that
// isn't cached, and under the root, which has no pointer yet.
const UNTOUCHED_BY_PATH: &str = "
09 000000000000000000 000000000000000000 | NotData
09 010000000000000000 018000000000000000 | NotData
09 400000000000000005 010000000000000000 | ParentNotCached
09 400000000000000005 000000000000000000 | none
";

// The key 5 comes in under the root. Then it is there, the key 7 on that side isn't, nor is a key on the other side, and
// nothing is below a data path.
const ONE_KEY_BY_PATH: &str = "
01 400000000000000005 00 000000000000000000 | ok
09 400000000000000005 000000000000000000 | Present
09 400000000000000007 000000000000000000 | none
09 408000000000000005 000000000000000000 | none
09 400000000000000007 400000000000000005 | NotBelow
09 400000000000000005 400000000000000005 | NotBelow
09 000000000000000000 000000000000000000 | NotData
";

// The path of 61 bits above 5 and 7 comes between, to which the root's pointer leads from then on, and not above 8,
// though both begin with 60 bits that are the same. Its own pointer is to 5, on whose other side is 2.
const FORK_BY_PATH: &str = "
01 3d0000000000000000 0000 000000000000000000 | ok
09 400000000000000005 000000000000000000 | Present
09 400000000000000007 000000000000000000 | Present
09 400000000000000008 000000000000000000 | none
09 400000000000000005 3d0000000000000000 | Present
09 400000000000000007 3d0000000000000000 | none
09 400000000000000002 3d0000000000000000 | none
09 400000000000000008 3d0000000000000000 | NotBelow
05 400000000000000005 3d0000000000000000 0000000000000001 | ok
09 400000000000000005 3d0000000000000000 | Present
09 400000000000000005 400000000000000005 | ParentNotCached
";

#[test]
fn a_key_is_absent_by_its_parents_path(rt: HostRuntime) {
    let mut verifier = Verifier::new(rt.alloc(), 0, &by_path()).expect(&rt, "memory");
    assert_answers(&rt, &mut verifier, rt.alloc(), UNTOUCHED_BY_PATH);
    assert_answers(&rt, &mut verifier, rt.alloc(), ONE_KEY_BY_PATH);
    assert_answers(&rt, &mut verifier, rt.alloc(), FORK_BY_PATH);
}

// The same by slots: 5 stands in slot 1, the fork in slot 2.
const UNTOUCHED_BY_SLOT: &str = "
09 000000000000000000 0000 | NotData
09 018000000000000000 0007 | NotData
09 400000000000000005 0001 | SlotEmpty
09 400000000000000005 0008 | SlotEmpty
09 400000000000000005 0000 | none
";

const ONE_KEY_BY_SLOT: &str = "
01 0001 400000000000000005 00 0000 | ok
09 400000000000000005 0000 | Present
09 400000000000000007 0000 | none
09 408000000000000005 0000 | none
09 400000000000000007 0001 | NotBelow
09 400000000000000005 0001 | NotBelow
";

const FORK_BY_SLOT: &str = "
01 0002 3d0000000000000000 0000 0000 | ok
09 400000000000000005 0000 | Present
09 400000000000000007 0000 | Present
09 400000000000000008 0000 | none
09 400000000000000005 0002 | Present
09 400000000000000007 0002 | none
09 400000000000000002 0002 | none
09 400000000000000008 0002 | NotBelow
05 0001 0002 0000000000000001 | ok
09 400000000000000005 0002 | Present
09 400000000000000005 0001 | SlotEmpty
";

#[test]
fn a_key_is_absent_by_its_parents_slot(rt: HostRuntime) {
    let mut verifier = Verifier::new(rt.alloc(), 0, &by_slot()).expect(&rt, "memory");
    assert_answers(&rt, &mut verifier, rt.alloc(), UNTOUCHED_BY_SLOT);
    assert_answers(&rt, &mut verifier, rt.alloc(), ONE_KEY_BY_SLOT);
    assert_answers(&rt, &mut verifier, rt.alloc(), FORK_BY_SLOT);
}

// A key is absent, is put, and isn't absent any more, in the cache or out of it. It stays there where none is put.
const PUT_BETWEEN: &str = "
09 400000000000000005 000000000000000000 | none
01 400000000000000005 00 000000000000000000 | ok
07 400000000000000005 01026162 | put
09 400000000000000005 000000000000000000 | Present
06 400000000000000005 01026162 | got
07 400000000000000005 00 | put
06 400000000000000005 00 | none
02 400000000000000005 000000000000000000 | ok
09 400000000000000005 000000000000000000 | Present
09 400000000000000004 000000000000000000 | none
";

#[test]
fn a_key_that_was_put_is_never_absent_again(rt: HostRuntime) {
    let mut verifier = Verifier::new(rt.alloc(), 0, &by_path()).expect(&rt, "memory");
    assert_answers(&rt, &mut verifier, rt.alloc(), PUT_BETWEEN);
}

// Verifier 1 has no root to ask under, whatever verifier 0 has.
#[test]
fn a_parent_is_cached_by_the_verifier_that_is_asked(rt: HostRuntime) {
    let mut verifier = Verifier::new(rt.alloc(), 1, &by_path()).expect(&rt, "memory");
    assert_answers(
        &rt,
        &mut verifier,
        rt.alloc(),
        "09 400000000000000005 000000000000000000 | ParentNotCached",
    );
    let mut slotted = Verifier::new(rt.alloc(), 1, &by_slot()).expect(&rt, "memory");
    assert_answers(
        &rt,
        &mut slotted,
        rt.alloc(),
        "09 400000000000000005 0000 | SlotEmpty",
    );
}

// It is a get of its key, of which nothing else changes.
#[test]
fn an_absence_is_a_get_of_none(rt: HostRuntime) {
    let mut verifier = Verifier::new(rt.alloc(), 0, &by_path()).expect(&rt, "memory");
    assert_answers(&rt, &mut verifier, rt.alloc(), "08 | ok");
    let start = Stamp {
        epoch: 1,
        counter: 0,
    };
    let text = bytes_of(&rt, rt.alloc(), "09 400000000000000005 000000000000000000");
    let wanted = Operation::new(start, 0, 1, false, false, 5, Blob::none());
    let found = step(&rt, &mut verifier, &text);
    same(&rt, "the operation", &found, &Ok(Some(wanted)));
    same(&rt, "the clock", &verifier.clock(), &start);
    same(&rt, "the number of the next", &verifier.accepted(), &2);
}
