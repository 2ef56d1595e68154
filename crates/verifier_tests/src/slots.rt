//! Commands that name slots, written out by hand from the table of tags and fields.
ghost use Rattle.std.specs.Prelude.{◌≡◌, ◌≤◌};

use crate::rows::{answer_of, bytes_of, digits_of, same};
use lamport_clocks::Header;
use log_codec::{Decoded, LogCommand, SlotCommand, read_command, write_slot_command};
use record_hash::ToyDigests;
use std::alloc::Global;
use std::process::Abort;
use verifier_commands::SlotState;

// One verifier of four slots, from epoch 0 on.
fn header() -> Header
    ensures some { 1 ≤ result.cache }
{
    Header {
        version: 2,
        ..Header::by_path(1, 4, 0, 16_777_215)
    }
}

// The same of version 3, whose keys have 128 bits.
fn wide_header() -> Header
    ensures some { 1 ≤ result.cache }
{
    Header {
        version: 3,
        bits: 128,
        ..header()
    }
}

// The command whose text the digits of a row are: it is written so, and read from no front.
fn command_of(rt: &impl Abort, alloc: Global, header: &Header, row: &str) -> SlotCommand {
    let text = bytes_of(rt, alloc, digits_of(rt, row));
    for cut in 0..text.len() {
        let front = read_command(header, &text[..cut]);
        same(rt, row, &front, &Decoded::Truncated);
    }
    let Decoded::Read(found, len) = read_command(header, &text) else {
        panic!(rt; "a row that is no command");
    };
    let LogCommand::BySlot(command) = found else {
        panic!(rt; "a command that names paths");
    };
    same(rt, row, &len, &text.len());
    let written = write_slot_command(&command);
    same(rt, row, &written.as_slice(), &text.as_slice());
    command
}

// Each command of a table has its answer, one after another: `ok`, or the name of the refusal.
fn assert_answers(rt: &impl Abort, alloc: Global, header: &Header, table: &str)
    requires some { 1 ≤ header.now.cache }
{
    let mut state = SlotState::new(alloc, 0, header).expect(rt, "memory");
    for row in table.trim().lines() {
        let command = command_of(rt, alloc, header, row);
        let answer = match state.apply(&ToyDigests, 0, header, &command) {
            Ok(_) => "ok",
            Err(refusal) => refusal.name(),
        };
        same(rt, row, &answer, &answer_of(rt, row));
    }
}

// A record is added, put, evicted, added again and got, and the next epoch begins twice. Between them stand commands
// that are refused, each by a test whose next would refuse it too, and that change nothing.
const PUT_AND_GOT: &str = "
01 0009 000000000000000000 00 00 0009 | IsRoot
01 0004 400000000000000005 00 0009 | CacheFull
01 0000 400000000000000005 00 0009 | SlotTaken
01 0001 400000000000000005 00 0002 | SlotEmpty
01 0001 400000000000000005 00 0009 | SlotEmpty
02 0001 0000 | SlotEmpty
04 0001 0000000000000001 | SlotEmpty
05 0009 0000 0000000000000001 | SlotEmpty
06 0001 01026162 | SlotEmpty
07 0001 01026162 | SlotEmpty
06 0000 00 | NotData
07 0000 00 | NotData
01 0001 400000000000000005 00 0000 | ok
07 0001 01026162 | ok
06 0001 00 | WrongValue
02 0000 0001 | IsRoot
04 0000 0000000000000001 | IsRoot
05 0000 0001 0000000000000001 | IsRoot
02 0001 0002 | SlotEmpty
02 0001 0001 | NotBelow
04 0001 0000000000000000 | WrongHold
02 0001 0000 | ok
01 0000 400000000000000005 01026162 0000 | SlotTaken
01 0001 400000000000000005 01026162 0000 | ok
06 0002 01026162 | SlotEmpty
06 0001 01026162 | ok
08 | ok
08 | ok
";

// A path under its parent is added to one slot alone, by its digest.
const ADDED_TWICE: &str = "
01 0001 400000000000000005 00 0000 | ok
01 0002 400000000000000005 00 0000 | HasChild
01 0001 400000000000000005 00 0000 | SlotTaken
";

// What was evicted with a stamp comes back to any empty slot, and a path may stand in two: the sums tell.
const BACK_TWICE: &str = "
01 0001 400000000000000005 00 0000 | ok
05 0001 0000 0000000000000001 | ok
03 0001 000000000000000000 00 00 0000000000000001 0000 | IsRoot
03 0004 400000000000000005 00 0000000000000001 0001 | CacheFull
03 0000 400000000000000005 00 0000000000000001 0001 | SlotTaken
03 0001 400000000000000005 00 0000000100000001 0001 | NoSuchVerifier
03 0001 400000000000000005 00 0000000100000001 0000 | BadEpoch
03 0001 400000000000000005 00 0000000000000001 0000 | ok
03 0002 400000000000000005 00 0000000000000001 0000 | ok
02 0001 0000 | ok
02 0002 0000 | WrongHold
04 0002 0000000000000003 | StampNotLater
04 0002 0000000000000004 | ok
08 | ok
08 | ok
";

#[test]
fn commands_answer_by_their_slots(rt: HostRuntime) {
    let header = header();
    assert_answers(&rt, rt.alloc(), &header, PUT_AND_GOT);
    assert_answers(&rt, rt.alloc(), &header, ADDED_TWICE);
    assert_answers(&rt, rt.alloc(), &header, BACK_TWICE);
}

// Where keys have 128 bits, a path of 64 is a node's. Two keys are added below it, on either side, and put and evicted; then
// it leaves, and comes back with a pointer to each of them: to the one with the digest of "ab", by the toy digest the sum of the
// bytes 1, 2, 97 and 98, which is 198, and to the other with that of none, 0.
const BELOW_64_BITS: &str = "
01 0009 0000000000000000000000000000000000 0000 0009 | IsRoot
01 0001 4000000000000000050000000000000000 0000 0000 | ok
06 0001 00 | NotData
07 0001 01026162 | NotData
01 0002 8000000000000000060000000000000001 00 0001 | NotBelow
01 0002 8000000000000000050000000000000001 01026162 0001 | NotInitial
01 0002 8000000000000000050000000000000001 00 0001 | ok
01 0003 8000000000000000058000000000000000 00 0001 | ok
07 0002 01026162 | ok
02 0001 0000 | HasChild
02 0002 0001 | ok
02 0003 0001 | ok
01 0002 8000000000000000050000000000000001 00 0001 | WrongDigest
02 0001 0000 | ok
01 0002 8000000000000000050000000000000001 01026162 0000 | Foreign
01 0001 4000000000000000050000000000000000 0000 0000 | WrongDigest
01 0001 4000000000000000050000000000000000 01 8000000000000000050000000000000001 00000000000000000000000000000000000000000000000000000000000000c6 01 8000000000000000058000000000000000 0000000000000000000000000000000000000000000000000000000000000000 0000 | ok
01 0002 8000000000000000050000000000000001 01026162 0001 | ok
06 0002 01026162 | ok
06 0002 01026163 | WrongValue
05 0002 0001 0000000000000001 | ok
03 0002 8000000000000000050000000000000001 01026162 0000000000000001 0000 | ok
06 0002 01026162 | ok
04 0002 0000000000000003 | ok
02 0001 0000 | ok
08 | ok
08 | ok
";

// The first key and the last of 128 bits, and one of 65. A key is absent where a pointer leads elsewhere.
const KEYS_OF_128_BITS: &str = "
09 8000000000000000000000000000000000 0000 | ok
01 0001 8000000000000000000000000000000000 00 0000 | ok
09 8000000000000000000000000000000000 0000 | Present
09 8000000000000000010000000000000000 0000 | ok
09 4000000000000000000000000000000000 0000 | NotData
01 0002 80ffffffffffffffffffffffffffffffff 00 0000 | ok
07 0002 01026162 | ok
06 0002 01026162 | ok
09 80ffffffffffffffffffffffffffffffff 0000 | Present
01 0003 8000000000000000010000000000000000 00 0000 | Foreign
";

#[test]
fn commands_of_keys_of_128_bits_answer_by_their_slots(rt: HostRuntime) {
    let header = wide_header();
    assert_answers(&rt, rt.alloc(), &header, BELOW_64_BITS);
    assert_answers(&rt, rt.alloc(), &header, KEYS_OF_128_BITS);
}

// Bytes that no command begins with.
const MALFORMED: &str = "
00
0a
01 0001 41 0000000000000000
03 0001 01 0000000000000000 00 03
06 0001 02
07 ffff 01 41
09 410000000000000000
";

#[test]
fn fields_of_slot_commands_are_malformed_where_they_stand(rt: HostRuntime) {
    for row in MALFORMED.trim().lines() {
        let text = bytes_of(&rt, rt.alloc(), row);
        same(
            &rt,
            row,
            &read_command(&header(), &text),
            &Decoded::Malformed,
        );
    }
}
