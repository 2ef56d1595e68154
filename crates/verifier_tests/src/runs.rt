//! Logs that were written out by hand, from the table of tags and fields.
ghost use Rattle.std.specs.Prelude.{◌≡◌, ◌<◌};
ghost use Rattle.lamport_clocks.specs.Header.{IsHeader};

use crate::rows::{bytes_of, same};
use lamport_clocks::{Header, Stamp};
use multiset_sum::Part;
use operation_queue::Operations;
use record_hash::{Digests, ShaDigests, ToyDigests};
use record_text::{Blob, Operation, Refusal};
use std::alloc::Global;
use std::process::Abort;
use verifier_run::{Run, run_log};

// One verifier, from epoch 0 on.
fn header() -> Header
    ensures header { IsHeader result }
    ensures one { result.verifiers ≡ 1 }
{
    Header::by_path(1, 128, 0, 16_777_215)
}

// The same of version 3, whose keys have 128 bits.
fn wide_header() -> Header
    ensures header { IsHeader result }
    ensures one { result.verifiers ≡ 1 }
{
    Header {
        version: 3,
        bits: 128,
        ..header()
    }
}

// A record is added, put, evicted, added again and got, and the next epoch begins twice.
const PUT_AND_GOT: &str = "
01 400000000000000005 00 000000000000000000
07 400000000000000005 01026162
02 400000000000000005 000000000000000000
01 400000000000000005 01026162 000000000000000000
06 400000000000000005 01026162
08
08
";

// Two shards leave with stamps, and come back and leave again in the next epoch.
const TWO_SHARDS: &str = "
01 010000000000000000 0000 000000000000000000
05 010000000000000000 000000000000000000 0000000000000001
01 018000000000000000 0000 000000000000000000
05 018000000000000000 000000000000000000 0000000000000002
08
03 010000000000000000 0000 0000000000000001 0000
04 010000000000000000 0000000100000002
03 018000000000000000 0000 0000000000000002 0000
04 018000000000000000 0000000100000004
08
";

// A record is added, and put in two epochs, which are both sealed.
const PUT_TWICE: &str = "
01 400000000000000005 00 000000000000000000
07 400000000000000005 01026162
08
07 400000000000000005 01026162
08
08
";

// What a log of a verifier of this header comes to, fed in pieces of so many bytes.
fn in_pieces(
    rt: &impl Abort,
    alloc: Global,
    d: &ShaDigests,
    header: &Header,
    log: &[u8],
    size: usize,
) -> Run
    requires header { IsHeader header.now }
    requires one { header.now.verifiers ≡ 1 }
    requires size { 0 < size }
{
    let mut run = Run::new(alloc, 0, header).expect(rt, "memory");
    let mut fed = 0;
    while fed < log.len() {
        let len = size.min(log.len() - fed);
        if run.feed(d, &log[fed..fed + len]).is_err() {
            panic!(rt; "no memory");
        }
        fed += len;
    }
    run.end();
    run
}

// A get or put of these bytes at a key of 128 bits, or of 64, as the command of this number in epoch 0.
fn operation(
    rt: &impl Abort,
    index: u64,
    put: bool,
    wide: bool,
    key: u128,
    bytes: &[u8],
) -> Operation {
    let stamp = Stamp {
        epoch: 0,
        counter: 0,
    };
    let value = Blob::of_bytes(bytes).expect(rt, "a value that is too long");
    Operation::new(stamp, 0, index, put, wide, key, value)
}

// A get or put of "ab" at key 5, as the command of this number.
fn ab_at_5(rt: &impl Abort, index: u64, put: bool) -> Operation {
    operation(rt, index, put, false, 5, b"ab")
}

// How many bytes a piece has.
const SIZES: [(usize, &str); 3] = [(1, "by 1"), (7, "by 7"), (92, "by 92")];

// The only part of a run.
fn only_part(rt: &impl Abort, label: &str, run: &Run) -> Part {
    same(rt, label, &run.parts().len(), &1);
    *run.parts().first().expect(rt, "no part")
}

// Operations are these.
fn assert_operations(rt: &impl Abort, label: &str, operations: Operations, expected: &[Operation]) {
    same(rt, label, &operations.len(), &expected.len());
    for (operation, wanted) in operations.zip(expected) {
        same(rt, label, &operation.to_operation(), wanted);
    }
}

// The run of the put and the get has both, and seals one epoch.
fn assert_put_and_got(rt: &impl Abort, label: &str, run: &Run) {
    same(rt, label, &run.refused(), &None);
    let expected = [ab_at_5(rt, 1, true), ab_at_5(rt, 4, false)];
    assert_operations(rt, label, run.ops(), &expected);
    same(rt, label, &only_part(rt, label, run).epoch, &0);
}

#[test]
fn pieces_do_not_matter(rt: HostRuntime) {
    let d = ShaDigests::new(b"a key");
    let log = bytes_of(&rt, rt.alloc(), PUT_AND_GOT);
    for (size, label) in SIZES {
        let run = in_pieces(&rt, rt.alloc(), &d, &header(), &log, size);
        assert_put_and_got(&rt, label, &run);
    }
}

// The same by slots, of the key 2^64 + 5 and a value of 255 bytes, which stand where the log has two dots.
const WIDE_PUT_AND_GOT: [&str; 3] = [
    "01 0001 8000000000000000010000000000000005 00 0000 07 0001 01ff",
    "02 0001 0000 01 0001 8000000000000000010000000000000005 01ff",
    "0000 06 0001 01ff",
];

// That log: behind each of its parts stands the value.
fn wide_log(rt: &impl Abort, alloc: Global, value: &[u8]) -> Vec<u8> {
    let mut log = Vec::new(alloc);
    for part in WIDE_PUT_AND_GOT {
        let bytes = bytes_of(rt, alloc, part);
        log.extend_from_slice(&bytes).expect(rt, "memory");
        log.extend_from_slice(value).expect(rt, "memory");
    }
    log.extend_from_slice(&[8, 8]).expect(rt, "memory");
    log
}

#[test]
fn keys_of_128_bits_are_put_and_got(rt: HostRuntime) {
    let d = ShaDigests::new(b"a key");
    let value = [7; 255];
    let log = wide_log(&rt, rt.alloc(), &value);
    let key = (1 << 64) + 5;
    let put = operation(&rt, 1, true, true, key, &value);
    let got = operation(&rt, 4, false, true, key, &value);
    let expected = [put, got];
    for (size, label) in SIZES {
        let run = in_pieces(&rt, rt.alloc(), &d, &wide_header(), &log, size);
        same(&rt, label, &run.refused(), &None);
        assert_operations(&rt, label, run.ops(), &expected);
        same(&rt, label, &only_part(&rt, label, &run).epoch, &0);
    }
}

// A log of a verifier of this header is refused at this command, in whatever pieces it is fed.
fn assert_refused(
    rt: &impl Abort,
    alloc: Global,
    header: &Header,
    log: &[u8],
    index: u64,
    refusal: Refusal,
)
    requires header { IsHeader header.now }
    requires one { header.now.verifiers ≡ 1 }
{
    let d = ShaDigests::new(b"a key");
    let wanted = Some((index, refusal));
    for (size, label) in SIZES {
        let run = in_pieces(rt, alloc, &d, header, log, size);
        same(rt, label, &run.refused(), &wanted);
    }
}

#[test]
fn logs_are_refused_where_they_go_wrong(rt: HostRuntime) {
    let mut log = bytes_of(&rt, rt.alloc(), PUT_AND_GOT);
    let cut = log.get(..21).expect(&rt, "a log that is too short");
    let header = header();
    assert_refused(&rt, rt.alloc(), &header, cut, 1, Refusal::Truncated);
    assert_refused(&rt, rt.alloc(), &header, &[9], 0, Refusal::Truncated);
    assert_refused(&rt, rt.alloc(), &header, &[10], 0, Refusal::Malformed);
    // The last byte of the value that the get answers.
    *log.get_mut(89).expect(&rt, "a log that is too short") = b'c';
    assert_refused(&rt, rt.alloc(), &header, &log, 4, Refusal::WrongValue);
}

// The root's next epoch begins, and then a key of the other tree is added: its bits end where those of a node would go on, or
// it is longer than any path.
#[test]
fn paths_of_the_other_tree_are_malformed(rt: HostRuntime) {
    let short = "08 01 0001 400000000000000005 00 0000 08 08 08 08 08 08";
    let log = bytes_of(&rt, rt.alloc(), short);
    let header = wide_header();
    assert_refused(&rt, rt.alloc(), &header, &log, 1, Refusal::Malformed);
    let long = "08 01 0001 8000000000000000000000000000000005 00 0000";
    let log = bytes_of(&rt, rt.alloc(), long);
    let header = Header { bits: 64, ..header };
    assert_refused(&rt, rt.alloc(), &header, &log, 1, Refusal::Malformed);
}

// The run of a log that isn't refused.
fn accepted_run<D: Digests>(rt: &impl Abort, alloc: Global, d: &D, text: &str) -> Run {
    let log = bytes_of(rt, alloc, text);
    let run: Run = run_log(alloc, d, 0, &header(), &log).expect(rt, "memory");
    same(rt, text, &run.refused(), &None);
    run
}

// With toy digests lane 0 of an element is the sum of its text's bytes, and the other lanes are 0. Two
// elements were added to epoch 0 and evicted from it, and the bytes of their texts that aren't 0 are these:
// of the path 0 its one bit (1) and the counter of its stamp (1), which is 2; of the path 1 its one bit (1),
// the byte of that bit (128) and the counter of its stamp (2), which is 131. That is 133 in all.
#[test]
fn the_sums_of_an_epoch_are_those_of_its_elements(rt: HostRuntime) {
    let run = accepted_run(&rt, rt.alloc(), &ToyDigests, TWO_SHARDS);
    let part = only_part(&rt, "one part", &run);
    same(&rt, "the verifier", &part.verifier, &0);
    same(&rt, "the epoch", &part.epoch, &0);
    for sum in [part.added, part.evicted] {
        same(&rt, "two elements", &sum.count(), &2);
        same(&rt, "the lanes", &sum.lanes(), &[133, 0, 0, 0, 0, 0, 0, 0]);
    }
}

// A run is refused at its second command, and has no gets and puts.
fn assert_refused_at_1(rt: &impl Abort, label: &str, run: &Run) {
    same(rt, label, &run.refused(), &Some((1, Refusal::Malformed)));
    same(rt, label, &run.ops().len(), &0);
}

// A log that goes wrong at its second command takes what follows, and does nothing.
#[test]
fn a_refused_run_stays_as_it_is(rt: HostRuntime) {
    let log = bytes_of(&rt, rt.alloc(), PUT_AND_GOT);
    let more = log.get(..92).expect(&rt, "a log that is too short");
    let mut run = Run::new(rt.alloc(), 0, &header()).expect(&rt, "memory");
    let _ = run.feed(&ToyDigests, &[8, 10]);
    assert_refused_at_1(&rt, "refused", &run);
    same(&rt, "more", &run.feed(&ToyDigests, more), &Ok(()));
    run.end();
    assert_refused_at_1(&rt, "ended", &run);
}

#[test]
fn a_sealed_epoch_has_its_sums(rt: HostRuntime) {
    let d = ShaDigests::new(b"a key");
    let run = accepted_run(&rt, rt.alloc(), &d, TWO_SHARDS);
    same(&rt, "no gets and puts", &run.ops().len(), &0);
    let part = only_part(&rt, "one part", &run);
    same(&rt, "the epoch", &part.epoch, &0);
    same(&rt, "two elements", &part.added.count(), &2);
    same(&rt, "the sums", &part.added, &part.evicted);
}

// The index of the first of operations.
fn first_index(rt: &impl Abort, mut operations: Operations) -> u64 {
    operations.next().expect(rt, "no operation").index()
}

// The run of the two puts has the second alone.
fn assert_second_left(rt: &impl Abort, run: &Run) {
    same(rt, "one put left", &run.ops().len(), &1);
    same(rt, "its index", &first_index(rt, run.ops()), &3);
    same(
        rt,
        "its epoch",
        &only_part(rt, "one part left", run).epoch,
        &1,
    );
}

// What is taken is kept no longer, and what is of a later epoch is.
#[test]
fn what_is_taken_is_kept_no_longer(rt: HostRuntime) {
    let mut run = accepted_run(&rt, rt.alloc(), &ToyDigests, PUT_TWICE);
    let taken = run.take(0).expect(&rt, "memory");
    let first = [ab_at_5(&rt, 1, true)];
    same(&rt, "taken", &taken.as_slice(), &first.as_slice());
    assert_second_left(&rt, &run);
    same(&rt, "of epoch 0", &run.ops_up_to(0).len(), &0);
    same(&rt, "of epoch 1", &run.ops_up_to(1).len(), &1);
    same(&rt, "the second", &first_index(&rt, run.ops_up_to(1)), &3);
    run.pass(1);
    same(&rt, "no put left", &run.ops().len(), &0);
    same(&rt, "no part left", &run.parts().len(), &0);
}
