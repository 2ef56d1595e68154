//! The program and its calls, run over bytes in memory, and what they must leave.
//!
//! What must be is said by a call: a comparison that stands in a test costs far more to prove, the more is alive there.
use bundle_rows::{Case, bundle_of, cases_of};
use check_core::check;
use fastver_top::{Status, fastver};
use fv_outside::{FreeGate, MemoryCounter, MemorySink, MemorySource, MemoryVault};
use record_hash::Digests;
use std::alloc::Global;
use std::fmt::Debug;
use std::process::Abort;
use std::sync::Wait;
use std::thread::Threads;

// The key of each run, behind the words of its command.
const KEY: &str = " --key 00000000000000000000000000000000";

/// A put and a get of one key, between its add, evict and second add: 116 bytes.
pub(crate) const PUT_AND_GET: &str = "\
addM 5 none root
put 5 6162
evictM 5 root
addM 5 6162 root
get 5 6162
next
next
";

/// The report of a put and a get.
pub(crate) const REPORT: &str = "\
epoch 0 certified 2
0.0 v0 put 5 6162
0.0 v0 get 5 6162
done 1
";

/// What a call leaves of a source and a sink, and its status.
#[derive(Drop)]
pub(crate) struct Ended {
    pub source: MemorySource,
    pub out: MemorySink,
    pub status: Status,
}

/// How bytes are read and texts are written.
#[derive(Clone, Copy)]
pub(crate) struct Way<'a> {
    /// How many bytes a read gives at most, and how many a write takes.
    pub read: usize,
    pub write: usize,
    /// How many bytes the sink has room for.
    pub room: usize,
    /// The numbers of the reads and of the writes that fail.
    pub fails: (&'a [u64], &'a [u64]),
}

/// The way where reads and writes go by so many bytes, and none fails.
pub(crate) fn by(piece: usize) -> Way<'static> {
    failing(piece, &[], &[])
}

/// The way where reads and writes go by so many bytes, and those of these numbers fail.
pub(crate) fn failing<'a>(piece: usize, reads: &'a [u64], writes: &'a [u64]) -> Way<'a> {
    Way {
        read: piece,
        write: piece,
        room: 10_000,
        fails: (reads, writes),
    }
}

/// A source of these bytes, and a sink.
pub(crate) fn objects(
    rt: &impl Abort,
    alloc: Global,
    bytes: &[u8],
    way: Way<'_>,
) -> (MemorySource, MemorySink) {
    let (reads, writes) = way.fails;
    let source = MemorySource::new(alloc, bytes, way.read.max(1), reads).expect(rt, "memory");
    let out = MemorySink::new(alloc, way.room, way.write.max(1), writes).expect(rt, "memory");
    (source, out)
}

/// The words of a line.
pub(crate) fn words_of<'a>(rt: &impl Abort, alloc: Global, line: &'a str) -> Vec<&'a str> {
    let mut words = Vec::new(alloc);
    for word in line.split_whitespace() {
        words.push(word).expect(rt, "memory");
    }
    words
}

/// What is there behind the program with the words of a line, over these bytes. No check, no audit, no follower and no upgrade touches its
/// vault or asks its counter, whose first call would fail; and no refusal does.
pub(crate) fn ask<R: Threads + Wait + Sync + Abort>(
    rt: &R,
    alloc: Global,
    line: &str,
    bytes: &[u8],
    way: Way<'_>,
) -> Ended {
    let words = words_of(rt, alloc, line);
    let (mut source, mut out) = objects(rt, alloc, bytes, way);
    let mut vault = MemoryVault::new(alloc, 100, 1, &[]).expect(rt, "memory");
    let mut counter = MemoryCounter::new(alloc, 0, &[0]).expect(rt, "memory");
    let status = fastver(
        rt,
        alloc,
        &words,
        &mut source,
        &mut out,
        &mut vault,
        &FreeGate,
        &mut counter,
    );
    assert_unused(rt, line, &vault);
    same(rt, line, 0, &counter.faults(), &0);
    Ended {
        source,
        out,
        status,
    }
}

// The vault is as it was made.
fn assert_unused(rt: &impl Abort, label: &str, vault: &MemoryVault) {
    same(rt, label, 0, &vault.bytes(), &b"".as_slice());
    same(rt, label, 0, &vault.name_taken(), &None);
}

/// What is there behind a command of the program, over these bytes.
pub(crate) fn run<R: Threads + Wait + Sync + Abort>(
    rt: &R,
    alloc: Global,
    command: &str,
    bytes: &[u8],
    way: Way<'_>,
) -> Ended {
    let line = line_of(rt, alloc, command);
    ask(rt, alloc, &line, bytes, way)
}

// The words of a command under the key.
fn line_of(rt: &impl Abort, alloc: Global, command: &str) -> String {
    let mut line = String::from_str(alloc, "fastver ").expect(rt, "memory");
    line.push_str(command).expect(rt, "memory");
    line.push_str(KEY).expect(rt, "memory");
    line
}

/// What is there behind a check of no more than so many of these bytes, under these digests.
pub(crate) fn checked<R: Threads + Sync + Abort, D: Digests + Sync>(
    rt: &R,
    alloc: Global,
    d: &D,
    limit: u64,
    bytes: &[u8],
    way: Way<'_>,
) -> Ended {
    let (mut source, mut out) = objects(rt, alloc, bytes, way);
    // The most that a check may be told to read.
    let limit = limit.min(1 << 40);
    let status = check(rt, alloc, d, limit, &mut source, &mut out, false);
    Ended {
        source,
        out,
        status,
    }
}

/// Two values are the same. Where they aren't, the test ends, and tells the label and which of those under it was asked.
pub(crate) fn same<T: PartialEq + Debug>(
    rt: &impl Abort,
    label: &str,
    at: usize,
    found: &T,
    wanted: &T,
) {
    assert_eq!(rt; found, wanted, "{label} {at}");
}

/// This was written, and the status has this number.
pub(crate) fn assert_ends(
    rt: &impl Abort,
    label: &str,
    at: usize,
    ended: &Ended,
    written: &[u8],
    number: u8,
) {
    same(rt, label, at, &ended.out.bytes(), &written);
    same(rt, label, at, &ended.status.number(), &number);
}

/// This was written, and that is the status.
pub(crate) fn assert_stops(
    rt: &impl Abort,
    label: &str,
    at: usize,
    ended: &Ended,
    written: &[u8],
    status: Status,
) {
    same(rt, label, at, &ended.out.bytes(), &written);
    same(rt, label, at, &ended.status, &status);
}

/// So many bytes are left of the source.
pub(crate) fn assert_left(rt: &impl Abort, label: &str, at: usize, ended: &Ended, left: usize) {
    same(rt, label, at, &ended.source.left().len(), &left);
}

/// So many reads failed.
pub(crate) fn assert_read_faults(
    rt: &impl Abort,
    label: &str,
    at: usize,
    ended: &Ended,
    faults: u64,
) {
    same(rt, label, at, &ended.source.faults(), &faults);
}

/// The cases of a table, of which there are so many.
pub(crate) fn cases_in<'a>(
    rt: &impl Abort,
    alloc: Global,
    table: &'a str,
    count: usize,
) -> Vec<Case<'a>> {
    let cases = cases_of(alloc, table).expect(rt, "memory");
    same(rt, "cases", count, &cases.len(), &count);
    cases
}

/// The bytes that rows spell. Where there are none, the test ends, and tells the label.
pub(crate) fn bytes_in(rt: &impl Abort, alloc: Global, label: &str, rows: &str) -> Vec<u8> {
    bundle_of(alloc, rows).expect(rt, label)
}

/// The bytes of a case's bundle.
pub(crate) fn bytes_of(rt: &impl Abort, alloc: Global, case: &Case<'_>) -> Vec<u8> {
    bytes_in(rt, alloc, case.label, case.rows)
}

/// Each case of a table, of which there are so many, has its report and status, as below.
pub(crate) fn assert_cases<R: Threads + Wait + Sync + Abort>(
    rt: &R,
    alloc: Global,
    table: &str,
    count: usize,
) {
    for case in &cases_in(rt, alloc, table, count) {
        let bytes = bytes_of(rt, alloc, case);
        assert_bundle(rt, alloc, case, &bytes);
    }
}

/// These bytes have the case's report and status, whether they are read, and it is written, by bytes or as a whole. Where the
/// status isn't 0, the report is one line, and an audit shows nothing and the same line.
pub(crate) fn assert_bundle<R: Threads + Wait + Sync + Abort>(
    rt: &R,
    alloc: Global,
    case: &Case<'_>,
    bytes: &[u8],
) {
    assert_report(rt, alloc, case, bytes, 1);
    assert_report(rt, alloc, case, bytes, 100_000);
    if case.status != 0 {
        assert_audit_ends(rt, alloc, case, bytes);
    }
}

// A check by pieces of so many bytes comes to the case's report and status.
fn assert_report<R: Threads + Wait + Sync + Abort>(
    rt: &R,
    alloc: Global,
    case: &Case<'_>,
    bytes: &[u8],
    piece: usize,
) {
    let ended = run(rt, alloc, "check", bytes, by(piece));
    let report = case.report.as_bytes();
    assert_ends(rt, case.label, piece, &ended, report, case.status);
}

// An audit shows nothing, and then the case's report.
fn assert_audit_ends<R: Threads + Wait + Sync + Abort>(
    rt: &R,
    alloc: Global,
    case: &Case<'_>,
    bytes: &[u8],
) {
    let ended = run(rt, alloc, "audit", bytes, by(1000));
    let shown = empty_audit(rt, alloc, case.report);
    assert_ends(rt, case.label, 0, &ended, shown.as_bytes(), case.status);
}

// The text of an audit that shows nothing, with this last line.
fn empty_audit(rt: &impl Abort, alloc: Global, line: &str) -> String {
    let mut shown = String::from_str(alloc, "clean 0\n").expect(rt, "memory");
    shown.push_str(line).expect(rt, "memory");
    shown
}
