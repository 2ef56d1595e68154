//! Runs of a script between objects in memory, and what they must leave.
//!
//! What must be is said by a call: a comparison that stands in a test costs far more to prove, the more is alive there.
use bundle_rows::{Case, bundle_of, cases_of};
use fastver_top::{Status, fastver};
use fv_outside::{FreeGate, Gate, MemoryCounter, MemorySink, MemorySource, MemoryVault};
use std::alloc::Global;
use std::fmt::Debug;
use std::process::Abort;
use std::sync::Wait;
use std::thread::Threads;

// The words of a run, with a key, up to the number of its workers, and up to the number of the shards of one worker.
const RUN: &str = "fastver run --key 00000000000000000000000000000000 --verifiers ";

const RUN_ALONE: &str =
    "fastver run --key 00000000000000000000000000000000 --verifiers 1 --shards ";

// The bytes that a sink and a vault have room for.
const ROOM: usize = 1_000_000;

/// A put and a get of one key.
pub(crate) const SCRIPT: &str = "0 put 5 6162\n0 get 5\n";

/// Its report: the setup takes counters 1 and 2, and each request one for its add and one for its evict.
pub(crate) const REPORT: &str = "\
epoch 0 certified 2
0.3 v0 put 5 6162
0.5 v0 get 5 6162
done 1
";

/// What a program reads, writes and keeps, in memory.
#[derive(Drop)]
pub(crate) struct Objects {
    pub source: MemorySource,
    pub out: MemorySink,
    pub vault: MemoryVault,
}

impl Objects {
    /// The sink and the vault hold these bytes, and the vault took this name. Else the test ends, and tells which turn it was.
    pub(crate) fn assert_hold(
        &self,
        rt: &impl Abort,
        turn: usize,
        out: &[u8],
        vault: &[u8],
        name: Option<&str>,
    ) {
        same(rt, "the sink", turn, &self.out.bytes(), &out);
        same(rt, "the vault", turn, &self.vault.bytes(), &vault);
        same(rt, "its name", turn, &self.vault.name_taken(), &name);
    }

    /// The sink holds these bytes.
    pub(crate) fn assert_wrote(&self, rt: &impl Abort, label: &str, turn: usize, out: &[u8]) {
        same(rt, label, turn, &self.out.bytes(), &out);
    }
}

/// Two values are the same. Where they aren't, the test ends, and tells what was tried and which turn it was.
pub(crate) fn same<T: PartialEq + Debug>(
    rt: &impl Abort,
    label: &str,
    turn: usize,
    found: &T,
    wanted: &T,
) {
    assert_eq!(rt; found, wanted, "{label} {turn}");
}

/// A run ended so.
pub(crate) fn assert_ended(
    rt: &impl Abort,
    label: &str,
    turn: usize,
    status: &Status,
    wanted: &Status,
) {
    same(rt, label, turn, status, wanted);
}

/// It is so. Else the test ends, and tells the same.
pub(crate) fn holds(rt: &impl Abort, label: &str, turn: usize, is_so: bool) {
    same(rt, label, turn, &is_so, &true);
}

/// The cases of a table, of which there are so many.
pub(crate) fn cases_in<'a>(
    rt: &impl Abort,
    alloc: Global,
    table: &'a str,
    count: usize,
) -> Vec<Case<'a>> {
    let cases = cases_of(alloc, table).expect(rt, "memory");
    same(rt, "cases", 0, &cases.len(), &count);
    cases
}

/// The bytes of a bundle, of which there are so many.
pub(crate) fn bundle_in(rt: &impl Abort, alloc: Global, rows: &str, count: usize) -> Vec<u8> {
    let bundle = bundle_of(alloc, rows).expect(rt, "memory");
    same(rt, "bytes", 0, &bundle.len(), &count);
    bundle
}

/// What is there behind the program with the words of a line, over these bytes, all by pieces of so many and with calls
/// that fail, and its status.
pub(crate) fn program<R: Threads + Wait + Sync + Abort>(
    rt: &R,
    alloc: Global,
    line: &str,
    bytes: &[u8],
    piece: usize,
    fails: (&[u64], &[u64], &[u64]),
) -> (Objects, Status) {
    program_at(rt, alloc, line, bytes, piece, fails, &FreeGate)
}

/// The words of a line.
pub(crate) fn words_of<'a>(rt: &impl Abort, alloc: Global, line: &'a str) -> Vec<&'a str> {
    let mut words = Vec::new(alloc);
    for word in line.split_whitespace() {
        words.push(word).expect(rt, "memory");
    }
    words
}

/// A counter whose first call fails: what asks it has a fault.
pub(crate) fn counter_that_fails(rt: &impl Abort, alloc: Global) -> MemoryCounter {
    MemoryCounter::new(alloc, 0, &[0]).expect(rt, "memory")
}

/// The same where its workers pass a gate. The counter is not asked.
pub(crate) fn program_at<R: Threads + Wait + Sync + Abort, G: Gate + Sync>(
    rt: &R,
    alloc: Global,
    line: &str,
    bytes: &[u8],
    piece: usize,
    fails: (&[u64], &[u64], &[u64]),
    gate: &G,
) -> (Objects, Status) {
    let words = words_of(rt, alloc, line);
    let piece = piece.max(1);
    let mut source = MemorySource::new(alloc, bytes, piece, fails.0).expect(rt, "memory");
    let mut out = MemorySink::new(alloc, ROOM, piece, fails.1).expect(rt, "memory");
    let mut vault = MemoryVault::new(alloc, ROOM, piece, fails.2).expect(rt, "memory");
    let mut counter = counter_that_fails(rt, alloc);
    let status = fastver(
        rt,
        alloc,
        &words,
        &mut source,
        &mut out,
        &mut vault,
        gate,
        &mut counter,
    );
    same(rt, "the counter", 0, &counter.faults(), &0);
    (Objects { source, out, vault }, status)
}

/// What is there behind a run with these words, all by pieces of so many bytes, and its status.
pub(crate) fn served<R: Threads + Wait + Sync + Abort>(
    rt: &R,
    alloc: Global,
    line: &str,
    script: &str,
    piece: usize,
) -> (Objects, Status) {
    program(rt, alloc, line, script.as_bytes(), piece, (&[], &[], &[]))
}

/// What a check of these bytes writes, and its status.
pub(crate) fn checked<R: Threads + Wait + Sync + Abort>(
    rt: &R,
    alloc: Global,
    bytes: &[u8],
) -> (Objects, Status) {
    let line = "fastver check --key 00000000000000000000000000000000";
    program(rt, alloc, line, bytes, 1000, (&[], &[], &[]))
}

/// A text behind another.
pub(crate) fn joined(rt: &impl Abort, alloc: Global, front: &str, more: &str) -> String {
    let mut text = String::from_str(alloc, front).expect(rt, "memory");
    text.push_str(more).expect(rt, "memory");
    text
}

/// The words of a run, with the number of its workers and those behind it.
pub(crate) fn host_line(rt: &impl Abort, alloc: Global, more: &str) -> String {
    joined(rt, alloc, RUN, more)
}

/// The words of a run of one worker, with the number of its shards and those behind it.
pub(crate) fn line_of(rt: &impl Abort, alloc: Global, more: &str) -> String {
    joined(rt, alloc, RUN_ALONE, more)
}

/// The number of one call.
pub(crate) fn one(k: usize) -> [u64; 1] {
    [k as u64]
}

/// Each case of a table, of which there are so many, has its report and status, whether all goes by bytes or as a whole.
/// Where all is done, a check of what the vault holds writes the same.
pub(crate) fn assert_all_served<R: Threads + Wait + Sync + Abort>(
    rt: &R,
    alloc: Global,
    table: &str,
    count: usize,
) {
    for case in &cases_in(rt, alloc, table, count) {
        assert_served(rt, alloc, case, 1);
        assert_served(rt, alloc, case, 100_000);
    }
}

// So it is of one case, by pieces of so many bytes.
fn assert_served<R: Threads + Wait + Sync + Abort>(
    rt: &R,
    alloc: Global,
    case: &Case<'_>,
    piece: usize,
) {
    let line = host_line(rt, alloc, case.label);
    let (objects, status) = served(rt, alloc, &line, case.rows, piece);
    let report = case.report.as_bytes();
    assert_written(rt, &line, piece, &objects, &status, report, case.status);
    same(rt, &line, piece, &objects.vault.name_taken(), &None);
    if case.status == 0 {
        assert_vault(rt, alloc, &line, objects.vault.bytes(), report);
    }
}

/// This was written, and the status has this number.
pub(crate) fn assert_written(
    rt: &impl Abort,
    label: &str,
    turn: usize,
    objects: &Objects,
    status: &Status,
    report: &[u8],
    number: u8,
) {
    same(rt, label, turn, &objects.out.bytes(), &report);
    same(rt, label, turn, &status.number(), &number);
}

// A check of these bytes writes this.
fn assert_vault<R: Threads + Wait + Sync + Abort>(
    rt: &R,
    alloc: Global,
    line: &str,
    bytes: &[u8],
    report: &[u8],
) {
    let (again, status) = checked(rt, alloc, bytes);
    assert_written(rt, line, 0, &again, &status, report, 0);
}

/// What was written is a front of this text.
pub(crate) fn assert_front(rt: &impl Abort, label: &str, written: &[u8], text: &[u8]) {
    holds(rt, label, written.len(), text.starts_with(written));
}

/// So many workers ask for these keys in turn, so often in each of so many phases.
pub(crate) fn contending(
    rt: &impl Abort,
    alloc: Global,
    workers: u16,
    keys: &[u64],
    rounds: usize,
    phases: usize,
) -> String {
    let mut script = String::new(alloc);
    for phase in 0..phases {
        if phase != 0 {
            script.push_str("epoch\n").expect(rt, "memory");
        }
        for round in 0..rounds {
            add_round(rt, alloc, &mut script, workers, keys, round);
        }
    }
    script
}

// A worker puts and gets a key of its own.
fn add_asks(rt: &impl Abort, alloc: Global, script: &mut String, worker: u64, phase: u8) {
    let key = worker << 58;
    let asks = format!(in alloc; "{worker} put {key} {phase:02x}\n{worker} get {key}\n").expect(
        rt, "memory",
    );
    script.push_str(&asks).expect(rt, "memory");
}

/// Each of 64 workers does so in each of so many phases.
pub(crate) fn apart(rt: &impl Abort, alloc: Global, phases: u8) -> String {
    let mut script = String::new(alloc);
    for phase in 0..phases {
        if phase != 0 {
            script.push_str("epoch\n").expect(rt, "memory");
        }
        add_asks_of_all(rt, alloc, &mut script, phase);
    }
    script
}

// Each of them does so in one.
fn add_asks_of_all(rt: &impl Abort, alloc: Global, script: &mut String, phase: u8) {
    for worker in 0..64 {
        add_asks(rt, alloc, script, worker, phase);
    }
}

// What a worker asks for: every third one puts its number there.
fn ask_for(rt: &impl Abort, alloc: Global, worker: u16, key: u64, round: usize) -> String {
    if (usize::from(worker) % 3 + round % 3) % 3 == 0 {
        format!(in alloc; "{worker} put {key} {worker:04x}\n").expect(rt, "memory")
    } else {
        format!(in alloc; "{worker} get {key}\n").expect(rt, "memory")
    }
}

// Each worker asks for a key.
fn add_round(
    rt: &impl Abort,
    alloc: Global,
    script: &mut String,
    workers: u16,
    keys: &[u64],
    round: usize,
) {
    for worker in 0..workers {
        let Some(key) = keys.get(round % keys.len().max(1)) else {
            return ();
        };
        let ask = ask_for(rt, alloc, worker, *key, round);
        script.push_str(&ask).expect(rt, "memory");
    }
}

// All is done, and a check of the vault writes the same: nothing was refused, and no alarm was false.
fn assert_checked<R: Threads + Wait + Sync + Abort>(
    rt: &R,
    alloc: Global,
    objects: &Objects,
    status: Status,
    epochs: u64,
    turn: usize,
) {
    assert_ended(rt, "run", turn, &status, &Status::Done { epochs });
    let (again, status) = checked(rt, alloc, objects.vault.bytes());
    again.assert_wrote(rt, "check", turn, objects.out.bytes());
    assert_ended(rt, "check", turn, &status, &Status::Done { epochs });
}

/// A run of a script in two phases has so many answers, and a check of its vault writes the same.
pub(crate) fn assert_all_answered<R: Threads + Wait + Sync + Abort>(
    rt: &R,
    alloc: Global,
    line: &str,
    script: &str,
    count: usize,
    turn: usize,
) {
    assert_phases_answered(rt, alloc, line, script, 2, count, turn);
}

/// So it is of a script in so many phases.
pub(crate) fn assert_phases_answered<R: Threads + Wait + Sync + Abort>(
    rt: &R,
    alloc: Global,
    line: &str,
    script: &str,
    phases: u64,
    count: usize,
    turn: usize,
) {
    let (objects, status) = served(rt, alloc, line, script, 100_000);
    same(
        rt,
        "answers",
        turn,
        &answers_in(objects.out.bytes()),
        &count,
    );
    assert_checked(rt, alloc, &objects, status, phases, turn);
}

// Lines of answers, of which there is one for each request: they begin with a digit.
fn answers_in(report: &[u8]) -> usize {
    report
        .split(|byte| *byte == b'\n')
        .filter(|line| line.first().is_some_and(|byte| byte.is_ascii_digit()))
        .count()
}
