//! The program with a counter, over bytes in memory: bundles that are sealed, and seals that are gone on from.
use crate::running::{same, words_of};
use fastver_top::{Status, fastver};
use fv_outside::{FreeGate, MemoryCounter, MemorySink, MemorySource, MemoryVault};
use std::alloc::Global;
use std::process::Abort;
use std::sync::Wait;
use std::thread::Threads;

/// The words behind which a check seals what it came to.
pub(crate) const SEAL: &str = "fastver check --key 00000000000000000000000000000000 --seal kept";

/// The words behind which a check goes on from a seal.
pub(crate) const RESUME: &str = "fastver resume --key 00000000000000000000000000000000";

/// What a call leaves of its objects, and its status.
#[derive(Drop)]
pub(crate) struct Left {
    pub source: MemorySource,
    pub out: MemorySink,
    pub vault: MemoryVault,
    pub counter: MemoryCounter,
    pub status: Status,
}

/// By how many bytes a call reads and writes, where its counter stands, and the numbers of the calls that fail: of the source, the sink,
/// the vault and the counter.
#[derive(Clone, Copy)]
pub(crate) struct Around<'a> {
    pub piece: usize,
    pub number: u64,
    pub reads: &'a [u64],
    pub writes: &'a [u64],
    pub keeps: &'a [u64],
    pub asks: &'a [u64],
}

/// Where the counter stands at this number and nothing fails, by pieces of so many bytes.
pub(crate) fn at(number: u64, piece: usize) -> Around<'static> {
    Around {
        piece,
        number,
        reads: &[],
        writes: &[],
        keeps: &[],
        asks: &[],
    }
}

/// What is there behind the program with the words of a line, over these bytes.
pub(crate) fn called<R: Threads + Wait + Sync + Abort>(
    rt: &R,
    alloc: Global,
    line: &str,
    bytes: &[u8],
    around: Around<'_>,
) -> Left {
    let words = words_of(rt, alloc, line);
    let piece = around.piece.max(1);
    let mut source = MemorySource::new(alloc, bytes, piece, around.reads).expect(rt, "memory");
    let mut out = MemorySink::new(alloc, 10_000, piece, around.writes).expect(rt, "memory");
    let mut vault = MemoryVault::new(alloc, 10_000, piece, around.keeps).expect(rt, "memory");
    let mut counter = MemoryCounter::new(alloc, around.number, around.asks).expect(rt, "memory");
    let status = fastver(
        rt,
        alloc,
        &words,
        &mut source,
        &mut out,
        &mut vault,
        &FreeGate,
        &mut counter,
    );
    Left {
        source,
        out,
        vault,
        counter,
        status,
    }
}

/// This was written, the status has this text, and the counter stands at this number.
pub(crate) fn assert_left(
    rt: &impl Abort,
    label: &str,
    turn: usize,
    left: &Left,
    out: &[u8],
    status: &str,
    number: u64,
) {
    same(rt, label, turn, &left.out.bytes(), &out);
    let text = left.status.line();
    same(rt, label, turn, &text.as_slice(), &status.as_bytes());
    same(rt, label, turn, &left.counter.number(), &number);
}

/// The vault took this name and these bytes.
pub(crate) fn assert_kept(
    rt: &impl Abort,
    label: &str,
    turn: usize,
    left: &Left,
    name: Option<&str>,
    bytes: &[u8],
) {
    same(rt, label, turn, &left.vault.name_taken(), &name);
    same(rt, label, turn, &left.vault.bytes(), &bytes);
}

/// So many calls failed, of the source, the sink, the vault and the counter together.
pub(crate) fn assert_faults(rt: &impl Abort, label: &str, turn: usize, left: &Left, faults: u64) {
    let found = left.source.faults().saturating_add(left.out.faults());
    let found = found.saturating_add(left.vault.faults());
    let found = found.saturating_add(left.counter.faults());
    same(rt, label, turn, &found, &faults);
}

/// Some bytes behind others.
pub(crate) fn joined(rt: &impl Abort, alloc: Global, front: &[u8], more: &[u8]) -> Vec<u8> {
    let mut bytes = Vec::from_slice(alloc, front).expect(rt, "memory");
    bytes.extend_from_slice(more).expect(rt, "memory");
    bytes
}

/// A text behind another.
pub(crate) fn texts_joined(rt: &impl Abort, alloc: Global, front: &str, more: &str) -> String {
    let mut text = String::from_str(alloc, front).expect(rt, "memory");
    text.push_str(more).expect(rt, "memory");
    text
}

/// The seal of these bytes, with the number behind this one.
pub(crate) fn seal_of<R: Threads + Wait + Sync + Abort>(
    rt: &R,
    alloc: Global,
    bytes: &[u8],
    number: u64,
) -> Vec<u8> {
    let left = called(rt, alloc, SEAL, bytes, at(number, 1000));
    same(rt, "sealed", 0, &left.status.number(), &0);
    Vec::from_slice(alloc, left.vault.bytes()).expect(rt, "memory")
}
