//! Objects that fail, one call after the other, such that are too small, and objects that never fail.
use crate::serving::{
    Objects, REPORT, SCRIPT, assert_ended, assert_front, checked, counter_that_fails, holds,
    line_of, one, program, same, served, words_of,
};
use crate::sure_objects::run_surely;
use fastver_top::{Status, fastver};
use fv_outside::{
    FreeGate, MemorySink, MemorySource, MemoryVault, SureCounter, SureSink, SureSource, SureVault,
};
use std::alloc::Global;
use std::process::Abort;
use std::sync::Wait;
use std::thread::Threads;

// A run of the script by bytes, whose calls of these numbers fail: of the source, the sink and the vault.
fn failing<R: Threads + Wait + Sync + Abort>(
    rt: &R,
    alloc: Global,
    more: &str,
    fails: (&[u64], &[u64], &[u64]),
) -> (Objects, Status) {
    let line = line_of(rt, alloc, more);
    program(rt, alloc, &line, SCRIPT.as_bytes(), 1, fails)
}

// Where the read of this number fails, nothing is written.
fn assert_read_fails<R: Threads + Wait + Sync + Abort>(rt: &R, alloc: Global, k: usize) {
    let (objects, status) = failing(rt, alloc, "2 --logs x", (&one(k), &[], &[]));
    assert_ended(rt, "read", k, &status, &Status::ReadFault);
    same(rt, "read", k, &objects.source.faults(), &1);
    objects.assert_hold(rt, k, &[], &[], None);
}

// No read of this number is made: the script is served, and no fault comes.
fn assert_not_read<R: Threads + Wait + Sync + Abort>(rt: &R, alloc: Global, k: usize) {
    let (objects, status) = failing(rt, alloc, "2 --logs x", (&one(k), &[], &[]));
    assert_ended(rt, "read", k, &status, &Status::Done { epochs: 1 });
    same(rt, "faults", k, &objects.source.faults(), &0);
}

#[test]
fn where_a_read_fails_nothing_is_written(rt: HostRuntime) {
    // One read for each byte, and one at the end.
    for k in 0..SCRIPT.len() {
        assert_read_fails(&rt, rt.alloc(), k);
    }
    assert_read_fails(&rt, rt.alloc(), SCRIPT.len());
    // Behind that none is made.
    assert_not_read(&rt, rt.alloc(), SCRIPT.len() + 1);
}

// What is there behind a run where nothing fails.
fn whole<R: Threads + Wait + Sync + Abort>(rt: &R, alloc: Global) -> Objects {
    let line = line_of(rt, alloc, "2");
    let (objects, status) = served(rt, alloc, &line, SCRIPT, 1);
    assert_ended(rt, "whole", 0, &status, &Status::Done { epochs: 1 });
    objects
}

// Where the write of the byte behind this front of the report fails, the front stands, and the vault has the frames of what
// was written.
fn assert_write_fails<R: Threads + Wait + Sync + Abort>(
    rt: &R,
    alloc: Global,
    front: &[u8],
    bundle: &[u8],
) {
    let k = front.len();
    let (objects, status) = failing(rt, alloc, "2 --logs x", (&[], &one(k), &[]));
    assert_ended(rt, "write", k, &status, &Status::WriteFault);
    objects.assert_hold(rt, k, front, bundle, Some("x"));
}

// So it is at each byte of the report.
fn assert_writes_fail<R: Threads + Wait + Sync + Abort>(
    rt: &R,
    alloc: Global,
    report: &[u8],
    bundle: &[u8],
) {
    for k in 0..report.len() {
        assert_write_fails(rt, alloc, &report[..k], bundle);
    }
}

#[test]
fn where_a_write_fails_a_front_of_the_report_stands(rt: HostRuntime) {
    let whole = whole(&rt, rt.alloc());
    assert_writes_fail(&rt, rt.alloc(), REPORT.as_bytes(), whole.vault.bytes());
}

// Where the second write of so many bytes fails, the first stands.
fn assert_second_fails<R: Threads + Wait + Sync + Abort>(rt: &R, alloc: Global, piece: usize) {
    let line = line_of(rt, alloc, "2");
    let fails: (&[u64], &[u64], &[u64]) = (&[], &[1], &[]);
    let (objects, status) = program(rt, alloc, &line, SCRIPT.as_bytes(), piece, fails);
    assert_ended(rt, "piece", piece, &status, &Status::WriteFault);
    holds(rt, "piece", piece, !objects.out.bytes().is_empty());
    assert_front(rt, "the report", objects.out.bytes(), REPORT.as_bytes());
}

#[test]
fn a_second_write_that_fails_leaves_the_first(rt: HostRuntime) {
    assert_second_fails(&rt, rt.alloc(), 7);
    assert_second_fails(&rt, rt.alloc(), 30);
    assert_second_fails(&rt, rt.alloc(), 1000);
}

// Where the vault's write of the byte behind this front of the bundle fails, the front stands. The one round's lines wait
// until the vault has its frames.
fn assert_vault_fails<R: Threads + Wait + Sync + Abort>(rt: &R, alloc: Global, front: &[u8]) {
    let k = front.len();
    let (objects, status) = failing(rt, alloc, "2", (&[], &[], &one(k)));
    assert_ended(rt, "vault", k, &status, &Status::VaultFault);
    objects.assert_hold(rt, k, &[], front, None);
}

// So it is at each byte of the bundle.
fn assert_vault_writes_fail<R: Threads + Wait + Sync + Abort>(
    rt: &R,
    alloc: Global,
    bundle: &[u8],
) {
    holds(rt, "bytes", bundle.len(), bundle.len() > 208);
    for k in 0..bundle.len() {
        assert_vault_fails(rt, alloc, &bundle[..k]);
    }
}

#[test]
fn where_the_vault_fails_a_front_of_the_bundle_stands(rt: HostRuntime) {
    let whole = whole(&rt, rt.alloc());
    assert_vault_writes_fail(&rt, rt.alloc(), whole.vault.bytes());
}

// Where the vault's call of this number fails, it has no byte, and this name.
fn assert_unwritten<R: Threads + Wait + Sync + Abort>(
    rt: &R,
    alloc: Global,
    call: u64,
    name: Option<&str>,
) {
    let (objects, status) = failing(rt, alloc, "2 --logs x", (&[], &[], &[call]));
    assert_ended(rt, "vault", 0, &status, &Status::VaultFault);
    objects.assert_hold(rt, 0, &[], &[], name);
}

#[test]
fn a_vault_that_can_not_be_named_takes_nothing(rt: HostRuntime) {
    // Naming is the vault's first call.
    assert_unwritten(&rt, rt.alloc(), 0, None);
    // Behind it comes the first byte of the header.
    assert_unwritten(&rt, rt.alloc(), 1, Some("x"));
}

// What is there behind a run with these words, whose sink and vault have room for so many bytes and take seven of them a
// write, and its status.
fn cramped<R: Threads + Wait + Sync + Abort>(
    rt: &R,
    alloc: Global,
    more: &str,
    rooms: (usize, usize),
) -> (Objects, Status) {
    let line = line_of(rt, alloc, more);
    let words = words_of(rt, alloc, &line);
    let mut source = MemorySource::new(alloc, SCRIPT.as_bytes(), 7, &[]).expect(rt, "memory");
    let mut out = MemorySink::new(alloc, rooms.0, 7, &[]).expect(rt, "memory");
    let mut vault = MemoryVault::new(alloc, rooms.1, 7, &[]).expect(rt, "memory");
    let mut counter = counter_that_fails(rt, alloc);
    let status = fastver(
        rt,
        alloc,
        &words,
        &mut source,
        &mut out,
        &mut vault,
        &FreeGate,
        &mut counter,
    );
    (Objects { source, out, vault }, status)
}

// Where they have room for so many bytes, the sink and the vault have these, and the run ends so.
fn assert_filled<R: Threads + Wait + Sync + Abort>(
    rt: &R,
    alloc: Global,
    rooms: (usize, usize),
    out: &[u8],
    vault: &[u8],
    status: &Status,
) {
    let (objects, found) = cramped(rt, alloc, "2", rooms);
    assert_ended(rt, "room", rooms.0, &found, status);
    objects.assert_hold(rt, rooms.1, out, vault, None);
}

// A name that is too long is none.
fn assert_unnamed<R: Threads + Wait + Sync + Abort>(rt: &R, alloc: Global) {
    let (objects, status) = cramped(rt, alloc, "2 --logs xy", (REPORT.len(), 1));
    assert_ended(rt, "room", 1, &status, &Status::VaultFault);
    objects.assert_hold(rt, 1, &[], &[], None);
}

#[test]
fn objects_that_are_too_small_are_filled(rt: HostRuntime) {
    let whole = whole(&rt, rt.alloc());
    let (report, bundle) = (REPORT.as_bytes(), whole.vault.bytes());
    same(&rt, "bytes", 0, &bundle.len(), &479);
    for room in 0..report.len() {
        let front = &report[..room];
        assert_filled(
            &rt,
            rt.alloc(),
            (room, 479),
            front,
            bundle,
            &Status::WriteFault,
        );
    }
    for room in 0..bundle.len() {
        let (rooms, front) = ((report.len(), room), &bundle[..room]);
        assert_filled(&rt, rt.alloc(), rooms, &[], front, &Status::VaultFault);
    }
    let rooms = (report.len(), 479);
    assert_filled(
        &rt,
        rt.alloc(),
        rooms,
        report,
        bundle,
        &Status::Done { epochs: 1 },
    );
    assert_unnamed(&rt, rt.alloc());
}

#[test]
fn objects_that_never_fail(rt: HostRuntime) {
    let line = line_of(&rt, rt.alloc(), "2 --logs x");
    let words = words_of(&rt, rt.alloc(), &line);
    let mut source = SureSource::new(rt.alloc(), SCRIPT.as_bytes(), 3).expect(&rt, "memory");
    let mut out = SureSink::new(rt.alloc(), 1000, 3).expect(&rt, "memory");
    let mut vault = SureVault::new(rt.alloc(), 10_000, 3).expect(&rt, "memory");
    let mut counter = SureCounter::new(5);
    let status = run_surely(
        &rt,
        rt.alloc(),
        &words,
        &mut source,
        &mut out,
        &mut vault,
        &mut counter,
    );
    same(&rt, "the counter", 0, &counter.number(), &5);
    assert_ended(&rt, "run", 0, &status, &Status::Done { epochs: 1 });
    same(&rt, "run", 0, &out.bytes(), &Some(REPORT.as_bytes()));
    same(&rt, "is named", 0, &vault.is_named(), &true);
    let bundle = vault.bytes().expect(&rt, "a vault that tells no bytes");
    let (again, status) = checked(&rt, rt.alloc(), bundle);
    again.assert_wrote(&rt, "check", 0, REPORT.as_bytes());
    assert_ended(&rt, "check", 0, &status, &Status::Done { epochs: 1 });
}
