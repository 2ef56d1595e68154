//! Objects that fail, one call after the other, sinks that are too small, and objects that never fail.
use crate::asking::{
    ACCEPT, ACCEPTED, REPORT, RUN, SCRIPT, Way, ask, ask_by, assert_stops, same, text_of,
};
use fastver_top::{Status, fastver};
use fv_outside::{FreeGate, SureCounter, SureSink, SureSource, SureVault};
use std::alloc::Global;
use std::process::Abort;
use std::sync::Wait;
use std::thread::Threads;

// Where the read of this number fails, nothing is written.
fn assert_read_fails<R: Threads + Wait + Sync + Abort>(
    rt: &R,
    alloc: Global,
    text: &[u8],
    k: usize,
) {
    let asked = ask(rt, alloc, ACCEPT, text, (&[k as u64], &[]));
    assert_stops(rt, "read", k, &asked, b"", Status::ReadFault);
}

#[test]
fn where_a_read_fails_nothing_is_written(rt: HostRuntime) {
    let text = text_of(&rt, rt.alloc(), "P/C/");
    // One read for each byte, and one at the end.
    for k in 0..text.len() + 1 {
        assert_read_fails(&rt, rt.alloc(), &text, k);
    }
}

// Where the write of one byte behind this front of what the words come to fails, the front stands.
fn assert_write_fails<R: Threads + Wait + Sync + Abort>(
    rt: &R,
    alloc: Global,
    words: &str,
    bytes: &[u8],
    front: &[u8],
) {
    let asked = ask(rt, alloc, words, bytes, (&[], &[front.len() as u64]));
    let status = Status::WriteFault;
    assert_stops(rt, words, front.len(), &asked, front, status);
}

// So it is at each byte of the line that the text of these letters comes to.
fn assert_fronts<R: Threads + Wait + Sync + Abort>(
    rt: &R,
    alloc: Global,
    letters: &str,
    line: &str,
) {
    let text = text_of(rt, alloc, letters);
    for k in 0..line.len() {
        assert_write_fails(rt, alloc, ACCEPT, &text, &line.as_bytes()[..k]);
    }
}

#[test]
fn where_a_write_fails_a_front_of_the_line_stands(rt: HostRuntime) {
    assert_fronts(&rt, rt.alloc(), "P/C/", ACCEPTED);
    assert_fronts(&rt, rt.alloc(), "Q/C/", "not tagged\n");
    assert_fronts(&rt, rt.alloc(), "L/C/", "not certified\n");
}

#[test]
fn where_a_write_fails_a_front_of_the_report_stands(rt: HostRuntime) {
    for k in (0..REPORT.len()).step_by(61) {
        let front = &REPORT.as_bytes()[..k];
        assert_write_fails(&rt, rt.alloc(), RUN, SCRIPT.as_bytes(), front);
    }
}

// A sink with room for this front of the line alone is filled. Each call of the vault would fail, but there is none.
fn assert_filled<R: Threads + Wait + Sync + Abort>(
    rt: &R,
    alloc: Global,
    text: &[u8],
    front: &[u8],
) {
    let way = Way {
        read: 1000,
        write: 7,
        sink_room: front.len(),
        vault_room: 0,
        fails: (&[], &[]),
    };
    let asked = ask_by(rt, alloc, ACCEPT, text, way);
    let status = Status::WriteFault;
    assert_stops(rt, "room", front.len(), &asked, front, status);
    same(rt, "faults", &asked.vault.faults(), &0);
}

#[test]
fn a_sink_that_is_too_small_is_filled(rt: HostRuntime) {
    let text = text_of(&rt, rt.alloc(), "P/C/");
    for room in 0..ACCEPTED.len() {
        assert_filled(&rt, rt.alloc(), &text, &ACCEPTED.as_bytes()[..room]);
    }
}

const WORDS: [&str; 4] = [
    "fastver",
    "accept",
    "--key",
    "00000000000000000000000000000000",
];

#[test]
fn objects_that_never_fail(rt: HostRuntime) {
    let text = text_of(&rt, rt.alloc(), "P/C/");
    let mut source = SureSource::new(rt.alloc(), &text, 7).expect(&rt, "memory");
    let mut out = SureSink::new(rt.alloc(), 1000, 7).expect(&rt, "memory");
    let mut vault = SureVault::new(rt.alloc(), 1000, 7).expect(&rt, "memory");
    let mut counter = SureCounter::new(5);
    let status = fastver(
        &rt,
        rt.alloc(),
        &WORDS,
        &mut source,
        &mut out,
        &mut vault,
        &FreeGate,
        &mut counter,
    );
    same(&rt, "status", &status, &Status::Done { epochs: 0 });
    same(&rt, "written", &out.bytes(), &Some(ACCEPTED.as_bytes()));
    same(&rt, "is named", &vault.is_named(), &false);
}
