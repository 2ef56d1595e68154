//! The program's words.
use crate::running::{PUT_AND_GET, REPORT, ask, assert_stops, by, bytes_in, run, same};
use fastver_top::Status;
use std::alloc::Global;
use std::process::Abort;
use std::sync::Wait;
use std::thread::Threads;

// Words that ask for nothing, a line each. One line has none.
const REFUSED: &str = "\
fastver

fastver check
fastver audit
fastver check --key
fastver check --key 000000000000000000000000000000
fastver audit --key 000000000000000000000000000000
fastver check --key 0000000000000000000000000000000
fastver check --key 0000000000000000000000000000000g
fastver check --key 00000000000000000000000000000000 more
fastver check --keys 00000000000000000000000000000000
fastver run --key 00000000000000000000000000000000
fastver help
";

// These words are refused: nothing is read, written or named.
fn assert_refused<R: Threads + Wait + Sync + Abort>(rt: &R, alloc: Global, line: &str) {
    let ended = ask(rt, alloc, line, b"FVB1", by(1));
    assert_stops(rt, line, 0, &ended, b"", Status::Usage);
    same(rt, line, 0, &ended.status.number(), &1);
    same(rt, line, 0, &ended.source.left(), &b"FVB1".as_slice());
}

#[test]
fn words_that_ask_for_nothing_are_refused(rt: HostRuntime) {
    same(&rt, "lines", 0, &REFUSED.lines().count(), &13);
    for line in REFUSED.lines() {
        assert_refused(&rt, rt.alloc(), line);
    }
}

// What this command writes of a put and a get.
fn assert_command<R: Threads + Wait + Sync + Abort>(
    rt: &R,
    alloc: Global,
    command: &str,
    shown: &str,
) {
    let bytes = bytes_in(rt, alloc, "rows", PUT_AND_GET);
    let ended = run(rt, alloc, command, &bytes, by(10));
    let status = Status::Done { epochs: 1 };
    assert_stops(rt, command, 0, &ended, shown.as_bytes(), status);
}

#[test]
fn a_check_and_an_audit_by_their_words(rt: HostRuntime) {
    assert_command(&rt, rt.alloc(), "check", REPORT);
    assert_command(&rt, rt.alloc(), "audit", "clean 1\ndone 1\n")
}
