//! Words that are refused: nothing is read, written or named.
use crate::asking::{ask, assert_stops, assert_unused, same, text_of};
use fastver_top::Status;
use std::alloc::Global;
use std::process::Abort;
use std::sync::Wait;
use std::thread::Threads;

// Words that ask for nothing, a line each.
const REFUSED: &str = "\
fastver accept
fastver accept --key 000000000000000000000000000000
fastver accept --key 00000000000000000000000000000000 --receipts
fastver accept --key 00000000000000000000000000000000 --logs x
fastver accept --key 00000000000000000000000000000000 x
fastver audit --key 00000000000000000000000000000000 --receipts
fastver check --key 00000000000000000000000000000000 --receipts --receipts
fastver check --key 00000000000000000000000000000000 --receipts=yes
fastver run --key 00000000000000000000000000000000 --verifiers 1 --shards 2 --receipts yes
fastver run --key 00000000000000000000000000000000 --verifiers 1 --shards 2 --receipts=yes
";

// The words of a line are refused. A read that is made fails.
fn assert_refused<R: Threads + Wait + Sync + Abort>(
    rt: &R,
    alloc: Global,
    line: &str,
    text: &[u8],
) {
    let asked = ask(rt, alloc, line, text, (&[0], &[]));
    assert_stops(rt, line, 0, &asked, b"", Status::Usage);
    assert_unused(rt, line, &asked);
}

#[test]
fn words_are_refused(rt: HostRuntime) {
    let text = text_of(&rt, rt.alloc(), "P/C/");
    same(&rt, "lines", &REFUSED.lines().count(), &10);
    for line in REFUSED.lines() {
        assert_refused(&rt, rt.alloc(), line, &text);
    }
}
