//! Words of a run that are refused: nothing is read, written or named.
use crate::serving::{SCRIPT, assert_ended, same, served};
use fastver_top::Status;
use std::alloc::Global;
use std::process::Abort;
use std::sync::Wait;
use std::thread::Threads;

// Words that ask for nothing, a line each.
const REFUSED: &str = "\
fastver
fastver check
fastver run
fastver run --key 00000000000000000000000000000000 --verifiers 0 --shards 2 --logs x
fastver run --key 00000000000000000000000000000000 --verifiers 1 --shards 3 --logs x
fastver run --key 000000000000000000000000000000 --verifiers 1 --shards 2 --logs x
fastver run --key 00000000000000000000000000000000 --verifiers 65 --shards 2 --logs x
fastver run --key 00000000000000000000000000000000 --verifiers 1 --shards 2 --logs x --counter 16777216
fastver run --key 00000000000000000000000000000000 --verifiers 1 --shards 2 --logs x --format 4
fastver run --key 00000000000000000000000000000000 --verifiers 1 --shards 2 --logs x --bits 64
fastver run --key 00000000000000000000000000000000 --verifiers 1 --shards 2 --logs x --format 2 --bits 128
fastver run --key 00000000000000000000000000000000 --verifiers 1 --shards 2 --logs x --format 3 --bits 65
fastver run --key 00000000000000000000000000000000 --verifiers 1 --shards 2 --logs x --rolling --hot 2
fastver run --key 00000000000000000000000000000000 --verifiers 1 --shards 2 --logs x --hot 1 --rolling --format 3
fastver gen --key 00000000000000000000000000000000 --verifiers 1 --shards 2 --logs x --seed 0 --ops 1 --rolling
";

// The words of a line are refused.
fn assert_refused<R: Threads + Wait + Sync + Abort>(rt: &R, alloc: Global, line: &str) {
    let (objects, status) = served(rt, alloc, line, SCRIPT, 1);
    assert_ended(rt, line, 0, &status, &Status::Usage);
    same(rt, line, 0, &status.number(), &1);
    same(rt, line, 0, &objects.source.left(), &SCRIPT.as_bytes());
    objects.assert_hold(rt, 0, &[], &[], None);
}

#[test]
fn words_are_refused_before_anything_is_read(rt: HostRuntime) {
    same(&rt, "lines", 0, &REFUSED.lines().count(), &15);
    for line in REFUSED.lines() {
        assert_refused(&rt, rt.alloc(), line);
    }
}
