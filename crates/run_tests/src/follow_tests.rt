//! Runs whose vault is followed: what is written is the map that the script leaves.
use crate::serving::{assert_written, cases_in, host_line, program, served};
use bundle_rows::Case;
use std::alloc::Global;
use std::process::Abort;
use std::sync::Wait;
use std::thread::Threads;

const FOLLOW: &str = "fastver follow --key 00000000000000000000000000000000";

// Each case is a script behind the words of a run, and what a follower of its vault writes: keys at both ends of their range, and a key
// that was deleted.
const FOLLOWED: &str = "\
== 1 --shards 2
0 put 0 61
0 put 1 62
0 put 18446744073709551615 63
0 get 0
-> 0
0 61
1 62
18446744073709551615 63
done 1
== 1 --shards 2
0 put 5 .
0 get 5
0 del 5
0 get 5
-> 0
done 1
";

// The vault of the script has this map.
fn assert_followed<R: Threads + Wait + Sync + Abort>(rt: &R, alloc: Global, case: &Case<'_>) {
    let line = host_line(rt, alloc, case.label);
    let (objects, _) = served(rt, alloc, &line, case.rows, 1000);
    let bundle = objects.vault.bytes();
    let (map, status) = program(rt, alloc, FOLLOW, bundle, 1000, (&[], &[], &[]));
    let report = case.report.as_bytes();
    assert_written(rt, case.label, 0, &map, &status, report, case.status);
}

#[test]
fn vaults_are_followed(rt: HostRuntime) {
    for case in &cases_in(&rt, rt.alloc(), FOLLOWED, 2) {
        assert_followed(&rt, rt.alloc(), case);
    }
}
