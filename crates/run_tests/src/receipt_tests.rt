//! Reports with receipts: of a run, and of a check of what it wrote.
use crate::asking::{Asked, OTHER_REPORT, REPORT, RUN, SCRIPT, ask, assert_ends, assert_stops};
use std::alloc::Global;
use std::process::Abort;
use std::sync::Wait;
use std::thread::Threads;

// The words of a check.
const CHECK: &str = "fastver check --key 00000000000000000000000000000000";

// The words of a check with receipts.
const CHECK_WITH_RECEIPTS: &str = "fastver check --receipts --key 00000000000000000000000000000000";

// The words of a run under another key.
const OTHER_RUN: &str =
    "fastver run --verifiers 1 --shards 2 --receipts --key 11111111111111111111111111111111";

// A put and a get of one key.
const PUT_AND_GET: &str = "0 put 5 6162\n0 get 5\n";

// The report of a put and a get, with receipts.
const SHORT_REPORT: &str = "\
epoch 0 certified 2
0.3 v0 put 5 6162
receipt 0100000000000000030000000000000000000607000000000000000501026162ac51fb70250d0b223d2e4761dd97884b0acded9052db66085942bb4b765bd2c6
0.5 v0 get 5 6162
receipt 0100000000000000050000000000000000000b060000000000000005010261620d0f6f122c00f935c49264f74d5ef9de0477d9a78840a0da73bf339770c62efa
certificate 020000000000000000d9f6d832690ffe03b32ea0ea7d73a6896c7900651a4f0ee61aa7a1392b0e6348
done 1
";

// The same without receipts.
const PLAIN_REPORT: &str = "\
epoch 0 certified 2
0.3 v0 put 5 6162
0.5 v0 get 5 6162
done 1
";

// The report of no requests, with receipts.
const EMPTY_REPORT: &str = "\
epoch 0 certified 0
certificate 020000000000000000d9f6d832690ffe03b32ea0ea7d73a6896c7900651a4f0ee61aa7a1392b0e6348
done 1
";

// A run of a script writes this report, and so does a check of its bundle.
fn assert_same_receipts<R: Threads + Wait + Sync + Abort>(
    rt: &R,
    alloc: Global,
    script: &str,
    report: &str,
) {
    let run = ask(rt, alloc, RUN, script.as_bytes(), (&[], &[]));
    assert_ends(rt, "run", script.len(), &run, report.as_bytes(), 0);
    assert_checked(rt, alloc, CHECK_WITH_RECEIPTS, &run, report);
}

// A check with these words, of what a run left in its vault, writes this report and has the run's status.
fn assert_checked<R: Threads + Wait + Sync + Abort>(
    rt: &R,
    alloc: Global,
    words: &str,
    run: &Asked,
    report: &str,
) {
    let check = ask(rt, alloc, words, run.vault.bytes(), (&[], &[]));
    assert_stops(rt, words, 0, &check, report.as_bytes(), run.status);
}

#[test]
fn a_run_and_a_check_write_the_same_receipts(rt: HostRuntime) {
    assert_same_receipts(&rt, rt.alloc(), PUT_AND_GET, SHORT_REPORT);
    assert_same_receipts(&rt, rt.alloc(), SCRIPT, REPORT);
    assert_same_receipts(&rt, rt.alloc(), "", EMPTY_REPORT);
}

#[test]
fn a_check_that_is_not_asked_for_receipts_writes_none(rt: HostRuntime) {
    let run = ask(&rt, rt.alloc(), RUN, PUT_AND_GET.as_bytes(), (&[], &[]));
    assert_checked(&rt, rt.alloc(), CHECK, &run, PLAIN_REPORT);
}

#[test]
fn under_another_key_there_are_other_tags(rt: HostRuntime) {
    let run = ask(
        &rt,
        rt.alloc(),
        OTHER_RUN,
        PUT_AND_GET.as_bytes(),
        (&[], &[]),
    );
    assert_ends(&rt, "another key", 0, &run, OTHER_REPORT.as_bytes(), 0);
}
