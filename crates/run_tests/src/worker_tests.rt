//! Scripts that many workers serve, each in a thread of its own.
use crate::holding_gate::HoldingGate;
use crate::serving::{
    assert_all_answered, assert_all_served, assert_ended, contending, holds, host_line, program_at,
    same, served,
};
use fastver_top::Status;
use std::alloc::Global;
use std::process::Abort;
use std::sync::Wait;
use std::thread::Threads;

// Each case is a script behind the numbers of workers and shards and further words, with its status and report, as the slow
// program has it. In each phase a shard is used by one worker alone, so they are the same under every schedule. Equal clocks
// are ordered by verifier; the clock of worker 3 of 5 ends in a phase, and in a close, where it moves what others made hot;
// there are more workers than shards, more shards than workers, and workers with no request.
const APART: &str = "\
== 2 --shards 2
1 put 9223372036854775808 01
0 get 7
-> 0
epoch 0 certified 2
0.3 v0 get 7 none
0.3 v1 put 9223372036854775808 01
done 1
== 2 --shards 2
0 put 5 61
1 put 9223372036854775808 62
1 get 9223372036854775808
-> 0
epoch 0 certified 3
0.3 v0 put 5 61
0.3 v1 put 9223372036854775808 62
0.5 v1 get 9223372036854775808 62
done 1
== 5 --shards 8 --counter 20
0 put 0 00
1 put 2305843009213693952 01
2 put 4611686018427387904 02
4 put 9223372036854775808 04
3 put 6917529027641081856 00
3 put 6917529027641081856 01
3 put 6917529027641081856 02
3 put 6917529027641081856 03
3 put 6917529027641081856 04
3 put 6917529027641081856 05
3 put 6917529027641081856 06
3 put 6917529027641081856 07
3 put 6917529027641081856 08
3 put 6917529027641081856 09
0 get 0
1 get 2305843009213693952
2 get 4611686018427387904
4 get 9223372036854775808
epoch
0 get 0
-> 10
epoch 0 certified 16
0.3 v1 put 2305843009213693952 01
0.4 v2 put 4611686018427387904 02
0.5 v1 get 2305843009213693952 01
0.5 v3 put 6917529027641081856 00
0.6 v2 get 4611686018427387904 02
0.6 v4 put 9223372036854775808 04
0.7 v3 put 6917529027641081856 01
0.8 v4 get 9223372036854775808 04
0.9 v0 put 0 00
0.9 v3 put 6917529027641081856 02
0.11 v0 get 0 00
0.11 v3 put 6917529027641081856 03
0.13 v3 put 6917529027641081856 04
0.15 v3 put 6917529027641081856 05
0.17 v3 put 6917529027641081856 06
0.19 v3 put 6917529027641081856 07
clock end worker 3 at 0.20
== 5 --shards 16 --counter 16 --hot 1
1 put 3458764513820540928 61
1 put 3458764513820540929 61
1 put 3458764513820540930 61
1 put 3458764513820540931 61
2 put 9223372036854775808 62
2 put 9223372036854775809 62
2 put 9223372036854775810 62
4 put 14987979559889010688 64
epoch
1 get 3458764513820540928
1 get 3458764513820540929
1 get 3458764513820540930
1 get 3458764513820540931
2 get 9223372036854775808
2 get 9223372036854775809
2 get 9223372036854775810
4 get 14987979559889010688
epoch
0 get 5
-> 10
epoch 0 certified 8
0.5 v1 put 3458764513820540928 61
0.7 v1 put 3458764513820540929 61
0.9 v1 put 3458764513820540930 61
0.10 v2 put 9223372036854775808 62
0.11 v1 put 3458764513820540931 61
0.12 v2 put 9223372036854775809 62
0.14 v2 put 9223372036854775810 62
0.15 v4 put 14987979559889010688 64
clock end worker 3 at 2.10
== 8 --shards 2
1 put 0 00
5 put 9223372036854775808 00
1 put 0 01
5 put 9223372036854775808 01
epoch
7 get 0
2 get 9223372036854775808
-> 0
epoch 0 certified 4
0.2 v1 put 0 00
0.3 v5 put 9223372036854775808 00
0.4 v1 put 0 01
0.5 v5 put 9223372036854775808 01
epoch 1 certified 2
1.3 v2 get 9223372036854775808 01
1.3 v7 get 0 01
done 2
== 2 --shards 16
0 put 0 61
1 put 1152921504606846976 62
0 put 17293822569102704640 63
1 get 1152921504606846976
epoch
1 get 0
-> 0
epoch 0 certified 4
0.3 v1 put 1152921504606846976 62
0.5 v1 get 1152921504606846976 62
0.17 v0 put 0 61
0.19 v0 put 17293822569102704640 63
epoch 1 certified 1
1.17 v1 get 0 61
done 2
== 3 --shards 4
2 put 9223372036854775808 61
epoch
2 get 9223372036854775808
-> 0
epoch 0 certified 1
0.4 v2 put 9223372036854775808 61
epoch 1 certified 1
1.3 v2 get 9223372036854775808 61
done 2
";

#[test]
fn workers_apart_are_served(rt: HostRuntime) {
    assert_all_served(&rt, rt.alloc(), APART, 7);
}

// Two workers at one key: the report is one of these, as the one or the other comes first, or between.
const ORDERS: [&str; 3] = [
    "epoch 0 certified 3\n0.3 v0 put 5 61\n0.5 v1 put 5 62\n0.7 v0 get 5 62\ndone 1\n",
    "epoch 0 certified 3\n0.2 v1 put 5 62\n0.4 v0 put 5 61\n0.6 v0 get 5 61\ndone 1\n",
    "epoch 0 certified 3\n0.3 v0 put 5 61\n0.5 v0 get 5 61\n0.7 v1 put 5 62\ndone 1\n",
];

// One of these is what was written.
fn is_some_order(written: &[u8]) -> bool {
    ORDERS.iter().any(|order| order.as_bytes() == written)
}

/// The two workers are served.
pub(crate) fn assert_in_some_order<R: Threads + Wait + Sync + Abort>(
    rt: &R,
    alloc: Global,
    line: &str,
    turn: usize,
) {
    let script = "0 put 5 61\n1 put 5 62\n0 get 5\n";
    let (objects, status) = served(rt, alloc, line, script, 100_000);
    assert_ended(rt, "turn", turn, &status, &Status::Done { epochs: 1 });
    holds(rt, "turn", turn, is_some_order(objects.out.bytes()));
}

#[test]
fn workers_at_one_key_are_served_in_some_order(rt: HostRuntime) {
    let line = host_line(&rt, rt.alloc(), "2 --shards 2");
    for turn in 0..50 {
        assert_in_some_order(&rt, rt.alloc(), &line, turn);
    }
}

// What workers apart write.
const BESIDE: &str = "\
epoch 0 certified 3
0.3 v0 put 5 61
0.3 v1 put 9223372036854775808 62
0.5 v1 get 9223372036854775808 62
done 1
";

/// Worker 0 is held at its first request until worker 1 is at its second: whoever serves workers one after the other fails. The
/// workers pass as numbers 0 and 1, and their verifiers as 2 and 3.
pub(crate) fn assert_beside_each_other<R: Threads + Wait + Sync + Abort>(
    rt: &R,
    alloc: Global,
    line: &str,
) {
    let script = "0 put 5 61\n1 put 9223372036854775808 62\n1 get 9223372036854775808\n";
    let gate = HoldingGate::new();
    let none: (&[u64], &[u64], &[u64]) = (&[], &[], &[]);
    let (objects, status) = program_at(rt, alloc, line, script.as_bytes(), 1000, none, &gate);
    same(rt, "held", 0, &gate.has_held(), &true);
    same(rt, "numbers", 0, &gate.passed(), &0b1111);
    assert_ended(rt, "run", 0, &status, &Status::Done { epochs: 1 });
    objects.assert_wrote(rt, "run", 0, BESIDE.as_bytes());
}

#[test]
fn workers_serve_beside_each_other(rt: HostRuntime) {
    let line = host_line(&rt, rt.alloc(), "2 --shards 2");
    assert_beside_each_other(&rt, rt.alloc(), &line);
}

#[test]
fn a_script_that_contends_is_served_a_hundred_times(rt: HostRuntime) {
    let line = host_line(&rt, rt.alloc(), "4 --shards 2 --hot 3");
    let script = contending(&rt, rt.alloc(), 4, &[5, 9223372036854775808, 5, 6], 8, 2);
    for turn in 0..100 {
        assert_all_answered(&rt, rt.alloc(), &line, &script, 64, turn);
    }
}

#[test]
fn all_of_64_workers_ask_for_one_hot_key(rt: HostRuntime) {
    let line = host_line(&rt, rt.alloc(), "64 --shards 2 --hot 1");
    let script = contending(&rt, rt.alloc(), 64, &[5], 2, 2);
    assert_all_answered(&rt, rt.alloc(), &line, &script, 256, 0);
}
