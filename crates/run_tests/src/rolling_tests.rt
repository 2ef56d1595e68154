//! Scripts that are served in rolling epochs: no worker waits for a phase's end.
use crate::serving::{apart, assert_all_served, assert_phases_answered, contending, host_line};
use crate::worker_tests::{assert_beside_each_other, assert_in_some_order};
use std::alloc::Global;
use std::process::Abort;
use std::sync::Wait;
use std::thread::Threads;

// Each case is a script behind the numbers of workers and shards and further words, with its status and report, as the slow
// program has it. One worker answers as without `--rolling`, also by slot, with long keys and of keys that were never put; an epoch
// with no request is certified for two workers, for more workers than shards, and for more shards than workers; and two workers
// that are apart come to the same under every schedule.
const ROLLING: &str = "\
== 1 --shards 2 --rolling
0 put 5 6162
0 get 5
epoch
0 get 5
-> 0
epoch 0 certified 2
0.3 v0 put 5 6162
0.5 v0 get 5 6162
epoch 1 certified 1
1.5 v0 get 5 6162
done 2
== 1 --shards 2
0 put 5 6162
0 get 5
epoch
0 get 5
-> 0
epoch 0 certified 2
0.3 v0 put 5 6162
0.5 v0 get 5 6162
epoch 1 certified 1
1.5 v0 get 5 6162
done 2
== 2 --shards 2 --rolling
epoch
-> 0
epoch 0 certified 0
epoch 1 certified 0
done 2
== 1 --shards 2 --rolling
-> 0
epoch 0 certified 0
done 1
== 3 --shards 2 --rolling
epoch
epoch
-> 0
epoch 0 certified 0
epoch 1 certified 0
epoch 2 certified 0
done 3
== 2 --shards 16 --rolling
epoch
epoch
-> 0
epoch 0 certified 0
epoch 1 certified 0
epoch 2 certified 0
done 3
== 1 --shards 2 --rolling --format 3 --bits 128 --absent
0 get 7
0 put 7 61
epoch
0 get 7
epoch
epoch
0 del 7
0 get 7
-> 0
epoch 0 certified 2
0.3 v0 get 7 none
0.5 v0 put 7 61
epoch 1 certified 1
1.5 v0 get 7 61
epoch 2 certified 0
epoch 3 certified 2
3.5 v0 put 7 none
3.7 v0 get 7 none
done 4
== 1 --shards 4 --rolling --format 2
epoch
0 put 5 61
epoch
0 get 5
-> 0
epoch 0 certified 0
epoch 1 certified 1
1.9 v0 put 5 61
epoch 2 certified 1
2.9 v0 get 5 61
done 3
== 2 --shards 2 --rolling
1 put 9223372036854775808 01
0 get 7
-> 0
epoch 0 certified 2
0.3 v0 get 7 none
0.3 v1 put 9223372036854775808 01
done 1
";

#[test]
fn scripts_are_served_in_rolling_epochs(rt: HostRuntime) {
    assert_all_served(&rt, rt.alloc(), ROLLING, 9);
}

// A counter ends in a scan, at a request of the first epoch, at one of the next and of the one behind that, where the first is
// certified, and in the close; and the counters do not suffice for the setup. Of two workers the lowest is named whose clock ended: that
// is worker 0 where both ended, and worker 1 where its clock alone did.
const ENDED: &str = "\
== 1 --shards 2 --rolling --counter 3
epoch
-> 10
clock end worker 0 at 1.2
== 1 --shards 2 --rolling --counter 4
0 put 5 6162
0 get 5
-> 10
clock end worker 0 at 0.4
== 1 --shards 2 --rolling --counter 6
0 put 5 6162
0 get 5
epoch
0 get 5
0 get 5
-> 10
clock end worker 0 at 1.6
== 1 --shards 2 --rolling --counter 6
epoch
epoch
0 get 5
0 get 5
epoch
-> 10
epoch 0 certified 0
clock end worker 0 at 2.6
== 1 --shards 2 --rolling --counter 3
-> 10
clock end worker 0 at 1.2
== 1 --shards 2 --rolling --counter 1
0 put 5 6162
0 get 5
-> 10
clock end worker 0 at 0.0
== 2 --shards 2 --rolling --counter 6
0 put 5 61
0 put 5 62
0 put 5 63
1 put 9223372036854775808 61
1 put 9223372036854775808 62
1 put 9223372036854775808 63
-> 10
clock end worker 0 at 0.6
== 2 --shards 2 --rolling --counter 6
0 put 5 61
1 put 9223372036854775808 61
1 put 9223372036854775808 62
1 put 9223372036854775808 63
-> 10
clock end worker 1 at 0.6
";

#[test]
fn a_counter_that_ends_in_rolling_epochs_is_told(rt: HostRuntime) {
    assert_all_served(&rt, rt.alloc(), ENDED, 8);
}

// The first epoch is the last that there is, the one before, and so on: there is none to go on to for a later phase or in the close, up
// to where the close has the two that it needs.
const LAST: &str = "\
== 1 --shards 2 --rolling --first 4294967295
0 put 5 6162
0 get 5
-> 10
clock end worker 0 at 4294967295.6
== 1 --shards 2 --rolling --first 4294967295
0 put 5 6162
0 get 5
epoch
0 get 5
-> 10
clock end worker 0 at 4294967295.6
== 2 --shards 2 --rolling --first 4294967295
epoch
-> 10
clock end worker 0 at 4294967295.2
== 1 --shards 2 --rolling --first 4294967294
0 put 5 6162
0 get 5
-> 10
clock end worker 0 at 4294967295.4
== 1 --shards 2 --rolling --first 4294967294
0 put 5 6162
0 get 5
epoch
0 get 5
-> 10
clock end worker 0 at 4294967295.6
== 1 --shards 2 --rolling --first 4294967294
0 put 5 6162
0 get 5
epoch
0 get 5
epoch
-> 10
clock end worker 0 at 4294967295.6
== 2 --shards 2 --rolling --first 4294967294
epoch
-> 10
clock end worker 0 at 4294967295.2
== 1 --shards 2 --rolling --first 4294967293
0 put 5 6162
0 get 5
-> 0
epoch 4294967293 certified 2
4294967293.3 v0 put 5 6162
4294967293.5 v0 get 5 6162
done 1
== 1 --shards 2 --rolling --first 4294967293
0 put 5 6162
0 get 5
epoch
0 get 5
-> 10
epoch 4294967293 certified 2
4294967293.3 v0 put 5 6162
4294967293.5 v0 get 5 6162
clock end worker 0 at 4294967295.4
== 2 --shards 2 --rolling --first 4294967293
epoch
-> 10
epoch 4294967293 certified 0
clock end worker 0 at 4294967295.2
== 2 --shards 2 --rolling --first 4294967292
epoch
-> 0
epoch 4294967292 certified 0
epoch 4294967293 certified 0
done 2
";

#[test]
fn there_is_no_epoch_behind_the_last_one(rt: HostRuntime) {
    assert_all_served(&rt, rt.alloc(), LAST, 11);
}

#[test]
fn workers_at_one_key_are_served_in_some_order(rt: HostRuntime) {
    let line = host_line(&rt, rt.alloc(), "2 --shards 2 --rolling");
    for turn in 0..50 {
        assert_in_some_order(&rt, rt.alloc(), &line, turn);
    }
}

#[test]
fn workers_serve_beside_each_other(rt: HostRuntime) {
    let line = host_line(&rt, rt.alloc(), "2 --shards 2 --rolling");
    assert_beside_each_other(&rt, rt.alloc(), &line);
}

// A script of 20 phases with so many requests is served ten times: each time all is certified, and a check of the vault writes the
// same lines.
fn assert_served_ten_times<R: Threads + Wait + Sync + Abort>(
    rt: &R,
    alloc: Global,
    words: &str,
    script: &str,
    count: usize,
) {
    let line = host_line(rt, alloc, words);
    for turn in 0..10 {
        assert_phases_answered(rt, alloc, &line, script, 20, count, turn);
    }
}

#[test]
fn all_of_64_workers_and_verifiers_meet_at_one_key(rt: HostRuntime) {
    let script = contending(&rt, rt.alloc(), 64, &[5], 1, 20);
    assert_served_ten_times(&rt, rt.alloc(), "64 --shards 2 --rolling", &script, 1280);
}

#[test]
fn all_of_64_workers_and_verifiers_are_apart(rt: HostRuntime) {
    let script = apart(&rt, rt.alloc(), 20);
    assert_served_ten_times(&rt, rt.alloc(), "64 --shards 64 --rolling", &script, 2560);
}

#[test]
fn more_workers_than_shards_are_served(rt: HostRuntime) {
    let script = contending(&rt, rt.alloc(), 5, &[5, 9223372036854775808, 6], 3, 20);
    let words = "5 --shards 2 --rolling --format 2";
    assert_served_ten_times(&rt, rt.alloc(), words, &script, 300);
}

#[test]
fn more_shards_than_workers_are_served(rt: HostRuntime) {
    let keys = [
        5,
        1152921504606846976,
        9223372036854775808,
        17293822569102704640,
    ];
    let script = contending(&rt, rt.alloc(), 3, &keys, 4, 20);
    let words = "3 --shards 16 --rolling --absent --format 3";
    assert_served_ten_times(&rt, rt.alloc(), words, &script, 240);
}
