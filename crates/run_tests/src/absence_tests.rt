//! Runs that make no records of keys that were never put.
use crate::serving::{
    assert_all_answered, assert_all_served, assert_ended, bundle_in, contending, host_line,
    line_of, served,
};
use fastver_top::Status;

// One worker: a key that was never put; one that was put and deleted, and then one that never was, twice; a key that is asked for
// and never put, which doesn't become hot, beside one that does; the same by slot; and a clock that ends at such a get.
const ABSENT: &str = "\
== 1 --shards 2 --absent
0 get 7
-> 0
epoch 0 certified 1
0.3 v0 get 7 none
done 1
== 1 --shards 2 --absent
0 put 5 61
0 del 5
0 get 5
0 get 7
0 get 7
-> 0
epoch 0 certified 5
0.3 v0 put 5 61
0.5 v0 put 5 none
0.7 v0 get 5 none
0.9 v0 get 7 none
0.11 v0 get 7 none
done 1
== 1 --shards 2 --absent --hot 2
0 get 7
0 get 7
epoch
0 put 9 61
0 get 9
epoch
0 get 9
0 get 8
-> 0
epoch 0 certified 2
0.3 v0 get 7 none
0.5 v0 get 7 none
epoch 1 certified 2
1.5 v0 put 9 61
1.7 v0 get 9 61
epoch 2 certified 2
2.6 v0 get 9 61
2.8 v0 get 8 none
done 3
== 1 --absent --shards 2 --format 2
0 get 7
0 put 7 61
0 get 7
-> 0
epoch 0 certified 3
0.3 v0 get 7 none
0.5 v0 put 7 61
0.7 v0 get 7 61
done 1
== 1 --shards 2 --absent --counter 4
0 get 7
0 get 7
-> 10
epoch 0 certified 1
0.3 v0 get 7 none
clock end worker 0 at 0.4
";

#[test]
fn reports_tell_of_keys_that_were_never_put(rt: HostRuntime) {
    assert_all_served(&rt, rt.alloc(), ABSENT, 5);
}

// What the vault holds of one such get: the shard is left as it was.
const MISSED: &str = "\
cache 128
frames 155
addM /0 empty root
evictBM /0 root 0.1
addM /1 empty root
evictBM /1 root 0.2
addB /0 empty 0.1 v0
absent 7 /0
evictB /0 0.4
next
addB /0 empty 0.4 v0
evictB /0 1.2
addB /1 empty 0.2 v0
evictB /1 1.4
next
";

#[test]
fn the_vault_holds_that_a_key_is_absent(rt: HostRuntime) {
    let bundle = bundle_in(&rt, rt.alloc(), MISSED, 267);
    let line = line_of(&rt, rt.alloc(), "2 --absent --logs x");
    let (objects, status) = served(&rt, rt.alloc(), &line, "0 get 7\n", 10);
    let report = b"epoch 0 certified 1\n0.3 v0 get 7 none\ndone 1\n";
    objects.assert_hold(&rt, 0, report, &bundle, Some("x"));
    assert_ended(&rt, "missed", 0, &status, &Status::Done { epochs: 1 });
}

#[test]
fn workers_that_contend_are_checked(rt: HostRuntime) {
    let line = host_line(&rt, rt.alloc(), "4 --shards 2 --hot 3 --absent");
    let script = contending(&rt, rt.alloc(), 4, &[5, 9223372036854775808, 5, 6], 8, 2);
    for turn in 0..10 {
        assert_all_answered(&rt, rt.alloc(), &line, &script, 64, turn);
    }
}
