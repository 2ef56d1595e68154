//! Runs that write bundles of versions 2 and 3, whose commands name slots; in version 3 keys may have 128 bits.
use crate::serving::{
    SCRIPT, assert_all_answered, assert_all_served, assert_ended, bundle_in, contending, holds,
    host_line, line_of, same, served,
};
use fastver_top::Status;
use std::alloc::Global;
use std::process::Abort;
use std::sync::Wait;
use std::thread::Threads;

// Each case is a script that other files have too, there in version 1: the reports are the same. One worker with a put and a get, a
// clock that ends, keys that become hot of which one goes back, and two workers, twice.
const BY_SLOT: &str = "\
== 1 --shards 2 --format 2
0 put 5 6162
0 get 5
-> 0
epoch 0 certified 2
0.3 v0 put 5 6162
0.5 v0 get 5 6162
done 1
== 1 --shards 2 --counter 4 --format 2
0 put 5 6162
0 get 5
-> 10
epoch 0 certified 1
0.3 v0 put 5 6162
clock end worker 0 at 0.4
== 1 --shards 2 --hot 2 --format 2
0 put 8 08
0 get 8
epoch
0 put 9 09
epoch
0 get 8
0 get 9
-> 0
epoch 0 certified 2
0.3 v0 put 8 08
0.5 v0 get 8 08
epoch 1 certified 1
1.6 v0 put 9 09
epoch 2 certified 2
2.6 v0 get 8 08
2.8 v0 get 9 09
done 3
== 2 --shards 2 --format=2
0 put 5 61
1 put 9223372036854775808 62
1 get 9223372036854775808
-> 0
epoch 0 certified 3
0.3 v0 put 5 61
0.3 v1 put 9223372036854775808 62
0.5 v1 get 9223372036854775808 62
done 1
== 2 --shards 2 --format 2
1 put 9223372036854775808 01
0 get 7
-> 0
epoch 0 certified 2
0.3 v0 get 7 none
0.3 v1 put 9223372036854775808 01
done 1
";

#[test]
fn reports_are_the_same_by_slot(rt: HostRuntime) {
    assert_all_served(&rt, rt.alloc(), BY_SLOT, 5);
}

// Each case is of version 3. With keys of 64 bits reports are those of version 1; with keys of 128 a shard is that of a key's
// first bits.
const OF_VERSION_3: &str = "\
== 1 --shards 2 --format 3
0 put 18446744073709551615 6162
0 get 5
-> 0
epoch 0 certified 2
0.3 v0 put 18446744073709551615 6162
0.5 v0 get 5 none
done 1
== 1 --shards 2 --format 3 --bits 128
0 put 340282366920938463463374607431768211455 6162
0 get 5
-> 0
epoch 0 certified 2
0.3 v0 put 340282366920938463463374607431768211455 6162
0.5 v0 get 5 none
done 1
== 1 --shards 2 --hot 2 --format 3 --bits 128
0 put 18446744073709551616 08
0 get 18446744073709551616
epoch
0 put 0 09
epoch
0 get 18446744073709551616
0 get 0
-> 0
epoch 0 certified 2
0.3 v0 put 18446744073709551616 08
0.5 v0 get 18446744073709551616 08
epoch 1 certified 1
1.6 v0 put 0 09
epoch 2 certified 2
2.6 v0 get 18446744073709551616 08
2.8 v0 get 0 09
done 3
== 2 --shards 2 --format 3 --bits=128
0 put 5 61
1 put 170141183460469231731687303715884105728 62
1 get 170141183460469231731687303715884105728
-> 0
epoch 0 certified 3
0.3 v0 put 5 61
0.3 v1 put 170141183460469231731687303715884105728 62
0.5 v1 get 170141183460469231731687303715884105728 62
done 1
== 1 --shards 2 --format 3 --bits 128 --counter 6
0 put 9223372036854775808 62
0 put 5 61
0 get 9223372036854775808
-> 10
epoch 0 certified 2
0.3 v0 put 9223372036854775808 62
0.5 v0 put 5 61
clock end worker 0 at 0.6
";

#[test]
fn scripts_of_version_3_are_served(rt: HostRuntime) {
    assert_all_served(&rt, rt.alloc(), OF_VERSION_3, 5);
}

// The vault of a run with these words begins so.
fn assert_begins<R: Threads + Wait + Sync + Abort>(
    rt: &R,
    alloc: Global,
    words: &str,
    magic: &str,
) {
    let line = line_of(rt, alloc, words);
    let (objects, _) = served(rt, alloc, &line, SCRIPT, 10);
    let front = objects.vault.bytes().starts_with(magic.as_bytes());
    holds(rt, words, 0, front);
}

#[test]
fn the_vault_begins_with_the_version(rt: HostRuntime) {
    assert_begins(&rt, rt.alloc(), "2", "FVB1");
    assert_begins(&rt, rt.alloc(), "2 --format 1", "FVB1");
    assert_begins(&rt, rt.alloc(), "2 --format 2", "FVB2");
    assert_begins(&rt, rt.alloc(), "2 --format 3", "FVB3");
    assert_begins(&rt, rt.alloc(), "2 --format 3 --bits 128", "FVB3");
}

// What the vault holds of an empty script, the close in a frame of its own: what leaves leaves slot 1 empty, and the next takes it.
const EMPTY: &str = "\
version 2
cache 128
addM s1 /0 empty s0
evictBM s1 s0 0.1
addM s1 /1 empty s0
evictBM s1 s0 0.2
log 0
next
addB s1 /0 empty 0.1 v0
evictB s1 1.2
addB s1 /1 empty 0.2 v0
evictB s1 1.4
next
";

#[test]
fn the_vault_holds_an_empty_script_by_slot(rt: HostRuntime) {
    let bundle = bundle_in(&rt, rt.alloc(), EMPTY, 160);
    let line = line_of(&rt, rt.alloc(), "2 --format 2 --logs x");
    let (objects, status) = served(&rt, rt.alloc(), &line, "", 10);
    let report = b"epoch 0 certified 0\ndone 1\n";
    objects.assert_hold(&rt, 0, report, &bundle, Some("x"));
    assert_ended(&rt, "empty", 0, &status, &Status::Done { epochs: 1 });
}

// The same with keys of 128 bits, as bytes: a header of 19 bytes, and 17 for each path.
const EMPTY_OF_LONG_KEYS: &str = "\
46564233 0001 00000100 00000000 00ffffff 80
0000 0000004a
01 0001 01 00000000000000000000000000000000 0000 0000
05 0001 0000 00000000 00000001
01 0001 01 80000000000000000000000000000000 0000 0000
05 0001 0000 00000000 00000002
0000 00000058 08
03 0001 01 00000000000000000000000000000000 0000 00000000 00000001 0000
04 0001 00000001 00000002
03 0001 01 80000000000000000000000000000000 0000 00000000 00000002 0000
04 0001 00000001 00000004
08
";

// The bytes that these digits spell, between which blanks may stand.
fn bytes_of(rt: &impl Abort, alloc: Global, digits: &str) -> Vec<u8> {
    let mut bytes = Vec::new(alloc);
    for part in digits.split_whitespace() {
        bytes
            .extend_from_slice(&hex::decode(alloc, part).expect(rt, "memory"))
            .expect(rt, "memory");
    }
    bytes
}

#[test]
fn the_vault_holds_an_empty_script_of_long_keys(rt: HostRuntime) {
    let bundle = bytes_of(&rt, rt.alloc(), EMPTY_OF_LONG_KEYS);
    same(&rt, "bytes", 0, &bundle.len(), &193);
    let line = line_of(&rt, rt.alloc(), "2 --format 3 --bits 128 --logs x");
    let (objects, status) = served(&rt, rt.alloc(), &line, "", 10);
    let report = b"epoch 0 certified 0\ndone 1\n";
    objects.assert_hold(&rt, 0, report, &bundle, Some("x"));
    assert_ended(&rt, "empty", 0, &status, &Status::Done { epochs: 1 });
}

#[test]
fn workers_that_contend_are_checked_by_slot(rt: HostRuntime) {
    let line = host_line(&rt, rt.alloc(), "4 --shards 2 --hot 3 --format 2");
    let script = contending(&rt, rt.alloc(), 4, &[5, 9223372036854775808, 5, 6], 8, 2);
    for turn in 0..10 {
        assert_all_answered(&rt, rt.alloc(), &line, &script, 64, turn);
    }
}
