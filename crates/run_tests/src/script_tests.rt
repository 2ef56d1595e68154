//! Scripts that are served, scripts that are bad, and clocks that end.
use crate::serving::{
    assert_all_served, assert_ended, assert_written, bundle_in, cases_in, line_of, same, served,
};
use bundle_rows::Case;
use fastver_top::Status;
use std::alloc::Global;
use std::process::Abort;
use std::sync::Wait;
use std::thread::Threads;

// Each case is a script behind the number of shards and further words, with its status and report.
const SERVED: &str = "\
== 1 --shards 2
0 put 5 6162
0 get 5
-> 0
epoch 0 certified 2
0.3 v0 put 5 6162
0.5 v0 get 5 6162
done 1
== 1 --shards 2
-> 0
epoch 0 certified 0
done 1
== 1 --shards 4
0 put 5 61
-> 0
epoch 0 certified 1
0.5 v0 put 5 61
done 1
== 1 --shards 2
0 put 5 .
0 get 5
0 del 5
0 get 5
-> 0
epoch 0 certified 4
0.3 v0 put 5 .
0.5 v0 get 5 .
0.7 v0 put 5 none
0.9 v0 get 5 none
done 1
== 1 --shards 2
0 put 0 61
0 put 1 62
0 put 18446744073709551615 63
0 get 0
-> 0
epoch 0 certified 4
0.3 v0 put 0 61
0.5 v0 put 1 62
0.7 v0 put 18446744073709551615 63
0.9 v0 get 0 61
done 1
== 1 --shards 2 --counter 4
0 put 5 6162
0 get 5
-> 10
epoch 0 certified 1
0.3 v0 put 5 6162
clock end worker 0 at 0.4
== 1 --shards 2 --first 4294967295
0 put 5 6162
0 get 5
-> 10
clock end worker 0 at 4294967295.6
== 1 --shards 2 --counter 3
-> 10
clock end worker 0 at 1.2
== 1 --shards 2 --counter 1
-> 10
clock end worker 0 at 0.0
";

#[test]
fn scripts_are_served(rt: HostRuntime) {
    assert_all_served(&rt, rt.alloc(), SERVED, 9);
}

// What the vault holds of an empty script.
const EMPTY: &str = "\
cache 128
frames 96
addM /0 empty root
evictBM /0 root 0.1
addM /1 empty root
evictBM /1 root 0.2
next
addB /0 empty 0.1 v0
evictB /0 1.2
addB /1 empty 0.2 v0
evictB /1 1.4
next
";

#[test]
fn the_vault_holds_the_bundle_of_an_empty_script(rt: HostRuntime) {
    let bundle = bundle_in(&rt, rt.alloc(), EMPTY, 208);
    let line = line_of(&rt, rt.alloc(), "2 --logs x");
    let (objects, status) = served(&rt, rt.alloc(), &line, "", 10);
    let report = b"epoch 0 certified 0\ndone 1\n";
    objects.assert_hold(&rt, 0, report, &bundle, Some("x"));
    assert_ended(&rt, "empty", 0, &status, &Status::Done { epochs: 1 });
}

#[test]
fn where_counters_do_not_suffice_for_the_setup_the_vault_holds_a_header(rt: HostRuntime) {
    let header = bundle_in(&rt, rt.alloc(), "cache 128 end 1\n", 18);
    let line = line_of(&rt, rt.alloc(), "2 --counter 1 --logs x");
    for script in ["", "0 get 5\n"] {
        let (objects, status) = served(&rt, rt.alloc(), &line, script, 10);
        let report = b"clock end worker 0 at 0.0\n";
        objects.assert_hold(&rt, 0, report, &header, Some("x"));
        same(&rt, "counters", 0, &status.number(), &10);
    }
}

// Bad scripts, each with what the program then says.
const BAD: &str = "\
== third line
0 put 5 61
0 get 5
0 put 05 61
-> 6
bad script line 3 Key
== another worker
1 get 5
-> 6
bad script line 1 Worker
== an odd digit
0 put 5 6
-> 6
bad script line 1 Hex
== an empty line
0 get 5

0 get 5
-> 6
bad script line 2 Shape
== a blank too much
0 get  5
-> 6
bad script line 1 Shape
== a key past 64 bits
0 get 18446744073709551616
-> 6
bad script line 1 Key
== the first of two
epoch
0 get x
nothing
-> 6
bad script line 2 Key
";

// A status has this line.
fn assert_line(rt: &impl Abort, label: &str, status: &Status, line: &str) {
    same(rt, label, 0, &status.line().as_slice(), &line.as_bytes());
}

// Bad scripts for bundles of version 3, each behind the number of shards and further words.
const BAD_OF_VERSION_3: &str = "\
== 2 --format 3 --bits 64 --logs x
0 put 340282366920938463463374607431768211455 6162
0 get 5
-> 6
bad script line 1 Key
== 2 --format 3 --logs x
0 get 5
0 get 18446744073709551616
-> 6
bad script line 2 Key
== 2 --format 3 --bits 128 --logs x
0 put 340282366920938463463374607431768211456 6162
-> 6
bad script line 1 Key
";

// A bad script is told by its line, and nothing is written.
fn assert_bad<R: Threads + Wait + Sync + Abort>(
    rt: &R,
    alloc: Global,
    words: &str,
    case: &Case<'_>,
) {
    let line = line_of(rt, alloc, words);
    let (objects, status) = served(rt, alloc, &line, case.rows, 10);
    assert_written(rt, case.label, 0, &objects, &status, b"", case.status);
    assert_line(rt, case.label, &status, case.report.trim());
    objects.assert_hold(rt, 0, &[], &[], None);
}

#[test]
fn bad_scripts_are_refused_before_anything_is_written(rt: HostRuntime) {
    for case in &cases_in(&rt, rt.alloc(), BAD, 7) {
        assert_bad(&rt, rt.alloc(), "2 --logs x", case);
    }
    for case in &cases_in(&rt, rt.alloc(), BAD_OF_VERSION_3, 3) {
        assert_bad(&rt, rt.alloc(), case.label, case);
    }
}

// A put of a value of so many bytes.
fn long_put(rt: &impl Abort, alloc: Global, bytes: usize) -> String {
    let mut script = String::from_str(alloc, "0 put 5 ").expect(rt, "memory");
    for _ in 0..bytes {
        script.push_str("7a").expect(rt, "memory");
    }
    script.push_str("\n").expect(rt, "memory");
    script
}

// A run with these words takes a value of so many bytes, and none that is longer.
fn assert_longest<R: Threads + Wait + Sync + Abort>(rt: &R, alloc: Global, words: &str, bytes: u8) {
    let line = line_of(rt, alloc, words);
    let bytes = usize::from(bytes);
    let longest = long_put(rt, alloc, bytes);
    let (objects, status) = served(rt, alloc, &line, &longest, 10);
    assert_ended(rt, words, bytes, &status, &Status::Done { epochs: 1 });
    let length = objects.out.bytes().len();
    same(rt, words, bytes, &length, &(20 + 13 + 2 * bytes + 1 + 7));
    let longer = long_put(rt, alloc, bytes + 1);
    let (objects, status) = served(rt, alloc, &line, &longer, 10);
    assert_line(rt, words, &status, "bad script line 1 Hex");
    objects.assert_wrote(rt, words, bytes + 1, b"");
}

#[test]
fn a_value_is_as_long_as_the_version_allows(rt: HostRuntime) {
    assert_longest(&rt, rt.alloc(), "2", 64);
    assert_longest(&rt, rt.alloc(), "2 --format 2", 64);
    assert_longest(&rt, rt.alloc(), "2 --format 3", 255);
    assert_longest(&rt, rt.alloc(), "2 --format 3 --bits 128", 255);
}
