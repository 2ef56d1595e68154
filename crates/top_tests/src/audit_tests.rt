//! Audits of bundles that were written out by hand, under digests that collide at will. What each must show was
//! worked out by hand, and the slow program finds the same.
use crate::running::{
    Ended, Way, assert_ends, assert_stops, by, bytes_in, bytes_of, cases_in, failing, objects,
};
use bundle_rows::Case;
use fastver_top::{Status, audit_text};
use record_hash::ToyDigests;
use std::alloc::Global;
use std::process::Abort;

// What an audit of no more than so many of these bytes leaves, and of no more than 2^20.
fn audited(rt: &impl Abort, alloc: Global, limit: u64, bytes: &[u8], way: Way<'_>) -> Ended {
    let (mut source, mut out) = objects(rt, alloc, bytes, way);
    let limit = limit.min(1 << 20);
    let status = audit_text(alloc, &ToyDigests, limit, &mut source, &mut out);
    Ended {
        source,
        out,
        status,
    }
}

// The bytes have this audit and status, where reads and writes go by so many.
fn assert_audit(rt: &impl Abort, alloc: Global, case: &Case<'_>, bytes: &[u8], piece: usize) {
    let ended = audited(rt, alloc, 1 << 20, bytes, by(piece));
    let report = case.report.as_bytes();
    assert_ends(rt, case.label, piece, &ended, report, case.status);
}

// Each case of a table, of which there are so many, has its audit and status, whether it is read and written by bytes or as a
// whole.
fn assert_audits(rt: &impl Abort, alloc: Global, table: &str, count: usize) {
    for case in &cases_in(rt, alloc, table, count) {
        let bytes = bytes_of(rt, alloc, case);
        assert_audit(rt, alloc, case, &bytes, 1);
        assert_audit(rt, alloc, case, &bytes, 100_000);
    }
}

// Audits of which most show two multisets with one sum.
const MULTISETS: &str = "\
== another element with the same lanes comes back
addM 5 none root
put 5 6162
evictBM 5 root 0.1
addB 5 6261 0.1 v0
get 5 6261
next
next
-> 13
multisets 0
added 4000000000000000050102626100000000000000010000
evicted 4000000000000000050102616200000000000000010000
done 1
== epochs 3 and 4 are both uneven and certified: the first one is shown
cache 8 first 3
addM 5 none root
put 5 6162
evictBM 5 root 3.1
addB 5 6261 3.1 v0
next
evictB 5 4.1
addB 5 6162 4.1 v0
next
next
-> 13
multisets 3
added 4000000000000000050102626100000003000000010000
evicted 4000000000000000050102616200000003000000010000
done 2
== epoch 0 is even, epoch 1 is not: an element of it comes back in epoch 2 with another value
cache 8
addM 5 none root
put 5 6162
evictBM 5 root 0.1
next
addB 5 6162 0.1 v0
evictB 5 1.7
next
addB 5 6261 1.7 v0
next
-> 13
multisets 1
added 4000000000000000050102626100000001000000070000
evicted 4000000000000000050102616200000001000000070000
done 2
== the element of epoch 0 comes back in epoch 1, which is not certified, and still counts
cache 8
addM 5 none root
put 5 6162
evictBM 5 root 0.1
next
addB 5 6162 0.1 v0
next
-> 0
clean 1
done 1
== the same with another value: what came behind the certified epoch makes it uneven
cache 8
addM 5 none root
put 5 6162
evictBM 5 root 0.1
next
addB 5 6261 0.1 v0
next
-> 13
multisets 0
added 4000000000000000050102626100000000000000010000
evicted 4000000000000000050102616200000000000000010000
done 1
== an element comes back twice and another not at all, which has the same lanes
cache 8
addM 5 none root
put 5 02
evictBM 5 root 0.1
addB 5 02 0.1 v0
put 5 00
evictB 5 0.3
addB 5 02 0.1 v0
next
next
-> 13
multisets 0
added 40000000000000000501010200000000000000010000
added 40000000000000000501010200000000000000010000
evicted 40000000000000000501010200000000000000010000
evicted 40000000000000000501010000000000000000030000
done 1
== verifier 0 sends two records, verifier 1 takes the later one first
verifiers 2 cache 8
addM 5 none root
put 5 6162
addM 9223372036854775808 none root
put 9223372036854775808 6261
evictBM 5 root 0.1
evictBM 9223372036854775808 root 0.2
next
next
log 1
addB 9223372036854775808 6261 0.2 v0
addB 5 6162 0.1 v0
get 5 6162
get 9223372036854775808 6261
next
next
-> 0
clean 1
done 1
== verifiers 0 and 1 each send a record, which comes back with another value: the lines are in order of the clocks
verifiers 2 cache 8
addM 5 none root
put 5 6162
addM 9223372036854775808 none root
evictBM 9223372036854775808 root 0.1
evictBM 5 root 0.5
addB 5 6261 0.5 v0
next
next
log 1
addB 9223372036854775808 none 0.1 v0
put 9223372036854775808 6364
evictB 9223372036854775808 0.3
addB 9223372036854775808 6463 0.3 v1
next
next
-> 13
multisets 0
added 4080000000000000000000000000000000010000
added 4080000000000000000102646300000000000000030001
added 4000000000000000050102626100000000000000050000
evicted 4080000000000000000000000000000000010000
evicted 4080000000000000000102636400000000000000030001
evicted 4000000000000000050102616200000000000000050000
done 1
== verifier 0 sent a record with counter 2; it comes back as sent by verifier 1 with counter 1
verifiers 2 cache 8
addM 5 none root
put 5 6162
evictBM 5 root 0.2
next
next
log 1
addB 5 6162 0.1 v1
get 5 6162
next
next
-> 13
multisets 0
added 4000000000000000050102616200000000000000010001
evicted 4000000000000000050102616200000000000000020000
done 1
== a clash in epoch 0 and an uneven epoch 1: the epoch goes first
cache 8
addM 5 none root
put 5 6162
evictM 5 root
addM 5 6261 root
next
evictBM 5 root 1.1
addB 5 6162 1.1 v0
next
next
-> 13
multisets 1
added 4000000000000000050102616200000001000000010000
evicted 4000000000000000050102626100000001000000010000
done 2
";

#[test]
fn multisets_are_exhibited(rt: HostRuntime) {
    assert_audits(&rt, rt.alloc(), MULTISETS, 10);
}

// Audits of which most show two strings with one digest.
const STRINGS: &str = "\
== what was put comes back by its digest
addM 5 none root
put 5 6162
evictM 5 root
addM 5 6162 root
get 5 6162
next
next
-> 0
clean 1
done 1
== another value with the same digest comes back
addM 5 none root
put 5 6162
evictM 5 root
addM 5 6261 root
get 5 6261
next
next
-> 13
strings 01026162 01026261
done 1
== a node comes back with the digests of its two sides traded. Then a key comes back otherwise too, behind it
cache 8
addM /0 empty root
addM 1 none /0
put 1 6162
evictM 1 /0
addM 4611686018427387904 none /0
evictM 4611686018427387904 /0
evictM /0 root
addM /0 1:,4611686018427387904:c6 root
addM 4611686018427387904 6162 /0
get 4611686018427387904 6162
next
next
-> 13
strings 0140000000000000000100000000000000000000000000000000000000000000000000000000000000c6014040000000000000000000000000000000000000000000000000000000000000000000000000000000 0140000000000000000100000000000000000000000000000000000000000000000000000000000000000140400000000000000000000000000000000000000000000000000000000000000000000000000000c6
done 1
== ab leaves and comes back, ba leaves and ab comes back: that is not what left last
cache 8
addM 5 none root
put 5 6162
evictM 5 root
addM 5 6162 root
put 5 6261
evictM 5 root
addM 5 6162 root
next
next
-> 13
strings 01026261 01026162
done 1
== ab leaves, then ba goes and comes by a stamp and leaves, and comes back: the last that left counts
cache 8
addM 5 none root
put 5 6162
evictM 5 root
addM 5 6162 root
put 5 6261
evictBM 5 root 0.1
addB 5 6261 0.1 v0
evictM 5 root
addM 5 6261 root
get 5 6261
next
next
-> 0
clean 1
done 1
== ab leaves in epoch 0, ba comes in epoch 1, and both are certified
cache 8
addM 5 none root
put 5 6162
evictM 5 root
next
addM 5 6261 root
next
next
-> 13
strings 01026162 01026261
done 2
== the same, but epoch 1 is not certified
cache 8
addM 5 none root
put 5 6162
evictM 5 root
next
addM 5 6261 root
next
-> 0
clean 1
done 1
== verifier 1 has a clash at clock 0.2, verifier 0 one at 0.10: the former is shown, though its log comes second
verifiers 2 cache 8
addM /0 empty root
addM 5 none /0
put 5 6162
evictM 5 /0
addM /1 empty root
evictBM /1 root 0.1
addM 4611686018427387904 none /0
evictBM 4611686018427387904 /0 0.9
addB 4611686018427387904 none 0.9 v0
addM 5 6261 /0
next
next
log 1
addB /1 empty 0.1 v0
addM 9223372036854775813 none /1
put 9223372036854775813 6364
evictM 9223372036854775813 /1
addM 9223372036854775813 6463 /1
next
next
-> 13
strings 01026364 01026463
done 1
== both have a clash at clock 0.2, verifier 0 with a later command of its log: the lower verifier's is shown
verifiers 2 cache 8
log 1
addB /1 empty 0.1 v0
addM 9223372036854775813 none /1
put 9223372036854775813 6364
evictM 9223372036854775813 /1
addM 9223372036854775813 6463 /1
next
next
log 0
addM /0 empty root
addM 5 none /0
put 5 6162
evictM 5 /0
addM /1 empty root
evictBM /1 root 0.1
addM 4611686018427387904 none /0
evictBM 4611686018427387904 /0 0.2
addM 5 6261 /0
next
addB 4611686018427387904 none 0.2 v0
next
-> 13
strings 01026162 01026261
done 1
== verifier 0 took ab out of a key, verifier 1 brings ba in, under a node that was sent on
verifiers 2 cache 8
addM /1 empty root
addM 9223372036854775813 none /1
put 9223372036854775813 6162
evictM 9223372036854775813 /1
evictBM /1 root 0.1
next
next
log 1
addB /1 9223372036854775813:c6,- 0.1 v0
addM 9223372036854775813 6261 /1
get 9223372036854775813 6261
next
next
-> 13
strings 01026162 01026261
done 1
";

#[test]
fn strings_are_exhibited(rt: HostRuntime) {
    assert_audits(&rt, rt.alloc(), STRINGS, 10);
}

// Audits whose last line is the last of the report of a check.
const LAST_LINES: &str = "\
== a key comes in by its digest that never left, under a node that came back otherwise: only the epoch is shown
cache 8
addM /0 empty root
addM 5 none /0
put 5 6162
evictM 5 /0
evictBM /0 root 0.1
addB /0 1280:c6,- 0.1 v0
addM 1280 6261 /0
next
next
-> 13
multisets 0
added 0100000000000000000140000000000000050000000000000000000000000000000000000000000000000000000000000000c60000000000000000010000
evicted 0100000000000000000140000000000000000500000000000000000000000000000000000000000000000000000000000000c60000000000000000010000
done 1
== the same in epoch 1, which is not certified
cache 8
addM /0 empty root
addM 5 none /0
put 5 6162
evictM 5 /0
evictBM /0 root 0.1
addB /0 5:c6,- 0.1 v0
evictB /0 0.4
next
addB /0 5:c6,- 0.4 v0
evictB /0 1.3
addB /0 1280:c6,- 1.3 v0
addM 1280 6261 /0
next
-> 0
clean 1
done 1
== epoch 0 is even; in epoch 1 a value comes back that has other lanes
cache 8
addM 5 none root
put 5 6162
evictBM 5 root 0.1
next
addB 5 6162 0.1 v0
evictB 5 1.2
next
addB 5 6163 1.2 v0
next
-> 9
clean 1
epoch 1 unbalanced added 1 evicted 1
== epoch 0 is uneven, and in epoch 1 a value comes back that has other lanes
cache 8
addM 5 none root
put 5 6162
evictBM 5 root 0.1
next
addB 5 6261 0.1 v0
evictB 5 1.2
next
addB 5 6163 1.2 v0
next
-> 13
multisets 0
added 4000000000000000050102626100000000000000010000
evicted 4000000000000000050102616200000000000000010000
epoch 1 unbalanced added 1 evicted 1
== a clash in epoch 0, which is unbalanced: an element of it never comes back
cache 8
addM 5 none root
put 5 6162
evictM 5 root
addM 5 6261 root
evictBM 5 root 0.1
next
next
-> 9
clean 0
epoch 0 unbalanced added 0 evicted 1
== a clash, and then a command that is refused
cache 8
addM 5 none root
put 5 6162
evictM 5 root
addM 5 6261 root
next
next
addM 5 6261 root
-> 13
strings 01026162 01026261
refused v0 command 6 AlreadyCached
== a clash, and then a frame of no bytes
addM 5 none root
put 5 6162
evictM 5 root
addM 5 6261 root
get 5 6261
next
next
raw 000000000000
-> 13
strings 01026162 01026261
bad bundle at byte 116
== no verifier
verifiers 0
addM 5 none root
put 5 6162
evictM 5 root
addM 5 6261 root
get 5 6261
next
next
-> 7
clean 0
bad bundle at byte 0
";

#[test]
fn the_last_line_is_the_checks(rt: HostRuntime) {
    assert_audits(&rt, rt.alloc(), LAST_LINES, 8);
}

// Another element with the same lanes comes back: 125 bytes.
const UNEVEN: &str = "\
addM 5 none root
put 5 6162
evictBM 5 root 0.1
addB 5 6261 0.1 v0
get 5 6261
next
next
";

// What an audit of it shows.
const SHOWN: &str = "\
multisets 0
added 4000000000000000050102626100000000000000010000
evicted 4000000000000000050102616200000000000000010000
done 1
";

// Where the read of this number fails, nothing is written.
fn assert_read_fails(rt: &impl Abort, alloc: Global, bytes: &[u8], k: usize) {
    let ended = audited(rt, alloc, 1 << 20, bytes, failing(1, &[k as u64], &[]));
    assert_ends(rt, "read", k, &ended, b"", 3);
}

// Where the write of the byte behind this front fails, the front stands.
fn assert_write_fails(rt: &impl Abort, alloc: Global, bytes: &[u8], front: &[u8]) {
    let k = front.len();
    let ended = audited(rt, alloc, 1 << 20, bytes, failing(1, &[], &[k as u64]));
    assert_ends(rt, "write", k, &ended, front, 4);
}

#[test]
fn objects_that_fail_leave_a_front_of_an_audit(rt: HostRuntime) {
    let bytes = bytes_in(&rt, rt.alloc(), "rows", UNEVEN);
    for k in 0..bytes.len() + 1 {
        assert_read_fails(&rt, rt.alloc(), &bytes, k);
    }
    for k in 0..SHOWN.len() {
        assert_write_fails(&rt, rt.alloc(), &bytes, &SHOWN.as_bytes()[..k]);
    }
}

#[test]
fn no_more_of_an_audit_is_read_than_the_limit(rt: HostRuntime) {
    let bytes = bytes_in(&rt, rt.alloc(), "rows", UNEVEN);
    let ended = audited(&rt, rt.alloc(), 50, &bytes, by(10));
    let status = Status::InputLimit { taken: 50 };
    assert_stops(&rt, "limit", 50, &ended, b"", status);
}
