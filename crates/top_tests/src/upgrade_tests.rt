//! Upgrades: bundles of each version, and what is written of each in version 3, as the slow program has it.
use crate::fault_tests::assert_fronts;
use crate::running::{
    Ended, Way, assert_ends, assert_left, assert_stops, by, bytes_in, bytes_of, cases_in, failing,
    objects, run, same,
};
use bundle_rows::{Case, log_of};
use bundle_upgrade::upgrade;
use fastver_top::Status;
use record_hash::ShaDigests;
use std::alloc::Global;
use std::process::Abort;
use std::sync::Wait;
use std::thread::Threads;

// Each case is a bundle, and the one that is written of it.
const UPGRADED: &str = "\
== a put and a get
addM 5 none root
put 5 6162
evictM 5 root
addM 5 6162 root
get 5 6162
next
next
-> 0
version 3
addM s1 5 none s0
put s1 6162
evictM s1 s0
addM s1 5 6162 s0
get s1 6162
next
next
== each add goes into the lowest empty slot
cache 5 first 7 end 900
addM /0 empty root
addM 5 none /0
put 5 61
addM 18446744073709551615 none root
evictM 5 /0
addM /11 empty root
evictM 18446744073709551615 /11
evictM /11 root
addM 5 61 /0
addM /1 empty root
absent 7 /0
next
get 5 61
next
-> 0
version 3 cache 5 first 7 end 900
addM s1 /0 empty s0
addM s2 5 none s1
put s2 61
addM s3 18446744073709551615 none s0
evictM s2 s1
addM s2 /11 empty s0
evictM s3 s2
evictM s2 s0
addM s2 5 61 s1
addM s3 /1 empty s0
bytes 094000000000000000070001
next
get s2 61
next
== what comes and goes under stamps
addM 5 none root
put 5 6162
evictBM 5 root 0.1
addM 18446744073709551615 none root
addB 5 6162 0.1 v0
get 5 6162
evictM 18446744073709551615 root
evictB 5 0.3
next
addB 5 6162 0.3 v0
put 5 .
next
-> 0
version 3
addM s1 5 none s0
put s1 6162
evictBM s1 s0 0.1
addM s1 18446744073709551615 none s0
addB s2 5 6162 0.1 v0
get s2 6162
evictM s1 s0
evictB s2 0.3
next
addB s1 5 6162 0.3 v0
put s1 .
next
== a record goes from one verifier to another
verifiers 2
addM 5 none root
put 5 6162
evictBM 5 root 0.1
next
addB 5 63 0.3 v1
get 5 63
next
log 1
addB 5 6162 0.1 v0
get 5 6162
put 5 63
evictB 5 0.3
next
next
-> 0
version 3 verifiers 2
addM s1 5 none s0
put s1 6162
evictBM s1 s0 0.1
next
addB s1 5 63 0.3 v1
get s1 63
next
log 1
addB s0 5 6162 0.1 v0
get s0 6162
put s0 63
evictB s0 0.3
next
next
== the same by slots that aren't the lowest
version 2 verifiers 2
addM s1 5 none s0
put s1 6162
evictBM s1 s0 0.1
next
addB s3 5 63 0.5 v1
get s3 63
next
log 1
addB s0 5 6162 0.1 v0
get s0 6162
evictB s0 0.3
addB s2 5 6162 0.3 v1
put s2 63
evictB s2 0.5
next
next
-> 0
version 3 verifiers 2
addM s1 5 none s0
put s1 6162
evictBM s1 s0 0.1
next
addB s3 5 63 0.5 v1
get s3 63
next
log 1
addB s0 5 6162 0.1 v0
get s0 6162
evictB s0 0.3
addB s2 5 6162 0.3 v1
put s2 63
evictB s2 0.5
next
next
== the last slot of the greatest cache, and then another
version 2 cache 65536
addM s65535 5 none s0
put s65535 6162
evictM s65535 s0
addM s4096 5 6162 s0
get s4096 6162
next
next
-> 0
version 3 cache 65536
addM s65535 5 none s0
put s65535 6162
evictM s65535 s0
addM s4096 5 6162 s0
get s4096 6162
next
next
== version 3, with a long value
version 3 cache 5
addM s4 5 none s0
put s4 6f6f6f6f6f6f6f6f6f6f6f6f6f6f6f6f6f6f6f6f6f6f6f6f6f6f6f6f6f6f6f6f6f6f6f6f6f6f6f6f6f6f6f6f6f6f6f6f6f6f6f6f6f6f6f6f6f6f6f6f6f6f6f6f6f
get s4 6f6f6f6f6f6f6f6f6f6f6f6f6f6f6f6f6f6f6f6f6f6f6f6f6f6f6f6f6f6f6f6f6f6f6f6f6f6f6f6f6f6f6f6f6f6f6f6f6f6f6f6f6f6f6f6f6f6f6f6f6f6f6f6f6f
bytes 0940ffffffffffffffff0000
next
next
-> 0
version 3 cache 5
addM s4 5 none s0
put s4 6f6f6f6f6f6f6f6f6f6f6f6f6f6f6f6f6f6f6f6f6f6f6f6f6f6f6f6f6f6f6f6f6f6f6f6f6f6f6f6f6f6f6f6f6f6f6f6f6f6f6f6f6f6f6f6f6f6f6f6f6f6f6f6f6f
get s4 6f6f6f6f6f6f6f6f6f6f6f6f6f6f6f6f6f6f6f6f6f6f6f6f6f6f6f6f6f6f6f6f6f6f6f6f6f6f6f6f6f6f6f6f6f6f6f6f6f6f6f6f6f6f6f6f6f6f6f6f6f6f6f6f6f
bytes 0940ffffffffffffffff0000
next
next
== keys of 128 bits
version 3 cache 8 bits 128
addM s7 w5 none s0
put s7 6162
evictBM s7 s0 0.1
addB s2 w5 6162 0.1 v0
get s2 6162
next
next
-> 0
version 3 cache 8 bits 128
addM s7 w5 none s0
put s7 6162
evictBM s7 s0 0.1
addB s2 w5 6162 0.1 v0
get s2 6162
next
next
== frames of one byte
frames 1
addM 5 none root
put 5 6162
next
next
-> 0
version 3
addM s1 5 none s0
put s1 6162
next
next
== frames of two logs by turns
verifiers 2
log 1
next
log 0
addM 5 none root
log 1
next
log 0
put 5 6162
next
next
-> 0
version 3 verifiers 2
addM s1 5 none s0
put s1 6162
next
next
log 1
next
next
== a command that is cut by the frame of another verifier
version 2 verifiers 2
bytes 010002400000
log 1
next
next
log 0
bytes 000000000005000000
get s2 none
next
next
-> 0
version 3 verifiers 2
addM s2 5 none s0
get s2 none
next
next
log 1
next
next
== an epoch that isn't sealed
addM 5 none root
put 5 6162
-> 0
version 3
addM s1 5 none s0
put s1 6162
== no logs
verifiers 3
-> 0
version 3 verifiers 3
== the log of one of three verifiers
verifiers 3 first 9 end 1
log 1
next
-> 0
version 3 verifiers 3 first 9 end 1
log 1
next
";

// Reads and writes go by so many bytes, and the sink has room for long logs.
fn roomy(piece: usize) -> Way<'static> {
    Way {
        read: piece,
        write: piece,
        room: 1 << 20,
        fails: (&[], &[]),
    }
}

// An upgrade of these bytes by pieces of so many writes this, and ends as a check of them does.
fn assert_written<R: Threads + Wait + Sync + Abort>(
    rt: &R,
    alloc: Global,
    label: &str,
    bytes: &[u8],
    wanted: &[u8],
    piece: usize,
) {
    let checked = run(rt, alloc, "check", bytes, roomy(1000));
    let ended = run(rt, alloc, "upgrade", bytes, roomy(piece));
    assert_stops(rt, label, piece, &ended, wanted, checked.status);
}

// A check in these words writes the same of both bundles, and ends in the same way.
fn assert_same_report<R: Threads + Wait + Sync + Abort>(
    rt: &R,
    alloc: Global,
    words: &str,
    bytes: &[u8],
    upgraded: &[u8],
) {
    let before = run(rt, alloc, words, bytes, roomy(1000));
    let after = run(rt, alloc, words, upgraded, roomy(1000));
    assert_stops(rt, words, 0, &after, before.out.bytes(), before.status);
}

// An upgrade of these bytes writes this, however they are cut, and it has the same report, with receipts and without.
fn assert_upgrade<R: Threads + Wait + Sync + Abort>(
    rt: &R,
    alloc: Global,
    label: &str,
    bytes: &[u8],
    wanted: &[u8],
) {
    assert_written(rt, alloc, label, bytes, wanted, 1);
    assert_written(rt, alloc, label, bytes, wanted, 100_000);
    assert_same_report(rt, alloc, "check", bytes, wanted);
    assert_same_report(rt, alloc, "check --receipts", bytes, wanted);
}

// Of the bundle that some rows spell the one is written that others spell.
fn assert_rows<R: Threads + Wait + Sync + Abort>(
    rt: &R,
    alloc: Global,
    label: &str,
    rows: &str,
    upgraded: &str,
) {
    let bytes = bytes_in(rt, alloc, label, rows);
    let wanted = bytes_in(rt, alloc, label, upgraded);
    assert_upgrade(rt, alloc, label, &bytes, &wanted);
}

#[test]
fn bundles_are_written_in_version_3(rt: HostRuntime) {
    for case in &cases_in(&rt, rt.alloc(), UPGRADED, 14) {
        assert_rows(&rt, rt.alloc(), case.label, case.rows, case.report);
    }
}

// A put and a get of version 1 in bytes: 116 of them.
const BY_PATH: &str = "\
bytes 465642310001000000040000000000ffffff
bytes 00000000005c
bytes 0140000000000000000500000000000000000000
bytes 0740000000000000000501026162
bytes 02400000000000000005000000000000000000
bytes 0140000000000000000501026162000000000000000000
bytes 0640000000000000000501026162
bytes 0808
";

// What is written of it: 79 bytes.
const BY_SLOT: &str = "\
bytes 465642330001000000040000000000ffffff40
bytes 000000000036
bytes 010001400000000000000005000000
bytes 07000101026162
bytes 0200010000
bytes 010001400000000000000005010261620000
bytes 06000101026162
bytes 0808
";

// The bytes that these rows spell.
fn bytes_in_hex(rt: &impl Abort, alloc: Global, rows: &str) -> Vec<u8> {
    log_of(alloc, rows).expect(rt, "bytes")
}

#[test]
fn a_put_and_a_get_in_bytes(rt: HostRuntime) {
    let bytes = bytes_in_hex(&rt, rt.alloc(), BY_PATH);
    let wanted = bytes_in_hex(&rt, rt.alloc(), BY_SLOT);
    same(&rt, "lengths", 0, &(bytes.len(), wanted.len()), &(116, 79));
    assert_upgrade(&rt, rt.alloc(), "in bytes", &bytes, &wanted);
}

// Rows of the logs of 64 verifiers, with one to three steps to a next epoch each. They come behind a header, in order or in the
// reverse order.
fn rows_of_64(rt: &impl Abort, alloc: Global, header: &str, reverse: bool) -> String {
    let mut rows = String::from_str(alloc, header).expect(rt, "memory");
    for turn in 0u16..64 {
        let number = if reverse { 63 - turn } else { turn };
        let log = format!(in alloc; "log {number}\nnext\n").expect(rt, "memory");
        rows.push_str(&log).expect(rt, "memory");
        for _ in 0..number % 3 {
            rows.push_str("next\n").expect(rt, "memory");
        }
    }
    rows
}

#[test]
fn logs_of_64_verifiers_come_in_order(rt: HostRuntime) {
    let rows = rows_of_64(&rt, rt.alloc(), "verifiers 64\n", true);
    let upgraded = rows_of_64(&rt, rt.alloc(), "version 3 verifiers 64\n", false);
    assert_rows(&rt, rt.alloc(), "64 verifiers", &rows, &upgraded);
}

// A put of 64 bytes, by path and by slot.
const PUT_BY_PATH: &str =
    "put 5 61616161616161616161616161616161616161616161616161616161616161616161616161616161616161616161616161616161616161616161616161616161\n";

const PUT_BY_SLOT: &str =
    "put s1 61616161616161616161616161616161616161616161616161616161616161616161616161616161616161616161616161616161616161616161616161616161\n";

// Rows of a log that has a thousand such puts behind its first rows.
fn long_rows(rt: &impl Abort, alloc: Global, first: &str, put: &str) -> String {
    let mut rows = String::from_str(alloc, first).expect(rt, "memory");
    for _ in 0..1000 {
        rows.push_str(put).expect(rt, "memory");
    }
    rows.push_str("next\nnext\n").expect(rt, "memory");
    rows
}

#[test]
fn a_long_log_is_cut_in_frames(rt: HostRuntime) {
    let rows = long_rows(&rt, rt.alloc(), "addM 5 none root\n", PUT_BY_PATH);
    let first = "version 3\naddM s1 5 none s0\n";
    let upgraded = long_rows(&rt, rt.alloc(), first, PUT_BY_SLOT);
    assert_rows(&rt, rt.alloc(), "a long log", &rows, &upgraded);
    // A header of 19 bytes, a frame of 65,536 and one of 3,481, each behind a head of 6.
    let wanted = bytes_in(&rt, rt.alloc(), "a long log", &upgraded);
    same(&rt, "length", 0, &wanted.len(), &69_048);
}

// Bundles whose reports don't end with `done`, with the reports that they have.
const UNWRITTEN: &str = "\
== a get of another value
addM 5 none root
put 5 6162
evictM 5 root
addM 5 6162 root
get 5 6163
next
next
-> 8
refused v0 command 4 WrongValue
== one element is added by two verifiers
verifiers 2
addM 5 none root
put 5 6162
evictBM 5 root 0.1
addB 5 6162 0.1 v0
get 5 6162
next
next
log 1
addB 5 6162 0.1 v0
put 5 6163
next
next
-> 9
epoch 0 unbalanced added 2 evicted 1
== a bad last frame
addM 5 none root
put 5 6162
evictM 5 root
addM 5 6162 root
get 5 6162
next
next
raw 000000000000
-> 7
epoch 0 certified 2
0.0 v0 put 5 6162
0.0 v0 get 5 6162
bad bundle at byte 116
== a last frame that is cut
version 3
addM s1 5 none s0
next
next
raw 00000000000408
-> 7
epoch 0 certified 0
bad bundle at byte 42
== a refusal behind certified epochs
version 2
addM s1 5 none s0
next
next
put s2 none
-> 8
epoch 0 certified 0
refused v0 command 3 SlotEmpty
== a command that is cut
version 3 bits 128
addM s1 w5 none s0
bytes 07
-> 8
refused v0 command 1 Truncated
== a second log of no verifier's commands
verifiers 2
next
next
log 1
bytes 0a
-> 8
refused v1 command 0 Malformed
== no version
version 0
next
-> 7
bad bundle at byte 0
";

// A check of the case has its report, and an upgrade writes nothing and ends in the same way.
fn assert_unwritten<R: Threads + Wait + Sync + Abort>(rt: &R, alloc: Global, case: &Case<'_>) {
    let bytes = bytes_of(rt, alloc, case);
    let checked = run(rt, alloc, "check", &bytes, by(1000));
    let report = case.report.as_bytes();
    assert_ends(rt, case.label, 0, &checked, report, case.status);
    assert_written(rt, alloc, case.label, &bytes, b"", 1);
    assert_written(rt, alloc, case.label, &bytes, b"", 100_000);
}

#[test]
fn nothing_is_written_of_what_is_not_done(rt: HostRuntime) {
    for case in &cases_in(&rt, rt.alloc(), UNWRITTEN, 8) {
        assert_unwritten(&rt, rt.alloc(), case);
    }
}

#[test]
fn a_front_of_an_upgrade_stands(rt: HostRuntime) {
    let bytes = bytes_in_hex(&rt, rt.alloc(), BY_PATH);
    let wanted = bytes_in_hex(&rt, rt.alloc(), BY_SLOT);
    assert_fronts(&rt, rt.alloc(), "upgrade", &bytes, &wanted, 0);
    // The read behind the last byte fails.
    let way = failing(1, &[116], &[]);
    let ended = run(&rt, rt.alloc(), "upgrade", &bytes, way);
    assert_stops(&rt, "end", 116, &ended, b"", Status::ReadFault);
}

// What an upgrade of no more than so many of these bytes leaves.
fn limited(rt: &impl Abort, alloc: Global, limit: u64, bytes: &[u8], piece: usize) -> Ended {
    let (mut source, mut out) = objects(rt, alloc, bytes, by(piece));
    // The most that an upgrade may be told to read.
    let limit = limit.min(1 << 40);
    let d = ShaDigests::new(&[0; 32]);
    let status = upgrade(alloc, &d, limit, &mut source, &mut out);
    Ended {
        source,
        out,
        status,
    }
}

// Where the limit is 50 of 116 bytes nothing is written, and one byte more is read at most; where it is 116 all is.
fn assert_within(rt: &impl Abort, alloc: Global, piece: usize) {
    let bytes = bytes_in_hex(rt, alloc, BY_PATH);
    let ended = limited(rt, alloc, 50, &bytes, piece);
    let status = Status::InputLimit { taken: 50 };
    assert_stops(rt, "limit", piece, &ended, b"", status);
    assert_left(rt, "limit", piece, &ended, 65);
    let ended = limited(rt, alloc, 116, &bytes, piece);
    let wanted = bytes_in_hex(rt, alloc, BY_SLOT);
    assert_ends(rt, "all", piece, &ended, &wanted, 0);
}

#[test]
fn nothing_is_written_past_the_limit(rt: HostRuntime) {
    for piece in [1, 40, 1000] {
        assert_within(&rt, rt.alloc(), piece);
    }
}
