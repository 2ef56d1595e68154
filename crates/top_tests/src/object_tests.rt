//! Bundles that are cut, what stands where reading stops before its end, and a limit on what is read.
use crate::running::{
    Ended, PUT_AND_GET, REPORT, Way, assert_ends, assert_left, assert_read_faults, assert_stops,
    by, bytes_in, checked, failing, run, same,
};
use fastver_top::Status;
use record_hash::ShaDigests;
use std::alloc::Global;
use std::process::Abort;
use std::sync::Wait;
use std::thread::Threads;

// Two records that wait with their elements, and come back in the next epoch: two frames, which end at bytes 120 and
// 208.
const TWO_FRAMES: &str = "\
cache 128
frames 96
addM /0 empty root
evictBM /0 root 0.1
addM /1 empty root
evictBM /1 root 0.2
next
addB /0 empty 0.1 v0
evictB /0 1.2
addB /1 empty 0.2 v0
evictB /1 1.4
next
";

// A bundle that is cut.
#[derive(Clone, Copy)]
enum Cut {
    PutAndGet,
    TwoFrames,
}

impl Cut {
    fn rows(self) -> &'static str {
        match self {
            Cut::PutAndGet => PUT_AND_GET,
            Cut::TwoFrames => TWO_FRAMES,
        }
    }

    // The report and status of its first bytes, so many of them.
    fn report(self, len: usize) -> (&'static str, u8) {
        match (self, len) {
            (_, 0..18) => ("bad bundle at byte 0\n", 7),
            (_, 18) => ("done 0\n", 0),
            (Cut::PutAndGet, 19..116) => ("bad bundle at byte 18\n", 7),
            (Cut::PutAndGet, _) => (REPORT, 0),
            (Cut::TwoFrames, 19..120) => ("bad bundle at byte 18\n", 7),
            (Cut::TwoFrames, 120) => ("done 0\n", 0),
            (Cut::TwoFrames, 121..208) => ("bad bundle at byte 120\n", 7),
            (Cut::TwoFrames, _) => ("epoch 0 certified 0\ndone 1\n", 0),
        }
    }
}

// The first bytes of a bundle, so many of them, have their report and status.
fn assert_cut<R: Threads + Wait + Sync + Abort>(
    rt: &R,
    alloc: Global,
    cut: Cut,
    bytes: &[u8],
    len: usize,
) {
    let ended = run(rt, alloc, "check", &bytes[..len.min(bytes.len())], by(1000));
    let (report, number) = cut.report(len);
    assert_ends(rt, "length", len, &ended, report.as_bytes(), number);
}

// It is so at each length.
fn assert_cuts<R: Threads + Wait + Sync + Abort>(rt: &R, alloc: Global, cut: Cut) {
    let bytes = bytes_in(rt, alloc, "rows", cut.rows());
    for len in 0..bytes.len() + 1 {
        assert_cut(rt, alloc, cut, &bytes, len);
    }
}

#[test]
fn bundles_are_cut_at_each_length(rt: HostRuntime) {
    assert_cuts(&rt, rt.alloc(), Cut::PutAndGet);
    assert_cuts(&rt, rt.alloc(), Cut::TwoFrames);
}

// The lines of the certified epoch of a put and a get.
const LINES: &str = "epoch 0 certified 2\n0.0 v0 put 5 6162\n0.0 v0 get 5 6162\n";

// A put and a get, and behind them so many frames of verifier 0 with one byte, each of which seals an epoch more.
fn with_more_frames(rt: &impl Abort, alloc: Global, count: usize) -> Vec<u8> {
    let mut bytes = bytes_in(rt, alloc, "rows", PUT_AND_GET);
    for _ in 0..count {
        bytes
            .extend_from_slice(&[0, 0, 0, 0, 0, 1, 8])
            .expect(rt, "memory");
    }
    bytes
}

// What the read of this number adds to what is certified before it. Each of three frames behind the put and the get has 7
// bytes.
fn certified_at(k: usize) -> &'static str {
    match k {
        116 => LINES,
        123 => "epoch 1 certified 0\n",
        130 => "epoch 2 certified 0\n",
        137 => "epoch 3 certified 0\n",
        _ => "",
    }
}

// Where the read of this number fails, a command has written this.
fn assert_read_fails<R: Threads + Wait + Sync + Abort>(
    rt: &R,
    alloc: Global,
    command: &str,
    bytes: &[u8],
    k: usize,
    written: &[u8],
) {
    let ended = run(rt, alloc, command, bytes, failing(1, &[k as u64], &[]));
    assert_stops(rt, command, k, &ended, written, Status::ReadFault);
}

#[test]
fn what_was_read_is_certified_before_a_fault(rt: HostRuntime) {
    let bytes = with_more_frames(&rt, rt.alloc(), 3);
    same(&rt, "bytes", 0, &bytes.len(), &137);
    let mut certified = String::new(rt.alloc());
    // The last of the reads that fail is the one behind the last byte.
    for k in 0..138 {
        certified.push_str(certified_at(k)).expect(&rt, "memory");
        assert_read_fails(&rt, rt.alloc(), "check", &bytes, k, certified.as_bytes());
    }
    // An audit writes nothing before all is read.
    assert_read_fails(&rt, rt.alloc(), "audit", &bytes, 137, b"");
}

#[test]
fn a_full_batch_is_written_before_more_is_read(rt: HostRuntime) {
    // 64 frames, and the read behind them fails, but the first write does so before.
    let bytes = with_more_frames(&rt, rt.alloc(), 63);
    same(&rt, "bytes", 0, &bytes.len(), &557);
    let way = Way {
        read: 1,
        write: 1000,
        room: 10_000,
        fails: (&[557], &[0]),
    };
    let ended = run(&rt, rt.alloc(), "check", &bytes, way);
    assert_stops(&rt, "write", 0, &ended, b"", Status::WriteFault);
    assert_read_faults(&rt, "read", 557, &ended, 0);
}

// The report of a put and a get, and of 129 empty epochs behind theirs.
fn long_report(rt: &impl Abort, alloc: Global) -> String {
    let mut report = String::from_str(alloc, LINES).expect(rt, "memory");
    for epoch in 1..130 {
        let line = format!(in alloc; "epoch {epoch} certified 0\n").expect(rt, "memory");
        report.push_str(&line).expect(rt, "memory");
    }
    report.push_str("done 130\n").expect(rt, "memory");
    report
}

// It is written where reads and writes go by so many bytes.
fn assert_long_report<R: Threads + Wait + Sync + Abort>(
    rt: &R,
    alloc: Global,
    report: &str,
    piece: usize,
) {
    let bytes = with_more_frames(rt, alloc, 129);
    let ended = run(rt, alloc, "check", &bytes, by(piece));
    let status = Status::Done { epochs: 130 };
    assert_stops(rt, "piece", piece, &ended, report.as_bytes(), status);
}

#[test]
fn more_than_a_batch_comes_to_one_report(rt: HostRuntime) {
    // 130 frames are two batches and 2 frames more; 129 epochs follow the first, all empty.
    let report = long_report(&rt, rt.alloc());
    assert_long_report(&rt, rt.alloc(), &report, 1);
    assert_long_report(&rt, rt.alloc(), &report, 100_000);
}

// What a check leaves of no more than so many of these bytes, under a key of zeros.
fn limited<R: Threads + Sync + Abort>(
    rt: &R,
    alloc: Global,
    limit: u64,
    bytes: &[u8],
    way: Way<'_>,
) -> Ended {
    checked(rt, alloc, &ShaDigests::new(&[0; 32]), limit, bytes, way)
}

// By so many bytes a read, it writes this text, ends so, and leaves so many bytes.
fn assert_limited<R: Threads + Sync + Abort>(
    rt: &R,
    alloc: Global,
    limit: u64,
    bytes: &[u8],
    piece: usize,
    wanted: (&str, Status, usize),
) {
    let (written, status, left) = wanted;
    let ended = limited(rt, alloc, limit, bytes, by(piece));
    assert_stops(rt, "piece", piece, &ended, written.as_bytes(), status);
    assert_left(rt, "piece", piece, &ended, left);
}

// Where the limit is 50 of 116 bytes the input is too long, and one byte more is read at most; where it is 116 all is read.
fn assert_within<R: Threads + Sync + Abort>(rt: &R, alloc: Global, piece: usize) {
    let bytes = bytes_in(rt, alloc, "rows", PUT_AND_GET);
    let some = ("", Status::InputLimit { taken: 50 }, 65);
    assert_limited(rt, alloc, 50, &bytes, piece, some);
    let all = (REPORT, Status::Done { epochs: 1 }, 0);
    assert_limited(rt, alloc, 116, &bytes, piece, all);
}

#[test]
fn no_more_is_read_than_the_limit(rt: HostRuntime) {
    for piece in [1, 40, 1000] {
        assert_within(&rt, rt.alloc(), piece);
    }
}

// The report of a put and a get where something bad is behind their frames.
const BAD_END: &str =
    "epoch 0 certified 2\n0.0 v0 put 5 6162\n0.0 v0 get 5 6162\nbad bundle at byte 116\n";

// A put and a get, behind their frames the head of one with no bytes, whose last byte is number 122, and 100 bytes more.
fn with_bad_end(rt: &impl Abort, alloc: Global) -> Vec<u8> {
    let mut bytes = bytes_in(rt, alloc, "rows", PUT_AND_GET);
    bytes.extend_from_slice(&[0; 106]).expect(rt, "memory");
    bytes
}

// Of no more than so many of these bytes, read by so many, so many are left.
fn assert_bad_end<R: Threads + Sync + Abort>(
    rt: &R,
    alloc: Global,
    limit: u64,
    piece: usize,
    left: usize,
) {
    let bytes = with_bad_end(rt, alloc);
    let wanted = (BAD_END, Status::BadBundle { offset: 116 }, left);
    assert_limited(rt, alloc, limit, &bytes, piece, wanted);
}

#[test]
fn nothing_is_read_behind_what_is_bad(rt: HostRuntime) {
    assert_bad_end(&rt, rt.alloc(), 1 << 40, 1, 100);
    assert_bad_end(&rt, rt.alloc(), 122, 1, 100);
    assert_bad_end(&rt, rt.alloc(), 122, 1000, 100);
    assert_bad_end(&rt, rt.alloc(), 1 << 40, 1000, 0);
    let bytes = with_bad_end(&rt, rt.alloc());
    let wanted = (LINES, Status::InputLimit { taken: 121 }, 100);
    assert_limited(&rt, rt.alloc(), 121, &bytes, 1000, wanted);
}

// A read fails, and a later one would, at 10 bytes a read: so many bytes are left behind the first of them, and this is written.
fn assert_last<R: Threads + Sync + Abort>(
    rt: &R,
    alloc: Global,
    bytes: &[u8],
    fails: [u64; 2],
    left: usize,
    lines: &str,
) {
    let ended = limited(rt, alloc, 1 << 40, bytes, failing(10, &fails, &[]));
    let status = Status::ReadFault;
    assert_stops(rt, "left", left, &ended, lines.as_bytes(), status);
    assert_read_faults(rt, "left", left, &ended, 1);
    assert_left(rt, "left", left, &ended, left);
}

// No clause can say it: of a source that counts faults in reads that give bytes too, a failed read with one that gives
// bytes behind it looks like one read. So a body that reads again fails here alone.
#[test]
fn a_failed_read_is_the_last(rt: HostRuntime) {
    let bytes = bytes_in(&rt, rt.alloc(), "rows", PUT_AND_GET);
    // The bundle has 116 bytes.
    assert_last(&rt, rt.alloc(), &bytes, [0, 7], 116, "");
    assert_last(&rt, rt.alloc(), &bytes, [0, 1], 116, "");
    assert_last(&rt, rt.alloc(), &bytes, [3, 4], 86, "");
    assert_last(&rt, rt.alloc(), &bytes, [3, 5], 86, "");
    assert_last(&rt, rt.alloc(), &bytes, [12, 13], 0, LINES);
}
