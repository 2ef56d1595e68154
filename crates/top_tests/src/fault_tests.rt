//! Objects that fail, one call after the other, and sinks that are too small: what was written is a front of the text.
use crate::running::{
    Way, assert_ends, assert_read_faults, assert_stops, bytes_of, cases_in, failing, run, same,
};
use fastver_top::Status;
use std::alloc::Global;
use std::process::Abort;
use std::sync::Wait;
use std::thread::Threads;

// Each case is a bundle behind the words that it is handed to, with what is written of it, and the status. The receipts are
// those of the slow program.
const ANSWERS: &str = "\
== check
addM 5 none root
put 5 6162
evictM 5 root
addM 5 6162 root
get 5 6162
next
next
-> 0
epoch 0 certified 2
0.0 v0 put 5 6162
0.0 v0 get 5 6162
done 1
== audit
addM 5 none root
put 5 6162
evictM 5 root
addM 5 6162 root
get 5 6162
next
next
-> 0
clean 1
done 1
== check --receipts
addM 5 none root
put 5 6162
evictM 5 root
addM 5 6162 root
get 5 6162
next
next
-> 0
epoch 0 certified 2
0.0 v0 put 5 6162
receipt 010000000000000000000000000000000000010700000000000000050102616218a80f583013ef0bbdcd027ca61c3404716f0ce097084d6f933c472cde10b5d8
0.0 v0 get 5 6162
receipt 01000000000000000000000000000000000004060000000000000005010261620be45074de1eb30dff3666b6bb26d4535d8d1c1323b514d9287297eb5025b904
certificate 020000000000000000d9f6d832690ffe03b32ea0ea7d73a6896c7900651a4f0ee61aa7a1392b0e6348
done 1
== check
get 5 none
-> 8
refused v0 command 0 NotCached
== audit
get 5 none
-> 8
clean 0
refused v0 command 0 NotCached
== follow
addM 18446744073709551615 none root
put 18446744073709551615 63
addM 5 none root
put 5 6162
get 5 6162
put 5 .
next
next
-> 0
5 .
18446744073709551615 63
done 1
== follow
addM 5 none root
put 5 6162
addM 18446744073709551615 none root
put 18446744073709551615 none
put 5 none
next
next
-> 0
done 1
== follow
addM 5 none root
put 5 61
next
next
put 5 62
-> 0
5 61
done 1
== follow
addM 5 none root
put 5 61
next
next
get 7 none
-> 8
5 61
refused v0 command 4 NotCached
== follow
raw 000000000000
-> 7
bad bundle at byte 18
";

// Where the read of this number fails nothing is written.
fn assert_read_fails<R: Threads + Wait + Sync + Abort>(
    rt: &R,
    alloc: Global,
    words: &str,
    bytes: &[u8],
    k: usize,
) {
    let ended = run(rt, alloc, words, bytes, failing(1, &[k as u64], &[]));
    assert_stops(rt, words, k, &ended, b"", Status::ReadFault);
    assert_read_faults(rt, words, k, &ended, 1);
}

// Where the write of the byte behind this front fails, the front stands.
fn assert_write_fails<R: Threads + Wait + Sync + Abort>(
    rt: &R,
    alloc: Global,
    words: &str,
    bytes: &[u8],
    front: &[u8],
) {
    let k = front.len();
    let ended = run(rt, alloc, words, bytes, failing(1, &[], &[k as u64]));
    assert_stops(rt, words, k, &ended, front, Status::WriteFault);
    same(rt, words, k, &ended.out.faults(), &1);
}

// A sink with room for so many bytes, which are written by whatever pieces.
fn cramped(room: usize) -> Way<'static> {
    Way {
        read: 1000,
        write: 7,
        room,
        fails: (&[], &[]),
    }
}

// A sink with room for this front alone is filled.
fn assert_filled<R: Threads + Wait + Sync + Abort>(
    rt: &R,
    alloc: Global,
    words: &str,
    bytes: &[u8],
    front: &[u8],
) {
    let ended = run(rt, alloc, words, bytes, cramped(front.len()));
    let status = Status::WriteFault;
    assert_stops(rt, words, front.len(), &ended, front, status);
}

// A sink with room for all takes it.
fn assert_suffices<R: Threads + Wait + Sync + Abort>(
    rt: &R,
    alloc: Global,
    words: &str,
    bytes: &[u8],
    whole: &[u8],
    number: u8,
) {
    let ended = run(rt, alloc, words, bytes, cramped(whole.len()));
    assert_ends(rt, words, whole.len(), &ended, whole, number);
}

/// Behind these words the whole is written of the bytes, with a status of this number; and a front of it stands where the objects
/// fail or are too small.
pub(crate) fn assert_fronts<R: Threads + Wait + Sync + Abort>(
    rt: &R,
    alloc: Global,
    words: &str,
    bytes: &[u8],
    whole: &[u8],
    number: u8,
) {
    for k in 0..bytes.len() {
        assert_read_fails(rt, alloc, words, bytes, k);
    }
    for k in 0..whole.len() {
        assert_write_fails(rt, alloc, words, bytes, &whole[..k]);
        assert_filled(rt, alloc, words, bytes, &whole[..k]);
    }
    assert_suffices(rt, alloc, words, bytes, whole, number);
}

#[test]
fn a_front_of_each_answer_stands(rt: HostRuntime) {
    for case in &cases_in(&rt, rt.alloc(), ANSWERS, 10) {
        let bytes = bytes_of(&rt, rt.alloc(), case);
        let (words, report) = (case.label, case.report.as_bytes());
        assert_fronts(&rt, rt.alloc(), words, &bytes, report, case.status);
    }
}
