//! Seals that are refused: cut, changed, of another number, or none at all.
use crate::running::{PUT_AND_GET, bytes_in, same};
use crate::sealing::{Around, RESUME, assert_faults, assert_left, at, called, joined, seal_of};
use std::alloc::Global;
use std::process::Abort;
use std::sync::Wait;
use std::thread::Threads;

// The seal of a put and a get, with the number 1. It has 527 bytes and those of what waits, which is certified: 467.
fn a_seal<R: Threads + Wait + Sync + Abort>(rt: &R, alloc: Global) -> Vec<u8> {
    let bytes = bytes_in(rt, alloc, "rows", PUT_AND_GET);
    seal_of(rt, alloc, &bytes, 0)
}

// These bytes are refused with this line, and this status. The counter, whose first call would fail, isn't asked.
fn assert_refused<R: Threads + Wait + Sync + Abort>(
    rt: &R,
    alloc: Global,
    label: &str,
    turn: usize,
    bytes: &[u8],
    status: &str,
) {
    let around = Around {
        asks: &[0],
        ..at(1, 1000)
    };
    let left = called(rt, alloc, RESUME, bytes, around);
    let line = format!(in alloc; "{status}\n").expect(rt, "memory");
    assert_left(rt, label, turn, &left, line.as_bytes(), status, 1);
    assert_faults(rt, label, turn, &left, 0);
}

#[test]
fn a_seal_that_is_cut_is_a_bad_one(rt: HostRuntime) {
    let seal = a_seal(&rt, rt.alloc());
    for len in 0..seal.len() {
        assert_refused(&rt, rt.alloc(), "cut", len, &seal[..len], "bad seal");
    }
}

// The seal with a bit of the byte at this place changed.
fn changed(rt: &impl Abort, alloc: Global, seal: &[u8], place: usize) -> Vec<u8> {
    let mut other = Vec::from_slice(alloc, seal).expect(rt, "memory");
    if let Some(byte) = other.get_mut(place) {
        *byte ^= 1 << (place % 8);
    }
    other
}

// Where a byte of its tag is changed the seal isn't tagged, and where another is it isn't, or it is none.
fn assert_changed<R: Threads + Wait + Sync + Abort>(
    rt: &R,
    alloc: Global,
    seal: &[u8],
    place: usize,
) {
    let other = changed(rt, alloc, seal, place);
    let around = Around {
        asks: &[0],
        ..at(1, 1000)
    };
    let left = called(rt, alloc, RESUME, &other, around);
    let number = left.status.number();
    let is_tag = seal.len().saturating_sub(place) <= 32;
    same(
        rt,
        "place",
        place,
        &(number == 11 || number == 15 && !is_tag),
        &true,
    );
    assert_faults(rt, "place", place, &left, 0);
}

#[test]
fn no_byte_of_a_seal_may_change(rt: HostRuntime) {
    let seal = a_seal(&rt, rt.alloc());
    same(&rt, "bytes", 0, &seal.len(), &467);
    for place in 0..seal.len() {
        assert_changed(&rt, rt.alloc(), &seal, place);
    }
    let other = changed(&rt, rt.alloc(), &seal, seal.len().saturating_sub(1));
    assert_refused(&rt, rt.alloc(), "tag", 0, &other, "not tagged");
}

#[test]
fn what_is_no_seal_is_refused(rt: HostRuntime) {
    let bundle = bytes_in(&rt, rt.alloc(), "rows", PUT_AND_GET);
    let seal = a_seal(&rt, rt.alloc());
    let behind = joined(&rt, rt.alloc(), &bundle, &seal);
    assert_refused(&rt, rt.alloc(), "nothing", 0, b"", "bad seal");
    assert_refused(&rt, rt.alloc(), "a bundle", 0, &bundle, "bad seal");
    assert_refused(&rt, rt.alloc(), "behind", 0, &behind, "bad seal");
}

// The head of a seal of 2^40 bytes of a bundle of one verifier, which has accepted as many commands.
const HEAD: &str = "465653310000000000000001000001000000000046564231000100000004000000\
0000ffffff0000000000000000000000000000010000000000";

// How many bytes four sums have.
const SUMS: usize = 288;

// Bytes that digits spell, so many bytes 00, and bytes that more digits spell.
fn spelled(rt: &impl Abort, alloc: Global, front: &str, zeros: usize, rest: &str) -> Vec<u8> {
    let mut bytes = hex::decode(alloc, front).expect(rt, "digits");
    for _ in 0..zeros {
        bytes.push(0).expect(rt, "memory");
    }
    let rest = hex::decode(alloc, rest).expect(rt, "digits");
    joined(rt, alloc, &bytes, &rest)
}

// What has no more bytes than a count is refused for them, and for no want of memory: no memory would do for so many.
#[test]
fn a_count_alone_takes_no_memory(rt: HostRuntime) {
    let entries = spelled(&rt, rt.alloc(), HEAD, 0, "ffffffff");
    assert_refused(&rt, rt.alloc(), "entries", 0, &entries, "bad seal");
    // No entry, four sums and no part, and as many operations as there are commands.
    let operations = spelled(&rt, rt.alloc(), HEAD, 4 + SUMS + 4, "0000010000000000");
    assert_refused(&rt, rt.alloc(), "operations", 0, &operations, "bad seal");
}

// By another number of the counter the seal is stale.
fn assert_stale<R: Threads + Wait + Sync + Abort>(
    rt: &R,
    alloc: Global,
    seal: &[u8],
    number: u64,
    status: &str,
) {
    let left = called(rt, alloc, RESUME, seal, at(number, 1));
    let line = format!(in alloc; "{status}\n").expect(rt, "memory");
    assert_left(rt, status, 0, &left, line.as_bytes(), status, number);
    same(rt, status, 0, &left.status.number(), &16);
    assert_faults(rt, status, 0, &left, 0);
}

#[test]
fn a_seal_of_another_number_is_stale(rt: HostRuntime) {
    let seal = a_seal(&rt, rt.alloc());
    let greatest = "stale sealed 1 device 18446744073709551615";
    assert_stale(&rt, rt.alloc(), &seal, 0, "stale sealed 1 device 0");
    assert_stale(&rt, rt.alloc(), &seal, 2, "stale sealed 1 device 2");
    assert_stale(&rt, rt.alloc(), &seal, u64::MAX, greatest);
}
