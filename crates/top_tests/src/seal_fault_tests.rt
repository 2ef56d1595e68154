//! A check that seals, and one that goes on from a seal, over objects that fail, one call after the other.
use crate::running::{PUT_AND_GET, REPORT, bytes_in, same};
use crate::sealing::{
    Around, Left, RESUME, SEAL, assert_faults, assert_kept, assert_left, at, called, joined,
    seal_of,
};
use std::alloc::Global;
use std::process::Abort;
use std::sync::Wait;
use std::thread::Threads;

// The report of a put and a get that are sealed.
const SEALED: &str = "\
epoch 0 certified 2
0.0 v0 put 5 6162
0.0 v0 get 5 6162
sealed 1
";

// How many bytes of it stand before the last line.
const LINES: usize = 56;

// A put and a get.
fn bundle(rt: &impl Abort, alloc: Global) -> Vec<u8> {
    bytes_in(rt, alloc, "rows", PUT_AND_GET)
}

// What is there behind a check of them that seals, byte by byte, where the counter stands at 5.
fn sealing<R: Threads + Wait + Sync + Abort>(rt: &R, alloc: Global, around: Around<'_>) -> Left {
    let bytes = bundle(rt, alloc);
    called(rt, alloc, SEAL, &bytes, around)
}

// The lines before the last, or a front of all.
fn front_of(rt: &impl Abort, len: usize) -> &'static [u8] {
    SEALED.as_bytes().get(..len).expect(rt, "a front")
}

// Where the read of this number fails nothing is sealed. Once all bytes were taken their lines are due.
fn assert_read_fails<R: Threads + Wait + Sync + Abort>(rt: &R, alloc: Global, k: usize) {
    let numbers = [k as u64];
    let around = Around {
        reads: &numbers,
        ..at(5, 1)
    };
    let left = sealing(rt, alloc, around);
    let due = if k < 116 { 0 } else { LINES };
    assert_left(rt, "read", k, &left, front_of(rt, due), "read fault", 5);
    assert_kept(rt, "read", k, &left, Some("kept"), b"");
    assert_faults(rt, "read", k, &left, 1);
}

#[test]
fn where_a_read_fails_nothing_is_sealed(rt: HostRuntime) {
    for k in 0..117 {
        assert_read_fails(&rt, rt.alloc(), k);
    }
}

// Where the write of this number fails a front of the report stands, and nothing is sealed before the last line.
fn assert_write_fails<R: Threads + Wait + Sync + Abort>(
    rt: &R,
    alloc: Global,
    seal: &[u8],
    k: usize,
) {
    let numbers = [k as u64];
    let around = Around {
        writes: &numbers,
        ..at(5, 1)
    };
    let left = sealing(rt, alloc, around);
    let (kept, number): (&[u8], u64) = if k < LINES { (b"", 5) } else { (seal, 6) };
    assert_left(
        rt,
        "write",
        k,
        &left,
        front_of(rt, k),
        "write fault",
        number,
    );
    assert_kept(rt, "write", k, &left, Some("kept"), kept);
    assert_faults(rt, "write", k, &left, 1);
}

#[test]
fn the_last_line_is_written_behind_the_seal(rt: HostRuntime) {
    let bytes = bundle(&rt, rt.alloc());
    let seal = seal_of(&rt, rt.alloc(), &bytes, 5);
    for k in 0..SEALED.len() {
        assert_write_fails(&rt, rt.alloc(), &seal, k);
    }
}

// Where the vault's write behind this front of the seal fails, the front stands, the counter was raised, and the last line isn't written.
fn assert_keep_fails<R: Threads + Wait + Sync + Abort>(rt: &R, alloc: Global, front: &[u8]) {
    let k = front.len();
    // The first call of the vault names it.
    let numbers = [k as u64 + 1];
    let around = Around {
        keeps: &numbers,
        ..at(5, 1)
    };
    let left = sealing(rt, alloc, around);
    assert_left(rt, "keep", k, &left, front_of(rt, LINES), "vault fault", 6);
    assert_kept(rt, "keep", k, &left, Some("kept"), front);
    assert_faults(rt, "keep", k, &left, 1);
}

#[test]
fn where_the_vault_fails_a_front_of_the_seal_stands(rt: HostRuntime) {
    let bytes = bundle(&rt, rt.alloc());
    let seal = seal_of(&rt, rt.alloc(), &bytes, 5);
    for k in 0..seal.len() {
        assert_keep_fails(&rt, rt.alloc(), &seal[..k]);
    }
}

#[test]
fn where_the_vault_has_no_name_nothing_is_read(rt: HostRuntime) {
    let around = Around {
        keeps: &[0],
        ..at(5, 1)
    };
    let left = sealing(&rt, rt.alloc(), around);
    assert_left(&rt, "name", 0, &left, b"", "vault fault", 5);
    assert_kept(&rt, "name", 0, &left, None, b"");
    same(&rt, "name", 0, &left.source.left().len(), &116);
    assert_faults(&rt, "name", 0, &left, 1);
}

// Where the counter fails nothing is sealed, and all lines but the last are written.
fn assert_raise_fails<R: Threads + Wait + Sync + Abort>(
    rt: &R,
    alloc: Global,
    number: u64,
    asks: &[u64],
) {
    let around = Around {
        asks,
        ..at(number, 1)
    };
    let left = sealing(rt, alloc, around);
    let lines = front_of(rt, LINES);
    assert_left(rt, "raise", 0, &left, lines, "counter fault", number);
    same(rt, "raise", 0, &left.status.number(), &17);
    assert_kept(rt, "raise", 0, &left, Some("kept"), b"");
    assert_faults(rt, "raise", 0, &left, 1);
}

#[test]
fn where_the_counter_fails_nothing_is_sealed(rt: HostRuntime) {
    assert_raise_fails(&rt, rt.alloc(), 5, &[0]);
    assert_raise_fails(&rt, rt.alloc(), u64::MAX, &[]);
}

// ---- going on

// A seal of a put and a get that are not certified, with the number 1, and the frame with which they are.
fn seal_and_frame<R: Threads + Wait + Sync + Abort>(rt: &R, alloc: Global) -> Vec<u8> {
    let rows = "addM 5 none root\nput 5 6162\nevictM 5 root\naddM 5 6162 root\nget 5 6162\n";
    let front = bytes_in(rt, alloc, "rows", rows);
    let seal = seal_of(rt, alloc, &front, 0);
    joined(rt, alloc, &seal, &[0, 0, 0, 0, 0, 2, 8, 8])
}

// What is there behind a resumed check of these bytes, byte by byte, where the read of this number fails.
fn resumed_without<R: Threads + Wait + Sync + Abort>(
    rt: &R,
    alloc: Global,
    bytes: &[u8],
    k: u64,
) -> Left {
    let numbers = [k];
    let around = Around {
        reads: &numbers,
        ..at(1, 1)
    };
    called(rt, alloc, RESUME, bytes, around)
}

// Where a read of the seal fails nothing is written.
#[test]
fn where_the_seal_can_not_be_read_nothing_is_written(rt: HostRuntime) {
    let bytes = seal_and_frame(&rt, rt.alloc());
    same(&rt, "bytes", 0, &bytes.len(), &535);
    for k in 0..527 {
        let left = resumed_without(&rt, rt.alloc(), &bytes, k);
        assert_left(&rt, "read", k as usize, &left, b"", "read fault", 1);
        assert_faults(&rt, "read", k as usize, &left, 1);
    }
}

// Where the seal is whole, the source is asked again once, for what is behind it.
#[test]
fn a_read_that_fails_behind_a_whole_seal_is_made_again(rt: HostRuntime) {
    let bytes = seal_and_frame(&rt, rt.alloc());
    for k in 527..536 {
        let left = resumed_without(&rt, rt.alloc(), &bytes, k);
        assert_left(
            &rt,
            "read",
            k as usize,
            &left,
            REPORT.as_bytes(),
            "done 1",
            1,
        );
        assert_faults(&rt, "read", k as usize, &left, 1);
    }
}

// Behind the end, of which it is asked again, all lines are due.
#[test]
fn where_a_read_fails_the_lines_that_are_due_are_written(rt: HostRuntime) {
    let bytes = seal_and_frame(&rt, rt.alloc());
    let left = resumed_without(&rt, rt.alloc(), &bytes, 536);
    assert_left(&rt, "read", 0, &left, front_of(&rt, LINES), "read fault", 1);
    assert_faults(&rt, "read", 0, &left, 1);
}

// Where a write fails behind this front, it stands.
fn assert_resumed_write_fails<R: Threads + Wait + Sync + Abort>(
    rt: &R,
    alloc: Global,
    bytes: &[u8],
    front: &[u8],
    number: u64,
) {
    let numbers = [front.len() as u64];
    let around = Around {
        writes: &numbers,
        ..at(number, 1)
    };
    let left = called(rt, alloc, RESUME, bytes, around);
    assert_left(
        rt,
        "write",
        front.len(),
        &left,
        front,
        "write fault",
        number,
    );
    assert_faults(rt, "write", front.len(), &left, 1);
}

// So it is at each byte of a text.
fn assert_resumed_writes_fail<R: Threads + Wait + Sync + Abort>(
    rt: &R,
    alloc: Global,
    bytes: &[u8],
    text: &[u8],
    number: u64,
) {
    for k in 0..text.len() {
        assert_resumed_write_fails(rt, alloc, bytes, &text[..k], number);
    }
}

#[test]
fn where_a_write_fails_a_front_stands(rt: HostRuntime) {
    let bytes = seal_and_frame(&rt, rt.alloc());
    assert_resumed_writes_fail(&rt, rt.alloc(), &bytes, REPORT.as_bytes(), 1);
    let stale = b"stale sealed 1 device 3\n".as_slice();
    assert_resumed_writes_fail(&rt, rt.alloc(), &bytes, stale, 3);
    let bad = b"bad seal\n".as_slice();
    assert_resumed_writes_fail(&rt, rt.alloc(), b"FVS1", bad, 1);
}

// Where the counter can't be read nothing is written, whether the seal is stale or not.
fn assert_ask_fails<R: Threads + Wait + Sync + Abort>(rt: &R, alloc: Global, number: u64) {
    let bytes = seal_and_frame(rt, alloc);
    let around = Around {
        asks: &[0],
        ..at(number, 1000)
    };
    let left = called(rt, alloc, RESUME, &bytes, around);
    assert_left(rt, "ask", 0, &left, b"", "counter fault", number);
    same(rt, "ask", 0, &left.status.number(), &17);
    assert_faults(rt, "ask", 0, &left, 1);
}

#[test]
fn where_the_counter_can_not_be_read_nothing_is_written(rt: HostRuntime) {
    assert_ask_fails(&rt, rt.alloc(), 1);
    assert_ask_fails(&rt, rt.alloc(), 3);
}
