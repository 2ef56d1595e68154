//! Requests that a client signs: what is written of them, lines that are none, and objects that fail.
use crate::asking::{ask, assert_stops, assert_unused, same, same_bytes};
use fastver_top::Status;
use std::alloc::Global;
use std::process::Abort;
use std::sync::Wait;
use std::thread::Threads;

// The words of the first client, and those of the last one, whose keys have 128 bits.
const SIGN: &str = "fastver sign --client 0 --key 00000000000000000000000000000000";

const SIGN_LONG: &str =
    "fastver sign --client 65535 --bits 128 --key 00000000000000000000000000000000";

// Whose words are taken, the lines of a text, each with a slash behind it, the status, and the lines that are written.
const TEXTS: &str = "
short | 1 put 5 6162/2 get 5/ | done 0 | 0 1 1e4f73c09687b2a454386bf1816a77ac349980ecdfc7a6847087f432ab8a5968 put 5 6162/0 2 146a2b4253c3efabc967a0e154df8ad6309377a064e82d6740340e1598c04de8 get 5/
short | 1 put 5 6162/2 get 5 | done 0 | 0 1 1e4f73c09687b2a454386bf1816a77ac349980ecdfc7a6847087f432ab8a5968 put 5 6162/0 2 146a2b4253c3efabc967a0e154df8ad6309377a064e82d6740340e1598c04de8 get 5/
short |  | done 0 |
short | 7 del 18446744073709551615/18446744073709551615 put 0 ./ | done 0 | 0 7 c6495640139f2e17380ad2244dfac53c64aa67952486dea9d591eb1194adf146 del 18446744073709551615/0 18446744073709551615 d8b567d21e429c3b1cb371d946c8a2e5e3f7caa643839505f5355374c34abc29 put 0 ./
long | 1 get 18446744073709551616/ | done 0 | 65535 1 2f661eeae041ba8653070f9f697077795ebbd5c9b4bedf19fab7a83903fc9afa get 18446744073709551616/
long | 3 put 5 6162/ | done 0 | 65535 3 f5e77ebf1326a1b86e6bb4857f3e1d6b912a4a49aa10904152dd505e32008d6f put 5 6162/
short | / | bad script line 1 Shape |
short | epoch/ | bad script line 1 Shape |
short | 1 put 5 6162/1 put 5 6162/ | bad script line 2 Number |
short | 2 get 5/1 get 5/ | bad script line 2 Number |
short | 0 get 5/ | bad script line 1 Number |
short | 1 get 5/2 get 18446744073709551616/ | bad script line 2 Key |
long | 1 get 5/2 put 5 6/3 get 5/ | bad script line 2 Hex |
short | 1 get 5//2 get 5/ | bad script line 2 Shape |
";

// The field of a row at this place, counted from 0.
fn field<'a>(rt: &impl Abort, row: &'a str, place: usize) -> &'a str {
    let text = row.split('|').nth(place);
    text.expect(rt, "a row with too few fields").trim()
}

// The lines of a field.
fn lines_in(rt: &impl Abort, alloc: Global, row: &str, place: usize) -> String {
    let text = field(rt, row, place);
    text.replace(alloc, "/", "\n").expect(rt, "memory")
}

// The words of a row.
fn words_in(rt: &impl Abort, row: &str) -> &'static str {
    match field(rt, row, 0) {
        "long" => SIGN_LONG,
        _ => SIGN,
    }
}

// The lines of a row come to its status, and its lines are written.
fn assert_row<R: Threads + Wait + Sync + Abort>(rt: &R, alloc: Global, row: &str) {
    let text = lines_in(rt, alloc, row, 1);
    let asked = ask(rt, alloc, words_in(rt, row), text.as_bytes(), (&[], &[]));
    let status = field(rt, row, 2).as_bytes();
    same_bytes(rt, row, asked.status.line().as_slice(), status);
    let signed = lines_in(rt, alloc, row, 3);
    same_bytes(rt, row, asked.out.bytes(), signed.as_bytes());
    assert_unused(rt, row, &asked);
}

#[test]
fn lines_are_signed_or_refused(rt: HostRuntime) {
    for row in TEXTS.trim_matches('\n').lines() {
        assert_row(&rt, rt.alloc(), row);
    }
}

// A put and a get, and what they are once they are signed.
const REQUESTS: &str = "1 put 5 6162\n2 get 5\n";

const SIGNED: &str = "\
0 1 1e4f73c09687b2a454386bf1816a77ac349980ecdfc7a6847087f432ab8a5968 put 5 6162
0 2 146a2b4253c3efabc967a0e154df8ad6309377a064e82d6740340e1598c04de8 get 5
";

// Where the read of this number fails, nothing is written.
fn assert_read_fails<R: Threads + Wait + Sync + Abort>(rt: &R, alloc: Global, k: usize) {
    let asked = ask(rt, alloc, SIGN, REQUESTS.as_bytes(), (&[k as u64], &[]));
    assert_stops(rt, "read", k, &asked, b"", Status::ReadFault);
}

#[test]
fn where_a_read_fails_nothing_is_signed(rt: HostRuntime) {
    // One read for each byte, and one at the end.
    for k in 0..REQUESTS.len() + 1 {
        assert_read_fails(&rt, rt.alloc(), k);
    }
}

// Where the write of the byte behind this front of the lines fails, the front stands.
fn assert_write_fails<R: Threads + Wait + Sync + Abort>(rt: &R, alloc: Global, front: &[u8]) {
    let fails = [front.len() as u64];
    let asked = ask(rt, alloc, SIGN, REQUESTS.as_bytes(), (&[], &fails));
    assert_stops(rt, "write", front.len(), &asked, front, Status::WriteFault);
}

#[test]
fn where_a_write_fails_a_front_of_the_lines_stands(rt: HostRuntime) {
    for k in (0..SIGNED.len()).step_by(5) {
        assert_write_fails(&rt, rt.alloc(), &SIGNED.as_bytes()[..k]);
    }
}

// Words that ask for nothing, a line each.
const REFUSED: &str = "\
fastver sign --key 00000000000000000000000000000000
fastver sign --client 0
fastver sign --client 65536 --key 00000000000000000000000000000000
fastver sign --client 0 --bits 96 --key 00000000000000000000000000000000
fastver sign --client 0 --format 3 --key 00000000000000000000000000000000
";

// The words of a line are refused. A read that is made fails.
fn assert_refused<R: Threads + Wait + Sync + Abort>(rt: &R, alloc: Global, line: &str) {
    let asked = ask(rt, alloc, line, REQUESTS.as_bytes(), (&[0], &[]));
    assert_stops(rt, line, 0, &asked, b"", Status::Usage);
    assert_unused(rt, line, &asked);
}

#[test]
fn words_of_no_client_are_refused(rt: HostRuntime) {
    same(&rt, "lines", &REFUSED.lines().count(), &5);
    for line in REFUSED.lines() {
        assert_refused(&rt, rt.alloc(), line);
    }
}
