//! What a receipt and a certificate come to, whole, in other texts, and with one bit or one letter changed.
use crate::asking::{
    ACCEPT, ACCEPTED, Asked, REPORT, ask, assert_ends, assert_unused, line_at, same, same_bytes,
    text_of,
};
use std::alloc::Global;
use std::process::Abort;
use std::sync::Wait;
use std::thread::Threads;

// The letters of a text, its status and, if something is written, that line.
const TEXTS: &str = "
P/C/    | done 0 | accepted 0.3 v0 put 5 6162
P/C     | done 0 | accepted 0.3 v0 put 5 6162
G/C/    | done 0 | accepted 0.5 v0 get 5 6162
P/D/    | done 0 | accepted 0.3 v0 put 5 6162
L/D/    | done 0 | accepted 1.5 v0 get 5 6162
B/C/    | done 0 | accepted 0.3 v0 put 18446744073709551621 6162
L/C/    | not certified | not certified
Q/C/    | not tagged | not tagged
P/E/    | not tagged | not tagged
Q/E/    | not tagged | not tagged
B/E/    | not tagged | not tagged
L/E/    | not tagged | not tagged
        | bad script line 1 Shape |
/       | bad script line 1 Shape |
C/P/    | bad script line 1 Shape |
/P/C/   | bad script line 1 Shape |
P^/C^/  | bad script line 1 Hex |
P0/C/   | bad script line 1 Hex |
B0/C/   | bad script line 1 Hex |
P/      | bad script line 2 Shape |
P//C/   | bad script line 2 Shape |
P/P/    | bad script line 2 Shape |
P/C^/   | bad script line 2 Hex |
P/C0    | bad script line 2 Hex |
P/C//   | bad script line 3 Shape |
P/C/P/  | bad script line 3 Shape |
P/C/C/  | bad script line 3 Shape |
";

// The field of a row at this place, counted from 0.
fn field<'a>(rt: &impl Abort, row: &'a str, place: usize) -> &'a str {
    let text = row.split('|').nth(place);
    text.expect(rt, "a row with too few fields").trim()
}

// The exit status that goes with these words.
fn number_of(words: &str) -> u8 {
    match words {
        "done 0" => 0,
        "not tagged" => 11,
        "not certified" => 12,
        _ => 6,
    }
}

// The text of a row has its status, and the line is written, if there is one.
fn assert_row<R: Threads + Wait + Sync + Abort>(rt: &R, alloc: Global, row: &str) {
    let text = text_of(rt, alloc, field(rt, row, 0));
    let asked = ask(rt, alloc, ACCEPT, &text, (&[], &[]));
    let (words, line) = (field(rt, row, 1), field(rt, row, 2));
    same_bytes(rt, row, asked.status.line().as_slice(), words.as_bytes());
    same(rt, row, &asked.status.number(), &number_of(words));
    assert_line(rt, row, asked.out.bytes(), line);
    assert_unused(rt, row, &asked);
}

// What is written is the line and its end, or nothing.
fn assert_line(rt: &impl Abort, row: &str, written: &[u8], line: &str) {
    let front = written.strip_suffix(b"\n").unwrap_or(b"");
    same_bytes(rt, row, front, line.as_bytes());
    same(rt, row, &written.is_empty(), &line.is_empty());
}

#[test]
fn texts_are_accepted_or_refused(rt: HostRuntime) {
    for row in TEXTS.trim_matches('\n').lines() {
        assert_row(&rt, rt.alloc(), row);
    }
}

// The bytes of digits with one bit changed, as digits.
fn changed(rt: &impl Abort, alloc: Global, digits: &str, bit: usize) -> String {
    let mut bytes = hex::decode(alloc, digits).expect(rt, "memory");
    if let Some(byte) = bytes.get_mut(bit / 8) {
        *byte ^= 1 << (bit % 8);
    }
    hex::encode(alloc, bytes.as_slice()).expect(rt, "memory")
}

// What these digits come to, of a receipt and of a certificate.
fn accept<R: Threads + Wait + Sync + Abort>(
    rt: &R,
    alloc: Global,
    receipt: &str,
    certificate: &str,
) -> Asked {
    let text = format!(in alloc; "receipt {receipt}\ncertificate {certificate}\n").expect(
        rt, "memory",
    );
    ask(rt, alloc, ACCEPT, text.as_bytes(), (&[], &[]))
}

// A text is refused: because its tag isn't that of what it says, or because it says nothing.
fn assert_refused(rt: &impl Abort, bit: usize, asked: &Asked, is_read: bool) {
    if is_read {
        assert_ends(rt, "bit", bit, asked, b"not tagged\n", 11);
    } else {
        assert_ends(rt, "bit", bit, asked, b"", 6);
    }
}

// The digits of the receipt of the put, and those of the first certificate.
fn digits(rt: &impl Abort) -> (&'static str, &'static str) {
    let receipt = line_at(rt, REPORT, 2).strip_prefix("receipt ");
    let certificate = line_at(rt, REPORT, 5).strip_prefix("certificate ");
    match (receipt, certificate) {
        (Some(receipt), Some(certificate)) => (receipt, certificate),
        _ => panic!(rt; "lines that are none"),
    }
}

// The receipt is refused where this bit of it is changed.
fn assert_receipt_bit<R: Threads + Wait + Sync + Abort>(rt: &R, alloc: Global, bit: usize) {
    let (receipt, certificate) = digits(rt);
    let other = changed(rt, alloc, receipt, bit);
    let asked = accept(rt, alloc, &other, certificate);
    // The slow program reads no receipt in 31 of them: the 8 bits of its first byte, the 7 that make a get or a put
    // another command, and the 16 of the kind and of the length of its value.
    let is_read = !matches!(bit, 0..8 | 153..160 | 224..240);
    assert_refused(rt, bit, &asked, is_read);
}

#[test]
fn no_bit_of_a_receipt_may_change(rt: HostRuntime) {
    for bit in 0..8 * 64 {
        assert_receipt_bit(&rt, rt.alloc(), bit);
    }
}

// The certificate is refused where this bit of it is changed.
fn assert_certificate_bit<R: Threads + Wait + Sync + Abort>(rt: &R, alloc: Global, bit: usize) {
    let (receipt, certificate) = digits(rt);
    let other = changed(rt, alloc, certificate, bit);
    let asked = accept(rt, alloc, receipt, &other);
    // The slow program reads no certificate in 8 of them: the bits of its first byte.
    assert_refused(rt, bit, &asked, 8 <= bit);
}

#[test]
fn no_bit_of_a_certificate_may_change(rt: HostRuntime) {
    for bit in 0..8 * 41 {
        assert_certificate_bit(&rt, rt.alloc(), bit);
    }
}

// A text with the byte at this place as a capital.
fn with_capital(rt: &impl Abort, alloc: Global, text: &[u8], place: usize) -> Vec<u8> {
    let mut other = Vec::from_slice(alloc, text).expect(rt, "memory");
    if let Some(byte) = other.get_mut(place) {
        *byte = byte.to_ascii_uppercase();
    }
    other
}

// It is refused where that is another text.
fn assert_capital<R: Threads + Wait + Sync + Abort>(
    rt: &R,
    alloc: Global,
    text: &[u8],
    place: usize,
) {
    let other = with_capital(rt, alloc, text, place);
    let asked = ask(rt, alloc, ACCEPT, &other, (&[], &[]));
    if other.as_slice() == text {
        assert_ends(rt, "place", place, &asked, ACCEPTED.as_bytes(), 0);
    } else {
        assert_ends(rt, "place", place, &asked, b"", 6);
    }
}

#[test]
fn no_letter_may_be_a_capital(rt: HostRuntime) {
    let text = text_of(&rt, rt.alloc(), "P/C/");
    for place in 0..text.len() {
        assert_capital(&rt, rt.alloc(), &text, place);
    }
}
