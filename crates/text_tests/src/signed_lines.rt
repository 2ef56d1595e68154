//! Lines that a client signs, with tags that Python's `hmac` computed, and lines that are refused.
use record_hash::ShaDigests;
use record_text::Cause;
use script_text::{ScriptFault, sign_lines};
use std::alloc::Global;
use std::process::Abort;

// A key; a client; the bits of its keys; what it signs, and the line that this is then.
const LINES: &str = "
cd29ae65ff58d1f184894f39474a0366 | 1 | 64 | 5 put 5 61 | 1 5 45897b8617de906730a1a004cb45d3e8086736dc95193f32db81750f0ac3e986 put 5 61
4f0e7875a7c2170f60596951ead1162b | 65535 | 64 | 1000000000000000000 get 0 | 65535 1000000000000000000 71af8d8319f05b084fb0bdca036c535b164241ce0020d1fdf13fbad4603b6289 get 0
4f0e7875a7c2170f60596951ead1162b | 65535 | 64 | 1000000000000000001 del 18446744073709551615 | 65535 1000000000000000001 c0e30716a26273824a22c4e57ff6b56e54aaa4ae088ae720e8e811e304a5742a del 18446744073709551615
35a8d3b400b8e38ca134305207afe98fa92c31510e15788ad6aa1c1bb5161af4850b2178dd9fce6f5cdeac1000937c1ca9b1f4af110c24ae35e7f60f302074b7 | 65535 | 128 | 1 get 0 | 65535 1 9496557a7e413e6eac2c10313f6f7aa5b2ca01488d10be0f4f63c62c8dab8a99 get 0
35a8d3b400b8e38ca134305207afe98fa92c31510e15788ad6aa1c1bb5161af4850b2178dd9fce6f5cdeac1000937c1ca9b1f4af110c24ae35e7f60f302074b7 | 65535 | 128 | 3 del 0 | 65535 3 d4da803f2c094d2246eb213c4b8723c85f1eb748811deae1a43e46ee156601a8 del 0
";

// What a client of keys of 64 bits is to sign, each line behind a slash, and which line is refused and why.
const REFUSED: &str = "
epoch | 1 Shape
5 | 1 Shape
5 get | 1 Shape
5 got 5 | 1 Shape
5 get 5 61 | 1 Shape
5 get 5/6 put 5 | 2 Shape
5 put 5 61 62 | 1 Shape
0 get 5 | 1 Number
05 get 5 | 1 Number
-5 get 5 | 1 Number
18446744073709551616 get 5 | 1 Number
5 get 5/5 get 5 | 2 Number
5 get 5/4 put 5 6 | 2 Number
5 get 05 | 1 Key
5 put 18446744073709551616 6 | 1 Key
5 put 5 6 | 1 Hex
5 put 5 6A | 1 Hex
18446744073709551615 get 5/18446744073709551615 get 5 | 2 Number
";

// The field of a row at this place, counted from 0.
fn field<'a>(rt: &impl Abort, row: &'a str, place: usize) -> &'a str {
    let text = row.split('|').nth(place);
    text.expect(rt, "a row with too few fields").trim()
}

// The digests under the key of a row.
fn digests_of(rt: &impl Abort, alloc: Global, row: &str) -> ShaDigests {
    let key = hex::decode(alloc, field(rt, row, 0)).expect(rt, "memory");
    ShaDigests::new(&key)
}

#[test]
fn a_line_is_signed_by_its_client(rt: HostRuntime) {
    for row in LINES.trim().lines() {
        let client = field(&rt, row, 1).parse::<u32>().expect(&rt, "a client");
        let wide = field(&rt, row, 2) == "128";
        let line = field(&rt, row, 3).as_bytes();
        let signed = sign_lines(
            rt.alloc(),
            &digests_of(&rt, rt.alloc(), row),
            wide,
            client,
            line,
        );
        let signed = signed.expect(&rt, "memory");
        let text = std::str::from_utf8(&signed).expect(&rt, "no text");
        assert_eq!(rt; text.trim(), field(&rt, row, 4), "{row}");
    }
}

#[test]
fn the_first_line_that_is_none_is_named(rt: HostRuntime) {
    let digests = ShaDigests::new(b"0123456789abcdef");
    for row in REFUSED.trim().lines() {
        let script = field(&rt, row, 0)
            .replace(rt.alloc(), "/", "\n")
            .expect(&rt, "memory");
        let found = match sign_lines(rt.alloc(), &digests, false, 1, script.as_bytes()) {
            Err(ScriptFault::BadScript { line, cause }) => {
                format!(in rt.alloc(); "{line} {}", cause.name()).expect(&rt, "memory")
            }
            _ => format!(in rt.alloc(); "none").expect(&rt, "memory"),
        };
        assert_eq!(rt; found.as_str(), field(&rt, row, 1), "{row}");
    }
}

#[test]
fn a_line_of_768_bytes_is_the_longest(rt: HostRuntime) {
    let digests = ShaDigests::new(b"0123456789abcdef");
    let mut line = [b'1'; 769];
    line[..8].copy_from_slice(b"5 put 5 ");
    for (len, wanted) in [(768, Cause::Hex), (769, Cause::Shape)] {
        match sign_lines(rt.alloc(), &digests, false, 1, &line[..len]) {
            Err(ScriptFault::BadScript { line, cause }) => {
                assert_eq!(rt; line, 1);
                assert_eq!(rt; cause, wanted);
            }
            _ => panic!(rt; "a line of {len} bytes is signed"),
        }
    }
}
