//! Bundles that were written out by hand, as a whole and in pieces.
ghost use Rattle.std.specs.Prelude.{◌≡◌, ◌<◌, ◌≤◌, ◌+◌, length, IfOk};
ghost use Rattle.std.specs.List.{flat_map};
ghost use Rattle.bundle_frames.specs.Progress.{position};

use crate::rows::{bytes_of, field, number, same, same_bytes};
use base_words::Memory;
use bundle_frames::{Fed, Found, Splitter, WholeBundle, read_pieces, write_frame, write_header};
use fv_outside::{Failed, MemorySink};
use lamport_clocks::Header;
use std::alloc::Global;
use std::process::Abort;

// What a host of one verifier and two shards writes for an empty script: a header, and two frames.
const SETUP: &str = "
46564231 0001 00000080 00000000 00ffffff
0000 00000060
01 01 0000000000000000 00 00 00 0000000000000000
05 01 0000000000000000 00 0000000000000000 00000000 00000001
01 01 8000000000000000 00 00 00 0000000000000000
05 01 8000000000000000 00 0000000000000000 00000000 00000002
0000 00000052
08
03 01 0000000000000000 00 00 00000000 00000001 0000
04 01 0000000000000000 00000001 00000002
03 01 8000000000000000 00 00 00000000 00000002 0000
04 01 8000000000000000 00000001 00000004
08
";

// One key is added, put, evicted, added again and read.
const ONE_KEY: &str = "
46564231 0001 00000004 00000000 00ffffff
0000 0000005c
01 40 0000000000000005 00 00 0000000000000000
07 40 0000000000000005 01 02 6162
02 40 0000000000000005 00 0000000000000000
01 40 0000000000000005 01 02 6162 00 0000000000000000
06 40 0000000000000005 01 02 6162
08
08
";

// Its header.
fn one_key_header() -> Header {
    Header::by_path(1, 4, 0, 16_777_215)
}

// The bytes in pieces of a size.
fn cut(alloc: Global, bytes: &[u8], size: usize) -> Result<Vec<Vec<u8>>, Memory>
    requires some { 0 < size }
    ensures whole { IfOk result
        (λ pieces. flat_map (λ piece. piece.items) pieces.items ≡ bytes.now) }
{
    let mut pieces = Vec::new(alloc);
    let mut rest = bytes;
    while !rest.is_empty() {
        let size = size.min(rest.len());
        let (piece, more) = rest.split_at(size);
        pieces.push(Vec::from_slice(alloc, piece)?)?;
        rest = more;
    }
    Ok(pieces)
}

// The bundle that is read where its bytes come in pieces of a size.
fn read(rt: &impl Abort, alloc: Global, bytes: &[u8], size: usize) -> WholeBundle
    requires some { 0 < size }
{
    if bytes.len() >= 1 << 20 {
        panic!(rt; "a long bundle");
    }
    let pieces = cut(alloc, bytes, size).expect(rt, "memory");
    read_pieces(alloc, &pieces).expect(rt, "memory")
}

// The part of a text from one place up to another.
fn part<'a>(rt: &impl Abort, bytes: &'a [u8], from: usize, to: usize) -> &'a [u8]
    ensures sized { from + length result.now ≡ to }
{
    bytes.get(from..to).expect(rt, "a short text")
}

// A frame of verifier 0 has this body.
fn assert_frame(rt: &impl Abort, bundle: &WholeBundle, place: usize, body: &[u8]) {
    let frame = bundle.frames.get(place).expect(rt, "no frame");
    same(rt, "frame.verifier", &frame.verifier, &0);
    same_bytes(rt, "frame.body", &frame.body, body);
}

// The bundle is read in pieces of this size with this header, and so many frames.
fn assert_read(rt: &impl Abort, bundle: &WholeBundle, header: Header, frames: usize) {
    same(rt, "bundle.header", &bundle.header, &Some(header));
    same(rt, "bundle.bad", &bundle.bad, &None);
    same(rt, "bundle.frames.len()", &bundle.frames.len(), &frames);
}

// The header of the setup.
fn setup_header() -> Header {
    Header::by_path(1, 128, 0, 16_777_215)
}

// The bundle of the setup in pieces of a size.
fn assert_setup(rt: &impl Abort, alloc: Global, bytes: &[u8], size: usize)
    requires some { 0 < size }
{
    let setup = read(rt, alloc, bytes, size);
    assert_read(rt, &setup, setup_header(), 2);
    assert_frame(rt, &setup, 0, part(rt, bytes, 24, 120));
    assert_frame(rt, &setup, 1, part(rt, bytes, 126, 208));
}

#[test]
fn bundles_are_read_however_they_are_cut(rt: HostRuntime) {
    let bytes = bytes_of(&rt, rt.alloc(), SETUP);
    same(&rt, "bytes.len()", &bytes.len(), &208);
    assert_setup(&rt, rt.alloc(), &bytes, 208);
    assert_setup(&rt, rt.alloc(), &bytes, 7);
    assert_setup(&rt, rt.alloc(), &bytes, 1);
}

// The bundle of one key in pieces of a size.
fn assert_one_key(rt: &impl Abort, alloc: Global, bytes: &[u8], size: usize)
    requires some { 0 < size }
{
    let bundle = read(rt, alloc, bytes, size);
    assert_read(rt, &bundle, one_key_header(), 1);
    assert_frame(rt, &bundle, 0, part(rt, bytes, 24, 116));
}

#[test]
fn a_bundle_of_one_frame_is_read_however_it_is_cut(rt: HostRuntime) {
    let bytes = bytes_of(&rt, rt.alloc(), ONE_KEY);
    same(&rt, "bytes.len()", &bytes.len(), &116);
    assert_one_key(&rt, rt.alloc(), &bytes, 208);
    assert_one_key(&rt, rt.alloc(), &bytes, 7);
    assert_one_key(&rt, rt.alloc(), &bytes, 1);
}

// Feeds the bytes up to the first answer, and then the rest.
fn answers(rt: &impl Abort, alloc: Global, bytes: &[u8]) -> (Fed, Fed, Option<u64>) {
    if bytes.len() >= 1 << 20 {
        panic!(rt; "a long bundle");
    }
    let mut splitter = Splitter::new(alloc).expect(rt, "memory");
    let first = splitter.feed(bytes);
    let second = splitter.feed(&bytes[first.taken..]);
    (first, second, splitter.end())
}

#[test]
fn a_cut_is_where_the_header_or_frame_begins(rt: HostRuntime) {
    let bytes = bytes_of(&rt, rt.alloc(), ONE_KEY);
    for size in 0..117 {
        let (_, _, end) = answers(&rt, rt.alloc(), part(&rt, &bytes, 0, size));
        let wanted = match size {
            0..=17 => Some(0),
            18 | 116 => None,
            _ => Some(18),
        };
        same(&rt, "end", &end, &wanted);
    }
}

// The header in place of that of the bundle with one key, and why it is bad. All of its bytes are taken.
const BAD_HEADERS: &str = "
46564231 0000 00000004 00000000 00000001 | no verifier
46564231 0041 00000004 00000000 00000001 | 65 verifiers
46564231 0001 00000003 00000000 00000001 | a cache of 3
46564231 0001 00010001 00000000 00000001 | a cache of 65,537
46564231 0001 00000004 00000000 00000000 | an end of 0
46564231 0001 00000004 00000000 01000000 | an end of 16,777,216
46564230 0001 00000004 00000000 00000001 | version 0
46564234 0001 00000004 00000000 00000001 | version 4
4656422f 0001 00000004 00000000 00000001 | no digit
46564201 0001 00000004 00000000 00000001 | a version that is no digit
46564331 0001 00000004 00000000 00000001 | another prefix
46564333 0001 00000004 00000000 00000001 | another prefix, of 18 bytes before any digit
46564233 0001 00000004 00000000 00000001 41 | keys of 65 bits
46564233 0001 00000004 00000000 00000001 00 | keys of no bits
46564233 0001 00000004 00000000 00000001 3f | keys of 63 bits
46564233 0001 00000004 00000000 00000001 7f | keys of 127 bits
46564233 0001 00000004 00000000 00000001 81 | keys of 129 bits
46564233 0000 00000004 00000000 00000001 80 | no verifier, in version 3
46564233 0041 00000004 00000000 00000001 40 | 65 verifiers, in version 3
46564233 0001 00000003 00000000 00000001 40 | a cache of 3, in version 3
46564233 0001 00010001 00000000 00000001 80 | a cache of 65,537, in version 3
46564233 0001 00000004 00000000 00000000 80 | an end of 0, in version 3
46564233 0001 00000004 00000000 01000000 40 | an end of 16,777,216, in version 3
";

// An answer that is bad at this offset, once so many bytes were taken.
fn bad(taken: usize, offset: u64) -> Fed {
    Fed {
        taken,
        found: Found::Bad(offset),
    }
}

// The bundle with the header of a row is bad.
fn assert_bad_header(rt: &impl Abort, alloc: Global, row: &str) {
    let mut bundle = bytes_of(rt, alloc, field(rt, row, 0));
    let taken = bundle.len();
    let bytes = bytes_of(rt, alloc, ONE_KEY);
    let rest = part(rt, &bytes, 18, 116);
    bundle.extend_from_slice(rest).expect(rt, "memory");
    let found = answers(rt, alloc, &bundle);
    same(rt, row, &found, &(bad(taken, 0), bad(0, 0), Some(0)));
    let by_bytes = read(rt, alloc, &bundle, 1);
    same(rt, row, &by_bytes.header, &None);
    same(rt, row, &by_bytes.bad, &Some(0));
}

#[test]
fn headers_out_of_range_are_bad(rt: HostRuntime) {
    for row in BAD_HEADERS.trim().lines() {
        assert_bad_header(&rt, rt.alloc(), row);
    }
}

// A header, its four numbers, its version, and the bits of a key.
const GOOD_HEADERS: &str = "
46564231 0001 00000004 00000000 00000001 | 1 | 4 | 0 | 1 | 1 | 64
46564231 0040 00010000 ffffffff 00ffffff | 64 | 65536 | 4294967295 | 16777215 | 1 | 64
46564232 0001 00000004 00000000 00000001 | 1 | 4 | 0 | 1 | 2 | 64
46564233 0001 00000004 00000000 00000001 40 | 1 | 4 | 0 | 1 | 3 | 64
46564233 0001 00000004 00000000 00000001 80 | 1 | 4 | 0 | 1 | 3 | 128
46564233 0040 00010000 ffffffff 00ffffff 80 | 64 | 65536 | 4294967295 | 16777215 | 3 | 128
";

// The header of a row.
fn header_of(rt: &impl Abort, row: &str) -> Header {
    Header {
        version: number(rt, row, 5),
        verifiers: number(rt, row, 1),
        cache: number(rt, row, 2),
        first: number(rt, row, 3),
        end: number(rt, row, 4),
        bits: number(rt, row, 6),
    }
}

// The header of a row is read from these bytes, at once and one by one, and is cut where any is left out.
fn assert_good_header(rt: &impl Abort, alloc: Global, row: &str, text: &[u8]) {
    let (fed, _, bad) = answers(rt, alloc, text);
    let header = header_of(rt, row);
    same(rt, row, &fed.found, &Found::Head(header));
    same(rt, row, &fed.taken, &text.len());
    same(rt, row, &bad, &None);
    assert_read(rt, &read(rt, alloc, text, 1), header, 0);
    for size in 0..text.len() {
        let short = read(rt, alloc, part(rt, text, 0, size), 1);
        same(rt, row, &short.header, &None);
        same(rt, row, &short.bad, &Some(0));
    }
}

#[test]
fn headers_at_the_ends_of_the_ranges_are_good(rt: HostRuntime) {
    for row in GOOD_HEADERS.trim().lines() {
        let text = bytes_of(&rt, rt.alloc(), field(&rt, row, 0));
        assert_good_header(&rt, rt.alloc(), row, &text);
    }
}

#[test]
fn headers_are_written(rt: HostRuntime) {
    for row in GOOD_HEADERS.trim().lines() {
        let mut sink = MemorySink::new(rt.alloc(), 30, 10, &[]).expect(&rt, "memory");
        let answer = write_header(&header_of(&rt, row), &mut sink);
        same(&rt, row, &answer, &Ok(()));
        let text = bytes_of(&rt, rt.alloc(), field(&rt, row, 0));
        same_bytes(&rt, row, sink.bytes(), &text);
    }
}

// A header of version 3 with keys of 128 bits, and two frames.
const LONG_KEYS: &str = "
46564233 0001 00000100 00000007 00ffffff 80
0000 00000003 010203
0000 00000001 08
";

// The bundle of version 3 in pieces of a size.
fn assert_long_keys(rt: &impl Abort, alloc: Global, bytes: &[u8], size: usize)
    requires some { 0 < size }
{
    let header = Header {
        version: 3,
        verifiers: 1,
        cache: 256,
        first: 7,
        end: 16_777_215,
        bits: 128,
    };
    let bundle = read(rt, alloc, bytes, size);
    assert_read(rt, &bundle, header, 2);
    assert_frame(rt, &bundle, 0, b"\x01\x02\x03");
    assert_frame(rt, &bundle, 1, b"\x08");
}

#[test]
fn a_bundle_of_version_3_is_read_however_it_is_cut(rt: HostRuntime) {
    let bytes = bytes_of(&rt, rt.alloc(), LONG_KEYS);
    same(&rt, "bytes.len()", &bytes.len(), &35);
    assert_long_keys(&rt, rt.alloc(), &bytes, 35);
    assert_long_keys(&rt, rt.alloc(), &bytes, 4);
    assert_long_keys(&rt, rt.alloc(), &bytes, 1);
}

#[test]
fn a_bundle_of_version_3_is_cut_behind_19_bytes(rt: HostRuntime) {
    let bytes = bytes_of(&rt, rt.alloc(), LONG_KEYS);
    for size in 0..36 {
        let short = read(&rt, rt.alloc(), part(&rt, &bytes, 0, size), 1);
        let wanted = match size {
            0..=18 => Some(0),
            19 | 28 | 35 => None,
            20..=27 => Some(19),
            _ => Some(28),
        };
        same(&rt, "short.bad", &short.bad, &wanted);
    }
}

// A splitter that was fed the header of the bundle of one key.
fn behind_header(rt: &impl Abort, alloc: Global) -> Splitter
    ensures position { position result ≤ 18 }
{
    let bytes = bytes_of(rt, alloc, ONE_KEY);
    let mut splitter = Splitter::new(alloc).expect(rt, "memory");
    let _ = splitter.feed(part(rt, &bytes, 0, 18));
    splitter
}

// The head of a frame behind a first one is bad.
fn assert_bad_frame(rt: &impl Abort, alloc: Global, head: &[u8; 6], why: &str) {
    let mut splitter = behind_header(rt, alloc);
    let frame = splitter.feed(b"\x00\x00\x00\x00\x00\x01\x08");
    same(rt, "frame.found", &frame.found, &Found::Frame(0));
    same(rt, why, &splitter.feed(head), &bad(6, 25));
    same(rt, why, &splitter.feed(head), &bad(0, 25));
    same(rt, "splitter.end()", &splitter.end(), &Some(25));
}

#[test]
fn frames_out_of_range_are_bad(rt: HostRuntime) {
    let (other, none, long) = (
        b"\x00\x01\x00\x00\x00\x01",
        b"\x00\x00\x00\x00\x00\x00",
        b"\x00\x00\x00\x01\x00\x01",
    );
    assert_bad_frame(&rt, rt.alloc(), other, "verifier 1 of 1");
    assert_bad_frame(&rt, rt.alloc(), none, "no bytes");
    assert_bad_frame(&rt, rt.alloc(), long, "65,537 bytes");
}

#[test]
fn the_longest_frame_is_good(rt: HostRuntime) {
    let body = vec![in rt.alloc(); 7u8; 65_536].expect(&rt, "memory");
    let mut splitter = behind_header(&rt, rt.alloc());
    let _ = splitter.feed(b"\x00\x00\x00\x01\x00\x00");
    let fed = splitter.feed(&body);
    same(&rt, "fed.found", &fed.found, &Found::Frame(0));
    same_bytes(&rt, "splitter.body()", splitter.body(), body.as_slice());
}

// What a sink with this room holds behind the header and the frame of one key, where the frame's write has this answer.
fn written(rt: &impl Abort, alloc: Global, room: usize, answer: Result<(), Failed>) -> MemorySink {
    let bytes = bytes_of(rt, alloc, ONE_KEY);
    let mut sink = MemorySink::new(alloc, room, 10, &[]).expect(rt, "memory");
    let header = write_header(&one_key_header(), &mut sink);
    same(rt, "write_header", &header, &Ok(()));
    let frame = write_frame(0, part(rt, &bytes, 24, 116), &mut sink);
    same(rt, "write_frame", &frame, &answer);
    sink
}

#[test]
fn bundles_are_written(rt: HostRuntime) {
    let bytes = bytes_of(&rt, rt.alloc(), ONE_KEY);
    let whole = written(&rt, rt.alloc(), 200, Ok(()));
    same_bytes(&rt, "whole", whole.bytes(), &bytes);
    let small = written(&rt, rt.alloc(), 30, Err(Failed));
    same_bytes(&rt, "small", small.bytes(), part(&rt, &bytes, 0, 30));
}
