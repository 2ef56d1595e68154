//! Bundles that are read from a source, header and frame by frame.
ghost use Rattle.std.specs.Prelude.{◌≡◌, ◌≢◌, true};

use crate::rows::{bytes_of, field, number, same, same_bytes};
use bundle_frames::{BundleReader, FrameBuffer, Next};
use fv_outside::{Failure, MemorySource};
use std::alloc::Global;
use std::fmt::Write;
use std::process::Abort;

// A header, a frame of three bytes, and one of two of another verifier.
const TWO_FRAMES: &str = "
46564231 0002 00000004 00000000 00ffffff
0001 00000003 010203
0000 00000002 0808
";

// Writes what came, a frame with this body, and answers whether more may come.
fn write_next(rt: &impl Abort, alloc: Global, words: &mut String, next: Next, body: &[u8]) -> bool
    ensures more { result ≡ true → next ≢ Next.End }
{
    match next {
        Next::Head(header) => write!(words, "head {}, ", header.verifiers).expect(rt, "memory"),
        Next::Frame(verifier) => {
            let digits = hex::encode(alloc, body).expect(rt, "memory");
            write!(words, "{verifier}:{digits}, ").expect(rt, "memory");
        }
        Next::End => return false,
    }
    true
}

// What comes of the source, in words, a frame with its body.
fn words_of(rt: &impl Abort, alloc: Global, limit: u64, source: &mut MemorySource) -> String {
    let mut words = String::new(alloc);
    if limit > 1000 {
        panic!(rt; "a high limit");
    }
    let mut reader = BundleReader::new(alloc, limit).expect(rt, "memory");
    for _ in 0..9 {
        let next = match reader.next(source) {
            Ok(next) => next,
            Err(Failure::ReadFault) => {
                words.push_str("fault").expect(rt, "memory");
                return words;
            }
            Err(Failure::InputLimit) => {
                words.push_str("limit").expect(rt, "memory");
                return words;
            }
            Err(_) => panic!(rt; "no failure of the source"),
        };
        let more = write_next(rt, alloc, &mut words, next, reader.body());
        if !more {
            match reader.bad() {
                Some(offset) => write!(words, "bad {offset}").expect(rt, "memory"),
                None => words.push_str("end").expect(rt, "memory"),
            }
            return words;
        }
    }
    panic!(rt; "more came")
}

// How many bytes of the bundle there are, the most that one read gives, which read fails, and the limit;
// then what comes, how many bytes are left, and how many reads failed.
const SOURCES: &str = "
35 | 99 | 99 | 1000 | head 2, 1:010203, 0:0808, end | 0 | 0
35 | 1 | 99 | 1000 | head 2, 1:010203, 0:0808, end | 0 | 0
35 | 7 | 99 | 35 | head 2, 1:010203, 0:0808, end | 0 | 0
35 | 99 | 99 | 34 | head 2, 1:010203, limit | 0 | 0
35 | 1 | 99 | 17 | limit | 17 | 0
34 | 5 | 99 | 1000 | head 2, 1:010203, bad 27 | 0 | 0
27 | 99 | 99 | 1000 | head 2, 1:010203, end | 0 | 0
17 | 99 | 99 | 1000 | bad 0 | 0 | 0
0 | 99 | 99 | 1000 | bad 0 | 0 | 0
35 | 9 | 2 | 1000 | head 2, fault | 17 | 1
35 | 9 | 0 | 1000 | fault | 35 | 1
35 | 35 | 1 | 1000 | head 2, 1:010203, 0:0808, fault | 0 | 1
";

// The source of a row, which gives a front of the bundle.
fn source_of(rt: &impl Abort, alloc: Global, row: &str) -> MemorySource {
    let bundle = bytes_of(rt, alloc, TWO_FRAMES);
    let kept: usize = number(rt, row, 0);
    let piece: usize = number(rt, row, 1);
    let fails: u64 = number(rt, row, 2);
    let bytes = bundle.get(..kept).expect(rt, "a short bundle");
    MemorySource::new(alloc, bytes, piece.max(1), &[fails]).expect(rt, "memory")
}

// What a row says comes of its source, and is left of it.
fn assert_source(rt: &impl Abort, alloc: Global, row: &str) {
    let mut source = source_of(rt, alloc, row);
    let words = words_of(rt, alloc, number(rt, row, 3), &mut source);
    same(rt, row, &words.as_str(), &field(rt, row, 4));
    same(rt, row, &source.left().len(), &number(rt, row, 5));
    same(rt, row, &source.faults(), &number(rt, row, 6));
}

#[test]
fn a_source_is_read_up_to_its_end_or_to_a_stop(rt: HostRuntime) {
    for row in SOURCES.trim().lines() {
        assert_source(&rt, rt.alloc(), row);
    }
}

// A header and a byte behind it, which are read one by one up to this limit; then what comes, and how many bytes are left.
const HEADERS: &str = "
46564233 0002 00000004 00000000 00ffffff 80 ff | 1000 | head 2, bad 19 | 0
46564233 0002 00000004 00000000 00ffffff 80 ff | 19 | head 2, limit | 0
46564233 0002 00000004 00000000 00ffffff 80 ff | 18 | limit | 1
46564233 0002 00000004 00000000 00ffffff 41 ff | 1000 | bad 0 | 1
46564233 0000 00000004 00000000 00ffffff 40 ff | 19 | bad 0 | 1
46564233 0000 00000004 00000000 00ffffff 40 ff | 18 | limit | 1
46564233 0000 00000004 00000000 00ffffff | 1000 | bad 0 | 0
46564232 0000 00000004 00000000 00ffffff ff | 18 | bad 0 | 1
46564333 0002 00000004 00000000 00ffffff ff | 18 | bad 0 | 1
";

// What a row says comes of its bytes.
fn assert_header(rt: &impl Abort, alloc: Global, row: &str) {
    let bytes = bytes_of(rt, alloc, field(rt, row, 0));
    let mut source = MemorySource::new(alloc, &bytes, 1, &[]).expect(rt, "memory");
    let words = words_of(rt, alloc, number(rt, row, 1), &mut source);
    same(rt, row, &words.as_str(), &field(rt, row, 2));
    same(rt, row, &source.left().len(), &number(rt, row, 3));
}

#[test]
fn no_more_is_read_than_the_header_has(rt: HostRuntime) {
    for row in HEADERS.trim().lines() {
        assert_header(&rt, rt.alloc(), row);
    }
}

// What is bad behind the first frame, and where.
const BAD: &str = "
0002 00000001 01 | head 2, 1:010203, bad 27
0000 00000000 0000 00000001 01 | head 2, 1:010203, bad 27
0000 00010001 01 | head 2, 1:010203, bad 27
";

// What a row says comes of the first frame and these bytes, in whatever pieces they are read.
fn assert_bad(rt: &impl Abort, alloc: Global, row: &str, bytes: &[u8]) {
    for piece in [1, 10, 1000] {
        let mut source = MemorySource::new(alloc, bytes, piece, &[]).expect(rt, "memory");
        let words = words_of(rt, alloc, 1000, &mut source);
        same(rt, row, &words.as_str(), &field(rt, row, 1));
    }
}

// The bundle up to its first frame, and the bytes of a row.
fn bad_bytes(rt: &impl Abort, alloc: Global, row: &str) -> Vec<u8> {
    let mut bytes = bytes_of(rt, alloc, TWO_FRAMES);
    bytes.truncate(27);
    let bad = bytes_of(rt, alloc, field(rt, row, 0));
    bytes.extend_from_slice(&bad).expect(rt, "memory");
    bytes
}

#[test]
fn nothing_comes_behind_what_is_bad(rt: HostRuntime) {
    for row in BAD.trim().lines() {
        assert_bad(&rt, rt.alloc(), row, &bad_bytes(&rt, rt.alloc(), row));
    }
}

// The frames that come of a source, each from a buffer that it was handed over to.
fn frames_of(
    rt: &impl Abort,
    alloc: Global,
    source: &mut MemorySource,
    frames: &mut [FrameBuffer],
) -> usize {
    let mut reader = BundleReader::new(alloc, 1000).expect(rt, "memory");
    let mut count = 0;
    for _ in 0..9 {
        match reader.next(source) {
            Ok(Next::Head(_)) => {}
            Ok(Next::Frame(_)) => {
                let frame = frames.get_mut(count).expect(rt, "too many frames");
                reader.hand_over(frame);
                if !reader.body().is_empty() {
                    panic!(rt; "a body is left");
                }
                count += 1;
            }
            Ok(Next::End) => return count,
            Err(_) => panic!(rt; "a stop"),
        }
    }
    panic!(rt; "more came")
}

// Both frames are handed over, where the bundle is read in pieces of this size.
fn assert_handed(rt: &impl Abort, alloc: Global, piece: usize, frames: &mut [FrameBuffer; 2]) {
    let bytes = bytes_of(rt, alloc, TWO_FRAMES);
    let mut source = MemorySource::new(alloc, &bytes, piece.max(1), &[]).expect(rt, "memory");
    let count = frames_of(rt, alloc, &mut source, frames);
    same(rt, "count", &count, &2);
    same_bytes(rt, "first", frames[0].body(), b"\x01\x02\x03");
    same_bytes(rt, "second", frames[1].body(), b"\x08\x08");
}

#[test]
fn frames_are_handed_over(rt: HostRuntime) {
    let mut frames = [
        FrameBuffer::new(rt.alloc()).expect(&rt, "memory"),
        FrameBuffer::new(rt.alloc()).expect(&rt, "memory"),
    ];
    assert_handed(&rt, rt.alloc(), 1000, &mut frames);
    assert_handed(&rt, rt.alloc(), 1, &mut frames);
}
