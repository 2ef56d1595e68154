//! A host's log: its bytes, in either version, and its frames.
ghost use Rattle.lamport_clocks.specs.Header.{IsHeader};

use crate::rows::{bytes_of, field, number, same, same_bytes};
use bundle_frames::write_header;
use bundle_rows::{command_of, log_of};
use fv_outside::{Failed, MemorySink};
use host_log::{LogBuffer, frames};
use lamport_clocks::Header;
use log_codec::CommandText;
use slot_rewriting::CommandWriter;
use std::alloc::Global;
use std::process::Abort;

// What a host of one verifier and two shards writes for an empty script: a header, and two frames.
const SETUP: &str = "
46564231 0001 00000080 00000000 00ffffff
0000 00000060
01 01 0000000000000000 00 00 00 0000000000000000
05 01 0000000000000000 00 0000000000000000 00000000 00000001
01 01 8000000000000000 00 00 00 0000000000000000
05 01 8000000000000000 00 0000000000000000 00000000 00000002
0000 00000052
08
03 01 0000000000000000 00 00 00000000 00000001 0000
04 01 0000000000000000 00000001 00000002
03 01 8000000000000000 00 00 00000000 00000002 0000
04 01 8000000000000000 00000001 00000004
08
";

// Its header.
fn setup_header() -> Header {
    Header::by_path(1, 128, 0, 16_777_215)
}

// Its commands: those of the first round, and those of the last close.
const FIRST_ROUND: &str = "
addM /0 initial root
evictBM /0 root 0.1
addM /1 initial root
evictBM /1 root 0.2
";

const LAST_CLOSE: &str = "
next
addB /0 initial 0.1 v0
evictB /0 1.2
addB /1 initial 0.2 v0
evictB /1 1.4
next
";

// The commands of both, by slots.
const BY_SLOTS: &str = "
addM s1 /0 initial s0
evictBM s1 s0 0.1
addM s1 /1 initial s0
evictBM s1 s0 0.2
next
addB s1 /0 initial 0.1 v0
evictB s1 1.2
addB s1 /1 initial 0.2 v0
evictB s1 1.4
next
";

// Adds the commands of rows, as this writer writes them.
pub(crate) fn write_rows(
    rt: &impl Abort,
    writer: &mut CommandWriter,
    log: &mut LogBuffer,
    rows: &str,
) {
    let mut text = CommandText::new();
    for row in rows.trim().lines() {
        let command = command_of(row).expect(rt, "a row of no command");
        writer.write(&command, &mut text);
        log.push(text.as_slice()).expect(rt, "memory");
    }
}

// Adds the commands of rows, as they name paths.
fn push_rows(rt: &impl Abort, log: &mut LogBuffer, rows: &str) {
    let mut writer = CommandWriter::ByPath;
    write_rows(rt, &mut writer, log, rows);
}

// Writes the commands of rows as frames of verifier 0, once the log has handed them to another buffer.
fn write_round(
    rt: &impl Abort,
    log: &mut LogBuffer,
    taken: &mut LogBuffer,
    rows: &str,
    sink: &mut MemorySink,
) {
    push_rows(rt, log, rows);
    log.hand_over(taken);
    same(rt, rows, &log.bytes().len(), &0);
    same(rt, rows, &frames(0, taken.bytes(), sink), &Ok(()));
}

#[test]
fn the_rounds_of_an_empty_script_are_its_bundle(rt: HostRuntime) {
    let bundle = bytes_of(&rt, rt.alloc(), SETUP);
    let mut sink = MemorySink::new(rt.alloc(), 1000, 50, &[]).expect(&rt, "memory");
    let header = write_header(&setup_header(), &mut sink);
    same(&rt, "header", &header, &Ok(()));
    let mut log = LogBuffer::new(rt.alloc());
    let mut taken = LogBuffer::new(rt.alloc());
    write_round(&rt, &mut log, &mut taken, FIRST_ROUND, &mut sink);
    write_round(&rt, &mut log, &mut taken, "", &mut sink);
    write_round(&rt, &mut log, &mut taken, LAST_CLOSE, &mut sink);
    same_bytes(&rt, "bundle", sink.bytes(), &bundle);
}

// A log has the bytes of a bundle from one place up to another.
fn assert_log(rt: &impl Abort, label: &str, log: &LogBuffer, bundle: &[u8], part: (usize, usize)) {
    let (from, to) = part;
    let wanted = bundle.get(from..to).expect(rt, "a short bundle");
    same_bytes(rt, label, log.bytes(), wanted);
}

#[test]
fn a_buffer_goes_on_when_it_was_emptied(rt: HostRuntime) {
    let bundle = bytes_of(&rt, rt.alloc(), SETUP);
    let mut log = LogBuffer::new(rt.alloc());
    push_rows(&rt, &mut log, FIRST_ROUND);
    assert_log(&rt, "first", &log, &bundle, (24, 120));
    log.clear();
    same_bytes(&rt, "clear", log.bytes(), b"");
    push_rows(&rt, &mut log, LAST_CLOSE);
    let mut taken = LogBuffer::of(rt.alloc(), b"what it held").expect(&rt, "memory");
    log.hand_over(&mut taken);
    assert_log(&rt, "last", &taken, &bundle, (126, 208));
    same_bytes(&rt, "hand_over", log.bytes(), b"");
    push_rows(&rt, &mut log, FIRST_ROUND);
    assert_log(&rt, "again", &log, &bundle, (24, 120));
}

// The header of the same host's bundle where its commands name slots.
fn header_by_slots() -> Header
    ensures good { IsHeader result }
{
    Header {
        version: 2,
        verifiers: 1,
        cache: 128,
        first: 0,
        end: 16_777_215,
        bits: 64,
    }
}

#[test]
fn a_log_by_slots_leaves_out_what_names_none(rt: HostRuntime) {
    let header = header_by_slots();
    let mut writer = CommandWriter::new(rt.alloc(), 0, &header).expect(&rt, "memory");
    let mut log = LogBuffer::new(rt.alloc());
    write_rows(&rt, &mut writer, &mut log, FIRST_ROUND);
    write_rows(&rt, &mut writer, &mut log, "get 5 6162");
    write_rows(&rt, &mut writer, &mut log, LAST_CLOSE);
    let wanted = log_of(rt.alloc(), BY_SLOTS.trim()).expect(&rt, "rows of no log");
    same_bytes(&rt, "by slots", log.bytes(), &wanted);
}

// So many bytes, and the heads of the frames in which they are written for verifier 258.
const FRAMES: &str = "
0 |
1 | 0102 00000001
65535 | 0102 0000ffff
65536 | 0102 00010000
65537 | 0102 00010000, 0102 00000001
131072 | 0102 00010000, 0102 00010000
131073 | 0102 00010000, 0102 00010000, 0102 00000001
";

// So many bytes: 0 to 250, over and over.
fn some_bytes(rt: &impl Abort, alloc: Global, count: usize) -> Vec<u8> {
    let mut bytes = Vec::new(alloc);
    for place in 0..count {
        bytes.push((place % 251) as u8).expect(rt, "memory");
    }
    bytes
}

// The frames of these bytes with these heads.
fn frames_with(rt: &impl Abort, alloc: Global, heads: &str, bytes: &[u8]) -> Vec<u8> {
    let mut frames = Vec::new(alloc);
    let mut rest = bytes;
    for head in heads.split(',') {
        frames
            .extend_from_slice(&bytes_of(rt, alloc, head))
            .expect(rt, "memory");
        let (body, behind) = rest.split_at(rest.len().min(65_536));
        frames.extend_from_slice(body).expect(rt, "memory");
        rest = behind;
    }
    frames
}

// The bytes of a row are written as frames with its heads.
fn assert_frames(rt: &impl Abort, alloc: Global, row: &str) {
    let bytes = some_bytes(rt, alloc, number(rt, row, 0));
    let wanted = frames_with(rt, alloc, field(rt, row, 1), &bytes);
    let mut sink = MemorySink::new(alloc, 200_000, 30_000, &[]).expect(rt, "memory");
    same(rt, row, &frames(258, &bytes, &mut sink), &Ok(()));
    same(rt, row, &(sink.bytes() == wanted.as_slice()), &true);
}

#[test]
fn frames_have_at_most_65536_bytes(rt: HostRuntime) {
    for row in FRAMES.trim().lines() {
        assert_frames(&rt, rt.alloc(), row);
    }
}

#[test]
fn where_a_write_fails_a_front_was_written(rt: HostRuntime) {
    let bytes = some_bytes(&rt, rt.alloc(), 65_537);
    let wanted = frames_with(&rt, rt.alloc(), "0102 00010000", &bytes);
    // The head and the body of the first frame are written, and then the head of the second fails.
    let mut sink = MemorySink::new(rt.alloc(), 200_000, 100_000, &[2]).expect(&rt, "memory");
    same(&rt, "answer", &frames(258, &bytes, &mut sink), &Err(Failed));
    same(&rt, "front", &(sink.bytes() == wanted.as_slice()), &true);
}
