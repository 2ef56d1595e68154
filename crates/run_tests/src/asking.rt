//! The program, asked between objects in memory, what it must leave, and reports whose lines it takes again.
//!
//! What must be is said by a call: a comparison that stands in a test costs far more to prove, the more is alive there.
use crate::serving::{counter_that_fails, words_of};
use fastver_top::{Status, fastver};
use fv_outside::{FreeGate, MemorySink, MemorySource, MemoryVault};
use std::alloc::Global;
use std::fmt::Debug;
use std::process::Abort;
use std::sync::Wait;
use std::thread::Threads;

/// The words of an acceptance.
pub(crate) const ACCEPT: &str = "fastver accept --key 00000000000000000000000000000000";

/// What is written where the receipt of the put is accepted.
pub(crate) const ACCEPTED: &str = "accepted 0.3 v0 put 5 6162\n";

/// The words of a run of one worker over two shards.
pub(crate) const RUN: &str =
    "fastver run --verifiers 1 --shards 2 --receipts --key 00000000000000000000000000000000";

/// A put and a get of one key, and a get in the next epoch.
pub(crate) const SCRIPT: &str = "0 put 5 6162\n0 get 5\nepoch\n0 get 5\n";

/// Its report with receipts. The lines are counted from 0.
pub(crate) const REPORT: &str = "\
epoch 0 certified 2
0.3 v0 put 5 6162
receipt 0100000000000000030000000000000000000607000000000000000501026162ac51fb70250d0b223d2e4761dd97884b0acded9052db66085942bb4b765bd2c6
0.5 v0 get 5 6162
receipt 0100000000000000050000000000000000000b060000000000000005010261620d0f6f122c00f935c49264f74d5ef9de0477d9a78840a0da73bf339770c62efa
certificate 020000000000000000d9f6d832690ffe03b32ea0ea7d73a6896c7900651a4f0ee61aa7a1392b0e6348
epoch 1 certified 1
1.5 v0 get 5 6162
receipt 010000000100000005000000000000000000150600000000000000050102616258e1134893c0ebb0e9406724f080f6bba4860ed4135ef051be8791e86da87a5c
certificate 020000000000000001abc75544db9d545ef7a210973b84dddf2776d0c086c421a2128f921e458375ae
done 2
";

/// The report with receipts of its first two lines under another key, sixteen bytes 11.
pub(crate) const OTHER_REPORT: &str = "\
epoch 0 certified 2
0.3 v0 put 5 6162
receipt 01000000000000000300000000000000000006070000000000000005010261623b421e6692dbcc30b8f63dad2291b901e7d903812e7f2e112e96adf7dc0074da
0.5 v0 get 5 6162
receipt 0100000000000000050000000000000000000b06000000000000000501026162dee27f9796807267aa38f356209312de4156f671a3cea0bb5e1db4e7cd83dbf8
certificate 020000000000000000dfd55fb874a6d942b6985ae390691953e03c098e7b42f3871f8eb84899851b96
done 1
";

/// What the program leaves, and its status.
#[derive(Drop)]
pub(crate) struct Asked {
    pub out: MemorySink,
    pub vault: MemoryVault,
    pub status: Status,
}

/// How bytes are read and texts are written.
#[derive(Clone, Copy)]
pub(crate) struct Way<'a> {
    /// How many bytes a read gives at most, and how many a write takes.
    pub read: usize,
    pub write: usize,
    /// How many bytes the sink has room for, and the vault.
    pub sink_room: usize,
    pub vault_room: usize,
    /// The numbers of the reads and of the writes that fail.
    pub fails: (&'a [u64], &'a [u64]),
}

// A source of these bytes, and a sink.
fn objects(
    rt: &impl Abort,
    alloc: Global,
    bytes: &[u8],
    way: Way<'_>,
) -> (MemorySource, MemorySink) {
    let (reads, writes) = way.fails;
    let source = MemorySource::new(alloc, bytes, way.read.max(1), reads).expect(rt, "memory");
    let out = MemorySink::new(alloc, way.sink_room, way.write.max(1), writes).expect(rt, "memory");
    (source, out)
}

/// What is there behind the program with the words of a line, over these bytes.
pub(crate) fn ask_by<R: Threads + Wait + Sync + Abort>(
    rt: &R,
    alloc: Global,
    line: &str,
    bytes: &[u8],
    way: Way<'_>,
) -> Asked {
    let words = words_of(rt, alloc, line);
    let (mut source, mut out) = objects(rt, alloc, bytes, way);
    let mut vault = MemoryVault::new(alloc, way.vault_room, way.write.max(1), &[]).expect(
        rt, "memory",
    );
    let mut counter = counter_that_fails(rt, alloc);
    let status = fastver(
        rt,
        alloc,
        &words,
        &mut source,
        &mut out,
        &mut vault,
        &FreeGate,
        &mut counter,
    );
    Asked { out, vault, status }
}

/// The same, all byte by byte. The reads and the writes of these numbers fail.
pub(crate) fn ask<R: Threads + Wait + Sync + Abort>(
    rt: &R,
    alloc: Global,
    line: &str,
    bytes: &[u8],
    fails: (&[u64], &[u64]),
) -> Asked {
    let way = Way {
        read: 1,
        write: 1,
        sink_room: 2000,
        vault_room: 2000,
        fails,
    };
    ask_by(rt, alloc, line, bytes, way)
}

/// Two values are the same. Where they aren't, the test ends, and tells the label.
pub(crate) fn same<T: PartialEq + Debug>(rt: &impl Abort, label: &str, found: &T, wanted: &T) {
    assert_eq!(rt; found, wanted, "{label}");
}

/// Two texts are the same.
pub(crate) fn same_bytes(rt: &impl Abort, label: &str, found: &[u8], wanted: &[u8]) {
    assert_eq!(rt; found, wanted, "{label}");
}

/// This was written, and the status has this number. Where it isn't so, the test ends, and tells the label and which of
/// those under it was asked.
pub(crate) fn assert_ends(
    rt: &impl Abort,
    label: &str,
    at: usize,
    asked: &Asked,
    written: &[u8],
    number: u8,
) {
    assert_eq!(rt; asked.status.number(), number, "{label} {at}");
    assert_eq!(rt; asked.out.bytes(), written, "{label} {at}");
}

/// The same of a status.
pub(crate) fn assert_stops(
    rt: &impl Abort,
    label: &str,
    at: usize,
    asked: &Asked,
    written: &[u8],
    status: Status,
) {
    assert_eq!(rt; asked.status, status, "{label} {at}");
    assert_eq!(rt; asked.out.bytes(), written, "{label} {at}");
}

/// The vault is as it was made.
pub(crate) fn assert_unused(rt: &impl Abort, label: &str, asked: &Asked) {
    assert!(rt; asked.vault.bytes().is_empty(), "{label}");
    assert!(rt; asked.vault.name_taken().is_none(), "{label}");
}

/// The line of this number of a text.
pub(crate) fn line_at<'a>(rt: &impl Abort, text: &'a str, number: usize) -> &'a str {
    let line = text.lines().nth(number);
    line.expect(rt, "a text with too few lines")
}

// A receipt of a key of 128 bits, which no report has: its tag was computed by Python's `hmac`.
const WIDE_RECEIPT: &str =
    "receipt 0300000000000000030000000000000000000607000000000000000100000000000000050102616210d913826feafdde3e27a9186cf2334d7d599ff8ce952e8cc6aa7b215b1277a8";

// The line that a letter stands for, if it stands for one.
fn line_for(rt: &impl Abort, letter: u8) -> Option<&'static str> {
    match letter {
        b'P' => Some(line_at(rt, REPORT, 2)),
        b'G' => Some(line_at(rt, REPORT, 4)),
        b'B' => Some(WIDE_RECEIPT),
        b'C' => Some(line_at(rt, REPORT, 5)),
        b'L' => Some(line_at(rt, REPORT, 8)),
        b'D' => Some(line_at(rt, REPORT, 9)),
        b'Q' => Some(line_at(rt, OTHER_REPORT, 2)),
        b'E' => Some(line_at(rt, OTHER_REPORT, 5)),
        _ => None,
    }
}

/// The text that letters stand for: P, G and L for the receipts of the put, the get and the later get, B for one of a key of 128
/// bits, C and D for the certificates of the epochs 0 and 1, Q and E for the receipt of the put and the certificate under
/// another key, / for the end of a line and ^ for a carriage return.
pub(crate) fn text_of(rt: &impl Abort, alloc: Global, letters: &str) -> Vec<u8> {
    let mut text = Vec::new(alloc);
    for letter in letters.as_bytes() {
        match (line_for(rt, *letter), *letter) {
            (Some(line), _) => text.extend_from_slice(line.as_bytes()).expect(rt, "memory"),
            (None, b'/') => text.push(b'\n').expect(rt, "memory"),
            (None, b'^') => text.push(b'\r').expect(rt, "memory"),
            (None, other) => text.push(other).expect(rt, "memory"),
        }
    }
    text
}
