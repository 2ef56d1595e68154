//! Tables as texts: a row is a line, with a bar between its fields. What fields mean more than one file reads.
use lamport_clocks::Stamp;
use record_text::{Blob, Value};
use std::alloc::Global;
use std::fmt::Debug;
use std::process::Abort;
use std::str::FromStr;
use tree_keys::Path;

/// The field of a row at this place, counted from 0.
pub fn field<'a>(rt: &impl Abort, row: &'a str, place: usize) -> &'a str {
    let text = row.split('|').nth(place);
    text.expect(rt, "a row with too few fields").trim()
}

/// The number in the field at this place.
pub fn number<T: FromStr>(rt: &impl Abort, row: &str, place: usize) -> T
where
    T::Err: Debug,
{
    field(rt, row, place).parse().expect(rt, "a number")
}

/// The bytes that these digits spell, between which blanks may stand. `..` are no bytes.
pub fn bytes_of(rt: &impl Abort, alloc: Global, digits: &str) -> Vec<u8> {
    let mut bytes = Vec::new(alloc);
    for part in digits.split_whitespace() {
        if part != ".." {
            let more = hex::decode(alloc, part).expect(rt, "memory");
            bytes.extend_from_slice(&more).expect(rt, "memory");
        }
    }
    bytes
}

/// The path to which these bits lead, or, behind a `#`, that of this key. `root` is the root, to which no bits lead.
pub fn path_of(rt: &impl Abort, text: &str) -> Path {
    if let Some(key) = text.strip_prefix('#') {
        return Path::of_key(key.parse().expect(rt, "a number"));
    }
    path_below(rt, Path::root(), text)
}

/// The path to which these bits lead from a root, or that root.
pub fn path_below(rt: &impl Abort, root: Path, text: &str) -> Path {
    let mut path = root;
    if text == "root" {
        return path;
    }
    for bit in text.bytes() {
        if path.is_data() || (bit != b'0' && bit != b'1') {
            panic!(rt; "a path of other bits");
        }
        path = path.child(bit == b'1');
    }
    path
}

/// A data value of these bytes.
pub fn data_value(rt: &impl Abort, bytes: &[u8]) -> Value {
    Value::Blob(Blob::of_bytes(bytes).expect(rt, "more than 255 bytes"))
}

/// A stamp of this epoch and counter.
pub fn stamp(epoch: u32, counter: u32) -> Stamp {
    Stamp { epoch, counter }
}

/// Two values are the same. Where they aren't, the test ends, and tells the row.
pub fn same<T: PartialEq + Debug>(rt: &impl Abort, row: &str, found: &T, wanted: &T) {
    assert_eq!(rt; found, wanted, "{row}");
}

/// Two texts are the same.
pub fn same_bytes(rt: &impl Abort, row: &str, found: &[u8], wanted: &[u8]) {
    assert_eq!(rt; found, wanted, "{row}");
}
