//! Tables as texts: a row is a line, with one blank between its fields.
use record_text::{Blob, Value};
use std::alloc::Global;
use std::fmt::Debug;
use std::process::Abort;
use tree_keys::Path;

/// The field of a row at this place, counted from 0.
pub fn field<'a>(rt: &impl Abort, row: &'a str, place: usize) -> &'a str {
    row.split(' ')
        .nth(place)
        .expect(rt, "a row with too few fields")
}

/// The digits of a row of commands, which stand before a bar.
pub fn digits_of<'a>(rt: &impl Abort, row: &'a str) -> &'a str {
    row.split('|').next().expect(rt, "a row of nothing")
}

/// The answer of a row of commands, which stands behind the bar.
pub fn answer_of<'a>(rt: &impl Abort, row: &'a str) -> &'a str {
    row.split('|')
        .nth(1)
        .expect(rt, "a row with no answer")
        .trim()
}

/// The bytes that these digits spell, between which blanks may stand.
pub fn bytes_of(rt: &impl Abort, alloc: Global, digits: &str) -> Vec<u8> {
    let mut bytes = Vec::new(alloc);
    for word in digits.split_whitespace() {
        for byte in hex::decode(alloc, word).expect(rt, word) {
            bytes.push(byte).expect(rt, "memory");
        }
    }
    bytes
}

/// Two values are the same. Where they aren't, the test ends, and tells the row.
pub fn same<T: PartialEq + Debug>(rt: &impl Abort, row: &str, found: &T, wanted: &T) {
    assert_eq!(rt; found, wanted, "{row}");
}

/// Two values are the same. Where they aren't, the test ends, and tells the number at which it stands.
pub fn same_at<T: PartialEq + Debug>(rt: &impl Abort, number: u64, found: &T, wanted: &T) {
    assert_eq!(rt; found, wanted, "{number}");
}

/// A path from its text: `root`, the key of a data path behind a `k`, or else its bits.
pub fn path_of(rt: &impl Abort, text: &str) -> Path {
    if text == "root" {
        return Path::root();
    }
    match text.strip_prefix("k") {
        Some(key) => Path::of_key(key.parse().expect(rt, "a number")),
        None => path_of_bits(rt, text),
    }
}

fn path_of_bits(rt: &impl Abort, text: &str) -> Path {
    let mut path = Path::root();
    for bit in text.as_bytes() {
        if path.is_data() {
            panic!(rt; "a path of more than 64 bits");
        }
        path = path.child(*bit == b'1');
    }
    path
}

/// A data value of one byte, from its number.
pub fn one_byte(rt: &impl Abort, text: &str) -> Value {
    let blob = Blob::of_bytes(&[text.parse().expect(rt, "a number")]).expect(
        rt,
        "a value that is too long",
    );
    Value::Blob(blob)
}
