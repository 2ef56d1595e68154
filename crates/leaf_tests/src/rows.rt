//! Tables as texts: a row is a line, with a bar between its fields.
use std::fmt::Debug;
use std::process::Abort;

/// The field of a row at this place, counted from 0.
pub fn field<'a>(rt: &impl Abort, row: &'a str, place: usize) -> &'a str {
    let text = row.split('|').nth(place);
    text.expect(rt, "a row with too few fields").trim()
}

/// Two values are the same. Where they aren't, the test ends, and tells the row.
pub fn same<T: PartialEq + Debug>(rt: &impl Abort, row: &str, found: &T, wanted: &T) {
    assert_eq!(rt; found, wanted, "{row}");
}

/// Two texts are the same.
pub fn same_bytes(rt: &impl Abort, row: &str, found: &[u8], wanted: &[u8]) {
    assert_eq!(rt; found, wanted, "{row}");
}
