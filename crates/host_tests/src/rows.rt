//! Tables as texts: a row is a line, with a bar between its fields. What fields mean more than one file reads.
use script_text::{Requests, TaskRef};
use std::alloc::Global;
use std::fmt::Debug;
use std::process::Abort;
use std::str::FromStr;

/// The field of a row at this place, counted from 0.
pub fn field<'a>(rt: &impl Abort, row: &'a str, place: usize) -> &'a str {
    let text = row.split('|').nth(place);
    text.expect(rt, "a row with too few fields").trim()
}

/// The number in the field at this place.
pub fn number<T: FromStr>(rt: &impl Abort, row: &str, place: usize) -> T
where
    T::Err: Debug,
{
    field(rt, row, place).parse().expect(rt, "a number")
}

/// The bytes that these digits spell, between which blanks may stand.
pub fn bytes_of(rt: &impl Abort, alloc: Global, digits: &str) -> Vec<u8> {
    let mut bytes = Vec::new(alloc);
    for part in digits.split_whitespace() {
        bytes
            .extend_from_slice(&hex::decode(alloc, part).expect(rt, "memory"))
            .expect(rt, "memory");
    }
    bytes
}

/// Phases in short: a task is as in a script, with a comma behind it, and a phase ends with a slash.
pub fn phases_in_short(rt: &impl Abort, alloc: Global, requests: &Requests) -> String {
    let mut text = String::new(alloc);
    for number in 0..requests.len() {
        for task in requests.phase(number) {
            push_task(rt, alloc, &mut text, &task);
        }
        text.push_str("/").expect(rt, "memory");
    }
    text
}

// Adds a task.
fn push_task(rt: &impl Abort, alloc: Global, text: &mut String, task: &TaskRef) {
    let worker = task.worker();
    let request = task.request();
    let key = request.key;
    let line = match (request.put, request.value.bytes()) {
        (false, None) => format!(in alloc; "{worker} get {key},").expect(rt, "memory"),
        (true, None) => format!(in alloc; "{worker} del {key},").expect(rt, "memory"),
        (true, Some(bytes)) => {
            let digits = hex::encode(alloc, bytes).expect(rt, "memory");
            format!(in alloc; "{worker} put {key} [{digits}],").expect(rt, "memory")
        }
        (false, Some(_)) => panic!(rt; "a get with a value"),
    };
    text.push_str(line.as_str()).expect(rt, "memory");
}

/// Two values are the same. Where they aren't, the test ends, and tells the row.
pub fn same<T: PartialEq + Debug>(rt: &impl Abort, row: &str, found: &T, wanted: &T) {
    assert_eq!(rt; found, wanted, "{row}");
}

/// Two values are the same. Where they aren't, the test ends, and tells the number at which it stands.
pub fn same_at<T: PartialEq + Debug>(rt: &impl Abort, number: usize, found: &T, wanted: &T) {
    assert_eq!(rt; found, wanted, "{number}");
}

/// Two texts are the same.
pub fn same_bytes(rt: &impl Abort, row: &str, found: &[u8], wanted: &[u8]) {
    assert_eq!(rt; found, wanted, "{row}");
}
