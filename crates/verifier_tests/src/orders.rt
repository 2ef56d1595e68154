//! Merged orders and replies that were written out by hand.
use crate::rows::same;
use lamport_clocks::Stamp;
use record_text::{Blob, Operation};
use stamp_order::{Moment, PlainMap, is_serial, merge};
use std::alloc::Global;
use std::process::Abort;

// A put of none at a moment, from its epoch, counter, verifier and index with points between. The key is the
// index too.
fn put_at(rt: &impl Abort, text: &str) -> Operation {
    let (clock, place) = text
        .split_once('/')
        .expect(rt, "a moment without a verifier");
    let (epoch, counter) = clock
        .split_once('.')
        .expect(rt, "a clock without a counter");
    let (verifier, index) = place
        .split_once('.')
        .expect(rt, "a verifier without an index");
    let index = index.parse().expect(rt, "a number");
    let stamp = Stamp {
        epoch: epoch.parse().expect(rt, "a number"),
        counter: counter.parse().expect(rt, "a number"),
    };
    let verifier = verifier.parse().expect(rt, "a number");
    Operation::new(
        stamp,
        verifier,
        index,
        true,
        false,
        u128::from(index),
        Blob::none(),
    )
}

fn puts_at(rt: &impl Abort, alloc: Global, texts: &str) -> Vec<Operation> {
    let mut operations = Vec::new(alloc);
    for text in texts.split_whitespace() {
        operations.push(put_at(rt, text)).expect(rt, "memory");
    }
    operations
}

// The last epoch, the operations, and the merged operations: a moment is the epoch and the counter, and then
// the verifier and the index. Equal clocks go by verifier, a command of the next epoch is left out, an epoch
// goes before the next whatever the counters and verifiers, four verifiers stand at one clock, and last come
// the last of all moments.
const MERGES: &str = "
7 > >
0 > 0.3/1.4 0.3/0.5 > 0.3/0.5 0.3/1.4
0 > 0.0/0.1 1.1/0.5 0.2/1.1 0.2/1.2 > 0.0/0.1 0.2/1.1 0.2/1.2
1 > 1.0/0.0 0.9/3.8 > 0.9/3.8 1.0/0.0
1 > 1.4/3.0 1.5/3.1 2.0/3.2 1.4/1.2 1.4/1.8 0.7/2.3 1.4/2.6 1.4/0.9 1.4/0.10 > 0.7/2.3 1.4/0.9 1.4/0.10 1.4/1.2 1.4/1.8 1.4/2.6 1.4/3.0 1.5/3.1
4294967295 > 4294967295.4294967295/63.18446744073709551615 4294967295.0/0.0 > 4294967295.0/0.0 4294967295.4294967295/63.18446744073709551615
";

// Merges the operations of a row.
fn assert_merged(rt: &impl Abort, alloc: Global, row: &str) {
    let (epoch, rest) = row.split_once('>').expect(rt, "a row without operations");
    let (given, expected) = rest.split_once('>').expect(rt, "a row without an answer");
    let epoch = epoch.trim().parse().expect(rt, "a number");
    let operations = puts_at(rt, alloc, given);
    let merged = merge(alloc, &operations, epoch).expect(rt, "memory");
    let expected = puts_at(rt, alloc, expected);
    same(rt, row, &merged.as_slice(), &expected.as_slice());
}

#[test]
fn operations_merge_by_clock_then_verifier_then_index(rt: HostRuntime) {
    for row in MERGES.trim().lines() {
        assert_merged(&rt, rt.alloc(), row);
    }
    let earlier = Moment::of(&put_at(&rt, "0.1/2.3"));
    let is_earlier = earlier < Moment::of(&put_at(&rt, "0.1/3.0"));
    same(&rt, "a verifier before the next", &is_earlier, &true);
}

// A data value from its text: none, or the bytes behind an equals sign.
fn blob_of(rt: &impl Abort, text: &str) -> Blob {
    if text == "none" {
        return Blob::none();
    }
    let bytes = text.strip_prefix("=").expect(rt, "a value of another form");
    Blob::of_bytes(bytes.as_bytes()).expect(rt, "a value that is too long")
}

// Puts a value at the key 5, and finds it there.
fn put_at_5(rt: &impl Abort, map: &mut PlainMap, text: &str) {
    map.put(5, blob_of(rt, text)).expect(rt, "memory");
    same(rt, text, &map.get(5), &blob_of(rt, text));
}

#[test]
fn a_plain_map_has_what_was_put_last(rt: HostRuntime) {
    let mut map = PlainMap::new(rt.alloc());
    same(&rt, "nothing was put", &map.get(5), &Blob::none());
    put_at_5(&rt, &mut map, "=ab");
    let longest = Blob::of_bytes(&[7; 255]).expect(&rt, "a value that is too long");
    map.put(u128::MAX, longest.copy()).expect(&rt, "memory");
    put_at_5(&rt, &mut map, "=");
    put_at_5(&rt, &mut map, "none");
    same(&rt, "the longest", &map.get(u128::MAX), &longest);
    same(&rt, "another key", &map.get(0), &Blob::none());
}

// A get or a put from its text: which of both, the key, and the value.
fn operation_of(rt: &impl Abort, text: &str) -> Operation {
    let (name, rest) = text
        .split_once(',')
        .expect(rt, "an operation without a key");
    let (key, value) = rest
        .split_once(',')
        .expect(rt, "an operation without a value");
    Operation {
        put: name == "put",
        key: key.parse().expect(rt, "a number"),
        value: blob_of(rt, value),
        ..put_at(rt, "0.0/0.0")
    }
}

// Whether the operations behind it are serial. The key of the longer number is 2 ^ 63.
const SERIAL: &str = "
true
true put,5,=ab get,5,=ab
false put,5,=ab get,5,=ba
false put,5,=ab get,5,none
true get,7,none put,9223372036854775808,=a
false get,7,=a put,7,=a
true put,5,=a put,5,=b get,5,=b
false put,5,=a put,5,=b get,5,=a
true put,5,= get,5,= put,5,none get,5,none
";

// Whether the operations of a row, behind its first word, are serial.
fn is_serial_row(rt: &impl Abort, alloc: Global, row: &str) -> bool {
    let mut operations = Vec::new(alloc);
    for word in row.split_whitespace().skip(1) {
        operations.push(operation_of(rt, word)).expect(rt, "memory");
    }
    is_serial(alloc, &operations).expect(rt, "memory")
}

#[test]
fn serial_lists_are_told_from_others(rt: HostRuntime) {
    for row in SERIAL.trim().lines() {
        let serial = row.split_whitespace().next() == Some("true");
        same(&rt, row, &is_serial_row(&rt, rt.alloc(), row), &serial);
    }
}
