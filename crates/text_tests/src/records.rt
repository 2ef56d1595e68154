//! Texts of paths, values and elements that were worked out by hand.
use crate::rows::{
    bytes_of, data_value, field, number, path_below, path_of, same, same_bytes, stamp,
};
use arrayvec::ArrayVec;
use lamport_clocks::Header;
use record_text::{
    Blob, Element, LONGEST_PATH_TEXT, Node, Pointer, Reader, TextFault, Value, element_text,
    initial, push_path, read_element, read_path, read_value, value_text,
};
use std::alloc::Global;
use std::process::Abort;
use tree_keys::Path;

const MALFORMED: TextFault = TextFault::Malformed;

const TRUNCATED: TextFault = TextFault::Truncated;

// The header of a bundle whose keys have 64 bits, and its values at most 64 bytes.
fn header() -> Header {
    Header::by_path(1, 4, 0, 16_777_215)
}

// The same of another version, whose keys have so many bits.
fn header_of(version: u8, bits: u8) -> Header {
    Header {
        version,
        bits,
        ..header()
    }
}

// The text of a path.
fn path_text(path: &Path) -> ArrayVec<u8, LONGEST_PATH_TEXT> {
    let mut text = ArrayVec::new();
    push_path(&mut text, path);
    text
}

// A path and its text.
const PATHS: &str = "
root | 00 0000000000000000
0 | 01 0000000000000000
1 | 01 8000000000000000
01 | 02 4000000000000000
#258 | 40 0000000000000102
";

// A path has this text, and is read from it, also where a byte follows, and from no front of it.
fn assert_path(rt: &impl Abort, path: Path, mut text: Vec<u8>, row: &str) {
    same_bytes(rt, row, path_text(&path).as_slice(), text.as_slice());
    same(rt, row, &read_path(&header(), &text), &Ok((path, 9)));
    for len in 0..text.len() {
        same(
            rt,
            row,
            &read_path(&header(), &text[..len]),
            &Err(TRUNCATED),
        );
    }
    text.push(7).expect(rt, "memory");
    same(rt, row, &read_path(&header(), &text), &Ok((path, 9)));
}

#[test]
fn paths_have_nine_bytes(rt: HostRuntime) {
    for row in PATHS.trim().lines() {
        let path = path_of(&rt, field(&rt, row, 0));
        let text = bytes_of(&rt, rt.alloc(), field(&rt, row, 1));
        assert_path(&rt, path, text, row);
    }
}

// Bits from the root of the tree whose keys have 128 bits, and the text of the path to which they lead.
const WIDE_PATHS: &str = "
root | 00 00000000000000000000000000000000
0 | 01 00000000000000000000000000000000
1 | 01 80000000000000000000000000000000
01 | 02 40000000000000000000000000000000
";

// A path of that tree has this text, and is read from it and from no front of it where a bundle has such keys.
fn assert_wide_path(rt: &impl Abort, path: Path, text: &[u8], row: &str) {
    same_bytes(rt, row, path_text(&path).as_slice(), text);
    same(rt, row, &Reader::new(text).path(true), &Ok(path));
    let header = header_of(3, 128);
    same(rt, row, &read_path(&header, text), &Ok((path, 17)));
    for len in 0..text.len() {
        let front = read_path(&header, &text[..len]);
        same(rt, row, &front, &Err(TRUNCATED));
    }
}

// Keys of 128 bits, in decimal digits, and the texts of their paths.
const WIDE_KEYS: &str = "
0 | 80 00000000000000000000000000000000
1 | 80 00000000000000000000000000000001
258 | 80 00000000000000000000000000000102
18446744073709551616 | 80 00000000000000010000000000000000
340282366920938463463374607431768211455 | 80 ffffffffffffffffffffffffffffffff
";

#[test]
fn paths_of_wide_keys_have_seventeen_bytes(rt: HostRuntime) {
    for row in WIDE_PATHS.trim().lines() {
        let path = path_below(&rt, Path::root_of(true), field(&rt, row, 0));
        let text = bytes_of(&rt, rt.alloc(), field(&rt, row, 1));
        assert_wide_path(&rt, path, &text, row);
    }
    for row in WIDE_KEYS.trim().lines() {
        let path = Path::of_wide(number(&rt, row, 0));
        let text = bytes_of(&rt, rt.alloc(), field(&rt, row, 1));
        assert_wide_path(&rt, path, &text, row);
    }
}

// Lengths past 128, and unused bits that aren't 0: behind 64 bits, where a path of the other tree would end, and at the last.
const NO_WIDE_PATHS: &str = "
00 00000000000000000000000000000001
40 00000000000000050100000000000000
7f 00000000000000000000000000000001
81 00000000000000000000000000000000
ff 00000000000000000000000000000000
";

#[test]
fn bytes_outside_are_no_path_of_wide_keys(rt: HostRuntime) {
    let header = header_of(3, 128);
    for row in NO_WIDE_PATHS.trim().lines() {
        let text = bytes_of(&rt, rt.alloc(), row);
        same(&rt, row, &read_path(&header, &text), &Err(MALFORMED));
        let front = text.get(..16).expect(&rt, "a short row");
        same(&rt, row, &read_path(&header, front), &Err(TRUNCATED));
    }
    // In version 3 too a bundle of shorter keys has no path of these.
    let row = "80 0000000000000000";
    let text = bytes_of(&rt, rt.alloc(), row);
    let found = read_path(&header_of(3, 64), &text);
    same(&rt, row, &found, &Err(MALFORMED));
}

// Unused bits that aren't 0, and lengths past 64.
const NO_PATHS: &str = "
00 0000000000000001
01 4000000000000000
3f 0000000000000001
41 0000000000000000
ff 0000000000000000
";

// The bytes of a row are no path.
fn assert_no_path(rt: &impl Abort, alloc: Global, row: &str) {
    let text = bytes_of(rt, alloc, row);
    same(rt, row, &read_path(&header(), &text), &Err(MALFORMED));
    let front = text.get(..8).expect(rt, "a short row");
    same(rt, row, &read_path(&header(), front), &Err(TRUNCATED));
}

#[test]
fn bytes_outside_are_no_path(rt: HostRuntime) {
    for row in NO_PATHS.trim().lines() {
        assert_no_path(&rt, rt.alloc(), row);
    }
}

// A value has this text, and is read from it at its path, also where a byte follows, and from no front of it.
fn assert_value(rt: &impl Abort, path: &Path, value: &Value, mut text: Vec<u8>, row: &str) {
    let len = text.len();
    same_bytes(rt, row, value_text(value).as_slice(), text.as_slice());
    same(
        rt,
        row,
        &read_value(&header(), path, &text),
        &Ok((value.copy(), len)),
    );
    for cut in 0..len {
        same(
            rt,
            row,
            &read_value(&header(), path, &text[..cut]),
            &Err(TRUNCATED),
        );
    }
    text.push(7).expect(rt, "memory");
    same(
        rt,
        row,
        &read_value(&header(), path, &text),
        &Ok((value.copy(), len)),
    );
}

// The bytes of a data value, and its text.
const DATA_VALUES: &str = "
.. | 01 00
6162 | 01 02 6162
07070707070707070707070707070707 07070707070707070707070707070707 07070707070707070707070707070707 07070707070707070707070707070707 | 01 40 07070707070707070707070707070707 07070707070707070707070707070707 07070707070707070707070707070707 07070707070707070707070707070707
";

// No value is read of this path from these bytes.
fn assert_no_value(rt: &impl Abort, path: &Path, text: &[u8], fault: TextFault) {
    match read_value(&header(), path, text) {
        Err(found) => assert_eq!(rt; found, fault, "{text:?}"),
        Ok(_) => panic!(rt; "{text:?}"),
    }
}

// The data value of a row has its text.
fn assert_data_value(rt: &impl Abort, alloc: Global, row: &str) {
    let value = data_value(rt, &bytes_of(rt, alloc, field(rt, row, 0)));
    let text = bytes_of(rt, alloc, field(rt, row, 1));
    assert_value(rt, &Path::of_key(5), &value, text, row);
}

#[test]
fn data_values_have_a_flag_and_a_count(rt: HostRuntime) {
    for row in DATA_VALUES.trim().lines() {
        assert_data_value(&rt, rt.alloc(), row);
    }
    let key = Path::of_key(5);
    let none = bytes_of(&rt, rt.alloc(), "00");
    assert_value(&rt, &key, &initial(&key), none, "none");
    same(&rt, "too long", &Blob::of_bytes(&[7; 256]), &None);
    assert_no_value(&rt, &key, &[2], MALFORMED);
    assert_no_value(&rt, &key, &[1, 65], MALFORMED);
}

// The version of a bundle, the bits of its keys, how many bytes the value of the key 5 has, and what is read of it.
const LENGTHS: &str = "
1 | 64 | 64 | read
1 | 64 | 65 | Malformed
1 | 64 | 255 | Malformed
2 | 64 | 64 | read
2 | 64 | 65 | Malformed
2 | 64 | 255 | Malformed
3 | 64 | 64 | read
3 | 64 | 65 | read
3 | 64 | 255 | read
3 | 128 | 64 | read
3 | 128 | 65 | read
3 | 128 | 255 | read
";

// A value of so many bytes is read by the version of its bundle: its length alone is malformed, or else wants its bytes.
fn assert_length(rt: &impl Abort, alloc: Global, row: &str) {
    let header = header_of(number(rt, row, 0), number(rt, row, 1));
    let len: u8 = number(rt, row, 2);
    let path = Path::of_number(header.bits == 128, 5);
    let mut text = Vec::new(alloc);
    text.extend_from_slice(&[1, len]).expect(rt, "memory");
    for _ in 0..len {
        text.push(7).expect(rt, "memory");
    }
    let count = text.get(..2).expect(rt, "a short text");
    let (whole, cut) = match field(rt, row, 3) {
        "read" => {
            let value = data_value(rt, text.get(2..).expect(rt, "a short text"));
            (Ok((value, text.len())), TRUNCATED)
        }
        "Malformed" => (Err(MALFORMED), MALFORMED),
        _ => panic!(rt; "a row of another end"),
    };
    same(rt, row, &read_value(&header, &path, &text), &whole);
    same(rt, row, &read_value(&header, &path, count), &Err(cut));
}

#[test]
fn data_values_are_as_long_as_their_version_allows(rt: HostRuntime) {
    for row in LENGTHS.trim().lines() {
        assert_length(&rt, rt.alloc(), row);
    }
}

// A node of the path 0, whose pointers lead to 00 and 011, by the sides on which it has one.
fn node_of(rt: &impl Abort, sides: &str) -> Node {
    let left = Some(Pointer {
        path: path_of(rt, "00"),
        digest: [0x11; 32],
        deferred: false,
    });
    let right = Some(Pointer {
        path: path_of(rt, "011"),
        digest: [0x22; 32],
        deferred: true,
    });
    let both = Node::empty().with_side(false, left).with_side(true, right);
    match sides {
        "left" => both.with_side(true, None),
        "right" => both.with_side(false, None),
        "both" => both,
        _ => panic!(rt; "sides of another name"),
    }
}

// The sides of a node, and its text.
const NODES: &str = "
left | 01 02 0000000000000000 1111111111111111111111111111111111111111111111111111111111111111 00
both | 01 02 0000000000000000 1111111111111111111111111111111111111111111111111111111111111111 02 03 6000000000000000 2222222222222222222222222222222222222222222222222222222222222222
right | 00 02 03 6000000000000000 2222222222222222222222222222222222222222222222222222222222222222
";

// The node of a row has its text.
fn assert_node(rt: &impl Abort, alloc: Global, row: &str) {
    let path = path_of(rt, "0");
    let value = Value::Node(node_of(rt, field(rt, row, 0)));
    let text = bytes_of(rt, alloc, field(rt, row, 1));
    assert_value(rt, &path, &value, text, row);
    same(rt, row, &value.is_same(&initial(&path)), &false);
}

#[test]
fn nodes_have_two_pointers(rt: HostRuntime) {
    for row in NODES.trim().lines() {
        assert_node(&rt, rt.alloc(), row);
    }
    let path = path_of(&rt, "0");
    let empty = initial(&path);
    let text = bytes_of(&rt, rt.alloc(), "0000");
    assert_value(&rt, &path, &empty, text, "empty");
    let is_same = empty.is_same(&initial(&path));
    same(&rt, "empty", &is_same, &true);
}

// Behind the tag stand the paths 01, 0 and 1, none of which begins with 00, and no digest.
const ELSEWHERE: &str = "
01 02 4000000000000000
02 01 0000000000000000
01 01 8000000000000000
01 02 2000000000000000
";

// The bytes of a row are no node.
fn assert_elsewhere(rt: &impl Abort, alloc: Global, row: &str) {
    let text = bytes_of(rt, alloc, row);
    let node = path_of(rt, "0");
    assert_no_value(rt, &node, &text, MALFORMED);
    let front = text.get(..9).expect(rt, "a short row");
    assert_no_value(rt, &node, front, TRUNCATED);
}

#[test]
fn pointers_lead_below_their_side(rt: HostRuntime) {
    for row in ELSEWHERE.trim().lines() {
        assert_elsewhere(&rt, rt.alloc(), row);
    }
    let node = path_of(&rt, "0");
    assert_no_value(&rt, &node, &[3], MALFORMED);
    assert_no_value(&rt, &node, &[0, 3], MALFORMED);
}

// An element of the path 0, by this verifier.
fn element_by(verifier: u16) -> Element {
    let node = Path::root().child(false);
    Element {
        path: node,
        value: initial(&node),
        stamp: stamp(1, 0x0203),
        verifier,
    }
}

// An element has this text, and is read from it, also where a byte follows, and from no front of it.
fn assert_element(rt: &impl Abort, element: &Element, mut text: Vec<u8>) {
    let len = text.len();
    let found = element_text(element);
    same_bytes(rt, "element_text", found.as_slice(), &text);
    for cut in 0..len {
        let front = read_element(&header(), &text[..cut]);
        same(rt, "a front", &front, &Err(TRUNCATED));
    }
    text.push(7).expect(rt, "memory");
    match read_element(&header(), &text) {
        Ok((read, taken)) => {
            same(rt, "read_element", &read, element);
            same(rt, "taken", &taken, &len);
        }
        Err(_) => panic!(rt; "no element"),
    }
}

#[test]
fn elements_have_four_parts(rt: HostRuntime) {
    let element = element_by(0x0405);
    let digits = "01 0000000000000000 00 00 00000001 00000203 0405";
    let text = bytes_of(&rt, rt.alloc(), digits);
    same(&rt, "bytes", &text.len(), &21);
    assert_element(&rt, &element, text);
    let is_same = element_by(3) == element;
    same(&rt, "element_by(3)", &is_same, &false);
}
