//! Nodes that were worked out by hand, with digests that are sums of bytes.
use crate::rows::{field, one_byte, path_of, same};
use merkle_records::{AddCase, add_case, after_add, defer, digest_of, pointer_to, side_of};
use record_hash::ToyDigests;
use record_text::{Node, Pointer, Value};
use std::process::Abort;
use tree_keys::Path;

// The digest of a text whose bytes add up to this.
fn digest(sum: u8) -> [u8; 32] {
    let mut digest = [0; 32];
    digest[31] = sum;
    digest
}

// A pointer from its text: none, or the path, the sum of its digest, and whether it is deferred.
fn pointer_of(rt: &impl Abort, text: &str) -> Option<Pointer> {
    if text == "none" {
        return None;
    }
    let (plain, deferred) = match text.strip_suffix(",deferred") {
        Some(plain) => (plain, true),
        None => (text, false),
    };
    let (path, sum) = plain
        .split_once(',')
        .expect(rt, "a pointer without a digest");
    Some(Pointer {
        path: path_of(rt, path),
        digest: digest(sum.parse().expect(rt, "a number")),
        deferred,
    })
}

// A value from its text: a byte, the empty node, or a side and what its pointer alone is.
fn value_of(rt: &impl Abort, text: &str) -> Value {
    if text == "empty" {
        return Value::Node(Node::empty());
    }
    match text.split_once(':') {
        None => one_byte(rt, text),
        Some((side, pointer)) => {
            let node = Node::empty().with_side(side == "1", pointer_of(rt, pointer));
            Value::Node(node)
        }
    }
}

fn case_at(node: &Node, at: &Path, k: &Path) -> Option<AddCase> {
    if !k.is_below(at) {
        return None;
    }
    Some(add_case(side_of(node, k.side_below(at)), k))
}

fn added(node: &Node, at: &Path, k: &Path, v: &Value) -> Option<(Node, Value)> {
    if !k.is_below(at) {
        return None;
    }
    let on = k.side_below(at);
    let pointer = side_of(node, on);
    match add_case(pointer, k) {
        AddCase::Foreign => None,
        _ => {
            let (pointer, value) = after_add(&ToyDigests, pointer, k, v);
            Some((node.with_side(on, pointer), value))
        }
    }
}

fn evicted(node: &Node, at: &Path, k: &Path, v: &Value) -> Option<Node> {
    if !k.is_below(at) {
        return None;
    }
    let pointer = pointer_to(&ToyDigests, k, v);
    Some(node.with_side(k.side_below(at), Some(pointer)))
}

fn deferred(node: &Node, at: &Path, k: &Path) -> Option<Node> {
    if !k.is_below(at) {
        return None;
    }
    let on = k.side_below(at);
    Some(node.with_side(on, defer(side_of(node, on))))
}

// A case from its name.
fn case_of(rt: &impl Abort, text: &str) -> Option<AddCase> {
    match text {
        "Empty" => Some(AddCase::Empty),
        "Same" => Some(AddCase::Same),
        "Split" => Some(AddCase::Split),
        "Foreign" => Some(AddCase::Foreign),
        "none" => None,
        _ => panic!(rt; "a case of another name"),
    }
}

// A node with this pointer of side 0, and one of side 1.
fn with_left(rt: &impl Abort, side0: &str) -> Node {
    Node {
        side0: pointer_of(rt, side0),
        side1: pointer_of(rt, "1,1,deferred"),
    }
}

// Where the node stands, where its pointer of side 1 leads, the path that is asked for, and the case.
const CASES: &str = "
root 10 0 Empty
root 10 10 Same
root 10 1 Split
root 10 11 Foreign
root 10 101 Foreign
root 10 root none
0 0110 0 none
0 0110 00 Empty
0 0110 01 Split
0 0110 011 Split
0 0110 010 Foreign
0 0110 0110 Same
";

// A node whose pointer of side 1 leads to this path.
fn leading_to(path: Path) -> Node {
    Node {
        side0: None,
        side1: Some(Pointer {
            path,
            digest: digest(3),
            deferred: false,
        }),
    }
}

#[test]
fn pointers_lead_by_their_paths(rt: HostRuntime) {
    for row in CASES.trim().lines() {
        let node = leading_to(path_of(&rt, field(&rt, row, 1)));
        let at = path_of(&rt, field(&rt, row, 0));
        let asked = path_of(&rt, field(&rt, row, 2));
        let found = case_at(&node, &at, &asked);
        same(&rt, row, &found, &case_of(&rt, field(&rt, row, 3)));
    }
}

// The text of the byte 7 is 1, 1 and 7. That of a node with a deferred pointer of side 1 to the path 10 is 0
// and then 2, 2, 0x80, seven 0, and the digest, whose bytes add up to 9.
#[test]
fn digests_are_of_the_texts_of_values(rt: HostRuntime) {
    let byte = digest_of(&ToyDigests, &one_byte(&rt, "7"));
    same(&rt, "the byte 7", &byte, &digest(9));
    let node = digest_of(&ToyDigests, &value_of(&rt, "1:10,9,deferred"));
    same(&rt, "a node", &node, &digest(141));
}

// The root's pointer of side 0, the path, its value, that pointer after the add, and the value then. The key
// of the longer number begins with the bits 0111.
const ADDS: &str = "
none k5 7 k5,9 7
k5,4,deferred k5 7 k5,4,deferred 7
k5,4,deferred 0 empty 0,0 0:k5,4,deferred
k8070450532247928832,4 0 empty 0,0 1:k8070450532247928832,4
";

// Adds as a row says, and compares the node and the value then.
fn assert_added(rt: &impl Abort, row: &str) {
    let node = with_left(rt, field(rt, row, 0));
    let path = path_of(rt, field(rt, row, 1));
    let value = value_of(rt, field(rt, row, 2));
    match added(&node, &Path::root(), &path, &value) {
        Some((node, value)) => {
            same(rt, row, &node, &with_left(rt, field(rt, row, 3)));
            same(rt, row, &value, &value_of(rt, field(rt, row, 4)));
        }
        None => panic!(rt; "{row}: no add"),
    }
}

#[test]
fn adds_change_one_side(rt: HostRuntime) {
    for row in ADDS.trim().lines() {
        assert_added(&rt, row);
    }
}

// The root's pointer of side 0, the path, the value that it leaves with, and that pointer after it.
const EVICTS: &str = "
k5,4,deferred k5 7 k5,9
0,4 0 1:10,9,deferred 0,141
none 0 empty 0,0
";

// Evicts as a row says, and compares the node then.
fn assert_evicted(rt: &impl Abort, row: &str) {
    let node = with_left(rt, field(rt, row, 0));
    let path = path_of(rt, field(rt, row, 1));
    let value = value_of(rt, field(rt, row, 2));
    let found = evicted(&node, &Path::root(), &path, &value);
    same(rt, row, &found, &Some(with_left(rt, field(rt, row, 3))));
}

#[test]
fn evicts_change_one_side(rt: HostRuntime) {
    for row in EVICTS.trim().lines() {
        assert_evicted(&rt, row);
    }
}

#[test]
fn deferrals_set_one_flag(rt: HostRuntime) {
    let node = with_left(&rt, "k5,4");
    let found = deferred(&node, &Path::root(), &Path::of_key(5));
    let wanted = Some(with_left(&rt, "k5,4,deferred"));
    same(&rt, "below the node", &found, &wanted);
    let foreign = deferred(&node, &path_of(&rt, "0"), &Path::root());
    same(&rt, "above the node", &foreign, &None);
}
