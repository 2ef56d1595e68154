//! Paths that were worked out by hand, as their bits are written. `-` is the root, to which no bits lead. The tree whose keys
//! have 64 bits is written 64, the one whose keys have 128 is written 128.
use crate::rows::{field, same};
use std::process::Abort;
use tree_keys::{Path, key_bits};

// Whether a tree is the one whose keys have 128 bits.
fn wide_of(rt: &impl Abort, bits: &str) -> bool {
    match bits {
        "64" => false,
        "128" => true,
        _ => panic!(rt; "a tree of another width"),
    }
}

// The path of a tree whose bits these are.
fn path_of(rt: &impl Abort, wide: bool, bits: &str) -> Path {
    let mut path = Path::root_of(wide);
    for bit in bits.bytes() {
        if path.is_data() {
            panic!(rt; "more bits than a path has");
        }
        match bit {
            b'0' => path = path.child(false),
            b'1' => path = path.child(true),
            b'-' => {}
            _ => panic!(rt; "a bit that is neither 0 nor 1"),
        }
    }
    path
}

// The longest path that both begin with.
fn common_of(rt: &impl Abort, first: &Path, second: &Path) -> Path {
    if first.is_wide() != second.is_wide() {
        panic!(rt; "paths of two trees");
    }
    first.common(second)
}

// The path that the first bits lead to.
fn front_of(rt: &impl Abort, path: &Path, len: u8) -> Path {
    if len > path.len() {
        panic!(rt; "a path of fewer bits");
    }
    path.front(len)
}

// Tree, bits, length, word.
const WORDS: &str = "
64 | - | 0 | 0
64 | 0 | 1 | 0
64 | 1 | 1 | 9223372036854775808
64 | 01 | 2 | 4611686018427387904
64 | 10110 | 5 | 12682136550675316736
128 | - | 0 | 0
128 | 0 | 1 | 0
128 | 1 | 1 | 170141183460469231731687303715884105728
128 | 01 | 2 | 85070591730234615865843651857942052864
128 | 10110 | 5 | 233944127258145193631070042609340645376
";

#[test]
fn words_hold_their_bits_first(rt: HostRuntime) {
    for row in WORDS.trim().lines() {
        let wide = wide_of(&rt, field(&rt, row, 0));
        let bits = field(&rt, row, 1);
        let len = field(&rt, row, 2);
        let word = field(&rt, row, 3);
        let path = path_of(&rt, wide, bits);
        let (len, word) = (
            len.parse::<u8>().expect(&rt, "a number"),
            word.parse::<u128>().expect(&rt, "a number"),
        );
        same(&rt, row, &path.len(), &len);
        same(&rt, row, &path.is_wide(), &wide);
        same(&rt, row, &path.word(), &word);
        same(&rt, row, &Path::of_word(wide, len, word), &Some(path));
        same(&rt, row, &path.key(), &None);
    }
    same(
        &rt,
        "Path::of_word(false, 64, 5)",
        &Path::of_word(false, 64, 5),
        &Some(Path::of_key(5)),
    );
    same(
        &rt,
        "Path::of_key(5).key()",
        &Path::of_key(5).key(),
        &Some(5),
    );
    same(&rt, "Path::of_key(5).word()", &Path::of_key(5).word(), &5);
}

#[test]
fn words_with_unused_bits_are_no_paths(rt: HostRuntime) {
    let table = [
        (false, 0, 1),
        (false, 0, 0x8000_0000_0000_0000),
        (false, 1, 0x4000_0000_0000_0000),
        (false, 63, 1),
        (false, 65, 0),
        (false, 255, 0),
        (true, 0, 1),
        (true, 0, 1 << 127),
        (true, 1, 1 << 126),
        (true, 63, 1 << 64),
        (true, 64, 1 << 63),
        (true, 64, 1),
        (true, 127, 1),
        (true, 129, 0),
        (true, 255, 0),
    ];
    for (wide, len, word) in table {
        same(
            &rt,
            "Path::of_word(wide, len, word)",
            &Path::of_word(wide, len, word),
            &None,
        );
    }
}

// Tree, two of its paths, the side of the first on which the second lies, and the longest path that both begin with.
const PAIRS: &str = "
64 | - | 0 | left | -
64 | - | 1 | right | -
64 | - | - | none | -
64 | 0 | 01 | right | 0
64 | 0 | 0 | none | 0
64 | 0 | - | none | -
64 | 01 | 0010 | none | 0
64 | 0010 | 00100 | left | 0010
64 | 1 | 01 | none | -
128 | - | 1 | right | -
128 | 0 | 0 | none | 0
128 | 01 | 0010 | none | 0
128 | 0010 | 00100 | left | 0010
";

#[test]
fn paths_lie_by_their_bits(rt: HostRuntime) {
    for row in PAIRS.trim().lines() {
        let wide = wide_of(&rt, field(&rt, row, 0));
        let upper = field(&rt, row, 1);
        let lower = field(&rt, row, 2);
        let side = field(&rt, row, 3);
        let common = field(&rt, row, 4);
        let (first, second) = (path_of(&rt, wide, upper), path_of(&rt, wide, lower));
        let side = match side {
            "left" => Some(false),
            "right" => Some(true),
            "none" => None,
            _ => panic!(rt; "a side of another name"),
        };
        same(&rt, row, &first.side(&second), &side);
        same(&rt, row, &second.is_below(&first), &side.is_some());
        same(
            &rt,
            row,
            &common_of(&rt, &first, &second),
            &path_of(&rt, wide, common),
        );
        same(&rt, row, &first.is_same(&second), &(upper == lower));
    }
}

#[test]
fn keys_lie_by_their_bits(rt: HostRuntime) {
    let least = Path::of_key(0);
    same(
        &rt,
        "least.common(&Path::of_key(1)).len()",
        &least.common(&Path::of_key(1)).len(),
        &63,
    );
    same(&rt, "least.common(&least)", &least.common(&least), &least);
    same(
        &rt,
        "least.starts_with(&Path::root())",
        &least.starts_with(&Path::root()),
        &true,
    );
    same(
        &rt,
        "!Path::root().starts_with(&least)",
        &Path::root().starts_with(&least),
        &false,
    );
    same(
        &rt,
        "least.front(63).side(&Path::of_key(1))",
        &least.front(63).side(&Path::of_key(1)),
        &Some(true),
    );
}

#[test]
fn keys_of_128_bits_are_their_words(rt: HostRuntime) {
    for key in [0, 1, 1 << 64, u128::MAX] {
        let path = Path::of_wide(key);
        same(&rt, "len", &path.len(), &128);
        same(&rt, "is_data", &path.is_data(), &true);
        same(&rt, "word", &path.word(), &key);
        same(&rt, "key", &path.key(), &Some(key));
        same(&rt, "of_word", &Path::of_word(true, 128, key), &Some(path));
        same(
            &rt,
            "is_same",
            &path.is_same(&Path::of_number(true, key)),
            &true,
        );
    }
    same(&rt, "key_bits(false)", &key_bits(false), &64);
    same(&rt, "key_bits(true)", &key_bits(true), &128);
}

// In the tree whose keys have 64 bits a longer number counts by its lowest bits.
#[test]
fn longer_numbers_count_by_their_low_bits(rt: HostRuntime) {
    let table = [
        (5, 5),
        ((1 << 64) - 1, u64::MAX),
        (1 << 64, 0),
        ((1 << 64) + 5, 5),
        (u128::MAX, u64::MAX),
    ];
    for (number, key) in table {
        let path = Path::of_number(false, number);
        same(&rt, "of_number", &path, &Path::of_key(key));
    }
}

// How many first bits the key 0 and a key with one bit have in common. Both lie below that path, if it is shorter than they.
#[test]
fn keys_of_128_bits_part_at_their_first_bit(rt: HostRuntime) {
    let table = [
        (63, 1 << 64),
        (64, 1 << 63),
        (65, 1 << 62),
        (127, 1),
        (0, u128::MAX),
    ];
    let least = Path::of_wide(0);
    for (depth, key) in table {
        let other = Path::of_wide(key);
        let front = front_of(&rt, &least, depth);
        same(&rt, "common", &common_of(&rt, &least, &other), &front);
        same(&rt, "side of 0", &front.side(&least), &Some(false));
        same(&rt, "side of the key", &front.side(&other), &Some(true));
        same(&rt, "side above", &other.side(&front), &None);
        same(&rt, "starts with", &other.starts_with(&front), &true);
    }
    same(
        &rt,
        "common with itself",
        &common_of(&rt, &least, &least),
        &least,
    );
    same(&rt, "side of itself", &least.side(&least), &None);
    same(&rt, "front of all", &front_of(&rt, &least, 128), &least);
}

#[test]
fn paths_of_two_trees_lie_apart(rt: HostRuntime) {
    let key = Path::of_key(5);
    let node = Path::of_word(true, 64, 5 << 64).expect(&rt, "a path");
    same(&rt, "len", &node.len(), &key.len());
    same(&rt, "is_data", &node.is_data(), &false);
    same(&rt, "key", &node.key(), &None);
    same(&rt, "word", &node.word(), &(5 << 64));
    same(&rt, "is_same", &node.is_same(&key), &false);
    same(&rt, "starts_with", &node.starts_with(&key), &false);
    same(
        &rt,
        "below the other root",
        &node.is_below(&Path::root()),
        &false,
    );
    same(
        &rt,
        "below its own root",
        &node.is_below(&Path::root_of(true)),
        &true,
    );
}
