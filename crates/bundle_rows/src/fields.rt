//! The fields of a row: paths, slots, values, stamps and verifiers, each of them one word.
use lamport_clocks::Stamp;
use record_text::{Blob, LONGEST_BLOB, Node, Pointer, Value, initial};
use tree_keys::{Path, key_bits};

// How many bytes a digest has.
const DIGEST_BYTES: usize = 32;

/// The path of a word: `root`, a key as in `5`, bits as in `/01`, or a key's first bits as in `5/60`. Behind a `w` it
/// is one of the tree whose keys have 128 bits.
pub(crate) fn path_of(word: &str) -> Option<Path> {
    match word.strip_prefix('w') {
        None => path_in(false, word),
        Some(word) => path_in(true, word),
    }
}

// The path of a word in a tree.
fn path_in(wide: bool, word: &str) -> Option<Path> {
    if word == "root" {
        return Some(Path::root_of(wide));
    }
    match word.split_once('/') {
        None => Some(Path::of_number(wide, key_of(wide, word)?)),
        Some((key, bits)) if key.is_empty() => path_of_bits(wide, bits),
        Some((key, len)) => front_of_key(wide, key_of(wide, key)?, len.parse().ok()?),
    }
}

// The number of a key of a tree.
fn key_of(wide: bool, word: &str) -> Option<u128> {
    if wide {
        return word.parse().ok();
    }
    let key: u64 = word.parse().ok()?;
    Some(key.into())
}

// The path of these bits.
fn path_of_bits(wide: bool, bits: &str) -> Option<Path> {
    let mut path = Path::root_of(wide);
    for bit in bits.bytes() {
        if path.is_data() {
            return None;
        }
        path = match bit {
            b'0' => path.child(false),
            b'1' => path.child(true),
            _ => return None,
        };
    }
    Some(path)
}

// So many of the first bits of a key.
fn front_of_key(wide: bool, key: u128, len: u8) -> Option<Path> {
    if len > key_bits(wide) {
        return None;
    }
    Some(Path::of_number(wide, key).front(len))
}

/// The value of a word, at this path.
pub(crate) fn value_of(path: &Path, word: &str) -> Option<Value> {
    match word {
        "initial" => Some(initial(path)),
        "empty" => Some(Value::Node(Node::empty())),
        "none" => Some(Value::Blob(Blob::none())),
        "." => Some(Value::Blob(Blob::of_bytes(&[])?)),
        _ => match word.split_once(',') {
            None => Some(Value::Blob(blob_of(word)?)),
            Some((side0, side1)) => Some(Value::Node(Node {
                side0: side_of(side0)?,
                side1: side_of(side1)?,
            })),
        },
    }
}

/// The data value of a word.
pub(crate) fn data_value_of(word: &str) -> Option<Blob> {
    match value_of(&Path::of_key(0), word)? {
        Value::Blob(blob) => Some(blob),
        Value::Node(_) => None,
    }
}

// The data value of these digits.
fn blob_of(digits: &str) -> Option<Blob> {
    let len = digits.len() / 2;
    if len > LONGEST_BLOB {
        return None;
    }
    let mut bytes = [0; LONGEST_BLOB];
    hex::decode_to_slice(digits, &mut bytes[..len]).ok()?;
    Blob::of_bytes(&bytes[..len])
}

// The pointer of a side, or `-` where nothing is below.
fn side_of(word: &str) -> Option<Option<Pointer>> {
    if word == "-" {
        return Some(None);
    }
    let (deferred, (path, digest)) = match word.split_once('?') {
        Some(both) => (true, both),
        None => (false, word.split_once(':')?),
    };
    Some(Some(Pointer {
        path: path_of(path)?,
        digest: digest_of(digest)?,
        deferred,
    }))
}

// The digest that ends with these digits, with zeros before them.
fn digest_of(digits: &str) -> Option<[u8; DIGEST_BYTES]> {
    let len = digits.len() / 2;
    if len > DIGEST_BYTES {
        return None;
    }
    let mut digest = [0; DIGEST_BYTES];
    hex::decode_to_slice(digits, &mut digest[DIGEST_BYTES - len..]).ok()?;
    Some(digest)
}

/// The stamp of a word: epoch and counter, as in `0.1`.
pub(crate) fn stamp_of(word: &str) -> Option<Stamp> {
    let (epoch, counter) = word.split_once('.')?;
    Some(Stamp {
        epoch: epoch.parse().ok()?,
        counter: counter.parse().ok()?,
    })
}

/// The slot of a word, as in `s1`.
pub(crate) fn slot_of(word: &str) -> Option<u16> {
    word.strip_prefix('s')?.parse().ok()
}

/// The verifier of a word, as in `v2`.
pub(crate) fn verifier_of(word: &str) -> Option<u16> {
    word.strip_prefix('v')?.parse().ok()
}
