//! Values: data at a key, two pointers at a node.
ghost use Rattle.std.specs.Prelude.{◌≡◌, ◌≤◌, ◌<◌, ◌↔◌, length, Option, Some, None, IsTrue, IfSome, IsNone};
ghost use Rattle.std.specs.Option.{option_map};
ghost use Rattle.record_text.specs.Value.{IsOf, node_side, with_side, empty_node, initial_value};
ghost use Rattle.record_text.specs.Longest.{longest_blob};

use crate::blob_ref::BlobRef;
use arrayvec::ArrayVec;
use std::marker::Model;
use tree_keys::Path;

/// The most bytes of a data value.
pub const LONGEST_BLOB: usize = 255;

/// A data value: none, or 0 to 255 bytes.
#[derive(Clone, Debug, PartialEq, Eq, Drop)]
pub struct Blob {
    is_some: bool,
    // Empty where there is none, so that a value is written where one stands.
    bytes: ArrayVec<u8, 255>,
}

impl Model for Blob {
    ghost use Rattle.std.specs.Prelude.{◌≡◌, ℕ, ◌≤◌, false, List, [], length, Option};
    ghost use Rattle.record_text.specs.Blob.{blob_of, with_blob, blob_back};

    ghost Value = { Option (List ℕ) };

    ghost view = { λ b. blob_of b.is_some b.bytes.items };

    ghost invariant = { λ b. (length b.bytes.items ≤ 255) × (b.is_some ≡ false → b.bytes.items ≡ []) };

    ghost inverse = { with_blob (λ is_some bytes. record { is_some = is_some; bytes = record { items = bytes } }) };

    ghost inverse_ok = { λ b fits. blob_back (λ is_some bytes. record { is_some = is_some; bytes = record { items = bytes } }) b.is_some b.bytes.items fits.1 };
}

impl Blob {
    /// No value.
    pub fn none() -> Self
        ensures none { result ≡ None }
    {
        Blob {
            is_some: false,
            bytes: ArrayVec::new(),
        }
    }

    /// These bytes. Past 255 of them there is no such data value.
    pub fn of_bytes(bytes: &[u8]) -> Option<Self>
        ensures long { IsNone result ↔ (LONGEST_BLOB < length bytes.now) }
        ensures value { IfSome result (λ blob. blob ≡ Some bytes.now) }
    {
        if bytes.len() > LONGEST_BLOB {
            return None;
        }
        Some(BlobRef::new(Some(bytes)).to_blob())
    }

    /// The bytes, or none.
    pub fn bytes(&self) -> Option<&[u8]>
        ensures value { option_map (λ bytes. bytes.now) result ≡ self.now }
        ensures fits { IfSome result (λ bytes. length bytes.now ≤ LONGEST_BLOB) }
    {
        if self.is_some {
            Some(self.bytes.as_slice())
        } else {
            None
        }
    }

    /// The same, by a reference to its bytes.
    pub fn by_ref(&self) -> BlobRef<'_>
        ensures value { result ≡ self.now }
    {
        BlobRef::new(self.bytes())
    }

    /// The same once more.
    pub fn copy(&self) -> Self
        ensures value { result ≡ self.now }
    {
        self.by_ref().to_blob()
    }

    /// Becomes this data value.
    pub fn assign(&mut self, other: &Blob)
        ensures value { self.new ≡ other.now }
    {
        self.assign_from(&other.by_ref());
    }

    /// Becomes the data value whose bytes stand elsewhere.
    pub fn assign_from(&mut self, other: &BlobRef<'_>)
        ensures value { self.new ≡ other.now }
    {
        self.bytes.clear();
        match other.bytes() {
            Some(bytes) => {
                self.is_some = true;
                self.bytes.try_extend_from_slice(bytes).unwrap();
            }
            None => self.is_some = false,
        }
    }

    /// Whether both are the same data value.
    pub fn is_same(&self, other: &Blob) -> bool
        ensures same { IsTrue result ↔ (self.now ≡ other.now) }
    {
        match (self.bytes(), other.bytes()) {
            (Some(bytes), Some(others)) => bytes == others,
            (None, None) => true,
            _ => false,
        }
    }
}

/// How a node leads on, on one side: to a path below it, with the digest of the record there.
#[derive(Clone, Copy, Debug, PartialEq, Eq)]
pub struct Pointer {
    pub path: Path,
    /// The digest of the text of the path's value when it last left a cache under this node.
    pub digest: [u8; 32],
    /// Whether the record is checked later, by its epoch's sums, in place of its digest.
    pub deferred: bool,
}

/// The value of a path shorter than a key: a pointer for each side, none where nothing is below.
#[derive(Clone, Copy, Debug, PartialEq, Eq)]
pub struct Node {
    pub side0: Option<Pointer>,
    pub side1: Option<Pointer>,
}

/// What stands at a path: a data value at a key, and a node at a shorter path.
#[derive(Clone, Debug, PartialEq, Eq, Drop)]
pub enum Value {
    Blob(Blob),
    Node(Node),
}

impl Pointer {
    /// Whether both are the same pointer.
    pub fn is_same(&self, other: &Pointer) -> bool
        ensures same { IsTrue result ↔ (self.now ≡ other.now) }
    {
        if !self.path.is_same(&other.path) {
            return false;
        }
        if self.deferred != other.deferred {
            return false;
        }
        self.digest == other.digest
    }
}

// Whether both are empty, or the same pointer.
fn is_same_side(one: &Option<Pointer>, other: &Option<Pointer>) -> bool
    ensures same { IsTrue result ↔ (one.now ≡ other.now) }
{
    match (one, other) {
        (Some(pointer), Some(others)) => pointer.is_same(others),
        (None, None) => true,
        _ => false,
    }
}

impl Node {
    /// A node with nothing below it.
    pub fn empty() -> Self
        ensures value { result ≡ empty_node }
    {
        Node {
            side0: None,
            side1: None,
        }
    }

    /// Whether both are the same node.
    pub fn is_same(&self, other: &Node) -> bool
        ensures same { IsTrue result ↔ (self.now ≡ other.now) }
    {
        if !is_same_side(&self.side0, &other.side0) {
            return false;
        }
        is_same_side(&self.side1, &other.side1)
    }

    /// The pointer of this side, or none where it is empty.
    pub fn side(&self, side: bool) -> Option<Pointer>
        ensures value { result ≡ node_side self.now side }
    {
        if side { self.side1 } else { self.side0 }
    }

    /// The node with another pointer on this side.
    pub fn with_side(&self, side: bool, pointer: Option<Pointer>) -> Self
        ensures value { result ≡ with_side self.now side pointer }
    {
        if side {
            Node {
                side0: self.side0,
                side1: pointer,
            }
        } else {
            Node {
                side0: pointer,
                side1: self.side1,
            }
        }
    }
}

/// What a path starts with: no data value at a key, and a node with nothing below it at a shorter path.
pub fn initial(path: &Path) -> Value
    ensures value { result ≡ initial_value path.now }
    ensures kind { IsOf longest_blob path.now result }
{
    if path.is_data() {
        Value::Blob(Blob::none())
    } else {
        Value::Node(Node::empty())
    }
}

impl Value {
    /// The same once more.
    pub fn copy(&self) -> Self
        ensures value { result ≡ self.now }
    {
        match self {
            Value::Blob(blob) => Value::Blob(blob.copy()),
            Value::Node(node) => Value::Node(*node),
        }
    }

    /// Becomes this value: data over data where it stands.
    pub fn assign(&mut self, other: &Value)
        ensures value { self.new ≡ other.now }
    {
        match other {
            Value::Blob(blob) => self.assign_blob(&blob.by_ref()),
            Value::Node(node) => *self = Value::Node(*node),
        }
    }

    /// Becomes the data value whose bytes stand elsewhere: over data where it stands.
    pub fn assign_blob(&mut self, blob: &BlobRef<'_>)
        ensures value { self.new ≡ Value.Blob blob.now }
    {
        if let Value::Blob(own) = self {
            own.assign_from(blob);
            return;
        }
        *self = Value::Blob(blob.to_blob());
    }

    /// Whether both are the same value.
    pub fn is_same(&self, other: &Value) -> bool
        ensures same { IsTrue result ↔ (self.now ≡ other.now) }
    {
        match (self, other) {
            (Value::Blob(blob), Value::Blob(others)) => blob.is_same(others),
            (Value::Node(node), Value::Node(others)) => node.is_same(others),
            _ => false,
        }
    }
}
