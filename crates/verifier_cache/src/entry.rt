//! What a cache keeps of a record.
ghost use Rattle.std.specs.Prelude.{◌≡◌};
ghost use Rattle.record_text.specs.Value.{with_side};
ghost use Rattle.verifier_cache.specs.Entry.{kid_of, set_kid, has_kid, linked, new_entry};

use record_text::{Node, Pointer, Value};
use tree_keys::Path;

/// How a record came into the cache.
#[derive(Clone, Copy, Debug, PartialEq, Eq)]
pub enum Hold {
    /// The root, which is there from the start and never leaves.
    Root,
    /// By its parent's digest (a Merkle add).
    M,
    /// By a deferred add, whose stamp the epoch's sums check (Blum et al. 1994).
    B,
}

/// A record that stands in the cache.
#[derive(Clone, Debug, PartialEq, Eq, Drop)]
pub struct Entry {
    pub path: Path,
    pub value: Value,
    pub hold: Hold,
    /// The kid bits of side 0 and of side 1: whether the child of that side stands in this cache, having
    /// come in by this entry.
    pub kids: [bool; 2],
}

impl Entry {
    /// A record that comes in, with no child under it.
    pub fn new(path: Path, value: Value, hold: Hold) -> Self
        ensures value { result ≡ new_entry path value hold }
    {
        Entry {
            path,
            value,
            hold,
            kids: [false, false],
        }
    }

    /// The same once more.
    pub fn copy(&self) -> Self
        ensures value { result ≡ self.now }
    {
        Entry {
            path: self.path,
            value: self.value.copy(),
            hold: self.hold,
            kids: self.kids,
        }
    }

    /// The kid bit of a side.
    pub fn kid(&self, side: bool) -> bool
        ensures value { result ≡ kid_of self.now side }
    {
        if side { self.kids[1] } else { self.kids[0] }
    }

    /// Whether a child stands in the cache under this entry.
    pub fn has_kid(&self) -> bool
        ensures value { result ≡ has_kid self.now }
    {
        self.kid(false) || self.kid(true)
    }

    /// Sets or clears the kid bit of a side.
    pub fn set_kid(&mut self, side: bool, on: bool)
        ensures value { self.new ≡ set_kid self.old side on }
    {
        let kids = if side {
            [self.kid(false), on]
        } else {
            [on, self.kid(true)]
        };
        self.kids = kids;
    }

    /// Writes the pointer of a side, if the value is a node, and sets or clears the kid bit of that side.
    pub fn link(&mut self, side: bool, pointer: Option<Pointer>, kid: bool)
        ensures value { self.new ≡ linked self.old side pointer kid }
    {
        if let Value::Node(node) = &mut self.value {
            point(node, side, pointer);
        }
        self.set_kid(side, kid);
    }
}

// Writes the pointer of a side.
fn point(node: &mut Node, side: bool, pointer: Option<Pointer>)
    ensures value { node.new ≡ with_side node.old side pointer }
{
    if side {
        node.side1 = pointer;
    } else {
        node.side0 = pointer;
    }
}
