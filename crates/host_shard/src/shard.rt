//! Shards.
ghost use Rattle.std.specs.Prelude.{◌≡◌, ◌<◌, ◌^◌, IsSome};
ghost use Rattle.std.specs.Option.{option_copied};
ghost use Rattle.tree_keys.specs.Path.{depth, IsNodePath, IsData};
ghost use Rattle.record_text.specs.Element.{IsStamp};
ghost use Rattle.record_text.specs.Longest.{longest_blob};
ghost use Rattle.host_shard.specs.Shard.{key_path_in, tree_of, new_shard, pending_shard, touched};
ghost use Rattle.host_shard.specs.Mirrors.{IsShard};
ghost use Rattle.host_shard.specs.Shown.{shown};

use crate::records::Records;
use crate::waiting::waiting;
use lamport_clocks::Stamp;
use record_text::{Element, Value, initial};
use std::alloc::Global;
use tree_keys::Path;

/// The records at and below one path, and with what that path was evicted last.
#[derive(Drop)]
pub struct Shard {
    /// The path at and below which the records lie.
    pub frontier: Path,
    /// The frontier's value.
    pub value: Value,
    /// The records below the frontier.
    pub records: Records,
    /// The stamp with which the frontier was evicted last.
    pub stamp: Stamp,
    /// The verifier that evicted it.
    pub evictor: u16,
}

impl Shard {
    /// A shard without records, whose frontier has its initial value.
    pub fn new(alloc: Global, frontier: Path, stamp: Stamp, evictor: u16) -> Self
        ensures shard { shown result ≡ new_shard frontier stamp evictor }
        ensures fits { 0 < depth frontier → IsNodePath frontier → IsShard longest_blob (shown result) }
    {
        Shard {
            frontier,
            value: initial(&frontier),
            records: Records::new(alloc),
            stamp,
            evictor,
        }
    }

    /// The path of a key in the tree of its frontier.
    pub fn path_of(&self, key: u128) -> Path
        ensures path { result ≡ key_path_in (shown self.now) key }
        ensures whole { IsData result }
    {
        Path::of_number(self.frontier.is_wide(), key)
    }

    /// The value of a path, the frontier's too, if it has a record.
    pub fn value_of(&self, path: &Path) -> Option<&Value>
        ensures value { option_copied result ≡ tree_of (shown self.now) path.now }
    {
        if path.is_same(&self.frontier) {
            return Some(&self.value);
        }
        match self.records.get(path) {
            Some(kept) => Some(&kept.value),
            None => None,
        }
    }

    /// The element with which the shard waits, until a verifier takes it in.
    pub fn pending(&self) -> Element
        ensures value { result ≡ pending_shard (shown self.now) }
        ensures stamp { IsStamp result.stamp }
        ensures verifier { result.verifier < 2 ^ 16 }
    {
        waiting(self.frontier, self.value.copy(), self.stamp, self.evictor)
    }

    /// Counts one touch more of a key that has a record.
    pub fn touch(&mut self, key: u128)
        requires there { IsSome ((shown self.old).records (key_path_in (shown self.old) key)) }
        ensures touched { shown self.new ≡ record (shown self.old) {
          touches = touched (shown self.old).touches (key_path_in (shown self.old) key);
        } }
    {
        let path = self.path_of(key);
        self.records.touch(&path);
    }

    /// Forgets how often the keys were touched.
    pub fn forget_touches(&mut self)
        ensures forgotten { shown self.new ≡ record (shown self.old) { touches = λ k. 0 } }
    {
        self.records.forget_touches();
    }
}
