//! What went out of the caches, of each path the last.
ghost use Rattle.std.specs.Prelude.{◌≡◌, OnOk, OnErr};
ghost use Rattle.std.specs.Option.{option_map};
ghost use Rattle.soundness.specs.Clash.{none_evicted, with_last_evicted};
ghost use Rattle.collision_exhibit.specs.LastEvicted.{last_evicted_at};

use base_words::Memory;
use record_text::Value;
use std::alloc::Global;
use std::collections::BTreeMap;
use std::marker::Model;
use tree_keys::Path;

/// The value with which each path was last evicted, if it was. Contracts see the entries, and read them as a
/// function from paths by `last_evicted_at`.
#[derive(Drop)]
pub(crate) struct LastEvictedValues<'a> {
    values: BTreeMap<Path, &'a Value>,
}

impl<'a> Model for LastEvictedValues<'a> {
    ghost use Rattle.std.specs.Prelude.{map};
    ghost use Rattle.collision_exhibit.specs.LastEvicted.{Entries};

    ghost Value = { Entries };

    ghost view = { λ t. map (λ entry. (entry.0, entry.1.now)) t.values.entries };
}

impl<'a> LastEvictedValues<'a> {
    /// Nothing was evicted. It takes memory from `alloc` as it grows.
    pub(crate) fn new(alloc: Global) -> Self
        ensures none { last_evicted_at result ≡ none_evicted }
    {
        LastEvictedValues {
            values: BTreeMap::new(alloc),
        }
    }

    /// A path was evicted with this value. For want of memory all is as before.
    pub(crate) fn put(&mut self, path: &Path, value: &'a Value) -> Result<(), Memory>
        ensures ok { OnOk result (last_evicted_at self.new ≡ with_last_evicted (last_evicted_at self.old) path.now value.now) }
        ensures err { OnErr result (self.new ≡ self.old) }
    {
        match self.values.insert(*path, value) {
            Ok(_) => Ok(()),
            Err(_) => Err(Memory),
        }
    }

    /// The value with which a path was last evicted.
    pub(crate) fn get(&self, path: &Path) -> Option<&'a Value>
        ensures value { option_map (λ value. value.now) result ≡ last_evicted_at self.now path.now }
    {
        match self.values.get(path) {
            Some(value) => Some(*value),
            None => None,
        }
    }
}
