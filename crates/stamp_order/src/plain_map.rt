//! A plain map from keys to values, which operations are replayed on.
ghost use Rattle.std.specs.Prelude.{◌≡◌, ℕ, List, Option, nat_eq, OnOk, OnErr};
ghost use Rattle.std.specs.Map.{update};
ghost use Rattle.stamp_order.specs.Serial.{none_everywhere};
ghost use Rattle.std.specs.List.{AllByRecursion};
ghost use Rattle.std.specs.Map.Iter.{ShowsInOrder, ShowsValuesInOrder, deref_pair};
ghost use Rattle.stamp_order.specs.PlainMap.{value_at, AreRising, IsEntry};

use base_words::Memory;
use record_text::Blob;
use std::alloc::Global;
use std::collections::BTreeMap;
use std::collections::btree_map::Iter;
use std::marker::Model;

/// A map from keys to data values, none at every key at first. It has an entry for each key that has a value, and no other. Contracts
/// see it as its entries, and read them as a function by `value_at`.
#[derive(Drop)]
pub struct PlainMap {
    values: BTreeMap<u128, Blob>,
}

impl Model for PlainMap {
    ghost use Rattle.std.specs.Prelude.{ℕ, List, Option};
    ghost use Rattle.std.specs.List.{AllByRecursion};
    ghost use Rattle.stamp_order.specs.PlainMap.{IsEntry};

    ghost Value = { List (ℕ × Option (List ℕ)) };

    ghost view = { λ m. m.values.entries };

    ghost invariant = { λ m. AllByRecursion IsEntry m.values.entries };
}

impl PlainMap {
    /// The map that is none at every key. It takes memory from `alloc` as it grows.
    pub fn new(alloc: Global) -> Self
        ensures none { value_at result ≡ none_everywhere }
    {
        PlainMap {
            values: BTreeMap::new(alloc),
        }
    }

    /// Sets the value of a key, and leaves the others. For want of memory the map is as before.
    pub fn put(&mut self, key: u128, value: Blob) -> Result<(), Memory>
        ensures ok { OnOk result (value_at self.new ≡ update nat_eq (value_at self.old) key value) }
        ensures err { OnErr result (self.new ≡ self.old) }
    {
        if value.bytes().is_some() {
            self.values.insert(key, value)?;
        } else {
            self.values.remove(&key);
        }
        Ok(())
    }

    /// The value of a key.
    pub fn get(&self, key: u128) -> Blob
        ensures value { result ≡ value_at self.now key }
    {
        match self.values.get(&key) {
            Some(value) => value.copy(),
            None => Blob::none(),
        }
    }

    /// Each key that has a value, with it, by key in rising order. Contracts see the entries that are left.
    pub fn entries(&self) -> Iter<'_, u128, Blob>
        ensures list { result ≡ self.now }
        ensures rising { AreRising self.now }
        ensures valued { AllByRecursion IsEntry self.now }
        ensures runs { ShowsInOrder (deref_pair {K = ℕ} {X = Option (List ℕ)}) }
        ensures values_run { ShowsValuesInOrder (deref_pair {K = ℕ} {X = Option (List ℕ)}) }
    {
        self.values.iter()
    }
}
