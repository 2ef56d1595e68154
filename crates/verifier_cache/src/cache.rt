//! The bounded cache of a verifier.
ghost use Rattle.std.specs.Prelude.{◌≡◌, ◌+◌, ◌-◌, ◌*◌, ◌^◌, ◌<◌, ◌≤◌, nat_le, Bool, List, [], ◌∷◌, ◌++◌, length, Some, None, IsSome, IsNone, IfSome, IfNone, IfOk, All};
ghost use Rattle.std.specs.Option.{option_map, option_copied};
ghost use Rattle.std.specs.Borrow.{sem};
ghost use Rattle.verifier_cache.specs.LendsValue.{LendsValue};
ghost use Rattle.verifier_cache.specs.Entry.{kid_of, set_kid, linked, new_entry};
ghost use Rattle.verifier_cache.specs.Cache.{Held, IsHeld, AreDistinct, entry_of, without, changed, replaced};
ghost use Rattle.verifier_cache.specs.Alike.{AreAlike, Rises};
ghost use Rattle.verifier_cache.specs.Listed.{entries_in};

use crate::entry::{Entry, Hold};
use crate::listed::ListedEntry;
use crate::table::Table;
use base_words::Memory;
use path_index::{Hint, Steps};
use record_text::{Pointer, Value};
use std::alloc::Global;
use std::marker::{Brand, Model};
use std::sync::ledger::{Blank, Ledger};
use tree_keys::Path;

/// The records that a verifier holds at one time: no path twice, and no more than there is room for.
#[derive(Debug, Drop)]
pub struct Cache {
    table: Table,
    room: u32,
}

impl Model for Cache {
    ghost use Rattle.std.specs.Prelude.{◌≤◌, length};
    ghost use Rattle.verifier_cache.specs.Cache.{Held};
    ghost use Rattle.verifier_cache.specs.Table.{standing, IsTable, HasRoom};

    ghost Value = { Held };

    ghost view = { λ c. record { entries = standing c.table.stored.items; room = c.room } };

    ghost invariant = { λ c. IsTable c.table × HasRoom c.room c.table
        × (length (standing c.table.stored.items) ≤ c.room) };
}

impl Cache {
    /// A cache that holds nothing, with room for so many entries. It takes all of its memory here.
    pub fn new(alloc: Global, room: u32) -> Result<Self, Memory>
        ensures empty { IfOk result (λ cache. cache.entries ≡ []) }
        ensures room { IfOk result (λ cache. cache.room ≡ room) }
    {
        let table = Table::new(alloc, room)?;
        Ok(Cache { table, room })
    }

    /// A cache made again from entries with distinct paths, in their order. It takes all of its memory here.
    pub fn of_entries(alloc: Global, room: u32, listed: &[ListedEntry]) -> Result<Self, Memory>
        requires distinct { AreDistinct (entries_in listed.now) }
        requires within { length listed.now ≤ room }
        ensures entries { IfOk result (λ cache. cache.entries ≡ entries_in listed.now) }
        ensures room { IfOk result (λ cache. cache.room ≡ room) }
    {
        let mut cache = Cache::new(alloc, room)?;
        for one in listed {
            cache.insert_entry(one.entry.copy());
        }
        Ok(cache)
    }

    /// Its entries by rising path, in no slots: a walk of its index.
    pub fn listed(&self, alloc: Global) -> Result<Vec<ListedEntry>, Memory>
        ensures alike { IfOk result (λ listed. AreAlike self.now.entries (entries_in listed.items)) }
        ensures rises { IfOk result (λ listed. Rises (entries_in listed.items)) }
        ensures slots { IfOk result (λ listed. All (λ one. one.slot ≡ 0) listed.items) }
    {
        self.table.listed(alloc)
    }

    /// The number of entries.
    pub fn len(&self) -> usize
        ensures value { result ≡ length self.now.entries }
        ensures held { IsHeld self.now }
    {
        self.table.len()
    }

    /// Whether there is no room for another entry.
    pub fn is_full(&self) -> bool
        ensures value { result ≡ nat_le self.now.room (length self.now.entries) }
        ensures held { IsHeld self.now }
    {
        self.table.len() >= self.room as usize
    }

    /// The value of a path, if it is there.
    pub fn find(&self, k: &Path) -> Option<&Value>
        ensures value { option_copied result
            ≡ option_map (λ entry. entry.value) (entry_of k.now self.now.entries) }
    {
        match self.entry(k) {
            Some(entry) => Some(&entry.value),
            None => None,
        }
    }

    /// The same answer, with its comparisons of two paths counted.
    pub fn find_counted<L: Ledger>(&self, k: &Path, steps: &mut Steps<L>) -> Option<&Value>
        ensures value { option_copied result
            ≡ option_map (λ entry. entry.value) (entry_of k.now self.now.entries) }
        ensures steps { 2 ^ (steps.new - steps.old) ≤ 2 * length self.now.entries + 1 }
        ensures rise { steps.old ≤ steps.new }
        ensures counts { 0 < length self.now.entries → steps.old < steps.new }
    {
        match self.table.entry(k, steps) {
            Some(entry) => Some(&entry.value),
            None => None,
        }
    }

    /// The entry of a path, if it is there.
    pub fn entry(&self, k: &Path) -> Option<&Entry>
        ensures value { option_copied result ≡ entry_of k.now self.now.entries }
        ensures path { IfSome result (λ entry. entry.now.path ≡ k.now) }
    {
        self.table.entry_by::<Brand>(k, Blank::new(1))
    }

    /// Where a path is found, or would come in: the calls that are told so don't search for it again, as long
    /// as nothing comes in or goes out.
    pub fn hint(&self, k: &Path) -> Hint {
        self.table.hint(k)
    }

    /// The entry of a path, if it is there, by a hint.
    pub fn entry_near(&self, k: &Path, hint: Hint) -> Option<&Entry>
        ensures value { option_copied result ≡ entry_of k.now self.now.entries }
        ensures path { IfSome result (λ entry. entry.now.path ≡ k.now) }
    {
        self.table.entry_near(k, hint)
    }

    /// How the record of a path came in.
    pub fn hold(&self, k: &Path) -> Hold
        requires there { IsSome (entry_of k.now self.now.entries) }
        ensures value { IfSome (entry_of k.now self.now.entries) (λ entry. result ≡ entry.hold) }
    {
        self.entry(k).unwrap().hold
    }

    /// The kid bit of a path's side.
    pub fn kid(&self, k: &Path, side: bool) -> bool
        requires there { IsSome (entry_of k.now self.now.entries) }
        ensures value { IfSome (entry_of k.now self.now.entries)
            (λ entry. result ≡ kid_of entry side) }
    {
        self.entry(k).unwrap().kid(side)
    }

    /// Takes in a record, with no child under it.
    pub fn insert(&mut self, k: Path, v: Value, hold: Hold)
        requires room { length self.old.entries < self.old.room }
        requires absent { IsNone (entry_of k self.old.entries) }
        ensures entries { self.new.entries ≡ self.old.entries ++ new_entry k v hold ∷ [] }
        ensures room { self.new.room ≡ self.old.room }
    {
        self.insert_entry(Entry::new(k, v, hold));
    }

    /// Takes in an entry, behind the others.
    pub fn insert_entry(&mut self, entry: Entry)
        requires room { length self.old.entries < self.old.room }
        requires absent { IsNone (entry_of entry.path self.old.entries) }
        ensures entries { self.new.entries ≡ self.old.entries ++ entry ∷ [] }
        ensures room { self.new.room ≡ self.old.room }
    {
        let hint = self.hint(&entry.path);
        self.insert_near(entry, hint);
    }

    /// The same by a hint.
    pub fn insert_near(&mut self, entry: Entry, hint: Hint)
        requires room { length self.old.entries < self.old.room }
        requires absent { IsNone (entry_of entry.path self.old.entries) }
        ensures entries { self.new.entries ≡ self.old.entries ++ entry ∷ [] }
        ensures room { self.new.room ≡ self.old.room }
    {
        self.table.insert(entry, hint, self.room);
    }

    /// Takes the entry of a path out, and returns its value. The others stay in their order.
    pub fn remove(&mut self, k: &Path) -> Value
        requires there { IsSome (entry_of k.now self.old.entries) }
        ensures value { IfSome (entry_of k.now self.old.entries) (λ entry. result ≡ entry.value) }
        ensures entries { self.new.entries ≡ without k.now self.old.entries }
        ensures room { self.new.room ≡ self.old.room }
    {
        let hint = self.hint(k);
        self.remove_near(k, hint)
    }

    /// The same by a hint.
    pub fn remove_near(&mut self, k: &Path, hint: Hint) -> Value
        requires there { IsSome (entry_of k.now self.old.entries) }
        ensures value { IfSome (entry_of k.now self.old.entries) (λ entry. result ≡ entry.value) }
        ensures entries { self.new.entries ≡ without k.now self.old.entries }
        ensures room { self.new.room ≡ self.old.room }
    {
        self.table.remove(k, hint, self.room)
    }

    /// Takes the entry of a path out by a hint.
    pub fn leave_near(&mut self, k: &Path, hint: Hint)
        requires there { IsSome (entry_of k.now self.old.entries) }
        ensures entries { self.new.entries ≡ without k.now self.old.entries }
        ensures room { self.new.room ≡ self.old.room }
    {
        self.table.leave(k, hint, self.room);
    }

    /// Puts an entry in the place of the one of its path.
    pub fn replace(&mut self, entry: Entry)
        requires there { IsSome (entry_of entry.path self.old.entries) }
        ensures entries { self.new.entries ≡ replaced entry self.old.entries }
        ensures room { self.new.room ≡ self.old.room }

        // No path comes in.
        ensures len { length self.new.entries ≡ length self.old.entries }
        ensures absent { (k : List Bool) → IsNone (entry_of k self.old.entries)
            → IsNone (entry_of k self.new.entries) }
    {
        let hint = self.hint(&entry.path);
        self.replace_near(entry, hint);
    }

    /// The same by a hint.
    pub fn replace_near(&mut self, entry: Entry, hint: Hint)
        requires there { IsSome (entry_of entry.path self.old.entries) }
        ensures entries { self.new.entries ≡ replaced entry self.old.entries }
        ensures room { self.new.room ≡ self.old.room }
        ensures len { length self.new.entries ≡ length self.old.entries }
        ensures absent { (k : List Bool) → IsNone (entry_of k self.old.entries)
            → IsNone (entry_of k self.new.entries) }
    {
        let at = self.table.at(&entry.path, hint);
        self.table.stored[at].entry = entry;
    }

    /// The value of a path, to be written.
    pub fn value_mut(&mut self, k: &Path) -> &mut Value
        requires there { IsSome (entry_of k.now self.old.entries) }
        ensures* writes_back { sem 𝓛 (LendsValue self.entry k.now result) }
        ensures value { IfSome (entry_of k.now self.old.entries) (λ entry. result.now ≡ entry.value) }
    {
        let hint = self.hint(k);
        self.value_mut_near(k, hint)
    }

    /// The same by a hint.
    pub fn value_mut_near(&mut self, k: &Path, hint: Hint) -> &mut Value
        requires there { IsSome (entry_of k.now self.old.entries) }
        ensures* writes_back { sem 𝓛 (LendsValue self.entry k.now result) }
        ensures value { IfSome (entry_of k.now self.old.entries) (λ entry. result.now ≡ entry.value) }
    {
        let at = self.table.at(k, hint);
        let stored = &mut self.table.stored[at];
        &mut stored.entry.value
    }

    /// Sets or clears the kid bit of a path's side.
    pub fn set_kid(&mut self, k: &Path, side: bool, on: bool)
        requires there { IsSome (entry_of k.now self.old.entries) }
        ensures entries { self.new.entries
            ≡ changed k.now (λ entry. set_kid entry side on) self.old.entries }
        ensures room { self.new.room ≡ self.old.room }
    {
        let hint = self.table.hint(k);
        let at = self.table.at(k, hint);
        self.table.stored[at].entry.set_kid(side, on);
    }

    /// Writes the pointer of a side of a path's node, and sets or clears the kid bit of that side, by a hint.
    pub fn link_near(
        &mut self,
        k: &Path,
        hint: Hint,
        side: bool,
        pointer: Option<Pointer>,
        kid: bool,
    )
        requires there { IsSome (entry_of k.now self.old.entries) }
        ensures entries { IfSome (entry_of k.now self.old.entries)
            (λ entry. self.new.entries ≡ replaced (linked entry side pointer kid) self.old.entries) }
        ensures room { self.new.room ≡ self.old.room }
        ensures len { length self.new.entries ≡ length self.old.entries }
        ensures absent { (j : List Bool) → IsNone (entry_of j self.old.entries)
            → IsNone (entry_of j self.new.entries) }
    {
        let at = self.table.at(k, hint);
        self.table.stored[at].entry.link(side, pointer, kid);
    }
}
