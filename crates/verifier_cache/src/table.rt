//! The entries of a cache as they lie in memory, with their index.
//!
//! They lie in the order in which they came in. One that leaves stays behind as a gap, so that none is moved
//! and no mark of the index has to change. Once there are more gaps than entries, all are closed.
ghost use Rattle.std.specs.Prelude.{◌≡◌, ℕ, ◌+◌, ◌-◌, ◌*◌, ◌^◌, ◌<◌, ◌≤◌, [], ◌∷◌, ◌++◌, length, take, slice_index, vec_len, vec_capacity, IsSome, IsNone, IfSome, IfOk, All};
ghost use Rattle.std.specs.Option.{option_copied};
ghost use Rattle.verifier_cache.specs.Cache.{entry_of, without};
ghost use Rattle.verifier_cache.specs.Alike.{AreAlike, Rises};
ghost use Rattle.verifier_cache.specs.Listed.{entries_in};
ghost use Rattle.verifier_cache.specs.Table.{standing, is_live, IsTable, HasRoom, IsAt};
ghost use Rattle.path_index.specs.Index.{mark_at, count_of, most_of, IsSound};
ghost use Rattle.std.specs.List.{filter};

use crate::entry::Entry;
use crate::listed::ListedEntry;
use base_words::Memory;
use path_index::{Hint, Index, Mark, Steps, hint_of, search, search_near};
use record_text::Value;
use std::alloc::Global;
use std::sync::ledger::{Blank, Ledger};
use tree_keys::Path;

/// So many gaps may lie among a few entries before they are closed.
const FEW_GAPS: usize = 64;

/// An entry that came in, and whether it is there still.
#[derive(Debug, Drop)]
pub struct Stored {
    pub entry: Entry,
    pub live: bool,
}

/// The entries of a cache, and where each lies.
#[derive(Debug, Drop)]
pub struct Table {
    pub stored: Vec<Stored>,
    pub index: Index,
    // where each stored entry comes to lie, while gaps are closed
    targets: Vec<usize>,
}

impl Table {
    /// A table of nothing, with room for so many entries. It takes all of its memory here.
    pub(crate) fn new(alloc: Global, room: u32) -> Result<Self, Memory>
        ensures empty { IfOk result (λ table. standing table.stored.items ≡ []) }
        ensures table { IfOk result IsTable }
        ensures room { IfOk result (HasRoom room) }
    {
        let most = 2 * room as usize + FEW_GAPS;
        let stored = Vec::with_capacity(alloc, most)?;
        let targets = Vec::with_capacity(alloc, most)?;
        let index = Index::new(alloc, room)?;
        Ok(Table {
            stored,
            index,
            targets,
        })
    }

    /// The number of entries.
    pub(crate) fn len(&self) -> usize
        requires table { IsTable self.now }
        ensures value { result ≡ length (standing self.now.stored.items) }
    {
        self.index.len()
    }

    /// The entry of a path, if it is there.
    pub(crate) fn entry<L: Ledger>(&self, k: &Path, steps: &mut Steps<L>) -> Option<&Entry>
        requires table { IsTable self.now }
        ensures value { option_copied result ≡ entry_of k.now (standing self.now.stored.items) }
        ensures path { IfSome result (λ entry. entry.now.path ≡ k.now) }
        ensures steps { 2 ^ (steps.new - steps.old) ≤ 2 * length (standing self.now.stored.items) + 1 }
        ensures rise { steps.old ≤ steps.new }
        ensures counts { 0 < length (standing self.now.stored.items) → steps.old < steps.new }
    {
        match search(&self.index, k, steps) {
            Ok(rank) => Some(&self.stored[self.index.mark(rank).at].entry),
            Err(_) => None,
        }
    }

    /// The same by a new ledger, which nobody reads.
    pub(crate) fn entry_by<L: Ledger>(&self, k: &Path, blank: Blank) -> Option<&Entry>
        requires name { blank.name ≡ L.name }
        requires parts { blank.parts ≡ L.parts }
        requires some { 0 < blank.parts }
        requires table { IsTable self.now }
        ensures value { option_copied result ≡ entry_of k.now (standing self.now.stored.items) }
        ensures path { IfSome result (λ entry. entry.now.path ≡ k.now) }
    {
        let mut steps = Steps::<L>::open(blank);
        self.entry(k, &mut steps)
    }

    /// Its entries in the order of the index, each once.
    pub(crate) fn listed(&self, alloc: Global) -> Result<Vec<ListedEntry>, Memory>
        requires table { IsTable self.now }
        ensures alike { IfOk result (λ listed. AreAlike (standing self.now.stored.items) (entries_in listed.items)) }
        ensures rises { IfOk result (λ listed. Rises (entries_in listed.items)) }
        ensures slots { IfOk result (λ listed. All (λ one. one.slot ≡ 0) listed.items) }
    {
        let mut listed = Vec::with_capacity(alloc, self.index.len())?;
        for rank in 0..self.index.len() {
            let at = self.index.mark(rank).at;
            let entry = self.stored[at].entry.copy();
            listed.push_reserved(ListedEntry { slot: 0, entry });
        }
        Ok(listed)
    }

    /// Where a path is found, or would come in.
    pub(crate) fn hint(&self, k: &Path) -> Hint
        requires table { IsTable self.now }
    {
        hint_of(&self.index, k)
    }

    /// The entry of a path, if it is there, by a hint.
    pub(crate) fn entry_near(&self, k: &Path, hint: Hint) -> Option<&Entry>
        requires table { IsTable self.now }
        ensures value { option_copied result ≡ entry_of k.now (standing self.now.stored.items) }
        ensures path { IfSome result (λ entry. entry.now.path ≡ k.now) }
    {
        match search_near(&self.index, k, hint) {
            Ok(rank) => Some(&self.stored[self.index.mark(rank).at].entry),
            Err(_) => None,
        }
    }

    /// Where the entry of a path lies that is there.
    pub(crate) fn at(&self, k: &Path, hint: Hint) -> usize
        requires table { IsTable self.now }
        requires there { IsSome (entry_of k.now (standing self.now.stored.items)) }
        ensures at { IsAt k.now self.now.stored.items result }
    {
        let found = search_near(&self.index, k, hint).unwrap();
        self.index.mark(found).at
    }

    /// Takes in an entry, behind the others.
    pub(crate) fn insert(&mut self, entry: Entry, hint: Hint, room: u32)
        requires table { IsTable self.old }
        requires fits { HasRoom room self.old }
        requires room { length (standing self.old.stored.items) < room }
        requires absent { IsNone (entry_of entry.path (standing self.old.stored.items)) }
        ensures table { IsTable self.new }
        ensures fits { HasRoom room self.new }
        ensures entries { standing self.new.stored.items ≡ standing self.old.stored.items ++ entry ∷ [] }
    {
        self.close_many_gaps(room);
        let rank = search_near(&self.index, &entry.path, hint).unwrap_err();
        let mark = Mark {
            path: entry.path,
            at: self.stored.len(),
        };
        self.index.insert(rank, mark);
        self.stored.push_reserved(Stored { entry, live: true });
    }

    // Closes the gaps where there are many.
    fn close_many_gaps(&mut self, room: u32)
        requires table { IsTable self.old }
        requires fits { HasRoom room self.old }
        ensures table { IsTable self.new }
        ensures fits { HasRoom room self.new }
        ensures entries { standing self.new.stored.items ≡ standing self.old.stored.items }
        ensures few { length self.new.stored.items < 2 * length (standing self.old.stored.items) + 64 }
    {
        if self.stored.len() >= 2 * self.index.len() + FEW_GAPS {
            self.close_gaps(room);
        }
    }

    // Closes all gaps.
    fn close_gaps(&mut self, room: u32)
        requires table { IsTable self.old }
        requires fits { HasRoom room self.old }
        ensures table { IsTable self.new }
        ensures fits { HasRoom room self.new }
        ensures entries { standing self.new.stored.items ≡ standing self.old.stored.items }
        ensures none { length self.new.stored.items ≡ length (standing self.old.stored.items) }
    {
        let kept = compact(&mut self.stored, &mut self.targets);
        relocate_all(&mut self.index, &self.targets);
        self.stored.truncate(kept);
    }

    /// Takes the entry of a path out, and returns its value.
    pub(crate) fn remove(&mut self, k: &Path, hint: Hint, room: u32) -> Value
        requires table { IsTable self.old }
        requires fits { HasRoom room self.old }
        requires there { IsSome (entry_of k.now (standing self.old.stored.items)) }
        ensures table { IsTable self.new }
        ensures fits { HasRoom room self.new }
        ensures value { IfSome (entry_of k.now (standing self.old.stored.items)) (λ entry. result ≡ entry.value) }
        ensures entries { standing self.new.stored.items ≡ without k.now (standing self.old.stored.items) }
    {
        let value = self.entry_near(k, hint).unwrap().value.copy();
        self.leave(k, hint, room);
        value
    }

    /// Takes the entry of a path out.
    pub(crate) fn leave(&mut self, k: &Path, hint: Hint, room: u32)
        requires table { IsTable self.old }
        requires fits { HasRoom room self.old }
        requires there { IsSome (entry_of k.now (standing self.old.stored.items)) }
        ensures table { IsTable self.new }
        ensures fits { HasRoom room self.new }
        ensures entries { standing self.new.stored.items ≡ without k.now (standing self.old.stored.items) }
    {
        let rank = search_near(&self.index, k, hint).unwrap();
        let at = self.index.mark(rank).at;
        self.index.remove(rank);
        self.stored[at].live = false;
    }
}

// Moves the entries that are there still to the front, in their order, and notes for each place how many of them
// lay before it. Returns how many they are.
fn compact(stored: &mut Vec<Stored>, targets: &mut Vec<usize>) -> usize
    requires room { length stored.old.items ≤ vec_capacity targets.old }
    ensures kept { take result stored.new.items ≡ filter is_live stored.old.items }
    ensures count { result ≡ length (filter is_live stored.old.items) }
    ensures len { length stored.new.items ≡ length stored.old.items }
    ensures capacity { vec_capacity stored.new ≡ vec_capacity stored.old }
    ensures noted { length targets.new.items ≡ length stored.old.items }
    ensures targets { (i : ℕ) → i < length stored.old.items
        → slice_index targets.new.items i ≡ length (filter is_live (take i stored.old.items)) }
    ensures targets_capacity { vec_capacity targets.new ≡ vec_capacity targets.old }
{
    targets.clear();
    let mut kept = 0;
    for i in 0..stored.len() {
        targets.push_reserved(kept);
        if stored[i].live {
            stored.swap(kept, i);
            kept += 1;
        }
    }
    kept
}

// Lets each mark lead to where its entry came to lie.
fn relocate_all(index: &mut Index, targets: &[usize])
    requires sound { IsSound index.old }
    requires within { (i : ℕ) → i < count_of index.old → (mark_at index.old i).at < length targets.now }
    ensures sound { IsSound index.new }
    ensures count { count_of index.new ≡ count_of index.old }
    ensures most { most_of index.new ≡ most_of index.old }
    ensures marks { (i : ℕ) → i < count_of index.old
        → mark_at index.new i ≡ record { path = (mark_at index.old i).path; at = slice_index targets.now (mark_at index.old i).at } }
{
    for rank in 0..index.len() {
        let at = index.mark(rank).at;
        index.relocate(rank, targets[at]);
    }
}
