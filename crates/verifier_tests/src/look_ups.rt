//! A cache beside a plain list that is searched from its end, and how many comparisons a look-up makes.
ghost use Rattle.std.specs.Prelude.{◌≡◌, ◌+◌, ◌<◌, ◌≤◌, length, IfSome};

use crate::rows::{same, same_at};
use record_text::{Blob, Value};
use std::alloc::Global;
use std::marker::Brand;
use std::process::Abort;
use std::sync::ledger::{Blank, Ledger};
use tree_keys::Path;
use verifier_cache::{Cache, Entry, Hold, Steps};

// The entries that a cache is to hold.
#[derive(Drop)]
struct Plain {
    entries: Vec<Entry>,
}

// The index at which a path's entry stands in a list.
fn position(entries: &[Entry], k: &Path) -> Option<usize>
    ensures within { IfSome result (λ i. i < length entries.now) }
{
    for i in (0..entries.len()).rev() {
        if k.is_same(&entries[i].path) {
            return Some(i);
        }
    }
    None
}

impl Plain {
    // The entry of a path.
    fn entry(&self, k: &Path) -> Option<&Entry> {
        match position(&self.entries, k) {
            Some(i) => Some(&self.entries[i]),
            None => None,
        }
    }

    // Takes an entry in that isn't there, unless there are too many.
    fn insert(&mut self, rt: &impl Abort, entry: Entry, room: usize) -> bool {
        if self.entries.len() >= room {
            return false;
        }
        if position(&self.entries, &entry.path).is_some() {
            return false;
        }
        self.entries.push(entry).expect(rt, "memory");
        true
    }

    // Takes the entry of a path out, if it is there.
    fn remove(&mut self, k: &Path) -> Option<Value> {
        match position(&self.entries, k) {
            Some(i) => Some(self.entries.remove(i).value),
            None => None,
        }
    }

    // Puts an entry in the place of the one of its path, if that is there.
    fn replace(&mut self, entry: Entry) -> bool {
        match position(&self.entries, &entry.path) {
            Some(i) => {
                self.entries[i] = entry;
                true
            }
            None => false,
        }
    }
}

// The same of a cache.
fn insert(rt: &impl Abort, cache: &mut Cache, entry: Entry) -> bool {
    if cache.is_full() {
        return false;
    }
    if cache.entry(&entry.path).is_some() {
        return false;
    }
    cache.insert_entry(entry);
    true
}

fn remove(cache: &mut Cache, k: &Path) -> Option<Value> {
    if cache.find(k).is_none() {
        return None;
    }
    Some(cache.remove(k))
}

fn replace(cache: &mut Cache, entry: Entry) -> bool {
    if cache.find(&entry.path).is_none() {
        return false;
    }
    cache.replace(entry);
    true
}

// The next of a row of numbers without much order (Knuth).
fn number_after(number: u64) -> u64 {
    number
        .wrapping_mul(6364136223846793005)
        .wrapping_add(1442695040888963407)
}

// A path of about a thousand, short and long ones.
fn path_by(number: u64) -> Path {
    let len = (number >> 40) % 13 * 5;
    Path::of_key((number >> 50) << 57).front(len as u8)
}

// An entry of that path, which holds the number.
fn entry_by(rt: &impl Abort, number: u64) -> Entry {
    let blob = Blob::of_bytes(&number.to_be_bytes()).expect(rt, "a value that is too long");
    Entry {
        path: path_by(number),
        value: Value::Blob(blob),
        hold: Hold::B,
        kids: [number % 3 == 0, number % 5 == 0],
    }
}

// Does the same to a cache and to a list: says whether both answered alike.
fn both(rt: &impl Abort, cache: &mut Cache, plain: &mut Plain, room: usize, number: u64) -> bool {
    let entry = entry_by(rt, number);
    let again = entry_by(rt, number);
    match (number >> 32) % 8 {
        0 | 1 | 2 | 3 => insert(rt, cache, entry) == plain.insert(rt, again, room),
        4 | 5 => remove(cache, &entry.path) == plain.remove(&entry.path),
        _ => replace(cache, entry) == plain.replace(again),
    }
}

// Does the same to both, and then looks another path up in both.
fn assert_alike(rt: &impl Abort, cache: &mut Cache, plain: &mut Plain, room: usize, number: u64) {
    let alike = both(rt, cache, plain, room, number);
    same_at(rt, number, &alike, &true);
    same_at(rt, number, &cache.len(), &plain.entries.len());
    let other = path_by(number_after(number));
    same_at(rt, number, &cache.entry(&other), &plain.entry(&other));
}

// The cache has each of these entries.
fn assert_all_there(rt: &impl Abort, cache: &Cache, entries: &[Entry]) {
    for entry in entries {
        match cache.entry(&entry.path) {
            Some(found) => same(rt, "an entry at last", found, entry),
            None => panic!(rt; "an entry that has gone"),
        }
    }
}

#[test]
fn a_cache_answers_as_a_plain_list_does(rt: HostRuntime) {
    for room in [1u32, 7, 70, 700] {
        let mut cache = Cache::new(rt.alloc(), room).expect(&rt, "memory");
        let mut plain = Plain {
            entries: Vec::new(rt.alloc()),
        };
        let mut number = u64::from(room);
        for _ in 0..3000 {
            number = number_after(number);
            assert_alike(&rt, &mut cache, &mut plain, room as usize, number);
        }
        assert_all_there(&rt, &cache, &plain.entries);
    }
}

// Looks a path up, in at most so many steps with so many entries: none without entries, one with one, three
// with four.
fn has<L: Ledger>(cache: &Cache, k: &Path, steps: &mut Steps<L>) -> bool
    ensures none { length cache.now.entries ≡ 0 → steps.new ≡ steps.old }
    ensures one { length cache.now.entries ≡ 1 → steps.new ≤ steps.old + 1 }
    ensures four { length cache.now.entries ≡ 4 → steps.new ≤ steps.old + 3 }
{
    cache.find_counted(k, steps).is_some()
}

// The same by a new ledger.
fn has_by<L: Ledger>(cache: &Cache, k: &Path, blank: Blank) -> bool
    requires name { blank.name ≡ L.name }
    requires parts { blank.parts ≡ L.parts }
    requires some { 0 < blank.parts }
{
    let mut steps = Steps::<L>::open(blank);
    has(cache, k, &mut steps)
}

// A cache of the keys below the count.
fn cache_of(rt: &impl Abort, alloc: Global, count: u64) -> Cache {
    let mut cache = Cache::new(alloc, 4).expect(rt, "memory");
    for key in 0..count {
        let entry = Entry::new(Path::of_key(key), Value::Blob(Blob::none()), Hold::B);
        same_at(rt, key, &insert(rt, &mut cache, entry), &true);
    }
    cache
}

#[test]
fn few_entries_take_few_steps(rt: HostRuntime) {
    for count in [0u64, 1, 4] {
        let cache = cache_of(&rt, rt.alloc(), count);
        for key in 0..5 {
            let path = Path::of_key(key);
            let found = has_by::<Brand>(&cache, &path, Blank::new(1));
            same_at(&rt, key, &found, &(key < count));
        }
    }
}
