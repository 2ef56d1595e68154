//! A cache of a few records, by hand.
ghost use Rattle.std.specs.Prelude.{◌≡◌, IsSome};
ghost use Rattle.verifier_cache.specs.Entry.{with_value};
ghost use Rattle.verifier_cache.specs.Cache.{entry_of, changed};

use crate::rows::{field, one_byte, path_of, same};
use record_text::{Value, initial};
use std::process::Abort;
use tree_keys::Path;
use verifier_cache::{Cache, Entry, Hold};

// Writes a value by the reference that the cache lends.
fn write(cache: &mut Cache, k: &Path, value: Value)
    requires there { IsSome (entry_of k.now cache.old.entries) }
    ensures entries { cache.new.entries ≡ changed k.now (λ entry. with_value entry value) cache.old.entries }
    ensures room { cache.new.room ≡ cache.old.room }
{
    *cache.value_mut(k) = value;
}

// Takes in a data path's first record, if it can.
fn take_in(cache: &mut Cache, key: u64) -> bool {
    let path = Path::of_key(key);
    if cache.is_full() {
        return false;
    }
    if cache.entry(&path).is_some() {
        return false;
    }
    cache.insert(path, initial(&path), Hold::M);
    true
}

// Takes a data path's record out, if it is there.
fn take_out(cache: &mut Cache, key: u64) -> Option<Value> {
    let path = Path::of_key(key);
    if cache.find(&path).is_none() {
        return None;
    }
    Some(cache.remove(&path))
}

// Both kid bits and the hold of a path.
fn state_of(cache: &Cache, k: &Path) -> Option<([bool; 2], Hold)> {
    if cache.entry(k).is_none() {
        return None;
    }
    Some(([cache.kid(k, false), cache.kid(k, true)], cache.hold(k)))
}

// Whether a key is there.
fn has(cache: &Cache, key: u64) -> bool {
    cache.find(&Path::of_key(key)).is_some()
}

// A key, whether it comes in or goes out, whether it can, and whether the keys 0, 1, 2 and 3 are there then.
const COMINGS: &str = "
2 in true 0010
2 in false 0010
0 in true 1010
3 in true 1011
1 in false 1011
1 out false 1011
0 out true 0011
1 in true 0111
3 out true 0110
2 out true 0100
";

// Takes a key in or out, as a row says, and says whether it could.
fn come_or_go(rt: &impl Abort, cache: &mut Cache, row: &str) -> bool {
    let key = field(rt, row, 0).parse().expect(rt, "a number");
    if field(rt, row, 1) == "in" {
        take_in(cache, key)
    } else {
        take_out(cache, key).is_some()
    }
}

// The keys from 0 on are there where the row has a 1.
fn assert_keys(rt: &impl Abort, cache: &Cache, row: &str) {
    for (key, there) in field(rt, row, 3).as_bytes().iter().enumerate() {
        same(rt, row, &has(cache, key as u64), &(*there == b'1'));
    }
}

#[test]
fn entries_come_and_go(rt: HostRuntime) {
    let mut cache = Cache::new(rt.alloc(), 3).expect(&rt, "memory");
    same(&rt, "entries at first", &cache.len(), &0);
    for row in COMINGS.trim().lines() {
        let done = come_or_go(&rt, &mut cache, row);
        same(&rt, row, &done, &(field(&rt, row, 2) == "true"));
        assert_keys(&rt, &cache, row);
    }
    same(&rt, "entries at last", &cache.len(), &1);
}

// Sets or clears a kid bit of a path, if it is there.
fn change(cache: &mut Cache, k: &Path, side: bool, on: bool) -> bool {
    if cache.entry(k).is_none() {
        return false;
    }
    cache.set_kid(k, side, on);
    true
}

// Writes a data value of one byte, and says that the record came in by a deferred add.
fn rewrite(rt: &impl Abort, cache: &mut Cache, k: &Path, byte: &str) {
    if cache.find(k).is_none() {
        panic!(rt; "a path that is not there");
    }
    write(cache, k, one_byte(rt, byte));
    let held = cache.entry(k).expect(rt, "a path that has gone");
    let entry = Entry {
        path: held.path,
        value: held.value.copy(),
        hold: Hold::B,
        kids: held.kids,
    };
    cache.replace(entry);
}

// Two bits from their text.
fn bits_of(rt: &impl Abort, text: &str) -> [bool; 2] {
    match text {
        "00" => [false, false],
        "01" => [false, true],
        "10" => [true, false],
        "11" => [true, true],
        _ => panic!(rt; "a text that isn't two bits"),
    }
}

// The path, the side, the kid bit, and both kid bits of the root and of the key 5 then.
const CHANGES: &str = "
root 1 1 01 00
k5 0 1 01 10
root 0 1 11 10
root 1 0 10 10
k5 0 0 10 00
";

// A cache with the root and the key 5, and room for no more.
fn cache_of_two(cache: &mut Cache) -> bool {
    let root = Path::root();
    if cache.is_full() || cache.entry(&root).is_some() {
        return false;
    }
    cache.insert(root, initial(&root), Hold::Root);
    take_in(cache, 5)
}

// Changes a kid bit as a row says, and then looks at both entries.
fn assert_change(rt: &impl Abort, cache: &mut Cache, row: &str) {
    let path = path_of(rt, field(rt, row, 0));
    let side = field(rt, row, 1) == "1";
    let changed = change(cache, &path, side, field(rt, row, 2) == "1");
    same(rt, row, &changed, &true);
    let root = Some((bits_of(rt, field(rt, row, 3)), Hold::Root));
    same(rt, row, &state_of(cache, &Path::root()), &root);
    let key = Some((bits_of(rt, field(rt, row, 4)), Hold::M));
    same(rt, row, &state_of(cache, &Path::of_key(5)), &key);
}

#[test]
fn one_kid_bit_changes_at_a_time(rt: HostRuntime) {
    let mut cache = Cache::new(rt.alloc(), 2).expect(&rt, "memory");
    same(&rt, "both come in", &cache_of_two(&mut cache), &true);
    for row in CHANGES.trim().lines() {
        assert_change(&rt, &mut cache, row);
    }
}

// The value of the key 5 leaves once.
fn assert_leaves_once(rt: &impl Abort, cache: &mut Cache, value: &Value) {
    match take_out(cache, 5) {
        Some(found) => same(rt, "the value that leaves", &found, value),
        None => panic!(rt; "no value"),
    }
    same(rt, "a second leave", &take_out(cache, 5).is_none(), &true);
}

#[test]
fn one_entry_is_written_at_a_time(rt: HostRuntime) {
    let root = Path::root();
    let key = Path::of_key(5);
    let mut cache = Cache::new(rt.alloc(), 2).expect(&rt, "memory");
    same(&rt, "both come in", &cache_of_two(&mut cache), &true);
    same(
        &rt,
        "the root's bit",
        &change(&mut cache, &root, false, true),
        &true,
    );
    rewrite(&rt, &mut cache, &key, "7");
    let written = Some(([false, false], Hold::B));
    same(&rt, "the key then", &state_of(&cache, &key), &written);
    let other = Some(([true, false], Hold::Root));
    same(&rt, "the root then", &state_of(&cache, &root), &other);
    assert_leaves_once(&rt, &mut cache, &one_byte(&rt, "7"));
    same(&rt, "the root stays", &cache.find(&root).is_some(), &true);
}
