//! Which keys become hot: those that were touched often enough, in their order.
ghost use Rattle.std.specs.Prelude.{◌≡◌, ◌<◌, ◌≤◌, ◌^◌, length, map, IfSome, Some};
ghost use Rattle.std.specs.List.{AllByRecursion};
ghost use Rattle.arrayvec.specs.ArrayVec.{array_vec_len};
ghost use Rattle.tree_keys.specs.Path.{key_bits};
ghost use Rattle.lamport_clocks.specs.Reading.{Reading};
ghost use Rattle.host_shard.specs.Mirrors.{IsKeyOf};
ghost use Rattle.host_shard.specs.Shown.{shown, shown_content};
ghost use Rattle.host_shard.specs.Shard.{wide_in, key_path_in};
ghost use Rattle.protection_moves.specs.Promotable.{key_in, promotable_key, is_hot, AreFirstPromotable, AreRising};
ghost use Rattle.protection_moves.specs.Shown.{shown_stage};

use crate::few_touched::touched_often_at;
use crate::hot_places::HOT_PLACES;
use arrayvec::ArrayVec;
use host_shard::{Content, Record, Shard};
use tree_keys::Path;

// Whether the key of this path is hot.
fn is_hot(places: &[Content], path: &Path) -> bool
    ensures value { result ≡ is_hot path.now (map shown_content places.now) }
{
    let (first, rest) = match places.split_first() {
        Some(parts) => parts,
        None => return false,
    };
    match first {
        Content::Hot(found) => found.path().is_same(path) || is_hot(rest, path),
        _ => is_hot(rest, path),
    }
}

// The key of a data path of this tree.
fn key_in(wide: bool, path: &Path) -> Option<u128>
    ensures value { result ≡ key_in wide path.now }
{
    if path.is_wide() == wide {
        path.key()
    } else {
        None
    }
}

// The key of this record, if it is promotable: it was touched so often, lies below the shard's frontier and isn't hot.
pub(crate) fn promotable_key(
    shard: &Shard,
    places: &[Content],
    least: u32,
    path: &Path,
    kept: &Record,
) -> Option<u128>
    ensures value { result ≡ promotable_key least shard.now.frontier (map shown_content places.now) path.now kept.now }
{
    if kept.touches < u64::from(least) {
        return None;
    }
    if shard.frontier.side(path).is_none() || is_hot(places, path) {
        return None;
    }
    key_in(shard.frontier.is_wide(), path)
}

// The first keys that were touched so often, at most so many. It goes through the records until there is no room.
fn touched_often(
    shard: &Shard,
    places: &[Content],
    least: u32,
    room: usize,
) -> ArrayVec<u128, HOT_PLACES>
    requires some { 0 < least }
    requires few { room ≤ 4 }
    ensures first { (clock : Reading) → AreFirstPromotable (shown_stage shard.now places.now clock) (Some least) room result.items }
    ensures own { AllByRecursion (λ key. IsKeyOf (shown shard.now) (key_path_in (shown shard.now) key)) result.items }
    ensures in_range { AllByRecursion (λ key. key < 2 ^ key_bits (wide_in (shown shard.now))) result.items }
    ensures rising { AreRising result.items }
{
    let mut keys = ArrayVec::new();
    for (path, kept) in shard.records.iter() {
        if keys.len() == room {
            return keys;
        }
        if let Some(key) = promotable_key(shard, places, least, path, kept) {
            keys.push(key);
        }
    }
    keys
}

// The first keys that are promotable, at most so many.
pub(crate) fn promotable_keys(
    shard: &Shard,
    places: &[Content],
    threshold: Option<u32>,
    room: usize,
) -> ArrayVec<u128, HOT_PLACES>
    requires some { IfSome threshold (λ least. 0 < least) }
    requires few { room ≤ 4 }
    ensures first { (clock : Reading) → AreFirstPromotable (shown_stage shard.now places.now clock) threshold room result.items }
    ensures own { AllByRecursion (λ key. IsKeyOf (shown shard.now) (key_path_in (shown shard.now) key)) result.items }
    ensures in_range { AllByRecursion (λ key. key < 2 ^ key_bits (wide_in (shown shard.now))) result.items }
    ensures rising { AreRising result.items }
{
    let Some(least) = threshold else {
        return ArrayVec::new();
    };
    match shard.records.few_touched() {
        Some(paths) => touched_often_at(shard, places, least, room, paths),
        None => touched_often(shard, places, least, room),
    }
}
