//! Which keys become hot where few were touched: only the records of these are looked at.
ghost use Rattle.std.specs.Prelude.{◌≡◌, ◌↔◌, ℕ, ◌<◌, ◌≤◌, ◌^◌, map, true, IfSome, IsTrue, Some};
ghost use Rattle.std.specs.List.{AllByRecursion, IsAmong};
ghost use Rattle.tree_keys.specs.Path.{key_bits, key_path, same_path, tree_of};
ghost use Rattle.lamport_clocks.specs.Reading.{Reading};
ghost use Rattle.host_shard.specs.Mirrors.{IsKeyOf};
ghost use Rattle.host_shard.specs.Records.{AreInOrder};
ghost use Rattle.host_shard.specs.Shard.{wide_in, key_path_in};
ghost use Rattle.host_shard.specs.Shown.{shown, shown_content};
ghost use Rattle.host_shard.specs.Touched.{AreAmong};
ghost use Rattle.protection_moves.specs.Promotable.{promotable_among, lower_of, AreFirstPromotable, AreRising, IsAbove, IsLowest};
ghost use Rattle.protection_moves.specs.Shown.{shown_stage};

use crate::hot_places::HOT_PLACES;
use crate::promotable::promotable_key;
use arrayvec::ArrayVec;
use host_shard::{Content, Shard};
use tree_keys::Path;

// The key of a path, if it has a record that is promotable.
fn key_at(shard: &Shard, places: &[Content], least: u32, path: &Path) -> Option<u128>
    requires some { 0 < least }
    requires in_order { AreInOrder shard.now.records }
    ensures promotable { IfSome result (λ key. IsAmong (promotable_among least shard.now.frontier (map shown_content places.now) shard.now.records) key) }
    ensures its_key { (key : ℕ) → IsAmong (promotable_among least shard.now.frontier (map shown_content places.now) shard.now.records) key
        → same_path (key_path (tree_of shard.now.frontier) key) path.now ≡ true → result ≡ Some key }
{
    match shard.records.get(path) {
        Some(kept) => promotable_key(shard, places, least, path, kept),
        None => None,
    }
}

// Whether a key is above another, if there is one.
fn is_above(above: Option<u128>, key: u128) -> bool
    ensures above { IsTrue result ↔ IsAbove above key }
{
    match above {
        Some(other) => other < key,
        None => true,
    }
}

// The lower of two keys.
fn lower_of(lowest: Option<u128>, key: u128) -> Option<u128>
    ensures value { result ≡ lower_of lowest key }
{
    match lowest {
        Some(other) => { if key < other { Some(key) } else { Some(other) } }
        None => Some(key),
    }
}

// The lowest promotable key of the records at these paths that is above another, if there is one.
fn lowest_above(
    shard: &Shard,
    places: &[Content],
    least: u32,
    paths: &[Path],
    above: Option<u128>,
) -> Option<u128>
    requires some { 0 < least }
    requires in_order { AreInOrder shard.now.records }
    ensures lowest { IsLowest (promotable_among least shard.now.frontier (map shown_content places.now) shard.now.records)
        (tree_of shard.now.frontier) above paths.now result }
{
    let mut lowest = None;
    for path in paths {
        if let Some(key) = key_at(shard, places, least, path) {
            if is_above(above, key) {
                lowest = lower_of(lowest, key);
            }
        }
    }
    lowest
}

/// The first keys that were touched so often, at most so many. All that were touched are at these paths.
pub(crate) fn touched_often_at(
    shard: &Shard,
    places: &[Content],
    least: u32,
    room: usize,
    paths: &[Path],
) -> ArrayVec<u128, HOT_PLACES>
    requires some { 0 < least }
    requires few { room ≤ 4 }
    requires in_order { AreInOrder shard.now.records }
    requires all { AreAmong paths.now shard.now.records }
    ensures first { (clock : Reading) → AreFirstPromotable (shown_stage shard.now places.now clock) (Some least) room result.items }
    ensures own { AllByRecursion (λ key. IsKeyOf (shown shard.now) (key_path_in (shown shard.now) key)) result.items }
    ensures in_range { AllByRecursion (λ key. key < 2 ^ key_bits (wide_in (shown shard.now))) result.items }
    ensures rising { AreRising result.items }
{
    let mut keys = ArrayVec::new();
    let mut last = None;
    while keys.len() < room {
        let Some(key) = lowest_above(shard, places, least, paths, last) else {
            return keys;
        };
        keys.push(key);
        last = Some(key);
    }
    keys
}
