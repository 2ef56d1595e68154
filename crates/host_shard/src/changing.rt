//! Records changed where they stand in their map.
ghost use Rattle.std.specs.Prelude.{◌≡◌, ◌<◌, IsFalse, IfSome};
ghost use Rattle.std.specs.Option.{option_map};
ghost use Rattle.host_shard.specs.Records.{record_at, with_kept, untouched, touches_of};
ghost use Rattle.host_shard.specs.Shard.{one_more};
ghost use Rattle.host_shard.specs.Touched.{AreAmong, untouched_at};

use crate::record::Record;
use record_text::Value;
use std::collections::BTreeMap;
use tree_keys::Path;

/// Sets the value of a path that has a record.
pub(crate) fn set_at(map: &mut BTreeMap<Path, Record>, path: &Path, value: Value)
    ensures set { record_at map.new.entries ≡ with_kept (record_at map.old.entries) path.now
        (option_map (λ r. record { value = value; touches = r.touches }) (record_at map.old.entries path.now)) }
{
    if let Some(kept) = map.get_mut(path) {
        kept.value = value;
    }
}

/// Counts one touch more of a path that has a record, and answers whether it is the first.
pub(crate) fn touch_at(map: &mut BTreeMap<Path, Record>, path: &Path) -> bool
    ensures touched { record_at map.new.entries ≡ with_kept (record_at map.old.entries) path.now
        (option_map (λ r. record { value = r.value; touches = one_more r.touches }) (record_at map.old.entries path.now)) }
    ensures first { IsFalse result → 0 < touches_of map.new.entries path.now → 0 < touches_of map.old.entries path.now }
{
    match map.get_mut(path) {
        Some(kept) => {
            let first = kept.touches == 0;
            kept.touches = kept.touches.saturating_add(1);
            first
        }
        None => false,
    }
}

/// Sets the touches of all records to 0. Where paths are given they are those of all that are touched, and no other record is
/// looked at.
pub(crate) fn forget_touches(map: &mut BTreeMap<Path, Record>, touched: Option<&[Path]>)
    requires all { IfSome touched (λ paths. AreAmong paths.now map.old.entries) }
    ensures forgotten { record_at map.new.entries ≡ untouched (record_at map.old.entries) }
{
    match touched {
        Some(paths) => forget_each(map, paths),
        None => forget_all(map),
    }
}

// Sets the touches of the records of these paths to 0.
fn forget_each(map: &mut BTreeMap<Path, Record>, paths: &[Path])
    ensures forgotten { record_at map.new.entries ≡ untouched_at paths.now (record_at map.old.entries) }
{
    for path in paths {
        forget(map, path);
    }
}

// Sets the touches of a record to 0, if there is one.
fn forget(map: &mut BTreeMap<Path, Record>, path: &Path)
    ensures forgotten { record_at map.new.entries ≡ with_kept (record_at map.old.entries) path.now
        (option_map (λ r. record { value = r.value; touches = 0 }) (record_at map.old.entries path.now)) }
{
    if let Some(kept) = map.get_mut(path) {
        kept.touches = 0;
    }
}

// Sets the touches of all records to 0.
fn forget_all(map: &mut BTreeMap<Path, Record>)
    ensures forgotten { record_at map.new.entries ≡ untouched (record_at map.old.entries) }
{
    map.retain(|_, kept| {
        kept.touches = 0;
        true
    });
}
