//! What is kept of a shard while a transfer is done, so that for want of memory the shard is as before.
ghost use Rattle.std.specs.Prelude.{◌≡◌, IfOk, IsSome, None};
ghost use Rattle.host_shard.specs.Records.{values_of, touches_of};
ghost use Rattle.host_shard.specs.Shown.{shown};
ghost use Rattle.host_shard.specs.Tree.{Tree};
ghost use Rattle.host_shard.specs.Shard.{Shard as ShownShard};
ghost use Rattle.protection_moves.specs.Saving.{saved_along, with_value, CanRestore, IsSavedOf};

use base_words::Memory;
use host_shard::{Link, Records, Shard};
use record_text::Value;
use std::alloc::Global;
use tree_keys::Path;

/// What a shard kept of a path.
#[derive(Drop)]
pub(crate) struct SavedRecord {
    pub path: Path,
    pub value: Option<Value>,
}

/// The frontier's value, and what a shard kept of some paths.
#[derive(Drop)]
pub(crate) struct Saved {
    pub value: Value,
    pub records: Vec<SavedRecord>,
}

// What is kept of a path.
pub(crate) fn kept_of(records: &Records, path: &Path) -> Option<Value>
    ensures value { result ≡ values_of records.now path.now }
{
    match records.get(path) {
        Some(kept) => Some(kept.value.copy()),
        None => None,
    }
}

// What a shard keeps of the paths of these links.
pub(crate) fn save(alloc: Global, shard: &Shard, links: &[Link]) -> Result<Saved, Memory>
    ensures value { IfOk result (λ saved. saved.value ≡ shard.now.value) }
    ensures records { IfOk result (λ saved. saved.records.items ≡ saved_along (values_of shard.now.records) links.now) }
{
    let mut records = Vec::with_capacity(alloc, links.len())?;
    for link in links {
        records.push(SavedRecord {
            path: link.path,
            value: kept_of(&shard.records, &link.path),
        })?;
    }
    Ok(Saved {
        value: shard.value.copy(),
        records,
    })
}

// Makes what is kept of a path what it was.
pub(crate) fn restore_one(records: &mut Records, path: &Path, was: &Option<Value>)
    ensures values { (IsSome was.now → IsSome (values_of records.old path.now))
        → values_of records.new ≡ with_value (values_of records.old) path.now was.now }
    ensures touches { (was.now ≡ None → touches_of records.old path.now ≡ 0)
        → touches_of records.new ≡ touches_of records.old }
{
    match was {
        Some(value) => records.set(path, value.copy()),
        None => records.remove(path),
    }
}

// Makes what is kept of these paths what it was.
fn restore_each(records: &mut Records, saved: &[SavedRecord])
    ensures restored { (was : Tree) → CanRestore was (touches_of records.old) saved.now (values_of records.old)
        → (values_of records.new ≡ was) × (touches_of records.new ≡ touches_of records.old) }
{
    if let Some((first, rest)) = saved.split_first() {
        restore_one(records, &first.path, &first.value);
        restore_each(records, rest);
    }
}

// Makes a shard what it was when this was saved.
pub(crate) fn restore(shard: &mut Shard, saved: &Saved)
    ensures restored { (was : ShownShard) → IsSavedOf was saved.now (shown shard.old) → shown shard.new ≡ was }
{
    restore_each(&mut shard.records, saved.records.as_slice());
    shard.value = saved.value.copy();
}
