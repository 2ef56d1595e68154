//! Hot records that were not touched: each comes back to its shard.
ghost use Rattle.std.specs.Prelude.{◌≡◌, ◌<◌, ◌≤◌, ◌^◌, ℕ, List, Bool, ◌++◌, length, map, None, IfOk, OnOk, OnErr, IsTrue};
ghost use Rattle.std.specs.List.{AllByRecursion};
ghost use Rattle.record_text.specs.Longest.{longest_blob};
ghost use Rattle.arrayvec.specs.ArrayVec.{array_vec_len};
ghost use Rattle.tree_keys.specs.Path.{key_bits};
ghost use Rattle.lamport_clocks.specs.Clock.{is_open};
ghost use Rattle.record_text.specs.declared.value.Value.TheVariants as values;
ghost use Rattle.record_text.specs.Value.{IsOf};
ghost use Rattle.log_codec.specs.Command.{IsPathCommand};
ghost use Rattle.log_codec.specs.declared.command.Command.TheVariants.{EvictB};
ghost use Rattle.host_shard.specs.Content.{hot_path, Content};
ghost use Rattle.host_shard.specs.Mirrors.{IsShard, IsKeyOf};
ghost use Rattle.host_shard.specs.Shard.{wide_in, key_path_in, Shard as ShownShard};
ghost use Rattle.host_shard.specs.Shown.{shown};
ghost use Rattle.host_plan.specs.Moments.{giving};
ghost use Rattle.protection_moves.specs.Transfer.{demotes, promotes, clock_by_each};
ghost use Rattle.protection_moves.specs.Lending.{IsReturning};
ghost use Rattle.protection_moves.specs.Done.{AreDone, stage_with};
ghost use Rattle.protection_moves.specs.Promotable.{AreRising};
ghost use Rattle.protection_moves.specs.Places.{placed_each, vacated};
ghost use Rattle.protection_moves.specs.Saving.{IsSavedOf};
ghost use Rattle.protection_moves.specs.Descent.{with_back};

use crate::counting::taken;
use crate::descents::{Turn, log_descent};
use crate::hot_places::HOT_PLACES;
use crate::promoting::promote_each;
use crate::saving::{Saved, kept_of, restore, restore_one, save};
use arrayvec::ArrayVec;
use base_words::Memory;
use host_shard::{HotRecord, Shard, chain};
use lamport_clocks::Clock;
use log_codec::Command;
use record_hash::Digests;
use record_text::Value;
use std::alloc::Global;

// Gives a hot record a place among the records of its shard. For want of memory all is as before.
fn put_back(shard: &mut Shard, found: &HotRecord) -> Result<(), Memory>
    ensures back { OnOk result (shown shard.new ≡ with_back (shown shard.old) found.now) }
    ensures kind { OnOk result (IsOf longest_blob (hot_path found.now) (values.Blob found.now.value)) }
    ensures as_before { OnErr result (shown shard.new ≡ shown shard.old) }
{
    let path = found.path();
    shard.records.open(&path)?;
    shard.records.set(&path, Value::Blob(found.value.copy()));
    Ok(())
}

// Takes its place away again: its path has what it had.
fn take_away(shard: &mut Shard, found: &HotRecord, was: &Option<Value>)
    ensures as_before { (old : ShownShard) → shown shard.old ≡ with_back old found.now → was.now ≡ old.records (hot_path found.now)
        → (was.now ≡ None → old.touches (hot_path found.now) ≡ 0) → shown shard.new ≡ old }
{
    restore_one(&mut shard.records, &found.path(), was);
}

// Rehashes a shard behind the chain to a hot record that comes back, which has a place among its records already.
fn rehash_back<D: Digests>(
    alloc: Global,
    d: &D,
    shard: &mut Shard,
    found: &HotRecord,
    commands: &mut Vec<Command>,
) -> Result<Saved, Memory>
    requires fits { IsShard longest_blob (shown shard.old) }
    requires own { IsKeyOf (shown shard.old) (hot_path found.now) }
    ensures back { IfOk result (λ saved. (old : ShownShard) → shown shard.old ≡ with_back old found.now
        → IsReturning (D.functions d.now).digest found.now old commands.old.items commands.new.items (shown shard.new)) }
    ensures saved { IfOk result (λ saved. IsSavedOf (shown shard.old) saved (shown shard.new)) }
    ensures typed { OnOk result (AllByRecursion (IsPathCommand longest_blob) commands.old.items
        → AllByRecursion (IsPathCommand longest_blob) commands.new.items) }
    ensures fits { OnOk result (IsShard longest_blob (shown shard.new)) }
    ensures frontier { OnOk result (shard.new.frontier ≡ shard.old.frontier) }
    ensures as_before { OnErr result (shown shard.new ≡ shown shard.old) }
{
    let links = chain(alloc, shard, found.key)?;
    let along = links.as_slice();
    let saved = save(alloc, shard, along)?;
    let turn = Turn::ComesBack(found.pending());
    log_descent(commands, &shard.frontier, along, &turn)?;
    shard.rehash(d, along, Value::Blob(found.value.copy()))?;
    Ok(saved)
}

// Brings these hot records back one after another, makes the records of these keys hot, and hands the frontier out. It
// answers the records that became hot. For want of memory the shard is as before.
pub(crate) fn demote_each<D: Digests>(
    alloc: Global,
    d: &D,
    shard: &mut Shard,
    worker: u16,
    clock: &Clock,
    back: &[HotRecord],
    keys: &[u128],
    commands: &mut Vec<Command>,
) -> Result<ArrayVec<HotRecord, HOT_PLACES>, Memory>
    requires fits { IsShard longest_blob (shown shard.old) }
    requires own_back { AllByRecursion (λ found. IsKeyOf (shown shard.old) (hot_path found)) back.now }
    requires own { AllByRecursion (λ key. IsKeyOf (shown shard.old) (key_path_in (shown shard.old) key)) keys.now }
    requires in_range { AllByRecursion (λ key. key < 2 ^ key_bits (wide_in (shown shard.old))) keys.now }
    requires rising { AreRising keys.now }
    requires few { length keys.now ≤ 4 }
    requires open { AllByRecursion (λ found. IsTrue (is_open clock.now found.stamp.epoch)) back.now }
    requires within { (giving (clock_by_each clock.now (map demotes back.now ++ map promotes keys.now))).at.counter ≤ clock.now.end }
    ensures done { IfOk result (λ hot. (touches : List Bool → ℕ) (places : List Content)
        → AreDone (D.functions d.now).digest worker (stage_with (shown shard.old) touches places clock.now)
        (map demotes back.now ++ map promotes keys.now) commands.old.items
        (EvictB shard.old.frontier (giving (clock_by_each clock.now (map demotes back.now ++ map promotes keys.now))).at) commands.new.items
        (stage_with (shown shard.new) touches (placed_each hot.items (vacated back.now places))
        (clock_by_each clock.now (map demotes back.now ++ map promotes keys.now)))) }
    ensures typed { OnOk result (AllByRecursion (IsPathCommand longest_blob) commands.old.items
        → AllByRecursion (IsPathCommand longest_blob) commands.new.items) }
    ensures fits { OnOk result (IsShard longest_blob (shown shard.new)) }
    ensures as_before { OnErr result (shown shard.new ≡ shown shard.old) }
{
    let (found, rest) = match back.split_first() {
        Some(parts) => parts,
        None => return promote_each(alloc, d, shard, worker, clock, keys, commands),
    };
    let next = match taken(clock, found.stamp) {
        Some(next) => next,
        None => unreachable!(),
    };
    let was = kept_of(&shard.records, &found.path());
    put_back(shard, found)?;
    let saved = match rehash_back(alloc, d, shard, found, commands) {
        Ok(saved) => saved,
        Err(memory) => {
            take_away(shard, found, &was);
            return Err(memory);
        }
    };
    match demote_each(alloc, d, shard, worker, &next, rest, keys, commands) {
        Ok(hot) => Ok(hot),
        Err(memory) => {
            restore(shard, &saved);
            take_away(shard, found, &was);
            Err(memory)
        }
    }
}
