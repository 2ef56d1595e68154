//! Keys that become hot: the record of each leaves its shard.
ghost use Rattle.std.specs.Prelude.{◌≡◌, ◌<◌, ◌≤◌, ◌^◌, ℕ, List, [], ◌∷◌, Bool, ◌++◌, length, map, IfOk, OnOk, OnErr};
ghost use Rattle.std.specs.List.{AllByRecursion};
ghost use Rattle.record_text.specs.Longest.{longest_blob};
ghost use Rattle.arrayvec.specs.ArrayVec.{array_vec_len};
ghost use Rattle.tree_keys.specs.Path.{key_bits};
ghost use Rattle.log_codec.specs.Command.{IsPathCommand};
ghost use Rattle.log_codec.specs.declared.command.Command.TheVariants.{EvictB};
ghost use Rattle.host_shard.specs.Content.{Content};
ghost use Rattle.host_shard.specs.Mirrors.{IsShard, IsKeyOf};
ghost use Rattle.host_shard.specs.Shown.{shown};
ghost use Rattle.host_shard.specs.Shard.{wide_in, key_path_in};
ghost use Rattle.host_plan.specs.Moments.{giving};
ghost use Rattle.protection_moves.specs.Transfer.{promotes, clock_by_each};
ghost use Rattle.protection_moves.specs.Lending.{IsLending};
ghost use Rattle.protection_moves.specs.Done.{AreDone, stage_with};
ghost use Rattle.protection_moves.specs.Promotable.{AreRising};
ghost use Rattle.protection_moves.specs.Places.{placed_each};
ghost use Rattle.protection_moves.specs.Saving.{IsSavedOf};
ghost use Rattle.protection_moves.specs.Descent.{data_of};
ghost use Rattle.protection_moves.specs.Turn.{IsLent, last_path, deferring};

use crate::counting::given;
use crate::descents::{Turn, log_descent};
use crate::hot_places::HOT_PLACES;
use crate::saving::{Saved, restore, save};
use arrayvec::ArrayVec;
use base_words::Memory;
use host_shard::{HotRecord, Link, Shard, chain, last_value};
use lamport_clocks::{Clock, Stamp};
use log_codec::Command;
use merkle_records::digest_of;
use record_hash::Digests;
use record_text::{Blob, Pointer, Value};
use std::alloc::Global;
use tree_keys::Path;

/// A record that became hot, and what its shard kept before.
#[derive(Drop)]
pub(crate) struct Promotion {
    pub hot: HotRecord,
    pub saved: Saved,
}

// The path at a chain's end, which is that before it where there is no link.
fn last_path(at: &Path, links: &[Link]) -> Path
    ensures value { result ≡ last_path at.now links.now }
{
    match links.last() {
        Some(link) => link.path,
        None => *at,
    }
}

// The value of a path whose pointer to a link's path is deferred, with the digest of the value that was added.
fn deferring<D: Digests>(d: &D, at: &Path, value: &Value, link: &Link) -> Value
    ensures value { result ≡ deferring (D.functions d.now).digest at.now value.now link.now }
{
    let node = match value {
        Value::Node(node) => node,
        Value::Blob(blob) => return Value::Blob(blob.copy()),
    };
    let pointer = Pointer {
        path: link.path,
        digest: digest_of(d, &link.value),
        deferred: true,
    };
    match at.side(&link.path) {
        Some(side) => Value::Node(node.with_side(side, Some(pointer))),
        None => Value::Node(*node),
    }
}

// Rehashes a shard behind a chain whose last record is lent. Its own record stays. For want of memory all is as before.
fn lend<D: Digests>(d: &D, shard: &mut Shard, links: &[Link]) -> Result<(), Memory>
    requires some { 0 < length links.now }
    ensures lent { OnOk result (IsLent (D.functions d.now).digest (shown shard.old) links.now (shown shard.new)) }
    ensures as_before { OnErr result (shown shard.new ≡ shown shard.old) }
{
    let (link, above) = match links.split_last() {
        Some(parts) => parts,
        None => unreachable!(),
    };
    let at = last_path(&shard.frontier, above);
    let value = deferring(d, &at, last_value(&shard.value, above), link);
    shard.rehash(d, above, value)
}

// What data a value is.
fn data_of(value: &Value) -> Blob
    ensures value { result ≡ data_of value.now }
{
    match value {
        Value::Blob(blob) => blob.copy(),
        Value::Node(_) => Blob::none(),
    }
}

// Lends the record of a key, which stays in the shard as well, with the next counter.
fn promote<D: Digests>(
    alloc: Global,
    d: &D,
    shard: &mut Shard,
    worker: u16,
    stamp: Stamp,
    key: u128,
    commands: &mut Vec<Command>,
) -> Result<Promotion, Memory>
    requires fits { IsShard longest_blob (shown shard.old) }
    requires own { IsKeyOf (shown shard.old) (key_path_in (shown shard.old) key) }
    ensures lending { IfOk result (λ promotion. IsLending (D.functions d.now).digest worker stamp key (shown shard.old) commands.old.items
        promotion.hot commands.new.items (shown shard.new)) }
    ensures saved { IfOk result (λ promotion. IsSavedOf (shown shard.old) promotion.saved (shown shard.new)) }
    ensures typed { OnOk result (AllByRecursion (IsPathCommand longest_blob) commands.old.items
        → AllByRecursion (IsPathCommand longest_blob) commands.new.items) }
    ensures fits { OnOk result (IsShard longest_blob (shown shard.new)) }
    ensures frontier { OnOk result (shard.new.frontier ≡ shard.old.frontier) }
    ensures as_before { OnErr result (shown shard.new ≡ shown shard.old) }
{
    let links = chain(alloc, shard, key)?;
    let along = links.as_slice();
    let saved = save(alloc, shard, along)?;
    let value = data_of(last_value(&shard.value, along));
    let hot = HotRecord {
        wide: shard.frontier.is_wide(),
        key,
        value,
        stamp,
        evictor: worker,
        touches: 0,
    };
    log_descent(commands, &shard.frontier, along, &Turn::BecomesHot(stamp))?;
    lend(d, shard, along)?;
    Ok(Promotion { hot, saved })
}

// Makes the records of these keys hot one after another, and hands the frontier out. It answers them. For want of memory
// the shard is as before.
pub(crate) fn promote_each<D: Digests>(
    alloc: Global,
    d: &D,
    shard: &mut Shard,
    worker: u16,
    clock: &Clock,
    keys: &[u128],
    commands: &mut Vec<Command>,
) -> Result<ArrayVec<HotRecord, HOT_PLACES>, Memory>
    requires fits { IsShard longest_blob (shown shard.old) }
    requires own { AllByRecursion (λ key. IsKeyOf (shown shard.old) (key_path_in (shown shard.old) key)) keys.now }
    requires in_range { AllByRecursion (λ key. key < 2 ^ key_bits (wide_in (shown shard.old))) keys.now }
    requires rising { AreRising keys.now }
    requires few { length keys.now ≤ 4 }
    requires within { (giving (clock_by_each clock.now (map promotes keys.now))).at.counter ≤ clock.now.end }
    ensures done { IfOk result (λ hot. (touches : List Bool → ℕ) (places : List Content)
        → AreDone (D.functions d.now).digest worker (stage_with (shown shard.old) touches places clock.now)
        (map promotes keys.now) commands.old.items
        (EvictB shard.old.frontier (giving (clock_by_each clock.now (map promotes keys.now))).at) commands.new.items
        (stage_with (shown shard.new) touches (placed_each hot.items places) (clock_by_each clock.now (map promotes keys.now)))) }
    ensures len { IfOk result (λ hot. array_vec_len hot ≡ length keys.now) }
    ensures typed { OnOk result (AllByRecursion (IsPathCommand longest_blob) commands.old.items
        → AllByRecursion (IsPathCommand longest_blob) commands.new.items) }
    ensures fits { OnOk result (IsShard longest_blob (shown shard.new)) }
    ensures as_before { OnErr result (shown shard.new ≡ shown shard.old) }
{
    let next = match given(clock) {
        Some(next) => next,
        None => unreachable!(),
    };
    let (key, rest) = match keys.split_first() {
        Some(parts) => parts,
        None => return handed_out(commands, shard.frontier, next.at()),
    };
    let path = shard.path_of(*key);
    let Promotion { hot, saved } = promote(alloc, d, shard, worker, next.at(), *key, commands)?;
    match promote_each(alloc, d, shard, worker, &next, rest, commands) {
        Ok(mut others) => {
            shard.records.remove(&path);
            others.insert(0, hot);
            Ok(others)
        }
        Err(memory) => {
            restore(shard, &saved);
            Err(memory)
        }
    }
}

// Logs that a frontier is handed out, behind which no record became hot.
fn handed_out(
    commands: &mut Vec<Command>,
    path: Path,
    stamp: Stamp,
) -> Result<ArrayVec<HotRecord, HOT_PLACES>, Memory>
    ensures none { IfOk result (λ hot. hot.items ≡ []) }
    ensures logged { OnOk result (commands.new.items ≡ commands.old.items ++ EvictB path stamp ∷ []) }
    ensures typed { OnOk result (AllByRecursion (IsPathCommand longest_blob) commands.old.items
        → AllByRecursion (IsPathCommand longest_blob) commands.new.items) }
{
    commands.push(Command::EvictB { path, stamp })?;
    Ok(ArrayVec::new())
}
