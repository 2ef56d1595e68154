//! How one shard is moved at a close: `migrate`.
ghost use Rattle.std.specs.Prelude.{◌≡◌, ◌↔◌, ◌<◌, ◌≤◌, ℕ, IfOk, IfSome, OnErr, IsTrue, Err, length, map};
ghost use Rattle.std.specs.List.{AllByRecursion};
ghost use Rattle.lamport_clocks.specs.Clock.{is_open};
ghost use Rattle.record_text.specs.Longest.{longest_blob};
ghost use Rattle.log_codec.specs.Command.{IsPathCommand};
ghost use Rattle.host_shard.specs.Mirrors.{IsShard, IsKeyOf};
ghost use Rattle.host_shard.specs.Shown.{shown, shown_content};
ghost use Rattle.host_shard.specs.Content.{hot_path};
ghost use Rattle.protection_moves.specs.declared.fault.MoveFault.TheVariants.{ClockEnd};
ghost use Rattle.protection_moves.specs.Stage.{hot_records};
ghost use Rattle.protection_moves.specs.Move.{IsMove, IsPastEnd};
ghost use Rattle.protection_moves.specs.Shown.{shown_stage};

use crate::counting::{begun, ended};
use crate::demoting::demote_each;
use crate::fault::MoveFault;
use crate::hot_places::{place_each, touched_in, untouched_in, vacancies, vacate};
use crate::promotable::promotable_keys;
use crate::renewing::{begin, renew_places};
use host_plan::Commands;
use host_shard::{Content, Shard};
use lamport_clocks::Clock;
use record_hash::Digests;
use std::alloc::Global;

/// Moves a shard at a close: the commands that this worker logs. Each hot record that was touched stays hot, and each other
/// one comes back to the shard. Where a threshold is given, the first keys that were touched so often become hot, as many
/// as there are vacant places then. Shard, hot places and clock become what the commands leave, with this worker as evictor
/// and no touch counted. After a fault all is as before.
pub fn migrate<D: Digests>(
    alloc: Global,
    d: &D,
    shard: &mut Shard,
    hot: &mut [Content],
    threshold: Option<u32>,
    worker: u16,
    clock: &mut Clock,
) -> Result<Commands, MoveFault>
    requires fits { IsShard longest_blob (shown shard.old) }
    requires open { IsTrue (is_open clock.old shard.old.stamp.epoch) }
    requires places { length hot.old ≤ 4 }
    requires hot_open { AllByRecursion (λ found. IsTrue (is_open clock.old found.stamp.epoch))
        (hot_records (map shown_content hot.old)) }
    requires hot_own { AllByRecursion (λ found. IsKeyOf (shown shard.old) (hot_path found))
        (hot_records (map shown_content hot.old)) }
    requires threshold { IfSome threshold (λ touches. 0 < touches) }
    ensures moved { IfOk result (λ commands. IsMove (D.functions d.now).digest worker threshold
        (shown_stage shard.old hot.old clock.old) commands (shown_stage shard.new hot.new clock.new)) }
    ensures typed { IfOk result (λ commands. AllByRecursion (IsPathCommand longest_blob) commands) }
    ensures clock_end { (result ≡ Err ClockEnd) ↔ IsPastEnd threshold (shown_stage shard.old hot.old clock.old) }
    ensures fits { IsShard longest_blob (shown shard.new) }
    ensures open { (epoch : ℕ) → is_open clock.new epoch ≡ is_open clock.old epoch }
    ensures as_before { OnErr result (shown_stage shard.new hot.new clock.new ≡ shown_stage shard.old hot.old clock.old) }
{
    let staying = touched_in(hot);
    let touched = staying.as_slice();
    let returning = untouched_in(hot);
    let back = returning.as_slice();
    let promotable = promotable_keys(shard, hot, threshold, vacancies(hot) + back.len());
    let keys = promotable.as_slice();
    let between = match begun(clock, touched, shard.stamp) {
        Some(between) => between,
        None => return Err(MoveFault::ClockEnd),
    };
    let later = match ended(&between, back, keys) {
        Some(later) => later,
        None => return Err(MoveFault::ClockEnd),
    };
    let mut commands = begin(alloc, clock, touched, shard.pending())?;
    let new = demote_each(alloc, d, shard, worker, &between, back, keys, &mut commands)?;
    renew_places(hot, worker, clock, touched);
    vacate(hot, back);
    place_each(hot, new.as_slice());
    shard.forget_touches();
    shard.stamp = later.at();
    shard.evictor = worker;
    *clock = later;
    Ok(Commands::of(commands))
}
