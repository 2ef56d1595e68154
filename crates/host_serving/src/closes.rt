//! A close of a round: all workers advance, each moves its shards in order, and then the next phase opens, or all advance
//! once more.
ghost use Rattle.std.specs.Prelude.{◌≡◌, ◌↔◌, ℕ, suc, ◌<◌, true, false, List, length, Some, None, Ok, IfOk, IfSome, OnErr};
ghost use Rattle.log_codec.specs.declared.command.Command.{Command};
ghost use Rattle.host_core.specs.World.{worker_at};
ghost use Rattle.host_core.specs.WorldEvent.{IsLast};
ghost use Rattle.host_world.specs.Shown.{shown_world, digests_of};
ghost use Rattle.host_world.specs.Behind.{host_of, StandsBehind, StandsWith, AreOfOneHost};
ghost use Rattle.host_serving.specs.Leading.{Leads, LeadsBy, LeadsAs, LeadsByFront, CanDoNoMore};
ghost use Rattle.host_serving.specs.Form.{AreOfClose, all_advance, own_moves, all_move, events_of_shards, events_of_close};
ghost use Rattle.host_serving.specs.Standing.{BeginsRound, IsServedOut, IsClosed, NoneStopped, NoneStuckBelow};
ghost use Rattle.host_serving.specs.Closing.{CanAllAdvance, EndsAdvance, CanMoveOwn, EndsOwn, CanMoveAll, EndsMoves, EndsShards};

use base_words::Memory;
use host_fits::the_shipped_host_is_steady;
use host_world::{ClockEnd, Event, World, worlds_are_as_promised};
use record_hash::Digests;

/// Closes the world's phase, which is served out: all workers advance, and each moves its shards in order. In a last close all
/// then advance once more; else the next phase opens. Where a clock ends, the others finish their shards and nothing follows. It
/// answers the first such end: that of the lowest worker. The events that this was are those of a close, in their one order; for
/// want of memory they are a front of them.
pub fn close_phase<D: Digests>(
    world: &mut World<'_, D>,
    last: bool,
) -> Result<Option<ClockEnd>, Memory>
    requires behind { StandsBehind (D.functions (digests_of world.old)) world.old }
    requires served { IsServedOut (host_of (D.functions (digests_of world.old)) world.old) (shown_world world.old) }
    requires last { (last ≡ true) ↔ IsLast (host_of (D.functions (digests_of world.old)) world.old) (shown_world world.old) }
    ensures leads { IfOk result (λ end. Leads (host_of (D.functions (digests_of world.old)) world.old)
        (shown_world world.old) (shown_world world.new) end) }
    ensures form { IfOk result (λ end. LeadsAs AreOfClose (host_of (D.functions (digests_of world.old)) world.old)
        (shown_world world.old) (shown_world world.new) end) }

    // The next phase is open, and nothing is served of it yet.
    ensures opened { result ≡ Ok None → last ≡ false
        → BeginsRound (host_of (D.functions (digests_of world.old)) world.old) (shown_world world.new)
        × ((shown_world world.new).phase ≡ suc (shown_world world.old).phase)
        × NoneStopped (host_of (D.functions (digests_of world.old)) world.old) (shown_world world.new) }

    // The last close is whole.
    ensures closed { result ≡ Ok None → last ≡ true
        → IsClosed (host_of (D.functions (digests_of world.old)) world.old) (shown_world world.new)
        × ((shown_world world.new).phase ≡ (shown_world world.old).phase)
        × (NoneStopped (host_of (D.functions (digests_of world.old)) world.old) (shown_world world.old)
        → NoneStopped (host_of (D.functions (digests_of world.old)) world.old) (shown_world world.new)) }

    // Nothing can follow.
    ensures rests { result ≡ Ok None → last ≡ true
        → CanDoNoMore (host_of (D.functions (digests_of world.old)) world.old) (shown_world world.new) }
    ensures ended { IfOk result (λ end. IfSome end (λ _.
        CanDoNoMore (host_of (D.functions (digests_of world.old)) world.old) (shown_world world.new))) }
    ensures lowest { IfOk result (λ end. IfSome end (λ found.
        NoneStuckBelow (host_of (D.functions (digests_of world.old)) world.old) (shown_world world.new) found.worker)) }

    // Whose clock ended in the round stays.
    ensures stopped { IfOk result (λ _. (i : ℕ) → (worker_at (host_of (D.functions (digests_of world.old)) world.old) (shown_world world.new) i).stopped
        ≡ (worker_at (host_of (D.functions (digests_of world.old)) world.old) (shown_world world.old) i).stopped) }
    ensures on_the_way { OnErr result (LeadsByFront (host_of (D.functions (digests_of world.old)) world.old)
        (shown_world world.old) (shown_world world.new)
        (events_of_close (host_of (D.functions (digests_of world.old)) world.old) (shown_world world.old) last)) }
    ensures host { AreOfOneHost world.old world.new }
    ensures behind { StandsBehind (D.functions (digests_of world.new)) world.new }

    // Whatever logs were handed out before.
    ensures goes_on { (logs : List (List Command)) → StandsWith (D.functions (digests_of world.old)) world.old logs
        → StandsWith (D.functions (digests_of world.new)) world.new logs }
{
    if let Some(end) = close_shards(world)? {
        return Ok(Some(end));
    }
    if last {
        advance_all(world)
    } else {
        world.step(&Event::Open)
    }
}

// All workers advance, and each moves its shards.
fn close_shards<D: Digests>(world: &mut World<'_, D>) -> Result<Option<ClockEnd>, Memory>
    requires behind { StandsBehind (D.functions (digests_of world.old)) world.old }
    requires served { IsServedOut (host_of (D.functions (digests_of world.old)) world.old) (shown_world world.old) }
    ensures leads { IfOk result (λ end. LeadsBy (host_of (D.functions (digests_of world.old)) world.old)
        (shown_world world.old) (shown_world world.new) end
        (events_of_shards (host_of (D.functions (digests_of world.old)) world.old) (shown_world world.old))) }
    ensures ended { IfOk result (λ end. EndsShards (host_of (D.functions (digests_of world.old)) world.old)
        (shown_world world.old) (shown_world world.new) end) }
    ensures on_the_way { OnErr result (LeadsByFront (host_of (D.functions (digests_of world.old)) world.old)
        (shown_world world.old) (shown_world world.new)
        (events_of_shards (host_of (D.functions (digests_of world.old)) world.old) (shown_world world.old))) }
    ensures host { AreOfOneHost world.old world.new }
    ensures goes_on { (logs : List (List Command)) → StandsWith (D.functions (digests_of world.old)) world.old logs
        → StandsWith (D.functions (digests_of world.new)) world.new logs }
{
    worlds_are_as_promised();
    if let Some(end) = advance_all(world)? {
        return Ok(Some(end));
    }
    move_all(world)
}

// All workers go to the next epoch, in the order of their numbers, or there is none.
fn advance_all<D: Digests>(world: &mut World<'_, D>) -> Result<Option<ClockEnd>, Memory>
    requires behind { StandsBehind (D.functions (digests_of world.old)) world.old }
    requires may { CanAllAdvance (host_of (D.functions (digests_of world.old)) world.old) (shown_world world.old) }
    ensures leads { IfOk result (λ end. LeadsBy (host_of (D.functions (digests_of world.old)) world.old)
        (shown_world world.old) (shown_world world.new) end
        (all_advance (host_of (D.functions (digests_of world.old)) world.old) (shown_world world.old))) }
    ensures ended { IfOk result (λ end. EndsAdvance (host_of (D.functions (digests_of world.old)) world.old)
        (shown_world world.old) (shown_world world.new) end) }
    ensures on_the_way { OnErr result (LeadsByFront (host_of (D.functions (digests_of world.old)) world.old)
        (shown_world world.old) (shown_world world.new)
        (all_advance (host_of (D.functions (digests_of world.old)) world.old) (shown_world world.old))) }
    ensures host { AreOfOneHost world.old world.new }
    ensures goes_on { (logs : List (List Command)) → StandsWith (D.functions (digests_of world.old)) world.old logs
        → StandsWith (D.functions (digests_of world.new)) world.new logs }
{
    for worker in 0..world.settings().header.verifiers {
        if let Some(end) = world.step(&Event::Next(worker))? {
            return Ok(Some(end));
        }
    }
    Ok(None)
}

// Each worker moves its shards, also behind one whose clock ended. The answer is the first end, if there is one.
fn move_all<D: Digests>(world: &mut World<'_, D>) -> Result<Option<ClockEnd>, Memory>
    requires behind { StandsBehind (D.functions (digests_of world.old)) world.old }
    requires may { CanMoveAll (host_of (D.functions (digests_of world.old)) world.old) (shown_world world.old) }
    ensures leads { IfOk result (λ end. LeadsBy (host_of (D.functions (digests_of world.old)) world.old)
        (shown_world world.old) (shown_world world.new) end
        (all_move (host_of (D.functions (digests_of world.old)) world.old) (shown_world world.old))) }
    ensures ended { IfOk result (λ end. EndsMoves (host_of (D.functions (digests_of world.old)) world.old)
        (shown_world world.old) (shown_world world.new) end) }
    ensures on_the_way { OnErr result (LeadsByFront (host_of (D.functions (digests_of world.old)) world.old)
        (shown_world world.old) (shown_world world.new)
        (all_move (host_of (D.functions (digests_of world.old)) world.old) (shown_world world.old))) }
    ensures host { AreOfOneHost world.old world.new }
    ensures goes_on { (logs : List (List Command)) → StandsWith (D.functions (digests_of world.old)) world.old logs
        → StandsWith (D.functions (digests_of world.new)) world.new logs }
{
    let mut first = None;
    for mover in 0..world.settings().header.verifiers {
        let end = move_own(world, mover)?;
        first = first.or(end);
    }
    Ok(first)
}

// A worker moves its shards in order, until its clock ends.
fn move_own<D: Digests>(world: &mut World<'_, D>, worker: u16) -> Result<Option<ClockEnd>, Memory>
    requires behind { StandsBehind (D.functions (digests_of world.old)) world.old }
    requires may { CanMoveOwn (host_of (D.functions (digests_of world.old)) world.old) (shown_world world.old) worker }
    ensures leads { IfOk result (λ end. LeadsBy (host_of (D.functions (digests_of world.old)) world.old)
        (shown_world world.old) (shown_world world.new) end
        (own_moves (host_of (D.functions (digests_of world.old)) world.old) (shown_world world.old) worker)) }
    ensures ended { IfOk result (λ end. EndsOwn (host_of (D.functions (digests_of world.old)) world.old)
        (shown_world world.old) worker (shown_world world.new) end) }
    ensures on_the_way { OnErr result (LeadsByFront (host_of (D.functions (digests_of world.old)) world.old)
        (shown_world world.old) (shown_world world.new)
        (own_moves (host_of (D.functions (digests_of world.old)) world.old) (shown_world world.old) worker)) }
    ensures host { AreOfOneHost world.old world.new }
    ensures goes_on { (logs : List (List Command)) → StandsWith (D.functions (digests_of world.old)) world.old logs
        → StandsWith (D.functions (digests_of world.new)) world.new logs }
{
    the_shipped_host_is_steady();
    let settings = world.settings();
    let workers = u32::from(settings.header.verifiers);
    let mut shard = u32::from(worker);
    while shard < settings.shards {
        if let Some(end) = world.step(&Event::Move(worker, shard))? {
            return Ok(Some(end));
        }
        shard += workers;
    }
    Ok(None)
}
