//! The counters that a move takes, counted from stamps alone.
ghost use Rattle.std.specs.Prelude.{◌≡◌, ◌<◌, ◌≤◌, ◌++◌, map, IfSome, IfNone, IsTrue};
ghost use Rattle.std.specs.List.{AllByRecursion};
ghost use Rattle.lamport_clocks.specs.Clock.{is_open};
ghost use Rattle.host_plan.specs.Moments.{taking, giving};
ghost use Rattle.protection_moves.specs.Transfer.{demotes, promotes, clock_by_each};
ghost use Rattle.protection_moves.specs.Renewing.{renewing_each};

use host_plan::renewed;
use host_shard::HotRecord;
use lamport_clocks::{Clock, Stamp};

// The clock once an element of this stamp was taken in, if that is not past the end.
pub(crate) fn taken(clock: &Clock, stamp: Stamp) -> Option<Clock>
    requires open { IsTrue (is_open clock.now stamp.epoch) }
    ensures taken { IfSome result (λ later. later ≡ taking clock.now stamp) }
    ensures within { IfSome result (λ later. later.at.counter ≤ clock.now.end) }
    ensures past { IfNone result (clock.now.end < (taking clock.now stamp).at.counter) }
{
    let mut later = *clock;
    if later.on_add(stamp).is_err() {
        return None;
    }
    Some(later)
}

// The clock once an element was handed out with the next counter, if that is not past the end.
pub(crate) fn given(clock: &Clock) -> Option<Clock>
    ensures given { IfSome result (λ later. later ≡ giving clock.now) }
    ensures within { IfSome result (λ later. later.at.counter ≤ clock.now.end) }
    ensures past { IfNone result (clock.now.end < (giving clock.now).at.counter) }
{
    let mut later = *clock;
    // a clock that takes its own stamp in goes to the next counter
    if later.on_add(clock.at()).is_err() {
        return None;
    }
    Some(later)
}

// The clock once these records were renewed one after another, if that is not past the end.
fn renewed_by_each(clock: &Clock, records: &[HotRecord]) -> Option<Clock>
    requires open { AllByRecursion (λ found. IsTrue (is_open clock.now found.stamp.epoch)) records.now }
    ensures renewed { IfSome result (λ later. later ≡ renewing_each clock.now records.now) }
    ensures past { IfNone result (clock.now.end < (renewing_each clock.now records.now).at.counter) }
{
    match records.split_first() {
        None => Some(*clock),
        Some((first, rest)) => match renewed(clock, first.stamp) {
            Some(next) => renewed_by_each(&next, rest),
            None => None,
        },
    }
}

// The clock once these records were renewed and then an element of this stamp was taken in, if that is not past the end.
pub(crate) fn begun(clock: &Clock, records: &[HotRecord], stamp: Stamp) -> Option<Clock>
    requires open { IsTrue (is_open clock.now stamp.epoch) }
    requires hot_open { AllByRecursion (λ found. IsTrue (is_open clock.now found.stamp.epoch)) records.now }
    ensures begun { IfSome result (λ later. later ≡ taking (renewing_each clock.now records.now) stamp) }
    ensures within { IfSome result (λ later. later.at.counter ≤ clock.now.end) }
    ensures past { IfNone result (clock.now.end < (taking (renewing_each clock.now records.now) stamp).at.counter) }
{
    match renewed_by_each(clock, records) {
        Some(between) => taken(&between, stamp),
        None => None,
    }
}

// The clock once these records came back, these keys became hot and the frontier was handed out, if that is not past the end.
pub(crate) fn ended(clock: &Clock, back: &[HotRecord], keys: &[u128]) -> Option<Clock>
    requires open { AllByRecursion (λ found. IsTrue (is_open clock.now found.stamp.epoch)) back.now }
    ensures ended { IfSome result (λ later. later
        ≡ giving (clock_by_each clock.now (map demotes back.now ++ map promotes keys.now))) }
    ensures within { IfSome result (λ later. later.at.counter ≤ clock.now.end) }
    ensures past { IfNone result (clock.now.end
        < (giving (clock_by_each clock.now (map demotes back.now ++ map promotes keys.now))).at.counter) }
{
    if let Some((first, rest)) = back.split_first() {
        return match taken(clock, first.stamp) {
            Some(next) => ended(&next, rest, keys),
            None => None,
        };
    }
    handed_out(clock, keys)
}

// The clock once these keys became hot and the frontier was handed out, if that is not past the end.
fn handed_out(clock: &Clock, keys: &[u128]) -> Option<Clock>
    ensures handed_out { IfSome result (λ later. later ≡ giving (clock_by_each clock.now (map promotes keys.now))) }
    ensures within { IfSome result (λ later. later.at.counter ≤ clock.now.end) }
    ensures past { IfNone result (clock.now.end < (giving (clock_by_each clock.now (map promotes keys.now))).at.counter) }
{
    match given(clock) {
        None => None,
        Some(next) => match keys.split_first() {
            None => Some(next),
            Some((_, rest)) => handed_out(&next, rest),
        },
    }
}
