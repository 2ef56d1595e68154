//! The clock of a worker as it takes an element in and hands it out.
ghost use Rattle.std.specs.Prelude.{◌≡◌, ◌<◌, ◌≤◌, IfSome, IfNone, IsTrue};
ghost use Rattle.lamport_clocks.specs.Clock.{is_open};
ghost use Rattle.host_plan.specs.Moments.{renewing};

use lamport_clocks::{Clock, Stamp};

/// The clock once an element of this stamp was taken in and handed out again with the next counter, if the two counters
/// that this takes are not past the end.
pub fn renewed(clock: &Clock, stamp: Stamp) -> Option<Clock>
    requires open { IsTrue (is_open clock.now stamp.epoch) }
    ensures renewed { IfSome result (λ later. later ≡ renewing clock.now stamp) }
    ensures within { IfSome result (λ later. later.at.counter ≤ clock.now.end) }
    ensures past { IfNone result (clock.now.end < (renewing clock.now stamp).at.counter) }
{
    let mut later = *clock;
    if later.on_add(stamp).is_err() {
        return None;
    }
    // a clock that takes its own stamp in goes to the next counter
    let now = later.at();
    if later.on_add(now).is_err() {
        return None;
    }
    Some(later)
}
