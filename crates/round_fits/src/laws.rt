//! What the rolling shipped host does in its round. The functions do nothing: their contracts are the laws.
ghost use Rattle.std.specs.Prelude.{◌≡◌, ℕ, true, List, [], ◌∷◌, nat_lt, None, Some, if◌then◌else◌};
ghost use Rattle.lamport_clocks.specs.Reading.{Reading};
ghost use Rattle.record_hash.specs.Functions.{DigestFunctions};
ghost use Rattle.record_text.specs.declared.request.Request.{Request};
ghost use Rattle.script_text.specs.declared.task.Task.{Task};
ghost use Rattle.host_core.specs.World.{set_up};
ghost use Rattle.host_core.specs.WorldEvent.{WorldEvent, AreEnabled, run_events};
ghost use Rattle.host_core.specs.Deeds.{pending_of};
ghost use Rattle.host_shard.specs.Shard.{Shard, pending_shard};
ghost use Rattle.host_shard.specs.Content.{Content, cold};
ghost use Rattle.host_plan.specs.Moments.{renewing};
ghost use Rattle.host_plan.specs.Visit.{between};
ghost use Rattle.shipped_host.specs.declared.settings.Settings.{Settings};
ghost use Rattle.shipped_host.specs.ShippedHost.{shipped_host};
ghost use Rattle.host_fits.specs.Promise.{CanRun};
ghost use Rattle.round_order.specs.Turn.{Turn};
ghost use Rattle.round_order.specs.Steady.{IsSteady, scanned_done};
ghost use Rattle.round_fits.specs.Rounds.{IsToldFromSetup, IsOneRound, HasNothingHot};

use host_fits::{the_shipped_host_is_steady, the_shipped_host_keeps_its_promise};

/// Where no key becomes hot, a request or a scan of the shipped host moves the clock on, leaves one element with its stamp, and leaves the owners as they
/// were: so what the workers did in the round was one list of events, as `round_order` says.
pub fn the_rolling_host_is_steady()
    ensures steady { (functions : DigestFunctions) (settings : Settings) (script : List (List Task))
        → settings.hot ≡ None → IsSteady (shipped_host functions settings script) true }
{
    the_shipped_host_is_steady();
}

/// What the workers and places of the rolling host tell of its round, from the setup on, was one list of enabled events. Behind a
/// whole round its close may begin; and where clocks ended, the stops may stand behind the turns.
pub fn rolling_rounds_are_lists_of_events()
    ensures rounds { (functions : DigestFunctions) (settings : Settings) (script : List (List Task)) (top : ℕ) (finals : ℕ → ℕ)
        (lists : List (List (Turn Content Request))) (pasts : List (List (List (Turn Content Request))))
        → CanRun functions settings script → settings.rolling ≡ true
        → let host = shipped_host functions settings script in
        IsToldFromSetup host top finals lists pasts → IsOneRound host top finals lists pasts }
{
    the_rolling_host_is_steady();
    the_shipped_host_keeps_its_promise();
}

/// Where no key becomes hot, a shard at whose other places nothing waits is moved, or scanned, by taking its element in and handing it
/// out again: no touch is counted any more, and the worker is the evictor. Where the counters would end, nothing is done.
pub fn scans_are_what_the_host_does()
    ensures scanned { (functions : DigestFunctions) (settings : Settings) (script : List (List Task)) (worker s : ℕ) (clock : Reading)
        (shard : Shard) (others : List Content)
        → let host = shipped_host functions settings script in
        let later = renewing clock shard.stamp in
        settings.hot ≡ None → pending_of host others ≡ []
        → host.move worker clock s (cold shard ∷ others) ≡ (if nat_lt clock.end later.at.counter then None
        else Some (scanned_done others (record {
          commands = between (pending_shard shard) later.at [];
          after = cold (record shard { stamp = later.at; evictor = worker; touches = λ k. 0 });
          clock = later;
        }))) }
{}

/// Where no key becomes hot, the hot places are vacant, whatever happens.
pub fn nothing_is_hot()
    ensures vacant { (functions : DigestFunctions) (settings : Settings) (script : List (List Task)) (events : List (WorldEvent Request))
        → let host = shipped_host functions settings script in
        settings.hot ≡ None → AreEnabled host (set_up host) events → HasNothingHot (run_events host (set_up host) events) }
{}
