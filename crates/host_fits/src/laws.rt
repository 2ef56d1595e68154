//! What holds of the shipped host's world, behind whatever events. The functions do nothing: their contracts are the laws.
ghost use Rattle.std.specs.Prelude.{◌≡◌, ℕ, ◌<◌, ◌≤◌, List, length, IfSome, Some, None};
ghost use Rattle.lamport_clocks.specs.Reading.{Reading};
ghost use Rattle.lamport_clocks.specs.declared.header.Header.{Header};
ghost use Rattle.record_hash.specs.Functions.{DigestFunctions};
ghost use Rattle.record_text.specs.declared.request.Request.{Request};
ghost use Rattle.record_text.specs.Longest.{longest_of};
ghost use Rattle.log_codec.specs.declared.command.Command.{Command};
ghost use Rattle.merkle_records.specs.Merkle.{GivesDigests};
ghost use Rattle.stamp_order.specs.Serial.{none_everywhere};
ghost use Rattle.soundness.specs.Certified.{operations_in, order_of, certified_operations};
ghost use Rattle.soundness.specs.World.{stored_behind};
ghost use Rattle.script_text.specs.declared.task.Task.{Task};
ghost use Rattle.script_text.specs.Text.{AreTasks};
ghost use Rattle.host_shard.specs.Content.{Content};
ghost use Rattle.host_plan.specs.Plan.{CanServe, IsPlan, IsPastEnd, clock_after};
ghost use Rattle.host_plan.specs.declared.plans.Plan.{Plan};
ghost use Rattle.move_laws.specs.Stages.{StageMirrors};
ghost use Rattle.protection_moves.specs.Stage.{Stage};
ghost use Rattle.protection_moves.specs.Move.{IsMove};
ghost use Rattle.protection_moves.specs.Move as move;
ghost use Rattle.host_core.specs.Host.{scheme};
ghost use Rattle.host_core.specs.World.{set_up};
ghost use Rattle.host_core.specs.WorldEvent.{WorldEvent, HasAdvanced, AreEnabled, run_events};
ghost use Rattle.host_core.specs.Core.{histories, IsStanding};
ghost use Rattle.host_order.specs.Steady.{IsSteady};
ghost use Rattle.host_order.specs.Close.{MovesKeepEpoch};
ghost use Rattle.shipped_host.specs.declared.settings.Settings.{Settings};
ghost use Rattle.shipped_host.specs.Ranges.{AreInRange, HaveShortValues};
ghost use Rattle.shipped_host.specs.Moving.{seats_of};
ghost use Rattle.shipped_host.specs.Settings.{IsSettings};
ghost use Rattle.shipped_host.specs.ShippedHost.{shipped_host};
ghost use Rattle.host_fits.specs.Promise.{CanRun, IsPromised};
ghost use Rattle.host_fits.specs.Holds.{ContentsHold};
ghost use Rattle.host_fits.specs.Mirroring.{PlacesMirror};

/// Whatever the script, the workers, the shards, the first epoch and the counters' end, rolling or not: behind every list of events
/// that are enabled from the setup on, the promise holds. It is asked that the numbers are in their ranges, that the setup's
/// counters do not pass the end, that keys have no more bits than the header says, and that digests have 32 bytes.
pub fn the_shipped_host_keeps_its_promise()
    ensures promised { (functions : DigestFunctions) (settings : Settings) (script : List (List Task)) (events : List (WorldEvent Request))
        → CanRun functions settings script
        → let host = shipped_host functions settings script in
        AreEnabled host (set_up host) events → IsPromised host (run_events host (set_up host) events) }
{}

/// Behind whatever events there are as many workers and shards as the host's numbers say, each clock is one of the host, the contents
/// of each shard's places mirror, and what an enabled event does at a shard is ready to be done: the worker's clock can take in what
/// waits there.
pub fn what_is_enabled_is_ready()
    ensures ready { (functions : DigestFunctions) (settings : Settings) (script : List (List Task)) (events : List (WorldEvent Request))
        → CanRun functions settings script
        → let host = shipped_host functions settings script in
        AreEnabled host (set_up host) events
        → IsStanding (PlacesMirror functions settings) host (run_events host (set_up host) events) }
    ensures shards { (functions : DigestFunctions) (settings : Settings) (script : List (List Task)) → IsSettings settings
        → length (shipped_host functions settings script).setup.after ≡ settings.shards }
{}

/// Behind whatever events the contents hold the plain map: of each key the data value that the operations of all logs leave, in their
/// one order. Behind a whole last close, where each worker has advanced twice, these operations are the certified ones.
pub fn the_contents_hold_the_plain_map()
    ensures answered { (functions : DigestFunctions) (settings : Settings) (script : List (List Task)) (events : List (WorldEvent Request))
        → CanRun functions settings script
        → let host = shipped_host functions settings script in
        AreEnabled host (set_up host) events
        → ContentsHold settings (run_events host (set_up host) events)
        (stored_behind none_everywhere (operations_in (order_of (histories host (run_events host (set_up host) events))))) }
    ensures certified { (functions : DigestFunctions) (settings : Settings) (script : List (List Task)) (events : List (WorldEvent Request))
        → CanRun functions settings script
        → let host = shipped_host functions settings script in
        AreEnabled host (set_up host) events
        → ((i : ℕ) → i < length (run_events host (set_up host) events).workers → HasAdvanced host (run_events host (set_up host) events) i 2)
        → ContentsHold settings (run_events host (set_up host) events)
        (stored_behind none_everywhere (certified_operations (scheme host) settings.header.first (histories host (run_events host (set_up host) events)))) }
{}

/// What a script asks for line by line has keys in range, and values that are not too long for a bundle.
pub fn scripts_ask_for_keys_in_range()
    ensures keys { (header : Header) (script : List (List Task)) → AreTasks header script → AreInRange header script }
    ensures values { (header : Header) (script : List (List Task)) → AreTasks header script → HaveShortValues header script }
{}

/// A plan is what the host does for its request, and where its clock would pass the end the host does nothing.
pub fn plans_are_what_the_host_does()
    ensures served { (functions : DigestFunctions) (settings : Settings) (script : List (List Task)) (worker : ℕ)
        (content after : Content) (request : Request) (clock later : Reading) (plan : Plan)
        → CanServe (longest_of settings.header) functions.digest content request.key
        → IsPlan settings.absent functions.digest worker content request clock plan after later
        → (clock_after content clock).at.counter ≤ clock.end
        → (shipped_host functions settings script).serve worker clock content request
        ≡ Some (record { commands = plan.commands; after = after; clock = later }) }
    ensures ended { (functions : DigestFunctions) (settings : Settings) (script : List (List Task)) (worker : ℕ)
        (content : Content) (request : Request) (clock : Reading)
        → IsPastEnd content clock → (shipped_host functions settings script).serve worker clock content request ≡ None }
{}

/// A move of a stage that mirrors is what the host does for the shard at a close, for its threshold. Where the counters
/// would pass their end the host does nothing.
pub fn moves_are_what_the_host_does()
    ensures moved { (functions : DigestFunctions) (settings : Settings) (script : List (List Task)) (worker s : ℕ)
        (old new : Stage) (commands : List Command)
        → GivesDigests functions.digest → IfSome settings.hot (λ least. 0 < least)
        → StageMirrors (longest_of settings.header) functions.digest old
        → IsMove functions.digest worker settings.hot old commands new
        → (move.IsPastEnd settings.hot old → ⊥)
        → (shipped_host functions settings script).move worker old.clock s (seats_of old)
        ≡ Some (record { commands = commands; after = seats_of new; clock = new.clock }) }
    ensures ended { (functions : DigestFunctions) (settings : Settings) (script : List (List Task)) (worker s : ℕ) (old : Stage)
        → GivesDigests functions.digest → IfSome settings.hot (λ least. 0 < least)
        → StageMirrors (longest_of settings.header) functions.digest old
        → move.IsPastEnd settings.hot old
        → (shipped_host functions settings script).move worker old.clock s (seats_of old) ≡ None }
{}

/// A request moves the clock on and leaves the owners as they were, and a close of a shard leaves the epoch: so what many
/// workers did at once in a phase or in a close was one list of events, as `host_order` says.
pub fn the_shipped_host_is_steady()
    ensures steady { (functions : DigestFunctions) (settings : Settings) (script : List (List Task))
        → IsSteady (shipped_host functions settings script) }
    ensures close { (functions : DigestFunctions) (settings : Settings) (script : List (List Task))
        → MovesKeepEpoch (shipped_host functions settings script) }
{}
