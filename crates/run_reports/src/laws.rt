//! What a check makes of the bytes of the shipped host's logs, in any version and behind whatever events. The functions
//! do nothing: their contracts are the laws.
ghost use Rattle.std.specs.Prelude.{◌≡◌, ℕ, suc, ◌<◌, ◌≤◌, false, List, [], length, map, take, replicate, get_or, Some, None, ◌^◌};
ghost use Rattle.record_hash.specs.Functions.{DigestFunctions};
ghost use Rattle.lamport_clocks.specs.declared.header.Header.{Header};
ghost use Rattle.record_text.specs.declared.exhibit.Exhibit.TheVariants.{Clean};
ghost use Rattle.record_text.specs.Format.{format_of};
ghost use Rattle.log_codec.specs.Log.{read_log};
ghost use Rattle.slot_rewriting.specs.Writing.{written_logs, ComeToRestFrom};
ghost use Rattle.merkle_records.specs.Merkle.{GivesDigests};
ghost use Rattle.report_text.specs.declared.ending.BundleEnd.TheVariants.{Done};
ghost use Rattle.stamp_order.specs.Serial.{IsSerial};
ghost use Rattle.soundness.specs.Certified.{certified_count, certified_operations};
ghost use Rattle.bundle_report.specs.BundleReport.{histories_at, refused_among};
ghost use Rattle.bundle_report.specs.Headline.{exhibit_at};
ghost use Rattle.host_core.specs.Host.{scheme, asked, script_of};
ghost use Rattle.host_core.specs.World.{logs_of, worker_at, set_up};
ghost use Rattle.host_core.specs.WorldEvent.{WorldEvent, HasAdvanced, IsPhaseOver, AreEnabled, run_events};
ghost use Rattle.host_core.specs.Deeds.{answers_in, IsAnswering};
ghost use Rattle.host_core.specs.Core.{histories};
ghost use Rattle.bundle_report.specs.Report.{EpochText};
ghost use Rattle.host_rounds.specs.SoFar.{lines_due, operations_due, epochs_due, end_due};
ghost use Rattle.record_text.specs.declared.request.Request.{Request};
ghost use Rattle.script_text.specs.declared.task.Task.{Task};
ghost use Rattle.shipped_host.specs.declared.settings.Settings.{Settings};
ghost use Rattle.shipped_host.specs.ShippedHost.{shipped_host};
ghost use Rattle.host_fits.specs.Promise.{CanRun};
ghost use Rattle.host_fits.specs.Holds.{ContentsHold};
ghost use Rattle.run_reports.specs.Runs.{HoldsOfRuns, map_certified};

use host_fits::{the_contents_hold_the_plain_map, the_shipped_host_keeps_its_promise};

/// The histories that a check reads of the bytes of the logs are those of the host's world, and it refuses no log.
pub fn a_check_reads_what_the_host_logged()
    ensures histories { HoldsOfRuns (λ host world.
        histories_at (scheme host) host.header (written_logs host.header (logs_of world)) ≡ histories host world) }
    ensures none_refused { HoldsOfRuns (λ host world.
        refused_among (scheme host) host.header 0 (map (read_log (format_of host.header)) (written_logs host.header (logs_of world))) ≡ None) }
{
    the_shipped_host_keeps_its_promise();
}

/// Behind each log the slots of its verifier are as at the start, so what is logged next is written as a log of its own.
pub fn logs_come_to_rest()
    ensures rests { HoldsOfRuns (λ host world. ComeToRestFrom host.header 0 (logs_of world)) }
{
    the_shipped_host_keeps_its_promise();
}

/// A check of the logs comes to the end with the number of epochs that are certified. Where each worker has advanced
/// twice, behind a whole last close, these are the epochs of all phases.
pub fn a_check_of_the_logs_ends_as_the_host_promises()
    ensures end { HoldsOfRuns (λ host world.
        end_due host.functions host.header (written_logs host.header (logs_of world))
        ≡ Done (certified_count (scheme host) host.header.first (histories host world))) }
    ensures whole { HoldsOfRuns (λ host world.
        ((i : ℕ) → i < length world.workers → HasAdvanced host world i 2)
        → end_due host.functions host.header (written_logs host.header (logs_of world)) ≡ Done (suc world.phase)) }
{
    the_shipped_host_keeps_its_promise();
}

/// Where nothing was logged, nothing is certified and no line is due, and a check comes to the end. The texts of logs
/// with no commands are such logs.
pub fn logs_of_no_bytes_certify_nothing()
    ensures end { (functions : DigestFunctions) (header : Header) → end_due functions header (replicate header.verifiers []) ≡ Done 0 }
    ensures lines { (tell : EpochText) (functions : DigestFunctions) (header : Header) → lines_due tell functions header (replicate header.verifiers []) ≡ [] }
    ensures epochs { (functions : DigestFunctions) (header : Header) → epochs_due functions header (replicate header.verifiers []) ≡ 0 }
    ensures operations { (functions : DigestFunctions) (header : Header) → operations_due functions header (replicate header.verifiers []) ≡ [] }
    ensures texts { (header : Header) (count : ℕ) → written_logs header (replicate count []) ≡ replicate count [] }
{}

/// An audit of the logs has nothing to show, and the operations that a check certifies are serial.
pub fn a_check_finds_nothing_to_show()
    ensures clean { HoldsOfRuns (λ host world. exhibit_at host.functions (Some host.header) (written_logs host.header (logs_of world)) ≡ Clean) }
    ensures serial { HoldsOfRuns (λ host world.
        IsSerial (certified_operations (scheme host) host.header.first (histories_at (scheme host) host.header (written_logs host.header (logs_of world))))) }
{
    the_shipped_host_keeps_its_promise();
}

/// The answers that a check reads of each worker's log are what the script asks of it first, each in its phase's epoch, and of a
/// rolling host in that or a later one. Where the last phase is over and no clock ended, they are all that it asks, and so they are
/// behind the whole last close of a rolling host.
pub fn a_check_finds_what_the_script_asks()
    ensures answered { HoldsOfRuns (λ host world. host.rolling ≡ false → (i : ℕ) → i < length world.workers
        → answers_in (get_or (histories_at (scheme host) host.header (written_logs host.header (logs_of world))) i [])
        ≡ take (worker_at host world i).served (script_of host i)) }
    ensures in_time { HoldsOfRuns (λ host world. (i : ℕ) → i < length world.workers
        → IsAnswering host (answers_in (get_or (histories_at (scheme host) host.header (written_logs host.header (logs_of world))) i []))
        (take (worker_at host world i).served (asked host i))) }
    ensures done { HoldsOfRuns (λ host world. host.rolling ≡ false → length host.script ≤ suc world.phase → IsPhaseOver host world
        → ((i : ℕ) → i < length world.workers → (worker_at host world i).stopped ≡ false)
        → (i : ℕ) → i < length world.workers
        → answers_in (get_or (histories_at (scheme host) host.header (written_logs host.header (logs_of world))) i []) ≡ script_of host i) }
    ensures all_in_time { HoldsOfRuns (λ host world. length host.script ≤ suc world.phase → IsPhaseOver host world
        → ((i : ℕ) → i < length world.workers → (worker_at host world i).stopped ≡ false)
        → ((i : ℕ) → i < length world.workers → HasAdvanced host world i 2)
        → (i : ℕ) → i < length world.workers
        → IsAnswering host (answers_in (get_or (histories_at (scheme host) host.header (written_logs host.header (logs_of world))) i [])) (asked host i)) }
{
    the_shipped_host_keeps_its_promise();
}

/// Where each worker has advanced twice, behind a whole last close, the host's contents hold the plain map behind the operations
/// that a check certifies of the logs.
pub fn the_contents_hold_what_a_check_certifies()
    ensures holds { (functions : DigestFunctions) (settings : Settings) (script : List (List Task)) (events : List (WorldEvent Request))
        → CanRun functions settings script → settings.header.first < 2 ^ 32
        → let host = shipped_host functions settings script in
        AreEnabled host (set_up host) events
        → ((i : ℕ) → i < length (run_events host (set_up host) events).workers → HasAdvanced host (run_events host (set_up host) events) i 2)
        → ContentsHold settings (run_events host (set_up host) events)
        (map_certified functions settings.header (logs_of (run_events host (set_up host) events))) }
{
    the_shipped_host_keeps_its_promise();
    the_contents_hold_the_plain_map();
}
