//! What a rolling host of two shards logs for scripts that were worked out by hand. These functions do nothing: their contracts are
//! the laws.
ghost use Rattle.std.specs.Prelude.{◌≡◌, [], ◌∷◌, ◌++◌, None, Some};
ghost use Rattle.record_hash.specs.Functions.{DigestFunctions};
ghost use Rattle.host_core.specs.WorldEvent.{takes, advances, raises, enters, scans, finishes, stops};
ghost use Rattle.host_world.specs.Worked.{most, logs_behind, two_at_five, between_events, between_logs, before_events, before_logs, behind_events, behind_logs, AreEnabledBehind, end_behind, ended_at};
ghost use Rattle.host_world.specs.WorkedKeys.{place_at, serving_at, put, get};
ghost use Rattle.host_world.specs.WorkedRounds.{rolling, scanning_at, two_epochs_settings, two_epochs_script, two_epochs_events, two_epochs_logs, unasked_settings, unasked_script, unasked_events, unasked_logs, three_workers_settings, three_workers_script, three_workers_events, three_workers_logs, no_line_settings, no_line_script, no_line_events, no_line_logs, one_line_settings, one_line_script, one_line_events, one_line_logs, above_settings, above_script, above_events, above_logs, beside_settings, beside_script, beside_events, beside_logs, last_epoch_settings, last_epoch_script, last_epoch_events, last_epoch_logs, past_last_settings, past_last_script, past_last_events, past_last_logs, ending_scan_settings, ending_scan_script, ending_scan_events, ending_scan_logs};

/// A rolling host logs what was worked out by hand: where a worker serves in two epochs; where nothing is asked; with more workers than
/// shards; for a script of one phase, also with two workers at one key, in each order of their requests; where a worker serves in an
/// epoch above that in which a shard waits, and where one enters while another serves in the epoch before; where the last phase is of
/// the last epoch, and where there would be one too many; and where the counters end in a scan.
pub fn rounds_log_as_worked_out()
    ensures two_epochs { (functions : DigestFunctions)
        → logs_behind functions two_epochs_settings two_epochs_script two_epochs_events ≡ two_epochs_logs functions }
    ensures unasked { (functions : DigestFunctions)
        → logs_behind functions unasked_settings unasked_script unasked_events ≡ unasked_logs functions }
    ensures three_workers { (functions : DigestFunctions)
        → logs_behind functions three_workers_settings three_workers_script three_workers_events ≡ three_workers_logs functions }
    ensures no_line { (functions : DigestFunctions)
        → logs_behind functions no_line_settings no_line_script no_line_events ≡ no_line_logs functions }
    ensures one_line { (functions : DigestFunctions)
        → logs_behind functions one_line_settings one_line_script one_line_events ≡ one_line_logs functions }
    ensures above { (functions : DigestFunctions)
        → logs_behind functions above_settings above_script above_events ≡ above_logs functions }
    ensures beside { (functions : DigestFunctions)
        → logs_behind functions beside_settings beside_script beside_events ≡ beside_logs functions }
    ensures last_epoch { (functions : DigestFunctions)
        → logs_behind functions last_epoch_settings last_epoch_script last_epoch_events ≡ last_epoch_logs functions }
    ensures past_last { (functions : DigestFunctions)
        → logs_behind functions past_last_settings past_last_script past_last_events ≡ past_last_logs functions }
    ensures ending_scan { (functions : DigestFunctions)
        → logs_behind functions ending_scan_settings ending_scan_script ending_scan_events ≡ ending_scan_logs functions }
    ensures between { (functions : DigestFunctions) → logs_behind functions (rolling 2 0 most) two_at_five between_events ≡ between_logs functions }
    ensures before { (functions : DigestFunctions) → logs_behind functions (rolling 2 0 most) two_at_five before_events ≡ before_logs functions }
    ensures behind { (functions : DigestFunctions) → logs_behind functions (rolling 2 0 most) two_at_five behind_events ≡ behind_logs functions }
{}

/// Each of these lists of events is enabled from the setup on.
pub fn worked_rounds_are_enabled()
    ensures two_epochs { (functions : DigestFunctions) → AreEnabledBehind functions two_epochs_settings two_epochs_script two_epochs_events }
    ensures unasked { (functions : DigestFunctions) → AreEnabledBehind functions unasked_settings unasked_script unasked_events }
    ensures three_workers { (functions : DigestFunctions) → AreEnabledBehind functions three_workers_settings three_workers_script three_workers_events }
    ensures no_line { (functions : DigestFunctions) → AreEnabledBehind functions no_line_settings no_line_script no_line_events }
    ensures one_line { (functions : DigestFunctions) → AreEnabledBehind functions one_line_settings one_line_script one_line_events }
    ensures above { (functions : DigestFunctions) → AreEnabledBehind functions above_settings above_script above_events }
    ensures beside { (functions : DigestFunctions) → AreEnabledBehind functions beside_settings beside_script beside_events }
    ensures last_epoch { (functions : DigestFunctions) → AreEnabledBehind functions last_epoch_settings last_epoch_script last_epoch_events }
    ensures past_last { (functions : DigestFunctions) → AreEnabledBehind functions past_last_settings past_last_script past_last_events }
    ensures ending_scan { (functions : DigestFunctions) → AreEnabledBehind functions ending_scan_settings ending_scan_script ending_scan_events }
    ensures between { (functions : DigestFunctions) → AreEnabledBehind functions (rolling 2 0 most) two_at_five between_events }
    ensures before { (functions : DigestFunctions) → AreEnabledBehind functions (rolling 2 0 most) two_at_five before_events }
    ensures behind { (functions : DigestFunctions) → AreEnabledBehind functions (rolling 2 0 most) two_at_five behind_events }
{}

/// In a round a clock ends where it was worked out by hand: where the last epoch leaves none for the close, where the second phase would
/// be of an epoch past the last, and at the second shard that is scanned.
pub fn clocks_end_in_rounds_as_worked_out()
    ensures close { (functions : DigestFunctions) → end_behind functions last_epoch_settings last_epoch_script
        (raises 0 ∷ enters 0 ∷ (scanning_at 0 0 ++ (scanning_at 0 1 ++ (finishes 0 ∷ serving_at 0 0 (get 5))))) (advances 0)
        ≡ ended_at 4294967295 6 }
    ensures stop { (functions : DigestFunctions) → end_behind functions past_last_settings past_last_script
        (serving_at 0 0 (put 5 (Some (97 ∷ [])))) (stops 0 None) ≡ ended_at 4294967295 4 }
    ensures scan { (functions : DigestFunctions) → end_behind functions ending_scan_settings ending_scan_script
        (raises 0 ∷ enters 0 ∷ (scanning_at 0 0 ++ takes 0 (place_at 1) ∷ [])) (scans 0 (place_at 1)) ≡ ended_at 1 2 }
{}
