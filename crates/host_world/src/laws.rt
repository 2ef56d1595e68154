//! What holds of worlds behind the setup, and what is logged for scripts that were worked out by hand. These functions do nothing:
//! their contracts are the laws.
ghost use Rattle.std.specs.Prelude.{◌≡◌, List, [], ◌∷◌, ◌++◌, length, Some};
ghost use Rattle.record_hash.specs.Functions.{DigestFunctions};
ghost use Rattle.merkle_records.specs.Merkle.{GivesDigests};
ghost use Rattle.host_core.specs.World.{World};
ghost use Rattle.host_core.specs.Core.{IsStanding};
ghost use Rattle.host_shard.specs.Content.{Content};
ghost use Rattle.shipped_host.specs.declared.settings.Settings.{Settings};
ghost use Rattle.shipped_host.specs.ShippedHost.{shipped_host};
ghost use Rattle.host_fits.specs.Promise.{IsPromised};
ghost use Rattle.host_fits.specs.Mirroring.{PlacesMirror};
ghost use Rattle.host_world.specs.Behind.{IsBehindSetup};
ghost use Rattle.host_core.specs.WorldEvent.{takes, serves, advances, moves};
ghost use Rattle.script_text.specs.declared.task.Task.{Task};
ghost use Rattle.host_world.specs.Worked.{serving, put_five, get_five, place_five, end_behind, ended_at, in_last_epoch, two_shards, most, logs_behind, last_close, empty_log, five_events, five_log, stopped_log, between_events, between_logs, before_events, before_logs, behind_events, behind_logs, two_at_five, AreEnabledBehind};
ghost use Rattle.host_world.specs.WorkedKeys.{apart_events, apart_logs, deleted_events, deleted_log, parted_events, parted_log, four_shards, four_events, four_log};

/// A world behind the setup is as its host promises, and what an enabled event does at a shard is ready to be done. It is asked that
/// digests have 32 bytes.
pub fn worlds_are_as_promised()
    ensures promised { (functions : DigestFunctions) (settings : Settings) (script : List (List Task)) (world : World Content)
        → GivesDigests functions.digest → IsBehindSetup functions settings script world
        → IsPromised (shipped_host functions settings script) world }
    ensures standing { (functions : DigestFunctions) (settings : Settings) (script : List (List Task)) (world : World Content)
        → GivesDigests functions.digest → IsBehindSetup functions settings script world
        → IsStanding (PlacesMirror functions settings) (shipped_host functions settings script) world }
    ensures shards { (functions : DigestFunctions) (settings : Settings) (script : List (List Task)) (world : World Content)
        → GivesDigests functions.digest → IsBehindSetup functions settings script world
        → length world.shards ≡ settings.shards }
{}

/// A host of two shards logs what was worked out by hand: for an empty script; for a put and a get of a key, also where the
/// counters end between them; for two workers at one key, in each order of their requests, and at two shards; for a key that
/// is deleted; and for keys that part at their last bit. And so does a host of four shards for a put.
pub fn logs_are_as_worked_out()
    ensures empty { (functions : DigestFunctions) → logs_behind functions (two_shards 1 most) ([] ∷ []) last_close ≡ empty_log ∷ [] }
    ensures five { (functions : DigestFunctions) (script : List (List Task))
        → logs_behind functions (two_shards 1 most) script five_events ≡ five_log functions ∷ [] }
    ensures stopped { (functions : DigestFunctions) (script : List (List Task))
        → logs_behind functions (two_shards 1 4) script five_events ≡ stopped_log functions ∷ [] }
    ensures between { (functions : DigestFunctions) (script : List (List Task))
        → logs_behind functions (two_shards 2 most) script between_events ≡ between_logs functions }
    ensures before { (functions : DigestFunctions) (script : List (List Task))
        → logs_behind functions (two_shards 2 most) script before_events ≡ before_logs functions }
    ensures behind { (functions : DigestFunctions) (script : List (List Task))
        → logs_behind functions (two_shards 2 most) script behind_events ≡ behind_logs functions }
    ensures apart { (functions : DigestFunctions) (script : List (List Task))
        → logs_behind functions (two_shards 2 most) script apart_events ≡ apart_logs functions }
    ensures deleted { (functions : DigestFunctions) (script : List (List Task))
        → logs_behind functions (two_shards 1 most) script deleted_events ≡ deleted_log functions ∷ [] }
    ensures parted { (functions : DigestFunctions) (script : List (List Task))
        → logs_behind functions (two_shards 1 most) script parted_events ≡ parted_log functions ∷ [] }
    ensures four { (functions : DigestFunctions) (script : List (List Task))
        → logs_behind functions four_shards script four_events ≡ four_log functions ∷ [] }
{}

/// Where two workers are asked for one key, each order of their requests is a list of events that are enabled from the setup
/// on: the other worker's put between the put and the get of the first, before both, and behind both.
pub fn orders_of_two_workers_are_enabled()
    ensures between { (functions : DigestFunctions) → AreEnabledBehind functions (two_shards 2 most) two_at_five between_events }
    ensures before { (functions : DigestFunctions) → AreEnabledBehind functions (two_shards 2 most) two_at_five before_events }
    ensures behind { (functions : DigestFunctions) → AreEnabledBehind functions (two_shards 2 most) two_at_five behind_events }
{}

/// A clock ends where it was worked out by hand: at a request, at the second shard of a close, and where no epoch is to come.
pub fn clocks_end_as_worked_out()
    ensures request { (functions : DigestFunctions) (script : List (List Task))
        → end_behind functions (two_shards 1 4) script
        (serving 0 (put_five (Some (97 ∷ 98 ∷ []))) ++ takes 0 place_five ∷ [])
        (serves 0 place_five get_five) ≡ ended_at 0 4 }
    ensures close { (functions : DigestFunctions) (script : List (List Task))
        → end_behind functions (two_shards 1 3) script (advances 0 ∷ moves 0 0 ∷ []) (moves 0 1) ≡ ended_at 1 2 }
    ensures epoch { (functions : DigestFunctions) (script : List (List Task))
        → end_behind functions in_last_epoch script
        (serving 0 (put_five (Some (97 ∷ 98 ∷ []))) ++ serving 0 get_five)
        (advances 0) ≡ ended_at 4294967295 6 }
{}
