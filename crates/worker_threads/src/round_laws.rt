//! Why a round that all workers served at once was one list of events. These functions do nothing: their contracts are the laws.
ghost use Rattle.std.specs.Prelude.{◌≡◌, ℕ, ◌^◌, ◌<◌, ◌≤◌, true, List, length, map};
ghost use Rattle.tree_keys.specs.Path.{key_bits};
ghost use Rattle.log_codec.specs.declared.command.Command.{Command};
ghost use Rattle.merkle_records.specs.Merkle.{GivesDigests};
ghost use Rattle.record_hash.specs.Functions.{DigestFunctions};
ghost use Rattle.record_text.specs.declared.request.Request.{Request};
ghost use Rattle.record_text.specs.Tree.{wide_of};
ghost use Rattle.script_text.specs.declared.task.Task.{Task};
ghost use Rattle.host_core.specs.World.{World, worker_at, epoch_of};
ghost use Rattle.host_shard.specs.declared.content.Content as code;
ghost use Rattle.host_shard.specs.Content.{Content};
ghost use Rattle.host_shard.specs.Shown.{shown_content};
ghost use Rattle.host_epochs.specs.declared.views.Row.{Row};
ghost use Rattle.host_epochs.specs.Terms.{Terms, IsClockOf, IsMaking, IsPlaceOf, epoch_in, final_epoch, first_epoch};
ghost use Rattle.shipped_host.specs.declared.settings.Settings.{Settings};
ghost use Rattle.shipped_host.specs.ShippedHost.{shipped_host};
ghost use Rattle.host_world.specs.Behind.{IsBehindSetup, with_logs};
ghost use Rattle.host_world.specs.Lending.{all_contents};
ghost use Rattle.host_serving.specs.Leading.{LeadsAs};
ghost use Rattle.host_serving.specs.Form.{AreOfRound};
ghost use Rattle.host_serving.specs.Standing.{BeginsRound, EndsRound};
ghost use Rattle.table_order.specs.Rounds.{AreTermsOf};
ghost use Rattle.round_workers.specs.Sharing.{MayGoOn};
ghost use Rattle.worker_threads.specs.Phase.{IsPlaceFor, first_stopped};
ghost use Rattle.worker_threads.specs.Round.{begun_at, IsRoundServed};

use crate::laws::phases_at_once_are_lists_of_events;
use host_world::worlds_are_as_promised;
use round_fits::nothing_is_hot;
use table_order::{a_round_of_a_table_has_one_order, tables_tell_of_a_round, worlds_make_rounds};

/// Of what a world's places have at a round's begin a table of the round's first epoch can be made for its workers. The script of a
/// rolling host ends with the world's phase.
pub(crate) fn rounds_can_be_made()
    ensures workers { (functions : DigestFunctions) (settings : Settings) (script : List (List Task)) (logs : List (List Command))
        (world : World Content) → GivesDigests functions.digest
        → IsBehindSetup functions settings script (with_logs logs world)
        → length world.workers ≡ settings.header.verifiers }
    ensures making { (functions : DigestFunctions) (settings : Settings) (script : List (List Task)) (logs : List (List Command))
        (world : World Content) (contents : List code.Content) → GivesDigests functions.digest
        → IsBehindSetup functions settings script (with_logs logs world)
        → BeginsRound (shipped_host functions settings script) world
        → map shown_content contents ≡ all_contents world.shards
        → IsMaking settings.header (length world.workers) contents
        × (epoch_in contents ≡ begun_at (shipped_host functions settings script) world) }
{
    worlds_are_as_promised();
    worlds_make_rounds();
}

/// A table of what a world's places have, in the epoch in which its round begins, is one of the world: its workers' clocks are of it, and
/// a request's place is its key's. Workers of a rolling host may go on there to further epochs.
pub(crate) fn tables_are_of_their_rounds()
    ensures clocks { (functions : DigestFunctions) (settings : Settings) (script : List (List Task)) (logs : List (List Command))
        (world : World Content) (terms : Terms) → GivesDigests functions.digest
        → IsBehindSetup functions settings script (with_logs logs world)
        → BeginsRound (shipped_host functions settings script) world
        → terms.header ≡ settings.header → first_epoch terms ≡ begun_at (shipped_host functions settings script) world
        → (i : ℕ) → i < length world.workers
        → IsClockOf terms (worker_at (shipped_host functions settings script) world i).clock
        × ((worker_at (shipped_host functions settings script) world i).clock.at.epoch ≡ first_epoch terms) }
    ensures of_world { (functions : DigestFunctions) (settings : Settings) (script : List (List Task)) (logs : List (List Command))
        (world : World Content) (terms : Terms) → GivesDigests functions.digest
        → IsBehindSetup functions settings script (with_logs logs world)
        → map shown_content terms.contents ≡ all_contents world.shards
        → terms.header ≡ settings.header → terms.digest ≡ functions.digest → terms.absent ≡ settings.absent
        → terms.workers ≡ length world.workers
        → final_epoch terms ≡ epoch_of (shipped_host functions settings script) world
        → AreTermsOf (shipped_host functions settings script) settings.absent world terms }
    ensures places { (functions : DigestFunctions) (settings : Settings) (script : List (List Task)) (logs : List (List Command))
        (world : World Content) (terms : Terms) → GivesDigests functions.digest
        → IsBehindSetup functions settings script (with_logs logs world)
        → map shown_content terms.contents ≡ all_contents world.shards
        → (place : ℕ) (request : Request) → request.key < 2 ^ key_bits (wide_of settings.header)
        → IsPlaceFor (shipped_host functions settings script) world request place → IsPlaceOf terms place request.key }
    ensures further { (functions : DigestFunctions) (settings : Settings) (script : List (List Task)) (logs : List (List Command))
        (world : World Content) (terms : Terms) → GivesDigests functions.digest
        → IsBehindSetup functions settings script (with_logs logs world) → settings.rolling ≡ true
        → map shown_content terms.contents ≡ all_contents world.shards
        → terms.header ≡ settings.header → first_epoch terms ≡ begun_at (shipped_host functions settings script) world
        → MayGoOn terms }
{
    worlds_are_as_promised();
    nothing_is_hot();
}

/// What workers at a table did of a round was one list of events: these lead from the world that the table was made of to the one
/// with the contents that it gave, the workers as they are then and the epochs that they noted, and the first end is that of the first
/// worker that is stopped. They are those of a round, in their one order. No worker has more to do in the round, unless it is that of a
/// rolling host in which a clock ended.
pub(crate) fn rounds_at_once_are_lists_of_events()
    ensures leads { (functions : DigestFunctions) (settings : Settings) (script : List (List Task)) (logs : List (List Command))
        (world later : World Content) (terms : Terms) (after : List code.Content) (rows : List Row)
        → GivesDigests functions.digest → length logs ≡ length world.workers
        → IsBehindSetup functions settings script (with_logs logs world)
        → IsRoundServed (shipped_host functions settings script) settings.absent script world later terms after rows
        → LeadsAs AreOfRound (shipped_host functions settings script) world later (first_stopped 0 later.workers) }
    ensures done { (functions : DigestFunctions) (settings : Settings) (script : List (List Task)) (logs : List (List Command))
        (world later : World Content) (terms : Terms) (after : List code.Content) (rows : List Row)
        → GivesDigests functions.digest → length logs ≡ length world.workers
        → IsBehindSetup functions settings script (with_logs logs world)
        → IsRoundServed (shipped_host functions settings script) settings.absent script world later terms after rows
        → EndsRound (shipped_host functions settings script) later }
{
    worlds_are_as_promised();
    tables_tell_of_a_round();
    a_round_of_a_table_has_one_order();
    phases_at_once_are_lists_of_events();
}
