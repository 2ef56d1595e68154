//! Why a phase that all workers served at once was one list of events. These functions do nothing: their contracts are the laws.
ghost use Rattle.std.specs.Prelude.{◌≡◌, false, List, [], length, get_or};
ghost use Rattle.log_codec.specs.declared.command.Command.{Command};
ghost use Rattle.merkle_records.specs.Merkle.{GivesDigests};
ghost use Rattle.record_hash.specs.Functions.{DigestFunctions};
ghost use Rattle.script_text.specs.declared.task.Task.{Task};
ghost use Rattle.host_core.specs.World.{World};
ghost use Rattle.host_shard.specs.declared.content.Content as code;
ghost use Rattle.host_shard.specs.Content.{Content};
ghost use Rattle.host_table.specs.declared.views.Row.{Row};
ghost use Rattle.host_table.specs.Terms.{Terms};
ghost use Rattle.shipped_host.specs.declared.settings.Settings.{Settings};
ghost use Rattle.host_world.specs.Behind.{IsBehindSetup, with_logs};
ghost use Rattle.shipped_host.specs.ShippedHost.{shipped_host};
ghost use Rattle.host_serving.specs.Leading.{LeadsAs};
ghost use Rattle.host_serving.specs.Form.{AreOfPhase};
ghost use Rattle.host_serving.specs.Standing.{IsServedOut};
ghost use Rattle.worker_threads.specs.Phase.{IsServedAtOnce, first_stopped};

use host_fits::the_shipped_host_is_steady;
use host_world::worlds_are_as_promised;
use table_order::{a_phase_of_a_table_has_one_order, tables_tell_of_a_phase};

/// What workers at a table did of a phase was one list of events: these lead from the world that the table was made of to the one
/// with the contents that it gave and the workers as they are then, and the first end is that of the first worker that is
/// stopped. They are those of a phase, in their one order. No worker has more to do in the phase.
pub(crate) fn phases_at_once_are_lists_of_events()
    ensures leads { (functions : DigestFunctions) (settings : Settings) (script : List (List Task)) (logs : List (List Command))
        (world later : World Content) (terms : Terms) (after : List code.Content) (rows : List Row)
        → GivesDigests functions.digest → length logs ≡ length world.workers
        → IsBehindSetup functions settings script (with_logs logs world) → settings.rolling ≡ false
        → IsServedAtOnce (shipped_host functions settings script) settings.absent (get_or script world.phase []) world later terms after rows
        → LeadsAs AreOfPhase (shipped_host functions settings script) world later (first_stopped 0 later.workers) }
    ensures served { (functions : DigestFunctions) (settings : Settings) (script : List (List Task))
        (world later : World Content) (terms : Terms) (after : List code.Content) (rows : List Row) → settings.rolling ≡ false
        → IsServedAtOnce (shipped_host functions settings script) settings.absent (get_or script world.phase []) world later terms after rows
        → IsServedOut (shipped_host functions settings script) later }
{
    worlds_are_as_promised();
    tables_tell_of_a_phase();
    a_phase_of_a_table_has_one_order();
    the_shipped_host_is_steady();
}
