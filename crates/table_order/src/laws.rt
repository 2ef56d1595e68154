//! Why what a table tells of a phase was one list of events, why what a world lends can be made a table, and why the contents
//! of such a table mirror. These functions do nothing: their contracts are the laws.
ghost use Rattle.std.specs.Prelude.{◌≡◌, ℕ, ◌<◌, ◌≤◌, List, length, map, get_or};
ghost use Rattle.std.specs.List.{AllByRecursion};
ghost use Rattle.atomic_table.specs.Table.{State};
ghost use Rattle.record_hash.specs.Functions.{DigestFunctions};
ghost use Rattle.merkle_records.specs.Merkle.{GivesDigests};
ghost use Rattle.script_text.specs.declared.task.Task.{Task};
ghost use Rattle.host_core.specs.World.{World};
ghost use Rattle.host_core.specs.WorldEvent.{run_events};
ghost use Rattle.host_order.specs.Serving.{content_at};
ghost use Rattle.host_order.specs.Told.{IsAtRest, IsServed, AreTold, IsNoted, AreOfOthers, phase_events, HasOneOrder};
ghost use Rattle.host_shard.specs.declared.content.Content as code;
ghost use Rattle.host_shard.specs.declared.content.Content.TheVariants.{Vacant};
ghost use Rattle.host_shard.specs.Content.{Content};
ghost use Rattle.host_shard.specs.Shown.{shown_content};
ghost use Rattle.host_epochs.specs.declared.views.Desk.{Desk};
ghost use Rattle.host_epochs.specs.declared.views.View.{View};
ghost use Rattle.host_epochs.specs.Rule.{IsKept};
ghost use Rattle.host_table.specs.declared.told.Service.{Service};
ghost use Rattle.host_table.specs.declared.views.Row.{Row};
ghost use Rattle.host_table.specs.Phase.{IsPhase, row_at};
ghost use Rattle.host_table.specs.Services.{services_of};
ghost use Rattle.host_table.specs.Terms.{Terms, place_count, first_at, round_of, IsMaking};
ghost use Rattle.host_table.specs.Told.{Leads};
ghost use Rattle.shipped_host.specs.declared.settings.Settings.{Settings};
ghost use Rattle.host_world.specs.Behind.{IsBehindSetup};
ghost use Rattle.host_world.specs.Lending.{all_contents};
ghost use Rattle.host_world.specs.Places.{place_of};
ghost use Rattle.shipped_host.specs.ShippedHost.{shipped_host};
ghost use Rattle.table_order.specs.Servings.{serving_of, lists_of, pasts_of, stops_of};
ghost use Rattle.table_order.specs.Phases.{AreTermsOf, IsTableOf};
ghost use Rattle.table_order.specs.Mirroring.{MirrorsAtMaking, AreInRange, HasRequestsInRange, IsAtHome, IsInHand, IsDesk, MirrorsAt, AreEvictsOf};

use host_fits::{plans_are_what_the_host_does, the_shipped_host_is_steady};
use host_world::worlds_are_as_promised;

/// Each service of a worker's list is what the shipped host does for its request, at a place that owns it, from its clock and
/// its content.
pub fn services_are_what_the_host_does()
    ensures served { (functions : DigestFunctions) (settings : Settings) (script : List (List Task)) (world : World Content)
        (terms : Terms) (after : List code.Content) (rows : List Row)
        → IsTableOf functions settings script world terms rows → IsPhase terms after rows
        → (worker : ℕ) → worker < length world.workers
        → AllByRecursion (λ service. IsServed (shipped_host functions settings script) world (serving_of service)) (row_at rows worker).list }
{
    worlds_are_as_promised();
    plans_are_what_the_host_does();
}

/// What a table tells of a phase is what `host_order` asks of it: lists of workers and pasts of places, each chained, of the
/// same servings, and stops that are noted, each of another worker.
pub fn tables_tell_of_a_phase()
    ensures told { (functions : DigestFunctions) (settings : Settings) (script : List (List Task)) (world : World Content)
        (terms : Terms) (after : List code.Content) (rows : List Row)
        → IsTableOf functions settings script world terms rows → (phase : IsPhase terms after rows)
        → AreTold (shipped_host functions settings script) world (lists_of rows) (pasts_of (length world.shards) phase.past) }
    ensures noted { (functions : DigestFunctions) (settings : Settings) (script : List (List Task)) (world : World Content)
        (terms : Terms) (after : List code.Content) (rows : List Row)
        → IsTableOf functions settings script world terms rows → (phase : IsPhase terms after rows)
        → AllByRecursion (IsNoted (shipped_host functions settings script) world (lists_of rows) (pasts_of (length world.shards) phase.past)) (stops_of rows) }
    ensures apart { (rows : List Row) → AreOfOthers (stops_of rows) }
{
    worlds_are_as_promised();
    plans_are_what_the_host_does();
}

/// What a table tells of a phase was one list of events: the served requests by the stamps of their evicts, and then the stops.
/// They were enabled, each worker logged its plans' commands, and the world that they lead to stands behind the setup and has
/// the contents that the table gives.
pub fn a_phase_of_a_table_has_one_order()
    ensures order { (functions : DigestFunctions) (settings : Settings) (script : List (List Task)) (world : World Content)
        (terms : Terms) (after : List code.Content) (rows : List Row)
        → IsTableOf functions settings script world terms rows → (phase : IsPhase terms after rows)
        → HasOneOrder (shipped_host functions settings script) world (lists_of rows) (pasts_of (length world.shards) phase.past) (stops_of rows) }
    ensures behind { (functions : DigestFunctions) (settings : Settings) (script : List (List Task)) (world : World Content)
        (terms : Terms) (after : List code.Content) (rows : List Row)
        → IsTableOf functions settings script world terms rows → IsPhase terms after rows
        → let host = shipped_host functions settings script in
        IsBehindSetup functions settings script (run_events host world (phase_events (lists_of rows) (stops_of rows))) }
    ensures contents { (functions : DigestFunctions) (settings : Settings) (script : List (List Task)) (world : World Content)
        (terms : Terms) (after : List code.Content) (rows : List Row)
        → IsTableOf functions settings script world terms rows → IsPhase terms after rows
        → (place : ℕ) → place < place_count terms
        → let host = shipped_host functions settings script in
        content_at host (run_events host world (phase_events (lists_of rows) (stops_of rows))) (place_of place) ≡ shown_content (get_or after place Vacant) }
{
    worlds_are_as_promised();
    plans_are_what_the_host_does();
    the_shipped_host_is_steady();
}

/// What a world at rest lends can be made a table: there are places and workers, and each content waits, if it waits, with an
/// element of the phase's epoch, by a verifier of the bundle, whose counter does not pass its end. It is asked that digests have
/// 32 bytes.
pub fn worlds_make_tables()
    ensures making { (functions : DigestFunctions) (settings : Settings) (script : List (List Task)) (world : World Content)
        (contents : List code.Content)
        → GivesDigests functions.digest
        → IsBehindSetup functions settings script world
        → IsAtRest (shipped_host functions settings script) world
        → map shown_content contents ≡ all_contents world.shards
        → IsMaking settings.header (length world.workers) contents }
{
    worlds_are_as_promised();
}

/// A table that is made of what a world has at its places is made of contents that mirror. It is asked that digests have 32
/// bytes.
pub fn a_making_of_a_world_mirrors()
    ensures mirrors { (functions : DigestFunctions) (settings : Settings) (script : List (List Task)) (world : World Content)
        (terms : Terms)
        → GivesDigests functions.digest
        → IsBehindSetup functions settings script world
        → AreTermsOf (shipped_host functions settings script) settings.absent world terms
        → IsMaking terms.header terms.workers terms.contents
        → MirrorsAtMaking terms }
{
    worlds_are_as_promised();
}

/// Between any two steps of a table that is made of contents that mirror, each content mirrors with the same keys hot, and
/// waits with an element that a verifier of the bundle stamped in the phase's epoch, within the counters' end: what is at home,
/// what a worker's view has in hand, and so what a try takes, whose history leads to it. What a worker's view lists evicted
/// elements of its own, with rising stamps. It is asked that the keys of requests have
/// no more bits, and their values no more bytes, than the header says.
pub fn contents_of_a_table_mirror()
    ensures home { (terms : Terms) (s : State code.Content View) (kept : IsKept (round_of terms) s) (place : ℕ) (content : code.Content)
        → MirrorsAtMaking terms → HasRequestsInRange terms kept.scene → place < place_count terms → IsAtHome s place content
        → MirrorsAt terms place content }
    ensures in_hand { (terms : Terms) (s : State code.Content View) (kept : IsKept (round_of terms) s) (place : ℕ) (content : code.Content)
        → MirrorsAtMaking terms → HasRequestsInRange terms kept.scene → IsInHand s place content → MirrorsAt terms place content }
    ensures led { (terms : Terms) (place : ℕ) (past : List Service) (content : code.Content)
        → MirrorsAtMaking terms → place < place_count terms → AreInRange terms past
        → Leads terms place (first_at terms place) past content → MirrorsAt terms place content }
    ensures rising { (terms : Terms) (s : State code.Content View) (desk : Desk)
        → terms.workers ≤ terms.header.verifiers → IsKept (round_of terms) s → IsDesk s desk → AreEvictsOf terms desk.number (services_of desk.row.list) }
{}
