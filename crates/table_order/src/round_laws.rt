//! Why what a table with epochs tells of a round was one list of events, and why what a level world lends can be made such a table.
//! These functions do nothing: their contracts are the laws.
ghost use Rattle.std.specs.Prelude.{◌≡◌, ◌+◌, ℕ, ◌<◌, ◌≤◌, true, List, length, map, get_or, is_some};
ghost use Rattle.record_hash.specs.Functions.{DigestFunctions};
ghost use Rattle.merkle_records.specs.Merkle.{GivesDigests};
ghost use Rattle.script_text.specs.declared.task.Task.{Task};
ghost use Rattle.host_core.specs.World.{World};
ghost use Rattle.host_core.specs.WorldEvent.{run_events};
ghost use Rattle.round_order.specs.Turn.{content_at, in_one_order};
ghost use Rattle.round_order.specs.Told.{IsLevel, AreTold, joined, round_events, HasOneOrder, EndsWhole, EndsStopped, stops_by};
ghost use Rattle.host_shard.specs.declared.content.Content as code;
ghost use Rattle.host_shard.specs.declared.content.Content.TheVariants.{Vacant};
ghost use Rattle.host_shard.specs.Content.{Content};
ghost use Rattle.host_shard.specs.Shown.{shown_content};
ghost use Rattle.host_epochs.specs.declared.views.Row.{Row};
ghost use Rattle.host_epochs.specs.Round.{IsRound, row_at};
ghost use Rattle.host_epochs.specs.Terms.{Terms, place_count, first_epoch, epoch_in, IsMaking};
ghost use Rattle.shipped_host.specs.declared.settings.Settings.{Settings};
ghost use Rattle.shipped_host.specs.ShippedHost.{shipped_host};
ghost use Rattle.host_world.specs.Behind.{IsBehindSetup};
ghost use Rattle.host_world.specs.Lending.{all_contents};
ghost use Rattle.host_world.specs.Places.{place_of};
ghost use Rattle.table_order.specs.Rounds.{lists_of, pasts_of, finals_of, stops_of, events_in, IsTableOfRound, AreThrough, IsTableOfPhase, EndsInPhase};

use crate::laws::a_phase_of_a_table_has_one_order;
use host_fits::{plans_are_what_the_host_does, the_shipped_host_is_steady};
use host_world::worlds_are_as_promised;
use round_fits::{nothing_is_hot, the_rolling_host_is_steady};

/// What a table with epochs tells of a round is what `round_order` asks of it: lists of workers and pasts of places, each
/// chained, of the same turns, each of which is what the shipped host does. Its newest epoch is the table's, and the last epoch of each
/// worker is the one that its row says. Those that stopped are the workers whose rows say so.
pub fn tables_tell_of_a_round()
    ensures told { (functions : DigestFunctions) (settings : Settings) (script : List (List Task)) (world : World Content)
        (terms : Terms) (after : List code.Content) (rows : List Row)
        → IsTableOfRound functions settings script world terms rows → (round : IsRound terms after rows)
        → AreTold (shipped_host functions settings script) settings.rolling world (first_epoch terms + round.newest)
        (finals_of terms rows) (lists_of rows) (pasts_of (length world.shards) round.past) }
    ensures flags { (rows : List Row) (worker : ℕ) → worker < length rows
        → stops_by worker (stops_of rows) ≡ is_some (row_at rows worker).stop }
{
    worlds_are_as_promised();
    plans_are_what_the_host_does();
    nothing_is_hot();
}

/// What a table with epochs tells of a round was one list of events: the turns by the stamps of their evicts, and between them the
/// epochs that the workers went on by. They were enabled, and the world that they lead to stands behind the setup and has the
/// contents that the table gives. Where all workers of a rolling host are through with the last epoch and served all that is asked,
/// the round is over behind them; and where some stopped, the stops may stand there, also where none had gone on to the newest epoch.
pub fn a_round_of_a_table_has_one_order()
    ensures order { (functions : DigestFunctions) (settings : Settings) (script : List (List Task)) (world : World Content)
        (terms : Terms) (after : List code.Content) (rows : List Row)
        → IsTableOfRound functions settings script world terms rows → (round : IsRound terms after rows)
        → HasOneOrder (shipped_host functions settings script) world (first_epoch terms) (first_epoch terms + round.newest)
        (finals_of terms rows) (lists_of rows) (pasts_of (length world.shards) round.past) }
    ensures behind { (functions : DigestFunctions) (settings : Settings) (script : List (List Task)) (world : World Content)
        (terms : Terms) (after : List code.Content) (rows : List Row)
        → IsTableOfRound functions settings script world terms rows → (round : IsRound terms after rows)
        → let host = shipped_host functions settings script in
        let events = round_events (finals_of terms rows) (length world.workers) (first_epoch terms + round.newest) (first_epoch terms)
        (in_one_order (joined (lists_of rows))) in
        IsBehindSetup functions settings script (run_events host world events) }
    ensures contents { (functions : DigestFunctions) (settings : Settings) (script : List (List Task)) (world : World Content)
        (terms : Terms) (after : List code.Content) (rows : List Row)
        → IsTableOfRound functions settings script world terms rows → (round : IsRound terms after rows)
        → (place : ℕ) → place < place_count terms
        → let host = shipped_host functions settings script in
        let events = round_events (finals_of terms rows) (length world.workers) (first_epoch terms + round.newest) (first_epoch terms)
        (in_one_order (joined (lists_of rows))) in
        content_at host (run_events host world events) (place_of place) ≡ shown_content (get_or after place Vacant) }
    ensures whole { (functions : DigestFunctions) (settings : Settings) (script : List (List Task)) (world : World Content)
        (terms : Terms) (after : List code.Content) (rows : List Row)
        → IsTableOfRound functions settings script world terms rows → (round : IsRound terms after rows)
        → settings.rolling ≡ true → AreThrough (shipped_host functions settings script) world terms rows
        → EndsWhole (shipped_host functions settings script) world (first_epoch terms) (first_epoch terms + round.newest)
        (finals_of terms rows) (lists_of rows) (pasts_of (length world.shards) round.past) }
    ensures order_to { (functions : DigestFunctions) (settings : Settings) (script : List (List Task)) (world : World Content)
        (terms : Terms) (after : List code.Content) (rows : List Row)
        → IsTableOfRound functions settings script world terms rows → (round : IsRound terms after rows)
        → settings.rolling ≡ true → (newest : ℕ) → newest ≤ round.newest
        → ((worker : ℕ) → worker < terms.workers → (row_at rows worker).entered ≤ newest)
        → HasOneOrder (shipped_host functions settings script) world (first_epoch terms) (first_epoch terms + newest)
        (finals_of terms rows) (lists_of rows) (pasts_of (length world.shards) round.past) }
    ensures stopped { (functions : DigestFunctions) (settings : Settings) (script : List (List Task)) (world : World Content)
        (terms : Terms) (after : List code.Content) (rows : List Row)
        → IsTableOfRound functions settings script world terms rows → (round : IsRound terms after rows)
        → settings.rolling ≡ true → (newest : ℕ) → newest ≤ round.newest
        → ((worker : ℕ) → worker < terms.workers → (row_at rows worker).entered ≤ newest)
        → EndsStopped (shipped_host functions settings script) world (first_epoch terms) (first_epoch terms + newest)
        (finals_of terms rows) (lists_of rows) (pasts_of (length world.shards) round.past) (stops_of rows) }
{
    worlds_are_as_promised();
    plans_are_what_the_host_does();
    nothing_is_hot();
    the_shipped_host_is_steady();
    the_rolling_host_is_steady();
}

/// A round with no further epoch is a phase of a host that is not rolling: what its table tells was one list of events, the served
/// requests by the stamps of their evicts and then the stops, each at its worker's next request. The world behind it stands behind the
/// setup and has the contents that the table gives.
pub fn a_round_of_one_epoch_is_a_phase()
    ensures ends { (functions : DigestFunctions) (settings : Settings) (script : List (List Task)) (world : World Content)
        (terms : Terms) (after : List code.Content) (rows : List Row)
        → IsTableOfPhase functions settings script world terms rows → (round : IsRound terms after rows)
        → EndsInPhase (shipped_host functions settings script) world (first_epoch terms + round.newest) (finals_of terms rows) rows
        (pasts_of (length world.shards) round.past) }
    ensures behind { (functions : DigestFunctions) (settings : Settings) (script : List (List Task)) (world : World Content)
        (terms : Terms) (after : List code.Content) (rows : List Row)
        → IsTableOfPhase functions settings script world terms rows → IsRound terms after rows
        → IsBehindSetup functions settings script (run_events (shipped_host functions settings script) world (events_in rows)) }
    ensures contents { (functions : DigestFunctions) (settings : Settings) (script : List (List Task)) (world : World Content)
        (terms : Terms) (after : List code.Content) (rows : List Row)
        → IsTableOfPhase functions settings script world terms rows → IsRound terms after rows
        → (place : ℕ) → place < place_count terms
        → let host = shipped_host functions settings script in
        content_at host (run_events host world (events_in rows)) (place_of place) ≡ shown_content (get_or after place Vacant) }
{
    worlds_are_as_promised();
    plans_are_what_the_host_does();
    nothing_is_hot();
    a_phase_of_a_table_has_one_order();
}

/// What a level world lends can be made a table of its epoch: there are places and workers, and each content waits, if it waits, with
/// an element of that epoch, by a verifier of the bundle, whose counter does not pass its end. It is asked that digests have 32 bytes.
pub fn worlds_make_rounds()
    ensures making { (functions : DigestFunctions) (settings : Settings) (script : List (List Task)) (world : World Content)
        (epoch : ℕ) (contents : List code.Content)
        → GivesDigests functions.digest
        → IsBehindSetup functions settings script world
        → IsLevel (shipped_host functions settings script) world epoch
        → map shown_content contents ≡ all_contents world.shards
        → IsMaking settings.header (length world.workers) contents × (epoch_in contents ≡ epoch) }
{
    worlds_are_as_promised();
}
