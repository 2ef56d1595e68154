//! Why the contents of a table with epochs mirror. These functions do nothing: their contracts are the laws.
ghost use Rattle.std.specs.Prelude.{ℕ, ◌<◌, ◌≤◌, List};
ghost use Rattle.atomic_table.specs.Table.{State};
ghost use Rattle.record_hash.specs.Functions.{DigestFunctions};
ghost use Rattle.merkle_records.specs.Merkle.{GivesDigests};
ghost use Rattle.script_text.specs.declared.task.Task.{Task};
ghost use Rattle.host_core.specs.World.{World};
ghost use Rattle.host_shard.specs.declared.content.Content as code;
ghost use Rattle.host_shard.specs.Content.{Content};
ghost use Rattle.host_epochs.specs.declared.told.Entry.{Entry};
ghost use Rattle.host_epochs.specs.declared.views.Desk.{Desk};
ghost use Rattle.host_epochs.specs.declared.views.View.{View};
ghost use Rattle.host_epochs.specs.Rule.{IsKept};
ghost use Rattle.host_epochs.specs.Terms.{Terms, place_count, first_at, IsMaking};
ghost use Rattle.host_epochs.specs.Told.{Leads};
ghost use Rattle.host_table.specs.Terms.{phase_of};
ghost use Rattle.shipped_host.specs.declared.settings.Settings.{Settings};
ghost use Rattle.shipped_host.specs.ShippedHost.{shipped_host};
ghost use Rattle.host_world.specs.Behind.{IsBehindSetup};
ghost use Rattle.table_order.specs.Rounds.{AreTermsOf};
ghost use Rattle.table_order.specs.Mirroring.{MirrorsAtMaking, IsAtHome, IsInHand, IsDesk};
ghost use Rattle.table_order.specs.RoundMirroring.{AreAsksInRange, HasAsksInRange, MirrorsIn, AreEvictsIn};

use host_world::worlds_are_as_promised;

/// A table with epochs that is made of what a world has at its places is made of contents that mirror. It is asked that digests have
/// 32 bytes.
pub fn a_making_of_a_round_mirrors()
    ensures mirrors { (functions : DigestFunctions) (settings : Settings) (script : List (List Task)) (world : World Content)
        (terms : Terms)
        → GivesDigests functions.digest
        → IsBehindSetup functions settings script world
        → AreTermsOf (shipped_host functions settings script) settings.absent world terms
        → IsMaking terms.header terms.workers terms.contents
        → MirrorsAtMaking (phase_of terms) }
{
    worlds_are_as_promised();
}

/// Between any two steps of a table with epochs that is made of contents that mirror, each content mirrors with the same keys hot,
/// whatever was served or scanned there, and waits with an element that a verifier of the bundle stamped in an epoch that may be
/// entered, within the counters' end: what is at home, what a worker's view has in hand, and so what a try takes, whose history
/// leads to it. What a worker's view lists evicted elements of its own, with rising stamps. It is asked that the keys of requests
/// have no more bits, and their values no more bytes, than the header says.
pub fn contents_of_a_round_mirror()
    ensures home { (terms : Terms) (s : State code.Content View) (kept : IsKept terms s) (place : ℕ) (content : code.Content)
        → MirrorsAtMaking (phase_of terms) → HasAsksInRange terms kept.scene → place < place_count terms → IsAtHome s place content
        → MirrorsIn terms place content }
    ensures in_hand { (terms : Terms) (s : State code.Content View) (kept : IsKept terms s) (place : ℕ) (content : code.Content)
        → MirrorsAtMaking (phase_of terms) → HasAsksInRange terms kept.scene → IsInHand s place content → MirrorsIn terms place content }
    ensures led { (terms : Terms) (place : ℕ) (past : List Entry) (content : code.Content)
        → MirrorsAtMaking (phase_of terms) → place < place_count terms → AreAsksInRange terms past
        → Leads terms place (first_at terms place) past content → MirrorsIn terms place content }
    ensures rising { (terms : Terms) (s : State code.Content View) (desk : Desk)
        → terms.workers ≤ terms.header.verifiers → IsKept terms s → IsDesk s desk → AreEvictsIn terms desk.number desk.row.list }
{}
