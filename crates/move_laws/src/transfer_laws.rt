//! What follows from the definitions of a transfer and of the transition. These functions do nothing: their contracts are
//! the laws.
ghost use Rattle.std.specs.Prelude.{ℕ, ◌<◌, List};
ghost use Rattle.std.specs.List.{AllByRecursion};
ghost use Rattle.tree_keys.specs.Path.{key_bits};
ghost use Rattle.merkle_records.specs.Merkle.{Digest, GivesDigests};
ghost use Rattle.verifier_cache.specs.declared.entry.Entry.{Entry};
ghost use Rattle.verifier_commands.specs.Transition.{Rules};
ghost use Rattle.soundness.specs.Typed.{IsPathTypedIn};
ghost use Rattle.host_shard.specs.declared.link.Link.{Link};
ghost use Rattle.host_shard.specs.Shard.{wide_in};
ghost use Rattle.host_laws.specs.Served.{IsBare};
ghost use Rattle.protection_moves.specs.Stage.{Stage};
ghost use Rattle.protection_moves.specs.Transfer.{Transfer};
ghost use Rattle.protection_moves.specs.Descent.{AreLinks, commands_by, done_by};
ghost use Rattle.move_laws.specs.Stages.{StageMirrors};
ghost use Rattle.move_laws.specs.Transfers.{CanDo, TransferRuns, IsFit};

/// A verifier in whose cache the frontier stands, and but for the root nothing else, accepts the commands of a transfer along
/// the links to its key. Nothing is asked of the digests.
pub fn a_transfer_runs()
    ensures runs { (rules : Rules) (entries : List Entry) (room : ℕ) (stage : Stage) (transfer : Transfer) (links : List Link)
        → IsBare entries → key_bits (wide_in stage.shard) < room → StageMirrors rules.scheme.format.longest rules.scheme.digest stage
        → IsFit stage transfer → CanDo rules stage transfer → AreLinks stage.shard transfer links
        → TransferRuns rules entries room stage transfer links }
{}

/// A stage mirrors again behind a transfer. It is asked that digests have 32 bytes.
pub fn a_transfer_mirrors()
    ensures mirrors { (longest : ℕ) (digest : Digest) (worker : ℕ) (stage : Stage) (transfer : Transfer) (links : List Link)
        → GivesDigests digest → StageMirrors longest digest stage → IsFit stage transfer → AreLinks stage.shard transfer links
        → StageMirrors longest digest (done_by digest worker stage transfer links) }
{}

/// The paths that a transfer's commands name are of the shard's tree, and the values that they bring in are of their paths'
/// kinds.
pub fn a_transfer_is_typed()
    ensures typed { (longest : ℕ) (digest : Digest) (stage : Stage) (transfer : Transfer) (links : List Link)
        → StageMirrors longest digest stage → IsFit stage transfer → AreLinks stage.shard transfer links
        → AllByRecursion (IsPathTypedIn (wide_in stage.shard) longest) (commands_by stage transfer links) }
{}
