//! What follows from the definitions of a move and of the transition. These functions do nothing: their contracts are the
//! laws.
ghost use Rattle.std.specs.Prelude.{◌≡◌, ℕ, ◌<◌, List, Option, IfSome};
ghost use Rattle.std.specs.List.{AllByRecursion};
ghost use Rattle.tree_keys.specs.Path.{tree_of};
ghost use Rattle.log_codec.specs.declared.command.Command.{Command};
ghost use Rattle.merkle_records.specs.Merkle.{Digest, GivesDigests};
ghost use Rattle.verifier_cache.specs.Cache.{Held};
ghost use Rattle.verifier_commands.specs.Transition.{Rules};
ghost use Rattle.soundness.specs.Typed.{IsPathTypedIn};
ghost use Rattle.protection_moves.specs.Stage.{Stage};
ghost use Rattle.protection_moves.specs.Transfer.{clock_needed};
ghost use Rattle.protection_moves.specs.Move.{IsMove};
ghost use Rattle.move_laws.specs.Deed.{IsClearMove, IsMoveDeed};
ghost use Rattle.move_laws.specs.Stages.{StageMirrors};
ghost use Rattle.move_laws.specs.Moved.{CanMove, MoveRuns};

/// A verifier at rest accepts the commands of a move: it takes in what waited, hands out what then waits, and rests again.
/// It is asked that digests have 32 bytes, and that a threshold, if one is given, is at least one touch.
pub fn a_move_runs()
    ensures runs { (rules : Rules) (cache : Held) (threshold : Option ℕ) (old new : Stage) (commands : List Command)
        → GivesDigests rules.scheme.digest → IfSome threshold (λ least. 0 < least) → CanMove rules cache threshold old → StageMirrors rules.scheme.format.longest rules.scheme.digest old
        → IsMove rules.scheme.digest rules.number threshold old commands new
        → MoveRuns rules cache old new commands }
{}

/// A stage mirrors again behind a move. The same is asked.
pub fn a_move_mirrors()
    ensures mirrors { (longest : ℕ) (digest : Digest) (worker : ℕ) (threshold : Option ℕ) (old new : Stage) (commands : List Command)
        → GivesDigests digest → IfSome threshold (λ least. 0 < least) → StageMirrors longest digest old
        → IsMove digest worker threshold old commands new → StageMirrors longest digest new }
{}

/// The paths that a move's commands name are of the frontier's tree, and the values that they bring in are of their paths' kinds.
pub fn a_move_is_typed()
    ensures typed { (longest : ℕ) (digest : Digest) (worker : ℕ) (threshold : Option ℕ) (old new : Stage) (commands : List Command)
        → GivesDigests digest → IfSome threshold (λ least. 0 < least) → StageMirrors longest digest old
        → IsMove digest worker threshold old commands new → AllByRecursion (IsPathTypedIn (tree_of old.shard.frontier) longest) commands }
{}

/// The clock behind a move is the one that is counted from stamps.
pub fn a_move_takes_what_is_counted()
    ensures clock { (digest : Digest) (worker : ℕ) (threshold : Option ℕ) (old new : Stage) (commands : List Command)
        → (is : IsMove digest worker threshold old commands new) → new.clock ≡ clock_needed old is.promotable }
{}

/// A move that runs is a deed of a machine that knows the events of its commands, and a clear one: there is nothing to
/// show of it against the verifiers.
pub fn a_move_is_a_deed()
    ensures deed { (rules : Rules) (cache : Held) (old new : Stage) (commands : List Command)
        → MoveRuns rules cache old new commands → IsMoveDeed rules cache old new commands }
    ensures clear { (rules : Rules) (cache : Held) (old new : Stage) (commands : List Command)
        → MoveRuns rules cache old new commands → IsClearMove rules cache old new commands }
{}
