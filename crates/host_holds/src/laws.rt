//! What follows from the definitions of held values. These functions do nothing: their contracts are the laws.
ghost use Rattle.std.specs.Prelude.{◌≡◌, ℕ, ◌^◌, ◌<◌, Bool, List, ◌∷◌, get_or, set, Option, IfSome};
ghost use Rattle.std.specs.List.{IsAmong};
ghost use Rattle.tree_keys.specs.Path.{key_bits};
ghost use Rattle.lamport_clocks.specs.Reading.{Reading};
ghost use Rattle.log_codec.specs.declared.command.Command.{Command};
ghost use Rattle.record_text.specs.declared.request.Request.{Request};
ghost use Rattle.merkle_records.specs.Merkle.{Digest, GivesDigests};
ghost use Rattle.host_shard.specs.declared.link.Link.{Link};
ghost use Rattle.host_shard.specs.declared.content.HotRecord.{HotRecord};
ghost use Rattle.host_shard.specs.Chain.{IsChain};
ghost use Rattle.host_shard.specs.Shard.{key_path_in, wide_in, tree_of};
ghost use Rattle.host_shard.specs.Content.{cold, hot, vacant};
ghost use Rattle.host_plan.specs.Request.{is_missed, served, served_hot};
ghost use Rattle.protection_moves.specs.Stage.{Stage, hot_paths};
ghost use Rattle.protection_moves.specs.Move.{IsMove};
ghost use Rattle.move_laws.specs.Stages.{StageMirrors};
ghost use Rattle.host_holds.specs.Holding.{held_value, stored_after};

/// A put that is served sets the data value of its key, and all others stay as they were; a get leaves all. It is so at a shard that
/// mirrors, along the chain to a key that isn't hot, and at the hot place of its key.
pub fn a_request_leaves_what_it_writes()
    ensures shard { (longest : ℕ) (digest : Digest) (worker : ℕ) (stage : Stage) → StageMirrors longest digest stage
        → (absent : Bool) (request : Request) (clock : Reading) (links : List Link) → request.key < 2 ^ key_bits (wide_in stage.shard)
        → (IsAmong (hot_paths stage.places) (key_path_in stage.shard request.key) → ⊥)
        → IsChain (tree_of stage.shard) (key_path_in stage.shard request.key) stage.shard.frontier stage.shard.value links
        → (key : ℕ) → key < 2 ^ key_bits (wide_in stage.shard)
        → held_value (cold (served digest worker stage.shard links request clock (is_missed absent stage.shard links request)) ∷ stage.places) key
        ≡ stored_after request (held_value (cold stage.shard ∷ stage.places)) key }
    ensures hot_place { (longest : ℕ) (digest : Digest) (worker : ℕ) (stage : Stage) → StageMirrors longest digest stage
        → (request : Request) (clock : Reading) (place : ℕ) (found : HotRecord) → get_or stage.places place vacant ≡ hot found → found.key ≡ request.key
        → (key : ℕ) → held_value (cold stage.shard ∷ set stage.places place (hot (served_hot worker found request clock))) key
        ≡ stored_after request (held_value (cold stage.shard ∷ stage.places)) key }
{}

/// A move keeps the data value of each key: a record that comes back comes into the shard with its value, and one that becomes hot
/// leaves with its.
pub fn a_move_leaves_what_is_held()
    ensures held { (longest : ℕ) (digest : Digest) (worker : ℕ) (threshold : Option ℕ) (old new : Stage) (commands : List Command) (key : ℕ)
        → key < 2 ^ key_bits (wide_in old.shard)
        → GivesDigests digest → IfSome threshold (λ least. 0 < least) → StageMirrors longest digest old
        → IsMove digest worker threshold old commands new
        → held_value (cold new.shard ∷ new.places) key ≡ held_value (cold old.shard ∷ old.places) key }
{}
