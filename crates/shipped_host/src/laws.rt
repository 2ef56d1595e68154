//! What follows from the definitions of the shipped host. These functions do nothing: their contracts are the laws.
ghost use Rattle.std.specs.Prelude.{◌≡◌, ℕ, ◌<◌, Bool, List, Option, Some, IfSome};
ghost use Rattle.lamport_clocks.specs.Reading.{Reading};
ghost use Rattle.record_text.specs.declared.request.Request.{Request};
ghost use Rattle.merkle_records.specs.Merkle.{Digest, GivesDigests};
ghost use Rattle.host_core.specs.Host.{Done};
ghost use Rattle.host_plan.specs.Plan.{Owns};
ghost use Rattle.host_shard.specs.Content.{Content};
ghost use Rattle.host_shard.specs.declared.link.Link.{Link};
ghost use Rattle.host_shard.specs.Chain.{IsChain};
ghost use Rattle.host_shard.specs.Mirrors.{IsShard, IsKeyOf};
ghost use Rattle.host_shard.specs.Shard.{Shard, tree_of};
ghost use Rattle.protection_moves.specs.Stage.{Stage};
ghost use Rattle.protection_moves.specs.Transfer.{ArePromotable};
ghost use Rattle.move_laws.specs.Stages.{StageMirrors};
ghost use Rattle.shipped_host.specs.Links.{links_in};
ghost use Rattle.shipped_host.specs.Promotable.{promotable_in};
ghost use Rattle.shipped_host.specs.Moving.{move_promotable};
ghost use Rattle.shipped_host.specs.Planned.{IsPlanned, IsMoved};
ghost use Rattle.shipped_host.specs.ShippedHost.{serve_at};

/// The chain from a shard's frontier to a key of it is one list of links: there is one, and no other.
pub fn a_chain_is_its_links()
    ensures there { (longest : ℕ) (shard : Shard) (key : List Bool) → IsShard longest shard → IsKeyOf shard key
        → IsChain (tree_of shard) key shard.frontier shard.value (links_in shard key) }
    ensures only { (longest : ℕ) (shard : Shard) (key : List Bool) (links : List Link) → IsShard longest shard → IsKeyOf shard key
        → IsChain (tree_of shard) key shard.frontier shard.value links → links ≡ links_in shard key }
{}

/// What the shipped host serves is the plan of the request.
pub fn what_is_served_is_planned()
    ensures planned { (absent : Bool) (longest : ℕ) (digest : Digest) (worker : ℕ) (clock : Reading) (content : Content) (request : Request) (done : Done Content)
        → Owns longest content request.key → serve_at absent digest worker clock content request ≡ Some done
        → IsPlanned absent digest worker clock content request done }
{}

/// The keys that are promotable to become hot are one list: there is one, and no other.
pub fn promotable_keys_are_one_list()
    ensures there { (stage : Stage) (threshold : Option ℕ) → ArePromotable stage threshold (promotable_in stage threshold) }
    ensures only { (stage : Stage) (threshold : Option ℕ) (promotable : List ℕ) → ArePromotable stage threshold promotable
        → promotable ≡ promotable_in stage threshold }
{}

/// What the shipped host moves at a close is a move, for every threshold of at least one touch, where the stage mirrors. It
/// is asked that digests have 32 bytes.
pub fn what_is_moved_is_a_move()
    ensures moved { (longest : ℕ) (digest : Digest) (worker : ℕ) (threshold : Option ℕ) (stage : Stage) (done : Done (List Content))
        → GivesDigests digest → IfSome threshold (λ least. 0 < least) → StageMirrors longest digest stage
        → move_promotable digest worker stage (promotable_in stage threshold) ≡ Some done
        → IsMoved digest worker threshold stage done }
{}
