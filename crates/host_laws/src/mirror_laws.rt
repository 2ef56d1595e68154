//! What follows from the definitions of the host's commands and of mirroring. These functions do nothing: their
//! contracts are the laws.
ghost use Rattle.std.specs.Prelude.{◌≡◌, ℕ, Bool, ◌<◌, List, []};
ghost use Rattle.std.specs.List.{AllByRecursion};
ghost use Rattle.tree_keys.specs.Path.{key_bits};
ghost use Rattle.lamport_clocks.specs.Reading.{Reading};
ghost use Rattle.record_text.specs.declared.request.Request.{Request};
ghost use Rattle.record_text.specs.Value.{IsBlob};
ghost use Rattle.merkle_records.specs.Merkle.{Digest, GivesDigests};
ghost use Rattle.soundness.specs.Typed.{IsPathTypedIn};
ghost use Rattle.host_shard.specs.Content.{wide_at, Content};
ghost use Rattle.host_plan.specs.Plan.{Owns, CanServe, IsPlan};
ghost use Rattle.host_plan.specs.Setup.{setup_contents};
ghost use Rattle.host_plan.specs.declared.plans.Plan.{Plan};
ghost use Rattle.host_laws.specs.Mirroring.{ContentMirrors, IsCold};

/// A content mirrors again once it served a request, with the same keys hot. It is asked that digests have 32 bytes.
pub fn a_plan_mirrors()
    ensures mirrors { (absent : Bool) (longest : ℕ) (digest : Digest) (worker : ℕ) (hot_keys : List (List Bool)) (content after : Content) (request : Request)
        (clock later : Reading) (plan : Plan)
        → GivesDigests digest → IsBlob longest request.value → ContentMirrors longest digest hot_keys content → Owns longest content request.key → IsCold hot_keys content request.key
        → IsPlan absent digest worker content request clock plan after later → ContentMirrors longest digest hot_keys after }
    ensures serves { (longest : ℕ) (digest : Digest) (hot_keys : List (List Bool)) (content : Content) (key : ℕ)
        → ContentMirrors longest digest hot_keys content → Owns longest content key → IsCold hot_keys content key → CanServe longest digest content key }
{}

/// The paths that a plan's commands name are of the tree of its content, and the values that they bring in are of
/// their paths' kinds.
pub fn a_plan_is_typed()
    ensures typed { (absent : Bool) (longest : ℕ) (digest : Digest) (worker : ℕ) (hot_keys : List (List Bool)) (content after : Content) (request : Request)
        (clock later : Reading) (plan : Plan)
        → IsBlob longest request.value → ContentMirrors longest digest hot_keys content → Owns longest content request.key → IsCold hot_keys content request.key
        → IsPlan absent digest worker content request clock plan after later → AllByRecursion (IsPathTypedIn (wide_at content) longest) plan.commands }
{}

/// The shards of a setup mirror, with no hot keys.
pub fn new_shards_mirror()
    ensures mirror { (longest : ℕ) (digest : Digest) (wide : Bool) (first bits : ℕ) → 0 < bits → bits < key_bits wide
        → AllByRecursion (ContentMirrors longest digest []) (setup_contents wide first bits) }
{}
