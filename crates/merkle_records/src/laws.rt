//! What follows from the definitions of a node's changes, and what they ask of digests. These functions do nothing:
//! their contracts are the laws.
ghost use Rattle.std.specs.Prelude.{◌≡◌, ℕ, Bool, List, Some, not};
ghost use Rattle.std.specs.Option.{option_map};
ghost use Rattle.tree_keys.specs.Path.{side};
ghost use Rattle.record_hash.specs.Digests.{IsDigest};
ghost use Rattle.record_text.specs.declared.value.Node.{Node};
ghost use Rattle.record_text.specs.declared.value.Value.{Value};
ghost use Rattle.record_text.specs.declared.value.Value.TheVariants as values;
ghost use Rattle.record_text.specs.Value.{IsOf, node_side};
ghost use Rattle.merkle_records.specs.Merkle.{Digest, GivesDigests, pointer_to, after_add, after_evict, deferred_pointer, after_defer};

use record_hash::Digests;

/// Any digests give digests of 32 bytes: the law of their trait, handed on.
pub fn digests_have_32_bytes<D: Digests>(d: &D)
    ensures digests { (text : List ℕ) → IsDigest ((D.functions d.now).digest text) }
    ensures sized { GivesDigests (D.functions d.now).digest }
{
    let _ = d;
}

/// Where a node and the value of a path below it are of their paths' kinds, they are so after an add, an
/// evict or a deferral.
pub fn records_stay_of_their_kinds()
    ensures added_node { (longest : ℕ) (digest : Digest) (at k : List Bool) (on : Bool)
        (node : Node) (value : Value)
        → GivesDigests digest → side at k ≡ Some on
        → IsOf longest at (values.Node node) → IsOf longest k value
        → IsOf longest at (values.Node (after_add digest node on k value).node) }
    ensures added_value { (longest : ℕ) (digest : Digest) (at k : List Bool) (on : Bool)
        (node : Node) (value : Value)
        → GivesDigests digest → side at k ≡ Some on
        → IsOf longest at (values.Node node) → IsOf longest k value
        → IsOf longest k (after_add digest node on k value).value }
    ensures evicted { (longest : ℕ) (digest : Digest) (at k : List Bool) (on : Bool)
        (node : Node) (value : Value)
        → GivesDigests digest → side at k ≡ Some on
        → IsOf longest at (values.Node node) → IsOf longest k value
        → IsOf longest at (values.Node (after_evict digest node on k value)) }
    ensures deferred { (longest : ℕ) (at : List Bool) (on : Bool) (node : Node)
        → IsOf longest at (values.Node node) → IsOf longest at (values.Node (after_defer node on)) }
{}

/// An evict and a deferral change the pointer of their side, and leave the other.
pub fn one_pointer_changes()
    ensures evicted { (digest : Digest) (node : Node) (on : Bool)
        (k : List Bool) (value : Value)
        → node_side (after_evict digest node on k value) on
        ≡ Some (pointer_to digest k value) }
    ensures deferred { (node : Node) (on : Bool)
        → node_side (after_defer node on) on ≡ option_map deferred_pointer (node_side node on) }
    ensures evicted_other { (digest : Digest) (node : Node) (on : Bool)
        (k : List Bool) (value : Value)
        → node_side (after_evict digest node on k value) (not on) ≡ node_side node (not on) }
    ensures deferred_other { (node : Node) (on : Bool)
        → node_side (after_defer node on) (not on) ≡ node_side node (not on) }
{}
