//! What an add, an evict and a deferral do to a node: which pointer it has then on their side.
ghost use Rattle.std.specs.Prelude.{◌≡◌, ◌≢◌, Bool};
ghost use Rattle.std.specs.Option.{option_map};
ghost use Rattle.tree_keys.specs.Path.{side};
ghost use Rattle.record_text.specs.Value.{node_side, with_side};
ghost use Rattle.record_text.specs.Texts.{value_text};
ghost use Rattle.merkle_records.specs.Merkle.{case_of, leads_over, IsAdded, taken_over, after_add, pointer_to, deferred_pointer};
ghost use Rattle.merkle_records.specs.declared.cases.AddCase.TheVariants.{Foreign};

use crate::cases::AddCase;
use record_hash::Digests;
use record_text::{Node, Pointer, Value, initial, value_text};
use tree_keys::Path;

/// The pointer of a side.
pub fn side_of(node: &Node, side: bool) -> &Option<Pointer>
    ensures value { result.now ≡ node_side node.now side }
{
    if side { &node.side1 } else { &node.side0 }
}

/// Where the pointer of a side leads, seen from a path below the node on that side.
pub fn add_case(pointer: &Option<Pointer>, k: &Path) -> AddCase
    ensures case { result ≡ case_of pointer.now k.now }
{
    match pointer {
        None => AddCase::Empty,
        Some(pointer) => {
            if pointer.path.is_same(k) {
                return AddCase::Same;
            }
            if pointer.path.is_below(k) {
                return AddCase::Split;
            }
            AddCase::Foreign
        }
    }
}

/// Whether a pointer is to the path or to one above it.
pub fn leads_over(pointer: &Option<Pointer>, path: &Path) -> bool
    ensures value { result ≡ leads_over pointer.now path.now }
{
    match pointer {
        Some(pointer) => path.starts_with(&pointer.path),
        None => false,
    }
}

/// The digest of a value: that of its text.
pub fn digest_of<D: Digests>(d: &D, value: &Value) -> [u8; 32]
    ensures value { result ≡ (D.functions d.now).digest (value_text value.now) }
{
    d.text_digest(value_text(value).as_slice())
}

/// A pointer to a path with the digest of its value: that of its side, once the path was evicted with this value.
pub fn pointer_to<D: Digests>(d: &D, path: &Path, value: &Value) -> Pointer
    ensures value { result ≡ pointer_to (D.functions d.now).digest path.now value.now }
{
    Pointer {
        path: *path,
        digest: digest_of(d, value),
        deferred: false,
    }
}

/// The pointer of a side once a path was added there, and the value with which the path stands in the cache.
#[tactic(auto, using(crate::proofs::AddLemmas::added_view))]
pub fn after_add<D: Digests>(
    d: &D,
    pointer: &Option<Pointer>,
    k: &Path,
    v: &Value,
) -> (Option<Pointer>, Value)
    requires case { case_of pointer.now k.now ≢ Foreign }
    ensures added { (node : Node) (on : Bool) → node_side node on ≡ pointer.now
        → IsAdded (with_side node on result.0, result.1) (after_add (D.functions d.now).digest node on k.now v.now) }
{
    match pointer {
        None => (Some(pointer_to(d, k, v)), v.copy()),
        Some(old) => {
            if old.path.is_same(k) {
                return (Some(*old), v.copy());
            }
            let new = Some(pointer_to(d, k, &initial(k)));
            (new, Value::Node(taken_over(k, old)))
        }
    }
}

// A node with nothing below it but what a pointer leads to.
fn taken_over(k: &Path, pointer: &Pointer) -> Node
    ensures node { result ≡ taken_over (side k.now pointer.now.path) pointer.now }
{
    match k.side(&pointer.path) {
        Some(on) => Node::empty().with_side(on, Some(*pointer)),
        None => Node::empty(),
    }
}

/// The pointer once the record that it leads to is to be checked later: its flag is set.
pub fn defer(pointer: &Option<Pointer>) -> Option<Pointer>
    ensures pointer { result ≡ option_map deferred_pointer pointer.now }
{
    match pointer {
        None => None,
        Some(pointer) => Some(Pointer {
            deferred: true,
            ..*pointer
        }),
    }
}
