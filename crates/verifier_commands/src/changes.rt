//! What the commands that go by digests do to a parent and a child: the tests, and what is then written where they stand.
ghost use Rattle.std.specs.Prelude.{◌≡◌, true, false, Some, None, Ok, Err, IfSome, IsNone, IfOk, IfErr, OnOk, ◌≢◌};
ghost use Rattle.tree_keys.specs.Path.{side};
ghost use Rattle.record_text.specs.declared.value.Value.TheVariants as values;
ghost use Rattle.record_text.specs.Value.{node_side};
ghost use Rattle.verifier_commands.specs.Changes.{above, add_by, add_under, evict_under, defer_under, absent_under, unset, leads_to, is_deferred, has_digest, leads_below, holds_wrong, family_by, is_by_digest, IsFirst};
ghost use Rattle.verifier_cache.specs.Entry.{linked};
ghost use Rattle.merkle_records.specs.declared.cases.AddCase.TheVariants.{Same};
ghost use Rattle.merkle_records.specs.Merkle.{case_of};

use crate::state::{is_same_bytes, is_same_value};
use merkle_records::{
    AddCase, add_case, after_add, defer, digest_of, leads_over, pointer_to, side_of,
};
use record_hash::Digests;
use record_text::{Node, Pointer, Refusal, Value, initial};
use tree_keys::Path;
use verifier_cache::{Entry, Hold};

/// What a parent gets when a record comes in under it or leaves it: another pointer on this side.
#[derive(Clone, Copy)]
pub struct Link {
    pub on: bool,
    pub pointer: Option<Pointer>,
}

/// What an add makes: what the parent gets, and the child.
#[derive(Drop)]
pub struct Join {
    pub link: Link,
    pub child: Entry,
}

#[tactic(auto, using(crate::proofs::BelowLaws::below_view))]
// The entry as a parent of the path, if that lies properly below it: on which side, and the entry's node.
fn above<'a>(parent: &'a Entry, path: &Path) -> Option<(bool, &'a Node)>
    ensures found { IfSome result (λ found. above parent.now path.now ≡ Some (record { on = found.0; node = found.1.now })) }
    ensures none { IsNone result → above parent.now path.now ≡ None }
    ensures node { IfSome result (λ found. parent.now.value ≡ values.Node found.1.now) }
    ensures on { IfSome result (λ found. side parent.now.path path.now ≡ Some found.0) }
    ensures apart { IfSome result (λ found. path.now ≢ parent.now.path) }
{
    match (parent.path.side(path), &parent.value) {
        (Some(on), Value::Node(node)) => Some((on, node)),
        _ => None,
    }
}

// Whether the pointer is to the path.
fn leads_to(pointer: &Option<Pointer>, path: &Path) -> bool
    ensures value { result ≡ leads_to pointer.now path.now }
{
    match pointer {
        Some(pointer) => pointer.path.is_same(path),
        None => false,
    }
}

// Whether the pointer is to a record that is checked later.
fn is_deferred(pointer: &Option<Pointer>) -> bool
    ensures value { result ≡ is_deferred pointer.now }
{
    match pointer {
        Some(pointer) => pointer.deferred,
        None => false,
    }
}

// Whether the pointer keeps this digest.
fn has_digest(pointer: &Option<Pointer>, digest: &[u8; 32]) -> bool
    ensures value { result ≡ has_digest pointer.now digest.now }
{
    match pointer {
        Some(pointer) => is_same_bytes(&pointer.digest, digest),
        None => false,
    }
}

// An add under a parent whose pointer leads nowhere or below the path, which is its first: it must come
// with its initial value.
#[tactic(auto, using(crate::proofs::LinkLemmas::join_view))]
fn add_first<D: Digests>(
    d: &D,
    parent: &Entry,
    on: bool,
    node: &Node,
    path: &Path,
    value: &Value,
) -> Result<Join, Refusal>
    requires node { parent.now.value ≡ values.Node node.now }
    requires first { IsFirst (case_of (node_side node.now on) path.now) }
    ensures added { IfOk result (λ join. add_by (D.functions d.now).digest parent.now (record { on = on; node = node.now }) path.now value.now
        (case_of (node_side node.now on) path.now) ≡ Ok (family_by parent.now join)) }
    ensures refused { IfErr result (λ refusal. add_by (D.functions d.now).digest parent.now (record { on = on; node = node.now }) path.now value.now
        (case_of (node_side node.now on) path.now) ≡ Err refusal) }
    ensures child { IfOk result (λ join. join.child.path ≡ path.now) }
{
    if !is_same_value(value, &initial(path)) {
        return Err(Refusal::NotInitial);
    }
    let old = side_of(node, on);
    let (pointer, value) = after_add(d, old, path, value);
    let mut child = Entry::new(*path, value, Hold::M);
    if let Some(below) = leads_below(path, old) {
        child.set_kid(below, parent.kid(on));
    }
    Ok(Join {
        link: Link { on, pointer },
        child,
    })
}

// The side of the path on which the pointer leads below it.
fn leads_below(path: &Path, pointer: &Option<Pointer>) -> Option<bool>
    ensures value { result ≡ leads_below path.now pointer.now }
{
    match pointer {
        Some(pointer) => path.side(&pointer.path),
        None => None,
    }
}

// An add under a parent whose pointer is to the path: the value must have the digest that it keeps.
#[tactic(auto, using(crate::proofs::LinkLemmas::again_view))]
fn add_again<D: Digests>(
    d: &D,
    parent: &Entry,
    on: bool,
    node: &Node,
    path: &Path,
    value: &Value,
) -> Result<Join, Refusal>
    requires node { parent.now.value ≡ values.Node node.now }
    requires same { case_of (node_side node.now on) path.now ≡ Same }
    ensures added { IfOk result (λ join. add_by (D.functions d.now).digest parent.now (record { on = on; node = node.now }) path.now value.now Same
        ≡ Ok (family_by parent.now join)) }
    ensures refused { IfErr result (λ refusal. add_by (D.functions d.now).digest parent.now (record { on = on; node = node.now }) path.now value.now Same
        ≡ Err refusal) }
    ensures child { IfOk result (λ join. join.child.path ≡ path.now) }
{
    let pointer = side_of(node, on);
    if is_deferred(pointer) {
        return Err(Refusal::Deferred);
    }
    if !has_digest(pointer, &digest_of(d, value)) {
        return Err(Refusal::WrongDigest);
    }
    if parent.kid(on) {
        return Err(Refusal::HasChild);
    }
    Ok(Join {
        link: Link {
            on,
            pointer: *pointer,
        },
        child: Entry::new(*path, value.copy(), Hold::M),
    })
}

// An add under a parent.
pub(crate) fn add_under<D: Digests>(
    d: &D,
    parent: &Entry,
    path: &Path,
    value: &Value,
) -> Result<Join, Refusal>
    ensures added { IfOk result (λ join. add_under (D.functions d.now).digest parent.now path.now value.now ≡ Ok (family_by parent.now join)) }
    ensures refused { IfErr result (λ refusal. add_under (D.functions d.now).digest parent.now path.now value.now ≡ Err refusal) }
    ensures child { IfOk result (λ join. join.child.path ≡ path.now) }
{
    let Some((on, node)) = above(parent, path) else {
        return Err(Refusal::NotBelow);
    };
    match add_case(side_of(node, on), path) {
        AddCase::Foreign => Err(Refusal::Foreign),
        AddCase::Same => add_again(d, parent, on, node, path, value),
        _ => add_first(d, parent, on, node, path, value),
    }
}

// Whether a record that came in so leaves otherwise than it must.
fn holds_wrong(hold: Hold, kid: bool, deferred: bool) -> bool
    ensures value { result ≡ holds_wrong hold kid deferred }
{
    match hold {
        Hold::Root => false,
        Hold::M => !kid || deferred,
        Hold::B => kid || !deferred,
    }
}

// An evict into a parent: what the parent gets.
#[tactic(auto, using(crate::proofs::LinkLemmas::link_view))]
pub(crate) fn evict_under<D: Digests>(
    d: &D,
    parent: &Entry,
    leaving: &Entry,
) -> Result<Link, Refusal>
    ensures evicted { IfOk result (λ link. evict_under (D.functions d.now).digest parent.now leaving.now
        ≡ Ok (linked parent.now link.on link.pointer false)) }
    ensures refused { IfErr result (λ refusal. evict_under (D.functions d.now).digest parent.now leaving.now ≡ Err refusal) }
    ensures apart { IfOk result (λ link. leaving.now.path ≢ parent.now.path) }
{
    let Some((on, node)) = above(parent, &leaving.path) else {
        return Err(Refusal::NotBelow);
    };
    let pointer = side_of(node, on);
    if !leads_to(pointer, &leaving.path) {
        return Err(Refusal::NotChild);
    }
    if leaving.has_kid() {
        return Err(Refusal::HasChild);
    }
    if holds_wrong(leaving.hold, parent.kid(on), is_deferred(pointer)) {
        return Err(Refusal::WrongHold);
    }
    let pointer = Some(pointer_to(d, &leaving.path, &leaving.value));
    Ok(Link { on, pointer })
}

// Whether a record came in by its digest.
fn is_by_digest(hold: Hold) -> bool
    ensures value { result ≡ is_by_digest hold }
{
    match hold {
        Hold::M => true,
        _ => false,
    }
}

// A deferred evict out of a parent: what the parent gets.
#[tactic(auto, using(crate::proofs::LinkLemmas::link_view))]
pub(crate) fn defer_under(parent: &Entry, child: &Entry) -> Result<Link, Refusal>
    ensures deferred { IfOk result (λ link. defer_under parent.now child.now ≡ Ok (linked parent.now link.on link.pointer false)) }
    ensures refused { IfErr result (λ refusal. defer_under parent.now child.now ≡ Err refusal) }
    ensures apart { IfOk result (λ link. child.now.path ≢ parent.now.path) }
{
    let Some((on, node)) = above(parent, &child.path) else {
        return Err(Refusal::NotBelow);
    };
    let pointer = side_of(node, on);
    if !leads_to(pointer, &child.path) {
        return Err(Refusal::NotChild);
    }
    if child.has_kid() {
        return Err(Refusal::HasChild);
    }
    if !is_by_digest(child.hold) {
        return Err(Refusal::WrongHold);
    }
    if !parent.kid(on) {
        return Err(Refusal::WrongHold);
    }
    Ok(Link {
        on,
        pointer: defer(pointer),
    })
}

// Whether a path has no record, by a parent whose pointer doesn't lead to it.
pub(crate) fn absent_under(parent: &Entry, path: &Path) -> Result<(), Refusal>
    ensures absent { OnOk result (absent_under parent.now path.now ≡ Ok (unset path.now)) }
    ensures refused { IfErr result (λ refusal. absent_under parent.now path.now ≡ Err refusal) }
{
    let Some((on, node)) = above(parent, path) else {
        return Err(Refusal::NotBelow);
    };
    if leads_over(side_of(node, on), path) {
        return Err(Refusal::Present);
    }
    Ok(())
}
