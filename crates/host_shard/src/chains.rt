//! The chain from a shard's frontier to a key.
ghost use Rattle.std.specs.Prelude.{◌≡◌, ◌↔◌, ◌≤◌, ◌<◌, true, length, take, vec_len, IfOk};
ghost use Rattle.tree_keys.specs.Path.{key_bits, side};
ghost use Rattle.record_text.specs.Longest.{longest_blob};
ghost use Rattle.host_shard.specs.Chain.{next_link, pointer_toward, StaysInTree, last_value, end_path, known_links, ends_new, IsChain};
ghost use Rattle.host_shard.specs.Mirrors.{IsShard, IsKeyOf};
ghost use Rattle.host_shard.specs.Shard.{wide_in, key_path_in, tree_of};
ghost use Rattle.host_shard.specs.Shown.{shown};

use crate::link::Link;
use crate::shard::Shard;
use base_words::Memory;
use merkle_records::leads_over;
use record_text::{Pointer, Value};
use std::alloc::Global;
use tree_keys::Path;

// Room for so many links is taken at once. A longer chain takes more.
const ROOM: usize = 24;

/// The chain from the shard's frontier to a key below it.
pub fn chain(alloc: Global, shard: &Shard, key: u128) -> Result<Vec<Link>, Memory>
    requires fits { IsShard longest_blob (shown shard.now) }
    requires own { IsKeyOf (shown shard.now) (key_path_in (shown shard.now) key) }
    ensures chain { IfOk result (λ links. IsChain (tree_of (shown shard.now))
        (key_path_in (shown shard.now) key) shard.now.frontier shard.now.value links.items) }
    ensures few { IfOk result (λ links. vec_len links ≤ key_bits (wide_in (shown shard.now))) }
{
    let end = shard.path_of(key);
    let mut links = Vec::with_capacity(alloc, ROOM)?;
    let mut at = shard.frontier;
    let mut ahead = toward(&shard.value, &at, &end);
    while !at.is_same(&end) {
        let link = next_link(shard, &end, ahead);
        at = link.path;
        ahead = toward(&link.taken, &at, &end);
        links.push(link)?;
    }
    Ok(links)
}

// The pointer of a path's value on the side of a key.
fn toward(value: &Value, at: &Path, key: &Path) -> Option<Pointer>
    ensures value { result ≡ pointer_toward value.now (side at.now key.now) }
{
    match (value, at.side(key)) {
        (Value::Node(node), Some(side)) => node.side(side),
        _ => None,
    }
}

// The link behind a pointer.
fn next_link(shard: &Shard, key: &Path, ahead: Option<Pointer>) -> Link
    requires one_tree { StaysInTree key.now ahead }
    ensures value { result ≡ next_link (tree_of (shown shard.now)) key.now ahead }
{
    let pointer = match ahead {
        Some(pointer) => pointer,
        None => return Link::new(key),
    };
    if !key.starts_with(&pointer.path) {
        return Link::fork(key, &pointer);
    }
    match shard.value_of(&pointer.path) {
        Some(value) => Link::known(&pointer.path, value),
        None => Link::new(&pointer.path),
    }
}

/// The value of the path at the chain's end, which is that of the path before it where there is no link.
pub fn last_value<'a>(value: &'a Value, links: &'a [Link]) -> &'a Value
    ensures value { result.now ≡ last_value value.now links.now }
{
    match links.last() {
        Some(link) => &link.taken,
        None => value,
    }
}

/// The path at the chain's end, which is the path before it where there is no link.
pub fn end_path<'a>(at: &'a Path, links: &'a [Link]) -> &'a Path
    ensures path { result.now ≡ end_path at.now links.now }
{
    match links.last() {
        Some(link) => &link.path,
        None => at,
    }
}

/// Whether a shard's chain to a key ends in a new record.
pub fn ends_new(shard: &Shard, key: u128, links: &[Link]) -> bool
    ensures new { result ≡ ends_new (key_path_in (shown shard.now) key) shard.now.frontier shard.now.value links.now }
{
    count_known(&shard.path_of(key), &shard.frontier, &shard.value, links) < links.len()
}

/// The links of a shard's chain to a key that have records.
pub fn known_links<'a>(shard: &Shard, key: u128, links: &'a [Link]) -> &'a [Link]
    ensures known { result.now ≡ known_links (key_path_in (shown shard.now) key)
        shard.now.frontier shard.now.value links.now }
    ensures within { length result.now ≤ length links.now }
{
    &links[..count_known(&shard.path_of(key), &shard.frontier, &shard.value, links)]
}

// How many of the links behind a path with its value have records. They are all of them, but where a chain ends in a new one.
fn count_known(key: &Path, at: &Path, value: &Value, links: &[Link]) -> usize
    ensures known { take result links.now ≡ known_links key.now at.now value.now links.now }
    ensures within { result ≤ length links.now }
    ensures new { (result < length links.now) ↔ (ends_new key.now at.now value.now links.now ≡ true) }
{
    let (link, rest) = match links.split_first() {
        Some(parts) => parts,
        None => return 0,
    };
    if !leads_over(&toward(value, at, key), key) {
        return 0;
    }
    1 + count_known(key, &link.path, &link.taken, rest)
}
