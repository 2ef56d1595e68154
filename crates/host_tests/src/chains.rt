//! Chains of one link, of two and of the most, and what a shard and a hot record wait with.
ghost use Rattle.std.specs.Prelude.{◌<◌};

use crate::rows::{same, same_at};
use crate::shards::{Host, request_of};
use host_shard::{Content, HotRecord, Link, last_value};
use lamport_clocks::Stamp;
use record_hash::ToyDigests;
use record_text::{Blob, Element, Value};
use std::alloc::Global;
use std::process::Abort;
use tree_keys::Path;

// The link at this place.
fn link_at<'a>(rt: &impl Abort, links: &'a [Link], place: usize) -> &'a Link {
    links.get(place).expect(rt, "a missing link")
}

// Behind one value and these links stands another.
fn assert_last(rt: &impl Abort, label: &str, value: &Value, links: &[Link], wanted: &Value) {
    assert_eq!(rt; last_value(value, links), wanted, "{label}");
}

// A data value of one byte.
fn one_byte(rt: &impl Abort, byte: u8) -> Blob {
    Blob::of_bytes(&[byte]).expect(rt, "no value")
}

#[test]
fn a_new_shard_leads_to_the_key_at_once(rt: HostRuntime) {
    let host = Host::new(rt.alloc(), false, 0, 2);
    let links = host.links_to(&rt, rt.alloc(), 5);
    same(&rt, "one link", &links.len(), &1);
    let path = link_at(&rt, &links, 0).path;
    same(&rt, "its path", &path, &Path::of_key(5));
    let start = Value::Blob(one_byte(&rt, 1));
    let none = Value::Blob(Blob::none());
    assert_last(&rt, "behind it", &start, &links, &none);
    assert_last(&rt, "behind none", &start, &[], &start);
}

#[test]
fn a_key_beside_another_takes_a_fork(rt: HostRuntime) {
    let mut host = Host::new(rt.alloc(), false, 0, 2);
    let request = request_of(&rt, rt.alloc(), "put 5 6162");
    host.serve(&rt, rt.alloc(), &ToyDigests, &request);
    let links = host.links_to(&rt, rt.alloc(), 7);
    same(&rt, "two links", &links.len(), &2);
    let fork = link_at(&rt, &links, 0);
    same(&rt, "the fork", &fork.path, &Path::of_key(5).front(62));
    same(&rt, "it is new", &(fork.value != fork.taken), &true);
    let path = link_at(&rt, &links, 1).path;
    same(&rt, "the key", &path, &Path::of_key(7));
}

// So many links lead to key 0 of a tree, one bit further each.
fn assert_each_bit(rt: &impl Abort, wide: bool, links: &[Link], count: usize) {
    same(rt, "links", &links.len(), &count);
    for (index, link) in links.iter().enumerate() {
        same_at(rt, index, &(link.path.len() as usize), &(index + 2));
        let leads = Path::of_number(wide, 0).starts_with(&link.path);
        same_at(rt, index, &leads, &true);
    }
}

// The links to key 0 of a tree where a key parts from it at each of so many bits.
fn links_past(rt: &impl Abort, alloc: Global, wide: bool, bits: u32) -> Vec<Link>
    requires within { bits < 128 }
{
    let mut host = Host::new(alloc, wide, 0, 2);
    let mut request = request_of(rt, alloc, "put 0 61");
    for bit in 0..bits {
        request.key = 1 << bit;
        host.serve(rt, alloc, &ToyDigests, &request);
    }
    host.links_to(rt, alloc, 0)
}

// Keys that part from 0 at each bit behind the first make a node of each length from 2 to 63, or to 127.
#[test]
fn the_longest_chain_has_a_link_for_each_bit(rt: HostRuntime) {
    let links = links_past(&rt, rt.alloc(), false, 63);
    assert_each_bit(&rt, false, &links, 63);
    let links = links_past(&rt, rt.alloc(), true, 127);
    assert_each_bit(&rt, true, &links, 127);
}

// A hot record of key 5.
fn hot_at_5(value: Blob, stamp: Stamp) -> Content {
    Content::Hot(HotRecord {
        wide: false,
        key: 5,
        value,
        stamp,
        evictor: 3,
        touches: 4,
    })
}

// Its element.
fn element_at_5(value: Blob, stamp: Stamp) -> Element {
    Element {
        path: Path::of_key(5),
        value: Value::Blob(value),
        stamp,
        verifier: 3,
    }
}

#[test]
fn a_waiting_content_shows_its_element(rt: HostRuntime) {
    let stamp = Stamp {
        epoch: 1,
        counter: 2,
    };
    let hot = hot_at_5(one_byte(&rt, 7), stamp);
    let wanted = Some(element_at_5(one_byte(&rt, 7), stamp));
    same(&rt, "hot", &hot.pending(), &wanted);
    same(&rt, "vacant", &Content::Vacant.pending(), &None);
}
