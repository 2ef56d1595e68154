//! Setups of two and of four shards, and where the counters end before each shard has one.
use crate::rows::{bytes_of, same, same_bytes};
use crate::shards::{bytes_logged, bytes_of_rows};
use host_plan::{SetupFault, setup};
use host_shard::Content;
use lamport_clocks::Header;
use std::process::Abort;
use tree_keys::Path;

// A header of one verifier whose counters end here.
const fn header(end: u32) -> Header {
    Header::by_path(1, 128, 0, end)
}

// The bytes that a host of two shards logs first, written out by hand from the table of tags and fields.
const TWO_SHARDS: &str = "
01 010000000000000000 0000 000000000000000000
05 010000000000000000 000000000000000000 0000000000000001
01 018000000000000000 0000 000000000000000000
05 018000000000000000 000000000000000000 0000000000000002
";

// The same of two shards of the tree whose keys have 128 bits.
const TWO_WIDE_SHARDS: &str = "
01 0100000000000000000000000000000000 0000 0000000000000000000000000000000000
05 0100000000000000000000000000000000 0000000000000000000000000000000000 0000000000000001
01 0180000000000000000000000000000000 0000 0000000000000000000000000000000000
05 0180000000000000000000000000000000 0000000000000000000000000000000000 0000000000000002
";

// The rows of a host of four shards.
const FOUR_SHARDS: &str = "
addM /0 initial root
addM /00 initial /0
evictBM /00 /0 0.1
addM /01 initial /0
evictBM /01 /0 0.2
evictM /0 root
addM /1 initial root
addM /10 initial /1
evictBM /10 /1 0.3
addM /11 initial /1
evictBM /11 /1 0.4
evictM /1 root
";

// A content is a shard without records at this frontier, evicted by verifier 0 with this counter.
fn assert_fresh(rt: &impl Abort, contents: &[Content], place: usize, frontier: &Path) {
    match contents.get(place) {
        Some(Content::Cold(shard)) => {
            same(rt, "frontier", &shard.frontier, frontier);
            same(rt, "evictor", &shard.evictor, &0);
            same(rt, "epoch", &shard.stamp.epoch, &0);
            same(rt, "counter", &(shard.stamp.counter as usize), &(place + 1));
        }
        _ => panic!(rt; "a shard is missing"),
    }
}

#[test]
fn two_shards_are_set_up(rt: HostRuntime) {
    let Ok((commands, contents)) = setup(rt.alloc(), 2, &header(2)) else {
        panic!(rt; "no setup");
    };
    let log = bytes_logged(&rt, rt.alloc(), commands.as_slice());
    let wanted = bytes_of(&rt, rt.alloc(), TWO_SHARDS);
    same_bytes(&rt, "log", &log, &wanted);
    same(&rt, "shards", &contents.len(), &2);
    assert_fresh(&rt, &contents, 0, &Path::root().child(false));
    assert_fresh(&rt, &contents, 1, &Path::root().child(true));
}

// The header of version 3 with keys of 128 bits.
const fn wide_header() -> Header {
    Header {
        version: 3,
        bits: 128,
        ..header(2)
    }
}

#[test]
fn two_shards_of_keys_of_128_bits_are_set_up(rt: HostRuntime) {
    let Ok((commands, contents)) = setup(rt.alloc(), 2, &wide_header()) else {
        panic!(rt; "no setup");
    };
    let log = bytes_logged(&rt, rt.alloc(), commands.as_slice());
    let wanted = bytes_of(&rt, rt.alloc(), TWO_WIDE_SHARDS);
    same_bytes(&rt, "log", &log, &wanted);
    same(&rt, "shards", &contents.len(), &2);
    assert_fresh(&rt, &contents, 0, &Path::root_of(true).child(false));
    assert_fresh(&rt, &contents, 1, &Path::root_of(true).child(true));
}

#[test]
fn four_shards_are_set_up_side_0_first(rt: HostRuntime) {
    let Ok((commands, contents)) = setup(rt.alloc(), 4, &header(16_777_215)) else {
        panic!(rt; "no setup");
    };
    let log = bytes_logged(&rt, rt.alloc(), commands.as_slice());
    let wanted = bytes_of_rows(&rt, rt.alloc(), FOUR_SHARDS);
    same_bytes(&rt, "log", &log, &wanted);
    same(&rt, "shards", &contents.len(), &4);
    let (zero, one) = (Path::root().child(false), Path::root().child(true));
    assert_fresh(&rt, &contents, 0, &zero.child(false));
    assert_fresh(&rt, &contents, 1, &zero.child(true));
    assert_fresh(&rt, &contents, 2, &one.child(false));
    assert_fresh(&rt, &contents, 3, &one.child(true));
}

#[test]
fn each_shard_takes_a_counter(rt: HostRuntime) {
    match setup(rt.alloc(), 2, &header(1)) {
        Err(SetupFault::ClockEnd) => {}
        _ => panic!(rt; "a setup in one counter"),
    }
}
