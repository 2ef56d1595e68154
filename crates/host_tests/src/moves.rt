//! The close of a host of two shards: what it logs, and where the counters end in it.
ghost use Rattle.std.specs.Prelude.{◌≡◌, ◌∷◌, [], ℕ, true, false, IsTrue, length};
ghost use Rattle.lamport_clocks.specs.Clock.{is_open};
ghost use Rattle.record_text.specs.Longest.{longest_blob};
ghost use Rattle.host_shard.specs.declared.content.Content.TheVariants.{Hot};
ghost use Rattle.host_shard.specs.Mirrors.{IsShard};
ghost use Rattle.host_shard.specs.Shown.{shown};

use crate::closes::owns_all;
use crate::rows::{bytes_of, same, same_bytes};
use crate::shards::{bytes_logged, push_all};
use host_shard::{Content, HotRecord, Shard};
use lamport_clocks::{Clock, Stamp};
use log_codec::Command;
use protection_moves::{MoveFault, migrate};
use record_hash::ShaDigests;
use record_text::Blob;
use std::alloc::Global;
use std::process::Abort;
use tree_keys::Path;

// The bytes that a host of two shards logs at its first close where nothing was asked, written out by hand from the table
// of tags and fields.
const CLOSE: &str = "
08
03 010000000000000000 0000 0000000000000001 0000
04 010000000000000000 0000000100000002
03 018000000000000000 0000 0000000000000002 0000
04 018000000000000000 0000000100000004
08
";

// The bytes of a move with two hot records that were touched: these come first, by key.
const TOUCHED: &str = "
03 400000000000000003 010161 0000000000000004 0000
04 400000000000000003 0000000100000002
03 400000000000000007 00 0000000000000005 0001
04 400000000000000007 0000000100000004
03 010000000000000000 0000 0000000000000001 0000
04 010000000000000000 0000000100000006
";

// A shard as a setup leaves it, evicted last with this counter of epoch 0.
fn fresh(alloc: Global, side: bool, counter: u32) -> Shard
    ensures fits { IsShard longest_blob (shown result) }
    ensures stamp { result.stamp.epoch ≡ 0 }
{
    Shard::new(
        alloc,
        Path::root().child(side),
        Stamp { epoch: 0, counter },
        0,
    )
}

// A clock whose counters end here, at the start of its second epoch.
fn second_epoch(rt: &impl Abort, end: u32) -> Clock
    ensures open { IsTrue (is_open result 0) }
{
    let mut clock = Clock::new(0, end);
    match clock.next_epoch() {
        Ok(_) => clock,
        Err(_) => panic!(rt; "no next epoch"),
    }
}

// Moves a shard whose four hot places are vacant, for worker 0, and logs the commands.
fn log_move(
    rt: &impl Abort,
    alloc: Global,
    shard: &mut Shard,
    clock: &mut Clock,
    log: &mut Vec<u8>,
) -> bool
    requires fits { IsShard longest_blob (shown shard.old) }
    requires open { IsTrue (is_open clock.old shard.old.stamp.epoch) }
    ensures open { (epoch : ℕ) → is_open clock.new epoch ≡ is_open clock.old epoch }
{
    let d = ShaDigests::new(b"a key");
    let mut hot = [
        Content::Vacant,
        Content::Vacant,
        Content::Vacant,
        Content::Vacant,
    ];
    match migrate(alloc, &d, shard, &mut hot, None, 0, clock) {
        Ok(commands) => {
            push_all(rt, log, commands.as_slice());
            true
        }
        Err(MoveFault::ClockEnd) => false,
        Err(MoveFault::Memory) => panic!(rt; "no memory"),
    }
}

// A stamp of this epoch and counter.
fn stamp(epoch: u32, counter: u32) -> Stamp {
    Stamp { epoch, counter }
}

#[test]
fn a_close_takes_each_shard_in_and_hands_it_out(rt: HostRuntime) {
    let mut low = fresh(rt.alloc(), false, 1);
    let mut high = fresh(rt.alloc(), true, 2);
    let mut clock = second_epoch(&rt, 16_777_215);
    let mut log = bytes_logged(&rt, rt.alloc(), &[Command::NextEpoch]);
    let is_low_moved = log_move(&rt, rt.alloc(), &mut low, &mut clock, &mut log);
    let is_high_moved = log_move(&rt, rt.alloc(), &mut high, &mut clock, &mut log);
    push_all(&rt, &mut log, &[Command::NextEpoch]);
    let are_moved = (is_low_moved, is_high_moved);
    same(&rt, "moved", &are_moved, &(true, true));
    same_bytes(&rt, "log", &log, &bytes_of(&rt, rt.alloc(), CLOSE));
    same(&rt, "low", &low.stamp, &stamp(1, 2));
    same(&rt, "high", &high.stamp, &stamp(1, 4));
}

#[test]
fn the_clock_ends_at_the_second_shard(rt: HostRuntime) {
    let mut low = fresh(rt.alloc(), false, 1);
    let mut high = fresh(rt.alloc(), true, 2);
    let mut clock = second_epoch(&rt, 3);
    let mut log = Vec::new(rt.alloc());
    let is_low_moved = log_move(&rt, rt.alloc(), &mut low, &mut clock, &mut log);
    let logged = log.len();
    let is_high_moved = log_move(&rt, rt.alloc(), &mut high, &mut clock, &mut log);
    let are_moved = (is_low_moved, is_high_moved);
    same(&rt, "moved", &are_moved, &(true, false));
    same(&rt, "log", &log.len(), &logged);
    same(&rt, "clock", &clock.at(), &stamp(1, 2));
    same(&rt, "high", &high.stamp, &stamp(0, 2));
}

// A hot record that was touched once, evicted last by this verifier with this counter of epoch 0.
fn touched(key: u128, value: Blob, counter: u32, evictor: u16) -> Content
    ensures record { result ≡ Hot (record {
      wide = false;
      key = key;
      value = value;
      stamp = record { epoch = 0; counter = counter };
      evictor = evictor;
      touches = 1;
    }) }
{
    Content::Hot(HotRecord {
        wide: false,
        key,
        value,
        stamp: Stamp { epoch: 0, counter },
        evictor,
        touches: 1,
    })
}

// The record in a place is of this key, untouched, and was evicted by verifier 2 with this stamp.
fn assert_moved(rt: &impl Abort, hot: &[Content], place: usize, key: u128, stamp: Stamp) {
    match hot.get(place) {
        Some(Content::Hot(found)) => {
            let numbers = (found.key, found.evictor, found.touches);
            same(rt, "record", &numbers, &(key, 2, 0));
            same(rt, "its stamp", &found.stamp, &stamp);
        }
        _ => panic!(rt; "a place without its record"),
    }
}

#[test]
fn touched_hot_records_come_first_by_key(rt: HostRuntime) {
    let d = ShaDigests::new(b"a key");
    let mut low = fresh(rt.alloc(), false, 1);
    let mut clock = second_epoch(&rt, 16_777_215);
    let value = Blob::of_bytes(b"a").expect(&rt, "no value");
    let mut hot = [
        Content::Vacant,
        touched(7, Blob::none(), 5, 1),
        touched(3, value, 4, 0),
        Content::Vacant,
    ];
    if !owns_all(&low, &hot) {
        panic!(rt; "a record of another shard");
    }
    let Ok(commands) = migrate(rt.alloc(), &d, &mut low, &mut hot, None, 2, &mut clock) else {
        panic!(rt; "no move");
    };
    let log = bytes_logged(&rt, rt.alloc(), commands.as_slice());
    same_bytes(&rt, "log", &log, &bytes_of(&rt, rt.alloc(), TOUCHED));
    assert_moved(&rt, &hot, 1, 7, stamp(1, 4));
    assert_moved(&rt, &hot, 2, 3, stamp(1, 2));
}
