//! Closes with hot records, beside the rows of `close_rows`.
ghost use Rattle.std.specs.Prelude.{◌≤◌, IsTrue, length, map};
ghost use Rattle.std.specs.List.{AllByRecursion};
ghost use Rattle.lamport_clocks.specs.Clock.{is_open};
ghost use Rattle.record_text.specs.Longest.{longest_blob};
ghost use Rattle.host_shard.specs.Mirrors.{IsShard, IsKeyOf};
ghost use Rattle.host_shard.specs.Shown.{shown, shown_content};
ghost use Rattle.host_shard.specs.Content.{hot_path};
ghost use Rattle.host_plan.specs.Plan.{Owns};
ghost use Rattle.protection_moves.specs.Stage.{hot_records};
ghost use Rattle.host_tests.specs.Owned.{IsFit};

use crate::close_rows::{CASES, WIDE};
use crate::plans::{assert_accepted, assert_wide_rows, header, log_setup};
use crate::rows::{same, same_at, same_bytes};
use crate::shards::{bytes_of_rows, clock_at, push_all, request_of, serve};
use host_shard::{Content, Shard};
use lamport_clocks::{Clock, Stamp};
use log_codec::Command;
use protection_moves::{MoveFault, migrate};
use record_hash::{Digests, ShaDigests, ToyDigests};
use record_text::Request;
use std::alloc::Global;
use std::process::Abort;
use tree_keys::Path;

/// A shard and its hot places.
#[derive(Drop)]
struct Seats {
    cold: Content,
    hot: [Content; 4],
}

// A shard of a tree as a setup leaves it, evicted last with this counter of epoch 0, and vacant places.
fn fresh(alloc: Global, wide: bool, side: bool, counter: u32) -> Seats
    ensures fit { IsFit (shown_content result.cold) }
{
    let frontier = Path::root_of(wide).child(side);
    let stamp = Stamp { epoch: 0, counter };
    Seats {
        cold: Content::Cold(Shard::new(alloc, frontier, stamp, 0)),
        hot: [
            Content::Vacant,
            Content::Vacant,
            Content::Vacant,
            Content::Vacant,
        ],
    }
}

// Whether a content is the one in which a request for a key is served.
fn owns(content: &Content, key: u128) -> bool
    ensures own { IsTrue result → IsFit (shown_content content.now)
        → Owns longest_blob (shown_content content.now) key }
{
    match content {
        Content::Cold(shard) => shard.path_of(key).is_below(&shard.frontier),
        Content::Hot(found) => found.key == key,
        Content::Vacant => false,
    }
}

// Whether a content is the record of this hot key.
fn is_hot_at(content: &Content, key: u128) -> bool
    ensures own { IsTrue result → Owns longest_blob (shown_content content.now) key }
{
    match content {
        Content::Hot(found) => found.key == key,
        _ => false,
    }
}

// Whether the clock takes a stamp in.
fn takes(clock: &Clock, stamp: Stamp) -> bool
    ensures open { IsTrue result → IsTrue (is_open clock.now stamp.epoch) }
{
    let mut later = *clock;
    later.on_add(stamp).is_ok()
}

// Whether the clock takes in each record in these places.
fn takes_all(clock: &Clock, places: &[Content]) -> bool
    ensures open { IsTrue result → AllByRecursion (λ found. IsTrue (is_open clock.now found.stamp.epoch))
        (hot_records (map shown_content places.now)) }
{
    let (first, rest) = match places.split_first() {
        Some(parts) => parts,
        None => return true,
    };
    match first {
        Content::Hot(found) => takes(clock, found.stamp) && takes_all(clock, rest),
        Content::Cold(_) => takes_all(clock, rest),
        Content::Vacant => takes_all(clock, rest),
    }
}

// Whether each record in these places is of a key of the shard.
pub(crate) fn owns_all(shard: &Shard, places: &[Content]) -> bool
    ensures own { IsTrue result → AllByRecursion (λ found. IsKeyOf (shown shard.now) (hot_path found))
        (hot_records (map shown_content places.now)) }
{
    let (first, rest) = match places.split_first() {
        Some(parts) => parts,
        None => return true,
    };
    match first {
        Content::Hot(found) => { found.path().is_below(&shard.frontier) && owns_all(shard, rest) }
        Content::Cold(_) => owns_all(shard, rest),
        Content::Vacant => owns_all(shard, rest),
    }
}

// Moves a shard at a close for worker 0, and logs the commands. It answers whether the counters reached. For want of memory
// it tries once more: all is as before.
fn close<D: Digests>(
    rt: &impl Abort,
    alloc: Global,
    d: &D,
    shard: &mut Shard,
    hot: &mut [Content],
    threshold: u32,
    clock: &mut Clock,
    log: &mut Vec<u8>,
    tries: u8,
) -> bool
    requires fits { IsShard longest_blob (shown shard.old) }
    requires places { length hot.old ≤ 4 }
    ensures fits { IsShard longest_blob (shown shard.new) }
{
    if threshold == 0 || !takes(clock, shard.stamp) {
        panic!(rt; "not to be moved");
    }
    if !takes_all(clock, hot) || !owns_all(shard, hot) {
        panic!(rt; "hot records of others");
    }
    match migrate(alloc, d, shard, hot, Some(threshold), 0, clock) {
        Ok(commands) => {
            push_all(rt, log, commands.as_slice());
            true
        }
        Err(MoveFault::ClockEnd) => false,
        Err(MoveFault::Memory) => {
            if tries == 0 {
                panic!(rt; "no memory");
            }
            close(rt, alloc, d, shard, hot, threshold, clock, log, tries - 1)
        }
    }
}

impl Seats {
    // Moves the shard at a close.
    fn close<D: Digests>(
        &mut self,
        rt: &impl Abort,
        alloc: Global,
        d: &D,
        threshold: u32,
        clock: &mut Clock,
        log: &mut Vec<u8>,
    ) -> bool
        requires fit { IsFit (shown_content self.old.cold) }
        ensures fit { IsFit (shown_content self.new.cold) }
    {
        match &mut self.cold {
            Content::Cold(shard) => close(
                rt,
                alloc,
                d,
                shard,
                &mut self.hot,
                threshold,
                clock,
                log,
                1,
            ),
            _ => panic!(rt; "no shard"),
        }
    }

    // Serves a request in the place of its key.
    fn serve<D: Digests>(
        &mut self,
        rt: &impl Abort,
        alloc: Global,
        d: &D,
        request: &Request,
        clock: &mut Clock,
        log: &mut Vec<u8>,
    )
        requires fit { IsFit (shown_content self.old.cold) }
        ensures fit { IsFit (shown_content self.new.cold) }
    {
        for index in 0..4 {
            if is_hot_at(&self.hot[index], request.key) {
                serve(
                    rt,
                    alloc,
                    d,
                    &mut self.hot[index],
                    request,
                    0,
                    false,
                    clock,
                    log,
                );
                return;
            }
        }
        if !owns(&self.cold, request.key) {
            panic!(rt; "no place of this key");
        }
        serve(rt, alloc, d, &mut self.cold, request, 0, false, clock, log);
    }

    // Serves the request of a row under toy digests.
    fn ask(
        &mut self,
        rt: &impl Abort,
        alloc: Global,
        row: &str,
        clock: &mut Clock,
        log: &mut Vec<u8>,
    )
        requires fit { IsFit (shown_content self.old.cold) }
        ensures fit { IsFit (shown_content self.new.cold) }
    {
        let request = request_of(rt, alloc, row);
        self.serve(rt, alloc, &ToyDigests, &request, clock, log);
    }
}

// Serves the requests of these rows on two new shards of a tree and closes at each `epoch`, behind what is logged already.
fn play<D: Digests>(
    rt: &impl Abort,
    alloc: Global,
    d: &D,
    wide: bool,
    threshold: u32,
    script: &str,
    log: &mut Vec<u8>,
) {
    let mut low = fresh(alloc, wide, false, 1);
    let mut high = fresh(alloc, wide, true, 2);
    let mut clock = clock_at(2);
    for row in script.trim().lines() {
        if row == "epoch" {
            go_on(rt, &mut clock);
            push_all(rt, log, &[Command::NextEpoch]);
            low.close(rt, alloc, d, threshold, &mut clock, log);
            high.close(rt, alloc, d, threshold, &mut clock, log);
        } else {
            let request = request_of(rt, alloc, row);
            if owns(&low.cold, request.key) {
                low.serve(rt, alloc, d, &request, &mut clock, log);
            } else {
                high.serve(rt, alloc, d, &request, &mut clock, log);
            }
        }
    }
}

#[test]
fn closes_are_those_of_the_slow_program(rt: HostRuntime) {
    for (label, threshold, script, rows) in CASES {
        let mut log = Vec::new(rt.alloc());
        play(
            &rt,
            rt.alloc(),
            &ToyDigests,
            false,
            threshold,
            script,
            &mut log,
        );
        let wanted = bytes_of_rows(&rt, rt.alloc(), rows);
        same_bytes(&rt, label, &log, &wanted);
    }
}

#[test]
fn a_key_of_128_bits_becomes_hot_and_comes_back(rt: HostRuntime) {
    let (label, threshold, script, rows) = WIDE;
    let mut log = Vec::new(rt.alloc());
    play(
        &rt,
        rt.alloc(),
        &ToyDigests,
        true,
        threshold,
        script,
        &mut log,
    );
    let wanted = bytes_of_rows(&rt, rt.alloc(), rows);
    same_bytes(&rt, label, &log, &wanted);
    assert_wide_rows(&rt, rt.alloc(), label, rows, 4);
}

#[test]
fn a_verifier_accepts_closes_with_hot_records(rt: HostRuntime) {
    let d = ShaDigests::new(&[7; 32]);
    for (label, threshold, script, _) in CASES {
        let mut log = Vec::new(rt.alloc());
        log_setup(&rt, rt.alloc(), &mut log);
        play(&rt, rt.alloc(), &d, false, threshold, script, &mut log);
        let asked = script.trim().lines().filter(|row| *row != "epoch").count();
        assert_accepted(&rt, rt.alloc(), label, &d, &header(), &log, asked);
    }
}

// Counts so many touches more of a key that has a record.
fn touch(rt: &impl Abort, shard: &mut Shard, key: u128, touches: u32)
    requires fits { IsShard longest_blob (shown shard.old) }
    ensures fits { IsShard longest_blob (shown shard.new) }
{
    if shard.records.get(&shard.path_of(key)).is_none() {
        panic!(rt; "no record");
    }
    for _ in 0..touches {
        shard.touch(key);
    }
}

// The clock goes on to the next epoch.
fn go_on(rt: &impl Abort, clock: &mut Clock) {
    if clock.next_epoch().is_err() {
        panic!(rt; "no next epoch");
    }
}

// Whether a place has a hot record.
fn is_hot(place: &Content) -> bool {
    matches!(place, Content::Hot(_))
}

// Moves a shard at a close behind so many touches more of key 5, and answers whether the key is hot then. A million make it so.
fn becomes_hot(
    rt: &impl Abort,
    alloc: Global,
    low: &mut Seats,
    clock: &mut Clock,
    touches: u32,
) -> bool
    requires fit { IsFit (shown_content low.old.cold) }
    ensures fit { IsFit (shown_content low.new.cold) }
{
    match &mut low.cold {
        Content::Cold(shard) => touch(rt, shard, 5, touches),
        _ => panic!(rt; "no shard"),
    }
    go_on(rt, clock);
    let mut log = Vec::new(alloc);
    let reached = low.close(rt, alloc, &ToyDigests, 1_000_000, clock, &mut log);
    same(rt, "reached", &reached, &true);
    is_hot(&low.hot[0])
}

#[test]
fn a_million_touches_make_a_key_hot(rt: HostRuntime) {
    let mut low = fresh(rt.alloc(), false, false, 1);
    let mut clock = clock_at(2);
    let mut log = Vec::new(rt.alloc());
    low.ask(&rt, rt.alloc(), "get 5", &mut clock, &mut log);
    let once = becomes_hot(&rt, rt.alloc(), &mut low, &mut clock, 999_998);
    let twice = becomes_hot(&rt, rt.alloc(), &mut low, &mut clock, 1_000_000);
    same(&rt, "hot", &(once, twice), &(false, true));
}

// A shard with two keys that were touched is moved with a clock whose counters end here, and waits with this stamp then. A
// move that isn't made logs nothing.
fn assert_moved_by(
    rt: &impl Abort,
    alloc: Global,
    end: u32,
    reached: bool,
    counter: u32,
    stamp: Stamp,
) {
    let mut low = fresh(alloc, false, false, 1);
    let mut clock = clock_at(2);
    let mut log = Vec::new(alloc);
    low.ask(rt, alloc, "get 1", &mut clock, &mut log);
    low.ask(rt, alloc, "get 2", &mut clock, &mut log);
    let logged = log.len();
    let mut later = Clock::new(0, end);
    go_on(rt, &mut later);
    let found = low.close(rt, alloc, &ToyDigests, 1, &mut later, &mut log);
    let at = end as usize;
    same_at(rt, at, &found, &reached);
    same_at(rt, at, &(log.len() != logged), &reached);
    same_at(rt, at, &later.at().counter, &counter);
    same_at(rt, at, &is_hot(&low.hot[0]), &reached);
    assert_waits(rt, &low.cold, stamp);
}

// A content waits with this stamp.
fn assert_waits(rt: &impl Abort, content: &Content, stamp: Stamp) {
    match content.pending() {
        Some(element) => same(rt, "waits", &element.stamp, &stamp),
        None => panic!(rt; "no shard"),
    }
}

#[test]
fn the_counters_end_between_two_transfers(rt: HostRuntime) {
    // the frontier is taken in, the keys are handed out, and the frontier is
    let before = Stamp {
        epoch: 0,
        counter: 6,
    };
    let behind = Stamp {
        epoch: 1,
        counter: 4,
    };
    assert_moved_by(&rt, rt.alloc(), 1, false, 0, before);
    assert_moved_by(&rt, rt.alloc(), 2, false, 0, before);
    assert_moved_by(&rt, rt.alloc(), 3, false, 0, before);
    assert_moved_by(&rt, rt.alloc(), 4, true, 4, behind);
}
