//! Phases in which many workers serve at the same places.
ghost use Rattle.std.specs.Prelude.{◌≡◌, ◌<◌, ◌≤◌, map};
ghost use Rattle.table_tests.specs.Turns.{hand_of};

use crate::replaying::{Services, number_of, replay};
use crate::shards::shards;
use crate::table_workers::{set_up, worked};
use crate::turns::{Served, Turn};
use host_shard::Content;
use host_table::Hand;
use record_hash::{Digests, ToyDigests};
use std::alloc::Global;
use std::process::Abort;
use std::thread::Threads;

/// What workers came to: how many attempts were served, how many found a place held, and how many clocks ended.
#[derive(Clone, Copy, Debug, PartialEq, Eq)]
struct Tally {
    served: u64,
    busy: u64,
    ended: u64,
}

// So many workers, each in a thread, try so often at so many shards. What they served is then served again in one order, and
// compared.
fn phase<R: Threads + Abort + Sync, D: Digests + Sync>(
    rt: &R,
    alloc: Global,
    d: &D,
    workers: u16,
    bits: u8,
    places: usize,
    rounds: u64,
    end: u32,
) -> Tally
    requires workers { (0 < workers) × (workers ≤ 64) }
    requires places { (0 < places) × (places ≤ 64) }
    requires bits { (0 < bits) × (bits ≤ 6) }
    requires end { 64 ≤ end }
{
    let Ok((records, frontiers, turns)) = set_up(alloc, d, workers, bits, places, end) else {
        panic!(rt; "no table");
    };
    let turns = worked(
        rt,
        alloc,
        d,
        &records,
        frontiers.as_slice(),
        bits,
        rounds,
        1,
        turns,
    );
    let mut services = Services::new(alloc);
    let (tally, hands) = tell(rt, alloc, turns, &mut services);
    let closed = records.close(hands);
    compare(rt, alloc, d, bits, places, &closed, &services);
    tally
}

// What the workers tell, and their hands again.
fn tell(
    rt: &impl Abort,
    alloc: Global,
    turns: Vec<Turn>,
    services: &mut Services,
) -> (Tally, Vec<Hand>)
    ensures hands { result.1.items ≡ map hand_of turns.items }
{
    let mut tally = Tally {
        served: 0,
        busy: 0,
        ended: 0,
    };
    let mut hands = Vec::new(alloc);
    for turn in turns {
        let hand = tell_one(rt, turn, &mut tally, services);
        hands.push(hand).expect(rt, "memory");
    }
    (tally, hands)
}

// Counts what a worker tells, and gives its hand.
fn tell_one(rt: &impl Abort, turn: Turn, tally: &mut Tally, services: &mut Services) -> Hand
    ensures hand { result ≡ hand_of turn }
{
    let Turn {
        hand,
        clock: _,
        ended,
        log,
        busy,
        wanting,
    } = turn;
    assert_eq!(rt; wanting, 0, "want of memory");
    tally.busy = tally.busy.saturating_add(busy);
    tally.ended = tally.ended.saturating_add(u64::from(ended));
    tally.served = tally.served.saturating_add(log.len() as u64);
    enter(rt, services, log);
    hand
}

fn enter(rt: &impl Abort, services: &mut Services, log: Vec<Served>) {
    for served in log {
        let entered: Result<_, _> = services.insert(number_of(&served), served);
        if entered.is_err() {
            panic!(rt; "no memory");
        }
    }
}

// Served again in new shards, the services leave the same elements waiting: so their records have the same digests.
fn compare<D: Digests>(
    rt: &impl Abort,
    alloc: Global,
    d: &D,
    bits: u8,
    places: usize,
    closed: &[Content],
    services: &Services,
)
    requires few { (0 < bits) × (bits ≤ 6) × (places ≤ 64) }
{
    let Ok((frontiers, mut again)) = shards(alloc, places, bits) else {
        panic!(rt; "no memory");
    };
    replay(
        rt,
        alloc,
        d,
        frontiers.as_slice(),
        again.as_mut_slice(),
        services,
    );
    assert_same(rt, closed, again.as_slice());
}

// Both have the same elements waiting.
fn assert_same(rt: &impl Abort, contents: &[Content], others: &[Content]) {
    assert_eq!(rt; contents.len(), others.len());
    for (content, other) in contents.iter().zip(others.iter()) {
        assert!(rt; content.pending() == other.pending(), "another content");
    }
}

// Where no counter ends, each attempt is served or finds its place held, and what was served is served again.
fn run<R: Threads + Abort + Sync, D: Digests + Sync>(
    rt: &R,
    alloc: Global,
    d: &D,
    workers: u16,
    bits: u8,
    places: usize,
)
    requires workers { (0 < workers) × (workers ≤ 64) }
    requires places { (0 < places) × (places ≤ 64) }
    requires bits { (0 < bits) × (bits ≤ 6) }
{
    let tally = phase(rt, alloc, d, workers, bits, places, 2_000, 16_000_000);
    assert_tally(rt, tally, u64::from(workers).saturating_mul(2_000));
}

// No clock ended, and there were so many attempts.
fn assert_tally(rt: &impl Abort, tally: Tally, attempts: u64) {
    assert_eq!(rt; tally.ended, 0, "{attempts} attempts");
    let found = tally.served.saturating_add(tally.busy);
    assert_eq!(rt; found, attempts);
}

#[test]
fn workers_at_one_place(rt: HostRuntime) {
    for workers in [1u16, 2, 8, 64] {
        run(&rt, rt.alloc(), &ToyDigests, workers, 1, 1);
    }
}

#[test]
fn workers_at_two_places(rt: HostRuntime) {
    for workers in [2u16, 8, 64] {
        run(&rt, rt.alloc(), &ToyDigests, workers, 1, 2);
    }
}

#[test]
fn workers_at_many_places(rt: HostRuntime) {
    for workers in [2u16, 8, 64] {
        run(&rt, rt.alloc(), &ToyDigests, workers, 6, 64);
    }
}

#[test]
fn clocks_end_one_after_another(rt: HostRuntime) {
    let tally = phase(&rt, rt.alloc(), &ToyDigests, 8, 1, 2, 2_000, 100);
    assert_eq!(rt; tally.ended, 8);
}
