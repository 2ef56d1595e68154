//! Rounds in which many workers go on from epoch to epoch.
ghost use Rattle.std.specs.Prelude.{◌≡◌, ◌<◌, ◌≤◌, map};
ghost use Rattle.table_tests.specs.Rounds.{hand_in};

use crate::round_tables::{go_on, set_up_round};
use crate::round_workers::{RoundEnd, RoundWorker};
use host_epochs::Hand;
use host_shard::Content;
use record_hash::{Digests, ToyDigests};
use std::alloc::Global;
use std::process::Abort;
use std::thread::Threads;

/// What workers came to: how many went on to the last epoch, how many stopped, how many read that one did, and how many places
/// they scanned.
#[derive(Clone, Copy, Debug, PartialEq, Eq)]
struct Tally {
    through: u64,
    stopped: u64,
    warned: u64,
    stuck: u64,
    scans: u64,
}

// So many workers, each in a thread, go on by so many epochs at so many shards. What they came to, and the contents then.
fn round<R: Threads + Abort + Sync, D: Digests + Sync>(
    rt: &R,
    alloc: Global,
    d: &D,
    workers: u16,
    places: usize,
    more: u64,
    end: u32,
) -> (Tally, Vec<Content>)
    requires workers { (0 < workers) × (workers ≤ 64) }
    requires places { (0 < places) × (places ≤ 64) }
    requires more { more ≤ 1000 }
    requires end { 64 ≤ end }
{
    let Ok((epochs, list)) = set_up_round(alloc, d, workers, places, more, end) else {
        panic!(rt; "no table");
    };
    let list = go_on(rt, &epochs, places, workers, more, list);
    let (tally, hands) = tell(rt, alloc, list, more);
    (tally, epochs.close(hands))
}

// What the workers tell, and their hands again.
fn tell(rt: &impl Abort, alloc: Global, list: Vec<RoundWorker>, more: u64) -> (Tally, Vec<Hand>)
    ensures hands { result.1.items ≡ map hand_in list.items }
{
    let mut tally = Tally {
        through: 0,
        stopped: 0,
        warned: 0,
        stuck: 0,
        scans: 0,
    };
    let mut hands = Vec::new(alloc);
    for worker in list {
        let hand = tell_one(worker, more, &mut tally);
        hands.push(hand).expect(rt, "memory");
    }
    (tally, hands)
}

// Counts what a worker tells, and gives its hand.
fn tell_one(worker: RoundWorker, more: u64, tally: &mut Tally) -> Hand
    ensures hand { result ≡ hand_in worker }
{
    let RoundWorker {
        hand,
        clock: _,
        entered,
        scans,
        busy: _,
        end,
    } = worker;
    let count = match end {
        RoundEnd::Going if entered == more => &mut tally.through,
        RoundEnd::Stopped => &mut tally.stopped,
        RoundEnd::Warned => &mut tally.warned,
        _ => &mut tally.stuck,
    };
    *count = count.saturating_add(1);
    tally.scans = tally.scans.saturating_add(scans);
    hand
}

// All workers come to the last epoch, each place is scanned once in each epoch that is entered, and waits with an element of the
// last one.
fn run<R: Threads + Abort + Sync, D: Digests + Sync>(
    rt: &R,
    alloc: Global,
    d: &D,
    workers: u16,
    places: usize,
    more: u64,
)
    requires workers { (0 < workers) × (workers ≤ 64) }
    requires places { (0 < places) × (places ≤ 64) }
    requires more { more ≤ 1000 }
{
    let (tally, contents) = round(rt, alloc, d, workers, places, more, 16_000_000);
    let wanted = Tally {
        through: u64::from(workers),
        stopped: 0,
        warned: 0,
        stuck: 0,
        scans: more.saturating_mul(places as u64),
    };
    assert_eq!(rt; tally, wanted);
    assert_in_epoch(rt, contents.as_slice(), more);
}

// Each content waits with an element of the epoch that is so many behind the first, 1.
fn assert_in_epoch(rt: &impl Abort, contents: &[Content], more: u64) {
    for content in contents {
        let epoch = content
            .pending()
            .map(|element| u64::from(element.stamp.epoch));
        assert_eq!(rt; epoch, Some(more.saturating_add(1)));
    }
}

#[test]
fn workers_go_on_from_epoch_to_epoch(rt: HostRuntime) {
    for workers in [1u16, 2, 5, 8] {
        for more in [0u64, 1, 7, 20] {
            run(&rt, rt.alloc(), &ToyDigests, workers, 64, more);
        }
    }
}

#[test]
fn more_workers_than_shards_go_on(rt: HostRuntime) {
    run(&rt, rt.alloc(), &ToyDigests, 8, 3, 7);
}

// Of 64 places worker 0 scans 34, for which it takes 68 counters.
#[test]
fn where_one_stops_the_other_reads_it(rt: HostRuntime) {
    let (tally, _) = round(&rt, rt.alloc(), &ToyDigests, 2, 64, 20, 64);
    assert_eq!(rt; (tally.through, tally.stuck), (0, 0));
    assert_eq!(rt; (tally.stopped, tally.warned), (1, 1));
}
