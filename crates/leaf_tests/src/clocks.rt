//! The clock of a verifier, a header's ranges and the order of stamps: rows that were worked out by hand.
use crate::rows::{field, same};
use lamport_clocks::{Clock, ClockFault, Header, Stamp};
use std::process::Abort;

const LAST: u32 = u32::MAX;

fn stamp(epoch: u32, counter: u32) -> Stamp {
    Stamp { epoch, counter }
}

// A stamp from its text: the epoch, a point and the counter.
fn stamp_of(rt: &impl Abort, text: &str) -> Stamp {
    let (epoch, counter) = text.split_once('.').expect(rt, "a stamp without a point");
    stamp(
        epoch.parse().expect(rt, "a number"),
        counter.parse().expect(rt, "a number"),
    )
}

// An answer from its name.
fn answer_of(rt: &impl Abort, text: &str) -> Result<(), ClockFault> {
    match text {
        "ok" => Ok(()),
        "BadEpoch" => Err(ClockFault::BadEpoch),
        "StampNotLater" => Err(ClockFault::StampNotLater),
        "ClockEnd" => Err(ClockFault::ClockEnd),
        _ => panic!(rt; "an answer of another name"),
    }
}

// What a turn answers: an epoch that it seals, none, or the one fault that it has.
fn turn_of(rt: &impl Abort, text: &str) -> Result<Option<u32>, ClockFault> {
    match text {
        "none" => Ok(None),
        "ClockEnd" => Err(ClockFault::ClockEnd),
        _ => Ok(Some(text.parse().expect(rt, "a number"))),
    }
}

/// A clock whose first epoch is `first` and whose counters end at 10, taken to `at` by turns and one evict.
fn clock_at(first: u32, at: Stamp) -> Clock {
    let mut clock = Clock::new(first, 10);
    for _ in first..at.epoch {
        let _ = clock.next_epoch();
    }
    let _ = clock.on_evict(at);
    clock
}

// First epoch, clock, stamp, answer, clock after.
const ADDS: &str = "
5 | 5.3 | 5.0 | ok | 5.4
5 | 5.3 | 5.3 | ok | 5.4
5 | 5.3 | 5.7 | ok | 5.8
5 | 5.3 | 5.9 | ok | 5.10
5 | 5.3 | 5.10 | ClockEnd | 5.3
5 | 5.3 | 5.4294967295 | ClockEnd | 5.3
5 | 5.10 | 5.1 | ClockEnd | 5.10
5 | 5.3 | 4.1 | BadEpoch | 5.3
5 | 5.3 | 6.1 | BadEpoch | 5.3
5 | 5.10 | 4.1 | BadEpoch | 5.10
5 | 6.3 | 5.9 | ok | 6.4
5 | 6.3 | 5.4294967295 | ok | 6.4
5 | 6.10 | 5.1 | ClockEnd | 6.10
5 | 7.3 | 5.1 | BadEpoch | 7.3
0 | 0.3 | 4294967295.1 | BadEpoch | 0.3
4294967295 | 4294967295.3 | 4294967295.6 | ok | 4294967295.7
4294967295 | 4294967295.3 | 4294967294.6 | BadEpoch | 4294967295.3
";

#[test]
fn adds_go_above_the_stamp(rt: HostRuntime) {
    for row in ADDS.trim().lines() {
        let first = field(&rt, row, 0);
        let before = field(&rt, row, 1);
        let taken = field(&rt, row, 2);
        let want = field(&rt, row, 3);
        let after = field(&rt, row, 4);
        let mut clock = clock_at(first.parse().expect(&rt, "a number"), stamp_of(&rt, before));
        same(&rt, row, &clock.at(), &stamp_of(&rt, before));
        same(
            &rt,
            row,
            &clock.on_add(stamp_of(&rt, taken)),
            &answer_of(&rt, want),
        );
        same(&rt, row, &clock.at(), &stamp_of(&rt, after));
    }
}

// First epoch, clock, stamp, answer, clock after.
const EVICTS: &str = "
5 | 5.3 | 5.4 | ok | 5.4
5 | 5.3 | 5.10 | ok | 5.10
5 | 5.3 | 5.11 | ClockEnd | 5.3
5 | 5.3 | 5.4294967295 | ClockEnd | 5.3
5 | 5.3 | 5.3 | StampNotLater | 5.3
5 | 5.3 | 5.2 | StampNotLater | 5.3
5 | 6.3 | 5.9 | BadEpoch | 6.3
5 | 6.3 | 7.9 | BadEpoch | 6.3
4294967295 | 4294967295.3 | 4294967295.4 | ok | 4294967295.4
";

#[test]
fn evicts_set_the_stamp(rt: HostRuntime) {
    for row in EVICTS.trim().lines() {
        let first = field(&rt, row, 0);
        let before = field(&rt, row, 1);
        let given = field(&rt, row, 2);
        let want = field(&rt, row, 3);
        let after = field(&rt, row, 4);
        let mut clock = clock_at(first.parse().expect(&rt, "a number"), stamp_of(&rt, before));
        same(
            &rt,
            row,
            &clock.on_evict(stamp_of(&rt, given)),
            &answer_of(&rt, want),
        );
        same(&rt, row, &clock.at(), &stamp_of(&rt, after));
    }
}

// First epoch, clock, the epoch that is sealed, clock after.
const TURNS: &str = "
5 | 5.3 | none | 6.0
5 | 6.10 | 5 | 7.0
5 | 8.0 | 7 | 9.0
0 | 0.0 | none | 1.0
4294967294 | 4294967294.3 | none | 4294967295.0
4294967293 | 4294967294.3 | 4294967293 | 4294967295.0
4294967294 | 4294967295.3 | ClockEnd | 4294967295.3
4294967295 | 4294967295.0 | ClockEnd | 4294967295.0
";

#[test]
fn turns_seal_the_epoch_before(rt: HostRuntime) {
    for row in TURNS.trim().lines() {
        let first = field(&rt, row, 0);
        let before = field(&rt, row, 1);
        let want = field(&rt, row, 2);
        let after = field(&rt, row, 3);
        let mut clock = clock_at(first.parse().expect(&rt, "a number"), stamp_of(&rt, before));
        same(&rt, row, &clock.next_epoch(), &turn_of(&rt, want));
        same(&rt, row, &clock.at(), &stamp_of(&rt, after));
    }
}

#[test]
fn counters_may_end_at_the_last_number(rt: HostRuntime) {
    let mut clock = Clock::new(0, LAST);
    same(
        &rt,
        "clock.on_add(stamp(0, LAST - 1))",
        &clock.on_add(stamp(0, LAST - 1)),
        &Ok(()),
    );
    same(&rt, "clock.at()", &clock.at(), &stamp(0, LAST));
    same(
        &rt,
        "clock.on_add(stamp(0, LAST))",
        &clock.on_add(stamp(0, LAST)),
        &Err(ClockFault::ClockEnd),
    );
    same(
        &rt,
        "clock.on_evict(stamp(0, LAST))",
        &clock.on_evict(stamp(0, LAST)),
        &Err(ClockFault::StampNotLater),
    );
}

// Version, verifiers, cache, end, the bits of a key, whether it is a header.
const HEADERS: &str = "
1 | 1 | 4 | 1 | 64 | true
1 | 64 | 65536 | 16777215 | 64 | true
2 | 1 | 4 | 1 | 64 | true
2 | 64 | 65536 | 16777215 | 64 | true
3 | 1 | 4 | 1 | 64 | true
3 | 64 | 65536 | 16777215 | 128 | true
0 | 1 | 4 | 1 | 64 | false
4 | 1 | 4 | 1 | 64 | false
1 | 0 | 4 | 1 | 64 | false
1 | 65 | 4 | 1 | 64 | false
1 | 1 | 3 | 1 | 64 | false
1 | 1 | 65537 | 1 | 64 | false
1 | 1 | 4 | 0 | 64 | false
1 | 1 | 4 | 16777216 | 64 | false
3 | 65 | 4 | 1 | 128 | false
1 | 1 | 4 | 1 | 128 | false
2 | 1 | 4 | 1 | 128 | false
4 | 1 | 4 | 1 | 128 | false
3 | 1 | 4 | 1 | 0 | false
3 | 1 | 4 | 1 | 65 | false
3 | 1 | 4 | 1 | 192 | false
3 | 1 | 4 | 1 | 255 | false
";

#[test]
fn headers_have_ranges(rt: HostRuntime) {
    for row in HEADERS.trim().lines() {
        let version = field(&rt, row, 0);
        let verifiers = field(&rt, row, 1);
        let cache = field(&rt, row, 2);
        let end = field(&rt, row, 3);
        let bits = field(&rt, row, 4);
        let want = field(&rt, row, 5);
        let header = Header {
            version: version.parse().expect(&rt, "a number"),
            verifiers: verifiers.parse().expect(&rt, "a number"),
            cache: cache.parse().expect(&rt, "a number"),
            first: LAST,
            end: end.parse().expect(&rt, "a number"),
            bits: bits.parse().expect(&rt, "a number"),
        };
        same(
            &rt,
            row,
            &header.is_in_range(),
            &want.parse::<bool>().expect(&rt, "a number"),
        );
    }
}

#[test]
fn stamps_lie_by_epoch_then_counter(rt: HostRuntime) {
    let in_order = [
        stamp(0, 0),
        stamp(0, LAST),
        stamp(1, 0),
        stamp(1, 1),
        stamp(LAST, 0),
    ];
    for (i, s) in in_order.iter().enumerate() {
        for (j, t) in in_order.iter().enumerate() {
            same(&rt, "s.cmp(t)", &s.cmp(t), &i.cmp(&j));
        }
    }
}
