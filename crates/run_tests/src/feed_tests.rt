//! Verifiers that are fed while their workers serve.
use crate::counting_gate::CountingGate;
use crate::holding_gate::FeedingGate;
use crate::serving::{
    apart, assert_all_answered, assert_ended, contending, host_line, program_at, same,
};
use fastver_top::Status;
use std::alloc::Global;
use std::process::Abort;
use std::sync::Wait;
use std::thread::Threads;

// So many gets of one key.
fn add_gets(rt: &impl Abort, script: &mut String, count: u16) {
    for _ in 0..count {
        script.push_str("0 get 5\n").expect(rt, "memory");
    }
}

// The line of a get of this epoch, with this counter.
fn line_at(rt: &impl Abort, alloc: Global, epoch: u8, counter: u32) -> String {
    format!(in alloc; "{epoch}.{counter} v0 get 5 none\n").expect(rt, "memory")
}

// The lines of an epoch with so many gets: each takes a counter for its add and one for its evict, from this one on.
fn add_epoch(
    rt: &impl Abort,
    alloc: Global,
    report: &mut String,
    epoch: u8,
    count: u16,
    first: u32,
) {
    let front = format!(in alloc; "epoch {epoch} certified {count}\n").expect(rt, "memory");
    report.push_str(&front).expect(rt, "memory");
    for number in 0..count {
        let line = line_at(
            rt,
            alloc,
            epoch,
            first.saturating_add(2 * u32::from(number)),
        );
        report.push_str(&line).expect(rt, "memory");
    }
}

// One phase of 64 gets.
fn one_phase(rt: &impl Abort, alloc: Global) -> String {
    let mut script = String::new(alloc);
    add_gets(rt, &mut script, 64);
    script
}

// Its report: the setup takes counters 1 and 2.
fn report_of_one(rt: &impl Abort, alloc: Global) -> String {
    let mut report = String::new(alloc);
    add_epoch(rt, alloc, &mut report, 0, 64, 3);
    report.push_str("done 1\n").expect(rt, "memory");
    report
}

// Two phases of 48 gets.
fn two_phases(rt: &impl Abort, alloc: Global) -> String {
    let mut script = String::new(alloc);
    add_gets(rt, &mut script, 48);
    script.push_str("epoch\n").expect(rt, "memory");
    add_gets(rt, &mut script, 48);
    script
}

// Their report: in the second epoch the two shards that move take counters 1 to 4.
fn report_of_two(rt: &impl Abort, alloc: Global) -> String {
    let mut report = String::new(alloc);
    add_epoch(rt, alloc, &mut report, 0, 48, 3);
    add_epoch(rt, alloc, &mut report, 1, 48, 5);
    report.push_str("done 2\n").expect(rt, "memory");
    report
}

// The verifier is held until the worker is at request 40, and the worker there until the verifier took a parcel and fed it:
// whoever feeds verifiers behind their workers alone fails, or sends nothing before the worker ends.
#[test]
fn a_verifier_is_fed_while_its_worker_serves(rt: HostRuntime) {
    let alloc = rt.alloc();
    let line = host_line(&rt, alloc, "1 --shards 2");
    let script = one_phase(&rt, alloc);
    let report = report_of_one(&rt, alloc);
    let gate = FeedingGate::new();
    let none: (&[u64], &[u64], &[u64]) = (&[], &[], &[]);
    let (objects, status) = program_at(&rt, alloc, &line, script.as_bytes(), 1000, none, &gate);
    same(&rt, "held", 0, &gate.has_held(), &true);
    assert_ended(&rt, "run", 0, &status, &Status::Done { epochs: 1 });
    objects.assert_wrote(&rt, "run", 0, report.as_bytes());
}

// Whoever counts polls, or counts anew in the second phase, fails.
#[test]
fn a_verifier_goes_on_with_its_count_in_the_next_phase(rt: HostRuntime) {
    let alloc = rt.alloc();
    let line = host_line(&rt, alloc, "1 --shards 2");
    let script = two_phases(&rt, alloc);
    let report = report_of_two(&rt, alloc);
    let gate = CountingGate::new();
    let none: (&[u64], &[u64], &[u64]) = (&[], &[], &[]);
    let (objects, status) = program_at(&rt, alloc, &line, script.as_bytes(), 1000, none, &gate);
    same(&rt, "held", 0, &gate.has_held(), &true);
    same(&rt, "right", 0, &gate.is_right(), &true);
    assert_ended(&rt, "run", 0, &status, &Status::Done { epochs: 2 });
    objects.assert_wrote(&rt, "run", 0, report.as_bytes());
}

// A script of 256 requests of 64 workers in two phases, served fifty times: each time all is certified, and a check of the vault
// writes the same lines.
fn assert_served_fifty_times<R: Threads + Wait + Sync + Abort>(
    rt: &R,
    alloc: Global,
    words: &str,
    script: &str,
) {
    let line = host_line(rt, alloc, words);
    for turn in 0..50 {
        assert_all_answered(rt, alloc, &line, script, 256, turn);
    }
}

#[test]
fn all_of_64_workers_and_verifiers_meet_at_one_key(rt: HostRuntime) {
    let script = contending(&rt, rt.alloc(), 64, &[5], 2, 2);
    assert_served_fifty_times(&rt, rt.alloc(), "64 --shards 2", &script);
}

#[test]
fn all_of_64_workers_and_verifiers_are_apart(rt: HostRuntime) {
    let script = apart(&rt, rt.alloc(), 2);
    assert_served_fifty_times(&rt, rt.alloc(), "64 --shards 64", &script);
}
