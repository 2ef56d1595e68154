//! Loads that are made of a seed.
use crate::holding_gate::HoldingGate;
use crate::serving::{
    assert_ended, assert_written, cases_in, holds, joined, program, program_at, same, words_of,
};
use bundle_rows::Case;
use fastver_top::{Status, fastver};
use fv_outside::{FreeGate, SureCounter, SureSink, SureSource, SureVault};
use std::alloc::Global;
use std::process::Abort;
use std::sync::Wait;
use std::thread::Threads;

// Each case is the words behind a key, with the status and the summary.
const LOADS: &str = "\
== --seed 0 --ops 1 --verifiers 1 --shards 2
-> 0
gen seed 0 ops 1
epochs 1
worker 0 gets 1 none 1 puts 0 dels 0
== --seed 0 --ops 0 --verifiers 1 --shards 2
-> 0
gen seed 0 ops 0
epochs 1
worker 0 gets 0 none 0 puts 0 dels 0
== --seed 0 --ops 1 --verifiers 2 --shards 2
-> 0
gen seed 0 ops 1
epochs 1
worker 0 gets 1 none 1 puts 0 dels 0
worker 1 gets 0 none 0 puts 0 dels 0
== --seed 0 --ops 0 --verifiers 1 --shards 2 --counter 1
-> 10
gen seed 0 ops 0
epochs 0
worker 0 gets 0 none 0 puts 0 dels 0
clock end worker 0 at 0.0
";

// The words of a load, with a key, up to those behind it.
const GEN: &str = "fastver gen --key 00000000000000000000000000000000 ";

// A load has its summary and status. The source is never read: its first read would fail.
fn assert_summed_up<R: Threads + Wait + Sync + Abort>(rt: &R, alloc: Global, case: &Case<'_>) {
    let line = joined(rt, alloc, GEN, case.label);
    let fails: (&[u64], &[u64], &[u64]) = (&[0], &[], &[]);
    let (objects, status) = program(rt, alloc, &line, b"0 get 5\n", 1000, fails);
    let report = case.report.as_bytes();
    assert_written(rt, &line, 0, &objects, &status, report, case.status);
    same(rt, &line, 0, &objects.source.faults(), &0);
}

#[test]
fn loads_are_summed_up(rt: HostRuntime) {
    for case in &cases_in(&rt, rt.alloc(), LOADS, 4) {
        assert_summed_up(&rt, rt.alloc(), case);
    }
}

// A load of two workers with four requests each: worker 0 puts, gets, deletes and puts, and worker 1 gets, puts, puts and gets,
// each time another key.
const BESIDE: &str = "--seed 2 --ops 8 --verifiers 2 --shards 2";

const BESIDE_SUMMARY: &str = "\
gen seed 2 ops 8
epochs 1
worker 0 gets 1 none 1 puts 2 dels 1
worker 1 gets 2 none 2 puts 2 dels 0
";

// Worker 0 is held at its first request until worker 1 is at its second, as in a run of a script: whoever serves a load past
// another gate fails.
#[test]
fn the_workers_of_a_load_serve_beside_each_other(rt: HostRuntime) {
    let line = joined(&rt, rt.alloc(), GEN, BESIDE);
    let gate = HoldingGate::new();
    let none: (&[u64], &[u64], &[u64]) = (&[], &[], &[]);
    let (objects, status) = program_at(&rt, rt.alloc(), &line, b"", 1000, none, &gate);
    same(&rt, "held", 0, &gate.has_held(), &true);
    same(&rt, "numbers", 0, &gate.passed(), &0b1111);
    assert_ended(&rt, "load", 0, &status, &Status::Done { epochs: 1 });
    objects.assert_wrote(&rt, "load", 0, BESIDE_SUMMARY.as_bytes());
}

// The words of a load of 20,000 requests, behind a key.
const LARGE: &str = "--seed 7 --ops 20000 --verifiers 4 --shards 16 --every 3000 --hot 4";

// What it writes, where no object can fail.
fn large_load<R: Threads + Wait + Sync + Abort>(rt: &R, alloc: Global) -> SureSink {
    let line = joined(rt, alloc, GEN, LARGE);
    let words = words_of(rt, alloc, &line);
    let mut source = SureSource::new(alloc, b"", 1).expect(rt, "memory");
    let mut out = SureSink::new(alloc, 1000, 1000).expect(rt, "memory");
    let mut vault = SureVault::new(alloc, 0, 100_000).expect(rt, "memory");
    let mut counter = SureCounter::new(5);
    let status = fastver(
        rt,
        alloc,
        &words,
        &mut source,
        &mut out,
        &mut vault,
        &FreeGate,
        &mut counter,
    );
    assert_ended(rt, "load", 0, &status, &Status::Done { epochs: 7 });
    out
}

// No key is used by two workers, so the summary is the same at each run.
#[test]
fn a_large_load_is_summed_up_the_same_twice(rt: HostRuntime) {
    let first = large_load(&rt, rt.alloc());
    let second = large_load(&rt, rt.alloc());
    let text = first.bytes().expect(&rt, "a sink that tells no bytes");
    let front = b"gen seed 7 ops 20000\nepochs 7\nworker 0 gets ";
    holds(&rt, "load", 0, text.starts_with(front));
    same(&rt, "load", 1, &second.bytes(), &Some(text));
}
