//! Objects that fail, one call after the other, in a run of several rounds and in a load: what stands then in the sink and in
//! the vault.
use crate::serving::{
    Objects, assert_ended, assert_front, assert_written, cases_in, host_line, joined, one, program,
    same, served,
};
use bundle_rows::Case;
use fastver_top::Status;
use std::alloc::Global;
use std::process::Abort;
use std::sync::Wait;
use std::thread::Threads;

// Each case is a script of three epochs behind the words of its run, with its status and report, as the slow program has it.
// The second close certifies epoch 0, and the last one the epochs 1 and 2. No shard is used by two workers in one phase.
const RUNS: &str = "\
== 1 --shards 2
0 put 5 6162
0 get 5
epoch
0 get 5
epoch
0 put 7 01
-> 0
epoch 0 certified 2
0.3 v0 put 5 6162
0.5 v0 get 5 6162
epoch 1 certified 1
1.5 v0 get 5 6162
epoch 2 certified 1
2.5 v0 put 7 01
done 3
== 1 --shards 2 --receipts
0 put 5 6162
0 get 5
epoch
0 get 5
epoch
0 put 7 01
-> 0
epoch 0 certified 2
0.3 v0 put 5 6162
receipt 0100000000000000030000000000000000000607000000000000000501026162ac51fb70250d0b223d2e4761dd97884b0acded9052db66085942bb4b765bd2c6
0.5 v0 get 5 6162
receipt 0100000000000000050000000000000000000b060000000000000005010261620d0f6f122c00f935c49264f74d5ef9de0477d9a78840a0da73bf339770c62efa
certificate 020000000000000000d9f6d832690ffe03b32ea0ea7d73a6896c7900651a4f0ee61aa7a1392b0e6348
epoch 1 certified 1
1.5 v0 get 5 6162
receipt 010000000100000005000000000000000000150600000000000000050102616258e1134893c0ebb0e9406724f080f6bba4860ed4135ef051be8791e86da87a5c
certificate 020000000000000001abc75544db9d545ef7a210973b84dddf2776d0c086c421a2128f921e458375ae
epoch 2 certified 1
2.5 v0 put 7 01
receipt 010000000200000005000000000000000000200700000000000000070101013c55fc8eb527985310c97caf94e64a9b343a940165390d19b9251c7709d5a2ba
certificate 020000000000000002225965f580e4906ae51ecdcd539a2ca802be61d3cd1f9e1a2c64c3307f6080ce
done 3
== 2 --shards 2 --hot 1
0 put 5 61
1 put 9223372036854775808 62
1 get 9223372036854775808
epoch
1 get 5
epoch
0 get 5
1 del 9223372036854775808
-> 0
epoch 0 certified 3
0.3 v0 put 5 61
0.3 v1 put 9223372036854775808 62
0.5 v1 get 9223372036854775808 62
epoch 1 certified 1
1.4 v1 get 5 61
epoch 2 certified 2
2.4 v1 put 9223372036854775808 none
2.5 v0 get 5 61
done 3
";

// Of a run: how many bytes the vault has behind the second close, and how many the lines have that are written then; and how
// many bytes the vault has at the end.
#[derive(Clone, Copy)]
struct Marks {
    second: usize,
    lines: usize,
    whole: usize,
}

// Those of these runs, as the slow program has them.
const MARKS: [Marks; 3] = [
    Marks {
        second: 749,
        lines: 56,
        whole: 1057,
    },
    Marks {
        second: 749,
        lines: 425,
        whole: 1057,
    },
    Marks {
        second: 1038,
        lines: 104,
        whole: 1503,
    },
];

// The first bytes of a text are held, so many of them, and nothing else.
fn assert_first(rt: &impl Abort, label: &str, held: &[u8], text: &[u8], count: usize) {
    same(rt, label, count, &held.len(), &count);
    assert_front(rt, label, held, text);
}

// A run, and what is there behind it where no object fails.
#[derive(Drop)]
struct Whole<'a> {
    case: Case<'a>,
    marks: Marks,
    line: String,
    all: Objects,
}

// What is there behind a case's run where no object fails: its report, and a vault of so many bytes.
fn unfailing<'a, R: Threads + Wait + Sync + Abort>(
    rt: &R,
    alloc: Global,
    case: &Case<'a>,
    marks: Marks,
) -> Whole<'a> {
    let line = host_line(rt, alloc, case.label);
    let (all, status) = served(rt, alloc, &line, case.rows, 1);
    let report = case.report.as_bytes();
    assert_written(rt, &line, 0, &all, &status, report, case.status);
    same(rt, &line, 0, &all.vault.bytes().len(), &marks.whole);
    Whole {
        case: *case,
        marks,
        line,
        all,
    }
}

// The runs, each with what is there behind it where no object fails.
fn unfailing_runs<R: Threads + Wait + Sync + Abort>(rt: &R, alloc: Global) -> Vec<Whole<'static>> {
    let mut runs = Vec::new(alloc);
    for (case, marks) in cases_in(rt, alloc, RUNS, 3).iter().zip(MARKS) {
        runs.push(unfailing(rt, alloc, case, marks))
            .expect(rt, "memory");
    }
    runs
}

// What is there behind the run where calls of these numbers fail, and its status.
fn failing<R: Threads + Wait + Sync + Abort>(
    rt: &R,
    alloc: Global,
    run: &Whole<'_>,
    fails: (&[u64], &[u64], &[u64]),
) -> (Objects, Status) {
    program(rt, alloc, &run.line, run.case.rows.as_bytes(), 1, fails)
}

// The sink and the vault hold so many of the bytes that they hold where no object fails.
fn assert_fronts(rt: &impl Abort, run: &Whole<'_>, objects: &Objects, written: usize, kept: usize) {
    let all = &run.all;
    assert_first(rt, &run.line, objects.out.bytes(), all.out.bytes(), written);
    assert_first(
        rt,
        &run.line,
        objects.vault.bytes(),
        all.vault.bytes(),
        kept,
    );
}

// Where the vault's write of the byte of this number fails, those before it stand, and the lines of the rounds before.
fn assert_vault_fails<R: Threads + Wait + Sync + Abort>(
    rt: &R,
    alloc: Global,
    run: &Whole<'_>,
    k: usize,
) {
    let (objects, status) = failing(rt, alloc, run, (&[], &[], &one(k)));
    assert_ended(rt, &run.line, k, &status, &Status::VaultFault);
    let marks = run.marks;
    let lines = if k < marks.second { 0 } else { marks.lines };
    assert_fronts(rt, run, &objects, lines, k);
}

#[test]
fn where_the_vault_fails_the_lines_of_the_rounds_before_stand(rt: HostRuntime) {
    for run in &unfailing_runs(&rt, rt.alloc()) {
        for k in 0..run.marks.whole {
            assert_vault_fails(&rt, rt.alloc(), run, k);
        }
    }
}

// Where the write of the byte of this number fails, those before it stand, and the vault has the rounds up to it.
fn assert_write_fails<R: Threads + Wait + Sync + Abort>(
    rt: &R,
    alloc: Global,
    run: &Whole<'_>,
    k: usize,
) {
    let (objects, status) = failing(rt, alloc, run, (&[], &one(k), &[]));
    assert_ended(rt, &run.line, k, &status, &Status::WriteFault);
    let Marks {
        second,
        lines,
        whole,
    } = run.marks;
    let kept = if k < lines { second } else { whole };
    assert_fronts(rt, run, &objects, k, kept);
}

#[test]
fn where_a_write_fails_the_vault_has_the_rounds_up_to_it(rt: HostRuntime) {
    for run in &unfailing_runs(&rt, rt.alloc()) {
        for k in 0..run.case.report.len() {
            assert_write_fails(&rt, rt.alloc(), run, k);
        }
    }
}

// Where the read of this number fails, no round is begun.
fn assert_read_fails<R: Threads + Wait + Sync + Abort>(
    rt: &R,
    alloc: Global,
    case: &Case<'_>,
    k: usize,
) {
    let line = host_line(rt, alloc, case.label);
    let fails: (&[u64], &[u64], &[u64]) = (&one(k), &[], &[]);
    let (objects, status) = program(rt, alloc, &line, case.rows.as_bytes(), 1, fails);
    assert_ended(rt, &line, k, &status, &Status::ReadFault);
    objects.assert_hold(rt, k, &[], &[], None);
}

#[test]
fn where_a_read_fails_no_round_is_begun(rt: HostRuntime) {
    for case in &cases_in(&rt, rt.alloc(), RUNS, 3) {
        for k in 0..case.rows.len() + 1 {
            assert_read_fails(&rt, rt.alloc(), case, k);
        }
    }
}

// A load of two epochs, with its summary, which is written at the end alone. Its vault has 659 bytes.
const LOAD: &str = "\
fastver gen --key 00000000000000000000000000000000 --seed 0 --ops 2 --verifiers 2 --shards 2 --every 1";

const SUMMARY: &str = "\
gen seed 0 ops 2
epochs 2
worker 0 gets 1 none 1 puts 0 dels 0
worker 1 gets 1 none 1 puts 0 dels 0
";

// Where calls of these numbers fail, a load ends so, and the sink and the vault hold this.
fn assert_load<R: Threads + Wait + Sync + Abort>(
    rt: &R,
    alloc: Global,
    line: &str,
    fails: (&[u64], &[u64], &[u64]),
    held: (&[u8], &[u8]),
    status: &Status,
) {
    let (objects, found) = program(rt, alloc, line, b"", 1, fails);
    let (out, vault) = held;
    assert_ended(rt, line, vault.len(), &found, status);
    objects.assert_hold(rt, out.len(), out, vault, None);
}

// What is there behind the load where no object fails.
fn whole_load<R: Threads + Wait + Sync + Abort>(rt: &R, alloc: Global) -> Objects {
    let (all, status) = served(rt, alloc, LOAD, "", 1);
    assert_ended(rt, "load", 0, &status, &Status::Done { epochs: 2 });
    all.assert_hold(rt, 0, SUMMARY.as_bytes(), all.vault.bytes(), None);
    same(rt, "bytes", 0, &all.vault.bytes().len(), &659);
    all
}

// Where the vault can't be named, a load has neither summary nor bundle.
fn assert_unnamed<R: Threads + Wait + Sync + Abort>(rt: &R, alloc: Global) {
    let named = joined(rt, alloc, LOAD, " --logs x");
    let fails: (&[u64], &[u64], &[u64]) = (&[], &[], &[0]);
    assert_load(rt, alloc, &named, fails, (&[], &[]), &Status::VaultFault);
}

// Where the vault's write of the byte behind each front of the bundle fails, the front stands.
fn assert_bundle_fronts<R: Threads + Wait + Sync + Abort>(rt: &R, alloc: Global, bundle: &[u8]) {
    for k in 0..bundle.len() {
        let held: (&[u8], &[u8]) = (&[], &bundle[..k]);
        let fails: (&[u64], &[u64], &[u64]) = (&[], &[], &one(k));
        assert_load(rt, alloc, LOAD, fails, held, &Status::VaultFault);
    }
}

// Where the write of the byte behind each front of the summary fails, the front stands beside the bundle.
fn assert_summary_fronts<R: Threads + Wait + Sync + Abort>(
    rt: &R,
    alloc: Global,
    summary: &[u8],
    bundle: &[u8],
) {
    for k in 0..summary.len() {
        let fails: (&[u64], &[u64], &[u64]) = (&[], &one(k), &[]);
        let held = (&summary[..k], bundle);
        assert_load(rt, alloc, LOAD, fails, held, &Status::WriteFault);
    }
}

#[test]
fn where_an_object_of_a_load_fails_a_front_stands(rt: HostRuntime) {
    let all = whole_load(&rt, rt.alloc());
    let bundle = all.vault.bytes();
    assert_bundle_fronts(&rt, rt.alloc(), bundle);
    assert_summary_fronts(&rt, rt.alloc(), SUMMARY.as_bytes(), bundle);
    assert_unnamed(&rt, rt.alloc());
}
