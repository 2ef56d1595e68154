//! The logs of a close's round, fed to the runs side by side, and the verdicts on what these seal, which are those of books.
ghost use Rattle.std.specs.Prelude.{◌≡◌, ◌+◌, ◌≤◌, ◌<◌, ◌^◌, ℕ, length, map, get_or, IfOk};
ghost use Rattle.std.specs.List.{AllByRecursion};
ghost use Rattle.verifier_run.specs.Progress.{weight};
ghost use Rattle.bundle_report.specs.declared.judged.Judged.{Judged};
ghost use Rattle.certified_epochs.specs.declared.fed_run.FedRun.{FedRun};
ghost use Rattle.certified_epochs.specs.Turn.{AreVerdictsOn};
ghost use Rattle.host_rounds.specs.Feeding.{AllRead};
ghost use Rattle.host_rounds.specs.Sealing.{CanTake, HaveAllTaken, SealsOwn};

use crate::books::{open_books, settle_all};
use crate::counting::bytes_with;
use crate::sealers::seal_all;
use crate::with_passes::{apart, with_no_passes};
use base_words::Memory;
use certified_epochs::FedRun;
use epoch_gather::Verdict;
use host_log::LogBuffer;
use record_hash::Digests;
use std::alloc::Global;
use std::thread::Threads;

/// Feeds each run the log of its verifier, in a thread of its own where one can be made, and counts the bytes. There the verifier
/// hands in what its run has sealed of so many epochs, from the next one on. The answer has the verdicts on these.
pub(crate) fn seal_round<R: Threads + Sync, D: Digests + Sync>(
    rt: &R,
    alloc: Global,
    d: &D,
    logs: &[LogBuffer],
    count: usize,
    runs: Vec<FedRun>,
    bytes: &mut u64,
) -> Result<(Vec<FedRun>, Vec<Verdict>), Memory>
    requires each { length logs.now ≡ length runs.items }
    requires some { (1 ≤ length runs.items) × (length runs.items ≤ 64) }
    requires few { AllByRecursion (λ fed. weight fed.run ≤ bytes.old) runs.items }
    requires parts { (number : ℕ) (default : FedRun) → number < length runs.items
        → SealsOwn (D.functions d.now) number logs.now (get_or runs.items number default) }
    ensures taken { IfOk result (λ left. AllRead (D.functions d.now) logs.now runs.items left.0.items) }
    ensures few { IfOk result (λ left. AllByRecursion (λ fed. weight fed.run ≤ bytes.new) left.0.items) }
    ensures count { IfOk result (λ left. length left.1.items ≡ count) }
    ensures settled { (judged : Judged) → IfOk result (λ left. AreVerdictsOn judged (map (λ fed. fed.run) left.0.items) left.1.items) }
{
    let all = bytes_with(*bytes, logs)?;
    let left = seal_epochs(rt, alloc, d, logs, count, runs)?;
    *bytes = all;
    Ok(left)
}

// The same where the bytes are counted. The memory of the books and of their passes is taken before a run takes anything.
fn seal_epochs<R: Threads + Sync, D: Digests + Sync>(
    rt: &R,
    alloc: Global,
    d: &D,
    logs: &[LogBuffer],
    count: usize,
    runs: Vec<FedRun>,
) -> Result<(Vec<FedRun>, Vec<Verdict>), Memory>
    requires some { (1 ≤ length runs.items) × (length runs.items ≤ 64) }
    requires ready { (number : ℕ) (default : FedRun) → number < length runs.items
        → CanTake (D.functions d.now) number logs.now (get_or runs.items number default) }
    ensures taken { IfOk result (λ left. HaveAllTaken (D.functions d.now) logs.now runs.items left.0.items) }
    ensures count { IfOk result (λ left. length left.1.items ≡ count) }
    ensures settled { (judged : Judged) → IfOk result (λ left. AreVerdictsOn judged (map (λ fed. fed.run) left.0.items) left.1.items) }
{
    let mut sealers = with_no_passes(alloc, runs, count)?;
    let books = open_books(alloc, count, sealers.as_mut_slice())?;
    seal_all(rt, d, logs, &books, sealers.as_mut_slice());
    let (runs, passes) = apart(alloc, sealers)?;
    let settled = settle_all(alloc, books, &runs, passes)?;
    Ok((runs, settled))
}
