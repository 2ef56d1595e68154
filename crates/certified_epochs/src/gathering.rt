//! What was handed in of an epoch, over all verifiers, and the verdict on it.
ghost use Rattle.std.specs.Prelude.{◌≡◌, ◌≤◌, ◌++◌, map, length, slice_get, IfOk, IfSome, OnOk};
ghost use Rattle.std.specs.Option.{option_to_list};
ghost use Rattle.bundle_report.specs.Judged.{CanBeJudged};
ghost use Rattle.bundle_report.specs.RunReport.{parts_at};
ghost use Rattle.certified_epochs.specs.Turn.{IsVerdictAt};

use crate::fed_run::FedRun;
use epoch_gather::{Verdict, verdict};
use multiset_sum::Part;
use std::alloc::AllocError;
use verifier_run::Run;

/// The verdict on the first epoch of those that each run has: the one that is handed in, or what the parts come to, which are
/// gathered in place of those that are there.
pub(crate) fn verdict_on(
    parts: &mut Vec<Part>,
    handed: Option<&Verdict>,
    runs: &[FedRun],
    epoch: u32,
) -> Result<Verdict, AllocError>
    requires few { length runs.now ≤ 64 }
    requires parts { CanBeJudged (length runs.now) (parts_at 0 (map (λ fed. fed.run.course) runs.now)) }
    requires handed { IfSome handed (λ verdict. IsVerdictAt (map (λ fed. fed.run) runs.now) 0 epoch verdict.now) }
    ensures verdict { IfOk result (λ verdict. IsVerdictAt (map (λ fed. fed.run) runs.now) 0 epoch verdict) }
{
    if let Some(handed) = handed {
        return Ok(*handed);
    }
    gather(parts, 0, runs)?;
    Ok(verdict(parts, runs.len() as u16, epoch))
}

// What was handed in of one sealed epoch, by its place among those that each run has, in place of what was gathered.
fn gather(gathered: &mut Vec<Part>, index: usize, runs: &[FedRun]) -> Result<(), AllocError>
    ensures parts { OnOk result (gathered.new.items ≡ parts_at index (map (λ fed. fed.run.course) runs.now)) }
{
    gathered.clear();
    for fed in runs {
        append_part(gathered, index, &fed.run)?;
    }
    Ok(())
}

// Appends what a run has handed in of an epoch, by its place among those that it has, if it is there.
fn append_part(gathered: &mut Vec<Part>, index: usize, run: &Run) -> Result<(), AllocError>
    ensures items { OnOk result (gathered.new.items
        ≡ gathered.old.items ++ option_to_list (slice_get run.now.course.parts index)) }
{
    if let Some(part) = run.parts().get(index) {
        gathered.push(*part)?;
    }
    Ok(())
}
