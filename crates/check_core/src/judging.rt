//! Which epochs whole logs certify, and which of the logs is refused, by their runs.
ghost use Rattle.std.specs.Prelude.{◌≡◌, ◌≤◌, ◌++◌, ℕ, length, map, slice_get, Some, IfOk, OnOk};
ghost use Rattle.std.specs.Option.{option_to_list};
ghost use Rattle.bundle_report.specs.RunReport.{parts_at};
ghost use Rattle.bundle_report.specs.Judged.{judged, judged_from, refused_log, CanBeJudged};

use base_words::Memory;
use bundle_report::{Judged, RefusedLog, Uneven};
use epoch_gather::{Verdict, verdict};
use multiset_sum::{Part, Sum};
use std::alloc::{AllocError, Global};
use verifier_run::{Kept, Run};

/// Judges epoch by epoch, from the first on, up to the first that is not certified.
pub(crate) fn judge<T: Kept>(alloc: Global, runs: &[Run<T>]) -> Result<Judged, Memory>
    requires few { length runs.now ≤ 64 }
    requires parts { (index : ℕ) → CanBeJudged (length runs.now) (parts_at index (map (λ run. run.course) runs.now)) }
    ensures judged { IfOk result (λ found. found ≡ judged (length runs.now) (map (λ run. run.course) runs.now)) }
{
    match runs.first() {
        Some(first) => judge_parts(alloc, first.parts(), runs),
        None => Ok(Judged {
            count: 0,
            unbalanced: None,
        }),
    }
}

// Judges the epochs of the parts that one run has handed in.
fn judge_parts<T: Kept>(alloc: Global, parts: &[Part], runs: &[Run<T>]) -> Result<Judged, Memory>
    requires few { length runs.now ≤ 64 }
    requires parts { (index : ℕ) → CanBeJudged (length runs.now) (parts_at index (map (λ run. run.course) runs.now)) }
    ensures judged { IfOk result (λ found. found ≡ judged_from (length runs.now) 0 parts.now (map (λ run. run.course) runs.now)) }
{
    let verifiers = runs.len() as u16;
    let mut handed_in = Vec::new(alloc);
    for (count, part) in parts.iter().enumerate() {
        gather(&mut handed_in, count, runs)?;
        match verdict(&handed_in, verifiers, part.epoch) {
            Verdict::Balanced => {}
            Verdict::Unbalanced(added, evicted) => {
                return Ok(stopped(count, part.epoch, added, evicted));
            }
            Verdict::Missing(_) => {
                return Ok(Judged {
                    count,
                    unbalanced: None,
                });
            }
        }
    }
    Ok(Judged {
        count: parts.len(),
        unbalanced: None,
    })
}

// So many epochs are certified, and the next has these sums.
fn stopped(count: usize, epoch: u32, added: Sum, evicted: Sum) -> Judged
    ensures value { result ≡ record { count = count; unbalanced = Some (record { epoch = epoch; added = added; evicted = evicted }) } }
{
    Judged {
        count,
        unbalanced: Some(Uneven {
            epoch,
            added,
            evicted,
        }),
    }
}

// What was handed in of one sealed epoch, by its place from the first on, in place of what was gathered.
fn gather<T: Kept>(
    gathered: &mut Vec<Part>,
    index: usize,
    runs: &[Run<T>],
) -> Result<(), AllocError>
    ensures parts { OnOk result (gathered.new.items ≡ parts_at index (map (λ run. run.course) runs.now)) }
{
    gathered.clear();
    for run in runs {
        append_part(gathered, index, run)?;
    }
    Ok(())
}

// Appends what a run has handed in of an epoch, by its place from the first on, if it is there.
fn append_part<T: Kept>(
    gathered: &mut Vec<Part>,
    index: usize,
    run: &Run<T>,
) -> Result<(), AllocError>
    ensures items { OnOk result (gathered.new.items
        ≡ gathered.old.items ++ option_to_list (slice_get run.now.course.parts index)) }
{
    if let Some(part) = run.parts().get(index) {
        gathered.push(*part)?;
    }
    Ok(())
}

/// The first of the logs that is refused.
pub(crate) fn first_refused<T: Kept>(runs: &[Run<T>]) -> Option<RefusedLog>
    requires few { length runs.now ≤ 64 }
    ensures value { result ≡ refused_log 0 (map (λ run. run.course) runs.now) }
{
    for (number, run) in runs.iter().enumerate() {
        if let Some((index, refusal)) = run.refused() {
            return Some(RefusedLog {
                verifier: number as u16,
                index,
                refusal,
            });
        }
    }
    None
}
