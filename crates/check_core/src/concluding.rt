//! What a check comes to, with nothing written.
ghost use Rattle.std.specs.Prelude.{◌≡◌, ◌≤◌, false, ℕ, Some, IfOk, length, map, vec_len};
ghost use Rattle.merkle_records.specs.Scheme.{scheme_of};
ghost use Rattle.lamport_clocks.specs.declared.header.Header.{Header};
ghost use Rattle.lamport_clocks.specs.Header.{IsHeader};
ghost use Rattle.check_core.specs.Intake.{logs_in, logged};
ghost use Rattle.report_text.specs.Ending.{status_of};
ghost use Rattle.verifier_run.specs.LogCourse.{courses_keeping};
ghost use Rattle.bundle_report.specs.Answer.{certified_at, answer_by};
ghost use Rattle.bundle_report.specs.RunReport.{parts_at};
ghost use Rattle.bundle_report.specs.Judged.{CanBeJudged, judged, end_of_runs};

use crate::intake::Intake;
use crate::judging::{first_refused, judge};
use base_words::Memory;
use certified_epochs::end_of;
use lamport_clocks::Header;
use record_hash::Digests;
use report_text::BundleEnd;
use std::alloc::Global;
use verifier_run::{Kept, Run, run_logs};

/// How many epochs of a bundle are certified, from the first on, and how its report ends.
#[derive(Clone, Copy, Debug, PartialEq, Eq)]
pub struct Conclusion {
    pub certified: u64,
    pub end: BundleEnd,
}

/// What a check of a bundle comes to, and the runs of its logs that tell it.
#[derive(Drop)]
pub struct Concluded<T: Kept> {
    pub conclusion: Conclusion,
    pub runs: Vec<Run<T>>,
}

/// What a check of a bundle that was read comes to, with the runs of its logs and what they kept. It takes no threads: the
/// logs are run one after another, each once.
pub fn conclude<T: Kept, D: Digests>(
    alloc: Global,
    d: &D,
    intake: &Intake,
) -> Result<Concluded<T>, Memory>
    ensures certified { IfOk result (λ found. found.conclusion.certified
        ≡ certified_at (D.functions d.now) intake.now.header (logs_in intake.now)) }
    ensures end { IfOk result (λ found. status_of found.conclusion.end
        ≡ (answer_by false (D.functions d.now) (logged intake.now)).status) }
    ensures runs { (header : Header) → intake.now.header ≡ Some header → IfOk result (λ found. map (λ run. run.course) found.runs.items
        ≡ courses_keeping T.keeps (scheme_of (D.functions d.now) header) header 0 (logs_in intake.now)) }
{
    match intake.header {
        Some(header) => conclude_logs(alloc, d, &header, intake),
        None => Ok(Concluded {
            conclusion: Conclusion {
                certified: 0,
                end: BundleEnd::BadBundle { offset: 0 },
            },
            runs: Vec::new(alloc),
        }),
    }
}

// What the logs under a header come to.
fn conclude_logs<T: Kept, D: Digests>(
    alloc: Global,
    d: &D,
    header: &Header,
    intake: &Intake,
) -> Result<Concluded<T>, Memory>
    requires header { IsHeader header.now }
    requires count { vec_len intake.now.logs ≡ header.now.verifiers }
    ensures certified { IfOk result (λ found.
        let courses = courses_keeping T.keeps (scheme_of (D.functions d.now) header.now) header.now 0 (logs_in intake.now) in
        found.conclusion.certified ≡ (judged (length courses) courses).count) }
    ensures end { IfOk result (λ found. found.conclusion.end
        ≡ end_of_runs (courses_keeping T.keeps (scheme_of (D.functions d.now) header.now) header.now 0 (logs_in intake.now)) intake.now.bad) }
    ensures runs { IfOk result (λ found. map (λ run. run.course) found.runs.items
        ≡ courses_keeping T.keeps (scheme_of (D.functions d.now) header.now) header.now 0 (logs_in intake.now)) }
{
    let runs = run_logs(alloc, d, header, &intake.logs)?;
    let conclusion = conclude_runs(alloc, &runs, intake.bad)?;
    Ok(Concluded { conclusion, runs })
}

// What runs of all logs come to, in a bundle in which so much is bad.
fn conclude_runs<T: Kept>(
    alloc: Global,
    runs: &[Run<T>],
    bad: Option<u64>,
) -> Result<Conclusion, Memory>
    requires few { length runs.now ≤ 64 }
    requires parts { (index : ℕ) → CanBeJudged (length runs.now) (parts_at index (map (λ run. run.course) runs.now)) }
    ensures certified { IfOk result (λ found. found.certified ≡ (judged (length runs.now) (map (λ run. run.course) runs.now)).count) }
    ensures end { IfOk result (λ found. found.end ≡ end_of_runs (map (λ run. run.course) runs.now) bad) }
{
    let judged = judge(alloc, runs)?;
    let end = end_of(&judged, first_refused(runs), bad);
    Ok(Conclusion {
        certified: judged.count as u64,
        end,
    })
}
