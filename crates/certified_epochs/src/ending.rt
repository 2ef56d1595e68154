//! How a report ends, by what its runs have come to.
ghost use Rattle.std.specs.Prelude.{◌≡◌, ◌≤◌, map, length};
ghost use Rattle.bundle_report.specs.Judged.{refused_log, end_by};

use crate::fed_run::FedRun;
use bundle_report::{Judged, RefusedLog};
use report_text::BundleEnd;

/// The first of the logs that is refused.
pub(crate) fn first_refused(runs: &[FedRun]) -> Option<RefusedLog>
    requires few { length runs.now ≤ 64 }
    ensures value { result ≡ refused_log 0 (map (λ fed. fed.run.course) runs.now) }
{
    for (number, fed) in runs.iter().enumerate() {
        if let Some((index, refusal)) = fed.run.refused() {
            return Some(RefusedLog {
                verifier: number as u16,
                index,
                refusal,
            });
        }
    }
    None
}

/// How a report ends: an epoch whose sums differ goes before a refused log, and that before what is bad.
pub fn end_of(judged: &Judged, refused: Option<RefusedLog>, bad: Option<u64>) -> BundleEnd
    ensures value { result ≡ end_by judged.now.count judged.now.unbalanced refused bad }
{
    match (judged.unbalanced, refused, bad) {
        (Some(uneven), _, _) => BundleEnd::Unbalanced {
            epoch: uneven.epoch,
            added: uneven.added,
            evicted: uneven.evicted,
        },
        (None, Some(log), _) => BundleEnd::Refused {
            verifier: log.verifier,
            index: log.index,
            refusal: log.refusal,
        },
        (None, None, Some(offset)) => BundleEnd::BadBundle { offset },
        (None, None, None) => BundleEnd::Done {
            epochs: judged.count as u64,
        },
    }
}
