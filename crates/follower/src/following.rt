//! Following a bundle: the map of what it certifies.
ghost use Rattle.std.specs.Prelude.{◌≤◌, ◌^◌};
ghost use Rattle.report_text.specs.Answer.{AnswersTo};
ghost use Rattle.bundle_frames.specs.Extent.{reading_end};
ghost use Rattle.check_core.specs.Outcomes.{IsCheckStatus};
ghost use Rattle.follower.specs.Answer.{follow_answer};

use crate::followed::Followed;
use check_core::{Status, Told, tell_bundle};
use fv_outside::{Sink, Source};
use record_hash::Digests;
use soundness::{logs_have_histories, operations_come_epoch_by_epoch};
use std::alloc::Global;
use std::thread::Threads;

/// Reads a bundle of no more than so many bytes as a check does, and writes the map that its certified operations make: the line of
/// each key that has a value, by key in rising order. The last line and the status are those of the report. It keeps a batch of the
/// bundle, what the runs keep, and an entry for each key that has a value.
pub fn follow<R: Threads + Sync, D: Digests + Sync, S: Source, O: Sink>(
    rt: &R,
    alloc: Global,
    d: &D,
    limit: u64,
    source: &mut S,
    out: &mut O,
) -> Status
    requires limit { limit ≤ 2 ^ 40 }
    ensures outcomes { IsCheckStatus result }

    // What is written, the status, what was taken of the source, and the faults.
    ensures answers { AnswersTo (follow_answer (D.functions d.now)) reading_end limit result
        (record { left = S.left source.old; left_after = S.left source.new; faults = S.faults source.old; faults_after = S.faults source.new })
        (record { held = O.held out.old; held_after = O.held out.new; faults = O.faults out.old; faults_after = O.faults out.new }) }
{
    logs_have_histories();
    operations_come_epoch_by_epoch();
    let mut followed = Followed::new(alloc);
    tell_bundle(
        rt,
        alloc,
        d,
        limit,
        source,
        &Told::Nothing,
        &mut followed,
        out,
    )
}
