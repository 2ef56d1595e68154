//! An audit of a bundle: what there is to exhibit, and how its report ends.
ghost use Rattle.std.specs.Prelude.{◌≡◌, ◌≢◌, ◌⊎◌, ◌≤◌, ◌^◌, ◌++◌, ℕ, List, map, IfOk, IfSome, OnOk, OnErr, Ok, Err};
ghost use Rattle.fv_outside.specs.Failures.{FailsByWriting};
ghost use Rattle.fv_outside.specs.Faults.{Counts, Rose};
ghost use Rattle.fv_outside.specs.Written.{Grows, GrowsByFront};
ghost use Rattle.report_text.specs.Ending.{status_of};
ghost use Rattle.bundle_frames.specs.Extent.{reading_end};
ghost use Rattle.fv_outside.specs.Consumed.{TookAtMost};
ghost use Rattle.report_text.specs.Answer.{IsEnd, AnswersTo};
ghost use Rattle.report_text.specs.Exhibit.{exhibit_text};
ghost use Rattle.report_text.specs.Status.{last_line};
ghost use Rattle.record_hash.specs.Functions.{DigestFunctions};
ghost use Rattle.collision_exhibit.specs.Audited.{AreAudited, audited_courses};
ghost use Rattle.check_core.specs.Intake.{logs_in, logged};
ghost use Rattle.bundle_report.specs.Answer.{certified_at, EndsAs};
ghost use Rattle.bundle_report.specs.Headline.{exhibit_at};
ghost use Rattle.fastver_top.specs.Auditing.{audit_end, audit_end_status, audit_of, audit_answer_by, audit_answer, ExhibitCollides, IsAuditStatus};

use crate::audit_end::AuditEnd;
use base_words::Memory;
use check_core::{Conclusion, Intake, conclude, read_bundle};
use collision_exhibit::{AuditEvent, exhibit_of_runs};
use fv_outside::{Failed, Failure, Sink, Source};
use lamport_clocks::Header;
use merkle_records::digests_have_32_bytes;
use record_hash::Digests;
use record_text::Exhibit;
use report_text::{Status, write_exhibit, write_last};
use std::alloc::Global;
use verifier_run::Run;

/// Reads a bundle of no more than so many bytes, and writes what an audit of it shows: the exhibit over its
/// certified epochs, and the last line of its report. Each log is run once.
pub fn audit_text<D: Digests + Sync, S: Source, O: Sink>(
    alloc: Global,
    d: &D,
    limit: u64,
    source: &mut S,
    out: &mut O,
) -> Status
    requires limit { limit ≤ 2 ^ 40 }
    ensures outcomes { IsAuditStatus result }

    // What is written, the status, what was taken of the source, and the faults.
    ensures answers { AnswersTo (audit_answer (D.functions d.now)) reading_end limit result
        (record { left = S.left source.old; left_after = S.left source.new; faults = S.faults source.old; faults_after = S.faults source.new })
        (record { held = O.held out.old; held_after = O.held out.new; faults = O.faults out.old; faults_after = O.faults out.new }) }

    // Nothing is written before all is read: where there is no answer the sink is as before, if it didn't fail. And no more
    // than the limit is taken, but where the answer is that the input is longer.
    ensures unwritten { (IsEnd result → ⊥) → result ≢ Status.WriteFault → out.new ≡ out.old }
    ensures within { result ≢ Status.InputLimit limit → TookAtMost limit (S.left source.old) (S.left source.new) }

    // What it exhibits is a real collision.
    ensures collides { result ≡ Status.Exhibit → IfSome (S.left source.old) (ExhibitCollides (D.functions d.now)) }
{
    digests_have_32_bytes(d);
    match read_bundle(alloc, limit, source) {
        Ok(intake) => match audit_intake(alloc, d, &intake, out) {
            Ok(end) => end.status(),
            Err(failure) => Status::of_failure(failure, limit),
        },
        Err(failure) => Status::of_failure(failure, limit),
    }
}

// Audits what was read, and writes what that shows.
fn audit_intake<D: Digests, O: Sink>(
    alloc: Global,
    d: &D,
    intake: &Intake,
    out: &mut O,
) -> Result<AuditEnd, Failure>
    ensures ends { EndsAs audit_end_status result (O.held out.old) (O.held out.new) (audit_answer_by (D.functions d.now) (logged intake.now)) }
    ensures shown { result ≡ Ok AuditEnd.Exhibit
        → exhibit_at (D.functions d.now) intake.now.header (logs_in intake.now) ≢ Exhibit.Clean }
    ensures unwritten { result ≡ Err Failure.Memory → out.new ≡ out.old }
    ensures failure { FailsByWriting result }
    ensures write_fault { result ≡ Err Failure.WriteFault → Rose (O.faults out.old) (O.faults out.new) }
{
    let found = conclude::<AuditEvent, D>(alloc, d, intake)?;
    let exhibit = exhibit_of(alloc, intake.header, found.runs, found.conclusion.certified)?;
    written(&exhibit, &found.conclusion, out)
}

// The exhibit of a bundle with this header and these runs of its logs, where so many epochs are certified.
fn exhibit_of(
    alloc: Global,
    header: Option<Header>,
    runs: Vec<Run<AuditEvent>>,
    certified: u64,
) -> Result<Exhibit, Memory>
    requires audited { IfSome header (λ header. AreAudited (map (λ run. run.course) runs.items)) }
    ensures exhibit { (functions : DigestFunctions) (logs : List (List ℕ)) → certified ≡ certified_at functions header logs
        → IfSome header (λ header. map (λ run. run.course) runs.items ≡ audited_courses functions header logs)
        → IfOk result (λ exhibit. exhibit ≡ exhibit_at functions header logs) }
{
    match header {
        Some(header) => exhibit_of_runs(alloc, runs, header.first, certified),
        None => Ok(Exhibit::Clean),
    }
}

// Writes an audit that shows this.
fn written<O: Sink>(exhibit: &Exhibit, found: &Conclusion, out: &mut O) -> Result<AuditEnd, Failure>
    ensures so { result ≡ Ok (audit_end exhibit.now found.now.end) ⊎ result ≡ Err Failure.WriteFault }
    ensures ends { EndsAs audit_end_status result (O.held out.old) (O.held out.new)
        (audit_of exhibit.now found.now.certified (status_of found.now.end)) }
    ensures write_fault { result ≡ Err Failure.WriteFault → Rose (O.faults out.old) (O.faults out.new) }
{
    match write_audit(exhibit, found, out) {
        Ok(()) => Ok(AuditEnd::of(exhibit, found.end)),
        Err(_) => Err(Failure::WriteFault),
    }
}

// Writes the exhibit, and the last line of the report.
fn write_audit<O: Sink>(exhibit: &Exhibit, found: &Conclusion, out: &mut O) -> Result<(), Failed>
    ensures whole { OnOk result (Grows (O.held out.old) (O.held out.new)
        (exhibit_text found.now.certified exhibit.now ++ last_line (status_of found.now.end))) }
    ensures front { OnErr result (GrowsByFront (O.held out.old) (O.held out.new)
        (exhibit_text found.now.certified exhibit.now ++ last_line (status_of found.now.end))) }
    ensures counts { Counts (O.faults out.old) (O.faults out.new) result }
{
    write_exhibit(exhibit, found.certified, out)?;
    write_last(&found.end.status(), out)
}
