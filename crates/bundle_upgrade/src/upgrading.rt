//! Upgrading a bundle: what is read, and the same in version 3 of the format.
ghost use Rattle.std.specs.Prelude.{◌≡◌, ◌≢◌, ◌≤◌, ◌^◌, ◌++◌, false, ℕ, Option, Some, length, map, vec_len, IfSome, OnOk, OnErr, Ok, Err};
ghost use Rattle.fv_outside.specs.Consumed.{TookAtMost};
ghost use Rattle.fv_outside.specs.Failures.{FailsByWriting};
ghost use Rattle.fv_outside.specs.Faults.{Counts, Rose};
ghost use Rattle.fv_outside.specs.Written.{Grows, GrowsByFront};
ghost use Rattle.lamport_clocks.specs.Header.{IsHeader};
ghost use Rattle.report_text.specs.Answer.{AnswersTo};
ghost use Rattle.report_text.specs.Ending.{status_of};
ghost use Rattle.report_text.specs.Kinds.{IsOneOf};
ghost use Rattle.report_text.specs.Status.{status_number};
ghost use Rattle.record_hash.specs.Functions.{DigestFunctions};
ghost use Rattle.bundle_frames.specs.Bundle.{header_text};
ghost use Rattle.bundle_frames.specs.Extent.{reading_end};
ghost use Rattle.bundle_report.specs.Answer.{answer_at, EndsAs};
ghost use Rattle.host_rounds.specs.Round.{round_text};
ghost use Rattle.check_core.specs.Intake.{logged};
ghost use Rattle.check_core.specs.Outcomes.{IsCheckStatus};
ghost use Rattle.bundle_upgrade.specs.Answer.{upgrade_answer, upgrade_by, upgrade_of, KeepsReport, KeepsReportBy, IsDone, unwritten_kinds};
ghost use Rattle.bundle_upgrade.specs.Upgraded.{upgraded_text};

use crate::nothing_kept::NothingKept;
use crate::rewriting::{upgrade_logs, upgraded_header};
use base_words::a_number_of_32_bits_is_below;
use bundle_frames::write_header;
use check_core::{Intake, Status, conclude, read_bundle};
use fv_outside::{Failed, Failure, Sink, Source};
use host_log::frames;
use host_rounds::rounds_make_a_bundle;
use lamport_clocks::Header;
use record_hash::Digests;
use report_text::BundleEnd;
use std::alloc::Global;

/// Reads a bundle of no more than so many bytes, of any version, and writes it in version 3 where its report ends with
/// `done`: the header, and then each verifier's log in order, by slots, in frames of 65,536 bytes and a last one of what is
/// left. Else it writes nothing, and it answers the status of that report in any case. It keeps the whole logs, and one of
/// them twice while it is rewritten.
pub fn upgrade<D: Digests, S: Source, O: Sink>(
    alloc: Global,
    d: &D,
    limit: u64,
    source: &mut S,
    out: &mut O,
) -> Status
    requires limit { limit ≤ 2 ^ 40 }
    ensures outcomes { IsCheckStatus result }

    // What is written, the status, what was taken of the source, and the faults.
    ensures answers { AnswersTo (upgrade_answer (D.functions d.now)) reading_end limit result
        (record { left = S.left source.old; left_after = S.left source.new; faults = S.faults source.old; faults_after = S.faults source.new })
        (record { held = O.held out.old; held_after = O.held out.new; faults = O.faults out.old; faults_after = O.faults out.new }) }

    // Nothing is written before all is read and rewritten: but with `done` and a fault of the sink it is as before. And no more
    // than the limit is taken, but where the answer is that the input is longer.
    ensures unwritten { IsOneOf unwritten_kinds result → out.new ≡ out.old }
    ensures within { result ≢ Status.InputLimit limit → TookAtMost limit (S.left source.old) (S.left source.new) }

    // What is written has the report of what was read, with receipts and without.
    ensures report { IsDone result → IfSome (S.left source.old) (KeepsReport (D.functions d.now)) }
{
    match read_bundle(alloc, limit, source) {
        Ok(intake) => match upgrade_intake(alloc, d, intake, out) {
            Ok(end) => end.status(),
            Err(failure) => Status::of_failure(failure, limit),
        },
        Err(failure) => Status::of_failure(failure, limit),
    }
}

// Upgrades what was read, where its report ends with `done`, and answers how it ends.
fn upgrade_intake<D: Digests, O: Sink>(
    alloc: Global,
    d: &D,
    intake: Intake,
    out: &mut O,
) -> Result<BundleEnd, Failure>
    ensures ends { EndsAs status_of result (O.held out.old) (O.held out.new) (upgrade_by (D.functions d.now) (logged intake)) }
    ensures report { (end : BundleEnd) → result ≡ Ok end → IsDone (status_of end) → KeepsReportBy (D.functions d.now) (logged intake) }
    ensures unwritten { result ≡ Err Failure.Memory → out.new ≡ out.old }
    ensures unfinished { (end : BundleEnd) → result ≡ Ok end → IsOneOf unwritten_kinds (status_of end) → out.new ≡ out.old }
    ensures failure { FailsByWriting result }
    ensures write_fault { result ≡ Err Failure.WriteFault → Rose (O.faults out.old) (O.faults out.new) }
{
    let end = conclude::<NothingKept, D>(alloc, d, &intake)?
        .conclusion
        .end;
    match intake.header {
        Some(header) => upgrade_where_done(alloc, &header, intake.logs, end, out),
        None => Ok(end),
    }
}

// Writes the bundle with this header and these logs in version 3, where its report ends with `done`.
fn upgrade_where_done<O: Sink>(
    alloc: Global,
    header: &Header,
    logs: Vec<Vec<u8>>,
    end: BundleEnd,
    out: &mut O,
) -> Result<BundleEnd, Failure>
    requires header { IsHeader header.now }
    requires count { vec_len logs ≡ header.now.verifiers }
    ensures ends { EndsAs status_of result (O.held out.old) (O.held out.new)
        (upgrade_of (status_of end) (upgraded_text (Some header.now) (map (λ log. log.items) logs.items))) }
    ensures report { OnOk result ((functions : DigestFunctions) (bad : Option ℕ)
        → status_of end ≡ (answer_at false functions (Some header.now) (map (λ log. log.items) logs.items) bad).status → IsDone (status_of end)
        → KeepsReportBy functions (record { header = Some header.now; logs = map (λ log. log.items) logs.items; bad = bad })) }
    ensures unwritten { result ≡ Err Failure.Memory → out.new ≡ out.old }
    ensures unfinished { IsOneOf unwritten_kinds (status_of end) → out.new ≡ out.old }
    ensures failure { FailsByWriting result }
    ensures write_fault { result ≡ Err Failure.WriteFault → Rose (O.faults out.old) (O.faults out.new) }
{
    match end {
        BundleEnd::Done { .. } => {
            upgrade_read(alloc, header, logs, out)?;
            Ok(end)
        }
        BundleEnd::BadBundle { .. } => Ok(end),
        BundleEnd::Refused { .. } => Ok(end),
        BundleEnd::Unbalanced { .. } => Ok(end),
    }
}

// Writes the bundle with this header and these logs in version 3.
fn upgrade_read<O: Sink>(
    alloc: Global,
    header: &Header,
    mut logs: Vec<Vec<u8>>,
    out: &mut O,
) -> Result<(), Failure>
    requires header { IsHeader header.now }
    requires count { vec_len logs ≡ header.now.verifiers }
    ensures whole { OnOk result (Grows (O.held out.old) (O.held out.new) (upgraded_text (Some header.now) (map (λ log. log.items) logs.items))) }
    ensures front { result ≡ Err Failure.WriteFault
        → GrowsByFront (O.held out.old) (O.held out.new) (upgraded_text (Some header.now) (map (λ log. log.items) logs.items)) }
    ensures report { OnOk result ((functions : DigestFunctions) (bad : Option ℕ)
        → status_number (answer_at false functions (Some header.now) (map (λ log. log.items) logs.items) bad).status ≡ 0
        → KeepsReportBy functions (record { header = Some header.now; logs = map (λ log. log.items) logs.items; bad = bad })) }
    ensures unwritten { result ≡ Err Failure.Memory → out.new ≡ out.old }
    ensures failure { FailsByWriting result }
    ensures write_fault { result ≡ Err Failure.WriteFault → Rose (O.faults out.old) (O.faults out.new) }
{
    a_number_of_32_bits_is_below(header.first);
    rounds_make_a_bundle();
    upgrade_logs(alloc, header, &mut logs)?;
    match write_bundle(&upgraded_header(header), &logs, out) {
        Ok(()) => Ok(()),
        Err(_) => Err(Failure::WriteFault),
    }
}

// Writes a bundle of logs: the header, and each log in order in its frames.
fn write_bundle<O: Sink>(header: &Header, logs: &[Vec<u8>], out: &mut O) -> Result<(), Failed>
    requires few { length logs.now ≤ 64 }
    ensures whole { OnOk result (Grows (O.held out.old) (O.held out.new) (header_text header.now ++ round_text (map (λ log. log.items) logs.now))) }
    ensures front { OnErr result (GrowsByFront (O.held out.old) (O.held out.new) (header_text header.now ++ round_text (map (λ log. log.items) logs.now))) }
    ensures counts { Counts (O.faults out.old) (O.faults out.new) result }
{
    write_header(header, out)?;
    write_logs(logs, out)
}

// Writes logs in frames, that of verifier 0 first.
fn write_logs<O: Sink>(logs: &[Vec<u8>], out: &mut O) -> Result<(), Failed>
    requires few { length logs.now ≤ 64 }
    ensures whole { OnOk result (Grows (O.held out.old) (O.held out.new) (round_text (map (λ log. log.items) logs.now))) }
    ensures front { OnErr result (GrowsByFront (O.held out.old) (O.held out.new) (round_text (map (λ log. log.items) logs.now))) }
    ensures counts { Counts (O.faults out.old) (O.faults out.new) result }
{
    for (number, log) in logs.iter().enumerate() {
        frames(number as u16, log, out)?;
    }
    Ok(())
}
