//! A check of a bundle: what is certified, what is made of it, and how its report ends.
ghost use Rattle.std.specs.Prelude.{◌≡◌, ◌≢◌, ◌≤◌, ◌^◌, ℕ, List, Option, Some, IfSome, Ok, Err};
ghost use Rattle.lamport_clocks.specs.Header.{IsHeader};
ghost use Rattle.report_text.specs.declared.ending.BundleEnd.{BundleEnd};
ghost use Rattle.report_text.specs.Answer.{AnswersTo};
ghost use Rattle.bundle_frames.specs.Extent.{reading_end, IsDue};
ghost use Rattle.bundle_frames.specs.Progress.{position};
ghost use Rattle.bundle_report.specs.Logs.{empty_logs};
ghost use Rattle.bundle_report.specs.Headline.{IsSound};
ghost use Rattle.bundle_report.specs.Answer.{check_answer};
ghost use Rattle.check_core.specs.declared.checked.DoneBundle.{DoneBundle};
ghost use Rattle.check_core.specs.declared.checked.Checked.{Checked};
ghost use Rattle.check_core.specs.Asked.{asked_answer, unended};
ghost use Rattle.check_core.specs.Checked.{checked_status, IsOtherEnd};
ghost use Rattle.check_core.specs.Outcomes.{IsCheckStatus};
ghost use Rattle.check_core.specs.Stream.{HasCome, IsReadWhole};
ghost use Rattle.check_core.specs.Told.{asked_for};

use crate::checked::{Checked, DoneBundle, write_end};
use crate::going_on::go_on;
use crate::told::Told;
use crate::written::WrittenFold;
use bundle_frames::{BundleReader, Next};
use certified_epochs::{Certifier, open_runs};
use fv_outside::{Failure, Sink, Source};
use lamport_clocks::Header;
use merkle_records::digests_have_32_bytes;
use operation_folds::NothingMade;
use record_hash::Digests;
use report_text::{BundleEnd, Status};
use std::alloc::Global;
use std::thread::Threads;

/// Reads a bundle of no more than so many bytes, some frames at a time, runs its logs side by side, and writes the
/// lines of each epoch, with receipts or without, as soon as it is certified. Where reading stops before the end, what was
/// read is certified first.
pub fn check<R: Threads + Sync, D: Digests + Sync, S: Source, O: Sink>(
    rt: &R,
    alloc: Global,
    d: &D,
    limit: u64,
    source: &mut S,
    out: &mut O,
    receipts: bool,
) -> Status
    requires limit { limit ≤ 2 ^ 40 }
    ensures outcomes { IsCheckStatus result }

    // What is written, the status, what was taken of the source, and the faults.
    ensures answers { AnswersTo (check_answer receipts (D.functions d.now)) reading_end limit result
        (record { left = S.left source.old; left_after = S.left source.new; faults = S.faults source.old; faults_after = S.faults source.new })
        (record { held = O.held out.old; held_after = O.held out.new; faults = O.faults out.old; faults_after = O.faults out.new }) }

    // The answers of that report are serial, or the exhibit of the bytes collides.
    ensures headline { IfSome (S.left source.old) (IsSound (D.functions d.now)) }
{
    digests_have_32_bytes(d);
    let told = Told::Lines { receipts };
    let mut nothing = NothingMade;
    tell_bundle(rt, alloc, d, limit, source, &told, &mut nothing, out)
}

/// Reads a bundle so, tells each certified epoch as it is asked, and behind the last writes what a fold makes of all their
/// operations, and the last line of the report.
pub fn tell_bundle<R: Threads + Sync, D: Digests + Sync, F: WrittenFold, S: Source, O: Sink>(
    rt: &R,
    alloc: Global,
    d: &D,
    limit: u64,
    source: &mut S,
    told: &Told,
    folded: &mut F,
    out: &mut O,
) -> Status
    requires limit { limit ≤ 2 ^ 40 }
    ensures outcomes { IsCheckStatus result }
    ensures answers { AnswersTo (asked_answer (asked_for told.now (D.functions d.now) (F.text_behind folded.old)) (D.functions d.now)) reading_end limit result
        (record { left = S.left source.old; left_after = S.left source.new; faults = S.faults source.old; faults_after = S.faults source.new })
        (record { held = O.held out.old; held_after = O.held out.new; faults = O.faults out.old; faults_after = O.faults out.new }) }
{
    match check_lines(rt, alloc, d, limit, source, told, folded, out) {
        Ok(checked) => match write_end(&checked.end(), out) {
            Ok(status) => status,
            Err(_) => Status::WriteFault,
        },
        Err(failure) => Status::of_failure(failure, limit),
    }
}

/// Reads a bundle and writes all of its report but the last line.
pub(crate) fn check_lines<R: Threads + Sync, D: Digests + Sync, F: WrittenFold, S: Source, O: Sink>(
    rt: &R,
    alloc: Global,
    d: &D,
    limit: u64,
    source: &mut S,
    told: &Told,
    folded: &mut F,
    out: &mut O,
) -> Result<Checked, Failure>
    requires limit { limit ≤ 2 ^ 40 }
    ensures answers { AnswersTo (asked_answer (unended (asked_for told.now (D.functions d.now) (F.text_behind folded.old))) (D.functions d.now)) reading_end limit (checked_status limit result)
        (record { left = S.left source.old; left_after = S.left source.new; faults = S.faults source.old; faults_after = S.faults source.new })
        (record { held = O.held out.old; held_after = O.held out.new; faults = O.faults out.old; faults_after = O.faults out.new }) }
    ensures vault { result ≢ Err Failure.VaultFault }
    ensures never_falls { O.faults out.old ≤ O.faults out.new }

    // Where the report ends with `done`, all of the bundle was read and stands in the runs.
    ensures done { (done : DoneBundle) → result ≡ Ok (Checked.Done done)
        → IsReadWhole (D.functions d.now) done.header (S.left source.old) done.taken done.epochs done.runs.items }
    ensures ended { (end : BundleEnd) → result ≡ Ok (Checked.Ended end) → IsOtherEnd end }
{
    let mut reader = BundleReader::new(alloc, limit)?;
    let next = reader.next(source)?;
    match next {
        Next::Head(header) => check_frames(
            rt,
            alloc,
            d,
            &header,
            &mut reader,
            source,
            told,
            folded,
            out,
        ),
        // No frame comes before the header.
        Next::Frame(_) => Ok(Checked::Ended(BundleEnd::BadBundle { offset: 0 })),
        Next::End => Ok(Checked::Ended(BundleEnd::BadBundle { offset: 0 })),
    }
}

// Reads the frames behind a header, and writes all of the report but the last line.
fn check_frames<R: Threads + Sync, D: Digests + Sync, F: WrittenFold, S: Source, O: Sink>(
    rt: &R,
    alloc: Global,
    d: &D,
    header: &Header,
    reader: &mut BundleReader,
    source: &mut S,
    told: &Told,
    folded: &mut F,
    out: &mut O,
) -> Result<Checked, Failure>
    requires header { IsHeader header.now }
    requires known { reader.old.progress.header ≡ Some header.now }
    requires due { IsDue reader.old.progress }
    requires limit { reader.old.limit ≤ 2 ^ 40 }
    requires within { reader.old.taken ≤ reader.old.limit }
    requires split { position reader.old.progress ≤ reader.old.taken }

    // Of whatever the source had before, where so much of it has come and no frame yet.
    ensures answers { (left : Option (List ℕ)) (faults : ℕ)
        → HasCome left faults 0 (empty_logs header.now.verifiers) reader.old (S.left source.old) (S.faults source.old)
        → AnswersTo (asked_answer (unended (asked_for told.now (D.functions d.now) (F.text_behind folded.old))) (D.functions d.now)) reading_end reader.old.limit (checked_status reader.old.limit result)
        (record { left = left; left_after = S.left source.new; faults = faults; faults_after = S.faults source.new })
        (record { held = O.held out.old; held_after = O.held out.new; faults = O.faults out.old; faults_after = O.faults out.new }) }
    ensures vault { result ≢ Err Failure.VaultFault }
    ensures never_falls { O.faults out.old ≤ O.faults out.new }
    ensures done { (left : Option (List ℕ)) (faults : ℕ) (done : DoneBundle)
        → HasCome left faults 0 (empty_logs header.now.verifiers) reader.old (S.left source.old) (S.faults source.old)
        → result ≡ Ok (Checked.Done done)
        → IsReadWhole (D.functions d.now) done.header left done.taken done.epochs done.runs.items }
    ensures ended { (end : BundleEnd) → result ≡ Ok (Checked.Ended end) → IsOtherEnd end }
{
    let mut runs = open_runs(alloc, header)?;
    let mut certifier = Certifier::new(alloc);
    let end = go_on(
        rt,
        alloc,
        d,
        header,
        reader,
        source,
        &mut runs,
        &mut certifier,
        told,
        folded,
        out,
    )?;
    match end {
        BundleEnd::Done { epochs } => Ok(Checked::Done(DoneBundle {
            header: *header,
            taken: reader.taken(),
            epochs,
            runs,
        })),
        BundleEnd::BadBundle { .. } => Ok(Checked::Ended(end)),
        BundleEnd::Refused { .. } => Ok(Checked::Ended(end)),
        BundleEnd::Unbalanced { .. } => Ok(Checked::Ended(end)),
    }
}
