//! Checking on from where runs stand, a batch of frames at a time.
ghost use Rattle.std.specs.Prelude.{◌≡◌, ◌≢◌, ◌+◌, ◌≤◌, ◌^◌, ℕ, List, Option, Some, Ok, Err, length, map};
ghost use Rattle.std.specs.List.{AllByRecursion, fold};
ghost use Rattle.lamport_clocks.specs.Header.{IsHeader};
ghost use Rattle.report_text.specs.declared.ending.BundleEnd.{BundleEnd};
ghost use Rattle.report_text.specs.Answer.{AnswersNear};
ghost use Rattle.bundle_frames.specs.Extent.{reading_end, IsDue};
ghost use Rattle.bundle_frames.specs.Progress.{position};
ghost use Rattle.bundle_report.specs.Report.{operations_told};
ghost use Rattle.verifier_run.specs.Progress.{weight};
ghost use Rattle.certified_epochs.specs.Turn.{CanCertify};
ghost use Rattle.check_core.specs.Asked.{unended};
ghost use Rattle.check_core.specs.Outcomes.{check_status};
ghost use Rattle.check_core.specs.Stream.{HasCome, AreChecked, IsReadWhole, ReadsWithin, asked_behind, lines_counted};
ghost use Rattle.check_core.specs.Told.{asked_for};

use crate::batch::{Batch, Filled};
use crate::passing::pass_batch;
use crate::told::Told;
use crate::written::WrittenFold;
use bundle_frames::BundleReader;
use certified_epochs::{Certifier, FedRun};
use fv_outside::{Failure, Sink, Source};
use lamport_clocks::Header;
use record_hash::Digests;
use report_text::BundleEnd;
use std::alloc::Global;
use std::thread::Threads;

/// Reads the frames of a bundle on from where its runs stand, a batch at a time, and writes what each certifies before more is read; behind
/// the last it writes what the fold makes, ends the runs, and answers how the report ends. It writes no last line. Whatever the runs have
/// taken, if anything, each can be certified.
pub(crate) fn go_on<R: Threads + Sync, D: Digests + Sync, F: WrittenFold, S: Source, O: Sink>(
    rt: &R,
    alloc: Global,
    d: &D,
    header: &Header,
    reader: &mut BundleReader,
    source: &mut S,
    runs: &mut [FedRun],
    certifier: &mut Certifier,
    told: &Told,
    folded: &mut F,
    out: &mut O,
) -> Result<BundleEnd, Failure>
    requires header { IsHeader header.now }
    requires known { reader.old.progress.header ≡ Some header.now }
    requires due { IsDue reader.old.progress }
    requires limit { reader.old.limit ≤ 2 ^ 41 }
    requires within { reader.old.taken ≤ reader.old.limit }
    requires split { position reader.old.progress ≤ reader.old.taken }
    requires few { length runs.old ≤ 64 }
    requires headers { AllByRecursion (λ fed. fed.run.course.machine.header ≡ header.now) runs.old }
    requires weights { AllByRecursion (λ fed. weight fed.run ≤ reader.old.progress.offset) runs.old }
    requires can { CanCertify certifier.old (map (λ fed. fed.run) runs.old) }

    // What is taken of the source, and whose faults rose.
    ensures reads { ReadsWithin result reader.old.taken reader.old.limit
        (record { left = S.left source.old; left_after = S.left source.new; faults = S.faults source.old; faults_after = S.faults source.new })
        (record { held = O.held out.old; held_after = O.held out.new; faults = O.faults out.old; faults_after = O.faults out.new }) }
    ensures vault { result ≢ Err Failure.VaultFault }
    ensures never_falls { O.faults out.old ≤ O.faults out.new }

    // Of whatever the source had before, where so much of it has come, and of whatever logs the runs have taken, and the fold made of the
    // operations that are counted: what is answered to all of it, without the lines that are counted, and without a last line.
    ensures answers { (left : Option (List ℕ)) (faults more : ℕ) (logs : List (List ℕ)) (begun : F)
        → HasCome left faults more logs reader.old (S.left source.old) (S.faults source.old)
        → AreChecked (D.functions d.now) header.now logs certifier.old runs.old
        → F.state folded.old ≡ fold F.step (F.state begun) (lines_counted operations_told (D.functions d.now) header.now logs certifier.old)
        → AnswersNear more (asked_behind (unended (asked_for told.now (D.functions d.now) (F.text_behind begun))) (D.functions d.now) header.now logs certifier.old)
        reading_end reader.old.limit (check_status reader.old.limit result)
        (record { left = left; left_after = S.left source.new; faults = faults; faults_after = S.faults source.new })
        (record { held = O.held out.old; held_after = O.held out.new; faults = O.faults out.old; faults_after = O.faults out.new }) }

    // Where the report ends with `done`, all of it was read and stands in the runs.
    ensures done { (left : Option (List ℕ)) (faults more : ℕ) (logs : List (List ℕ)) (epochs : ℕ)
        → HasCome left faults more logs reader.old (S.left source.old) (S.faults source.old)
        → AreChecked (D.functions d.now) header.now logs certifier.old runs.old
        → result ≡ Ok (BundleEnd.Done epochs)
        → IsReadWhole (D.functions d.now) header.now left reader.new.taken epochs runs.new }
{
    let telling = told.telling(d, header);
    let mut first = Batch::new(alloc);
    let mut rest = Batch::new(alloc);
    'batches: loop {
        let filled = pass_batch(rt, alloc, d, reader, source, runs, &mut first, &mut rest)?;
        certifier.certify(rt, &[], runs, &telling, folded, out)?;
        match filled {
            Filled::Whole => {}
            Filled::End => break,
            Filled::Stopped(stop) => return Err(stop),
        }
    }
    let bad = reader.bad();
    if folded.write(out).is_err() {
        return Err(Failure::WriteFault);
    }
    Ok(certifier.end(runs, bad))
}
