//! Certifying epoch by epoch, as the logs come.
ghost use Rattle.std.specs.Prelude.{◌≡◌, ◌≢◌, ◌+◌, ◌-◌, ◌<◌, ◌≤◌, ◌++◌, ℕ, List, map, length, slice_get, true, false, IfOk, IfSome, OnOk, OnErr, Ok, Err, None, Some};
ghost use Rattle.std.specs.List.{fold};
ghost use Rattle.fv_outside.specs.Failures.{FailsByWriting};
ghost use Rattle.fv_outside.specs.Faults.{Counts, Rose};
ghost use Rattle.fv_outside.specs.Written.{Grows, GrowsByFront};
ghost use Rattle.lamport_clocks.specs.declared.header.Header.{Header};
ghost use Rattle.merkle_records.specs.Scheme.{Scheme};
ghost use Rattle.record_text.specs.declared.operation.Operation.{Operation};
ghost use Rattle.report_text.specs.Page.{Passes};
ghost use Rattle.bundle_report.specs.RunReport.{courses_of, parts_at};
ghost use Rattle.bundle_report.specs.Judged.{judged, refused_log, end_by};
ghost use Rattle.log_codec.specs.Log.{read_log};
ghost use Rattle.report_text.specs.Ending.{status_of};
ghost use Rattle.report_text.specs.Status.{last_line};
ghost use Rattle.bundle_report.specs.BundleReport.{histories_at, end_of};
ghost use Rattle.bundle_report.specs.SoFar.{HaveRead, lines_from, runs_ended};
ghost use Rattle.bundle_report.specs.Judged.{none_judged};
ghost use Rattle.bundle_report.specs.Report.{operations_told};
ghost use Rattle.verifier_run.specs.Taken.{left_of};
ghost use Rattle.certified_epochs.specs.Telling.{text_by};
ghost use Rattle.certified_epochs.specs.Turn.{AreFed, CanCertify, AreVerdictsOn, IsVerdictAt, next_epoch, parts_left, turn};

use crate::ending::{end_of, first_refused};
use crate::fed_run::FedRun;
use crate::gathering::verdict_on;
use crate::one_epoch::tell_epoch;
use crate::pieces::Piece;
use crate::telling::Telling;
use bundle_report::{Judged, Uneven};
use epoch_gather::Verdict;
use fv_outside::{Failure, Sink};
use multiset_sum::Part;
use operation_folds::OperationFold;
use record_hash::Digests;
use report_text::{BundleEnd, Page, write_last};
use std::alloc::Global;
use std::marker::Model;
use std::thread::Threads;

/// How many epochs the runs of all verifiers have certified so far, and the next one where its sums differ. Nothing is
/// kept of an epoch once its lines are written. Contracts see what is judged.
#[derive(Drop)]
pub struct Certifier {
    judged: Judged,
    // Room for what is looked at and written of one epoch, used again for the next.
    parts: Vec<Part>,
    pieces: Vec<Piece>,
}

impl Model for Certifier {
    ghost use Rattle.bundle_report.specs.declared.judged.Judged.{Judged};

    ghost Value = { Judged };

    ghost view = { λ c. c.judged };
}

impl Certifier {
    /// Before the first epoch.
    pub fn new(alloc: Global) -> Self
        ensures none { result ≡ none_judged }
    {
        Certifier::resume(alloc, 0)
    }

    /// Behind so many epochs, which are certified.
    pub fn resume(alloc: Global, certified: u32) -> Self
        ensures counted { result ≡ record { count = certified; unbalanced = None } }
    {
        Certifier {
            judged: Judged {
                count: certified as usize,
                unbalanced: None,
            },
            parts: Vec::new(alloc),
            pieces: Vec::new(alloc),
        }
    }

    /// How many epochs are certified, and the next one where all verifiers have sealed it and its sums differ.
    pub fn judged(&self) -> &Judged
        ensures value { result.now ≡ self.now }
    {
        &self.judged
    }

    /// Writes the lines of all epochs that the runs now certify and that are not written yet, adds their operations to a fold,
    /// and takes what the runs have of these epochs out of them. The verdicts on the first of these may have been settled
    /// elsewhere; the others are found here. Where a run is starved that is want of memory, and nothing is written.
    ///
    /// After want of memory or where the sink failed it holds a front of these lines, and certifier and fold are of no more use.
    pub fn certify<R: Threads + Sync, D: Digests + Sync, T: OperationFold, O: Sink>(
        &mut self,
        rt: &R,
        settled: &[Verdict],
        runs: &mut [FedRun],
        telling: &Telling<D>,
        folded: &mut T,
        out: &mut O,
    ) -> Result<(), Failure>
        requires few { length runs.old ≤ 64 }
        requires can { AreFed runs.old → CanCertify self.old (map (λ fed. fed.run) runs.old) }
        requires settled { AreFed runs.old → AreVerdictsOn self.old (map (λ fed. fed.run) runs.old) settled.now }

        // Of all logs that the runs have taken so far: what they certify is counted, written and added.
        ensures judged { (scheme : Scheme) (header : Header) (logs : List (List ℕ))
            → HaveRead scheme header logs self.old (map (λ fed. fed.run) runs.old)
            → OnOk result (self.new ≡ judged header.verifiers (courses_of scheme header logs)) }
        ensures taken { (scheme : Scheme) (header : Header) (logs : List (List ℕ))
            → HaveRead scheme header logs self.old (map (λ fed. fed.run) runs.old)
            → OnOk result (HaveRead scheme header logs self.new (map (λ fed. fed.run) runs.new)) }
        ensures lines { (scheme : Scheme) (header : Header) (logs : List (List ℕ))
            → HaveRead scheme header logs self.old (map (λ fed. fed.run) runs.old)
            → OnOk result (Grows (O.held out.old) (O.held out.new)
            (lines_from (text_by D.functions telling.now) (courses_of scheme header logs) (header.first + self.old.count) (self.new.count - self.old.count))) }
        ensures folded { (scheme : Scheme) (header : Header) (logs : List (List ℕ))
            → HaveRead scheme header logs self.old (map (λ fed. fed.run) runs.old)
            → OnOk result (T.state folded.new ≡ fold T.step (T.state folded.old)
            (lines_from operations_told (courses_of scheme header logs) (header.first + self.old.count) (self.new.count - self.old.count))) }

        // Where it stops, the sink took a front of the lines of what they certify.
        ensures front { (scheme : Scheme) (header : Header) (logs : List (List ℕ))
            → HaveRead scheme header logs self.old (map (λ fed. fed.run) runs.old)
            → OnErr result (GrowsByFront (O.held out.old) (O.held out.new)
            (lines_from (text_by D.functions telling.now) (courses_of scheme header logs) (header.first + self.old.count)
            ((judged header.verifiers (courses_of scheme header logs)).count - self.old.count))) }

        // Whatever logs they took, if any: the runs can be certified further, and all that they are but what was taken out of them
        // stays.
        ensures can { OnOk result (CanCertify self.new (map (λ fed. fed.run) runs.new)) }
        ensures machines { OnOk result (map (λ fed. fed.run.course.machine) runs.new ≡ map (λ fed. fed.run.course.machine) runs.old) }
        ensures held { OnOk result (map (λ fed. fed.run.held) runs.new ≡ map (λ fed. fed.run.held) runs.old) }

        // With an answer, no run was starved; where one was, nothing is written.
        ensures fed { OnOk result (AreFed runs.old × AreFed runs.new) }
        ensures starved { (AreFed runs.old → ⊥) → (result ≡ Err Failure.Memory) × (out.new ≡ out.old) }
        ensures len { length runs.new ≡ length runs.old }
        ensures failure { FailsByWriting result }
        ensures write_fault { result ≡ Err Failure.WriteFault → Rose (O.faults out.old) (O.faults out.new) }
        ensures never_falls { O.faults out.old ≤ O.faults out.new }
    {
        if any_starved(runs) {
            return Err(Failure::Memory);
        }
        if let Some(_) = self.judged.unbalanced {
            return Ok(());
        }
        let before = self.judged.count;
        let mut page = Page::new();
        'epochs: loop {
            let handed = settled.get(self.judged.count - before);
            if !self.certify_next(rt, handed, runs, telling, folded, &mut page, out)? {
                break;
            }
        }
        match page.flush(out) {
            Ok(()) => Ok(()),
            Err(_) => Err(Failure::WriteFault),
        }
    }

    /// Ends the logs, and answers how their report ends, where so much of the bundle is bad. All that the runs certify is to
    /// be certified before.
    pub fn end(&self, runs: &mut [FedRun], bad: Option<u64>) -> BundleEnd
        requires few { length runs.old ≤ 64 }

        // Whatever logs they took, if any.
        ensures ended { map (λ fed. fed.run) runs.new ≡ runs_ended (map (λ fed. fed.run) runs.old) }
        ensures value { result ≡ end_by self.now.count self.now.unbalanced (refused_log 0 (map (λ fed. fed.run.course) runs.new)) bad }

        // Of all logs that they have taken, where all that these certify is counted: how their report ends.
        ensures end { (scheme : Scheme) (header : Header) (logs : List (List ℕ))
            → HaveRead scheme header logs self.now (map (λ fed. fed.run) runs.old)
            → self.now ≡ judged header.verifiers (courses_of scheme header logs)
            → result ≡ end_of scheme header (map (read_log scheme.format) logs) (histories_at scheme header logs) bad }
    {
        end_all(runs);
        end_of(&self.judged, first_refused(runs), bad)
    }

    /// Ends the logs so, and writes the last line of the report.
    pub fn finish<O: Sink>(
        &self,
        runs: &mut [FedRun],
        bad: Option<u64>,
        out: &mut O,
    ) -> Result<BundleEnd, Failure>
        requires few { length runs.old ≤ 64 }

        // Of all logs that the runs have taken, where all that these certify is counted: how their report ends.
        ensures end { (scheme : Scheme) (header : Header) (logs : List (List ℕ))
            → HaveRead scheme header logs self.now (map (λ fed. fed.run) runs.old)
            → self.now ≡ judged header.verifiers (courses_of scheme header logs)
            → IfOk result (λ end. end ≡ end_of scheme header (map (read_log scheme.format) logs) (histories_at scheme header logs) bad) }
        ensures line { IfOk result (λ end. Grows (O.held out.old) (O.held out.new) (last_line (status_of end))) }
        ensures front { (scheme : Scheme) (header : Header) (logs : List (List ℕ))
            → HaveRead scheme header logs self.now (map (λ fed. fed.run) runs.old)
            → self.now ≡ judged header.verifiers (courses_of scheme header logs)
            → OnErr result (GrowsByFront (O.held out.old) (O.held out.new)
            (last_line (status_of (end_of scheme header (map (read_log scheme.format) logs) (histories_at scheme header logs) bad)))) }
        ensures write_fault { OnErr result (Rose (O.faults out.old) (O.faults out.new)) }
        ensures stop { OnErr result (result ≡ Err Failure.WriteFault) }
        ensures never_falls { O.faults out.old ≤ O.faults out.new }
    {
        let end = self.end(runs, bad);
        match write_last(&end.status(), out) {
            Ok(()) => Ok(end),
            Err(_) => Err(Failure::WriteFault),
        }
    }

    // Adds the operations of the next epoch to a fold and writes its lines, if it is certified, and answers whether it is. The verdict
    // on it may be handed in.
    fn certify_next<R: Threads + Sync, D: Digests + Sync, T: OperationFold, O: Sink>(
        &mut self,
        rt: &R,
        handed: Option<&Verdict>,
        runs: &mut [FedRun],
        telling: &Telling<D>,
        folded: &mut T,
        page: &mut Page,
        out: &mut O,
    ) -> Result<bool, Failure>
        requires few { length runs.old ≤ 64 }
        requires even { self.old.unbalanced ≡ None }
        requires can { CanCertify self.old (map (λ fed. fed.run) runs.old) }
        requires handed { IfSome handed (λ verdict. (epoch : ℕ) → next_epoch (map (λ fed. fed.run) runs.old) ≡ Some epoch
            → IsVerdictAt (map (λ fed. fed.run) runs.old) 0 epoch verdict.now) }
        ensures turned { IfOk result (λ more. turn (text_by D.functions telling.now) self.old (map (λ fed. fed.run) runs.old)
            ≡ record { more = more; judged = self.new; runs = map (λ fed. fed.run) runs.new; text = (turn (text_by D.functions telling.now) self.old (map (λ fed. fed.run) runs.old)).text }) }
        ensures text { OnOk result (Passes (O.held out.old) page.old (turn (text_by D.functions telling.now) self.old (map (λ fed. fed.run) runs.old)).text (O.held out.new) page.new) }
        ensures folded { OnOk result (T.state folded.new ≡ fold T.step (T.state folded.old) (turn operations_told self.old (map (λ fed. fed.run) runs.old)).text) }
        ensures front { OnErr result (GrowsByFront (O.held out.old) (O.held out.new) (page.old ++ (turn (text_by D.functions telling.now) self.old (map (λ fed. fed.run) runs.old)).text)) }
        ensures fed { AreFed runs.old → AreFed runs.new }
        ensures less { result ≡ Ok true → parts_left runs.new < parts_left runs.old }
        ensures len { length runs.new ≡ length runs.old }
        ensures failure { FailsByWriting result }
        ensures write_fault { result ≡ Err Failure.WriteFault → Rose (O.faults out.old) (O.faults out.new) }
        ensures never_falls { O.faults out.old ≤ O.faults out.new }
    {
        let Some(epoch) = next_epoch(runs) else {
            return Ok(false);
        };
        match verdict_on(&mut self.parts, handed, runs, epoch)? {
            Verdict::Balanced => {}
            Verdict::Unbalanced(added, evicted) => {
                self.judged.unbalanced = Some(Uneven {
                    epoch,
                    added,
                    evicted,
                });
                return Ok(false);
            }
            Verdict::Missing(_) => return Ok(false),
        }
        tell_epoch(
            rt,
            telling,
            epoch,
            runs,
            folded,
            &mut self.pieces,
            page,
            out,
        )?;
        pass_all(runs, epoch);
        self.judged.count = one_more(self.judged.count, epoch);
        Ok(true)
    }
}

// One epoch more, which is this one: it has as many before it, from the first on, as are counted, or more.
fn one_more(count: usize, epoch: u32) -> usize
    requires within { count ≤ epoch }
    ensures value { result ≡ count + 1 }
{
    count + 1
}

// Has all runs keep nothing of epochs up to this one.
fn pass_all(runs: &mut [FedRun], epoch: u32)
    ensures left { map (λ fed. fed.run) runs.new ≡ map (λ fed. left_of epoch fed.run) runs.old }
    ensures len { length runs.new ≡ length runs.old }
    ensures fed { AreFed runs.old → AreFed runs.new }
{
    for fed in runs.iter_mut() {
        fed.run.pass(epoch);
    }
}

// The epoch of the first part that the first run still has.
fn next_epoch(runs: &[FedRun]) -> Option<u32>
    ensures value { result ≡ next_epoch (map (λ fed. fed.run) runs.now) }
{
    match runs.first() {
        Some(fed) => match fed.run.parts().first() {
            Some(part) => Some(part.epoch),
            None => None,
        },
        None => None,
    }
}

// Whether memory was wanting for any run.
fn any_starved(runs: &[FedRun]) -> bool
    ensures none { result ≡ false → AreFed runs.now }
    ensures one { result ≡ true → AreFed runs.now → ⊥ }
{
    for fed in runs {
        if fed.is_starved {
            return true;
        }
    }
    false
}

// Ends each log.
fn end_all(runs: &mut [FedRun])
    ensures ended { map (λ fed. fed.run) runs.new ≡ runs_ended (map (λ fed. fed.run) runs.old) }
    ensures len { length runs.new ≡ length runs.old }
{
    for fed in runs.iter_mut() {
        fed.run.end();
    }
}
