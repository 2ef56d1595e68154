//! What is written of a run.
ghost use Rattle.std.specs.Prelude.{◌≡◌, ◌≤◌, ℕ, List, Option, map, OnOk, OnErr, Err};
ghost use Rattle.fv_outside.specs.Failures.{FailsByWriting};
ghost use Rattle.fv_outside.specs.Faults.{Rose};
ghost use Rattle.fv_outside.specs.Written.{Grows, GrowsByFront};
ghost use Rattle.lamport_clocks.specs.declared.header.Header.{Header};
ghost use Rattle.record_hash.specs.Functions.{DigestFunctions};
ghost use Rattle.bundle_report.specs.Report.{EpochText};
ghost use Rattle.certified_epochs.specs.Telling.{text_by};
ghost use Rattle.certified_epochs.specs.Turn.{AreVerdictsOn};
ghost use Rattle.host_rounds.specs.SoFar.{HaveRun, HaveRunSome, AllCounted, lines_counted, lines_due};
ghost use Rattle.verifier_threads.specs.Serving.{GrowsFor};
ghost use Rattle.verifier_threads.specs.Running.{GrowsByFrontFor, ending_for};
ghost use Rattle.verifier_threads.specs.Runners.{TellsLines};

use crate::loads::Load;
use certified_epochs::Telling;
use epoch_gather::Verdict;
use fv_outside::{Failure, Sink, SureSink};
use host_rounds::{Rounds, write_end};
use record_hash::Digests;
use report_text::Status;
use std::alloc::Global;
use std::thread::Threads;

/// What the sink takes of a run: the lines of what is certified and how it ends, with receipts or without, or, of a load, its
/// summary alone.
#[derive(Clone, Copy, Debug, PartialEq, Eq)]
pub enum Account {
    /// The report: the lines of each certified epoch, written at the close that certifies it, and the last line.
    Report { receipts: bool },
    /// The summary of a load, written at the end.
    Summary(Load),
}

impl Account {
    /// Counts all that the runs now certify. Of a report its lines are written, as they are told; of a summary nothing is written
    /// before the end, and the sink stays as it is.
    pub(crate) fn certify<R: Threads + Sync, D: Digests + Sync, O: Sink>(
        &self,
        rt: &R,
        alloc: Global,
        rounds: &mut Rounds,
        settled: &[Verdict],
        telling: &Telling<D>,
        out: &mut O,
    ) -> Result<(), Failure>
        requires runs { HaveRunSome rounds.old }
        requires settled { AreVerdictsOn rounds.old.judged (map (λ fed. fed.run) rounds.old.runs) settled.now }
        ensures runs { (functions : DigestFunctions) (header : Header) (logs : List (List ℕ)) → HaveRun functions header logs rounds.old
            → OnOk result (HaveRun functions header logs rounds.new) }
        ensures all { (functions : DigestFunctions) (header : Header) (logs : List (List ℕ)) → HaveRun functions header logs rounds.old
            → OnOk result (AllCounted functions header logs rounds.new) }
        ensures counted { (tell : EpochText) (functions : DigestFunctions) (header : Header) (logs : List (List ℕ)) → HaveRun functions header logs rounds.old
            → OnOk result (lines_counted tell functions header logs rounds.new ≡ lines_due tell functions header logs) }
        ensures due { (functions : DigestFunctions) (header : Header) (logs : List (List ℕ)) (held : Option (List ℕ)) → HaveRun functions header logs rounds.old
            → GrowsFor self.now held (O.held out.old) (lines_counted (text_by D.functions telling.now) functions header logs rounds.old)
            → OnOk result (GrowsFor self.now held (O.held out.new) (lines_due (text_by D.functions telling.now) functions header logs)) }

        // Where it stops: of a report by a front of its lines, and of a summary for want of memory alone.
        ensures front { (functions : DigestFunctions) (header : Header) (logs : List (List ℕ)) (held : Option (List ℕ)) → HaveRun functions header logs rounds.old
            → GrowsFor self.now held (O.held out.old) (lines_counted (text_by D.functions telling.now) functions header logs rounds.old)
            → OnErr result (GrowsByFrontFor self.now held (O.held out.new) (lines_due (text_by D.functions telling.now) functions header logs)) }
        ensures lines { result ≡ Err Failure.WriteFault → TellsLines self.now }
        ensures failure { FailsByWriting result }
        ensures write_fault { result ≡ Err Failure.WriteFault → Rose (O.faults out.old) (O.faults out.new) }
        ensures never_falls { O.faults out.old ≤ O.faults out.new }
    {
        match self {
            Account::Report { .. } => rounds.certify(rt, settled, telling, out),
            Account::Summary(_) => {
                // Nothing is told, so nothing is written. But `certify` may by its contract fail by its sink all the same, so it
                // gets one that never fails, and no run of a load ends for want of a write before its summary.
                let mut sure = SureSink::new(alloc, 0, usize::MAX)?;
                rounds.certify(rt, settled, telling, &mut sure)
            }
        }
    }

    /// Writes what comes at the end of a run that ended so: the last line of its report, or its summary.
    pub(crate) fn write_ending<O: Sink>(
        &self,
        rounds: &Rounds,
        status: &Status,
        out: &mut O,
    ) -> Result<(), Failure>
        ensures whole { OnOk result (Grows (O.held out.old) (O.held out.new) (ending_for self.now rounds.now status.now)) }
        ensures front { OnErr result (GrowsByFront (O.held out.old) (O.held out.new) (ending_for self.now rounds.now status.now)) }
        ensures stop { OnErr result (result ≡ Err Failure.WriteFault) }
        ensures write_fault { OnErr result (Rose (O.faults out.old) (O.faults out.new)) }
        ensures never_falls { O.faults out.old ≤ O.faults out.new }
    {
        match self {
            Account::Report { .. } => write_end(status, out),
            Account::Summary(load) => rounds.write_summary(load.seed, load.ops, status, out),
        }
    }
}
