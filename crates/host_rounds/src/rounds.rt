//! The rounds of a host, from the header of the bundle to how its report ends.
ghost use Rattle.std.specs.Prelude.{◌≡◌, ℕ, ◌≤◌, [], List, Option, length, map, OnOk, OnErr, IfOk, Err};
ghost use Rattle.fv_outside.specs.Failures.{FailsByVault, FailsByWriting};
ghost use Rattle.fv_outside.specs.Faults.{Rose};
ghost use Rattle.fv_outside.specs.Written.{Grows, GrowsByFront};
ghost use Rattle.lamport_clocks.specs.declared.header.Header.{Header};
ghost use Rattle.lamport_clocks.specs.Header.{IsHeader};
ghost use Rattle.record_hash.specs.Functions.{DigestFunctions};
ghost use Rattle.report_text.specs.Status.{last_line};
ghost use Rattle.bundle_frames.specs.Bundle.{header_text};
ghost use Rattle.bundle_report.specs.Logs.{empty_logs};
ghost use Rattle.bundle_report.specs.Report.{EpochText};
ghost use Rattle.load_summary.specs.Summary.{summary_with_end};
ghost use Rattle.certified_epochs.specs.Telling.{text_by};
ghost use Rattle.certified_epochs.specs.Turn.{AreVerdictsOn};
ghost use Rattle.host_rounds.specs.SoFar.{RunsSoFar, HaveRun, HaveRunSome, Keeps, AllCounted, lines_counted, lines_due, end_due};

use crate::laws::rounds_make_a_bundle;
use base_words::a_number_of_32_bits_is_below;
use bundle_frames::write_header;
use certified_epochs::{Certifier, FedRun, Telling, open_runs};
use epoch_gather::Verdict;
use fv_outside::{Failure, Sink};
use lamport_clocks::Header;
use load_summary::Summary;
use record_hash::Digests;
use report_text::{BundleEnd, Status, write_last};
use std::alloc::Global;
use std::marker::Model;
use std::thread::Threads;

/// What the verifiers' runs have come to over the rounds so far. The vault that has the bundle, and the sink of the
/// report, are handed in at each call; both only grow. Contracts see what is judged, the runs, how many bytes were fed, and
/// what was counted of each worker.
///
/// After an error it is of no more use.
#[derive(Drop)]
pub struct Rounds {
    pub(crate) runs: Vec<FedRun>,
    certifier: Certifier,
    pub(crate) bytes: u64,
    summary: Summary,
}

impl Model for Rounds {
    ghost use Rattle.host_rounds.specs.SoFar.{RunsSoFar};

    ghost Value = { RunsSoFar };

    ghost view = { λ r. record { judged = r.certifier; runs = r.runs.items; bytes = r.bytes; summary = r.summary } };
}

impl Rounds {
    /// Before the first round: writes the header of the bundle to the vault.
    pub fn new<V: Sink>(alloc: Global, header: &Header, vault: &mut V) -> Result<Self, Failure>
        requires header { IsHeader header.now }
        ensures keeps { (functions : DigestFunctions)
            → IfOk result (λ rounds. Keeps functions header.now (empty_logs header.now.verifiers) [] rounds (V.held vault.old) (V.held vault.new)) }
        ensures none { IfOk result (λ rounds. rounds.judged.count ≡ 0) }
        ensures runs { IfOk result (λ rounds. length rounds.runs ≡ header.now.verifiers) }
        ensures front { OnErr result (GrowsByFront (V.held vault.old) (V.held vault.new) (header_text header.now)) }
        ensures unwritten { result ≡ Err Failure.Memory → vault.new ≡ vault.old }
        ensures failure { FailsByVault result }
        ensures vault_fault { result ≡ Err Failure.VaultFault → Rose (V.faults vault.old) (V.faults vault.new) }
        ensures never_falls { V.faults vault.old ≤ V.faults vault.new }
        ensures name { V.name vault.new ≡ V.name vault.old }
    {
        rounds_make_a_bundle();
        a_number_of_32_bits_is_below(header.first);
        let runs = open_runs(alloc, header)?;
        let summary = Summary::new(alloc, header.verifiers)?;
        if write_header(header, vault).is_err() {
            return Err(Failure::VaultFault);
        }
        Ok(Rounds {
            runs,
            certifier: Certifier::new(alloc),
            bytes: 0,
            summary,
        })
    }

    /// Writes the lines of all epochs that the runs now certify and that are not written yet, and counts of each worker what it
    /// did in them. The verdicts on the first of these may have been settled when the logs were taken.
    pub fn certify<R: Threads + Sync, D: Digests + Sync, O: Sink>(
        &mut self,
        rt: &R,
        settled: &[Verdict],
        telling: &Telling<D>,
        out: &mut O,
    ) -> Result<(), Failure>
        requires runs { HaveRunSome self.old }
        requires settled { AreVerdictsOn self.old.judged (map (λ fed. fed.run) self.old.runs) settled.now }
        ensures runs { (functions : DigestFunctions) (header : Header) (logs : List (List ℕ)) → HaveRun functions header logs self.old
            → OnOk result (HaveRun functions header logs self.new) }
        ensures all { (functions : DigestFunctions) (header : Header) (logs : List (List ℕ)) → HaveRun functions header logs self.old
            → OnOk result (AllCounted functions header logs self.new) }

        // Of a sink that grew by the lines of the epochs that were counted: it grew by all lines that are due.
        ensures due { (functions : DigestFunctions) (header : Header) (logs : List (List ℕ)) (held : Option (List ℕ))
            → HaveRun functions header logs self.old → Grows held (O.held out.old) (lines_counted (text_by D.functions telling.now) functions header logs self.old)
            → OnOk result (Grows held (O.held out.new) (lines_due (text_by D.functions telling.now) functions header logs)) }
        ensures counted { (tell : EpochText) (functions : DigestFunctions) (header : Header) (logs : List (List ℕ)) → HaveRun functions header logs self.old
            → OnOk result (lines_counted tell functions header logs self.new ≡ lines_due tell functions header logs) }
        ensures len { length self.new.runs ≡ length self.old.runs }

        // Where it stops, by a front of them.
        ensures front { (functions : DigestFunctions) (header : Header) (logs : List (List ℕ)) (held : Option (List ℕ))
            → HaveRun functions header logs self.old → Grows held (O.held out.old) (lines_counted (text_by D.functions telling.now) functions header logs self.old)
            → OnErr result (GrowsByFront held (O.held out.new) (lines_due (text_by D.functions telling.now) functions header logs)) }
        ensures failure { FailsByWriting result }
        ensures write_fault { result ≡ Err Failure.WriteFault → Rose (O.faults out.old) (O.faults out.new) }
        ensures never_falls { O.faults out.old ≤ O.faults out.new }
    {
        let runs = self.runs.as_mut_slice();
        let summary = &mut self.summary;
        self.certifier
            .certify(rt, settled, runs, telling, summary, out)?;
        Ok(())
    }

    /// Ends the logs, and answers how their report ends. All that the runs certify is to be certified before.
    pub fn end(&mut self) -> BundleEnd
        requires runs { HaveRunSome self.old }
        ensures end { (functions : DigestFunctions) (header : Header) (logs : List (List ℕ))
            → HaveRun functions header logs self.old → AllCounted functions header logs self.old
            → result ≡ end_due functions header logs }
        ensures judged { self.new.judged ≡ self.old.judged }
        ensures summary { self.new.summary ≡ self.old.summary }
    {
        self.certifier.end(&mut self.runs, None)
    }

    /// Writes the summary of a load that was made of a seed, with so many operations asked for, and which ended so: how many
    /// epochs are certified, and what each worker did in them. On `Err` the sink holds a front of it.
    pub fn write_summary<O: Sink>(
        &self,
        seed: u64,
        ops: u32,
        end: &Status,
        out: &mut O,
    ) -> Result<(), Failure>
        ensures whole { OnOk result (Grows (O.held out.old) (O.held out.new) (summary_with_end seed ops self.now.judged.count self.now.summary.tallies end.now)) }
        ensures front { OnErr result (GrowsByFront (O.held out.old) (O.held out.new) (summary_with_end seed ops self.now.judged.count self.now.summary.tallies end.now)) }
        ensures stop { OnErr result (result ≡ Err Failure.WriteFault) }
        ensures write_fault { OnErr result (Rose (O.faults out.old) (O.faults out.new)) }
        ensures never_falls { O.faults out.old ≤ O.faults out.new }
    {
        let epochs = self.certifier.judged().count as u64;
        match self.summary.write(seed, ops, epochs, end, out) {
            Ok(()) => Ok(()),
            Err(_) => Err(Failure::WriteFault),
        }
    }
}

/// Writes the last line of a report.
pub fn write_end<O: Sink>(status: &Status, out: &mut O) -> Result<(), Failure>
    ensures line { OnOk result (Grows (O.held out.old) (O.held out.new) (last_line status.now)) }
    ensures front { OnErr result (GrowsByFront (O.held out.old) (O.held out.new) (last_line status.now)) }
    ensures stop { OnErr result (result ≡ Err Failure.WriteFault) }
    ensures write_fault { OnErr result (Rose (O.faults out.old) (O.faults out.new)) }
    ensures never_falls { O.faults out.old ≤ O.faults out.new }
{
    match write_last(status, out) {
        Ok(()) => Ok(()),
        Err(_) => Err(Failure::WriteFault),
    }
}
