//! A close's round: the logs are taken, and verdicts are settled on the epochs that they may seal.
ghost use Rattle.std.specs.Prelude.{◌≡◌, ℕ, ◌≤◌, ◌++◌, ◌∷◌, [], List, Option, length, map, OnOk, OnErr, IfOk, Err};
ghost use Rattle.fv_outside.specs.Failures.{FailsByVault};
ghost use Rattle.fv_outside.specs.Faults.{Rose};
ghost use Rattle.fv_outside.specs.Written.{Grows, GrowsByFront};
ghost use Rattle.lamport_clocks.specs.declared.header.Header.{Header};
ghost use Rattle.record_hash.specs.Functions.{DigestFunctions};
ghost use Rattle.bundle_report.specs.Report.{EpochText};
ghost use Rattle.certified_epochs.specs.Turn.{AreVerdictsOn};
ghost use Rattle.host_rounds.specs.Round.{logs_with, round_text};
ghost use Rattle.host_rounds.specs.Bundle.{HasFront};
ghost use Rattle.host_rounds.specs.SoFar.{HaveRun, HaveRunBy, Keeps, lines_counted};

use crate::framing::write_round;
use crate::laws::rounds_make_a_bundle;
use crate::rounds::Rounds;
use crate::sealing::seal_round;
use epoch_gather::Verdict;
use fv_outside::{Failure, Sink};
use host_log::LogBuffer;
use record_hash::Digests;
use std::alloc::Global;
use std::mem::replace;
use std::thread::Threads;

impl Rounds {
    /// Takes the logs of a close's round, one of each verifier: writes them to the vault in frames, and feeds them to the runs side
    /// by side. Each verifier has a thread of its own, where one can be made, and there hands in what its run has sealed. Of 2^63
    /// bytes or more in all that is want of memory. The answer is the verdicts that were settled so, on as many epochs as is asked,
    /// from the next one on: for each that the round may seal there is to be one.
    pub fn seal<R: Threads + Sync, D: Digests + Sync, V: Sink>(
        &mut self,
        rt: &R,
        alloc: Global,
        d: &D,
        logs: &[LogBuffer],
        count: usize,
        vault: &mut V,
    ) -> Result<Vec<Verdict>, Failure>
        requires each { length logs.now ≡ length self.old.runs }
        requires runs { HaveRunBy (D.functions d.now) self.old }

        // Whatever logs were taken so far: these are taken behind them. Of epochs no more are counted yet, and their lines
        // stay what they were.
        ensures keeps { (header : Header) (before : List (List ℕ)) (rounds : List (List (List ℕ))) (held : Option (List ℕ))
            → Keeps (D.functions d.now) header before rounds self.old held (V.held vault.old)
            → OnOk result (Keeps (D.functions d.now) header (logs_with before logs.now) (rounds ++ (logs.now ∷ [])) self.new held (V.held vault.new)) }
        ensures counted { OnOk result (self.new.judged ≡ self.old.judged) }
        ensures lines { (tell : EpochText) (functions : DigestFunctions) (header : Header) (before : List (List ℕ)) → HaveRun functions header before self.old
            → OnOk result (lines_counted tell functions header (logs_with before logs.now) self.new ≡ lines_counted tell functions header before self.old) }
        ensures runs { OnOk result (length self.new.runs ≡ length self.old.runs) }
        ensures count { IfOk result (λ settled. length settled.items ≡ count) }
        ensures settled { IfOk result (λ settled. AreVerdictsOn self.new.judged (map (λ fed. fed.run) self.new.runs) settled.items) }

        // Where it stops, the vault has a front of their bundle, and at want of memory the whole. What it had before stays, in any
        // case.
        ensures grown { GrowsByFront (V.held vault.old) (V.held vault.new) (round_text logs.now) }
        ensures whole { result ≡ Err Failure.Memory → Grows (V.held vault.old) (V.held vault.new) (round_text logs.now) }
        ensures front { (header : Header) (before : List (List ℕ)) (rounds : List (List (List ℕ))) (held : Option (List ℕ))
            → Keeps (D.functions d.now) header before rounds self.old held (V.held vault.old)
            → OnErr result (HasFront header (logs_with before logs.now) (rounds ++ (logs.now ∷ [])) held (V.held vault.new)) }
        ensures failure { FailsByVault result }
        ensures vault_fault { result ≡ Err Failure.VaultFault → Rose (V.faults vault.old) (V.faults vault.new) }
        ensures never_falls { V.faults vault.old ≤ V.faults vault.new }
        ensures name { V.name vault.new ≡ V.name vault.old }
    {
        rounds_make_a_bundle();
        if write_round(logs, vault).is_err() {
            return Err(Failure::VaultFault);
        }
        let runs = replace(&mut self.runs, Vec::new(alloc));
        let (runs, settled) = seal_round(rt, alloc, d, logs, count, runs, &mut self.bytes)?;
        self.runs = runs;
        Ok(settled)
    }
}
