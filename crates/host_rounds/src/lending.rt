//! A round in which the runs are fed elsewhere: they are lent, and what they then have taken is written.
ghost use Rattle.std.specs.Prelude.{◌≡◌};

use crate::counting::bytes_with;
use crate::framing::write_round;
use crate::laws::rounds_make_a_bundle;
use crate::rounds::Rounds;
use certified_epochs::FedRun;
use fv_outside::{Failure, Sink};
use host_log::LogBuffer;
use record_text::Operation;
use std::mem;
use verifier_run::pieces_do_not_matter;

impl Rounds {
    ghost use Rattle.std.specs.Prelude.{◌≡◌, ◌≤◌, ◌++◌, ◌∷◌, ℕ, [], List, Option, Err, length, OnOk, OnErr};
    ghost use Rattle.fv_outside.specs.Failures.{FailsByVault};
    ghost use Rattle.fv_outside.specs.Faults.{Rose};
    ghost use Rattle.fv_outside.specs.Written.{Grows, GrowsByFront};
    ghost use Rattle.lamport_clocks.specs.declared.header.Header.{Header};
    ghost use Rattle.record_hash.specs.Functions.{DigestFunctions};
    ghost use Rattle.bundle_report.specs.Report.{EpochText};
    ghost use Rattle.certified_epochs.specs.declared.fed_run.FedRun.{FedRun};
    ghost use Rattle.host_rounds.specs.Round.{logs_with, round_text};
    ghost use Rattle.host_rounds.specs.Bundle.{HasFront};
    ghost use Rattle.host_rounds.specs.Feeding.{AllRead};
    ghost use Rattle.host_rounds.specs.SoFar.{HaveRun, Keeps, lines_counted, with_runs};

    /// Lends the runs, one of each verifier, to be fed and handed back.
    pub fn lend_runs(&mut self) -> Vec<FedRun>
        ensures runs { result.items ≡ self.old.runs }
        ensures rest { self.new ≡ with_runs [] self.old }
    {
        let alloc = *self.runs.allocator();
        mem::replace(&mut self.runs, Vec::new(alloc))
    }

    /// So many bytes at most were fed to each run.
    pub fn bytes(&self) -> u64
        ensures value { result ≡ self.now.bytes }
    {
        self.bytes
    }

    /// Takes the runs back, or others in their stead.
    pub fn take_back(&mut self, runs: Vec<FedRun>)
        ensures runs { self.new ≡ with_runs runs.items self.old }
    {
        self.runs = runs;
    }

    /// Writes the logs of a round, one of each verifier, to the vault in frames, where the runs have already taken them. Of 2^63
    /// bytes or more in all it answers want of memory.
    pub fn write<V: Sink>(&mut self, logs: &[LogBuffer], vault: &mut V) -> Result<(), Failure>
        requires few { length logs.now ≤ 64 }

        // Whatever runs took them, with whatever logs before. Of epochs no more are counted yet, and their lines stay what they
        // were.
        ensures keeps { (functions : DigestFunctions) (header : Header) (before : List (List ℕ)) (rounds : List (List (List ℕ))) (held : Option (List ℕ)) (runs : List FedRun)
            → Keeps functions header before rounds (with_runs runs self.old) held (V.held vault.old) → AllRead functions logs.now runs self.old.runs
            → OnOk result (Keeps functions header (logs_with before logs.now) (rounds ++ (logs.now ∷ [])) self.new held (V.held vault.new)) }
        ensures counted { OnOk result (self.new.judged ≡ self.old.judged) }
        ensures lines { (tell : EpochText) (functions : DigestFunctions) (header : Header) (before : List (List ℕ)) (runs : List FedRun)
            → HaveRun functions header before (with_runs runs self.old)
            → OnOk result (lines_counted tell functions header (logs_with before logs.now) self.new ≡ lines_counted tell functions header before self.old) }
        ensures runs { OnOk result (self.new.runs ≡ self.old.runs) }

        // Where it stops, the vault has a front of their bundle, and at want of memory the whole. What it had before stays, in any
        // case.
        ensures grown { GrowsByFront (V.held vault.old) (V.held vault.new) (round_text logs.now) }
        ensures whole { result ≡ Err Failure.Memory → Grows (V.held vault.old) (V.held vault.new) (round_text logs.now) }
        ensures front { (functions : DigestFunctions) (header : Header) (before : List (List ℕ)) (rounds : List (List (List ℕ))) (held : Option (List ℕ)) (runs : List FedRun)
            → Keeps functions header before rounds (with_runs runs self.old) held (V.held vault.old) → AllRead functions logs.now runs self.old.runs
            → OnErr result (HasFront header (logs_with before logs.now) (rounds ++ (logs.now ∷ [])) held (V.held vault.new)) }
        ensures failure { FailsByVault result }
        ensures vault_fault { result ≡ Err Failure.VaultFault → Rose (V.faults vault.old) (V.faults vault.new) }
        ensures never_falls { V.faults vault.old ≤ V.faults vault.new }
        ensures name { V.name vault.new ≡ V.name vault.old }
    {
        rounds_make_a_bundle();
        pieces_do_not_matter::<Operation>();
        if write_round(logs, vault).is_err() {
            return Err(Failure::VaultFault);
        }
        self.bytes = bytes_with(self.bytes, logs)?;
        Ok(())
    }
}
