//! A run of a script whose world is set up, round by round, and what becomes of the logs.
ghost use Rattle.std.specs.Prelude.{◌≡◌, ◌≢◌, ◌↔◌, ◌⊎◌, ◌≤◌, ◌<◌, ℕ, suc, true, false, List, [], ◌∷◌, ◌++◌, Option, None, length, map, replicate, OnOk, OnErr, IfOk, Ok, Err};
ghost use Rattle.std.specs.List.{AllByRecursion};
ghost use Rattle.fv_outside.specs.Failures.{FailsByOutput, FailsByVault, FailsByWriting};
ghost use Rattle.fv_outside.specs.Faults.{Rose};
ghost use Rattle.certified_epochs.specs.declared.fed_run.FedRun.{FedRun};
ghost use Rattle.certified_epochs.specs.Telling.{text_by};
ghost use Rattle.certified_epochs.specs.Turn.{AreVerdictsOn};
ghost use Rattle.host_core.specs.World.{set_up, logs_of};
ghost use Rattle.host_core.specs.WorldEvent.{IsLast};
ghost use Rattle.shipped_host.specs.Settings.{IsSettings};
ghost use Rattle.host_world.specs.Shown.{shown_world, digests_of, requests_of, settings_of};
ghost use Rattle.shipped_host.specs.Ranges.{AreInRange, HaveShortValues};
ghost use Rattle.host_world.specs.Behind.{AreOfOneHost, host_of};
ghost use Rattle.host_serving.specs.Leading.{first_of};
ghost use Rattle.host_serving.specs.Standing.{turns_of, IsServedOut, IsRoundStopped};
ghost use Rattle.host_rounds.specs.SoFar.{HaveRunSome};
ghost use Rattle.verifier_threads.specs.declared.runner.State.{State};
ghost use Rattle.verifier_threads.specs.InRounds.{Logs, IsBehindRounds};
ghost use Rattle.verifier_threads.specs.Serving.{Outputs, IfDone, HoldsWhatIsCertified, IsServed, IsCutOff, IsCutInHeader, IsCutInRound, IsCutAtEnd, end_by, told_for};
ghost use Rattle.verifier_threads.specs.Runners.{StandsBefore, TellsLines, left_by};
ghost use Rattle.verifier_threads.specs.Running.{Runs, RunsSome, RunsTold, RunsBehind, RunsWhole, RunsToEnd, rounds_before, IsUnderWay, IsUnderWayBehind, IsUnderWayWhole, IsFedUnderWay, HaveReadRound, IsAtRound, IsAtClose, IsAtEnd, all_handed_out, with_runs_of, may_seal};

use crate::accounts::Account;
use crate::ending::RunEnd;
use crate::handing::hand_out_all;
use crate::laws::{a_header_begins_the_bundle, what_is_due_stays_due};
use crate::runner::NextCall;
use base_words::Memory;
use certified_epochs::Telling;
use epoch_gather::Verdict;
use fv_outside::{Failure, Gate, Sink};
use host_log::LogBuffer;
use host_rounds::{Rounds, rounds_make_a_bundle};
use host_serving::close_phase;
use host_world::{ClockEnd, World};
use merkle_records::digests_have_32_bytes;
use record_hash::Digests;
use report_text::BundleEnd;
use run_reports::{
    a_check_of_the_logs_ends_as_the_host_promises, logs_come_to_rest,
    logs_of_no_bytes_certify_nothing, the_contents_hold_what_a_check_certifies,
};
use std::alloc::Global;
use std::sync::Wait;
use std::thread::Threads;
use worker_threads::serve_round_at_once;

/// A run of a script: the world, what the verifiers have come to over its logs, a buffer for the log of each worker, how many
/// parcels each verifier took, and the first end of a clock. The vault and the sink of the report are handed in at each call.
///
/// After an error it is of no more use.
#[derive(Drop)]
pub(crate) struct WorldRun<'a, D> {
    pub(crate) alloc: Global,
    pub(crate) world: World<'a, D>,
    pub(crate) rounds: Rounds,
    pub(crate) buffers: Vec<LogBuffer>,
    pub(crate) parcels: Vec<u64>,
    pub(crate) end: Option<ClockEnd>,
}

impl<'a, D: Digests> WorldRun<'a, D> {
    /// Before the first round: writes the header of the bundle to the vault.
    pub(crate) fn new<V: Sink>(
        alloc: Global,
        world: World<'a, D>,
        vault: &mut V,
    ) -> Result<Self, Failure>
        requires setup { shown_world world ≡ set_up (host_of (D.functions (digests_of world)) world) }
        requires settings { IsSettings (settings_of world) }
        requires counters { (settings_of world).shards ≤ (settings_of world).header.end }
        requires keys { AreInRange (settings_of world).header (requests_of world) }
        requires values { HaveShortValues (settings_of world).header (requests_of world) }
        requires some { 0 < length (requests_of world) }
        ensures runs { (account : Account) (held : Option (List ℕ)) → IfOk result (λ runner. RunsBehind account D.functions runner 0 0
            (record { vault = V.held vault.old; vault_after = V.held vault.new; out = held; out_after = held })) }
        ensures world { IfOk result (λ runner. runner.world ≡ world.entry) }
        ensures begins { IfOk result (λ runner. IsAtRound (host_of (D.functions (digests_of world.entry)) world.entry)
            (shown_world world.entry) runner.end) }
        ensures cut { (account : Account) (held : Option (List ℕ)) → OnErr result (IsCutOff account (D.functions (digests_of world.entry))
            (settings_of world.entry) (requests_of world.entry) (record { vault = V.held vault.old; vault_after = V.held vault.new; out = held; out_after = held })) }
        ensures header { (held : Option (List ℕ)) → OnErr result (IsCutInHeader (settings_of world.entry)
            (record { vault = V.held vault.old; vault_after = V.held vault.new; out = held; out_after = held })) }
        ensures failure { FailsByVault result }
        ensures vault_fault { result ≡ Err Failure.VaultFault → Rose (V.faults vault.old) (V.faults vault.new) }
        ensures never_falls { V.faults vault.old ≤ V.faults vault.new }
        ensures name { V.name vault.new ≡ V.name vault.old }
    {
        logs_of_no_bytes_certify_nothing();
        let settings = world.settings();
        a_header_begins_the_bundle(&settings);
        let header = settings.header;
        let buffers = buffers_for(alloc, header.verifiers)?;
        let parcels = counts_for(alloc, header.verifiers)?;
        let rounds = Rounds::new(alloc, &header, vault)?;
        Ok(WorldRun {
            alloc,
            world,
            rounds,
            buffers,
            parcels,
            end: None,
        })
    }

    /// Behind the last close: writes the last line of the report, or the summary of a load.
    pub(crate) fn end_with<O: Sink>(
        &mut self,
        account: &Account,
        out: &mut O,
    ) -> Result<RunEnd, Failure>
        requires runs { IsUnderWayWhole D.functions self.old }
        requires ended { IsAtEnd (host_of (D.functions (digests_of self.old.world)) self.old.world) (shown_world self.old.world) self.old.end }
        ensures served { (outputs : Outputs) → RunsToEnd account.now D.functions self.old outputs → outputs.out_after ≡ O.held out.old
            → IfOk result (λ end. IsServed account.now (D.functions (digests_of self.old.world)) (settings_of self.old.world) (requests_of self.old.world) end
            (record outputs { out_after = O.held out.new })) }
        ensures cut { (outputs : Outputs) → RunsToEnd account.now D.functions self.old outputs → outputs.out_after ≡ O.held out.old
            → OnErr result (IsCutAtEnd account.now (D.functions (digests_of self.old.world)) (settings_of self.old.world) (requests_of self.old.world)
            (record outputs { out_after = O.held out.new })) }
        ensures holds { (outputs : Outputs) → RunsToEnd account.now D.functions self.old outputs
            → IfOk result (λ end. IfDone end (HoldsWhatIsCertified (D.functions (digests_of self.new.world)) (settings_of self.new.world) (shown_world self.new.world) outputs.vault outputs.vault_after)) }
        ensures world { self.new.world ≡ self.old.world }
        ensures stop { OnErr result (result ≡ Err Failure.WriteFault) }
        ensures write_fault { OnErr result (Rose (O.faults out.old) (O.faults out.new)) }
        ensures never_falls { O.faults out.old ≤ O.faults out.new }
    {
        the_contents_hold_what_a_check_certifies();
        let end = self.conclude();
        account.write_ending(&self.rounds, &end.status(), out)?;
        Ok(end)
    }

    // How it ends, behind the last close: where no clock ended, each phase is certified.
    fn conclude(&mut self) -> RunEnd
        requires runs { IsUnderWayWhole D.functions self.old }
        requires ended { IsAtEnd (host_of (D.functions (digests_of self.old.world)) self.old.world) (shown_world self.old.world) self.old.end }
        ensures end { result ≡ end_by (length (requests_of self.old.world)) self.old.end }
        ensures world { self.new.world ≡ self.old.world }
        ensures judged { self.new.rounds.judged ≡ self.old.rounds.judged }
        ensures summary { self.new.rounds.summary ≡ self.old.rounds.summary }
    {
        a_check_of_the_logs_ends_as_the_host_promises();
        match self.end {
            None => match self.rounds.end() {
                BundleEnd::Done { epochs } => RunEnd::Done(epochs),
                _ => unreachable!(),
            },
            Some(end) => RunEnd::ClockEnd(end),
        }
    }

    // How the epochs are told that a close certifies: of a summary not at all, so that no line is made.
    fn telling(&self, account: &Account) -> Telling<'a, D>
        ensures text { text_by D.functions result ≡ told_for account.now (D.functions (digests_of self.now.world)) self.now.world.settings.header }
    {
        match account {
            Account::Report { receipts } => Telling::new(
                *receipts,
                self.world.digests(),
                &self.world.settings().header,
            ),
            Account::Summary(_) => Telling::Nothing,
        }
    }

    // Hands out what all workers logged, where the verifiers' runs have already taken it: it goes to the vault.
    fn set_down<V: Sink>(&mut self, vault: &mut V) -> Result<(), Failure>
        requires runs { IsFedUnderWay D.functions self.old (V.held vault.old) }
        ensures runs { (account : Account) (outputs : Outputs) (before : List FedRun) (past : List Logs)
            → Runs account D.functions (with_runs_of before self.old) past outputs → HaveReadRound D.functions before self.old
            → IsBehindRounds (host_of (D.functions (digests_of self.old.world)) self.old.world) (suc (length past)) (shown_world self.old.world)
            → outputs.vault_after ≡ V.held vault.old
            → OnOk result (Runs account D.functions self.new (past ++ (logs_of (shown_world self.old.world) ∷ [])) (record outputs { vault_after = V.held vault.new })) }
        ensures handed { OnOk result (shown_world self.new.world ≡ all_handed_out (shown_world self.old.world)) }
        ensures end { self.new.end ≡ self.old.end }
        ensures cut { (account : Account) (outputs : Outputs) (before : List FedRun) → RunsSome account D.functions (with_runs_of before self.old) outputs
            → outputs.vault_after ≡ V.held vault.old
            → OnErr result (IsCutOff account (D.functions (digests_of self.old.world)) (settings_of self.old.world) (requests_of self.old.world)
            (record outputs { vault_after = V.held vault.new })) }
        ensures cut_round { (account : Account) (outputs : Outputs) (before : List FedRun) (closes : ℕ)
            → RunsBehind account D.functions (with_runs_of before self.old) closes closes outputs → outputs.vault_after ≡ V.held vault.old
            → OnErr result (IsCutInRound account (D.functions (digests_of self.old.world)) (settings_of self.old.world) (requests_of self.old.world)
            (record outputs { vault_after = V.held vault.new })) }
        ensures host { AreOfOneHost self.old.world self.new.world }
        ensures failure { FailsByVault result }
        ensures vault_fault { result ≡ Err Failure.VaultFault → Rose (V.faults vault.old) (V.faults vault.new) }
        ensures never_falls { V.faults vault.old ≤ V.faults vault.new }
        ensures name { V.name vault.new ≡ V.name vault.old }
    {
        what_is_due_stays_due();
        rounds_make_a_bundle();
        logs_come_to_rest();
        hand_out_all(&mut self.world, self.buffers.as_mut_slice())?;
        self.rounds.write(self.buffers.as_slice(), vault)
    }
}

impl<'a, D: Digests + Sync> WorldRun<'a, D> {
    /// A close, the last one or another, of a round that is served out: the workers move on to the next epoch, what they logged goes
    /// to the vault, and the lines of all epochs that are now certified are written, or of a summary nothing. A clock may end in it, and
    /// then no more can be done.
    pub(crate) fn close_epoch<R: Threads + Sync, V: Sink, O: Sink>(
        &mut self,
        rt: &R,
        last: bool,
        account: &Account,
        vault: &mut V,
        out: &mut O,
    ) -> Result<(), Failure>
        requires runs { IsUnderWayBehind D.functions self.old (suc (rounds_before self.old)) (rounds_before self.old) (V.held vault.old) }
        requires done { IsAtClose (host_of (D.functions (digests_of self.old.world)) self.old.world)
            (shown_world self.old.world) self.old.end }
        requires served { IsServedOut (host_of (D.functions (digests_of self.old.world)) self.old.world) (shown_world self.old.world) }
        requires last { (last ≡ true) ↔ IsLast (host_of (D.functions (digests_of self.old.world)) self.old.world)
            (shown_world self.old.world) }
        ensures runs { (outputs : Outputs) → RunsBehind account.now D.functions self.old (suc (rounds_before self.old)) (rounds_before self.old) outputs
            → outputs.vault_after ≡ V.held vault.old → outputs.out_after ≡ O.held out.old
            → OnOk result (RunsWhole account.now D.functions self.new (suc (rounds_before self.old)) (record outputs { vault_after = V.held vault.new; out_after = O.held out.new })) }
        ensures ended { (last ≡ true) ⊎ (self.new.end ≢ None)
            → OnOk result (IsAtEnd (host_of (D.functions (digests_of self.new.world)) self.new.world) (shown_world self.new.world) self.new.end
            × (self.new.end ≡ None → (shown_world self.new.world).phase ≡ (shown_world self.old.world).phase)) }
        ensures kept { self.new.end ≡ None → self.old.end ≡ None }
        ensures opened { last ≡ false → self.new.end ≡ None
            → OnOk result (IsAtRound (host_of (D.functions (digests_of self.new.world)) self.new.world) (shown_world self.new.world) self.new.end
            × ((shown_world self.new.world).phase ≡ suc (shown_world self.old.world).phase) × (rounds_before self.new ≡ suc (rounds_before self.old))) }
        ensures cut { (outputs : Outputs) → RunsBehind account.now D.functions self.old (suc (rounds_before self.old)) (rounds_before self.old) outputs → outputs.vault_after ≡ V.held vault.old
            → outputs.out_after ≡ O.held out.old
            → OnErr result (IsCutOff account.now (D.functions (digests_of self.old.world)) (settings_of self.old.world) (requests_of self.old.world)
            (record outputs { vault_after = V.held vault.new; out_after = O.held out.new })) }
        ensures cut_round { (outputs : Outputs) → RunsBehind account.now D.functions self.old (suc (rounds_before self.old)) (rounds_before self.old) outputs
            → outputs.vault_after ≡ V.held vault.old → outputs.out_after ≡ O.held out.old → result ≡ Err Failure.VaultFault
            → IsCutInRound account.now (D.functions (digests_of self.old.world)) (settings_of self.old.world) (requests_of self.old.world)
            (record outputs { vault_after = V.held vault.new; out_after = O.held out.new }) }
        ensures lines { result ≡ Err Failure.WriteFault → TellsLines account.now }
        ensures host { AreOfOneHost self.old.world self.new.world }
        ensures failure { FailsByOutput result }
        ensures vault_fault { result ≡ Err Failure.VaultFault → Rose (V.faults vault.old) (V.faults vault.new) }
        ensures write_fault { result ≡ Err Failure.WriteFault → Rose (O.faults out.old) (O.faults out.new) }
        ensures vault_never_falls { V.faults vault.old ≤ V.faults vault.new }
        ensures never_falls { O.faults out.old ≤ O.faults out.new }
        ensures name { V.name vault.new ≡ V.name vault.old }
    {
        what_is_due_stays_due();
        rounds_make_a_bundle();
        let end = close_phase(&mut self.world, last)?;
        self.end = earlier_end(self.end, end);
        let settled = self.pass_to_seal(rt, last, vault)?;
        self.write_certified(rt, account, &settled, out)
    }

    // Writes the lines of all epochs that the logs certify and that are not written yet, or of a summary nothing. The verdicts on the
    // first of these may have been settled when the logs were taken.
    fn write_certified<R: Threads + Sync, O: Sink>(
        &mut self,
        rt: &R,
        account: &Account,
        settled: &[Verdict],
        out: &mut O,
    ) -> Result<(), Failure>
        requires runs { HaveRunSome self.old.rounds }
        requires settled { AreVerdictsOn self.old.rounds.judged (map (λ fed. fed.run) self.old.rounds.runs) settled.now }
        ensures runs { (outputs : Outputs) (past : List Logs) → Runs account.now D.functions self.old past outputs → outputs.out_after ≡ O.held out.old
            → OnOk result (RunsTold account.now D.functions self.new past (record outputs { out_after = O.held out.new })) }
        ensures world { self.new.world ≡ self.old.world }
        ensures end { self.new.end ≡ self.old.end }
        ensures cut { (outputs : Outputs) (past : List Logs) → Runs account.now D.functions self.old past outputs → outputs.out_after ≡ O.held out.old
            → OnErr result (IsCutOff account.now (D.functions (digests_of self.old.world)) (settings_of self.old.world) (requests_of self.old.world)
            (record outputs { out_after = O.held out.new })) }
        ensures lines { result ≡ Err Failure.WriteFault → TellsLines account.now }
        ensures failure { FailsByWriting result }
        ensures write_fault { result ≡ Err Failure.WriteFault → Rose (O.faults out.old) (O.faults out.new) }
        ensures never_falls { O.faults out.old ≤ O.faults out.new }
    {
        what_is_due_stays_due();
        rounds_make_a_bundle();
        let telling = self.telling(account);
        let rounds = &mut self.rounds;
        account.certify(rt, self.alloc, rounds, settled, &telling, out)
    }

    // Hands out what all workers logged in a close: it goes to the vault, and the verifiers' runs take it, each in a thread of its
    // own. The answer is the verdicts on what they sealed, one for each epoch that the close may seal.
    fn pass_to_seal<R: Threads + Sync, V: Sink>(
        &mut self,
        rt: &R,
        last: bool,
        vault: &mut V,
    ) -> Result<Vec<Verdict>, Failure>
        requires runs { IsUnderWay D.functions self.old (V.held vault.old) }
        ensures runs { (account : Account) (outputs : Outputs) (past : List Logs) → Runs account D.functions self.old past outputs
            → IsBehindRounds (host_of (D.functions (digests_of self.old.world)) self.old.world) (suc (length past)) (shown_world self.old.world)
            → outputs.vault_after ≡ V.held vault.old
            → OnOk result (Runs account D.functions self.new (past ++ (logs_of (shown_world self.old.world) ∷ [])) (record outputs { vault_after = V.held vault.new })) }
        ensures handed { OnOk result (shown_world self.new.world ≡ all_handed_out (shown_world self.old.world)) }
        ensures settled { IfOk result (λ settled. AreVerdictsOn self.new.rounds.judged (map (λ fed. fed.run) self.new.rounds.runs) settled.items) }
        ensures count { IfOk result (λ settled. length settled.items
            ≡ may_seal last (settings_of self.old.world).rolling (length (requests_of self.old.world))) }
        ensures end { self.new.end ≡ self.old.end }
        ensures cut { (account : Account) (outputs : Outputs) → RunsSome account D.functions self.old outputs → outputs.vault_after ≡ V.held vault.old
            → OnErr result (IsCutOff account (D.functions (digests_of self.old.world)) (settings_of self.old.world) (requests_of self.old.world)
            (record outputs { vault_after = V.held vault.new })) }
        ensures cut_round { (account : Account) (outputs : Outputs) (closes : ℕ) → RunsBehind account D.functions self.old (suc closes) closes outputs
            → outputs.vault_after ≡ V.held vault.old
            → OnErr result (IsCutInRound account (D.functions (digests_of self.old.world)) (settings_of self.old.world) (requests_of self.old.world)
            (record outputs { vault_after = V.held vault.new })) }
        ensures host { AreOfOneHost self.old.world self.new.world }
        ensures failure { FailsByVault result }
        ensures vault_fault { result ≡ Err Failure.VaultFault → Rose (V.faults vault.old) (V.faults vault.new) }
        ensures never_falls { V.faults vault.old ≤ V.faults vault.new }
        ensures name { V.name vault.new ≡ V.name vault.old }
    {
        what_is_due_stays_due();
        rounds_make_a_bundle();
        logs_come_to_rest();
        hand_out_all(&mut self.world, self.buffers.as_mut_slice())?;
        let d = self.world.digests();
        digests_have_32_bytes(d);
        let count = may_seal(
            last,
            self.world.settings().rolling,
            self.world.requests().len(),
        );
        self.rounds
            .seal(rt, self.alloc, d, self.buffers.as_slice(), count, vault)
    }

    /// A round: its requests are served, and the verifiers read what is logged meanwhile. Then that goes to the vault. A clock may
    /// end in it.
    pub(crate) fn round<R: Threads + Wait + Sync, V: Sink, G: Gate + Sync>(
        &mut self,
        rt: &R,
        gate: &G,
        vault: &mut V,
    ) -> Result<(), Failure>
        requires runs { IsUnderWayBehind D.functions self.old (rounds_before self.old) (rounds_before self.old) (V.held vault.old) }
        requires begins { IsAtRound (host_of (D.functions (digests_of self.old.world)) self.old.world)
            (shown_world self.old.world) self.old.end }
        requires workers { (phase : ℕ) → AllByRecursion (λ turn. turn.0 < length (shown_world self.old.world).workers)
            (turns_of (host_of (D.functions (digests_of self.old.world)) self.old.world) phase) }
        ensures runs { (account : Account) (outputs : Outputs)
            → RunsBehind account D.functions self.old (rounds_before self.old) (rounds_before self.old) outputs → outputs.vault_after ≡ V.held vault.old
            → OnOk result (RunsBehind account D.functions self.new (suc (rounds_before self.old)) (rounds_before self.old)
            (record outputs { vault_after = V.held vault.new })) }
        ensures done { OnOk result (IsAtClose (host_of (D.functions (digests_of self.new.world)) self.new.world)
            (shown_world self.new.world) self.new.end) }
        ensures same_phase { OnOk result ((shown_world self.new.world).phase ≡ (shown_world self.old.world).phase) }
        ensures cut { (account : Account) (outputs : Outputs) → RunsBehind account D.functions self.old (rounds_before self.old) (rounds_before self.old) outputs → outputs.vault_after ≡ V.held vault.old
            → OnErr result (IsCutOff account (D.functions (digests_of self.old.world)) (settings_of self.old.world) (requests_of self.old.world)
            (record outputs { vault_after = V.held vault.new })) }
        ensures cut_round { (account : Account) (outputs : Outputs) → RunsBehind account D.functions self.old (rounds_before self.old) (rounds_before self.old) outputs
            → outputs.vault_after ≡ V.held vault.old
            → OnErr result (IsCutInRound account (D.functions (digests_of self.old.world)) (settings_of self.old.world) (requests_of self.old.world)
            (record outputs { vault_after = V.held vault.new })) }
        ensures host { AreOfOneHost self.old.world self.new.world }
        ensures failure { FailsByVault result }
        ensures vault_fault { result ≡ Err Failure.VaultFault → Rose (V.faults vault.old) (V.faults vault.new) }
        ensures never_falls { V.faults vault.old ≤ V.faults vault.new }
        ensures name { V.name vault.new ≡ V.name vault.old }
    {
        what_is_due_stays_due();
        rounds_make_a_bundle();
        let bytes = self.rounds.bytes();
        let mut runs = self.rounds.lend_runs();
        self.end = serve_round_at_once(
            rt,
            self.alloc,
            &mut self.world,
            gate,
            &mut runs,
            bytes,
            &mut self.parcels,
        )?;
        self.rounds.take_back(runs);
        self.set_down(vault)
    }

    /// A close, which is the last one at the script's end, or where a clock ended in its round. Behind the round of a rolling host in
    /// which one ended there is none, and the lines of all epochs that are certified are written. The answer says which call comes
    /// next.
    pub(crate) fn close<R: Threads + Sync, V: Sink, O: Sink>(
        &mut self,
        rt: &R,
        account: &Account,
        vault: &mut V,
        out: &mut O,
    ) -> Result<NextCall, Failure>
        requires runs { IsUnderWayBehind D.functions self.old (suc (rounds_before self.old)) (rounds_before self.old) (V.held vault.old) }
        requires done { IsAtClose (host_of (D.functions (digests_of self.old.world)) self.old.world)
            (shown_world self.old.world) self.old.end }
        ensures stands { (outputs : Outputs) → StandsBefore NextCall.Close account.now D.functions self.old outputs
            → outputs.vault_after ≡ V.held vault.old → outputs.out_after ≡ O.held out.old
            → IfOk result (λ call. StandsBefore call account.now D.functions self.new (record outputs { vault_after = V.held vault.new; out_after = O.held out.new })) }
        ensures call { result ≢ Ok NextCall.Close }
        ensures fewer { IfOk result (λ call. left_by call (State.Served self.new) < left_by NextCall.Close (State.Served self.old)) }
        ensures cut { (outputs : Outputs) → StandsBefore NextCall.Close account.now D.functions self.old outputs
            → outputs.vault_after ≡ V.held vault.old → outputs.out_after ≡ O.held out.old
            → OnErr result (IsCutOff account.now (D.functions (digests_of self.old.world)) (settings_of self.old.world) (requests_of self.old.world)
            (record outputs { vault_after = V.held vault.new; out_after = O.held out.new })) }
        ensures cut_round { (outputs : Outputs) → StandsBefore NextCall.Close account.now D.functions self.old outputs
            → outputs.vault_after ≡ V.held vault.old → outputs.out_after ≡ O.held out.old → result ≡ Err Failure.VaultFault
            → IsCutInRound account.now (D.functions (digests_of self.old.world)) (settings_of self.old.world) (requests_of self.old.world)
            (record outputs { vault_after = V.held vault.new; out_after = O.held out.new }) }
        ensures lines { result ≡ Err Failure.WriteFault → TellsLines account.now }
        ensures host { AreOfOneHost self.old.world self.new.world }
        ensures failure { FailsByOutput result }
        ensures vault_fault { result ≡ Err Failure.VaultFault → Rose (V.faults vault.old) (V.faults vault.new) }
        ensures write_fault { result ≡ Err Failure.WriteFault → Rose (O.faults out.old) (O.faults out.new) }
        ensures vault_never_falls { V.faults vault.old ≤ V.faults vault.new }
        ensures never_falls { O.faults out.old ≤ O.faults out.new }
        ensures name { V.name vault.new ≡ V.name vault.old }
    {
        if self.is_stopped() {
            self.write_certified(rt, account, &[], out)?;
            return Ok(NextCall::Finish);
        }
        let last = self.is_last_close();
        self.close_epoch(rt, last, account, vault, out)?;
        Ok(call_behind(last, self.end))
    }

    // Whether a clock ended in the round of a rolling host, so that no close follows.
    fn is_stopped(&self) -> bool
        requires done { IsAtClose (host_of (D.functions (digests_of self.now.world)) self.now.world)
            (shown_world self.now.world) self.now.end }
        ensures stopped { result ≡ true → IsRoundStopped (host_of (D.functions (digests_of self.now.world)) self.now.world) (shown_world self.now.world) }
        ensures served { result ≡ false → IsServedOut (host_of (D.functions (digests_of self.now.world)) self.now.world) (shown_world self.now.world) }
    {
        stops_round(self.world.settings().rolling, self.end)
    }

    // Whether the close that comes is the last one: at the script's end, or where a clock ended in the round.
    fn is_last_close(&self) -> bool
        requires done { IsAtClose (host_of (D.functions (digests_of self.now.world)) self.now.world)
            (shown_world self.now.world) self.now.end }
        ensures last { (result ≡ true) ↔ IsLast (host_of (D.functions (digests_of self.now.world)) self.now.world)
            (shown_world self.now.world) }
    {
        let left = self.world.requests().len() - self.world.phase();
        closes_last(left, self.end)
    }
}

// The first of two ends, if either is there.
fn earlier_end(first: Option<ClockEnd>, later: Option<ClockEnd>) -> Option<ClockEnd>
    ensures value { result ≡ first_of first later }
{
    match first {
        Some(end) => Some(end),
        None => later,
    }
}

// Whether a round is stopped: that of a rolling host, in which a clock ended.
fn stops_round(rolling: bool, end: Option<ClockEnd>) -> bool
    ensures stopped { rolling ≡ true → end ≢ None → result ≡ true }
    ensures plain { rolling ≡ false → result ≡ false }
    ensures running { end ≡ None → result ≡ false }
{
    rolling && end.is_some()
}

// Whether a close is the last one: of the script's last phase, or where a clock ended in its round.
fn closes_last(left: usize, end: Option<ClockEnd>) -> bool
    ensures at_end { left ≤ 1 → result ≡ true }
    ensures ended { end ≢ None → result ≡ true }
    ensures going { 1 < left → end ≡ None → result ≡ false }
{
    left <= 1 || end.is_some()
}

// How many epochs a close may seal, of a script of so many phases.
fn may_seal(last: bool, rolling: bool, phases: usize) -> usize
    ensures value { result ≡ may_seal last rolling phases }
{
    if !last {
        1
    } else if rolling {
        phases.max(2)
    } else {
        2
    }
}

// The call behind a close: the next round, or where the close was the last or a clock has ended, the end.
fn call_behind(last: bool, end: Option<ClockEnd>) -> NextCall
    ensures over { (last ≡ true) ⊎ (end ≢ None) → result ≡ NextCall.Finish }
    ensures going { last ≡ false → end ≡ None → result ≡ NextCall.Round }
{
    if last || end.is_some() {
        NextCall::Finish
    } else {
        NextCall::Round
    }
}

// So many buffers that hold nothing.
fn buffers_for(alloc: Global, count: u16) -> Result<Vec<LogBuffer>, Memory>
    ensures len { IfOk result (λ buffers. length buffers.items ≡ count) }
{
    let mut buffers = Vec::new(alloc);
    for _ in 0..count {
        buffers.push(LogBuffer::new(alloc))?;
    }
    Ok(buffers)
}

// A count for each of so many: nothing was counted.
fn counts_for(alloc: Global, count: u16) -> Result<Vec<u64>, Memory>
    ensures none { IfOk result (λ counts. counts.items ≡ replicate count 0) }
{
    let counts = vec![in alloc; 0; usize::from(count)]?;
    Ok(counts)
}
