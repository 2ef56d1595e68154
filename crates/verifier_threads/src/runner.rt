//! A run of a script, call by call: its setup, each round, each close, and its end.
ghost use Rattle.std.specs.Prelude.{◌≡◌, ◌≢◌, ◌≤◌, ◌<◌, ℕ, List, Option, length, OnOk, OnErr, IfOk, Ok, Err};
ghost use Rattle.fv_outside.specs.Failures.{FailsByOutput, FailsByVault};
ghost use Rattle.fv_outside.specs.Faults.{Rose};
ghost use Rattle.record_hash.specs.Functions.{DigestFunctions};
ghost use Rattle.script_text.specs.Text.{AreTasks};
ghost use Rattle.script_text.specs.declared.task.Task.{Task};
ghost use Rattle.shipped_host.specs.Settings.{IsSettings};
ghost use Rattle.verifier_threads.specs.Serving.{Outputs, IfDone, IsServed, IsCutOff, IsCutAtEnd, IsCutInHeader, IsCutInRound};
ghost use Rattle.verifier_threads.specs.Runners.{Stands, IsServing, IsUnserved, KeepsWhatIsCertified, TellsLines, next_call_of, rounds_left};

use crate::accounts::Account;
use crate::ending::RunEnd;
use crate::laws::a_header_begins_the_bundle;
use crate::world_run::WorldRun;
use fv_outside::{Failure, Gate, Sink};
use host_fits::scripts_ask_for_keys_in_range;
use host_rounds::Rounds;
use host_world::{ClockEnd, World, WorldFault};
use record_hash::Digests;
use run_reports::logs_of_no_bytes_certify_nothing;
use script_text::Requests;
use shipped_host::Settings;
use std::alloc::Global;
use std::sync::Wait;
use std::thread::Threads;

/// Which call of a runner comes next.
#[derive(Clone, Copy, Debug, PartialEq, Eq)]
pub enum NextCall {
    /// `round`: a round begins.
    Round,
    /// `close_epoch`: a round is done, and its close comes.
    Close,
    /// `finish`: nothing follows, and the end is to be written.
    Finish,
}

// What a runner runs.
#[derive(Drop)]
pub(crate) enum State<'a, D> {
    // The world is set up.
    Served(WorldRun<'a, D>),
    // The counters don't suffice for the setup.
    Unserved { rounds: Rounds, end: ClockEnd },
}

/// A run of a script. It is made with the script, and then called in the order that it says: `round` and `close_epoch` by turns, and
/// `finish` behind the last close. A round serves one phase, or in a rolling host all of them. The vault takes the bundle of the logs,
/// and the sink the report or the summary; both are handed in at each call, and are the same in all.
///
/// After an error it is of no more use.
#[derive(Drop)]
pub struct Runner<'a, D> {
    account: Account,
    next: NextCall,
    state: State<'a, D>,
}

impl<'a, D: Digests> Runner<'a, D> {
    /// Sets the world up, and writes the header of the bundle to the vault. Where the counters don't suffice for the setup there
    /// is no round, and the call that comes next is `finish`.
    pub fn make<V: Sink>(
        alloc: Global,
        d: &'a D,
        settings: &Settings,
        requests: &'a Requests,
        account: Account,
        vault: &mut V,
    ) -> Result<Self, Failure>
        requires settings { IsSettings settings.now }
        requires tasks { AreTasks settings.now.header requests.now }
        ensures stands { (held : Option (List ℕ)) → IfOk result (λ runner. Stands account D.functions (D.functions d.now) settings.now requests.now runner
            (record { vault = V.held vault.old; vault_after = V.held vault.new; out = held; out_after = held })) }
        ensures begins { settings.now.shards ≤ settings.now.header.end → IfOk result (λ runner. next_call_of runner ≡ NextCall.Round) }
        ensures unserved { settings.now.header.end < settings.now.shards → IfOk result (λ runner. next_call_of runner ≡ NextCall.Finish) }
        ensures left { IfOk result (λ runner. rounds_left runner ≤ length requests.now) }

        // Where it stops: at want of memory, or in the header.
        ensures cut { (held : Option (List ℕ)) → OnErr result (IsCutOff account (D.functions d.now) settings.now requests.now
            (record { vault = V.held vault.old; vault_after = V.held vault.new; out = held; out_after = held })) }
        ensures header { (held : Option (List ℕ)) → OnErr result (IsCutInHeader settings.now
            (record { vault = V.held vault.old; vault_after = V.held vault.new; out = held; out_after = held })) }
        ensures failure { FailsByVault result }
        ensures vault_fault { result ≡ Err Failure.VaultFault → Rose (V.faults vault.old) (V.faults vault.new) }
        ensures never_falls { V.faults vault.old ≤ V.faults vault.new }
        ensures name { V.name vault.new ≡ V.name vault.old }
    {
        scripts_ask_for_keys_in_range();
        a_header_begins_the_bundle(settings);
        a_script_has_a_phase(requests);
        match World::new(alloc, d, settings, requests) {
            Ok(world) => {
                let served = WorldRun::new(alloc, world, vault)?;
                Ok(Runner {
                    account,
                    next: NextCall::Round,
                    state: State::Served(served),
                })
            }
            Err(WorldFault::ClockEnd(end)) => {
                let rounds = Rounds::new(alloc, &settings.header, vault)?;
                Ok(Runner {
                    account,
                    next: NextCall::Finish,
                    state: State::Unserved { rounds, end },
                })
            }
            Err(WorldFault::Memory) => Err(Failure::Memory),
        }
    }

    /// The call that comes next.
    pub fn next_call(&self) -> NextCall
        ensures value { result ≡ next_call_of self.now }
    {
        self.next
    }

    /// Behind the last close: writes the last line of the report, or the summary, and answers how the run ends. Where no clock ended
    /// the contents hold the plain map that the bundle certifies.
    pub fn finish<O: Sink>(&mut self, out: &mut O) -> Result<RunEnd, Failure>
        requires next { next_call_of self.old ≡ NextCall.Finish }
        requires serving { (held : Option (List ℕ)) × IsServing D.functions self.old held }
        ensures served { (account : Account) (own : DigestFunctions) (settings : Settings) (script : List (List Task)) (outputs : Outputs)
            → Stands account D.functions own settings script self.old outputs → outputs.out_after ≡ O.held out.old
            → IfOk result (λ end. IsServed account own settings script end (record outputs { out_after = O.held out.new })) }

        ensures holds { (account : Account) (own : DigestFunctions) (settings : Settings) (script : List (List Task)) (outputs : Outputs)
            → Stands account D.functions own settings script self.old outputs
            → IfOk result (λ end. IfDone end (KeepsWhatIsCertified own settings self.new outputs)) }

        // Where it stops: the sink failed.
        ensures cut { (account : Account) (own : DigestFunctions) (settings : Settings) (script : List (List Task)) (outputs : Outputs)
            → Stands account D.functions own settings script self.old outputs → outputs.out_after ≡ O.held out.old
            → OnErr result (IsCutAtEnd account own settings script (record outputs { out_after = O.held out.new })) }
        ensures stop { OnErr result (result ≡ Err Failure.WriteFault) }
        ensures write_fault { OnErr result (Rose (O.faults out.old) (O.faults out.new)) }
        ensures never_falls { O.faults out.old ≤ O.faults out.new }
    {
        let account = self.account;
        match &mut self.state {
            State::Served(served) => served.end_with(&account, out),
            State::Unserved { rounds, end } => end_unserved(&account, rounds, *end, out),
        }
    }
}

impl<'a, D: Digests + Sync> Runner<'a, D> {
    /// A round: its requests are served, the gate is passed before each, and what is logged goes to the vault. In a rolling host it is
    /// the whole script, and each worker goes on to the next epoch as soon as all may.
    pub fn round<R: Threads + Wait + Sync, V: Sink, G: Gate + Sync>(
        &mut self,
        rt: &R,
        gate: &G,
        vault: &mut V,
    ) -> Result<(), Failure>
        requires next { next_call_of self.old ≡ NextCall.Round }
        requires serving { IsServing D.functions self.old (V.held vault.old) }
        ensures stands { (account : Account) (own : DigestFunctions) (settings : Settings) (script : List (List Task)) (outputs : Outputs)
            → Stands account D.functions own settings script self.old outputs → outputs.vault_after ≡ V.held vault.old
            → OnOk result (Stands account D.functions own settings script self.new (record outputs { vault_after = V.held vault.new })) }
        ensures next { OnOk result (next_call_of self.new ≡ NextCall.Close) }
        ensures left { OnOk result (rounds_left self.new ≡ rounds_left self.old) }

        // Where it stops: the vault has a front of what the round logged.
        ensures cut { (account : Account) (own : DigestFunctions) (settings : Settings) (script : List (List Task)) (outputs : Outputs)
            → Stands account D.functions own settings script self.old outputs → outputs.vault_after ≡ V.held vault.old
            → OnErr result (IsCutOff account own settings script (record outputs { vault_after = V.held vault.new })) }
        ensures cut_round { (account : Account) (own : DigestFunctions) (settings : Settings) (script : List (List Task)) (outputs : Outputs)
            → Stands account D.functions own settings script self.old outputs → outputs.vault_after ≡ V.held vault.old
            → OnErr result (IsCutInRound account own settings script (record outputs { vault_after = V.held vault.new })) }
        ensures failure { FailsByVault result }
        ensures vault_fault { result ≡ Err Failure.VaultFault → Rose (V.faults vault.old) (V.faults vault.new) }
        ensures never_falls { V.faults vault.old ≤ V.faults vault.new }
        ensures name { V.name vault.new ≡ V.name vault.old }
    {
        match &mut self.state {
            State::Served(served) => {
                served.round(rt, gate, vault)?;
                self.next = NextCall::Close;
                Ok(())
            }
            State::Unserved { .. } => unreachable!(),
        }
    }

    /// The close of a round: the workers move on to the next epoch, what they logged goes to the vault, and the lines of the epochs
    /// that are now certified are written. It is the last one at the script's end, and where a clock ended in the round. Where one ended
    /// in the round of a rolling host the workers do nothing more, and only the lines are written.
    pub fn close_epoch<R: Threads + Sync, V: Sink, O: Sink>(
        &mut self,
        rt: &R,
        vault: &mut V,
        out: &mut O,
    ) -> Result<(), Failure>
        requires next { next_call_of self.old ≡ NextCall.Close }
        requires serving { IsServing D.functions self.old (V.held vault.old) }
        ensures stands { (account : Account) (own : DigestFunctions) (settings : Settings) (script : List (List Task)) (outputs : Outputs)
            → Stands account D.functions own settings script self.old outputs → outputs.vault_after ≡ V.held vault.old → outputs.out_after ≡ O.held out.old
            → OnOk result (Stands account D.functions own settings script self.new (record outputs { vault_after = V.held vault.new; out_after = O.held out.new })) }
        ensures next { OnOk result (next_call_of self.new ≢ NextCall.Close) }
        ensures fewer { OnOk result (rounds_left self.new < rounds_left self.old) }

        // Where it stops: the vault has a front of what the close logged, or the sink failed at the lines of a report.
        ensures cut { (account : Account) (own : DigestFunctions) (settings : Settings) (script : List (List Task)) (outputs : Outputs)
            → Stands account D.functions own settings script self.old outputs → outputs.vault_after ≡ V.held vault.old → outputs.out_after ≡ O.held out.old
            → OnErr result (IsCutOff account own settings script (record outputs { vault_after = V.held vault.new; out_after = O.held out.new })) }
        ensures cut_round { (account : Account) (own : DigestFunctions) (settings : Settings) (script : List (List Task)) (outputs : Outputs)
            → Stands account D.functions own settings script self.old outputs → outputs.vault_after ≡ V.held vault.old → outputs.out_after ≡ O.held out.old
            → result ≡ Err Failure.VaultFault
            → IsCutInRound account own settings script (record outputs { vault_after = V.held vault.new; out_after = O.held out.new }) }
        ensures lines { (account : Account) (own : DigestFunctions) (settings : Settings) (script : List (List Task)) (outputs : Outputs)
            → Stands account D.functions own settings script self.old outputs → result ≡ Err Failure.WriteFault → TellsLines account }
        ensures failure { FailsByOutput result }
        ensures vault_fault { result ≡ Err Failure.VaultFault → Rose (V.faults vault.old) (V.faults vault.new) }
        ensures write_fault { result ≡ Err Failure.WriteFault → Rose (O.faults out.old) (O.faults out.new) }
        ensures vault_never_falls { V.faults vault.old ≤ V.faults vault.new }
        ensures never_falls { O.faults out.old ≤ O.faults out.new }
        ensures name { V.name vault.new ≡ V.name vault.old }
    {
        match &mut self.state {
            State::Served(served) => {
                self.next = served.close(rt, &self.account, vault, out)?;
                Ok(())
            }
            State::Unserved { .. } => unreachable!(),
        }
    }
}

// Where the counters don't suffice for the setup: the vault has the header alone, and nothing is certified.
fn end_unserved<O: Sink>(
    account: &Account,
    rounds: &Rounds,
    end: ClockEnd,
    out: &mut O,
) -> Result<RunEnd, Failure>
    ensures served { (own : DigestFunctions) (settings : Settings) (script : List (List Task)) (outputs : Outputs)
        → IsUnserved own settings rounds.now end outputs → outputs.out_after ≡ O.held out.old
        → IfOk result (λ end. IsServed account.now own settings script end (record outputs { out_after = O.held out.new })) }
    ensures cut { (own : DigestFunctions) (settings : Settings) (script : List (List Task)) (outputs : Outputs)
        → IsUnserved own settings rounds.now end outputs → outputs.out_after ≡ O.held out.old
        → OnErr result (IsCutAtEnd account.now own settings script (record outputs { out_after = O.held out.new })) }
    ensures ended { IfOk result (λ run. run ≡ RunEnd.ClockEnd end) }
    ensures stop { OnErr result (result ≡ Err Failure.WriteFault) }
    ensures write_fault { OnErr result (Rose (O.faults out.old) (O.faults out.new)) }
    ensures never_falls { O.faults out.old ≤ O.faults out.new }
{
    logs_of_no_bytes_certify_nothing();
    let ended = RunEnd::ClockEnd(end);
    account.write_ending(rounds, &ended.status(), out)?;
    Ok(ended)
}

// A script has a phase. The function does nothing, and its contract is the law.
fn a_script_has_a_phase(requests: &Requests)
    ensures some { 0 < length requests.now }
{
    let _count = requests.len();
}
