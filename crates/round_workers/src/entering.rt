//! How a worker goes on from epoch to epoch.
ghost use Rattle.std.specs.Prelude.{◌≡◌, ◌↔◌, ◌≤◌, ◌+◌, ◌<◌, suc, [], ◌∷◌, true, false, Ok, IfOk, OnOk, OnErr};
ghost use Rattle.lamport_clocks.specs.Clock.{last_epoch};
ghost use Rattle.log_codec.specs.declared.command.Command.TheVariants.{NextEpoch};
ghost use Rattle.host_core.specs.WorldEvent.{logging, next_clock};
ghost use Rattle.host_world.specs.Workers.{shown_worker, writer_in};
ghost use Rattle.host_shard.specs.Shown.{shown_content};
ghost use Rattle.host_epochs.specs.Hands.{content, done, entered, left, row_of, worker_of, IsFree, IsSeated, KeepsSeat};
ghost use Rattle.host_epochs.specs.Table.{table, terms};
ghost use Rattle.host_epochs.specs.Terms.{Waits, first_epoch};
ghost use Rattle.host_epochs.specs.declared.hand.Hand.{Hand};
ghost use Rattle.round_workers.specs.Placed.{HasOpened, StandsAs};
ghost use Rattle.round_workers.specs.Sharing.{IsSharedRound};
ghost use Rattle.round_workers.specs.Working.{GoesOnAs, HasEnded, IsRunning, IsOn, IsSending, Keeps, KeepsUpTo};

use crate::shared_round::SharedRound;
use crate::worker_thread::WorkerThread;
use base_words::Memory;
use host_plan::Commands;
use host_world::Worker;
use log_codec::Command;
use record_hash::Digests;
use std::alloc::Global;
use std::sync::Wait;

impl WorkerThread {
    /// Enters the next epoch and logs that, where it may be entered: the answer says so. It may where what the worker holds is of that
    /// epoch.
    pub(crate) fn enter<D: Digests>(&mut self, shared: &SharedRound<'_, D>) -> Result<bool, Memory>
        requires seated { IsSeated (table shared.now.epochs.now) self.old.hand }
        requires going { IsRunning (terms D.functions shared.now.epochs.now) self.old }
        requires sends { IsSending self.old }
        ensures seat { KeepsSeat (table shared.now.epochs.now) self.old.hand self.new.hand }
        ensures sends { IsSending self.new }
        ensures goes_on { GoesOnAs self.old self.new }
        ensures going { OnOk result (IsRunning (terms D.functions shared.now.epochs.now) self.new) }
        ensures keeps { OnOk result (KeepsUpTo (suc (entered self.old.hand)) (terms D.functions shared.now.epochs.now) self.old self.new) }
        ensures opened { IfOk result (λ turned. turned ≡ true → HasOpened (terms D.functions shared.now.epochs.now) (row_of self.new.hand)) }
        ensures entered { IfOk result (λ turned. turned ≡ true → entered self.new.hand ≡ suc (entered self.old.hand)) }
        ensures through { OnOk result (done self.new.hand ≡ done self.old.hand) }
        ensures settled { result ≡ Ok true → self.new.worker.log.settled ≡ true }
        ensures stays { IfOk result (λ turned. turned ≡ false → StandsAs self.old.hand self.new.hand) }
        ensures not_newer { IfOk result (λ turned. turned ≡ false
            → Waits (λ epoch. epoch ≤ first_epoch (terms D.functions shared.now.epochs.now) + entered self.old.hand) (shown_content (content self.old.hand))) }
        ensures served { self.new.worker.served ≡ self.old.worker.served }
    {
        if !shared.epochs.newest(&mut self.hand) {
            return Ok(false);
        }
        self.entered += 1;
        advance(&mut self.worker, shared.alloc)?;
        self.worker.log.settle()?;
        Ok(true)
    }

    /// Before a request: where there are other workers, it enters the next epoch where it may be entered, and is then through with that
    /// too. It goes on, unless its counters end: the answer says so.
    pub(crate) fn keep_up<R: Wait, D: Digests>(
        &mut self,
        rt: &R,
        shared: &SharedRound<'_, D>,
    ) -> Result<bool, Memory>
        requires shared { IsSharedRound D.functions shared.now }
        requires free { IsFree (table shared.now.epochs.now) self.old.hand }
        requires sends { IsSending self.old }
        requires on { IsOn (terms D.functions shared.now.epochs.now) self.old }
        ensures free { IsFree (table shared.now.epochs.now) self.new.hand }
        ensures sends { IsSending self.new }
        ensures goes_on { GoesOnAs self.old self.new }
        ensures on { IfOk result (λ on. on ≡ true → IsOn (terms D.functions shared.now.epochs.now) self.new) }
        ensures not_before { IfOk result (λ on. on ≡ true → entered self.old.hand ≤ entered self.new.hand) }
        ensures ended { IfOk result (λ on. on ≡ false → HasEnded self.new.hand) }
        ensures keeps { OnOk result (Keeps (terms D.functions shared.now.epochs.now) self.old self.new) }
    {
        // Nobody else lets a worker go on that is alone: it enters an epoch only once it waits for that.
        if shared.workers == 1 {
            return Ok(true);
        }
        if !self.enter(shared)? {
            return Ok(true);
        }
        self.scan_own(rt, shared)
    }

    /// Goes on until the worker is through with an epoch of at least this number, counted from that in which the round begins. It goes
    /// on, unless it ends before: the answer says so.
    pub(crate) fn reach<R: Wait, D: Digests>(
        &mut self,
        rt: &R,
        shared: &SharedRound<'_, D>,
        phase: u64,
    ) -> Result<bool, Memory>
        requires shared { IsSharedRound D.functions shared.now }
        requires phase { phase ≤ (terms D.functions shared.now.epochs.now).more }
        requires free { IsFree (table shared.now.epochs.now) self.old.hand }
        requires sends { IsSending self.old }
        requires on { IsOn (terms D.functions shared.now.epochs.now) self.old }
        ensures free { IsFree (table shared.now.epochs.now) self.new.hand }
        ensures sends { IsSending self.new }
        ensures goes_on { GoesOnAs self.old self.new }
        ensures on { IfOk result (λ on. on ≡ true → IsOn (terms D.functions shared.now.epochs.now) self.new) }
        ensures reached { IfOk result (λ on. on ≡ true → phase ≤ entered self.new.hand) }
        ensures ended { IfOk result (λ on. on ≡ false → HasEnded self.new.hand) }
        ensures keeps { OnOk result (KeepsUpTo phase (terms D.functions shared.now.epochs.now) self.old self.new) }
    {
        while self.entered < phase {
            if !self.come_on(rt, shared)? {
                return Ok(false);
            }
        }
        Ok(true)
    }

    // Goes on to the next epoch, once all workers are through with this one, and is then through with that too. It stops where no epoch
    // is to come. It goes on, unless it ends before: the answer says so.
    fn come_on<R: Wait, D: Digests>(
        &mut self,
        rt: &R,
        shared: &SharedRound<'_, D>,
    ) -> Result<bool, Memory>
        requires shared { IsSharedRound D.functions shared.now }
        requires more { entered self.old.hand < (terms D.functions shared.now.epochs.now).more }
        requires free { IsFree (table shared.now.epochs.now) self.old.hand }
        requires sends { IsSending self.old }
        requires on { IsOn (terms D.functions shared.now.epochs.now) self.old }
        ensures free { IsFree (table shared.now.epochs.now) self.new.hand }
        ensures sends { IsSending self.new }
        ensures goes_on { GoesOnAs self.old self.new }
        ensures on { IfOk result (λ on. on ≡ true → IsOn (terms D.functions shared.now.epochs.now) self.new) }
        ensures next { IfOk result (λ on. on ≡ true → entered self.new.hand ≡ suc (entered self.old.hand)) }
        ensures ended { IfOk result (λ on. on ≡ false → HasEnded self.new.hand) }
        ensures keeps { OnOk result (KeepsUpTo (suc (entered self.old.hand)) (terms D.functions shared.now.epochs.now) self.old self.new) }
    {
        let at = self.worker.clock.at();
        if at.epoch == u32::MAX {
            shared.epochs.stop(&mut self.hand, at, None);
            self.worker.stopped = true;
            return Ok(false);
        }
        if !self.wait(rt, shared)? {
            return Ok(false);
        }
        self.scan_own(rt, shared)
    }
}

// Logs that a worker goes to the next epoch, and goes there, if there is one: it answers that. For want of memory all is as before.
fn advance(worker: &mut Worker, alloc: Global) -> Result<bool, Memory>
    ensures last { IfOk result (λ advanced. (advanced ≡ false) ↔ (worker.old.clock.at.epoch ≡ last_epoch)) }
    ensures advanced { result ≡ Ok true
        → shown_worker worker.new ≡ logging (shown_worker worker.old) (NextEpoch ∷ []) (next_clock worker.old.clock) }
    ensures no_epoch { result ≡ Ok false → shown_worker worker.new ≡ shown_worker worker.old }
    ensures as_before { OnErr result (shown_worker worker.new ≡ shown_worker worker.old) }
    ensures writer { writer_in worker.new ≡ writer_in worker.old }
{
    let mut later = worker.clock;
    if later.next_epoch().is_err() {
        return Ok(false);
    }
    let mut commands = Vec::with_capacity(alloc, 1)?;
    worker.log.settle()?;
    commands.push_reserved(Command::NextEpoch);
    worker.log.push(Commands::of(commands));
    worker.clock = later;
    Ok(true)
}
