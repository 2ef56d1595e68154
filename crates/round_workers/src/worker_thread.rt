//! A worker in its thread.
use crate::shared_round::SharedRound;
use base_words::Memory;
use fv_outside::Gate;
use host_epochs::Hand;
use host_world::Worker;
use record_hash::Digests;
use std::alloc::Global;
use std::sync::Wait;
use verifier_feeds::Outbox;

/// A worker with its hand at the table, its outbox, how many epochs it entered in the round, and whether memory was wanting for it.
#[derive(Drop)]
pub struct WorkerThread {
    pub worker: Worker,
    pub hand: Hand,
    pub outbox: Outbox,
    pub entered: u64,
    pub wanting: bool,
}

impl WorkerThread {
    ghost use Rattle.std.specs.Prelude.{◌≡◌, true, OnOk};
    ghost use Rattle.worker_log.specs.Logged.{text_of};
    ghost use Rattle.host_epochs.specs.Hands.{worker_of, row_of, IsFree};
    ghost use Rattle.host_epochs.specs.Table.{table, terms};
    ghost use Rattle.host_world.specs.Workers.{shown_worker, writer_in};
    ghost use Rattle.verifier_feeds.specs.Feeds.{HasSentFrontOf, KeepsPlace, SameOutbox};
    ghost use Rattle.round_workers.specs.Parts.{HasDone};
    ghost use Rattle.round_workers.specs.Sharing.{turns_in, IsSharedRound};
    ghost use Rattle.round_workers.specs.Working.{own_asked, GoesOnAs, HasCome, HasSent, IsOn, IsReady, IsSending, IsThrough};

    /// Serves what the worker's turns ask, in order, each request at its place and in an epoch of at least its phase, and goes on to the
    /// last epoch, until it ends: its counters do, or no epoch is to come, or another worker stopped, or memory is wanting. Before each
    /// request it enters the gate. What it logs it sends to its verifier, and first of all what its log had before.
    pub fn serve_own<R: Wait, D: Digests, G: Gate>(
        &mut self,
        rt: &R,
        shared: &SharedRound<'_, D>,
        gate: &G,
    )
        requires shared { IsSharedRound D.functions shared.now }
        requires ready { IsReady (terms D.functions shared.now.epochs.now) (table shared.now.epochs.now) self.old }
        ensures through { IsThrough (terms D.functions shared.now.epochs.now) (table shared.now.epochs.now) (turns_in shared.now) self.old self.new }
        ensures sent { HasSent self.old self.new }
    {
        self.wanting = self.serve_part(rt, shared, gate).is_err();
        if self.wanting {
            shared.give_up();
        }
    }

    // The same, where that answers want of memory.
    fn serve_part<R: Wait, D: Digests, G: Gate>(
        &mut self,
        rt: &R,
        shared: &SharedRound<'_, D>,
        gate: &G,
    ) -> Result<(), Memory>
        requires shared { IsSharedRound D.functions shared.now }
        requires ready { IsReady (terms D.functions shared.now.epochs.now) (table shared.now.epochs.now) self.old }
        ensures free { IsFree (table shared.now.epochs.now) self.new.hand }
        ensures front { HasSentFrontOf self.new.outbox (text_of self.new.worker.log) }
        ensures goes_on { GoesOnAs self.old self.new }
        ensures done { OnOk result (HasDone (terms D.functions shared.now.epochs.now)
            (own_asked shared.now self.old) (row_of self.new.hand) (shown_worker self.old.worker) (shown_worker self.new.worker)) }
        ensures settled { OnOk result (self.new.worker.log.settled ≡ true) }
    {
        self.offer(shared.alloc)?;
        self.serve_turns(rt, shared, gate)?;
        self.end(shared.alloc)
    }

    // Serves the worker's turns, and goes on to the last epoch, until it ends.
    fn serve_turns<R: Wait, D: Digests, G: Gate>(
        &mut self,
        rt: &R,
        shared: &SharedRound<'_, D>,
        gate: &G,
    ) -> Result<(), Memory>
        requires shared { IsSharedRound D.functions shared.now }
        requires free { IsFree (table shared.now.epochs.now) self.old.hand }
        requires sends { IsSending self.old }
        requires on { IsOn (terms D.functions shared.now.epochs.now) self.old }
        requires begun { HasCome (terms D.functions shared.now.epochs.now) (own_asked shared.now self.old) (own_asked shared.now self.old)
            (shown_worker self.old.worker) self.old }
        ensures free { IsFree (table shared.now.epochs.now) self.new.hand }
        ensures sends { IsSending self.new }
        ensures goes_on { GoesOnAs self.old self.new }
        ensures done { OnOk result (HasDone (terms D.functions shared.now.epochs.now)
            (own_asked shared.now self.old) (row_of self.new.hand) (shown_worker self.old.worker) (shown_worker self.new.worker)) }
    {
        let own = &shared.turns[usize::from(self.hand.worker())];
        for turn in own {
            if !self.serve(rt, shared, gate, turn)? {
                return Ok(());
            }
        }
        self.reach(rt, shared, shared.more)?;
        Ok(())
    }

    // Writes what of its log isn't written yet, and sends of it what makes long parcels, as far as there is room.
    pub(crate) fn offer(&mut self, alloc: Global) -> Result<(), Memory>
        requires sends { IsSending self.old }
        ensures sends { IsSending self.new }
        ensures lane { SameOutbox self.old.outbox self.new.outbox }
        ensures hand { self.new.hand ≡ self.old.hand }
        ensures entered { self.new.entered ≡ self.old.entered }
        ensures worker { shown_worker self.new.worker ≡ shown_worker self.old.worker }
        ensures writer { writer_in self.new.worker ≡ writer_in self.old.worker }
    {
        self.worker.log.settle()?;
        self.outbox.offer(alloc, self.worker.log.bytes())
    }

    // Writes what of its log isn't written yet, and sends a last parcel of what is left of it.
    fn end(&mut self, alloc: Global) -> Result<(), Memory>
        requires sends { IsSending self.old }
        ensures front { HasSentFrontOf self.new.outbox (text_of self.new.worker.log) }
        ensures lane { SameOutbox self.old.outbox self.new.outbox }
        ensures settled { OnOk result (self.new.worker.log.settled ≡ true) }
        ensures hand { self.new.hand ≡ self.old.hand }
        ensures worker { shown_worker self.new.worker ≡ shown_worker self.old.worker }
        ensures writer { writer_in self.new.worker ≡ writer_in self.old.worker }
    {
        self.worker.log.settle()?;
        self.outbox.end(alloc, self.worker.log.bytes())
    }
}
