//! A worker in its thread, and its verifier in another beside it.
ghost use Rattle.std.specs.Prelude.{◌≡◌};

use fv_outside::Gate;
use record_hash::Digests;
use round_workers::{SharedRound, WorkerThread};
use std::sync::Wait;
use std::thread::{Threads, join_mut};
use verifier_feeds::{Inbox, settle};

/// What a worker has in its thread, and the inbox of its verifier.
#[derive(Drop)]
pub struct WorkerPair {
    pub thread: WorkerThread,
    pub inbox: Inbox,
}

impl WorkerPair {
    ghost use Rattle.std.specs.Prelude.{◌≡◌, [], false};
    ghost use Rattle.record_text.specs.Longest.{longest_blob};
    ghost use Rattle.host_epochs.specs.Table.{table, terms};
    ghost use Rattle.host_rounds.specs.Feeding.{Reads};
    ghost use Rattle.log_rings.specs.Lanes.{received_by};
    ghost use Rattle.verifier_feeds.specs.Feeds.{AreEndsOfOne, HasRoom, HasRead, SameInbox, bytes_of, is_wanting, run_of};
    ghost use Rattle.worker_threads.specs.Pairs.{IsPairReady, CanMeet, HasFed};
    ghost use Rattle.round_workers.specs.Sharing.{turns_in, IsSharedRound};
    ghost use Rattle.round_workers.specs.Working.{CanServe, HasSent, IsThrough};

    /// The worker does its part of the round while its verifier is fed with what it logs, each in a thread of its own where one
    /// can be made. Then the verifier is fed the rest, where memory was not wanting for the worker.
    pub(crate) fn meet<R: Threads + Wait + Sync, D: Digests + Sync, G: Gate + Sync>(
        mut self,
        rt: &R,
        shared: &SharedRound<'_, D>,
        gate: &G,
    ) -> WorkerPair
        requires can { CanMeet D.functions shared.now self }
        ensures through { IsThrough (terms D.functions shared.now.epochs.now) (table shared.now.epochs.now) (turns_in shared.now) self.thread result.thread }
        ensures fed { HasFed (D.functions shared.now.d.now) self result }
    {
        self.work_and_watch(rt, shared, gate);
        if self.thread.wanting {
            return self;
        }
        let thread = &mut self.thread;
        let log = thread.worker.log.bytes();
        settle(&mut thread.outbox, &mut self.inbox, log, shared.d);
        self
    }

    // The worker does its part of the round while its verifier watches the lane.
    fn work_and_watch<R: Threads + Wait + Sync, D: Digests + Sync, G: Gate + Sync>(
        &mut self,
        rt: &R,
        shared: &SharedRound<'_, D>,
        gate: &G,
    )
        requires shared { IsSharedRound D.functions shared.now }
        requires ready { IsPairReady (terms D.functions shared.now.epochs.now) (table shared.now.epochs.now) self.old }
        ensures through { IsThrough (terms D.functions shared.now.epochs.now) (table shared.now.epochs.now) (turns_in shared.now) self.old.thread self.new.thread }
        ensures sent { HasSent self.old.thread self.new.thread }
        ensures ends { AreEndsOfOne self.new.thread.outbox self.new.inbox }
        ensures room { HasRoom self.new.inbox }
        ensures taken { is_wanting self.new.inbox ≡ false
            → HasRead (D.functions shared.now.d.now) (bytes_of (received_by self.new.inbox.receiver)) (run_of self.old.inbox) (run_of self.new.inbox) }
    {
        let number = shared
            .header
            .verifiers
            .saturating_add(self.thread.hand.worker());
        let thread = &mut self.thread;
        let inbox = &mut self.inbox;
        let mut watch = ||
            requires { HasRoom inbox.now × (received_by inbox.now.receiver ≡ []) }
            ensures { HasRoom inbox.exit.now × SameInbox inbox.entry.now inbox.exit.now
                × (is_wanting inbox.exit.now ≡ false → HasRead (D.functions shared.entry.now.d.now)
                (bytes_of (received_by inbox.exit.now.receiver)) (run_of inbox.entry.now) (run_of inbox.exit.now)) }
        { inbox.watch(rt, shared.d, gate, number) };
        let mut work = ||
            requires { CanServe D.functions shared.now thread.now }
            ensures { IsThrough (terms D.functions shared.entry.now.epochs.now) (table shared.entry.now.epochs.now) (turns_in shared.entry.now) thread.entry.now thread.exit.now
                × HasSent thread.entry.now thread.exit.now }
        { thread.serve_own(rt, shared, gate) };
        join_mut(rt, &mut watch, &mut work);
    }
}
