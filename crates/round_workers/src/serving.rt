//! How a worker serves a request.
ghost use Rattle.std.specs.Prelude.{◌≡◌, ℕ, ◌↔◌, ◌≤◌, ◌+◌, ◌^◌, ◌<◌, true, false, IfOk, OnOk};
ghost use Rattle.record_text.specs.Longest.{longest_blob};
ghost use Rattle.record_text.specs.Value.{IsBlob};
ghost use Rattle.host_shard.specs.Shown.{shown_content};
ghost use Rattle.host_epochs.specs.Hands.{entered, row_of, worker_of, IsFree};
ghost use Rattle.host_epochs.specs.Table.{table, terms};
ghost use Rattle.host_epochs.specs.Terms.{Waits, IsPlaceOf, first_epoch, owner};
ghost use Rattle.round_workers.specs.Parts.{HasPlace};
ghost use Rattle.round_workers.specs.Placed.{HasOpened, HasTaken, IsNewer, ScansFrom, StandsAs};
ghost use Rattle.round_workers.specs.Sharing.{IsSharedRound};
ghost use Rattle.round_workers.specs.Working.{EndsBy, GoesOnAs, HasEnded, IsRunning, IsOn, IsSending, Serves};

use crate::shared_round::SharedRound;
use crate::turn::Turn;
use crate::worker_thread::WorkerThread;
use base_words::Memory;
use fv_outside::Gate;
use host_plan::{PlanFault, plan};
use host_shard::Content;
use record_hash::Digests;
use record_text::{Blob, Request};
use std::sync::Wait;

impl WorkerThread {
    /// Serves a turn's request at its place, once its phase has begun, the worker has passed the gate and the place is free. The worker
    /// goes on, unless it ended: the answer says so.
    pub(crate) fn serve<R: Wait, D: Digests, G: Gate>(
        &mut self,
        rt: &R,
        shared: &SharedRound<'_, D>,
        gate: &G,
        turn: &Turn<'_>,
    ) -> Result<bool, Memory>
        requires shared { IsSharedRound D.functions shared.now }
        requires place { HasPlace (terms D.functions shared.now.epochs.now) turn.now }
        requires free { IsFree (table shared.now.epochs.now) self.old.hand }
        requires sends { IsSending self.old }
        requires on { IsOn (terms D.functions shared.now.epochs.now) self.old }
        ensures free { IsFree (table shared.now.epochs.now) self.new.hand }
        ensures sends { IsSending self.new }
        ensures goes_on { GoesOnAs self.old self.new }
        ensures on { IfOk result (λ on. on ≡ true → IsOn (terms D.functions shared.now.epochs.now) self.new) }
        ensures serves { IfOk result (λ on. on ≡ true
            → Serves (terms D.functions shared.now.epochs.now) turn.now.phase turn.now.task.request self.old self.new) }
        ensures ended { IfOk result (λ on. on ≡ false → HasEnded self.new.hand) }
        ensures ends { IfOk result (λ on. on ≡ false
            → EndsBy (terms D.functions shared.now.epochs.now) turn.now.phase turn.now.task.request self.old self.new) }
    {
        if !self.reach(rt, shared, turn.phase)? {
            return Ok(false);
        }
        if !self.keep_up(rt, shared)? {
            return Ok(false);
        }
        gate.enter(self.hand.worker(), self.worker.served);
        if self.worker.served == u64::MAX {
            return Err(Memory);
        }
        self.worker.log.settle()?;
        let place = turn.place as usize;
        let request = turn.task.request();
        let content = shared.take(rt, &mut self.hand, place);
        let on = self.serve_taken(rt, shared, place, content, &request)?;
        self.offer(shared.alloc)?;
        Ok(on)
    }

    // Serves a request with what the worker took from the key's place, in the epoch that the worker is in, or in the next one where what
    // it took is of that. The worker goes on, unless it ended: the answer says so.
    fn serve_taken<R: Wait, D: Digests>(
        &mut self,
        rt: &R,
        shared: &SharedRound<'_, D>,
        place: usize,
        content: Content,
        request: &Request,
    ) -> Result<bool, Memory>
        requires shared { IsSharedRound D.functions shared.now }
        requires place { IsPlaceOf (terms D.functions shared.now.epochs.now) place request.now.key }
        requires taken { HasTaken (terms D.functions shared.now.epochs.now) (table shared.now.epochs.now) self.old.hand place content }
        requires settled { self.old.worker.log.settled ≡ true }
        requires few { self.old.worker.served + 1 < 2 ^ 64 }
        requires sends { IsSending self.old }
        requires on { IsOn (terms D.functions shared.now.epochs.now) self.old }
        ensures free { IsFree (table shared.now.epochs.now) self.new.hand }
        ensures sends { IsSending self.new }
        ensures goes_on { GoesOnAs self.old self.new }
        ensures on { IfOk result (λ on. on ≡ true → IsOn (terms D.functions shared.now.epochs.now) self.new) }
        ensures serves { IfOk result (λ on. on ≡ true → (phase : ℕ) → phase ≤ entered self.old.hand
            → Serves (terms D.functions shared.now.epochs.now) phase request.now self.old self.new) }
        ensures ended { IfOk result (λ on. on ≡ false → HasEnded self.new.hand) }
        ensures ends { IfOk result (λ on. on ≡ false → (phase : ℕ) → phase ≤ entered self.old.hand
            → EndsBy (terms D.functions shared.now.epochs.now) phase request.now self.old self.new) }
    {
        if is_newer(&content, self.worker.clock.at().epoch) {
            return self.serve_newer(rt, shared, place, content, request);
        }
        self.answer(shared, place, content, request)
    }

    // The same with a content whose element is of the next epoch: the worker enters that first, and scans its own places once it gave
    // this one back.
    fn serve_newer<R: Wait, D: Digests>(
        &mut self,
        rt: &R,
        shared: &SharedRound<'_, D>,
        place: usize,
        content: Content,
        request: &Request,
    ) -> Result<bool, Memory>
        requires shared { IsSharedRound D.functions shared.now }
        requires place { IsPlaceOf (terms D.functions shared.now.epochs.now) place request.now.key }
        requires taken { HasTaken (terms D.functions shared.now.epochs.now) (table shared.now.epochs.now) self.old.hand place content }
        requires newer { IsNewer self.old.worker.clock.at.epoch (shown_content content) }
        requires few { self.old.worker.served + 1 < 2 ^ 64 }
        requires sends { IsSending self.old }
        requires on { IsOn (terms D.functions shared.now.epochs.now) self.old }
        ensures free { IsFree (table shared.now.epochs.now) self.new.hand }
        ensures sends { IsSending self.new }
        ensures goes_on { GoesOnAs self.old self.new }
        ensures on { IfOk result (λ on. on ≡ true → IsOn (terms D.functions shared.now.epochs.now) self.new) }
        ensures serves { IfOk result (λ on. on ≡ true → (phase : ℕ) → phase ≤ entered self.old.hand
            → Serves (terms D.functions shared.now.epochs.now) phase request.now self.old self.new) }
        ensures ended { IfOk result (λ on. on ≡ false → HasEnded self.new.hand) }
        ensures ends { IfOk result (λ on. on ≡ false → (phase : ℕ) → phase ≤ entered self.old.hand
            → EndsBy (terms D.functions shared.now.epochs.now) phase request.now self.old self.new) }
    {
        let Ok(turned) = self.enter(shared) else {
            shared.epochs.give(&mut self.hand, place, content, None);
            return Err(Memory);
        };
        prove!(turned);
        if !self.answer(shared, place, content, request)? {
            return Ok(false);
        }
        self.scan_own(rt, shared)
    }

    // Serves a request with what the worker took from the key's place, whose element is of no later epoch than the worker's, and gives
    // the place back. It stops where its counters end. It goes on, unless it stopped: the answer says so.
    fn answer<D: Digests>(
        &mut self,
        shared: &SharedRound<'_, D>,
        place: usize,
        content: Content,
        request: &Request,
    ) -> Result<bool, Memory>
        requires shared { IsSharedRound D.functions shared.now }
        requires place { IsPlaceOf (terms D.functions shared.now.epochs.now) place request.now.key }
        requires taken { HasTaken (terms D.functions shared.now.epochs.now) (table shared.now.epochs.now) self.old.hand place content }
        requires not_newer { Waits (λ epoch. epoch ≤ first_epoch (terms D.functions shared.now.epochs.now) + entered self.old.hand) (shown_content content) }
        requires fresh { owner (terms D.functions shared.now.epochs.now) place ≡ worker_of self.old.hand
            → Waits (λ epoch. first_epoch (terms D.functions shared.now.epochs.now) + entered self.old.hand ≤ epoch) (shown_content content) }
        requires settled { self.old.worker.log.settled ≡ true }
        requires few { self.old.worker.served + 1 < 2 ^ 64 }
        requires sends { IsSending self.old }
        requires going { IsRunning (terms D.functions shared.now.epochs.now) self.old }
        ensures free { IsFree (table shared.now.epochs.now) self.new.hand }
        ensures sends { IsSending self.new }
        ensures goes_on { GoesOnAs self.old self.new }
        ensures going { IfOk result (λ on. on ≡ true → IsRunning (terms D.functions shared.now.epochs.now) self.new) }
        ensures stands { IfOk result (λ on. on ≡ true → StandsAs self.old.hand self.new.hand) }
        ensures serves { IfOk result (λ on. on ≡ true → (phase : ℕ) → phase ≤ entered self.old.hand
            → Serves (terms D.functions shared.now.epochs.now) phase request.now self.old self.new) }
        ensures scans { IfOk result (λ on. on ≡ true → HasOpened (terms D.functions shared.now.epochs.now) (row_of self.old.hand)
            → ScansFrom (terms D.functions shared.now.epochs.now) (row_of self.new.hand) 0) }
        ensures ended { IfOk result (λ on. on ≡ false → HasEnded self.new.hand) }
        ensures ends { IfOk result (λ on. on ≡ false → (phase : ℕ)
            → EndsBy (terms D.functions shared.now.epochs.now) phase request.now self.old self.new) }
    {
        let mut content = content;
        let before = self.worker.clock.at();
        let number = self.hand.worker();
        let clock = &mut self.worker.clock;
        a_blob_has_at_most_255_bytes(&request.value);
        match plan(
            shared.alloc,
            shared.d,
            &mut content,
            request,
            number,
            clock,
            shared.absent,
        ) {
            Ok(plan) => {
                shared.epochs.give(
                    &mut self.hand,
                    place,
                    content,
                    Some((before, Some(request))),
                );
                self.worker.log.push(plan.commands);
                self.worker.served += 1;
                Ok(true)
            }
            Err(PlanFault::ClockEnd) => {
                shared.epochs.stop_at(&mut self.hand, before, request);
                shared.epochs.give(&mut self.hand, place, content, None);
                self.worker.stopped = true;
                Ok(false)
            }
            Err(PlanFault::Memory) => {
                shared.epochs.give(&mut self.hand, place, content, None);
                Err(Memory)
            }
        }
    }
}

// A data value has 255 bytes at most: its type says so.
fn a_blob_has_at_most_255_bytes(value: &Blob)
    ensures fits { IsBlob longest_blob value.now }
{
    let _ = value.bytes();
}

// Whether a content waits with an element of a later epoch than this one.
fn is_newer(content: &Content, epoch: u32) -> bool
    ensures newer { (result ≡ true) ↔ IsNewer epoch (shown_content content.now) }
{
    match content {
        Content::Cold(shard) => epoch < shard.stamp.epoch,
        Content::Hot(kept) => epoch < kept.stamp.epoch,
        Content::Vacant => false,
    }
}
