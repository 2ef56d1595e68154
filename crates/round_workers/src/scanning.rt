//! How a worker scans its own places in an epoch.
ghost use Rattle.std.specs.Prelude.{◌≡◌, ◌≢◌, ◌↔◌, ◌≤◌, ◌+◌, ◌*◌, ◌/◌, ◌<◌, suc, [], true, false, IfOk, OnOk, vec_capacity};
ghost use Rattle.std.specs.List.{AllByRecursion};
ghost use Rattle.record_text.specs.Longest.{longest_blob};
ghost use Rattle.record_text.specs.Value.{IsOf};
ghost use Rattle.log_codec.specs.Command.{IsPathCommand};
ghost use Rattle.host_shard.specs.Shown.{shown_content};
ghost use Rattle.host_plan.specs.Visit.{between};
ghost use Rattle.host_epochs.specs.Hands.{content, entered, row_of, worker_of, IsFree};
ghost use Rattle.host_epochs.specs.Scan.{IsStale};
ghost use Rattle.host_epochs.specs.Table.{table, terms};
ghost use Rattle.host_epochs.specs.Terms.{owner, place_count};
ghost use Rattle.round_workers.specs.Placed.{HasTaken, IsRenewed, ScansAt, ScansFrom, StandsAs};
ghost use Rattle.round_workers.specs.Sharing.{IsSharedRound};
ghost use Rattle.round_workers.specs.Working.{GoesOnAs, HasEnded, IsRunning, IsOn, IsSending, Keeps};

use crate::shared_round::SharedRound;
use crate::worker_thread::WorkerThread;
use base_words::Memory;
use host_epochs::scan;
use host_plan::Commands;
use host_shard::Content;
use lamport_clocks::Stamp;
use log_codec::Command;
use record_hash::Digests;
use record_text::Element;
use std::sync::Wait;

// How many places a shard has: one for itself, and those of its hot keys.
const PLACES_EACH: usize = 5;

impl WorkerThread {
    /// Scans the places of the worker's own shards, in order, and says that it is through with its epoch. It goes on, unless its counters
    /// end: the answer says so.
    pub(crate) fn scan_own<R: Wait, D: Digests>(
        &mut self,
        rt: &R,
        shared: &SharedRound<'_, D>,
    ) -> Result<bool, Memory>
        requires shared { IsSharedRound D.functions shared.now }
        requires later { 0 < entered self.old.hand }
        requires scans { ScansFrom (terms D.functions shared.now.epochs.now) (row_of self.old.hand) 0 }
        requires free { IsFree (table shared.now.epochs.now) self.old.hand }
        requires sends { IsSending self.old }
        requires going { IsRunning (terms D.functions shared.now.epochs.now) self.old }
        ensures free { IsFree (table shared.now.epochs.now) self.new.hand }
        ensures sends { IsSending self.new }
        ensures goes_on { GoesOnAs self.old self.new }
        ensures on { IfOk result (λ on. on ≡ true → IsOn (terms D.functions shared.now.epochs.now) self.new) }
        ensures stays { IfOk result (λ on. on ≡ true → entered self.new.hand ≡ entered self.old.hand) }
        ensures ended { IfOk result (λ on. on ≡ false → HasEnded self.new.hand) }
        ensures keeps { OnOk result (Keeps (terms D.functions shared.now.epochs.now) self.old self.new) }
    {
        for shard in 0..shared.shards {
            if !self.scan_shard(rt, shared, shard)? {
                return Ok(false);
            }
        }
        shared.epochs.raise_done(&mut self.hand);
        self.offer(shared.alloc)?;
        Ok(true)
    }

    // Scans the first place of a shard, where the shard is one of the worker's own. It goes on, unless its counters end: the answer says
    // so.
    fn scan_shard<R: Wait, D: Digests>(
        &mut self,
        rt: &R,
        shared: &SharedRound<'_, D>,
        shard: u32,
    ) -> Result<bool, Memory>
        requires shared { IsSharedRound D.functions shared.now }
        requires later { 0 < entered self.old.hand }
        requires shard { shard < shared.now.shards }
        requires scans { ScansFrom (terms D.functions shared.now.epochs.now) (row_of self.old.hand) shard }
        requires free { IsFree (table shared.now.epochs.now) self.old.hand }
        requires sends { IsSending self.old }
        requires going { IsRunning (terms D.functions shared.now.epochs.now) self.old }
        ensures free { IsFree (table shared.now.epochs.now) self.new.hand }
        ensures sends { IsSending self.new }
        ensures goes_on { GoesOnAs self.old self.new }
        ensures going { IfOk result (λ on. on ≡ true → IsRunning (terms D.functions shared.now.epochs.now) self.new) }
        ensures stands { IfOk result (λ on. on ≡ true → StandsAs self.old.hand self.new.hand) }
        ensures scans { IfOk result (λ on. on ≡ true → ScansFrom (terms D.functions shared.now.epochs.now) (row_of self.new.hand) (suc shard)) }
        ensures renewed { IfOk result (λ on. on ≡ true → owner (terms D.functions shared.now.epochs.now) (shard * 5) ≡ worker_of self.new.hand
            → IsRenewed (terms D.functions shared.now.epochs.now) self.new.hand (shard * 5)) }
        ensures ended { IfOk result (λ on. on ≡ false → HasEnded self.new.hand) }
        ensures keeps { OnOk result (Keeps (terms D.functions shared.now.epochs.now) self.old self.new) }
    {
        if shard % u32::from(shared.workers) != u32::from(self.hand.worker()) {
            return Ok(true);
        }
        self.scan_place(rt, shared, shard as usize * PLACES_EACH)
    }

    // Scans a place of the worker's own: it renews the element there where that is of an epoch before the worker's, and else gives the
    // place back as it was. It goes on, unless its counters end: the answer says so.
    fn scan_place<R: Wait, D: Digests>(
        &mut self,
        rt: &R,
        shared: &SharedRound<'_, D>,
        place: usize,
    ) -> Result<bool, Memory>
        requires shared { IsSharedRound D.functions shared.now }
        requires later { 0 < entered self.old.hand }
        requires place { place < place_count (terms D.functions shared.now.epochs.now) }
        requires own { owner (terms D.functions shared.now.epochs.now) place ≡ worker_of self.old.hand }
        requires scans { ScansAt (terms D.functions shared.now.epochs.now) (row_of self.old.hand) place }
        requires free { IsFree (table shared.now.epochs.now) self.old.hand }
        requires sends { IsSending self.old }
        requires going { IsRunning (terms D.functions shared.now.epochs.now) self.old }
        ensures free { IsFree (table shared.now.epochs.now) self.new.hand }
        ensures sends { IsSending self.new }
        ensures goes_on { GoesOnAs self.old self.new }
        ensures going { IfOk result (λ on. on ≡ true → IsRunning (terms D.functions shared.now.epochs.now) self.new) }
        ensures stands { IfOk result (λ on. on ≡ true → StandsAs self.old.hand self.new.hand) }
        ensures scans { IfOk result (λ on. on ≡ true → ScansFrom (terms D.functions shared.now.epochs.now) (row_of self.new.hand) (suc (place / 5))) }
        ensures renewed { IfOk result (λ on. on ≡ true → IsRenewed (terms D.functions shared.now.epochs.now) self.new.hand place) }
        ensures ended { IfOk result (λ on. on ≡ false → HasEnded self.new.hand) }
        ensures keeps { OnOk result (Keeps (terms D.functions shared.now.epochs.now) self.old self.new) }
    {
        let commands = Vec::with_capacity(shared.alloc, 2)?;
        self.worker.log.settle()?;
        let content = shared.take(rt, &mut self.hand, place);
        if is_stale(&content, self.worker.clock.at().epoch) {
            return Ok(self.renew(shared, place, content, commands));
        }
        shared.epochs.give(&mut self.hand, place, content, None);
        Ok(true)
    }

    // Renews the element of a content that the worker took from a place of its own, logs that, and gives the place back. It goes on,
    // unless its counters end: the answer says so.
    fn renew<D: Digests>(
        &mut self,
        shared: &SharedRound<'_, D>,
        place: usize,
        content: Content,
        commands: Vec<Command>,
    ) -> bool
        requires shared { IsSharedRound D.functions shared.now }
        requires later { 0 < entered self.old.hand }
        requires own { owner (terms D.functions shared.now.epochs.now) place ≡ worker_of self.old.hand }
        requires scans { ScansAt (terms D.functions shared.now.epochs.now) (row_of self.old.hand) place }
        requires taken { HasTaken (terms D.functions shared.now.epochs.now) (table shared.now.epochs.now) self.old.hand place content }
        requires stale { IsStale self.old.worker.clock.at.epoch (shown_content content) }
        requires room { (commands.items ≡ []) × (2 ≤ vec_capacity commands) }
        requires settled { self.old.worker.log.settled ≡ true }
        requires sends { IsSending self.old }
        requires going { IsRunning (terms D.functions shared.now.epochs.now) self.old }
        ensures free { IsFree (table shared.now.epochs.now) self.new.hand }
        ensures sends { IsSending self.new }
        ensures goes_on { GoesOnAs self.old self.new }
        ensures going { result ≡ true → IsRunning (terms D.functions shared.now.epochs.now) self.new }
        ensures stands { result ≡ true → StandsAs self.old.hand self.new.hand }
        ensures scans { result ≡ true → ScansFrom (terms D.functions shared.now.epochs.now) (row_of self.new.hand) (suc (place / 5)) }
        ensures renewed { result ≡ true → IsRenewed (terms D.functions shared.now.epochs.now) self.new.hand place }
        ensures ended { result ≡ false → HasEnded self.new.hand }
        ensures keeps { Keeps (terms D.functions shared.now.epochs.now) self.old self.new }
    {
        let mut content = content;
        let before = self.worker.clock.at();
        let Some(element) = scan(&mut content, self.hand.worker(), &mut self.worker.clock) else {
            let element = content.pending();
            shared.epochs.stop(&mut self.hand, before, element.as_ref());
            shared.epochs.give(&mut self.hand, place, content, None);
            self.worker.stopped = true;
            return false;
        };
        shared
            .epochs
            .give(&mut self.hand, place, content, Some((before, None)));
        let after = self.worker.clock.at();
        self.worker.log.push(renewing(commands, element, after));
        true
    }
}

// The commands that take an element in and hand it out again with this stamp.
fn renewing(commands: Vec<Command>, element: Element, stamp: Stamp) -> Commands
    requires room { (commands.items ≡ []) × (2 ≤ vec_capacity commands) }
    requires kind { IsOf longest_blob element.path element.value }
    ensures commands { result ≡ between element stamp [] }
    ensures typed { AllByRecursion (IsPathCommand longest_blob) result }
{
    let mut commands = commands;
    let path = element.path;
    commands.push_reserved(Command::AddB {
        path,
        value: element.value,
        stamp: element.stamp,
        verifier: element.verifier,
    });
    commands.push_reserved(Command::EvictB { path, stamp });
    Commands::of(commands)
}

// Whether a content waits with an element of an epoch before this one.
fn is_stale(content: &Content, epoch: u32) -> bool
    ensures stale { (result ≡ true) ↔ IsStale epoch (shown_content content.now) }
{
    match content {
        Content::Cold(shard) => shard.stamp.epoch < epoch,
        Content::Hot(kept) => kept.stamp.epoch < epoch,
        Content::Vacant => false,
    }
}
