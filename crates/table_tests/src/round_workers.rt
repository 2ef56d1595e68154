//! A worker of a round in its thread.
ghost use Rattle.std.specs.Prelude.{◌≡◌, ◌<◌, IfSome, IfNone, IsTrue, Some};
ghost use Rattle.host_shard.specs.Content.{pending};
ghost use Rattle.host_shard.specs.Shown.{shown_content};
ghost use Rattle.host_epochs.specs.Calls.{IsThrough};
ghost use Rattle.host_epochs.specs.Hands.{done, entered, worker_of};
ghost use Rattle.host_epochs.specs.Table.{table, terms};
ghost use Rattle.host_epochs.specs.Terms.{owner, place_count};
ghost use Rattle.lamport_clocks.specs.Clock.{last_epoch};

use host_epochs::{Epochs, Hand, Taking, scan};
use host_shard::Content;
use lamport_clocks::Clock;
use record_hash::Digests;
use record_text::Element;
use std::thread::yield_now;

// How often a worker looks at most until a place is free or an epoch may be entered.
const LOOKS: u64 = 20_000_000;

/// How a worker's part of a round ended.
#[derive(Clone, Copy, Debug, PartialEq, Eq)]
pub enum RoundEnd {
    /// It went on to the last epoch, or is on its way there.
    Going,
    /// Its clock ended.
    Stopped,
    /// It read that a worker stopped.
    Warned,
    /// It looked too often, or found a place with nothing.
    Stuck,
}

/// A worker of a round: its hand and clock, how many epochs it entered, how many places it scanned, how often it found one
/// held, and how its part ended.
#[derive(Drop)]
pub struct RoundWorker {
    pub hand: Hand,
    pub clock: Clock,
    pub entered: u64,
    pub scans: u64,
    pub busy: u64,
    pub end: RoundEnd,
}

impl RoundWorker {
    ghost use Rattle.table_tests.specs.declared.round_workers.RoundEnd.TheVariants.{Going};
    ghost use Rattle.table_tests.specs.Rounds.{GoesOn, Has, HasEntered, HasMore, HasScanned, HasSeenAll, HasTaken, HasTurned, IsShape, IsWorkerOf, Works};

    /// Goes on by so many epochs: it enters one once all are through with its own, takes each place once, scans its own
    /// places and is through with them.
    pub(crate) fn work<D: Digests>(
        &mut self,
        epochs: &Epochs<D>,
        places: usize,
        workers: u16,
        more: u64,
    )
        requires shape { IsShape (terms D.functions epochs.now) places workers more }
        requires worker { IsWorkerOf (terms D.functions epochs.now) (table epochs.now) self.old }
        requires going { self.old.end ≡ Going }
        requires through { done self.old.hand ≡ entered self.old.hand }
        ensures works { Works (terms D.functions epochs.now) (table epochs.now) self.old self.new }
    {
        for _ in 0..more {
            if !self.step(epochs, places, workers, more) {
                break;
            }
        }
    }

    // One epoch more, if there is one.
    fn step<D: Digests>(
        &mut self,
        epochs: &Epochs<D>,
        places: usize,
        workers: u16,
        more: u64,
    ) -> bool
        requires shape { IsShape (terms D.functions epochs.now) places workers more }
        requires worker { IsWorkerOf (terms D.functions epochs.now) (table epochs.now) self.old }
        requires going { self.old.end ≡ Going }
        requires through { done self.old.hand ≡ entered self.old.hand }
        ensures works { Works (terms D.functions epochs.now) (table epochs.now) self.old self.new }
        ensures through { IsTrue result → (self.new.end ≡ Going) × (done self.new.hand ≡ entered self.new.hand) }
    {
        if self.entered >= more || !self.enter_next(epochs, workers) {
            return false;
        }
        self.visit_all(epochs, places);
        if self.end != RoundEnd::Going || !self.scan_all(epochs, places, workers) {
            return false;
        }
        epochs.raise_done(&mut self.hand);
        true
    }

    // Enters the next epoch, once all are through with the worker's.
    fn enter_next<D: Digests>(&mut self, epochs: &Epochs<D>, workers: u16) -> bool
        requires workers { workers ≡ (terms D.functions epochs.now).workers }
        requires worker { IsWorkerOf (terms D.functions epochs.now) (table epochs.now) self.old }
        requires going { self.old.end ≡ Going }
        requires more { HasMore (terms D.functions epochs.now) self.old.hand }
        ensures works { Works (terms D.functions epochs.now) (table epochs.now) self.old self.new }
        ensures entered { IsTrue result → HasEntered self.old self.new }
    {
        for _ in 0..LOOKS {
            if epochs.stopped(&mut self.hand) {
                self.end = RoundEnd::Warned;
                return false;
            }
            if epochs.newest(&mut self.hand) {
                self.turn();
                return true;
            }
            self.raise_or_wait(epochs, workers);
        }
        self.end = RoundEnd::Stuck;
        false
    }

    // Lets all enter the next epoch, if all are through with the worker's, and else gives others time.
    fn raise_or_wait<D: Digests>(&mut self, epochs: &Epochs<D>, workers: u16)
        requires workers { workers ≡ (terms D.functions epochs.now).workers }
        requires worker { IsWorkerOf (terms D.functions epochs.now) (table epochs.now) self.old }
        requires going { self.old.end ≡ Going }
        requires more { HasMore (terms D.functions epochs.now) self.old.hand }
        ensures goes { GoesOn (terms D.functions epochs.now) (table epochs.now) self.old self.new }
        ensures going { self.new.end ≡ Going }
    {
        if !self.all_through(epochs, workers) {
            yield_now();
            return;
        }
        epochs.raise(&mut self.hand);
    }

    // The clock turns to the epoch that was entered.
    fn turn(&mut self)
        requires last { self.old.clock.at.epoch < last_epoch }
        requires few { self.old.entered < last_epoch }
        ensures turned { HasTurned self.old self.new }
    {
        self.entered += 1;
        let _ = self.clock.next_epoch();
    }

    // Whether all workers are through with the worker's epoch.
    fn all_through<D: Digests>(&mut self, epochs: &Epochs<D>, workers: u16) -> bool
        requires workers { workers ≡ (terms D.functions epochs.now).workers }
        requires worker { IsWorkerOf (terms D.functions epochs.now) (table epochs.now) self.old }
        requires going { self.old.end ≡ Going }
        ensures goes { GoesOn (terms D.functions epochs.now) (table epochs.now) self.old self.new }
        ensures going { self.new.end ≡ Going }
        ensures all { IsTrue result → HasSeenAll (terms D.functions epochs.now) self.new.hand }
    {
        for worker in 0..workers {
            if epochs.done(&mut self.hand, worker) < self.entered {
                return false;
            }
        }
        true
    }

    // Takes each place once, and gives it back.
    fn visit_all<D: Digests>(&mut self, epochs: &Epochs<D>, places: usize)
        requires places { places ≡ place_count (terms D.functions epochs.now) }
        requires worker { IsWorkerOf (terms D.functions epochs.now) (table epochs.now) self.old }
        requires going { self.old.end ≡ Going }
        ensures goes { GoesOn (terms D.functions epochs.now) (table epochs.now) self.old self.new }
    {
        for place in 0..places {
            if self.end != RoundEnd::Going {
                break;
            }
            self.visit(epochs, place);
        }
    }

    // Takes a place, and gives it back.
    fn visit<D: Digests>(&mut self, epochs: &Epochs<D>, place: usize)
        requires place { place < place_count (terms D.functions epochs.now) }
        requires worker { IsWorkerOf (terms D.functions epochs.now) (table epochs.now) self.old }
        requires going { self.old.end ≡ Going }
        ensures goes { GoesOn (terms D.functions epochs.now) (table epochs.now) self.old self.new }
    {
        let Some(content) = self.take(epochs, place) else {
            return;
        };
        epochs.give(&mut self.hand, place, content, None);
    }

    // Scans the worker's places.
    fn scan_all<D: Digests>(&mut self, epochs: &Epochs<D>, places: usize, workers: u16) -> bool
        requires places { places ≡ place_count (terms D.functions epochs.now) }
        requires workers { workers ≡ (terms D.functions epochs.now).workers }
        requires worker { IsWorkerOf (terms D.functions epochs.now) (table epochs.now) self.old }
        requires going { self.old.end ≡ Going }
        requires scanning { done self.old.hand < entered self.old.hand }
        ensures goes { GoesOn (terms D.functions epochs.now) (table epochs.now) self.old self.new }
        ensures through { IsTrue result → (self.new.end ≡ Going) × IsThrough (terms D.functions epochs.now) self.new.hand }
    {
        for place in 0..places {
            if place / 5 % usize::from(workers) == usize::from(self.hand.worker())
                && !self.scan_place(epochs, place)
            {
                return false;
            }
        }
        true
    }

    // Scans one of the worker's places.
    fn scan_place<D: Digests>(&mut self, epochs: &Epochs<D>, place: usize) -> bool
        requires place { place < place_count (terms D.functions epochs.now) }
        requires own { owner (terms D.functions epochs.now) place ≡ worker_of self.old.hand }
        requires worker { IsWorkerOf (terms D.functions epochs.now) (table epochs.now) self.old }
        requires going { self.old.end ≡ Going }
        requires scanning { done self.old.hand < entered self.old.hand }
        ensures goes { GoesOn (terms D.functions epochs.now) (table epochs.now) self.old self.new }
        ensures scanned { IsTrue result → HasScanned (terms D.functions epochs.now) place self.new }
    {
        let Some(content) = self.take(epochs, place) else {
            return false;
        };
        let Some(element) = content.pending() else {
            epochs.give(&mut self.hand, place, content, None);
            self.end = RoundEnd::Stuck;
            return false;
        };
        if element.stamp.epoch >= self.clock.at().epoch {
            epochs.give(&mut self.hand, place, content, None);
            return true;
        }
        self.renew(epochs, place, content, &element)
    }

    // Renews the element of a place that is held, and gives the place back.
    fn renew<D: Digests>(
        &mut self,
        epochs: &Epochs<D>,
        place: usize,
        content: Content,
        element: &Element,
    ) -> bool
        requires place { place < place_count (terms D.functions epochs.now) }
        requires own { owner (terms D.functions epochs.now) place ≡ worker_of self.old.hand }
        requires holds { Has (terms D.functions epochs.now) (table epochs.now) place content self.old }
        requires element { pending (shown_content content) ≡ Some element.now }
        requires stale { element.now.stamp.epoch < self.old.clock.at.epoch }
        ensures goes { GoesOn (terms D.functions epochs.now) (table epochs.now) self.old self.new }
        ensures scanned { IsTrue result → HasScanned (terms D.functions epochs.now) place self.new }
    {
        let at = self.clock.at();
        let mut content = content;
        match scan(&mut content, self.hand.worker(), &mut self.clock) {
            Some(_) => {
                epochs.give(&mut self.hand, place, content, Some((at, None)));
                self.scans = self.scans.saturating_add(1);
                true
            }
            None => {
                epochs.stop(&mut self.hand, at, Some(element));
                epochs.give(&mut self.hand, place, content, None);
                self.end = RoundEnd::Stopped;
                false
            }
        }
    }

    // Takes a place, once it is free.
    fn take<D: Digests>(&mut self, epochs: &Epochs<D>, place: usize) -> Option<Content>
        requires place { place < place_count (terms D.functions epochs.now) }
        requires worker { IsWorkerOf (terms D.functions epochs.now) (table epochs.now) self.old }
        requires going { self.old.end ≡ Going }
        ensures taken { IfSome result (λ content. HasTaken (terms D.functions epochs.now) (table epochs.now) place content self.old self.new) }
        ensures none { IfNone result (GoesOn (terms D.functions epochs.now) (table epochs.now) self.old self.new) }
    {
        for _ in 0..LOOKS {
            match epochs.try_take(&mut self.hand, place) {
                Taking::Taken(content) => return Some(content),
                Taking::Busy => {
                    self.busy = self.busy.saturating_add(1);
                    yield_now();
                }
            }
        }
        self.end = RoundEnd::Stuck;
        None
    }
}
