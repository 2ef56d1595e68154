//! What one worker of a world does.
ghost use Rattle.std.specs.Prelude.{◌≡◌, ◌≢◌, ◌<◌, IfOk, OnOk, OnErr, length, true, Some, Ok, is_some};
ghost use Rattle.host_core.specs.World.{worker_at, shard_at};
ghost use Rattle.host_core.specs.WorldEvent.{takes, serves, gives, advances, moves, opens, raises, enters, scans, finishes, stops, step, MayTake, MayServe, MayGive, MayAdvance, MayMove, MayOpen, MayRaise, MayEnter, MayScan, MayFinish, MayStop};
ghost use Rattle.host_world.specs.Places.{place_of};
ghost use Rattle.host_world.specs.Shown.{shown_world, digests_of};
ghost use Rattle.host_world.specs.Ending.{end_of};
ghost use Rattle.host_world.specs.Behind.{host_of, CanTakeSeats, StandsBehind, AreOfOneHost};
ghost use Rattle.host_world.specs.Doing.{renewed};

use crate::fault::ClockEnd;
use crate::seats::reopen;
use crate::worker::Held;
use crate::world::World;
use base_words::Memory;
use record_hash::Digests;
use record_text::{Element, Request};

// How many places a shard has: one for itself, and four hot ones.
pub(crate) const PLACES_EACH: u32 = 5;

impl<'a, D: Digests> World<'a, D> {
    // A worker takes a place.
    pub(crate) fn take(&mut self, worker: u16, place: u32)
        requires may { MayTake (host_of (D.functions (digests_of self.old)) self.old) (shown_world self.old)
            worker (place_of place) }
        ensures stepped { shown_world self.new ≡ step (host_of (D.functions (digests_of self.old)) self.old)
            (shown_world self.old) (takes worker (place_of place)) }
        ensures host { AreOfOneHost self.old self.new }
    {
        self.workers[worker as usize].holds = Some(Held { place, used: false });
    }

    // A worker gives its place back.
    pub(crate) fn give(&mut self, worker: u16, place: u32)
        requires may { MayGive (host_of (D.functions (digests_of self.old)) self.old) (shown_world self.old)
            worker (place_of place) }
        ensures stepped { shown_world self.new ≡ step (host_of (D.functions (digests_of self.old)) self.old)
            (shown_world self.old) (gives worker (place_of place)) }
        ensures host { AreOfOneHost self.old self.new }
    {
        self.workers[worker as usize].holds = None;
    }

    // A worker serves a request at the place that it holds, or its clock ends.
    pub(crate) fn serve(
        &mut self,
        worker: u16,
        place: u32,
        request: &Request,
    ) -> Result<Option<ClockEnd>, Memory>
        requires behind { StandsBehind (D.functions (digests_of self.old)) self.old }
        requires may { MayServe (host_of (D.functions (digests_of self.old)) self.old) (shown_world self.old)
            worker (place_of place) request.now }
        ensures stepped { OnOk result (shown_world self.new ≡ step (host_of (D.functions (digests_of self.old)) self.old)
            (shown_world self.old) (serves worker (place_of place) request.now)) }
        ensures ended { IfOk result (λ end. end ≡ end_of (host_of (D.functions (digests_of self.old)) self.old)
            (shown_world self.old) (serves worker (place_of place) request.now)) }
        ensures host { AreOfOneHost self.old self.new }
        ensures as_before { OnErr result (shown_world self.new ≡ shown_world self.old) }
    {
        let shard = (place / PLACES_EACH) as usize;
        let seat = (place % PLACES_EACH) as usize;
        let number = worker as usize;
        let seats = &mut self.shards[shard];
        let server = &mut self.workers[number];
        if seats.serve(
            self.alloc,
            self.d,
            server,
            worker,
            place,
            seat,
            request,
            self.settings.absent,
        )? {
            return Ok(None);
        }
        let at = self.workers[number].clock.at();
        self.workers[number].stopped = true;
        Ok(Some(ClockEnd { worker, at }))
    }

    // A worker goes to the next epoch, or there is none.
    pub(crate) fn advance(&mut self, worker: u16) -> Result<Option<ClockEnd>, Memory>
        requires may { MayAdvance (host_of (D.functions (digests_of self.old)) self.old) (shown_world self.old) worker }
        ensures stepped { OnOk result (shown_world self.new ≡ step (host_of (D.functions (digests_of self.old)) self.old)
            (shown_world self.old) (advances worker)) }
        ensures ended { IfOk result (λ end. end ≡ end_of (host_of (D.functions (digests_of self.old)) self.old)
            (shown_world self.old) (advances worker)) }
        ensures host { AreOfOneHost self.old self.new }
        ensures as_before { OnErr result (shown_world self.new ≡ shown_world self.old) }
    {
        if self.workers[worker as usize].advance(self.alloc)? {
            self.closing = true;
            return Ok(None);
        }
        self.over = true;
        let at = self.workers[0].clock.at();
        Ok(Some(ClockEnd { worker: 0, at }))
    }

    // A worker takes what waits in a shard into its epoch, where its clock does not pass its end: it answers that. Else, and for want
    // of memory, all is as before.
    fn renew(&mut self, worker: u16, shard: u32) -> Result<bool, Memory>
        requires behind { StandsBehind (D.functions (digests_of self.old)) self.old }
        requires there { (worker < length (shown_world self.old).workers) × (shard < length (shown_world self.old).shards) }
        requires seats { CanTakeSeats (D.functions (digests_of self.old)).digest
            (worker_at (host_of (D.functions (digests_of self.old)) self.old) (shown_world self.old) worker).clock
            (shard_at (shown_world self.old) shard).contents }
        ensures within { IfOk result (λ renewed. renewed ≡ is_some ((host_of (D.functions (digests_of self.old)) self.old).move worker
            (worker_at (host_of (D.functions (digests_of self.old)) self.old) (shown_world self.old) worker).clock
            shard (shard_at (shown_world self.old) shard).contents)) }
        ensures renewed { result ≡ Ok true
            → shown_world self.new ≡ renewed (host_of (D.functions (digests_of self.old)) self.old) (shown_world self.old) worker shard
            ((host_of (D.functions (digests_of self.old)) self.old).move worker
            (worker_at (host_of (D.functions (digests_of self.old)) self.old) (shown_world self.old) worker).clock
            shard (shard_at (shown_world self.old) shard).contents) }
        ensures as_many { (length (shown_world self.new).workers ≡ length (shown_world self.old).workers)
            × (length (shown_world self.new).shards ≡ length (shown_world self.old).shards) }
        ensures host { AreOfOneHost self.old self.new }
        ensures as_before { result ≢ Ok true → shown_world self.new ≡ shown_world self.old }
    {
        let seats = &mut self.shards[shard as usize];
        let mover = &mut self.workers[worker as usize];
        seats.move_by(self.alloc, self.d, mover, worker, self.settings.hot)
    }

    // A worker moves a shard, or its clock ends.
    pub(crate) fn move_shard(&mut self, worker: u16, shard: u32) -> Result<Option<ClockEnd>, Memory>
        requires behind { StandsBehind (D.functions (digests_of self.old)) self.old }
        requires may { MayMove (host_of (D.functions (digests_of self.old)) self.old) (shown_world self.old) worker shard }
        ensures stepped { OnOk result (shown_world self.new ≡ step (host_of (D.functions (digests_of self.old)) self.old)
            (shown_world self.old) (moves worker shard)) }
        ensures ended { IfOk result (λ end. end ≡ end_of (host_of (D.functions (digests_of self.old)) self.old)
            (shown_world self.old) (moves worker shard)) }
        ensures host { AreOfOneHost self.old self.new }
        ensures as_before { OnErr result (shown_world self.new ≡ shown_world self.old) }
    {
        if self.renew(worker, shard)? {
            self.shards[shard as usize].moved = true;
            return Ok(None);
        }
        let mover = &mut self.workers[worker as usize];
        mover.stuck = true;
        Ok(Some(ClockEnd {
            worker,
            at: mover.clock.at(),
        }))
    }

    // A worker takes the shard at the place that it holds into its epoch, or its clock ends.
    pub(crate) fn scan(&mut self, worker: u16, place: u32) -> Result<Option<ClockEnd>, Memory>
        requires behind { StandsBehind (D.functions (digests_of self.old)) self.old }
        requires may { MayScan (host_of (D.functions (digests_of self.old)) self.old) (shown_world self.old) worker (place_of place) }
        ensures stepped { OnOk result (shown_world self.new ≡ step (host_of (D.functions (digests_of self.old)) self.old)
            (shown_world self.old) (scans worker (place_of place))) }
        ensures ended { IfOk result (λ end. end ≡ end_of (host_of (D.functions (digests_of self.old)) self.old)
            (shown_world self.old) (scans worker (place_of place))) }
        ensures host { AreOfOneHost self.old self.new }
        ensures as_before { OnErr result (shown_world self.new ≡ shown_world self.old) }
    {
        let renewed = self.renew(worker, place / PLACES_EACH)?;
        let scanner = &mut self.workers[worker as usize];
        if renewed {
            scanner.holds = Some(Held { place, used: true });
            return Ok(None);
        }
        scanner.stopped = true;
        Ok(Some(ClockEnd {
            worker,
            at: scanner.clock.at(),
        }))
    }

    // A worker goes on to the next epoch in its round.
    pub(crate) fn enter(&mut self, worker: u16) -> Result<(), Memory>
        requires may { MayEnter (host_of (D.functions (digests_of self.old)) self.old) (shown_world self.old) worker }
        ensures stepped { OnOk result (shown_world self.new ≡ step (host_of (D.functions (digests_of self.old)) self.old)
            (shown_world self.old) (enters worker)) }
        ensures host { AreOfOneHost self.old self.new }
        ensures as_before { OnErr result (shown_world self.new ≡ shown_world self.old) }
    {
        let entered = self.workers[worker as usize].advance(self.alloc)?;
        prove!(entered);
        Ok(())
    }

    // A worker lets all go on to the epoch behind its own.
    pub(crate) fn raise(&mut self, worker: u16)
        requires may { MayRaise (host_of (D.functions (digests_of self.old)) self.old) (shown_world self.old) worker }
        ensures stepped { shown_world self.new ≡ step (host_of (D.functions (digests_of self.old)) self.old)
            (shown_world self.old) (raises worker) }
        ensures host { AreOfOneHost self.old self.new }
    {
        let next = self.workers[worker as usize].clock.at().epoch + 1;
        self.newest = self.newest.max(next);
    }

    // A worker notes that all of its shards are of its epoch.
    pub(crate) fn finish(&mut self, worker: u16)
        requires may { MayFinish (host_of (D.functions (digests_of self.old)) self.old) (shown_world self.old) worker }
        requires behind { StandsBehind (D.functions (digests_of self.old)) self.old }
        ensures stepped { shown_world self.new ≡ step (host_of (D.functions (digests_of self.old)) self.old)
            (shown_world self.old) (finishes worker) }
        ensures host { AreOfOneHost self.old self.new }
    {
        self.scanned[worker as usize] = self.workers[worker as usize].clock.at().epoch;
    }

    // A worker stops, its clock having ended by itself or at an element.
    pub(crate) fn stop(&mut self, worker: u16, found: &Option<Element>) -> ClockEnd
        requires may { MayStop (host_of (D.functions (digests_of self.old)) self.old) (shown_world self.old) worker found.now }
        ensures stepped { shown_world self.new ≡ step (host_of (D.functions (digests_of self.old)) self.old)
            (shown_world self.old) (stops worker found.now) }
        ensures ended { Some result ≡ end_of (host_of (D.functions (digests_of self.old)) self.old)
            (shown_world self.old) (stops worker found.now) }
        ensures host { AreOfOneHost self.old self.new }
    {
        let stopper = &mut self.workers[worker as usize];
        stopper.stopped = true;
        ClockEnd {
            worker,
            at: stopper.clock.at(),
        }
    }

    // The next phase begins.
    pub(crate) fn open(&mut self)
        requires may { MayOpen (host_of (D.functions (digests_of self.old)) self.old) (shown_world self.old) }
        ensures stepped { shown_world self.new ≡ step (host_of (D.functions (digests_of self.old)) self.old)
            (shown_world self.old) opens }
        ensures host { AreOfOneHost self.old self.new }
    {
        let phases = self.requests.len();
        let more = self.phase < phases;
        prove!(more);
        self.phase += 1;
        self.closing = false;
        reopen(self.shards.as_mut_slice());
    }
}
