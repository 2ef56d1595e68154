//! The places of one shard.
ghost use Rattle.std.specs.Prelude.{◌≡◌, ◌≢◌, ◌<◌, List, [], ◌∷◌, length, get_or, set, map, true, Ok, IfOk, IfSome, OnOk, OnErr, is_some};
ghost use Rattle.record_text.specs.Longest.{longest_blob};
ghost use Rattle.host_core.specs.World.{unmoved};
ghost use Rattle.host_shard.specs.Content.{vacant};
ghost use Rattle.host_shard.specs.Shown.{shown_content};
ghost use Rattle.host_plan.specs.Plan.{Owns, IsOpenAt};
ghost use Rattle.host_world.specs.Behind.{CanTakeSeats};
ghost use Rattle.host_world.specs.Places.{place_of};
ghost use Rattle.host_world.specs.Doing.{HasDone, HasServed};
ghost use Rattle.shipped_host.specs.Moving.{stage_of, move_seats};
ghost use Rattle.shipped_host.specs.ShippedHost.{serve_at, new_seats};
ghost use Rattle.host_world.specs.Shown.{contents_of, shown_seats};
ghost use Rattle.host_world.specs.Workers.{shown_worker, writer_in};

use crate::worker::Worker;
use base_words::Memory;
use host_shard::Content;
use record_hash::Digests;
use record_text::Request;
use std::alloc::Global;

/// What the places of a shard have.
#[derive(Drop)]
pub struct Seats {
    /// The shard.
    pub(crate) first: Content,
    /// Its hot places.
    pub(crate) hot: Vec<Content>,
    /// Whether the shard was moved in this close.
    pub(crate) moved: bool,
}

impl Seats {
    // The places of a shard as it is set up: its hot places are vacant.
    fn new(alloc: Global, first: Content) -> Result<Self, Memory>
        ensures seats { IfOk result (λ seats. shown_seats seats ≡ unmoved (new_seats (shown_content first))) }
    {
        let mut hot = Vec::with_capacity(alloc, 4)?;
        hot.push_reserved(Content::Vacant);
        hot.push_reserved(Content::Vacant);
        hot.push_reserved(Content::Vacant);
        hot.push_reserved(Content::Vacant);
        Ok(Seats {
            first,
            hot,
            moved: false,
        })
    }

    // A worker serves a request with what a seat has, where its clock does not pass its end: it answers that. Else, and for
    // want of memory, all is as before.
    pub(crate) fn serve<D: Digests>(
        &mut self,
        alloc: Global,
        d: &D,
        worker: &mut Worker,
        number: u16,
        place: u32,
        seat: usize,
        request: &Request,
        absent: bool,
    ) -> Result<bool, Memory>
        requires there { seat < length (contents_of self.old) }
        requires own { Owns longest_blob (get_or (contents_of self.old) seat vacant) request.now.key }
        requires open { IsOpenAt worker.old.clock (get_or (contents_of self.old) seat vacant) }
        ensures within { IfOk result (λ served. served ≡ is_some (serve_at absent (D.functions d.now).digest
            number worker.old.clock (get_or (contents_of self.old) seat vacant) request.now)) }
        ensures served { result ≡ Ok true
            → HasServed (place_of place) (serve_at absent (D.functions d.now).digest
            number worker.old.clock (get_or (contents_of self.old) seat vacant) request.now)
            (shown_worker worker.old) (get_or (contents_of self.new) seat vacant) (shown_worker worker.new) }
        ensures seat_alone { contents_of self.new
            ≡ set (contents_of self.old) seat (get_or (contents_of self.new) seat vacant) }
        ensures same_close { self.new.moved ≡ self.old.moved }
        ensures worker_as_before { result ≢ Ok true → shown_worker worker.new ≡ shown_worker worker.old }
        ensures writer { writer_in worker.new ≡ writer_in worker.old }
        ensures as_before { result ≢ Ok true → contents_of self.new ≡ contents_of self.old }
    {
        if seat == 0 {
            return worker.serve(alloc, d, number, place, &mut self.first, request, absent);
        }
        worker.serve(
            alloc,
            d,
            number,
            place,
            &mut self.hot[seat - 1],
            request,
            absent,
        )
    }

    // A worker takes what waits in the shard into its epoch, for this threshold, where its clock does not pass its end: it answers
    // that. Else, and for want of memory, all is as before.
    pub(crate) fn move_by<D: Digests>(
        &mut self,
        alloc: Global,
        d: &D,
        worker: &mut Worker,
        number: u16,
        threshold: Option<u32>,
    ) -> Result<bool, Memory>
        requires threshold { IfSome threshold (λ least. 0 < least) }
        requires seats { CanTakeSeats (D.functions d.now).digest worker.old.clock (contents_of self.old) }
        ensures within { IfOk result (λ moved. moved ≡ is_some (move_seats (D.functions d.now).digest
            number threshold (stage_of worker.old.clock (contents_of self.old)))) }
        ensures moved { result ≡ Ok true
            → HasDone (move_seats (D.functions d.now).digest
            number threshold (stage_of worker.old.clock (contents_of self.old)))
            (shown_worker worker.old) (contents_of self.new) (shown_worker worker.new) }
        ensures same_close { self.new.moved ≡ self.old.moved }
        ensures worker_as_before { result ≢ Ok true → shown_worker worker.new ≡ shown_worker worker.old }
        ensures writer { writer_in worker.new ≡ writer_in worker.old }
        ensures as_before { result ≢ Ok true → contents_of self.new ≡ contents_of self.old }
    {
        worker.move_seats(
            alloc,
            d,
            number,
            threshold,
            &mut self.first,
            self.hot.as_mut_slice(),
        )
    }
}

// No shard is moved any more.
pub(crate) fn reopen(shards: &mut [Seats])
    ensures reopened { map shown_seats shards.new
        ≡ map (λ seats. unmoved seats.contents) (map shown_seats shards.old) }
{
    for seats in shards.iter_mut() {
        seats.moved = false;
    }
}

// The places of shards as they are set up.
pub(crate) fn seats_for(alloc: Global, contents: Vec<Content>) -> Result<Vec<Seats>, Memory>
    ensures seats { IfOk result (λ shards. map shown_seats shards.items
        ≡ map unmoved (map new_seats (map shown_content contents.items))) }
{
    let mut shards = Vec::with_capacity(alloc, contents.len())?;
    for content in contents {
        shards.push(Seats::new(alloc, content)?)?;
    }
    Ok(shards)
}
