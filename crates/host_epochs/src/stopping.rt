//! How a worker stops, and how others read that it did.
ghost use Rattle.std.specs.Prelude.{◌≡◌, ◌+◌, ◌<◌, [], true, Some};
ghost use Rattle.host_epochs.specs.Calls.{HasCause, HasCauseAt, Hears, IsAfter, IsGoing, asked, stop_by, stop_of};
ghost use Rattle.host_epochs.specs.Hands.{IsSeated, KeepsSeat, place, row_of};
ghost use Rattle.host_epochs.specs.Made.{terms_of};
ghost use Rattle.host_epochs.specs.Plays.{row_with_stop};
ghost use Rattle.host_epochs.specs.Stops.{IsFor};
ghost use Rattle.host_epochs.specs.Table.{table, terms};
ghost use Rattle.host_epochs.specs.Terms.{clock_at, place_count};

use crate::epochs::Epochs;
use crate::hand::Hand;
use crate::making::Board;
use crate::plays::{Halt, Hear, Told};
use lamport_clocks::Stamp;
use record_hash::Digests;
use record_text::{Element, Request};
use std::marker::Brand;

// What the word of stops is as long as no worker stopped, and from then on.
const GOING: u64 = 0;

const STOPPED: u64 = 1;

impl<D: Digests> Epochs<D> {
    /// The worker stops, at the clock that stands so: there is no epoch to come, or its counter ends; or it ends at the element,
    /// with which what the hand holds waits. It waits for nobody and takes no memory.
    pub fn stop(&self, hand: &mut Hand, at: Stamp, element: Option<&Element>)
        requires seated { IsSeated (table self.now) hand.old }
        requires going { IsGoing (terms D.functions self.now) hand.old at }
        requires cause { HasCauseAt (terms D.functions self.now) (table self.now) hand.old (clock_at (terms D.functions self.now) at) element }
        ensures keeps { KeepsSeat (table self.now) hand.old hand.new }
        ensures after { IsAfter hand.old hand.new (row_with_stop (stop_of (terms D.functions self.now) hand.old at element.entry) (row_of hand.old)) [] [] [] }
    {
        match element {
            None => halt::<D, Brand>(&self.board, hand, self.places, at, false, None),
            Some(_) => halt::<D, Brand>(&self.board, hand, self.places, at, true, None),
        }
    }

    /// The worker stops, at the clock that stands so, at a request for whose key it holds the place: the counters that this
    /// would take pass their end. It waits for nobody and takes no memory.
    pub fn stop_at(&self, hand: &mut Hand, at: Stamp, request: &Request)
        requires seated { IsSeated (table self.now) hand.old }
        requires going { IsGoing (terms D.functions self.now) hand.old at }
        requires cause { HasCause (terms D.functions self.now) (table self.now) hand.old (clock_at (terms D.functions self.now) at) true }
        requires request { IsFor (terms D.functions self.now) (place hand.old) (Some request.now) }
        ensures keeps { KeepsSeat (table self.now) hand.old hand.new }
        ensures after { IsAfter hand.old hand.new (row_with_stop (stop_by (terms D.functions self.now) hand.old at true (Some request.now)) (row_of hand.old)) [] [] [] }
    {
        halt::<D, Brand>(&self.board, hand, self.places, at, true, Some(request));
    }

    /// Whether a worker stopped, which the hand then notes. It waits for nobody and takes no memory.
    pub fn stopped(&self, hand: &mut Hand) -> bool
        requires seated { IsSeated (table self.now) hand.old }
        ensures keeps { KeepsSeat (table self.now) hand.old hand.new }
        ensures hears { Hears hand.old result hand.new }
    {
        self.board
            .shared
            .load::<Hear>(&mut hand.seat, self.places + 1)
            != GOING
    }
}

// Stores that the worker stopped, behind the words of so many places and one more: at what it holds or by its clock alone, and
// for this request, if there is one.
fn halt<D: Digests, N: Told>(
    board: &Board<D>,
    hand: &mut Hand,
    places: usize,
    at: Stamp,
    held: bool,
    request: Option<&Request>,
)
    requires stop { N.stop ≡ stop_by (terms_of D.functions board.now.shared.key) hand.old at held (asked request) }
    requires places { places ≡ place_count (terms_of D.functions board.now.shared.key) }
    requires word { places + 1 < board.now.shared.table_id.words }
    requires seated { IsSeated board.now.shared.table_id hand.old }
    requires going { IsGoing (terms_of D.functions board.now.shared.key) hand.old at }
    requires cause { HasCause (terms_of D.functions board.now.shared.key) board.now.shared.table_id hand.old
        (clock_at (terms_of D.functions board.now.shared.key) at) held }
    requires request { IsFor (terms_of D.functions board.now.shared.key) (place hand.old) (asked request) }
    ensures keeps { KeepsSeat board.now.shared.table_id hand.old hand.new }
    ensures after { IsAfter hand.old hand.new
        (row_with_stop (stop_by (terms_of D.functions board.now.shared.key) hand.old at held (asked request.entry)) (row_of hand.old)) [] [] [] }
{
    board
        .shared
        .store::<Halt<N>>(&mut hand.seat, places + 1, STOPPED);
}
