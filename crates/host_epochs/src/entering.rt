//! How workers go on from epoch to epoch.
ghost use Rattle.std.specs.Prelude.{◌≡◌, ◌+◌, ◌<◌, [], ◌∷◌, None};
ghost use Rattle.host_epochs.specs.Calls.{Enters, IsAfter, IsAsBefore, IsThrough, MayRaise};
ghost use Rattle.host_epochs.specs.Hands.{IsSeated, KeepsSeat, row_of, stop};
ghost use Rattle.host_epochs.specs.Made.{terms_of};
ghost use Rattle.host_epochs.specs.Plays.{row_with_done};
ghost use Rattle.host_epochs.specs.Table.{table, terms};
ghost use Rattle.host_epochs.specs.Terms.{place_count};

use crate::epochs::Epochs;
use crate::hand::Hand;
use crate::making::Board;
use crate::plays::{Finish, Go, Look, Raise, Told};
use record_hash::Digests;
use std::marker::Brand;

impl<D: Digests> Epochs<D> {
    /// With how many epochs a worker is through, which the hand notes. It waits for nobody and takes no memory.
    pub fn done(&self, hand: &mut Hand, worker: u16) -> u64
        requires worker { worker < (terms D.functions self.now).workers }
        requires seated { IsSeated (table self.now) hand.old }
        ensures keeps { KeepsSeat (table self.now) hand.old hand.new }
        ensures after { IsAfter hand.old hand.new (row_of hand.old) [] [] (record { of = worker; least = result } ∷ []) }
    {
        look::<D, Brand>(&self.board, hand, self.places, worker)
    }

    /// Says that the worker is through with its epoch: it gave each place of its own back with an element of that epoch. It
    /// waits for nobody and takes no memory.
    pub fn raise_done(&self, hand: &mut Hand)
        requires seated { IsSeated (table self.now) hand.old }
        requires through { IsThrough (terms D.functions self.now) hand.old }
        ensures keeps { KeepsSeat (table self.now) hand.old hand.new }
        ensures after { IsAfter hand.old hand.new (row_with_done (row_of hand.old)) [] [] [] }
    {
        let word = self.places + 2 + usize::from(hand.number);
        self.board
            .shared
            .store::<Finish>(&mut hand.seat, word, hand.entered);
    }

    /// Lets all workers enter the epoch behind the worker's own, with which it found all to be through. It waits for nobody and
    /// takes no memory.
    pub fn raise(&self, hand: &mut Hand)
        requires seated { IsSeated (table self.now) hand.old }
        requires may { MayRaise (terms D.functions self.now) hand.old }
        ensures keeps { KeepsSeat (table self.now) hand.old hand.new }
        ensures before { IsAsBefore hand.old hand.new }
    {
        let next = hand.entered + 1;
        self.board
            .shared
            .fetch_max::<Raise>(&mut hand.seat, self.places, next);
    }

    /// Looks whether the epoch behind the worker's own may be entered, and enters it where it may: the answer says so. Where what
    /// the hand holds is of that epoch, it may. It waits for nobody and takes no memory.
    pub fn newest(&self, hand: &mut Hand) -> bool
        requires seated { IsSeated (table self.now) hand.old }
        requires going { stop hand.old ≡ None }
        ensures keeps { KeepsSeat (table self.now) hand.old hand.new }
        ensures enters { Enters (terms D.functions self.now) hand.old result hand.new }
    {
        enter::<D, Brand>(&self.board, hand, self.places)
    }
}

// Reads a worker's word, behind those of so many places and two more.
fn look<D: Digests, N: Told>(board: &Board<D>, hand: &mut Hand, places: usize, worker: u16) -> u64
    requires terms { N.terms ≡ terms_of D.functions board.now.shared.key }
    requires places { places ≡ place_count (terms_of D.functions board.now.shared.key) }
    requires word { 2 + (places + worker) < board.now.shared.table_id.words }
    requires worker { worker < board.now.shared.key.workers }
    requires seated { IsSeated board.now.shared.table_id hand.old }
    ensures keeps { KeepsSeat board.now.shared.table_id hand.old hand.new }
    ensures after { IsAfter hand.old hand.new (row_of hand.old) [] [] (record { of = worker; least = result } ∷ []) }
{
    let word = places + 2 + usize::from(worker);
    board.shared.load::<Look<N>>(&mut hand.seat, word)
}

// Reads the word behind those of so many places, and enters the epoch that it allows.
fn enter<D: Digests, N: Told>(board: &Board<D>, hand: &mut Hand, places: usize) -> bool
    requires terms { N.terms ≡ terms_of D.functions board.now.shared.key }
    requires places { places ≡ place_count (terms_of D.functions board.now.shared.key) }
    requires word { places < board.now.shared.table_id.words }
    requires seated { IsSeated board.now.shared.table_id hand.old }
    requires going { stop hand.old ≡ None }
    ensures keeps { KeepsSeat board.now.shared.table_id hand.old hand.new }
    ensures enters { Enters (terms_of D.functions board.now.shared.key) hand.old result hand.new }
{
    let found = board.shared.load::<Go<N>>(&mut hand.seat, places);
    if found <= hand.entered {
        return false;
    }
    hand.entered = found;
    true
}
