//! How a table is closed: the workers' hands come together, and the contents are handed out.
ghost use Rattle.std.specs.Prelude.{◌≡◌, ◌+◌, ◌≤◌, ◌<◌, [], ◌∷◌, length, map, vec_len, vec_capacity, All};
ghost use Rattle.core.specs.Mem.Slots.{slots_items, slots_len, IsFull};
ghost use Rattle.host_epochs.specs.Calls.{AreAll};
ghost use Rattle.host_epochs.specs.Hands.{worker_of, row_of, IsFree};
ghost use Rattle.host_epochs.specs.Made.{terms_of};
ghost use Rattle.host_epochs.specs.Plays.{rack, rows_in};
ghost use Rattle.host_epochs.specs.Round.{IsRound};
ghost use Rattle.host_epochs.specs.Table.{table, terms};

use crate::epochs::Epochs;
use crate::hand::Hand;
use crate::making::{Board, Place};
use crate::plays::{Come, Gather, Told};
use atomic_table::Closed;
use host_shard::Content;
use record_hash::Digests;
use std::alloc::Global;
use std::marker::Brand;

impl<D: Digests> Epochs<D> {
    /// The contents, in the order of their places, once no worker holds one. It takes no memory.
    pub fn close(self, hands: Vec<Hand>) -> Vec<Content>
        requires all { AreAll (table self) (terms D.functions self).workers hands.items }
        ensures round { IsRound (terms D.functions self) result.items (map row_of hands.items) }
    {
        let Epochs { board, room, .. } = self;
        let seat = come::<D, Brand>(&board);
        let seat = gather(&board, seat, hands);
        hand_out(board.close_with(seat), room)
    }
}

// A seat that keeps no row yet.
fn come<D: Digests, N: Told>(board: &Board<D>) -> Place
    requires terms { N.terms ≡ terms_of D.functions board.now.shared.key }
    requires words { 0 < board.now.shared.table_id.words }
    ensures seat { (result.table_id ≡ board.now.shared.table_id) × (result.me ≡ (rack board.now.shared.key.workers [], [])) }
{
    let (_, seat) = board.shared.load_new_seat::<Come<N>>(0);
    seat
}

// Gathers the rows of all hands, from the last one down.
fn gather<D: Digests>(board: &Board<D>, seat: Place, hands: Vec<Hand>) -> Place
    requires seat { (seat.table_id ≡ board.now.shared.table_id) × (seat.me ≡ (rack board.now.shared.key.workers [], [])) }
    requires words { 0 < board.now.shared.table_id.words }
    requires all { AreAll board.now.shared.table_id board.now.shared.key.workers hands.items }
    ensures seat { (result.table_id ≡ board.now.shared.table_id) × (result.me ≡ (rack 0 (map row_of hands.items), [])) }
{
    let mut seat = seat;
    let mut hands = hands;
    while let Some(hand) = hands.pop() {
        gather_one(board, &mut seat, hand);
    }
    hands.destroy_empty();
    seat
}

// Gathers the row of the hand before those that are gathered.
fn gather_one<D: Digests>(board: &Board<D>, seat: &mut Place, hand: Hand)
    requires seat { (seat.old.table_id ≡ board.now.shared.table_id) × (seat.old.me ≡ (rack (worker_of hand + 1) (rows_in seat.old.me.0), [])) }
    requires words { 0 < board.now.shared.table_id.words }
    requires free { IsFree board.now.shared.table_id hand }
    ensures seat { (seat.new.table_id ≡ board.now.shared.table_id) × (seat.new.me ≡ (rack (worker_of hand) (row_of hand ∷ rows_in seat.old.me.0), [])) }
{
    let Hand { seat: other, .. } = hand;
    board.shared.join_seat::<Gather>(seat, other);
}

// The contents of the cells, in their order.
fn hand_out(closed: Closed<Content, Global>, room: Vec<Content>) -> Vec<Content>
    requires full { IsFull closed.slots }
    requires room { (room.items ≡ []) × (slots_len closed.slots ≤ vec_capacity room) }
    ensures contents { result.items ≡ slots_items closed.slots }
{
    let mut closed = closed;
    let mut room = room;
    for place in 0..closed.slot_count() {
        let Ok(()) = room.push(closed.take(place)) else {
            unreachable!()
        };
    }
    closed.free();
    room
}
