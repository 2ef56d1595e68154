//! How a table is made.
ghost use Rattle.std.specs.Prelude.{◌≡◌, ◌+◌, ◌-◌, ◌≤◌, ◌<◌, [], length, vec_len, vec_capacity, replicate, All, IfOk, IfErr};
ghost use Rattle.host_epochs.specs.Calls.{AreAll, IsNew};
ghost use Rattle.host_epochs.specs.Hands.{worker_of, IsFree};
ghost use Rattle.host_epochs.specs.Plays.{new_row, rack};
ghost use Rattle.host_epochs.specs.Table.{table, terms};
ghost use Rattle.host_epochs.specs.Terms.{IsMaking};

use crate::answers::Refused;
use crate::epochs::Epochs;
use crate::hand::Hand;
use crate::making::{Board, Law, Making, Place};
use crate::plays::Deal;
use crate::views::View;
use atomic_table::{Shared, Table};
use host_shard::Content;
use lamport_clocks::Header;
use record_hash::Digests;
use std::alloc::Global;
use std::snapshot::Snapshot;

impl<D: Digests> Epochs<D> {
    /// A table of these contents, and a hand for each of so many workers, in the order of their numbers. So many epochs more
    /// than that of the making may be entered. Where `absent`, a get of a key that has no record makes none. For want of memory
    /// the contents come back.
    pub fn make(
        alloc: Global,
        d: &D,
        header: &Header,
        contents: Vec<Content>,
        workers: u16,
        more: u64,
        absent: bool,
    ) -> Result<(Epochs<D>, Vec<Hand>), Refused>
        requires making { IsMaking header.now workers contents.items }
        ensures terms { IfOk result (λ made. terms D.functions made.0 ≡ record {
          digest = (D.functions d.now).digest;
          header = header.now;
          workers = workers;
          absent = absent;
          more = more;
          contents = contents.items;
        }) }
        ensures hands { IfOk result (λ made. AreAll (table made.0) workers made.1.items) }
        ensures new { IfOk result (λ made. All IsNew made.1.items) }
        ensures back { IfErr result (λ refused. refused.contents.items ≡ contents.items) }
    {
        let making = Making {
            digests: Snapshot::of(d),
            header: *header,
            contents: Snapshot::of(&contents),
            workers,
            absent,
            more,
        };
        let places = contents.len();
        let Ok(words) = Vec::from_elem(alloc, 0u64, places + 2 + usize::from(workers)) else {
            return Err(Refused { contents });
        };
        let Ok(room) = Vec::with_capacity(alloc, places) else {
            return Err(Refused { contents });
        };
        let Ok(hands) = Vec::with_capacity(alloc, usize::from(workers)) else {
            return Err(Refused { contents });
        };
        match Table::new(alloc, words.as_slice(), contents, &making) {
            Ok((board, seat)) => {
                let hands = deal(&board, seat, hands, workers);
                Ok((
                    Epochs {
                        board,
                        room,
                        places,
                    },
                    hands,
                ))
            }
            Err(refused) => {
                let atomic_table::Refused { slots } = refused;
                Err(Refused { contents: slots })
            }
        }
    }
}

// Deals a hand to each worker, from a seat that keeps the rows of all.
fn deal<D: Digests>(board: &Board<D>, seat: Place, hands: Vec<Hand>, workers: u16) -> Vec<Hand>
    requires seat { (seat.table_id ≡ board.now.shared.table_id) × (seat.me ≡ (rack 0 (replicate workers new_row), [])) }
    requires words { 2 + (board.now.shared.table_id.slots + workers) ≤ board.now.shared.table_id.words }
    requires room { (hands.items ≡ []) × (workers ≤ vec_capacity hands) }
    ensures hands { AreAll board.now.shared.table_id workers result.items }
    ensures new { All IsNew result.items }
{
    let mut seat = seat;
    let mut hands = hands;
    for number in 0..workers {
        let hand = deal_one(board, &mut seat, number, workers);
        let Ok(()) = hands.push(hand) else {
            unreachable!()
        };
    }
    hands
}

// Deals the first hand of those that are left.
fn deal_one<D: Digests>(board: &Board<D>, seat: &mut Place, number: u16, workers: u16) -> Hand
    requires seat { (seat.old.table_id ≡ board.now.shared.table_id) × (seat.old.me ≡ (rack number (replicate (workers - number) new_row), [])) }
    requires words { 2 + (board.now.shared.table_id.slots + workers) ≤ board.now.shared.table_id.words }
    requires left { number < workers }
    ensures seat { (seat.new.table_id ≡ board.now.shared.table_id) × (seat.new.me ≡ (rack (number + 1) (replicate (workers - (number + 1)) new_row), [])) }
    ensures hand { (worker_of result ≡ number) × IsFree board.now.shared.table_id result }
    ensures new { IsNew result }
{
    Hand {
        seat: board.shared.split_seat::<Deal>(seat),
        number,
        entered: 0,
    }
}
