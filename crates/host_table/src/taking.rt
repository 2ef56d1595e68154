//! How a worker takes a place and gives it back.
ghost use Rattle.std.specs.Prelude.{◌≡◌, ◌<◌, None};
ghost use Rattle.host_table.specs.Calls.{Gives, MayGive, Tries};
ghost use Rattle.host_table.specs.Hands.{Holds, IsFree, stop};
ghost use Rattle.host_table.specs.Table.{table, terms};
ghost use Rattle.host_table.specs.Terms.{place_count};

use crate::records::Records;
use host_epochs::{Hand, Taking};
use host_shard::Content;
use lamport_clocks::Stamp;
use record_hash::Digests;
use record_text::Request;

impl<D: Digests> Records<D> {
    /// Tries once to take a place. Busy comes only where its word was found held, and then nothing changes but the hand's
    /// losses. It waits for nobody and takes no memory.
    pub fn try_take(&self, hand: &mut Hand, place: usize) -> Taking
        requires place { place < place_count (terms D.functions self.now) }
        requires free { IsFree (table self.now) hand.old }
        requires going { stop hand.old ≡ None }
        ensures tries { Tries (terms D.functions self.now) (table self.now) hand.old place result hand.new }
    {
        self.epochs.try_take(hand, place)
    }

    /// Gives a place back: with the content that was taken, or, where a request was served, with what that makes of it. It
    /// waits for nobody and takes no memory.
    pub fn give(
        &self,
        hand: &mut Hand,
        place: usize,
        content: Content,
        served: Option<(Stamp, Request)>,
    )
        requires place { place < place_count (terms D.functions self.now) }
        requires holds { Holds (table self.now) hand.old place }
        requires may { MayGive (terms D.functions self.now) hand.old place content served }
        ensures free { IsFree (table self.now) hand.new }
        ensures gives { Gives (terms D.functions self.now) hand.old place content served hand.new }
    {
        match served {
            None => self.epochs.give(hand, place, content, None),
            Some((clock, request)) => {
                self.epochs
                    .give(hand, place, content, Some((clock, Some(&request))))
            }
        }
    }
}
