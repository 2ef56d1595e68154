//! What the workers of a round share.
use crate::turn::Turn;
use host_epochs::{Epochs, Hand, Taking};
use host_shard::Content;
use lamport_clocks::Header;
use record_hash::Digests;
use std::alloc::Global;
use std::sync::Wait;
use std::sync::atomic::{AtomicBool, Ordering};
use std::thread::yield_now;

/// What all workers of a round share: the digests, the turns of each, the table, and its numbers.
#[derive(Drop)]
pub struct SharedRound<'a, D: Digests> {
    pub alloc: Global,
    pub d: &'a D,
    pub turns: &'a [Vec<Turn<'a>>],
    pub epochs: &'a Epochs<D>,
    /// What the bundle begins with.
    pub header: Header,
    pub workers: u16,
    /// How many shards there are. A shard's places follow one another.
    pub shards: u32,
    /// How many epochs may be entered behind that in which the round begins.
    pub more: u64,
    /// Whether a get of a key that has no record makes none.
    pub absent: bool,
    /// Set where a worker gave up for want of memory, or has no thread.
    pub wanting: &'a AtomicBool,
}

impl<D: Digests> SharedRound<'_, D> {
    ghost use Rattle.std.specs.Prelude.{◌<◌};
    ghost use Rattle.host_epochs.specs.Hands.{IsFree};
    ghost use Rattle.host_epochs.specs.Table.{table, terms};
    ghost use Rattle.host_epochs.specs.Terms.{place_count};
    ghost use Rattle.round_workers.specs.Placed.{HasTaken, HasWaited};

    /// Takes a place once it is free: for as long as that takes.
    pub(crate) fn take<R: Wait>(&self, rt: &R, hand: &mut Hand, place: usize) -> Content
        requires place { place < place_count (terms D.functions self.now.epochs.now) }
        requires free { IsFree (table self.now.epochs.now) hand.old }
        ensures taken { HasTaken (terms D.functions self.now.epochs.now) (table self.now.epochs.now) hand.new place result }
        ensures waited { HasWaited hand.old hand.new }
    {
        for _ in rt.forever() {
            match self.epochs.try_take(hand, place) {
                Taking::Taken(content) => return content,
                Taking::Busy => yield_now(),
            }
        }
        unreachable!()
    }

    /// Tells all workers that one gave up for want of memory, or has no thread.
    pub fn give_up(&self) {
        self.wanting.store(true, Ordering::SeqCst);
    }

    /// Whether a worker gave up for want of memory, or has no thread.
    pub(crate) fn is_given_up(&self) -> bool {
        self.wanting.load(Ordering::SeqCst)
    }
}
