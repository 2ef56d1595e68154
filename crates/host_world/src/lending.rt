//! What a world's places have, and its workers, lent to a round at a table and taken back, and the epochs that were noted there.
ghost use Rattle.std.specs.Prelude.{◌≡◌, ◌+◌, [], ◌++◌, length, map, replicate, IfOk, OnOk, OnErr};
ghost use Rattle.host_shard.specs.Content.{vacant};
ghost use Rattle.host_shard.specs.Shown.{shown_content};
ghost use Rattle.host_world.specs.Behind.{AreOfOneHost};
ghost use Rattle.host_world.specs.Lending.{all_contents, filled};
ghost use Rattle.host_world.specs.Shown.{contents_of, shown_seats, shown_world, settings_of};
ghost use Rattle.host_world.specs.Workers.{shown_worker, AreBegun};

use crate::seats::Seats;
use crate::worker::Worker;
use crate::world::World;
use base_words::Memory;
use host_shard::Content;
use std::mem::{replace, swap};

impl Seats {
    // The places have these contents, and what they had stands there in their stead.
    fn exchange(&mut self, contents: &mut [Content])
        requires as_many { length contents.old ≡ length (contents_of self.old) }
        ensures filled { shown_seats self.new ≡ record (shown_seats self.old) { contents = map shown_content contents.old } }
        ensures lent { map shown_content contents.new ≡ contents_of self.old }
    {
        let Some((first, hot)) = contents.split_first_mut() else {
            unreachable!()
        };
        swap(&mut self.first, first);
        self.hot.as_mut_slice().swap_with_slice(hot);
    }
}

// The same of all places of shards, in their order.
fn exchange_all(shards: &mut [Seats], contents: &mut [Content])
    requires as_many { length contents.old ≡ length (all_contents (map shown_seats shards.old)) }
    ensures filled { map shown_seats shards.new ≡ filled (map shown_seats shards.old) (map shown_content contents.old) }
    ensures lent { map shown_content contents.new ≡ all_contents (map shown_seats shards.old) }
{
    let Some((seats, others)) = shards.split_first_mut() else {
        return;
    };
    let (own, rest) = contents.split_at_mut(seats.hot.len() + 1);
    seats.exchange(own);
    exchange_all(others, rest);
}

// Vacant places join a list: this many.
fn add_vacant(contents: &mut Vec<Content>, count: usize) -> Result<(), Memory>
    ensures added { OnOk result (map shown_content contents.new.items
        ≡ map shown_content contents.old.items ++ replicate count vacant) }
{
    for _ in 0..count {
        contents.push(Content::Vacant)?;
    }
    Ok(())
}

// The same, as many as shards have.
fn add_vacant_for(contents: &mut Vec<Content>, shards: &[Seats]) -> Result<(), Memory>
    ensures added { OnOk result (map shown_content contents.new.items
        ≡ map shown_content contents.old.items ++ replicate (length (all_contents (map shown_seats shards.now))) vacant) }
{
    let Some((seats, others)) = shards.split_first() else {
        return Ok(());
    };
    add_vacant(contents, seats.hot.len() + 1)?;
    add_vacant_for(contents, others)
}

impl<'a, D> World<'a, D> {
    /// All that its places have, in the order of their numbers. They are vacant then. For want of memory all is as before.
    pub fn lend(&mut self) -> Result<Vec<Content>, Memory>
        ensures lent { IfOk result (λ contents.
            map shown_content contents.items ≡ all_contents (shown_world self.old).shards) }
        ensures left { OnOk result (shown_world self.new ≡ record (shown_world self.old) {
          shards = filled (shown_world self.old).shards (replicate (length (all_contents (shown_world self.old).shards)) vacant);
        }) }
        ensures host { AreOfOneHost self.old self.new }
        ensures as_before { OnErr result (shown_world self.new ≡ shown_world self.old) }
    {
        let mut contents = Vec::new(self.alloc);
        add_vacant_for(&mut contents, self.shards.as_slice())?;
        exchange_all(self.shards.as_mut_slice(), contents.as_mut_slice());
        Ok(contents)
    }

    /// Its places have these contents, in the order of their numbers.
    pub fn take_back(&mut self, contents: Vec<Content>)
        requires as_many { length contents.items ≡ length (all_contents (shown_world self.old).shards) }
        ensures filled { shown_world self.new ≡ record (shown_world self.old) {
          shards = filled (shown_world self.old).shards (map shown_content contents.items);
        } }
        ensures host { AreOfOneHost self.old self.new }
    {
        let mut contents = contents;
        exchange_all(self.shards.as_mut_slice(), contents.as_mut_slice());
    }

    /// Its workers. It has none then.
    pub fn lend_workers(&mut self) -> Vec<Worker>
        ensures lent { map shown_worker result.items ≡ (shown_world self.old).workers }
        ensures begun { AreBegun (settings_of self.old).header result.items }
        ensures left { shown_world self.new ≡ record (shown_world self.old) { workers = [] } }
        ensures host { AreOfOneHost self.old self.new }
    {
        replace(&mut self.workers, Vec::new(self.alloc))
    }

    /// These are its workers. The log of each is one of its own, from the first command on.
    pub fn take_workers(&mut self, workers: Vec<Worker>)
        requires begun { AreBegun (settings_of self.old).header workers.items }
        ensures taken { shown_world self.new ≡ record (shown_world self.old) { workers = map shown_worker workers.items } }
        ensures host { AreOfOneHost self.old self.new }
    {
        self.workers = workers;
    }

    /// In a round of a rolling host, that the newest epoch came to this one, and that each worker noted that its shards are of the other.
    pub fn note_epochs(&mut self, newest: u32, scanned: u32)
        ensures noted { shown_world self.new ≡ record (shown_world self.old) {
          newest = newest;
          scanned = replicate (length (shown_world self.old).scanned) scanned;
        } }
        ensures host { AreOfOneHost self.old self.new }
    {
        self.newest = newest;
        self.scanned.fill(scanned);
    }
}
