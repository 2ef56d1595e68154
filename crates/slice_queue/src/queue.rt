//! Items that come at the end and are taken from the front.
ghost use Rattle.std.specs.Prelude.{◌≡◌, ◌+◌, ◌<◌, ◌≤◌, ◌++◌, ◌∷◌, [], length, drop, vec_len, vec_capacity, IsOk, OnOk, OnErr};
ghost use Rattle.slice_queue.specs.Waiting.{Waiting};

use base_words::Memory;
use std::alloc::Global;
use std::marker::Model;

/// Items in order, of which the first `gone` were taken. What was taken is dropped once it is more than half of all, so
/// that taking costs no more than what is taken. Contracts see it as `Waiting`.
#[derive(Drop)]
pub struct SliceQueue<T> {
    items: Vec<T>,
    gone: usize,
}

impl<T> Model for SliceQueue<T> {
    ghost use Rattle.std.specs.Prelude.{◌≤◌, ◌-◌, drop, vec_len, vec_capacity};
    ghost use Rattle.slice_queue.specs.Waiting.{Waiting};

    ghost Value = { Waiting T };

    ghost view = { λ q. record { items = drop q.gone q.items.items; room = vec_capacity q.items - vec_len q.items } };

    ghost invariant = { λ q. q.gone ≤ vec_len q.items };
}

impl<T: Drop> SliceQueue<T> {
    /// No items.
    pub fn new(alloc: Global) -> Self
        ensures none { result ≡ record { items = []; room = 0 } }
    {
        SliceQueue {
            items: Vec::new(alloc),
            gone: 0,
        }
    }

    /// The allocator that it was made with.
    pub fn allocator(&self) -> Global {
        *self.items.allocator()
    }

    /// The items that were not taken.
    pub fn as_slice(&self) -> &[T]
        ensures value { result.now ≡ self.now.items }
    {
        &self.items[self.gone..]
    }

    /// The items that were not taken, and nothing else.
    pub fn into_vec(self) -> Vec<T>
        ensures items { result.items ≡ self.items }
    {
        let SliceQueue { mut items, gone } = self;
        drop_front(&mut items, gone);
        items
    }

    /// Takes memory for so many items more.
    pub fn reserve(&mut self, count: usize) -> Result<(), Memory>
        ensures room { OnOk result (count ≤ self.new.room) }
        ensures items { self.new.items ≡ self.old.items }

        // It fails only where that room was missing, and then all is as before.
        ensures succeeds { count ≤ self.old.room → IsOk result }
        ensures err { OnErr result (self.new ≡ self.old) }
    {
        self.items.reserve(count)?;
        Ok(())
    }

    /// Appends an item for which there is room.
    pub fn push_reserved(&mut self, item: T)
        requires room { 0 < self.old.room }
        ensures items { self.new.items ≡ self.old.items ++ item ∷ [] }
        ensures room { self.new.room + 1 ≡ self.old.room }
    {
        self.items.push_reserved(item);
    }

    /// The first so many are taken.
    pub fn pass(&mut self, count: usize)
        requires within { count ≤ length self.old.items }
        ensures items { self.new.items ≡ drop count self.old.items }
        ensures room { self.old.room ≤ self.new.room }
    {
        let gone = self.gone + count;
        if gone > self.items.len() / 2 {
            drop_front(&mut self.items, gone);
            self.gone = 0;
        } else {
            self.gone = gone;
        }
    }
}

impl<T: Copy> SliceQueue<T> {
    /// Appends items for which there is room.
    pub fn extend_reserved(&mut self, items: &[T])
        requires room { length items.now ≤ self.old.room }
        ensures items { self.new.items ≡ self.old.items ++ items.now }
        ensures room { self.old.room ≤ self.new.room + length items.now }
    {
        let _there_is_room = self.items.extend_from_slice(items);
    }
}

// Drops the first so many items.
fn drop_front<T: Drop>(items: &mut Vec<T>, count: usize)
    requires within { count ≤ vec_len items.old }
    ensures items { items.new.items ≡ drop count items.old.items }
    ensures capacity { vec_capacity items.new ≡ vec_capacity items.old }
{
    let left = items.len() - count;
    items.rotate_left(count);
    items.truncate(left);
}
