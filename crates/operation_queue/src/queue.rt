//! Operations that wait.
ghost use Rattle.std.specs.Prelude.{◌≡◌, ◌+◌, ◌<◌, ◌≤◌, ◌++◌, ◌∷◌, [], length, drop, nat_le, take_while, IsOk, OnOk};

use crate::head::{Head, heads_through, value_bytes, values_len};
use crate::lent::Operations;
use base_words::Memory;
use record_text::{LONGEST_BLOB, OperationRef};
use slice_queue::SliceQueue;
use std::alloc::Global;
use std::marker::Model;

/// Operations in order, each a head and its value's bytes. Contracts see it as `Waiting`.
#[derive(Drop)]
pub struct OperationQueue {
    heads: SliceQueue<Head>,
    bytes: SliceQueue<u8>,
}

impl Model for OperationQueue {
    ghost use Rattle.std.specs.Prelude.{◌/◌, min};
    ghost use Rattle.record_text.specs.declared.operation.Operation.{Operation};
    ghost use Rattle.record_text.specs.Longest.{longest_blob};
    ghost use Rattle.slice_queue.specs.Waiting.{Waiting};
    ghost use Rattle.operation_queue.specs.Heads.{AreWhole, spelled};

    ghost Value = { Waiting Operation };

    ghost view = { λ q. record { items = spelled q.heads.items q.bytes.items; room = min q.heads.room (q.bytes.room / longest_blob) } };

    ghost invariant = { λ q. AreWhole q.heads.items q.bytes.items };
}

impl OperationQueue {
    /// No operations.
    pub fn new(alloc: Global) -> Self
        ensures none { result ≡ record { items = []; room = 0 } }
    {
        OperationQueue {
            heads: SliceQueue::new(alloc),
            bytes: SliceQueue::new(alloc),
        }
    }

    /// The allocator that it was made with.
    pub fn allocator(&self) -> Global {
        self.heads.allocator()
    }

    /// Takes memory for one operation more, whatever its value. It fails only where that room was missing.
    pub fn reserve(&mut self) -> Result<(), Memory>
        ensures room { OnOk result (0 < self.new.room) }
        ensures items { self.new.items ≡ self.old.items }
        ensures succeeds { 0 < self.old.room → IsOk result }
    {
        self.heads.reserve(1)?;
        self.bytes.reserve(LONGEST_BLOB)?;
        Ok(())
    }

    /// Appends an operation for which there is room.
    pub fn push_reserved(&mut self, operation: &OperationRef)
        requires room { 0 < self.old.room }
        ensures items { self.new.items ≡ self.old.items ++ operation.now ∷ [] }
        ensures room { self.old.room ≤ self.new.room + 1 }
    {
        self.heads.push_reserved(Head::of(operation));
        self.bytes.extend_reserved(value_bytes(operation.value()));
    }

    /// The operations that wait.
    pub fn operations(&self) -> Operations<'_>
        ensures value { result ≡ self.now.items }
    {
        Operations::new(self.heads.as_slice(), self.bytes.as_slice())
    }

    /// Those in front that are of epochs up to this one.
    pub fn up_to(&self, through: u32) -> Operations<'_>
        ensures value { result ≡ take_while (λ operation. nat_le operation.stamp.epoch through) self.now.items }
    {
        let heads = self.heads.as_slice();
        let count = heads_through(heads, through);
        Operations::new(&heads[..count], self.bytes.as_slice())
    }

    /// Those in front that are of epochs up to this one wait no longer.
    pub fn pass(&mut self, through: u32)
        ensures items { self.new.items ≡ drop (length (take_while (λ operation. nat_le operation.stamp.epoch through) self.old.items)) self.old.items }
        ensures room { self.old.room ≤ self.new.room }
    {
        let heads = self.heads.as_slice();
        let count = heads_through(heads, through);
        let len = values_len(&heads[..count], self.bytes.as_slice());
        self.heads.pass(count);
        self.bytes.pass(len);
    }
}
