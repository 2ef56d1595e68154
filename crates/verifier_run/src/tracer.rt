//! A verifier and what its commands have come to, command by command.
ghost use Rattle.std.specs.Option.{option_to_list};
ghost use Rattle.std.specs.Prelude.{◌≡◌, ◌+◌, ◌<◌, ◌≤◌, ◌^◌, ◌++◌, length, take, vec_len, vec_capacity, take_while, nat_le, IfOk, OnOk, OnErr};
ghost use Rattle.lamport_clocks.specs.Header.{IsHeader};
ghost use Rattle.merkle_records.specs.Scheme.{scheme_of};
ghost use Rattle.verifier_commands.specs.Machine.{opening_machine};
ghost use Rattle.verifier_run.specs.Course.{Course, opening_course, refuse, after_command};
ghost use Rattle.verifier_run.specs.Taken.{taken_by, left_behind};

use crate::kept::Kept;
use base_words::Memory;
use lamport_clocks::Header;
use log_codec::LogCommand;
use multiset_sum::Part;
use operation_queue::Operations;
use record_hash::Digests;
use record_text::{Operation, Refusal};
use slice_queue::SliceQueue;
use std::alloc::Global;
use std::marker::Model;
use verifier_commands::Verifier;

/// A verifier, and the course of its commands. The store and the queue are all that grows.
#[derive(Drop)]
pub(crate) struct Tracer<T: Kept> {
    pub(crate) verifier: Verifier,
    pub(crate) items: T::Store,
    pub(crate) parts: SliceQueue<Part>,
    pub(crate) refused: Option<(u64, Refusal)>,
}

impl<T: Kept> Model for Tracer<T> {
    ghost use Rattle.std.specs.Option.{option_to_list};
    ghost use Rattle.verifier_run.specs.Course.{Course};
    ghost use Rattle.verifier_run.specs.Order.{StandsInOrder};

    ghost Value = { Course T };

    ghost view = { λ t. record { machine = t.verifier; items = T.held t.items; parts = t.parts.items; refused = t.refused } };

    ghost invariant = { λ t. StandsInOrder T.epoch t.verifier.state.clock (T.held t.items) t.parts.items };
}

impl<T: Kept> Tracer<T> {
    /// The verifier of this number before its first command.
    pub(crate) fn new(alloc: Global, number: u16, header: &Header) -> Result<Self, Memory>
        requires header { IsHeader header.now }
        requires number { number < header.now.verifiers }
        ensures opening { IfOk result (λ tracer. tracer ≡ opening_course (opening_machine number header.now)) }
    {
        let verifier = Verifier::new(alloc, number, header)?;
        Ok(Tracer {
            verifier,
            items: T::new_store(alloc),
            parts: SliceQueue::new(alloc),
            refused: None,
        })
    }

    /// The allocator that it was made with.
    pub(crate) fn allocator(&self) -> Global {
        self.parts.allocator()
    }

    /// The header of its bundle.
    pub(crate) fn header(&self) -> &Header
        ensures value { result.now ≡ self.now.machine.header }
    {
        self.verifier.header()
    }

    /// The number of the refused command, from 0, and why.
    pub(crate) fn refused(&self) -> Option<(u64, Refusal)>
        ensures value { result ≡ self.now.refused }
    {
        self.refused
    }

    /// Where what was kept and not taken waits.
    pub(crate) fn store(&self) -> &T::Store
        ensures held { T.held result.now ≡ self.now.items }
    {
        &self.items
    }

    /// The same, and nothing else of it.
    pub(crate) fn into_store(self) -> T::Store
        ensures held { T.held result ≡ self.items }
    {
        let Tracer {
            verifier: _,
            items,
            parts: _,
            refused: _,
        } = self;
        items
    }

    pub(crate) fn parts(&self) -> &[Part]
        ensures value { result.now ≡ self.now.parts }
    {
        self.parts.as_slice()
    }

    /// Refuses the next command.
    pub(crate) fn refuse(&mut self, refusal: Refusal)
        ensures refused { self.new ≡ refuse self.old refusal }
    {
        self.refused = Some((self.verifier.accepted(), refusal));
    }

    /// Takes one command. For want of memory nothing of it is done.
    #[tactic(auto, unfolding(crate::specs::Course::after_command))]
    pub(crate) fn apply<D: Digests>(&mut self, d: &D, command: &LogCommand) -> Result<(), Memory>
        requires room { self.old.machine.accepted < 2 ^ 63 }
        ensures ok { OnOk result (self.new ≡ after_command T.keeps (scheme_of (D.functions d.now) self.old.machine.header) self.old command.now) }
        ensures err { OnErr result (self.new ≡ self.old) }
        ensures count { self.new.machine.accepted ≤ self.old.machine.accepted + 1 }
    {
        // The room first: a step can't be taken back.
        T::reserve(&mut self.items)?;
        self.parts.reserve(1)?;
        match T::perform(&mut self.verifier, d, command, &mut self.items) {
            Ok(part) => keep(part, &mut self.parts),
            Err(refusal) => self.refuse(refusal),
        }
        Ok(())
    }
}

impl Tracer<Operation> {
    /// All operations.
    pub(crate) fn operations(&self) -> Operations<'_>
        ensures value { result ≡ self.now.items }
    {
        self.items.operations()
    }

    /// The operations of epochs up to this one: they stand in front.
    pub(crate) fn operations_up_to(&self, through: u32) -> Operations<'_>
        ensures value { result ≡ taken_by through self.now }
    {
        self.items.up_to(through)
    }

    /// Keeps no operation and no part of epochs up to this one.
    pub(crate) fn pass(&mut self, through: u32)
        ensures left { self.new ≡ left_behind through self.old }
        ensures machine { self.new.machine ≡ self.old.machine }
        ensures refused { self.new.refused ≡ self.old.refused }
    {
        let parts = parts_through(self.parts.as_slice(), through);
        self.items.pass(through);
        self.parts.pass(parts);
    }
}

// Appends a part, if there is one. There is room for it.
fn keep(part: Option<Part>, into: &mut SliceQueue<Part>)
    requires room { 0 < into.old.room }
    ensures items { into.new.items ≡ into.old.items ++ option_to_list part }
{
    if let Some(part) = part {
        into.push_reserved(part);
    }
}

// How many parts at the front are of epochs up to this one.
fn parts_through(parts: &[Part], through: u32) -> usize
    ensures value { result ≡ length (take_while (λ part. nat_le part.epoch through) parts.now) }
    ensures within { result ≤ length parts.now }
{
    parts
        .iter()
        .take_while(|part| part.epoch <= through)
        .count()
}
