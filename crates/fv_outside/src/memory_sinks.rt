//! A sink in memory, with calls that are to fail.
ghost use Rattle.std.specs.Prelude.{◌≡◌, ◌+◌, ◌<◌, ◌≤◌, ◌++◌, length, vec_len, vec_capacity, Some, None, IfOk, OnOk, OnErr, IsFalse};
ghost use Rattle.std.specs.Option.{option_copied};
ghost use Rattle.fv_outside.specs.Faults.{Counts, Rose};
ghost use Rattle.fv_outside.specs.Written.{WriteGrows, IsNamed};
ghost use Rattle.fv_outside.specs.Calls.{is_to_fail, answered, failing};
ghost use Rattle.fv_outside.specs.SinkState.{new_sink, write_fails, write_answer, after_write, new_vault, name_fails, name_answer, after_name, IsFresh};

use crate::calls::Calls;
use crate::errors::Failed;
use crate::sinks::{Sink, Vault};
use base_words::Memory;
use std::alloc::Global;
use std::marker::Model;

/// Appends bytes for which there is room.
pub(crate) fn append_reserved(held: &mut Vec<u8>, bytes: &[u8])
    requires room { vec_len held.old + length bytes.now ≤ vec_capacity held.old }
    ensures items { held.new.items ≡ held.old.items ++ bytes.now }
    ensures capacity { vec_capacity held.old ≤ vec_capacity held.new }
{
    held.extend_from_slice(bytes).unwrap()
}

/// A sink in memory that holds at most `capacity` bytes and takes at most `piece` of them a write.
/// The calls whose numbers (from 0) stand in a list fail, and so do writes when it is full.
#[derive(Drop)]
pub struct MemorySink {
    held: Vec<u8>,
    capacity: usize,
    piece: usize,
    calls: Calls,
}

impl Model for MemorySink {
    ghost use Rattle.std.specs.Prelude.{◌<◌, ◌≤◌, vec_len, vec_capacity};
    ghost use Rattle.fv_outside.specs.SinkState.{SinkState};

    ghost Value = { SinkState };

    ghost view = { λ s. record { held = s.held.items; capacity = s.capacity; piece = s.piece; calls = s.calls } };

    ghost invariant = { λ s. (vec_len s.held ≤ s.capacity) × (s.capacity ≤ vec_capacity s.held) × (0 < s.piece) };
}

impl MemorySink {
    /// A sink with room for `capacity` bytes, which takes at most `piece` of them a write, and
    /// whose calls with the numbers of `fails` fail. It takes all its memory now.
    pub fn new(
        alloc: Global,
        capacity: usize,
        piece: usize,
        fails: &[u64],
    ) -> Result<MemorySink, Memory>
        requires piece { 0 < piece }
        ensures made { IfOk result (λ sink. sink ≡ new_sink capacity piece fails.now) }
    {
        Ok(MemorySink {
            held: Vec::with_capacity(alloc, capacity)?,
            capacity,
            piece,
            calls: Calls::new(alloc, fails)?,
        })
    }

    /// The bytes held.
    pub fn bytes(&self) -> &[u8]
        ensures value { result.now ≡ self.now.held }
    {
        self.held.as_slice()
    }

    /// How many calls failed.
    pub fn faults(&self) -> u64
        ensures value { result ≡ self.now.calls.faults }
    {
        self.calls.faults()
    }

    fn write_fails(&self) -> bool
        ensures value { result ≡ write_fails self.now }
    {
        self.calls.is_to_fail() || self.held.len() >= self.capacity
    }

    fn name_fails(&self, path: &str) -> bool
        ensures value { result ≡ name_fails (record { sink = self.now; name = None }) path.now }
        ensures fits { IsFalse result → length path.now ≤ self.now.capacity }
    {
        self.calls.is_to_fail() || path.len() > self.capacity
    }

    /// Counts a call that was answered.
    fn answer(&mut self)
        ensures after { self.new ≡ record self.old { calls = answered self.old.calls } }
    {
        self.calls.answer()
    }

    /// Counts a call that failed.
    fn fail(&mut self)
        ensures after { self.new ≡ record self.old { calls = failing self.old.calls } }
        ensures never_falls { self.old.calls.faults ≤ self.new.calls.faults }
        ensures rose { Rose self.old.calls.faults self.new.calls.faults }
    {
        self.calls.fail()
    }
}

impl Sink for MemorySink {
    ghost held = { λ s. Some s.held };

    ghost faults = { λ s. s.calls.faults };

    fn write(&mut self, piece: &[u8]) -> Result<usize, Failed>
        requires not_empty { 0 < length piece.now }
        ensures bound { IfOk result (λ n. (1 ≤ n) × (n ≤ length piece.now)) }
        ensures bytes { WriteGrows (Some self.old.held) (Some self.new.held) result piece.now }
        ensures counts { Counts self.old.calls.faults self.new.calls.faults result }

        ensures answer { result ≡ write_answer self.old piece.now }
        ensures after { self.new ≡ after_write self.old piece.now }
    {
        if self.write_fails() {
            self.fail();
            return Err(Failed);
        }
        let room = self.capacity - self.held.len();
        let count = piece.len().min(self.piece).min(room);
        append_reserved(&mut self.held, &piece[..count]);
        self.answer();
        Ok(count)
    }
}

/// A vault in memory: a `MemorySink` that can be given a name of at most `capacity` bytes. It tells
/// its name, and naming it counts as a call.
#[derive(Drop)]
pub struct MemoryVault {
    sink: MemorySink,
    name: String,
    is_named: bool,
}

impl Model for MemoryVault {
    ghost use Rattle.std.specs.Prelude.{◌≡◌, ◌≤◌, false, string_bytes, [], Some, None, if◌then◌else◌};
    ghost use Rattle.std.specs.String.{string_capacity};
    ghost use Rattle.fv_outside.specs.SinkState.{VaultState};

    ghost Value = { VaultState };

    ghost view = { λ v. record { sink = v.sink; name = if v.is_named then Some (string_bytes v.name) else None } };

    ghost invariant = { λ v. (v.sink.capacity ≤ string_capacity v.name) × (v.is_named ≡ false → string_bytes v.name ≡ []) };
}

impl MemoryVault {
    /// A vault with room for `capacity` bytes, and for a name of as many, which takes at most
    /// `piece` bytes a write, and whose calls with the numbers of `fails` fail. It takes all its
    /// memory now.
    pub fn new(
        alloc: Global,
        capacity: usize,
        piece: usize,
        fails: &[u64],
    ) -> Result<MemoryVault, Memory>
        requires piece { 0 < piece }
        ensures made { IfOk result (λ vault. vault ≡ new_vault capacity piece fails.now) }
    {
        Ok(MemoryVault {
            sink: MemorySink::new(alloc, capacity, piece, fails)?,
            name: String::with_capacity(alloc, capacity)?,
            is_named: false,
        })
    }

    /// The bytes held.
    pub fn bytes(&self) -> &[u8]
        ensures value { result.now ≡ self.now.sink.held }
    {
        self.sink.bytes()
    }

    /// The name, if the vault was given one.
    pub fn name_taken(&self) -> Option<&str>
        ensures value { option_copied result ≡ self.now.name }
    {
        if self.is_named {
            Some(self.name.as_str())
        } else {
            None
        }
    }

    /// How many calls failed.
    pub fn faults(&self) -> u64
        ensures value { result ≡ self.now.sink.calls.faults }
    {
        self.sink.faults()
    }
}

impl Sink for MemoryVault {
    ghost held = { λ v. Some v.sink.held };

    ghost faults = { λ v. v.sink.calls.faults };

    ghost name = { λ v. Some v.name };

    fn write(&mut self, piece: &[u8]) -> Result<usize, Failed>
        requires not_empty { 0 < length piece.now }
        ensures bound { IfOk result (λ n. (1 ≤ n) × (n ≤ length piece.now)) }
        ensures bytes { WriteGrows (Some self.old.sink.held) (Some self.new.sink.held) result piece.now }
        ensures name { Some self.new.name ≡ Some self.old.name }
        ensures counts { Counts self.old.sink.calls.faults self.new.sink.calls.faults result }

        ensures answer { result ≡ write_answer self.old.sink piece.now }
        ensures after { self.new ≡ record self.old { sink = after_write self.old.sink piece.now } }
    {
        self.sink.write(piece)
    }
}

impl Vault for MemoryVault {
    ghost fresh = { IsFresh };

    fn name(&mut self, path: &str) -> Result<(), Failed>
        requires fresh { IsFresh self.old }
        ensures named { OnOk result (IsNamed (Some self.old.name) (Some self.new.name) path.now) }
        ensures unnamed { OnErr result (Some self.new.name ≡ Some self.old.name) }
        ensures bytes { Some self.new.sink.held ≡ Some self.old.sink.held }
        ensures counts { Counts self.old.sink.calls.faults self.new.sink.calls.faults result }

        ensures answer { result ≡ name_answer self.old path.now }
        ensures after { self.new ≡ after_name self.old path.now }
    {
        if self.sink.name_fails(path) {
            self.sink.fail();
            return Err(Failed);
        }
        self.name.push_str(path).unwrap();
        self.is_named = true;
        self.sink.answer();
        Ok(())
    }

    ghost fresh_holds_nothing = { λ v fresh. fresh.0 };

    ghost fresh_has_no_name = { λ v fresh. fresh.1 };
}
