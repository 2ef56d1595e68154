//! A source in memory, with calls that are to fail.
ghost use Rattle.std.specs.Prelude.{◌≡◌, ◌<◌, ◌≤◌, [], length, Some, Ok, IfOk};
ghost use Rattle.std.specs.Io.{ReadsAtMost};
ghost use Rattle.std.specs.Io.KnownBytes.{ReadConsumes};
ghost use Rattle.fv_outside.specs.Faults.{Counts};
ghost use Rattle.fv_outside.specs.SourceState.{SureSourceState, given_count, filled, rest_of, new_source, read_answer, read_room, after_read};

use crate::calls::Calls;
use crate::errors::Failed;
use crate::sources::Source;
use base_words::Memory;
use std::alloc::Global;
use std::marker::Model;

/// Bytes in memory, read at most `piece` at a time. It never fails.
#[derive(Drop)]
pub struct SureSource {
    bytes: Vec<u8>,
    given: usize,
    piece: usize,
}

impl Model for SureSource {
    ghost use Rattle.std.specs.Prelude.{◌≤◌, ◌<◌, vec_len, drop};
    ghost use Rattle.fv_outside.specs.SourceState.{SureSourceState};

    ghost Value = { SureSourceState };

    ghost view = { λ s. record { left = drop s.given s.bytes.items; piece = s.piece } };

    ghost invariant = { λ s. (s.given ≤ vec_len s.bytes) × (0 < s.piece) };
}

impl SureSource {
    /// A source of these bytes that gives at most `piece` of them a read.
    pub fn new(alloc: Global, bytes: &[u8], piece: usize) -> Result<SureSource, Memory>
        requires piece { 0 < piece }
        ensures made { IfOk result (λ source. source ≡ record { left = bytes.now; piece = piece }) }
    {
        Ok(SureSource {
            bytes: Vec::from_slice(alloc, bytes)?,
            given: 0,
            piece,
        })
    }

    /// The bytes that were not yet given.
    pub fn left(&self) -> &[u8]
        ensures value { result.now ≡ self.now.left }
    {
        &self.bytes[self.given..]
    }

    /// Gives the next bytes, and says how many.
    fn give(&mut self, room: &mut [u8]) -> usize
        ensures count { result ≡ given_count self.old (length room.old) }
        ensures room { room.new ≡ filled self.old room.old }
        ensures after { self.new ≡ rest_of self.old (length room.old) }
        ensures stuck { 0 < length room.old → result ≡ 0 → self.old.left ≡ [] }
    {
        let left = &self.bytes[self.given..];
        let count = room.len().min(self.piece).min(left.len());
        room[..count].copy_from_slice(&left[..count]);
        self.given += count;
        count
    }
}

impl Source for SureSource {
    ghost left = { λ s. Some s.left };

    ghost faults = { λ _. 0 };

    fn read(&mut self, room: &mut [u8]) -> Result<usize, Failed>
        requires not_empty { 0 < length room.old }
        ensures bound { ReadsAtMost result room.new }
        ensures bytes { ReadConsumes (Some self.old.left) (Some self.new.left) result room.new }
        ensures counts { Counts 0 0 result }

        ensures answer { result ≡ Ok (given_count self.old (length room.old)) }
        ensures room { room.new ≡ filled self.old room.old }
        ensures after { self.new ≡ rest_of self.old (length room.old) }
    {
        Ok(self.give(room))
    }
}

/// Bytes in memory, read at most `piece` at a time. The calls whose numbers (from 0) stand in a
/// list fail, and give nothing.
#[derive(Drop)]
pub struct MemorySource {
    source: SureSource,
    calls: Calls,
}

impl Model for MemorySource {
    ghost use Rattle.fv_outside.specs.SourceState.{SourceState};

    ghost Value = { SourceState };

    ghost view = { λ s. record { source = s.source; calls = s.calls } };
}

impl MemorySource {
    /// A source of these bytes that gives at most `piece` of them a read, and whose calls with
    /// the numbers of `fails` fail.
    pub fn new(
        alloc: Global,
        bytes: &[u8],
        piece: usize,
        fails: &[u64],
    ) -> Result<MemorySource, Memory>
        requires piece { 0 < piece }
        ensures made { IfOk result (λ source. source ≡ new_source bytes.now piece fails.now) }
    {
        Ok(MemorySource {
            source: SureSource::new(alloc, bytes, piece)?,
            calls: Calls::new(alloc, fails)?,
        })
    }

    /// The bytes that were not yet given.
    pub fn left(&self) -> &[u8]
        ensures value { result.now ≡ self.now.source.left }
    {
        self.source.left()
    }

    /// How many calls failed.
    pub fn faults(&self) -> u64
        ensures value { result ≡ self.now.calls.faults }
    {
        self.calls.faults()
    }
}

impl Source for MemorySource {
    ghost left = { λ s. Some s.source.left };

    ghost faults = { λ s. s.calls.faults };

    fn read(&mut self, room: &mut [u8]) -> Result<usize, Failed>
        requires not_empty { 0 < length room.old }
        ensures bound { ReadsAtMost result room.new }
        ensures bytes { ReadConsumes (Some self.old.source.left) (Some self.new.source.left) result room.new }
        ensures counts { Counts self.old.calls.faults self.new.calls.faults result }

        ensures answer { result ≡ read_answer self.old (length room.old) }
        ensures room { room.new ≡ read_room self.old room.old }
        ensures after { self.new ≡ after_read self.old (length room.old) }
    {
        if self.calls.is_to_fail() {
            self.calls.fail();
            return Err(Failed);
        }
        let count = self.source.give(room);
        self.calls.answer();
        Ok(count)
    }
}
