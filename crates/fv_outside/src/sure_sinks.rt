//! A sink in memory that never fails.
ghost use Rattle.std.specs.Prelude.{◌≡◌, ◌<◌, ◌≤◌, true, length, take, Ok, IfOk};
ghost use Rattle.std.specs.Option.{option_copied};
ghost use Rattle.fv_outside.specs.Faults.{Counts};
ghost use Rattle.fv_outside.specs.Written.{WriteGrows};
ghost use Rattle.fv_outside.specs.SureSinkState.{new_sure_sink, sure_count, held_after, after_sure_write, new_sure_vault, IsUnused};

use crate::errors::Failed;
use crate::memory_sinks::append_reserved;
use crate::sinks::{Sink, Vault};
use base_words::Memory;
use std::alloc::Global;
use std::marker::Model;

/// A sink in memory that never fails. What comes past its capacity is taken and dropped, and from
/// then on it tells no bytes.
#[derive(Drop)]
pub struct SureSink {
    held: Vec<u8>,
    capacity: usize,
    piece: usize,
    is_over: bool,
}

impl Model for SureSink {
    ghost use Rattle.std.specs.Prelude.{◌<◌, ◌≤◌, vec_len, vec_capacity, Some, None, if◌then◌else◌};
    ghost use Rattle.fv_outside.specs.SureSinkState.{SureSinkState};

    ghost Value = { SureSinkState };

    ghost view = { λ s. record { held = if s.is_over then None else Some s.held.items; capacity = s.capacity; piece = s.piece } };

    ghost invariant = { λ s. (vec_len s.held ≤ s.capacity) × (s.capacity ≤ vec_capacity s.held) × (0 < s.piece) };
}

impl SureSink {
    /// A sink that keeps `capacity` bytes and takes at most `piece` of them a write. It takes all
    /// its memory now.
    pub fn new(alloc: Global, capacity: usize, piece: usize) -> Result<SureSink, Memory>
        requires piece { 0 < piece }
        ensures made { IfOk result (λ sink. sink ≡ new_sure_sink capacity piece) }
    {
        Ok(SureSink {
            held: Vec::with_capacity(alloc, capacity)?,
            capacity,
            piece,
            is_over: false,
        })
    }

    /// All bytes that were written, if they are no more than the capacity.
    pub fn bytes(&self) -> Option<&[u8]>
        ensures value { option_copied result ≡ self.now.held }
    {
        if self.is_over {
            None
        } else {
            Some(self.held.as_slice())
        }
    }

    /// Keeps more bytes while there is room for all of them.
    fn keep(&mut self, bytes: &[u8])
        ensures after { self.new ≡ record self.old { held = held_after self.old.capacity self.old.held bytes.now } }
    {
        if bytes.len() > self.capacity - self.held.len() {
            self.is_over = true;
        }
        if !self.is_over {
            append_reserved(&mut self.held, bytes);
        }
    }

    /// Takes the first bytes of a piece, and says how many.
    fn take(&mut self, piece: &[u8]) -> usize
        ensures count { result ≡ sure_count self.old piece.now }
        ensures some { 0 < length piece.now → 1 ≤ result }
        ensures after { self.new ≡ after_sure_write self.old piece.now }
    {
        let count = piece.len().min(self.piece);
        self.keep(&piece[..count]);
        count
    }
}

impl Sink for SureSink {
    ghost held = { λ s. s.held };

    ghost faults = { λ _. 0 };

    fn write(&mut self, piece: &[u8]) -> Result<usize, Failed>
        requires not_empty { 0 < length piece.now }
        ensures bound { IfOk result (λ n. (1 ≤ n) × (n ≤ length piece.now)) }
        ensures bytes { WriteGrows self.old.held self.new.held result piece.now }
        ensures counts { Counts 0 0 result }

        ensures answer { result ≡ Ok (sure_count self.old piece.now) }
        ensures after { self.new ≡ after_sure_write self.old piece.now }
    {
        Ok(self.take(piece))
    }
}

/// A vault in memory that never fails: a `SureSink` that can be named. It tells no name.
#[derive(Drop)]
pub struct SureVault {
    sink: SureSink,
    is_named: bool,
}

impl Model for SureVault {
    ghost use Rattle.fv_outside.specs.SureSinkState.{SureVaultState};

    ghost Value = { SureVaultState };

    ghost view = { λ v. record { sink = v.sink; is_named = v.is_named } };
}

impl SureVault {
    /// A vault that keeps `capacity` bytes and takes at most `piece` of them a write. It takes all
    /// its memory now.
    pub fn new(alloc: Global, capacity: usize, piece: usize) -> Result<SureVault, Memory>
        requires piece { 0 < piece }
        ensures made { IfOk result (λ vault. vault ≡ new_sure_vault capacity piece) }
    {
        Ok(SureVault {
            sink: SureSink::new(alloc, capacity, piece)?,
            is_named: false,
        })
    }

    /// All bytes that were written, if they are no more than the capacity.
    pub fn bytes(&self) -> Option<&[u8]>
        ensures value { option_copied result ≡ self.now.sink.held }
    {
        self.sink.bytes()
    }

    /// Whether the vault was named.
    pub fn is_named(&self) -> bool
        ensures value { result ≡ self.now.is_named }
    {
        self.is_named
    }
}

impl Sink for SureVault {
    ghost held = { λ v. v.sink.held };

    ghost faults = { λ _. 0 };

    fn write(&mut self, piece: &[u8]) -> Result<usize, Failed>
        requires not_empty { 0 < length piece.now }
        ensures bound { IfOk result (λ n. (1 ≤ n) × (n ≤ length piece.now)) }
        ensures bytes { WriteGrows self.old.sink.held self.new.sink.held result piece.now }
        ensures counts { Counts 0 0 result }

        ensures answer { result ≡ Ok (sure_count self.old.sink piece.now) }
        ensures after { self.new ≡ record self.old { sink = after_sure_write self.old.sink piece.now } }
    {
        self.sink.write(piece)
    }
}

impl Vault for SureVault {
    ghost use Rattle.fv_outside.specs.SureSinkState.{IsUnused, IsUnused-empty};

    ghost fresh = { IsUnused };

    fn name(&mut self, _path: &str) -> Result<(), Failed>
        requires fresh { IsUnused self.old }
        ensures bytes { self.new.sink.held ≡ self.old.sink.held }
        ensures counts { Counts 0 0 result }

        ensures answer { result ≡ Ok tt }
        ensures after { self.new ≡ record self.old { is_named = true } }
    {
        self.is_named = true;
        Ok(())
    }

    ghost fresh_holds_nothing = { λ v fresh. IsUnused-empty v fresh };

    ghost fresh_has_no_name = { λ v fresh. tt };
}
