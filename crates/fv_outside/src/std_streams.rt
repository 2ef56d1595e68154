//! The standard streams as a source and a sink.
ghost use Rattle.std.specs.Prelude.{◌≡◌, ◌<◌, ◌≤◌, length, None, IfOk, IfSome};
ghost use Rattle.std.specs.Io.{ReadsAtMost};
ghost use Rattle.fv_outside.specs.Faults.{Counts, faults_after};

use crate::errors::Failed;
use crate::sinks::Sink;
use crate::sources::Source;
use std::io::{Read, Write};
use std::marker::Model;

/// Bytes from a reader of std. It counts each error as a fault, also one that says that a signal
/// interrupted the call, and tells no bytes.
#[derive(Drop)]
pub struct StdSource<R: Read> {
    reader: R,
    faults: u64,
}

/// It is seen as its count of faults.
impl<R: Read> Model for StdSource<R> {
    ghost use Rattle.std.specs.Prelude.{ℕ};

    ghost Value = { ℕ };

    ghost view = { λ s. s.faults };
}

impl<R: Read> StdSource<R> {
    pub fn new(reader: R) -> StdSource<R>
        ensures faults { result ≡ 0 }
    {
        StdSource { reader, faults: 0 }
    }

    /// How many calls failed.
    pub fn faults(&self) -> u64
        ensures value { result ≡ self.now }
    {
        self.faults
    }
}

impl<R: Read> Source for StdSource<R> {
    ghost left = { λ _. None };

    ghost faults = { λ s. s };

    fn read(&mut self, room: &mut [u8]) -> Result<usize, Failed>
        requires not_empty { 0 < length room.old }
        ensures bound { ReadsAtMost result room.new }
        ensures counts { Counts self.old self.new result }

        ensures after { self.new ≡ faults_after self.old result }
    {
        match self.reader.read(room) {
            Ok(count) => Ok(count),
            Err(_) => {
                self.faults = self.faults.saturating_add(1);
                Err(Failed)
            }
        }
    }
}

/// Writes once and flushes, so that no error of a buffer is found later and lost. None where the
/// writer answered an error or took nothing.
pub(crate) fn write_through<W: Write>(writer: &mut W, piece: &[u8]) -> Option<usize>
    ensures bound { IfSome result (λ n. (1 ≤ n) × (n ≤ length piece.now)) }
{
    let count = match writer.write(piece) {
        Ok(count) => count,
        Err(_) => return None,
    };
    if count == 0 || writer.flush().is_err() {
        return None;
    }
    Some(count)
}

/// Bytes to a writer of std. Each write is flushed. It counts each error as a fault, also one that
/// says that a signal interrupted the call, and each write that took nothing. It tells no bytes.
#[derive(Drop)]
pub struct StdSink<W: Write> {
    writer: W,
    faults: u64,
}

/// It is seen as its count of faults.
impl<W: Write> Model for StdSink<W> {
    ghost use Rattle.std.specs.Prelude.{ℕ};

    ghost Value = { ℕ };

    ghost view = { λ s. s.faults };
}

impl<W: Write> StdSink<W> {
    pub fn new(writer: W) -> StdSink<W>
        ensures faults { result ≡ 0 }
    {
        StdSink { writer, faults: 0 }
    }

    /// How many calls failed.
    pub fn faults(&self) -> u64
        ensures value { result ≡ self.now }
    {
        self.faults
    }
}

impl<W: Write> Sink for StdSink<W> {
    ghost held = { λ _. None };

    ghost faults = { λ s. s };

    fn write(&mut self, piece: &[u8]) -> Result<usize, Failed>
        requires not_empty { 0 < length piece.now }
        ensures bound { IfOk result (λ n. (1 ≤ n) × (n ≤ length piece.now)) }
        ensures counts { Counts self.old self.new result }

        ensures after { self.new ≡ faults_after self.old result }
    {
        match write_through(&mut self.writer, piece) {
            Some(count) => Ok(count),
            None => {
                self.faults = self.faults.saturating_add(1);
                Err(Failed)
            }
        }
    }
}
