//! A page of text, gathered before it is written to a sink.
ghost use Rattle.std.specs.Prelude.{◌≡◌, ◌+◌, ◌≤◌, ◌++◌, [], length, nat_le, ◌-◌, OnOk, OnErr};
ghost use Rattle.report_text.specs.Page.{Passes};
ghost use Rattle.fv_outside.specs.Faults.{Counts};
ghost use Rattle.fv_outside.specs.Written.{Grows, GrowsByFront};

use arrayvec::ArrayVec;
use fv_outside::{Failed, Sink, write_all};
use std::marker::Model;

/// How many bytes a page has room for.
pub const PAGE_ROOM: usize = 8192;

/// Lines that wait to be written, so that a sink is written to in large pieces: contracts see their bytes.
#[derive(Drop)]
pub struct Page {
    text: ArrayVec<u8, PAGE_ROOM>,
}

impl Model for Page {
    ghost use Rattle.std.specs.Prelude.{ℕ, List};

    ghost Value = { List ℕ };

    ghost view = { λ p. p.text.items };
}

impl Page {
    /// A page with nothing on it.
    pub fn new() -> Self
        ensures empty { result ≡ [] }
    {
        Page {
            text: ArrayVec::new(),
        }
    }

    // Whether so many bytes more have room.
    fn has_room(&self, bytes: usize) -> bool
        ensures value { result ≡ nat_le bytes (PAGE_ROOM - length self.now) }
        ensures fits { length self.now ≤ PAGE_ROOM }
    {
        bytes <= self.text.remaining_capacity()
    }

    // Adds a line, which must have room.
    fn push(&mut self, line: &[u8])
        requires room { length self.old + length line.now ≤ PAGE_ROOM }
        ensures appended { self.new ≡ self.old ++ line.now }
    {
        self.text.try_extend_from_slice(line).unwrap();
    }

    /// Writes what waits. Where the sink failed a front of it was written. Nothing waits after it.
    pub fn flush<O: Sink>(&mut self, sink: &mut O) -> Result<(), Failed>
        ensures whole { OnOk result (Grows (O.held sink.old) (O.held sink.new) self.old) }
        ensures front { OnErr result (GrowsByFront (O.held sink.old) (O.held sink.new) self.old) }
        ensures name { O.name sink.new ≡ O.name sink.old }
        ensures counts { Counts (O.faults sink.old) (O.faults sink.new) result }
        ensures empty { self.new ≡ [] }
    {
        let written = write_all(sink, self.text.as_slice());
        self.text.clear();
        written
    }

    /// Adds a line, and first writes what waits where there is no room for it.
    pub fn write<O: Sink>(&mut self, line: &[u8], sink: &mut O) -> Result<(), Failed>
        requires short { length line.now ≤ PAGE_ROOM }
        ensures whole { OnOk result (Passes (O.held sink.old) self.old line.now (O.held sink.new) self.new) }
        ensures front { OnErr result (GrowsByFront (O.held sink.old) (O.held sink.new) self.old) }
        ensures name { O.name sink.new ≡ O.name sink.old }
        ensures counts { Counts (O.faults sink.old) (O.faults sink.new) result }
    {
        if !self.has_room(line.len()) {
            self.flush(sink)?;
        }
        self.push(line);
        Ok(())
    }

    /// Adds a text of any length. Where there is no room for it, what waits is written first, and then the text.
    pub fn write_text<O: Sink>(&mut self, text: &[u8], sink: &mut O) -> Result<(), Failed>
        ensures whole { OnOk result (Passes (O.held sink.old) self.old text.now (O.held sink.new) self.new) }
        ensures front { OnErr result (GrowsByFront (O.held sink.old) (O.held sink.new) (self.old ++ text.now)) }
        ensures name { O.name sink.new ≡ O.name sink.old }
        ensures counts { Counts (O.faults sink.old) (O.faults sink.new) result }
    {
        if self.has_room(text.len()) {
            self.push(text);
            return Ok(());
        }
        match self.flush(sink) {
            Ok(()) => write_all(sink, text),
            Err(failed) => Err(failed),
        }
    }
}
