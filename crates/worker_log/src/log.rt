//! A worker's log since it was last handed out.
ghost use Rattle.std.specs.Prelude.{◌≡◌, ◌++◌, true, OnOk, OnErr};
ghost use Rattle.slot_rewriting.specs.Writing.{text_by, writer_after};
ghost use Rattle.worker_log.specs.Logged.{begun_by, text_of, AreWritable};

use base_words::Memory;
use host_log::LogBuffer;
use host_plan::Commands;
use log_codec::{Command, CommandText};
use slot_rewriting::CommandWriter;
use std::alloc::Global;
use std::marker::Model;
use std::snapshot::Snapshot;

/// The bytes of what a worker logged since its log was last handed out. Commands wait beside them only while memory is wanting for
/// their texts.
#[derive(Drop)]
pub struct WorkerLog {
    // What writes the next command.
    writer: CommandWriter,
    bytes: LogBuffer,
    // The text of the last command that was written, until it is among the bytes.
    text: CommandText,
    // The commands that were logged last: those from `next` on aren't written yet.
    waiting: Commands,
    next: usize,
    // For contracts: the writer of the first command, and the commands that are written.
    first: Snapshot<CommandWriter>,
    written: Vec<Snapshot<Command>>,
}

impl Model for WorkerLog {
    ghost use Rattle.std.specs.Prelude.{nat_le, ◌&&◌, ◌++◌, length, drop, map};
    ghost use Rattle.worker_log.specs.Logged.{Logged, AreWritten, AreWritable};

    ghost Value = { Logged };

    ghost view = { λ l. record {
      writer = l.first.value;
      commands = map (λ command. command.value) l.written.items ++ drop l.next l.waiting;
      settled = nat_le (length l.text.items) 0 && nat_le (length l.waiting) l.next;
    } };

    ghost invariant = { λ l. AreWritten l.first.value l.writer (map (λ command. command.value) l.written.items) l.bytes l.text.items
        × AreWritable (map (λ command. command.value) l.written.items ++ drop l.next l.waiting) };
}

impl WorkerLog {
    /// Nothing yet. This writer writes the first command. The log takes memory from `alloc` as it grows.
    pub fn new(alloc: Global, writer: CommandWriter) -> Self
        ensures value { result ≡ begun_by writer }
    {
        WorkerLog {
            first: Snapshot::of(&writer),
            writer,
            bytes: LogBuffer::new(alloc),
            text: CommandText::new(),
            waiting: Commands::of(Vec::new(alloc)),
            next: 0,
            written: Vec::new(alloc),
        }
    }

    /// Logs these commands. Where memory is wanting for their texts they wait, until `settle` finds it.
    pub fn push(&mut self, commands: Commands)
        requires settled { self.old.settled ≡ true }
        requires writable { AreWritable commands }
        ensures commands { self.new.commands ≡ self.old.commands ++ commands }
        ensures writer { self.new.writer ≡ self.old.writer }
    {
        self.waiting = commands;
        self.next = 0;
        let _wanting = self.settle().is_err();
    }

    /// Writes what waits. For want of memory some of it may wait still.
    pub fn settle(&mut self) -> Result<(), Memory>
        ensures settled { OnOk result (self.new.settled ≡ true) }
        ensures commands { self.new.commands ≡ self.old.commands }
        ensures writer { self.new.writer ≡ self.old.writer }
    {
        while self.next < self.waiting.as_slice().len() {
            let command = &self.waiting.as_slice()[self.next];
            self.written.reserve(1)?;
            write_behind(&mut self.writer, command, &mut self.bytes, &mut self.text)?;
            self.written.push_reserved(Snapshot::of(command));
            self.next += 1;
        }
        self.bytes.push(self.text.as_slice())?;
        self.text.clear();
        Ok(())
    }

    /// The texts of all that was logged.
    pub fn bytes(&self) -> &[u8]
        requires settled { self.now.settled ≡ true }
        ensures value { result.now ≡ text_of self.now }
        ensures writable { AreWritable self.now.commands }
    {
        self.bytes.bytes()
    }

    /// Hands the texts of all that was logged to a buffer, in place of what that held. The log begins anew, with the buffer's memory
    /// and with this writer.
    pub fn hand_out(&mut self, writer: CommandWriter, buffer: &mut LogBuffer)
        requires settled { self.old.settled ≡ true }
        ensures handed { buffer.new ≡ text_of self.old }
        ensures writable { AreWritable self.old.commands }
        ensures begun { self.new ≡ begun_by writer }
    {
        self.bytes.hand_over(buffer);
        self.first = Snapshot::of(&writer);
        self.writer = writer;
        self.written.clear();
    }
}

// Writes the text of a command, once that of the one before it is among the bytes. For want of memory all is as before.
fn write_behind(
    writer: &mut CommandWriter,
    command: &Command,
    bytes: &mut LogBuffer,
    text: &mut CommandText,
) -> Result<(), Memory>
    ensures bytes { OnOk result (bytes.new ≡ bytes.old ++ text.old.items) }
    ensures text { OnOk result (text.new.items ≡ text_by writer.old command.now) }
    ensures writer { OnOk result (writer.new ≡ writer_after writer.old command.now) }
    ensures bytes_as_before { OnErr result (bytes.new ≡ bytes.old) }
    ensures text_as_before { OnErr result (text.new.items ≡ text.old.items) }
    ensures writer_as_before { OnErr result (writer.new ≡ writer.old) }
{
    bytes.push(text.as_slice())?;
    writer.write(command, text);
    Ok(())
}
