//! How the commands of a host's log are written.
ghost use Rattle.std.specs.Prelude.{◌≡◌, IfOk};
ghost use Rattle.lamport_clocks.specs.Header.{IsHeader};
ghost use Rattle.slot_rewriting.specs.Writing.{opening_writer, text_by, writer_after};

use crate::slots::Slots;
use base_words::Memory;
use lamport_clocks::Header;
use log_codec::{Command, CommandText, push_path_command, push_slot_command};
use std::alloc::Global;

/// Whether the commands of a verifier's log are written as they name paths, or by slots, and then which path stands in each slot.
#[derive(Debug, Drop)]
pub enum CommandWriter {
    ByPath,
    BySlot(Slots),
}

impl CommandWriter {
    /// The writer of a verifier's log before its first command, in the version that the header says.
    pub fn new(alloc: Global, number: u16, header: &Header) -> Result<Self, Memory>
        requires header { IsHeader header.now }
        ensures value { IfOk result (λ writer. writer ≡ opening_writer number header.now) }
    {
        if header.names_paths() {
            Ok(CommandWriter::ByPath)
        } else {
            Ok(CommandWriter::BySlot(Slots::new(alloc, number, header)?))
        }
    }

    /// Writes the text of a command in place of what a text held. A command that can't be rewritten has none, and then the writer is
    /// as before.
    pub fn write(&mut self, command: &Command, text: &mut CommandText)
        ensures written { text.new.items ≡ text_by self.old command.now }
        ensures after { self.new ≡ writer_after self.old command.now }
    {
        text.clear();
        match self {
            CommandWriter::ByPath => push_path_command(text, command),
            CommandWriter::BySlot(slots) => {
                if slots.can_rewrite(command) {
                    push_slot_command(text, &slots.rewrite(command));
                }
            }
        }
    }
}
