//! The logs of a bundle by slots: where their commands name paths they are rewritten.
ghost use Rattle.std.specs.Prelude.{◌≡◌, ◌<◌, [], ◌∷◌, ◌++◌, map, vec_len, All, IfOk, OnOk};
ghost use Rattle.std.specs.List.{AllByRecursion};
ghost use Rattle.lamport_clocks.specs.Header.{IsHeader};
ghost use Rattle.record_text.specs.Format.{format_of};
ghost use Rattle.log_codec.specs.Log.{read_log};
ghost use Rattle.slot_rewriting.specs.Writing.{text_from, writer_behind, written_log};
ghost use Rattle.bundle_upgrade.specs.Upgraded.{path_commands, upgraded_header, upgraded_log, upgraded_logs};

use base_words::Memory;
use lamport_clocks::Header;
use log_codec::{Command, CommandText, LogCommand, read_command_into};
use slot_rewriting::CommandWriter;
use std::alloc::Global;

// The version that an upgrade writes.
const UPGRADED_VERSION: u8 = 3;

/// The header in version 3.
pub(crate) fn upgraded_header(header: &Header) -> Header
    ensures value { result ≡ upgraded_header header.now }
{
    let mut upgraded = *header;
    upgraded.version = UPGRADED_VERSION;
    upgraded
}

/// Brings the logs of all verifiers into version 3, that of verifier 0 first, each in its place.
pub(crate) fn upgrade_logs(
    alloc: Global,
    header: &Header,
    logs: &mut Vec<Vec<u8>>,
) -> Result<(), Memory>
    requires header { IsHeader header.now }
    requires count { vec_len logs.old ≡ header.now.verifiers }
    ensures logs { OnOk result (map (λ log. log.items) logs.new.items ≡ upgraded_logs header.now (map (λ log. log.items) logs.old.items)) }
    ensures count { vec_len logs.new ≡ vec_len logs.old }

    // What they held are bytes, as their type says.
    ensures bytes { OnOk result (AllByRecursion (All (λ byte. byte < 256)) (map (λ log. log.items) logs.old.items)) }
{
    for number in 0..header.verifiers {
        upgrade_log(alloc, header, number, &mut logs[usize::from(number)])?;
    }
    Ok(())
}

// Brings the log of the verifier of this number into version 3. Where its commands name slots it stays.
fn upgrade_log(alloc: Global, header: &Header, number: u16, log: &mut Vec<u8>) -> Result<(), Memory>
    requires header { IsHeader header.now }
    ensures upgraded { OnOk result (log.new.items ≡ upgraded_log header.now number log.old.items) }
    ensures bytes { All (λ byte. byte < 256) log.old.items }
{
    if header.names_paths() {
        *log = rewrite_log(alloc, header, number, log)?;
    }
    Ok(())
}

// The log of the verifier of this number, whose commands name paths, by slots.
fn rewrite_log(alloc: Global, header: &Header, number: u16, log: &[u8]) -> Result<Vec<u8>, Memory>
    requires header { IsHeader header.now }
    ensures text { IfOk result (λ text. text.items
        ≡ written_log (upgraded_header header.now) number (path_commands (read_log (format_of header.now) log.now).commands)) }
{
    let mut writer = CommandWriter::new(alloc, number, &upgraded_header(header))?;
    let mut text = Vec::new(alloc);
    let mut command = LogCommand::ByPath(Command::NextEpoch);
    let mut piece = CommandText::new();
    let mut at = 0;
    while at < log.len() {
        match read_command_into(header, &log[at..], &mut command) {
            Ok(taken) => {
                write_command(&mut writer, &command, &mut piece);
                text.extend_from_slice(piece.as_slice())?;
                at += taken;
            }
            Err(_) => break,
        }
    }
    Ok(text)
}

// Writes the text of a command that names paths in place of what a text held. Of one that names slots there is none.
fn write_command(writer: &mut CommandWriter, command: &LogCommand, text: &mut CommandText)
    ensures written { text.new.items ≡ text_from writer.old (path_commands (command.now ∷ [])) }
    ensures after { writer.new ≡ writer_behind writer.old (path_commands (command.now ∷ [])) }
{
    match command {
        LogCommand::ByPath(command) => writer.write(command, text),
        LogCommand::BySlot(_) => text.clear(),
    }
}
