//! The commands of a verifier's log, as bytes: each command has one text, and a log is the texts of its
//! commands, joined.
//!
//! A command names paths, as `Command` of `command.rt` in a bundle of version 1, or slots of a verifier's cache, as
//! `SlotCommand` of `slot_command.rt` in those of later versions; `LogCommand` is one of either. What bytes mean as a command is
//! defined in `specs/Command.antt` and `specs/SlotCommand.antt`, and for the format of a log in `specs/LogCommand.antt`;
//! what they mean as a log in `specs/Log.antt`. The crate stands on `record_text` for paths, values and stamps, on
//! `tree_keys` and on `lamport_clocks`. Begin with `read_command`, then `write_path_command` and `write_slot_command`; `push_path_command` and `push_slot_command` write
//! into an array that is there.
//! `laws.rt` says how long a command is at most, and what follows for whole logs: one that is written is read, and bytes
//! that come behind keep what was read. `path_laws.rt` and `slot_laws.rt` have the laws of commands of each kind.
#![tactic(auto)]

mod command;
mod command_text;
mod decoded;
mod laws;
mod log_command;
mod path_laws;
mod path_reading;
mod path_writing;
mod reading;
mod slot_command;
mod slot_laws;
mod slot_reading;
mod slot_writing;

pub use command::Command;
pub use command_text::{CommandText, LONGEST_COMMAND_TEXT};
pub use decoded::Decoded;
pub use laws::{
    commands_are_read_as_spelled, commands_have_a_longest_text, commands_keep_on,
    logs_are_read_as_spelled, logs_by_path_are_read, logs_go_by_commands, logs_keep_on,
    no_command_begins_another,
};
pub use log_command::LogCommand;
pub use path_laws::{
    no_path_command_begins_another, path_commands_are_read_as_spelled,
    path_commands_have_a_longest_text, path_commands_keep_on,
};
pub use path_writing::{LONGEST_PATH_COMMAND_TEXT, push_path_command, write_path_command};
pub use reading::{read_command, read_command_into};
pub use slot_command::SlotCommand;
pub use slot_laws::{
    no_slot_command_begins_another, slot_commands_are_read_as_spelled,
    slot_commands_have_a_longest_text, slot_commands_keep_on,
};
pub use slot_writing::{LONGEST_SLOT_COMMAND_TEXT, push_slot_command, write_slot_command};
