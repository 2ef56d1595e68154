//! The next commands of a log, read ahead of the verifier that takes them, with the digests that they will ask for.
//!
//! A verifier takes its commands one by one, and each asks for digests and lanes of texts that mostly follow from the log
//! alone: the value that an add brings, the element that an evict sends out. So a `CommandWindow` reads a number of commands
//! at once and hashes what they will ask for eight at a time, side by side. What it thinks of a text may be wrong, as where
//! a log is an enemy's; that costs time and changes no answer, since `KnownDigests` of `record_hash` compares each text with
//! the one that it knows. The crate stands on `log_codec`, `record_text` and `record_hash`. Begin with `CommandWindow` in
//! `window.rt`, beside `specs/Window.antt`; `commands.rt` has the commands that were read, `asking.rt` has what a command will ask for, by an index in
//! `places.rt` of the records that commands name, and `hashing.rt` the hashing.
#![tactic(auto)]

mod asking;
mod commands;
mod hashing;
mod places;
mod read_command;
mod window;

pub use read_command::{Asked, AskedKind, ReadCommand};
pub use window::CommandWindow;
