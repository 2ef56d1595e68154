//! The log of one worker of a host, as bytes.
//!
//! A command that is logged becomes a text at once, and is let go. Contracts see the commands that the bytes spell, and the writer
//! that began the log. The crate stands on `slot_rewriting` for the texts of commands, in any version, and on `host_log` for bytes
//! that grow. Begin with `specs/Logged.antt`, then `WorkerLog` in `log.rt`.
#![tactic(auto)]

mod log;

pub use log::WorkerLog;
