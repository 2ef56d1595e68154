//! A log of commands by slots, from the making of its writer on.
ghost use Rattle.lamport_clocks.specs.Header.{IsHeader};

use crate::outcome::{Fault, Outcome};
use crate::seat::END;
use bundle_rows::{command_of, log_of};
use host_log::LogBuffer;
use lamport_clocks::Header;
use log_codec::CommandText;
use slot_rewriting::CommandWriter;
use std::alloc::Global;

// Commands of verifier 0, and the same by slots.
const BY_PATH: &str = "
addM /0 initial root
addM 0 none /0
put 0 61
evictM 0 /0
evictBM /0 root 0.1
";

const BY_SLOTS: &str = "
addM s1 /0 initial s0
addM s2 0 none s1
put s2 61
evictM s2 s1
evictBM s1 s0 0.1
";

// The numbers of a bundle whose commands name slots.
fn header() -> Header
    ensures good { IsHeader result }
{
    Header {
        version: 2,
        verifiers: 1,
        cache: 128,
        first: 0,
        end: END,
        bits: 64,
    }
}

/// A writer by slots is made, and writes a log.
pub fn write(alloc: Global) -> Result<Outcome, Fault> {
    let wanted = log_of(alloc, BY_SLOTS.trim())?;
    let mut log = LogBuffer::new(alloc);
    match write_all(alloc, &mut log) {
        Ok(()) => look(&log, &wanted, Outcome::Made),
        Err(Fault::Memory) => write_again(alloc, &mut log, &wanted),
        Err(fault) => Err(fault),
    }
}

// The same log, for which memory was wanting, where it has the commands before that and nothing of another.
fn write_again(alloc: Global, log: &mut LogBuffer, wanted: &[u8]) -> Result<Outcome, Fault> {
    if !wanted.starts_with(log.bytes()) {
        return Err(Fault::Amiss("another log than before"));
    }
    log.clear();
    match write_all(alloc, log) {
        Ok(()) => look(log, wanted, Outcome::MadeAgain),
        Err(_) => Err(Fault::Amiss("no log when asked again")),
    }
}

// Writes the commands with a new writer.
fn write_all(alloc: Global, log: &mut LogBuffer) -> Result<(), Fault> {
    let mut writer = CommandWriter::new(alloc, 0, &header())?;
    let mut text = CommandText::new();
    for row in BY_PATH.trim().lines() {
        let Some(command) = command_of(row) else {
            return Err(Fault::Amiss("a row of no command"));
        };
        writer.write(&command, &mut text);
        log.push(text.as_slice())?;
    }
    Ok(())
}

// How it was written, where the log is this one.
fn look(log: &LogBuffer, wanted: &[u8], outcome: Outcome) -> Result<Outcome, Fault> {
    if log.bytes() == wanted {
        Ok(outcome)
    } else {
        Err(Fault::Amiss("another log"))
    }
}
