//! Rows read into a bundle, or into one log.
ghost use Rattle.std.specs.Prelude.{◌≤◌, IfSome};
ghost use Rattle.bundle_rows.specs.declared.bundles.TheConstants.{LONGEST_BODY};

use crate::commands::command_of;
use crate::fault::RowFault;
use crate::slot_commands::slot_command_of;
use bundle_frames::{write_frame, write_header};
use fv_outside::{MemorySink, write_all};
use hex::FromHexError;
use lamport_clocks::Header;
use log_codec::{write_path_command, write_slot_command};
use std::alloc::Global;

// The most bytes of all frames.
const MOST_BYTES: usize = 1 << 20;

// The most bytes of a header.
const HEADER_BYTES: usize = 19;

// The most bytes of a frame's body.
const LONGEST_BODY: usize = 65_536;

// The header where rows name none of its numbers.
fn plain_header() -> Header {
    Header::by_path(1, 4, 0, 16_777_215)
}

/// The bytes of the bundle that these rows spell: a header, and frames of at most 2^20 bytes together.
pub fn bundle_of(alloc: Global, rows: &str) -> Result<Vec<u8>, RowFault<'_>> {
    let mut draft = Draft::new(alloc)?;
    for row in rows.lines() {
        draft.take_row(alloc, row)?;
    }
    draft.end_frame()?;
    draft.bytes(alloc)
}

/// The bytes of the log that these rows spell: commands, and `bytes`.
pub fn log_of(alloc: Global, rows: &str) -> Result<Vec<u8>, RowFault<'_>> {
    let mut log = Vec::new(alloc);
    for row in rows.lines() {
        push_log_row(alloc, &mut log, row)?;
    }
    Ok(log)
}

// A bundle of which some rows are read.
#[derive(Drop)]
struct Draft {
    header: Header,
    // The frames so far.
    frames: MemorySink,
    // What came since the last frame, of this verifier's log.
    body: Vec<u8>,
    verifier: u16,
    // How many bytes a frame has at most.
    longest: usize,
    ghost fits: { (1 ≤ longest) × (longest ≤ LONGEST_BODY) },
}

impl Draft {
    fn new(alloc: Global) -> Result<Draft, RowFault<'static>> {
        Ok(Draft {
            header: plain_header(),
            frames: MemorySink::new(alloc, MOST_BYTES, MOST_BYTES, &[])?,
            body: Vec::new(alloc),
            verifier: 0,
            longest: LONGEST_BODY,
        })
    }

    // Takes one row.
    fn take_row<'a>(&mut self, alloc: Global, row: &'a str) -> Result<(), RowFault<'a>> {
        let (form, rest) = row.split_once(' ').unwrap_or((row, ""));
        match form {
            "version" | "verifiers" | "cache" | "first" | "end" | "bits" => {
                self.header = header_of(self.header, row).ok_or(RowFault::BadRow(row))?;
                Ok(())
            }
            "log" => {
                self.end_frame()?;
                self.verifier = rest.parse().map_err(|_| RowFault::BadRow(row))?;
                Ok(())
            }
            "frames" => {
                self.end_frame()?;
                self.longest = body_length_of(rest).ok_or(RowFault::BadRow(row))?;
                Ok(())
            }
            "raw" => {
                self.end_frame()?;
                let bytes = bytes_of(alloc, row, rest)?;
                write_all(&mut self.frames, &bytes)?;
                Ok(())
            }
            _ => push_log_row(alloc, &mut self.body, row),
        }
    }

    // Writes what came since the last frame, cut in frames.
    fn end_frame(&mut self) -> Result<(), RowFault<'static>> {
        let mut at = 0;
        while at < self.body.len() {
            let end = at + self.longest.min(self.body.len() - at);
            write_frame(self.verifier, &self.body[at..end], &mut self.frames)?;
            at = end;
        }
        self.body.clear();
        Ok(())
    }

    // The bytes so far, behind their header.
    fn bytes(&self, alloc: Global) -> Result<Vec<u8>, RowFault<'static>> {
        let most = HEADER_BYTES + MOST_BYTES;
        let mut sink = MemorySink::new(alloc, most, most, &[])?;
        write_header(&self.header, &mut sink)?;
        write_all(&mut sink, self.frames.bytes())?;
        Ok(Vec::from_slice(alloc, sink.bytes())?)
    }
}

// Appends the bytes of a log's row.
fn push_log_row<'a>(alloc: Global, log: &mut Vec<u8>, row: &'a str) -> Result<(), RowFault<'a>> {
    match row.split_once(' ') {
        Some(("bytes", digits)) => {
            let bytes = bytes_of(alloc, row, digits)?;
            log.extend_from_slice(&bytes)?;
        }
        _ if row.is_empty() => {}
        _ => {
            if let Some(command) = slot_command_of(row) {
                log.extend_from_slice(write_slot_command(&command).as_slice())?;
                return Ok(());
            }
            let command = command_of(row).ok_or(RowFault::BadRow(row))?;
            log.extend_from_slice(write_path_command(&command).as_slice())?;
        }
    }
    Ok(())
}

// A header with the numbers that a row names.
fn header_of(header: Header, row: &str) -> Option<Header> {
    let mut header = header;
    let mut words = row.split_whitespace();
    for _ in 0..6 {
        let Some(name) = words.next() else {
            return Some(header);
        };
        let number = words.next()?;
        match name {
            "version" => header.version = number.parse().ok()?,
            "verifiers" => header.verifiers = number.parse().ok()?,
            "cache" => header.cache = number.parse().ok()?,
            "first" => header.first = number.parse().ok()?,
            "end" => header.end = number.parse().ok()?,
            "bits" => header.bits = number.parse().ok()?,
            _ => return None,
        }
    }
    match words.next() {
        None => Some(header),
        Some(_) => None,
    }
}

// How many bytes a frame's body has at most.
fn body_length_of(word: &str) -> Option<usize>
    ensures fits { IfSome result (λ n. (1 ≤ n) × (n ≤ LONGEST_BODY)) }
{
    let length: usize = word.parse().ok()?;
    if length == 0 || length > LONGEST_BODY {
        return None;
    }
    Some(length)
}

// The bytes of a row's digits.
fn bytes_of<'a>(alloc: Global, row: &'a str, digits: &str) -> Result<Vec<u8>, RowFault<'a>> {
    match hex::decode(alloc, digits) {
        Ok(bytes) => Ok(bytes),
        Err(FromHexError::OutOfMemory) => Err(RowFault::Memory),
        Err(_) => Err(RowFault::BadRow(row)),
    }
}
