//! A counter over a file of the machine.
ghost use Rattle.std.specs.Prelude.{◌≡◌, ◌≤◌, None, IfOk, IfSome};
ghost use Rattle.fv_outside.specs.Faults.{Counts, faults_after};

use crate::counters::Counter;
use crate::errors::Failed;
use base_words::Memory;
use std::alloc::Global;
use std::fs::{File, OpenFile};
use std::io;
use std::io::{ErrorKind, Read, Write};
use std::marker::Model;
use std::rt::Files;

// One byte more than the longest text has: 20 digits and a line end.
const ROOM: usize = 22;

/// A counter over a file that has the number in decimal digits and a line end. A file that is
/// missing has the number 0. A raise writes a file beside it, whose path has `.new` behind, syncs
/// that and renames it over the first. It does not tell its number.
///
/// Each error counts as a fault, and so does a file with another text, and a raise at 2^64 - 1.
/// Opening a file takes memory for a moment: want of it is a fault too. Nobody else may raise the
/// counter at the same time.
#[derive(Drop)]
pub struct FileCounter<R: Files> {
    files: R,
    path: String,
    beside: String,
    faults: u64,
}

/// It is seen as its count of faults.
impl<R: Files> Model for FileCounter<R> {
    ghost use Rattle.std.specs.Prelude.{ℕ};

    ghost Value = { ℕ };

    ghost view = { λ c. c.faults };
}

impl<R: Files> FileCounter<R> {
    /// A counter over the file at this path of `files`. Nothing is read yet.
    pub fn new(alloc: Global, files: R, path: &str) -> Result<FileCounter<R>, Memory>
    where
        R: Drop,
        ensures faults { IfOk result (λ counter. counter ≡ 0) }
    {
        let mut beside = String::from_str(alloc, path)?;
        beside.push_str(".new")?;
        Ok(FileCounter {
            files,
            path: String::from_str(alloc, path)?,
            beside,
            faults: 0,
        })
    }

    /// How many calls failed.
    pub fn faults(&self) -> u64
        ensures value { result ≡ self.now }
    {
        self.faults
    }

    // The number that the file has, unless it can't be read or has none.
    fn number_kept(&self) -> Option<u64> {
        let mut file = match File::open(&self.files, self.path.as_str()) {
            Ok(file) => file,
            Err(error) if error.kind() == ErrorKind::NotFound => return Some(0),
            Err(_) => return None,
        };
        let mut room = [0; ROOM];
        let count = read_front(&mut file, &mut room)?;
        number_of(&room[..count])
    }

    // Gives the file this number.
    fn keep(&self, number: u64) -> io::Result<()> {
        let mut file = File::create(&self.files, self.beside.as_str())?;
        writeln!(file, "{number}")?;
        file.sync_all()?;
        self.files.rename(self.beside.as_str(), self.path.as_str())
    }

    // Gives the file the next number, if there is one.
    fn keep_next(&self) -> Option<u64> {
        let next = self.number_kept()?.checked_add(1)?;
        match self.keep(next) {
            Ok(()) => Some(next),
            Err(_) => None,
        }
    }

    // Answers a number. That there is none is a fault.
    fn answer(&mut self, number: Option<u64>) -> Result<u64, Failed>
        ensures after { self.new ≡ faults_after self.old result }
        ensures counts { Counts self.old self.new result }
    {
        match number {
            Some(number) => Ok(number),
            None => {
                self.faults = self.faults.saturating_add(1);
                Err(Failed)
            }
        }
    }
}

// Reads the first bytes, until the room is full or there are no more, and says how many came.
fn read_front<S: Read>(reader: &mut S, room: &mut [u8; ROOM]) -> Option<usize>
    ensures within { IfSome result (λ count. count ≤ 22) }
{
    let mut done = 0;
    while done < ROOM {
        match reader.read(&mut room[done..]) {
            Ok(0) => break,
            Ok(count) => done += count,
            Err(_) => return None,
        }
    }
    Some(done)
}

// The number that the first bytes of a file spell: digits without a leading zero, and a line end. None where they are
// others, where the number has more than 64 bits, and where there may be more bytes than these.
fn number_of(text: &[u8]) -> Option<u64> {
    let digits = text.strip_suffix(b"\n")?;
    let has_more = text.len() == ROOM;
    let has_other_bytes = !digits.iter().all(|digit| digit.is_ascii_digit());
    let has_leading_zero = digits.len() > 1 && digits[0] == b'0';
    if has_more || has_other_bytes || has_leading_zero {
        return None;
    }
    match str::from_utf8(digits) {
        Ok(word) => word.parse().ok(),
        Err(_) => None,
    }
}

impl<R: Files> Counter for FileCounter<R> {
    ghost number = { λ _. None };

    ghost faults = { λ c. c };

    fn read(&mut self) -> Result<u64, Failed>
        ensures counts { Counts self.old self.new result }

        ensures after { self.new ≡ faults_after self.old result }
    {
        self.answer(self.number_kept())
    }

    fn raise(&mut self) -> Result<u64, Failed>
        ensures counts { Counts self.old self.new result }

        ensures after { self.new ≡ faults_after self.old result }
    {
        self.answer(self.keep_next())
    }
}
