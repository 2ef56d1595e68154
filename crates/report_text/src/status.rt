//! How a run of the program ends, with its number and its words.
ghost use Rattle.std.specs.Prelude.{◌≡◌, ◌+◌, ◌≤◌, ◌++◌, length};
ghost use Rattle.std.specs.Fmt.{decimal};
ghost use Rattle.arrayvec.specs.ArrayVec.{array_vec_len};
ghost use Rattle.report_text.specs.Status.{bad_script_words, clock_end_words, refused_words, unbalanced_words, count_words, stale_words};

use crate::digits::{push_decimal, push_text};
use crate::lines::{LONGEST_LINE, push_stamp};
use arrayvec::ArrayVec;
use fv_outside::Failure;
use lamport_clocks::Stamp;
use multiset_sum::Sum;
use record_text::{Cause, Refusal};

/// How a run of the program ends.
#[derive(Clone, Copy, Debug, PartialEq, Eq)]
pub enum Status {
    /// The whole job is done, with so many certified epochs.
    Done {
        epochs: u64,
    },
    /// The words are refused.
    Usage,
    /// Want of memory.
    Memory,
    /// The source failed.
    ReadFault,
    /// The sink failed.
    WriteFault,
    /// The vault failed.
    VaultFault,
    /// This line of the script, counted from 1, is the first outside the grammar; nothing was run.
    BadScript {
        line: u64,
        cause: Cause,
    },
    /// The bytes at this offset are no whole valid header or frame.
    BadBundle {
        offset: u64,
    },
    /// A verifier's log is refused at this command, counted from 0.
    Refused {
        verifier: u16,
        index: u64,
        refusal: Refusal,
    },
    /// The sums of an epoch that every verifier sealed differ: those of what was added and evicted.
    Unbalanced {
        epoch: u32,
        added: Sum,
        evicted: Sum,
    },
    /// A worker's clock came to its end, where it stood.
    ClockEnd {
        worker: u16,
        at: Stamp,
    },
    /// A tag isn't that of its text.
    NotTagged,
    /// The epoch isn't among those that are certified.
    NotCertified,
    /// The answers are not serial, and the exhibit shows why.
    Exhibit,
    /// The source gave more than this many bytes.
    InputLimit {
        taken: u64,
    },
    /// The bytes begin with no whole seal.
    BadSeal,
    /// The seal has this number, and the counter that number: it is an older one.
    Stale {
        sealed: u64,
        device: u64,
    },
    /// The counter failed, or it stands at its last number.
    CounterFault,
}

impl Status {
    ghost use Rattle.report_text.specs.Ending.{failure_status};
    ghost use Rattle.report_text.specs.Status.{status_number, status_words};

    /// The status of a call that fails so, where its source may give so many bytes.
    pub fn of_failure(failure: Failure, limit: u64) -> Self
        ensures value { result ≡ failure_status limit failure }
    {
        match failure {
            Failure::Memory => Status::Memory,
            Failure::ReadFault => Status::ReadFault,
            Failure::InputLimit => Status::InputLimit { taken: limit },
            Failure::VaultFault => Status::VaultFault,
            Failure::WriteFault => Status::WriteFault,
        }
    }

    /// The text of the status, without an end of line. `Done` says how many epochs are certified.
    pub fn line(&self) -> ArrayVec<u8, LONGEST_LINE>
        ensures text { result.items ≡ status_words self.now }
        ensures short { array_vec_len result ≤ 200 }
    {
        let mut text = ArrayVec::new();
        match self {
            Status::Done { epochs } => push_number(&mut text, b"done ", *epochs),
            Status::Usage => push_text(&mut text, b"usage"),
            Status::Memory => push_text(&mut text, b"memory"),
            Status::ReadFault => push_text(&mut text, b"read fault"),
            Status::WriteFault => push_text(&mut text, b"write fault"),
            Status::VaultFault => push_text(&mut text, b"vault fault"),
            Status::BadScript { line, cause } => push_bad_script(&mut text, *line, *cause),
            Status::BadBundle { offset } => push_number(&mut text, b"bad bundle at byte ", *offset),
            Status::Refused {
                verifier,
                index,
                refusal,
            } => {
                push_refused(&mut text, *verifier, *index, *refusal);
            }
            Status::Unbalanced {
                epoch,
                added,
                evicted,
            } => {
                push_unbalanced(&mut text, *epoch, added.count(), evicted.count());
            }
            Status::ClockEnd { worker, at } => push_clock_end(&mut text, *worker, at),
            Status::NotTagged => push_text(&mut text, b"not tagged"),
            Status::NotCertified => push_text(&mut text, b"not certified"),
            Status::Exhibit => push_text(&mut text, b"exhibit"),
            Status::InputLimit { .. } => push_text(&mut text, b"input limit"),
            Status::BadSeal => push_text(&mut text, b"bad seal"),
            Status::Stale { sealed, device } => push_stale(&mut text, *sealed, *device),
            Status::CounterFault => push_text(&mut text, b"counter fault"),
        }
        text
    }

    /// The exit status of the program.
    pub fn number(&self) -> u8
        ensures value { result ≡ status_number self.now }
    {
        match self {
            Status::Done { .. } => 0,
            Status::Usage => 1,
            Status::Memory => 2,
            Status::ReadFault => 3,
            Status::WriteFault => 4,
            Status::VaultFault => 5,
            Status::BadScript { .. } => 6,
            Status::BadBundle { .. } => 7,
            Status::Refused { .. } => 8,
            Status::Unbalanced { .. } => 9,
            Status::ClockEnd { .. } => 10,
            Status::NotTagged => 11,
            Status::NotCertified => 12,
            Status::Exhibit => 13,
            Status::InputLimit { .. } => 14,
            Status::BadSeal => 15,
            Status::Stale { .. } => 16,
            Status::CounterFault => 17,
        }
    }
}

// Adds words and a number.
fn push_number<const ROOM: usize>(line: &mut ArrayVec<u8, ROOM>, words: &[u8], number: u64)
    requires room { array_vec_len line.old + length words.now + 20 ≤ ROOM }
    ensures appended { line.new.items ≡ line.old.items ++ words.now ++ decimal number }
    ensures short { array_vec_len line.new ≤ array_vec_len line.old + length words.now + 20 }
{
    push_text(line, words);
    push_decimal(line, number);
}

// Adds which line of a script is refused, and why.
fn push_bad_script<const ROOM: usize>(line: &mut ArrayVec<u8, ROOM>, number: u64, cause: Cause)
    requires room { array_vec_len line.old + 50 ≤ ROOM }
    ensures appended { line.new.items ≡ line.old.items ++ bad_script_words number cause }
    ensures short { array_vec_len line.new ≤ array_vec_len line.old + 50 }
{
    push_text(line, b"bad script line ");
    push_decimal(line, number);
    push_text(line, b" ");
    push_text(line, cause.name().as_bytes());
}

// Adds whose clock ended, and where.
fn push_clock_end<const ROOM: usize>(line: &mut ArrayVec<u8, ROOM>, worker: u16, at: &Stamp)
    requires room { array_vec_len line.old + 90 ≤ ROOM }
    ensures appended { line.new.items ≡ line.old.items ++ clock_end_words worker at.now }
    ensures short { array_vec_len line.new ≤ array_vec_len line.old + 90 }
{
    push_text(line, b"clock end worker ");
    push_decimal(line, u64::from(worker));
    push_text(line, b" at ");
    push_stamp(line, at);
}

// Adds which number a seal has, and which the counter.
fn push_stale<const ROOM: usize>(line: &mut ArrayVec<u8, ROOM>, sealed: u64, device: u64)
    requires room { array_vec_len line.old + 70 ≤ ROOM }
    ensures appended { line.new.items ≡ line.old.items ++ stale_words sealed device }
    ensures short { array_vec_len line.new ≤ array_vec_len line.old + 70 }
{
    push_number(line, b"stale sealed ", sealed);
    push_number(line, b" device ", device);
}

// Adds which command of which log is refused, and why.
fn push_refused<const ROOM: usize>(
    line: &mut ArrayVec<u8, ROOM>,
    verifier: u16,
    index: u64,
    refusal: Refusal,
)
    requires room { array_vec_len line.old + 80 ≤ ROOM }
    ensures appended { line.new.items ≡ line.old.items ++ refused_words verifier index refusal }
    ensures short { array_vec_len line.new ≤ array_vec_len line.old + 80 }
{
    push_text(line, b"refused v");
    push_decimal(line, u64::from(verifier));
    push_text(line, b" command ");
    push_decimal(line, index);
    push_text(line, b" ");
    push_text(line, refusal.name().as_bytes());
}

// Adds which epoch is unbalanced, and how many elements were added and evicted.
fn push_unbalanced<const ROOM: usize>(
    line: &mut ArrayVec<u8, ROOM>,
    epoch: u32,
    added: u64,
    evicted: u64,
)
    requires room { array_vec_len line.old + 100 ≤ ROOM }
    ensures appended { line.new.items ≡ line.old.items ++ unbalanced_words epoch added evicted }
    ensures short { array_vec_len line.new ≤ array_vec_len line.old + 100 }
{
    push_text(line, b"epoch ");
    push_decimal(line, u64::from(epoch));
    push_counts(line, added, evicted);
}

// Adds how many elements were added and evicted.
fn push_counts<const ROOM: usize>(line: &mut ArrayVec<u8, ROOM>, added: u64, evicted: u64)
    requires room { array_vec_len line.old + 70 ≤ ROOM }
    ensures appended { line.new.items ≡ line.old.items ++ count_words added evicted }
    ensures short { array_vec_len line.new ≤ array_vec_len line.old + 70 }
{
    push_text(line, b" unbalanced added ");
    push_decimal(line, added);
    push_text(line, b" evicted ");
    push_decimal(line, evicted);
}
