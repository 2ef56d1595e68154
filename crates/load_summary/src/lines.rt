//! The lines of a summary, each made whole before it is written.
ghost use Rattle.std.specs.Prelude.{◌≡◌, ◌+◌, ◌≤◌, ◌++◌, length};
ghost use Rattle.std.specs.Fmt.{decimal};
ghost use Rattle.arrayvec.specs.ArrayVec.{array_vec_len};
ghost use Rattle.load_summary.specs.Summary.{gen_line, epochs_line};
ghost use Rattle.load_summary.specs.Summary as words;

use crate::tally::Tally;
use arrayvec::ArrayVec;
use report_text::{LONGEST_LINE, Status, last_line};

/// The lines that name a load, and how many of its epochs are certified.
pub(crate) fn head_lines(seed: u64, ops: u32, epochs: u64) -> ArrayVec<u8, LONGEST_LINE>
    ensures text { result.items ≡ gen_line seed ops ++ epochs_line epochs }
{
    let mut lines = ArrayVec::new();
    push_number(&mut lines, b"gen seed ", seed);
    push_number(&mut lines, b" ops ", u64::from(ops));
    push_number(&mut lines, b"\nepochs ", epochs);
    push_text(&mut lines, b"\n");
    lines
}

/// The line of a worker.
pub(crate) fn worker_line(worker: u64, tally: &Tally) -> ArrayVec<u8, LONGEST_LINE>
    ensures text { result.items ≡ words.worker_line worker tally.now }
{
    let mut line = ArrayVec::new();
    push_number(&mut line, b"worker ", worker);
    push_number(&mut line, b" gets ", tally.gets);
    push_number(&mut line, b" none ", tally.none);
    push_number(&mut line, b" puts ", tally.puts);
    push_number(&mut line, b" dels ", tally.dels);
    push_text(&mut line, b"\n");
    line
}

/// The line that follows where a clock came to its end, and else nothing.
pub(crate) fn end_line(status: &Status) -> ArrayVec<u8, LONGEST_LINE>
    ensures text { result.items ≡ words.end_line status.now }
{
    match status {
        Status::ClockEnd { .. } => last_line(status),
        _ => ArrayVec::new(),
    }
}

// Adds words and a number in decimal.
fn push_number<const ROOM: usize>(line: &mut ArrayVec<u8, ROOM>, words: &[u8], number: u64)
    requires room { array_vec_len line.old + length words.now + 20 ≤ ROOM }
    ensures appended { line.new.items ≡ line.old.items ++ words.now ++ decimal number }
    ensures short { array_vec_len line.new ≤ array_vec_len line.old + length words.now + 20 }
{
    push_text(line, words);
    let mut buffer = itoa::Buffer::new();
    push_text(line, buffer.format(number).as_bytes());
}

// Adds a text.
fn push_text<const ROOM: usize>(line: &mut ArrayVec<u8, ROOM>, text: &[u8])
    requires room { array_vec_len line.old + length text.now ≤ ROOM }
    ensures appended { line.new.items ≡ line.old.items ++ text.now }
    ensures len { array_vec_len line.new ≡ array_vec_len line.old + length text.now }
{
    line.try_extend_from_slice(text).unwrap();
}
