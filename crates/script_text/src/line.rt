//! Reads a line of a script.
ghost use Rattle.std.specs.Prelude.{◌≡◌};
ghost use Rattle.script_text.specs.Script.{longest_line, task_in, line_says};

use crate::asked::{AskedWords, read_asked, read_request};
use crate::splitting::split_word;
use crate::task::{Line, Task};
use crate::words;
use lamport_clocks::Header;
use record_text::{Cause, longest_of, wide_of};

/// What a line says in a script for this header, or the first cause for which it is refused.
#[tactic(auto, unfolding(crate::specs::Script::line_says, crate::specs::Script::words_say))]
pub(crate) fn read_line(line: &[u8], header: &Header) -> Result<Line, Cause>
    ensures value { result ≡ line_says header.now line.now }
{
    if line.len() > longest_line(header) {
        return Err(Cause::Shape);
    }
    let (worker, behind) = split_word(line);
    let Some(behind) = behind else {
        return if worker == b"epoch".as_slice() {
            Ok(Line::Epoch)
        } else {
            Err(Cause::Shape)
        };
    };
    match read_asked(behind, longest_of(header)) {
        Some(asked) => read_task(header, worker, &asked),
        None => Err(Cause::Shape),
    }
}

// The most bytes of a line, without its end.
fn longest_line(header: &Header) -> usize
    ensures value { result ≡ longest_line header.now }
{
    if header.version < 3 { 256 } else { 640 }
}

// The task of a worker, by its word and what is asked.
#[tactic(auto, unfolding(crate::specs::Script::task_in))]
fn read_task(header: &Header, worker: &[u8], asked: &AskedWords) -> Result<Line, Cause>
    ensures value { result ≡ task_in header.now worker.now asked.now }
{
    let Some(worker) = words::worker(worker, header.verifiers) else {
        return Err(Cause::Worker);
    };
    let request = match read_request(asked, wide_of(header)) {
        Ok(request) => request,
        Err(cause) => return Err(cause),
    };
    Ok(Line::Task(Task { worker, request }))
}
