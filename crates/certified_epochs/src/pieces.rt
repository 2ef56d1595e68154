//! The lines of operations, made in pieces side by side.
ghost use Rattle.std.specs.Prelude.{◌≡◌, ◌<◌, ◌≤◌, ◌*◌, ◌++◌, ℕ, min, true, length, vec_len, slice_index_or, OnOk};
ghost use Rattle.std.specs.List.{flat_map};
ghost use Rattle.certified_epochs.specs.Telling.{line_by};
ghost use Rattle.certified_epochs.specs.Pieces.{part_at, lines_of, HasLines};

use crate::telling::Telling;
use base_words::Memory;
use record_hash::Digests;
use record_text::OperationRef;
use report_text::{operation_line, receipt_line};
use std::alloc::Global;
use std::thread::{Threads, for_each_mut};

/// A piece has the lines of so many operations, the last one of fewer.
pub(crate) const PIECE: usize = 1024;

/// The most pieces that are made before they are written.
pub(crate) const PIECES: usize = 16;

/// So many operations have their lines in that many pieces.
pub(crate) const GROUP: usize = 16_384;

// In so many threads pieces are made.
const THREADS: usize = 4;

/// The lines of some operations, and whether memory was not wanting for them: a thread can give no answer.
#[derive(Drop)]
pub(crate) struct Piece {
    pub(crate) text: Vec<u8>,
    pub(crate) is_whole: bool,
}

impl Piece {
    // A piece of no lines.
    fn new(alloc: Global) -> Self {
        Piece {
            text: Vec::new(alloc),
            is_whole: true,
        }
    }

    // Has the lines of these operations, in place of those that it has.
    fn fill<D: Digests>(&mut self, telling: &Telling<D>, operations: &[OperationRef])
        ensures lines { self.new.is_whole ≡ true → self.new.text.items ≡ lines_of D.functions telling.now operations.now }
    {
        self.text.clear();
        self.is_whole = push_lines(telling, operations, &mut self.text).is_ok();
    }
}

/// Makes so many pieces that a group of so many operations has its lines in them.
pub(crate) fn make_pieces(pieces: &mut Vec<Piece>, operations: usize) -> Result<(), Memory>
    ensures room { OnOk result (min 16384 operations ≤ vec_len pieces.new * 1024) }
{
    let alloc = *pieces.allocator();
    let wanted = (operations / PIECE + 1).min(PIECES);
    while pieces.len() < wanted {
        pieces.push(Piece::new(alloc))?;
    }
    Ok(())
}

/// Has each piece have the lines of the operations at its place, side by side where there is more than one piece of them.
pub(crate) fn fill_pieces<R: Threads + Sync, D: Digests + Sync>(
    rt: &R,
    telling: &Telling<D>,
    group: &[OperationRef],
    pieces: &mut [Piece],
)
    ensures lines { (number : ℕ) (default : Piece) → number < length pieces.new
        → HasLines D.functions telling.now group.now number (slice_index_or pieces.new number default) }
    ensures len { length pieces.new ≡ length pieces.old }
{
    let threads = if group.len() <= PIECE { 1 } else { THREADS };
    for_each_mut(
        rt,
        pieces,
        threads,
        &|number: usize, piece: &mut Piece|
            ensures { HasLines D.functions telling.entry.now group.entry.now number piece.exit.now }
        { piece.fill(telling, part(group, PIECE, number)) },
    );
}

/// So many operations, behind so many parts of as many.
pub(crate) fn part<'a, 'b>(
    operations: &'b [OperationRef<'a>],
    size: usize,
    number: usize,
) -> &'b [OperationRef<'a>]
    ensures value { result.now ≡ part_at size number operations.now }
{
    let from = number.saturating_mul(size).min(operations.len());
    let to = from.saturating_add(size).min(operations.len());
    &operations[from..to]
}

// Appends the lines of operations.
fn push_lines<D: Digests>(
    telling: &Telling<D>,
    operations: &[OperationRef],
    text: &mut Vec<u8>,
) -> Result<(), Memory>
    ensures lines { OnOk result (text.new.items ≡ text.old.items ++ lines_of D.functions telling.now operations.now) }
{
    for operation in operations {
        push_line(telling, operation, text)?;
    }
    Ok(())
}

// Appends the line of an operation, and with receipts its receipt's.
fn push_line<D: Digests>(
    telling: &Telling<D>,
    operation: &OperationRef,
    text: &mut Vec<u8>,
) -> Result<(), Memory>
    ensures line { OnOk result (text.new.items ≡ text.old.items ++ line_by D.functions telling.now operation.now) }
{
    match telling {
        Telling::Nothing => Ok(()),
        Telling::Plain => push(operation_line(operation).as_slice(), text),
        Telling::Receipts { digests, first: _ } => {
            push(operation_line(operation).as_slice(), text)?;
            push(receipt_line(*digests, operation).as_slice(), text)
        }
    }
}

// Appends a line.
fn push(line: &[u8], text: &mut Vec<u8>) -> Result<(), Memory>
    ensures line { OnOk result (text.new.items ≡ text.old.items ++ line.now) }
{
    text.extend_from_slice(line)?;
    Ok(())
}
