//! The lines of one epoch.
ghost use Rattle.std.specs.Prelude.{◌≡◌, ◌≤◌, ◌*◌, ◌++◌, length, OnOk, OnErr, Err};
ghost use Rattle.fv_outside.specs.Failures.{FailsByWriting};
ghost use Rattle.fv_outside.specs.Faults.{Rose};
ghost use Rattle.fv_outside.specs.Written.{GrowsByFront};
ghost use Rattle.report_text.specs.Page.{Passes};
ghost use Rattle.certified_epochs.specs.Telling.{head_by, tail_by};
ghost use Rattle.certified_epochs.specs.Pieces.{lines_of};

use crate::pieces::{Piece, fill_pieces, make_pieces};
use crate::telling::Telling;
use fv_outside::{Failed, Failure, Sink};
use record_hash::Digests;
use record_text::OperationRef;
use report_text::{Page, certificate_line, epoch_line};
use std::thread::Threads;

/// Writes what stands in front of the lines of an epoch's operations, of which there are so many.
pub(crate) fn write_head<D: Digests, O: Sink>(
    telling: &Telling<D>,
    epoch: u32,
    count: usize,
    page: &mut Page,
    out: &mut O,
) -> Result<(), Failure>
    ensures whole { OnOk result (Passes (O.held out.old) page.old (head_by telling.now epoch count) (O.held out.new) page.new) }
    ensures front { OnErr result (GrowsByFront (O.held out.old) (O.held out.new) (page.old ++ head_by telling.now epoch count)) }
    ensures failure { FailsByWriting result }
    ensures write_fault { result ≡ Err Failure.WriteFault → Rose (O.faults out.old) (O.faults out.new) }
    ensures never_falls { O.faults out.old ≤ O.faults out.new }
{
    match telling {
        Telling::Nothing => Ok(()),
        Telling::Plain => write_line(epoch_line(epoch, count as u64).as_slice(), page, out),
        Telling::Receipts { .. } => {
            write_line(epoch_line(epoch, count as u64).as_slice(), page, out)
        }
    }
}

/// Writes what stands behind the lines of an epoch's operations.
pub(crate) fn write_tail<D: Digests, O: Sink>(
    telling: &Telling<D>,
    epoch: u32,
    page: &mut Page,
    out: &mut O,
) -> Result<(), Failure>
    ensures whole { OnOk result (Passes (O.held out.old) page.old (tail_by D.functions telling.now epoch) (O.held out.new) page.new) }
    ensures front { OnErr result (GrowsByFront (O.held out.old) (O.held out.new) (page.old ++ tail_by D.functions telling.now epoch)) }
    ensures failure { FailsByWriting result }
    ensures write_fault { result ≡ Err Failure.WriteFault → Rose (O.faults out.old) (O.faults out.new) }
    ensures never_falls { O.faults out.old ≤ O.faults out.new }
{
    match telling {
        Telling::Nothing => Ok(()),
        Telling::Plain => Ok(()),
        Telling::Receipts { digests, first } => {
            write_line(
                certificate_line(*digests, *first, epoch).as_slice(),
                page,
                out,
            )
        }
    }
}

/// Writes the lines of the operations of a group. Pieces are made as they are needed.
pub(crate) fn write_group<R: Threads + Sync, D: Digests + Sync, O: Sink>(
    rt: &R,
    telling: &Telling<D>,
    group: &[OperationRef],
    pieces: &mut Vec<Piece>,
    page: &mut Page,
    out: &mut O,
) -> Result<(), Failure>
    requires short { length group.now ≤ 16384 }
    ensures whole { OnOk result (Passes (O.held out.old) page.old (lines_of D.functions telling.now group.now) (O.held out.new) page.new) }
    ensures front { OnErr result (GrowsByFront (O.held out.old) (O.held out.new) (page.old ++ lines_of D.functions telling.now group.now)) }
    ensures failure { FailsByWriting result }
    ensures write_fault { result ≡ Err Failure.WriteFault → Rose (O.faults out.old) (O.faults out.new) }
    ensures never_falls { O.faults out.old ≤ O.faults out.new }
{
    if let Telling::Nothing = telling {
        return Ok(());
    }
    make_pieces(pieces, group.len())?;
    write_pieces(rt, telling, group, pieces, page, out)
}

// Writes a line.
fn write_line<O: Sink>(line: &[u8], page: &mut Page, out: &mut O) -> Result<(), Failure>
    ensures whole { OnOk result (Passes (O.held out.old) page.old line.now (O.held out.new) page.new) }
    ensures front { OnErr result (GrowsByFront (O.held out.old) (O.held out.new) (page.old ++ line.now)) }
    ensures failure { FailsByWriting result }
    ensures write_fault { result ≡ Err Failure.WriteFault → Rose (O.faults out.old) (O.faults out.new) }
    ensures never_falls { O.faults out.old ≤ O.faults out.new }
{
    match page.write_text(line, out) {
        Ok(()) => Ok(()),
        Err(Failed) => Err(Failure::WriteFault),
    }
}

// Writes the lines of the operations of a group, a piece after the other.
fn write_pieces<R: Threads + Sync, D: Digests + Sync, O: Sink>(
    rt: &R,
    telling: &Telling<D>,
    group: &[OperationRef],
    pieces: &mut [Piece],
    page: &mut Page,
    out: &mut O,
) -> Result<(), Failure>
    requires room { length group.now ≤ length pieces.old * 1024 }
    ensures whole { OnOk result (Passes (O.held out.old) page.old (lines_of D.functions telling.now group.now) (O.held out.new) page.new) }
    ensures front { OnErr result (GrowsByFront (O.held out.old) (O.held out.new) (page.old ++ lines_of D.functions telling.now group.now)) }
    ensures failure { FailsByWriting result }
    ensures write_fault { result ≡ Err Failure.WriteFault → Rose (O.faults out.old) (O.faults out.new) }
    ensures never_falls { O.faults out.old ≤ O.faults out.new }
{
    fill_pieces(rt, telling, group, pieces);
    for piece in pieces.iter() {
        if !piece.is_whole {
            return Err(Failure::Memory);
        }
        write_line(piece.text.as_slice(), page, out)?;
    }
    Ok(())
}
