//! An epoch that is certified: its operations, merged where they stand, go to a fold and onto a page in groups.
ghost use Rattle.std.specs.Prelude.{◌≡◌, ◌<◌, ◌≤◌, ◌++◌, map, length, IfOk, OnOk, OnErr, Err};
ghost use Rattle.std.specs.List.{fold};
ghost use Rattle.fv_outside.specs.Failures.{FailsByWriting};
ghost use Rattle.fv_outside.specs.Faults.{Rose};
ghost use Rattle.fv_outside.specs.Written.{GrowsByFront};
ghost use Rattle.report_text.specs.Page.{Passes};
ghost use Rattle.bundle_report.specs.RunReport.{operations_among};
ghost use Rattle.stamp_order.specs.Operations.{merged_up_to};
ghost use Rattle.verifier_run.specs.Taken.{taken_by};
ghost use Rattle.certified_epochs.specs.Telling.{text_by};
ghost use Rattle.certified_epochs.specs.Pieces.{lines_of};
ghost use Rattle.certified_epochs.specs.Turn.{StandInOrder};

use crate::fed_run::FedRun;
use crate::lines::{write_group, write_head, write_tail};
use crate::pieces::{GROUP, Piece};
use crate::telling::Telling;
use base_words::Memory;
use fv_outside::{Failure, Sink};
use operation_folds::OperationFold;
use operation_queue::Operations;
use record_hash::Digests;
use record_text::OperationRef;
use report_text::Page;
use stamp_order::Merger;
use std::alloc::Global;
use std::thread::Threads;

/// Adds the operations of all runs up to an epoch to a fold, in the one order, and writes the lines of the epoch.
pub(crate) fn tell_epoch<R: Threads + Sync, D: Digests + Sync, T: OperationFold, O: Sink>(
    rt: &R,
    telling: &Telling<D>,
    epoch: u32,
    runs: &[FedRun],
    folded: &mut T,
    pieces: &mut Vec<Piece>,
    page: &mut Page,
    out: &mut O,
) -> Result<(), Failure>
    requires in_order { StandInOrder runs.now }
    ensures whole { OnOk result (Passes (O.held out.old) page.old
        (text_by D.functions telling.now epoch (merged_up_to epoch (operations_among (map (λ fed. fed.run.course) runs.now)))) (O.held out.new) page.new) }
    ensures folded { OnOk result (T.state folded.new
        ≡ fold T.step (T.state folded.old) (merged_up_to epoch (operations_among (map (λ fed. fed.run.course) runs.now)))) }
    ensures front { OnErr result (GrowsByFront (O.held out.old) (O.held out.new) (page.old
        ++ text_by D.functions telling.now epoch (merged_up_to epoch (operations_among (map (λ fed. fed.run.course) runs.now))))) }
    ensures failure { FailsByWriting result }
    ensures write_fault { result ≡ Err Failure.WriteFault → Rose (O.faults out.old) (O.faults out.new) }
    ensures never_falls { O.faults out.old ≤ O.faults out.new }
{
    let mut operations = merged_operations(*pieces.allocator(), runs, epoch)?;
    tell_operations(
        rt,
        telling,
        epoch,
        &mut operations,
        folded,
        pieces,
        page,
        out,
    )
}

// Adds operations to a fold, and writes the lines of the epoch that has them.
fn tell_operations<R: Threads + Sync, D: Digests + Sync, T: OperationFold, O: Sink>(
    rt: &R,
    telling: &Telling<D>,
    epoch: u32,
    operations: &mut Merger,
    folded: &mut T,
    pieces: &mut Vec<Piece>,
    page: &mut Page,
    out: &mut O,
) -> Result<(), Failure>
    ensures whole { OnOk result (Passes (O.held out.old) page.old (text_by D.functions telling.now epoch operations.old) (O.held out.new) page.new) }
    ensures folded { OnOk result (T.state folded.new ≡ fold T.step (T.state folded.old) operations.old) }
    ensures front { OnErr result (GrowsByFront (O.held out.old) (O.held out.new) (page.old ++ text_by D.functions telling.now epoch operations.old)) }
    ensures failure { FailsByWriting result }
    ensures write_fault { result ≡ Err Failure.WriteFault → Rose (O.faults out.old) (O.faults out.new) }
    ensures never_falls { O.faults out.old ≤ O.faults out.new }
{
    write_head(telling, epoch, operations.len(), page, out)?;
    tell_groups(rt, telling, operations, folded, pieces, page, out)?;
    write_tail(telling, epoch, page, out)
}

// Adds operations to a fold and writes their lines, a group after the other: no more than a group of them is kept.
fn tell_groups<R: Threads + Sync, D: Digests + Sync, T: OperationFold, O: Sink>(
    rt: &R,
    telling: &Telling<D>,
    operations: &mut Merger,
    folded: &mut T,
    pieces: &mut Vec<Piece>,
    page: &mut Page,
    out: &mut O,
) -> Result<(), Failure>
    ensures whole { OnOk result (Passes (O.held out.old) page.old (lines_of D.functions telling.now operations.old) (O.held out.new) page.new) }
    ensures folded { OnOk result (T.state folded.new ≡ fold T.step (T.state folded.old) operations.old) }
    ensures front { OnErr result (GrowsByFront (O.held out.old) (O.held out.new) (page.old ++ lines_of D.functions telling.now operations.old)) }
    ensures failure { FailsByWriting result }
    ensures write_fault { result ≡ Err Failure.WriteFault → Rose (O.faults out.old) (O.faults out.new) }
    ensures never_falls { O.faults out.old ≤ O.faults out.new }
{
    let mut group = Vec::new(*pieces.allocator());
    group.reserve(operations.len().min(GROUP))?;
    'groups: while operations.len() > 0 {
        take_group(operations, &mut group)?;
        add_all(folded, &group)?;
        write_group(rt, telling, &group, pieces, page, out)?;
    }
    Ok(())
}

// Takes the next operations, as many as a group has, in place of those that it has.
fn take_group<'a>(
    operations: &mut Merger<'a>,
    group: &mut Vec<OperationRef<'a>>,
) -> Result<(), Memory>
    ensures taken { OnOk result (operations.old ≡ group.new.items ++ operations.new) }
    ensures short { OnOk result (length group.new.items ≤ 16384) }
    ensures some { 0 < length operations.old → OnOk result (0 < length group.new.items) }
{
    group.clear();
    for _ in 0..GROUP {
        match operations.next() {
            Some(operation) => group.push(operation)?,
            None => break,
        }
    }
    Ok(())
}

// The operations of all runs up to an epoch, in the one order. None is copied.
fn merged_operations<'a>(
    alloc: Global,
    runs: &'a [FedRun],
    epoch: u32,
) -> Result<Merger<'a>, Memory>
    requires in_order { StandInOrder runs.now }
    ensures merged { IfOk result (λ merger. merger ≡ merged_up_to epoch (operations_among (map (λ fed. fed.run.course) runs.now))) }
{
    let fronts = fronts_of(alloc, runs, epoch)?;
    Merger::new(alloc, fronts)
}

// The operations of each run up to an epoch.
fn fronts_of<'a>(
    alloc: Global,
    runs: &'a [FedRun],
    epoch: u32,
) -> Result<Vec<Operations<'a>>, Memory>
    ensures fronts { IfOk result (λ v. v.items ≡ map (λ fed. taken_by epoch fed.run.course) runs.now) }
{
    let mut fronts = Vec::new(alloc);
    for fed in runs {
        fronts.push(fed.run.ops_up_to(epoch))?;
    }
    Ok(fronts)
}

// Adds operations to a fold, one after another.
fn add_all<T: OperationFold>(folded: &mut T, operations: &[OperationRef]) -> Result<(), Memory>
    ensures folded { OnOk result (T.state folded.new ≡ fold T.step (T.state folded.old) operations.now) }
{
    for operation in operations {
        folded.add(operation)?;
    }
    Ok(())
}
