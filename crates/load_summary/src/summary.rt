//! Tallies as they grow, and their text.
ghost use Rattle.std.specs.Prelude.{◌≡◌, ◌↔◌, ◌+◌, ◌≤◌, ◌<◌, ◌^◌, [], ◌++◌, IfOk, OnOk, OnErr, IsErr};
ghost use Rattle.fv_outside.specs.Faults.{Counts};
ghost use Rattle.fv_outside.specs.Written.{Grows, GrowsByFront};
ghost use Rattle.report_text.specs.Page.{Passes};
ghost use Rattle.load_summary.specs.Counting.{counted_of, with_operation};
ghost use Rattle.load_summary.specs.Summary.{summary_with_end, worker_lines};

use crate::lines::{end_line, head_lines, worker_line};
use crate::tally::Tally;
use base_words::Memory;
use fv_outside::{Failed, Sink};
use operation_folds::OperationFold;
use record_text::OperationRef;
use report_text::{Page, Status};
use std::alloc::Global;
use std::marker::Model;

/// How often each worker got, put and deleted among the operations that were counted. Contracts see the tallies, and how
/// many operations were counted.
#[derive(Drop)]
pub struct Summary {
    operations: u64,
    tallies: Vec<Tally>,
}

impl Model for Summary {
    ghost use Rattle.std.specs.List.{All};
    ghost use Rattle.load_summary.specs.Counting.{Counted, IsWithin};

    ghost Value = { Counted };

    ghost view = { λ s. record { operations = s.operations; tallies = s.tallies.items } };

    ghost invariant = { λ s. All (IsWithin s.operations) s.tallies.items };
}

impl Summary {
    /// Of so many workers, with nothing counted. It takes all its memory now.
    pub fn new(alloc: Global, workers: u16) -> Result<Summary, Memory>
        ensures none { IfOk result (λ summary. summary ≡ counted_of workers []) }
    {
        let mut tallies = Vec::new(alloc);
        tallies.resize(usize::from(workers), Tally::zero())?;
        Ok(Summary {
            operations: 0,
            tallies,
        })
    }

    // Counts one operation.
    fn count_one(&mut self, operation: &OperationRef)
        requires room { self.old.operations + 1 < 2 ^ 64 }
        ensures counted { self.new ≡ with_operation self.old operation.now }
    {
        if let Some(tally) = self.tallies.get_mut(usize::from(operation.verifier())) {
            tally.count(operation);
        }
        self.operations += 1;
    }

    /// Writes the summary of a load that was made of a seed, with so many operations asked for and so many epochs certified,
    /// which ended so. On `Failed` the sink holds a front of it.
    pub fn write<O: Sink>(
        &self,
        seed: u64,
        ops: u32,
        epochs: u64,
        end: &Status,
        out: &mut O,
    ) -> Result<(), Failed>
        ensures whole { OnOk result (Grows (O.held out.old) (O.held out.new) (summary_with_end seed ops epochs self.now.tallies end.now)) }
        ensures front { OnErr result (GrowsByFront (O.held out.old) (O.held out.new) (summary_with_end seed ops epochs self.now.tallies end.now)) }
        ensures name { O.name out.new ≡ O.name out.old }
        ensures counts { Counts (O.faults out.old) (O.faults out.new) result }
    {
        let mut page = Page::new();
        page.write(head_lines(seed, ops, epochs).as_slice(), out)?;
        write_workers(&self.tallies, &mut page, out)?;
        page.write(end_line(end).as_slice(), out)?;
        page.flush(out)
    }
}

// One operation after another is counted; one of a worker that is none of these is in no tally. Where there are more in all
// than 64 bits count it is want of memory, and that one isn't counted.
impl OperationFold for Summary {
    ghost use Rattle.load_summary.specs.Counting.{Counted};

    ghost State = { Counted };

    ghost state = { λ summary. summary };

    ghost step = { with_operation };

    fn add(&mut self, operation: &OperationRef) -> Result<(), Memory>
        ensures added { OnOk result (self.new ≡ with_operation self.old operation.now) }
        ensures full { IsErr result ↔ (2 ^ 64 ≤ self.old.operations + 1) }
        ensures kept { OnErr result (self.new ≡ self.old) }
    {
        if self.operations == u64::MAX {
            return Err(Memory);
        }
        self.count_one(operation);
        Ok(())
    }
}

// Writes the line of each worker.
fn write_workers<O: Sink>(tallies: &[Tally], page: &mut Page, out: &mut O) -> Result<(), Failed>
    ensures whole { OnOk result (Passes (O.held out.old) page.old (worker_lines 0 tallies.now) (O.held out.new) page.new) }
    ensures front { OnErr result (GrowsByFront (O.held out.old) (O.held out.new) (page.old ++ worker_lines 0 tallies.now)) }
    ensures name { O.name out.new ≡ O.name out.old }
    ensures counts { Counts (O.faults out.old) (O.faults out.new) result }
{
    for (worker, tally) in tallies.iter().enumerate() {
        page.write(worker_line(worker as u64, tally).as_slice(), out)?;
    }
    Ok(())
}
