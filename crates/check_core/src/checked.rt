//! What a check comes to before its last line is written.
ghost use Rattle.std.specs.Prelude.{◌≡◌, OnErr, OnOk, IfOk};
ghost use Rattle.fv_outside.specs.Faults.{Counts};
ghost use Rattle.fv_outside.specs.Written.{Grows, GrowsByFront};
ghost use Rattle.report_text.specs.Ending.{status_of};
ghost use Rattle.report_text.specs.Status.{last_line};
ghost use Rattle.check_core.specs.Checked.{end_in};

use certified_epochs::FedRun;
use fv_outside::{Failed, Sink};
use lamport_clocks::Header;
use report_text::{BundleEnd, Status, write_last};

/// A bundle of which nothing is bad, nothing refused and nothing unbalanced: how many bytes were taken of it, how many of its epochs are
/// certified, and the runs of its logs, out of which these were taken.
#[derive(Drop)]
pub(crate) struct DoneBundle {
    pub header: Header,
    pub taken: u64,
    pub epochs: u64,
    pub runs: Vec<FedRun>,
}

/// What a check comes to.
#[derive(Drop)]
pub(crate) enum Checked {
    /// The report ends with `done`.
    Done(DoneBundle),
    /// It ends otherwise.
    Ended(BundleEnd),
}

impl Checked {
    /// How the report ends.
    pub(crate) fn end(&self) -> BundleEnd
        ensures value { result ≡ end_in self.now }
    {
        match self {
            Checked::Done(done) => BundleEnd::Done {
                epochs: done.epochs,
            },
            Checked::Ended(end) => *end,
        }
    }
}

/// Writes the last line of a report that ends so, and answers its status.
pub(crate) fn write_end<O: Sink>(end: &BundleEnd, out: &mut O) -> Result<Status, Failed>
    ensures status { IfOk result (λ status. status ≡ status_of end.now) }
    ensures line { OnOk result (Grows (O.held out.old) (O.held out.new) (last_line (status_of end.now))) }
    ensures front { OnErr result (GrowsByFront (O.held out.old) (O.held out.new) (last_line (status_of end.now))) }
    ensures counts { Counts (O.faults out.old) (O.faults out.new) result }
{
    let status = end.status();
    write_last(&status, out)?;
    Ok(status)
}
