//! How the report of a bundle ends.
ghost use Rattle.std.specs.Prelude.{◌≡◌};
ghost use Rattle.report_text.specs.Ending.{status_of};

use crate::status::Status;
use multiset_sum::Sum;
use record_text::Refusal;

/// How the report of a bundle ends.
#[derive(Clone, Copy, Debug, PartialEq, Eq)]
pub enum BundleEnd {
    /// The bundle was read to its end and no log is refused; so many epochs are certified.
    Done {
        epochs: u64,
    },
    /// The bytes at this offset are no whole valid header or frame.
    BadBundle {
        offset: u64,
    },
    /// A verifier's log is refused at this command, counted from 0.
    Refused {
        verifier: u16,
        index: u64,
        refusal: Refusal,
    },
    /// The sums of an epoch that every verifier sealed differ: those of what was added and evicted.
    Unbalanced {
        epoch: u32,
        added: Sum,
        evicted: Sum,
    },
}

impl BundleEnd {
    /// The status of a run that ends so.
    pub fn status(&self) -> Status
        ensures value { result ≡ status_of self.now }
    {
        match *self {
            BundleEnd::Done { epochs } => Status::Done { epochs },
            BundleEnd::BadBundle { offset } => Status::BadBundle { offset },
            BundleEnd::Refused {
                verifier,
                index,
                refusal,
            } => Status::Refused {
                verifier,
                index,
                refusal,
            },
            BundleEnd::Unbalanced {
                epoch,
                added,
                evicted,
            } => Status::Unbalanced {
                epoch,
                added,
                evicted,
            },
        }
    }
}
