//! When an operation was done: the clock, the verifier, and the number in its log.
ghost use Rattle.std.specs.Prelude.{◌≡◌};
ghost use Rattle.stamp_order.specs.Operations.{moment_of};

use lamport_clocks::Stamp;
use record_text::{Operation, OperationRef};

/// When a verifier did something: its clock after it, its number, and the number of the command in its log.
///
/// Moments are ordered by the clock, then the verifier, then the command (Lamport 1978: ties of the clock
/// are broken by the process).
#[derive(Clone, Copy, Debug, PartialEq, Eq, PartialOrd, Ord)]
pub struct Moment {
    pub at: Stamp,
    pub verifier: u16,
    pub index: u64,
}

impl Moment {
    /// When an operation was done.
    pub fn of(operation: &Operation) -> Self
        ensures value { result ≡ moment_of operation.now }
    {
        Moment {
            at: operation.stamp,
            verifier: operation.verifier,
            index: operation.index,
        }
    }

    /// The same, where its value stands elsewhere.
    pub fn of_ref(operation: &OperationRef) -> Self
        ensures value { result ≡ moment_of operation.now }
    {
        Moment {
            at: operation.stamp(),
            verifier: operation.verifier(),
            index: operation.index(),
        }
    }
}
