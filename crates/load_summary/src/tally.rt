//! What is counted of one worker.

use record_text::OperationRef;

/// How often a worker got, put and deleted.
#[derive(Clone, Copy, Debug, PartialEq, Eq)]
pub struct Tally {
    pub gets: u64,
    /// Those of the gets that found none.
    pub none: u64,
    /// Puts of a value.
    pub puts: u64,
    /// Puts of none.
    pub dels: u64,
}

impl Tally {
    ghost use Rattle.std.specs.Prelude.{◌≡◌, ◌-◌, ◌^◌, []};
    ghost use Rattle.load_summary.specs.Tallies.{tally_of};
    ghost use Rattle.load_summary.specs.Counting.{with_one, IsWithin};

    /// Of no operation.
    pub(crate) fn zero() -> Self
        ensures none { result ≡ tally_of 0 [] }
    {
        Tally {
            gets: 0,
            none: 0,
            puts: 0,
            dels: 0,
        }
    }

    /// Counts one operation more.
    pub(crate) fn count(&mut self, operation: &OperationRef)
        requires room { IsWithin (2 ^ 64 - 2) self.old }
        ensures one { self.new ≡ with_one operation.now.put operation.now.value self.old }
    {
        match (operation.is_put(), operation.value().bytes()) {
            (false, Some(_)) => self.gets += 1,
            (false, None) => {
                self.gets += 1;
                self.none += 1;
            }
            (true, Some(_)) => self.puts += 1,
            (true, None) => self.dels += 1,
        }
    }
}
