//! A counter in memory that never fails.
ghost use Rattle.std.specs.Prelude.{◌≡◌, ◌+◌, Some, Ok, IfOk, OnErr};
ghost use Rattle.fv_outside.specs.Faults.{Counts};
ghost use Rattle.fv_outside.specs.Counting.{Raises, HasRaisesLeft};

use crate::counters::Counter;
use crate::errors::Failed;
use std::marker::Model;

/// A counter in memory that never fails. It is raised only where a raise is left.
#[derive(Drop)]
pub struct SureCounter {
    number: u64,
}

/// It is seen as its number.
impl Model for SureCounter {
    ghost use Rattle.std.specs.Prelude.{ℕ};

    ghost Value = { ℕ };

    ghost view = { λ c. c.number };
}

impl SureCounter {
    /// A counter that stands at `start`. It has 2^64 - 1 - `start` raises left.
    pub fn new(start: u64) -> SureCounter
        ensures made { result ≡ start }
    {
        SureCounter { number: start }
    }

    /// The number.
    pub fn number(&self) -> u64
        ensures value { result ≡ self.now }
    {
        self.number
    }
}

impl Counter for SureCounter {
    ghost number = { λ c. Some c };

    ghost faults = { λ _. 0 };

    ghost can_raise = { HasRaisesLeft };

    fn read(&mut self) -> Result<u64, Failed>
        ensures told { IfOk result (λ answer. answer ≡ self.old) }
        ensures number { Some self.new ≡ Some self.old }
        ensures can_raise { HasRaisesLeft self.old → HasRaisesLeft self.new }
        ensures counts { Counts 0 0 result }

        ensures answer { result ≡ Ok self.old }
        ensures after { self.new ≡ self.old }
    {
        Ok(self.number)
    }

    fn raise(&mut self) -> Result<u64, Failed>
        requires can_raise { HasRaisesLeft self.old }
        ensures raised { IfOk result (Raises (Some self.old) (Some self.new)) }
        ensures kept { OnErr result (Some self.new ≡ Some self.old) }
        ensures counts { Counts 0 0 result }

        ensures answer { result ≡ Ok (self.old + 1) }
        ensures after { self.new ≡ self.old + 1 }
    {
        self.number += 1;
        Ok(self.number)
    }
}
