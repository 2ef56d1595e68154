//! What has a number that only rises, and such a counter in memory, with calls that are to fail.
ghost use Rattle.std.specs.Prelude.{◌≡◌, ℕ, ⊤, Option, Some, IfOk, OnErr};
ghost use Rattle.fv_outside.specs.Faults.{Counts};
ghost use Rattle.fv_outside.specs.Counting.{Tells, Raises, new_counter, read_answer, after_read, raise_fails, raise_answer, after_raise};

use crate::calls::Calls;
use crate::errors::Failed;
use base_words::Memory;
use std::alloc::Global;
use std::marker::Model;

/// A number that never falls.
pub trait Counter {
    // The number, where the counter tells it.
    ghost number: { Self → Option ℕ };

    // How many faults the counter has had. The last value of the count is 2 ^ 64 - 1.
    ghost faults: { Self → ℕ };

    // What a raise asks of the counter: nothing, unless it is one that can't fail.
    ghost can_raise: { Self → Type 0 } = { λ _. ⊤ };

    /// The number.
    fn read(&mut self) -> Result<u64, Failed>
        ensures told { IfOk result (Tells (number self.old)) }
        ensures number { number self.new ≡ number self.old }
        ensures can_raise { can_raise self.old → can_raise self.new }
        ensures counts { Counts (faults self.old) (faults self.new) result };

    /// Adds one and answers the new number. On `Failed`, which is also the answer at 2^64 - 1, the
    /// number is as it was.
    fn raise(&mut self) -> Result<u64, Failed>
        requires can_raise { can_raise self.old }
        ensures raised { IfOk result (Raises (number self.old) (number self.new)) }
        ensures kept { OnErr result (number self.new ≡ number self.old) }
        ensures counts { Counts (faults self.old) (faults self.new) result };
}

/// A counter in memory. The calls whose numbers (from 0) stand in a list fail, and so does a raise
/// at 2^64 - 1.
#[derive(Drop)]
pub struct MemoryCounter {
    number: u64,
    calls: Calls,
}

impl Model for MemoryCounter {
    ghost use Rattle.fv_outside.specs.Counting.{CounterState};

    ghost Value = { CounterState };

    ghost view = { λ c. record { number = c.number; calls = c.calls } };
}

impl MemoryCounter {
    /// A counter that stands at `start`, and whose calls with the numbers of `fails` fail.
    pub fn new(alloc: Global, start: u64, fails: &[u64]) -> Result<MemoryCounter, Memory>
        ensures made { IfOk result (λ counter. counter ≡ new_counter start fails.now) }
    {
        Ok(MemoryCounter {
            number: start,
            calls: Calls::new(alloc, fails)?,
        })
    }

    /// The number. This is no call that could fail.
    pub fn number(&self) -> u64
        ensures value { result ≡ self.now.number }
    {
        self.number
    }

    /// How many calls failed.
    pub fn faults(&self) -> u64
        ensures value { result ≡ self.now.calls.faults }
    {
        self.calls.faults()
    }

    fn raise_fails(&self) -> bool
        ensures value { result ≡ raise_fails self.now }
    {
        self.calls.is_to_fail() || self.number == u64::MAX
    }
}

impl Counter for MemoryCounter {
    ghost number = { λ c. Some c.number };

    ghost faults = { λ c. c.calls.faults };

    fn read(&mut self) -> Result<u64, Failed>
        ensures told { IfOk result (λ answer. answer ≡ self.old.number) }
        ensures number { Some self.new.number ≡ Some self.old.number }
        ensures counts { Counts self.old.calls.faults self.new.calls.faults result }

        ensures answer { result ≡ read_answer self.old }
        ensures after { self.new ≡ after_read self.old }
    {
        if self.calls.is_to_fail() {
            self.calls.fail();
            return Err(Failed);
        }
        self.calls.answer();
        Ok(self.number)
    }

    fn raise(&mut self) -> Result<u64, Failed>
        ensures raised { IfOk result (Raises (Some self.old.number) (Some self.new.number)) }
        ensures kept { OnErr result (Some self.new.number ≡ Some self.old.number) }
        ensures counts { Counts self.old.calls.faults self.new.calls.faults result }

        ensures answer { result ≡ raise_answer self.old }
        ensures after { self.new ≡ after_raise self.old }
    {
        if self.raise_fails() {
            self.calls.fail();
            return Err(Failed);
        }
        self.number += 1;
        self.calls.answer();
        Ok(self.number)
    }
}
