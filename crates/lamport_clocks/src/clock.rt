//! A verifier's clock, and its three steps.
ghost use Rattle.std.specs.Prelude.{◌≡◌, ◌≤◌};
ghost use Rattle.base_words.specs.Follows.{Follows, Becomes};
ghost use Rattle.lamport_clocks.specs.Clock.{opening_reading, reading_at, is_open, received, sent, advanced};

use crate::stamp::Stamp;
use std::marker::Model;

// The last epoch that a clock can stand in.
const LAST_EPOCH: u32 = u32::MAX;

/// Why a clock refused a stamp, or refused to go on.
#[derive(Clone, Copy, Debug, PartialEq, Eq)]
pub enum ClockFault {
    /// The stamp is of an epoch that the clock doesn't take here.
    BadEpoch,
    /// The stamp isn't above the clock.
    StampNotLater,
    /// The counter would pass its end, or the epoch its last.
    ClockEnd,
}

/// A logical clock after Lamport (1978), in epochs: contracts see it as a `Reading`.
///
/// The counter begins at 0 in each epoch and never passes `end`. After a fault the clock is as before.
#[derive(Clone, Copy, Debug, PartialEq, Eq)]
pub struct Clock {
    first: u32,
    end: u32,
    stamp: Stamp,
}

impl Model for Clock {
    ghost use Rattle.lamport_clocks.specs.Reading.{Reading, IsReading};

    ghost Value = { Reading };

    ghost view = { λ c. record { first = c.first; end = c.end; at = c.stamp } };

    ghost invariant = { λ c. IsReading (record { first = c.first; end = c.end; at = c.stamp }) };

    ghost inverse = { λ r. record { first = r.first; end = r.end; stamp = r.at } };
}

impl Clock {
    /// A clock at the start of its first epoch, whose counter ends at `end` in each epoch.
    pub fn new(first: u32, end: u32) -> Self
        ensures opening { result ≡ opening_reading first end }
    {
        Clock {
            first,
            end,
            stamp: Stamp {
                epoch: first,
                counter: 0,
            },
        }
    }

    /// A clock that goes on from a stamp at which one with these bounds stood.
    pub fn resume(first: u32, end: u32, stamp: Stamp) -> Self
        requires from_first { first ≤ stamp.epoch }
        requires within { stamp.counter ≤ end }
        ensures stands { result ≡ reading_at first end stamp }
    {
        Clock { first, end, stamp }
    }

    /// Where the clock stands.
    pub fn at(&self) -> Stamp
        ensures value { result ≡ self.now.at }
        ensures within { result.counter ≤ self.now.end }
        ensures from_first { self.now.first ≤ result.epoch }
    {
        self.stamp
    }

    /// Takes in what was stamped `t`: a stamp of this epoch or, past the first, of the one before.
    /// The clock goes above itself and above `t`.
    pub fn on_add(&mut self, t: Stamp) -> Result<(), ClockFault>
        ensures follows { Becomes result self.old self.new (received self.old t) }
    {
        if !self.takes(t.epoch) {
            return Err(ClockFault::BadEpoch);
        }
        let seen = if t.epoch == self.stamp.epoch {
            t.counter
        } else {
            0
        };
        let greater = self.stamp.counter.max(seen);
        if greater >= self.end {
            return Err(ClockFault::ClockEnd);
        }
        self.stamp.counter = greater + 1;
        Ok(())
    }

    /// Hands away what is stamped `t`: a stamp of this epoch above the clock. The clock goes to `t`.
    pub fn on_evict(&mut self, t: Stamp) -> Result<(), ClockFault>
        ensures follows { Becomes result self.old self.new (sent self.old t) }
    {
        if t.epoch != self.stamp.epoch {
            return Err(ClockFault::BadEpoch);
        }
        if t.counter <= self.stamp.counter {
            return Err(ClockFault::StampNotLater);
        }
        if t.counter > self.end {
            return Err(ClockFault::ClockEnd);
        }
        self.stamp = t;
        Ok(())
    }

    /// Goes to the start of the next epoch. That seals the epoch before the one that ends here, of
    /// which no stamp is taken any more; the first epoch has none before it.
    pub fn next_epoch(&mut self) -> Result<Option<u32>, ClockFault>
        ensures follows { Follows result self.old self.new (advanced self.old) }
    {
        let epoch = self.stamp.epoch;
        if epoch == LAST_EPOCH {
            return Err(ClockFault::ClockEnd);
        }
        self.stamp = Stamp {
            epoch: epoch + 1,
            counter: 0,
        };
        Ok(if epoch > self.first {
            Some(epoch - 1)
        } else {
            None
        })
    }

    fn takes(&self, epoch: u32) -> bool
        ensures { result ≡ is_open self.now epoch }
    {
        epoch == self.stamp.epoch
            || (self.first < self.stamp.epoch && epoch == self.stamp.epoch - 1)
    }
}
