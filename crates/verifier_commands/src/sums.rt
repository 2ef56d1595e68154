//! The sums of the present epoch and of the one before.
ghost use Rattle.std.specs.Prelude.{◌≡◌, ◌+◌, ◌<◌, ◌^◌};
ghost use Rattle.verifier_commands.specs.Sums.{zero_sums, advanced_sums};
ghost use Rattle.verifier_commands.specs.Machine.{AreBounded, CountsAdd};
ghost use Rattle.verifier_commands.specs.Answer.{add_lanes, evict_lanes, sums_by, ClockMoves};

use crate::answer::Answer;
use lamport_clocks::Clock;
use multiset_sum::Sum;

/// The sums of the elements that a verifier added and evicted, in its clock's epoch and in the one before.
#[derive(Clone, Copy, Debug, PartialEq, Eq)]
pub struct Sums {
    pub added_before: Sum,
    pub evicted_before: Sum,
    pub added: Sum,
    pub evicted: Sum,
}

impl Sums {
    /// Before anything was added or evicted.
    pub(crate) fn zero() -> Self
        ensures value { result ≡ zero_sums }
    {
        Sums {
            added_before: Sum::zero(),
            evicted_before: Sum::zero(),
            added: Sum::zero(),
            evicted: Sum::zero(),
        }
    }

    // The next epoch: the sums of the old one are those of the epoch before from now on.
    fn advance(&mut self)
        ensures value { self.new ≡ advanced_sums self.old }
    {
        self.added_before = self.added;
        self.evicted_before = self.evicted;
        self.added = Sum::zero();
        self.evicted = Sum::zero();
    }

    // One element more was added, in its own stamp's epoch.
    fn add(&mut self, epoch: u32, stamped: u32, lanes: [u32; 8])
        requires added { self.old.added.count + 1 < 2 ^ 31 }
        requires added_before { self.old.added_before.count + 1 < 2 ^ 31 }
        ensures value { self.new ≡ add_lanes epoch self.old stamped lanes }
        ensures counts { CountsAdd self.old self.new }
    {
        if stamped == epoch {
            self.added = self.added.with(lanes);
        } else {
            self.added_before = self.added_before.with(lanes);
        }
    }

    // One element more was evicted.
    fn evict(&mut self, lanes: [u32; 8])
        requires evicted { self.old.evicted.count + 1 < 2 ^ 31 }
        ensures value { self.new ≡ evict_lanes self.old lanes }
        ensures count { self.new.evicted.count ≡ self.old.evicted.count + 1 }
        ensures others { self.new ≡ record self.old { evicted = self.new.evicted } }
    {
        self.evicted = self.evicted.with(lanes);
    }

    /// Takes in what a command handed up, between these readings of the clock.
    #[tactic(auto, using(crate::proofs::BoundLaws::bounds))]
    pub(crate) fn apply(&mut self, before: &Clock, clock: &Clock, answer: &Answer)
        requires bounded { AreBounded self.old before.now }
        requires moved { ClockMoves before.now clock.now answer.now }
        ensures value { self.new ≡ sums_by before.now.at.epoch self.old answer.now }
        ensures bounded { AreBounded self.new clock.now }
    {
        let _within = clock.at();
        match answer {
            Answer::AddB(stamped, lanes) => self.add(before.at().epoch, *stamped, *lanes),
            Answer::EvictB(lanes) => self.evict(*lanes),
            Answer::EvictBM(lanes) => self.evict(*lanes),
            Answer::NextEpoch(_) => self.advance(),
            _ => {}
        }
    }
}
