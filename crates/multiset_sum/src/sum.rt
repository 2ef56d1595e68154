//! The sum of a multiset of elements, lane by lane.
ghost use Rattle.std.specs.Prelude.{◌≡◌, ◌+◌, ◌-◌, ◌*◌, ◌^◌, ◌<◌, ◌≤◌, ◌↔◌, nat_le, EachIndex, slice_index, IsTrue};
ghost use Rattle.std.specs.List.{list_all};
ghost use Rattle.multiset_sum.specs.Tally.{IsTally};
ghost use Rattle.multiset_sum.specs.Sum.{zero_sum, sum_with, is_tally, with_lanes, joined};

use std::marker::Model;

// No sum has so many elements.
const COUNT_END: u64 = 1 << 31;

/// The sum of a multiset of elements: of each of the eight lanes the exact sum, and the number of elements.
///
/// Contracts see it as a `Tally`. The count is below 2^31 and a lane at most the count times 2^32 - 1, so no
/// lane reaches 2^63. Equal multisets have equal sums, in whatever order they were added.
#[derive(Clone, Copy, Debug, PartialEq, Eq)]
pub struct Sum {
    lanes: [u64; 8],
    count: u64,
}

impl Model for Sum {
    ghost use Rattle.multiset_sum.specs.Tally.{Tally, IsTally};

    ghost Value = { Tally };

    ghost view = { λ s. record { lanes = s.lanes; count = s.count } };

    ghost invariant = { λ s. IsTally (record { lanes = s.lanes; count = s.count }) };

    ghost inverse = { λ t. record { lanes = t.lanes; count = t.count } };
}

impl Sum {
    /// The sum of no elements.
    pub fn zero() -> Self
        ensures zero { result ≡ zero_sum }
    {
        Sum {
            lanes: [0; 8],
            count: 0,
        }
    }

    /// Whether so many elements may have lanes with these sums.
    pub fn is_sum(lanes: &[u64; 8], count: u64) -> bool
        ensures value { result ≡ is_tally lanes.now count }
        ensures tally { IsTrue result ↔ IsTally (sum_with lanes.now count) }
    {
        count < COUNT_END && are_at_most(lanes, count * u64::from(u32::MAX))
    }

    /// The sum of so many elements whose lanes have these sums.
    pub fn of(lanes: [u64; 8], count: u64) -> Self
        requires room { count < 2 ^ 31 }
        requires bounded { EachIndex lanes (λ lane. slice_index lanes lane ≤ count * (2 ^ 32 - 1)) }
        ensures sum { result ≡ sum_with lanes count }
    {
        Sum { lanes, count }
    }

    /// The sum of each of the eight lanes.
    pub fn lanes(&self) -> [u64; 8]
        ensures value { result ≡ self.now.lanes }
        ensures bounded { IsTally self.now }
    {
        self.lanes
    }

    /// How many elements were added.
    pub fn count(&self) -> u64
        ensures value { result ≡ self.now.count }
        ensures bounded { IsTally self.now }
    {
        self.count
    }

    /// The sum with one element more, whose hash has these lanes.
    pub fn with(&self, lanes: [u32; 8]) -> Self
        requires room { self.now.count + 1 < 2 ^ 31 }
        ensures sum { result ≡ with_lanes self.now lanes }
    {
        Sum {
            lanes: [
                self.lanes[0] + u64::from(lanes[0]),
                self.lanes[1] + u64::from(lanes[1]),
                self.lanes[2] + u64::from(lanes[2]),
                self.lanes[3] + u64::from(lanes[3]),
                self.lanes[4] + u64::from(lanes[4]),
                self.lanes[5] + u64::from(lanes[5]),
                self.lanes[6] + u64::from(lanes[6]),
                self.lanes[7] + u64::from(lanes[7]),
            ],
            count: self.count + 1,
        }
    }

    /// The sum of the elements of both.
    pub fn join(&self, other: &Sum) -> Self
        requires room { self.now.count + other.now.count < 2 ^ 31 }
        ensures sum { result ≡ joined self.now other.now }
    {
        Sum {
            lanes: [
                self.lanes[0] + other.lanes[0],
                self.lanes[1] + other.lanes[1],
                self.lanes[2] + other.lanes[2],
                self.lanes[3] + other.lanes[3],
                self.lanes[4] + other.lanes[4],
                self.lanes[5] + other.lanes[5],
                self.lanes[6] + other.lanes[6],
                self.lanes[7] + other.lanes[7],
            ],
            count: self.count + other.count,
        }
    }
}

// Whether none of the lanes is more than this.
fn are_at_most(lanes: &[u64; 8], most: u64) -> bool
    ensures value { result ≡ list_all (λ lane. nat_le lane most) lanes.now }
    ensures each { IsTrue result ↔ EachIndex lanes.now (λ lane. slice_index lanes.now lane ≤ most) }
{
    lanes.iter().all(|lane| *lane <= most)
}
