//! The texts of a sum and of a part, both ways.
ghost use Rattle.std.specs.Prelude.{◌≡◌, ◌+◌, ◌≤◌, ◌++◌, IsTrue};
ghost use Rattle.std.specs.Int.{w64, to_be_bytes};
ghost use Rattle.std.specs.List.{flat_map};
ghost use Rattle.std.specs.Option.{option_copied};
ghost use Rattle.multiset_sum.specs.Tally.{IsTally};
ghost use Rattle.multiset_sum.specs.Sum.{sum_with};
ghost use Rattle.arrayvec.specs.ArrayVec.{array_vec_len};
ghost use Rattle.record_text.specs.Fields.{Takes};
ghost use Rattle.seals.specs.Sum.{is_sum, lanes_at, sum_at, sum_text};

use crate::bounds::Bounds;
use crate::item::{Item, LONGEST_ITEM};
use arrayvec::ArrayVec;
use multiset_sum::{Part, Sum};
use record_text::{Reader, TextFault, push_u32, push_u64};

impl Item for Part {
    ghost use Rattle.seals.specs.Sum.{part_at, part_text};
    ghost use Rattle.seals.specs.Bounds.{part_follows};

    ghost spelled = { part_text };

    ghost read_as = { part_at };

    ghost may_follow = { part_follows };

    fn text(&self) -> ArrayVec<u8, LONGEST_ITEM> {
        let mut text = ArrayVec::new();
        push_u32(&mut text, self.epoch);
        push_sum(&mut text, &self.added);
        push_sum(&mut text, &self.evicted);
        text
    }

    #[tactic(auto, unfolding(crate::specs::Sum::part_at))]
    fn read(bounds: &Bounds, reader: &mut Reader<'_>) -> Result<Self, TextFault> {
        let epoch = reader.u32()?;
        let added = read_sum(bounds.most_sealed(), reader)?;
        let evicted = read_sum(bounds.most_sealed(), reader)?;
        Ok(Part {
            verifier: bounds.number,
            epoch,
            added,
            evicted,
        })
    }

    fn may_follow(&self, bounds: &Bounds, before: Option<&Self>) -> bool {
        bounds.part_follows(before, self)
    }
}

/// The sum of at most so many elements that the bytes begin with.
#[tactic(auto, unfolding(crate::specs::Sum::sum_at))]
pub(crate) fn read_sum(most: u64, reader: &mut Reader<'_>) -> Result<Sum, TextFault>
    ensures takes { Takes result reader.new (sum_at most reader.old) }
{
    let lanes = read_lanes(reader)?;
    let count = reader.u64()?;
    if !is_sum(most, &lanes, count) {
        return Err(TextFault::Malformed);
    }
    Ok(Sum::of(lanes, count))
}

// The eight lanes of a sum.
#[tactic(auto, unfolding(crate::specs::Sum::lanes_at, crate::specs::Combined::row_at))]
fn read_lanes(reader: &mut Reader<'_>) -> Result<[u64; 8], TextFault>
    ensures takes { Takes result reader.new (lanes_at reader.old) }
{
    let lane0 = reader.u64()?;
    let lane1 = reader.u64()?;
    let lane2 = reader.u64()?;
    let lane3 = reader.u64()?;
    let lane4 = reader.u64()?;
    let lane5 = reader.u64()?;
    let lane6 = reader.u64()?;
    let lane7 = reader.u64()?;
    Ok([lane0, lane1, lane2, lane3, lane4, lane5, lane6, lane7])
}

// Whether these may be the lanes of so many elements, which are no more than these.
fn is_sum(most: u64, lanes: &[u64; 8], count: u64) -> bool
    ensures value { result ≡ is_sum most lanes.now count }
    ensures tally { IsTrue result → IsTally (sum_with lanes.now count) }
{
    count <= most && Sum::is_sum(lanes, count)
}

/// Appends the text of a sum, of 72 bytes.
pub(crate) fn push_sum<const CAP: usize>(items: &mut ArrayVec<u8, CAP>, sum: &Sum)
    requires room { array_vec_len items.old + 72 ≤ CAP }
    ensures text { items.new.items ≡ items.old.items ++ sum_text sum.now }
    ensures len { array_vec_len items.new ≡ array_vec_len items.old + 72 }
{
    push_lanes(items, &sum.lanes());
    push_u64(items, sum.count());
}

// Appends eight lanes.
fn push_lanes<const CAP: usize>(items: &mut ArrayVec<u8, CAP>, lanes: &[u64; 8])
    requires room { array_vec_len items.old + 64 ≤ CAP }
    ensures text { items.new.items ≡ items.old.items ++ flat_map (to_be_bytes w64) lanes.now }
    ensures len { array_vec_len items.new ≡ array_vec_len items.old + 64 }
{
    for lane in lanes {
        push_u64(items, *lane);
    }
}
