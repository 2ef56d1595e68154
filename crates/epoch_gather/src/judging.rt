//! Whether the parts of an epoch are all there and balance.
ghost use Rattle.std.specs.Prelude.{◌≡◌, ◌<◌, ◌≤◌, ◌^◌, All};
ghost use Rattle.std.specs.List.{IsDistinct};
ghost use Rattle.epoch_gather.specs.Parts.{is_same_part, of_epoch, has_part, lowest_missing, total};
ghost use Rattle.epoch_gather.specs.Verdict.{verdict_of};

use crate::outcome::Verdict;
use multiset_sum::{Part, Sum};

/// The verdict on an epoch, by the parts that so many verifiers handed in when they sealed epochs. Parts of
/// other epochs may be among them. There is room for the joined sums, since a verifier has one part of an
/// epoch at most, with fewer than 2^25 elements on each side.
pub fn verdict(parts: &[Part], verifiers: u16, epoch: u32) -> Verdict
    requires few { verifiers ≤ 64 }
    requires numbers { All (λ part. part.verifier < verifiers) parts.now }
    requires once { IsDistinct is_same_part parts.now }
    requires counts { All (λ part. (part.added.count < 2 ^ 25) × (part.evicted.count < 2 ^ 25)) parts.now }
    ensures verdict { result ≡ verdict_of verifiers epoch parts.now }
{
    if let Some(verifier) = missing(parts, verifiers, epoch) {
        return Verdict::Missing(verifier);
    }
    let (added, evicted) = totals(parts, verifiers, epoch);
    if added == evicted {
        Verdict::Balanced
    } else {
        Verdict::Unbalanced(added, evicted)
    }
}

// The lowest verifier without a part of the epoch.
fn missing(parts: &[Part], verifiers: u16, epoch: u32) -> Option<u16>
    ensures lowest { result ≡ lowest_missing verifiers epoch parts.now }
{
    (0..verifiers).find(|verifier| !is_there(parts, *verifier, epoch))
}

// Whether a verifier's part of the epoch is there.
fn is_there(parts: &[Part], verifier: u16, epoch: u32) -> bool
    ensures value { result ≡ has_part parts.now epoch verifier }
{
    parts
        .iter()
        .any(|part| part.epoch == epoch && part.verifier == verifier)
}

// The sums of what was added and of what was evicted in the epoch, over all verifiers.
fn totals(parts: &[Part], verifiers: u16, epoch: u32) -> (Sum, Sum)
    requires few { verifiers ≤ 64 }
    requires numbers { All (λ part. part.verifier < verifiers) parts.now }
    requires once { IsDistinct is_same_part parts.now }
    requires counts { All (λ part. (part.added.count < 2 ^ 25) × (part.evicted.count < 2 ^ 25)) parts.now }
    ensures added { result.0 ≡ total (λ part. part.added) (of_epoch epoch parts.now) }
    ensures evicted { result.1 ≡ total (λ part. part.evicted) (of_epoch epoch parts.now) }
{
    let mut added = Sum::zero();
    let mut evicted = Sum::zero();
    for part in parts {
        if part.epoch == epoch {
            added = added.join(&part.added);
            evicted = evicted.join(&part.evicted);
        }
    }
    (added, evicted)
}
