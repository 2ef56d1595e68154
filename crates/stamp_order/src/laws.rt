//! What merging does, whatever is merged and whatever says the moment of each member. These functions do
//! nothing: their contracts are the laws.
ghost use Rattle.std.specs.Prelude.{◌≡◌, ◌≢◌, ℕ, ◌+◌, Bool, List, ◌++◌, filter, flat_map, AllPairs, IsPermutation, IsSortedByKey};
ghost use Rattle.std.specs.List.{AllByRecursion};
ghost use Rattle.std.specs.Ordering.{is_lt, is_le};
ghost use Rattle.stamp_order.specs.Moment.{moment_cmp, is_before, not_after};
ghost use Rattle.stamp_order.specs.declared.moment.Moment.{Moment};
ghost use Rattle.stamp_order.specs.Merged.{merged, IsMerged, up_to, of_epoch, of_verifier};

use crate::moment::Moment;

/// The comparison of moments is by the clock, then the verifier, then the number in its log.
pub fn moments_are_ordered()
    ensures compare { (m n : Moment) → ⟦<Moment as Ord>⟧.cmp m n ≡ moment_cmp m n }
    ensures before { (m n : Moment) → is_before m n ≡ is_lt (⟦<Moment as Ord>⟧.cmp m n) }
    ensures not_after { (m n : Moment) → not_after m n ≡ is_le (⟦<Moment as Ord>⟧.cmp m n) }
{}

/// The merged members are those that were merged, each as often, in the order of their moments.
pub fn merging_sorts<T>()
    ensures members { (at : T → Moment) (xs : List T) → IsPermutation xs (merged at xs) }
    ensures in_order { (at : T → Moment) (xs : List T) → IsMerged at (merged at xs) }
    ensures sorted { (at : T → Moment) (xs : List T) → IsSortedByKey at moment_cmp (merged at xs) }
{}

/// What stands in order already stays as it stands: the whole list, and the members of one verifier.
pub fn merging_keeps_what_is_in_order<T>()
    ensures whole { (at : T → Moment) (xs : List T) → IsMerged at xs → merged at xs ≡ xs }
    ensures verifier { (at : T → Moment) (verifier : ℕ) (xs : List T)
        → IsMerged at (of_verifier at verifier xs)
        → of_verifier at verifier (merged at xs) ≡ of_verifier at verifier xs }
{}

/// There is one merged order: where no two moments are one, any list of the same members in the order
/// of their moments is the merged one.
pub fn merged_order_is_one<T>()
    ensures only { (at : T → Moment) (xs ys : List T)
        → AllPairs (λ x y. at x ≢ at y) xs → IsPermutation xs ys → IsMerged at ys → ys ≡ merged at xs }
{}

/// Merging goes part by part: those that a test keeps, an epoch behind those before it, and lists that
/// each stand at one moment.
pub fn merging_goes_by_parts<T, U>()
    ensures filtered { (at : T → Moment) (test : T → Bool) (xs : List T)
        → filter test (merged at xs) ≡ merged at (filter test xs) }
    ensures epochs { (at : T → Moment) (epoch : ℕ) (xs : List T)
        → merged at (up_to at (epoch + 1) xs)
        ≡ merged at (up_to at epoch xs) ++ merged at (of_epoch at (epoch + 1) xs) }
    ensures blocks { (at : T → Moment) (of_block : U → Moment) (block : T → List U)
        → ((x : T) → AllByRecursion (λ y. of_block y ≡ at x) (block x))
        → (xs : List T) → flat_map block (merged at xs) ≡ merged of_block (flat_map block xs) }
{}
