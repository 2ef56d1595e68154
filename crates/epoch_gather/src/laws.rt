//! What a verdict says, over the definitions alone. These functions do nothing: their contracts are the laws.
ghost use Rattle.std.specs.Prelude.{◌≡◌, ℕ, ◌<◌, ◌↔◌, true, false, List, None, MatchOption, flat_map};
ghost use Rattle.std.specs.List.{AllByRecursion};
ghost use Rattle.multiset_sum.specs.declared.part.Part.{Part};
ghost use Rattle.multiset_sum.specs.Tally.{Tally};
ghost use Rattle.multiset_sum.specs.Sum.{sum_of};
ghost use Rattle.epoch_gather.specs.declared.outcome.Verdict.TheVariants.{Balanced};
ghost use Rattle.epoch_gather.specs.Parts.{of_epoch, has_part, lowest_missing, total};
ghost use Rattle.epoch_gather.specs.Verdict.{verdict_of};

/// The verifier that is named as missing has no part of the epoch, and each lower one has; where none is
/// named, each verifier has one.
pub fn missing_is_the_lowest()
    ensures lowest { (verifiers epoch : ℕ) (parts : List Part)
        → MatchOption (lowest_missing verifiers epoch parts)
        ((verifier : ℕ) → verifier < verifiers → has_part parts epoch verifier ≡ true)
        (λ missing. (missing < verifiers) × (has_part parts epoch missing ≡ false)
        × ((lower : ℕ) → lower < missing → has_part parts epoch lower ≡ true)) }
{}

/// An epoch is balanced exactly where no verifier is missing and the joined sums are one.
pub fn balanced_sums_are_equal()
    ensures balanced { (verifiers epoch : ℕ) (parts : List Part)
        → (verdict_of verifiers epoch parts ≡ Balanced)
        ↔ ((lowest_missing verifiers epoch parts ≡ None)
        × (total (λ part. part.added) (of_epoch epoch parts)
        ≡ total (λ part. part.evicted) (of_epoch epoch parts))) }
{}

/// Where the sum of each part is that of some elements, the joined sum is that of all these elements.
pub fn totals_are_sums_of_all_elements()
    ensures total { (side : Part → Tally) (elements : Part → List (List ℕ)) (parts : List Part)
        → AllByRecursion (λ part. side part ≡ sum_of (elements part)) parts
        → total side parts ≡ sum_of (flat_map elements parts) }
{}
