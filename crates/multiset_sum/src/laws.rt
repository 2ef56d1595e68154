//! What the sum of a multiset means. These functions do nothing: their contracts are the laws.
ghost use Rattle.std.specs.Prelude.{◌≡◌, ℕ, List, [], ◌∷◌, ◌++◌, IsPermutation};
ghost use Rattle.multiset_sum.specs.Tally.{Tally, IsTally};
ghost use Rattle.multiset_sum.specs.Sum.{zero_sum, with_lanes, joined, sum_of};

/// Adding elements one by one, or joining the sums of two lists, gives the sum of the whole list.
pub fn adding_sums_the_list()
    ensures none { sum_of [] ≡ zero_sum }
    ensures one_more { (elements : List (List ℕ)) (lanes : List ℕ)
        → with_lanes (sum_of elements) lanes ≡ sum_of (elements ++ lanes ∷ []) }
    ensures both { (some others : List (List ℕ))
        → joined (sum_of some) (sum_of others) ≡ sum_of (some ++ others) }
{}

/// The order of the elements leaves no trace in their sum.
pub fn order_leaves_no_trace()
    ensures permutation { (elements others : List (List ℕ))
        → IsPermutation elements others → sum_of others ≡ sum_of elements }
{}

/// Sums may be joined in any order and grouping, and that of no elements adds nothing.
pub fn joining_adds()
    ensures commutes { (s t : Tally) → joined s t ≡ joined t s }
    ensures regroups { (s t u : Tally) → joined (joined s t) u ≡ joined s (joined t u) }
    ensures zero { (s : Tally) → IsTally s → joined s zero_sum ≡ s }
{}
