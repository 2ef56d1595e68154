//! A part as numbers, one for each word of a book.
ghost use Rattle.std.specs.Prelude.{◌≡◌};
ghost use Rattle.multiset_sum.specs.Tally.{IsTally};
ghost use Rattle.epoch_book.specs.Numbers.{numbers_of};

use multiset_sum::Part;

/// How many words a book has: of each of two sums the eight lanes and the count.
pub const WORDS: usize = 18;

/// The numbers of a part, in the order of the words: the lanes and the count of what was added, then of what was evicted.
pub fn numbers_of(part: &Part) -> [u64; WORDS]
    ensures numbers { result ≡ numbers_of part.now }
    ensures tallies { IsTally part.now.added × IsTally part.now.evicted }
{
    let [a, b, c, d, e, f, g, h] = part.added.lanes();
    let [i, j, k, l, m, n, o, p] = part.evicted.lanes();
    let (added, evicted) = (part.added.count(), part.evicted.count());
    [
        a, b, c, d, e, f, g, h, added, i, j, k, l, m, n, o, p, evicted,
    ]
}
