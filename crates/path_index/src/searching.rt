//! How a path is found in an index: by halving, with one comparison of two paths each time.
ghost use Rattle.std.specs.Prelude.{◌≡◌, ℕ, ◌+◌, ◌-◌, ◌*◌, ◌^◌, ◌<◌, ◌≤◌, IsTrue, IfOk, IfErr};
ghost use Rattle.path_index.specs.Order.{Compared, order_of};
ghost use Rattle.path_index.specs.Index.{mark_at, count_of, IsSound, Rises, IsRankOf, IsGapFor};

use crate::index::Index;
use crate::steps::Steps;
use std::cmp::Ordering;
use std::marker::Brand;
use std::sync::ledger::{Blank, Ledger};
use tree_keys::Path;

/// How one path lies to another in the order of an index: shorter ones first, those of one length by the number that their bits
/// spell, and those of one number by their trees.
pub fn order(one: &Path, other: &Path) -> Ordering
    ensures order { Compared result one.now other.now }
{
    let (len, bits, wide) = (one.len(), one.bits(), one.is_wide());
    let (others_len, others_bits, others_wide) = (other.len(), other.bits(), other.is_wide());
    if len < others_len {
        return Ordering::Less;
    }
    if others_len < len {
        return Ordering::Greater;
    }
    if bits < others_bits {
        return Ordering::Less;
    }
    if others_bits < bits {
        return Ordering::Greater;
    }
    if wide == others_wide {
        return Ordering::Equal;
    }
    if wide {
        Ordering::Greater
    } else {
        Ordering::Less
    }
}

// The same, counted.
fn compare<L: Ledger>(one: &Path, other: &Path, steps: &mut Steps<L>) -> Ordering
    ensures order { Compared result one.now other.now }
    ensures step { steps.new ≡ steps.old + 1 }
{
    steps.tick();
    order(one, other)
}

/// The rank of a path in an index, or the rank at which it would come in.
pub fn search<L: Ledger>(index: &Index, k: &Path, steps: &mut Steps<L>) -> Result<usize, usize>
    requires sound { IsSound index.now }
    requires rises { Rises index.now }
    ensures found { IfOk result (IsRankOf k.now index.now) }
    ensures gap { IfErr result (IsGapFor k.now index.now) }
    ensures steps { 2 ^ (steps.new - steps.old) ≤ 2 * count_of index.now + 1 }
    ensures rise { steps.old ≤ steps.new }
    ensures counts { 0 < count_of index.now → steps.old < steps.new }
{
    let mut low = 0;
    let mut high = index.len();
    'halving: while low < high {
        let middle = low + (high - low) / 2;
        match compare(k, &index.mark(middle).path, steps) {
            Ordering::Less => high = middle,
            Ordering::Greater => low = middle + 1,
            Ordering::Equal => return Ok(middle),
        }
    }
    Err(low)
}

// The same by a new ledger, which nobody reads.
fn search_by<L: Ledger>(index: &Index, k: &Path, blank: Blank) -> Result<usize, usize>
    requires name { blank.name ≡ L.name }
    requires parts { blank.parts ≡ L.parts }
    requires some { 0 < blank.parts }
    requires sound { IsSound index.now }
    requires rises { Rises index.now }
    ensures found { IfOk result (IsRankOf k.now index.now) }
    ensures gap { IfErr result (IsGapFor k.now index.now) }
{
    let mut steps = Steps::<L>::open(blank);
    search(index, k, &mut steps)
}

/// The same, uncounted.
pub fn search_uncounted(index: &Index, k: &Path) -> Result<usize, usize>
    requires sound { IsSound index.now }
    requires rises { Rises index.now }
    ensures found { IfOk result (IsRankOf k.now index.now) }
    ensures gap { IfErr result (IsGapFor k.now index.now) }
{
    search_by::<Brand>(index, k, Blank::new(1))
}

/// A rank at which a path was found, or would have come in. Whoever is told one looks there first, and searches
/// where it isn't right any more: so it changes no answer.
#[derive(Clone, Copy, Debug)]
pub struct Hint {
    rank: usize,
}

/// Where a path is found, or would come in.
pub fn hint_of(index: &Index, k: &Path) -> Hint
    requires sound { IsSound index.now }
    requires rises { Rises index.now }
{
    match search_uncounted(index, k) {
        Ok(rank) => Hint { rank },
        Err(rank) => Hint { rank },
    }
}

/// The same as a search, which begins at a hint.
pub fn search_near(index: &Index, k: &Path, hint: Hint) -> Result<usize, usize>
    requires sound { IsSound index.now }
    requires rises { Rises index.now }
    ensures found { IfOk result (IsRankOf k.now index.now) }
    ensures gap { IfErr result (IsGapFor k.now index.now) }
{
    if hint.rank < index.len() {
        if k.is_same(&index.mark(hint.rank).path) {
            return Ok(hint.rank);
        }
    }
    if hint.rank <= index.len() {
        if is_above(index, k, hint.rank) {
            if is_below(index, k, hint.rank) {
                return Err(hint.rank);
            }
        }
    }
    search_uncounted(index, k)
}

// Whether one path comes before another.
fn is_before(one: &Path, other: &Path) -> bool
    ensures order { IsTrue result → order_of one.now < order_of other.now }
{
    match order(one, other) {
        Ordering::Less => true,
        _ => false,
    }
}

// Whether the marks below a rank come before a path.
fn is_above(index: &Index, k: &Path, rank: usize) -> bool
    requires sound { IsSound index.now }
    requires rises { Rises index.now }
    requires within { rank ≤ count_of index.now }
    ensures before { IsTrue result → (i : ℕ) → i < rank → order_of (mark_at index.now i).path < order_of k.now }
{
    if rank == 0 {
        return true;
    }
    is_before(&index.mark(rank - 1).path, k)
}

// Whether the marks from a rank on come behind a path.
fn is_below(index: &Index, k: &Path, rank: usize) -> bool
    requires sound { IsSound index.now }
    requires rises { Rises index.now }
    requires within { rank ≤ count_of index.now }
    ensures behind { IsTrue result → (i : ℕ) → rank ≤ i → i < count_of index.now → order_of k.now < order_of (mark_at index.now i).path }
{
    if rank == index.len() {
        return true;
    }
    is_before(k, &index.mark(rank).path)
}
