//! The tree of least numbers.
//!
//! Its root is node 1, the children of node i are 2i and 2i + 1, and behind all inner nodes comes a leaf for each
//! number. A leaf has its number where that is free, and the bound where it is taken; an inner node has the lesser of what
//! its children have, so the root has the least of all.
ghost use Rattle.std.specs.Prelude.{◌≡◌, ◌<◌, true, drop, set, replicate, IfOk};
ghost use Rattle.free_numbers.specs.Tree.{IsTree, IsLeaf, free_from};

use base_words::Memory;
use std::alloc::Global;

/// The tree of the numbers below a bound, all of them free.
pub(crate) fn new_tree(alloc: Global, bound: u32) -> Result<Vec<u32>, Memory>
    ensures tree { IfOk result (λ least. IsTree bound least.items) }
    ensures free { IfOk result (λ least. free_from 0 (drop bound least.items) ≡ replicate bound true) }
{
    let count = bound as usize;
    let mut least = vec![in alloc; 0; 2 * count]?;
    for number in 0..bound {
        least[count + number as usize] = number;
    }
    for node in (1..count).rev() {
        let lesser = least[2 * node].min(least[2 * node + 1]);
        least[node] = lesser;
    }
    Ok(least)
}

/// Writes the leaf of a number, and what follows from it in the nodes above.
pub(crate) fn write_leaf(least: &mut Vec<u32>, bound: u32, number: u32, value: u32)
    requires tree { IsTree bound least.old.items }
    requires within { number < bound }
    requires value { IsLeaf bound number value }
    ensures tree { IsTree bound least.new.items }
    ensures leaves { drop bound least.new.items ≡ set (drop bound least.old.items) number value }
{
    let mut node = bound as usize + number as usize;
    least[node] = value;
    'climbing: while node > 1 {
        node /= 2;
        let lesser = least[2 * node].min(least[2 * node + 1]);
        least[node] = lesser;
    }
}
