//! Sums of multisets: a hash of a multiset that adds the keyed hashes of its elements (Clarke et al. 2003).
//!
//! The hash of an element is eight numbers of 32 bits, its lanes. The sum of a multiset is the exact sum
//! of each lane, and how many elements there are: the order in which they came leaves no trace. The crate
//! stands on std alone, and takes lanes as numbers, whichever hash gave them.
//!
//! Begin at `sum`, beside `specs/Sum.antt`; `laws.rt` says that the sum is that of the whole list, in any order.
#![tactic(auto)]

mod laws;
mod part;
mod sum;

pub use laws::{adding_sums_the_list, joining_adds, order_leaves_no_trace};
pub use part::Part;
pub use sum::Sum;
