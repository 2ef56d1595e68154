//! An index of paths: marks in the order of their paths, each with a number that says where something of its path lies.
//!
//! A path is found by halving, and a search can be counted. Marks lie in blocks, so that one comes in or goes out by moving
//! few others. All memory is taken when an index is made. The crate stands on `tree_keys` for paths and on `base_words` for
//! want of memory. Begin with `Index` in `index.rt`, beside `specs/Index.antt`, then `searching.rt`.
#![tactic(auto)]

mod index;
mod searching;
mod steps;

pub use index::{Index, Mark};
pub use searching::{Hint, hint_of, order, search, search_near, search_uncounted};
pub use steps::Steps;
