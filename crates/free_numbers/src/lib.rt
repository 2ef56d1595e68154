//! Numbers below a bound, each free or taken, and the lowest free one.
//!
//! A contract sees a `FreeNumbers` as a list that says of each number whether it is free. All memory is taken when
//! it is made. The lowest free number is known at once, and to take a number or to give one back takes as many steps as a
//! tree over the numbers is high. The crate stands on `base_words` for want of memory. Begin with `specs/Free.antt`,
//! then `FreeNumbers` in `numbers.rt`.
#![tactic(auto)]

mod numbers;
mod tree;

pub use numbers::FreeNumbers;
