//! The words that every other crate may use, and that need nothing else.
//!
//! A machine's step is stated as tests in order, of which the first that is met refuses (`specs/Steps.antt`), an answer
//! together with the state after it (`specs/Follows.antt`), and commands one after another (`specs/Traced.antt`);
//! `proofs/StepLaws.antt` has what the crates above cite of them. `Memory` is want of memory, the one error that any
//! call which allocates may answer. `numbers.rt` has the ranges of numbers as laws. The crate stands on std alone.
#![tactic(auto)]

mod memory;
mod numbers;

pub use memory::Memory;
pub use numbers::{
    a_number_of_16_bits_is_below, a_number_of_32_bits_is_below, a_number_of_64_bits_is_below,
};
