//! Tests of what several threads use at once, over its public calls.
//!
//! There is one file for each crate that is tested: `lanes` for `log_rings`, `books` for `epoch_book`. Threads run in any
//! order, and one after another where no thread can be made: each test ends and finds the same all the same.
#![tactic(auto)]

#[cfg(test)]
mod books;
#[cfg(test)]
mod lanes;
