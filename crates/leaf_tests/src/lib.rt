//! Tests of the crates that stand on no other crate of the repository, over their public calls.
//!
//! A crate with tests is proved twice, so tests have a crate of their own for each layer. There is one file
//! for each crate that is tested: `paths` for `tree_keys`, `clocks` for `lamport_clocks`, `digests` for
//! `record_hash`, `eights` for its answers to eight texts at once, `lanes` for `lane_sha`, `sums` for `multiset_sum`, and `objects` and `counters` for `fv_outside`. A table is one text, a row a line,
//! which is read as the test runs: begin at `rows`.
#![tactic(auto)]

#[cfg(test)]
mod clocks;
#[cfg(test)]
mod counters;
#[cfg(test)]
mod digests;
#[cfg(test)]
mod eights;
#[cfg(test)]
mod lanes;
#[cfg(test)]
mod objects;
#[cfg(test)]
mod paths;
#[cfg(test)]
mod rows;
#[cfg(test)]
mod sums;
