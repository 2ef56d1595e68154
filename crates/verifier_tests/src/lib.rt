//! Tests of the crates from a node of the tree up to the one order of all verifiers, over their public calls.
//!
//! A crate with tests is proved twice, so tests have a crate of their own for each layer. There is one file
//! for each crate that is tested: `nodes` for `merkle_records`, `caches` and `look_ups` for `verifier_cache`,
//! `steps`, `slots` and `absences` for `verifier_commands`, `runs` for `verifier_run`, `verdicts` for `epoch_gather` and `orders` for
//! `stamp_order`. A table is one text, a row a line, which is read as the test runs: begin at `rows`.
#![tactic(auto)]

#[cfg(test)]
mod absences;
#[cfg(test)]
mod caches;
#[cfg(test)]
mod look_ups;
#[cfg(test)]
mod nodes;
#[cfg(test)]
mod orders;
#[cfg(test)]
mod rows;
#[cfg(test)]
mod runs;
#[cfg(test)]
mod slots;
#[cfg(test)]
mod steps;
#[cfg(test)]
mod verdicts;
