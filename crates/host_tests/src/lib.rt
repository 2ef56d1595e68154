//! Tests of the host's crates, over their public calls.
//!
//! A crate with tests is proved twice, so tests have a crate of their own for each layer. `scripts` and `loads` are of
//! `script_text`, `logs` of `host_log`, `chains` of `host_shard`, `plans` and `setups` of `host_plan`, `moves` and
//! `closes` of `protection_moves`, with the rows of `close_rows`, and `worlds` and `rounds` of `host_world`. A table is one text, a row
//! a line, which is read as the test runs: begin at `rows`, and at `shards` for a host of two shards.
#![tactic(auto)]

#[cfg(test)]
mod chains;
#[cfg(test)]
mod close_rows;
#[cfg(test)]
mod closes;
#[cfg(test)]
mod loads;
#[cfg(test)]
mod logs;
#[cfg(test)]
mod moves;
#[cfg(test)]
mod plans;
#[cfg(test)]
mod rounds;
#[cfg(test)]
mod rows;
#[cfg(test)]
mod scripts;
#[cfg(test)]
mod setups;
#[cfg(test)]
mod shards;
#[cfg(test)]
mod worlds;
