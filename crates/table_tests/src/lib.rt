//! Tests of the table of records, with workers in threads.
//!
//! `shards` has the contents, `turns` a worker in its thread, `table_workers` a table with its workers, `replaying` what is compared at
//! the end, and `phases` the tests. `round_workers` has a worker that goes on from epoch to epoch, `round_tables` a table with such
//! workers, and `rounds` their tests.
#![tactic(auto)]

#[cfg(test)]
mod phases;
#[cfg(test)]
mod replaying;
mod round_tables;
mod round_workers;
#[cfg(test)]
mod rounds;
mod shards;
mod table_workers;
mod turns;

pub use round_tables::{go_on, set_up_round};
pub use round_workers::{RoundEnd, RoundWorker};
pub use table_workers::{passed, set_up, worked};
pub use turns::{Served, Turn};
