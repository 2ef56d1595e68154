//! Tests of `fastver run`, `gen`, `accept` and `sign`, over `fastver` of `fastver_top`: scripts, their reports, what the vault then
//! holds, and receipts as the program writes and takes them.
//!
//! What each script must come to was worked out by hand, or comes from the slow program. `script_tests.rt` has scripts that
//! are served, scripts that are bad, and clocks that end; `worker_tests.rt` scripts of many workers, and `hot_tests.rt` such
//! with hot keys; `rolling_tests.rt` such in rolling epochs; `format_tests.rt` runs that write bundles of versions 2 and 3;
//! `follow_tests.rt` vaults that are followed; `absence_tests.rt` runs that make no records of keys that were never put; `feed_tests.rt` verifiers that are fed beside their
//! workers; `load_tests.rt` loads that are made of a seed; `fault_tests.rt` has objects that fail, one call after the other,
//! and objects that never do, of which `sure_objects.rt` proves that no fault comes of them; `round_fault_tests.rt` objects that
//! fail in a later round or in a load; `run_word_tests.rt` has words that are refused. Begin with `serving.rt`, which runs a
//! script.
//!
//! Of receipts, `receipt_tests.rt` has reports with them, `evidence_tests.rt` what a receipt and a certificate come to, whole or
//! changed, `receipt_fault_tests.rt` objects that fail, and such that never do, and `receipt_word_tests.rt` words that are
//! refused. `signing_tests.rt` has the requests that a client signs. `asking.rt` asks the program, and has the reports whose lines these files hand in. What is written comes from the
//! slow program, `tools/slow/fastver.py`, as do the numbers of the bits that make a text none.
#![tactic(auto)]

#[cfg(test)]
mod absence_tests;
#[cfg(test)]
mod asking;
#[cfg(test)]
mod counting_gate;
#[cfg(test)]
mod evidence_tests;
#[cfg(test)]
mod fault_tests;
#[cfg(test)]
mod feed_tests;
#[cfg(test)]
mod follow_tests;
#[cfg(test)]
mod format_tests;
#[cfg(test)]
mod holding_gate;
#[cfg(test)]
mod hot_tests;
#[cfg(test)]
mod load_tests;
#[cfg(test)]
mod receipt_fault_tests;
#[cfg(test)]
mod receipt_tests;
#[cfg(test)]
mod receipt_word_tests;
#[cfg(test)]
mod rolling_tests;
#[cfg(test)]
mod round_fault_tests;
#[cfg(test)]
mod run_word_tests;
#[cfg(test)]
mod script_tests;
#[cfg(test)]
mod serving;
#[cfg(test)]
mod signing_tests;
#[cfg(test)]
mod sure_objects;
#[cfg(test)]
mod worker_tests;
