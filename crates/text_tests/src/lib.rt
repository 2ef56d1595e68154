//! Tests of the crates that read and write texts, over their public calls.
//!
//! A crate with tests is proved twice, so tests have a crate of their own for each layer. There is one file for each crate that
//! is tested: `records` for `record_text`, `commands` for `log_codec`, `bundles` and `bundle_readers` for `bundle_frames`,
//! `tagged_texts` for `receipts`, `sealed` for `seals`, `evidence_lines` for `receipt_lines`, `reports` for `report_text`, `summaries` for
//! `load_summary`, `signed_lines` for what `script_text` signs by `client_requests`, `words` for `program_words`, `rewriting` for `slot_rewriting` and `free_numbers`, `waiting` for `operation_queue`
//! and `slice_queue`, and `bundles_as_rows` for `bundle_rows`. A table is one text, a row a line, which is read as the test runs, and bytes stand in it as hexadecimal
//! digits: begin at `rows`.
#![tactic(auto)]

#[cfg(test)]
mod bundle_readers;
#[cfg(test)]
mod bundles;
#[cfg(test)]
mod bundles_as_rows;
#[cfg(test)]
mod commands;
#[cfg(test)]
mod evidence_lines;
#[cfg(test)]
mod records;
#[cfg(test)]
mod reports;
#[cfg(test)]
mod rewriting;
#[cfg(test)]
mod rows;
#[cfg(test)]
mod sealed;
#[cfg(test)]
mod signed_lines;
#[cfg(test)]
mod summaries;
#[cfg(test)]
mod tagged_texts;
#[cfg(test)]
mod waiting;
#[cfg(test)]
mod words;
