//! The host's records: a shard has those below one path, its frontier.
//!
//! The crate stands on `tree_keys`, `lamport_clocks`, `record_text` and `merkle_records`. Begin with `Shard` in
//! `shard.rt` and `Content` in `content.rt`, then `chain` in `chains.rt`: the paths from a frontier to a key, as
//! `specs/Chain.antt` says. `specs/Mirrors.antt` says when a shard is what the verifiers hold of it.
#![tactic(auto)]

mod chains;
mod changing;
mod content;
mod link;
mod record;
mod records;
mod rehashing;
mod shard;
mod touched;
mod waiting;

pub use chains::{chain, end_path, ends_new, known_links, last_value};
pub use content::{Content, HotRecord};
pub use link::Link;
pub use record::Record;
pub use records::Records;
pub use shard::Shard;
