//! The bounded cache of a verifier: the records that stand in it, and how each came in.
//!
//! A contract sees a `Cache` as a list of entries, no path in two of them, and the most that it may hold;
//! an entry is a record with its path, how it came in, and which of its children stand in the cache under
//! it. All memory is taken when a cache is made. The crate stands on `tree_keys`, `record_text` and
//! `path_index`. Begin with `Entry` in `entry.rt`, then `specs/Cache.antt` and `Cache` in `cache.rt`;
//! `laws.rt` says what is found after an entry came in, went out or was changed. Where commands name slots, a
//! cache is a `SlotCache`, in `slots.rt`: a list of slots, each empty or with one entry.
//! Each of both lists its entries, and is made again from them.
#![tactic(auto)]

mod cache;
mod entry;
mod laws;
mod listed;
mod slots;
mod table;

pub use cache::Cache;
pub use entry::{Entry, Hold};
pub use laws::{
    changing_keeps_the_others, entries_are_found_by_their_paths, inserting_adds_one_entry,
    removing_takes_one_entry, replacing_changes_one_entry, rising_paths_are_distinct,
    setting_a_kid_bit_keeps_the_other, slots_are_made_again,
};
pub use listed::ListedEntry;
pub use path_index::{Hint, Steps};
pub use slots::SlotCache;
