//! The one order of what several verifiers did, and whether one plain map answers it.
//!
//! A moment is a clock, a verifier and the number of a command in its log. The merged order goes by the
//! moments, clocks first (Lamport 1978), and keeps the order of each verifier. It is defined for any list
//! whose members have moments, in `specs/Merged.antt`; `laws.rt` says what it does, `merge` makes it of
//! operations, and a `Merger` hands out those of lists that stand in order each, one at a time, without a copy.
//! `specs/Serial.antt` says when operations are serial: each get answers the last put to its key; `is_serial`
//! tests it by a `PlainMap`.
//!
//! The crate stands on `record_text` for operations, on `operation_queue` for lists of them, on `lamport_clocks` for
//! stamps, and on std's stable sort and ordered map. Begin with `Moment` in `moment.rt` and `merge` in `merging.rt`.
#![tactic(auto)]

mod headed;
mod laws;
mod merger;
mod merging;
mod moment;
mod plain_map;
mod serial;

pub use laws::{
    merged_order_is_one, merging_goes_by_parts, merging_keeps_what_is_in_order, merging_sorts,
    moments_are_ordered,
};
pub use merger::Merger;
pub use merging::merge;
pub use moment::Moment;
pub use plain_map::PlainMap;
pub use serial::is_serial;
