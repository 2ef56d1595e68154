//! What a table of records tells of a phase, or of a round through several epochs, was one list of events of the shipped host.
//!
//! `host_table` says what is known of a phase once its table is closed, and `host_epochs` of a round: histories of places, lists of
//! workers, and where clocks ended. `host_order` and `round_order` say of any host when what places and workers tell was one list
//! of events, and `host_fits` and `round_fits` say what the shipped host does. Here these are joined; and what a world lends at
//! rest, or where all that waits is of one epoch, can be made such a table. And what a table's rule says of services and scans is
//! carried to the contents: those of a table made of contents that mirror do so too. The crate has no code to run. Begin with
//! `laws.rt`, `round_laws.rt` and `mirror_laws.rt`, then read `specs/` in the order of its `Lib.antt`.
#![tactic(auto)]

mod laws;
mod mirror_laws;
mod round_laws;

pub use laws::{
    a_making_of_a_world_mirrors, a_phase_of_a_table_has_one_order, contents_of_a_table_mirror,
    services_are_what_the_host_does, tables_tell_of_a_phase, worlds_make_tables,
};
pub use mirror_laws::{a_making_of_a_round_mirrors, contents_of_a_round_mirror};
pub use round_laws::{
    a_round_of_a_table_has_one_order, a_round_of_one_epoch_is_a_phase, tables_tell_of_a_round,
    worlds_make_rounds,
};
