//! What a check makes of the logs of the shipped host: it reads what the host logged, refuses nothing, ends as the host
//! promises, and finds nothing to show; and the host's contents hold what it certifies. And each log comes to rest, so that
//! what is logged next is written as a log of its own.
//!
//! `host_fits` says what holds of the host's world, and `bundle_report` what a check answers to bytes. Here both are
//! joined: the bytes are those that the commands of the world are written as, by path or by slot. The crate has no code to
//! run. Begin with `laws.rt`, then read `specs/Runs.antt`.
#![tactic(auto)]

mod laws;

pub use laws::{
    a_check_finds_nothing_to_show, a_check_finds_what_the_script_asks,
    a_check_of_the_logs_ends_as_the_host_promises, a_check_reads_what_the_host_logged,
    logs_come_to_rest, logs_of_no_bytes_certify_nothing, the_contents_hold_what_a_check_certifies,
};
