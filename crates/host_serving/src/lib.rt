//! How a host serves a script, as events of its world: what a phase comes to, and its closes.
//!
//! The crate stands on `host_world`, whose events a close chooses one by one. The phase itself is served by the workers in threads
//! (`worker_threads`), and `specs/Standing.antt` says what it comes to. `specs/Form.antt` says which events, in which order, a phase,
//! a close and a run are. Begin with `close_phase` in `closes.rt`, beside `specs/Leading.antt`, `specs/Form.antt` and
//! `specs/Standing.antt`.
#![tactic(auto)]

mod closes;

pub use closes::close_phase;
