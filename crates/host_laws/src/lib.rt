//! What the host's commands do to the verifier of their worker, and to what the host keeps: the verifier accepts them, they
//! do what the host meant, and what the host keeps stays what the verifiers hold of it.
//!
//! A run is a list of commands that are all accepted, with what each did (`Running.antt`). What comes in under a path's
//! entry and leaves again does the same whatever entries stand before that one; so a chain is gone down and up again by
//! induction on its links, and a setup by induction on its levels. That the digest of a record is the one that its
//! parent's pointer has is where mirroring is needed, and nothing else is asked of digests. A content mirrors where each
//! pointer of a shard leads to the record that it has the digest of, or to a hot key (`Mirrors` in `host_shard`); a request
//! that is served keeps it so, and new shards are so.
//!
//! The crate stands on `host_plan`, which says the commands, and on `verifier_commands` and `soundness`, which say what
//! the verifiers make of them; it has no code to run. Begin with `laws.rt` and `mirror_laws.rt`, then read `specs/` in the
//! order of its `Lib.antt`.
#![tactic(auto)]

mod laws;
mod mirror_laws;

pub use laws::{
    a_plan_runs, a_request_past_the_end_is_refused, a_run_is_the_history, the_setup_runs,
};
pub use mirror_laws::{a_plan_is_typed, a_plan_mirrors, new_shards_mirror};
