//! Elements: what is evicted with a stamp and added back.
use crate::value::Value;
use lamport_clocks::Stamp;
use tree_keys::Path;

/// A record that waits outside the caches between a deferred evict and the add that takes it back
/// (Blum et al. 1994): its path and value, the stamp of the evict, and the verifier that evicted it.
#[derive(Clone, Debug, PartialEq, Eq, Drop)]
pub struct Element {
    pub path: Path,
    pub value: Value,
    pub stamp: Stamp,
    pub verifier: u16,
}
