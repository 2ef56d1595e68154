//! What a worker passes before each of its requests.

/// What a worker passes before each of its requests. Its caller numbers them from 0.
///
/// It may hold the worker back, and nothing else is known of it: a gate is how a test chooses
/// between interleavings.
pub trait Gate {
    fn enter(&self, worker: u16, request: u64);
}

/// A gate that holds nobody.
#[derive(Clone, Copy, Debug, Default, PartialEq, Eq)]
pub struct FreeGate;

impl Gate for FreeGate {
    fn enter(&self, _worker: u16, _request: u64) {}
}
