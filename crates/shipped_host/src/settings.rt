//! The numbers of a host.
use lamport_clocks::Header;

/// The numbers that a host is given.
#[derive(Clone, Copy, Debug, PartialEq, Eq)]
pub struct Settings {
    /// What its bundle begins with.
    pub header: Header,
    /// How many shards it has: a power of two from 2 to 1,024.
    pub shards: u32,
    /// How often a key is touched in an epoch, at least, so that it becomes hot at its close: once or more. Without it no key
    /// does.
    pub hot: Option<u32>,
    /// Whether a get of a key that was never put makes no record of it.
    pub absent: bool,
    /// Whether all phases are served in one round, in which each worker goes on to the next epoch without waiting for a phase's
    /// end. No key becomes hot then.
    pub rolling: bool,
}
