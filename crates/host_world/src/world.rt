//! Worlds.
ghost use Rattle.host_world.specs.Workers.{AreBegun};

use crate::seats::Seats;
use crate::worker::Worker;
use script_text::Requests;
use shipped_host::Settings;
use std::alloc::Global;

/// The world of a host, as the machine has it: the places of its shards and its workers.
#[derive(Drop)]
pub struct World<'a, D> {
    pub(crate) alloc: Global,
    pub(crate) d: &'a D,
    pub(crate) settings: Settings,
    pub(crate) requests: &'a Requests,
    pub(crate) shards: Vec<Seats>,
    pub(crate) workers: Vec<Worker>,
    pub(crate) phase: usize,
    pub(crate) closing: bool,
    pub(crate) over: bool,
    // Of a rolling host: the newest epoch that may be entered, and the epoch in which each worker has scanned all of its shards.
    pub(crate) newest: u32,
    pub(crate) scanned: Vec<u32>,
    // Each worker's log is one of its own, from the first command on.
    ghost begun: { AreBegun settings.header workers.items },
}
