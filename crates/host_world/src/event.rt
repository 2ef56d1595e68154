//! The events of a world.
use record_text::{Element, Request};

/// One atomic action of a worker. Workers are named by their numbers; a place by its number, and in `Move` a shard by its. The last
/// five are of a rolling host.
#[derive(Debug, Drop)]
pub enum Event {
    /// The worker takes the place.
    Take(u16, u32),
    /// The worker finds the place held.
    Lose(u16, u32),
    /// The worker serves the request at the place that it holds.
    Serve(u16, u32, Request),
    /// The worker gives the place back.
    Give(u16, u32),
    /// The worker goes to the next epoch.
    Next(u16),
    /// The worker moves the shard.
    Move(u16, u32),
    /// The next phase begins.
    Open,
    /// The worker lets all go on to the epoch behind its own.
    Raise(u16),
    /// The worker goes on to the next epoch, in its round.
    Enter(u16),
    /// The worker takes the shard at the place that it holds into its epoch.
    Scan(u16, u32),
    /// The worker notes that all of its shards are of its epoch.
    Finish(u16),
    /// The worker stops, its clock having ended by itself or at the element.
    Stop(u16, Option<Element>),
}
