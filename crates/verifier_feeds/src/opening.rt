//! A feed is opened.
ghost use Rattle.std.specs.Prelude.{◌≡◌, ◌≤◌, IfOk};
ghost use Rattle.verifier_run.specs.Progress.{weight};
ghost use Rattle.verifier_feeds.specs.Feeds.{IsOpen, parcels_of};

use crate::inbox::Inbox;
use crate::outbox::Outbox;
use base_words::Memory;
use certified_epochs::FedRun;
use log_rings::Lane;
use std::alloc::Global;

/// A lane holds so many parcels: 16, and a place that is kept for the last of the round.
const LANE_CAPACITY: usize = 17;

/// Opens the feed of a run that was fed so many bytes at most: a lane of 17 parcels, with nothing in it, and its two ends. The
/// verifier goes on with this count of parcels.
pub fn open(alloc: Global, run: FedRun, bytes: u64, parcels: u64) -> Result<(Outbox, Inbox), Memory>
    requires few { weight run.run ≤ bytes }
    ensures open { IfOk result (λ ends. IsOpen run ends.0 ends.1) }
    ensures count { IfOk result (λ ends. parcels_of ends.1 ≡ parcels) }
{
    let (sender, receiver) = Lane::new(alloc, LANE_CAPACITY)?;
    let outbox = Outbox {
        sender,
        sent: 0,
        parcels: 0,
    };
    let inbox = Inbox {
        receiver,
        fed: run,
        bytes,
        parcels,
        wanting: false,
    };
    Ok((outbox, inbox))
}
