//! The two ends of a feed come together again.
ghost use Rattle.std.specs.Prelude.{◌≡◌, false};
ghost use Rattle.certified_epochs.specs.declared.fed_run.FedRun.{FedRun};
ghost use Rattle.log_rings.specs.Lanes.{received_by};
ghost use Rattle.host_rounds.specs.Feeding.{Reads};
ghost use Rattle.verifier_feeds.specs.Feeds.{AreEndsOfOne, HasRoom, HasRead, HasSentFrontOf, bytes_of, is_wanting, parcels_of, run_of};

use crate::inbox::Inbox;
use crate::outbox::Outbox;
use log_rings::Lane;
use record_hash::Digests;

/// Feeds the run what is left of the worker's log: what is in the lane, and then what wasn't sent. The verifier didn't take these, so
/// they aren't counted.
pub fn settle<D: Digests>(outbox: &mut Outbox, inbox: &mut Inbox, log: &[u8], d: &D)
    requires ends { AreEndsOfOne outbox.old inbox.old }
    requires room { HasRoom inbox.old }
    requires front { HasSentFrontOf outbox.old log.now }
    ensures all { (first : FedRun)
        → (is_wanting inbox.old ≡ false → HasRead (D.functions d.now) (bytes_of (received_by inbox.old.receiver)) first (run_of inbox.old))
        → is_wanting inbox.new ≡ false
        → Reads (D.functions d.now) log.now first (run_of inbox.new) }
    ensures room { HasRoom inbox.new }
    ensures count { parcels_of inbox.new ≡ parcels_of inbox.old }
{
    let settled = Lane::settle(&mut outbox.sender, &mut inbox.receiver);
    inbox.feed_left(d, settled.left);
    inbox.feed(d, &log[outbox.sent..]);
}
