//! The verifier's end of a feed.
ghost use Rattle.std.specs.Prelude.{◌≡◌, ◌<◌, ◌^◌};

use base_words::Memory;
use certified_epochs::FedRun;
use fv_outside::Gate;
use host_rounds::with_more;
use log_rings::Receiver;
use record_hash::Digests;
use record_text::Operation;
use std::sync::Wait;
use std::sync::atomic::AtomicU64;
use std::thread::yield_now;
use std::time::Duration;
use verifier_run::pieces_do_not_matter;

/// So many polls in a row that find nothing end a verifier's watch.
const MOST_EMPTY_POLLS: u32 = 1_024;

/// After so many polls in a row that find nothing a verifier rests between polls.
const BUSY_EMPTY_POLLS: u32 = 16;

/// So many microseconds it rests.
const REST: u64 = 50;

/// A verifier's run, with the end of the lane from which it is fed, and whether memory was wanting for it.
#[derive(Drop)]
pub struct Inbox {
    pub(crate) receiver: Receiver,
    pub(crate) fed: FedRun,
    // So many bytes at most were fed to the run in all.
    pub(crate) bytes: u64,
    // So many parcels its verifier took from lanes and fed, up to the last number of 64 bits.
    pub(crate) parcels: u64,
    pub(crate) wanting: bool,
    ghost fits: { parcels < 2 ^ 64 },
}

impl Inbox {
    ghost use Rattle.std.specs.Prelude.{◌≡◌, [], length, true, false, IfOk, OnOk, OnErr};
    ghost use Rattle.log_rings.specs.Lanes.{received_by, waiting};
    ghost use Rattle.verifier_feeds.specs.Feeds.{HasRoom, SameInbox, HasRead, GoesOnBy, ReadsOn, bytes_of, counted_on, parcels_of, run_of, is_wanting};

    /// Feeds the run what comes through the lane, until that is its worker's last parcel of the round, or until 1,024 polls in a
    /// row found nothing. It counts what comes. Before each poll it enters the gate, by this number and with its count so far. From
    /// the 16th poll in a row that found nothing on it rests for 50 microseconds after each.
    pub fn watch<R: Wait, D: Digests, G: Gate>(&mut self, rt: &R, d: &D, gate: &G, number: u16)
        requires room { HasRoom self.old }
        requires fresh { received_by self.old.receiver ≡ [] }
        ensures room { HasRoom self.new }
        ensures lane { SameInbox self.old self.new }
        ensures counted { parcels_of self.new ≡ counted_on (parcels_of self.old) (received_by self.new.receiver) }
        ensures read { is_wanting self.new ≡ false
            → HasRead (D.functions d.now) (bytes_of (received_by self.new.receiver)) (run_of self.old) (run_of self.new) }
    {
        pieces_do_not_matter::<Operation>();
        let mut empty_polls = 0;
        for _ in rt.forever() {
            if empty_polls >= MOST_EMPTY_POLLS {
                return;
            }
            gate.enter(number, self.parcels);
            match self.receiver.poll() {
                Some(parcel) => {
                    self.parcels = self.parcels.saturating_add(1);
                    self.feed(d, parcel.buffer.bytes());
                    if parcel.last {
                        return;
                    }
                    empty_polls = 0;
                }
                None => {
                    empty_polls += 1;
                    rest(rt, empty_polls);
                }
            }
        }
        unreachable!()
    }

    /// Feeds the run so many parcels that are known to wait in the lane.
    pub(crate) fn feed_left<D: Digests>(&mut self, d: &D, left: usize)
        requires room { HasRoom self.old }
        requires left { left ≡ length (waiting self.old.receiver) }
        ensures room { HasRoom self.new }
        ensures count { parcels_of self.new ≡ parcels_of self.old }
        ensures read { ReadsOn (D.functions d.now) (bytes_of (waiting self.old.receiver)) self.old self.new }
    {
        pieces_do_not_matter::<Operation>();
        for _ in 0..left {
            let parcel = self.receiver.next();
            self.feed(d, parcel.buffer.bytes());
        }
    }

    /// Feeds the run a piece of its log, where memory isn't wanting.
    pub(crate) fn feed<D: Digests>(&mut self, d: &D, piece: &[u8])
        requires room { HasRoom self.old }
        ensures room { HasRoom self.new }
        ensures lane { self.new.receiver ≡ self.old.receiver }
        ensures count { parcels_of self.new ≡ parcels_of self.old }
        ensures goes_on { is_wanting self.new ≡ false → GoesOnBy (D.functions d.now) piece.now self.old self.new }
    {
        if self.wanting {
            return;
        }
        match with_more(self.bytes, piece.len()) {
            Ok(bytes) => {
                self.fed.feed(d, piece);
                self.bytes = bytes;
                self.wanting = self.fed.is_starved;
            }
            Err(_) => self.wanting = true,
        }
    }

    /// How many parcels its verifier took from lanes and fed, with those that it had counted before this feed was opened.
    pub fn parcels(&self) -> u64
        ensures value { result ≡ parcels_of self.now }
    {
        self.parcels
    }

    /// The run, where memory was not wanting for it.
    pub fn into_run(self) -> Result<FedRun, Memory>
        ensures run { IfOk result (λ run. run ≡ run_of self) }
        ensures fed { OnOk result (is_wanting self ≡ false) }
        ensures wanting { OnErr result (is_wanting self ≡ true) }
    {
        if self.wanting {
            Err(Memory)
        } else {
            Ok(self.fed)
        }
    }
}

// Lets other threads go first, after so many polls in a row that found nothing. From the 16th on it rests for 50 microseconds: a
// thread that only yields keeps a processor busy, which the worker may want. Nobody wakes it, since nobody else has the word.
fn rest<R: Wait>(rt: &R, empty_polls: u32) {
    if empty_polls < BUSY_EMPTY_POLLS {
        yield_now();
    } else {
        AtomicU64::new(0).park_timeout(rt, 0, Duration::from_micros(REST));
    }
}
