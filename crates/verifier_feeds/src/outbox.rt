//! The worker's end of a feed.
ghost use Rattle.std.specs.Prelude.{◌≡◌, length};
ghost use Rattle.verifier_feeds.specs.Parcels.{SendsEnough, SendsShort, bytes_by};

use base_words::Memory;
use host_log::LogBuffer;
use log_rings::{Parcel, Sender};
use std::alloc::Global;

/// From so many bytes on a parcel is sent before the end of the round.
const LEAST_PARCEL: usize = 4_096;

/// No parcel has more bytes.
const LONGEST_PARCEL: usize = 65_536;

/// What a worker has sent of its log on the way to its verifier: the end of the lane, and how many bytes of the log it sent. Only a
/// worker's last parcel of the round may be short. One place in the lane is kept for that one.
#[derive(Drop)]
pub struct Outbox {
    pub(crate) sender: Sender,
    // So many bytes of the log were sent: its first ones.
    pub(crate) sent: usize,
    // The number of the next parcel.
    pub(crate) parcels: u64,
    ghost counted: { sent ≡ length (bytes_by sender) },
    ghost enough: { SendsEnough sender },
    ghost short: { SendsShort sender },
}

impl Outbox {
    ghost use Rattle.std.specs.Prelude.{◌≡◌, ◌+◌, ◌-◌, ◌≤◌, false, min, length, OnOk, OnErr};
    ghost use Rattle.verifier_feeds.specs.Feeds.{sent_bytes, free_room, AreLongEnough, AreShortEnough, EndsMarked, HasEnded, HasSentFrontOf, KeepsPlace, SameOutbox, WaitsForRoom};

    /// Sends what the log has beyond what was sent, in parcels of 4,096 to 65,536 bytes, while there is room beyond the place that is
    /// kept for the last of the round. The log is the one of which a front was sent. For want of memory some of it may have been sent.
    pub fn offer(&mut self, alloc: Global, log: &[u8]) -> Result<(), Memory>
        requires front { HasSentFrontOf self.old log.now }
        requires place { KeepsPlace self.old }
        ensures front { HasSentFrontOf self.new log.now }
        ensures place { KeepsPlace self.new }
        ensures waits { OnOk result (WaitsForRoom self.new log.now) }
        ensures enough { AreLongEnough self.new }
        ensures short { AreShortEnough self.new }
        ensures lane { SameOutbox self.old self.new }
    {
        while log.len() - self.sent >= LEAST_PARCEL && self.sender.room() > 1 {
            self.send_piece(alloc, log, false)?;
        }
        Ok(())
    }

    /// Sends one last parcel of what the log has beyond what was sent, of 65,536 bytes at most, marked as the worker's last of the
    /// round. What is beyond that stays for `settle`. For want of memory nothing more is sent.
    pub fn end(&mut self, alloc: Global, log: &[u8]) -> Result<(), Memory>
        requires front { HasSentFrontOf self.old log.now }
        requires place { KeepsPlace self.old }
        ensures front { HasSentFrontOf self.new log.now }
        ensures ended { OnOk result (HasEnded self.new) }
        ensures sent { OnOk result (length (sent_bytes self.new) ≡ min (length log.now) (length (sent_bytes self.old) + 65536)) }
        ensures as_before { OnErr result (sent_bytes self.new ≡ sent_bytes self.old) }
        ensures enough { AreLongEnough self.new }
        ensures short { AreShortEnough self.new }
        ensures lane { SameOutbox self.old self.new }
    {
        self.send_piece(alloc, log, true)
    }

    // Sends one parcel of what the log has beyond what was sent: of all of it, or of 65,536 bytes.
    fn send_piece(&mut self, alloc: Global, log: &[u8], last: bool) -> Result<(), Memory>
        requires front { HasSentFrontOf self.old log.now }
        requires room { KeepsPlace self.old }
        requires enough { last ≡ false → 4096 ≤ length log.now - length (sent_bytes self.old) }
        ensures front { HasSentFrontOf self.new log.now }
        ensures marked { OnOk result (EndsMarked self.new last) }
        ensures sent { OnOk result (length (sent_bytes self.new) ≡ min (length log.now) (length (sent_bytes self.old) + 65536)) }
        ensures room { OnOk result (free_room self.old ≡ free_room self.new + 1) }
        ensures as_before { OnErr result (self.new ≡ self.old) }
        ensures lane { SameOutbox self.old self.new }
    {
        let end = self.sent + (log.len() - self.sent).min(LONGEST_PARCEL);
        let parcel = Parcel {
            number: self.parcels,
            buffer: LogBuffer::of(alloc, &log[self.sent..end])?,
            last,
        };
        self.sender.send(parcel);
        self.parcels = self.parcels.saturating_add(1);
        self.sent = end;
        Ok(())
    }
}
