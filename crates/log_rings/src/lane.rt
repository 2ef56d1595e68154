//! The two ends of a lane. Each may go to a thread of its own, and neither waits for the other.
ghost use Rattle.std.specs.Prelude.{◌≡◌, ◌-◌, ◌^◌, length, min};
ghost use Rattle.rtrb.specs.Ring.{received};

use crate::parcel::Parcel;
use rtrb::{Consumer, Producer, PushError};

/// The end that sends.
#[derive(Drop)]
pub struct Sender {
    pub(crate) ring: Producer<Parcel>,
}

/// The end that receives. It counts what it received, up to the last number of 64 bits.
#[derive(Drop)]
pub struct Receiver {
    pub(crate) ring: Consumer<Parcel>,
    pub(crate) count: u64,
    ghost counted: { count ≡ min (length (received ring)) (2 ^ 64 - 1) },
}

impl Sender {
    ghost use Rattle.std.specs.Prelude.{◌≡◌, ◌+◌, ◌<◌, ◌≤◌, [], ◌∷◌, ◌++◌, IsNone, IfNone, IfSome};
    ghost use Rattle.log_rings.specs.Lanes.{sent, room, SameSender};

    /// Sends a parcel, or hands it back where this end knows of no room.
    pub fn offer(&mut self, parcel: Parcel) -> Option<Parcel>
        ensures lane { SameSender self.old self.new }
        ensures taken { IfNone result ((sent self.new ≡ sent self.old ++ parcel ∷ [])
            × (room self.old ≤ room self.new + 1)) }
        ensures back { IfSome result (λ back. (back ≡ parcel)
            × (sent self.new ≡ sent self.old) × (room self.new ≡ 0)) }
        ensures known { 0 < room self.old → IsNone result }
    {
        match self.ring.push(parcel) {
            Ok(()) => None,
            Err(PushError::Full(parcel)) => Some(parcel),
        }
    }

    /// For how many parcels this end knows of room, once it has looked. The other end may make more at any time.
    pub fn room(&mut self) -> usize
        ensures lane { SameSender self.old self.new }
        ensures sent { sent self.new ≡ sent self.old }
        ensures room { result ≡ room self.new }
        ensures known { room self.old ≤ room self.new }
    {
        self.ring.slots()
    }

    /// Sends a parcel where there is known to be room.
    pub fn send(&mut self, parcel: Parcel)
        requires room { 0 < room self.old }
        ensures lane { SameSender self.old self.new }
        ensures sent { sent self.new ≡ sent self.old ++ parcel ∷ [] }
        ensures room { room self.old ≡ room self.new + 1 }
    {
        self.ring.push_reserved(parcel);
    }
}

impl Receiver {
    ghost use Rattle.std.specs.Prelude.{◌≡◌, ◌<◌, [], ◌∷◌, ◌++◌, length, IsSome, IfNone, IfSome};
    ghost use mathlib.Core.List.{IsPrefix};
    ghost use Rattle.log_rings.specs.Lanes.{received_by, waiting, SameReceiver};

    /// The oldest parcel that wasn't received yet, or none where this end knows of none, once it has looked.
    pub fn poll(&mut self) -> Option<Parcel>
        ensures lane { SameReceiver self.old self.new }
        ensures some { IfSome result (λ parcel. (received_by self.new ≡ received_by self.old ++ parcel ∷ [])
            × IsPrefix (waiting self.old) (parcel ∷ waiting self.new)) }
        ensures none { IfNone result ((received_by self.new ≡ received_by self.old) × (waiting self.new ≡ [])) }
        ensures known { 0 < length (waiting self.old) → IsSome result }
    {
        match self.ring.pop() {
            Ok(parcel) => {
                self.count = self.count.saturating_add(1);
                Some(parcel)
            }
            Err(_) => None,
        }
    }

    /// The oldest parcel that waits, where one is known to.
    pub fn next(&mut self) -> Parcel
        requires waiting { 0 < length (waiting self.old) }
        ensures lane { SameReceiver self.old self.new }
        ensures received { received_by self.new ≡ received_by self.old ++ result ∷ [] }
        ensures waiting { waiting self.old ≡ result ∷ waiting self.new }
    {
        let parcel = self.ring.pop_known();
        self.count = self.count.saturating_add(1);
        parcel
    }
}
