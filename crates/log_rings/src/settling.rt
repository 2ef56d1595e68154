//! A lane as a whole: it is made, and its two ends come together again.
ghost use Rattle.std.specs.Prelude.{◌≡◌, ◌-◌, ◌^◌, [], ◌++◌, length, min, IfOk};
ghost use Rattle.log_rings.specs.Lanes.{sent, room, received_by, waiting, AreEnds, SameSender, SameReceiver};

use crate::lane::{Receiver, Sender};
use base_words::Memory;
use rtrb::RingBuffer;
use std::alloc::Global;

/// A way for parcels from one thread to one other. Its two ends are a `Sender` and a `Receiver`.
pub struct Lane;

/// What became of all that was sent.
#[derive(Clone, Copy, Debug, PartialEq, Eq)]
pub struct Settled {
    /// How many parcels were received, up to the last number of 64 bits.
    pub received: u64,
    /// How many are left over: `Receiver::next` gives them.
    pub left: usize,
}

impl Lane {
    /// A lane with room for so many parcels. It takes all its memory here.
    pub fn new(alloc: Global, capacity: usize) -> Result<(Sender, Receiver), Memory>
        ensures ends { IfOk result (λ lane. AreEnds lane.0 lane.1) }
        ensures sender { IfOk result (λ lane. (sent lane.0 ≡ []) × (room lane.0 ≡ capacity)) }
        ensures receiver { IfOk result (λ lane. (received_by lane.1 ≡ []) × (waiting lane.1 ≡ [])) }
    {
        let (producer, consumer) = RingBuffer::new(alloc, capacity)?;
        let sender = Sender { ring: producer };
        let receiver = Receiver {
            ring: consumer,
            count: 0,
        };
        Ok((sender, receiver))
    }

    /// Looks at both ends of a lane in one thread. What was received and then what is left over, which the receiver
    /// knows from now on, are what was sent, in order.
    pub fn settle(sender: &mut Sender, receiver: &mut Receiver) -> Settled
        requires ends { AreEnds sender.old receiver.old }
        ensures all { received_by receiver.new ++ waiting receiver.new ≡ sent sender.new }
        ensures sent { sent sender.new ≡ sent sender.old }
        ensures received { received_by receiver.new ≡ received_by receiver.old }
        ensures counts { (result.received ≡ min (length (received_by receiver.new)) (2 ^ 64 - 1))
            × (result.left ≡ length (waiting receiver.new)) }
        ensures ends { AreEnds sender.new receiver.new × SameSender sender.old sender.new
            × SameReceiver receiver.old receiver.new }
    {
        let left = receiver.ring.slots_beside(&mut sender.ring);
        Settled {
            received: receiver.count,
            left,
        }
    }
}
