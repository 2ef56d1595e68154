//! How a worker serves a request at the key's place.
ghost use Rattle.std.specs.Prelude.{◌≡◌, None};
ghost use Rattle.std.specs.List.{AllByRecursion};
ghost use Rattle.record_text.specs.Longest.{longest_blob};
ghost use Rattle.log_codec.specs.Command.{IsPathCommand};
ghost use Rattle.record_text.specs.Value.{IsBlob};
ghost use Rattle.host_plan.specs.declared.plans.Plan.{Plan};
ghost use Rattle.host_table.specs.declared.answers.Attempt.TheVariants.{Served};
ghost use Rattle.host_table.specs.Calls.{Attempts};
ghost use Rattle.host_table.specs.Hands.{IsFree, services, stop};
ghost use Rattle.host_table.specs.Table.{table, terms};
ghost use Rattle.host_table.specs.Terms.{IsClockOf, IsPlaceOf};
ghost use Rattle.host_table.specs.Told.{TakesUp};

use crate::answers::Attempt;
use crate::records::Records;
use host_epochs::{Hand, Taking};
use host_plan::{PlanFault, plan};
use lamport_clocks::Clock;
use record_hash::Digests;
use record_text::{Blob, Request};
use std::alloc::Global;

impl<D: Digests> Records<D> {
    /// Tries once to serve a request at the key's place, from the worker's clock. It is served; or the place's word was found
    /// held; or the counters that it takes pass their end at the content that was found, which the hand then notes, and
    /// serves no more; or memory was wanting. Only where it is served are content and clock other than before.
    pub fn attempt(
        &self,
        alloc: Global,
        d: &D,
        hand: &mut Hand,
        place: usize,
        request: &Request,
        clock: &mut Clock,
    ) -> Attempt
        requires digests { (D.functions d.now).digest ≡ (terms D.functions self.now).digest }
        requires place { IsPlaceOf (terms D.functions self.now) place request.now.key }
        requires free { IsFree (table self.now) hand.old }
        requires going { stop hand.old ≡ None }
        requires clock { IsClockOf (terms D.functions self.now) clock.old }
        requires chained { TakesUp (services hand.old) clock.old }
        ensures free { IsFree (table self.now) hand.new }
        ensures attempts { Attempts (terms D.functions self.now) hand.old place request.now clock.old result hand.new clock.new }
        ensures clock { IsClockOf (terms D.functions self.now) clock.new }
        ensures chained { TakesUp (services hand.new) clock.new }
        ensures typed { (made : Plan) → result ≡ Served made → AllByRecursion (IsPathCommand longest_blob) made.commands }
    {
        let mut content = match self.epochs.try_take(hand, place) {
            Taking::Taken(content) => content,
            Taking::Busy => return Attempt::Busy,
        };
        let before = clock.at();
        a_blob_has_at_most_255_bytes(&request.value);
        match plan(
            alloc,
            d,
            &mut content,
            request,
            hand.worker(),
            clock,
            self.absent,
        ) {
            Ok(plan) => {
                self.epochs
                    .give(hand, place, content, Some((before, Some(request))));
                Attempt::Served(plan)
            }
            Err(PlanFault::ClockEnd) => {
                self.epochs.stop_at(hand, before, request);
                self.epochs.give(hand, place, content, None);
                Attempt::ClockEnd
            }
            Err(PlanFault::Memory) => {
                self.epochs.give(hand, place, content, None);
                Attempt::Memory
            }
        }
    }
}

// A data value has 255 bytes at most: its type says so.
fn a_blob_has_at_most_255_bytes(value: &Blob)
    ensures fits { IsBlob longest_blob value.now }
{
    let _ = value.bytes();
}
