//! How a world goes on: one event, and events in order.
ghost use Rattle.std.specs.Prelude.{◌≡◌, List, IfOk, OnOk, OnErr, IfErr, length, map, take, ◌≤◌, ◌<◌};
ghost use Rattle.log_codec.specs.declared.command.Command.{Command};
ghost use Rattle.host_core.specs.WorldEvent.{step, run_events, IsEnabled, AreEnabled};
ghost use Rattle.host_world.specs.Shown.{shown_world, shown_event, digests_of};
ghost use Rattle.host_world.specs.Ending.{end_of};
ghost use Rattle.host_world.specs.Behind.{host_of, StandsBehind, StandsWith, AreOfOneHost};

use crate::event::Event;
use crate::fault::{ClockEnd, EventStop};
use crate::world::World;
use base_words::Memory;
use record_hash::Digests;

impl<'a, D: Digests> World<'a, D> {
    /// One event, which is enabled in this world. Where a clock ends, only a stop or the end is noted, and the answer says
    /// whose clock it is. For want of memory all is as before.
    pub fn step(&mut self, event: &Event) -> Result<Option<ClockEnd>, Memory>
        requires behind { StandsBehind (D.functions (digests_of self.old)) self.old }
        requires enabled { IsEnabled (host_of (D.functions (digests_of self.old)) self.old) (shown_world self.old)
            (shown_event event.now) }
        ensures stepped { OnOk result (shown_world self.new ≡ step (host_of (D.functions (digests_of self.old)) self.old)
            (shown_world self.old) (shown_event event.now)) }
        ensures ended { IfOk result (λ end. end ≡ end_of (host_of (D.functions (digests_of self.old)) self.old)
            (shown_world self.old) (shown_event event.now)) }
        ensures host { AreOfOneHost self.old self.new }
        ensures as_before { OnErr result (shown_world self.new ≡ shown_world self.old) }
        ensures behind { StandsBehind (D.functions (digests_of self.new)) self.new }

        // Whatever logs were handed out before.
        ensures goes_on { (logs : List (List Command)) → StandsWith (D.functions (digests_of self.old)) self.old logs
            → StandsWith (D.functions (digests_of self.new)) self.new logs }
    {
        match event {
            Event::Take(worker, place) => {
                self.take(*worker, *place);
                Ok(None)
            }
            Event::Lose(_, _) => Ok(None),
            Event::Serve(worker, place, request) => self.serve(*worker, *place, request),
            Event::Give(worker, place) => {
                self.give(*worker, *place);
                Ok(None)
            }
            Event::Next(worker) => self.advance(*worker),
            Event::Move(worker, shard) => self.move_shard(*worker, *shard),
            Event::Open => {
                self.open();
                Ok(None)
            }
            Event::Raise(worker) => {
                self.raise(*worker);
                Ok(None)
            }
            Event::Enter(worker) => {
                self.enter(*worker)?;
                Ok(None)
            }
            Event::Scan(worker, place) => self.scan(*worker, *place),
            Event::Finish(worker) => {
                self.finish(*worker);
                Ok(None)
            }
            Event::Stop(worker, found) => Ok(Some(self.stop(*worker, found))),
        }
    }

    /// Events in order, each of which is enabled behind those before it. For want of memory the world is as some of them,
    /// from the first on, leave it, and the answer says how many.
    pub fn run_events(&mut self, events: &[Event]) -> Result<(), EventStop>
        requires behind { StandsBehind (D.functions (digests_of self.old)) self.old }
        requires enabled { AreEnabled (host_of (D.functions (digests_of self.old)) self.old) (shown_world self.old)
            (map shown_event events.now) }
        ensures run { OnOk result (shown_world self.new ≡ run_events (host_of (D.functions (digests_of self.old)) self.old)
            (shown_world self.old) (map shown_event events.now)) }
        ensures stopped { IfErr result (λ stop. shown_world self.new
            ≡ run_events (host_of (D.functions (digests_of self.old)) self.old)
            (shown_world self.old) (take stop.done (map shown_event events.now))) }
        ensures some_left { IfErr result (λ stop. stop.done < length events.now) }
        ensures host { AreOfOneHost self.old self.new }
        ensures behind { StandsBehind (D.functions (digests_of self.new)) self.new }
    {
        for (done, event) in events.iter().enumerate() {
            if self.step(event).is_err() {
                return Err(EventStop { done });
            }
        }
        Ok(())
    }
}
