//! One worker of a world.
ghost use Rattle.std.specs.Prelude.{◌≡◌, ◌≢◌, ◌↔◌, ◌-◌, ◌<◌, ◌≤◌, [], ◌∷◌, map, replicate, false, true, Ok, IfOk, IfSome, OnErr, is_some};
ghost use Rattle.lamport_clocks.specs.Clock.{last_epoch};
ghost use Rattle.lamport_clocks.specs.Header.{IsHeader};
ghost use Rattle.record_text.specs.Longest.{longest_blob};
ghost use Rattle.log_codec.specs.declared.command.Command.TheVariants.{NextEpoch};
ghost use Rattle.slot_rewriting.specs.Writing.{opening_writer};
ghost use Rattle.worker_log.specs.Logged.{AreWritable};
ghost use Rattle.host_core.specs.World.{idle, fresh};
ghost use Rattle.host_core.specs.WorldEvent.{logging, next_clock};
ghost use Rattle.host_shard.specs.Shown.{shown_content};
ghost use Rattle.host_plan.specs.Plan.{Owns, IsOpenAt};
ghost use Rattle.host_laws.specs.SettingUp.{first_clock};
ghost use Rattle.host_world.specs.Places.{place_of};
ghost use Rattle.host_world.specs.Workers.{shown_worker, writer_in, AreBegun};
ghost use Rattle.host_world.specs.Behind.{CanTakeSeats};
ghost use Rattle.host_world.specs.Doing.{HasDone, HasServed};
ghost use Rattle.shipped_host.specs.Moving.{stage_of, move_seats};
ghost use Rattle.shipped_host.specs.ShippedHost.{serve_at};

use base_words::Memory;
use host_plan::{Commands, PlanFault, plan};
use host_shard::Content;
use lamport_clocks::{Clock, Header, Stamp};
use log_codec::Command;
use protection_moves::{MoveFault, migrate};
use record_hash::Digests;
use record_text::Request;
use slot_rewriting::CommandWriter;
use std::alloc::Global;
use worker_log::WorkerLog;

/// A place that a worker holds, by its number, and whether it has served there since it took it.
#[derive(Clone, Copy, Debug, PartialEq, Eq)]
pub struct Held {
    pub place: u32,
    pub used: bool,
}

/// A worker: its log, its clock, and what it holds.
#[derive(Drop)]
pub struct Worker {
    /// What it logged since its log was last handed out.
    pub log: WorkerLog,
    pub clock: Clock,
    /// How many requests it has served.
    pub served: u64,
    pub holds: Option<Held>,
    /// Whether its clock ended in this phase.
    pub stopped: bool,
    /// Whether its clock ended in this close.
    pub stuck: bool,
}

impl Worker {
    // The worker of this number before its first command. Its log takes memory from `alloc` as it grows.
    pub(crate) fn new(alloc: Global, number: u16, header: &Header) -> Result<Self, Memory>
        requires header { IsHeader header.now }
        ensures value { IfOk result (λ worker. shown_worker worker ≡ fresh header.now) }
        ensures writer { IfOk result (λ worker. writer_in worker ≡ opening_writer number header.now) }
        ensures settled { IfOk result (λ worker. worker.log.settled ≡ true) }
    {
        let writer = CommandWriter::new(alloc, number, header)?;
        Ok(Worker {
            log: WorkerLog::new(alloc, writer),
            clock: Clock::new(header.first, header.end),
            served: 0,
            holds: None,
            stopped: false,
            stuck: false,
        })
    }

    // Worker 0 behind the setup of so many shards, which it logged.
    pub(crate) fn behind_setup(
        alloc: Global,
        header: &Header,
        shards: u32,
        commands: Commands,
    ) -> Result<Self, Memory>
        requires header { IsHeader header.now }
        requires some { 0 < shards }
        requires counters { shards ≤ header.now.end }
        requires writable { AreWritable commands }
        ensures value { IfOk result (λ worker. shown_worker worker
            ≡ idle commands (first_clock header.now.first header.now.end shards)) }
        ensures writer { IfOk result (λ worker. writer_in worker ≡ opening_writer 0 header.now) }
    {
        let mut worker = Worker::new(alloc, 0, header)?;
        let last = Stamp {
            epoch: header.first,
            counter: shards,
        };
        if worker.clock.on_evict(last).is_err() {
            unreachable!()
        }
        worker.log.push(commands);
        Ok(worker)
    }

    // Logs that it goes to the next epoch, and goes there, if there is one: it answers that. For want of memory all is as
    // before.
    pub(crate) fn advance(&mut self, alloc: Global) -> Result<bool, Memory>
        ensures last { IfOk result (λ advanced. (advanced ≡ false) ↔ (self.old.clock.at.epoch ≡ last_epoch)) }
        ensures advanced { result ≡ Ok true
            → shown_worker self.new ≡ logging (shown_worker self.old) (NextEpoch ∷ []) (next_clock self.old.clock) }
        ensures no_epoch { result ≡ Ok false → shown_worker self.new ≡ shown_worker self.old }
        ensures as_before { OnErr result (shown_worker self.new ≡ shown_worker self.old) }
        ensures writer { writer_in self.new ≡ writer_in self.old }
    {
        let mut later = self.clock;
        if later.next_epoch().is_err() {
            return Ok(false);
        }
        let mut commands = Vec::with_capacity(alloc, 1)?;
        self.log.settle()?;
        commands.push_reserved(Command::NextEpoch);
        self.log.push(Commands::of(commands));
        self.clock = later;
        Ok(true)
    }

    // Serves a request with the content of the place that it holds, where its clock does not pass its end: it answers
    // that. Else, and for want of memory, all is as before.
    pub(crate) fn serve<D: Digests>(
        &mut self,
        alloc: Global,
        d: &D,
        number: u16,
        place: u32,
        content: &mut Content,
        request: &Request,
        absent: bool,
    ) -> Result<bool, Memory>
        requires own { Owns longest_blob (shown_content content.old) request.now.key }
        requires open { IsOpenAt self.old.clock (shown_content content.old) }
        ensures within { IfOk result (λ served. served ≡ is_some (serve_at absent (D.functions d.now).digest
            number self.old.clock (shown_content content.old) request.now)) }
        ensures served { result ≡ Ok true
            → HasServed (place_of place) (serve_at absent (D.functions d.now).digest
            number self.old.clock (shown_content content.old) request.now)
            (shown_worker self.old) (shown_content content.new) (shown_worker self.new) }
        ensures worker_as_before { result ≢ Ok true → shown_worker self.new ≡ shown_worker self.old }
        ensures writer { writer_in self.new ≡ writer_in self.old }
        ensures content_as_before { result ≢ Ok true → shown_content content.new ≡ shown_content content.old }
    {
        let served = match self.served.checked_add(1) {
            Some(served) => served,
            None => return Err(Memory),
        };
        self.log.settle()?;
        match plan(alloc, d, content, request, number, &mut self.clock, absent) {
            Ok(plan) => {
                self.log.push(plan.commands);
                self.served = served;
                self.holds = Some(Held { place, used: true });
                Ok(true)
            }
            Err(PlanFault::ClockEnd) => Ok(false),
            Err(PlanFault::Memory) => Err(Memory),
        }
    }

    // Moves a shard with its hot places, for this threshold, where its clock does not pass its end: it answers that. Else,
    // and for want of memory, all is as before.
    pub(crate) fn move_seats<D: Digests>(
        &mut self,
        alloc: Global,
        d: &D,
        number: u16,
        threshold: Option<u32>,
        first: &mut Content,
        hot: &mut [Content],
    ) -> Result<bool, Memory>
        requires threshold { IfSome threshold (λ least. 0 < least) }
        requires seats { CanTakeSeats (D.functions d.now).digest self.old.clock
            (shown_content first.old ∷ map shown_content hot.old) }
        ensures within { IfOk result (λ moved. moved ≡ is_some (move_seats (D.functions d.now).digest
            number threshold (stage_of self.old.clock (shown_content first.old ∷ map shown_content hot.old)))) }
        ensures moved { result ≡ Ok true
            → HasDone (move_seats (D.functions d.now).digest
            number threshold (stage_of self.old.clock (shown_content first.old ∷ map shown_content hot.old)))
            (shown_worker self.old) (shown_content first.new ∷ map shown_content hot.new) (shown_worker self.new) }
        ensures worker_as_before { result ≢ Ok true → shown_worker self.new ≡ shown_worker self.old }
        ensures writer { writer_in self.new ≡ writer_in self.old }
        ensures first_as_before { result ≢ Ok true → shown_content first.new ≡ shown_content first.old }
        ensures hot_as_before { result ≢ Ok true → map shown_content hot.new ≡ map shown_content hot.old }
    {
        let shard = match first {
            Content::Cold(shard) => shard,
            _ => unreachable!(),
        };
        self.log.settle()?;
        match migrate(alloc, d, shard, hot, threshold, number, &mut self.clock) {
            Ok(commands) => {
                self.log.push(commands);
                Ok(true)
            }
            Err(MoveFault::ClockEnd) => Ok(false),
            Err(MoveFault::Memory) => Err(Memory),
        }
    }
}

// The workers behind the setup of so many shards, which worker 0 logged.
pub(crate) fn workers_for(
    alloc: Global,
    header: &Header,
    shards: u32,
    commands: Commands,
) -> Result<Vec<Worker>, Memory>
    requires header { IsHeader header.now }
    requires some { 0 < shards }
    requires counters { shards ≤ header.now.end }
    requires writable { AreWritable commands }
    ensures workers { IfOk result (λ workers. map shown_worker workers.items
        ≡ idle commands (first_clock header.now.first header.now.end shards)
        ∷ replicate (header.now.verifiers - 1) (fresh header.now)) }
    ensures begun { IfOk result (λ workers. AreBegun header.now workers.items) }
{
    let mut workers = Vec::with_capacity(alloc, usize::from(header.verifiers))?;
    workers.push(Worker::behind_setup(alloc, header, shards, commands)?)?;
    for number in 1..header.verifiers {
        workers.push(Worker::new(alloc, number, header)?)?;
    }
    Ok(workers)
}
