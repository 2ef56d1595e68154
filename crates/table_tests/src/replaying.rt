//! What workers served, served again one after another.
ghost use Rattle.std.specs.Prelude.{◌≡◌, IsTrue, length};
ghost use Rattle.host_shard.specs.Shown.{shown_content};
ghost use Rattle.host_plan.specs.Plan.{IsOpenAt};
ghost use Rattle.table_tests.specs.Ready.{AreOwners, OwnsBelow};

use crate::turns::Served;
use host_plan::{Commands, Plan, plan};
use host_shard::Content;
use lamport_clocks::Clock;
use log_codec::write_path_command;
use record_hash::Digests;
use std::alloc::Global;
use std::collections::BTreeMap;
use std::process::Abort;
use tree_keys::Path;

/// What was served, by the stamps of the evicts and then by worker.
pub(crate) type Services = BTreeMap<u64, Served>;

/// The number of a service in that order.
pub(crate) fn number_of(served: &Served) -> u64 {
    u64::from(served.later.at().counter) << 16 | u64::from(served.worker)
}

/// Serves all services again, in their order, and looks that each has the plan that it had. Else the test ends.
pub(crate) fn replay<D: Digests>(
    rt: &impl Abort,
    alloc: Global,
    d: &D,
    frontiers: &[Path],
    contents: &mut [Content],
    services: &Services,
)
    requires owners { AreOwners frontiers.now contents.old }
    ensures owners { AreOwners frontiers.now contents.new }
{
    for (_, served) in services {
        replay_one(rt, alloc, d, frontiers, contents, served);
    }
}

fn replay_one<D: Digests>(
    rt: &impl Abort,
    alloc: Global,
    d: &D,
    frontiers: &[Path],
    contents: &mut [Content],
    served: &Served,
)
    requires owners { AreOwners frontiers.now contents.old }
    ensures owners { AreOwners frontiers.now contents.new }
{
    let place = served.place;
    if place >= contents.len() {
        panic!(rt; "no such place");
    }
    serve_again(
        rt,
        alloc,
        d,
        &frontiers[place],
        &mut contents[place],
        served,
    )
}

fn serve_again<D: Digests>(
    rt: &impl Abort,
    alloc: Global,
    d: &D,
    frontier: &Path,
    content: &mut Content,
    served: &Served,
)
    requires owns { OwnsBelow frontier.now (shown_content content.old) }
    ensures owns { OwnsBelow frontier.now (shown_content content.new) }
{
    let mut clock = served.clock;
    if !Path::of_number(frontier.is_wide(), served.request.key).is_below(frontier) {
        panic!(rt; "a key of another shard");
    }
    if !is_in_epoch(content, &clock) {
        panic!(rt; "another epoch");
    }
    match plan(
        alloc,
        d,
        content,
        &served.request,
        served.worker,
        &mut clock,
        false,
    ) {
        Ok(plan) => assert_again(rt, &plan, &clock, served),
        Err(_) => panic!(rt; "no plan"),
    }
}

// Whether the clock is of the epoch with which a content waits.
fn is_in_epoch(content: &Content, clock: &Clock) -> bool
    ensures open { IsTrue result → IsOpenAt clock.now (shown_content content.now) }
{
    match content.pending() {
        Some(element) => element.stamp.epoch == clock.at().epoch,
        None => false,
    }
}

// The plan and the clock are those that it had.
fn assert_again(rt: &impl Abort, plan: &Plan, clock: &Clock, served: &Served) {
    if !are_same(&plan.commands, &served.plan.commands) {
        panic!(rt; "another plan");
    }
    if clock.at() != served.later.at() {
        panic!(rt; "another clock");
    }
}

fn are_same(commands: &Commands, others: &Commands) -> bool {
    if commands.as_slice().len() != others.as_slice().len() {
        return false;
    }
    for (command, other) in commands.as_slice().iter().zip(others.as_slice()) {
        if write_path_command(command).as_slice() != write_path_command(other).as_slice() {
            return false;
        }
    }
    true
}
