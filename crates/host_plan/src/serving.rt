//! How one request is served: `plan`.
ghost use Rattle.std.specs.Prelude.{◌≡◌, ◌↔◌, ℕ, ◌≤◌, Bool, false, List, [], ◌∷◌, length, None, IfOk, OnOk, OnErr, IsTrue, Err};
ghost use Rattle.std.specs.List.{AllByRecursion};
ghost use Rattle.tree_keys.specs.Path.{key_path};
ghost use Rattle.lamport_clocks.specs.Clock.{is_open};
ghost use Rattle.record_text.specs.declared.value.Value.{Value};
ghost use Rattle.record_text.specs.declared.value.Value.TheVariants as values;
ghost use Rattle.record_text.specs.Value.{IsOf};
ghost use Rattle.record_text.specs.Element.{IsStamp};
ghost use Rattle.record_text.specs.Longest.{longest_blob};
ghost use Rattle.log_codec.specs.Command.{IsPathCommand};
ghost use Rattle.log_codec.specs.declared.command.Command.TheVariants.{Absent};
ghost use Rattle.merkle_records.specs.Merkle.{Digest};
ghost use Rattle.host_shard.specs.Chain.{IsChain, last_value, end_path, known_links};
ghost use Rattle.host_shard.specs.Content.{cold, hot};
ghost use Rattle.host_shard.specs.Mirrors.{IsShard};
ghost use Rattle.host_shard.specs.Shard.{wide_in, key_path_in, tree_of, pending_shard};
ghost use Rattle.host_shard.specs.Shown.{shown, shown_content};
ghost use Rattle.host_plan.specs.declared.fault.PlanFault.TheVariants.{ClockEnd};
ghost use Rattle.host_plan.specs.Plan.{Owns, IsOpenAt, IsPastEnd, IsPlan};
ghost use Rattle.host_plan.specs.Request.{command_of, value_after, is_missed, links_gone, value_before, end_command, is_read, gone_along};
ghost use Rattle.host_plan.specs.Visit.{visit, between};

use crate::commands::Commands;
use crate::fault::PlanFault;
use crate::moments::renewed;
use crate::plans::Plan;
use base_words::Memory;
use host_shard::{
    Content, HotRecord, Link, Shard, chain, end_path, ends_new, known_links, last_value,
};
use lamport_clocks::{Clock, Stamp};
use log_codec::Command;
use record_hash::Digests;
use record_text::{Blob, Request, Value};
use std::alloc::Global;
use tree_keys::Path;

/// Serves one request: its commands and its answer. The content becomes what the commands leave of it, with this worker as
/// evictor and one touch more of the key, and the clock goes to the stamp of the last evict. Where `absent`, a get of a key
/// that has no record says so, and leaves no record and no touch. After a fault content and clock are as before.
pub fn plan<D: Digests>(
    alloc: Global,
    d: &D,
    content: &mut Content,
    request: &Request,
    worker: u16,
    clock: &mut Clock,
    absent: bool,
) -> Result<Plan, PlanFault>
    requires own { Owns longest_blob (shown_content content.old) request.now.key }
    requires open { IsOpenAt clock.old (shown_content content.old) }
    ensures planned { IfOk result (λ plan. IsPlan absent (D.functions d.now).digest worker
        (shown_content content.old) request.now clock.old plan (shown_content content.new) clock.new) }
    ensures typed { IfOk result (λ plan. AllByRecursion (IsPathCommand longest_blob) plan.commands) }
    ensures clock_end { (result ≡ Err ClockEnd) ↔ IsPastEnd (shown_content content.old) clock.old }
    ensures owns { (key : ℕ) → Owns longest_blob (shown_content content.old) key
        → Owns longest_blob (shown_content content.new) key }
    ensures open { IsOpenAt clock.new (shown_content content.new) }
    ensures content_as_before { OnErr result (shown_content content.new ≡ shown_content content.old) }
    ensures clock_as_before { OnErr result (clock.new ≡ clock.old) }
{
    match content {
        Content::Cold(shard) => serve_shard(alloc, d, shard, request, worker, clock, absent),
        Content::Hot(kept) => serve_hot(alloc, kept, request, worker, clock),
        Content::Vacant => unreachable!(),
    }
}

// Serves a request for a key of a shard, along the chain to it.
fn serve_shard<D: Digests>(
    alloc: Global,
    d: &D,
    shard: &mut Shard,
    request: &Request,
    worker: u16,
    clock: &mut Clock,
    absent: bool,
) -> Result<Plan, PlanFault>
    requires own { Owns longest_blob (cold (shown shard.old)) request.now.key }
    requires open { IsTrue (is_open clock.old shard.old.stamp.epoch) }
    ensures planned { IfOk result (λ plan. IsPlan absent (D.functions d.now).digest worker
        (cold (shown shard.old)) request.now clock.old plan (cold (shown shard.new)) clock.new) }
    ensures typed { IfOk result (λ plan. AllByRecursion (IsPathCommand longest_blob) plan.commands) }
    ensures clock_end { (result ≡ Err ClockEnd) ↔ IsPastEnd (cold (shown shard.old)) clock.old }
    ensures owns { (key : ℕ) → Owns longest_blob (cold (shown shard.old)) key
        → Owns longest_blob (cold (shown shard.new)) key }
    ensures open { IsOpenAt clock.new (cold (shown shard.new)) }
    ensures shard_as_before { OnErr result (shown shard.new ≡ shown shard.old) }
    ensures clock_as_before { OnErr result (clock.new ≡ clock.old) }
{
    let later = match renewed(clock, shard.stamp) {
        Some(later) => later,
        None => return Err(PlanFault::ClockEnd),
    };
    let links = chain(alloc, shard, request.key)?;
    let plan = go_along(
        alloc,
        d,
        shard,
        request,
        links.as_slice(),
        later.at(),
        absent,
    )?;
    shard.stamp = later.at();
    shard.evictor = worker;
    *clock = later;
    Ok(plan)
}

// Goes along the chain to a request's key and back to the frontier, which is evicted with this stamp.
fn go_along<D: Digests>(
    alloc: Global,
    d: &D,
    shard: &mut Shard,
    request: &Request,
    links: &[Link],
    stamp: Stamp,
    absent: bool,
) -> Result<Plan, Memory>
    requires own { Owns longest_blob (cold (shown shard.old)) request.now.key }
    requires chain { IsChain (tree_of (shown shard.old)) (key_path_in (shown shard.old) request.now.key)
        shard.old.frontier shard.old.value links.now }
    requires few { length links.now ≤ 128 }
    ensures commands { let missed = is_missed absent (shown shard.old) links.now request.now in
        IfOk result (λ plan. plan.commands ≡ between (pending_shard (shown shard.old)) stamp
        (visit shard.old.frontier (links_gone (shown shard.old) links.now request.now missed)
        (end_command (shown shard.old) links.now request.now missed ∷ []))) }
    ensures answer { IfOk result (λ plan. values.Blob plan.answer ≡ value_after request.now
        (value_before (shown shard.old) links.now (is_missed absent (shown shard.old) links.now request.now))) }
    ensures gone { OnOk result (shown shard.new ≡ gone_along (D.functions d.now).digest
        (shown shard.old) links.now request.now (is_missed absent (shown shard.old) links.now request.now)) }
    ensures typed { IfOk result (λ plan. AllByRecursion (IsPathCommand longest_blob) plan.commands) }
    ensures fits { OnOk result (IsShard longest_blob (shown shard.new)) }
    ensures as_before { OnErr result (shown shard.new ≡ shown shard.old) }
{
    if misses(shard, request, links, absent) {
        return miss(alloc, shard, request.key, links, stamp);
    }
    find(alloc, d, shard, request, links, stamp)
}

// A get of a key that has no record yet, and none is to be made for it.
fn misses(shard: &Shard, request: &Request, links: &[Link], absent: bool) -> bool
    ensures missed { result ≡ is_missed absent (shown shard.now) links.now request.now }
{
    absent && !request.put && ends_new(shard, request.key, links)
}

// Goes along the records on the way to a key that has none, and says under the last of them that the key is absent.
fn miss(
    alloc: Global,
    shard: &Shard,
    key: u128,
    links: &[Link],
    stamp: Stamp,
) -> Result<Plan, Memory>
    requires own { Owns longest_blob (cold (shown shard.now)) key }
    requires chain { IsChain (tree_of (shown shard.now)) (key_path_in (shown shard.now) key)
        shard.now.frontier shard.now.value links.now }
    requires few { length links.now ≤ 128 }
    ensures commands { let known = known_links (key_path_in (shown shard.now) key) shard.now.frontier shard.now.value links.now in
        IfOk result (λ plan. plan.commands ≡ between (pending_shard (shown shard.now)) stamp
        (visit shard.now.frontier known (Absent (key_path_in (shown shard.now) key) (end_path shard.now.frontier known) ∷ []))) }
    ensures answer { IfOk result (λ plan. plan.answer ≡ None) }
    ensures typed { IfOk result (λ plan. AllByRecursion (IsPathCommand longest_blob) plan.commands) }
{
    let known = known_links(shard, key, links);
    let command = Command::Absent {
        path: shard.path_of(key),
        parent: *end_path(&shard.frontier, known),
    };
    let commands = Commands::between(alloc, shard.pending(), known, command, stamp)?;
    Ok(Plan {
        commands,
        answer: Blob::none(),
    })
}

// Goes along a chain to its key, does there what is asked, and leaves the shard so.
fn find<D: Digests>(
    alloc: Global,
    d: &D,
    shard: &mut Shard,
    request: &Request,
    links: &[Link],
    stamp: Stamp,
) -> Result<Plan, Memory>
    requires own { Owns longest_blob (cold (shown shard.old)) request.now.key }
    requires chain { IsChain (tree_of (shown shard.old)) (key_path_in (shown shard.old) request.now.key)
        shard.old.frontier shard.old.value links.now }
    requires few { length links.now ≤ 128 }
    ensures commands { IfOk result (λ plan. plan.commands ≡ between (pending_shard (shown shard.old)) stamp
        (visit shard.old.frontier links.now (command_of (wide_in (shown shard.old)) request.now (last_value shard.old.value links.now) ∷ []))) }
    ensures answer { IfOk result (λ plan. values.Blob plan.answer ≡ value_after request.now
        (last_value shard.old.value links.now)) }
    ensures gone { OnOk result (shown shard.new ≡ gone_along (D.functions d.now).digest
        (shown shard.old) links.now request.now false) }
    ensures typed { IfOk result (λ plan. AllByRecursion (IsPathCommand longest_blob) plan.commands) }
    ensures fits { OnOk result (IsShard longest_blob (shown shard.new)) }
    ensures as_before { OnErr result (shown shard.new ≡ shown shard.old) }
{
    let wide = shard.frontier.is_wide();
    let answer = answer_of(wide, request, last_value(&shard.value, links));
    let command = command_of(wide, request, &answer);
    let commands = Commands::between(alloc, shard.pending(), links, command, stamp)?;
    leave(d, shard, request, links, &answer)?;
    Ok(Plan { commands, answer })
}

// Leaves the shard as a request does that went along a chain to its key and answers this. Where it read the key's record,
// each record stays, and no digest is made; else the shard is rehashed. The key has one touch more.
fn leave<D: Digests>(
    d: &D,
    shard: &mut Shard,
    request: &Request,
    links: &[Link],
    answer: &Blob,
) -> Result<(), Memory>
    requires own { Owns longest_blob (cold (shown shard.old)) request.now.key }
    requires chain { IsChain (tree_of (shown shard.old)) (key_path_in (shown shard.old) request.now.key)
        shard.old.frontier shard.old.value links.now }
    requires answer { values.Blob answer.now ≡ value_after request.now (last_value shard.old.value links.now) }
    requires kind { IsOf longest_blob (key_path_in (shown shard.old) request.now.key) (values.Blob answer.now) }
    ensures gone { OnOk result (shown shard.new ≡ gone_along (D.functions d.now).digest
        (shown shard.old) links.now request.now false) }
    ensures fits { OnOk result (IsShard longest_blob (shown shard.new)) }
    ensures as_before { OnErr result (shown shard.new ≡ shown shard.old) }
{
    if !reads(shard, request) {
        shard.rehash(d, links, Value::Blob(answer.copy()))?;
    }
    shard.touch(request.key);
    Ok(())
}

// A get of a key that has a record.
fn reads(shard: &Shard, request: &Request) -> bool
    ensures read { result ≡ is_read (shown shard.now) request.now }
{
    !request.put && shard.records.get(&shard.path_of(request.key)).is_some()
}

// Serves a request for a hot key.
fn serve_hot(
    alloc: Global,
    kept: &mut HotRecord,
    request: &Request,
    worker: u16,
    clock: &mut Clock,
) -> Result<Plan, PlanFault>
    requires own { kept.old.key ≡ request.now.key }
    requires open { IsTrue (is_open clock.old kept.old.stamp.epoch) }
    ensures planned { (absent : Bool) (digest : Digest) → IfOk result (λ plan. IsPlan absent digest worker
        (hot kept.old) request.now clock.old plan (hot kept.new) clock.new) }
    ensures typed { IfOk result (λ plan. AllByRecursion (IsPathCommand longest_blob) plan.commands) }
    ensures clock_end { (result ≡ Err ClockEnd) ↔ IsPastEnd (hot kept.old) clock.old }
    ensures owns { kept.new.key ≡ kept.old.key }
    ensures open { IsOpenAt clock.new (hot kept.new) }
    ensures record_as_before { OnErr result (kept.new ≡ kept.old) }
    ensures clock_as_before { OnErr result (clock.new ≡ clock.old) }
{
    let later = match renewed(clock, kept.stamp) {
        Some(later) => later,
        None => return Err(PlanFault::ClockEnd),
    };
    let answer = if request.put {
        request.value.copy()
    } else {
        kept.value.copy()
    };
    let command = command_of(kept.wide, request, &answer);
    let commands = Commands::between(alloc, kept.pending(), &[], command, later.at())?;
    kept.value = answer.copy();
    kept.stamp = later.at();
    kept.evictor = worker;
    kept.touches = kept.touches.saturating_add(1);
    *clock = later;
    Ok(Plan { commands, answer })
}

// What a request answers where the key, which is of this tree, has this value.
fn answer_of(wide: bool, request: &Request, found: &Value) -> Blob
    requires kind { IsOf longest_blob (key_path wide request.now.key) found.now }
    ensures value { values.Blob result ≡ value_after request.now found.now }
{
    if request.put {
        return request.value.copy();
    }
    match found {
        Value::Blob(blob) => blob.copy(),
        Value::Node(_) => unreachable!(),
    }
}

// The command of a request for a key of this tree that answers this.
fn command_of(wide: bool, request: &Request, answer: &Blob) -> Command
    ensures command { (found : Value) → values.Blob answer.now ≡ value_after request.now found
        → result ≡ command_of wide request.now found }
    ensures kind { IsOf longest_blob (key_path wide request.now.key) (values.Blob answer.now) }
    ensures typed { IsPathCommand longest_blob result }
{
    let path = Path::of_number(wide, request.key);
    let value = Value::Blob(answer.copy());
    if request.put {
        Command::Put { path, value }
    } else {
        Command::Get { path, value }
    }
}
