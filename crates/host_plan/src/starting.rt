//! How the shards are set up: `setup`.
ghost use Rattle.std.specs.Prelude.{◌≡◌, ◌↔◌, ◌<◌, ◌≤◌, ◌+◌, ◌^◌, ◌++◌, ℕ, map, IfOk, OnOk, Err};
ghost use Rattle.std.specs.List.{AllByRecursion};
ghost use Rattle.tree_keys.specs.Path.{depth};
ghost use Rattle.lamport_clocks.specs.Header.{IsHeader};
ghost use Rattle.record_text.specs.Tree.{wide_of};
ghost use Rattle.record_text.specs.Longest.{longest_blob};
ghost use Rattle.log_codec.specs.Command.{IsPathCommand};
ghost use Rattle.host_shard.specs.Shown.{shown_content};
ghost use Rattle.host_plan.specs.declared.fault.SetupFault.TheVariants.{ClockEnd};
ghost use Rattle.host_plan.specs.Setup.{IsShardCount, first_stamp, first_contents, paths_below, set_up, setup_commands, setup_contents};

use crate::commands::Commands;
use crate::fault::SetupFault;
use base_words::Memory;
use host_shard::{Content, Shard};
use lamport_clocks::{Header, Stamp};
use log_codec::Command;
use record_text::{initial, wide_of};
use std::alloc::Global;
use tree_keys::{Path, key_bits};

/// Sets up so many shards: what worker 0 logs, and the contents behind it, in the order of the shards.
pub fn setup(
    alloc: Global,
    shards: u32,
    header: &Header,
) -> Result<(Commands, Vec<Content>), SetupFault>
    requires shards { IsShardCount shards }
    ensures commands { (bits : ℕ) → shards ≡ 2 ^ bits → IfOk result (λ done.
        done.0 ≡ setup_commands (wide_of header.now) header.now.first bits) }
    ensures contents { (bits : ℕ) → shards ≡ 2 ^ bits → IfOk result (λ done.
        map shown_content done.1.items ≡ setup_contents (wide_of header.now) header.now.first bits) }
    ensures typed { IfOk result (λ done. AllByRecursion (IsPathCommand longest_blob) done.0) }
    ensures clock_end { (result ≡ Err ClockEnd) ↔ (header.now.end < shards) }
{
    if header.end < shards {
        return Err(SetupFault::ClockEnd);
    }
    let bits = shards.ilog2() as u8;
    Ok(all_set_up(alloc, wide_of(header), header.first, bits)?)
}

// The setup of the shards of a tree whose frontiers have so many bits.
fn all_set_up(
    alloc: Global,
    wide: bool,
    first: u32,
    bits: u8,
) -> Result<(Commands, Vec<Content>), Memory>
    requires some { 0 < bits }
    requires few { bits ≤ 10 }
    ensures commands { IfOk result (λ done. done.0 ≡ setup_commands wide first bits) }
    ensures contents { IfOk result (λ done. map shown_content done.1.items
        ≡ setup_contents wide first bits) }
    ensures typed { IfOk result (λ done. AllByRecursion (IsPathCommand longest_blob) done.0) }
{
    let root = Path::root_of(wide);
    let mut commands = Vec::new(alloc);
    let mut contents = Vec::with_capacity(alloc, 1 << bits)?;
    set_up(
        alloc,
        first,
        bits - 1,
        &root.child(false),
        &root,
        &mut commands,
        &mut contents,
    )?;
    set_up(
        alloc,
        first,
        bits - 1,
        &root.child(true),
        &root,
        &mut commands,
        &mut contents,
    )?;
    Ok((Commands::of(commands), contents))
}

// Visits a path under its parent, so many levels above the shards' frontiers.
fn set_up(
    alloc: Global,
    first: u32,
    levels: u8,
    path: &Path,
    parent: &Path,
    commands: &mut Vec<Command>,
    contents: &mut Vec<Content>,
) -> Result<(), Memory>
    requires below_root { 0 < depth path.now }
    requires few { depth path.now + levels ≤ 10 }
    ensures commands { OnOk result (commands.new.items
        ≡ commands.old.items ++ set_up first levels path.now parent.now) }
    ensures contents { OnOk result (map shown_content contents.new.items
        ≡ map shown_content contents.old.items
        ++ first_contents first (paths_below levels path.now)) }
{
    commands.push(Command::AddM {
        path: *path,
        value: initial(path),
        parent: *parent,
    })?;
    if levels == 0 {
        let stamp = first_stamp(first, path);
        commands.push(Command::EvictBM {
            path: *path,
            parent: *parent,
            stamp,
        })?;
        contents.push(Content::Cold(Shard::new(alloc, *path, stamp, 0)))?;
        return Ok(());
    }
    set_up(
        alloc,
        first,
        levels - 1,
        &path.child(false),
        path,
        commands,
        contents,
    )?;
    set_up(
        alloc,
        first,
        levels - 1,
        &path.child(true),
        path,
        commands,
        contents,
    )?;
    commands.push(Command::EvictM {
        path: *path,
        parent: *parent,
    })?;
    Ok(())
}

// The first stamp of a shard, by the number of its frontier.
fn first_stamp(first: u32, frontier: &Path) -> Stamp
    requires below_root { 0 < depth frontier.now }
    requires few { depth frontier.now ≤ 10 }
    ensures value { result ≡ first_stamp first frontier.now }
{
    let unused = key_bits(frontier.is_wide()) - frontier.len();
    let number = frontier.word() >> unused;
    Stamp {
        epoch: first,
        counter: number as u32 + 1,
    }
}
