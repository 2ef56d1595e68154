//! The commands of a descent: along the links to a key and back.
ghost use Rattle.std.specs.Prelude.{◌≡◌, ◌++◌, OnOk};
ghost use Rattle.protection_moves.specs.Descent.{visit_but_last};
ghost use Rattle.protection_moves.specs.Turn.{turn_commands};

use base_words::Memory;
use host_shard::Link;
use lamport_clocks::Stamp;
use log_codec::Command;
use record_text::Element;
use tree_keys::Path;

/// What is done at the end of a descent: a hot record comes back with its element, or one becomes hot with a stamp.
#[derive(Drop)]
pub(crate) enum Turn {
    ComesBack(Element),
    BecomesHot(Stamp),
}

// Logs the descent along these links from this path.
pub(crate) fn log_descent(
    commands: &mut Vec<Command>,
    at: &Path,
    links: &[Link],
    turn: &Turn,
) -> Result<(), Memory>
    ensures logged { OnOk result (commands.new.items
        ≡ commands.old.items ++ visit_but_last at.now links.now (turn_commands turn.now)) }
{
    let (link, rest) = match links.split_first() {
        Some(parts) => parts,
        None => return Ok(()),
    };
    if rest.is_empty() {
        return log_turn(commands, at, link, turn);
    }
    let path = link.path;
    commands.push(Command::AddM {
        path,
        value: link.value.copy(),
        parent: *at,
    })?;
    log_descent(commands, &path, rest, turn)?;
    commands.push(Command::EvictM { path, parent: *at })?;
    Ok(())
}

// Logs what is done at the end of a descent, where the last link comes under this path.
fn log_turn(commands: &mut Vec<Command>, at: &Path, link: &Link, turn: &Turn) -> Result<(), Memory>
    ensures logged { OnOk result (commands.new.items
        ≡ commands.old.items ++ turn_commands turn.now at.now link.now) }
{
    let path = link.path;
    match turn {
        Turn::ComesBack(element) => {
            commands.push(Command::AddB {
                path: element.path,
                value: element.value.copy(),
                stamp: element.stamp,
                verifier: element.verifier,
            })?;
            commands.push(Command::EvictM { path, parent: *at })?;
        }
        Turn::BecomesHot(stamp) => {
            commands.push(Command::AddM {
                path,
                value: link.value.copy(),
                parent: *at,
            })?;
            commands.push(Command::EvictBM {
                path,
                parent: *at,
                stamp: *stamp,
            })?;
        }
    }
    Ok(())
}
