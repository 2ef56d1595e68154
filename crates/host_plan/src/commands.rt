//! Commands in the order in which they are logged.
ghost use Rattle.std.specs.Prelude.{◌≡◌, ◌≤◌, List, [], ◌∷◌, ◌++◌, length, IfOk, OnOk};
ghost use Rattle.record_text.specs.Element.{IsStamp};
ghost use Rattle.host_plan.specs.Visit.{visit, between};

use base_words::Memory;
use host_shard::Link;
use lamport_clocks::Stamp;
use log_codec::Command;
use record_text::Element;
use std::alloc::Global;
use std::marker::Model;
use tree_keys::Path;

/// Commands in the order in which they are logged. Contracts see the list of them.
#[derive(Debug, Drop)]
pub struct Commands {
    items: Vec<Command>,
}

impl Model for Commands {
    ghost use Rattle.std.specs.Prelude.{List};
    ghost use Rattle.log_codec.specs.declared.command.Command.{Command};

    ghost Value = { List Command };

    ghost view = { λ c. c.items.items };
}

impl Commands {
    /// These commands.
    pub fn of(items: Vec<Command>) -> Self
        ensures commands { result ≡ items.items }
    {
        Commands { items }
    }

    /// The commands.
    pub fn as_slice(&self) -> &[Command]
        ensures commands { result.now ≡ self.now }
    {
        self.items.as_slice()
    }

    // The commands that take an element in, do this one at the end of a chain from its path, and hand the path out with
    // this stamp.
    pub(crate) fn between(
        alloc: Global,
        element: Element,
        links: &[Link],
        command: Command,
        stamp: Stamp,
    ) -> Result<Self, Memory>
        requires few { length links.now ≤ 128 }
        ensures commands { IfOk result (λ commands. commands
            ≡ between element stamp (visit element.path links.now (command ∷ []))) }
        ensures stamp { IsStamp stamp }
    {
        let path = element.path;
        let mut items = Vec::with_capacity(alloc, 2 * links.len() + 3)?;
        items.push(Command::AddB {
            path,
            value: element.value,
            stamp: element.stamp,
            verifier: element.verifier,
        })?;
        visit(&mut items, &path, links, command)?;
        items.push(Command::EvictB { path, stamp })?;
        Ok(Commands { items })
    }
}

// Logs the visit of a chain's paths under this one, with a command at its end.
fn visit(
    items: &mut Vec<Command>,
    at: &Path,
    links: &[Link],
    command: Command,
) -> Result<(), Memory>
    ensures visited { OnOk result (items.new.items
        ≡ items.old.items ++ visit at.now links.now (command ∷ [])) }
{
    let (link, rest) = match links.split_first() {
        Some(parts) => parts,
        None => {
            items.push(command)?;
            return Ok(());
        }
    };
    items.push(Command::AddM {
        path: link.path,
        value: link.value.copy(),
        parent: *at,
    })?;
    visit(items, &link.path, rest, command)?;
    items.push(Command::EvictM {
        path: link.path,
        parent: *at,
    })?;
    Ok(())
}
