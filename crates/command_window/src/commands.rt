//! Commands that were read, each into a place that is used again.
ghost use Rattle.std.specs.Prelude.{◌≡◌, [], ◌∷◌, ◌++◌, length, None, IfSome};
ghost use Rattle.record_text.specs.Format.{format_of};
ghost use Rattle.command_window.specs.declared.read_command.ReadCommand.{ReadCommand};
ghost use Rattle.command_window.specs.Window.{IsReadOf};

use crate::places::MOST_COMMANDS;
use crate::read_command::ReadCommand;
use base_words::Memory;
use lamport_clocks::Header;
use log_codec::read_command_into;
use std::alloc::Global;
use std::marker::Model;

/// Commands that were read, in order. Their places are made once, and the next reading writes over them. Contracts see the commands.
#[derive(Drop)]
pub(crate) struct Commands {
    places: Vec<ReadCommand>,
    // So many of the places hold a command.
    count: usize,
}

impl Model for Commands {
    ghost use Rattle.std.specs.Prelude.{◌≤◌, List, take, vec_len};
    ghost use Rattle.command_window.specs.declared.read_command.ReadCommand.{ReadCommand};

    ghost Value = { List ReadCommand };

    ghost view = { λ c. take c.count c.places.items };

    ghost invariant = { λ c. c.count ≤ vec_len c.places };
}

impl Commands {
    /// None, with as many places as a window has; where memory is wanting, with no place.
    pub(crate) fn new(alloc: Global) -> Self
        ensures none { result ≡ [] }
    {
        let places = match empty_places(alloc) {
            Ok(places) => places,
            Err(_) => Vec::new(alloc),
        };
        Commands { places, count: 0 }
    }

    /// The commands.
    pub(crate) fn as_slice(&self) -> &[ReadCommand]
        ensures value { result.now ≡ self.now }
    {
        &self.places[..self.count]
    }

    /// How many they are.
    pub(crate) fn len(&self) -> usize
        ensures value { result ≡ length self.now }
    {
        self.count
    }

    /// None then.
    pub(crate) fn clear(&mut self)
        ensures none { self.new ≡ [] }
    {
        self.count = 0;
    }

    /// Reads the command that bytes begin with, behind those that are there, and answers how many bytes it takes: none where it isn't
    /// whole, or there is no place for it.
    pub(crate) fn read_next(&mut self, header: &Header, bytes: &[u8]) -> Option<usize>
        ensures read { IfSome result (λ len. (read : ReadCommand) × (read.len ≡ len)
            × IsReadOf (format_of header.now) bytes.now read × (self.new ≡ self.old ++ read ∷ [])) }
        ensures none { result ≡ None → self.new ≡ self.old }
    {
        if self.count == self.places.len() {
            return None;
        }
        let place = &mut self.places[self.count];
        let Ok(len) = read_command_into(header, bytes, &mut place.command) else {
            return None;
        };
        place.len = len;
        self.count += 1;
        Some(len)
    }
}

// As many places as a window has commands.
fn empty_places(alloc: Global) -> Result<Vec<ReadCommand>, Memory> {
    let mut places = Vec::with_capacity(alloc, MOST_COMMANDS)?;
    for _ in 0..MOST_COMMANDS {
        places.push(ReadCommand::nothing())?;
    }
    Ok(places)
}
