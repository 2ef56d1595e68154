//! The window over a log.
ghost use Rattle.std.specs.Prelude.{◌≡◌, ◌<◌, ◌≤◌, ℕ, List, [], ◌∷◌, ◌++◌, length, drop, Some, slice_get};
ghost use Rattle.std.specs.Option.{ForSome};
ghost use Rattle.record_hash.specs.Functions.{DigestFunctions};
ghost use Rattle.record_text.specs.Format.{LogFormat, format_of};
ghost use Rattle.command_window.specs.Window.{AreReadOf, AreRight, IsRight, AreForgotten};

use crate::asking::ask;
use crate::commands::Commands;
use crate::hashing::hash_all;
use crate::places::{MOST_COMMANDS, Places};
use crate::read_command::{Asked, AskedKind, ReadCommand};
use base_words::Memory;
use lamport_clocks::Header;
use record_hash::{Digests, KnownDigests};
use std::alloc::Global;
use std::marker::Model;

/// The next commands of the log of a verifier, and what each will ask for.
///
/// It takes its memory once; where that is wanting it has room for no command.
#[derive(Drop)]
pub struct CommandWindow {
    number: u16,
    reads: Commands,
    // What the command at each place asks for: as many as there is room for commands, used again by each reading.
    asked: Vec<Asked>,
    // where the commands name which records
    places: Places,
}

impl Model for CommandWindow {
    ghost use Rattle.command_window.specs.Window.{Window};

    ghost Value = { Window };

    ghost view = { λ w. record { commands = w.reads; asked = w.asked.items } };
}

impl CommandWindow {
    /// A window over the log of the verifier of this number, with no command in it.
    pub fn new(alloc: Global, number: u16) -> Self
        ensures empty { result.commands ≡ [] }
    {
        let asked = match nothing_asked(alloc) {
            Ok(asked) => asked,
            Err(_) => Vec::new(alloc),
        };
        CommandWindow {
            number,
            reads: Commands::new(alloc),
            asked,
            places: Places::none(),
        }
    }

    /// Reads the commands that bytes begin with, as many as there is room for, up to the first that isn't whole, and hashes
    /// what they will ask for.
    pub fn read<D: Digests>(&mut self, d: &D, header: &Header, bytes: &[u8])
        ensures read { AreReadOf (format_of header.now) bytes.now self.new.commands }
        ensures right { AreRight (D.functions d.now) self.new.asked }
    {
        self.read_ahead(header, bytes);
        hash_all(self.asked.as_mut_slice(), d);
    }

    // Reads the commands that bytes begin with, and notes what each will ask for.
    fn read_ahead(&mut self, header: &Header, bytes: &[u8])
        ensures read { AreReadOf (format_of header.now) bytes.now self.new.commands }
        ensures right { (functions : DigestFunctions) → AreRight functions self.new.asked }
    {
        self.reads.clear();
        self.places.forget();
        forget_all(self.asked.as_mut_slice());
        let mut taken = 0;
        while self.reads.len() < self.asked.len() {
            let place = self.reads.len();
            let Some(len) = self.reads.read_next(header, behind(bytes, taken)) else {
                return;
            };
            let reads = self.reads.as_slice();
            let command = &reads[place].command;
            ask(
                &mut self.asked[place],
                reads,
                &self.places,
                command,
                self.number,
            );
            self.places.note(place, command);
            taken += len;
        }
    }

    /// Its commands, in order.
    pub fn commands(&self) -> &[ReadCommand]
        ensures value { result.now ≡ self.now.commands }
    {
        self.reads.as_slice()
    }

    /// Digests that know what the command at this place will ask for, as far as that was hashed, and ask others for all else.
    pub fn known<'a, D: Digests>(&'a self, d: &'a D, place: usize) -> KnownDigests<'a, D>
        requires right { AreRight (D.functions d.now) self.now.asked }
        ensures others { result.digests.now ≡ d.now }
    {
        KnownDigests {
            digests: d,
            digest: self.known_digest(place),
            lanes: self.known_lanes(place),
        }
    }

    // The digest that the command at a place will ask for, with its text: its own, or that of the command that brought the record.
    fn known_digest(&self, place: usize) -> Option<(&[u8], [u8; 32])>
        ensures right { (functions : DigestFunctions) → AreRight functions self.now.asked → ForSome result (λ known. known.1 ≡ functions.digest known.0.now) }
    {
        let asked = self.asked.get(place)?;
        match asked.kind {
            AskedKind::DigestOf(other) => known_digest_of(self.asked.get(other)?),
            _ => known_digest_of(asked),
        }
    }

    // The lanes that it will ask for, with their text.
    fn known_lanes(&self, place: usize) -> Option<(&[u8], [u32; 8])>
        ensures right { (functions : DigestFunctions) → AreRight functions self.now.asked → ForSome result (λ known. known.1 ≡ functions.lanes known.0.now) }
    {
        known_lanes_of(self.asked.get(place)?)
    }
}

// As many that ask for nothing as a window has commands.
fn nothing_asked(alloc: Global) -> Result<Vec<Asked>, Memory> {
    let mut asked = Vec::with_capacity(alloc, MOST_COMMANDS)?;
    for _ in 0..MOST_COMMANDS {
        asked.push(Asked::nothing())?;
    }
    Ok(asked)
}

// Each asks for nothing then.
fn forget_all(asked: &mut [Asked])
    ensures forgotten { AreForgotten asked.new }
    ensures len { length asked.new ≡ length asked.old }
{
    for one in asked.iter_mut() {
        one.forget();
    }
}

// The bytes behind the first so many.
fn behind(bytes: &[u8], taken: usize) -> &[u8]
    requires within { taken ≤ length bytes.now }
    ensures value { result.now ≡ drop taken bytes.now }
{
    &bytes[taken..]
}

// A digest with its text, if it is known.
fn known_digest_of(asked: &Asked) -> Option<(&[u8], [u8; 32])>
    ensures right { (functions : DigestFunctions) → IsRight functions asked.now → ForSome result (λ known. known.1 ≡ functions.digest known.0.now) }
{
    let digest = asked.digest?;
    Some((asked.text.as_slice(), digest))
}

// Lanes with their text, if they are known.
fn known_lanes_of(asked: &Asked) -> Option<(&[u8], [u32; 8])>
    ensures right { (functions : DigestFunctions) → IsRight functions asked.now → ForSome result (λ known. known.1 ≡ functions.lanes known.0.now) }
{
    let lanes = asked.lanes?;
    Some((asked.text.as_slice(), lanes))
}
