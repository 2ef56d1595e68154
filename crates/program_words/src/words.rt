//! What the program's words ask for.
ghost use Rattle.std.specs.Prelude.{◌≡◌, ◌≢◌, ◌↔◌, IfOk, Some, None, Ok, Err, codes, map, option_and_then};
ghost use Rattle.clap.specs.Words.{first_of, found_of, kind_of, rows_of, subcommand_rows_of};
ghost use Rattle.program_words.specs.Key.{key_in};
ghost use Rattle.program_words.specs.Words.{asked_as, asked_by, asked_of, check_as, gen_as, IsInRange, run_as, sign_as};

use crate::command_line::fastver_command;
use crate::found::{flag_of, word_of};
use crate::host_words::{PathWord, RunWords, logs_of, numbers_of};
use crate::key::Key;
use crate::load_words::{GenWords, load_of};
use crate::sign_words::{SignWords, sign_numbers_of};
use clap::error::ErrorKind;
use clap::{ArgMatches, Error};
use std::alloc::{AllocError, Global};

/// What logs are to be checked with.
#[derive(Drop)]
pub struct CheckWords {
    /// The key of the verifiers.
    pub key: Key,
    /// Whether the report is to have receipts.
    pub receipts: bool,
}

/// What logs are to be checked and sealed with.
#[derive(Drop)]
pub struct SealWords {
    /// The key of the verifiers.
    pub key: Key,
    /// What the vault is to be named, to which the seal goes.
    pub path: PathWord,
}

/// What the program is asked for, with the key of the verifiers.
#[derive(Drop)]
pub enum Asked {
    /// To check the logs.
    Check(CheckWords),
    /// To check the logs, and to seal what they come to.
    Seal(SealWords),
    /// To show what is wrong with them.
    Audit(Key),
    /// To serve a script.
    Run(RunWords),
    /// To serve a load that is made.
    Gen(GenWords),
    /// To say whether a receipt is to be accepted.
    Accept(Key),
    /// To write the map that the logs certify.
    Follow(Key),
    /// To write them in version 3 of the format.
    Upgrade(Key),
    /// To go on from a seal with the logs behind it.
    Resume(Key),
    /// To sign the requests of a client.
    Sign(SignWords),
}

/// Why the words gave nothing to do.
#[derive(Clone, Copy, Debug, PartialEq, Eq)]
pub enum WordsFault {
    /// They are no command of the program, or the key isn't one.
    Usage,
    /// Memory ran out.
    Memory,
}

/// What the words ask for, of which the first is the program's name.
pub fn read_words(alloc: Global, words: &[&str]) -> Result<Asked, WordsFault>
    ensures asked { IfOk result (λ asked. asked_of (map (λ word. word.now) words.now) ≡ Some asked) }
    ensures usage { result ≡ Err WordsFault.Usage → asked_of (map (λ word. word.now) words.now) ≡ None }
    ensures ranges { IfOk result IsInRange }
{
    let command = fastver_command(alloc)?;
    match command.try_get_matches_from(words) {
        Ok(matches) => asked_in(alloc, &matches)?.ok_or(WordsFault::Usage),
        Err(error) => Err(refusal(&error)),
    }
}

// What the matches ask for: the command in them, with its key.
fn asked_in(alloc: Global, matches: &ArgMatches<'_>) -> Result<Option<Asked>, AllocError>
    ensures value { IfOk result (λ asked. asked ≡ option_and_then asked_by (subcommand_rows_of matches.now)) }
{
    match matches.subcommand() {
        Some((name, found)) => asked_by(alloc, name, found),
        None => Ok(None),
    }
}

// What the command of this name asks for, with what was found of its options.
fn asked_by(alloc: Global, name: &str, found: &ArgMatches<'_>) -> Result<Option<Asked>, AllocError>
    ensures value { IfOk result (λ asked. asked ≡ asked_by (name.now, rows_of (found_of found.now))) }
{
    match key_of(found) {
        Some(key) => asked_as(alloc, name, found, key),
        None => Ok(None),
    }
}

// The key in what was found of a command's options.
fn key_of(found: &ArgMatches<'_>) -> Option<Key>
    ensures value { result ≡ option_and_then key_in (first_of (codes "key") (rows_of (found_of found.now))) }
{
    match word_of(found, "key") {
        Some(digits) => Key::from_hex(digits),
        None => None,
    }
}

// What the command of this name asks for with this key.
fn asked_as(
    alloc: Global,
    name: &str,
    found: &ArgMatches<'_>,
    key: Key,
) -> Result<Option<Asked>, AllocError>
    ensures value { IfOk result (λ asked. asked ≡ asked_as name.now (rows_of (found_of found.now)) key) }
{
    if name == "check" {
        check_as(alloc, found, key)
    } else if name == "audit" {
        Ok(Some(Asked::Audit(key)))
    } else if name == "run" {
        run_as(alloc, found, key)
    } else if name == "gen" {
        gen_as(alloc, found, key)
    } else if name == "accept" {
        Ok(Some(Asked::Accept(key)))
    } else if name == "follow" {
        Ok(Some(Asked::Follow(key)))
    } else if name == "upgrade" {
        Ok(Some(Asked::Upgrade(key)))
    } else if name == "resume" {
        Ok(Some(Asked::Resume(key)))
    } else if name == "sign" {
        Ok(sign_as(found, key))
    } else {
        Ok(None)
    }
}

// What `check` asks for with this key.
fn check_as(alloc: Global, found: &ArgMatches<'_>, key: Key) -> Result<Option<Asked>, AllocError>
    ensures value { IfOk result (λ asked. asked ≡ check_as (rows_of (found_of found.now)) key) }
{
    let receipts = flag_of(found, "receipts");
    match word_of(found, "seal") {
        None => Ok(Some(Asked::Check(CheckWords { key, receipts }))),
        Some(_) if receipts => Ok(None),
        Some(text) => {
            let path = PathWord::new(alloc, text)?;
            Ok(Some(Asked::Seal(SealWords { key, path })))
        }
    }
}

// What `run` asks for with this key.
fn run_as(alloc: Global, found: &ArgMatches<'_>, key: Key) -> Result<Option<Asked>, AllocError>
    ensures value { IfOk result (λ asked. asked ≡ run_as (rows_of (found_of found.now)) key) }
{
    match numbers_of(found) {
        Some(numbers) => {
            let logs = logs_of(alloc, found)?;
            let receipts = flag_of(found, "receipts");
            Ok(Some(Asked::Run(RunWords {
                key,
                numbers,
                logs,
                receipts,
            })))
        }
        None => Ok(None),
    }
}

// What `gen` asks for with this key.
fn gen_as(alloc: Global, found: &ArgMatches<'_>, key: Key) -> Result<Option<Asked>, AllocError>
    ensures value { IfOk result (λ asked. asked ≡ gen_as (rows_of (found_of found.now)) key) }
{
    match (load_of(found), numbers_of(found)) {
        (Some(load), Some(numbers)) => {
            let logs = logs_of(alloc, found)?;
            Ok(Some(Asked::Gen(GenWords {
                key,
                load,
                numbers,
                logs,
            })))
        }
        _ => Ok(None),
    }
}

// What `sign` asks for with this key.
fn sign_as(found: &ArgMatches<'_>, key: Key) -> Option<Asked>
    ensures value { result ≡ sign_as (rows_of (found_of found.now)) key }
{
    match sign_numbers_of(found) {
        Some(numbers) => Some(Asked::Sign(SignWords { key, numbers })),
        None => None,
    }
}

// Why clap refused the words.
fn refusal(error: &Error) -> WordsFault
    ensures usage { (result ≡ WordsFault.Usage) ↔ (kind_of error.now ≢ ErrorKind.OutOfMemory) }
{
    match error.kind() {
        ErrorKind::OutOfMemory => WordsFault::Memory,
        _ => WordsFault::Usage,
    }
}

impl From<AllocError> for WordsFault {
    ghost use Rattle.program_words.specs.declared.words.WordsFault.TheVariants.{Memory};

    ghost from_gives = { λ _ fault. fault ≡ Memory };

    fn from(_: AllocError) -> WordsFault {
        WordsFault::Memory
    }
}
