//! A vault over files of the machine.
ghost use Rattle.std.specs.Prelude.{◌≡◌, ◌<◌, ◌≤◌, true, None, length, IfOk, is_ok};
ghost use Rattle.fv_outside.specs.Faults.{Counts, faults_after};
ghost use Rattle.fv_outside.specs.FileVaultState.{new_file_vault, IsFresh};

use crate::errors::Failed;
use crate::sinks::{Sink, Vault};
use crate::std_streams::write_through;
use std::fs::File;
use std::marker::Model;
use std::rt::Files;

/// A vault over a new file, which is made at the path that names it. Where something is at that path
/// already, naming fails and leaves it as it is. A vault that was never named drops what it is given.
/// It tells neither its bytes nor its name.
///
/// Each error counts as a fault, and so does each write that took nothing. Making a file takes
/// memory for a moment: want of it is a fault too.
#[derive(Drop)]
pub struct FileVault<R: Files> {
    files: R,
    file: Option<R::File>,
    is_written: bool,
    faults: u64,
}

impl<R: Files> Model for FileVault<R> {
    ghost use Rattle.std.specs.Prelude.{is_some};
    ghost use Rattle.fv_outside.specs.FileVaultState.{FileVaultState};

    ghost Value = { FileVaultState };

    ghost view = { λ v. record { is_named = is_some v.file; is_written = v.is_written; faults = v.faults } };
}

impl<R: Files> FileVault<R> {
    /// A vault that will make its file by `files`.
    pub fn new(files: R) -> FileVault<R>
        ensures made { result ≡ new_file_vault }
    {
        FileVault {
            files,
            file: None,
            is_written: false,
            faults: 0,
        }
    }

    /// How many calls failed.
    pub fn faults(&self) -> u64
        ensures value { result ≡ self.now.faults }
    {
        self.faults
    }
}

impl<R: Files> Sink for FileVault<R> {
    ghost held = { λ _. None };

    ghost faults = { λ v. v.faults };

    fn write(&mut self, piece: &[u8]) -> Result<usize, Failed>
        requires not_empty { 0 < length piece.now }
        ensures bound { IfOk result (λ n. (1 ≤ n) × (n ≤ length piece.now)) }
        ensures counts { Counts self.old.faults self.new.faults result }

        ensures after { self.new ≡ record self.old { is_written = true; faults = faults_after self.old.faults result } }
    {
        self.is_written = true;
        let taken = match &mut self.file {
            Some(file) => write_through(file, piece),
            None => Some(piece.len()),
        };
        match taken {
            Some(count) => Ok(count),
            None => {
                self.faults = self.faults.saturating_add(1);
                Err(Failed)
            }
        }
    }
}

impl<R: Files> Vault for FileVault<R> {
    ghost fresh = { IsFresh };

    fn name(&mut self, path: &str) -> Result<(), Failed>
        requires fresh { IsFresh self.old }
        ensures counts { Counts self.old.faults self.new.faults result }

        ensures after { self.new ≡ record self.old { is_named = is_ok result; faults = faults_after self.old.faults result } }
    {
        match File::create_new(&self.files, path) {
            Ok(file) => {
                self.file = Some(file);
                Ok(())
            }
            Err(_) => {
                self.faults = self.faults.saturating_add(1);
                Err(Failed)
            }
        }
    }

    ghost fresh_holds_nothing = { λ _ _. tt };

    ghost fresh_has_no_name = { λ _ _. tt };
}
