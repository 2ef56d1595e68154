//! A command that was read ahead, and what it will ask for.
use arrayvec::ArrayVec;
use log_codec::{Command, LogCommand};
use record_text::LONGEST_ELEMENT_TEXT;

/// A command, and how many bytes of the log it takes.
#[derive(Drop)]
pub struct ReadCommand {
    pub command: LogCommand,
    pub len: usize,
}

impl ReadCommand {
    /// What stands in a place before a command is read into it.
    pub(crate) fn nothing() -> Self {
        ReadCommand {
            command: LogCommand::ByPath(Command::NextEpoch),
            len: 0,
        }
    }
}

/// What a command will ask for, as far as the log tells.
#[derive(Clone, Copy, Debug, PartialEq, Eq)]
pub enum AskedKind {
    /// Nothing that is known ahead.
    Nothing,
    /// The digest of a value.
    Digest,
    /// The digest of the value that the command at this place brought in.
    DigestOf(usize),
    /// The lanes of an element.
    Lanes,
}

/// What the command at a place of a window will ask for: of which text, and what of it is known.
#[derive(Drop)]
pub struct Asked {
    pub kind: AskedKind,
    pub text: ArrayVec<u8, LONGEST_ELEMENT_TEXT>,
    pub digest: Option<[u8; 32]>,
    pub lanes: Option<[u32; 8]>,
}

impl Asked {
    ghost use Rattle.std.specs.Prelude.{◌≡◌, [], None};
    ghost use Rattle.command_window.specs.Window.{IsForgotten};

    /// Nothing.
    pub(crate) fn nothing() -> Self
        ensures forgotten { IsForgotten result }
    {
        Asked {
            kind: AskedKind::Nothing,
            text: ArrayVec::new(),
            digest: None,
            lanes: None,
        }
    }

    /// It asks for nothing then.
    pub(crate) fn forget(&mut self)
        ensures forgotten { IsForgotten self.new }
    {
        self.kind = AskedKind::Nothing;
        self.text.clear();
        self.digest = None;
        self.lanes = None;
    }
}
