//! The text of one command, while it is written.
use arrayvec::ArrayVec;

/// The most bytes of a command's text, whatever it names: an add of the longest data value by its parent, whose paths are of
/// the tree whose keys have 128 bits.
pub const LONGEST_COMMAND_TEXT: usize = 292;

/// Room for the text of any command.
pub type CommandText = ArrayVec<u8, LONGEST_COMMAND_TEXT>;
