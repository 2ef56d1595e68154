//! What reading at the front of a log answers.

/// What bytes begin with.
#[derive(Clone, Debug, PartialEq, Eq, Drop)]
pub enum Decoded<C> {
    /// A command, and how many bytes it takes.
    Read(C, usize),
    /// No command, whatever follows the bytes.
    Malformed,
    /// The bytes end in the middle of a command, or are none.
    Truncated,
}
