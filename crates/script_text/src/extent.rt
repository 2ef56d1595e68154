//! Where a phase stands among the tasks of a script.

/// A closed phase has the tasks from one number on, and up to another, which is not of it: 16 bytes.
#[derive(Clone, Copy, Debug)]
pub(crate) struct Extent {
    pub begin: usize,
    pub end: usize,
}
