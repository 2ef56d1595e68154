//! The shape of a load that is made in place of a script.

/// How many requests a load has, and of which kind.
#[derive(Clone, Copy, Debug, PartialEq, Eq)]
pub struct Shape {
    /// How many requests there are.
    pub ops: u32,
    /// How many workers they are for, each in its turn.
    pub verifiers: u16,
    /// How many keys a worker is asked for.
    pub keys: u32,
    /// Behind how many requests an epoch closes each time.
    pub every: u32,
}
