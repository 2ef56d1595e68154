//! The one error of the objects from outside.
/// An object from outside failed. It is the one error of a source, a sink, a vault or a counter.
#[derive(Clone, Copy, Debug, PartialEq, Eq)]
pub struct Failed;
