//! Where a node's pointer leads, seen from a path below the node.

/// Where a node's pointer leads, seen from a path below the node on that side.
#[derive(Clone, Copy, Debug, PartialEq, Eq)]
pub enum AddCase {
    /// Nowhere.
    Empty,
    /// To the path itself.
    Same,
    /// To a path properly below it.
    Split,
    /// Elsewhere.
    Foreign,
}
