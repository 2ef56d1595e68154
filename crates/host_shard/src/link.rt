//! The links of a chain.
ghost use Rattle.std.specs.Prelude.{◌≡◌};
ghost use Rattle.tree_keys.specs.Path.{tree_of};
ghost use Rattle.host_shard.specs.Chain.{new_link, fork_link};

use record_text::{Node, Pointer, Value, initial};
use tree_keys::Path;

/// A path of a chain: it is added with `value`, and stands in the cache with `taken`. The two differ at a fork, a new node
/// that takes a pointer over.
#[derive(Debug, Drop)]
pub struct Link {
    pub path: Path,
    pub value: Value,
    pub taken: Value,
}

impl Link {
    // A path that has no record yet.
    pub(crate) fn new(path: &Path) -> Self
        ensures value { result ≡ new_link path.now }
    {
        Link {
            path: *path,
            value: initial(path),
            taken: initial(path),
        }
    }

    // A record with this value, as it is.
    pub(crate) fn known(path: &Path, value: &Value) -> Self
        ensures value { result ≡ record { path = path.now; value = value.now; taken = value.now } }
    {
        Link {
            path: *path,
            value: value.copy(),
            taken: value.copy(),
        }
    }

    // The node at which a key parts from a pointer that leads past it.
    pub(crate) fn fork(key: &Path, pointer: &Pointer) -> Self
        requires one_tree { tree_of pointer.now.path ≡ tree_of key.now }
        ensures value { result ≡ fork_link key.now pointer.now }
    {
        let path = pointer.path.common(key);
        let node = match path.side(&pointer.path) {
            Some(side) => Node::empty().with_side(side, Some(*pointer)),
            None => Node::empty(),
        };
        Link {
            path,
            value: initial(&path),
            taken: Value::Node(node),
        }
    }
}
