//! Which records were touched.
ghost use Rattle.std.specs.Prelude.{List, Bool, IfSome};
ghost use Rattle.host_shard.specs.Records.{Listed};
ghost use Rattle.host_shard.specs.Touched.{Lists, AreNoted, AreAmong};

use std::alloc::Global;
use tree_keys::Path;

/// The paths of the records that were touched since all touches were forgotten, as long as there was memory to list them.
#[derive(Drop)]
pub(crate) struct Touched {
    pub(crate) paths: Vec<Path>,
    pub(crate) is_whole: bool,
}

impl Touched {
    // No path. The list takes its memory as it grows.
    pub(crate) fn new(alloc: Global) -> Self {
        Touched {
            paths: Vec::new(alloc),
            is_whole: true,
        }
    }

    // Lists a path. For want of memory the list isn't whole any more.
    pub(crate) fn note(&mut self, path: &Path)
        ensures noted { Lists self.new path.now }
        ensures others { (k : List Bool) → Lists self.old k → Lists self.new k }
    {
        match self.paths.push(*path) {
            Ok(()) => {}
            Err(_) => self.is_whole = false,
        }
    }

    // The paths, if they are all that were touched.
    pub(crate) fn all(&self) -> Option<&[Path]>
        ensures all { (listed : Listed) → AreNoted self.now listed → IfSome result (λ paths. AreAmong paths.now listed) }
    {
        if self.is_whole {
            Some(self.paths.as_slice())
        } else {
            None
        }
    }

    // Lists no path any more, and keeps its memory.
    pub(crate) fn clear(&mut self) {
        self.paths.clear();
        self.is_whole = true;
    }
}
