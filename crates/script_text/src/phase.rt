//! The tasks of a phase, lent one after another.
ghost use Rattle.std.specs.Prelude.{◌≡◌, map};
ghost use Rattle.std.specs.List.{AllByRecursion};
ghost use Rattle.std.specs.Iterator.{YieldsFirst, item_count};
ghost use Rattle.script_text.specs.Heads.{task_of, IsWithin};

use crate::head::Head;
use crate::task_ref::TaskRef;
use std::marker::Model;

/// The tasks of a phase, in order, each as a `TaskRef`. Contracts see the list of those that are left.
#[derive(Debug, Drop)]
pub struct Phase<'a> {
    heads: &'a [Head],
    // The bytes of all data values.
    bytes: &'a [u8],
}

impl<'a> Model for Phase<'a> {
    ghost use Rattle.std.specs.Prelude.{List, map};
    ghost use Rattle.std.specs.List.{AllByRecursion};
    ghost use Rattle.script_text.specs.declared.task.Task.{Task};
    ghost use Rattle.script_text.specs.Heads.{task_of, IsWithin};

    ghost Value = { List Task };

    ghost view = { λ p. map (task_of p.bytes.now) p.heads.now };

    ghost invariant = { λ p. AllByRecursion (IsWithin p.bytes.now) p.heads.now };
}

impl<'a> Phase<'a> {
    /// The tasks of these heads, whose data values' bytes are among these.
    pub(crate) fn new(heads: &'a [Head], bytes: &'a [u8]) -> Self
        requires within { AllByRecursion (IsWithin bytes.now) heads.now }
        ensures value { result ≡ map (task_of bytes.now) heads.now }
    {
        Phase { heads, bytes }
    }
}

impl<'a> Iterator for Phase<'a> {
    type Item = TaskRef<'a>;

    ghost next_gives = { YieldsFirst (λ phase. phase) };

    ghost remaining = { item_count (λ phase. phase) };

    /// Takes the first.
    fn next(&mut self) -> Option<TaskRef<'a>> {
        let (head, heads) = self.heads.split_first()?;
        self.heads = heads;
        Some(TaskRef::new(head, self.bytes))
    }
}
