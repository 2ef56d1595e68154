//! Tasks, with the bytes of their data values in one list.
ghost use Rattle.std.specs.Prelude.{◌≡◌, ◌≤◌, ◌++◌, ◌∷◌, [], length, OnOk, OnErr};
ghost use Rattle.std.specs.List.{slice_range};

use crate::head::{Head, value_bytes};
use crate::phase::Phase;
use crate::task::Task;
use base_words::Memory;
use std::alloc::Global;
use std::marker::Model;

/// Tasks in order: a head of each, and the bytes of their data values in one list. Contracts see the list of the tasks.
#[derive(Debug, Drop)]
pub(crate) struct TaskList {
    heads: Vec<Head>,
    bytes: Vec<u8>,
}

impl Model for TaskList {
    ghost use Rattle.std.specs.Prelude.{List, map};
    ghost use Rattle.std.specs.List.{AllByRecursion};
    ghost use Rattle.script_text.specs.declared.task.Task.{Task};
    ghost use Rattle.script_text.specs.Heads.{task_of, IsWithin};

    ghost Value = { List Task };

    ghost view = { λ l. map (task_of l.bytes.items) l.heads.items };

    ghost invariant = { λ l. AllByRecursion (IsWithin l.bytes.items) l.heads.items };
}

impl TaskList {
    /// No tasks.
    pub(crate) fn new(alloc: Global) -> Self
        ensures none { result ≡ [] }
    {
        TaskList {
            heads: Vec::new(alloc),
            bytes: Vec::new(alloc),
        }
    }

    /// How many tasks there are.
    pub(crate) fn len(&self) -> usize
        ensures value { result ≡ length self.now }
    {
        self.heads.len()
    }

    /// Adds a task at the end.
    pub(crate) fn push(&mut self, task: &Task) -> Result<(), Memory>
        ensures added { OnOk result (self.new ≡ self.old ++ task.now ∷ []) }
        ensures err { OnErr result (self.new ≡ self.old) }
    {
        let head = Head::new(task, self.bytes.len());
        self.heads.reserve(1)?;
        self.bytes
            .extend_from_slice(value_bytes(&task.request.value))?;
        self.heads.push_reserved(head);
        Ok(())
    }

    /// The tasks from one number on, up to another, which is not of them.
    pub(crate) fn between(&self, begin: usize, end: usize) -> Phase<'_>
        requires order { begin ≤ end }
        requires within { end ≤ length self.now }
        ensures value { result ≡ slice_range self.now begin end }
    {
        Phase::new(&self.heads[begin..end], &self.bytes)
    }
}
