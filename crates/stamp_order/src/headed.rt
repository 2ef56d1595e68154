//! A list of operations with its first at hand.
ghost use Rattle.std.specs.Prelude.{◌≡◌, ◌∷◌, [], None, IfSome, option_copied, slice_get};

use operation_queue::Operations;
use record_text::OperationRef;
use std::marker::Model;
use std::mem::replace;

/// Operations whose first can be looked at. Contracts see the list of them.
#[derive(Drop)]
pub(crate) struct Headed<'a> {
    first: Option<OperationRef<'a>>,
    rest: Operations<'a>,
}

impl<'a> Model for Headed<'a> {
    ghost use Rattle.std.specs.Prelude.{◌≡◌, List, [], ◌++◌, None};
    ghost use Rattle.std.specs.Option.{option_to_list};
    ghost use Rattle.record_text.specs.declared.operation.Operation.{Operation};

    ghost Value = { List Operation };

    ghost view = { λ h. option_to_list h.first ++ h.rest };

    ghost invariant = { λ h. h.first ≡ None → h.rest ≡ [] };
}

impl<'a> Headed<'a> {
    /// The same operations.
    pub(crate) fn new(operations: Operations<'a>) -> Self
        ensures value { result ≡ operations.entry }
    {
        let mut rest = operations;
        let first = rest.next();
        Headed { first, rest }
    }

    /// The first, if there is any.
    pub(crate) fn first(&self) -> Option<&OperationRef<'a>>
        ensures value { option_copied result ≡ slice_get self.now 0 }
    {
        self.first.as_ref()
    }

    /// Takes the first, if there is any.
    pub(crate) fn take(&mut self) -> Option<OperationRef<'a>>
        ensures some { IfSome result (λ first. self.old ≡ first ∷ self.new) }
        ensures none { result ≡ None → (self.old ≡ []) × (self.new ≡ []) }
    {
        let next = self.rest.next();
        replace(&mut self.first, next)
    }
}
