//! A fold over operations that come one at a time.
ghost use Rattle.std.specs.Prelude.{◌≡◌, OnOk};
ghost use Rattle.record_text.specs.declared.operation.Operation.{Operation};

use base_words::Memory;
use record_text::OperationRef;

/// What is made of operations as they come: a state, and a step from it by each operation.
pub trait OperationFold: Drop {
    /// What states are.
    ghost State: { Type 0 };

    /// What is made so far.
    ghost state: { Self → State };

    /// What is made with an operation more.
    ghost step: { State → Operation → State };

    /// Takes in the next operation. For want of memory it is of no more use.
    fn add(&mut self, operation: &OperationRef) -> Result<(), Memory>
        ensures added { OnOk result (state self.new ≡ step (state self.old) operation.now) };
}
