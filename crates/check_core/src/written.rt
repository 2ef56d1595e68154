//! What certified operations make, as it is written behind what is told of their epochs.
ghost use Rattle.std.specs.Prelude.{◌≡◌, ℕ, [], List, OnOk, OnErr};
ghost use Rattle.std.specs.List.{fold};
ghost use Rattle.fv_outside.specs.Faults.{Counts};
ghost use Rattle.fv_outside.specs.Written.{Grows, GrowsByFront};
ghost use Rattle.record_text.specs.declared.operation.Operation.{Operation};

use fv_outside::{Failed, Sink};
use operation_folds::{NothingMade, OperationFold};

/// A fold over operations that has a text.
pub trait WrittenFold: OperationFold {
    /// The text of what is made once these operations are added.
    ghost text_behind: { Self → List Operation → List ℕ };

    /// Writes the text of what is made. On `Failed` the sink holds a front of it.
    fn write<O: Sink>(&self, out: &mut O) -> Result<(), Failed>
        ensures whole { OnOk result (Grows (O.held out.old) (O.held out.new) (text_behind self.now [])) }
        ensures front { OnErr result (GrowsByFront (O.held out.old) (O.held out.new) (text_behind self.now [])) }
        ensures counts { Counts (O.faults out.old) (O.faults out.new) result };

    // What is made has the text.
    ghost text_is_of_state: { (old now : Self) (operations : List Operation)
        → Self.OperationFold.state now ≡ fold Self.OperationFold.step (Self.OperationFold.state old) operations
        → text_behind now [] ≡ text_behind old operations };
}

// Where nothing is made nothing is written.
impl WrittenFold for NothingMade {
    ghost use Rattle.std.specs.Prelude.{refl};

    ghost text_behind = { λ _ _. [] };

    ghost text_is_of_state = { λ _ _ _ _. refl };

    fn write<O: Sink>(&self, _out: &mut O) -> Result<(), Failed> {
        Ok(())
    }
}
