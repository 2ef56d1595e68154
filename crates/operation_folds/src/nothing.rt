//! Nothing is made of operations.

use crate::folding::OperationFold;
use base_words::Memory;
use record_text::OperationRef;

/// Makes nothing of operations, for whoever only wants their lines.
#[derive(Drop)]
pub struct NothingMade;

impl OperationFold for NothingMade {
    ghost use Rattle.std.specs.Prelude.{◌≡◌, ⊤, Ok};

    ghost State = { ⊤ };

    ghost state = { λ _. tt };

    ghost step = { λ _ _. tt };

    fn add(&mut self, _operation: &OperationRef) -> Result<(), Memory>
        ensures fine { result ≡ Ok tt }
    {
        Ok(())
    }
}
