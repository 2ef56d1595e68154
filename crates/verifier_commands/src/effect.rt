//! What a step hands up of an accepted command.
use multiset_sum::Part;
use record_text::OperationRef;

/// What an accepted command answers, by references into the command.
#[derive(Debug, Drop)]
pub enum Effect<'a> {
    /// A record came or went.
    Plain,
    /// A get or a put.
    Did(OperationRef<'a>),
    /// The next epoch began, and none is sealed yet.
    Opened,
    /// The next epoch began, and the one before is sealed with these sums.
    Sealed(Part),
}
