//! Tables of records.
ghost use Rattle.std.specs.Prelude.{◌≡◌};
ghost use Rattle.host_epochs.specs.Table.{making};

use host_epochs::Epochs;
use record_hash::Digests;

/// The contents of the host's places, which workers take and give back in one epoch, each by its hand.
#[derive(Drop)]
pub struct Records<D: Digests> {
    pub(crate) epochs: Epochs<D>,
    // As it was made: what the rule was told stands in proofs alone.
    pub(crate) absent: bool,
    ghost one: { (making epochs).more ≡ 0 },
    ghost told: { absent ≡ (making epochs).absent },
}
