//! The operations of several verifiers in their one order.
ghost use Rattle.std.specs.Prelude.{◌≡◌, IfOk};
ghost use Rattle.stamp_order.specs.Merged.{up_to};
ghost use Rattle.stamp_order.specs.Operations.{moment_of, merged_up_to};

use crate::moment::Moment;
use base_words::Memory;
use record_text::Operation;
use std::alloc::Global;

/// All operations up to an epoch, in one order: by the clock, then the verifier, then the number in its log.
/// A verifier's operations stay in the order of its log.
pub fn merge(alloc: Global, ops: &[Operation], epoch: u32) -> Result<Vec<Operation>, Memory>
    ensures merged { IfOk result (λ v. v.items ≡ merged_up_to epoch ops.now) }
{
    let mut kept = kept_up_to(alloc, ops, epoch)?;
    kept.sort_by_key(Moment::of)?;
    Ok(kept)
}

// Copies of the operations up to an epoch, as they stand.
fn kept_up_to(alloc: Global, ops: &[Operation], epoch: u32) -> Result<Vec<Operation>, Memory>
    ensures kept { IfOk result (λ v. v.items ≡ up_to moment_of epoch ops.now) }
{
    let mut kept = Vec::new(alloc);
    for op in ops {
        if op.stamp.epoch <= epoch {
            kept.push(op.copy())?;
        }
    }
    Ok(kept)
}
