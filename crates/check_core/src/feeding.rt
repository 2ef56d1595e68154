//! Frames, fed to the runs of their verifiers, side by side.
ghost use Rattle.std.specs.Prelude.{◌+◌, ◌<◌, ◌^◌, map};
ghost use Rattle.std.specs.List.{AllByRecursion};
ghost use Rattle.verifier_run.specs.Progress.{weight};
ghost use Rattle.check_core.specs.Batch.{frame_in, bytes_of};
ghost use Rattle.check_core.specs.Feeding.{Reads, AllRead};

use crate::batch::{Batch, FrameHolder};
use certified_epochs::FedRun;
use record_hash::Digests;
use std::thread::{Threads, for_each_mut};

/// Frames of fewer bytes are fed where they were read: to start threads would take longer.
pub const FEW_BYTES: u64 = 65_536;

/// Feeds each run the frames of its verifier, in order, side by side where there are many bytes.
pub fn feed_batch<R: Threads + Sync, D: Digests + Sync>(
    rt: &R,
    d: &D,
    batch: &Batch,
    runs: &mut [FedRun],
)
    requires room { AllByRecursion (λ fed. weight fed.run + bytes_of batch.now < 2 ^ 63) runs.old }

    ensures taken { AllRead (D.functions d.now) 0 batch.now runs.old runs.new }
{
    let threads = if batch.bytes() < FEW_BYTES {
        1
    } else {
        runs.len().max(1)
    };
    let holders = batch.holders();
    for_each_mut(
        rt,
        runs,
        threads,
        &|index: usize, fed: &mut FedRun|
            requires { weight fed.now.run + bytes_of (map frame_in holders.now) < 2 ^ 63 }
            ensures { Reads (D.functions d.entry.now) index (map frame_in holders.entry.now) fed.entry.now fed.exit.now }
        { feed_own(d, holders, index, fed) },
    );
}

// Feeds a run the frames of the verifier of this number, in order.
fn feed_own<D: Digests>(d: &D, holders: &[FrameHolder], number: usize, fed: &mut FedRun)
    requires room { weight fed.old.run + bytes_of (map frame_in holders.now) < 2 ^ 63 }
    ensures takes { Reads (D.functions d.now) number (map frame_in holders.now) fed.old fed.new }
{
    for holder in holders {
        if usize::from(holder.verifier) == number {
            fed.feed(d, holder.body.body());
        }
    }
}
