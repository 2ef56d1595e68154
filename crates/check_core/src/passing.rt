//! A batch that is read and fed: while its first frames are fed, the rest is read.
ghost use Rattle.std.specs.Prelude.{◌+◌, ◌*◌, ◌<◌, ◌≤◌, ◌++◌, ◌^◌, List, IsSome, OnOk};
ghost use Rattle.std.specs.List.{AllByRecursion};
ghost use Rattle.verifier_run.specs.Progress.{weight};
ghost use Rattle.bundle_frames.specs.Bundle.{Frame};
ghost use Rattle.bundle_frames.specs.Extent.{IsDue};
ghost use Rattle.check_core.specs.Batch.{bytes_of, HasFilled};
ghost use Rattle.check_core.specs.Feeding.{AllRead};

use crate::batch::{BATCH_FRAMES, Batch, Filled};
use crate::feeding::{FEW_BYTES, feed_batch};
use base_words::Memory;
use bundle_frames::BundleReader;
use certified_epochs::FedRun;
use fv_outside::Source;
use record_hash::Digests;
use std::alloc::Global;
use std::thread::{Threads, join_mut};

/// So many frames of a batch are read first. The rest is read while these are fed.
pub const FIRST_FRAMES: usize = 16;

/// Reads a batch and feeds it to the runs: its first frames, and while these are fed, the rest. After want of memory batch
/// and reader are of no more use.
pub fn pass_batch<R: Threads + Sync, D: Digests + Sync, S: Source>(
    rt: &R,
    alloc: Global,
    d: &D,
    reader: &mut BundleReader,
    source: &mut S,
    runs: &mut [FedRun],
    first: &mut Batch,
    rest: &mut Batch,
) -> Result<Filled, Memory>
    requires due { IsDue reader.old.progress }
    requires header { IsSome reader.old.progress.header }
    requires limit { reader.old.limit ≤ 2 ^ 41 }
    requires weights { AllByRecursion (λ fed. weight fed.run ≤ reader.old.progress.offset) runs.old }

    // Some frames were read, and each run took those of its verifier.
    ensures passed { (frames : List Frame)
        × HasFilled 64 frames result reader.old reader.new (S.left source.old) (S.left source.new) (S.faults source.old) (S.faults source.new)
        × OnOk result (AllRead (D.functions d.now) 0 frames runs.old runs.new) }
{
    let filled = first.fill(alloc, reader, source, FIRST_FRAMES)?;
    if let Filled::Whole = filled {
        let filled = feed_and_fill(rt, alloc, d, reader, source, runs, first, rest)?;
        feed_batch(rt, d, rest, runs);
        return Ok(filled);
    }
    feed_batch(rt, d, first, runs);
    Ok(filled)
}

// Feeds the first frames of a batch while the rest is read, in threads of their own where there are many bytes to be fed to
// several runs. A single run is fed as fast where its frames were read.
fn feed_and_fill<R: Threads + Sync, D: Digests + Sync, S: Source>(
    rt: &R,
    alloc: Global,
    d: &D,
    reader: &mut BundleReader,
    source: &mut S,
    runs: &mut [FedRun],
    first: &Batch,
    rest: &mut Batch,
) -> Result<Filled, Memory>
    requires due { IsDue reader.old.progress }
    requires header { IsSome reader.old.progress.header }
    requires room { AllByRecursion (λ fed. weight fed.run + bytes_of first.now < 2 ^ 63) runs.old }
    ensures filled { HasFilled 48 rest.new result reader.old reader.new
        (S.left source.old) (S.left source.new) (S.faults source.old) (S.faults source.new) }
    ensures taken { AllRead (D.functions d.now) 0 first.now runs.old runs.new }
{
    if first.bytes() < FEW_BYTES || runs.len() < 2 {
        feed_batch(rt, d, first, runs);
        return rest.fill(alloc, reader, source, BATCH_FRAMES - FIRST_FRAMES);
    }
    let mut feed = ||
        requires { AllByRecursion (λ fed. weight fed.run + bytes_of first.now < 2 ^ 63) runs.now }
        ensures { AllRead (D.functions d.entry.now) 0 first.entry.now runs.entry.now runs.exit.now }
    { feed_batch(rt, d, first, runs) };
    let mut read = ||
        requires { IsDue reader.now.progress × IsSome reader.now.progress.header }
        ensures { HasFilled 48 rest.exit.now result reader.entry.now reader.exit.now
            (S.left source.entry.now) (S.left source.exit.now) (S.faults source.entry.now) (S.faults source.exit.now) }
    { rest.fill(alloc, reader, source, BATCH_FRAMES - FIRST_FRAMES) };
    let (_, filled) = join_mut(rt, &mut feed, &mut read);
    filled
}
