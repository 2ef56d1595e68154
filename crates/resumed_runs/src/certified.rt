//! What follows for runs that can be certified. The function does nothing: its contract is the laws.
ghost use Rattle.std.specs.Prelude.{◌≡◌, ℕ, suc, ◌+◌, List, length, map, slice_get, Some};
ghost use Rattle.std.specs.List.{AllByRecursion};
ghost use Rattle.lamport_clocks.specs.declared.header.Header.{Header};
ghost use Rattle.multiset_sum.specs.declared.part.Part.{Part};
ghost use Rattle.record_text.specs.declared.operation.Operation.{Operation};
ghost use Rattle.merkle_records.specs.Scheme.{Scheme};
ghost use Rattle.bundle_frames.specs.Bundle.{Frame};
ghost use Rattle.epoch_gather.specs.declared.outcome.Verdict.TheVariants.{Balanced};
ghost use Rattle.epoch_gather.specs.Verdict.{verdict_of};
ghost use Rattle.stamp_order.specs.Merged.{IsMerged};
ghost use Rattle.stamp_order.specs.Operations.{moment_of};
ghost use Rattle.verifier_run.specs.Progress.{Progress};
ghost use Rattle.verifier_run.specs.Taken.{left_of};
ghost use Rattle.verifier_run.specs.Likeness.{AreLike};
ghost use Rattle.bundle_report.specs.declared.judged.Judged.{Judged};
ghost use Rattle.bundle_report.specs.RunReport.{parts_at};
ghost use Rattle.bundle_report.specs.Judged.{CanBeJudged, first_parts};
ghost use Rattle.bundle_report.specs.SoFar.{HaveRead, runs_behind};
ghost use Rattle.resumed_runs.specs.Base.{AllCanBeCertified};

/// Runs that have read logs can be certified from the first epoch on that is not counted. They still can once they took frames and, from the
/// next epoch on, once a balanced one is taken out of them. So can runs that are like them. What they have of each epoch can be judged; the parts
/// are of the epochs from that one on; and the operations of each run stand in the order of their moments.
pub fn runs_can_be_certified()
    ensures read { (scheme : Scheme) (header : Header) (logs : List (List ℕ)) (so_far : Judged) (runs : List (Progress Operation))
        → HaveRead scheme header logs so_far runs
        → AllCanBeCertified (header.first + so_far.count) 0 runs }
    ensures frames { (epoch number : ℕ) (runs : List (Progress Operation)) (scheme : Scheme) (frames : List Frame)
        → AllCanBeCertified epoch number runs
        → AllCanBeCertified epoch number (runs_behind scheme number runs frames) }
    ensures turned { (epoch : ℕ) (runs : List (Progress Operation))
        → AllCanBeCertified epoch 0 runs
        → verdict_of (length runs) epoch (parts_at 0 (map (λ run. run.course) runs)) ≡ Balanced
        → AllCanBeCertified (suc epoch) 0 (map (left_of epoch) runs) }
    ensures alike { (epoch number : ℕ) (runs others : List (Progress Operation))
        → AreLike runs others → AllCanBeCertified epoch number runs
        → AllCanBeCertified epoch number others }
    ensures judged { (epoch index : ℕ) (runs : List (Progress Operation))
        → AllCanBeCertified epoch 0 runs
        → CanBeJudged (length runs) (parts_at index (map (λ run. run.course) runs)) }
    ensures epochs { (epoch index : ℕ) (runs : List (Progress Operation)) (part : Part)
        → AllCanBeCertified epoch 0 runs
        → slice_get (first_parts (map (λ run. run.course) runs)) index ≡ Some part
        → part.epoch ≡ epoch + index }
    ensures in_order { (epoch number : ℕ) (runs : List (Progress Operation))
        → AllCanBeCertified epoch number runs
        → AllByRecursion (λ run. IsMerged moment_of run.course.items) runs }
{}
