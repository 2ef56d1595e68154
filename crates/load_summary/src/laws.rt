//! What follows from how operations are counted. This function does nothing: its contract is the law.
ghost use Rattle.std.specs.Prelude.{◌≡◌, ℕ, ◌+◌, ◌==◌, List, ◌++◌, count_by};
ghost use Rattle.record_text.specs.declared.operation.Operation.{Operation};
ghost use Rattle.std.specs.List.{fold};
ghost use Rattle.load_summary.specs.Tallies.{tally_of, tally_sum};
ghost use Rattle.load_summary.specs.Counting.{counted_of, with_operation};

/// The tally of two lists in a row is the sum of theirs, so it is the same in whatever pieces operations are counted. And a
/// worker's gets, puts and dels together are as many as it has operations: each is counted once. Operations that are counted one
/// after another, behind others, have the tallies of all of them.
pub fn tallies_add_up()
    ensures sums { (worker : ℕ) (front rest : List Operation)
        → tally_of worker (front ++ rest) ≡ tally_sum (tally_of worker front) (tally_of worker rest) }
    ensures once { (worker : ℕ) (ops : List Operation)
        → (tally_of worker ops).gets + (tally_of worker ops).puts + (tally_of worker ops).dels
        ≡ count_by (λ op. op.verifier == worker) ops }
    ensures counted { (workers : ℕ) (before ops : List Operation)
        → fold with_operation (counted_of workers before) ops ≡ counted_of workers (before ++ ops) }
{}
