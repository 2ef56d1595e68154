//! What follows from the definitions of runs. These functions do nothing: their contracts are the laws.
ghost use Rattle.std.specs.Prelude.{◌≡◌, ℕ, ◌+◌, ◌<◌, ◌≤◌, List, [], ◌++◌, length, None};
ghost use Rattle.lamport_clocks.specs.declared.header.Header.{Header};
ghost use Rattle.lamport_clocks.specs.Header.{IsHeader};
ghost use Rattle.merkle_records.specs.Scheme.{Scheme};
ghost use Rattle.record_text.specs.declared.operation.Operation.{Operation};
ghost use Rattle.seals.specs.State.{KeptRun};
ghost use Rattle.verifier_commands.specs.Event.{Event};
ghost use Rattle.verifier_commands.specs.Machine.{Machine, opening_machine};
ghost use Rattle.verifier_run.specs.Course.{Course, opening_course};
ghost use Rattle.verifier_run.specs.Progress.{Progress, between_commands, opening_progress, fed, ended, weight};
ghost use Rattle.verifier_run.specs.LogCourse.{log_course};
ghost use Rattle.verifier_run.specs.Order.{clock_of, HandsOut, GoesOn};
ghost use Rattle.verifier_run.specs.Kept.{keeps_operations};
ghost use Rattle.verifier_run.specs.Taken.{left_of};
ghost use Rattle.verifier_run.specs.Likeness.{IsLike};
ghost use Rattle.verifier_run.specs.Sealed.{run_from, IsKeptOf};
ghost use Rattle.verifier_run.specs.Under.{IsUnder};

use crate::kept::Kept;
use verifier_cache::slots_are_made_again;

/// Bytes that are fed in two pieces come to what they come to as one, wherever they are cut.
pub fn pieces_do_not_matter<T: Kept>()
    ensures joined { (scheme : Scheme) (progress : Progress T) (piece more : List ℕ)
        → fed T.keeps scheme (fed T.keeps scheme progress piece) more ≡ fed T.keeps scheme progress (piece ++ more) }

    // A command takes a byte at least: so many bytes, so many commands at most.
    ensures weight { (scheme : Scheme) (progress : Progress T) (piece : List ℕ)
        → weight (fed T.keeps scheme progress piece) ≤ weight progress + length piece }
{}

/// Once a log has been fed and has ended, the run has come to what the log's trace and its end come to.
pub fn logs_come_to_their_course<T: Kept>()
    ensures course { (scheme : Scheme) (machine : Machine) (log : List ℕ)
        → ended (fed T.keeps scheme (between_commands (opening_course machine)) log)
        ≡ between_commands (log_course T.keeps scheme machine log) }
{}

/// What is handed out stays, and more comes behind it, in the order of epochs: what is kept from the clock's epoch on, and
/// one part of each epoch that is sealed.
pub fn runs_go_on<T: Kept>()
    ensures fed { (scheme : Scheme) (progress : Progress T) (piece : List ℕ) → GoesOn T.epoch progress.course (fed T.keeps scheme progress piece).course }
    ensures ended { (progress : Progress T) → GoesOn T.epoch progress.course (ended progress).course }
{}

/// From its start on a run hands out what is kept in the order of its epochs, and one part of each epoch from the
/// header's first on. With so many parts its clock stands two epochs behind the last of them.
pub fn logs_are_handed_out_in_order<T: Kept>()
    ensures fed { (scheme : Scheme) (number : ℕ) (header : Header) (bytes : List ℕ)
        → let course : Course T = (fed T.keeps scheme (opening_progress number header) bytes).course in
        HandsOut T.epoch (opening_machine number header).state.clock (clock_of course) course.items course.parts }
    ensures log { (scheme : Scheme) (number : ℕ) (header : Header) (log : List ℕ)
        → let course : Course T = log_course T.keeps scheme (opening_machine number header) log in
        HandsOut T.epoch (opening_machine number header).state.clock (clock_of course) course.items course.parts }
    ensures clock { (scheme : Scheme) (number : ℕ) (header : Header) (bytes : List ℕ)
        → let course : Course T = (fed T.keeps scheme (opening_progress number header) bytes).course in
        0 < length course.parts → (clock_of course).at.epoch ≡ header.first + length course.parts + 1 }
{}

/// Once the clock has left the epoch behind what was taken, a run goes on without that as it would have with it.
pub fn what_was_taken_leaves_no_trace()
    ensures fed { (scheme : Scheme) (progress : Progress Operation) (piece : List ℕ) (through : ℕ)
        → through + 1 < (clock_of progress.course).at.epoch
        → fed keeps_operations scheme (left_of through progress) piece ≡ left_of through (fed keeps_operations scheme progress piece) }
    ensures ended { (progress : Progress Operation) (through : ℕ) → ended (left_of through progress) ≡ left_of through (ended progress) }
{}

/// Runs that are one but for the order in which their caches list entries by path stay so, and hand out the same.
pub fn like_runs_stay_like<T: Kept>()
    // Before the first byte a run is like itself.
    ensures opening { (number : ℕ) (header : Header) → let run : Progress T = opening_progress number header in IsLike run run }

    // What they are fed, and the log's end, leave them alike.
    ensures fed { (scheme : Scheme) (run other : Progress T) (piece : List ℕ) → IsLike run other
        → IsLike (fed T.keeps scheme run piece) (fed T.keeps scheme other piece) }
    ensures ended { (run other : Progress T) → IsLike run other → IsLike (ended run) (ended other) }

    // They have kept and handed in the same, and are refused for the same.
    ensures items { (run other : Progress T) → IsLike run other → other.course.items ≡ run.course.items }
    ensures parts { (run other : Progress T) → IsLike run other → other.course.parts ≡ run.course.parts }
    ensures refused { (run other : Progress T) → IsLike run other → other.course.refused ≡ run.course.refused }
{}

/// So do runs without what was taken of them.
pub fn like_runs_are_taken_alike()
    ensures left { (run other : Progress Operation) (through : ℕ) → IsLike run other → IsLike (left_of through run) (left_of through other) }
{}

/// The run that goes on from what was kept of a run with no cut command and no refusal is like that run. It is so of each run that was
/// fed from its start: that is under its header.
pub fn runs_go_on_from_what_was_kept()
    ensures like { (number : ℕ) (header : Header) (run : Progress Operation) (kept : KeptRun)
        → run.held ≡ [] → run.course.refused ≡ None → IsUnder number header run.course.machine → IsKeptOf run.course kept
        → IsLike run (run_from number header kept) }
    ensures opening { (number : ℕ) (header : Header) → IsHeader header → IsUnder number header (opening_machine number header) }
    ensures fed { (scheme : Scheme) (number : ℕ) (header : Header) (run : Progress Operation) (piece : List ℕ)
        → IsUnder number header run.course.machine
        → IsUnder number header (fed keeps_operations scheme run piece).course.machine }
{
    slots_are_made_again();
}
