//! Why what is kept of a bundle has a text: each verifier has come to what the tests of a seal allow. The functions do nothing: their contracts
//! are the laws.
ghost use Rattle.std.specs.Prelude.{◌≡◌, ◌<◌, ◌≤◌, ◌^◌, ℕ, List, ◌++◌, length, Ok, All};
ghost use Rattle.lamport_clocks.specs.declared.header.Header.{Header};
ghost use Rattle.lamport_clocks.specs.Header.{IsHeader};
ghost use Rattle.record_hash.specs.Functions.{DigestFunctions};
ghost use Rattle.record_hash.specs.Digests.{AreLanes};
ghost use Rattle.merkle_records.specs.Merkle.{GivesDigests};
ghost use Rattle.merkle_records.specs.Scheme.{scheme_of};
ghost use Rattle.seals.specs.State.{KeptRun, Seal};
ghost use Rattle.seals.specs.Seal.{most_taken, tag_bytes, seal_at, seal_text, IsGoodSeal};
ghost use Rattle.seals.specs.Meaning.{HasStood};
ghost use Rattle.verifier_run.specs.Kept.{keeps_operations};
ghost use Rattle.verifier_run.specs.Progress.{opening_progress, fed};
ghost use Rattle.verifier_run.specs.Sealed.{IsKeptOf};
ghost use Rattle.bundle_report.specs.SoFar.{left_from};
ghost use Rattle.resumed_runs.specs.Kept.{IsSealOf};

use record_hash::Digests;
use seals::{bounds_say_more, seals_are_read_back, what_stands_is_good};

/// Any digests give eight lanes of 32 bits: the law of their trait, handed on.
pub fn digests_give_lanes<D: Digests>(d: &D)
    ensures lanes { (text : List ℕ) → AreLanes ((D.functions d.now).lanes text) }
{
    let _ = d;
}

/// What is kept of the run of a verifier over its log, with so many epochs taken out, of each of which it had handed in its part, has stood as a
/// verifier can have. So what a seal keeps of a whole bundle is within the bounds, and it is read back from its text and any tag, whatever follows.
pub fn what_is_kept_has_stood()
    ensures run { (functions : DigestFunctions) (header : Header) (certified taken number : ℕ) (log : List ℕ) (kept : KeptRun)
        → GivesDigests functions.digest → ((text : List ℕ) → AreLanes (functions.lanes text))
        → IsHeader header → header.first < 2 ^ 32
        → All (λ byte. byte < 256) log → length log ≤ taken → taken ≤ most_taken
        → certified ≤ length (fed keeps_operations (scheme_of functions header) (opening_progress number header) log).course.parts
        → IsKeptOf (left_from header.first certified (fed keeps_operations (scheme_of functions header) (opening_progress number header) log)).course kept
        → HasStood header certified taken number kept }
    ensures seal { (functions : DigestFunctions) (bytes : List ℕ) (seal : Seal)
        → GivesDigests functions.digest → ((text : List ℕ) → AreLanes (functions.lanes text))
        → All (λ byte. byte < 256) bytes → length bytes ≤ most_taken
        → IsSealOf functions bytes seal → seal.counter < 2 ^ 64
        → IsGoodSeal seal }
    ensures read_back { (functions : DigestFunctions) (bytes tag rest : List ℕ) (seal : Seal)
        → GivesDigests functions.digest → ((text : List ℕ) → AreLanes (functions.lanes text))
        → All (λ byte. byte < 256) bytes → length bytes ≤ most_taken
        → IsSealOf functions bytes seal → seal.counter < 2 ^ 64 → length tag ≡ tag_bytes
        → seal_at (seal_text seal ++ tag ++ rest) ≡ Ok ((seal, tag), rest) }
{
    bounds_say_more();
    seals_are_read_back();
    what_stands_is_good();
}
