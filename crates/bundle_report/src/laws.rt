//! What follows from the definitions of a report. These functions do nothing: their contracts are the laws.
ghost use Rattle.std.specs.Prelude.{ℕ, List};
ghost use Rattle.record_hash.specs.Functions.{DigestFunctions};
ghost use Rattle.merkle_records.specs.Merkle.{GivesDigests};
ghost use Rattle.bundle_report.specs.Headline.{IsSound};

/// Of any bytes: the certified answers keep each verifier's order, and they are serial and there is nothing to
/// exhibit, or the exhibit of these bytes collides.
pub fn certified_answers_are_sound()
    ensures sound { (functions : DigestFunctions) (bytes : List ℕ)
        → GivesDigests functions.digest → IsSound functions bytes }
{}
