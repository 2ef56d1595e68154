//! What follows from the definition of frames. These functions do nothing: their contracts are the laws.
ghost use Rattle.std.specs.Prelude.{◌≡◌, ◌≢◌, ℕ, ◌<◌, ◌^◌, List, [], ◌++◌, Some, None};
ghost use Rattle.std.specs.List.{flat_map, AllByRecursion};
ghost use Rattle.lamport_clocks.specs.declared.header.Header.{Header};
ghost use Rattle.lamport_clocks.specs.Header.{IsHeader};
ghost use Rattle.bundle_frames.specs.Bundle.{Frame, IsFrame, header_text, bundle_of, log_of};
ghost use Rattle.host_log.specs.Frames.{frames_of, frames_of_pieces, pieces_text};

use bundle_frames::bundles_are_read_back;

/// Frames of bytes are frames of a bundle, and their bodies join to the bytes. They add nothing to another log.
pub fn frames_join_to_the_bytes()
    ensures frames { (verifiers verifier : ℕ) (bytes : List ℕ) → verifier < verifiers
        → AllByRecursion (IsFrame verifiers) (frames_of verifier bytes) }
    ensures joined { (verifier : ℕ) (bytes : List ℕ)
        → log_of verifier (frames_of verifier bytes) ≡ bytes }
    ensures apart { (verifier other : ℕ) (bytes : List ℕ) → verifier ≢ other
        → log_of other (frames_of verifier bytes) ≡ [] }
{}

/// A header and the frames of pieces of logs, of any length, are a bundle with nothing bad in it, and each of its logs
/// is the pieces of that log, joined.
pub fn bundles_hold_the_logs()
    ensures bundle { (header : Header) (pieces : List Frame) → IsHeader header → header.first < 2 ^ 32
        → AllByRecursion (λ piece. piece.verifier < header.verifiers) pieces
        → bundle_of (header_text header ++ pieces_text pieces)
        ≡ record { header = Some header; frames = frames_of_pieces pieces; bad = None } }
    ensures logs { (verifier : ℕ) (pieces : List Frame)
        → log_of verifier (frames_of_pieces pieces) ≡ log_of verifier pieces }
{
    bundles_are_read_back();
}
