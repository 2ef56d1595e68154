//! What follows from the definition of the bundle of a host. These functions do nothing: their contracts are the laws.
ghost use Rattle.std.specs.Prelude.{◌<◌, ◌^◌, ◌++◌, ◌≡◌, ◌∷◌, [], ℕ, List, length};
ghost use Rattle.lamport_clocks.specs.declared.header.Header.{Header};
ghost use Rattle.lamport_clocks.specs.Header.{IsHeader};
ghost use Rattle.bundle_frames.specs.Bundle.{header_text};
ghost use Rattle.bundle_report.specs.Logs.{empty_logs};
ghost use Rattle.host_rounds.specs.Round.{logs_with, round_text};
ghost use Rattle.host_rounds.specs.Bundle.{IsBundle};

use host_log::bundles_hold_the_logs;

/// A header is the bundle of no rounds, and the frames of a round behind a bundle are the bundle of one round more.
pub fn rounds_make_a_bundle()
    ensures opened { (header : Header) → IsHeader header → header.first < 2 ^ 32
        → IsBundle header (empty_logs header.verifiers) [] (header_text header) }
    ensures more { (header : Header) (logs round : List (List ℕ)) (rounds : List (List (List ℕ))) (bytes : List ℕ) → IsBundle header logs rounds bytes
        → length round ≡ header.verifiers
        → IsBundle header (logs_with logs round) (rounds ++ (round ∷ [])) (bytes ++ round_text round) }
{
    bundles_hold_the_logs();
}
