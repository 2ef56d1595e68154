//! What follows from the definitions of bundles. These functions do nothing: their contracts are the laws.
ghost use Rattle.std.specs.Prelude.{◌≡◌, ℕ, ◌^◌, ◌<◌, ◌≤◌, List, ◌++◌, length, take, All, Some, None};
ghost use Rattle.std.specs.List.{AllByRecursion};
ghost use Rattle.lamport_clocks.specs.declared.header.Header.{Header};
ghost use Rattle.lamport_clocks.specs.Header.{IsHeader};
ghost use Rattle.bundle_frames.specs.Bundle.{Frame, header_bytes, header_text, header_in, frame_text, frame_in, frame_bytes, IsFrame, longest_body, bundle_of, with_frames, bundle_text, frames_up_to, frames_from};
ghost use Rattle.bundle_frames.specs.Extent.{reading_end};
ghost use Rattle.bundle_frames.specs.Reading.{resumed_reading, ahead, end_ahead};

/// A header in its ranges is read back from its text, whatever follows. What is read is spelled so, and in
/// its ranges. The text has as many bytes as its version says.
pub fn headers_are_read_back()
    ensures read { (header : Header) (more : List ℕ) → IsHeader header → header.first < 2 ^ 32
        → header_in (header_text header ++ more) ≡ Some header }
    ensures spelled { (bytes : List ℕ) (header : Header) → All (λ byte. byte < 256) bytes
        → header_in bytes ≡ Some header → take (header_bytes header.version) bytes ≡ header_text header }
    ensures length { (header : Header) → length (header_text header) ≡ header_bytes header.version }
    ensures ranges { (bytes : List ℕ) (header : Header)
        → header_in bytes ≡ Some header → IsHeader header }
{}

/// So is a frame: one of 1 to 65,536 bytes, of a verifier that there is.
pub fn frames_are_read_back()
    ensures read { (verifiers verifier : ℕ) (body more : List ℕ)
        → verifier < verifiers → verifier < 2 ^ 16 → 1 ≤ length body → length body ≤ longest_body
        → frame_in verifiers (frame_text verifier body ++ more)
        ≡ Some (record { verifier = verifier; body = body }) }
    ensures spelled { (verifiers : ℕ) (bytes : List ℕ) (frame : Frame)
        → All (λ byte. byte < 256) bytes → frame_in verifiers bytes ≡ Some frame
        → take (frame_bytes frame) bytes ≡ frame_text frame.verifier frame.body }
    ensures ranges { (verifiers : ℕ) (bytes : List ℕ) (frame : Frame)
        → frame_in verifiers bytes ≡ Some frame → IsFrame verifiers frame }
{}

/// A header in its ranges and frames of its verifiers are read back from their texts.
pub fn bundles_are_read_back()
    ensures read { (header : Header) (frames : List Frame) → IsHeader header → header.first < 2 ^ 32
        → AllByRecursion (IsFrame header.verifiers) frames
        → bundle_of (bundle_text header frames)
        ≡ record { header = Some header; frames = frames; bad = None } }
{}

/// As many steps as there are bytes are enough to read all frames: more read no others.
pub fn bytes_bound_the_frames()
    ensures enough { (count verifiers offset : ℕ) (bytes : List ℕ) → length bytes ≤ count
        → frames_up_to count verifiers offset bytes ≡ frames_from verifiers offset bytes }
{}

/// A bundle of which nothing is bad goes on with the frames of the bytes that follow. What is bad there has its offset in all
/// of the bytes.
pub fn whole_bundles_go_on()
    ensures header { (bytes more : List ℕ) (header : Header)
        → (bundle_of bytes).header ≡ Some header → (bundle_of bytes).bad ≡ None
        → (bundle_of (bytes ++ more)).header ≡ Some header }
    ensures frames { (bytes more : List ℕ) (header : Header)
        → (bundle_of bytes).header ≡ Some header → (bundle_of bytes).bad ≡ None
        → (bundle_of (bytes ++ more)).frames
        ≡ (bundle_of bytes).frames ++ (frames_from header.verifiers (length bytes) more).frames }
    ensures bad { (bytes more : List ℕ) (header : Header)
        → (bundle_of bytes).header ≡ Some header → (bundle_of bytes).bad ≡ None
        → (bundle_of (bytes ++ more)).bad ≡ (frames_from header.verifiers (length bytes) more).bad }
{}

/// A reader that is resumed behind a bundle of which nothing is bad has the frames ahead with which these bytes go on. Its reading
/// ends where that of all bytes does, and no byte sooner than where it was resumed.
pub fn resumed_readings_go_on()
    ensures ahead { (bytes unread more : List ℕ) (header : Header) (limit : ℕ)
        → (bundle_of bytes).header ≡ Some header → (bundle_of bytes).bad ≡ None
        → bundle_of (bytes ++ (unread ++ more))
        ≡ with_frames (bundle_of bytes).frames (ahead (resumed_reading header (length bytes) limit unread) more) }
    ensures extent { (bytes unread more : List ℕ) (header : Header) (limit : ℕ)
        → (bundle_of bytes).header ≡ Some header → (bundle_of bytes).bad ≡ None
        → reading_end (bytes ++ (unread ++ more)) ≡ end_ahead (resumed_reading header (length bytes) limit unread) more }
    ensures no_sooner { (bytes more : List ℕ) (header : Header)
        → (bundle_of bytes).header ≡ Some header → (bundle_of bytes).bad ≡ None
        → length bytes ≤ reading_end (bytes ++ more) }
{}
