//! The digests as a trait.
ghost use Rattle.std.specs.Prelude.{◌≡◌, ◌<◌, ℕ, List};
ghost use Rattle.lane_sha.specs.Lanes.{lane_count, block};
ghost use Rattle.lane_sha.specs.Texts.{text};
ghost use Rattle.record_hash.specs.Functions.{DigestFunctions};
ghost use Rattle.record_hash.specs.Digests.{IsDigest, AreLanes};

/// Four functions of bytes, one of them with a client's number: a value gives the same bytes the same answer each time. No implementation
/// promises that different bytes have different answers.
pub trait Digests {
    // The functions that a value computes.
    ghost functions: { Self → DigestFunctions };

    /// The digest of a text: what a parent node keeps of a record.
    fn text_digest(&self, bytes: &[u8]) -> [u8; 32]
        ensures value { result ≡ (functions self.now).digest bytes.now };

    /// The eight lanes of an element's text, which a multiset hash adds up lane by lane.
    fn element_lanes(&self, bytes: &[u8]) -> [u32; 8]
        ensures value { result ≡ (functions self.now).lanes bytes.now };

    /// The digests of eight texts, which may cost less than one after another.
    fn text_digests(&self, texts: &[&[u8]; 8]) -> [[u8; 32]; 8]
        ensures value { (j : ℕ) → j < lane_count → block j result ≡ (functions self.now).digest (text j texts.now) };

    /// The lanes of the texts of eight elements, which may cost less than one after another.
    fn lanes_of_eight(&self, texts: &[&[u8]; 8]) -> [[u32; 8]; 8]
        ensures value { (j : ℕ) → j < lane_count → block j result ≡ (functions self.now).lanes (text j texts.now) };

    /// The tag of a text: who holds the key can tell that it was made with it.
    fn tag(&self, bytes: &[u8]) -> [u8; 32]
        ensures value { result ≡ (functions self.now).tag bytes.now };

    /// The tag that the client of this number makes of a text: who holds that client's key can tell that it was made with it.
    fn client_tag(&self, client: u32, bytes: &[u8]) -> [u8; 32]
        ensures value { result ≡ (functions self.now).client_tag client bytes.now };

    // A digest is 32 bytes.
    ghost text_digest_shape: { (d : Self) (bytes : List ℕ) → IsDigest ((functions d).digest bytes) };

    // The lanes are eight words of 32 bits.
    ghost element_lanes_shape: { (d : Self) (bytes : List ℕ) → AreLanes ((functions d).lanes bytes) };

    // A tag is 32 bytes.
    ghost tag_shape: { (d : Self) (bytes : List ℕ) → IsDigest ((functions d).tag bytes) };

    // So is a client's tag.
    ghost client_tag_shape: { (d : Self) (client : ℕ) (bytes : List ℕ) → IsDigest ((functions d).client_tag client bytes) };
}
