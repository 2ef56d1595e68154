//! Digests by SHA-256, lanes and tags by HMAC under a key, and under the keys of clients that are made of it.
ghost use Rattle.std.specs.Prelude.{◌≡◌, ℕ, ◌+◌, ◌<◌, ◌≤◌, ◌∷◌, length, IfSome};
ghost use Rattle.lane_sha.specs.Lanes.{lane_count, block};
ghost use Rattle.lane_sha.specs.Texts.{text};
ghost use Rattle.lane_sha.specs.Hmac.{key_block, hmac_of_block};
ghost use Rattle.record_hash.specs.ShaDigests.{sha_functions, sha_text_digest, sha_element_lanes, sha_client_key, word_at, words_of};

use crate::digest_functions::Digests;
use crate::hmac_sha256::{BLOCK_LEN, finished, hmac, inner_state, key_block, outer_state};
use arrayvec::ArrayVec;
use lane_sha::{KeyedLanes, Start, digests, have_one_count};
use sha2::{Digest, Sha256};
use std::fmt;
use std::marker::Model;

// The byte that comes before an element's text for its lanes.
const LANES_PREFIX: u8 = 1;

// The byte that comes before a text for its tag. It differs from the other, so that no tag gives away
// the lanes of an element.
const TAG_PREFIX: u8 = 2;

// The byte that comes before a client's number for its key.
const CLIENT_PREFIX: u8 = 3;

/// SHA-256 (FIPS 180-4) for the digest of a text, and HMAC-SHA-256 (RFC 2104) under a key for lanes and
/// tags, over the byte 1 or 2 and then the text. A contract sees the value as its key block of 64 bytes.
///
/// The two states have already taken in the masked key block, so that the lanes or the tag of a text of
/// up to 54 bytes cost two compressions and not four. Eight texts are hashed side by side where they have, with their
/// padding, one number of blocks.
#[derive(Drop)]
pub struct ShaDigests {
    block: [u8; BLOCK_LEN],
    inner: Sha256,
    outer: Sha256,
    eight: KeyedLanes,
}

impl Model for ShaDigests {
    ghost use Rattle.std.specs.Prelude.{◌≡◌, ℕ, List};
    ghost use Rattle.sha2.specs.Hashers.{Holds256};
    ghost use Rattle.lane_sha.specs.Hmac.{inner_key, outer_key};

    ghost Value = { List ℕ };

    ghost view = { λ d. d.block };

    ghost invariant = { λ d. Holds256 d.inner (inner_key d.block) × Holds256 d.outer (outer_key d.block) × (d.eight ≡ d.block) };
}

impl ShaDigests {
    /// The digests under a key of any length. As RFC 2104 has it, a key longer than 64 bytes is hashed
    /// first, and zeros fill a block.
    pub fn new(key: &[u8]) -> ShaDigests
        ensures value { result ≡ key_block key.now }
    {
        let block = key_block(key);
        let inner = inner_state(&block);
        let outer = outer_state(&block);
        let eight = KeyedLanes::new(&block);
        ShaDigests {
            block,
            inner,
            outer,
            eight,
        }
    }

    // The HMAC of the prefix and the bytes. The prefix goes into the state by itself, so that the bytes
    // are not copied.
    fn keyed(&self, prefix: u8, bytes: &[u8]) -> [u8; 32]
        ensures value { result ≡ hmac_of_block self.now (prefix ∷ bytes.now) }
    {
        let mut inner = copy_of(&self.inner);
        inner.update([prefix]);
        inner.update(bytes);
        finished(inner, copy_of(&self.outer))
    }

    // The key of the client of this number.
    fn client_key(&self, client: u32) -> [u8; 32]
        ensures value { result ≡ sha_client_key self.now client }
    {
        self.keyed(CLIENT_PREFIX, &client.to_be_bytes())
    }

    // The lanes of each element's text, one after another.
    fn lanes_of_each(&self, texts: &[&[u8]; 8]) -> [[u32; 8]; 8]
        ensures value { (j : ℕ) → j < lane_count → block j result ≡ sha_element_lanes self.now (text j texts.now) }
    {
        [
            words_of(&self.keyed(LANES_PREFIX, texts[0])),
            words_of(&self.keyed(LANES_PREFIX, texts[1])),
            words_of(&self.keyed(LANES_PREFIX, texts[2])),
            words_of(&self.keyed(LANES_PREFIX, texts[3])),
            words_of(&self.keyed(LANES_PREFIX, texts[4])),
            words_of(&self.keyed(LANES_PREFIX, texts[5])),
            words_of(&self.keyed(LANES_PREFIX, texts[6])),
            words_of(&self.keyed(LANES_PREFIX, texts[7])),
        ]
    }

    // The HMAC of the prefix and each text, of texts for which there is room and which have one number of blocks.
    fn eight_keyed(&self, prefix: u8, texts: &[&[u8]; 8]) -> Option<[[u8; 32]; 8]>
        ensures value { IfSome result (λ tags. (j : ℕ) → j < lane_count → block j tags ≡ hmac_of_block self.now (prefix ∷ text j texts.now)) }
    {
        let behind = [
            behind_prefix(prefix, texts[0])?,
            behind_prefix(prefix, texts[1])?,
            behind_prefix(prefix, texts[2])?,
            behind_prefix(prefix, texts[3])?,
            behind_prefix(prefix, texts[4])?,
            behind_prefix(prefix, texts[5])?,
            behind_prefix(prefix, texts[6])?,
            behind_prefix(prefix, texts[7])?,
        ];
        let messages = [
            behind[0].as_slice(),
            behind[1].as_slice(),
            behind[2].as_slice(),
            behind[3].as_slice(),
            behind[4].as_slice(),
            behind[5].as_slice(),
            behind[6].as_slice(),
            behind[7].as_slice(),
        ];
        if have_one_count(&messages) {
            Some(self.eight.hmacs(&messages))
        } else {
            None
        }
    }
}

// So many bytes of a text and its prefix are hashed beside others.
const LONGEST_BESIDE: usize = 120;

// A text behind a prefix, if it isn't too long to be hashed beside others.
fn behind_prefix(prefix: u8, text: &[u8]) -> Option<ArrayVec<u8, LONGEST_BESIDE>>
    ensures value { IfSome result (λ message. message.items ≡ prefix ∷ text.now) }
{
    if text.len() >= LONGEST_BESIDE {
        return None;
    }
    let mut message = ArrayVec::new();
    message.push(prefix);
    let _there_is_room = message.try_extend_from_slice(text);
    Some(message)
}

impl Digests for ShaDigests {
    ghost functions = { sha_functions };

    fn text_digest(&self, bytes: &[u8]) -> [u8; 32] {
        Sha256::digest(bytes)
    }

    fn element_lanes(&self, bytes: &[u8]) -> [u32; 8] {
        words_of(&self.keyed(LANES_PREFIX, bytes))
    }

    fn text_digests(&self, texts: &[&[u8]; 8]) -> [[u8; 32]; 8] {
        if have_one_count(texts) {
            digests(&Start::new(), texts)
        } else {
            digest_of_each(texts)
        }
    }

    fn lanes_of_eight(&self, texts: &[&[u8]; 8]) -> [[u32; 8]; 8] {
        match self.eight_keyed(LANES_PREFIX, texts) {
            Some(tags) => words_of_each(&tags),
            None => self.lanes_of_each(texts),
        }
    }

    fn tag(&self, bytes: &[u8]) -> [u8; 32] {
        self.keyed(TAG_PREFIX, bytes)
    }

    fn client_tag(&self, client: u32, bytes: &[u8]) -> [u8; 32] {
        hmac(&self.client_key(client), bytes)
    }

    ghost use Rattle.record_hash.specs.Shapes.{IsDigest-sha256, AreLanes-words_of};

    ghost text_digest_shape = { λ _ bytes. IsDigest-sha256 bytes };

    ghost element_lanes_shape = { λ _ _. AreLanes-words_of _ (IsDigest-sha256 _) };

    ghost tag_shape = { λ _ _. IsDigest-sha256 _ };

    ghost client_tag_shape = { λ _ _ _. IsDigest-sha256 _ };
}

impl fmt::Debug for ShaDigests {
    // The key stays secret.
    fn fmt<W: fmt::Write>(&self, f: &mut fmt::Formatter<W>) -> fmt::Result {
        f.write_str("ShaDigests { ... }")
    }
}

// A second state that has taken in the same bytes.
fn copy_of(state: &Sha256) -> Sha256
    ensures value { result ≡ state.now }
{
    match state.clone() {
        Ok(copy) => copy,
        // A state holds no memory of its own.
        Err(_) => unreachable!(),
    }
}

// The digest of each text, one after another.
fn digest_of_each(texts: &[&[u8]; 8]) -> [[u8; 32]; 8]
    ensures value { (j : ℕ) → j < lane_count → block j result ≡ sha_text_digest (text j texts.now) }
{
    [
        Sha256::digest(texts[0]),
        Sha256::digest(texts[1]),
        Sha256::digest(texts[2]),
        Sha256::digest(texts[3]),
        Sha256::digest(texts[4]),
        Sha256::digest(texts[5]),
        Sha256::digest(texts[6]),
        Sha256::digest(texts[7]),
    ]
}

// Of each of eight the bytes as words.
fn words_of_each(tags: &[[u8; 32]; 8]) -> [[u32; 8]; 8]
    ensures value { (j : ℕ) → j < lane_count → block j result ≡ words_of (block j tags.now) }
{
    [
        words_of(&tags[0]),
        words_of(&tags[1]),
        words_of(&tags[2]),
        words_of(&tags[3]),
        words_of(&tags[4]),
        words_of(&tags[5]),
        words_of(&tags[6]),
        words_of(&tags[7]),
    ]
}

// 32 bytes as eight words, high byte first.
fn words_of(bytes: &[u8; 32]) -> [u32; 8]
    ensures value { result ≡ words_of bytes.now }
{
    [
        word_at(bytes, 0),
        word_at(bytes, 4),
        word_at(bytes, 8),
        word_at(bytes, 12),
        word_at(bytes, 16),
        word_at(bytes, 20),
        word_at(bytes, 24),
        word_at(bytes, 28),
    ]
}

// The four bytes from i on as a word, high byte first.
fn word_at(bytes: &[u8], i: usize) -> u32
    requires inside { i + 4 ≤ length bytes.now }
    ensures value { result ≡ word_at bytes.now i }
{
    u32::from_be_bytes([bytes[i], bytes[i + 1], bytes[i + 2], bytes[i + 3]])
}
