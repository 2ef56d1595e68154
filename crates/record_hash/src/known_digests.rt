//! Digests of which some are known.
ghost use Rattle.std.specs.Prelude.{◌≡◌, ◌<◌, ℕ};
ghost use Rattle.std.specs.Option.{ForSome};
ghost use Rattle.lane_sha.specs.Lanes.{lane_count, block};
ghost use Rattle.lane_sha.specs.Texts.{text};

use crate::digest_functions::Digests;

/// Digests that know those of one text and of one element ahead, and ask others for all else. A text is compared with the
/// known one byte by byte.
#[derive(Drop)]
pub struct KnownDigests<'a, D: Digests> {
    /// The others.
    pub digests: &'a D,
    /// A text and its digest, if one is known.
    pub digest: Option<(&'a [u8], [u8; 32])>,
    /// The text of an element and its lanes, if they are known.
    pub lanes: Option<(&'a [u8], [u32; 8])>,
    ghost digest_is_known: { ForSome digest (λ known. known.1 ≡ (D.functions digests.now).digest known.0.now) },
    ghost lanes_are_known: { ForSome lanes (λ known. known.1 ≡ (D.functions digests.now).lanes known.0.now) },
}

impl<'a, D: Digests> Digests for KnownDigests<'a, D> {
    ghost functions = { λ k. D.functions k.digests.now };

    fn text_digest(&self, bytes: &[u8]) -> [u8; 32] {
        if let Some(known) = &self.digest {
            if known.0 == bytes {
                let digest = known.1;
                return digest;
            }
        }
        self.digests.text_digest(bytes)
    }

    fn element_lanes(&self, bytes: &[u8]) -> [u32; 8] {
        if let Some(known) = &self.lanes {
            if bytes == known.0 {
                let lanes = known.1;
                return lanes;
            }
        }
        self.digests.element_lanes(bytes)
    }

    fn text_digests(&self, texts: &[&[u8]; 8]) -> [[u8; 32]; 8] {
        self.digests.text_digests(texts)
    }

    fn lanes_of_eight(&self, texts: &[&[u8]; 8]) -> [[u32; 8]; 8] {
        self.digests.lanes_of_eight(texts)
    }

    fn tag(&self, bytes: &[u8]) -> [u8; 32] {
        self.digests.tag(bytes)
    }

    fn client_tag(&self, client: u32, bytes: &[u8]) -> [u8; 32] {
        self.digests.client_tag(client, bytes)
    }

    ghost text_digest_shape = { λ k bytes. D.text_digest_shape k.digests.now bytes };

    ghost element_lanes_shape = { λ k bytes. D.element_lanes_shape k.digests.now bytes };

    ghost tag_shape = { λ k bytes. D.tag_shape k.digests.now bytes };

    ghost client_tag_shape = { λ k client bytes. D.client_tag_shape k.digests.now client bytes };
}
