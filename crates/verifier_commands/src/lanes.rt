//! The lanes of an element whose parts stand apart.
ghost use Rattle.std.specs.Prelude.{◌≡◌};
ghost use Rattle.record_text.specs.Texts.{element_text};

use arrayvec::ArrayVec;
use lamport_clocks::Stamp;
use record_hash::Digests;
use record_text::{LONGEST_ELEMENT_TEXT, Value, push_element};
use tree_keys::Path;

// The lanes of the element with these parts.
pub(crate) fn lanes_of<D: Digests>(
    d: &D,
    path: &Path,
    value: &Value,
    stamp: Stamp,
    verifier: u16,
) -> [u32; 8]
    ensures value { result ≡ (D.functions d.now).lanes
        (element_text (record { path = path.now; value = value.now; stamp = stamp; verifier = verifier })) }
{
    let mut text = ArrayVec::<u8, LONGEST_ELEMENT_TEXT>::new();
    push_element(&mut text, path, value, stamp, verifier);
    d.element_lanes(text.as_slice())
}
