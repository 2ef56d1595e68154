//! Elements that wait for a verifier.
ghost use Rattle.std.specs.Prelude.{◌≡◌, ◌<◌, ◌^◌};
ghost use Rattle.record_text.specs.Element.{IsStamp};

use lamport_clocks::Stamp;
use record_text::{Element, Value};
use tree_keys::Path;

// The element of a path that was evicted with this stamp by this verifier.
pub(crate) fn waiting(path: Path, value: Value, stamp: Stamp, verifier: u16) -> Element
    ensures element { result ≡ record { path = path; value = value; stamp = stamp; verifier = verifier } }
    ensures stamp { IsStamp stamp }
    ensures verifier { verifier < 2 ^ 16 }
{
    Element {
        path,
        value,
        stamp,
        verifier,
    }
}
