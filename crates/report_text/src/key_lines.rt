//! The line of a key and its value, where a map is told.
ghost use Rattle.std.specs.Prelude.{◌≡◌};
ghost use Rattle.report_text.specs.KeyLines as words;

use crate::digits::{push_hex, push_key, push_text};
use crate::lines::LONGEST_LINE;
use arrayvec::ArrayVec;
use record_text::Blob;

/// The line of a key and its value. Of a key without one there is none.
pub fn key_line(key: u128, value: &Blob) -> ArrayVec<u8, LONGEST_LINE>
    ensures text { result.items ≡ words.key_line key value.now }
{
    let mut line = ArrayVec::new();
    match value.bytes() {
        None => {}
        Some([]) => {
            push_key(&mut line, key);
            push_text(&mut line, b" .\n");
        }
        Some(bytes) => {
            push_key(&mut line, key);
            push_text(&mut line, b" ");
            push_hex(&mut line, bytes);
            push_text(&mut line, b"\n");
        }
    }
    line
}
