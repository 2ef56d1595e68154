//! Words and numbers at the end of a line that is being made.
ghost use Rattle.std.specs.Prelude.{◌≡◌, ◌+◌, ◌*◌, ◌≤◌, ◌++◌, length};
ghost use Rattle.std.specs.Fmt.{decimal};
ghost use Rattle.hex.specs.Hex.{encode_lower};
ghost use Rattle.arrayvec.specs.ArrayVec.{array_vec_len};

use arrayvec::ArrayVec;

/// Adds a text.
pub(crate) fn push_text<const ROOM: usize>(line: &mut ArrayVec<u8, ROOM>, text: &[u8])
    requires room { array_vec_len line.old + length text.now ≤ ROOM }
    ensures appended { line.new.items ≡ line.old.items ++ text.now }
    ensures len { array_vec_len line.new ≡ array_vec_len line.old + length text.now }
{
    line.try_extend_from_slice(text).unwrap();
}

/// Adds a number in decimal.
pub(crate) fn push_decimal<const ROOM: usize>(line: &mut ArrayVec<u8, ROOM>, number: u64)
    requires room { array_vec_len line.old + 20 ≤ ROOM }
    ensures appended { line.new.items ≡ line.old.items ++ decimal number }
    ensures short { array_vec_len line.new ≤ array_vec_len line.old + 20 }
{
    let mut buffer = itoa::Buffer::new();
    push_text(line, buffer.format(number).as_bytes());
}

/// Adds the number of a key in decimal.
pub(crate) fn push_key<const ROOM: usize>(line: &mut ArrayVec<u8, ROOM>, key: u128)
    requires room { array_vec_len line.old + 39 ≤ ROOM }
    ensures appended { line.new.items ≡ line.old.items ++ decimal key }
    ensures short { array_vec_len line.new ≤ array_vec_len line.old + 39 }
{
    let mut buffer = itoa::Buffer::new();
    push_text(line, buffer.format(key).as_bytes());
}

/// Adds bytes as lower-case digits.
pub(crate) fn push_hex<const ROOM: usize>(line: &mut ArrayVec<u8, ROOM>, bytes: &[u8])
    requires room { array_vec_len line.old + 2 * length bytes.now ≤ ROOM }
    ensures appended { line.new.items ≡ line.old.items ++ encode_lower bytes.now }
    ensures len { array_vec_len line.new ≡ array_vec_len line.old + 2 * length bytes.now }
{
    let mut digits = [0; ROOM];
    encode(bytes, &mut digits[..2 * bytes.len()]);
    push_text(line, &digits[..2 * bytes.len()]);
}

// Fills the digits with those of the bytes, two for each.
fn encode(bytes: &[u8], digits: &mut [u8])
    requires two_each { length digits.old ≡ 2 * length bytes.now }
    ensures encoded { digits.new ≡ encode_lower bytes.now }
{
    hex::encode_to_slice(bytes, digits).unwrap();
}
