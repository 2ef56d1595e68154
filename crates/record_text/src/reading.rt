//! Reads a path, a value or an element that bytes spell.
ghost use Rattle.std.specs.Prelude.{◌≡◌, ℕ, ◌≤◌, Bool, List, ◌++◌, length, take, Ok, IfOk};
ghost use Rattle.tree_keys.specs.Path.{IsIn, IsPath};
ghost use Rattle.record_text.specs.declared.value.Value.{Value};
ghost use Rattle.record_text.specs.declared.element.Element.{Element};
ghost use Rattle.record_text.specs.Value.{IsOf};
ghost use Rattle.record_text.specs.Element.{IsElement};
ghost use Rattle.record_text.specs.Fields.{counted};
ghost use Rattle.record_text.specs.Reading.{path_at, value_at, element_at};
ghost use Rattle.record_text.specs.Texts.{path_text, value_text, element_text};
ghost use Rattle.record_text.specs.Tree.{wide_of};
ghost use Rattle.record_text.specs.Longest.{longest_of};

use crate::element::Element;
use crate::format::{longest_of, wide_of};
use crate::reader::{Reader, TextFault};
use crate::value::Value;
use lamport_clocks::Header;
use tree_keys::Path;

/// The path whose text these bytes begin with, in a bundle with this header, and the length of its text. Others may follow it.
pub fn read_path(header: &Header, bytes: &[u8]) -> Result<(Path, usize), TextFault>
    // Which path or fault it is.
    ensures exact { result ≡ counted bytes.now (path_at (wide_of header.now) bytes.now) }
    // What is read is spelled so.
    ensures found { IfOk result (λ found. take found.1 bytes.now ≡ path_text found.0) }
    // What is spelled so is read, whatever follows.
    ensures only { (path : List Bool) (rest : List ℕ) → IsIn (wide_of header.now) path → IsPath path
        → bytes.now ≡ path_text path ++ rest
        → result ≡ Ok (path, length (path_text path)) }
{
    let mut reader = Reader::new(bytes);
    match reader.path(wide_of(header)) {
        Ok(path) => Ok((path, bytes.len() - reader.left())),
        Err(fault) => Err(fault),
    }
}

/// The value of this path whose text these bytes begin with, in a bundle with this header, and the length of its text: a
/// data value at a key, and a node at a shorter path. Others may follow it.
pub fn read_value(header: &Header, path: &Path, bytes: &[u8]) -> Result<(Value, usize), TextFault>
    // Which value or fault it is.
    ensures exact { result ≡ counted bytes.now (value_at (longest_of header.now) path.now bytes.now) }
    // What is read is spelled so, and of the path's kind.
    ensures found { IfOk result (λ found. take found.1 bytes.now ≡ value_text found.0) }
    ensures kind { IfOk result (λ found. IsOf (longest_of header.now) path.now found.0) }
    // What is spelled so is read, whatever follows.
    ensures only { (value : Value) (rest : List ℕ) → IsOf (longest_of header.now) path.now value
        → bytes.now ≡ value_text value ++ rest
        → result ≡ Ok (value, length (value_text value)) }
{
    let mut reader = Reader::new(bytes);
    match reader.value(longest_of(header), path) {
        Ok(value) => Ok((value, bytes.len() - reader.left())),
        Err(fault) => Err(fault),
    }
}

/// The element whose text these bytes begin with, in a bundle with this header, and the length of its text. Others may
/// follow it.
pub fn read_element(header: &Header, bytes: &[u8]) -> Result<(Element, usize), TextFault>
    // Which element or fault it is.
    ensures exact { result ≡ counted bytes.now (element_at (wide_of header.now) (longest_of header.now) bytes.now) }
    // What is read is spelled so, and its value is of its path's kind.
    ensures found { IfOk result (λ found. take found.1 bytes.now ≡ element_text found.0) }
    ensures kind { IfOk result (λ found. IsElement (wide_of header.now) (longest_of header.now) found.0) }
    // What is spelled so is read, whatever follows.
    ensures only { (element : Element) (rest : List ℕ) → IsElement (wide_of header.now) (longest_of header.now) element
        → bytes.now ≡ element_text element ++ rest
        → result ≡ Ok (element, length (element_text element)) }
{
    let mut reader = Reader::new(bytes);
    match reader.element(wide_of(header), longest_of(header)) {
        Ok(element) => Ok((element, bytes.len() - reader.left())),
        Err(fault) => Err(fault),
    }
}
