//! What an audit has to show.
ghost use Rattle.std.specs.Prelude.{◌≡◌, ◌≤◌, length};
ghost use Rattle.record_text.specs.Texts.{value_text};

use crate::element::Element;
use crate::value::Value;
use crate::writing::{LONGEST_VALUE_TEXT, value_text};
use arrayvec::ArrayVec;
use std::marker::Model;

/// The text of a value, of at most 257 bytes. Contracts see its bytes.
#[derive(Clone, Debug, PartialEq, Eq, Drop)]
pub struct ValueText {
    bytes: ArrayVec<u8, LONGEST_VALUE_TEXT>,
}

impl Model for ValueText {
    ghost use Rattle.std.specs.Prelude.{ℕ, ◌≤◌, List, length};

    ghost Value = { List ℕ };

    ghost view = { λ t. t.bytes.items };

    ghost invariant = { λ t. length t.bytes.items ≤ 257 };

    ghost inverse = { λ bytes. record { bytes = record { items = bytes } } };
}

impl ValueText {
    /// The text of this value.
    pub fn of(value: &Value) -> Self
        ensures text { result ≡ value_text value.now }
    {
        ValueText {
            bytes: value_text(value),
        }
    }

    /// Its bytes.
    pub fn as_slice(&self) -> &[u8]
        ensures bytes { result.now ≡ self.now }
        ensures fits { length result.now ≤ LONGEST_VALUE_TEXT }
    {
        self.bytes.as_slice()
    }
}

/// Elements in the order in which they came. Contracts see the list of them.
#[derive(Debug, Drop)]
pub struct Elements {
    items: Vec<Element>,
}

impl Model for Elements {
    ghost use Rattle.std.specs.Prelude.{List};
    ghost use Rattle.record_text.specs.declared.element.Element.{Element};

    ghost Value = { List Element };

    ghost view = { λ e. e.items.items };
}

impl Elements {
    /// These elements.
    pub fn of(items: Vec<Element>) -> Self
        ensures elements { result ≡ items.items }
    {
        Elements { items }
    }

    /// The elements.
    pub fn as_slice(&self) -> &[Element]
        ensures elements { result.now ≡ self.now }
    {
        self.items.as_slice()
    }
}

/// What an audit has to show: nothing; two strings with one digest; or two multisets of elements with one sum.
#[derive(Debug, Drop)]
pub enum Exhibit {
    /// Nothing: the answers are serial.
    Clean,
    /// The text that was evicted, and the other that was added for it.
    Strings(ValueText, ValueText),
    /// The elements of this epoch that were added, and those that were evicted.
    Multisets(u32, Elements, Elements),
}
