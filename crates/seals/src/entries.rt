//! The text of an entry, both ways.
ghost use Rattle.std.specs.Prelude.{◌≡◌};
ghost use Rattle.std.specs.Option.{option_copied};
ghost use Rattle.record_text.specs.Fields.{Takes};
ghost use Rattle.seals.specs.Bounds.{entry_follows};
ghost use Rattle.seals.specs.Entry.{hold_byte, hold_in, kid_byte, kids_in, entry_at, entry_text};

use crate::bounds::Bounds;
use crate::item::{Item, LONGEST_ITEM};
use arrayvec::ArrayVec;
use record_text::{Reader, TextFault, longest_of, push_path, push_u16, push_value, wide_of};
use verifier_cache::{Entry, Hold, ListedEntry};

impl Item for ListedEntry {
    ghost use Rattle.seals.specs.Entry.{entry_at, entry_text};
    ghost use Rattle.seals.specs.Bounds.{entry_follows};

    ghost spelled = { entry_text };

    ghost read_as = { λ bounds bytes. entry_at bounds.header bytes };

    ghost may_follow = { entry_follows };

    fn text(&self) -> ArrayVec<u8, LONGEST_ITEM> {
        let mut text = ArrayVec::new();
        push_u16(&mut text, self.slot);
        push_path(&mut text, &self.entry.path);
        push_value(&mut text, &self.entry.value);
        text.push(hold_byte(self.entry.hold));
        text.push(kid_byte(self.entry.kid(false), self.entry.kid(true)));
        text
    }

    #[tactic(auto, unfolding(crate::specs::Entry::entry_at))]
    fn read(bounds: &Bounds, reader: &mut Reader<'_>) -> Result<Self, TextFault> {
        let slot = reader.u16()?;
        let path = reader.path(wide_of(&bounds.header))?;
        let value = reader.value(longest_of(&bounds.header), &path)?;
        let hold = reader.byte()?;
        let kids = reader.byte()?;
        let Some(hold) = hold_in(hold) else {
            return Err(TextFault::Malformed);
        };
        let Some(kids) = kids_in(kids) else {
            return Err(TextFault::Malformed);
        };
        Ok(ListedEntry {
            slot,
            entry: Entry {
                path,
                value,
                hold,
                kids,
            },
        })
    }

    fn may_follow(&self, bounds: &Bounds, before: Option<&Self>) -> bool {
        bounds.entry_follows(before, self)
    }
}

// The byte of how an entry came in.
fn hold_byte(hold: Hold) -> u8
    ensures value { result ≡ hold_byte hold }
{
    match hold {
        Hold::Root => 0,
        Hold::M => 1,
        Hold::B => 2,
    }
}

// How an entry came in, by its byte.
fn hold_in(byte: u8) -> Option<Hold>
    ensures value { result ≡ hold_in byte }
{
    match byte {
        0 => Some(Hold::Root),
        1 => Some(Hold::M),
        2 => Some(Hold::B),
        _ => None,
    }
}

// The byte of two kid bits.
fn kid_byte(side0: bool, side1: bool) -> u8
    ensures value { result ≡ kid_byte side0 side1 }
{
    match (side0, side1) {
        (false, false) => 0,
        (true, false) => 1,
        (false, true) => 2,
        (true, true) => 3,
    }
}

// The kid bits, by their byte.
fn kids_in(byte: u8) -> Option<[bool; 2]>
    ensures value { result ≡ kids_in byte }
{
    match byte {
        0 => Some([false, false]),
        1 => Some([true, false]),
        2 => Some([false, true]),
        3 => Some([true, true]),
        _ => None,
    }
}
