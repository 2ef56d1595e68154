//! An entry as a cache lists it.
use crate::entry::Entry;

/// An entry of a cache with the slot that it stands in, which is 0 where entries stand in no slots.
#[derive(Clone, Debug, PartialEq, Eq, Drop)]
pub struct ListedEntry {
    pub slot: u16,
    pub entry: Entry,
}
