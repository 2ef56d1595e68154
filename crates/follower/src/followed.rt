//! The plain map behind operations, as it is followed and written.
ghost use Rattle.std.specs.Prelude.{◌≡◌, ℕ, List, Option, ◌++◌, OnOk, OnErr};
ghost use Rattle.std.specs.List.{flat_map};
ghost use Rattle.fv_outside.specs.Faults.{Counts};
ghost use Rattle.fv_outside.specs.Written.{Grows, GrowsByFront};
ghost use Rattle.report_text.specs.Page.{Passes};
ghost use Rattle.stamp_order.specs.Serial.{none_everywhere};
ghost use Rattle.stamp_order.specs.PlainMap.{value_at};
ghost use Rattle.report_text.specs.KeyLines.{map_text};
ghost use Rattle.follower.specs.Followed.{followed};

use base_words::Memory;
use check_core::WrittenFold;
use fv_outside::{Failed, Sink};
use operation_folds::OperationFold;
use record_text::OperationRef;
use report_text::{Page, key_line};
use stamp_order::PlainMap;
use std::alloc::Global;

/// The plain map behind operations.
#[derive(Drop)]
pub struct Followed {
    map: PlainMap,
}

impl Followed {
    /// Behind none. It takes memory from `alloc` as it grows.
    pub fn new(alloc: Global) -> Self
        ensures none { value_at result.map ≡ none_everywhere }
    {
        Followed {
            map: PlainMap::new(alloc),
        }
    }
}

// Each put sets its key.
impl OperationFold for Followed {
    ghost State = { ℕ → Option (List ℕ) };

    ghost state = { λ followed. value_at followed.map };

    ghost step = { followed };

    fn add(&mut self, operation: &OperationRef) -> Result<(), Memory> {
        if operation.is_put() {
            self.map.put(operation.key(), operation.value().to_blob())?;
        }
        Ok(())
    }
}

// The line of each key that has a value is written, by key in rising order.
impl WrittenFold for Followed {
    ghost use Rattle.follower.specs.Followed.{map_behind, text-is_of_map};

    ghost text_behind = { λ followed operations. map_text (map_behind (value_at followed.map) operations) };

    ghost text_is_of_state = { λ old now operations same. text-is_of_map (value_at now.map) (value_at old.map) operations same };

    fn write<O: Sink>(&self, out: &mut O) -> Result<(), Failed> {
        let mut page = Page::new();
        write_entries(&self.map, &mut page, out)?;
        page.flush(out)
    }
}

// Writes the line of each entry.
fn write_entries<O: Sink>(map: &PlainMap, page: &mut Page, out: &mut O) -> Result<(), Failed>
    ensures whole { OnOk result (Passes (O.held out.old) page.old (map_text (value_at map.now)) (O.held out.new) page.new) }
    ensures front { OnErr result (GrowsByFront (O.held out.old) (O.held out.new) (page.old ++ map_text (value_at map.now))) }
    ensures counts { Counts (O.faults out.old) (O.faults out.new) result }
{
    for (key, value) in map.entries() {
        page.write(key_line(*key, value).as_slice(), out)?;
    }
    Ok(())
}
