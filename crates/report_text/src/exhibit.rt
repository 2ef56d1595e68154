//! The text of what an audit shows, written in large pieces.
ghost use Rattle.std.specs.Prelude.{◌≡◌, ◌≤◌, ◌++◌, length, OnOk, OnErr};
ghost use Rattle.std.specs.List.{flat_map};
ghost use Rattle.fv_outside.specs.Faults.{Counts};
ghost use Rattle.fv_outside.specs.Written.{Grows, GrowsByFront};
ghost use Rattle.report_text.specs.Page.{Passes};
ghost use Rattle.report_text.specs.Exhibit.{exhibit_text, multisets_text};
ghost use Rattle.report_text.specs.Exhibit as words;

use crate::digits::{push_decimal, push_hex, push_text};
use crate::lines::LONGEST_LINE;
use crate::page::Page;
use arrayvec::ArrayVec;
use fv_outside::{Failed, Sink, write_all};
use record_text::{Element, Exhibit, ValueText, element_text};

/// Room for the line of two texts of 257 bytes, and a little more.
const STRINGS_ROOM: usize = 1056;

/// Writes what an audit of so many certified epochs shows.
pub fn write_exhibit<O: Sink>(exhibit: &Exhibit, epochs: u64, sink: &mut O) -> Result<(), Failed>
    ensures whole { OnOk result (Grows (O.held sink.old) (O.held sink.new) (exhibit_text epochs exhibit.now)) }
    ensures front { OnErr result (GrowsByFront (O.held sink.old) (O.held sink.new) (exhibit_text epochs exhibit.now)) }
    ensures name { O.name sink.new ≡ O.name sink.old }
    ensures counts { Counts (O.faults sink.old) (O.faults sink.new) result }
{
    match exhibit {
        Exhibit::Clean => write_all(sink, clean_line(epochs).as_slice()),
        Exhibit::Strings(evicted, added) => {
            write_all(sink, strings_line(evicted, added).as_slice())
        }
        Exhibit::Multisets(epoch, added, evicted) => {
            write_multisets(*epoch, added.as_slice(), evicted.as_slice(), sink)
        }
    }
}

// The line of an audit that has nothing to show.
fn clean_line(epochs: u64) -> ArrayVec<u8, LONGEST_LINE>
    ensures text { result.items ≡ words.clean_line epochs }
{
    let mut line = ArrayVec::new();
    push_text(&mut line, b"clean ");
    push_decimal(&mut line, epochs);
    push_text(&mut line, b"\n");
    line
}

// The line of two texts with one digest.
fn strings_line(evicted: &ValueText, added: &ValueText) -> ArrayVec<u8, STRINGS_ROOM>
    ensures text { result.items ≡ words.strings_line evicted.now added.now }
{
    let mut line = ArrayVec::new();
    push_text(&mut line, b"strings ");
    push_hex(&mut line, evicted.as_slice());
    push_text(&mut line, b" ");
    push_hex(&mut line, added.as_slice());
    push_text(&mut line, b"\n");
    line
}

// The line that says of which epoch the elements are.
fn multisets_line(epoch: u32) -> ArrayVec<u8, LONGEST_LINE>
    ensures text { result.items ≡ words.multisets_line epoch }
{
    let mut line = ArrayVec::new();
    push_text(&mut line, b"multisets ");
    push_decimal(&mut line, u64::from(epoch));
    push_text(&mut line, b"\n");
    line
}

// The line of an element, behind a word.
fn element_line(word: &[u8], element: &Element) -> ArrayVec<u8, LONGEST_LINE>
    requires short { length word.now ≤ 8 }
    ensures text { result.items ≡ words.element_line word.now element.now }
{
    let mut line = ArrayVec::new();
    push_text(&mut line, word);
    push_hex(&mut line, element_text(element).as_slice());
    push_text(&mut line, b"\n");
    line
}

// Writes the elements of an epoch that were added, and those that were evicted.
fn write_multisets<O: Sink>(
    epoch: u32,
    added: &[Element],
    evicted: &[Element],
    sink: &mut O,
) -> Result<(), Failed>
    ensures whole { OnOk result (Grows (O.held sink.old) (O.held sink.new) (multisets_text epoch added.now evicted.now)) }
    ensures front { OnErr result (GrowsByFront (O.held sink.old) (O.held sink.new) (multisets_text epoch added.now evicted.now)) }
    ensures name { O.name sink.new ≡ O.name sink.old }
    ensures counts { Counts (O.faults sink.old) (O.faults sink.new) result }
{
    let mut page = Page::new();
    page.write(multisets_line(epoch).as_slice(), sink)?;
    write_elements(b"added ", added, &mut page, sink)?;
    write_elements(b"evicted ", evicted, &mut page, sink)?;
    page.flush(sink)
}

// Writes a line for each element, behind a word.
fn write_elements<O: Sink>(
    word: &[u8],
    elements: &[Element],
    page: &mut Page,
    sink: &mut O,
) -> Result<(), Failed>
    requires short { length word.now ≤ 8 }
    ensures whole { OnOk result (Passes (O.held sink.old) page.old (flat_map (words.element_line word.now) elements.now) (O.held sink.new) page.new) }
    ensures front { OnErr result (GrowsByFront (O.held sink.old) (O.held sink.new) (page.old ++ flat_map (words.element_line word.now) elements.now)) }
    ensures name { O.name sink.new ≡ O.name sink.old }
    ensures counts { Counts (O.faults sink.old) (O.faults sink.new) result }
{
    for element in elements {
        page.write(element_line(word, element).as_slice(), sink)?;
    }
    Ok(())
}
