//! A seal is placed: the counter is raised, and the text is written with the counter's number.
ghost use Rattle.std.specs.Prelude.{◌≡◌, ◌≤◌, ◌++◌, length, take, drop, Err, IfOk, OnOk};
ghost use Rattle.std.specs.Int.{w64, to_be_bytes};
ghost use Rattle.fv_outside.specs.Counting.{Raises};
ghost use Rattle.fv_outside.specs.Faults.{Rose};
ghost use Rattle.fv_outside.specs.Written.{Grows};
ghost use Rattle.receipts.specs.Receipts.{tagged};
ghost use Rattle.seals.specs.Numbered.{untagged, with_number, numbered, IsCut};

use fv_outside::{Counter, Sink, write_all};
use receipts::TAG_LEN;
use record_hash::Digests;

// How many bytes of a seal stand before the counter's number.
const BEFORE_NUMBER: usize = 4;

// How many stand before what is behind it.
const BEHIND_NUMBER: usize = 12;

/// Why a seal was not placed.
#[derive(Clone, Copy, Debug, PartialEq, Eq)]
pub enum Unplaced {
    /// The counter failed: its number, the text and the sink are as before.
    CounterFault,
    /// The sink failed: the counter was raised, and the sink may have a front of the seal.
    VaultFault,
}

/// Raises the counter, gives a seal's text its new number and the tag that the text then has, and only then writes it. It takes no
/// memory, so nothing but the counter and the sink can fail.
pub fn place<D: Digests, C: Counter, O: Sink>(
    digests: &D,
    counter: &mut C,
    text: &mut [u8],
    sink: &mut O,
) -> Result<u64, Unplaced>
    requires can_raise { C.can_raise counter.old }
    requires whole { 44 ≤ length text.old }

    // Where it is placed the counter's number is the seal's.
    ensures raised { IfOk result (Raises (C.number counter.old) (C.number counter.new)) }
    ensures numbered { IfOk result (λ number. text.new ≡ numbered (D.functions digests.now) number text.old) }
    ensures written { OnOk result (Grows (O.held sink.old) (O.held sink.new) text.new) }

    // Where the counter fails nothing changed.
    ensures unraised { result ≡ Err Unplaced.CounterFault → C.number counter.new ≡ C.number counter.old }
    ensures untouched { result ≡ Err Unplaced.CounterFault → text.new ≡ text.old }
    ensures unwritten { result ≡ Err Unplaced.CounterFault → O.held sink.new ≡ O.held sink.old }
    ensures counter_rose { result ≡ Err Unplaced.CounterFault → Rose (C.faults counter.old) (C.faults counter.new) }

    // Where the sink fails the counter was raised, and a front of the seal with its number was written.
    ensures cut { result ≡ Err Unplaced.VaultFault
        → IsCut (D.functions digests.now) (C.number counter.old) (C.number counter.new) text.old text.new (O.held sink.old) (O.held sink.new) }
    ensures sink_rose { result ≡ Err Unplaced.VaultFault → Rose (O.faults sink.old) (O.faults sink.new) }

    ensures counter_never_falls { C.faults counter.old ≤ C.faults counter.new }
    ensures sink_never_falls { O.faults sink.old ≤ O.faults sink.new }
    ensures name { O.name sink.new ≡ O.name sink.old }
{
    let Ok(number) = counter.raise() else {
        return Err(Unplaced::CounterFault);
    };
    set_number(text, number);
    set_tag(digests, text);
    match write_all(sink, text) {
        Ok(()) => Ok(number),
        Err(_) => Err(Unplaced::VaultFault),
    }
}

// Writes the counter's number where it stands.
fn set_number(text: &mut [u8], number: u64)
    requires whole { 12 ≤ length text.old }
    ensures text { text.new ≡ with_number number text.old }
{
    text[BEFORE_NUMBER..BEHIND_NUMBER].copy_from_slice(&number.to_be_bytes());
}

// Writes the tag of what stands before it where it stands.
fn set_tag<D: Digests>(digests: &D, text: &mut [u8])
    requires whole { 32 ≤ length text.old }
    ensures text { text.new ≡ tagged (D.functions digests.now) (untagged text.old) }
{
    let place = text.len() - TAG_LEN;
    let tag = digests.tag(&text[..place]);
    text[place..].copy_from_slice(&tag);
}
