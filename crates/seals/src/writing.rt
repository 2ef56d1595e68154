//! Writes a seal.
ghost use Rattle.std.specs.Prelude.{◌≡◌, ◌≤◌, ◌++◌, length, OnOk, IfOk};
ghost use Rattle.std.specs.List.{flat_map};
ghost use Rattle.std.specs.Int.{w32, w64, to_be_bytes};
ghost use Rattle.receipts.specs.Receipts.{tagged};
ghost use Rattle.bundle_frames.specs.Bundle.{header_text};
ghost use Rattle.seals.specs.Run.{run_text};
ghost use Rattle.seals.specs.Seal.{magic_number, head_text, seal_text};
ghost use Rattle.seals.specs.Kept.{kept_in, seal_in};

use crate::reading::MAGIC;
use crate::runs::write_run;
use crate::state::{RunState, SealedState};
use arrayvec::ArrayVec;
use base_words::Memory;
use bundle_frames::{header_bytes, spell_header};
use lamport_clocks::Header;
use record_hash::Digests;
use record_text::{push_u32, push_u64};
use std::alloc::Global;

/// The seal of what is kept of a bundle: its text and the text's tag. It takes all memory that the seal needs.
pub fn write_seal<D: Digests>(
    alloc: Global,
    digests: &D,
    state: &SealedState,
) -> Result<Vec<u8>, Memory>
    ensures text { IfOk result (λ text. text.items
        ≡ tagged (D.functions digests.now) (seal_text (seal_in state.now))) }

    // So `place` may be asked to place it.
    ensures long { IfOk result (λ text. 44 ≤ length text.items) }
{
    let mut text = Vec::new(alloc);
    write_head(&mut text, state)?;
    write_runs(&mut text, &state.runs)?;
    let tag = digests.tag(text.as_slice());
    text.extend_from_slice(&tag)?;
    Ok(text)
}

// Appends what stands before the verifiers.
fn write_head(text: &mut Vec<u8>, state: &SealedState) -> Result<(), Memory>
    ensures text { OnOk result (text.new.items ≡ text.old.items ++ head_text (seal_in state.now)) }
{
    text.extend_from_slice(numbers_text(state.counter, state.taken).as_slice())?;
    write_header(text, &state.header)?;
    text.extend_from_slice(&state.certified.to_be_bytes())?;
    Ok(())
}

// The magic number, the counter's number, and how many bytes were taken.
fn numbers_text(counter: u64, taken: u64) -> ArrayVec<u8, 20>
    ensures text { result.items ≡ to_be_bytes w32 magic_number ++ (to_be_bytes w64 counter ++ to_be_bytes w64 taken) }
{
    let mut text = ArrayVec::new();
    push_u32(&mut text, MAGIC);
    push_u64(&mut text, counter);
    push_u64(&mut text, taken);
    text
}

// Appends the text of a header.
fn write_header(text: &mut Vec<u8>, header: &Header) -> Result<(), Memory>
    ensures text { OnOk result (text.new.items ≡ text.old.items ++ header_text header.now) }
{
    text.extend_from_slice(&spell_header(header)[..header_bytes(header.version)])?;
    Ok(())
}

// Appends the texts of what is kept of each verifier.
fn write_runs(text: &mut Vec<u8>, runs: &[RunState]) -> Result<(), Memory>
    ensures text { OnOk result (text.new.items ≡ text.old.items ++ flat_map (λ run. run_text (kept_in run)) runs.now) }
{
    for run in runs {
        write_run(text, run)?;
    }
    Ok(())
}
