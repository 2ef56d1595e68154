//! Reads a seal.
ghost use Rattle.std.specs.Prelude.{◌≡◌, ◌↔◌, IsTrue, ◌≤◌, length, take, map, Ok, Err, IfOk, IfErr};
ghost use Rattle.record_text.specs.Fields.{Takes};
ghost use Rattle.seals.specs.Seal.{header_at, head_at, runs_at, untagged_at, tag_bytes};
ghost use Rattle.seals.specs.Kept.{kept_in, seal_in, head_in};
ghost use Rattle.seals.specs.Answer.{Reads, IsFront, IsAnswer};
ghost use Rattle.seals.specs.Front.{front_of};

use crate::answer::{ReadSeal, SealFront};
use crate::fault::Fault;
use crate::runs::read_run;
use crate::state::{RunState, SealedState};
use bundle_frames::{header_at, header_size};
use lamport_clocks::Header;
use receipts::{TAG_LEN, is_same_tag};
use record_hash::Digests;
use record_text::{Reader, TextFault};
use std::alloc::Global;

/// The number that the first four bytes of a seal are, `FVS1`.
pub(crate) const MAGIC: u32 = 0x4656_5331;

// The most bytes of a bundle that a seal may say were taken.
const MOST_TAKEN: u64 = 1 << 40;

// How many bytes stand before the header.
const NUMBERS_LEN: usize = 20;

// What stands before the verifiers.
#[derive(Clone, Copy)]
pub(crate) struct Head {
    counter: u64,
    taken: u64,
    header: Header,
    certified: u32,
}

// The magic number, the counter's number, how many bytes were taken, the header, and how many epochs are certified.
#[tactic(auto, unfolding(crate::specs::Seal::head_at))]
fn read_head<'a>(bytes: &'a [u8], reader: &mut Reader<'a>) -> Result<Head, TextFault>
    requires all { reader.old ≡ bytes.now }
    ensures ok { IfOk result (λ head. head_at reader.old ≡ Ok (head_in head, reader.new)) }
    ensures err { IfErr result (λ fault. head_at reader.old ≡ Err fault) }
{
    if reader.u32()? != MAGIC {
        return Err(TextFault::Malformed);
    }
    let counter = reader.u64()?;
    let taken = reader.u64()?;
    if taken > MOST_TAKEN {
        return Err(TextFault::Malformed);
    }
    let (_, behind) = bytes.split_at(NUMBERS_LEN);
    let header = read_header(behind, reader)?;
    let certified = reader.u32()?;
    Ok(Head {
        counter,
        taken,
        header,
        certified,
    })
}

// The header that the bytes begin with: the reader goes on behind it.
#[tactic(auto, unfolding(crate::specs::Seal::header_at))]
fn read_header<'a>(bytes: &'a [u8], reader: &mut Reader<'a>) -> Result<Header, TextFault>
    requires all { reader.old ≡ bytes.now }
    ensures takes { Takes result reader.new (header_at reader.old) }
{
    let Some(size) = header_size(bytes) else {
        return Err(TextFault::Truncated);
    };
    if bytes.len() < size {
        return Err(TextFault::Truncated);
    }
    let Some(header) = header_at(&bytes[..size]) else {
        return Err(TextFault::Malformed);
    };
    *reader = Reader::new(&bytes[size..]);
    Ok(header)
}

// What is kept of each verifier.
#[tactic(auto, unfolding(crate::specs::Seal::runs_at))]
fn read_runs(alloc: Global, head: &Head, reader: &mut Reader<'_>) -> Result<Vec<RunState>, Fault>
    ensures reads { Reads (λ made. map kept_in made.items) result reader.new
        (runs_at head.now.header head.now.certified head.now.taken 0 head.now.header.verifiers reader.old) }
{
    let mut runs = Vec::new(alloc);
    for number in 0..head.header.verifiers {
        let run = read_run(
            alloc,
            &head.header,
            head.certified,
            head.taken,
            number,
            reader,
        )?;
        runs.push(run)?;
    }
    Ok(runs)
}

// A seal without its tag.
#[tactic(auto, unfolding(crate::specs::Seal::untagged_at))]
fn read_untagged<'a>(
    alloc: Global,
    bytes: &'a [u8],
    reader: &mut Reader<'a>,
) -> Result<SealedState, Fault>
    requires all { reader.old ≡ bytes.now }
    ensures reads { Reads seal_in result reader.new (untagged_at bytes.now) }
{
    let head = match read_head(bytes, reader) {
        Ok(head) => head,
        Err(fault) => return Err(Fault::Text(fault)),
    };
    let runs = read_runs(alloc, &head, reader)?;
    Ok(SealedState {
        counter: head.counter,
        taken: head.taken,
        header: head.header,
        certified: head.certified,
        runs,
    })
}

/// What the bytes come to that were read of a source so far: where they are too few to tell, more of them may make a seal.
pub fn read_seal_front<D: Digests>(alloc: Global, digests: &D, bytes: &[u8]) -> SealFront
    ensures answer { IsFront (D.functions digests.now) bytes.now result }
{
    let mut reader = Reader::new(bytes);
    let state = match read_untagged(alloc, bytes, &mut reader) {
        Ok(state) => state,
        Err(fault) => return front_of(fault),
    };
    let left = reader.left();
    if left < TAG_LEN {
        return SealFront::Open;
    }
    let (text, behind) = bytes.split_at(bytes.len() - left);
    if !is_tagged(digests, text, behind) {
        return SealFront::NotTagged;
    }
    SealFront::Whole(state, text.len() + TAG_LEN)
}

// Whether the bytes behind a text begin with its tag.
fn is_tagged<D: Digests>(digests: &D, text: &[u8], behind: &[u8]) -> bool
    requires there { tag_bytes ≤ length behind.now }
    ensures same { IsTrue result ↔ ((D.functions digests.now).tag text.now ≡ take tag_bytes behind.now) }
{
    is_same_tag(&digests.tag(text), &tag_in(behind))
}

// What a fault says of the bytes so far.
fn front_of(fault: Fault) -> SealFront
    ensures value { result ≡ front_of fault }
{
    match fault {
        Fault::Text(TextFault::Truncated) => SealFront::Open,
        Fault::Text(TextFault::Malformed) => SealFront::BadSeal,
        Fault::Memory => SealFront::Memory,
    }
}

// The tag that these bytes begin with.
fn tag_in(bytes: &[u8]) -> [u8; TAG_LEN]
    requires there { tag_bytes ≤ length bytes.now }
    ensures value { result ≡ take tag_bytes bytes.now }
{
    let (tag, _) = bytes.split_at(TAG_LEN);
    match <[u8; TAG_LEN]>::try_from(tag) {
        Ok(tag) => tag,
        Err(_) => unreachable!(),
    }
}

/// The seal that all bytes of a source begin with, and how many bytes it has. A seal that is cut is a bad one, and of one whose text is whole
/// the tag is tested.
pub fn read_seal<D: Digests>(alloc: Global, digests: &D, bytes: &[u8]) -> ReadSeal
    ensures answer { IsAnswer (D.functions digests.now) bytes.now result }
{
    match read_seal_front(alloc, digests, bytes) {
        SealFront::Whole(state, count) => ReadSeal::Whole(state, count),
        SealFront::Open | SealFront::BadSeal => ReadSeal::BadSeal,
        SealFront::NotTagged => ReadSeal::NotTagged,
        SealFront::Memory => ReadSeal::Memory,
    }
}
