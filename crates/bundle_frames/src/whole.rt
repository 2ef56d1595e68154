//! A bundle that lies in memory in pieces, read whole: what the splitter finds, collected.
ghost use Rattle.std.specs.Prelude.{◌≡◌, ℕ, ◌+◌, ◌^◌, ◌<◌, ◌≤◌, List, ◌++◌, length, drop, unwrap_or, IfOk, IfSome, OnOk};
ghost use Rattle.std.specs.List.{flat_map};
ghost use Rattle.bundle_frames.specs.Bundle.{bundle_of, with_frames};
ghost use Rattle.bundle_frames.specs.Progress.{position, rest_of};
ghost use Rattle.bundle_frames.specs.WholeBundle.{bundle_in, frames_in};

use crate::found::Found;
use crate::splitter::Splitter;
use base_words::Memory;
use lamport_clocks::Header;
use std::alloc::Global;

/// A frame with its bytes.
#[derive(Debug, PartialEq, Eq, Drop)]
pub struct WholeFrame {
    /// The verifier to whose log the frame belongs.
    pub verifier: u16,
    /// The piece of that log.
    pub body: Vec<u8>,
}

/// A bundle with its bytes.
#[derive(Debug, PartialEq, Eq, Drop)]
pub struct WholeBundle {
    /// The header, if it is good.
    pub header: Option<Header>,
    /// The frames up to the end, or to what is bad.
    pub frames: Vec<WholeFrame>,
    /// The offset of the header or frame that is bad or cut, if one is.
    pub bad: Option<u64>,
}

/// Reads a bundle that comes in these pieces, of fewer than 2^63 bytes together. It is the same bundle
/// however the bytes are cut.
pub fn read_pieces(alloc: Global, pieces: &[Vec<u8>]) -> Result<WholeBundle, Memory>
    requires fits { length (flat_map (λ piece. piece.items) pieces.now) < 2 ^ 63 }
    ensures bundle { IfOk result
        (λ bundle. bundle_in bundle ≡ bundle_of (flat_map (λ piece. piece.items) pieces.now)) }
{
    let mut splitter = Splitter::new(alloc)?;
    let mut bundle = WholeBundle {
        header: None,
        frames: Vec::new(alloc),
        bad: None,
    };
    for piece in pieces {
        collect(alloc, &mut splitter, &mut bundle, piece)?;
    }
    bundle.bad = splitter.end();
    Ok(bundle)
}

// Feeds one piece, and collects what is found in it.
fn collect(
    alloc: Global,
    splitter: &mut Splitter,
    bundle: &mut WholeBundle,
    piece: &[u8],
) -> Result<(), Memory>
    requires fits { position splitter.old + length piece.now < 2 ^ 63 }
    requires header { bundle.old.header ≡ splitter.old.header }
    // What was collected and the rest behind it stay the same, whatever follows.
    ensures rest { OnOk result ((more : List ℕ)
        → with_frames (frames_in bundle.old) (rest_of splitter.old (piece.now ++ more))
        ≡ with_frames (frames_in bundle.new) (rest_of splitter.new more)) }
    ensures header { OnOk result (bundle.new.header ≡ splitter.new.header) }
    ensures position { OnOk result
        (position splitter.new ≤ position splitter.old + length piece.now) }
{
    let mut done = 0;
    while done < piece.len() {
        match collect_one(alloc, splitter, bundle, &piece[done..])? {
            Some(taken) => done += taken,
            None => return Ok(()),
        }
    }
    Ok(())
}

// Feeds a piece once, and answers how much of it was taken, if there may be more in it.
fn collect_one(
    alloc: Global,
    splitter: &mut Splitter,
    bundle: &mut WholeBundle,
    piece: &[u8],
) -> Result<Option<usize>, Memory>
    requires fits { position splitter.old + length piece.now < 2 ^ 63 }
    requires header { bundle.old.header ≡ splitter.old.header }
    ensures rest { IfOk result (λ taken. (more : List ℕ)
        → with_frames (frames_in bundle.old) (rest_of splitter.old (piece.now ++ more))
        ≡ with_frames (frames_in bundle.new) (rest_of splitter.new
        (drop (unwrap_or taken (length piece.now)) piece.now ++ more))) }
    ensures header { OnOk result (bundle.new.header ≡ splitter.new.header) }
    ensures position { IfOk result (λ taken.
        position splitter.new ≤ position splitter.old + unwrap_or taken (length piece.now)) }
    ensures taken { IfOk result (λ taken. IfSome taken (λ n. (0 < n) × (n ≤ length piece.now))) }
{
    let fed = splitter.feed(piece);
    match fed.found {
        Found::Nothing => return Ok(None),
        Found::Bad(_) => return Ok(None),
        Found::Head(header) => bundle.header = Some(header),
        Found::Frame(verifier) => {
            let body = Vec::from_slice(alloc, splitter.body())?;
            bundle.frames.push(WholeFrame { verifier, body })?;
        }
    }
    Ok(Some(fed.taken))
}
