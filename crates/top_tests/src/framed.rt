//! Bundles taken apart into frames, which are then cut, or come in another order.
use std::alloc::Global;
use std::process::Abort;

// How many bytes a bundle's header has, and the head of a frame.
const HEADER_BYTES: usize = 18;

const HEAD_BYTES: usize = 6;

// A frame: whose it is, and its bytes of that verifier's log.
#[derive(Clone, Copy)]
struct Frame<'a> {
    verifier: u8,
    body: &'a [u8],
}

/// A bundle of which each frame has fewer than 256 bytes: its header, and its frames.
#[derive(Drop)]
pub(crate) struct Framed<'a> {
    header: &'a [u8],
    frames: Vec<Frame<'a>>,
}

impl<'a> Framed<'a> {
    /// The parts of a bundle.
    pub(crate) fn of(rt: &impl Abort, alloc: Global, bundle: &'a [u8]) -> Framed<'a> {
        let (header, behind) = bundle.split_at(HEADER_BYTES.min(bundle.len()));
        let mut frames = Vec::new(alloc);
        let mut rest = behind;
        for _ in 0..behind.len() {
            if rest.len() <= HEAD_BYTES {
                break;
            }
            let (head, behind) = rest.split_at(HEAD_BYTES);
            let length = usize::from(head[5]).min(behind.len());
            let (body, more) = behind.split_at(length);
            let frame = Frame {
                verifier: head[1],
                body,
            };
            frames.push(frame).expect(rt, "memory");
            rest = more;
        }
        Framed { header, frames }
    }

    /// How many bytes of a log the longest frame has.
    pub(crate) fn longest(&self) -> usize {
        let mut longest = 0;
        for frame in &self.frames {
            longest = frame.body.len().max(longest);
        }
        longest
    }

    /// The bundle where each frame is cut in two behind so many bytes, if it has more.
    pub(crate) fn cut_at(&self, rt: &impl Abort, alloc: Global, at: usize) -> Vec<u8> {
        let mut bundle = Vec::from_slice(alloc, self.header).expect(rt, "memory");
        for frame in &self.frames {
            let (front, rest) = frame.body.split_at(at.min(frame.body.len()));
            push_frame(rt, &mut bundle, frame.verifier, front);
            push_frame(rt, &mut bundle, frame.verifier, rest);
        }
        bundle
    }

    /// The bundle where each frame is cut in pieces, all of so many parts of its length but the last.
    pub(crate) fn cut_in(&self, rt: &impl Abort, alloc: Global, parts: usize) -> Vec<u8> {
        let mut bundle = Vec::from_slice(alloc, self.header).expect(rt, "memory");
        for frame in &self.frames {
            push_pieces(rt, &mut bundle, frame, parts);
        }
        bundle
    }

    /// The bundles of these frames where those of the verifiers 0 and 1 come in any order, but those of each as they do here.
    /// There are at most eight frames.
    pub(crate) fn in_any_order(&self, rt: &impl Abort, alloc: Global) -> Vec<Vec<u8>> {
        let first = self.frames_of(rt, alloc, 0);
        let second = self.frames_of(rt, alloc, 1);
        let mut bundles = Vec::new(alloc);
        for choice in 0..1 << 8 {
            if let Some(bundle) = self.in_order(rt, alloc, &first, &second, choice) {
                bundles.push(bundle).expect(rt, "memory");
            }
        }
        bundles
    }

    // The frames of a verifier.
    fn frames_of(&self, rt: &impl Abort, alloc: Global, verifier: u8) -> Vec<Frame<'a>> {
        let mut frames = Vec::new(alloc);
        for frame in &self.frames {
            if frame.verifier == verifier {
                frames.push(*frame).expect(rt, "memory");
            }
        }
        frames
    }

    // The bundle where a number's bits say, the lowest first, whose frame comes next, if no bit and no frame is left then.
    fn in_order(
        &self,
        rt: &impl Abort,
        alloc: Global,
        first: &[Frame<'_>],
        second: &[Frame<'_>],
        choice: u32,
    ) -> Option<Vec<u8>> {
        let mut bundle = Vec::from_slice(alloc, self.header).expect(rt, "memory");
        let (mut first, mut second) = (first.iter(), second.iter());
        let mut choice = choice;
        for _ in 0..self.frames.len() {
            let next = if choice % 2 == 0 {
                first.next()
            } else {
                second.next()
            };
            let Some(frame) = next else {
                return None;
            };
            push_frame(rt, &mut bundle, frame.verifier, frame.body);
            choice /= 2;
        }
        if choice == 0 { Some(bundle) } else { None }
    }
}

// Appends the pieces of a frame.
fn push_pieces(rt: &impl Abort, bundle: &mut Vec<u8>, frame: &Frame<'_>, parts: usize) {
    let size = frame.body.len().div_ceil(parts.max(1)).max(1);
    for piece in frame.body.chunks(size) {
        push_frame(rt, bundle, frame.verifier, piece);
    }
}

// Appends a frame of these bytes, if there are any.
fn push_frame(rt: &impl Abort, bundle: &mut Vec<u8>, verifier: u8, body: &[u8]) {
    if !body.is_empty() {
        let length = u8::try_from(body.len()).expect(rt, "a short frame");
        let head = [0, verifier, 0, 0, 0, length];
        bundle.extend_from_slice(&head).expect(rt, "memory");
        bundle.extend_from_slice(body).expect(rt, "memory");
    }
}
