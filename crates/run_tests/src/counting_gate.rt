//! A gate that sees how many parcels a verifier took, from one phase to the next.
use crate::holding_gate::Flag;
use fv_outside::Gate;
use std::sync::atomic::{AtomicU64, Ordering};

// At so many polls in a row that find nothing a verifier goes.
const EMPTY_POLLS: u64 = 1_024;

// The polls at which somebody waits: the last one of the first phase, and the first two of the second one.
const LAST_POLL: u64 = 1 + EMPTY_POLLS;

const NEXT_POLL: u64 = LAST_POLL + 1;

const POLL_BEHIND: u64 = LAST_POLL + 2;

/// A gate for one worker and its verifier, which passes as number 1, over two phases of 48 requests, in each of which the worker
/// sends one parcel up to its request 40, and one more at the end.
///
/// In the first phase the verifier's first poll waits until the worker is at request 40, and takes the first parcel. The worker
/// waits there until the verifier is at its last poll of the phase, since so many behind the first find nothing. In the second
/// phase the verifier's first poll waits until the worker is at request 88, where the worker waits for the poll behind it.
#[derive(Drop)]
pub(crate) struct CountingGate {
    first: Flag,
    emptied: Flag,
    second: Flag,
    taken: Flag,
    polls: AtomicU64,
    // The number of parcels at the poll before.
    parcels: AtomicU64,
    // Set where somebody passed by another number than these, or with another number of parcels than is right.
    wrong: AtomicU64,
}

impl CountingGate {
    /// Nobody has come yet.
    pub(crate) fn new() -> Self {
        CountingGate {
            first: Flag::new(),
            emptied: Flag::new(),
            second: Flag::new(),
            taken: Flag::new(),
            polls: AtomicU64::new(0),
            parcels: AtomicU64::new(0),
            wrong: AtomicU64::new(0),
        }
    }

    /// Whether each of the four who waited was met.
    pub(crate) fn has_held(&self) -> bool {
        self.first.has_met()
            && self.emptied.has_met()
            && self.second.has_met()
            && self.taken.has_met()
    }

    /// Whether each poll came with the right number of parcels, and nobody passed by another number than these.
    pub(crate) fn is_right(&self) -> bool {
        self.wrong.load(Ordering::SeqCst) == 0
    }

    fn note_wrong(&self) {
        self.wrong.store(1, Ordering::SeqCst);
    }

    fn enter_worker(&self, request: u64) {
        match request {
            40 => {
                self.first.raise();
                self.emptied.wait();
            }
            88 => {
                self.second.raise();
                self.taken.wait();
            }
            _ => {}
        }
    }

    fn enter_verifier(&self, parcels: u64) {
        let poll = self.polls.fetch_add(1, Ordering::SeqCst).saturating_add(1);
        let before = self.parcels.swap(parcels, Ordering::SeqCst);
        if !is_right_at(poll, before, parcels) {
            self.note_wrong();
        }
        match poll {
            1 => self.first.wait(),
            LAST_POLL => self.emptied.raise(),
            NEXT_POLL => self.second.wait(),
            POLL_BEHIND => self.taken.raise(),
            _ => {}
        }
    }
}

// Whether so many parcels were taken at this poll, where so many were at the one before. The last poll of the first phase may
// take the parcel at its end.
fn is_right_at(poll: u64, before: u64, parcels: u64) -> bool {
    match poll {
        1 => parcels == 0,
        2..=LAST_POLL => parcels == 1,
        NEXT_POLL => parcels == 1 || parcels == 2,
        POLL_BEHIND => parcels == before.saturating_add(1),
        _ => parcels == before || parcels == before.saturating_add(1),
    }
}

impl Gate for CountingGate {
    fn enter(&self, number: u16, time: u64) {
        match number {
            0 => self.enter_worker(time),
            1 => self.enter_verifier(time),
            _ => self.note_wrong(),
        }
    }
}
