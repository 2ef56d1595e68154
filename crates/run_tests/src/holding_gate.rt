//! Gates that hold one thread until another comes, and give up in the end.
use fv_outside::Gate;
use std::sync::atomic::{AtomicU64, Ordering};

// How often a gate looks whether the other is there, before it gives up.
const MOST_TURNS: u64 = 1 << 30;

/// Whether somebody has come, for whom others wait, and whether one who waited has seen that.
#[derive(Drop)]
pub(crate) struct Flag {
    come: AtomicU64,
    met: AtomicU64,
}

impl Flag {
    /// Nobody has come yet.
    pub(crate) fn new() -> Self {
        Flag {
            come: AtomicU64::new(0),
            met: AtomicU64::new(0),
        }
    }

    /// Somebody has come.
    pub(crate) fn raise(&self) {
        self.come.store(1, Ordering::SeqCst);
    }

    /// Waits until somebody has come, or gives up.
    pub(crate) fn wait(&self) {
        for _ in 0..MOST_TURNS {
            if self.come.load(Ordering::SeqCst) != 0 {
                self.met.store(1, Ordering::SeqCst);
                return;
            }
        }
    }

    /// Whether one who waited has seen that somebody came: not so where the one gave up, nor where nobody passed the gate.
    pub(crate) fn has_met(&self) -> bool {
        self.met.load(Ordering::SeqCst) != 0
    }
}

/// A gate that holds worker 0 at its first request until worker 1 is at its second. It notes by which numbers it is passed.
#[derive(Drop)]
pub(crate) struct HoldingGate {
    second: Flag,
    // A bit for each number.
    passed: AtomicU64,
}

impl HoldingGate {
    /// Nobody has come yet.
    pub(crate) fn new() -> Self {
        HoldingGate {
            second: Flag::new(),
            passed: AtomicU64::new(0),
        }
    }

    /// Whether both passed, and worker 0 went on behind worker 1.
    pub(crate) fn has_held(&self) -> bool {
        self.second.has_met()
    }

    /// A bit for each number below 64 by which it was passed, the lowest for number 0.
    pub(crate) fn passed(&self) -> u64 {
        self.passed.load(Ordering::SeqCst)
    }
}

impl Gate for HoldingGate {
    fn enter(&self, number: u16, time: u64) {
        let bit = 1_u64.checked_shl(u32::from(number)).unwrap_or(0);
        self.passed.fetch_or(bit, Ordering::SeqCst);
        match (number, time) {
            (0, 0) => self.second.wait(),
            (1, 1) => self.second.raise(),
            _ => {}
        }
    }
}

/// A gate for one worker and its verifier, which passes as number 1: it holds the verifier at its first poll until the worker
/// is at request 40, and the worker there until the verifier took a parcel and fed it.
#[derive(Drop)]
pub(crate) struct FeedingGate {
    request: Flag,
    parcel: Flag,
}

impl FeedingGate {
    /// Nobody has come yet.
    pub(crate) fn new() -> Self {
        FeedingGate {
            request: Flag::new(),
            parcel: Flag::new(),
        }
    }

    /// Whether both passed, and neither went on alone.
    pub(crate) fn has_held(&self) -> bool {
        self.request.has_met() && self.parcel.has_met()
    }
}

impl Gate for FeedingGate {
    fn enter(&self, number: u16, time: u64) {
        match (number, time) {
            (1, 0) => self.request.wait(),
            (0, 40) => {
                self.request.raise();
                self.parcel.wait();
            }
            (1, 1) => self.parcel.raise(),
            _ => {}
        }
    }
}
