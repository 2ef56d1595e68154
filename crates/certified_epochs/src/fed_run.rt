//! A run that is fed where no answer can be taken.
ghost use Rattle.std.specs.Prelude.{◌≡◌, ◌+◌, ◌<◌, ◌≤◌, ◌^◌, false, true, length, IfOk};
ghost use Rattle.lamport_clocks.specs.Header.{IsHeader};
ghost use Rattle.merkle_records.specs.Scheme.{scheme_of};
ghost use Rattle.verifier_run.specs.Kept.{keeps_operations};
ghost use Rattle.verifier_run.specs.Progress.{opening_progress, fed, weight};

use base_words::Memory;
use lamport_clocks::Header;
use record_hash::Digests;
use std::alloc::Global;
use verifier_run::Run;

/// A run that takes its log where no answer can be given, as in a thread: that memory was wanting is kept until
/// somebody asks.
#[derive(Drop)]
pub struct FedRun {
    pub run: Run,
    /// Memory was wanting for a piece. From then on the run is behind its log, and takes no more of it.
    pub is_starved: bool,
}

impl FedRun {
    /// The run of the verifier of this number, before the first byte of its log.
    pub fn new(alloc: Global, number: u16, header: &Header) -> Result<Self, Memory>
        requires header { IsHeader header.now }
        requires number { number < header.now.verifiers }
        ensures opening { IfOk result (λ fed. fed.run ≡ opening_progress number header.now) }
        ensures not_starved { IfOk result (λ fed. fed.is_starved ≡ false) }
    {
        Ok(FedRun {
            run: Run::new(alloc, number, header)?,
            is_starved: false,
        })
    }

    /// Takes the next piece of the log. Fewer than 2^63 bytes may be fed in all.
    pub fn feed<D: Digests>(&mut self, d: &D, piece: &[u8])
        requires room { weight self.old.run + length piece.now < 2 ^ 63 }
        ensures taken { self.new.is_starved ≡ false
            → self.new.run ≡ fed keeps_operations (scheme_of (D.functions d.now) self.old.run.course.machine.header) self.old.run piece.now }
        ensures starved { self.old.is_starved ≡ true → self.new.is_starved ≡ true }
        ensures header { self.new.run.course.machine.header ≡ self.old.run.course.machine.header }
        ensures weight { weight self.new.run ≤ weight self.old.run + length piece.now }
    {
        if self.is_starved {
            return;
        }
        if self.run.feed(d, piece).is_err() {
            self.is_starved = true;
        }
    }
}
