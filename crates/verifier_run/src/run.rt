//! A verifier's log in any pieces.
ghost use Rattle.std.specs.Prelude.{◌≡◌, ◌+◌, ◌<◌, ◌≤◌, ◌^◌, ◌++◌, [], length, take, drop, None, IsSome, IsOk, IfOk, IfErr, OnOk, OnErr};
ghost use Rattle.arrayvec.specs.ArrayVec.{array_vec_len};
ghost use Rattle.lamport_clocks.specs.Header.{IsHeader};
ghost use Rattle.record_text.specs.Format.{format_of};
ghost use Rattle.command_window.specs.Window.{AreReadOf, AreRight};
ghost use Rattle.merkle_records.specs.Scheme.{scheme_of};
ghost use Rattle.verifier_commands.specs.Machine.{opening_machine};
ghost use Rattle.verifier_run.specs.Progress.{Progress, between_commands, opening_progress, progress_over, fed, ended, weight};
ghost use Rattle.verifier_run.specs.Taken.{taken_by, left_of};

use crate::kept::Kept;
use crate::tracer::Tracer;
use arrayvec::ArrayVec;
use base_words::Memory;
use command_window::CommandWindow;
use lamport_clocks::Header;
use log_codec::{Decoded, LONGEST_COMMAND_TEXT, read_command};
use multiset_sum::Part;
use operation_queue::Operations;
use record_hash::Digests;
use record_text::{Operation, Refusal};
use std::alloc::Global;
use std::marker::Model;

/// Want of memory in the middle of a piece: so many of its bytes are done, and the rest can be fed again.
#[derive(Clone, Copy, Debug, PartialEq, Eq)]
pub struct FeedStop {
    pub taken: usize,
}

/// A verifier that takes its log in pieces, and what is kept of its commands. Contracts see it as a `Progress`.
#[derive(Drop)]
pub struct Run<T: Kept = Operation> {
    pub(crate) tracer: Tracer<T>,
    // the commands that come next, while a piece is taken
    pub(crate) window: CommandWindow,
    pub(crate) held: ArrayVec<u8, LONGEST_COMMAND_TEXT>,
}

impl<T: Kept> Model for Run<T> {
    ghost use Rattle.record_text.specs.Format.{format_of};
    ghost use Rattle.verifier_run.specs.Progress.{Progress, IsBetweenPieces};

    ghost Value = { Progress T };

    ghost view = { λ r. record { course = r.tracer; held = r.held.items } };

    ghost invariant = { λ r. IsBetweenPieces (format_of r.tracer.machine.header) (record { course = r.tracer; held = r.held.items }) };
}

impl<T: Kept> Run<T> {
    /// The run of the verifier of this number, before the first byte of its log.
    pub fn new(alloc: Global, number: u16, header: &Header) -> Result<Self, Memory>
        requires header { IsHeader header.now }
        requires number { number < header.now.verifiers }
        ensures opening { IfOk result (λ run. run ≡ opening_progress number header.now) }
    {
        let tracer = Tracer::new(alloc, number, header)?;
        Ok(Run {
            tracer,
            window: CommandWindow::new(alloc, number),
            held: ArrayVec::new(),
        })
    }

    /// Takes the next piece of the log: the commands that are whole, up to the first that is refused. The
    /// bytes of a command that is cut wait for the next piece. After a refusal it takes bytes and does
    /// nothing. Fewer than 2^63 bytes may be fed in all.
    ///
    /// Want of memory is the only error: the bytes before the command for which it was wanting are done.
    pub fn feed<D: Digests>(&mut self, d: &D, piece: &[u8]) -> Result<(), FeedStop>
        requires room { weight self.old + length piece.now < 2 ^ 63 }

        // All of the piece is done, or what is said to be.
        ensures ok { OnOk result (self.new ≡ fed T.keeps (scheme_of (D.functions d.now) self.old.course.machine.header) self.old piece.now) }
        ensures stop { IfErr result (λ stop.
            self.new ≡ fed T.keeps (scheme_of (D.functions d.now) self.old.course.machine.header) self.old (take stop.taken piece.now)) }
        ensures within { IfErr result (λ stop. stop.taken ≤ length piece.now) }
        ensures weight { weight self.new ≤ weight self.old + length piece.now }

        // Once a command was refused, every piece is taken and nothing changes.
        ensures refused { IsSome self.old.course.refused → IsOk result × (self.new ≡ self.old) }
    {
        if self.tracer.refused().is_some() {
            return Ok(());
        }
        let from = self.complete(d, piece)?;
        if from == piece.len() {
            return Ok(());
        }
        match self.go_on(d, behind(piece, from)) {
            Ok(()) => Ok(()),
            Err(stop) => Err(FeedStop {
                taken: from + stop.taken,
            }),
        }
    }

    // Takes what the cut command lacks, of the front of a piece, and answers how many bytes it took: all of
    // them, if the command is still cut.
    fn complete<D: Digests>(&mut self, d: &D, piece: &[u8]) -> Result<usize, FeedStop>
        requires room { weight self.old + length piece.now < 2 ^ 63 }
        ensures ok { IfOk result (λ taken.
            self.new ≡ fed T.keeps (scheme_of (D.functions d.now) self.old.course.machine.header) self.old (take taken piece.now)) }
        ensures within { IfOk result (λ taken. taken ≤ length piece.now) }
        ensures none_held { IfOk result (λ taken. taken < length piece.now → self.new.held ≡ []) }
        ensures stop { IfErr result (λ stop.
            self.new ≡ fed T.keeps (scheme_of (D.functions d.now) self.old.course.machine.header) self.old (take stop.taken piece.now)) }
        ensures none { IfErr result (λ stop. stop.taken ≡ 0) }
    {
        if self.held.is_empty() {
            return Ok(0);
        }
        let held = self.held.len();
        let room = self.held.remaining_capacity().min(piece.len());
        append(&mut self.held, front(piece, room));
        match read_command(self.tracer.header(), self.held.as_slice()) {
            Decoded::Read(command, len) => {
                let Ok(()) = self.tracer.apply(d, &command) else {
                    self.held.truncate(held);
                    return Err(FeedStop { taken: 0 });
                };
                self.held.clear();
                Ok(len - held)
            }
            Decoded::Malformed => {
                self.tracer.refuse(Refusal::Malformed);
                self.held.clear();
                Ok(room)
            }
            Decoded::Truncated => Ok(room),
        }
    }

    // Takes a piece that begins with a command.
    fn go_on<D: Digests>(&mut self, d: &D, piece: &[u8]) -> Result<(), FeedStop>
        requires none_held { self.old.held ≡ [] }
        requires room { self.old.course.machine.accepted + length piece.now < 2 ^ 63 }
        ensures ok { OnOk result (self.new ≡ fed T.keeps (scheme_of (D.functions d.now) self.old.course.machine.header) self.old piece.now) }
        ensures stop { IfErr result (λ stop.
            self.new ≡ fed T.keeps (scheme_of (D.functions d.now) self.old.course.machine.header) self.old (take stop.taken piece.now)) }
        ensures within { IfErr result (λ stop. stop.taken ≤ length piece.now) }
    {
        let taken = follow(&mut self.tracer, &mut self.window, d, piece)?;
        append(&mut self.held, behind(piece, taken));
        Ok(())
    }

    /// The end of the log: a command that is cut is refused.
    pub fn end(&mut self)
        ensures ended { self.new ≡ ended self.old }
    {
        if !self.held.is_empty() {
            self.held.clear();
            self.tracer.refuse(Refusal::Truncated);
        }
    }

    /// The number of the refused command in the log, from 0, and why it was refused.
    pub fn refused(&self) -> Option<(u64, Refusal)>
        ensures value { result ≡ self.now.course.refused }
    {
        self.tracer.refused()
    }

    /// What was handed in for each sealed epoch, in order.
    pub fn parts(&self) -> &[Part]
        ensures value { result.now ≡ self.now.course.parts }
    {
        self.tracer.parts()
    }

    /// Where what was kept of the commands so far waits.
    pub fn store(&self) -> &T::Store
        ensures held { T.held result.now ≡ self.now.course.items }
    {
        self.tracer.store()
    }

    /// The same, and the run is no more.
    pub fn into_store(self) -> T::Store
        ensures held { T.held result ≡ self.course.items }
    {
        let Run {
            tracer,
            window: _,
            held: _,
        } = self;
        tracer.into_store()
    }
}

impl Run<Operation> {
    /// The gets and puts so far, in order.
    pub fn ops(&self) -> Operations<'_>
        ensures value { result ≡ self.now.course.items }
    {
        self.tracer.operations()
    }

    /// The gets and puts of epochs up to this one, in order.
    pub fn ops_up_to(&self, through: u32) -> Operations<'_>
        ensures value { result ≡ taken_by through self.now.course }
    {
        self.tracer.operations_up_to(through)
    }

    /// Keeps the gets and puts of epochs up to this one no longer, nor the parts of these epochs: `ops` and `parts` answer
    /// those of later ones. All else stays, and a log goes on as it would have.
    pub fn pass(&mut self, through: u32)
        ensures left { self.new ≡ left_of through self.old }
    {
        self.tracer.pass(through);
    }

    /// The same, and hands out these gets and puts. For want of memory nothing is taken.
    pub fn take(&mut self, through: u32) -> Result<Vec<Operation>, Memory>
        ensures operations { IfOk result (λ taken. taken.items ≡ taken_by through self.old.course) }
        ensures left { OnOk result (self.new ≡ left_of through self.old) }
        ensures memory { OnErr result (self.new ≡ self.old) }
    {
        let taken = copies(self.tracer.allocator(), self.ops_up_to(through))?;
        self.pass(through);
        Ok(taken)
    }
}

// Copies of operations.
pub(crate) fn copies(alloc: Global, operations: Operations) -> Result<Vec<Operation>, Memory>
    ensures items { IfOk result (λ v. v.items ≡ operations.entry) }
{
    let mut copies = Vec::new(alloc);
    copies.reserve(operations.len())?;
    for operation in operations {
        copies.push_reserved(operation.to_operation());
    }
    Ok(copies)
}

// Takes the commands that are whole, up to the first that is refused, and answers where the one that is cut
// begins: at the end, if none is. They are read ahead, a window of them at a time; where the window has room for none, for
// want of memory, one by one.
#[tactic(auto, using(crate::proofs::FollowLemmas::following))]
fn follow<T: Kept, D: Digests>(
    tracer: &mut Tracer<T>,
    window: &mut CommandWindow,
    d: &D,
    bytes: &[u8],
) -> Result<usize, FeedStop>
    requires room { tracer.old.machine.accepted + length bytes.now < 2 ^ 63 }
    ensures ok { IfOk result (λ taken.
        progress_over T.keeps (scheme_of (D.functions d.now) tracer.old.machine.header) tracer.old bytes.now
        ≡ record { course = tracer.new; held = drop taken bytes.now }) }
    ensures within { IfOk result (λ taken. taken ≤ length bytes.now) }
    ensures stop { IfErr result (λ stop.
        progress_over T.keeps (scheme_of (D.functions d.now) tracer.old.machine.header) tracer.old (take stop.taken bytes.now)
        ≡ between_commands tracer.new) }
    ensures stop_within { IfErr result (λ stop. stop.taken ≤ length bytes.now) }
{
    let mut taken = 0;
    while tracer.refused().is_none() {
        window.read(d, tracer.header(), behind(bytes, taken));
        if !window.commands().is_empty() {
            match follow_window(tracer, window, d, behind(bytes, taken)) {
                Ok(more) => taken += more,
                Err(stop) => {
                    return Err(FeedStop {
                        taken: taken + stop.taken,
                    });
                }
            }
            continue;
        }
        match read_command(tracer.header(), behind(bytes, taken)) {
            Decoded::Read(command, len) => match tracer.apply(d, &command) {
                Ok(()) => taken += len,
                Err(Memory) => return Err(FeedStop { taken }),
            },
            Decoded::Malformed => {
                tracer.refuse(Refusal::Malformed);
                return Ok(bytes.len());
            }
            Decoded::Truncated => return Ok(taken),
        }
    }
    Ok(bytes.len())
}

// Takes the commands of a window, which the bytes begin with, up to the first that is refused, and answers how many bytes
// these take.
fn follow_window<T: Kept, D: Digests>(
    tracer: &mut Tracer<T>,
    window: &CommandWindow,
    d: &D,
    bytes: &[u8],
) -> Result<usize, FeedStop>
    requires room { tracer.old.machine.accepted + length bytes.now < 2 ^ 63 }
    requires read { AreReadOf (format_of tracer.old.machine.header) bytes.now window.now.commands }
    requires right { AreRight (D.functions d.now) window.now.asked }
    requires some { 0 < length window.now.commands }
    requires going { tracer.old.refused ≡ None }
    ensures ok { IfOk result (λ taken.
        progress_over T.keeps (scheme_of (D.functions d.now) tracer.old.machine.header) tracer.old (take taken bytes.now)
        ≡ between_commands tracer.new) }
    ensures some { IfOk result (λ taken. 0 < taken) }
    ensures within { IfOk result (λ taken. taken ≤ length bytes.now) }
    ensures header { tracer.new.machine.header ≡ tracer.old.machine.header }
    ensures accepted { IfOk result (λ taken. tracer.new.machine.accepted ≤ tracer.old.machine.accepted + taken) }
    ensures stop { IfErr result (λ stop.
        progress_over T.keeps (scheme_of (D.functions d.now) tracer.old.machine.header) tracer.old (take stop.taken bytes.now)
        ≡ between_commands tracer.new) }
    ensures stop_within { IfErr result (λ stop. stop.taken ≤ length bytes.now) }
{
    let mut taken = 0;
    for place in 0..window.commands().len() {
        if tracer.refused().is_some() {
            return Ok(taken);
        }
        let read = &window.commands()[place];
        match tracer.apply(&window.known(d, place), &read.command) {
            Ok(()) => taken += read.len,
            Err(Memory) => return Err(FeedStop { taken }),
        }
    }
    Ok(taken)
}

// Appends bytes for which there is room.
fn append(held: &mut ArrayVec<u8, LONGEST_COMMAND_TEXT>, bytes: &[u8])
    requires room { array_vec_len held.old + length bytes.now ≤ LONGEST_COMMAND_TEXT }
    ensures items { held.new.items ≡ held.old.items ++ bytes.now }
{
    let _there_is_room = held.try_extend_from_slice(bytes);
}

// The first so many bytes.
fn front(bytes: &[u8], len: usize) -> &[u8]
    requires within { len ≤ length bytes.now }
    ensures value { result.now ≡ take len bytes.now }
{
    &bytes[..len]
}

// The bytes behind the first so many.
fn behind(bytes: &[u8], taken: usize) -> &[u8]
    requires within { taken ≤ length bytes.now }
    ensures value { result.now ≡ drop taken bytes.now }
{
    &bytes[taken..]
}
