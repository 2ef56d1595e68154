//! A verifier's cache and clock, and its commands.
ghost use Rattle.std.specs.Prelude.{◌≡◌, ◌≤◌, IsTrue, IfOk};
ghost use Rattle.record_text.specs.Same.{same_bytes, same_value};
ghost use Rattle.verifier_commands.specs.Transition.{is_root, clock_refusal};

use base_words::Memory;
use lamport_clocks::{Clock, ClockFault, Header};
use record_text::{Node, Refusal, Value, wide_of};
use std::alloc::Global;
use tree_keys::Path;
use verifier_cache::{Cache, Hold};

/// The cache and the clock of a verifier.
#[derive(Drop)]
pub struct State {
    pub cache: Cache,
    pub clock: Clock,
}

impl State {
    ghost use Rattle.verifier_commands.specs.State.{opening};

    /// The state of the verifier of this number before its first command.
    pub(crate) fn new(alloc: Global, number: u16, header: &Header) -> Result<Self, Memory>
        requires cache { 1 ≤ header.now.cache }
        ensures opening { IfOk result (λ state. state ≡ opening number header.now) }
    {
        let mut cache = Cache::new(alloc, header.cache)?;
        if number == 0 {
            cache.insert(
                Path::root_of(wide_of(header)),
                Value::Node(Node::empty()),
                Hold::Root,
            );
        }
        let clock = Clock::new(header.first, header.end);
        Ok(State { cache, clock })
    }
}

// A clock's fault as a refusal.
pub(crate) fn clock_refusal(fault: ClockFault) -> Refusal
    ensures value { result ≡ clock_refusal fault }
{
    match fault {
        ClockFault::BadEpoch => Refusal::BadEpoch,
        ClockFault::StampNotLater => Refusal::StampNotLater,
        ClockFault::ClockEnd => Refusal::ClockEnd,
    }
}

// Whether the path is the root of its tree.
#[tactic(auto, using(crate::proofs::KeyLemmas::root_view))]
pub(crate) fn is_root(path: &Path) -> bool
    ensures value { result ≡ is_root path.now }
{
    path.is_same(&Path::root_of(path.is_wide()))
}

// Whether both are the same value.
pub(crate) fn is_same_value(one: &Value, other: &Value) -> bool
    ensures value { result ≡ same_value one.now other.now }
    ensures same { IsTrue result → one.now ≡ other.now }
{
    one.is_same(other)
}

// Whether both are the same bytes.
pub(crate) fn is_same_bytes(one: &[u8; 32], other: &[u8; 32]) -> bool
    ensures value { result ≡ same_bytes one.now other.now }
{
    one == other
}
