//! All workers serve at once, each with its verifier beside it.
ghost use Rattle.std.specs.Prelude.{◌≡◌, IfOk, All};
ghost use Rattle.worker_threads.specs.Pairs.{CanMeet, HasMet, HaveMet};

use crate::worker_pair::WorkerPair;
use base_words::Memory;
use fv_outside::Gate;
use record_hash::Digests;
use round_workers::SharedRound;
use std::marker::PhantomData;
use std::snapshot::Snapshot;
use std::sync::Wait;
use std::thread;
use std::thread::{Promise, Scope, Threads};

/// What leads to a round. A closure that goes to a thread keeps it in place of the round, whose type names a lifetime: of what keeps such a
/// type the prover loses what it gives.
trait LeadsToRound<D: Digests> {
    ghost use Rattle.round_workers.specs.declared.shared_round.SharedRound.{SharedRound};

    ghost round: { Self → SharedRound D };

    fn round(&self) -> &SharedRound<'_, D>
        ensures { result.now ≡ round self.now };
}

impl<'a, D: Digests> LeadsToRound<D> for SharedRound<'a, D> {
    ghost round = { λ shared. shared };

    fn round(&self) -> &SharedRound<'_, D> {
        self
    }
}

/// What the thread of a pair promises: the pair that it gives back has done its part of the round.
#[derive(Drop)]
struct Meets<'a, D: Digests, S: LeadsToRound<D>> {
    shared: &'a S,
    pair: Snapshot<WorkerPair>,
    digests: PhantomData<D>,
}

impl<'a, D: Digests, S: LeadsToRound<D>> Promise<WorkerPair> for Meets<'a, D, S> {
    ghost kept_by = { λ promise pair. HasMet D.functions (S.round promise.shared.now) promise.pair.value pair };
}

/// Each worker does its part of the round, and its verifier is fed with what it logs, each in a thread of its own. Where a thread can't
/// be made, a round of one epoch goes on without it. In a longer one the workers wait for one another, and so for a worker that never
/// begins: there memory is wanting for all.
pub(crate) fn serve_all<R: Threads + Wait + Sync, D: Digests + Sync, G: Gate + Sync>(
    rt: &R,
    shared: &SharedRound<'_, D>,
    gate: &G,
    pairs: Vec<WorkerPair>,
) -> Result<Vec<WorkerPair>, Memory>
    requires ready { All (CanMeet D.functions shared.now) pairs.items }
    ensures met { IfOk result (λ met. HaveMet D.functions shared.now pairs.items met.items) }
{
    serve_together(rt, shared, gate, pairs)
}

// The same in any round.
fn serve_together<
    'e,
    R: Threads + Wait + Sync,
    D: Digests + Sync + 'e,
    S: LeadsToRound<D> + Sync,
    G: Gate + Sync,
>(rt: &'e R, shared: &'e S, gate: &'e G, pairs: Vec<WorkerPair>) -> Result<Vec<WorkerPair>, Memory>
    requires ready { All (CanMeet D.functions (S.round shared.now)) pairs.items }
    ensures met { IfOk result (λ met. HaveMet D.functions (S.round shared.now) pairs.items met.items) }
{
    thread::scope(
        thread::scope_env(),
        rt,
        move |scope| -> Result<Vec<WorkerPair>, Memory>
            requires { All (CanMeet D.functions (S.round shared.now)) pairs.items }
            ensures { IfOk result (λ met. HaveMet D.functions (S.round shared.entry.now) pairs.items met.items) }
        { serve_in::<R, D, S, G>(scope, rt, shared, gate, pairs) },
    )
}

// The same in threads of a scope: the last pair first, and the first pair in the calling thread.
fn serve_in<
    's,
    'e: 's,
    R: Threads + Wait + Sync,
    D: Digests + Sync + 'e,
    S: LeadsToRound<D> + Sync,
    G: Gate + Sync,
>(
    scope: &Scope<'s, &'e ()>,
    rt: &'e R,
    shared: &'e S,
    gate: &'e G,
    mut pairs: Vec<WorkerPair>,
) -> Result<Vec<WorkerPair>, Memory>
    requires ready { All (CanMeet D.functions (S.round shared.now)) pairs.items }
    ensures met { IfOk result (λ met. HaveMet D.functions (S.round shared.now) pairs.items met.items) }
{
    let Some(pair) = pairs.pop() else {
        return Ok(pairs);
    };
    if pairs.is_empty() {
        pairs.push(serve_one::<R, D, S, G>(rt, shared, gate, pair))?;
        return Ok(pairs);
    }
    let promise = Meets {
        shared,
        pair: Snapshot::of(&pair),
        digests: PhantomData,
    };
    let meet = move || -> WorkerPair
        requires { CanMeet D.functions (S.round shared.now) pair }
        ensures { HasMet D.functions (S.round shared.entry.now) pair result }
    { serve_one::<R, D, S, G>(rt, shared, gate, pair) };
    match scope.spawn_with(promise, meet) {
        Ok(thread) => {
            let met = serve_in::<R, D, S, G>(scope, rt, shared, gate, pairs);
            let pair = thread.join(rt);
            let mut met = met?;
            met.push(pair)?;
            Ok(met)
        }
        Err(refused) => {
            if gives_up::<D, S>(shared) {
                return Err(Memory);
            }
            let pair = (refused.value)();
            let mut met = serve_in::<R, D, S, G>(scope, rt, shared, gate, pairs)?;
            met.push(pair)?;
            Ok(met)
        }
    }
}

// A pair does its part of the round.
fn serve_one<R: Threads + Wait + Sync, D: Digests + Sync, S: LeadsToRound<D>, G: Gate + Sync>(
    rt: &R,
    shared: &S,
    gate: &G,
    pair: WorkerPair,
) -> WorkerPair
    requires can { CanMeet D.functions (S.round shared.now) pair }
    ensures met { HasMet D.functions (S.round shared.now) pair result }
{
    pair.meet(rt, shared.round(), gate)
}

// Gives up a round that can't go on without one of its workers, since they wait for one another: the answer says whether it is so.
fn gives_up<D: Digests, S: LeadsToRound<D>>(shared: &S) -> bool {
    let round = shared.round();
    if round.more == 0 {
        return false;
    }
    round.give_up();
    true
}
