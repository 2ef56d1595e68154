//! What each verifier has, with its passes, one for each book of a round.
ghost use Rattle.std.specs.Prelude.{◌≡◌, ◌++◌, ◌∷◌, [], ◌<◌, ℕ, IfOk, OnOk, length, map, get_or, slice_index_or};
ghost use Rattle.std.specs.List.{AllByRecursion};
ghost use Rattle.std.specs.Vec.Iter.{into_iter_items};
ghost use Rattle.epoch_book.specs.declared.pass.Pass.{Pass};
ghost use Rattle.host_rounds.specs.declared.with_passes.WithPasses.{WithPasses};
ghost use Rattle.host_rounds.specs.WithPasses.{run_in, passes_in};

use base_words::Memory;
use certified_epochs::FedRun;
use epoch_book::Pass;
use std::alloc::Global;
use std::vec::IntoIter;

/// The run of a verifier, with its passes, in the order of the books.
#[derive(Drop)]
pub(crate) struct WithPasses {
    pub run: FedRun,
    pub passes: Vec<Pass>,
}

/// Each run with no pass yet, and room for so many.
pub(crate) fn with_no_passes(
    alloc: Global,
    runs: Vec<FedRun>,
    count: usize,
) -> Result<Vec<WithPasses>, Memory>
    ensures runs { IfOk result (λ all. map run_in all.items ≡ runs.items) }
    ensures none { IfOk result (λ all. AllByRecursion (λ one. passes_in one ≡ []) all.items) }
{
    let mut all = Vec::with_capacity(alloc, runs.len())?;
    for run in runs {
        let passes = Vec::with_capacity(alloc, count)?;
        all.push(WithPasses { run, passes })?;
    }
    Ok(all)
}

/// Each verifier takes its pass of one book more.
pub(crate) fn deal(passes: Vec<Pass>, all: &mut [WithPasses]) -> Result<(), Memory>
    requires as_many { length passes.items ≡ length all.old }
    ensures runs { OnOk result (map run_in all.new ≡ map run_in all.old) }
    ensures dealt { OnOk result ((i : ℕ) (one : WithPasses) (pass : Pass) → i < length all.old
        → passes_in (slice_index_or all.new i one) ≡ passes_in (slice_index_or all.old i one) ++ get_or passes.items i pass ∷ []) }
    ensures len { OnOk result (length all.new ≡ length all.old) }
{
    let mut passes = passes.into_iter();
    for one in all.iter_mut() {
        let Some(pass) = passes.next() else {
            unreachable!()
        };
        one.passes.push(pass)?;
    }
    Ok(())
}

/// The runs and the passes apart.
pub(crate) fn apart(
    alloc: Global,
    all: Vec<WithPasses>,
) -> Result<(Vec<FedRun>, Vec<IntoIter<Pass>>), Memory>
    ensures runs { IfOk result (λ both. both.0.items ≡ map run_in all.items) }
    ensures passes { IfOk result (λ both. map into_iter_items both.1.items ≡ map passes_in all.items) }
{
    let mut runs = Vec::with_capacity(alloc, all.len())?;
    let mut passes = Vec::with_capacity(alloc, all.len())?;
    for one in all {
        let WithPasses { run, passes: own } = one;
        runs.push(run)?;
        passes.push(own.into_iter())?;
    }
    Ok((runs, passes))
}

/// The next pass of each verifier, which are those of one book, in the order of the verifiers.
pub(crate) fn next_of_each(alloc: Global, all: &mut [IntoIter<Pass>]) -> Result<Vec<Pass>, Memory>
    requires some { (i : ℕ) (one : IntoIter Pass Global) → i < length all.old → 0 < length (into_iter_items (slice_index_or all.old i one)) }
    ensures as_many { IfOk result (λ passes. length passes.items ≡ length all.old) }
    ensures next { IfOk result (λ passes. (i : ℕ) (one : IntoIter Pass Global) (pass : Pass) → i < length all.old
        → into_iter_items (slice_index_or all.old i one) ≡ get_or passes.items i pass ∷ into_iter_items (slice_index_or all.new i one)) }
    ensures len { length all.new ≡ length all.old }
{
    let mut passes = Vec::with_capacity(alloc, all.len())?;
    for one in all.iter_mut() {
        let Some(pass) = one.next() else {
            unreachable!()
        };
        passes.push(pass)?;
    }
    Ok(passes)
}
