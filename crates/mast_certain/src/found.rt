//! What is found of a block: the rows of numbers of the slices of its closure's members.
ghost use Rattle.std.specs.Prelude.{◌≤◌, ◌<◌, All, IfOk, IfErr, length, map};
ghost use Rattle.std.specs.List.{AllByRecursion, AllZip};
ghost use Rattle.mast_cq.specs.Queries.{viewed};
ghost use Rattle.mast_rewrite.specs.Closures.{Closure};
ghost use Rattle.mast_join.specs.Answers.{IsAsked, IsOverSame, IsReady};
ghost use Rattle.mast_certain.specs.LargeClosures.{IsTooLarge};
ghost use Rattle.mast_certain.specs.inside.Found.{AreReady, AreRowsOf, InSome, IsFoundIn, IsStopAt};

use crate::closures::{TooManyIn, closure_of};
use bumpalo::Bump;
use mast_canon::Spec;
use mast_cq::{Cq, CqRef};
use mast_join::{Extensions, Ready, Slice, slices_of};
use mast_par::{Gate, each_piece};
use mast_relations::RowSet;
use mast_terms::{List, NoMemory, Stop};
use std::alloc::Global;
use std::thread::Threads;

/// The rows of numbers that the members of the closure of a block have, in one set for each slice. The closure is made in an
/// arena of its own and given up with it; the extensions of its atoms stay.
pub(crate) fn rows_of_block<Rt: Threads + Sync, G: Gate + Sync>(
    rt: &Rt,
    alloc: Global,
    spec: &Spec,
    extensions: &mut Extensions<'_, '_, '_, '_>,
    number: usize,
    block: &Cq,
    workers: usize,
    gate: &G,
) -> Result<List<RowSet>, Stop<TooManyIn>>
    requires asked { IsAsked (length extensions.old.over.sources.vocab.constants) block.now }
    requires workers { (1 ≤ workers) × (workers ≤ 16) }
    ensures over { IsOverSame extensions.old extensions.new }
    ensures rows { IfOk result (λ sets. AreRowsOf extensions.new (Closure spec.now.normal block.now) (InSome sets)) }
    ensures fits { IfOk result (λ _. IsTooLarge spec.now block.now → ⊥) }
    ensures stopped { IfErr result (IsStopAt spec.now number block.now) }
{
    let arena = Bump::new(alloc);
    let members = closure_of(alloc, &arena, spec, number, block)?;
    let readies = ready_all(alloc, extensions, members.queries())?;
    let slices = slices_of(alloc, readies.as_slice())?;
    let sets = rows_of(
        rt,
        alloc,
        extensions,
        readies.as_slice(),
        slices.as_slice(),
        workers,
        gate,
    )?;
    Ok(sets)
}

// The queries, made ready one after the other.
fn ready_all<'q>(
    alloc: Global,
    extensions: &mut Extensions<'_, '_, '_, '_>,
    queries: &[CqRef<'q>],
) -> Result<List<Ready<'q>>, NoMemory>
    requires { AllByRecursion (IsAsked (length extensions.old.over.sources.vocab.constants)) (map viewed queries.now) }
    ensures over { IsOverSame extensions.old extensions.new }
    ensures ready { IfOk result (AreReady extensions.new (map viewed queries.now)) }
{
    let mut readies = List::new(alloc);
    for number in 0..queries.len() {
        let ready = extensions.ready(alloc, queries[number])?;
        readies.push(alloc, ready)?;
    }
    Ok(readies)
}

// The rows of numbers of the slices, a set for each. These are the pieces that the workers share.
#[tactic(auto, using(mast_par::proofs::PiecesLemmas::gives_related))]
fn rows_of<Rt: Threads + Sync, G: Gate + Sync>(
    rt: &Rt,
    alloc: Global,
    extensions: &Extensions<'_, '_, '_, '_>,
    readies: &[Ready<'_>],
    slices: &[Slice],
    workers: usize,
    gate: &G,
) -> Result<List<RowSet>, NoMemory>
    requires ready { AllByRecursion (IsReady extensions.now) readies.now }
    requires there { All (λ slice. slice.query < length readies.now) slices.now }
    requires workers { (1 ≤ workers) × (workers ≤ 16) }
    ensures { IfOk result (AllZip (IsFoundIn extensions.now readies.now) slices.now) }
{
    let rows = |slice: &Slice| -> Result<RowSet, NoMemory>
        requires ready { AllByRecursion (IsReady extensions.now) readies.now }
        requires there { slice.now.query < length readies.now }
        ensures { IfOk result (IsFoundIn extensions.entry.now readies.entry.now slice.entry.now) }
    { rows_in(alloc, extensions, readies, *slice) };
    each_piece(rt, alloc, slices, workers, &rows, gate)
}

// The rows of numbers of a slice.
fn rows_in(
    alloc: Global,
    extensions: &Extensions<'_, '_, '_, '_>,
    readies: &[Ready<'_>],
    slice: Slice,
) -> Result<RowSet, NoMemory>
    requires ready { AllByRecursion (IsReady extensions.now) readies.now }
    requires there { slice.query < length readies.now }
    ensures { IfOk result (IsFoundIn extensions.now readies.now slice) }
{
    let ready = &readies[slice.query];
    let mut rows = RowSet::new(alloc, ready.plan.query.answer.as_slice().len());
    extensions.answers(alloc, ready, slice.from, slice.to, &mut rows)?;
    Ok(rows)
}
