//! The certain answers of blocks as tuples.
ghost use Rattle.std.specs.Prelude.{◌≡◌, ◌≤◌, ◌↔◌, ℕ, length, List as Items, IfOk, OnOk, IfErr};
ghost use Rattle.mast_terms.specs.Answers.{Answers};
ghost use Rattle.mast_canon.specs.Facts.{IsOfTables};
ghost use Rattle.mast_relations.specs.Matches.{In};
ghost use Rattle.mast_relations.specs.Stores.{HasAll, HasOnlyGained};
ghost use Rattle.mast_join.specs.Answers.{IsOverSame};
ghost use Rattle.mast_join.specs.declared.extensions.Wanted.TheVariants.{Tuples};
ghost use Rattle.mast_certain.specs.Answered.{AreBlocks, AreCertain, IsBlock, IsCertainOf, project_of};
ghost use Rattle.mast_certain.specs.LargeClosures.{IsFirstTooLarge, IsTooLarge, NoneIsTooLarge};
ghost use Rattle.mast_certain.specs.inside.Found.{AreTermNumbers, HasGained, HasRow, InSome, IsOverAll, IsStopAt};
ghost use Rattle.mast_certain.specs.inside.Ordered.{IsInOrder};

use crate::closures::TooManyIn;
use crate::found::rows_of_block;
use mast_canon::Spec;
use mast_cq::Cq;
use mast_join::Extensions;
use mast_par::Gate;
use mast_relations::RowSet;
use mast_terms::{List, NameKind, NoMemory, Stop, Tuple};
use std::alloc::Global;
use std::thread::Threads;

/// The certain answers of blocks over the facts of all rows, sorted, each once, or the first block whose closure is too large.
pub(crate) fn answers_of<Rt: Threads + Sync, G: Gate + Sync>(
    rt: &Rt,
    alloc: Global,
    spec: &Spec,
    extensions: &mut Extensions<'_, '_, '_, '_>,
    blocks: &[Cq],
    workers: usize,
    gate: &G,
) -> Result<List<Tuple>, Stop<TooManyIn>>
    requires over { IsOverAll spec.now Tuples extensions.old }
    requires blocks { AreBlocks spec.now blocks.now }
    requires workers { (1 ≤ workers) × (workers ≤ 16) }
    ensures over { IsOverSame extensions.old extensions.new }
    ensures answers { Answers result (AreCertain (project_of spec.now extensions.old.over.rows) blocks.now) (IsFirstTooLarge spec.now blocks.now) }
    ensures fits { IfOk result (λ _. NoneIsTooLarge spec.now blocks.now) }
{
    let mut tuples = Vec::new(alloc);
    for number in 0..blocks.len() {
        let block = &blocks[number];
        add_block(
            rt,
            alloc,
            spec,
            extensions,
            number,
            block,
            workers,
            gate,
            &mut tuples,
        )?;
    }
    Ok(in_order(tuples))
}

// Adds the certain answers of a block, in any order.
fn add_block<Rt: Threads + Sync, G: Gate + Sync>(
    rt: &Rt,
    alloc: Global,
    spec: &Spec,
    extensions: &mut Extensions<'_, '_, '_, '_>,
    number: usize,
    block: &Cq,
    workers: usize,
    gate: &G,
    tuples: &mut Vec<Tuple>,
) -> Result<(), Stop<TooManyIn>>
    requires over { IsOverAll spec.now Tuples extensions.old }
    requires block { IsBlock spec.now block.now }
    requires workers { (1 ≤ workers) × (workers ≤ 16) }
    ensures over { IsOverSame extensions.old extensions.new }
    ensures gained { let rows = extensions.old.over.rows in
        OnOk result (HasGained (IsCertainOf (project_of spec.now rows) (IsOfTables rows) block.now) tuples.old.items tuples.new.items) }
    ensures fits { OnOk result (IsTooLarge spec.now block.now → ⊥) }
    ensures stopped { IfErr result (IsStopAt spec.now number block.now) }
{
    let _ = spec.vocab.len(NameKind::Class);
    let sets = rows_of_block(rt, alloc, spec, extensions, number, block, workers, gate)?;
    let rows = union_of(alloc, block.answer.as_slice().len(), sets.as_slice())?;
    add_tuples(alloc, extensions, &rows, tuples)?;
    Ok(())
}

// The rows of some sets, each once.
fn union_of(alloc: Global, width: usize, sets: &[RowSet]) -> Result<RowSet, NoMemory>
    requires { (row : Items ℕ) → InSome sets.now row → length row ≡ width }
    ensures { IfOk result (λ union. (row : Items ℕ) → In row union.list ↔ InSome sets.now row) }
{
    let mut union = RowSet::new(alloc, width);
    for number in 0..sets.len() {
        add_rows(alloc, &sets[number], &mut union)?;
    }
    Ok(union)
}

// Adds the rows of a set that are not there yet.
fn add_rows(alloc: Global, rows: &RowSet, union: &mut RowSet) -> Result<(), NoMemory>
    requires { (row : Items ℕ) → In row rows.now.list → length row ≡ union.old.width }
    ensures gained { HasOnlyGained (λ row. In row rows.now.list) union.old union.new }
    ensures all { OnOk result (HasAll (λ row. In row rows.now.list) union.new) }
{
    for number in 0..rows.len() {
        union.insert(alloc, rows.row(number))?;
    }
    Ok(())
}

// Adds the tuples of rows of numbers.
fn add_tuples(
    alloc: Global,
    extensions: &Extensions<'_, '_, '_, '_>,
    rows: &RowSet,
    tuples: &mut Vec<Tuple>,
) -> Result<(), NoMemory>
    requires { (row : Items ℕ) → In row rows.now.list → AreTermNumbers extensions.now row }
    ensures { OnOk result (HasGained (HasRow extensions.now (λ row. In row rows.now.list)) tuples.old.items tuples.new.items) }
{
    for number in 0..rows.len() {
        let tuple = extensions.tuple(alloc, rows.row(number))?;
        tuples.push(tuple)?;
    }
    Ok(())
}

// The tuples, sorted, each once.
fn in_order(tuples: Vec<Tuple>) -> List<Tuple>
    ensures { IsInOrder tuples.items result }
{
    let mut ordered = tuples;
    ordered.sort_unstable();
    ordered.dedup();
    List::from_vec(ordered)
}
