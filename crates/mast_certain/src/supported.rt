//! Hits: certain answers, and the rows that give them.
ghost use Rattle.std.specs.Prelude.{◌≤◌, ℕ, List as Items, IfOk, OnOk, IfErr};
ghost use Rattle.mast_terms.specs.Answers.{Answers};
ghost use Rattle.mast_canon.specs.Fitting.{Fits};
ghost use Rattle.mast_relations.specs.Matches.{In};
ghost use Rattle.mast_join.specs.Answers.{IsNumberRow, IsOverSame};
ghost use Rattle.mast_join.specs.declared.extensions.Wanted.TheVariants.{AllHits};
ghost use Rattle.mast_certain.specs.Answered.{AreBlocks, AreHits, IsBlock, project_of};
ghost use Rattle.mast_certain.specs.LargeClosures.{IsFirstTooLarge, IsTooLarge, NoneIsTooLarge};
ghost use Rattle.mast_certain.specs.inside.Found.{InSome, IsOverAll, IsStopAt};
ghost use Rattle.mast_certain.specs.inside.Supported.{AreBlockHits, HasHitsOf};

use crate::closures::TooManyIn;
use crate::found::rows_of_block;
use mast_canon::{Spec, Tables};
use mast_cq::{Cq, Ucq};
use mast_join::{Extensions, Hit, Wanted, hit_of, unfolder_of};
use mast_par::OpenGate;
use mast_relations::RowSet;
use mast_terms::{List, NameKind, NoMemory, Stop};
use std::alloc::Global;
use std::thread::Threads;

/// Hits of the blocks of a query over all rows: the terms of each are a certain answer of some block over the facts of its rows,
/// and for each set of rows and each certain answer over their facts some hit has these terms, and rows within the set. The
/// same hit may come several times. TooManyIn names the first block whose closure is too large, and comes exactly where there is
/// one.
pub fn hits<Rt: Threads + Sync>(
    rt: &Rt,
    alloc: Global,
    spec: &Spec,
    tables: &Tables,
    query: &Ucq,
    workers: usize,
) -> Result<List<Hit>, Stop<TooManyIn>>
    requires fits { Fits spec.now.tables tables.now.list }
    requires blocks { AreBlocks spec.now query.now }
    requires workers { (1 ≤ workers) × (workers ≤ 16) }
    ensures hits { Answers result (AreHits (project_of spec.now tables.now.list) query.now) (IsFirstTooLarge spec.now query.now) }
    ensures fits { IfOk result (λ _. NoneIsTooLarge spec.now query.now) }
{
    let unfolder = unfolder_of(alloc, spec)?;
    let mut extensions = Extensions::new(alloc, spec, &unfolder, tables, None, Wanted::AllHits);
    hits_of(rt, alloc, spec, &mut extensions, query.as_slice(), workers)
}

// The hits of blocks, or the first block whose closure is too large.
fn hits_of<Rt: Threads + Sync>(
    rt: &Rt,
    alloc: Global,
    spec: &Spec,
    extensions: &mut Extensions<'_, '_, '_, '_>,
    blocks: &[Cq],
    workers: usize,
) -> Result<List<Hit>, Stop<TooManyIn>>
    requires over { IsOverAll spec.now AllHits extensions.old }
    requires blocks { AreBlocks spec.now blocks.now }
    requires workers { (1 ≤ workers) × (workers ≤ 16) }
    ensures hits { Answers result (AreHits (project_of spec.now extensions.old.over.rows) blocks.now) (IsFirstTooLarge spec.now blocks.now) }
    ensures fits { IfOk result (λ _. NoneIsTooLarge spec.now blocks.now) }
{
    let mut hits = Vec::new(alloc);
    for number in 0..blocks.len() {
        let block = &blocks[number];
        add_block(
            rt, alloc, spec, extensions, number, block, workers, &mut hits,
        )?;
    }
    Ok(List::from_vec(hits))
}

// Adds the hits of a block.
fn add_block<Rt: Threads + Sync>(
    rt: &Rt,
    alloc: Global,
    spec: &Spec,
    extensions: &mut Extensions<'_, '_, '_, '_>,
    number: usize,
    block: &Cq,
    workers: usize,
    hits: &mut Vec<Hit>,
) -> Result<(), Stop<TooManyIn>>
    requires over { IsOverAll spec.now AllHits extensions.old }
    requires block { IsBlock spec.now block.now }
    requires workers { (1 ≤ workers) × (workers ≤ 16) }
    ensures over { IsOverSame extensions.old extensions.new }
    ensures hits { OnOk result (AreBlockHits (project_of spec.now extensions.old.over.rows) block.now hits.old.items hits.new.items) }
    ensures fits { OnOk result (IsTooLarge spec.now block.now → ⊥) }
    ensures stopped { IfErr result (IsStopAt spec.now number block.now) }
{
    let _ = spec.vocab.len(NameKind::Class);
    let width = block.answer.as_slice().len();
    let sets = rows_of_block(
        rt, alloc, spec, extensions, number, block, workers, &OpenGate,
    )?;
    add_sets(alloc, extensions, width, sets.as_slice(), hits)?;
    Ok(())
}

// Adds the hits of the rows of sets.
fn add_sets(
    alloc: Global,
    extensions: &Extensions<'_, '_, '_, '_>,
    width: usize,
    sets: &[RowSet],
    hits: &mut Vec<Hit>,
) -> Result<(), NoMemory>
    requires { (row : Items ℕ) → InSome sets.now row → IsNumberRow extensions.now row width }
    ensures { OnOk result (HasHitsOf extensions.now width (InSome sets.now) hits.old.items hits.new.items) }
{
    for number in 0..sets.len() {
        add_rows(alloc, extensions, width, &sets[number], hits)?;
    }
    Ok(())
}

// Adds the hits of the rows of a set.
fn add_rows(
    alloc: Global,
    extensions: &Extensions<'_, '_, '_, '_>,
    width: usize,
    rows: &RowSet,
    hits: &mut Vec<Hit>,
) -> Result<(), NoMemory>
    requires { (row : Items ℕ) → In row rows.now.list → IsNumberRow extensions.now row width }
    ensures { OnOk result (HasHitsOf extensions.now width (λ row. In row rows.now.list) hits.old.items hits.new.items) }
{
    for number in 0..rows.len() {
        let hit = hit_of(alloc, extensions, width, rows.row(number))?;
        hits.push(hit)?;
    }
    Ok(())
}
