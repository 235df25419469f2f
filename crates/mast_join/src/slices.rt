//! Slices of queries that are ready: the pieces of work that are shared out.
ghost use Rattle.std.specs.Prelude.{IfOk, OnOk};
ghost use Rattle.mast_join.specs.Slices.{AreSlices};
ghost use Rattle.mast_join.specs.inside.Cuts.{HasCut};

use crate::ready::Ready;
use mast_terms::{List, NoMemory};
use std::alloc::Global;

// So many rows are the most of a slice.
const MOST_ROWS: u32 = 4096;

/// A slice of a query of a list: the query's number, from 0, and from which to which row of the relation that its join begins with.
#[derive(Clone, Copy, Debug, PartialEq, Eq)]
pub struct Slice {
    pub query: usize,
    pub from: u32,
    /// Behind the last row.
    pub to: u32,
}

/// The slices of queries that are ready, in order: of each query at most 4,096 rows in one, and no slice without rows.
pub fn slices_of(alloc: Global, queries: &[Ready<'_>]) -> Result<List<Slice>, NoMemory>
    ensures { IfOk result (AreSlices 0 queries.now) }
{
    let mut slices = List::new(alloc);
    for number in 0..queries.len() {
        cut(alloc, number, queries[number].plan.size, &mut slices)?;
    }
    Ok(slices)
}

// Puts the slices of a query of so many rows.
fn cut(alloc: Global, query: usize, size: u32, slices: &mut List<Slice>) -> Result<(), NoMemory>
    ensures { OnOk result (HasCut query size slices.old slices.new) }
{
    let mut from = 0;
    while from < size {
        let to = from + (size - from).min(MOST_ROWS);
        slices.push(alloc, Slice { query, from, to })?;
        from = to;
    }
    Ok(())
}
