//! Hits, and the rows of numbers that stand for them.
ghost use Rattle.std.specs.Prelude.{◌≡◌, ◌<◌, [], map, get_or, length, IfOk};
ghost use Rattle.std.specs.List.{AllByRecursion};
ghost use Rattle.std.specs.List.Sorted.{IsStrictlySortedBy};
ghost use Rattle.mast_canon.specs.Facts.{HaveSameRows};
ghost use Rattle.mast_canon.specs.RowOrder.{row_order};
ghost use Rattle.mast_join.specs.Answers.{IsNumberRow};
ghost use Rattle.mast_join.specs.Extensions.{union};
ghost use Rattle.mast_join.specs.Hits.{IsHitOfRow};

use crate::extensions::Extensions;
use mast_canon::RowId;
use mast_terms::{List, NoMemory, Term};
use std::alloc::Global;

/// A tuple that a query has, and the rows that give it: in order, each once.
#[derive(Drop)]
pub struct Hit {
    pub terms: List<Term>,
    pub rows: List<RowId>,
}

/// The hit that a row of numbers stands for: so many terms, and then sets of rows.
pub fn hit_of(
    alloc: Global,
    extensions: &Extensions<'_, '_, '_, '_>,
    width: usize,
    row: &[u32],
) -> Result<Hit, NoMemory>
    requires { IsNumberRow extensions.now row.now width }
    ensures { IfOk result (IsHitOfRow extensions.now width row.now) }
{
    let (answers, sets) = row.split_at(width);
    let terms = extensions.tuple(alloc, answers)?;
    let rows = in_order(joined(alloc, extensions, sets)?);
    Ok(Hit {
        terms,
        rows: List::from_vec(rows),
    })
}

// The rows of sets, one after another.
fn joined(
    alloc: Global,
    extensions: &Extensions<'_, '_, '_, '_>,
    sets: &[u32],
) -> Result<Vec<RowId>, NoMemory>
    requires { AllByRecursion (λ number. number < length extensions.now.sets) sets.now }
    ensures { IfOk result (λ rows. rows.items ≡ union (map (λ number. get_or extensions.now.sets number []) sets.now)) }
{
    let mut rows = Vec::new(alloc);
    for set in sets {
        rows.extend_from_slice(extensions.set(*set))?;
    }
    Ok(rows)
}

// The rows in order, each once.
fn in_order(mut rows: Vec<RowId>) -> Vec<RowId>
    ensures ordered { IsStrictlySortedBy row_order result.items }
    ensures same { HaveSameRows result.items rows.items }
{
    rows.sort_unstable();
    rows.dedup();
    rows
}
