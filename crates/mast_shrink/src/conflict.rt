//! Conflicts of rows, and how a breach becomes one.
ghost use Rattle.std.specs.Prelude.{◌≡◌, ◌≤◌, IfOk, Some};
ghost use Rattle.std.specs.List.{AllByRecursion};
ghost use Rattle.std.specs.List.Sorted.{IsStrictlySortedBy};
ghost use Rattle.mast_canon.specs.ConflictLaws.{IsAmong, IsConflict};
ghost use Rattle.mast_canon.specs.Facts.{IsOfTables};
ghost use Rattle.mast_canon.specs.Fitting.{Fits};
ghost use Rattle.mast_canon.specs.RowOrder.{row_order};
ghost use Rattle.mast_check.specs.Checks.{IsBrokenBy};
ghost use Rattle.mast_check.specs.Limits.{MeetsNoLimit};
ghost use Rattle.mast_shrink.specs.inside.Removal.{AreBroken, AreNeeded};

use crate::rows::{in_order, without};
use mast_canon::{Origin, RowId, Spec, Tables};
use mast_check::{Breach, Checking};
use mast_terms::{List, NoMemory};
use std::alloc::Global;
use std::thread::Threads;

/// Rows whose facts have no model, and have one without any of the rows; and what they break.
#[derive(Drop)]
pub struct Conflict {
    /// An axiom or a constraint that the facts of the rows break.
    pub origin: Origin,
    /// The rows, in order, each once.
    pub rows: List<RowId>,
}

// Rows whose facts break what has the origin.
#[derive(Drop)]
struct Broken {
    origin: Origin,
    rows: List<RowId>,
}

/// A conflict among the rows of a breach.
///
/// Each row in turn is left out where the facts of the rest have no model either. Then the rows of the breach that was
/// found of the rest are left, and its origin.
pub fn shrink<Rt: Threads + Sync>(
    rt: &Rt,
    alloc: Global,
    spec: &Spec,
    tables: &Tables,
    breach: Breach,
    workers: usize,
) -> Result<Conflict, NoMemory>
    requires workers { (1 ≤ workers) × (workers ≤ 16) }
    requires fits { Fits spec.now.tables tables.now.list }
    requires limits { MeetsNoLimit spec.now }

    // The breach's rows are rows of the tables, and their facts break what has its origin.
    requires rows { AllByRecursion (IsOfTables tables.now.list) breach.hit.rows }
    requires broken { IsBrokenBy spec.now tables.now.list breach.hit.rows breach.origin }

    // The facts of the rows have no model, and without any of the rows they have one.
    ensures conflict { IfOk result (λ found. IsConflict spec.now tables.now.list found.rows) }

    // They break what has the origin.
    ensures origin { IfOk result (λ found. IsBrokenBy spec.now tables.now.list found.rows found.origin) }

    // They are in order, each once, and among the breach's rows.
    ensures ordered { IfOk result (λ found. IsStrictlySortedBy row_order found.rows) }
    ensures within { IfOk result (λ found. AllByRecursion (IsAmong breach.hit.rows) found.rows) }
{
    let checking = Checking::new(alloc, spec)?;
    shrink_by(rt, alloc, &checking, tables, breach, workers)
}

/// What `shrink` gives, by what is made once of a specification. It costs what the rows of the breach cost.
pub fn shrink_by<Rt: Threads + Sync>(
    rt: &Rt,
    alloc: Global,
    checking: &Checking<'_>,
    tables: &Tables,
    breach: Breach,
    workers: usize,
) -> Result<Conflict, NoMemory>
    requires workers { (1 ≤ workers) × (workers ≤ 16) }
    requires fits { Fits checking.now.tables tables.now.list }
    requires rows { AllByRecursion (IsOfTables tables.now.list) breach.hit.rows }
    requires broken { IsBrokenBy checking.now tables.now.list breach.hit.rows breach.origin }
    ensures conflict { IfOk result (λ found. IsConflict checking.now tables.now.list found.rows) }
    ensures origin { IfOk result (λ found. IsBrokenBy checking.now tables.now.list found.rows found.origin) }
    ensures ordered { IfOk result (λ found. IsStrictlySortedBy row_order found.rows) }
    ensures within { IfOk result (λ found. AllByRecursion (IsAmong breach.hit.rows) found.rows) }
{
    let rows = in_order(alloc, breach.hit.rows.as_slice())?;
    let broken = Broken {
        origin: breach.origin,
        rows: List::from_vec(in_order(alloc, &rows)?),
    };
    let Broken { origin, rows } = without_each(
        rt, alloc, checking, tables, workers, &rows, broken,
    )?;
    Ok(Conflict { origin, rows })
}

// What is left where each of the rows in turn is left out, if the facts of the rest have no model either.
fn without_each<Rt: Threads + Sync>(
    rt: &Rt,
    alloc: Global,
    checking: &Checking<'_>,
    tables: &Tables,
    workers: usize,
    rows: &[RowId],
    broken: Broken,
) -> Result<Broken, NoMemory>
    requires workers { (1 ≤ workers) × (workers ≤ 16) }
    requires fits { Fits checking.now.tables tables.now.list }
    requires rows { AllByRecursion (IsOfTables tables.now.list) rows.now }
    requires broken { AreBroken checking.now tables.now.list rows.now broken }
    ensures broken { IfOk result (AreBroken checking.now tables.now.list rows.now) }
    ensures needed { IfOk result (AreNeeded checking.now tables.now.list (IsAmong rows.now)) }
{
    let mut broken = broken;
    for row in rows {
        broken = without_row(rt, alloc, checking, tables, workers, *row, broken)?;
    }
    Ok(broken)
}

// What is left where the row is left out, if the facts of the rest have no model either.
fn without_row<Rt: Threads + Sync>(
    rt: &Rt,
    alloc: Global,
    checking: &Checking<'_>,
    tables: &Tables,
    workers: usize,
    row: RowId,
    broken: Broken,
) -> Result<Broken, NoMemory>
    requires workers { (1 ≤ workers) × (workers ≤ 16) }
    requires fits { Fits checking.now.tables tables.now.list }
    requires rows { AllByRecursion (IsOfTables tables.now.list) broken.rows }
    requires broken { AreBroken checking.now tables.now.list broken.rows broken }
    ensures broken { IfOk result (AreBroken checking.now tables.now.list broken.rows) }
    ensures needed { IfOk result (AreNeeded checking.now tables.now.list (λ tried. tried ≡ row)) }
{
    if !broken.rows.as_slice().contains(&row) {
        return Ok(broken);
    }
    let rest = without(alloc, broken.rows.as_slice(), row)?;
    match checking.first_violation(rt, alloc, tables, Some(&rest), workers)? {
        None => Ok(broken),
        Some(found) => Ok(Broken {
            origin: found.origin,
            rows: found.hit.rows,
        }),
    }
}
