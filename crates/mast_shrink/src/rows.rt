//! Lists of rows.
ghost use Rattle.std.specs.Prelude.{◌≡◌, IfOk};
ghost use Rattle.std.specs.List.Sorted.{IsStrictlySortedBy};
ghost use Rattle.mast_canon.specs.Facts.{HaveSameRows};
ghost use Rattle.mast_canon.specs.RowOrder.{row_order};
ghost use Rattle.mast_shrink.specs.inside.Removal.{others};

use mast_canon::RowId;
use mast_terms::NoMemory;
use std::alloc::Global;

/// The rows in order, each once.
pub fn in_order(alloc: Global, rows: &[RowId]) -> Result<Vec<RowId>, NoMemory>
    ensures ordered { IfOk result (λ ordered. IsStrictlySortedBy row_order ordered.items) }
    ensures same { IfOk result (λ ordered. HaveSameRows ordered.items rows.now) }
{
    let mut ordered = Vec::new(alloc);
    ordered.extend_from_slice(rows)?;
    ordered.sort_unstable();
    ordered.dedup();
    Ok(ordered)
}

/// The rows but this one.
pub fn without(alloc: Global, rows: &[RowId], row: RowId) -> Result<Vec<RowId>, NoMemory>
    ensures { IfOk result (λ rest. rest.items ≡ others row rows.now) }
{
    let mut rest = Vec::new(alloc);
    for other in rows {
        if *other != row {
            rest.push(*other)?;
        }
    }
    Ok(rest)
}
