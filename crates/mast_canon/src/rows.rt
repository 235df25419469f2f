//! Rows of tables.
ghost use Rattle.mast_terms.specs.Hashes.{TellsApart};
ghost use Rattle.mast_terms.specs.Orders.{TestsEquality, ComparesBy, OrdersAll};
ghost use Rattle.mast_canon.specs.RowOrder.{row_order, FitsRow};

use mast_tables::Table;
use mast_terms::List;
use std::hash::Hash;

/// A row: the number of its table, from 0 in declared order, and its own number in the table, from 1.
///
/// Rows are ordered by their table and then by their number.
#[derive(Clone, Copy, Debug, PartialEq, Eq, PartialOrd, Ord, Hash)]
pub struct RowId {
    /// The number of the table, from 0.
    pub table: u32,
    /// The number of the row in it, from 1.
    pub number: u32,
}

/// The tables of a specification, in declared order.
#[derive(Drop)]
pub struct Tables {
    pub list: List<Table>,
}

/// Laws of rows: `==` holds exactly of equal ones, `cmp` is their order, in which only equal ones tie, and what a hasher
/// is fed tells them apart.
pub fn row_laws()
    ensures equality { TestsEquality ⟦<RowId as PartialEq>⟧.eq }
    ensures compares { ComparesBy row_order ⟦<RowId as Ord>⟧.cmp }
    ensures order { OrdersAll row_order }
    ensures hash { TellsApart FitsRow ⟦<RowId as Hash>⟧.hash_input }
{}
