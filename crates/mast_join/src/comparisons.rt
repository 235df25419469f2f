//! The comparisons of a source query, with places in chosen rows for columns.
ghost use Rattle.std.specs.Prelude.{◌≡◌};
ghost use Rattle.std.specs.Option.{option_copied};
ghost use Rattle.mast_canon.specs.Choices as choices;

use mast_sql::Compare;
use mast_terms::Value;
use std::cmp::Ordering;

// A side of a comparison: the cell of a column in the row that is chosen for an entry, both from 0, or a constant, or nothing.
#[derive(Drop)]
pub(crate) enum Side<'a> {
    Cell { entry: usize, column: usize },
    Constant(&'a Value),
    Nothing,
}

// A comparison of two sides.
#[derive(Drop)]
pub(crate) struct Test<'a> {
    pub(crate) left: Side<'a>,
    pub(crate) op: Compare,
    pub(crate) right: Side<'a>,
}

// Whether the sign is right of two values in this order.
fn is_right(op: Compare, order: Ordering) -> bool
    ensures { result ≡ choices.is_right op order }
{
    match op {
        Compare::Equal => order.is_eq(),
        Compare::Differ => !order.is_eq(),
        Compare::Less => order.is_lt(),
        Compare::AtMost => !order.is_gt(),
        Compare::More => order.is_gt(),
        Compare::AtLeast => !order.is_lt(),
    }
}

// Whether two values compare so. A missing one does with none.
pub(crate) fn compare(op: Compare, left: Option<&Value>, right: Option<&Value>) -> bool
    ensures { result ≡ choices.compare op (option_copied left.entry) (option_copied right.entry) }
{
    match left {
        None => false,
        Some(left) => match right {
            None => false,
            Some(right) => is_right(op, left.cmp(right)),
        },
    }
}
