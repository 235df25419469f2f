//! The rows of an entry that an equality leaves for a partial choice.
ghost use Rattle.std.specs.Prelude.{◌≡◌, OnOk, option_and_then};
ghost use Rattle.mast_tables.specs.Rows.{IsPlace, cell_at};
ghost use Rattle.mast_join.specs.inside.Lookups.{AreNumbers, IsIndex, IsFound};

use crate::index::Index;
use crate::numbers::Numbers;
use mast_tables::numbers_tell_values;
use mast_terms::NoMemory;

// Finds the rows of an index whose value is that of a row of the other table, and some with another value.
pub(crate) fn find_rows(
    index: &Index<'_>,
    numbers: &mut Numbers<'_>,
    row: u32,
    found: &mut Vec<u32>,
) -> Result<(), NoMemory>
    requires index { IsIndex index.now }
    requires numbers { AreNumbers numbers.old }
    requires place { IsPlace numbers.old.from.now row numbers.old.column }
    requires to { numbers.old.to.now ≡ index.now.table.now }
    ensures found { OnOk result (IsFound index.now (cell_at numbers.old.from.now row numbers.old.column) found.new.items) }
    ensures numbers { AreNumbers numbers.new }
    ensures from { numbers.new.from.now ≡ numbers.old.from.now }
    ensures column { numbers.new.column ≡ numbers.old.column }
    ensures same { numbers.new.to.now ≡ numbers.old.to.now }
{
    numbers_tell_values();
    found.clear();
    match numbers.number(row) {
        None => Ok(()),
        Some(number) => index.find(number, found),
    }
}
