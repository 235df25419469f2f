//! Laws of the definitions that the contracts cite. No code calls them.
ghost use Rattle.std.specs.Prelude.{ℕ, List};
ghost use Rattle.csv.specs.Reading.{AreRecords, default_config, strip_bom};
ghost use Rattle.csv.specs.declared.parser.State.TheVariants as st;
ghost use Rattle.mast_tables.specs.Laws.{CellsHaveNumbers, HasAnswer, HasNotBoth, HasOneBreach, HasOneTable, MissingHaveNone, NumbersTell};
ghost use Rattle.mast_tables.specs.Records.{Record, records_of};
ghost use Rattle.mast_tables.specs.Rows.{Row};
ghost use Rattle.mast_tables.specs.declared.declaration.Column.{Column};

/// The records of a file are all that the `csv` crate's reader gives of it.
pub fn records_are_all()
    ensures { (bytes : List ℕ) → AreRecords default_config st.StartRecord (strip_bom bytes) (records_of bytes) }
{}

/// A file that has the rows of a table has no breach.
pub fn rows_leave_no_breach()
    ensures { (columns : List Column) (most : ℕ) (records : List Record) → HasNotBoth columns most records }
{}

/// Each file has the rows of a table or a breach, and has no other rows and no other breach.
pub fn files_have_one_answer()
    ensures some { (columns : List Column) (most : ℕ) (records : List Record) → HasAnswer columns most records }
    ensures rows { (columns : List Column) (most : ℕ) (records : List Record) → HasOneTable columns most records }
    ensures breach { (columns : List Column) (most : ℕ) (records : List Record) → HasOneBreach columns most records }
{}

/// Two cells of a table have one number exactly where their values are equal, a cell has none exactly where it is
/// missing, and a value has one exactly where it is that of a cell.
pub fn numbers_tell_values()
    ensures same { (rows : List Row) → NumbersTell rows }
    ensures missing { (rows : List Row) → MissingHaveNone rows }
    ensures found { (rows : List Row) → CellsHaveNumbers rows }
{}
