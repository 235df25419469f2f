//! Typed tables: the rows of a table file, each cell read by the kind of its column, and the file's first breach.
//! The crates above rest on `load`: it gives exactly the rows of a file without a breach, or else its first breach.
//! The words are defined in specs/Breach.antt, and in Records, Typed, Rows, Values and Whole beside it.
//! It must not know of files and sinks, of mappings and queries, or of how a refusal is printed.
#![tactic(auto)]

mod cells;
mod codes;
mod declaration;
mod laws;
mod table;
mod table_file;
mod typed;

pub use declaration::{Column, RowBreach, RowKind, TableDecl};
pub use laws::{files_have_one_answer, numbers_tell_values, records_are_all, rows_leave_no_breach};
pub use table::Table;
pub use table_file::load;
