//! Rows by the value of a column.
ghost use Rattle.std.specs.Prelude.{◌≡◌, ◌+◌, ◌<◌, ◌≤◌, ◌^◌, ◌∷◌, ◌++◌, [], IfOk, IfSome, OnOk, length};
ghost use Rattle.std.specs.List.{All};
ghost use Rattle.mast_tables.specs.Rows.{IsPlace};
ghost use Rattle.mast_join.specs.inside.Chains.{heads_after, next_of};
ghost use Rattle.mast_join.specs.inside.Lookups.{IsIndex, key_of, numbered, scattered};

use mast_tables::Table;
use mast_terms::NoMemory;
use std::alloc::Global;

// By it neighbouring numbers come into places far from each other: 2^32 divided by the golden ratio.
const SCATTER: u64 = 0x9E37_79B9;

// Some rows of a table by the number of their value in a column. A place of a row is one more than its index, and 0 is none.
#[derive(Drop)]
pub(crate) struct Index<'t> {
    pub(crate) table: &'t Table,
    pub(crate) column: u32,
    pub(crate) rows: &'t [u32],
    // for each key the last row that has it
    heads: Vec<u32>,
    // for each row the last one before it with its key
    nexts: Vec<u32>,
}

// The key of a number, among so many.
fn scatter(number: u32, count: usize) -> usize
    requires { 0 < count }
    ensures value { result ≡ scattered count number }
    ensures below { result < count }
{
    (number as u64 * SCATTER % 0x1_0000_0000) as usize % count
}

// The key of a cell's number. A missing cell has none.
fn key(number: Option<u32>, count: usize) -> Option<usize>
    requires { 0 < count }
    ensures value { result ≡ key_of count number }
    ensures below { IfSome result (λ key. key < count) }
{
    match number {
        None => None,
        Some(number) => Some(scatter(number, count)),
    }
}

// Puts the next row, which has this key.
fn push(key: Option<usize>, heads: &mut Vec<u32>, nexts: &mut Vec<u32>) -> Result<(), NoMemory>
    requires few { length nexts.old.items + 1 < 2 ^ 32 }
    requires key { IfSome key (λ key. key < length heads.old.items) }
    ensures nexts { OnOk result (nexts.new.items ≡ nexts.old.items ++ next_of key heads.old.items ∷ []) }
    ensures heads { OnOk result (heads.new.items ≡ heads_after key (length nexts.old.items) heads.old.items) }
{
    match key {
        None => {
            nexts.push(0)?;
            Ok(())
        }
        Some(key) => {
            nexts.push(heads[key])?;
            heads[key] = nexts.len() as u32;
            Ok(())
        }
    }
}

impl<'t> Index<'t> {
    // These rows by this column.
    pub(crate) fn new(
        alloc: Global,
        table: &'t Table,
        column: u32,
        rows: &'t [u32],
    ) -> Result<Index<'t>, NoMemory>
        requires places { All (λ row. IsPlace table.now row column) rows.now }
        requires few { length rows.now + 1 < 2 ^ 32 }
        ensures index { IfOk result IsIndex }
        ensures table { IfOk result (λ index. index.table.now ≡ table.now) }
        ensures column { IfOk result (λ index. index.column ≡ column) }
        ensures rows { IfOk result (λ index. index.rows.now ≡ rows.now) }
    {
        let count = rows.len() + 1;
        let mut heads = vec![in alloc; 0u32; count]?;
        let mut nexts = Vec::new(alloc);
        for row in rows {
            push(
                key(table.number(*row, column), count),
                &mut heads,
                &mut nexts,
            )?;
        }
        Ok(Index {
            table,
            column,
            rows,
            heads,
            nexts,
        })
    }

    // Puts the rows whose value has the number behind the others that are found, and some with another number.
    pub(crate) fn find(&self, number: u32, found: &mut Vec<u32>) -> Result<(), NoMemory>
        requires { IsIndex self.now }
        ensures { OnOk result (found.new.items ≡ found.old.items ++ numbered self.now number) }
    {
        let mut place = self.heads[scatter(number, self.heads.len())] as usize;
        while place > 0 {
            found.push(self.rows[place - 1])?;
            place = self.nexts[place - 1] as usize;
        }
        Ok(())
    }
}
