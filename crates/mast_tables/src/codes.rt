//! The codes of a table's cells, in a list for each column.
ghost use Rattle.std.specs.Prelude.{◌≡◌, ◌+◌, ◌*◌, ◌<◌, ◌≤◌, ◌∷◌, ◌++◌, [], length, get_or, IfOk, OnOk};
ghost use Rattle.std.specs.List.{AllByRecursion};

use mast_terms::NoMemory;
use std::alloc::Global;
use std::marker::Model;

// Codes that come row by row. Contracts see the number of columns, and the codes of one row after another.
#[derive(Drop)]
pub(crate) struct Codes {
    columns: Vec<Vec<u32>>,
    next: usize,
}

impl Model for Codes {
    ghost use Rattle.std.specs.Prelude.{length, map};
    ghost use Rattle.mast_tables.specs.inside.Codes.{InRows, in_rows, AreColumns};

    ghost Value = { InRows };

    ghost view = { λ m. record { width = length m.columns.items; list = in_rows (map (λ c. c.items) m.columns.items) m.next } };

    ghost invariant = { λ m. AreColumns (map (λ c. c.items) m.columns.items) m.next };
}

impl Codes {
    // No code, of so many columns.
    pub(crate) fn new(alloc: Global, width: usize) -> Result<Codes, NoMemory>
        ensures width { IfOk result (λ codes. codes.width ≡ width) }
        ensures none { IfOk result (λ codes. codes.list ≡ []) }
    {
        Ok(Codes {
            columns: empty_columns(alloc, width)?,
            next: 0,
        })
    }

    // Adds a code behind the others.
    pub(crate) fn push(&mut self, code: u32) -> Result<(), NoMemory>
        requires { 0 < self.old.width }
        ensures width { OnOk result (self.new.width ≡ self.old.width) }
        ensures list { OnOk result (self.new.list ≡ self.old.list ++ code ∷ []) }
    {
        self.columns[self.next].push(code)?;
        self.next += 1;
        if self.next == self.columns.len() {
            self.next = 0;
        }
        Ok(())
    }

    // The code of a whole row in a column. Both count from 0.
    pub(crate) fn get(&self, row: usize, column: usize) -> u32
        requires row { (row + 1) * self.now.width ≤ length self.now.list }
        requires column { column < self.now.width }
        ensures { result ≡ get_or self.now.list (row * self.now.width + column) 0 }
    {
        self.columns[column][row]
    }

    // The same codes.
    pub(crate) fn copy(&self, alloc: Global) -> Result<Codes, NoMemory>
        ensures { IfOk result (λ codes. codes ≡ self.now) }
    {
        let _ = alloc;
        Ok(Codes {
            columns: self.columns.clone()?,
            next: self.next,
        })
    }
}

fn empty_columns(alloc: Global, width: usize) -> Result<Vec<Vec<u32>>, NoMemory>
    ensures width { IfOk result (λ columns. length columns.items ≡ width) }
    ensures empty { IfOk result (λ columns. AllByRecursion (λ column. column.items ≡ []) columns.items) }
{
    let mut columns = Vec::new(alloc);
    for _ in 0..width {
        columns.push(Vec::new(alloc))?;
    }
    Ok(columns)
}
