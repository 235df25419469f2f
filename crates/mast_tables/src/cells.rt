//! The cells of a table, row by row, by the codes of their values.
ghost use Rattle.std.specs.Prelude.{◌≡◌, ◌+◌, ◌*◌, ◌<◌, ◌≤◌, ◌∷◌, ◌++◌, [], Some, false, IfOk, OnOk, length, option_copied, option_and_then};
ghost use Rattle.std.specs.List.{IsDistinct, list_any, position};
ghost use Rattle.mast_terms.specs.declared.value.Value.TheVariants as v;
ghost use Rattle.mast_tables.specs.Limits.{most_cells};
ghost use Rattle.mast_tables.specs.Values.{number_among, same};
ghost use Rattle.mast_tables.specs.inside.Cells.{AreCells, HaveRoom, IsCoded, cell_in, cells_in, width_in};
ghost use Rattle.mast_tables.specs.inside.Reading.{value_of};

use crate::codes::Codes;
use crate::typed::Content;
use indexmap::IndexSet;
use mast_terms::{NoMemory, Text, Value};
use std::alloc::Global;

// Each different value stands once. The code of a cell is 0 where it is missing, or else its value's number and one.
// A text that takes memory is looked up by the key, and copied only where it is new; so is a value that is lent.
#[derive(Drop)]
pub(crate) struct Cells {
    values: IndexSet<Value>,
    codes: Codes,
    key: Value,
}

impl Cells {
    // No cell, of rows with so many.
    pub(crate) fn new(alloc: Global, width: usize) -> Result<Cells, NoMemory>
        ensures none { IfOk result (λ cells. cells_in cells ≡ []) }
        ensures wide { IfOk result (λ cells. width_in cells ≡ width) }
        ensures cells { IfOk result AreCells }
    {
        Ok(Cells {
            values: IndexSet::new(alloc),
            codes: Codes::new(alloc, width)?,
            key: Value::Text(Text::from_str(alloc, "")?),
        })
    }

    // Adds a cell behind the others. After a want of memory the cells are of no use.
    pub(crate) fn push(&mut self, alloc: Global, content: Content<'_>) -> Result<(), NoMemory>
        requires cells { AreCells self.old }
        requires wide { 0 < width_in self.old }
        requires room { length (cells_in self.old) < most_cells }
        ensures pushed { OnOk result (cells_in self.new ≡ cells_in self.old ++ value_of content.entry ∷ []) }
        ensures wide { OnOk result (width_in self.new ≡ width_in self.old) }
        ensures cells { OnOk result (AreCells self.new) }
    {
        let code = self.code(alloc, content)?;
        self.codes.push(code)?;
        Ok(())
    }

    // The code of a cell. Its value goes behind the others where it is new.
    fn code(&mut self, alloc: Global, content: Content<'_>) -> Result<u32, NoMemory>
        requires { HaveRoom self.old.values.keys }
        ensures coded { IfOk result (IsCoded self.old.values.keys (value_of content.entry) self.new.values.keys) }
        ensures apart { OnOk result (IsDistinct same self.new.values.keys) }
        ensures same { OnOk result (self.new.codes ≡ self.old.codes) }
    {
        match content {
            Content::Missing => Ok(0),
            Content::Text(text) => self.code_of_text(alloc, text),
            Content::Lent(value) => self.code_of_lent(alloc, value),
            Content::Other(value) => self.code_of_value(value),
        }
    }

    fn code_of_text(&mut self, alloc: Global, text: &str) -> Result<u32, NoMemory>
        requires { HaveRoom self.old.values.keys }
        ensures coded { IfOk result (IsCoded self.old.values.keys (Some (v.Text text.now)) self.new.values.keys) }
        ensures apart { OnOk result (IsDistinct same self.new.values.keys) }
        ensures same { OnOk result (self.new.codes ≡ self.old.codes) }
    {
        if text.len() <= Text::IN_PLACE {
            return self.code_of_value(Value::Text(Text::from_str(alloc, text)?));
        }
        match self.find_text(alloc, text)? {
            Some(number) => Ok(number as u32 + 1),
            None => self.code_of_value(Value::Text(Text::from_str(alloc, text)?)),
        }
    }

    fn code_of_lent(&mut self, alloc: Global, value: &Value) -> Result<u32, NoMemory>
        requires { HaveRoom self.old.values.keys }
        ensures coded { IfOk result (IsCoded self.old.values.keys (Some value.now) self.new.values.keys) }
        ensures apart { OnOk result (IsDistinct same self.new.values.keys) }
        ensures same { OnOk result (self.new.codes ≡ self.old.codes) }
    {
        match self.values.get_index_of(value) {
            Some(number) => Ok(number as u32 + 1),
            None => self.code_of_value(value.copy(alloc)?),
        }
    }

    // The set alone may want memory: a value has a number, since there are no more values than cells.
    fn code_of_value(&mut self, value: Value) -> Result<u32, NoMemory>
        requires { HaveRoom self.old.values.keys }
        ensures coded { IfOk result (IsCoded self.old.values.keys (Some value) self.new.values.keys) }
        ensures apart { OnOk result (IsDistinct same self.new.values.keys) }
        ensures same { OnOk result (self.new.codes ≡ self.old.codes) }
    {
        let (number, _) = self.values.insert_full(value)?;
        Ok(number as u32 + 1)
    }

    // The number of a text that a cell has.
    fn find_text(&mut self, alloc: Global, text: &str) -> Result<Option<usize>, NoMemory>
        ensures found { IfOk result (λ found. found ≡ position (same (v.Text text.now)) self.old.values.keys) }
        ensures same { OnOk result ((self.new.values ≡ self.old.values) × (self.new.codes ≡ self.old.codes)) }
    {
        set_text(&mut self.key, alloc, text)?;
        Ok(self.values.get_index_of(&self.key))
    }

    // The value of the cell of a whole row in a column. Both count from 0.
    pub(crate) fn value(&self, row: usize, column: usize) -> Option<&Value>
        requires cells { AreCells self.now }
        requires row { (row + 1) * width_in self.now ≤ length (cells_in self.now) }
        requires column { column < width_in self.now }
        ensures { option_copied result ≡ cell_in self.now row column }
    {
        let code = self.codes.get(row, column);
        if code == 0 {
            return None;
        }
        self.values.get_index(code as usize - 1)
    }

    // The number of that cell's value.
    pub(crate) fn number(&self, row: usize, column: usize) -> Option<u32>
        requires cells { AreCells self.now }
        requires row { (row + 1) * width_in self.now ≤ length (cells_in self.now) }
        requires column { column < width_in self.now }
        ensures { result ≡ option_and_then (number_among (cells_in self.now)) (cell_in self.now row column) }
    {
        let code = self.codes.get(row, column);
        if code == 0 {
            return None;
        }
        Some(code - 1)
    }

    // The number of a value that a cell has.
    pub(crate) fn find(&self, value: &Value) -> Option<u32>
        requires { AreCells self.now }
        ensures { result ≡ number_among (cells_in self.now) value.now }
    {
        match self.values.get_index_of(value) {
            Some(number) => Some(number as u32),
            None => None,
        }
    }

    // The same cells.
    pub(crate) fn copy(&self, alloc: Global) -> Result<Cells, NoMemory>
        requires { AreCells self.now }
        ensures cells { IfOk result (λ cells. cells_in cells ≡ cells_in self.now) }
        ensures wide { IfOk result (λ cells. width_in cells ≡ width_in self.now) }
        ensures kept { IfOk result AreCells }
    {
        Ok(Cells {
            values: copied_values(alloc, &self.values)?,
            codes: self.codes.copy(alloc)?,
            key: Value::Text(Text::from_str(alloc, "")?),
        })
    }
}

fn copied_values(alloc: Global, values: &IndexSet<Value>) -> Result<IndexSet<Value>, NoMemory>
    ensures { IfOk result (λ copy. copy.keys ≡ values.now.keys) }
{
    let mut copy = IndexSet::with_capacity(alloc, values.len())?;
    for value in values.as_slice() {
        put_last(alloc, &mut copy, value)?;
    }
    Ok(copy)
}

fn put_last(alloc: Global, values: &mut IndexSet<Value>, value: &Value) -> Result<(), NoMemory>
    requires { list_any (same value.now) values.old.keys ≡ false }
    ensures { OnOk result (values.new.keys ≡ values.old.keys ++ value.now ∷ []) }
{
    values.insert(value.copy(alloc)?)?;
    Ok(())
}

// Makes the key this text, in the memory that it has.
fn set_text(key: &mut Value, alloc: Global, text: &str) -> Result<(), NoMemory>
    ensures { OnOk result (key.new ≡ v.Text text.now) }
{
    match key {
        Value::Text(held) => held.set(alloc, text)?,
        _ => *key = Value::Text(Text::from_str(alloc, text)?),
    }
    Ok(())
}
