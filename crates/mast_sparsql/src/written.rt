//! Columns, items and the sides of comparisons, as they are written.
ghost use Rattle.std.specs.Prelude.{◌≡◌, ◌∷◌, ◌++◌, [], IfOk, List, Some};
ghost use Rattle.mast_grammar.specs.declared.terminal.Terminal.TheVariants as terminal;
ghost use Rattle.mast_sparsql.specs.Trees as tree;
ghost use Rattle.mast_sparsql.specs.Trees.{token, word};
ghost use Rattle.mast_sparsql.specs.inside.Cursors.{Reads, ReadsList};

use crate::cursor::Cursor;
use crate::tree::{Column, Constant, Item, Operand};
use mast_grammar::Terminal;
use mast_terms::{List, NoMemory};
use std::alloc::Global;

impl<'q> Cursor<'q> {
    // column = name ["." name]
    fn column(&mut self) -> Result<Column, NoMemory>
        ensures { IfOk result (λ c. Reads self.old self.new (tree.column_written c)) }
    {
        let first = self.name()?;
        if self.take(Terminal::Dot)? {
            let name = self.name()?;
            return Ok(Column {
                alias: Some(first),
                name,
            });
        }
        Ok(Column {
            alias: None,
            name: first,
        })
    }

    // [AS name]
    fn output(&mut self) -> Result<Option<u32>, NoMemory>
        ensures { IfOk result (λ o. Reads self.old self.new (tree.output_written o)) }
    {
        if self.take(Terminal::As)? {
            let name = self.name()?;
            return Ok(Some(name));
        }
        Ok(None)
    }

    // item = column [AS name]
    fn item(&mut self) -> Result<Item, NoMemory>
        ensures { IfOk result (λ i. Reads self.old self.new (tree.item_written i)) }
    {
        let column = self.column()?;
        let output = self.output()?;
        Ok(Item { column, output })
    }

    /// item {"," item}
    #[tactic(auto, using(crate::proofs::CursorLemmas::list_first, crate::proofs::CursorLemmas::list_next))]
    pub(crate) fn items(&mut self, alloc: Global) -> Result<List<Item>, NoMemory>
        ensures { IfOk result (λ items. ReadsList self.old self.new terminal.Comma tree.item_written items) }
    {
        let mut items = List::new(alloc);
        let item = self.item()?;
        items.push(alloc, item)?;
        for _ in 0..self.left() {
            if !self.is_next(Terminal::Comma) {
                return Ok(items);
            }
            self.word(Terminal::Comma)?;
            let next = self.item()?;
            items.push(alloc, next)?;
        }
        Ok(items)
    }

    // value = Integer | Quoted | DATE Quoted
    fn constant(&mut self) -> Result<Constant, NoMemory>
        ensures { IfOk result (λ c. Reads self.old self.new (tree.constant_written c)) }
    {
        if self.take(Terminal::Date)? {
            let date = self.one(Terminal::Quoted)?;
            return Ok(Constant::Date(date));
        }
        if self.is_next(Terminal::Integer) {
            let number = self.one(Terminal::Integer)?;
            return Ok(Constant::Integer(number));
        }
        let text = self.one(Terminal::Quoted)?;
        Ok(Constant::Quoted(text))
    }

    // value {"," value}
    #[tactic(auto, using(crate::proofs::CursorLemmas::list_first, crate::proofs::CursorLemmas::list_next))]
    fn constants(&mut self, alloc: Global) -> Result<List<Constant>, NoMemory>
        ensures { IfOk result (λ values. ReadsList self.old self.new terminal.Comma tree.constant_written values) }
    {
        let mut values = List::new(alloc);
        let value = self.constant()?;
        values.push(alloc, value)?;
        for _ in 0..self.left() {
            if !self.is_next(Terminal::Comma) {
                return Ok(values);
            }
            self.word(Terminal::Comma)?;
            let next = self.constant()?;
            values.push(alloc, next)?;
        }
        Ok(values)
    }

    // [value {"," value}] ")"
    #[tactic(auto, using(crate::proofs::CursorLemmas::reads_both))]
    fn arguments(&mut self, alloc: Global) -> Result<List<Constant>, NoMemory>
        ensures { IfOk result (λ values. Reads self.old self.new (tree.closed (tree.separated terminal.Comma tree.constant_written values))) }
    {
        if self.take(Terminal::Close)? {
            return Ok(List::new(alloc));
        }
        let values = self.constants(alloc)?;
        self.word(Terminal::Close)?;
        Ok(values)
    }

    // column | name "(" [value {"," value}] ")"
    #[tactic(auto, using(crate::proofs::CursorLemmas::reads_before))]
    fn named(&mut self, alloc: Global) -> Result<Operand, NoMemory>
        ensures { IfOk result (λ o. Reads self.old self.new (tree.operand_written o)) }
    {
        let first = self.name()?;
        if self.take(Terminal::Open)? {
            let values = self.arguments(alloc)?;
            return Ok(Operand::Object(first, values));
        }
        if self.take(Terminal::Dot)? {
            let name = self.name()?;
            return Ok(Operand::Column(Column {
                alias: Some(first),
                name,
            }));
        }
        Ok(Operand::Column(Column {
            alias: None,
            name: first,
        }))
    }

    /// operand = column | value | name "(" [value {"," value}] ")"
    pub(crate) fn operand(&mut self, alloc: Global) -> Result<Operand, NoMemory>
        ensures { IfOk result (λ o. Reads self.old self.new (tree.operand_written o)) }
    {
        if self.is_next(Terminal::Name) || self.is_next(Terminal::A) {
            return self.named(alloc);
        }
        let value = self.constant()?;
        Ok(Operand::Value(value))
    }
}
