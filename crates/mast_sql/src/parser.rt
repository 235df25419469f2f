//! The parser: an automaton over symbols that adds what it reads to a query.
ghost use Rattle.std.specs.Prelude.{◌≡◌, IfOk};
ghost use Rattle.mast_sql.specs.inside.Parser as parser;

use crate::comparisons::{comparison_end, left_end, operand_dotted};
use crate::entries::{entry, entry_end};
use crate::items::{dotted, item, item_end, selected, start};
use crate::symbol::Symbol;
use crate::{Compare, Comparison, Operand, SourceQuery};
use mast_terms::{NoMemory, Text};
use std::alloc::Global;

/// The side of a comparison: the left one, or the right one behind the left one and the sign.
#[derive(Drop)]
pub enum Side {
    Left,
    Right(Operand, Compare),
}

/// What was read last, as far as it has a part in what may come next and is not yet in the query.
#[derive(Drop)]
pub enum ParseState {
    Start,
    Selected,
    Item,
    /// A column of an item, with the alias before it.
    Column(Option<Text>, Text),
    Dotted(Text),
    /// A column and `AS`.
    Named(Option<Text>, Text),
    ItemEnd,
    Entry,
    Table(Text),
    TableAs(Text),
    EntryEnd,
    Operand(Side),
    OperandColumn(Side, Option<Text>, Text),
    OperandDotted(Side, Text),
    OperandDate(Side),
    LeftEnd(Operand),
    ComparisonEnd,
}

impl SourceQuery {
    // Reads a symbol at a state: the next state, or nothing where no query goes on so.
    pub(crate) fn read(
        &mut self,
        alloc: Global,
        state: ParseState,
        symbol: Symbol,
    ) -> Result<Option<ParseState>, NoMemory>
        ensures { IfOk result (λ next. parser.at self.new next ≡ parser.step state self.old symbol) }
    {
        match state {
            ParseState::Start => Ok(start(symbol)),
            ParseState::Selected => Ok(selected(symbol)),
            ParseState::Item => Ok(item(symbol)),
            ParseState::Column(alias, column) => self.column(alloc, alias, column, symbol),
            ParseState::Dotted(alias) => Ok(dotted(alias, symbol)),
            ParseState::Named(alias, column) => self.named(alloc, alias, column, symbol),
            ParseState::ItemEnd => Ok(item_end(symbol)),
            ParseState::Entry => Ok(entry(symbol)),
            ParseState::Table(table) => self.table(alloc, table, symbol),
            ParseState::TableAs(table) => self.table_as(alloc, table, symbol),
            ParseState::EntryEnd => Ok(entry_end(symbol)),
            ParseState::Operand(side) => self.operand(alloc, side, symbol),
            ParseState::OperandColumn(side, alias, column) => {
                self.operand_column(alloc, side, alias, column, symbol)
            }
            ParseState::OperandDotted(side, alias) => Ok(operand_dotted(side, alias, symbol)),
            ParseState::OperandDate(side) => self.operand_date(alloc, side, symbol),
            ParseState::LeftEnd(operand) => Ok(left_end(operand, symbol)),
            ParseState::ComparisonEnd => Ok(comparison_end(symbol)),
        }
    }

    fn finish_operand(
        mut self,
        alloc: Global,
        side: Side,
        operand: Operand,
    ) -> Result<Option<SourceQuery>, NoMemory>
        ensures { IfOk result (λ whole. whole ≡ parser.right_finish side operand self) }
    {
        match side {
            Side::Left => Ok(None),
            Side::Right(left, op) => {
                let right = operand;
                self.push_condition(alloc, Comparison { left, op, right })?;
                Ok(Some(self))
            }
        }
    }

    // The whole query, where it may end at the state.
    pub(crate) fn finish(
        mut self,
        alloc: Global,
        state: ParseState,
    ) -> Result<Option<SourceQuery>, NoMemory>
        ensures { IfOk result (λ whole. whole ≡ parser.finish state self) }
    {
        match state {
            ParseState::Table(table) => {
                self.push_table(alloc, table)?;
                Ok(Some(self))
            }
            ParseState::EntryEnd => Ok(Some(self)),
            ParseState::OperandColumn(side, alias, column) => {
                self.finish_operand(alloc, side, Operand::Column { alias, column })
            }
            ParseState::ComparisonEnd => Ok(Some(self)),
            _ => Ok(None),
        }
    }
}
