//! The comparisons of WHERE: what may come next in them, and what they add to the query.
ghost use Rattle.std.specs.Prelude.{◌≡◌, IfOk};
ghost use Rattle.mast_sql.specs.inside.Parser as parser;

use crate::parser::{ParseState, Side};
use crate::symbol::Symbol;
use crate::{Compare, Comparison, Operand, SourceQuery};
use mast_terms::{Date, NoMemory, Text, Value};
use std::alloc::Global;

pub(crate) fn left_end(operand: Operand, symbol: Symbol) -> Option<ParseState>
    ensures { result ≡ parser.left_end operand symbol }
{
    match symbol {
        Symbol::Compare(op) => Some(ParseState::Operand(Side::Right(operand, op))),
        _ => None,
    }
}

pub(crate) fn comparison_end(symbol: Symbol) -> Option<ParseState>
    ensures { result ≡ parser.comparison_end symbol }
{
    match symbol {
        Symbol::And => Some(ParseState::Operand(Side::Left)),
        _ => None,
    }
}

// A column takes one dot.
fn operand_dot(side: Side, alias: Option<Text>, name: Text) -> Option<ParseState>
    ensures { result ≡ parser.operand_dot side alias name }
{
    match alias {
        None => Some(ParseState::OperandDotted(side, name)),
        Some(_) => None,
    }
}

pub(crate) fn operand_dotted(side: Side, alias: Text, symbol: Symbol) -> Option<ParseState>
    ensures { result ≡ parser.operand_dotted side alias symbol }
{
    match symbol {
        Symbol::Name(name) => Some(ParseState::OperandColumn(side, Some(alias), name)),
        _ => None,
    }
}

impl SourceQuery {
    // The operand is whole.
    fn whole(&mut self, alloc: Global, side: Side, operand: Operand) -> Result<ParseState, NoMemory>
        ensures { IfOk result (λ next. (next, self.new) ≡ parser.whole side operand self.old) }
    {
        match side {
            Side::Left => Ok(ParseState::LeftEnd(operand)),
            Side::Right(left, op) => {
                let right = operand;
                self.push_condition(alloc, Comparison { left, op, right })?;
                Ok(ParseState::ComparisonEnd)
            }
        }
    }

    pub(crate) fn operand(
        &mut self,
        alloc: Global,
        side: Side,
        symbol: Symbol,
    ) -> Result<Option<ParseState>, NoMemory>
        ensures { IfOk result (λ next. parser.at self.new next ≡ parser.operand side self.old symbol) }
    {
        match symbol {
            Symbol::Name(name) => Ok(Some(ParseState::OperandColumn(side, None, name))),
            Symbol::Integer(number) => {
                let constant = Operand::Constant(Value::Int(number));
                Ok(Some(self.whole(alloc, side, constant)?))
            }
            Symbol::Quoted(text, _) => {
                let constant = Operand::Constant(Value::Text(text));
                Ok(Some(self.whole(alloc, side, constant)?))
            }
            Symbol::Date => Ok(Some(ParseState::OperandDate(side))),
            _ => Ok(None),
        }
    }

    fn dated(
        &mut self,
        alloc: Global,
        side: Side,
        date: Option<Date>,
    ) -> Result<Option<ParseState>, NoMemory>
        ensures { IfOk result (λ next. parser.at self.new next ≡ parser.dated side date self.old) }
    {
        match date {
            None => Ok(None),
            Some(date) => {
                let constant = Operand::Constant(Value::Date(date));
                Ok(Some(self.whole(alloc, side, constant)?))
            }
        }
    }

    pub(crate) fn operand_date(
        &mut self,
        alloc: Global,
        side: Side,
        symbol: Symbol,
    ) -> Result<Option<ParseState>, NoMemory>
        ensures { IfOk result (λ next. parser.at self.new next ≡ parser.operand_date side self.old symbol) }
    {
        match symbol {
            Symbol::Quoted(_, date) => self.dated(alloc, side, date),
            _ => Ok(None),
        }
    }

    // The comparison ends, where the symbol may come behind it.
    fn end_comparison(
        &mut self,
        alloc: Global,
        comparison: Comparison,
        symbol: Symbol,
    ) -> Result<Option<ParseState>, NoMemory>
        ensures { IfOk result (λ next. parser.at self.new next ≡ parser.end_comparison comparison self.old symbol) }
    {
        match comparison_end(symbol) {
            None => Ok(None),
            Some(next) => {
                self.push_condition(alloc, comparison)?;
                Ok(Some(next))
            }
        }
    }

    fn end_operand(
        &mut self,
        alloc: Global,
        side: Side,
        operand: Operand,
        symbol: Symbol,
    ) -> Result<Option<ParseState>, NoMemory>
        ensures { IfOk result (λ next. parser.at self.new next ≡ parser.operand_end side operand self.old symbol) }
    {
        match side {
            Side::Left => Ok(left_end(operand, symbol)),
            Side::Right(left, op) => {
                let right = operand;
                self.end_comparison(alloc, Comparison { left, op, right }, symbol)
            }
        }
    }

    pub(crate) fn operand_column(
        &mut self,
        alloc: Global,
        side: Side,
        alias: Option<Text>,
        column: Text,
        symbol: Symbol,
    ) -> Result<Option<ParseState>, NoMemory>
        ensures { IfOk result (λ to. parser.at self.new to ≡ parser.operand_column side alias column self.old symbol) }
    {
        match symbol {
            Symbol::Dot => Ok(operand_dot(side, alias, column)),
            other => self.end_operand(alloc, side, Operand::Column { alias, column }, other),
        }
    }
}
