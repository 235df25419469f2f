//! The items of SELECT: what may come next in them, and what they add to the query.
ghost use Rattle.std.specs.Prelude.{◌≡◌, IfOk};
ghost use Rattle.mast_sql.specs.inside.Parser as parser;

use crate::parser::ParseState;
use crate::symbol::Symbol;
use crate::{SelectItem, SourceQuery};
use mast_terms::{NoMemory, Text};
use std::alloc::Global;

pub(crate) fn start(symbol: Symbol) -> Option<ParseState>
    ensures { result ≡ parser.start symbol }
{
    match symbol {
        Symbol::Select => Some(ParseState::Selected),
        _ => None,
    }
}

pub(crate) fn selected(symbol: Symbol) -> Option<ParseState>
    ensures { result ≡ parser.selected symbol }
{
    match symbol {
        Symbol::Distinct => Some(ParseState::Item),
        other => item(other),
    }
}

pub(crate) fn item(symbol: Symbol) -> Option<ParseState>
    ensures { result ≡ parser.item symbol }
{
    match symbol {
        Symbol::Name(name) => Some(ParseState::Column(None, name)),
        _ => None,
    }
}

// A column takes one dot.
fn dot(alias: Option<Text>, name: Text) -> Option<ParseState>
    ensures { result ≡ parser.dot alias name }
{
    match alias {
        None => Some(ParseState::Dotted(name)),
        Some(_) => None,
    }
}

pub(crate) fn dotted(alias: Text, symbol: Symbol) -> Option<ParseState>
    ensures { result ≡ parser.dotted alias symbol }
{
    match symbol {
        Symbol::Name(name) => Some(ParseState::Column(Some(alias), name)),
        _ => None,
    }
}

pub(crate) fn item_end(symbol: Symbol) -> Option<ParseState>
    ensures { result ≡ parser.item_end symbol }
{
    match symbol {
        Symbol::Comma => Some(ParseState::Item),
        Symbol::From => Some(ParseState::Entry),
        _ => None,
    }
}

impl SourceQuery {
    // The item ends, where the symbol may come behind it.
    fn end_item(
        &mut self,
        alloc: Global,
        alias: Option<Text>,
        column: Text,
        symbol: Symbol,
    ) -> Result<Option<ParseState>, NoMemory>
        ensures { IfOk result (λ next. parser.at self.new next ≡ parser.end_item alias column self.old symbol) }
    {
        match item_end(symbol) {
            None => Ok(None),
            Some(next) => {
                let output = column.copy(alloc)?;
                self.push_item(
                    alloc,
                    SelectItem {
                        alias,
                        column,
                        output,
                    },
                )?;
                Ok(Some(next))
            }
        }
    }

    pub(crate) fn column(
        &mut self,
        alloc: Global,
        alias: Option<Text>,
        column: Text,
        symbol: Symbol,
    ) -> Result<Option<ParseState>, NoMemory>
        ensures { IfOk result (λ next. parser.at self.new next ≡ parser.column alias column self.old symbol) }
    {
        match symbol {
            Symbol::Dot => Ok(dot(alias, column)),
            Symbol::As => Ok(Some(ParseState::Named(alias, column))),
            other => self.end_item(alloc, alias, column, other),
        }
    }

    pub(crate) fn named(
        &mut self,
        alloc: Global,
        alias: Option<Text>,
        column: Text,
        symbol: Symbol,
    ) -> Result<Option<ParseState>, NoMemory>
        ensures { IfOk result (λ next. parser.at self.new next ≡ parser.named alias column self.old symbol) }
    {
        match symbol {
            Symbol::Name(output) => {
                self.push_item(
                    alloc,
                    SelectItem {
                        alias,
                        column,
                        output,
                    },
                )?;
                Ok(Some(ParseState::ItemEnd))
            }
            _ => Ok(None),
        }
    }
}
