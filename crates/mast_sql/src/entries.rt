//! The entries of FROM: what may come next in them, and what they add to the query.
ghost use Rattle.std.specs.Prelude.{◌≡◌, IfOk, OnOk};
ghost use Rattle.mast_sql.specs.Grammar.{plain_entry};
ghost use Rattle.mast_sql.specs.inside.Parser as parser;

use crate::parser::{ParseState, Side};
use crate::symbol::Symbol;
use crate::{FromEntry, MOST_ENTRIES, SourceQuery};
use mast_terms::{NoMemory, Text};
use std::alloc::Global;

pub(crate) fn entry(symbol: Symbol) -> Option<ParseState>
    ensures { result ≡ parser.entry symbol }
{
    match symbol {
        Symbol::Name(name) => Some(ParseState::Table(name)),
        _ => None,
    }
}

pub(crate) fn entry_end(symbol: Symbol) -> Option<ParseState>
    ensures { result ≡ parser.entry_end symbol }
{
    match symbol {
        Symbol::Comma => Some(ParseState::Entry),
        Symbol::Where => Some(ParseState::Operand(Side::Left)),
        _ => None,
    }
}

fn is_name(symbol: &Symbol) -> bool
    ensures { result ≡ parser.is_name symbol.now }
{
    match symbol {
        Symbol::Name(_) => true,
        _ => false,
    }
}

// The symbol begins an entry, and as many as may be stand before it.
pub(crate) fn is_ninth(state: &ParseState, query: &SourceQuery, symbol: &Symbol) -> bool
    ensures { result ≡ parser.is_ninth state.now query.now symbol.now }
{
    match state {
        ParseState::Entry => is_name(symbol) && query.from.as_slice().len() == MOST_ENTRIES,
        _ => false,
    }
}

impl SourceQuery {
    // The table's own name is the alias.
    pub(crate) fn push_table(&mut self, alloc: Global, table: Text) -> Result<(), NoMemory>
        ensures { OnOk result (self.new ≡ parser.with_entry self.old (plain_entry table)) }
    {
        let alias = table.copy(alloc)?;
        self.push_entry(alloc, FromEntry { table, alias })
    }

    // The entry ends, where the symbol may come behind it.
    fn end_entry(
        &mut self,
        alloc: Global,
        table: Text,
        symbol: Symbol,
    ) -> Result<Option<ParseState>, NoMemory>
        ensures { IfOk result (λ next. parser.at self.new next ≡ parser.end_entry table self.old symbol) }
    {
        match entry_end(symbol) {
            None => Ok(None),
            Some(next) => {
                self.push_table(alloc, table)?;
                Ok(Some(next))
            }
        }
    }

    pub(crate) fn table(
        &mut self,
        alloc: Global,
        table: Text,
        symbol: Symbol,
    ) -> Result<Option<ParseState>, NoMemory>
        ensures { IfOk result (λ next. parser.at self.new next ≡ parser.table table self.old symbol) }
    {
        match symbol {
            Symbol::As => Ok(Some(ParseState::TableAs(table))),
            Symbol::Name(alias) => {
                self.push_entry(alloc, FromEntry { table, alias })?;
                Ok(Some(ParseState::EntryEnd))
            }
            other => self.end_entry(alloc, table, other),
        }
    }

    pub(crate) fn table_as(
        &mut self,
        alloc: Global,
        table: Text,
        symbol: Symbol,
    ) -> Result<Option<ParseState>, NoMemory>
        ensures { IfOk result (λ next. parser.at self.new next ≡ parser.table_as table self.old symbol) }
    {
        match symbol {
            Symbol::Name(alias) => {
                self.push_entry(alloc, FromEntry { table, alias })?;
                Ok(Some(ParseState::EntryEnd))
            }
            _ => Ok(None),
        }
    }
}
