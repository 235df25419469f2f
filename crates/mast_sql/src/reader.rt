//! From tokens to a source query.
ghost use Rattle.std.specs.Prelude.{◌≡◌, ◌<◌, length};
ghost use Rattle.mast_terms.specs.Answers.{Answers};
ghost use Rattle.mast_sql.specs.Grammar.{IsSourceQuery, IsSqlBreach};
ghost use Rattle.mast_sql.specs.Source.{AreTokens};
ghost use Rattle.mast_terms.specs.declared.memory.Stop.TheVariants as stop;

use crate::entries::is_ninth;
use crate::parser::ParseState;
use crate::symbol::symbol_of;
use crate::{SourceQuery, SqlBreach, SqlBreachKind, SqlToken};
use mast_terms::Stop;
use std::alloc::Global;

fn breach(token: u32, kind: SqlBreachKind) -> Stop<SqlBreach>
    ensures { result ≡ stop.Named (record { token = token; kind = kind }) }
{
    Stop::Named(SqlBreach { token, kind })
}

/// The source query that the tokens of a text are, or their first breach of the grammar.
pub fn read_source_query(
    alloc: Global,
    text: &str,
    tokens: &[SqlToken],
) -> Result<SourceQuery, Stop<SqlBreach>>
    requires tokens { AreTokens text.now tokens.now }
    requires size { length tokens.now < 4294967295 }
    ensures { Answers result (IsSourceQuery text.now tokens.now) (IsSqlBreach text.now tokens.now) }
{
    let bytes = text.as_bytes();
    let mut query = SourceQuery::new(alloc);
    let mut state = ParseState::Start;
    let mut at = 0;
    for token in tokens {
        let symbol = symbol_of(alloc, bytes, *token)?;
        if is_ninth(&state, &query, &symbol) {
            return Err(breach(at, SqlBreachKind::Aliases));
        }
        match query.read(alloc, state, symbol)? {
            None => return Err(breach(at, SqlBreachKind::Grammar)),
            Some(next) => state = next,
        }
        at += 1;
    }
    match query.finish(alloc, state)? {
        None => Err(breach(at, SqlBreachKind::Grammar)),
        Some(whole) => Ok(whole),
    }
}
