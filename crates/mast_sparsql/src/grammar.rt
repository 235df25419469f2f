//! The first two passes: from bytes to tokens that are a query of the grammar within its limits.
ghost use Rattle.std.specs.Prelude.{◌≡◌, ◌<◌, length};
ghost use Rattle.mast_terms.specs.Answers.{Answers};
ghost use Rattle.mast_sparsql.specs.Lexing.{AreFileTokens};
ghost use Rattle.mast_sparsql.specs.Passes as passes;
ghost use Rattle.mast_sparsql.specs.Passes.{AreQueryTokens, IsEarlyBreach, IsLexPass};

use crate::terminals::terminals_of;
use crate::{QueryBreach, QueryKind, file_tokens};
use mast_grammar::{GrammarBreach, GrammarKind, first_breach};
use mast_sql::{SqlLex, SqlToken};
use mast_terms::{List, Stop};
use std::alloc::Global;

fn kind_of(kind: GrammarKind) -> QueryKind
    ensures { result ≡ passes.kind_of kind }
{
    match kind {
        GrammarKind::Grammar => QueryKind::Grammar,
        GrammarKind::Depth => QueryKind::Depth,
        GrammarKind::Operators => QueryKind::Operators,
        GrammarKind::Entries => QueryKind::Entries,
        GrammarKind::Disjuncts => QueryKind::Disjuncts,
        GrammarKind::Atoms => QueryKind::Atoms,
    }
}

fn breach_of(first: GrammarBreach) -> QueryBreach
    ensures { result ≡ passes.breach_of first }
{
    QueryBreach {
        token: first.at,
        kind: kind_of(first.kind),
    }
}

fn lexed(alloc: Global, source: &[u8]) -> Result<List<SqlToken>, Stop<QueryBreach>>
    requires size { length source.now < 4294967295 }
    ensures { Answers result (AreFileTokens source.now) (IsLexPass source.now) }
{
    match file_tokens(alloc, source) {
        Ok(tokens) => Ok(tokens),
        Err(Stop::Named(SqlLex { token })) => Err(Stop::Named(QueryBreach {
            token,
            kind: QueryKind::Lex,
        })),
        Err(Stop::NoMemory) => Err(Stop::NoMemory),
    }
}

/// The tokens of a query, which are one of the grammar within its limits, or the first breach of these two passes.
pub fn query_tokens(alloc: Global, source: &[u8]) -> Result<List<SqlToken>, Stop<QueryBreach>>
    requires size { length source.now < 4294967295 }
    ensures { Answers result (AreQueryTokens source.now) (IsEarlyBreach source.now) }
{
    let tokens = lexed(alloc, source)?;
    let terminals = terminals_of(alloc, source, tokens.as_slice())?;
    match first_breach(alloc, terminals.as_slice())? {
        None => Ok(tokens),
        Some(first) => Err(Stop::Named(breach_of(first))),
    }
}
