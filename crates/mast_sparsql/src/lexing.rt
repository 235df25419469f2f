//! From the bytes of a file to its tokens, for SparSQL queries, rules files and scripts.
ghost use Rattle.std.specs.Prelude.{◌<◌, length};
ghost use Rattle.std.specs.Str.{IsUtf8};
ghost use Rattle.mast_terms.specs.Answers.{Answers};
ghost use Rattle.mast_sparsql.specs.Lexing.{AreFileTokens, CutsAt, IsFileLex, Nothing};

use mast_source::as_text;
use mast_sql::{SqlLex, SqlToken, sql_tokens};
use mast_terms::{List, Stop};
use std::alloc::Global;

// The breach of a text behind which no character begins.
fn cut(alloc: Global, front: &[u8]) -> Result<List<SqlToken>, Stop<SqlLex>>
    requires utf8 { IsUtf8 front.now }
    requires size { length front.now < 4294967295 }
    ensures { Answers result Nothing (CutsAt front.now) }
{
    let tokens = sql_tokens(alloc, as_text(front))?;
    Err(Stop::Named(SqlLex {
        token: tokens.as_slice().len() as u32,
    }))
}

/// The tokens of a file, or its first lexical breach. A file that is no UTF-8 has that of its longest front that is, or else
/// the number of its tokens.
pub fn file_tokens(alloc: Global, source: &[u8]) -> Result<List<SqlToken>, Stop<SqlLex>>
    requires size { length source.now < 4294967295 }
    ensures { Answers result (AreFileTokens source.now) (IsFileLex source.now) }
{
    match str::from_utf8(source) {
        Ok(text) => sql_tokens(alloc, text),
        Err(error) => {
            let (front, _) = source.split_at(error.valid_up_to());
            cut(alloc, front)
        }
    }
}
