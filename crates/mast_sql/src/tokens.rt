//! From a text to its tokens.
ghost use Rattle.std.specs.Prelude.{◌<◌, length};
ghost use Rattle.mast_terms.specs.Answers.{Answers};
ghost use Rattle.mast_sql.specs.inside.Lexed.{ReadsAs, StopsAt};
ghost use Rattle.mast_sql.specs.Source.{AreTokens, IsLexBreach};

use crate::scanner::{gap_of, longest_token};
use crate::{SqlLex, SqlToken};
use mast_source::{behind_bom, bom_length};
use mast_terms::{List, Stop};
use std::alloc::Global;

// The tokens of a text's bytes. Each turn takes a token, of a byte at least.
fn lex(alloc: Global, text: &[u8]) -> Result<List<SqlToken>, Stop<SqlLex>>
    requires { length text.now < 4294967295 }
    ensures { Answers result (ReadsAs text.now) (StopsAt text.now) }
{
    let mut tokens = List::new(alloc);
    let start = bom_length(text);
    let mut rest = behind_bom(text);
    let mut at = start as u32;
    'turns: for count in 0..text.len() {
        let (gap, after) = rest.split_at(gap_of(rest));
        if after.is_empty() {
            return Ok(tokens);
        }
        let from = at + gap.len() as u32;
        match longest_token(after) {
            None => {
                return Err(Stop::Named(SqlLex {
                    token: count as u32,
                }));
            }
            Some(found) => {
                let (_, more) = after.split_at(found.size);
                let to = from + found.size as u32;
                tokens.push(
                    alloc,
                    SqlToken {
                        kind: found.kind,
                        from,
                        to,
                    },
                )?;
                rest = more;
                at = to;
            }
        }
    }
    Ok(tokens)
}

/// The tokens of a text, in order, or its first lexical breach.
pub fn sql_tokens(alloc: Global, text: &str) -> Result<List<SqlToken>, Stop<SqlLex>>
    requires { length text.now < 4294967295 }
    ensures { Answers result (AreTokens text.now) (IsLexBreach text.now) }
{
    lex(alloc, text.as_bytes())
}
