//! From bytes to the list of their tokens.
ghost use Rattle.std.specs.Prelude.{◌≡◌, ◌<◌, ◌+◌, ◌^◌, ◌≤◌, length};
ghost use Rattle.mast_terms.specs.Answers.{Answers};
ghost use Rattle.mast_tree.specs.inside.Lexed.{ReadsTokens, ReadsBreach};
ghost use Rattle.mast_tree.specs.Source.{AreTokens, IsLexBreach};
ghost use Rattle.mast_tree.specs.Tokens.{feeds};

use crate::scanner::{Scanned, longest_token, scan_blank};
use crate::{LexBreach, LexKind, Token};
use mast_source::{behind_bom, bom_length};
use mast_terms::{List, Stop};
use std::alloc::Global;

// The line after these bytes, where `line` is the one before them.
fn line_after(line: u32, bytes: &[u8]) -> u32
    requires { line + length bytes.now < 2 ^ 32 }
    ensures value { result ≡ line + feeds bytes.now }
    ensures within { result ≤ line + length bytes.now }
{
    let mut now = line;
    for b in bytes {
        if *b == b'\n' {
            now += 1;
        }
    }
    now
}

// The tokens of UTF-8 bytes. Each turn takes a token, of a byte at least.
fn lex(alloc: Global, source: &[u8]) -> Result<List<Token>, Stop<LexBreach>>
    requires { length source.now < 4294967295 }
    ensures { Answers result (ReadsTokens source.now) (ReadsBreach source.now) }
{
    let mut tokens = List::new(alloc);
    let start = bom_length(source);
    let mut rest = behind_bom(source);
    let mut at = start as u32;
    let mut line = 1;
    'turns: for _ in 0..source.len() {
        let (gap, after) = rest.split_at(scan_blank(rest));
        let from = at + gap.len() as u32;
        let here = line_after(line, gap);
        if after.is_empty() {
            return Ok(tokens);
        }
        match longest_token(after) {
            Scanned::Wrong(kind, n) => {
                return Err(Stop::Named(LexBreach {
                    at: from + n as u32,
                    kind,
                }));
            }
            Scanned::Token(kind, n) => {
                let (word, more) = after.split_at(n);
                let to = from + n as u32;
                tokens.push(
                    alloc,
                    Token {
                        kind,
                        from,
                        to,
                        line: here,
                    },
                )?;
                rest = more;
                at = to;
                line = line_after(here, word);
            }
        }
    }
    Ok(tokens)
}

/// The tokens of a source, in order, or its first lexical breach.
pub fn tokens(alloc: Global, source: &[u8]) -> Result<List<Token>, Stop<LexBreach>>
    requires { length source.now < 4294967295 }
    ensures { Answers result (AreTokens source.now) (IsLexBreach source.now) }
{
    match str::from_utf8(source) {
        Ok(_) => lex(alloc, source),
        Err(e) => Err(Stop::Named(LexBreach {
            at: e.valid_up_to() as u32,
            kind: LexKind::NotUtf8,
        })),
    }
}
