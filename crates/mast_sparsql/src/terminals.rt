//! What the grammar sees of each token.
ghost use Rattle.std.specs.Prelude.{◌≡◌, IfOk};
ghost use Rattle.mast_sql.specs.Symbols.{keyword_of};
ghost use Rattle.mast_sparsql.specs.Terminals as spec;
ghost use Rattle.mast_sparsql.specs.inside.Lines.{Sees};

use crate::lines::Lines;
use mast_grammar::Terminal;
use mast_source::between;
use mast_sql::{Keyword, SqlKind, SqlToken, keyword_of};
use mast_terms::{List, NoMemory};
use std::alloc::Global;

fn keyword(keyword: Keyword) -> Terminal
    ensures { result ≡ spec.keyword keyword }
{
    match keyword {
        Keyword::Select => Terminal::Select,
        Keyword::Distinct => Terminal::Distinct,
        Keyword::From => Terminal::From,
        Keyword::Where => Terminal::Where,
        Keyword::As => Terminal::As,
        Keyword::And => Terminal::And,
        Keyword::Or => Terminal::Or,
        Keyword::Not => Terminal::Not,
        Keyword::Exists => Terminal::Exists,
        Keyword::Union => Terminal::Union,
        Keyword::Except => Terminal::Except,
        Keyword::Intersect => Terminal::Intersect,
        Keyword::Prefix => Terminal::Prefix,
        Keyword::Sparqltable => Terminal::Sparqltable,
        Keyword::Date => Terminal::Date,
    }
}

fn letter(b: u8) -> Terminal
    ensures { result ≡ spec.letter b }
{
    if b == b'a' {
        Terminal::A
    } else {
        Terminal::Name
    }
}

fn name(bytes: &[u8]) -> Terminal
    ensures { result ≡ spec.name bytes.now }
{
    match bytes {
        [b] => letter(*b),
        _ => Terminal::Name,
    }
}

fn word(bytes: &[u8]) -> Terminal
    ensures { result ≡ spec.word (keyword_of bytes.now) bytes.now }
{
    match keyword_of(bytes) {
        Some(found) => keyword(found),
        None => name(bytes),
    }
}

fn one_sign(b: u8) -> Terminal
    ensures { result ≡ spec.one_sign b }
{
    if b == b'(' {
        Terminal::Open
    } else if b == b')' {
        Terminal::Close
    } else if b == b'{' {
        Terminal::OpenBrace
    } else if b == b'}' {
        Terminal::CloseBrace
    } else if b == b',' {
        Terminal::Comma
    } else if b == b'.' {
        Terminal::Dot
    } else if b == b';' {
        Terminal::Semicolon
    } else if b == b'=' {
        Terminal::Equal
    } else {
        Terminal::Other
    }
}

fn two_signs(b: u8, c: u8) -> Terminal
    ensures { result ≡ spec.two_signs b c }
{
    if b == b'<' && c == b'>' {
        Terminal::Differ
    } else if b == b'!' && c == b'=' {
        Terminal::Differ
    } else if b == b'^' && c == b'^' {
        Terminal::Carets
    } else {
        Terminal::Other
    }
}

fn sign(bytes: &[u8]) -> Terminal
    ensures { result ≡ spec.sign bytes.now }
{
    match bytes {
        [b] => one_sign(*b),
        [b, c] => two_signs(*b, *c),
        _ => Terminal::Other,
    }
}

// What the grammar sees of the bytes of a token, wherever it stands.
fn plain(kind: SqlKind, bytes: &[u8]) -> Terminal
    ensures { result ≡ spec.plain kind bytes.now }
{
    match kind {
        SqlKind::Word => word(bytes),
        SqlKind::Pname => Terminal::Pname,
        SqlKind::Var => Terminal::Var,
        SqlKind::Iri => Terminal::Iri,
        SqlKind::Integer => Terminal::Integer,
        SqlKind::Quoted => Terminal::Quoted,
        SqlKind::Doubled => Terminal::Doubled,
        SqlKind::Sign => sign(bytes),
    }
}

fn ends_with_colon(bytes: &[u8]) -> bool
    ensures { result ≡ spec.ends_with_colon bytes.now }
{
    match bytes.last() {
        Some(b) => *b == b':',
        None => false,
    }
}

// Whether a token is the prefix of a line and no line before has it.
fn is_new(lines: &Lines, terminal: Terminal, bytes: &[u8]) -> bool
    ensures { result ≡ spec.is_new lines.now terminal bytes.now }
{
    terminal == Terminal::Pname && ends_with_colon(bytes) && !lines.has(bytes)
}

// What the grammar sees of a token behind PREFIX or not, where its bytes by themselves are the terminal. A new prefix is put
// behind the others.
fn see(
    lines: &mut Lines,
    alloc: Global,
    behind: bool,
    terminal: Terminal,
    bytes: &[u8],
) -> Result<Terminal, NoMemory>
    ensures { IfOk result (λ seen. Sees behind lines.old terminal bytes.now seen lines.new) }
{
    if behind && is_new(lines, terminal, bytes) {
        lines.put(alloc, bytes)?;
        Ok(Terminal::NewPrefix)
    } else {
        Ok(terminal)
    }
}

/// What the grammar sees of the tokens of a text: a Pname behind PREFIX is new where it ends with its colon and stands
/// behind no PREFIX before.
pub(crate) fn terminals_of(
    alloc: Global,
    text: &[u8],
    tokens: &[SqlToken],
) -> Result<List<Terminal>, NoMemory>
    ensures { IfOk result (λ terminals. terminals ≡ spec.terminals text.now tokens.now) }
{
    let mut terminals = List::new(alloc);
    let mut lines = Lines::new(alloc);
    let mut behind = false;
    for token in tokens {
        let bytes = between(text, token.from as usize, token.to as usize);
        let terminal = plain(token.kind, bytes);
        terminals.push(alloc, see(&mut lines, alloc, behind, terminal, bytes)?)?;
        behind = terminal == Terminal::Prefix;
    }
    Ok(terminals)
}
