//! What tokens stand for in the grammar: keywords, names, constants and signs.
ghost use Rattle.std.specs.Prelude.{◌≡◌, false, IfOk};
ghost use Rattle.std.specs.Str.{IsUtf8, str_eq_ignore_ascii_case};
ghost use Rattle.mast_sql.specs.inside.Quotes as quotes;
ghost use Rattle.mast_sql.specs.inside.Quotes.{GoesOn, QuotedStands, WordStands};
ghost use Rattle.mast_sql.specs.Symbols as symbols;
ghost use Rattle.mast_sql.specs.Symbols.{IsDateOf, StandsFor};
ghost use Rattle.mast_terms.specs.IntegerCell.{integer_of};

use crate::{Compare, SqlKind, SqlToken};
use mast_source::{as_text, between, inside, into_text};
use mast_terms::{Date, NoMemory, Text, read_date, read_int};
use std::alloc::Global;

/// The words that are no names, in any case.
#[derive(Clone, Copy, Debug, PartialEq, Eq)]
pub enum Keyword {
    Select,
    Distinct,
    From,
    Where,
    As,
    And,
    Or,
    Not,
    Exists,
    Union,
    Except,
    Intersect,
    Prefix,
    Sparqltable,
    Date,
}

/// What a token stands for. A text in single quotes tells whether it is a date.
#[derive(Drop)]
pub enum Symbol {
    Select,
    Distinct,
    From,
    Where,
    As,
    And,
    Date,
    Name(Text),
    Integer(i64),
    Quoted(Text, Option<Date>),
    Comma,
    Dot,
    Compare(Compare),
    /// A token that no source query has.
    Other,
}

// The words are equal but for the case of ASCII letters.
fn is_same(word: &[u8], keyword: &str) -> bool
    ensures { result ≡ str_eq_ignore_ascii_case keyword.now word.now }
{
    keyword.as_bytes().eq_ignore_ascii_case(word)
}

/// The keyword that a word is, in any case, if it is one.
pub fn keyword_of(word: &[u8]) -> Option<Keyword>
    ensures { result ≡ symbols.keyword_of word.now }
{
    if is_same(word, "SELECT") {
        Some(Keyword::Select)
    } else if is_same(word, "DISTINCT") {
        Some(Keyword::Distinct)
    } else if is_same(word, "FROM") {
        Some(Keyword::From)
    } else if is_same(word, "WHERE") {
        Some(Keyword::Where)
    } else if is_same(word, "AS") {
        Some(Keyword::As)
    } else if is_same(word, "AND") {
        Some(Keyword::And)
    } else if is_same(word, "OR") {
        Some(Keyword::Or)
    } else if is_same(word, "NOT") {
        Some(Keyword::Not)
    } else if is_same(word, "EXISTS") {
        Some(Keyword::Exists)
    } else if is_same(word, "UNION") {
        Some(Keyword::Union)
    } else if is_same(word, "EXCEPT") {
        Some(Keyword::Except)
    } else if is_same(word, "INTERSECT") {
        Some(Keyword::Intersect)
    } else if is_same(word, "PREFIX") {
        Some(Keyword::Prefix)
    } else if is_same(word, "SPARQLTABLE") {
        Some(Keyword::Sparqltable)
    } else if is_same(word, "DATE") {
        Some(Keyword::Date)
    } else {
        None
    }
}

fn one_sign(b: u8) -> Symbol
    ensures { result ≡ symbols.one_sign b }
{
    if b == b',' {
        Symbol::Comma
    } else if b == b'.' {
        Symbol::Dot
    } else if b == b'=' {
        Symbol::Compare(Compare::Equal)
    } else if b == b'<' {
        Symbol::Compare(Compare::Less)
    } else if b == b'>' {
        Symbol::Compare(Compare::More)
    } else {
        Symbol::Other
    }
}

fn two_signs(b: u8, c: u8) -> Symbol
    ensures { result ≡ symbols.two_signs b c }
{
    if b == b'<' && c == b'>' {
        Symbol::Compare(Compare::Differ)
    } else if b == b'!' && c == b'=' {
        Symbol::Compare(Compare::Differ)
    } else if b == b'<' && c == b'=' {
        Symbol::Compare(Compare::AtMost)
    } else if b == b'>' && c == b'=' {
        Symbol::Compare(Compare::AtLeast)
    } else {
        Symbol::Other
    }
}

fn sign(bytes: &[u8]) -> Symbol
    ensures { result ≡ symbols.sign bytes.now }
{
    match bytes {
        [b] => one_sign(*b),
        [b, c] => two_signs(*b, *c),
        _ => Symbol::Other,
    }
}

fn integer(bytes: &[u8]) -> Symbol
    ensures { result ≡ symbols.integer (integer_of bytes.now) }
{
    match read_int(bytes) {
        Ok(number) => Symbol::Integer(number),
        Err(_) => Symbol::Other,
    }
}

fn keyword_symbol(keyword: Keyword) -> Symbol
    ensures { result ≡ symbols.keyword keyword }
{
    match keyword {
        Keyword::Select => Symbol::Select,
        Keyword::Distinct => Symbol::Distinct,
        Keyword::From => Symbol::From,
        Keyword::Where => Symbol::Where,
        Keyword::As => Symbol::As,
        Keyword::And => Symbol::And,
        Keyword::Date => Symbol::Date,
        _ => Symbol::Other,
    }
}

fn word(alloc: Global, bytes: &[u8]) -> Result<Symbol, NoMemory>
    ensures { IfOk result (WordStands bytes.now) }
{
    match keyword_of(bytes) {
        Some(found) => Ok(keyword_symbol(found)),
        None => Ok(Symbol::Name(Text::from_str(alloc, as_text(bytes))?)),
    }
}

// Puts a byte behind a text, but for a quote behind a quote, and tells whether it is a first quote.
fn put(text: &mut Vec<u8>, quote: bool, b: u8) -> Result<bool, NoMemory>
    ensures { IfOk result (GoesOn text.old.items quote b text.new.items) }
{
    if quote {
        Ok(false)
    } else {
        text.push(b)?;
        Ok(b == b'\'')
    }
}

// The bytes, where of two quotes the second is dropped.
fn undoubled(alloc: Global, bytes: &[u8]) -> Result<Vec<u8>, NoMemory>
    ensures { IfOk result (λ text. text.items ≡ quotes.undoubled false bytes.now) }
{
    let mut text = Vec::with_capacity(alloc, bytes.len())?;
    let mut quote = false;
    for b in bytes {
        quote = put(&mut text, quote, *b)?;
    }
    Ok(text)
}

// The date that a text is, if it is one.
fn date_of(text: &[u8]) -> Option<Date>
    ensures { IsDateOf text.now result }
{
    match read_date(text) {
        Ok(date) => Some(date),
        Err(_) => None,
    }
}

// The bytes as a text; the empty one where they are none.
fn text_of(alloc: Global, bytes: Vec<u8>) -> Result<Text, NoMemory>
    ensures { IfOk result (λ text. IsUtf8 bytes.items → text ≡ bytes.items) }
{
    Text::from_string(alloc, into_text(alloc, bytes))
}

fn quoted(alloc: Global, bytes: &[u8]) -> Result<Symbol, NoMemory>
    ensures { IfOk result (QuotedStands bytes.now) }
{
    let text = text_of(alloc, undoubled(alloc, inside(bytes))?)?;
    let date = date_of(text.as_str().as_bytes());
    Ok(Symbol::Quoted(text, date))
}

/// What a token of the text stands for.
pub fn symbol_of(alloc: Global, text: &[u8], token: SqlToken) -> Result<Symbol, NoMemory>
    ensures { IfOk result (StandsFor text.now token) }
{
    let bytes = between(text, token.from as usize, token.to as usize);
    match token.kind {
        SqlKind::Word => word(alloc, bytes),
        SqlKind::Integer => Ok(integer(bytes)),
        SqlKind::Quoted => quoted(alloc, bytes),
        SqlKind::Sign => Ok(sign(bytes)),
        _ => Ok(Symbol::Other),
    }
}
