//! Identifiers and constants, as constraints and mappings write them.
ghost use Rattle.std.specs.Prelude.{◌≡◌, ◌∷◌, [], Ok, Err, Option, List, ℕ, MatchResult};
ghost use Rattle.mast_terms.specs.declared.date.Date.{Date as ADate};
ghost use Rattle.mast_tree.specs.Constants as spec;
ghost use Rattle.mast_tree.specs.Layers.{shown};
ghost use Rattle.mast_tree.specs.Results.{Gives};
ghost use Rattle.mast_tree.specs.Said.{said};
ghost use Rattle.mast_tree.specs.Seen.{seen};

use crate::prefix::first_token;
use crate::{Doc, Item, Layer, ShapeBreach, ShapeKind, wrong};
use mast_terms::{Stop, Value, read_date, read_int};
use std::alloc::Global;

// An ASCII letter, a digit or `_`.
fn is_word_byte(b: u8) -> bool
    ensures { result ≡ spec.is_word_byte b }
{
    b == b'_' || b.is_ascii_alphanumeric()
}

// These alone.
fn are_word(bytes: &[u8]) -> bool
    ensures { result ≡ spec.are_word bytes.now }
{
    for b in bytes {
        if !is_word_byte(*b) {
            return false;
        }
    }
    true
}

/// Whether these bytes are an identifier: ASCII letters, digits and `_`, one or more, that do not begin with a digit.
pub fn is_identifier(bytes: &[u8]) -> bool
    ensures { result ≡ spec.is_identifier bytes.now }
{
    match bytes {
        [] => false,
        [first, ..] => !first.is_ascii_digit() && are_word(bytes),
    }
}

// The date that a text at a line is.
fn date_of(text: &str, line: u32) -> Result<Value, Stop<ShapeBreach>>
    ensures { (dates : List ℕ → Option ADate) → spec.AreDates dates → Gives result (spec.date_in (dates text.now) line) }
{
    match read_date(text.as_bytes()) {
        Ok(date) => Ok(Value::Date(date)),
        Err(_) => Err(wrong(line, ShapeKind::BadConstant)),
    }
}

impl<'a> Doc<'a> {
    /// The identifier that an item of this document is: ASCII letters, digits and `_`, not beginning with a digit. Every other
    /// item is a Shape breach at its line.
    pub fn identifier(&self, item: &Item) -> Result<&'a str, ShapeBreach>
        ensures { let identifier = spec.identifier_of (said (seen self.now) item.now) in
            MatchResult result (λ word. identifier ≡ Ok word.now) (λ breach. identifier ≡ Err breach) }
    {
        match self.layer(item) {
            Layer::Name { word, line } if is_identifier(word.as_bytes()) => Ok(word),
            _ => Err(ShapeBreach {
                line: self.line(first_token(item)),
                kind: ShapeKind::Shape,
            }),
        }
    }

    /// The constant that an item of this document says: `Int(NUMBER)`, `Text("TEXT")` or `Date("YYYY-MM-DD")`.
    ///
    /// Another form is a Shape breach: at the node's line where its word or its number of items is another, else at the line of its
    /// item. A number or a date that no cell of a table would be is BadConstant at the line of its item.
    pub fn constant(&self, alloc: Global, item: &Item) -> Result<Value, Stop<ShapeBreach>>
        ensures { (dates : List ℕ → Option ADate) → spec.AreDates dates
            → Gives result (spec.constant_of dates (seen self.now) (said (seen self.now) item.now)) }
    {
        match self.layer(item) {
            Layer::Node { word, line, items } => match items {
                [only] => self.constant_in(alloc, word, line, only),
                _ => Err(wrong(line, ShapeKind::Shape)),
            },
            _ => Err(wrong(self.line(first_token(item)), ShapeKind::Shape)),
        }
    }

    // The constant in a node of this word, at this line, with one item.
    fn constant_in(
        &self,
        alloc: Global,
        word: &str,
        line: u32,
        only: &Item,
    ) -> Result<Value, Stop<ShapeBreach>>
        ensures { (dates : List ℕ → Option ADate) → spec.AreDates dates
            → Gives result (spec.constant_in dates word.now line (said (seen self.now) only.now ∷ [])) }
    {
        if word == "Int" {
            self.integer(only)
        } else if word == "Text" {
            self.plain_text(alloc, only)
        } else if word == "Date" {
            self.date(alloc, only)
        } else {
            Err(wrong(line, ShapeKind::Shape))
        }
    }

    // A name that is an integer.
    fn integer(&self, item: &Item) -> Result<Value, Stop<ShapeBreach>>
        ensures { Gives result (spec.integer_said (said (seen self.now) item.now)) }
    {
        match self.layer(item) {
            Layer::Name { word, line } => match read_int(word.as_bytes()) {
                Ok(number) => Ok(Value::Int(number)),
                Err(_) => Err(wrong(line, ShapeKind::BadConstant)),
            },
            _ => Err(wrong(self.line(first_token(item)), ShapeKind::Shape)),
        }
    }

    // A string as a value.
    fn plain_text(&self, alloc: Global, item: &Item) -> Result<Value, Stop<ShapeBreach>>
        ensures { Gives result (spec.text_said (said (seen self.now) item.now)) }
    {
        match self.layer(item) {
            Layer::Text { token, .. } => Ok(Value::Text(self.text(alloc, token)?)),
            _ => Err(wrong(self.line(first_token(item)), ShapeKind::Shape)),
        }
    }

    // A string that is a date.
    fn date(&self, alloc: Global, item: &Item) -> Result<Value, Stop<ShapeBreach>>
        ensures { (dates : List ℕ → Option ADate) → spec.AreDates dates → Gives result (spec.date_said dates (said (seen self.now) item.now)) }
    {
        match self.layer(item) {
            Layer::Text { token, line } => {
                let text = self.text(alloc, token)?;
                date_of(text.as_str(), line)
            }
            _ => Err(wrong(self.line(first_token(item)), ShapeKind::Shape)),
        }
    }
}
