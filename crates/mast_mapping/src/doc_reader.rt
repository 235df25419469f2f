//! What every rule of a mapping document reads: strings, identifiers, and the lines of items.
ghost use Rattle.std.specs.Prelude.{◌≡◌, slice_get};
ghost use Rattle.mast_terms.specs.declared.memory.Stop.TheVariants as stop;
ghost use Rattle.mast_tree.specs.Constants.{identifier_of};
ghost use Rattle.mast_tree.specs.Results.{Gives};
ghost use Rattle.mast_tree.specs.Said.{line as line_of, said};
ghost use Rattle.mast_mapping.specs.Declarations.{string_of};
ghost use Rattle.mast_mapping.specs.inside.Readers.{doc_of, end_at};

use mast_terms::{Stop, Text};
use mast_tree::{Doc, Item, Layer, PrefixTable, ShapeBreach, ShapeKind, wrong};
use std::alloc::Global;

/// A document with its prefixes.
#[derive(Clone, Copy)]
pub(crate) struct DocReader<'r, 'a> {
    pub(crate) doc: &'r Doc<'a>,
    pub(crate) prefixes: &'r PrefixTable,
}

impl<'r, 'a> DocReader<'r, 'a> {
    // The line of an item.
    pub(crate) fn line(&self, item: &Item) -> u32
        ensures { result ≡ line_of (said (doc_of self.now) item.now) }
    {
        self.doc.item_line(item)
    }

    // A breach of a kind at an item.
    pub(crate) fn wrong(&self, item: &Item, kind: ShapeKind) -> Stop<ShapeBreach>
        ensures { result ≡ stop.Named (record { line = line_of (said (doc_of self.now) item.now); kind = kind }) }
    {
        wrong(self.line(item), kind)
    }

    // The identifier that an item is.
    pub(crate) fn identifier(&self, alloc: Global, item: &Item) -> Result<Text, Stop<ShapeBreach>>
        ensures { Gives result (identifier_of (said (doc_of self.now) item.now)) }
    {
        match self.doc.identifier(item) {
            Ok(word) => Ok(Text::from_str(alloc, word)?),
            Err(breach) => Err(Stop::Named(breach)),
        }
    }

    // The text of a string without a type and a language.
    pub(crate) fn string(&self, alloc: Global, item: &Item) -> Result<Text, Stop<ShapeBreach>>
        ensures { Gives result (string_of (said (doc_of self.now) item.now)) }
    {
        match self.doc.layer(item) {
            Layer::Text { token, .. } => Ok(self.doc.text(alloc, token)?),
            _ => Err(self.wrong(item, ShapeKind::Shape)),
        }
    }

    // Where a token ends, in bytes.
    pub(crate) fn end(&self, token: u32) -> u32
        ensures { result ≡ end_at (slice_get self.now.doc.now.tokens.now token) }
    {
        match self.doc.tokens.get(token as usize) {
            None => 0,
            Some(token) => token.to,
        }
    }
}
