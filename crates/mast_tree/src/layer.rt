//! What an item says, as the readers of documents see it.
ghost use Rattle.std.specs.Prelude.{◌≡◌};
ghost use Rattle.mast_tree.specs.Layers.{shown};
ghost use Rattle.mast_tree.specs.Said.{line as line_of, said};
ghost use Rattle.mast_tree.specs.Seen.{seen};

use crate::{Doc, Item};

/// One layer of an item, by what it says. Each has the line of its first token, from 1.
#[derive(Clone, Copy)]
pub enum Layer<'a, 'd> {
    /// A name alone.
    Name {
        word: &'a str,
        line: u32,
    },
    /// An IRI alone, without its brackets.
    Iri {
        word: &'a str,
        line: u32,
    },
    /// A string without a type and a language: the number of its token, whose text `Doc::text` gives.
    Text {
        token: u32,
        line: u32,
    },
    /// A string with a type or a language.
    Tagged {
        line: u32,
    },
    /// A binding.
    Binding {
        line: u32,
    },
    /// A node, with the items between its parentheses.
    Node {
        word: &'a str,
        line: u32,
        items: &'d [Item],
    },
}

impl<'a> Doc<'a> {
    /// What an item of this document says.
    pub fn layer<'d>(&self, item: &'d Item) -> Layer<'a, 'd>
        ensures { shown (seen self.now) result ≡ said (seen self.now) item.now }
    {
        match item {
            Item::Leaf { token } => Layer::Name {
                word: self.word(*token),
                line: self.line(*token),
            },
            Item::Iri { token } => Layer::Iri {
                word: self.word(*token),
                line: self.line(*token),
            },
            Item::Str { token, tag: None } => Layer::Text {
                token: *token,
                line: self.line(*token),
            },
            Item::Str {
                token,
                tag: Some(_),
            } => Layer::Tagged {
                line: self.line(*token),
            },
            Item::Bind { token, .. } => Layer::Binding {
                line: self.line(*token),
            },
            Item::Node { token, items } => Layer::Node {
                word: self.word(*token),
                line: self.line(*token),
                items: items.get().as_slice(),
            },
        }
    }

    /// The line of an item's first token, from 1.
    pub fn item_line(&self, item: &Item) -> u32
        ensures { result ≡ line_of (said (seen self.now) item.now) }
    {
        match self.layer(item) {
            Layer::Name { line, .. } => line,
            Layer::Iri { line, .. } => line,
            Layer::Text { line, .. } => line,
            Layer::Tagged { line } => line,
            Layer::Binding { line } => line,
            Layer::Node { line, .. } => line,
        }
    }
}
