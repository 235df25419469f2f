//! Documents.
ghost use Rattle.std.specs.Prelude.{◌≡◌, ◌<◌, length, IfOk};
ghost use Rattle.mast_terms.specs.Answers.{Answers};
ghost use Rattle.mast_terms.specs.declared.memory.Stop.TheVariants as stop;
ghost use Rattle.mast_tree.specs.Documents.{IsDoc};
ghost use Rattle.mast_tree.specs.Source.{AreTokens};
ghost use Rattle.mast_tree.specs.Trees.{IsTree, IsTreeBreach};

use crate::parser::{Move, ParseState, advance, ends};
use crate::trees::Trees;
use crate::{Item, Token, TreeBreach, TreeKind};
use mast_terms::Stop;
use sqlite_items::Items;
use std::alloc::Global;

/// The documents.
#[derive(Clone, Copy, Debug, PartialEq, Eq)]
pub enum DocName {
    Ontology,
    Constraints,
    Mappings,
}

/// A document: its bytes, their tokens, and the items that stand for these. No other can be made.
#[derive(Debug, Drop)]
pub struct Doc<'a> {
    pub source: &'a [u8],
    pub tokens: &'a [Token],
    pub items: Items<Item>,
    pub ghost valid: { ∥ IsDoc source.now tokens.now items ∥₁ },
}

// The first breach of the grammar, at a token.
fn breach(token: u32, kind: TreeKind) -> Stop<TreeBreach>
    ensures { result ≡ stop.Named (record { token = token; kind = kind }) }
{
    Stop::Named(TreeBreach { token, kind })
}

// The items that stand for tokens.
fn read_items(alloc: Global, tokens: &[Token]) -> Result<Items<Item>, Stop<TreeBreach>>
    requires { length tokens.now < 4294967295 }
    ensures { Answers result (IsTree tokens.now) (IsTreeBreach tokens.now) }
{
    let mut trees = Trees::new(alloc);
    let mut state = ParseState::Item;
    let mut depth = 0;
    let mut at = 0;
    for token in tokens {
        match advance(state, depth, token.kind) {
            Move::Deeper => return Err(breach(at, TreeKind::Deep)),
            Move::Stuck => return Err(breach(at, TreeKind::Unexpected)),
            Move::To(next, open) => {
                trees.make_room(alloc, tokens, at);
                trees.read(alloc, state, token.kind, at)?;
                state = next;
                depth = open;
            }
        }
        at += 1;
    }
    if ends(state, depth) {
        Ok(trees.finish(alloc, state)?)
    } else {
        Err(breach(at, TreeKind::Unexpected))
    }
}

/// The document of a source and its tokens, or the first breach of the grammar.
pub fn read_doc<'a>(
    alloc: Global,
    source: &'a [u8],
    tokens: &'a [Token],
) -> Result<Doc<'a>, Stop<TreeBreach>>
    requires tokens { AreTokens source.now tokens.now }
    requires size { length tokens.now < 4294967295 }
    ensures source { IfOk result (λ doc. doc.source.now ≡ source.now) }
    ensures tokens { IfOk result (λ doc. doc.tokens.now ≡ tokens.now) }
    ensures tree { Answers result (λ doc. IsTree tokens.now doc.items) (IsTreeBreach tokens.now) }
{
    let items = read_items(alloc, tokens)?;
    Ok(Doc {
        source,
        tokens,
        items,
    })
}
