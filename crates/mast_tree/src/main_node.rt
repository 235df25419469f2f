//! A document in its parts: its prefixes, what stands inside its main node, and what follows that node.
ghost use Rattle.std.specs.Prelude.{◌≡◌, ⊤, Option};
ghost use Rattle.mast_terms.specs.Answers.{Answers};
ghost use Rattle.mast_terms.specs.Vocabularies.{Lists};
ghost use Rattle.mast_tree.specs.inside.MainNodes.{shown_main};
ghost use Rattle.mast_tree.specs.Judged.{after_judged};
ghost use Rattle.mast_tree.specs.Judgements.{Judges};
ghost use Rattle.mast_tree.specs.MainNode as spec;
ghost use Rattle.mast_tree.specs.Seen.{seen};

use crate::prefix::first_token;
use crate::{Doc, Item, Layer, PrefixTable, ShapeBreach, ShapeKind, prefixes, wrong};
use mast_terms::Stop;
use std::alloc::Global;

/// A document in its parts.
#[derive(Drop)]
pub struct Parts<'d> {
    /// What its prefixes stand for.
    pub prefixes: PrefixTable,
    /// The items inside its main node.
    pub inside: &'d [Item],
    /// The items after its main node, where nothing may stand.
    pub after: &'d [Item],
}

impl<'a> Doc<'a> {
    // The items inside the first of some items that is a node with the word, and those after it.
    fn main_node<'d>(&self, word: &str, items: &'d [Item]) -> Option<(&'d [Item], &'d [Item])>
        ensures { shown_main result ≡ spec.main_node (seen self.now) word.now items.now }
    {
        for (at, item) in items.iter().enumerate() {
            if let Layer::Node {
                word: name,
                items: inside,
                ..
            } = self.layer(item)
            {
                if name == word {
                    return Some((inside, &items[at + 1..]));
                }
            }
        }
        None
    }

    /// The parts of this document, whose main node has the given word: `Ontology`, `Constraints` or `Mappings`.
    ///
    /// Refused with the first breach of the prologue: the first item up to the main node that is neither a `Prefix` node of a new
    /// prefix nor the main node, or line 1 where no main node stands.
    pub fn parts<'d>(&'d self, alloc: Global, word: &str) -> Result<Parts<'d>, Stop<ShapeBreach>>
        ensures { let has = spec.HasParts (seen self.now) word.now in
            let breach = spec.IsFrontBreach (seen self.now) word.now in
            Answers result (λ parts. has parts.prefixes parts.inside.now parts.after.now) breach }
    {
        let prefixes = prefixes(alloc, self, word)?;
        match self.main_node(word, self.items.as_slice()) {
            Some((inside, after)) => Ok(Parts {
                prefixes,
                inside,
                after,
            }),
            None => Err(wrong(1, ShapeKind::Shape)),
        }
    }

    /// Refused with Shape at the first of some items that follow the main node: nothing may stand there.
    pub fn nothing_after(&self, items: &[Item]) -> Result<(), Stop<ShapeBreach>>
        ensures { (lists : Lists) → Judges lists (after_judged (seen self.now) items.now) lists (λ nothing. ⊤) result }
    {
        match items {
            [] => Ok(()),
            [item, ..] => Err(wrong(self.line(first_token(item)), ShapeKind::Shape)),
        }
    }
}
