//! A document of constraints, and its items.
ghost use Rattle.std.specs.Prelude.{◌≡◌, [], ◌∷◌, MatchOption, IfOk};
ghost use Rattle.mast_tree.specs.Empty.{is_empty as is_empty_list};
ghost use Rattle.mast_tree.specs.Growing.{Begins};
ghost use Rattle.mast_tree.specs.Seen.{seen};
ghost use Rattle.mast_constr.specs.Kept.{AreKept};
ghost use Rattle.mast_constr.specs.Whole.{ReadsConstraints};
ghost use Rattle.mast_constr.specs.inside.Rules as rules;
ghost use Rattle.mast_constr.specs.inside.Rules.{page_in};

use mast_expressions::Places;
use mast_tbox::{Constraint, Constraints, Lined, Prop};
use mast_terms::{List, Stop, Vocabulary};
use mast_tree::{Doc, Item, Layer, ShapeBreach, ShapeKind, wrong};
use std::alloc::Global;

// Reads the items of a document of constraints.
#[derive(Clone, Copy)]
pub(crate) struct Reader<'d> {
    pub(crate) places: Places<'d>,
}

// The first item and those that follow it, if there is one.
pub(crate) fn parted(items: &[Item]) -> Option<(&Item, &[Item])>
    ensures { MatchOption result (items.now ≡ []) (λ p. items.now ≡ p.0.now ∷ p.1.now) }
{
    match items {
        [] => None,
        [first, rest @ ..] => Some((first, rest)),
    }
}

// Whether there is none.
pub(crate) fn is_empty(items: &[Item]) -> bool
    ensures { result ≡ is_empty_list items.now }
{
    match items {
        [] => true,
        [_, ..] => false,
    }
}

impl<'d> Reader<'d> {
    // The constraints that items say, in order.
    fn constraints(
        &self,
        alloc: Global,
        vocab: &mut Vocabulary,
        items: &[Item],
    ) -> Result<List<Lined<Constraint>>, Stop<ShapeBreach>>
        ensures { rules.ReadsItems (page_in self.now) items.now vocab.old vocab.new result }
    {
        let mut list = List::new(alloc);
        for item in items {
            self.put_constraint(alloc, vocab, item, &mut list)?;
        }
        Ok(list)
    }

    // A constraint with its line, put behind those that stand before.
    fn put_constraint(
        &self,
        alloc: Global,
        vocab: &mut Vocabulary,
        item: &Item,
        list: &mut List<Lined<Constraint>>,
    ) -> Result<(), Stop<ShapeBreach>>
        ensures { rules.PutsConstraint (page_in self.now) item.now vocab.old vocab.new list.old list.new result }
    {
        let constraint = self.constraint(alloc, vocab, item)?;
        let line = self.places.line(item);
        list.push(
            alloc,
            Lined {
                line,
                item: constraint,
            },
        )?;
        Ok(())
    }

    // A constraint: `Functional(..)`, `Identify(..)` or `Deny(..)`.
    fn constraint(
        &self,
        alloc: Global,
        vocab: &mut Vocabulary,
        item: &Item,
    ) -> Result<Constraint, Stop<ShapeBreach>>
        ensures { rules.ReadsConstraint (page_in self.now) item.now vocab.old vocab.new result }
    {
        match self.places.doc.layer(item) {
            Layer::Node { word, line, items } => {
                if word == "Functional" {
                    let prop = self.functional(alloc, vocab, line, items)?;
                    Ok(Constraint::Functional { prop })
                } else if word == "Identify" {
                    let (concept, paths) = self.identify(alloc, vocab, line, items)?;
                    Ok(Constraint::Identify { concept, paths })
                } else if word == "Deny" {
                    let atoms = self.deny(alloc, vocab, line, items)?;
                    Ok(Constraint::Deny { atoms })
                } else {
                    Err(wrong(line, ShapeKind::Shape))
                }
            }
            _ => Err(wrong(self.places.line(item), ShapeKind::Shape)),
        }
    }

    // What stands in `Functional(..)`: a property.
    fn functional(
        &self,
        alloc: Global,
        vocab: &mut Vocabulary,
        line: u32,
        items: &[Item],
    ) -> Result<Prop, Stop<ShapeBreach>>
        ensures { rules.ReadsFunctional (page_in self.now) line items.now vocab.old vocab.new result }
    {
        match items {
            [only] => self.prop(alloc, vocab, only),
            _ => Err(wrong(line, ShapeKind::Shape)),
        }
    }

    // A property: a role or `Attr(IRI)`.
    fn prop(
        &self,
        alloc: Global,
        vocab: &mut Vocabulary,
        item: &Item,
    ) -> Result<Prop, Stop<ShapeBreach>>
        ensures { rules.ReadsProp (page_in self.now) item.now vocab.old vocab.new result }
    {
        match self.places.doc.layer(item) {
            Layer::Node { word, line, items } => {
                if word == "Attr" {
                    Ok(Prop::Attr(self.attribute(alloc, vocab, line, items)?))
                } else {
                    self.role_prop(alloc, vocab, item)
                }
            }
            _ => self.role_prop(alloc, vocab, item),
        }
    }

    // A role as a property.
    fn role_prop(
        &self,
        alloc: Global,
        vocab: &mut Vocabulary,
        item: &Item,
    ) -> Result<Prop, Stop<ShapeBreach>>
        ensures { rules.ReadsRoleProp (page_in self.now) item.now vocab.old vocab.new result }
    {
        Ok(Prop::Role(self.places.role(alloc, vocab, item, ShapeKind::Shape)?))
    }
}

/// The constraints of a document, over the names and constants of a vocabulary, or the first breach of the document.
///
/// Names that the vocabulary does not have are added with the kind of their place, and constants of denials are
/// numbered. A refused call has dropped the vocabulary.
pub fn read_constraints(
    alloc: Global,
    doc: &Doc,
    vocab: Vocabulary,
) -> Result<Constraints, Stop<ShapeBreach>>
    ensures exact { ReadsConstraints (seen doc.now) vocab result }
    ensures begins { IfOk result (λ constraints. Begins constraints.vocab vocab) }
    ensures kept { IfOk result AreKept }
{
    let mut vocab = vocab;
    let parts = doc.parts(alloc, "Constraints")?;
    let reader = Reader {
        places: Places {
            doc: &*doc,
            prefixes: &parts.prefixes,
        },
    };
    let list = reader.constraints(alloc, &mut vocab, parts.inside)?;
    doc.nothing_after(parts.after)?;
    Ok(Constraints { vocab, list })
}
