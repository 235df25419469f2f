//! The ontology document, whole.
ghost use Rattle.std.specs.Prelude.{◌≡◌, IfOk};
ghost use Rattle.mast_terms.specs.Answers.{Answers};
ghost use Rattle.mast_terms.specs.Vocabularies.{Lists};
ghost use Rattle.mast_tree.specs.Growing.{Begins};
ghost use Rattle.mast_tree.specs.Seen.{seen};
ghost use Rattle.mast_tree.specs.Pages.{says};
ghost use Rattle.mast_expressions.specs.Reads.{page};
ghost use Rattle.mast_onto.specs.Known.{HasNames};
ghost use Rattle.mast_onto.specs.Ontologies as spec;
ghost use Rattle.mast_onto.specs.inside.Stating.{ReadsFront, ReadsStated, ReadsAxioms, ReadsInside};

use crate::numbering::tbox_of;
use crate::reader::Reader;
use crate::statements::Statements;
use mast_expressions::Places;
use mast_tbox::Ontology;
use mast_terms::{NoMemory, Stop, Vocabulary};
use mast_tree::{Doc, Item, Layer, ShapeBreach};
use std::alloc::Global;

/// The ontology of a document, over the names of a vocabulary, or the document's first breach.
///
/// Each list of the vocabulary that it gives back begins with that of the one handed in.
pub fn read_ontology(
    alloc: Global,
    doc: &Doc,
    vocab: Vocabulary,
) -> Result<Ontology, Stop<ShapeBreach>>
    ensures exact { Answers result (spec.HasOntology (seen doc.now) vocab) (spec.IsOntologyBreach (seen doc.now) vocab) }
    ensures begins { IfOk result (λ ontology. Begins ontology.vocab vocab) }
    ensures constants { IfOk result (λ ontology. ontology.vocab.constants ≡ vocab.constants) }
    ensures names { IfOk result HasNames }
{
    read_whole(alloc, doc, vocab)
}

// The ontology of a document, or its first breach.
fn read_whole(alloc: Global, doc: &Doc, vocab: Vocabulary) -> Result<Ontology, Stop<ShapeBreach>>
    ensures { Answers result (spec.HasOntology (seen doc.now) vocab) (spec.IsOntologyBreach (seen doc.now) vocab) }
{
    let parts = doc.parts(alloc, "Ontology")?;
    let reader = Reader {
        places: Places {
            doc,
            prefixes: &parts.prefixes,
        },
    };
    let mut names = vocab;
    let statements = reader.inside(alloc, &mut names, parts.inside, parts.after)?;
    match tbox_of(alloc, &statements) {
        Ok(tbox) => Ok(Ontology { vocab: names, tbox }),
        Err(NoMemory) => Err(Stop::NoMemory),
    }
}

impl<'d> Reader<'d> {
    // What the axioms inside the main node state, and nothing follows that node.
    fn inside(
        &self,
        alloc: Global,
        vocab: &mut Vocabulary,
        inside: &[Item],
        after: &[Item],
    ) -> Result<Statements, Stop<ShapeBreach>>
        ensures { ReadsInside (page self.now.places) inside.now after.now vocab.old vocab.new result }
    {
        let rest = self.behind_iri(alloc, inside)?;
        let axioms = self.behind_iri(alloc, rest)?;
        let statements = self.axioms(alloc, vocab, axioms)?;
        self.places.doc.nothing_after(after)?;
        Ok(statements)
    }

    // The items behind an IRI, if one stands at the front.
    fn behind_iri<'i>(
        &self,
        alloc: Global,
        items: &'i [Item],
    ) -> Result<&'i [Item], Stop<ShapeBreach>>
        ensures { (lists : Lists) → ReadsFront (page self.now.places) items.now lists result }
    {
        match items {
            [] => Ok(items),
            [item, rest @ ..] => {
                if !self.is_iri(item) {
                    return Ok(items);
                }
                let _ = self.places.prefixes.expand(alloc, self.places.doc, item)?;
                Ok(rest)
            }
        }
    }

    // Whether an item is an IRI, in brackets or by its prefix.
    fn is_iri(&self, item: &Item) -> bool
        ensures { result ≡ spec.is_iri (says (page self.now.places) item.now) }
    {
        match self.places.doc.layer(item) {
            Layer::Name { .. } => true,
            Layer::Iri { .. } => true,
            Layer::Text { .. } => false,
            Layer::Tagged { .. } => false,
            Layer::Binding { .. } => false,
            Layer::Node { .. } => false,
        }
    }

    // What the axioms state.
    fn axioms(
        &self,
        alloc: Global,
        vocab: &mut Vocabulary,
        items: &[Item],
    ) -> Result<Statements, Stop<ShapeBreach>>
        ensures { ReadsAxioms (page self.now.places) items.now vocab.old vocab.new result }
    {
        let mut statements = Statements::new(alloc);
        for item in items {
            self.state(alloc, vocab, &mut statements, item)?;
        }
        Ok(statements)
    }

    // Adds what an item among the axioms states.
    fn state(
        &self,
        alloc: Global,
        vocab: &mut Vocabulary,
        statements: &mut Statements,
        item: &Item,
    ) -> Result<(), Stop<ShapeBreach>>
        ensures { ReadsStated (page self.now.places) item.now vocab.old vocab.new statements.old.list statements.new.list result }
    {
        let read = self.read(alloc, vocab, self.axiom_form(item))?;
        statements.state(alloc, self.places.line(item), &read)
    }
}
