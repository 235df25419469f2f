//! Axioms, read by their forms.
ghost use Rattle.std.specs.Prelude.{◌≡◌, Some, Option};
ghost use Rattle.mast_terms.specs.Vocabularies.{Lists};
ghost use Rattle.mast_tree.specs.Judgements.{Judges};
ghost use Rattle.mast_tree.specs.Results.{Gives};
ghost use Rattle.mast_expressions.specs.Reads.{page};
ghost use Rattle.mast_onto.specs.Axioms as spec;
ghost use Rattle.mast_onto.specs.Nodes as node;
ghost use Rattle.mast_onto.specs.declared.statement.Axiom.TheVariants.{Nothing};
ghost use Rattle.mast_onto.specs.inside.Reads.{ReadsMember, ReadsMembers, ReadsSubject, ReadsType, ReadsForm};
ghost use Rattle.mast_onto.specs.inside.Shown.{shown_axiom};

use crate::form::{Place, Relation};
use crate::node::AxiomForm;
use crate::statement::{Axiom, Expression};
use mast_expressions::Places;
use mast_tbox::Basic;
use mast_terms::{AddRefusal, Kind, List, NameKind, Stop, Vocabulary};
use mast_tree::{Item, ShapeBreach, ShapeKind, is_standard, wrong};
use std::alloc::Global;

/// A document with its prefixes: each method reads what stands in one place.
#[derive(Clone, Copy)]
pub(crate) struct Reader<'d> {
    pub(crate) places: Places<'d>,
}

impl<'d> Reader<'d> {
    // An axiom of a form.
    pub(crate) fn read(
        &self,
        alloc: Global,
        vocab: &mut Vocabulary,
        form: AxiomForm,
    ) -> Result<Axiom, Stop<ShapeBreach>>
        ensures { ReadsForm (page self.now.places) (shown_axiom form.entry) vocab.old vocab.new result }
    {
        match form {
            AxiomForm::Nothing => Ok(Axiom::Nothing),
            AxiomForm::Declared(kind, item) => self.declared_iri(alloc, vocab, kind, item),
            AxiomForm::Listed(place, relation, items) => {
                self.listed(alloc, vocab, place, relation, items)
            }
            AxiomForm::Below(place, turned, sub, sup) => {
                self.below(alloc, vocab, place, turned, sub, sup)
            }
            AxiomForm::Range(attr, of_type) => self.range(alloc, vocab, attr, of_type),
            AxiomForm::Wrong(kind, line) => Err(wrong(line, kind)),
        }
    }

    // A declared IRI.
    fn declared_iri(
        &self,
        alloc: Global,
        vocab: &mut Vocabulary,
        kind: Option<NameKind>,
        item: &Item,
    ) -> Result<Axiom, Stop<ShapeBreach>>
        ensures { ReadsForm (page self.now.places) (node.declared kind item.now) vocab.old vocab.new result }
    {
        let iri = self.places.expanded(alloc, item, ShapeKind::NotDlLite)?;
        match kind {
            None => Ok(Axiom::Nothing),
            Some(kind) => declare(alloc, vocab, kind, iri.as_str(), self.places.line(item)),
        }
    }

    // A list of expressions.
    fn listed(
        &self,
        alloc: Global,
        vocab: &mut Vocabulary,
        place: Place,
        relation: Relation,
        items: &[Item],
    ) -> Result<Axiom, Stop<ShapeBreach>>
        ensures { ReadsForm (page self.now.places) (node.listed place relation items.now) vocab.old vocab.new result }
    {
        let members = self.members(alloc, vocab, place, items)?;
        Ok(Axiom::Listed { relation, members })
    }

    // The expressions in places of one kind.
    fn members(
        &self,
        alloc: Global,
        vocab: &mut Vocabulary,
        place: Place,
        items: &[Item],
    ) -> Result<List<Expression>, Stop<ShapeBreach>>
        ensures { ReadsMembers (page self.now.places) place items.now vocab.old vocab.new result }
    {
        let mut members = List::new(alloc);
        for item in items {
            let member = self.member(alloc, vocab, place, item)?;
            members.push(alloc, member)?;
        }
        Ok(members)
    }

    // The expression in a place.
    fn member(
        &self,
        alloc: Global,
        vocab: &mut Vocabulary,
        place: Place,
        item: &Item,
    ) -> Result<Expression, Stop<ShapeBreach>>
        ensures { ReadsMember (page self.now.places) place item.now vocab.old vocab.new result }
    {
        match place {
            Place::Left => Ok(Expression::Concept(self.places.left(alloc, vocab, item)?)),
            Place::Role => Ok(Expression::Role(
                self.places.role(alloc, vocab, item, ShapeKind::NotDlLite)?,
            )),
            Place::Attr => Ok(Expression::Attr(
                self.places.attr(alloc, vocab, item, ShapeKind::NotDlLite)?,
            )),
        }
    }

    // A concept and a right side.
    fn below(
        &self,
        alloc: Global,
        vocab: &mut Vocabulary,
        place: Place,
        turned: bool,
        sub: &Item,
        sup: &Item,
    ) -> Result<Axiom, Stop<ShapeBreach>>
        ensures { ReadsForm (page self.now.places) (node.below place turned sub.now sup.now) vocab.old vocab.new result }
    {
        let sub = self.subject(alloc, vocab, place, turned, sub)?;
        let parts = self.right(alloc, vocab, sup)?;
        Ok(Axiom::Below { sub, parts })
    }

    // The concept of what stands in a place, or of its inverse.
    fn subject(
        &self,
        alloc: Global,
        vocab: &mut Vocabulary,
        place: Place,
        turned: bool,
        item: &Item,
    ) -> Result<Basic, Stop<ShapeBreach>>
        ensures { ReadsSubject (page self.now.places) place turned item.now vocab.old vocab.new result }
    {
        let expression = self.member(alloc, vocab, place, item)?;
        if turned {
            Ok(expression.inverse().subjects())
        } else {
            Ok(expression.subjects())
        }
    }

    // An attribute and the type of its values.
    fn range(
        &self,
        alloc: Global,
        vocab: &mut Vocabulary,
        attr: &Item,
        of_type: &Item,
    ) -> Result<Axiom, Stop<ShapeBreach>>
        ensures { ReadsForm (page self.now.places) (node.range attr.now of_type.now) vocab.old vocab.new result }
    {
        let attr = self.places.attr(alloc, vocab, attr, ShapeKind::NotDlLite)?;
        let kind = self.value_type(alloc, of_type)?;
        Ok(Axiom::Range { attr, kind })
    }

    // The kind of the values of a type.
    fn value_type(&self, alloc: Global, item: &Item) -> Result<Option<Kind>, Stop<ShapeBreach>>
        ensures { (lists : Lists) → ReadsType (page self.now.places) item.now lists result }
    {
        self.type_said(alloc, item)
    }

    // The type that an item says.
    fn type_said(&self, alloc: Global, item: &Item) -> Result<Option<Kind>, Stop<ShapeBreach>>
        ensures { Gives result (spec.type_said (page self.now.places) item.now) }
    {
        let iri = self.places.expanded(alloc, item, ShapeKind::NotDlLite)?;
        type_of(iri.as_str(), self.places.line(item))
    }
}

// Adds an IRI as a name of a kind, but for those in the namespaces of the standards.
fn declare(
    alloc: Global,
    vocab: &mut Vocabulary,
    kind: NameKind,
    iri: &str,
    line: u32,
) -> Result<Axiom, Stop<ShapeBreach>>
    ensures { Judges vocab.old (spec.declares (Some kind) iri.now line) vocab.new (λ given. given ≡ Nothing) result }
{
    if is_standard(iri.as_bytes()) {
        return Ok(Axiom::Nothing);
    }
    match vocab.add(alloc, kind, iri) {
        Ok(_) => Ok(Axiom::Nothing),
        Err(Stop::Named(AddRefusal::TwoKinds)) => Err(wrong(line, ShapeKind::TwoKinds)),
        Err(Stop::Named(AddRefusal::Full)) => Err(wrong(line, ShapeKind::Names)),
        Err(Stop::NoMemory) => Err(Stop::NoMemory),
    }
}

// The kind of the values of a type.
fn type_of(iri: &str, line: u32) -> Result<Option<Kind>, Stop<ShapeBreach>>
    ensures { Gives result (spec.type_of iri.now line) }
{
    if iri == "http://www.w3.org/2001/XMLSchema#string" {
        Ok(Some(Kind::Text))
    } else if iri == "http://www.w3.org/2001/XMLSchema#integer" {
        Ok(Some(Kind::Integer))
    } else if iri == "http://www.w3.org/2001/XMLSchema#date" {
        Ok(Some(Kind::Date))
    } else if iri == "http://www.w3.org/2000/01/rdf-schema#Literal" {
        Ok(None)
    } else {
        Err(wrong(line, ShapeKind::Datatype))
    }
}
