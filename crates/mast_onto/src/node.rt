//! What stands among the axioms, as a form with the items in its places.
ghost use Rattle.std.specs.Prelude.{◌≡◌, length};
ghost use Rattle.mast_tree.specs.Pages.{says};
ghost use Rattle.mast_expressions.specs.Reads.{page};
ghost use Rattle.mast_onto.specs.Forms.{fits};
ghost use Rattle.mast_onto.specs.Nodes as spec;
ghost use Rattle.mast_onto.specs.inside.Shown.{shown_axiom};

use crate::form::{Form, Place, Relation, form_of};
use crate::reader::Reader;
use mast_terms::NameKind;
use mast_tree::{Item, Layer, ShapeKind};

/// The form of an axiom, with the items in its places.
#[derive(Clone, Copy)]
pub(crate) enum AxiomForm<'i> {
    /// It says nothing.
    Nothing,
    /// A declared IRI, of a kind of names or of none that counts.
    Declared(Option<NameKind>, &'i Item),
    /// A list of items in a place, and what is said of them.
    Listed(Place, Relation, &'i [Item]),
    /// An item in a place, whose subjects, or those of its inverse, are below a right side.
    Below(Place, bool, &'i Item, &'i Item),
    /// An attribute and the type of its values.
    Range(&'i Item, &'i Item),
    /// A breach at a line, whatever the names.
    Wrong(ShapeKind, u32),
}

impl<'d> Reader<'d> {
    /// The form of what stands among the axioms.
    pub(crate) fn axiom_form<'i>(&self, item: &'i Item) -> AxiomForm<'i>
        ensures { shown_axiom result ≡ spec.axiom_form (page self.now.places) item.now }
    {
        match self.places.doc.layer(item) {
            Layer::Node { word, line, items } => {
                self.node_form(form_of(word), line, self.behind_annotations(items))
            }
            _ => AxiomForm::Wrong(ShapeKind::Shape, self.places.line(item)),
        }
    }

    // The items behind the annotations at the front.
    fn behind_annotations<'i>(&self, items: &'i [Item]) -> &'i [Item]
        ensures { result.now ≡ spec.behind_annotations (page self.now.places) items.now }
    {
        for (at, item) in items.iter().enumerate() {
            if !self.is_annotation(item) {
                return &items[at..];
            }
        }
        &items[items.len()..]
    }

    // Whether an item is an `Annotation` node.
    fn is_annotation(&self, item: &Item) -> bool
        ensures { result ≡ spec.is_annotation (says (page self.now.places) item.now) }
    {
        match self.places.doc.layer(item) {
            Layer::Node { word, .. } => word == "Annotation",
            _ => false,
        }
    }

    // A node among the axioms, by its form and the items behind its annotations.
    fn node_form<'i>(&self, form: Form, line: u32, items: &'i [Item]) -> AxiomForm<'i>
        ensures { shown_axiom result ≡ spec.node_form (page self.now.places) form line items.now }
    {
        match form {
            Form::Skipped => AxiomForm::Nothing,
            Form::Assertion => AxiomForm::Wrong(ShapeKind::AssertionHere, line),
            Form::Declaration => self.declaration(line, items),
            Form::Listed(place, relation) => list_of(place, relation, line, items),
            Form::Below(place, turned) => below_two(place, turned, line, items),
            Form::AttrRange => range_two(line, items),
            Form::Other => AxiomForm::Wrong(ShapeKind::NotDlLite, line),
        }
    }

    // What stands in a declaration at a line: a node.
    fn declaration<'i>(&self, line: u32, items: &'i [Item]) -> AxiomForm<'i>
        ensures { shown_axiom result ≡ spec.declaration (page self.now.places) line items.now }
    {
        match items {
            [only] => self.declared(only),
            _ => AxiomForm::Wrong(ShapeKind::Shape, line),
        }
    }

    // The one item of a declaration.
    fn declared<'i>(&self, item: &'i Item) -> AxiomForm<'i>
        ensures { shown_axiom result ≡ spec.declared_said (says (page self.now.places) item.now) }
    {
        match self.places.doc.layer(item) {
            Layer::Node { word, line, items } => declared_node(word, line, items),
            _ => AxiomForm::Wrong(ShapeKind::Shape, self.places.line(item)),
        }
    }
}

// The node of a declaration.
fn declared_node<'i>(word: &str, line: u32, items: &'i [Item]) -> AxiomForm<'i>
    ensures { shown_axiom result ≡ spec.declared_node (spec.declared_kind word.now) word.now line items.now }
{
    match declared_kind(word) {
        Some(kind) => declared_one(Some(kind), line, items),
        None => {
            if declares_nothing(word) {
                declared_one(None, line, items)
            } else {
                AxiomForm::Wrong(ShapeKind::NotDlLite, line)
            }
        }
    }
}

// The nodes of a declaration that add a name.
fn declared_kind(word: &str) -> Option<NameKind>
    ensures { result ≡ spec.declared_kind word.now }
{
    if word == "Class" {
        Some(NameKind::Class)
    } else if word == "ObjectProperty" {
        Some(NameKind::Role)
    } else if word == "DataProperty" {
        Some(NameKind::Attr)
    } else {
        None
    }
}

// One IRI in the node of a declaration at a line.
fn declared_one<'i>(kind: Option<NameKind>, line: u32, items: &'i [Item]) -> AxiomForm<'i>
    ensures { shown_axiom result ≡ spec.declared_one kind line items.now }
{
    match items {
        [only] => AxiomForm::Declared(kind, only),
        _ => AxiomForm::Wrong(ShapeKind::Shape, line),
    }
}

// Those that add none.
fn declares_nothing(word: &str) -> bool
    ensures { result ≡ spec.declares_nothing word.now }
{
    word == "AnnotationProperty" || word == "Datatype" || word == "NamedIndividual"
}

// A list of the length that is wanted.
fn list_of<'i>(place: Place, relation: Relation, line: u32, items: &'i [Item]) -> AxiomForm<'i>
    ensures { shown_axiom result ≡ spec.list_of (fits relation (length items.now)) place relation line items.now }
{
    if relation.fits(items.len()) {
        AxiomForm::Listed(place, relation, items)
    } else {
        AxiomForm::Wrong(ShapeKind::Shape, line)
    }
}

// An item and a right side.
fn below_two<'i>(place: Place, turned: bool, line: u32, items: &'i [Item]) -> AxiomForm<'i>
    ensures { shown_axiom result ≡ spec.below_two place turned line items.now }
{
    match items {
        [sub, sup] => AxiomForm::Below(place, turned, sub, sup),
        _ => AxiomForm::Wrong(ShapeKind::Shape, line),
    }
}

// An attribute and a type.
fn range_two<'i>(line: u32, items: &'i [Item]) -> AxiomForm<'i>
    ensures { shown_axiom result ≡ spec.range_two line items.now }
{
    match items {
        [attr, of_type] => AxiomForm::Range(attr, of_type),
        _ => AxiomForm::Wrong(ShapeKind::Shape, line),
    }
}
