//! What an axiom's word says: which places it has, and what it says of them.
ghost use Rattle.std.specs.Prelude.{◌≡◌};
ghost use Rattle.mast_onto.specs.Forms as spec;

/// The form of a node among the axioms.
#[derive(Clone, Copy, Debug, PartialEq, Eq)]
pub enum Form {
    /// An annotation, which is skipped unjudged.
    Skipped,
    /// An assertion, which stands in no ontology of this profile.
    Assertion,
    /// A declaration of a name.
    Declaration,
    /// A list of expressions, and what is said of them.
    Listed(Place, Relation),
    /// An expression, or its inverse where that is meant, whose subjects are below a right side.
    Below(Place, bool),
    /// An attribute and the type of its values.
    AttrRange,
    /// No form of this profile.
    Other,
}

/// What may stand in a place.
#[derive(Clone, Copy, Debug, PartialEq, Eq)]
pub enum Place {
    /// A class, `ObjectSomeValuesFrom(Role owl:Thing)` or `DataSomeValuesFrom(Attr rdfs:Literal)`.
    Left,
    /// A role, or `ObjectInverseOf` of one.
    Role,
    /// An attribute.
    Attr,
}

/// What an axiom says of the expressions in its list.
#[derive(Clone, Copy, Debug, PartialEq, Eq)]
pub enum Relation {
    /// The first of two is in the second.
    In,
    /// Each of two is in the inverse of the other.
    Inverses,
    /// Two or more are equivalent.
    Equivalent,
    /// Each two of two or more have nothing in common.
    Disjoint,
    /// One is in its inverse.
    Symmetric,
    /// One and its inverse have nothing in common.
    Asymmetric,
    /// One has no pair of a term with itself.
    Irreflexive,
    /// One is functional.
    Functional,
    /// The inverse of one is functional.
    InverseFunctional,
}

/// The form of a node by its word.
pub(crate) fn form_of(word: &str) -> Form
    ensures { result ≡ spec.form_of word.now }
{
    if is_skipped(word) {
        Form::Skipped
    } else if is_assertion(word) {
        Form::Assertion
    } else if word == "Declaration" {
        Form::Declaration
    } else if word == "SubClassOf" {
        Form::Below(Place::Left, false)
    } else if word == "EquivalentClasses" {
        Form::Listed(Place::Left, Relation::Equivalent)
    } else if word == "DisjointClasses" {
        Form::Listed(Place::Left, Relation::Disjoint)
    } else {
        roles_form(word)
    }
}

// Annotations, which are skipped.
fn is_skipped(word: &str) -> bool
    ensures { result ≡ spec.is_skipped word.now }
{
    word == "Annotation"
        || word == "AnnotationAssertion"
        || word == "SubAnnotationPropertyOf"
        || word == "AnnotationPropertyDomain"
        || word == "AnnotationPropertyRange"
}

// Assertions.
fn is_assertion(word: &str) -> bool
    ensures { result ≡ spec.is_assertion word.now }
{
    word == "ClassAssertion"
        || word == "ObjectPropertyAssertion"
        || word == "DataPropertyAssertion"
        || word == "NegativeObjectPropertyAssertion"
        || word == "NegativeDataPropertyAssertion"
        || word == "SameIndividual"
        || word == "DifferentIndividuals"
}

// Axioms between roles, and of what they lead from and to.
fn roles_form(word: &str) -> Form
    ensures { result ≡ spec.roles_form word.now }
{
    if word == "SubObjectPropertyOf" {
        Form::Listed(Place::Role, Relation::In)
    } else if word == "EquivalentObjectProperties" {
        Form::Listed(Place::Role, Relation::Equivalent)
    } else if word == "InverseObjectProperties" {
        Form::Listed(Place::Role, Relation::Inverses)
    } else if word == "DisjointObjectProperties" {
        Form::Listed(Place::Role, Relation::Disjoint)
    } else if word == "ObjectPropertyDomain" {
        Form::Below(Place::Role, false)
    } else if word == "ObjectPropertyRange" {
        Form::Below(Place::Role, true)
    } else {
        role_form(word)
    }
}

// Axioms of what one role is.
fn role_form(word: &str) -> Form
    ensures { result ≡ spec.role_form word.now }
{
    if word == "SymmetricObjectProperty" {
        Form::Listed(Place::Role, Relation::Symmetric)
    } else if word == "AsymmetricObjectProperty" {
        Form::Listed(Place::Role, Relation::Asymmetric)
    } else if word == "IrreflexiveObjectProperty" {
        Form::Listed(Place::Role, Relation::Irreflexive)
    } else if word == "FunctionalObjectProperty" {
        Form::Listed(Place::Role, Relation::Functional)
    } else if word == "InverseFunctionalObjectProperty" {
        Form::Listed(Place::Role, Relation::InverseFunctional)
    } else {
        attr_form(word)
    }
}

// Axioms of attributes.
fn attr_form(word: &str) -> Form
    ensures { result ≡ spec.attr_form word.now }
{
    if word == "SubDataPropertyOf" {
        Form::Listed(Place::Attr, Relation::In)
    } else if word == "EquivalentDataProperties" {
        Form::Listed(Place::Attr, Relation::Equivalent)
    } else if word == "DisjointDataProperties" {
        Form::Listed(Place::Attr, Relation::Disjoint)
    } else if word == "DataPropertyDomain" {
        Form::Below(Place::Attr, false)
    } else if word == "DataPropertyRange" {
        Form::AttrRange
    } else if word == "FunctionalDataProperty" {
        Form::Listed(Place::Attr, Relation::Functional)
    } else {
        Form::Other
    }
}

impl Relation {
    /// Whether a list of this length may be said to be so.
    pub(crate) fn fits(self, count: usize) -> bool
        ensures { result ≡ spec.fits self count }
    {
        match self {
            Relation::In => count == 2,
            Relation::Inverses => count == 2,
            Relation::Equivalent => count >= 2,
            Relation::Disjoint => count >= 2,
            Relation::Symmetric => count == 1,
            Relation::Asymmetric => count == 1,
            Relation::Irreflexive => count == 1,
            Relation::Functional => count == 1,
            Relation::InverseFunctional => count == 1,
        }
    }
}
