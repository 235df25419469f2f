//! Constraints: functionality, identifications and denials.
use crate::{Basic, Lined, Prop, RoleExpr};
use mast_cq::Atom;
use mast_terms::{List, Name, Vocabulary};

/// The greatest number of atoms of a denial, and of an identification's violation query.
pub const MOST_ATOMS: usize = 24;

/// A step of a path.
#[derive(Clone, Copy, Debug, PartialEq, Eq)]
pub enum Step {
    /// To a filler by the role or inverse role.
    Role(RoleExpr),
    /// It stays, at a member of the class.
    Test(Name),
    /// To a value of the attribute.
    Attr(Name),
}

/// A constraint.
#[derive(Debug, PartialEq, Eq, Drop)]
pub enum Constraint {
    /// A term has at most one filler or value by the property.
    Functional {
        prop: Prop,
    },
    /// Two different objects of the concept do not have a common end on every path.
    Identify {
        concept: Basic,
        paths: List<List<Step>>,
    },
    /// No assignment makes every atom true.
    Deny {
        atoms: List<Atom>,
    },
}

/// The constraints of a document in their order, with the names that they use.
#[derive(Drop)]
pub struct Constraints {
    /// The vocabulary, which begins with that of the ontology.
    pub vocab: Vocabulary,
    /// The constraints, each with its line.
    pub list: List<Lined<Constraint>>,
}
