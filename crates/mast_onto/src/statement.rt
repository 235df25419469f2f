//! What axioms are made of, and what they state.
ghost use Rattle.std.specs.Prelude.{◌≡◌};
ghost use Rattle.std.specs.Option.{option_to_list};
ghost use Rattle.mast_onto.specs.Stated as spec;

use crate::form::Relation;
use mast_tbox::{Basic, Inclusion, Negative, Prop, RoleExpr, basic_laws};
use mast_terms::{Kind, List, Name};

/// What stands in a place: a basic concept, a role or its inverse, or an attribute.
#[derive(Clone, Copy, Debug, PartialEq, Eq)]
pub enum Expression {
    Concept(Basic),
    Role(RoleExpr),
    Attr(Name),
}

/// A part of a right side.
#[derive(Clone, Copy, Debug, PartialEq, Eq)]
pub enum Part {
    /// Everything, below which each concept is.
    Thing,
    /// A basic concept.
    Basic(Basic),
    /// What has a filler by the role that is in the class.
    Qualified { role: RoleExpr, end: Name },
    /// What is not in the basic concept.
    Complement(Basic),
}

/// An axiom as it is read.
#[derive(Debug, Drop)]
pub enum Axiom {
    /// An annotation or a declaration, which states nothing.
    Nothing,
    /// A list of expressions, and what is said of them.
    Listed {
        relation: Relation,
        members: List<Expression>,
    },
    /// A basic concept below each part of a right side.
    Below {
        sub: Basic,
        parts: List<Part>,
    },
    /// The kind of an attribute's values, if they are of one.
    Range {
        attr: Name,
        kind: Option<Kind>,
    },
}

/// What an axiom states: an inclusion or a range, a negative, or that a property is functional.
#[derive(Clone, Copy, Debug, PartialEq, Eq)]
pub enum Statement {
    Inclusion(Inclusion),
    Negative(Negative),
    Functional(Prop),
}

impl Expression {
    /// The inverse of a role. Any other expression stands for itself.
    pub(crate) fn inverse(self) -> Expression
        ensures { result ≡ spec.inverse_of self }
    {
        match self {
            Expression::Concept(basic) => Expression::Concept(basic),
            Expression::Role(role) => Expression::Role(role.inverse()),
            Expression::Attr(name) => Expression::Attr(name),
        }
    }

    /// The concept of a place: itself, or what has a filler or a value by the property.
    pub(crate) fn subjects(self) -> Basic
        ensures { result ≡ spec.subjects_of self }
    {
        match self {
            Expression::Concept(basic) => basic,
            Expression::Role(role) => Basic::Some(role),
            Expression::Attr(name) => Basic::Subjects(name),
        }
    }

    // Whether two are the same.
    pub(crate) fn is_same(self, other: Expression) -> bool
        ensures { result ≡ spec.same self other }
    {
        basic_laws();
        match self {
            Expression::Concept(left) => match other {
                Expression::Concept(right) => left == right,
                Expression::Role(_) => false,
                Expression::Attr(_) => false,
            },
            Expression::Role(left) => match other {
                Expression::Concept(_) => false,
                Expression::Role(right) => Basic::Some(left) == Basic::Some(right),
                Expression::Attr(_) => false,
            },
            Expression::Attr(left) => match other {
                Expression::Concept(_) => false,
                Expression::Role(_) => false,
                Expression::Attr(right) => left.0 == right.0,
            },
        }
    }

    // That the one is in the other.
    pub(crate) fn stated_in(self, other: Expression) -> Option<Statement>
        ensures { option_to_list result ≡ spec.stated_in self other }
    {
        match self {
            Expression::Concept(left) => match other {
                Expression::Concept(right) => Some(Statement::Inclusion(basic_in(left, right))),
                Expression::Role(_) => None,
                Expression::Attr(_) => None,
            },
            Expression::Role(sub) => match other {
                Expression::Concept(_) => None,
                Expression::Role(sup) => Some(Statement::Inclusion(Inclusion::Role { sub, sup })),
                Expression::Attr(_) => None,
            },
            Expression::Attr(sub) => match other {
                Expression::Concept(_) => None,
                Expression::Role(_) => None,
                Expression::Attr(sup) => Some(Statement::Inclusion(Inclusion::Attr { sub, sup })),
            },
        }
    }

    // That the two have nothing in common.
    pub(crate) fn apart(self, other: Expression) -> Option<Statement>
        ensures { option_to_list result ≡ spec.stated_apart self other }
    {
        match self {
            Expression::Concept(left) => match other {
                Expression::Concept(right) => {
                    Some(Statement::Negative(Negative::Concepts { left, right }))
                }
                Expression::Role(_) => None,
                Expression::Attr(_) => None,
            },
            Expression::Role(left) => match other {
                Expression::Concept(_) => None,
                Expression::Role(right) => {
                    Some(Statement::Negative(Negative::Roles { left, right }))
                }
                Expression::Attr(_) => None,
            },
            Expression::Attr(left) => match other {
                Expression::Concept(_) => None,
                Expression::Role(_) => None,
                Expression::Attr(right) => {
                    Some(Statement::Negative(Negative::Attrs { left, right }))
                }
            },
        }
    }

    // That the role has no pair of a term with itself.
    pub(crate) fn irreflexive(self) -> Option<Statement>
        ensures { option_to_list result ≡ spec.stated_irreflexive self }
    {
        match self {
            Expression::Concept(_) => None,
            Expression::Role(RoleExpr::Direct(role)) => {
                Some(Statement::Negative(Negative::Irreflexive { role }))
            }
            Expression::Role(RoleExpr::Inverse(role)) => {
                Some(Statement::Negative(Negative::Irreflexive { role }))
            }
            Expression::Attr(_) => None,
        }
    }

    // That the property is functional.
    pub(crate) fn functional(self) -> Option<Statement>
        ensures { option_to_list result ≡ spec.stated_functional self }
    {
        match self {
            Expression::Concept(_) => None,
            Expression::Role(role) => Some(Statement::Functional(Prop::Role(role))),
            Expression::Attr(name) => Some(Statement::Functional(Prop::Attr(name))),
        }
    }
}

// That the one concept is in the other, before it is numbered.
fn basic_in(sub: Basic, sup: Basic) -> Inclusion
    ensures { result ≡ spec.basic_in sub sup }
{
    match sup {
        Basic::Class(sup) => Inclusion::Class { sub, sup },
        Basic::Some(role) => Inclusion::Exists {
            sub,
            role,
            end: None,
            k: 0,
        },
        Basic::Subjects(attr) => Inclusion::HasValue { sub, attr, k: 0 },
    }
}

// That the one concept is in the other, if it is another.
fn basic_below(sub: Basic, sup: Basic) -> Option<Statement>
    ensures { option_to_list result ≡ spec.basic_below sub sup }
{
    basic_laws();
    if sub == sup {
        None
    } else {
        Some(Statement::Inclusion(basic_in(sub, sup)))
    }
}

impl Part {
    // That a concept is below the part.
    pub(crate) fn stated_above(self, sub: Basic) -> Option<Statement>
        ensures { option_to_list result ≡ spec.stated_below sub self }
    {
        match self {
            Part::Thing => None,
            Part::Basic(sup) => basic_below(sub, sup),
            Part::Qualified { role, end } => Some(Statement::Inclusion(Inclusion::Exists {
                sub,
                role,
                end: Some(end),
                k: 0,
            })),
            Part::Complement(right) => {
                Some(Statement::Negative(Negative::Concepts { left: sub, right }))
            }
        }
    }
}
