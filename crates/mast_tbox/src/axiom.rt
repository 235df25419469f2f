//! The axioms of an ontology, as inclusions and negatives.
use crate::{Basic, RoleExpr};
use mast_terms::{Kind, Name};

/// An inclusion, or the range of an attribute.
#[derive(Clone, Copy, Debug, PartialEq, Eq)]
pub enum Inclusion {
    /// The concept is below the class.
    Class {
        sub: Basic,
        sup: Name,
    },
    /// What is in the concept has a filler by the role, which is in the class `end` if there is one. `k` is its number.
    Exists {
        sub: Basic,
        role: RoleExpr,
        end: Option<Name>,
        k: u32,
    },
    /// What is in the concept has a value by the attribute. `k` is its number.
    HasValue {
        sub: Basic,
        attr: Name,
        k: u32,
    },
    /// Each pair of the first is one of the second.
    Role {
        sub: RoleExpr,
        sup: RoleExpr,
    },
    /// Each pair of the first is one of the second.
    Attr {
        sub: Name,
        sup: Name,
    },
    /// Each value of the attribute is of the kind.
    Range {
        attr: Name,
        kind: Kind,
    },
}

/// What has no member in common, or no pair `P(t,t)`.
#[derive(Clone, Copy, Debug, PartialEq, Eq)]
pub enum Negative {
    /// No term is in both.
    Concepts { left: Basic, right: Basic },
    /// No pair is one of both.
    Roles { left: RoleExpr, right: RoleExpr },
    /// No pair is one of both.
    Attrs { left: Name, right: Name },
    /// No term is related to itself.
    Irreflexive { role: Name },
}

/// An item with the line of its axiom or constraint.
#[derive(Clone, Copy, Debug, PartialEq, Eq, Drop)]
pub struct Lined<T> {
    /// The line, from 1.
    pub line: u32,
    /// What stands there.
    pub item: T,
}
