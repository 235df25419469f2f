//! What axioms speak of: roles and their inverses, basic concepts, and properties.
ghost use Rattle.std.specs.Prelude.{◌≡◌, true, ◌↔◌};
ghost use Rattle.mast_terms.specs.Hashes.{TellsApart};
ghost use Rattle.mast_tbox.specs.Hashes.{FitsBasic, FitsProp};
ghost use Rattle.mast_tbox.specs.Expressions.{inverse_role as inverse_role_of, inverse as inverse_of, at as at_of, pair as pair_of, same_basic, same_prop};
ghost use Rattle.mast_tbox.specs.declared.expression.Basic.{Basic};
ghost use Rattle.mast_tbox.specs.declared.expression.Prop.{Prop};

use mast_cq::{Arg, Atom};
use mast_terms::Name;
use std::hash::Hash;

/// A role or the inverse of a role.
#[derive(Clone, Copy, Debug, PartialEq, Eq, Hash)]
pub enum RoleExpr {
    /// The role of this name.
    Direct(Name),
    /// Its inverse, whose pairs are those of the role with their places changed.
    Inverse(Name),
}

/// A basic concept.
#[derive(Clone, Copy, Debug, PartialEq, Eq, Hash)]
pub enum Basic {
    /// The class of this name.
    Class(Name),
    /// What has a filler by the role or inverse role.
    Some(RoleExpr),
    /// What has a value by the attribute.
    Subjects(Name),
}

/// A property: a role, the inverse of a role, or an attribute.
#[derive(Clone, Copy, Debug, PartialEq, Eq, Hash)]
pub enum Prop {
    /// A role or its inverse.
    Role(RoleExpr),
    /// An attribute.
    Attr(Name),
}

impl RoleExpr {
    /// The inverse; that of an inverse is the role.
    pub fn inverse(self) -> RoleExpr
        ensures { result ≡ inverse_role_of self }
    {
        match self {
            RoleExpr::Direct(name) => RoleExpr::Inverse(name),
            RoleExpr::Inverse(name) => RoleExpr::Direct(name),
        }
    }
}

impl Prop {
    /// The inverse; an attribute stands for its own.
    pub fn inverse(self) -> Prop
        ensures { result ≡ inverse_of self }
    {
        match self {
            Prop::Role(role) => Prop::Role(role.inverse()),
            Prop::Attr(name) => Prop::Attr(name),
        }
    }

    /// The atom that the first argument and the second are a pair of the property.
    pub fn pair(self, from: Arg, to: Arg) -> Atom
        ensures { result ≡ pair_of self from to }
    {
        match self {
            Prop::Role(RoleExpr::Direct(name)) => Atom::Role { name, from, to },
            Prop::Role(RoleExpr::Inverse(name)) => Atom::Role {
                name,
                from: to,
                to: from,
            },
            Prop::Attr(name) => Atom::Attr {
                name,
                from,
                value: to,
            },
        }
    }
}

impl Basic {
    /// The atom that the argument is in the concept.
    pub fn at(self, arg: Arg) -> Atom
        ensures { result ≡ at_of self arg }
    {
        match self {
            Basic::Class(name) => Atom::Class { name, arg },
            Basic::Some(role) => Prop::Role(role).pair(arg, Arg::Blank),
            Basic::Subjects(name) => Prop::Attr(name).pair(arg, Arg::Blank),
        }
    }
}

/// `==` holds exactly of equal basic concepts, and what a hasher is fed tells each from every other.
pub fn basic_laws()
    ensures test { (b c : Basic) → ⟦<Basic as PartialEq>⟧.eq b c ≡ same_basic b c }
    ensures equal { (b c : Basic) → (same_basic b c ≡ true) ↔ (b ≡ c) }
    ensures hash { TellsApart FitsBasic ⟦<Basic as Hash>⟧.hash_input }
{}

/// `==` holds exactly of equal properties, and what a hasher is fed tells each from every other.
pub fn prop_laws()
    ensures test { (p q : Prop) → ⟦<Prop as PartialEq>⟧.eq p q ≡ same_prop p q }
    ensures equal { (p q : Prop) → (same_prop p q ≡ true) ↔ (p ≡ q) }
    ensures hash { TellsApart FitsProp ⟦<Prop as Hash>⟧.hash_input }
{}
