//! Queries, owned and lent.
ghost use Rattle.std.specs.Prelude.{◌≡◌, true, ◌↔◌};
ghost use Rattle.mast_terms.specs.Hashes.{TellsApart};
ghost use Rattle.mast_terms.specs.Orders.{OrdersAll};
ghost use Rattle.mast_cq.specs.Hashes.{FitsQuery, TellsViews, FeedsContents};
ghost use Rattle.mast_cq.specs.Queries.{viewed, query_order, TestsContents};
ghost use Rattle.mast_cq.specs.declared.query.Cq.{Cq};
ghost use Rattle.mast_cq.specs.declared.query.CqRef.{CqRef};

use crate::atom::{arg_laws, atom_laws};
use crate::{Arg, Atom};
use mast_terms::List;
use std::hash::Hash;

/// A conjunctive query: an answer list and atoms.
#[derive(Debug, PartialEq, Eq, PartialOrd, Ord, Hash, Drop)]
pub struct Cq {
    /// What an answer is a tuple of.
    pub answer: List<Arg>,
    /// What an answer meets, each of these.
    pub atoms: List<Atom>,
}

/// A query whose lists are lent. Two are equal exactly where the lists have the same elements.
#[derive(Clone, Copy, Debug, PartialEq, Eq, PartialOrd, Ord, Hash)]
pub struct CqRef<'a> {
    /// What an answer is a tuple of.
    pub answer: &'a [Arg],
    /// What an answer meets, each of these.
    pub atoms: &'a [Atom],
}

/// A union of conjunctive queries.
pub type Ucq = List<Cq>;

/// Two queries are equal exactly where they have the same contents, and their order is that of their contents: a total
/// one, in which only equal ones tie. A hasher is fed each so that it is told from every other.
pub fn query_laws()
    ensures equal { (q r : Cq) → (⟦<Cq as PartialEq>⟧.eq q r ≡ true) ↔ (q ≡ r) }
    ensures order { (q r : Cq) → ⟦<Cq as Ord>⟧.cmp q r ≡ query_order q r }
    ensures total { OrdersAll query_order }
    ensures hash { TellsApart FitsQuery ⟦<Cq as Hash>⟧.hash_input }
{
    arg_laws();
    atom_laws();
}

/// Two views are equal exactly where their contents are equal, and their order is that of their contents. A hasher is fed
/// of a view what it is fed of its contents: so the same of two views exactly where their contents are equal.
pub fn view_laws()
    ensures equal { TestsContents ⟦<CqRef<'static> as PartialEq>⟧.eq }
    ensures order { (q r : CqRef) → ⟦<CqRef<'static> as Ord>⟧.cmp q r ≡ query_order (viewed q) (viewed r) }
    ensures feeds { FeedsContents ⟦<Cq as Hash>⟧.hash_input ⟦<CqRef<'static> as Hash>⟧.hash_input }
    ensures hash { TellsViews ⟦<CqRef<'static> as Hash>⟧.hash_input }
{
    arg_laws();
    atom_laws();
}
