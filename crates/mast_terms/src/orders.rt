//! The laws of equality, order and hashing.
ghost use Rattle.std.specs.Cmp.Lexicographic.{slice_cmp};
ghost use Rattle.std.specs.Ordering.{nat_cmp};
ghost use Rattle.std.specs.Prelude.{IsUtf8};
ghost use Rattle.mast_terms.specs.Hashes.{FitsAlways, FitsName, FitsValue, FitsObject, FitsTerm, FitsList};
ghost use Rattle.mast_terms.specs.Hashes.{TellsApart, TellsLists};
ghost use Rattle.mast_terms.specs.Orders.{name_order, name_kind_order, kind_order, date_order, value_order};
ghost use Rattle.mast_terms.specs.Orders.{object_order, term_order, tuple_order, TestsEquality, ComparesBy, OrdersAll};

use crate::{Args, Date, Kind, List, Name, NameKind, Object, Term, Text, Value};
use std::hash::Hash;

/// Laws of names and of both kinds of kinds: `==` holds exactly of equal ones, `cmp` is their order, in which only
/// equal ones tie, and what a hasher is fed tells them apart.
pub fn names_are_ordered()
    ensures equality { TestsEquality ⟦<Name as PartialEq>⟧.eq }
    ensures compares { ComparesBy name_order ⟦<Name as Ord>⟧.cmp }
    ensures order { OrdersAll name_order }
    ensures name_kind_equality { TestsEquality ⟦<NameKind as PartialEq>⟧.eq }
    ensures name_kind_compares { ComparesBy name_kind_order ⟦<NameKind as Ord>⟧.cmp }
    ensures name_kind_order { OrdersAll name_kind_order }
    ensures kind_equality { TestsEquality ⟦<Kind as PartialEq>⟧.eq }
    ensures kind_compares { ComparesBy kind_order ⟦<Kind as Ord>⟧.cmp }
    ensures kind_order { OrdersAll kind_order }
    ensures hash { TellsApart FitsName ⟦<Name as Hash>⟧.hash_input }
    ensures name_kind_hash { TellsApart FitsAlways ⟦<NameKind as Hash>⟧.hash_input }
    ensures kind_hash { TellsApart FitsAlways ⟦<Kind as Hash>⟧.hash_input }
{}

/// Laws of lists whose elements have the laws: `==` holds exactly of equal ones, `cmp` goes by the first element that
/// differs, and what a hasher is fed tells them apart.
pub fn lists_are_ordered<T: Ord + Hash>()
    ensures equality { TestsEquality T.eq → TestsEquality ⟦<List<T> as PartialEq>⟧.eq }
    ensures compares { ComparesBy (slice_cmp T.cmp) ⟦<List<T> as Ord>⟧.cmp }
    ensures order { TestsEquality T.eq → OrdersAll (slice_cmp T.cmp) }
    ensures hash { TellsLists T.hash_input ⟦<List<T> as Hash>⟧.hash_input }
{}

/// Laws of terms and tuples, and of all that they are made of: objects and their arguments, values, texts and dates.
/// `==` holds exactly of equal ones, `cmp` is their order, in which only equal ones tie, and what a hasher is fed tells
/// them apart.
pub fn terms_are_ordered()
    ensures equality { TestsEquality ⟦<Term as PartialEq>⟧.eq }
    ensures compares { ComparesBy term_order ⟦<Term as Ord>⟧.cmp }
    ensures order { OrdersAll term_order }
    ensures object_equality { TestsEquality ⟦<Object as PartialEq>⟧.eq }
    ensures object_compares { ComparesBy object_order ⟦<Object as Ord>⟧.cmp }
    ensures object_order { OrdersAll object_order }
    ensures args_equality { TestsEquality ⟦<Args as PartialEq>⟧.eq }
    ensures args_compares { ComparesBy (slice_cmp value_order) ⟦<Args as Ord>⟧.cmp }
    ensures args_order { OrdersAll (slice_cmp value_order) }
    ensures value_equality { TestsEquality ⟦<Value as PartialEq>⟧.eq }
    ensures value_compares { ComparesBy value_order ⟦<Value as Ord>⟧.cmp }
    ensures value_order { OrdersAll value_order }
    ensures text_equality { TestsEquality ⟦<Text as PartialEq>⟧.eq }
    ensures text_compares { ComparesBy (slice_cmp nat_cmp) ⟦<Text as Ord>⟧.cmp }
    ensures text_order { OrdersAll (slice_cmp nat_cmp) }
    ensures date_equality { TestsEquality ⟦<Date as PartialEq>⟧.eq }
    ensures date_compares { ComparesBy date_order ⟦<Date as Ord>⟧.cmp }
    ensures date_order { OrdersAll date_order }
    ensures tuple_equality { TestsEquality ⟦<List<Term> as PartialEq>⟧.eq }
    ensures tuple_compares { ComparesBy tuple_order ⟦<List<Term> as Ord>⟧.cmp }
    ensures tuple_order { OrdersAll tuple_order }
    ensures hash { TellsApart FitsTerm ⟦<Term as Hash>⟧.hash_input }
    ensures object_hash { TellsApart FitsObject ⟦<Object as Hash>⟧.hash_input }
    ensures args_hash { TellsApart (FitsList FitsValue) ⟦<Args as Hash>⟧.hash_input }
    ensures value_hash { TellsApart FitsValue ⟦<Value as Hash>⟧.hash_input }
    ensures text_hash { TellsApart IsUtf8 ⟦<Text as Hash>⟧.hash_input }
    ensures date_hash { TellsApart FitsAlways ⟦<Date as Hash>⟧.hash_input }
    ensures tuple_hash { TellsApart (FitsList FitsTerm) ⟦<List<Term> as Hash>⟧.hash_input }
{}
