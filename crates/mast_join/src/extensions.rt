//! The extensions of atoms over rows, and what queries have over them.
ghost use Rattle.std.specs.Prelude.{◌≡◌, ◌<◌, [], length, slice_get, get_or, Some, IfOk, OnOk};
ghost use Rattle.std.specs.List.{AllByRecursion};
ghost use Rattle.std.specs.Option.{option_copied, option_map};
ghost use Rattle.mast_cq.specs.Queries.{viewed};
ghost use Rattle.mast_canon.specs.Fitting.{Fits};
ghost use Rattle.mast_numbers.specs.Numbered.{HasOneEach, term_kind};
ghost use Rattle.mast_relations.specs.Matches.{IsFirst};
ghost use Rattle.mast_relations.specs.Stores.{HasAll, HasOnlyGained};
ghost use Rattle.mast_join.specs.Answers.{AreNumbersOf, HasInSlice, IsAsked, IsOverSame, IsReady, KeepsReady};
ghost use Rattle.mast_join.specs.Extensions.{over_of, unfolding_by};

use crate::base::Base;
use crate::ready::{Ready, made_ready};
use crate::store::Store;
use mast_canon::{RowId, Spec, Tables};
use mast_cq::CqRef;
use mast_numbers::Terms;
use mast_relations::{RowSet, Test};
use mast_terms::{Kind, List, NoMemory, Tuple};
use mast_unfold::Unfolder;
use std::alloc::Global;
use std::marker::Model;

/// What is wanted of queries.
#[derive(Clone, Copy, Debug, PartialEq, Eq)]
pub enum Wanted {
    /// Their tuples.
    Tuples,
    /// For each tuple a hit, with the rows that give it.
    SomeHits,
    /// All hits whose rows are least.
    AllHits,
}

/// The extensions of atoms over all rows of tables, or over some. Each is made once for all atoms that are the same up to the
/// names of their variables, when a query first asks for it. Terms and sets of rows have numbers, and rows of numbers stand for
/// answers.
#[derive(Drop)]
pub struct Extensions<'s, 'u, 't, 'o> {
    base: Base<'s, 'u, 't, 'o>,
    store: Store,
}

impl<'s, 'u, 't, 'o> Model for Extensions<'s, 'u, 't, 'o> {
    ghost use Rattle.mast_join.specs.Answers.{Extended};
    ghost use Rattle.mast_join.specs.inside.Keeping.{IsKept, extended};

    ghost Value = { Extended };

    ghost view = { λ e. extended e.base e.store };

    ghost invariant = { λ e. IsKept e.base e.store };
}

// The terms of numbers.
fn terms_of(alloc: Global, all: &Terms, numbers: &[u32]) -> Result<Tuple, NoMemory>
    requires { AllByRecursion (λ number. number < length all.now.terms) numbers.now }
    ensures { IfOk result (AreNumbersOf all.now.terms numbers.now) }
{
    let mut terms = List::new(alloc);
    for number in numbers {
        terms.push(alloc, all.term(alloc, *number)?)?;
    }
    Ok(terms)
}

impl<'s, 'u, 't, 'o> Extensions<'s, 'u, 't, 'o> {
    /// No extension yet: over the rows of these tables, or over those that are given, by the inclusions and maps of the
    /// specification. The unfolder is that of the specification.
    pub fn new(
        alloc: Global,
        spec: &'s Spec,
        unfolder: &'u Unfolder<'s>,
        tables: &'t Tables,
        only: Option<&'o [RowId]>,
        wanted: Wanted,
    ) -> Extensions<'s, 'u, 't, 'o>
        requires unfolder { unfolder.now ≡ unfolding_by spec.now }
        requires fits { Fits spec.now.tables tables.now.list }
        ensures over { result.over ≡ over_of spec.now tables.now.list (option_copied only.entry) }
        ensures wanted { result.wanted ≡ wanted }
    {
        Extensions {
            base: Base {
                spec,
                unfolder,
                tables,
                only,
                wanted,
            },
            store: Store::new(alloc),
        }
    }

    /// Makes a query ready: the extensions of its atoms that aren't there yet, and the plan of their join. It takes its constants
    /// and names as they stand in the specification's vocabulary; a name without maps has no facts. What was ready stays so,
    /// also where memory is wanting.
    pub fn ready<'q>(&mut self, alloc: Global, query: CqRef<'q>) -> Result<Ready<'q>, NoMemory>
        requires { IsAsked (length self.old.over.sources.vocab.constants) (viewed query) }
        ensures query { IfOk result (λ ready. viewed ready.query ≡ viewed query.entry) }
        ensures ready { IfOk result (IsReady self.new) }
        ensures kept { KeepsReady self.old self.new }
        ensures over { IsOverSame self.old self.new }
    {
        made_ready(alloc, &self.base, &mut self.store, query)
    }

    /// Puts the rows of numbers that the join gives of a slice, each once. For want of memory only some of them may be there.
    pub fn answers(
        &self,
        alloc: Global,
        ready: &Ready<'_>,
        from: u32,
        to: u32,
        found: &mut RowSet,
    ) -> Result<(), NoMemory>
        requires ready { IsReady self.now ready.now }
        requires wide { found.old.width ≡ length ready.now.plan.query.answer }
        ensures gained { HasOnlyGained (HasInSlice self.now ready.now from to) found.old found.new }
        ensures all { OnOk result (HasAll (HasInSlice self.now ready.now from to) found.new) }
    {
        self.store
            .relations
            .answers(alloc, &ready.plan, from, to, found)
    }

    /// A row of numbers that the join gives of a slice and that passes the test, and none only where none does. It looks no
    /// further than the first.
    pub fn first<T: Test>(
        &self,
        alloc: Global,
        ready: &Ready<'_>,
        from: u32,
        to: u32,
        test: &T,
    ) -> Result<Option<List<u32>>, NoMemory>
        requires { IsReady self.now ready.now }
        ensures { IfOk result (IsFirst (HasInSlice self.now ready.now from to) (T.passes test.now)) }
    {
        self.store
            .relations
            .first(alloc, &ready.plan, from, to, test)
    }

    /// The terms of numbers.
    pub fn tuple(&self, alloc: Global, numbers: &[u32]) -> Result<Tuple, NoMemory>
        requires { AllByRecursion (λ number. number < length self.now.numbered.terms) numbers.now }
        ensures { IfOk result (AreNumbersOf self.now.numbered.terms numbers.now) }
    {
        terms_of(alloc, &self.store.pool.terms, numbers)
    }

    /// The rows of the set of a number.
    pub fn set(&self, number: u32) -> &[RowId]
        requires { number < length self.now.sets }
        ensures { result.now ≡ get_or self.now.sets number [] }
    {
        self.store.pool.sets[number as usize].as_slice()
    }

    /// The kind of a number's term, where it is a value.
    pub fn kind(&self, number: u32) -> Option<Kind>
        requires { number < length self.now.numbered.terms }
        ensures { option_map term_kind (slice_get self.now.numbered.terms number) ≡ Some result }
    {
        self.store.pool.terms.kind(number)
    }

    /// How many terms have numbers; none has two.
    pub fn count(&self) -> usize
        ensures count { result ≡ length self.now.numbered.terms }
        ensures once { HasOneEach self.now.numbered }
    {
        self.store.pool.terms.len()
    }
}
