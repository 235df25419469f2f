//! The steps from one member of a closure, and how the set of members grows by them.
ghost use Rattle.std.specs.Prelude.{◌≡◌, ◌≢◌, ◌<◌, ◌≤◌, ◌∷◌, ◌++◌, [], if◌then◌else◌, nat_eq, ◌||◌, map, length, Contains, Some, slice_get, IfOk, OnOk, IfErr};
ghost use Rattle.indexmap.specs.IndexSet.{index_set_len};
ghost use Rattle.mast_cq.specs.ListPlaces.{leave_out};
ghost use Rattle.mast_cq.specs.Meetings.{replacement_of};
ghost use Rattle.mast_cq.specs.Queries.{viewed};
ghost use Rattle.mast_cq.specs.Steps.{stepped as stepped_by};
ghost use Rattle.mast_cq.specs.Unification.{replace_arg, replace};
ghost use Rattle.mast_cq.specs.declared.query.Cq.{Cq};
ghost use Rattle.mast_rewrite.specs.Closures.{ClosureStep};
ghost use Rattle.mast_rewrite.specs.Rewritings.{most};
ghost use Rattle.mast_rewrite.specs.inside.Growing.{Within, Grown, IsOver, IsAfter, StepsBefore};
ghost use Rattle.mast_rewrite.specs.inside.Marks.{marked_of};
ghost use Rattle.mast_rewrite.specs.inside.MeetingLists.{met_value};
ghost use Rattle.mast_rewrite.specs.inside.Memos.{IsMemo};

use crate::memo::Memo;
use crate::pair::{Marked, Pair};
use crate::rewriting::TooMany;
use bumpalo::Bump;
use indexmap::IndexSet;
use mast_cq::{Arg, Atom, Bindings, Cq, CqRef, Met, norm, view_laws};
use mast_tbox::NormalTBox;
use mast_terms::{List, NoMemory, Stop};
use std::alloc::Global;

/// How many members a closure may have.
pub const MOST_MEMBERS: usize = 200_000;

/// A query, lent.
pub(crate) fn view<'q>(query: &'q Cq) -> CqRef<'q>
    ensures { viewed result ≡ query.now }
{
    CqRef {
        answer: query.answer.as_slice(),
        atoms: query.atoms.as_slice(),
    }
}

/// Adds a query, if it is not there yet. Only then it is placed in the arena.
pub(crate) fn add<'a>(
    arena: &'a Bump,
    set: &mut IndexSet<CqRef<'a>>,
    query: CqRef,
) -> Result<(), Stop<TooMany>>
    requires { index_set_len set.old ≤ most }
    ensures within { Within (λ m. m ≡ viewed query.entry) (map viewed set.old.keys) (map viewed set.new.keys) }
    ensures grown { OnOk result (Grown (λ m. m ≡ viewed query.entry) (map viewed set.old.keys) (map viewed set.new.keys)) }
    ensures small { OnOk result (index_set_len set.new ≤ most) }
    ensures over { IfErr result (IsOver ⟦<CqRef<'a> as PartialEq>⟧.eq set.new) }
{
    view_laws();
    if set.contains(&query) {
        return Ok(());
    }
    let placed = placed(arena, query)?;
    set.insert(placed)?;
    if set.len() > MOST_MEMBERS {
        return Err(Stop::Named(TooMany { count: 200_001 }));
    }
    Ok(())
}

// A copy of the query in the arena.
fn placed<'a>(arena: &'a Bump, query: CqRef) -> Result<CqRef<'a>, NoMemory>
    ensures { IfOk result (λ copy. viewed copy ≡ viewed query.entry) }
{
    let answer = arena.try_alloc_slice_copy(query.answer)?;
    let atoms = arena.try_alloc_slice_copy(query.atoms)?;
    Ok(CqRef { answer, atoms })
}

/// Adds what the steps from a query lead to.
pub(crate) fn grow<'a>(
    alloc: Global,
    arena: &'a Bump,
    normal: &NormalTBox,
    memo: &mut Memo,
    set: &mut IndexSet<CqRef<'a>>,
    query: CqRef,
) -> Result<(), Stop<TooMany>>
    requires small { index_set_len set.old ≤ most }
    requires memo { IsMemo normal.now memo.old }
    ensures within { Within (ClosureStep normal.now (viewed query.entry)) (map viewed set.old.keys) (map viewed set.new.keys) }
    ensures grown { OnOk result (Grown (ClosureStep normal.now (viewed query.entry)) (map viewed set.old.keys) (map viewed set.new.keys)) }
    ensures small { OnOk result (index_set_len set.new ≤ most) }
    ensures over { IfErr result (IsOver ⟦<CqRef<'a> as PartialEq>⟧.eq set.new) }
    ensures memo { OnOk result (IsMemo normal.now memo.new) }
{
    let marked = marked(alloc, query)?;
    for second in 0..marked.len() {
        grow_at(alloc, arena, normal, memo, set, query, &marked, second)?;
    }
    Ok(())
}

// The atoms of a query, with their variables that are answers.
fn marked(alloc: Global, query: CqRef) -> Result<Vec<Marked>, NoMemory>
    ensures { IfOk result (λ v. v.items ≡ map (marked_of query.entry.answer.now) query.entry.atoms.now) }
{
    let mut marked = Vec::with_capacity(alloc, query.atoms.len())?;
    for atom in query.atoms {
        marked.push(Marked::new(query.answer, *atom))?;
    }
    Ok(marked)
}

// Adds what the steps lead to that take an atom and one before it.
fn grow_at<'a>(
    alloc: Global,
    arena: &'a Bump,
    normal: &NormalTBox,
    memo: &mut Memo,
    set: &mut IndexSet<CqRef<'a>>,
    query: CqRef,
    marked: &[Marked],
    second: usize,
) -> Result<(), Stop<TooMany>>
    requires small { index_set_len set.old ≤ most }
    requires memo { IsMemo normal.now memo.old }
    requires marked { marked.now ≡ map (marked_of query.answer.now) query.atoms.now }
    requires there { second < length marked.now }
    ensures within { Within (StepsBefore normal.now (viewed query.entry) second second) (map viewed set.old.keys) (map viewed set.new.keys) }
    ensures grown { OnOk result (Grown (StepsBefore normal.now (viewed query.entry) second second) (map viewed set.old.keys) (map viewed set.new.keys)) }
    ensures small { OnOk result (index_set_len set.new ≤ most) }
    ensures over { IfErr result (IsOver ⟦<CqRef<'a> as PartialEq>⟧.eq set.new) }
    ensures memo { OnOk result (IsMemo normal.now memo.new) }
{
    for first in 0..second {
        let pair = Pair {
            left: marked[first],
            right: marked[second],
        };
        let place = memo.linked(alloc, normal, pair)?;
        add_steps(alloc, arena, set, query, first, second, memo.at(place))?;
    }
    Ok(())
}

// Adds the query after each of the meetings of the atoms at two places.
fn add_steps<'a>(
    alloc: Global,
    arena: &'a Bump,
    set: &mut IndexSet<CqRef<'a>>,
    query: CqRef,
    first: usize,
    second: usize,
    meetings: &[Met],
) -> Result<(), Stop<TooMany>>
    requires small { index_set_len set.old ≤ most }
    requires two { first < second }
    ensures within { Within (IsAfter (viewed query.entry) first second meetings.now) (map viewed set.old.keys) (map viewed set.new.keys) }
    ensures grown { OnOk result (Grown (IsAfter (viewed query.entry) first second meetings.now) (map viewed set.old.keys) (map viewed set.new.keys)) }
    ensures small { OnOk result (index_set_len set.new ≤ most) }
    ensures over { IfErr result (IsOver ⟦<CqRef<'a> as PartialEq>⟧.eq set.new) }
{
    for met in meetings {
        let next = stepped(alloc, query, first, second, *met)?;
        add(arena, set, view(&next))?;
    }
    Ok(())
}

// The query after a meeting of the atoms at two places.
fn stepped(
    alloc: Global,
    query: CqRef,
    first: usize,
    second: usize,
    met: Met,
) -> Result<Cq, NoMemory>
    requires { first < second }
    ensures { IfOk result (λ cq. cq ≡ stepped_by (viewed query.entry) (met_value met) (leave_out first (leave_out second query.entry.atoms.now))) }
{
    let answer = replaced(alloc, met.replacement, query.answer)?;
    let atoms = merged(alloc, query.atoms, first, second, met)?;
    let merge = Cq {
        answer: List::from_vec(answer),
        atoms: List::from_vec(atoms),
    };
    norm(alloc, view(&merge))
}

fn replaced(alloc: Global, by: Bindings, args: &[Arg]) -> Result<Vec<Arg>, NoMemory>
    ensures { IfOk result (λ v. v.items ≡ map (replace_arg (replacement_of by)) args.now) }
{
    let mut replaced = Vec::with_capacity(alloc, args.len())?;
    for arg in args {
        replaced.push(by.arg(*arg))?;
    }
    Ok(replaced)
}

// The atom of the meeting, and then the atoms at the other places after its replacement.
fn merged(
    alloc: Global,
    atoms: &[Atom],
    first: usize,
    second: usize,
    met: Met,
) -> Result<Vec<Atom>, NoMemory>
    requires { first < second }
    ensures { IfOk result (λ v. v.items ≡ met.atom ∷ map (replace (replacement_of met.replacement)) (leave_out first (leave_out second atoms.now))) }
{
    let mut merged = Vec::with_capacity(alloc, atoms.len())?;
    merged.push(met.atom)?;
    for at in 0..atoms.len() {
        let passed = is_either(at, first, second);
        push_unless(passed, met.replacement.atom(atoms[at]), &mut merged)?;
    }
    Ok(merged)
}

fn push_unless(passed: bool, atom: Atom, merged: &mut Vec<Atom>) -> Result<(), NoMemory>
    ensures { OnOk result (merged.new.items ≡ (if passed then merged.old.items else merged.old.items ++ atom ∷ [])) }
{
    if passed {
        return Ok(());
    }
    merged.push(atom)?;
    Ok(())
}

fn is_either(at: usize, first: usize, second: usize) -> bool
    ensures { result ≡ (nat_eq at first || nat_eq at second) }
{
    at == first || at == second
}
