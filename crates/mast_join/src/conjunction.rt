//! What a query becomes over extensions: a conjunction over their relations.
ghost use Rattle.std.specs.Prelude.{◌≡◌, ◌+◌, ◌<◌, ◌∷◌, ◌++◌, [], length, IfOk, OnOk};
ghost use Rattle.std.specs.List.{AllByRecursion};
ghost use Rattle.mast_cq.specs.Queries.{viewed};
ghost use Rattle.mast_cq.specs.UnifierMeanings.{IsBelow, KnownArg, KnownAtom};
ghost use Rattle.mast_join.specs.Answers.{IsAsked};
ghost use Rattle.mast_join.specs.inside.Keeping.{IsKept, IsStoreMore, extended};
ghost use Rattle.mast_join.specs.inside.Namings as namings;
ghost use Rattle.mast_join.specs.inside.Namings.{AddsConstants, AddsUnits, AreMadePatterns, IsMadePattern, most_names, places_of};
ghost use Rattle.mast_join.specs.inside.Relates.{IsConjunctionOf, IsConstantPattern, counted, counted_sets, set_column};

use crate::base::Base;
use crate::extensions::Wanted;
use crate::making::{constant, extension, one_row};
use crate::naming::{MOST, Names, names_of};
use crate::store::Store;
use mast_cq::{Arg, Atom, CqRef};
use mast_relations::{Conjunction, Pattern};
use mast_terms::{List, NoMemory};
use std::alloc::Global;

// The variables of an atom's pattern: these places, and that of the set where sets are wanted.
fn columns(alloc: Global, wanted: Wanted, front: &[u32], set: u32) -> Result<List<u32>, NoMemory>
    ensures { IfOk result (λ columns. columns ≡ front.now ++ set_column wanted set) }
{
    let mut columns = List::new(alloc);
    for place in front {
        columns.push(alloc, *place)?;
    }
    match wanted {
        Wanted::Tuples => Ok(columns),
        Wanted::SomeHits => {
            columns.push(alloc, set)?;
            Ok(columns)
        }
        Wanted::AllHits => {
            columns.push(alloc, set)?;
            Ok(columns)
        }
    }
}

// The pattern of an atom.
fn atom_pattern(
    alloc: Global,
    base: &Base<'_, '_, '_, '_>,
    store: &mut Store,
    atom: Atom,
    front: &[u32],
    set: u32,
) -> Result<Pattern, NoMemory>
    requires known { KnownAtom (IsBelow (length base.now.spec.now.vocab.constants)) atom }
    requires kept { IsKept base.now store.old }
    ensures pattern { IfOk result (IsMadePattern (extended base.now store.new) set atom front.now) }
    ensures kept { IsKept base.now store.new }
    ensures more { IsStoreMore store.old store.new }
{
    let variables = columns(alloc, base.wanted, front, set)?;
    let relation = extension(alloc, base, store, atom)?;
    Ok(Pattern {
        relation,
        variables,
    })
}

// The patterns of atoms.
fn atom_patterns(
    alloc: Global,
    base: &Base<'_, '_, '_, '_>,
    store: &mut Store,
    atoms: &[Atom],
    fronts: &[List<u32>],
    first: u32,
) -> Result<Vec<Pattern>, NoMemory>
    requires known { AllByRecursion (KnownAtom (IsBelow (length base.now.spec.now.vocab.constants))) atoms.now }
    requires long { length fronts.now ≡ length atoms.now }
    requires few { first + length atoms.now < 4294967296 }
    requires kept { IsKept base.now store.old }
    ensures patterns { IfOk result (λ patterns. AreMadePatterns (extended base.now store.new) first atoms.now fronts.now patterns.items) }
    ensures kept { IsKept base.now store.new }
    ensures more { IsStoreMore store.old store.new }
{
    let mut patterns = Vec::new(alloc);
    for number in 0..atoms.len() {
        let set = first + number as u32;
        patterns.push(atom_pattern(
            alloc,
            base,
            store,
            atoms[number],
            fronts[number].as_slice(),
            set,
        )?)?;
    }
    Ok(patterns)
}

// The pattern that binds a variable to a constant's number.
fn constant_pattern(
    alloc: Global,
    base: &Base<'_, '_, '_, '_>,
    store: &mut Store,
    of: u32,
    variable: u32,
) -> Result<Pattern, NoMemory>
    requires known { of < length base.now.spec.now.vocab.constants }
    requires kept { IsKept base.now store.old }
    ensures pattern { IfOk result (IsConstantPattern (extended base.now store.new) variable of) }
    ensures kept { IsKept base.now store.new }
    ensures more { IsStoreMore store.old store.new }
{
    let mut variables = List::new(alloc);
    variables.push(alloc, variable)?;
    let number = constant(alloc, base, store, of)?;
    let relation = one_row(alloc, base, store, &[number])?;
    Ok(Pattern {
        relation,
        variables,
    })
}

// Puts the pattern of an argument of the answer list, where it is a constant.
fn add_constant(
    alloc: Global,
    base: &Base<'_, '_, '_, '_>,
    store: &mut Store,
    arg: Arg,
    variable: u32,
    patterns: &mut Vec<Pattern>,
) -> Result<(), NoMemory>
    requires known { KnownArg (IsBelow (length base.now.spec.now.vocab.constants)) arg }
    requires kept { IsKept base.now store.old }
    ensures added { OnOk result (AddsConstants (extended base.now store.new) variable (arg ∷ []) patterns.old.items patterns.new.items) }
    ensures kept { IsKept base.now store.new }
    ensures more { IsStoreMore store.old store.new }
{
    match arg {
        Arg::Blank => Ok(()),
        Arg::Var(_) => Ok(()),
        Arg::Constant(of) => {
            let pattern = constant_pattern(alloc, base, store, of, variable)?;
            patterns.push(pattern)?;
            Ok(())
        }
    }
}

// Puts the patterns of the constants of an answer list.
fn add_constants(
    alloc: Global,
    base: &Base<'_, '_, '_, '_>,
    store: &mut Store,
    answer: &[Arg],
    first: u32,
    patterns: &mut Vec<Pattern>,
) -> Result<(), NoMemory>
    requires known { AllByRecursion (KnownArg (IsBelow (length base.now.spec.now.vocab.constants))) answer.now }
    requires few { first + length answer.now < 4294967296 }
    requires kept { IsKept base.now store.old }
    ensures added { OnOk result (AddsConstants (extended base.now store.new) first answer.now patterns.old.items patterns.new.items) }
    ensures kept { IsKept base.now store.new }
    ensures more { IsStoreMore store.old store.new }
{
    for number in 0..answer.len() {
        add_constant(
            alloc,
            base,
            store,
            answer[number],
            first + number as u32,
            patterns,
        )?;
    }
    Ok(())
}

// Puts a pattern of the relation with the empty row, where there is no other.
fn add_unit(
    alloc: Global,
    base: &Base<'_, '_, '_, '_>,
    store: &mut Store,
    patterns: &mut Vec<Pattern>,
) -> Result<(), NoMemory>
    requires kept { IsKept base.now store.old }
    ensures added { OnOk result (AddsUnits (extended base.now store.new) patterns.old.items patterns.new.items) }
    ensures some { OnOk result (0 < length patterns.new.items) }
    ensures kept { IsKept base.now store.new }
    ensures more { IsStoreMore store.old store.new }
{
    if patterns.len() > 0 {
        return Ok(());
    }
    let relation = one_row(alloc, base, store, &[])?;
    patterns.push(Pattern {
        relation,
        variables: List::new(alloc),
    })?;
    Ok(())
}

// What stands for an argument of the answer list.
fn place_of(arg: Arg, place: u32, variable: u32) -> u32
    ensures { result ≡ namings.place_of arg place variable }
{
    match arg {
        Arg::Blank => place,
        Arg::Var(_) => place,
        Arg::Constant(_) => variable,
    }
}

// What stands for an answer list.
fn places(alloc: Global, answer: &[Arg], names: &[u32], first: u32) -> Result<List<u32>, NoMemory>
    requires long { length names.now ≡ length answer.now }
    requires few { first + length answer.now < 4294967296 }
    ensures { IfOk result (λ places. places ≡ places_of first answer.now names.now) }
{
    let mut places = List::new(alloc);
    for number in 0..answer.len() {
        places.push(
            alloc,
            place_of(answer[number], names[number], first + number as u32),
        )?;
    }
    Ok(places)
}

// Puts so many numbers, each next to the one before it.
fn count(alloc: Global, places: &mut List<u32>, first: u32, count: usize) -> Result<(), NoMemory>
    requires { first + count < 4294967296 }
    ensures { OnOk result (places.new ≡ places.old ++ counted first count) }
{
    for number in 0..count {
        places.push(alloc, first + number as u32)?;
    }
    Ok(())
}

// Puts the variables of sets, where they are wanted.
fn count_sets(
    alloc: Global,
    wanted: Wanted,
    places: &mut List<u32>,
    first: u32,
    atoms: usize,
) -> Result<(), NoMemory>
    requires { first + atoms < 4294967296 }
    ensures { OnOk result (places.new ≡ places.old ++ counted_sets wanted first atoms) }
{
    match wanted {
        Wanted::Tuples => Ok(()),
        Wanted::SomeHits => count(alloc, places, first, atoms),
        Wanted::AllHits => count(alloc, places, first, atoms),
    }
}

// The patterns of a query.
fn patterns(
    alloc: Global,
    base: &Base<'_, '_, '_, '_>,
    store: &mut Store,
    query: CqRef<'_>,
    names: &Names,
) -> Result<List<Pattern>, NoMemory>
    requires asked { IsAsked (length base.now.spec.now.vocab.constants) (viewed query) }
    requires names { namings.AreNames (viewed query) names.now }
    requires few { names.now.count + length query.atoms.now + length query.answer.now < 4294967296 }
    requires kept { IsKept base.now store.old }
    ensures patterns { IfOk result (namings.ArePatternsOf (extended base.now store.new) (viewed query.entry) names.now) }
    ensures kept { IsKept base.now store.new }
    ensures more { IsStoreMore store.old store.new }
{
    let first = names.count + query.atoms.len() as u32;
    let mut patterns = atom_patterns(alloc, base, store, query.atoms, &names.fronts, names.count)?;
    add_constants(alloc, base, store, query.answer, first, &mut patterns)?;
    add_unit(alloc, base, store, &mut patterns)?;
    Ok(List::from_vec(patterns))
}

// The conjunction of a query: a pattern for each atom, for each constant of the answer list one of a relation of its own, and where
// there is none of these one of the relation with the empty row.
pub(crate) fn conjunction(
    alloc: Global,
    base: &Base<'_, '_, '_, '_>,
    store: &mut Store,
    query: CqRef<'_>,
) -> Result<Conjunction, NoMemory>
    requires asked { IsAsked (length base.now.spec.now.vocab.constants) (viewed query) }
    requires kept { IsKept base.now store.old }
    ensures conjunction { IfOk result (IsConjunctionOf (extended base.now store.new) (viewed query.entry)) }
    ensures kept { IsKept base.now store.new }
    ensures more { IsStoreMore store.old store.new }
{
    if query.atoms.len() > MOST || query.answer.len() > MOST {
        return Err(NoMemory);
    }
    let names = names_of(alloc, query)?;
    let first = names.count + query.atoms.len() as u32;
    let mut answer = places(alloc, query.answer, &names.answer, first)?;
    count_sets(
        alloc,
        base.wanted,
        &mut answer,
        names.count,
        query.atoms.len(),
    )?;
    let patterns = patterns(alloc, base, store, query, &names)?;
    Ok(Conjunction { answer, patterns })
}
