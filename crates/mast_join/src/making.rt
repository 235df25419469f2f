//! How extensions are made: the facts of each map once, and from these what each source gives.
ghost use Rattle.std.specs.Prelude.{◌≡◌, ◌<◌, Some, length, slice_get, IfOk, OnOk};
ghost use Rattle.std.specs.List.{AllByRecursion, AllZip};
ghost use Rattle.mast_cq.specs.UnifierMeanings.{IsBelow, KnownArg, KnownAtom};
ghost use Rattle.mast_join.specs.Extensions.{constant_over};
ghost use Rattle.mast_join.specs.inside.Gathers.{Asks, IsGathered};
ghost use Rattle.mast_join.specs.inside.Keeping.{AreSourcesOf, HasMapFacts, IsExtensionAt, IsKept, IsKnownSource, IsOneRow, IsStoreMore, extended};
ghost use Rattle.mast_join.specs.inside.MadeFacts.{asked_over};
ghost use Rattle.mast_join.specs.inside.Shapes as shapes;
ghost use Rattle.mast_join.specs.inside.Values.{IsFront, KeepsNumbers};

use crate::base::Base;
use crate::facts::map_facts;
use crate::fill::{Gathered, fill};
use crate::shapes::{Asked, arguments, shape, variables};
use crate::store::Store;
use mast_cq::{Arg, Atom, atom_laws};
use mast_numbers::Terms;
use mast_terms::{List, NoMemory};
use mast_unfold::Source;
use std::alloc::Global;

// The number of a constant's term.
fn constant_number(
    alloc: Global,
    base: &Base<'_, '_, '_, '_>,
    terms: &mut Terms,
    constant: u32,
) -> Result<u32, NoMemory>
    requires { constant < length base.now.spec.now.vocab.constants }
    ensures number { IfOk result (λ number. slice_get terms.new.terms number ≡ Some (constant_over (asked_over base.now) constant)) }
    ensures kept { KeepsNumbers terms.old terms.new }
{
    terms.value(alloc, base.spec.vocab.value(constant))
}

// The number of a constant's term.
pub(crate) fn constant(
    alloc: Global,
    base: &Base<'_, '_, '_, '_>,
    store: &mut Store,
    constant: u32,
) -> Result<u32, NoMemory>
    requires constant { constant < length base.now.spec.now.vocab.constants }
    requires kept { IsKept base.now store.old }
    ensures number { IfOk result (λ number. slice_get store.new.pool.terms.terms number ≡ Some (constant_over (asked_over base.now) constant)) }
    ensures kept { IsKept base.now store.new }
    ensures more { IsStoreMore store.old store.new }
    ensures facts { store.new.facts ≡ store.old.facts }
{
    constant_number(alloc, base, &mut store.pool.terms, constant)
}

// What an argument asks of the number in its place.
fn asked(
    alloc: Global,
    base: &Base<'_, '_, '_, '_>,
    store: &mut Store,
    arg: Arg,
) -> Result<Asked, NoMemory>
    requires known { KnownArg (IsBelow (length base.now.spec.now.vocab.constants)) arg }
    requires kept { IsKept base.now store.old }
    ensures asks { IfOk result (Asks store.new.pool.terms.terms (constant_over (asked_over base.now)) arg) }
    ensures kept { IsKept base.now store.new }
    ensures more { IsStoreMore store.old store.new }
    ensures facts { store.new.facts ≡ store.old.facts }
{
    match arg {
        Arg::Blank => Ok(Asked::Nothing),
        Arg::Var(variable) => Ok(Asked::Column(variable as usize)),
        Arg::Constant(number) => Ok(Asked::Number(constant(alloc, base, store, number)?)),
    }
}

// The place of the facts of a map, which are made where they are not there yet.
fn facts_of(
    alloc: Global,
    base: &Base<'_, '_, '_, '_>,
    store: &mut Store,
    map: u32,
) -> Result<usize, NoMemory>
    requires map { map < length base.now.spec.now.maps }
    requires kept { IsKept base.now store.old }
    ensures place { IfOk result (HasMapFacts base.now store.new.pool store.new.facts.items map) }
    ensures kept { IsKept base.now store.new }
    ensures more { IsStoreMore store.old store.new }
    ensures facts { IsFront store.old.facts.items store.new.facts.items }
{
    match store.fact_places.get(&map) {
        Some(place) => Ok(*place),
        None => make_facts(alloc, base, store, map),
    }
}

// Makes the facts of a map.
fn make_facts(
    alloc: Global,
    base: &Base<'_, '_, '_, '_>,
    store: &mut Store,
    map: u32,
) -> Result<usize, NoMemory>
    requires map { map < length base.now.spec.now.maps }
    requires kept { IsKept base.now store.old }
    ensures place { IfOk result (HasMapFacts base.now store.new.pool store.new.facts.items map) }
    ensures kept { IsKept base.now store.new }
    ensures more { IsStoreMore store.old store.new }
    ensures facts { IsFront store.old.facts.items store.new.facts.items }
{
    let split = &base.spec.maps.as_slice()[map as usize];
    let facts = map_facts(alloc, base, split, &mut store.pool)?;
    let place = store.facts.len();
    store.facts.push(List::from_vec(facts))?;
    store.fact_places.insert(map, place)?;
    Ok(place)
}

// What the source asks, and the place of its facts.
fn gathered(
    alloc: Global,
    base: &Base<'_, '_, '_, '_>,
    store: &mut Store,
    source: Source,
) -> Result<Gathered, NoMemory>
    requires source { IsKnownSource base.now source }
    requires kept { IsKept base.now store.old }
    ensures gathered { IfOk result (IsGathered base.now store.new.pool store.new.facts.items source) }
    ensures kept { IsKept base.now store.new }
    ensures more { IsStoreMore store.old store.new }
    ensures facts { IsFront store.old.facts.items store.new.facts.items }
{
    let place = facts_of(alloc, base, store, source.map)?;
    let (first, second) = arguments(source.member);
    let first = asked(alloc, base, store, first)?;
    let second = asked(alloc, base, store, second)?;
    Ok(Gathered {
        first,
        second,
        place,
    })
}

// The same of sources.
fn gather(
    alloc: Global,
    base: &Base<'_, '_, '_, '_>,
    store: &mut Store,
    sources: &[Source],
) -> Result<Vec<Gathered>, NoMemory>
    requires sources { AllByRecursion (IsKnownSource base.now) sources.now }
    requires kept { IsKept base.now store.old }
    ensures gathered { IfOk result (λ all. AllZip (IsGathered base.now store.new.pool store.new.facts.items) sources.now all.items) }
    ensures kept { IsKept base.now store.new }
    ensures more { IsStoreMore store.old store.new }
{
    let mut all = Vec::new(alloc);
    for source in sources {
        all.push(gathered(alloc, base, store, *source)?)?;
    }
    Ok(all)
}

// Makes the extension of an atom's shape.
fn make_extension(
    alloc: Global,
    base: &Base<'_, '_, '_, '_>,
    store: &mut Store,
    atom: Atom,
) -> Result<u32, NoMemory>
    requires known { KnownAtom (IsBelow (length base.now.spec.now.vocab.constants)) atom }
    requires kept { IsKept base.now store.old }
    ensures number { IfOk result (IsExtensionAt (extended base.now store.new) (shapes.shape atom)) }
    ensures kept { IsKept base.now store.new }
    ensures more { IsStoreMore store.old store.new }
{
    atom_laws();
    let shape = shape(atom);
    let sources = base.unfolder.sources(alloc, shape)?;
    let width = variables(alloc, shape)?.len();
    let all = gather(alloc, base, store, sources.as_slice())?;
    let number = fill_extension(alloc, base, store, atom, width, sources.as_slice(), &all)?;
    store.made.insert(shape, number)?;
    Ok(number)
}

// The relation of an atom's shape, from its sources.
fn fill_extension(
    alloc: Global,
    base: &Base<'_, '_, '_, '_>,
    store: &mut Store,
    atom: Atom,
    width: usize,
    sources: &[Source],
    all: &[Gathered],
) -> Result<u32, NoMemory>
    requires kept { IsKept base.now store.old }
    requires width { width ≡ length (shapes.variables (shapes.shape atom)) }
    requires sources { AreSourcesOf base.now (shapes.shape atom) sources.now }
    requires gathered { AllZip (IsGathered base.now store.old.pool store.old.facts.items) sources.now all.now }
    ensures number { IfOk result (IsExtensionAt (extended base.now store.new) (shapes.shape atom)) }
    ensures kept { IsKept base.now store.new }
    ensures more { IsStoreMore store.old store.new }
    ensures made { store.new.made ≡ store.old.made }
{
    // `len` says that no term has two numbers
    let _ = store.pool.terms.len();
    fill(
        alloc,
        base.wanted,
        width,
        &store.facts,
        all,
        &mut store.relations,
    )
}

// A relation of its own with one row.
pub(crate) fn one_row(
    alloc: Global,
    base: &Base<'_, '_, '_, '_>,
    store: &mut Store,
    row: &[u32],
) -> Result<u32, NoMemory>
    requires few { length row.now < 4294967296 }
    requires kept { IsKept base.now store.old }
    ensures number { IfOk result (IsOneRow store.new.relations row.now) }
    ensures kept { IsKept base.now store.new }
    ensures more { IsStoreMore store.old store.new }
{
    let number = store.relations.begin(alloc, row.len() as u32)?;
    store.relations.insert(alloc, number, row)?;
    Ok(number)
}

// The number of the relation of an atom's extension, which is made where it is not there yet.
pub(crate) fn extension(
    alloc: Global,
    base: &Base<'_, '_, '_, '_>,
    store: &mut Store,
    atom: Atom,
) -> Result<u32, NoMemory>
    requires known { KnownAtom (IsBelow (length base.now.spec.now.vocab.constants)) atom }
    requires kept { IsKept base.now store.old }
    ensures number { IfOk result (IsExtensionAt (extended base.now store.new) atom) }
    ensures kept { IsKept base.now store.new }
    ensures more { IsStoreMore store.old store.new }
{
    atom_laws();
    let shape = shape(atom);
    match store.made.get(&shape) {
        Some(number) => Ok(*number),
        None => make_extension(alloc, base, store, atom),
    }
}
