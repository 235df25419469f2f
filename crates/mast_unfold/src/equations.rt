//! Equations of columns and constants, and whether values of the columns' kinds solve them.
ghost use Rattle.std.specs.Prelude.{◌≡◌, ◌↔◌, ◌∷◌, ◌++◌, [], IsTrue, IfOk, OnOk, MatchBool, Some, None, map, if◌then◌else◌};
ghost use Rattle.mast_terms.specs.Orders.{TestsEquality};
ghost use Rattle.mast_tables.specs.Whole.{value_kind};
ghost use Rattle.mast_unfold.specs.inside.Equations as spec;
ghost use Rattle.mast_unfold.specs.inside.Equations.{seen, HasSolution, seconds, links_of, all_links, seeds_of, all_seeds};
ghost use Rattle.mast_unfold.specs.inside.Lookups.{found};
ghost use Rattle.mast_unfold.specs.inside.Spreading.{entries, noted, all_noted, IsSpread, CannotSpread};

use crate::columns::Place;
use crate::groups::Groups;
use indexmap::IndexMap;
use mast_terms::{Kind, NoMemory, Value, names_are_ordered};
use std::alloc::Global;

/// A side of an equation: the value of a column, a constant, or nothing, which equals nothing.
#[derive(Clone, Copy)]
pub(crate) enum Side<'a> {
    Column(Place),
    Constant(&'a Value),
    Nothing,
}

/// An equation of two sides.
#[derive(Clone, Copy)]
pub(crate) struct Equation<'a> {
    pub(crate) left: Side<'a>,
    pub(crate) right: Side<'a>,
}

// `==` of places holds exactly of equal ones.
fn place_laws()
    ensures { TestsEquality ⟦<Place as PartialEq>⟧.eq }
{
    names_are_ordered();
}

// The kind of a value.
pub(crate) fn kind_of(value: &Value) -> Kind
    ensures { result ≡ value_kind value.now }
{
    match value {
        Value::Int(_) => Kind::Integer,
        Value::Text(_) => Kind::Text,
        Value::Date(_) => Kind::Date,
    }
}

// Whether a column may have the value of a side.
fn column_may_be(place: Place, side: Side<'_>) -> bool
    ensures { result ≡ spec.column_may_be place (seen side.entry) }
{
    match side {
        Side::Column(other) => place.kind == other.kind,
        Side::Constant(value) => place.kind == kind_of(value),
        Side::Nothing => false,
    }
}

// Whether a constant may be the value of a side.
fn constant_may_be(value: &Value, side: Side<'_>) -> bool
    ensures { result ≡ spec.constant_may_be value.now (seen side.entry) }
{
    match side {
        Side::Column(place) => kind_of(value) == place.kind,
        Side::Constant(other) => *value == *other,
        Side::Nothing => false,
    }
}

// Whether an equation may hold by itself: its sides have one kind, and two constants are equal.
fn may_hold(equation: &Equation<'_>) -> bool
    ensures { result ≡ spec.may_hold (spec.both equation.now) }
{
    match equation.left {
        Side::Column(place) => column_may_be(place, equation.right),
        Side::Constant(value) => constant_may_be(value, equation.right),
        Side::Nothing => false,
    }
}

// Whether each equation may hold by itself.
fn may_all_hold(equations: &[Equation<'_>]) -> bool
    ensures { result ≡ spec.may_all_hold (map spec.both equations.now) }
{
    for equation in equations {
        if !may_hold(equation) {
            return false;
        }
    }
    true
}

// Adds the links of two columns, each to the other.
fn link(
    alloc: Global,
    links: &mut Groups<Place, Place>,
    left: Place,
    right: Place,
) -> Result<(), NoMemory>
    ensures { OnOk result (spec.AreLinked links.old ((left, right) ∷ (right, left) ∷ []) links.new) }
{
    place_laws();
    links.add(alloc, left, right)?;
    links.add(alloc, right, left)?;
    Ok(())
}

// Adds the two links of an equation of two columns.
fn add_links(
    alloc: Global,
    links: &mut Groups<Place, Place>,
    equation: &Equation<'_>,
) -> Result<(), NoMemory>
    ensures { OnOk result (spec.AreLinked links.old (links_of (spec.both equation.now)) links.new) }
{
    match (equation.left, equation.right) {
        (Side::Column(left), Side::Column(right)) => link(alloc, links, left, right),
        _ => Ok(()),
    }
}

// For each column those that equations make equal to it.
fn links(alloc: Global, equations: &[Equation<'_>]) -> Result<Groups<Place, Place>, NoMemory>
    ensures { IfOk result (spec.AreLinks (all_links (map spec.both equations.now))) }
{
    let mut links = Groups::new(alloc);
    for equation in equations {
        add_links(alloc, &mut links, equation)?;
    }
    Ok(links)
}

// Notes that a column has a value. It is false where another value is noted.
fn note<'a>(
    known: &mut IndexMap<Place, &'a Value>,
    place: Place,
    value: &'a Value,
) -> Result<bool, NoMemory>
    ensures { IfOk result (λ ok. noted (place, value.now) (entries known.old) ≡ (if ok then Some (entries known.new) else None)) }
{
    match known.get(&place) {
        Some(other) => Ok(**other == *value),
        None => {
            known.insert(place, value)?;
            Ok(true)
        }
    }
}

// Notes that columns have a value.
fn note_all<'a>(
    known: &mut IndexMap<Place, &'a Value>,
    places: &[Place],
    value: &'a Value,
) -> Result<bool, NoMemory>
    ensures { IfOk result (λ ok. all_noted (map (λ p. (p, value.now)) places.now) (entries known.old) ≡ (if ok then Some (entries known.new) else None)) }
{
    for place in places {
        if !note(known, *place, value)? {
            return Ok(false);
        }
    }
    Ok(true)
}

// Notes the value that an equation with a constant gives a column.
fn note_seed<'a>(
    known: &mut IndexMap<Place, &'a Value>,
    equation: &Equation<'a>,
) -> Result<bool, NoMemory>
    ensures { IfOk result (λ ok. all_noted (seeds_of (spec.both equation.now)) (entries known.old) ≡ (if ok then Some (entries known.new) else None)) }
{
    match (equation.left, equation.right) {
        (Side::Column(place), Side::Constant(value)) => note(known, place, value),
        (Side::Constant(value), Side::Column(place)) => note(known, place, value),
        _ => Ok(true),
    }
}

// Notes the values that equations with constants give columns.
fn note_seeds<'a>(
    known: &mut IndexMap<Place, &'a Value>,
    equations: &[Equation<'a>],
) -> Result<bool, NoMemory>
    ensures { IfOk result (λ ok. all_noted (all_seeds (map spec.both equations.now)) (entries known.old) ≡ (if ok then Some (entries known.new) else None)) }
{
    for equation in equations {
        if !note_seed(known, equation)? {
            return Ok(false);
        }
    }
    Ok(true)
}

// Notes for each column with a value that those linked to it have the same, until nothing is new.
fn spread<'a>(
    links: &Groups<Place, Place>,
    known: &mut IndexMap<Place, &'a Value>,
) -> Result<bool, NoMemory>
    ensures { IfOk result (λ ok. MatchBool ok (IsSpread links.now (entries known.old) (entries known.new)) (CannotSpread links.now (entries known.old))) }
{
    place_laws();
    for done in 0..usize::MAX {
        let (place, value) = match known.get_index(done) {
            Some((place, value)) => (*place, *value),
            None => return Ok(true),
        };
        if !note_all(known, links.get(place), value)? {
            return Ok(false);
        }
    }
    let _count = known.len();
    Ok(true)
}

/// Whether one value can be given to each column, of its kind, so that all equations hold.
///
/// A value that a constant gives to a column goes on to all columns that must equal it. Where no two values meet in a column
/// these are values as wanted, and all other columns of one kind have one value.
pub(crate) fn are_solvable(alloc: Global, equations: &[Equation<'_>]) -> Result<bool, NoMemory>
    ensures { IfOk result (λ solvable. IsTrue solvable ↔ HasSolution (map spec.both equations.now)) }
{
    place_laws();
    if !may_all_hold(equations) {
        return Ok(false);
    }
    let links = links(alloc, equations)?;
    let mut known = IndexMap::new(alloc);
    if !note_seeds(&mut known, equations)? {
        return Ok(false);
    }
    spread(&links, &mut known)
}
