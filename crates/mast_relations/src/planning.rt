//! How plans are made.
ghost use Rattle.std.specs.Prelude.{◌≡◌, ◌+◌, ◌<◌, ◌++◌, true, false, length, IfOk, OnOk};
ghost use Rattle.std.specs.Option.{option_copied};
ghost use Rattle.mast_relations.specs.Matches.{IsConjunction};
ghost use Rattle.mast_relations.specs.Plans.{AreBelow, AreSteps, IsPlan, KeepsPlans, Once, picked};
ghost use Rattle.mast_relations.specs.Stores.{contents};
ghost use Rattle.mast_relations.specs.inside.Planning.{AreGrown, AreNumbersTo, AreTaken, AreWithin, IsDone, IsNextStep, IsPlaceOf, IsSplit, IsTaken};

use crate::order::choose;
use crate::plan::{Plan, Step};
use crate::query::Conjunction;
use crate::relation::Relation;
use crate::relations::Relations;
use mast_terms::NoMemory;
use std::alloc::Global;

// The columns of a pattern: those whose variables are bound, with their places among the bound ones, and the others.
#[derive(Drop)]
pub(crate) struct Split {
    pub(crate) columns: Vec<usize>,
    pub(crate) places: Vec<usize>,
    pub(crate) fresh: Vec<usize>,
}

// The place of a variable among the bound ones.
fn place_of(variable: u32, bound: &[u32]) -> Option<usize>
    ensures { IsPlaceOf variable bound.now result }
{
    for (place, other) in bound.iter().enumerate() {
        if *other == variable {
            return Some(place);
        }
    }
    None
}

// Splits the columns with these variables.
fn split_columns(alloc: Global, variables: &[u32], bound: &[u32]) -> Result<Split, NoMemory>
    ensures { IfOk result (IsSplit variables.now bound.now) }
{
    let mut split = Split {
        columns: Vec::new(alloc),
        places: Vec::new(alloc),
        fresh: Vec::new(alloc),
    };
    for (column, variable) in variables.iter().enumerate() {
        match place_of(*variable, bound) {
            Some(place) => {
                split.columns.push(column)?;
                split.places.push(place)?;
            }
            None => split.fresh.push(column)?,
        }
    }
    Ok(split)
}

// Puts the elements at some places behind others.
pub(crate) fn put_picked(
    elements: &[u32],
    places: &[usize],
    all: &mut Vec<u32>,
) -> Result<(), NoMemory>
    requires { AreBelow (length elements.now) places.now }
    ensures { OnOk result (all.new.items ≡ all.old.items ++ picked elements.now places.now) }
{
    for place in places {
        all.push(elements[*place])?;
    }
    Ok(())
}

// The numbers from 0 to below a bound.
fn numbers_to(alloc: Global, bound: usize) -> Result<Vec<usize>, NoMemory>
    ensures { IfOk result (λ numbers. AreNumbersTo bound numbers.items) }
{
    let mut numbers = Vec::new(alloc);
    for number in 0..bound {
        numbers.push(number)?;
    }
    Ok(numbers)
}

// Whether all variables are among those.
fn are_among(variables: &[u32], bound: &[u32]) -> bool
    ensures { result ≡ true → AreWithin variables.now bound.now }
{
    for variable in variables {
        match place_of(*variable, bound) {
            None => return false,
            Some(_) => {}
        }
    }
    true
}

// The places of variables among the bound ones.
fn places_of(alloc: Global, variables: &[u32], bound: &[u32]) -> Result<Vec<usize>, NoMemory>
    requires { AreWithin variables.now bound.now }
    ensures { IfOk result (λ places. AreBelow (length bound.now) places.items × (picked bound.now places.items ≡ variables.now)) }
{
    let mut places = Vec::new(alloc);
    for variable in variables {
        match place_of(*variable, bound) {
            Some(place) => places.push(place)?,
            None => {}
        }
    }
    Ok(places)
}

// The step of a pattern. It makes the index that is missing, and binds the pattern's variables.
fn make_step(
    alloc: Global,
    relations: &mut [Relation],
    query: &Conjunction,
    pattern: usize,
    bound: &mut Vec<u32>,
) -> Result<Step, NoMemory>
    requires query { IsConjunction (contents relations.old) query.now }
    requires pattern { pattern < length query.now.patterns }
    ensures step { IfOk result (IsNextStep relations.new query.now pattern bound.old.items bound.new.items) }
    ensures grown { AreGrown relations.old relations.new }
{
    let joined = &query.patterns.as_slice()[pattern];
    let variables = joined.variables.as_slice();
    let mut before = Vec::new(alloc);
    before.extend_from_slice(bound)?;
    let parts = split_columns(alloc, variables, bound)?;
    put_picked(variables, &parts.fresh, bound)?;
    let stored = &mut relations[joined.relation as usize];
    let index = stored.index(alloc, parts.columns)?;
    Ok(Step {
        pattern,
        relation: joined.relation,
        index,
        bound: before,
        places: parts.places,
        fresh: parts.fresh,
    })
}

// The step of the pattern that is joined next, which is no longer left then.
fn next_step(
    alloc: Global,
    relations: &mut [Relation],
    query: &Conjunction,
    left: &mut Vec<usize>,
    bound: &mut Vec<u32>,
) -> Result<Step, NoMemory>
    requires query { IsConjunction (contents relations.old) query.now }
    requires some { 0 < length left.old.items }
    requires left { AreBelow (length query.now.patterns) left.old.items }
    ensures step { IfOk result (λ step. IsNextStep relations.new query.now step.pattern bound.old.items bound.new.items step) }
    ensures left { IfOk result (λ step. IsTaken left.old.items step.pattern left.new.items) }
    ensures below { OnOk result (AreBelow (length query.now.patterns) left.new.items) }
    ensures fewer { OnOk result (length left.new.items + 1 ≡ length left.old.items) }
    ensures grown { AreGrown relations.old relations.new }
{
    let at = choose(relations, query.patterns.as_slice(), left, bound);
    let pattern = left.remove(at);
    make_step(alloc, relations, query, pattern, bound)
}

// Steps until all of these variables are bound, or nothing is left.
fn steps(
    alloc: Global,
    relations: &mut [Relation],
    query: &Conjunction,
    left: &mut Vec<usize>,
    bound: &mut Vec<u32>,
    wanted: Option<&[u32]>,
) -> Result<Vec<Step>, NoMemory>
    requires query { IsConjunction (contents relations.old) query.now }
    requires left { AreBelow (length query.now.patterns) left.old.items }
    ensures steps { IfOk result (λ steps. AreSteps relations.new query.now bound.old.items steps.items bound.new.items) }
    ensures taken { IfOk result (λ steps. AreTaken left.old.items steps.items left.new.items) }
    ensures below { OnOk result (AreBelow (length query.now.patterns) left.new.items) }
    ensures once { Once bound.old.items → OnOk result (Once bound.new.items) }
    ensures done { OnOk result (IsDone (option_copied wanted.entry) left.new.items bound.new.items) }
    ensures grown { AreGrown relations.old relations.new }
{
    let mut steps = Vec::new(alloc);
    while !is_done(wanted, left, bound) {
        steps.push(next_step(alloc, relations, query, left, bound)?)?;
    }
    Ok(steps)
}

// Whether no step is missing.
fn is_done(wanted: Option<&[u32]>, left: &[usize], bound: &[u32]) -> bool
    ensures yes { result ≡ true → IsDone (option_copied wanted.entry) left.now bound.now }
    ensures no { result ≡ false → 0 < length left.now }
{
    if left.is_empty() {
        return true;
    }
    match wanted {
        None => false,
        Some(wanted) => are_among(wanted, bound),
    }
}

impl Relations {
    /// A plan of the join of a query. It makes the indices that are missing, and other plans stay right. The relations are the
    /// same, also for want of memory.
    pub fn plan(&mut self, alloc: Global, query: Conjunction) -> Result<Plan, NoMemory>
        requires { IsConjunction (contents self.old) query }
        ensures plan { IfOk result (IsPlan self.new) }
        ensures query { IfOk result (λ plan. plan.query ≡ query) }
        ensures contents { contents self.new ≡ contents self.old }
        ensures plans { KeepsPlans self.old self.new }
    {
        make_plan(alloc, &mut self.relations, query)
    }
}

// A plan of the join of a query, which makes the indices that are missing.
fn make_plan(
    alloc: Global,
    relations: &mut [Relation],
    query: Conjunction,
) -> Result<Plan, NoMemory>
    requires { IsConjunction (contents relations.old) query }
    ensures plan { IfOk result (IsPlan relations.new) }
    ensures query { IfOk result (λ plan. plan.query ≡ query) }
    ensures grown { AreGrown relations.old relations.new }
{
    let patterns = query.patterns.as_slice();
    let mut left = numbers_to(alloc, patterns.len())?;
    let start = left.remove(choose(relations, patterns, &left, &[]));
    let first = &patterns[start];
    let relation = first.relation;
    let size = relations[relation as usize].rows().len();
    let mut bound = Vec::new(alloc);
    bound.extend_from_slice(first.variables.as_slice())?;
    let wanted = Some(query.answer.as_slice());
    let joined = steps(alloc, relations, &query, &mut left, &mut bound, wanted)?;
    let mut end = Vec::new(alloc);
    end.extend_from_slice(&bound)?;
    let asked = steps(alloc, relations, &query, &mut left, &mut end, None)?;
    let answer = places_of(alloc, query.answer.as_slice(), &bound)?;
    Ok(Plan {
        query,
        start,
        size,
        relation,
        joined,
        bound,
        asked,
        end,
        answer,
    })
}
