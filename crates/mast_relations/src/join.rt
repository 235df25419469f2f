//! Joins, depth first.
ghost use Rattle.std.specs.Prelude.{◌≡◌, ◌<◌, ◌≤◌, ◌∷◌, ◌++◌, ℕ, [], length, IfOk, OnOk};
ghost use Rattle.mast_relations.specs.Matches.{IsFirst};
ghost use Rattle.mast_relations.specs.Plans.{IsPlan, picked, variables_of};
ghost use Rattle.mast_relations.specs.Slices.{IsAnswerIn};
ghost use Rattle.mast_relations.specs.Stores.{HasAll, HasOnlyGained, contents};
ghost use Rattle.mast_relations.specs.inside.Joins.{AskedMatch, CanGoOn, Decides, HasGained, LeftAnswer, SliceAnswer};

use crate::plan::{Plan, Step};
use crate::planning::put_picked;
use crate::query::Test;
use crate::relation::Relation;
use crate::relations::Relations;
use crate::rows::{RowSet, hash_at};
use mast_terms::{List, NoMemory};
use std::alloc::Global;

// A join by a plan: which answers are put, and whether it stops at the first.
#[derive(Drop)]
pub(crate) struct Join<'a, T> {
    pub(crate) relations: &'a [Relation],
    pub(crate) plan: &'a Plan,
    pub(crate) test: &'a T,
    pub(crate) first: bool,
}

// What a join writes: the values of what is bound, and room for an answer.
#[derive(Drop)]
pub(crate) struct State {
    pub(crate) values: Vec<u32>,
    pub(crate) answer: Vec<u32>,
}

// A test that every answer passes.
struct Any;

impl Test for Any {
    ghost use Rattle.std.specs.Prelude.{true};

    ghost passes = { λ any answer. true };

    fn passes(&self, answer: &[u32]) -> bool {
        let _ = answer;
        true
    }
}

// The smaller of two numbers.
fn smaller(number: u32, other: u32) -> u32
    ensures low { result ≤ number }
    ensures high { result ≤ other }
    ensures all { (k : ℕ) → k < number → k < other → k < result }
{
    if number < other { number } else { other }
}

impl<T: Test> Join<'_, T> {
    // Whether the steps have a match for these values of what is bound.
    #[cycle(ask)]
    fn asks(&self, steps: &[Step], values: &mut Vec<u32>) -> Result<bool, NoMemory>
        requires plan { IsPlan self.now.relations.now self.now.plan.now }
        requires can { CanGoOn self.now.relations.now self.now.plan.now.query steps.now self.now.plan.now.end.items values.old.items }
        ensures decides { Decides result (AskedMatch self.now.relations.now self.now.plan.now steps.now values.old.items) }
        ensures values { OnOk result (values.new.items ≡ values.old.items) }
    {
        match steps.split_first() {
            None => Ok(true),
            Some((step, rest)) => self.asks_rows(step, rest, values),
        }
    }

    // Whether a step and the others have one.
    #[cycle(ask)]
    fn asks_rows(&self, step: &Step, rest: &[Step], values: &mut Vec<u32>) -> Result<bool, NoMemory>
        requires plan { IsPlan self.now.relations.now self.now.plan.now }
        requires can { CanGoOn self.now.relations.now self.now.plan.now.query (step.now ∷ rest.now) self.now.plan.now.end.items values.old.items }
        ensures decides { Decides result (AskedMatch self.now.relations.now self.now.plan.now (step.now ∷ rest.now) values.old.items) }
        ensures values { OnOk result (values.new.items ≡ values.old.items) }
    {
        let relation = &self.relations[step.relation as usize];
        let hash = hash_at(values.as_slice(), &step.places);
        let mut place = relation.last(step.index, values.as_slice(), &step.places, hash);
        while place > 0 {
            if self.asks_row(step, rest, relation.rows().row(place - 1), values)? {
                return Ok(true);
            }
            place = relation.before(step.index, values.as_slice(), &step.places, hash, place);
        }
        Ok(false)
    }

    // Whether they have one in which the step's row is this.
    #[cycle(ask)]
    fn asks_row(
        &self,
        step: &Step,
        rest: &[Step],
        row: &[u32],
        values: &mut Vec<u32>,
    ) -> Result<bool, NoMemory>
        requires plan { IsPlan self.now.relations.now self.now.plan.now }
        requires can { CanGoOn self.now.relations.now self.now.plan.now.query (step.now ∷ rest.now) self.now.plan.now.end.items values.old.items }
        requires wide { length row.now ≡ length (variables_of self.now.plan.now.query step.now) }
        ensures decides { Decides result (AskedMatch self.now.relations.now self.now.plan.now rest.now (values.old.items ++ picked row.now step.now.fresh.items)) }
        ensures values { OnOk result (values.new.items ≡ values.old.items) }
    {
        let count = values.len();
        put_picked(row, &step.fresh, values)?;
        let answer = self.asks(rest, values)?;
        values.truncate(count);
        Ok(answer)
    }

    // Puts the answers that are left for these values of what is bound, and tells whether it stopped at one.
    #[cycle(join)]
    fn joins(
        &self,
        alloc: Global,
        steps: &[Step],
        state: &mut State,
        found: &mut RowSet,
    ) -> Result<bool, NoMemory>
        requires plan { IsPlan self.now.relations.now self.now.plan.now }
        requires can { CanGoOn self.now.relations.now self.now.plan.now.query steps.now self.now.plan.now.bound.items state.old.values.items }
        requires width { found.old.width ≡ length self.now.plan.now.query.answer }
        ensures gained { HasGained result (LeftAnswer self.now.relations.now self.now.plan.now (T.passes self.now.test.now) steps.now state.old.values.items) self.now.first found.old found.new }
        ensures values { OnOk result (state.new.values.items ≡ state.old.values.items) }
    {
        match steps.split_first() {
            None => self.settles(alloc, state, found),
            Some((step, rest)) => self.joins_rows(alloc, step, rest, state, found),
        }
    }

    // The same, where a step is left.
    #[cycle(join)]
    fn joins_rows(
        &self,
        alloc: Global,
        step: &Step,
        rest: &[Step],
        state: &mut State,
        found: &mut RowSet,
    ) -> Result<bool, NoMemory>
        requires plan { IsPlan self.now.relations.now self.now.plan.now }
        requires can { CanGoOn self.now.relations.now self.now.plan.now.query (step.now ∷ rest.now) self.now.plan.now.bound.items state.old.values.items }
        requires width { found.old.width ≡ length self.now.plan.now.query.answer }
        ensures gained { HasGained result (LeftAnswer self.now.relations.now self.now.plan.now (T.passes self.now.test.now) (step.now ∷ rest.now) state.old.values.items) self.now.first found.old found.new }
        ensures values { OnOk result (state.new.values.items ≡ state.old.values.items) }
    {
        let relation = &self.relations[step.relation as usize];
        let hash = hash_at(&state.values, &step.places);
        let mut place = relation.last(step.index, &state.values, &step.places, hash);
        while place > 0 {
            let row = relation.rows().row(place - 1);
            if self.joins_row(alloc, step, rest, row, state, found)? {
                return Ok(true);
            }
            place = relation.before(step.index, &state.values, &step.places, hash, place);
        }
        Ok(false)
    }

    // The same, where the step's row is this.
    #[cycle(join)]
    fn joins_row(
        &self,
        alloc: Global,
        step: &Step,
        rest: &[Step],
        row: &[u32],
        state: &mut State,
        found: &mut RowSet,
    ) -> Result<bool, NoMemory>
        requires plan { IsPlan self.now.relations.now self.now.plan.now }
        requires can { CanGoOn self.now.relations.now self.now.plan.now.query (step.now ∷ rest.now) self.now.plan.now.bound.items state.old.values.items }
        requires wide { length row.now ≡ length (variables_of self.now.plan.now.query step.now) }
        requires width { found.old.width ≡ length self.now.plan.now.query.answer }
        ensures gained { HasGained result (LeftAnswer self.now.relations.now self.now.plan.now (T.passes self.now.test.now) rest.now (state.old.values.items ++ picked row.now step.now.fresh.items)) self.now.first found.old found.new }
        ensures values { OnOk result (state.new.values.items ≡ state.old.values.items) }
    {
        let count = state.values.len();
        put_picked(row, &step.fresh, &mut state.values)?;
        let stops = self.joins(alloc, rest, state, found)?;
        state.values.truncate(count);
        Ok(stops)
    }

    // Puts the answer that these values of all answer variables give, where it passes and the other steps have a match.
    fn settles(
        &self,
        alloc: Global,
        state: &mut State,
        found: &mut RowSet,
    ) -> Result<bool, NoMemory>
        requires plan { IsPlan self.now.relations.now self.now.plan.now }
        requires long { length state.old.values.items ≡ length self.now.plan.now.bound.items }
        requires width { found.old.width ≡ length self.now.plan.now.query.answer }
        ensures gained { HasGained result (LeftAnswer self.now.relations.now self.now.plan.now (T.passes self.now.test.now) [] state.old.values.items) self.now.first found.old found.new }
        ensures values { OnOk result (state.new.values.items ≡ state.old.values.items) }
    {
        state.answer.clear();
        put_picked(&state.values, &self.plan.answer, &mut state.answer)?;
        if !self.test.passes(&state.answer) || found.has(&state.answer) {
            return Ok(false);
        }
        if !self.asks(&self.plan.asked, &mut state.values)? {
            return Ok(false);
        }
        found.insert(alloc, &state.answer)?;
        Ok(self.first)
    }

    // Puts the answers of a slice that pass, and tells whether it stopped at one.
    fn joins_slice(
        &self,
        alloc: Global,
        from: u32,
        to: u32,
        found: &mut RowSet,
    ) -> Result<bool, NoMemory>
        requires plan { IsPlan self.now.relations.now self.now.plan.now }
        requires width { found.old.width ≡ length self.now.plan.now.query.answer }
        ensures { HasGained result (SliceAnswer self.now.relations.now self.now.plan.now (T.passes self.now.test.now) from to) self.now.first found.old found.new }
    {
        let rows = self.relations[self.plan.relation as usize].rows();
        let end = smaller(to, rows.len());
        let mut state = State {
            values: Vec::new(alloc),
            answer: Vec::new(alloc),
        };
        for place in from..end {
            state.values.clear();
            state.values.extend_from_slice(rows.row(place))?;
            if self.joins(alloc, &self.plan.joined, &mut state, found)? {
                return Ok(true);
            }
        }
        Ok(false)
    }
}

impl Relations {
    /// Puts the answers of a slice, the rows from number `from` to below number `to` of the relation that the plan begins with, each
    /// once. For want of memory only some of them may be there.
    pub fn answers(
        &self,
        alloc: Global,
        plan: &Plan,
        from: u32,
        to: u32,
        found: &mut RowSet,
    ) -> Result<(), NoMemory>
        requires plan { IsPlan self.now plan.now }
        requires width { found.old.width ≡ length plan.now.query.answer }
        ensures gained { HasOnlyGained (IsAnswerIn (contents self.now) plan.now.query plan.now.start from to) found.old found.new }
        ensures all { OnOk result (HasAll (IsAnswerIn (contents self.now) plan.now.query plan.now.start from to) found.new) }
    {
        let join = Join {
            relations: &self.relations,
            plan,
            test: &Any,
            first: false,
        };
        join.joins_slice(alloc, from, to, found)?;
        Ok(())
    }

    /// An answer of a slice that passes the test, and none only where no answer of the slice does. It looks no further than the first.
    pub fn first<T: Test>(
        &self,
        alloc: Global,
        plan: &Plan,
        from: u32,
        to: u32,
        test: &T,
    ) -> Result<Option<List<u32>>, NoMemory>
        requires plan { IsPlan self.now plan.now }
        ensures { IfOk result (IsFirst (IsAnswerIn (contents self.now) plan.now.query plan.now.start from to) (T.passes test.now)) }
    {
        let join = Join {
            relations: &self.relations,
            plan,
            test,
            first: true,
        };
        let mut found = RowSet::new(alloc, plan.answer.len());
        join.joins_slice(alloc, from, to, &mut found)?;
        if found.len() == 0 {
            return Ok(None);
        }
        let mut answer = Vec::new(alloc);
        answer.extend_from_slice(found.row(0))?;
        Ok(Some(List::from_vec(answer)))
    }
}
