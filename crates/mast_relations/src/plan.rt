//! Plans of joins.

use crate::query::Conjunction;

// How a pattern is joined to what is bound: by an index of its relation over those of its columns whose variables are bound.
#[derive(Drop)]
pub(crate) struct Step {
    // the pattern's number
    pub(crate) pattern: usize,
    pub(crate) relation: u32,
    // the index's number
    pub(crate) index: usize,
    // the variables that are bound before
    pub(crate) bound: Vec<u32>,
    // for each column of the index the place of its variable among them
    pub(crate) places: Vec<usize>,
    // the other columns, whose variables it binds
    pub(crate) fresh: Vec<usize>,
}

/// A plan of the join of a query, which begins with the rows of one of its patterns.
#[derive(Drop)]
pub struct Plan {
    pub query: Conjunction,
    /// The number of the pattern that the join begins with.
    pub start: usize,
    /// How many rows the relation of that pattern has.
    pub size: u32,
    // that relation
    pub(crate) relation: u32,
    // the steps until all answer variables are bound
    pub(crate) joined: Vec<Step>,
    // what is bound then
    pub(crate) bound: Vec<u32>,
    // the other steps, which only ask whether there is a match
    pub(crate) asked: Vec<Step>,
    // what is bound at the end
    pub(crate) end: Vec<u32>,
    // for each answer variable its place among those bound after the joined steps
    pub(crate) answer: Vec<usize>,
}
