//! SparSQL queries.

use mast_cq::Ucq;
use mast_terms::{List, Term, Text};
use sqlite_items::Boxed;

/// A query: selects with UNION, EXCEPT and INTERSECT over the rows of tables.
#[derive(Debug, Drop)]
pub struct Query {
    /// The selects and how they are set together.
    pub body: Body,
    /// Each `sparqltable`, in the order in which they are written: a union of conjunctive queries, its blocks.
    pub tables: List<Ucq>,
    /// The names of the columns.
    pub header: List<Text>,
}

/// A column: how many FROMs outwards, counted from the innermost one around the place; the entry of that FROM; and the
/// column of that entry. All count from 0.
#[derive(Clone, Copy, Debug, PartialEq, Eq)]
pub struct ColumnRef {
    pub scope: u32,
    pub entry: u32,
    pub column: u32,
}

/// A side of a comparison.
#[derive(Debug, Drop)]
pub enum Side {
    Column(ColumnRef),
    Term(Term),
}

/// What a choice of rows must meet. A chain of AND or of OR nests to the left.
#[cycle(query)]
#[derive(Debug, Drop)]
pub enum Condition {
    /// The condition of a select without WHERE.
    Always,
    Equal { left: Side, right: Side },
    Differ { left: Side, right: Side },
    Not(Boxed<Condition>),
    And(Boxed<Condition>, Boxed<Condition>),
    Or(Boxed<Condition>, Boxed<Condition>),
    /// The body has a row.
    Exists(Boxed<Body>),
}

/// What gives rows. A chain of set operators nests to the left.
#[cycle(query)]
#[derive(Debug, Drop)]
pub enum Body {
    Select {
        /// The columns that go out.
        items: List<ColumnRef>,
        /// The tables of FROM, by their numbers.
        entries: List<u32>,
        condition: Condition,
    },
    Union(Boxed<Body>, Boxed<Body>),
    Except(Boxed<Body>, Boxed<Body>),
    Intersect(Boxed<Body>, Boxed<Body>),
}
