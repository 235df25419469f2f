//! Violations: queries with their origins and tests.
use mast_canon::Origin;
use mast_cq::Cq;
use mast_terms::Kind;

/// The greatest number of violation queries.
pub const MOST_VIOLATIONS: usize = 1_000_000;

/// What an answer has to pass so that it is a breach. Places of the answer list count from 0.
#[derive(Clone, Copy, Debug, PartialEq, Eq)]
pub enum Test {
    /// Each answer passes.
    Plain,
    /// The terms at the two places differ.
    Differ { left: usize, right: usize },
    /// The term at the place is a value of another kind.
    KindNot { at: usize, kind: Kind },
}

/// A query whose answers that pass the test show that something is broken, and what.
#[derive(Debug, PartialEq, Eq, Drop)]
pub struct Violation {
    /// The axiom or the constraint that is broken.
    pub origin: Origin,
    /// The query.
    pub query: Cq,
    /// What its answers have to pass.
    pub test: Test,
}

/// There are more violation queries than there may be.
#[derive(Clone, Copy, Debug, PartialEq, Eq)]
pub struct TooManyViolations;
