//! Breaches, and the limits of a check.
use mast_canon::Origin;
use mast_join::Hit;

/// Rows that break what has an origin, with the terms that show how.
#[derive(Drop)]
pub struct Breach {
    /// The axiom or the constraint that is broken.
    pub origin: Origin,
    /// The terms, and the rows that give them.
    pub hit: Hit,
}

/// A limit that a specification meets.
#[derive(Clone, Copy, Debug, PartialEq, Eq)]
pub enum CheckLimit {
    /// There are more violation queries than there may be.
    Violations,
    /// The closure of a violation query has more members than it may have. The origin is that of the query; so many members
    /// were counted.
    Closure { origin: Origin, count: u32 },
}
