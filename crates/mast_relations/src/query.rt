//! Conjunctions of patterns, and tests of their answers.
ghost use Rattle.std.specs.Prelude.{◌≡◌, ℕ, List as Items, Bool};

use mast_terms::List;

/// A pattern: the number of a relation, and a variable for each of its columns.
#[derive(Debug, Drop)]
pub struct Pattern {
    pub relation: u32,
    pub variables: List<u32>,
}

/// A conjunction: its answer variables, in order, and its patterns.
#[derive(Debug, Drop)]
pub struct Conjunction {
    pub answer: List<u32>,
    pub patterns: List<Pattern>,
}

/// A test of answers.
pub trait Test {
    // Whether an answer passes.
    ghost passes: { Self → Items ℕ → Bool };

    /// Whether the answer passes.
    fn passes(&self, answer: &[u32]) -> bool
        ensures { result ≡ passes self.now answer.now };
}
