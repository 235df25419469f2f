//! What violations promise, as laws that no code calls.
ghost use Rattle.mast_canon.specs.Theories.{Theory};
ghost use Rattle.mast_tbox.specs.ConstraintForms.{HaveForm};
ghost use Rattle.mast_violate.specs.Breaches.{AreBreaches, violations_of};

use mast_cq::Truth;
use mast_terms::Term;

/// Violation queries are breaches, whichever facts are given: what an origin names is broken exactly where the query of
/// some violation of that origin has a certain answer that passes its test.
pub fn violation_law<S: Truth<Term>>()
    ensures { (facts : S) (theory : Theory) → HaveForm theory.constraints
        → AreBreaches (S.holds facts) theory (violations_of theory) }
{}
