//! What the laws of meaning say over the facts of a list: a truth of facts as a crate above has it.
ghost use Rattle.mast_cq.specs.Meanings.{Match, SameTuples};
ghost use Rattle.mast_cq.specs.NormalForms.{normal_form};
ghost use Rattle.mast_cq.specs.Queries.{In};
ghost use Rattle.mast_cq.specs.Steps.{StepsAreComplete};
ghost use Rattle.mast_cq.specs.declared.atom.Atom.{Atom};
ghost use Rattle.mast_cq.specs.declared.query.Cq.{Cq};
ghost use Rattle.mast_cq_tests.specs.declared.facts.Facts.{Facts};

use mast_cq::{Atom, Truth, normal_meaning_law, step_meaning_law};
use mast_terms::List;

/// Facts over numbers, written as atoms in which each constant and each variable is the number itself.
#[derive(Drop)]
pub struct Facts {
    /// The facts.
    pub atoms: List<Atom>,
}

impl Truth<u32> for Facts {
    ghost holds = { λ facts f. (g : Atom) × In g facts.atoms × Match (λ n. n) (λ n. n) g f };
}

/// Over the facts of a list, a query has the tuples of its normal form, and a closure's steps are complete.
pub fn facts_laws()
    ensures normal { (w : Facts) (q : Cq) → SameTuples (λ n. n) (⟦<Facts as Truth<u32>>⟧.holds w) q (normal_form q) }
    ensures complete { (w : Facts) → StepsAreComplete (λ n. n) (⟦<Facts as Truth<u32>>⟧.holds w) }
{
    normal_meaning_law::<u32, Facts>();
    step_meaning_law::<u32, Facts>();
}
