//! That it is decided whether facts have a model, as laws that no code calls.
ghost use Rattle.std.specs.Prelude.{◌↔◌};
ghost use Rattle.mast_canon.specs.SpecFacts.{AllFacts};
ghost use Rattle.mast_canon.specs.SpecLaws.{HasNoModel};
ghost use Rattle.mast_canon.specs.Theories.{theory_of};
ghost use Rattle.mast_canon.specs.WorldLaws.{HasNoWorld};
ghost use Rattle.mast_tbox.specs.Laws.{Decided};
ghost use Rattle.mast_check.specs.DecidedLaws.{NoModelIsDecided};

use mast_canon::{Spec, Tables};
use mast_cq::Truth;
use mast_terms::{NameKind, Term};

/// Of a list of facts over names that documents may use it is decided whether they have a model.
pub fn decided_no_model_law<S: Truth<Term>>()
    ensures { (facts : S) → NoModelIsDecided (S.holds facts) }
{}

/// It is decided whether the facts of all rows have a model. They have none exactly where there is no decided world of the
/// specification and these facts.
pub fn no_model_law(spec: &Spec, tables: &Tables)
    ensures decided { Decided (HasNoModel spec.now tables.now.list) }
    ensures worlds { HasNoModel spec.now tables.now.list ↔ HasNoWorld (theory_of spec.now) (AllFacts spec.now tables.now.list) }
{
    let _ = tables;
    let _ = spec.vocab.len(NameKind::Class);
}
