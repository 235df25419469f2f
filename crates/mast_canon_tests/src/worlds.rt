//! What the laws say of worlds and facts as crates above have them: a world in which everything is true, Kept, and the
//! members of a class.
ghost use Rattle.std.specs.Prelude.{◌≡◌, [], ⊤};
ghost use Rattle.mast_terms.specs.declared.term.Object.{Object};
ghost use Rattle.mast_terms.specs.declared.term.Term.TheVariants as term;
ghost use Rattle.mast_cq.specs.Meanings.{InClass};
ghost use Rattle.mast_cq.specs.Queries.{In};
ghost use Rattle.mast_canon.specs.DerivationLaws.{CertainGrows, DownIsSound};
ghost use Rattle.mast_canon.specs.Elements.{Named};
ghost use Rattle.mast_canon.specs.KeptChoices.{kind_of};
ghost use Rattle.mast_canon.specs.SeenWorlds.{seen};
ghost use Rattle.mast_canon.specs.SpecLaws.{HasCertainAnswers, HasNoModel, HasOnlyCertainAnswers};
ghost use Rattle.mast_canon_tests.specs.declared.worlds.Members.{Members};

use mast_canon::{Kept, Spec, Tables, World, growth_law, kept_law, through_law, world_law};
use mast_cq::Truth;
use mast_terms::{List, Name, Object, Term};

/// The world in which each element is in each class, and each two are a pair of each role and of each attribute.
pub struct Everything;

impl World for Everything {
    ghost class = { λ world a e. ⊤ };

    ghost role = { λ world p e f. ⊤ };

    ghost attr = { λ world u e v. ⊤ };

    ghost kind = { λ world e. kind_of [] [] e };

    ghost named = { λ world t. Named t };

    ghost fill = { λ world k e. e };
}

/// A specification with no axiom and no constraint has a model, whatever its tables have: everything may be true.
pub fn facts_alone_have_a_model(spec: &Spec, tables: &Tables)
    requires inclusions { spec.now.tbox.inclusions ≡ [] }
    requires negatives { spec.now.tbox.negatives ≡ [] }
    requires functional { spec.now.tbox.functional ≡ [] }
    requires constraints { spec.now.constraints ≡ [] }
    ensures { HasNoModel spec.now tables.now.list → ⊥ }
{
    world_law(&Everything, spec, tables);
}

/// Kept of facts with a model has the certain answers, and no others in named terms.
pub fn kept_has_the_certain_answers(kept: &Kept<'_>)
    requires { HasNoModel kept.now.spec.now kept.now.tables.now.list → ⊥ }
    ensures only { let k = kept.now in HasOnlyCertainAnswers (seen ⟦<Kept<'static> as World>⟧ k) k.spec.now k.tables.now.list }
    ensures all { let k = kept.now in HasCertainAnswers (seen ⟦<Kept<'static> as World>⟧ k) k.spec.now k.tables.now.list }
{
    kept_law(kept);
    world_law(kept, kept.spec, kept.tables);
}

/// That some objects are members of a class: facts as a crate above has them.
#[derive(Drop)]
pub struct Members {
    /// The class.
    pub class: Name,
    /// Its members.
    pub objects: List<Object>,
}

impl Truth<Term> for Members {
    ghost holds = { λ members f. (o : Object) × In o members.objects × (f ≡ InClass members.class (term.Object o)) };
}

/// More members give more certain answers, and what they have through Down is certain.
pub fn members_laws()
    ensures certain { (few many : Members) → CertainGrows (⟦<Members as Truth<Term>>⟧.holds few) (⟦<Members as Truth<Term>>⟧.holds many) }
    ensures sound { (members : Members) → DownIsSound (⟦<Members as Truth<Term>>⟧.holds members) }
{
    growth_law::<Members>();
    through_law::<Members>();
}
