//! What the definitions promise by themselves: laws, which no code calls.
ghost use Rattle.std.specs.Prelude.{List, []};
ghost use Rattle.mast_canon.specs.declared.rows.RowId.{RowId};
ghost use Rattle.mast_canon.specs.ConflictLaws.{EachReads, HaveNoModel, IsConflict, IsProperPart};
ghost use Rattle.mast_canon.specs.DerivationLaws.{CertainGrows, DownHoldsUp, DownIsSound, DownIsWhatHolds, HoldsGrows};
ghost use Rattle.mast_canon.specs.DerivationLaws.{NamedGoBack, NoModelStays, NormalKeepsFacts};
ghost use Rattle.mast_canon.specs.Elements.{Element};
ghost use Rattle.mast_canon.specs.Interpretations.{DecidedInterpretation, decided};
ghost use Rattle.mast_canon.specs.Laws.{ChoicesLieInTables, FactsGrow, SplitKeepsSupports, SupportsLieInTables};
ghost use Rattle.mast_canon.specs.SeenWorlds.{seen};
ghost use Rattle.mast_canon.specs.SpecFacts.{AllFacts};
ghost use Rattle.mast_canon.specs.SpecLaws.{HasCertainAnswers, HasNoModel, HasOnlyCertainAnswers, IsKeptOf, IsWorldOf, KeptLaws};
ghost use Rattle.mast_canon.specs.Theories.{Theory, theory_of};
ghost use Rattle.mast_canon.specs.WorldLaws.{HasKeptWorld, IsListed, IsWellFormed, KeptIsWorld, ModelsLaw, WorldLaw};
ghost use Rattle.mast_canon.specs.Worlds.{IsWorld};

use crate::{Kept, Spec, Tables, World};
use mast_cq::Truth;
use mast_terms::Term;

/// Splitting keeps facts: a fact has, by the split mappings, exactly the supports that it has by the mappings.
pub fn split_law()
    ensures { SplitKeepsSupports }
{}

/// The facts of a set of rows are facts of each larger set, and a support of a fact is a set of rows of the tables.
pub fn support_law()
    ensures grow { FactsGrow }
    ensures choices { ChoicesLieInTables }
    ensures supports { SupportsLieInTables }
{}

/// The normal inclusions keep what holds: over names that documents may use, the same facts hold by the inclusions and by
/// the normal inclusions, whichever facts are given.
pub fn normal_law<S: Truth<Term>>()
    ensures { (facts : S) → NormalKeepsFacts (S.holds facts) }
{}

/// More facts give more: what holds over some facts holds over more, what they break stays broken, and each certain
/// answer stays one.
pub fn growth_law<S: Truth<Term>>()
    ensures holds { (facts more : S) → HoldsGrows (S.holds facts) (S.holds more) }
    ensures broken { (facts more : S) → NoModelStays (S.holds facts) (S.holds more) }
    ensures certain { (facts more : S) → CertainGrows (S.holds facts) (S.holds more) }
{}

/// What Down says of the facts that hold: what holds of a member of Down of an atom holds of the atom; under an assignment
/// of named terms an atom holds exactly where a member of its Down is given. So tuples through Down are certain answers,
/// and certain answers by an assignment of named terms are tuples through Down.
pub fn through_law<S: Truth<Term>>()
    ensures up { (facts : S) → DownHoldsUp (S.holds facts) }
    ensures exact { (facts : S) → DownIsWhatHolds (S.holds facts) }
    ensures sound { (facts : S) → DownIsSound (S.holds facts) }
    ensures back { (facts : S) → NamedGoBack (S.holds facts) }
{}

/// Facts of a world have a model, and their certain answers are answers in it: facts of all rows of a specification's
/// tables, and any world over terms.
pub fn world_law<W: World>(world: &W, spec: &Spec, tables: &Tables)
    requires { IsWorldOf (seen W.World world.now) spec.now tables.now.list }
    ensures model { HasNoModel spec.now tables.now.list → ⊥ }
    ensures answers { HasCertainAnswers (seen W.World world.now) spec.now tables.now.list }
{}

/// Where the facts of all rows have a model, Kept is a world of the specification and these facts, and its answers in named
/// terms are the certain ones. It is Kept by the definition.
pub fn kept_law(kept: &Kept<'_>)
    requires { HasNoModel kept.now.spec.now kept.now.tables.now.list → ⊥ }
    ensures kept { let k = kept.now in IsKeptOf (seen ⟦<Kept<'static> as World>⟧ k) k.spec.now k.tables.now.list }
    ensures world { let k = kept.now in IsWorldOf (seen ⟦<Kept<'static> as World>⟧ k) k.spec.now k.tables.now.list }
    ensures answers { let k = kept.now in HasOnlyCertainAnswers (seen ⟦<Kept<'static> as World>⟧ k) k.spec.now k.tables.now.list }
{}

/// 'No model' and 'certain' have their ordinary meaning over the worlds whose relations are decided, whatever cells the
/// tables have. A kept interpretation is one of them.
pub fn models_law(spec: &Spec, tables: &Tables)
    ensures models { ModelsLaw (theory_of spec.now) (AllFacts spec.now tables.now.list) }
    ensures kept { KeptLaws spec.now tables.now.list }
{}

/// No rows are no conflict, where each mapping reads a table; and each proper part of a conflict has a model.
pub fn conflict_law(spec: &Spec, tables: &Tables)
    ensures empty { EachReads spec.now → IsConflict spec.now tables.now.list [] → ⊥ }
    ensures parts { (part rows : List RowId) → IsConflict spec.now tables.now.list rows → IsProperPart part rows
        → HaveNoModel spec.now tables.now.list part → ⊥ }
{}

/// The World law over any facts: those of a decided world have a model, and their certain answers are answers in it.
pub fn decided_world_law<S: Truth<Term>>()
    ensures { (w : DecidedInterpretation Element) (theory : Theory) (facts : S)
        → IsWorld (decided w) theory (S.holds facts) → WorldLaw (decided w) theory (S.holds facts) }
{}

/// The Kept law over any list of facts: where they have a model, each kept interpretation of them is a world of them, whose
/// answers in named terms are the certain ones. There is one, and its relations are decided.
pub fn decided_kept_law<S: Truth<Term>>()
    ensures kept { (w : DecidedInterpretation Element) (theory : Theory) (facts : S)
        → IsWellFormed theory (S.holds facts) → KeptIsWorld (decided w) theory (S.holds facts) }
    ensures exists { (theory : Theory) (facts : S) → IsListed (S.holds facts) → HasKeptWorld theory (S.holds facts) }
{}

/// The Models law over any list of facts.
pub fn decided_models_law<S: Truth<Term>>()
    ensures { (theory : Theory) (facts : S) → IsWellFormed theory (S.holds facts) → ModelsLaw theory (S.holds facts) }
{}
