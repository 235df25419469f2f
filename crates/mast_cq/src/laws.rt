//! What the normal form, unification and a closure's step mean, as laws that no code calls.
ghost use Rattle.std.specs.Prelude.{◌≡◌, ◌<◌, ◌≤◌, ◌++◌, ℕ, length, List, Bool, ◌↔◌};
ghost use Rattle.mast_terms.specs.declared.name.NameKind.{NameKind};
ghost use Rattle.mast_cq.specs.declared.atom.Arg.{Arg};
ghost use Rattle.mast_cq.specs.declared.atom.Atom.{Atom};
ghost use Rattle.mast_cq.specs.declared.query.Cq.{Cq};
ghost use Rattle.mast_cq.specs.ListPlaces.{TwoPlaces};
ghost use Rattle.mast_cq.specs.Meanings.{Fact, SameTuples};
ghost use Rattle.mast_cq.specs.NormalForms.{normal_form, IsNormal, Spread};
ghost use Rattle.mast_cq.specs.Origins.{AreFrom, ComesFrom, DrawsFrom, IsMerge, IsStep, KeepsNames, KeepsPassing, KnownQuery, NamesBelow, NamesPass, SomeAtom, VariablesStayWithin};
ghost use Rattle.mast_cq.specs.Properties.{PairsAreFacts, FactsArePairs};
ghost use Rattle.mast_cq.specs.Queries.{In, TakesTwo};
ghost use Rattle.mast_cq.specs.Sorts.{EachHasOneSort, all_arguments};
ghost use Rattle.mast_cq.specs.Steps.{StepsAreSound, StepsAreComplete, StepsFollow};
ghost use Rattle.mast_cq.specs.UnifierMeanings.{MeetingsAreComplete, UnifyingIsComplete, MeetingsAreSound, UnifyingIsSound, NoneIsApart, WinnersStay, OthersStay};

/// Which facts over terms of some kind hold, whatever they are: those of a list, or all that follow from some.
pub trait Truth<X> {
    // The fact holds.
    ghost holds: { Self → Fact X → Type 0 };
}

/// The normal form is normal: no variable outside the answer list stands in exactly one place, the atoms are in order,
/// and each stands once. So a variable that stands in an atom is an answer, or stands in a second place. What is normal
/// stays as it is, and there are never more atoms than before.
pub fn normal_form_law()
    ensures normal { (q : Cq) → IsNormal (normal_form q) }
    ensures spread { (q : Cq) → Spread (normal_form q) }
    ensures fixed { (q : Cq) → IsNormal q → normal_form q ≡ q }
    ensures fewer { (q : Cq) → length (normal_form q).atoms ≤ length q.atoms }
{}

/// A query and its normal form have the same tuples, whichever facts hold and whatever the constants stand for.
pub fn normal_meaning_law<X, W: Truth<X>>()
    ensures { (constant : ℕ → X) (w : W) (q : Cq) → SameTuples constant (W.holds w) q (normal_form q) }
{}

/// The arguments of a normal form come from the query: each argument but `_` of an atom stands at that place of an atom
/// of the query of that kind and name, and each atom of the query becomes one so. So known constants stay known, and sorts
/// stay one. Names stay below bounds, and pass any test of kind and number that the query's names pass: so they stay in a
/// vocabulary, or auxiliary roles.
pub fn normal_origin_law()
    ensures comes { (q : Cq) (g : Atom) → In g (normal_form q).atoms → SomeAtom (ComesFrom g) q.atoms }
    ensures becomes { (q : Cq) (h : Atom) → In h q.atoms → SomeAtom (λ g. ComesFrom g h) (normal_form q).atoms }
    ensures draws { (q : Cq) → DrawsFrom (normal_form q).atoms q.atoms }
    ensures known { (bound : ℕ) (q : Cq) → KnownQuery bound q → KnownQuery bound (normal_form q) }
    ensures names { (sizes : NameKind → ℕ) (q : Cq) → NamesBelow sizes q → NamesBelow sizes (normal_form q) }
    ensures named { (test : NameKind → ℕ → Bool) (q : Cq) → NamesPass test q → NamesPass test (normal_form q) }
    ensures sorts { (q : Cq) → EachHasOneSort q.atoms → EachHasOneSort (normal_form q).atoms }
{}

/// Unifying is complete: where one fact is met by both atoms under an assignment, the meeting exists, the assignment
/// respects its replacement, and the fact is its atom. So the unified query has what the query has under the assignment.
/// The constants of the two atoms must be below a bound, and different constants below it stand for different terms.
pub fn unify_complete_law<X, W: Truth<X>>()
    ensures meeting { (constant : ℕ → X) → MeetingsAreComplete constant }
    ensures query { (constant : ℕ → X) (w : W) → UnifyingIsComplete constant (W.holds w) }
{}

/// Unifying is sound: a unified atom splits back. No variable becomes `_`, and what the unified atom is under an
/// assignment, both atoms are after the replacement. So the query has each tuple that the unified query has.
pub fn unify_sound_law<X, W: Truth<X>>()
    ensures meeting { (constant : ℕ → X) → MeetingsAreSound constant }
    ensures query { (constant : ℕ → X) (w : W) → UnifyingIsSound constant (W.holds w) }
{}

/// What a variable becomes in a meeting is the variable itself, or wins over it: a constant, or a variable that is an
/// answer where the other is none, and else one with a lower number.
pub fn unify_winner_law()
    ensures { (answer : List Arg) (g h : Atom) → WinnersStay answer g h }
{}

/// A meeting moves no variable but those of its two atoms, and makes of each of them itself or an argument of the two.
pub fn unify_moves_law()
    ensures others { (answer : List Arg) (g h : Atom) → OthersStay answer g h }
    ensures within { (answer : List Arg) (g h : Atom) → VariablesStayWithin answer g h }
{}

/// Two atoms do not unify exactly where no assignment makes them one fact: they differ in kind or name, or two different
/// constants would have to be equal. The constants of the two atoms must be below a bound, and different constants below
/// it stand for different terms.
pub fn unify_none_law<X>()
    ensures { (constant : ℕ → X) → NoneIsApart constant }
{}

/// A closure's step keeps the meaning. It is the normal form of a merge, which is the query with the met atom in front of
/// the others. It is sound for two atoms that imply those of the query, as the members below them do. It is complete for two
/// that one fact is, under the premise of `unify_complete_law` on constants, and any meeting that the assignment respects may
/// follow.
pub fn step_meaning_law<X, W: Truth<X>>()
    ensures sound { (constant : ℕ → X) (w : W) → StepsAreSound constant (W.holds w) }
    ensures complete { (constant : ℕ → X) (w : W) → StepsAreComplete constant (W.holds w) }
    ensures follow { (constant : ℕ → X) (w : W) → StepsFollow constant (W.holds w) }
{}

/// A merge of two atoms, before the normal form, has fewer atoms, and its arguments come from the query: the arguments of its
/// atoms from those of the atoms, and of its answer list from these and the answer list. So known constants stay known. Names
/// stay below bounds, and pass any test that the names of the query and of the first atom met pass. Where each argument has
/// one sort, they come from places of the same sort, and each still has one.
pub fn merge_origin_law()
    ensures fewer { (q r : Cq) → IsMerge q r → length r.atoms < length q.atoms }
    ensures arguments { (q r : Cq) → IsMerge q r → AreFrom (all_arguments r.atoms) (all_arguments q.atoms) }
    ensures answer { (q r : Cq) → IsMerge q r → AreFrom r.answer (q.answer ++ all_arguments q.atoms) }
    ensures known { (bound : ℕ) (q r : Cq) → IsMerge q r → KnownQuery bound q → KnownQuery bound r }
    ensures names { (sizes : NameKind → ℕ) (q r : Cq) (merge : IsMerge q r) → KeepsNames sizes merge.left q r }
    ensures named { (test : NameKind → ℕ → Bool) (q r : Cq) (merge : IsMerge q r) → KeepsPassing test merge.left q r }
    ensures draws { (q r : Cq) → IsMerge q r → EachHasOneSort q.atoms → DrawsFrom r.atoms q.atoms }
    ensures sorts { (q r : Cq) → IsMerge q r → EachHasOneSort q.atoms → EachHasOneSort r.atoms }
{}

/// A closure's step, the normal form of a merge, has fewer atoms too, and its arguments come from the query in the same way.
pub fn step_origin_law()
    ensures fewer { (q r : Cq) → IsStep q r → length r.atoms < length q.atoms }
    ensures arguments { (q r : Cq) → IsStep q r → AreFrom (all_arguments r.atoms) (all_arguments q.atoms) }
    ensures answer { (q r : Cq) → IsStep q r → AreFrom r.answer (q.answer ++ all_arguments q.atoms) }
    ensures known { (bound : ℕ) (q r : Cq) → IsStep q r → KnownQuery bound q → KnownQuery bound r }
    ensures names { (sizes : NameKind → ℕ) (q r : Cq) (step : IsStep q r) → KeepsNames sizes step.merge.left q r }
    ensures named { (test : NameKind → ℕ → Bool) (q r : Cq) (step : IsStep q r) → KeepsPassing test step.merge.left q r }
    ensures draws { (q r : Cq) → IsStep q r → EachHasOneSort q.atoms → DrawsFrom r.atoms q.atoms }
    ensures sorts { (q r : Cq) → IsStep q r → EachHasOneSort q.atoms → EachHasOneSort r.atoms }
{}

/// The atom of a property is a fact under an assignment exactly where the fact is a pair of the property whose terms
/// the two arguments may stand for.
pub fn property_law<X>()
    ensures inward { (constant : ℕ → X) → PairsAreFacts constant }
    ensures outward { (constant : ℕ → X) → FactsArePairs constant }
{}

/// Two atoms are taken out of a list in this order exactly where they stand at two places, the first before the second.
pub fn places_law()
    ensures { (atoms rest : List Atom) (g h : Atom) → TakesTwo atoms g h rest ↔ TwoPlaces atoms g h rest }
{}
