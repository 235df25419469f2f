//! What meetings, the closure of a query and its members are, as laws that no code calls.
ghost use Rattle.std.specs.Prelude.{List, Bool, ◌↔◌};
ghost use Rattle.mast_cq.specs.NormalForms.{normal_form, IsNormal};
ghost use Rattle.mast_cq.specs.Unification.{Meeting};
ghost use Rattle.mast_cq.specs.declared.atom.Arg.{Arg};
ghost use Rattle.mast_cq.specs.declared.atom.Atom.{Atom};
ghost use Rattle.mast_cq.specs.declared.query.Cq.{Cq};
ghost use Rattle.mast_canon.specs.Facts.{IsOfTables};
ghost use Rattle.mast_canon.specs.Laws.{Passing};
ghost use Rattle.mast_canon.specs.declared.rows.RowId.{RowId};
ghost use Rattle.mast_canon.specs.declared.spec.Spec.{Spec as Specification};
ghost use Rattle.mast_tables.specs.Rows.{Row};
ghost use Rattle.mast_tbox.specs.Laws.{IsFinite};
ghost use Rattle.mast_tbox.specs.declared.axiom.Inclusion.{Inclusion};
ghost use Rattle.mast_rewrite.specs.ClosureLaws.{CountsSimply, EachIsLed, IsClosedUnderSteps, IsLeastClosure, IsNoLarger, KeepsKnown, KeepsPassing, KeepsSorts, MeetsItself};
ghost use Rattle.mast_rewrite.specs.Closures.{Closure};
ghost use Rattle.mast_rewrite.specs.CountingMeetings.{Counts, IsMeeting};
ghost use Rattle.mast_rewrite.specs.Rewritings.{RewritesQueries, RewritingIsComplete, RewritingIsSound};

use mast_cq::Truth;
use mast_terms::Term;

/// Meetings: an atom meets itself at itself, and nothing is replaced. Two atoms have finitely many meetings, and each is led
/// by one that counts. A meeting counts exactly where it leads each meeting that leads it, and none of these has an earlier
/// atom.
pub fn meeting_law()
    ensures itself { (answer : List Arg) (g : Atom) → MeetsItself answer g }
    ensures finite { (tbox : List Inclusion) (q : Cq) (g h : Atom) → IsFinite (IsMeeting tbox q g h) }
    ensures led { (tbox : List Inclusion) (q : Cq) (g h : Atom) → EachIsLed tbox q g h }
    ensures counts { (tbox : List Inclusion) (q : Cq) (g h : Atom) (m : Meeting) → Counts tbox q g h m ↔ CountsSimply tbox q g h m }
{}

/// The closure of a query has its normal form, is closed under the steps, and is the least such set among those that a test
/// gives. It is finite.
pub fn closure_law()
    ensures begins { (tbox : List Inclusion) (q : Cq) → Closure tbox q (normal_form q) }
    ensures closed { (tbox : List Inclusion) (q : Cq) → IsClosedUnderSteps tbox (Closure tbox q) }
    ensures least { (tbox : List Inclusion) (q : Cq) → IsLeastClosure tbox q }
    ensures finite { (tbox : List Inclusion) (q : Cq) → IsFinite (Closure tbox q) }
{}

/// What a member of the closure of a query is and keeps of it: it is in normal form, and no larger than the query. Known
/// constants stay known, each argument still has one sort, and the names pass any test of kind and number that the names
/// of the query and of the inclusions pass.
pub fn closure_member_law()
    ensures normal { (tbox : List Inclusion) (q m : Cq) → Closure tbox q m → IsNormal m }
    ensures smaller { (tbox : List Inclusion) (q m : Cq) → Closure tbox q m → IsNoLarger q m }
    ensures known { (tbox : List Inclusion) (q m : Cq) → Closure tbox q m → KeepsKnown q m }
    ensures sorts { (tbox : List Inclusion) (q m : Cq) → Closure tbox q m → KeepsSorts q m }
    ensures named { (tbox : List Inclusion) (q m : Cq) → Closure tbox q m → KeepsPassing tbox q m }
{}

/// Rewriting is sound and complete, whichever facts are given: a tuple is a certain answer of a query exactly where some
/// member of its closure has it in the facts through `Down`.
pub fn rewriting_law<S: Truth<Term>>()
    ensures sound { (facts : S) → RewritingIsSound (S.holds facts) }
    ensures complete { (facts : S) → RewritingIsComplete (S.holds facts) }
{}

/// So it is for each specification over the names of a vocabulary, and the facts of all rows of its tables, or of some: a
/// tuple is a certain answer exactly where some member of the closure has it through `Down`.
pub fn spec_rewriting_law()
    ensures all { (spec : Specification) (tables : List (List Row)) → RewritesQueries spec tables (IsOfTables tables) }
    ensures some { (spec : Specification) (tables : List (List Row)) (rows : RowId → Bool) → RewritesQueries spec tables (Passing rows) }
{}
