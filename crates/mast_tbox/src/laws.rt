//! What numbers, properties and the closure of an atom are, as laws that no code calls.
ghost use Rattle.std.specs.Prelude.{List, Contains, ◌↔◌};
ghost use Rattle.mast_cq.specs.declared.atom.Atom.{Atom};
ghost use Rattle.mast_tbox.specs.Closure.{AtomStep, Down};
ghost use Rattle.mast_tbox.specs.Expressions.{inverse};
ghost use Rattle.mast_tbox.specs.Inclusions.{normal, directly_below, IsDirectlyBelow};
ghost use Rattle.mast_tbox.specs.Laws.{Decided, IsDecided, IsReflexive, IsTransitive, IsSymmetric, IsKeptBy, IsFinite, NumbersDiffer, HasNoEnd, IsClosed, IsLeast, KeepsArguments, DrawsArguments, KeepsVariables, KeepsTwice, KeepsSorts, KeepsRange, KeepsPassing, NormalPasses, RangeIsBounded, BelowAgrees, EquivalentAgrees, SpecialisedAgrees, MeetingsAreLinked, BreachLaw};
ghost use Rattle.mast_tbox.specs.Lists.{Reaches, items};
ghost use Rattle.mast_tbox.specs.Names.{AreInRange};
ghost use Rattle.mast_tbox.specs.Numbers.{IsNumbered};
ghost use Rattle.mast_tbox.specs.Properties.{IsBelow, AreEquivalent};
ghost use Rattle.mast_tbox.specs.Restrictions.{IsSpecialised};
ghost use Rattle.mast_tbox.specs.declared.expression.Basic.{Basic};
ghost use Rattle.mast_tbox.specs.declared.expression.Prop.{Prop};
ghost use Rattle.mast_tbox.specs.declared.axiom.Inclusion.{Inclusion};
ghost use Rattle.mast_tbox.specs.declared.axiom.Lined.{Lined};

/// Each number is of one inclusion, among the inclusions of a TBox and among its normal ones. A normal inclusion that
/// adds a filler says nothing of its class.
pub fn number_law()
    ensures stated { (lines : List (Lined Inclusion)) → IsNumbered lines → NumbersDiffer (items lines) }
    ensures normal { (lines : List (Lined Inclusion)) → IsNumbered lines → NumbersDiffer (normal (items lines)) }
    ensures end { (tbox : List Inclusion) → HasNoEnd (normal tbox) }
{}

/// The list of the basic concepts directly below one has exactly these.
pub fn below_law()
    ensures { (tbox : List Inclusion) (b c : Basic) → Contains (directly_below tbox b) c ↔ IsDirectlyBelow tbox c b }
{}

/// `Down` of an atom holds the atom, is closed under the steps by inclusions, and is the least such set among those that
/// a test gives. Whether an atom stands in it is decided, and a list has exactly its members.
pub fn down_law()
    ensures itself { (tbox : List Inclusion) → IsReflexive (Down tbox) }
    ensures closed { (tbox : List Inclusion) (g : Atom) → IsClosed tbox (Down tbox g) }
    ensures least { (tbox : List Inclusion) (g : Atom) → IsLeast tbox g }
    ensures joined { (tbox : List Inclusion) → IsTransitive (Down tbox) }
    ensures decided { (tbox : List Inclusion) → IsDecided (Down tbox) }
    ensures finite { (tbox : List Inclusion) (g : Atom) → IsFinite (Down tbox g) }
{}

/// Where members of `Down` of two atoms have one name, inclusions link the names of the two atoms.
pub fn link_law()
    ensures { (tbox : List Inclusion) → MeetingsAreLinked tbox }
{}

/// What `Down` keeps of an atom: its arguments, but for `_`, each with its sort; the variables that occur in it and
/// that stand in both its places; that each argument of a query has one sort; and names in range, which are below bounds
/// that count the auxiliary roles. The names of its members pass any test of kind and number that the names of the atom and
/// of the inclusions pass; those of the normal inclusions do where those of the stated ones and their auxiliary roles do.
pub fn member_law()
    ensures arguments { (tbox : List Inclusion) → KeepsArguments tbox }
    ensures draws { (tbox : List Inclusion) → DrawsArguments tbox }
    ensures variables { (tbox : List Inclusion) → KeepsVariables tbox }
    ensures twice { (tbox : List Inclusion) → KeepsTwice tbox }
    ensures sorts { (tbox : List Inclusion) → KeepsSorts tbox }
    ensures range { (tbox : List Inclusion) → AreInRange tbox → KeepsRange tbox }
    ensures named { (tbox : List Inclusion) → KeepsPassing tbox }
    ensures normal { (tbox : List Inclusion) → NormalPasses tbox }
    ensures bounds { (lines : List (Lined Inclusion)) → IsNumbered lines → RangeIsBounded lines }
{}

/// Being below is reflexive and transitive and goes over to inverses. So being equivalent is, and it is symmetric.
pub fn property_order_law()
    ensures below_itself { (tbox : List Inclusion) → IsReflexive (IsBelow tbox) }
    ensures below_joined { (tbox : List Inclusion) → IsTransitive (IsBelow tbox) }
    ensures below_inverse { (tbox : List Inclusion) → IsKeptBy inverse (IsBelow tbox) }
    ensures itself { (tbox : List Inclusion) → IsReflexive (AreEquivalent tbox) }
    ensures turned { (tbox : List Inclusion) → IsSymmetric (AreEquivalent tbox) }
    ensures joined { (tbox : List Inclusion) → IsTransitive (AreEquivalent tbox) }
    ensures inverses { (tbox : List Inclusion) → IsKeptBy inverse (AreEquivalent tbox) }
{}

/// It is decided whether a step leads from an atom to another, whether a basic concept is directly below another and
/// whether it is reached by what is directly below, and whether a property is below another, equivalent to it, and
/// specialised.
pub fn decided_law()
    ensures step { (tbox : List Inclusion) → IsDecided (AtomStep tbox) }
    ensures directly { (tbox : List Inclusion) → IsDecided (IsDirectlyBelow tbox) }
    ensures reached { (tbox : List Inclusion) → IsDecided (Reaches (IsDirectlyBelow tbox)) }
    ensures below { (tbox : List Inclusion) → IsDecided (IsBelow tbox) }
    ensures equivalent { (tbox : List Inclusion) → IsDecided (AreEquivalent tbox) }
    ensures specialised { (tbox : List Inclusion) (p : Prop) → Decided (IsSpecialised tbox p) }
{}

/// For names in range, being below, equivalent and specialised by the normal inclusions is that by the stated ones.
pub fn stated_law()
    ensures below { (tbox : List Inclusion) → AreInRange tbox → BelowAgrees tbox }
    ensures equivalent { (tbox : List Inclusion) → AreInRange tbox → EquivalentAgrees tbox }
    ensures specialised { (tbox : List Inclusion) → AreInRange tbox → SpecialisedAgrees tbox }
{}

/// Axioms and constraints have one restriction breach, or none: there always is such an answer, and no other.
pub fn one_breach_law()
    ensures { BreachLaw }
{}
