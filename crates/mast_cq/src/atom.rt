//! Arguments and atoms, and their order.
ghost use Rattle.std.specs.Prelude.{◌≡◌, true, ◌↔◌};
ghost use Rattle.mast_terms.specs.Hashes.{TellsApart};
ghost use Rattle.mast_terms.specs.Orders.{OrdersAll};
ghost use Rattle.mast_cq.specs.Hashes.{FitsArg, FitsAtom};
ghost use Rattle.mast_cq.specs.Queries.{arg_order, atom_order};
ghost use Rattle.mast_cq.specs.declared.atom.Arg.{Arg};
ghost use Rattle.mast_cq.specs.declared.atom.Atom.{Atom};

use mast_terms::Name;
use std::hash::Hash;

/// An argument of an atom or of an answer list. `_` comes before the variables, and these before the constants.
#[derive(Clone, Copy, Debug, PartialEq, Eq, PartialOrd, Ord, Hash)]
pub enum Arg {
    /// `_`, a variable that stands nowhere else.
    Blank,
    /// The variable of this number.
    Var(u32),
    /// The constant of this number of the vocabulary.
    Constant(u32),
}

/// An atom. Atoms are ordered by kind, by the number of the name, and by the arguments from left to right.
#[derive(Clone, Copy, Debug, PartialEq, Eq, PartialOrd, Ord, Hash)]
pub enum Atom {
    /// The argument is in the class.
    Class { name: Name, arg: Arg },
    /// The two arguments are a pair of the role.
    Role { name: Name, from: Arg, to: Arg },
    /// The object has the value by the attribute.
    Attr { name: Name, from: Arg, value: Arg },
}

/// `==` holds exactly of equal arguments, and their order is `_`, the variables by number, the constants by number: a
/// total one, in which only equal ones tie. A hasher is fed each so that it is told from every other.
pub fn arg_laws()
    ensures equal { (x y : Arg) → (⟦<Arg as PartialEq>⟧.eq x y ≡ true) ↔ (x ≡ y) }
    ensures order { (x y : Arg) → ⟦<Arg as Ord>⟧.cmp x y ≡ arg_order x y }
    ensures total { OrdersAll arg_order }
    ensures hash { TellsApart FitsArg ⟦<Arg as Hash>⟧.hash_input }
{}

/// `==` holds exactly of equal atoms, and their order is by kind, number of the name, and arguments from left to right:
/// a total one, in which only equal ones tie. A hasher is fed each so that it is told from every other.
pub fn atom_laws()
    ensures equal { (g h : Atom) → (⟦<Atom as PartialEq>⟧.eq g h ≡ true) ↔ (g ≡ h) }
    ensures order { (g h : Atom) → ⟦<Atom as Ord>⟧.cmp g h ≡ atom_order g h }
    ensures total { OrdersAll atom_order }
    ensures hash { TellsApart FitsAtom ⟦<Atom as Hash>⟧.hash_input }
{}
