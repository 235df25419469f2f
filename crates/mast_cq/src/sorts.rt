//! Which arguments stand for objects and which for values, and the first that stands for both.
ghost use Rattle.std.specs.Prelude.{◌≡◌, List, [], ◌∷◌};
ghost use Rattle.mast_cq.specs.declared.atom.Atom.{Atom};
ghost use Rattle.mast_cq.specs.Sorts.{IsSortAnswer, HasSortAnswer, HasOneSortAnswer, objects_of, values_of, arguments_of};
ghost use Rattle.mast_cq.specs.inside.SortTests.{same_arg, stands, stands_in, clashes as clashes_in, first_where, first_in};

use crate::{Arg, Atom, CqRef};

/// A sort breach: the argument stands in an object place, and in a value place too or is a constant.
#[derive(Clone, Copy, Debug, PartialEq, Eq)]
pub struct SortClash {
    /// The argument.
    pub arg: Arg,
}

/// The sort breach of a query: of its arguments that clash, the one whose first place comes first. None exactly where
/// each argument other than `_` has one sort. The answer list plays no part.
pub fn sort_breach(query: CqRef) -> Option<SortClash>
    ensures { IsSortAnswer query.entry.atoms.now result }
{
    match first_clash(query.atoms) {
        None => None,
        Some(arg) => Some(SortClash { arg }),
    }
}

/// There is a sort breach or each argument has one sort, and not both; and there is one sort breach at most.
pub fn sort_breach_law()
    ensures some { (atoms : List Atom) → HasSortAnswer atoms }
    ensures one { (atoms : List Atom) → HasOneSortAnswer atoms }
{}

fn first_clash(atoms: &[Atom]) -> Option<Arg>
    ensures { result ≡ first_in (clashes_in atoms.now) atoms.now }
{
    for atom in atoms {
        if let Some(arg) = clash_of(atoms, *atom) {
            return Some(arg);
        }
    }
    None
}

fn clash_of(atoms: &[Atom], atom: Atom) -> Option<Arg>
    ensures { result ≡ first_where (clashes_in atoms.now) (arguments_of atom) }
{
    match atom {
        Atom::Class { arg, .. } => first_of(atoms, arg, Arg::Blank),
        Atom::Role { from, to, .. } => first_of(atoms, from, to),
        Atom::Attr { from, value, .. } => first_of(atoms, from, value),
    }
}

// `_` never clashes, so it may stand for a place that is not there.
fn first_of(atoms: &[Atom], x: Arg, y: Arg) -> Option<Arg>
    ensures { result ≡ first_where (clashes_in atoms.now) (x ∷ y ∷ []) }
{
    if clashes(atoms, x) {
        Some(x)
    } else if clashes(atoms, y) {
        Some(y)
    } else {
        None
    }
}

fn clashes(atoms: &[Atom], arg: Arg) -> bool
    ensures { result ≡ clashes_in atoms.now arg }
{
    match arg {
        Arg::Blank => false,
        Arg::Var(_) => is_object(atoms, arg) && is_value(atoms, arg),
        Arg::Constant(_) => is_object(atoms, arg),
    }
}

fn is_object(atoms: &[Atom], arg: Arg) -> bool
    ensures { result ≡ stands_in objects_of arg atoms.now }
{
    for atom in atoms {
        if is_object_of(*atom, arg) {
            return true;
        }
    }
    false
}

fn is_object_of(atom: Atom, arg: Arg) -> bool
    ensures { result ≡ stands arg (objects_of atom) }
{
    match atom {
        Atom::Class { arg: member, .. } => same(arg, member),
        Atom::Role { from, to, .. } => same(arg, from) || same(arg, to),
        Atom::Attr { from, .. } => same(arg, from),
    }
}

fn is_value(atoms: &[Atom], arg: Arg) -> bool
    ensures { result ≡ stands_in values_of arg atoms.now }
{
    for atom in atoms {
        if is_value_of(*atom, arg) {
            return true;
        }
    }
    false
}

fn is_value_of(atom: Atom, arg: Arg) -> bool
    ensures { result ≡ stands arg (values_of atom) }
{
    match atom {
        Atom::Class { .. } => false,
        Atom::Role { .. } => false,
        Atom::Attr { value, .. } => same(arg, value),
    }
}

fn same(x: Arg, y: Arg) -> bool
    ensures { result ≡ same_arg x y }
{
    match (x, y) {
        (Arg::Blank, Arg::Blank) => true,
        (Arg::Var(m), Arg::Var(n)) => m == n,
        (Arg::Constant(c), Arg::Constant(d)) => c == d,
        _ => false,
    }
}
