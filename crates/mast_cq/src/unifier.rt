//! What two atoms become where they meet, and the query in which two of its atoms are unified.
ghost use Rattle.std.specs.Prelude.{◌≡◌, ◌≢◌, ◌<◌, ℕ, length, map, IfOk};
ghost use Rattle.mast_terms.specs.Orders.{TestsEquality};
ghost use Rattle.mast_cq.specs.Queries.{viewed, has_var as has_var_of};
ghost use Rattle.mast_cq.specs.Unification.{wins as wins_of, unify_args as unify_args_of, replace_arg as replace_arg_of, replace as replace_of, fuller as fuller_of, meeting, meeting_of_one, unified};
ghost use Rattle.mast_cq.specs.Meetings.{binding_of, replacement_of, meeting_of};
ghost use Rattle.mast_cq.specs.inside.PairMeetings.{bindings_of, both_pairs, unified_of, pairs_meet, PairsMeet};
ghost use Rattle.mast_cq.specs.declared.atom.Atom.TheVariants as atoms;

use crate::atom::{arg_laws, atom_laws};
use crate::{Arg, Atom, Cq, CqRef};
use mast_terms::{List, Name, NoMemory};
use std::alloc::Global;

/// A variable and the argument that it becomes.
#[derive(Clone, Copy, Debug, PartialEq, Eq)]
pub struct Binding {
    /// The variable.
    pub var: u32,
    /// What it becomes.
    pub arg: Arg,
}

/// A replacement of at most two variables, the first before the second.
#[derive(Clone, Copy, Debug, PartialEq, Eq)]
pub struct Bindings {
    /// What is replaced first.
    pub first: Option<Binding>,
    /// What is replaced after it.
    pub second: Option<Binding>,
}

/// The meeting of two atoms: a replacement, and the one atom that both become, to which it was applied.
///
/// `==` compares the bindings as they are written. Equal values are one meeting, but one meeting may have several values:
/// two replacements are one where they replace each variable alike, and the bindings of such can differ, as where a
/// variable that met itself is bound to itself, or where the one binding stands in the second place.
#[derive(Clone, Copy, Debug, PartialEq, Eq)]
pub struct Met {
    /// The replacement.
    pub replacement: Bindings,
    /// The atom.
    pub atom: Atom,
}

/// `==` holds exactly of equal bindings, and of two that are written with equal ones.
pub fn bindings_laws()
    ensures binding { TestsEquality ⟦<Binding as PartialEq>⟧.eq }
    ensures bindings { TestsEquality ⟦<Bindings as PartialEq>⟧.eq }
{
    arg_laws();
}

/// `==` of meetings holds exactly where they are written with equal bindings and have the same atom.
pub fn met_laws()
    ensures { TestsEquality ⟦<Met as PartialEq>⟧.eq }
{
    bindings_laws();
    atom_laws();
}

// What two pairs of arguments become where they meet.
#[derive(Clone, Copy)]
struct MetPair {
    replacement: Bindings,
    first: Arg,
    second: Arg,
}

impl Bindings {
    /// The argument after the replacement.
    pub fn arg(self, arg: Arg) -> Arg
        ensures { result ≡ replace_arg_of (replacement_of self) arg }
    {
        bound(self.second, bound(self.first, arg))
    }

    /// The atom after the replacement.
    pub fn atom(self, atom: Atom) -> Atom
        ensures { result ≡ replace_of (replacement_of self) atom }
    {
        match atom {
            Atom::Class { name, arg } => Atom::Class {
                name,
                arg: self.arg(arg),
            },
            Atom::Role { name, from, to } => Atom::Role {
                name,
                from: self.arg(from),
                to: self.arg(to),
            },
            Atom::Attr { name, from, value } => Atom::Attr {
                name,
                from: self.arg(from),
                value: self.arg(value),
            },
        }
    }
}

/// The query in which the atoms at two places are unified: both have become the unified atom, and the replacement was
/// applied to the other atoms and to the answer list. No atom is dropped, and each keeps its place; it is the normal form
/// that drops the copy. None exactly where the two atoms differ in kind or name, or would
/// make two different constants equal.
pub fn unify(
    alloc: Global,
    query: CqRef,
    first: usize,
    second: usize,
) -> Result<Option<Cq>, NoMemory>
    requires first_there { first < length query.atoms.now }
    requires second_there { second < length query.atoms.now }
    requires two { first ≢ second }
    ensures { IfOk result (λ cq. cq ≡ unified (viewed query.entry) first second) }
{
    match meet(query.answer, query.atoms[first], query.atoms[second]) {
        None => Ok(None),
        Some(met) => {
            let answer = replaced_args(alloc, met.replacement, query.answer)?;
            let mut atoms = replaced_atoms(alloc, met.replacement, query.atoms)?;
            atoms[first] = met.atom;
            atoms[second] = met.atom;
            Ok(Some(Cq {
                answer: List::from_vec(answer),
                atoms: List::from_vec(atoms),
            }))
        }
    }
}

fn replaced_args(alloc: Global, by: Bindings, args: &[Arg]) -> Result<Vec<Arg>, NoMemory>
    ensures { IfOk result (λ v. v.items ≡ map (replace_arg_of (replacement_of by)) args.now) }
{
    let mut replaced = Vec::with_capacity(alloc, args.len())?;
    for arg in args {
        replaced.push(by.arg(*arg))?;
    }
    Ok(replaced)
}

fn replaced_atoms(alloc: Global, by: Bindings, atoms: &[Atom]) -> Result<Vec<Atom>, NoMemory>
    ensures { IfOk result (λ v. v.items ≡ map (replace_of (replacement_of by)) atoms.now) }
{
    let mut replaced = Vec::with_capacity(alloc, atoms.len())?;
    for atom in atoms {
        replaced.push(by.atom(*atom))?;
    }
    Ok(replaced)
}

/// The meeting of two atoms of a query with this answer list, where they have one kind and one name and make no two
/// different constants equal.
pub fn meet(answer: &[Arg], g: Atom, h: Atom) -> Option<Met>
    ensures { meeting_of result ≡ meeting answer.now g h }
{
    match g {
        Atom::Class { name, arg } => meet_class(answer, name, arg, h),
        Atom::Role { name, from, to } => meet_role(answer, name, from, to, h),
        Atom::Attr { name, from, value } => meet_attr(answer, name, from, value, h),
    }
}

fn meet_class(answer: &[Arg], name: Name, x: Arg, h: Atom) -> Option<Met>
    ensures { meeting_of result ≡ meeting answer.now (atoms.Class name x) h }
{
    match h {
        Atom::Class { name: other, arg } => {
            if name.0 != other.0 {
                return None;
            }
            meet_classes(answer, name, x, arg)
        }
        _ => None,
    }
}

fn meet_role(answer: &[Arg], name: Name, x: Arg, y: Arg, h: Atom) -> Option<Met>
    ensures { meeting_of result ≡ meeting answer.now (atoms.Role name x y) h }
{
    match h {
        Atom::Role {
            name: other,
            from,
            to,
        } => {
            if name.0 != other.0 {
                return None;
            }
            meet_roles(answer, name, x, y, from, to)
        }
        _ => None,
    }
}

fn meet_attr(answer: &[Arg], name: Name, x: Arg, y: Arg, h: Atom) -> Option<Met>
    ensures { meeting_of result ≡ meeting answer.now (atoms.Attr name x y) h }
{
    match h {
        Atom::Attr {
            name: other,
            from,
            value,
        } => {
            if name.0 != other.0 {
                return None;
            }
            meet_attrs(answer, name, x, y, from, value)
        }
        _ => None,
    }
}

fn meet_classes(answer: &[Arg], name: Name, x: Arg, z: Arg) -> Option<Met>
    ensures { meeting_of result ≡ meeting_of_one (atoms.Class name) x z (unify_args_of answer.now x z) }
{
    match unify_args(answer, x, z) {
        None => None,
        Some(first) => {
            let replacement = Bindings {
                first,
                second: None,
            };
            let arg = fuller(bound(first, x), bound(first, z));
            Some(Met {
                replacement,
                atom: Atom::Class { name, arg },
            })
        }
    }
}

fn meet_roles(answer: &[Arg], name: Name, x: Arg, y: Arg, z: Arg, w: Arg) -> Option<Met>
    ensures { meeting_of result ≡ pairs_meet answer.now (atoms.Role name) x y z w }
{
    match meet_pairs(answer, x, y, z, w) {
        None => None,
        Some(met) => Some(Met {
            replacement: met.replacement,
            atom: Atom::Role {
                name,
                from: met.first,
                to: met.second,
            },
        }),
    }
}

fn meet_attrs(answer: &[Arg], name: Name, x: Arg, y: Arg, z: Arg, w: Arg) -> Option<Met>
    ensures { meeting_of result ≡ pairs_meet answer.now (atoms.Attr name) x y z w }
{
    match meet_pairs(answer, x, y, z, w) {
        None => None,
        Some(met) => Some(Met {
            replacement: met.replacement,
            atom: Atom::Attr {
                name,
                from: met.first,
                value: met.second,
            },
        }),
    }
}

// What stands at the two places of atoms whose arguments are (x, y) and (z, w).
fn meet_pairs(answer: &[Arg], x: Arg, y: Arg, z: Arg, w: Arg) -> Option<MetPair>
    ensures { PairsMeet answer.now x y z w result }
{
    match unify_pairs(answer, x, y, z, w) {
        None => None,
        Some(replacement) => Some(MetPair {
            replacement,
            first: fuller(replacement.arg(x), replacement.arg(z)),
            second: fuller(replacement.arg(y), replacement.arg(w)),
        }),
    }
}

fn unify_pairs(answer: &[Arg], x: Arg, y: Arg, z: Arg, w: Arg) -> Option<Bindings>
    ensures { bindings_of result ≡ both_pairs answer.now y w (unify_args_of answer.now x z) }
{
    match unify_args(answer, x, z) {
        None => None,
        Some(first) => match unify_args(answer, bound(first, y), bound(first, w)) {
            None => None,
            Some(second) => Some(Bindings { first, second }),
        },
    }
}

fn unify_args(answer: &[Arg], a: Arg, b: Arg) -> Option<Option<Binding>>
    ensures { unified_of result ≡ unify_args_of answer.now a b }
{
    match (a, b) {
        (Arg::Blank, _) => Some(None),
        (_, Arg::Blank) => Some(None),
        (Arg::Var(x), Arg::Var(y)) => {
            if wins(answer, x, y) {
                Some(Some(Binding { var: y, arg: a }))
            } else {
                Some(Some(Binding { var: x, arg: b }))
            }
        }
        (Arg::Var(x), Arg::Constant(_)) => Some(Some(Binding { var: x, arg: b })),
        (Arg::Constant(_), Arg::Var(y)) => Some(Some(Binding { var: y, arg: a })),
        (Arg::Constant(c), Arg::Constant(d)) => { if c == d { Some(None) } else { None } }
    }
}

fn wins(answer: &[Arg], x: u32, y: u32) -> bool
    ensures { result ≡ wins_of answer.now x y }
{
    if has_var(answer, x) {
        !has_var(answer, y) || x < y
    } else {
        !has_var(answer, y) && x < y
    }
}

pub(crate) fn has_var(answer: &[Arg], var: u32) -> bool
    ensures { result ≡ has_var_of answer.now var }
{
    for arg in answer {
        if let Arg::Var(found) = *arg {
            if found == var {
                return true;
            }
        }
    }
    false
}

fn bound(binding: Option<Binding>, arg: Arg) -> Arg
    ensures { result ≡ replace_arg_of (binding_of binding) arg }
{
    match (binding, arg) {
        (Some(b), Arg::Var(x)) => { if b.var == x { b.arg } else { arg } }
        _ => arg,
    }
}

fn fuller(a: Arg, b: Arg) -> Arg
    ensures { result ≡ fuller_of a b }
{
    match a {
        Arg::Blank => b,
        _ => a,
    }
}
