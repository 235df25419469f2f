//! The normal form of a query.
ghost use Rattle.std.specs.Prelude.{◌≡◌, ◌≤◌, [], nat_eq, IfOk, OnOk};
ghost use Rattle.mast_cq.specs.Queries.{viewed};
ghost use Rattle.mast_cq.specs.NormalForms.{normal_form, settle as settle_of, places, in_order, put as put_of, blank as blank_of, blank_arg as blank_arg_of, alone as alone_of, uses, atom_uses, arg_uses, first_var, first_atom, first_arg};
ghost use Rattle.mast_cq.specs.inside.Blanks.{blank_if, blanked_all, first_of_two, IsPlace};

use crate::atom::atom_laws;
use crate::unifier::has_var;
use crate::{Arg, Atom, Cq, CqRef};
use mast_terms::{List, NoMemory};
use std::alloc::Global;
use std::cmp::Ordering;
use std::mem;

/// The normal form of a query: a variable that stands in one place of the atoms and not in the answer list becomes `_`,
/// the atoms are ordered, and a repeated one is dropped, until nothing changes. A dropped atom can leave another variable
/// in one place, so that it becomes `_` too: `R(x,y), R(x,z)` becomes `R(_,_)`.
///
/// It takes memory for its result, and for one buffer of the atoms.
pub fn norm(alloc: Global, query: CqRef) -> Result<Cq, NoMemory>
    ensures { IfOk result (λ cq. cq ≡ normal_form (viewed query.entry)) }
{
    let answer = copied(alloc, query.answer)?;
    let mut atoms = Vec::with_capacity(alloc, query.atoms.len())?;
    order_into(query.atoms, None, &mut atoms)?;
    let mut buffer = Vec::with_capacity(alloc, query.atoms.len())?;
    settle(query.answer, &mut atoms, &mut buffer)?;
    Ok(Cq {
        answer: List::from_vec(answer),
        atoms: List::from_vec(atoms),
    })
}

fn copied(alloc: Global, args: &[Arg]) -> Result<Vec<Arg>, NoMemory>
    ensures { IfOk result (λ v. v.items ≡ args.now) }
{
    let mut copy = Vec::with_capacity(alloc, args.len())?;
    for arg in args {
        copy.push(*arg)?;
    }
    Ok(copy)
}

// One variable after another becomes `_`, until none is alone. The atoms go from one vector to the other.
fn settle(answer: &[Arg], atoms: &mut Vec<Atom>, buffer: &mut Vec<Atom>) -> Result<(), NoMemory>
    ensures { OnOk result (atoms.new.items ≡ settle_of answer.now (places atoms.old.items) atoms.old.items) }
{
    loop {
        match first_alone(answer, atoms) {
            None => return Ok(()),
            Some(var) => {
                buffer.clear();
                order_into(atoms, Some(var), buffer)?;
                mem::swap(atoms, buffer);
            }
        }
    }
}

// Puts the atoms into an empty vector, in order and each once, after the variable became `_`.
fn order_into(atoms: &[Atom], lost: Option<u32>, into: &mut Vec<Atom>) -> Result<(), NoMemory>
    requires { into.old.items ≡ [] }
    ensures { OnOk result (into.new.items ≡ in_order (blanked_all lost atoms.now)) }
{
    let mut left = atoms.len();
    while left > 0 {
        left -= 1;
        put(into, blanked(lost, atoms[left]))?;
    }
    Ok(())
}

// Puts an atom into its place, if it is not there yet.
fn put(atoms: &mut Vec<Atom>, atom: Atom) -> Result<(), NoMemory>
    ensures { OnOk result (atoms.new.items ≡ put_of atom atoms.old.items) }
{
    match place(atoms, atom) {
        None => Ok(()),
        Some(at) => {
            atoms.insert(at, atom)?;
            Ok(())
        }
    }
}

// Where the atom is to be inserted; None where it is there.
fn place(atoms: &[Atom], atom: Atom) -> Option<usize>
    ensures { IsPlace atom atoms.now result }
{
    atom_laws();
    for at in 0..atoms.len() {
        let other = atoms[at];
        match atom.cmp(&other) {
            Ordering::Less => return Some(at),
            Ordering::Equal => return None,
            Ordering::Greater => {}
        }
    }
    Some(atoms.len())
}

fn blanked(lost: Option<u32>, atom: Atom) -> Atom
    ensures { result ≡ blank_if lost atom }
{
    match lost {
        None => atom,
        Some(var) => blank(var, atom),
    }
}

fn blank(var: u32, atom: Atom) -> Atom
    ensures { result ≡ blank_of var atom }
{
    match atom {
        Atom::Class { name, arg } => Atom::Class {
            name,
            arg: blank_arg(var, arg),
        },
        Atom::Role { name, from, to } => Atom::Role {
            name,
            from: blank_arg(var, from),
            to: blank_arg(var, to),
        },
        Atom::Attr { name, from, value } => Atom::Attr {
            name,
            from: blank_arg(var, from),
            value: blank_arg(var, value),
        },
    }
}

fn blank_arg(var: u32, arg: Arg) -> Arg
    ensures { result ≡ blank_arg_of var arg }
{
    match arg {
        Arg::Var(found) => { if found == var { Arg::Blank } else { arg } }
        _ => arg,
    }
}

// The first variable that stands once in the atoms and not in the answer list.
fn first_alone(answer: &[Arg], atoms: &[Atom]) -> Option<u32>
    ensures { result ≡ first_var (alone_of answer.now atoms.now) atoms.now }
{
    for atom in atoms {
        if let Some(var) = alone_of_atom(answer, atoms, *atom) {
            return Some(var);
        }
    }
    None
}

fn alone_of_atom(answer: &[Arg], atoms: &[Atom], atom: Atom) -> Option<u32>
    ensures { result ≡ first_atom (alone_of answer.now atoms.now) atom }
{
    match atom {
        Atom::Class { arg, .. } => alone_arg(answer, atoms, arg),
        Atom::Role { from, to, .. } => alone_of_two(answer, atoms, from, to),
        Atom::Attr { from, value, .. } => alone_of_two(answer, atoms, from, value),
    }
}

fn alone_of_two(answer: &[Arg], atoms: &[Atom], x: Arg, y: Arg) -> Option<u32>
    ensures { result ≡ first_of_two (alone_of answer.now atoms.now) x y }
{
    match alone_arg(answer, atoms, x) {
        Some(var) => Some(var),
        None => alone_arg(answer, atoms, y),
    }
}

fn alone_arg(answer: &[Arg], atoms: &[Atom], arg: Arg) -> Option<u32>
    ensures { result ≡ first_arg (alone_of answer.now atoms.now) arg }
{
    match arg {
        Arg::Var(var) => {
            if !has_var(answer, var) && stands_once(atoms, var) {
                Some(var)
            } else {
                None
            }
        }
        _ => None,
    }
}

fn stands_once(atoms: &[Atom], var: u32) -> bool
    ensures { result ≡ nat_eq (uses var atoms.now) 1 }
{
    let mut count: u32 = 0;
    for atom in atoms {
        count += uses_of_atom(*atom, var);
        if count > 1 {
            return false;
        }
    }
    count == 1
}

fn uses_of_atom(atom: Atom, var: u32) -> u32
    ensures count { result ≡ atom_uses var atom }
    ensures small { result ≤ 2 }
{
    match atom {
        Atom::Class { arg, .. } => uses_of(arg, var),
        Atom::Role { from, to, .. } => uses_of(from, var) + uses_of(to, var),
        Atom::Attr { from, value, .. } => uses_of(from, var) + uses_of(value, var),
    }
}

fn uses_of(arg: Arg, var: u32) -> u32
    ensures count { result ≡ arg_uses var arg }
    ensures small { result ≤ 1 }
{
    match arg {
        Arg::Var(found) => { if found == var { 1 } else { 0 } }
        _ => 0,
    }
}
