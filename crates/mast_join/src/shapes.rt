//! Atoms up to the names of their variables.
ghost use Rattle.std.specs.Prelude.{◌≡◌, IfOk};
ghost use Rattle.mast_join.specs.inside.Shapes as shapes;

use mast_cq::{Arg, Atom};
use mast_terms::NoMemory;
use std::alloc::Global;

// The arguments of an atom, from left to right. A class atom has one; `_` stands for the other.
pub(crate) fn arguments(atom: Atom) -> (Arg, Arg)
    ensures { result ≡ shapes.arguments atom }
{
    match atom {
        Atom::Class { arg, .. } => (arg, Arg::Blank),
        Atom::Role { from, to, .. } => (from, to),
        Atom::Attr { from, value, .. } => (from, value),
    }
}

// The first argument with its variable, if it is one, named 0.
fn first_shape(arg: Arg) -> Arg
    ensures { result ≡ shapes.first_shape arg }
{
    match arg {
        Arg::Var(_) => Arg::Var(0),
        other => other,
    }
}

// The second argument with its variable named 0 where it is that of the first, else 1.
fn second_shape(first: Arg, second: Arg) -> Arg
    ensures { result ≡ shapes.second_shape first second }
{
    match (first, second) {
        (Arg::Var(x), Arg::Var(y)) => { if x == y { Arg::Var(0) } else { Arg::Var(1) } }
        (_, second) => first_shape(second),
    }
}

// The atom with its variables named by the order in which they stand in it, from 0.
pub(crate) fn shape(atom: Atom) -> Atom
    ensures { result ≡ shapes.shape atom }
{
    match atom {
        Atom::Class { name, arg } => Atom::Class {
            name,
            arg: first_shape(arg),
        },
        Atom::Role { name, from, to } => Atom::Role {
            name,
            from: first_shape(from),
            to: second_shape(from, to),
        },
        Atom::Attr { name, from, value } => Atom::Attr {
            name,
            from: first_shape(from),
            value: second_shape(from, value),
        },
    }
}

// The variables of an atom, each once, in the order in which they stand in it.
pub(crate) fn variables(alloc: Global, atom: Atom) -> Result<Vec<u32>, NoMemory>
    ensures { IfOk result (λ list. list.items ≡ shapes.variables atom) }
{
    let (first, second) = arguments(atom);
    let mut variables = Vec::new(alloc);
    if let Arg::Var(x) = first {
        variables.push(x)?;
    }
    if let Arg::Var(y) = second {
        if first != second {
            variables.push(y)?;
        }
    }
    Ok(variables)
}

// What an argument asks of the number in its place: nothing, to be that of a variable's column, or to be this one.
#[derive(Clone, Copy, Debug, PartialEq, Eq)]
pub(crate) enum Asked {
    Nothing,
    Column(usize),
    Number(u32),
}
