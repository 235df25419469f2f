//! Numbers for the variables of a query.
ghost use Rattle.std.specs.Prelude.{◌≡◌, ◌≤◌, length, IfOk};
ghost use Rattle.std.specs.List.{AllZip};
ghost use Rattle.mast_cq.specs.Queries.{viewed};
ghost use Rattle.mast_cq.specs.declared.atom.Arg.TheVariants as arg;
ghost use Rattle.mast_join.specs.inside.Namings.{AreNames, IsFrontOf, IsNamed, most_names};
ghost use Rattle.mast_join.specs.inside.Values.{IsFront};

use crate::shapes::variables;
use indexmap::IndexSet;
use mast_cq::{Arg, Atom, CqRef};
use mast_terms::{List, NoMemory};
use std::alloc::Global;

// A query may have so many variables, atoms and places of its answer list at most.
pub(crate) const MOST: usize = 1_000_000_000;

// How many variables there are, the places of the variables of each atom among them, and those of the answer list.
#[derive(Drop)]
pub(crate) struct Names {
    pub(crate) count: u32,
    pub(crate) fronts: Vec<List<u32>>,
    pub(crate) answer: Vec<u32>,
}

// The place of a variable: the one that it has, or the next.
fn place(vars: &mut IndexSet<u32>, variable: u32) -> Result<u32, NoMemory>
    requires few { length vars.old.keys ≤ most_names }
    ensures few { length vars.new.keys ≤ most_names }
    ensures place { IfOk result (IsNamed vars.new.keys (arg.Var variable)) }
    ensures front { IsFront vars.old.keys vars.new.keys }
{
    if vars.len() >= MOST {
        return Err(NoMemory);
    }
    let (place, _) = vars.insert_full(variable)?;
    Ok(place as u32)
}

// The places of the variables of an atom.
fn front(alloc: Global, vars: &mut IndexSet<u32>, atom: Atom) -> Result<List<u32>, NoMemory>
    requires few { length vars.old.keys ≤ most_names }
    ensures few { length vars.new.keys ≤ most_names }
    ensures front { IsFront vars.old.keys vars.new.keys }
    ensures places { IfOk result (IsFrontOf vars.new.keys atom) }
{
    let mut front = List::new(alloc);
    let variables = variables(alloc, atom)?;
    for variable in &variables {
        front.push(alloc, place(vars, *variable)?)?;
    }
    Ok(front)
}

// The same of several atoms.
fn fronts(
    alloc: Global,
    vars: &mut IndexSet<u32>,
    atoms: &[Atom],
) -> Result<Vec<List<u32>>, NoMemory>
    requires few { length vars.old.keys ≤ most_names }
    ensures few { length vars.new.keys ≤ most_names }
    ensures front { IsFront vars.old.keys vars.new.keys }
    ensures places { IfOk result (λ fronts. AllZip (IsFrontOf vars.new.keys) atoms.now fronts.items) }
{
    let mut fronts = Vec::new(alloc);
    for atom in atoms {
        fronts.push(front(alloc, vars, *atom)?)?;
    }
    Ok(fronts)
}

// The place of an argument, where it is a variable.
fn name(vars: &mut IndexSet<u32>, arg: Arg) -> Result<u32, NoMemory>
    requires few { length vars.old.keys ≤ most_names }
    ensures few { length vars.new.keys ≤ most_names }
    ensures front { IsFront vars.old.keys vars.new.keys }
    ensures place { IfOk result (IsNamed vars.new.keys arg) }
{
    match arg {
        Arg::Blank => Ok(0),
        Arg::Var(variable) => place(vars, variable),
        Arg::Constant(_) => Ok(0),
    }
}

// The same of an answer list.
fn answer_names(
    alloc: Global,
    vars: &mut IndexSet<u32>,
    answer: &[Arg],
) -> Result<Vec<u32>, NoMemory>
    requires few { length vars.old.keys ≤ most_names }
    ensures few { length vars.new.keys ≤ most_names }
    ensures front { IsFront vars.old.keys vars.new.keys }
    ensures places { IfOk result (λ names. AllZip (IsNamed vars.new.keys) answer.now names.items) }
{
    let mut names = Vec::new(alloc);
    for arg in answer {
        names.push(name(vars, *arg)?)?;
    }
    Ok(names)
}

// The places of the variables of a query.
pub(crate) fn names_of(alloc: Global, query: CqRef<'_>) -> Result<Names, NoMemory>
    ensures names { IfOk result (AreNames (viewed query.entry)) }
    ensures few { IfOk result (λ names. names.count ≤ most_names) }
{
    let mut vars = IndexSet::new(alloc);
    let fronts = fronts(alloc, &mut vars, query.atoms)?;
    let answer = answer_names(alloc, &mut vars, query.answer)?;
    let count = vars.len() as u32;
    Ok(Names {
        count,
        fronts,
        answer,
    })
}
