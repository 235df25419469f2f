//! The patterns of identifications: walks along paths from two variables to common ends.
ghost use Rattle.std.specs.Prelude.{◌≡◌, ◌+◌, ◌*◌, ◌<◌, ◌≤◌, ◌++◌, [], ◌∷◌, length, IfOk, OnOk, MatchOption};
ghost use Rattle.mast_tbox.specs.ConstraintForms.{HasPathForm, IsIdentification, steps_together};
ghost use Rattle.mast_tbox.specs.Restrictions.{along};
ghost use Rattle.mast_violate.specs.Patterns.{step_atom as atom_of_step, new_or_end as new_or_end_of, leads_to};
ghost use Rattle.mast_violate.specs.Patterns.{new_after, walk, both_walks, end_of, all_walks, identified_pattern};
ghost use Rattle.mast_cq.specs.declared.atom.Arg.TheVariants.{Var};

use mast_cq::{Arg, Atom};
use mast_tbox::{Basic, Prop, Step};
use mast_terms::{List, NoMemory};
use std::alloc::Global;

/// The pattern of an identification.
pub(crate) fn identified(
    alloc: Global,
    concept: Basic,
    paths: &[List<Step>],
) -> Result<List<Atom>, NoMemory>
    requires { IsIdentification paths.now }
    ensures { IfOk result (λ atoms. atoms ≡ identified_pattern concept paths.now) }
{
    let mut atoms = List::new(alloc);
    atoms.push(alloc, concept.at(Arg::Var(0)))?;
    atoms.push(alloc, concept.at(Arg::Var(1)))?;
    add_paths(alloc, &mut atoms, paths)?;
    Ok(atoms)
}

// The walks of all paths, the first new variable being 2.
fn add_paths(alloc: Global, atoms: &mut List<Atom>, paths: &[List<Step>]) -> Result<(), NoMemory>
    requires { IsIdentification paths.now }
    ensures { OnOk result (atoms.new ≡ atoms.old ++ all_walks 2 paths.now) }
{
    let mut new = 2;
    for path in paths {
        new = add_path(alloc, atoms, path.as_slice(), new)?;
    }
    Ok(())
}

// The walks of one path from a new variable on. The next new variable is answered.
fn add_path(alloc: Global, atoms: &mut List<Atom>, path: &[Step], new: u32) -> Result<u32, NoMemory>
    requires long { 1 ≤ length (along path.now) }
    requires small { new + 2 * length path.now ≤ 1000 }
    ensures walks { OnOk result (atoms.new ≡ atoms.old ++ both_walks new (length (along path.now)) path.now) }
    ensures next { IfOk result (λ next. next ≡ end_of (new + length (along path.now)) (length (along path.now))) }
{
    let long = moves(path);
    let end = new + long - 1;
    add_walk(alloc, atoms, path, 0, new, end)?;
    add_walk(alloc, atoms, path, 1, new + long, end)?;
    Ok(new + long + long - 1)
}

// How many steps go along a role or an attribute.
fn moves(path: &[Step]) -> u32
    requires { length path.now ≤ 2000 }
    ensures is { result ≡ length (along path.now) }
    ensures few { result ≤ length path.now }
{
    match path {
        [] => 0,
        [Step::Test(_), rest @ ..] => moves(rest),
        [Step::Role(_), rest @ ..] => 1 + moves(rest),
        [Step::Attr(_), rest @ ..] => 1 + moves(rest),
    }
}

// The walk of a path from a variable to an end.
fn add_walk(
    alloc: Global,
    atoms: &mut List<Atom>,
    path: &[Step],
    from: u32,
    new: u32,
    end: u32,
) -> Result<(), NoMemory>
    requires { new + length path.now ≤ 2000 }
    ensures { OnOk result (atoms.new ≡ atoms.old ++ walk from new end path.now) }
{
    match parted(path) {
        None => Ok(()),
        Some((step, rest)) => {
            let to = reached(step, moves(rest), from, new, end);
            atoms.push(alloc, written(step, Arg::Var(from), Arg::Var(to)))?;
            add_walk(alloc, atoms, rest, to, passed(step, new), end)
        }
    }
}

// The first step and the rest.
fn parted(path: &[Step]) -> Option<(Step, &[Step])>
    ensures { MatchOption result (path.now ≡ []) (λ p. path.now ≡ p.0 ∷ p.1.now) }
{
    match path {
        [] => None,
        [first, rest @ ..] => Some((*first, rest)),
    }
}

// The atom that a step writes.
fn written(step: Step, from: Arg, to: Arg) -> Atom
    ensures { result ≡ atom_of_step step from to }
{
    match step {
        Step::Role(role) => Prop::Role(role).pair(from, to),
        Step::Test(name) => Atom::Class { name, arg: from },
        Step::Attr(name) => Atom::Attr {
            name,
            from,
            value: to,
        },
    }
}

// The variable that a step leads to, where so many roles and attributes come after it.
fn reached(step: Step, after: u32, from: u32, new: u32, end: u32) -> u32
    ensures { result ≡ leads_to step after from new end }
{
    match step {
        Step::Test(_) => from,
        Step::Role(_) => new_or_end(after, new, end),
        Step::Attr(_) => new_or_end(after, new, end),
    }
}

fn new_or_end(after: u32, new: u32, end: u32) -> u32
    ensures { result ≡ new_or_end_of after new end }
{
    if after == 0 { end } else { new }
}

// The next new variable after a step.
fn passed(step: Step, new: u32) -> u32
    requires { new < 2000 }
    ensures { result ≡ new_after step new }
{
    match step {
        Step::Test(_) => new,
        Step::Role(_) => new + 1,
        Step::Attr(_) => new + 1,
    }
}
