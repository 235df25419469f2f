//! The atoms of a list that lead the others.
ghost use Rattle.std.specs.Prelude.{◌↔◌, [], Contains, IfOk, OnOk};
ghost use Rattle.mast_cq.specs.NormalForms.{Ordered};
ghost use Rattle.mast_cq.specs.declared.atom.Atom.{Atom};
ghost use Rattle.mast_rewrite.specs.inside.Leaders.{IsSwept, LeaderOf, Sweeps};
ghost use Rattle.mast_tbox.specs.Laws.{IsClosed};

use indexmap::IndexSet;
use mast_cq::{Atom, atom_laws};
use mast_tbox::NormalTBox;
use mast_terms::NoMemory;
use std::alloc::Global;

/// The atoms that have in their `Down` each atom of the list that has them in its own, and come first of these.
///
/// Two sweeps find them. The first goes in the order of atoms and passes over what is below an atom before it: of atoms that
/// have each other in their `Down` it keeps the first. The second goes back, and passes over what is below a later one.
pub(crate) fn leaders(
    alloc: Global,
    normal: &NormalTBox,
    atoms: &[Atom],
) -> Result<Vec<Atom>, NoMemory>
    requires { Ordered atoms.now }
    ensures { IfOk result (λ v. (g : Atom) → Contains v.items g ↔ LeaderOf normal.now (Contains atoms.now) g) }
{
    let mut first = unled(alloc, normal, atoms)?;
    first.reverse();
    unled(alloc, normal, &first)
}

// The atoms that no atom before them has in its `Down`, in their order.
fn unled(alloc: Global, normal: &NormalTBox, atoms: &[Atom]) -> Result<Vec<Atom>, NoMemory>
    ensures { IfOk result (λ v. Sweeps normal.now [] atoms.now v.items) }
{
    atom_laws();
    let mut below = IndexSet::new(alloc);
    let mut unled = Vec::new(alloc);
    for atom in atoms {
        sweep_over(normal, *atom, &mut below, &mut unled)?;
    }
    Ok(unled)
}

// Passes over an atom that is below one before it, and keeps any other.
fn sweep_over(
    normal: &NormalTBox,
    atom: Atom,
    below: &mut IndexSet<Atom>,
    unled: &mut Vec<Atom>,
) -> Result<(), NoMemory>
    requires { IsClosed normal.now (Contains below.old.keys) }
    ensures swept { OnOk result (IsSwept normal.now atom below.old.keys below.new.keys unled.old.items unled.new.items) }
    ensures closed { OnOk result (IsClosed normal.now (Contains below.new.keys)) }
{
    atom_laws();
    if below.contains(&atom) {
        return Ok(());
    }
    unled.push(atom)?;
    normal.add_down(below, atom)
}
