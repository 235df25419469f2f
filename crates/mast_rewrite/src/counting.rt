//! Of all meetings of two atoms, those that count.
ghost use Rattle.std.specs.Prelude.{◌≡◌, ◌↔◌, ◌⊎◌, map, true, Contains, IfOk, OnOk};
ghost use Rattle.mast_cq.specs.NormalForms.{Ordered};
ghost use Rattle.mast_cq.specs.declared.atom.Atom.{Atom};
ghost use Rattle.mast_cq.specs.declared.unifier.Met.{Met};
ghost use Rattle.mast_rewrite.specs.inside.Leaders.{AreLeaders, AreWays, BindAlike, HasAtom, IsAtomAdded, IsWayAdded, LeadsWay, WithWay};

use crate::leaders::leaders;
use indexmap::IndexSet;
use mast_cq::{Atom, Bindings, Met, atom_laws};
use mast_tbox::NormalTBox;
use mast_terms::{List, NoMemory};
use std::alloc::Global;

/// Of all meetings of two atoms, those that count: of the meetings with one replacement those whose atom leads each that leads
/// it, and comes first of these.
pub(crate) fn counting(
    alloc: Global,
    normal: &NormalTBox,
    g: Atom,
    h: Atom,
    all: &[Met],
) -> Result<List<Met>, NoMemory>
    ensures { IfOk result (AreLeaders normal.now g h all.now) }
{
    let ways = replacements(alloc, g, h, all)?;
    gathered(alloc, normal, g, h, all, &ways)
}

// The meetings that count, of each replacement of the list.
fn gathered(
    alloc: Global,
    normal: &NormalTBox,
    g: Atom,
    h: Atom,
    all: &[Met],
    ways: &[Bindings],
) -> Result<List<Met>, NoMemory>
    requires { AreWays g h all.now ways.now }
    ensures { IfOk result (AreLeaders normal.now g h all.now) }
{
    let mut counting = Vec::new(alloc);
    for way in ways {
        add_counting(alloc, normal, g, h, all, *way, &mut counting)?;
    }
    Ok(List::from_vec(counting))
}

// The different replacements of the meetings of two atoms.
fn replacements(alloc: Global, g: Atom, h: Atom, all: &[Met]) -> Result<Vec<Bindings>, NoMemory>
    ensures { IfOk result (λ v. AreWays g h all.now v.items) }
{
    let mut ways = Vec::new(alloc);
    for met in all {
        add_way(&mut ways, g, h, met.replacement)?;
    }
    Ok(ways)
}

// Adds a replacement, if none is there that makes the same of the two atoms.
fn add_way(ways: &mut Vec<Bindings>, g: Atom, h: Atom, way: Bindings) -> Result<(), NoMemory>
    ensures { OnOk result (IsWayAdded g h way ways.old.items ways.new.items) }
{
    if has_way(ways, g, h, way) {
        return Ok(());
    }
    ways.push(way)?;
    Ok(())
}

fn has_way(ways: &[Bindings], g: Atom, h: Atom, way: Bindings) -> bool
    ensures { result ≡ true → (other : _) × Contains ways.now other × BindAlike g h other way }
{
    for other in ways {
        if is_alike(*other, way, g, h) {
            return true;
        }
    }
    false
}

// Adds the meetings with one replacement that count.
fn add_counting(
    alloc: Global,
    normal: &NormalTBox,
    g: Atom,
    h: Atom,
    all: &[Met],
    way: Bindings,
    counting: &mut Vec<Met>,
) -> Result<(), NoMemory>
    ensures { OnOk result ((met : Met) → Contains counting.new.items met ↔ (Contains counting.old.items met ⊎ LeadsWay normal.now g h all.now way met)) }
{
    let atoms = atoms_by(alloc, g, h, all, way)?;
    let leaders = leaders(alloc, normal, atoms.as_slice())?;
    push_all(way, &leaders, counting)?;
    Ok(())
}

// Adds the meetings that are written with a replacement and each of the atoms.
fn push_all(way: Bindings, atoms: &[Atom], counting: &mut Vec<Met>) -> Result<(), NoMemory>
    ensures { OnOk result ((met : Met) → Contains counting.new.items met ↔ (Contains counting.old.items met ⊎ WithWay way atoms.now met)) }
{
    for atom in atoms {
        counting.push(Met {
            replacement: way,
            atom: *atom,
        })?;
    }
    Ok(())
}

// The atoms of the meetings with one replacement, in order, each once.
fn atoms_by(
    alloc: Global,
    g: Atom,
    h: Atom,
    all: &[Met],
    way: Bindings,
) -> Result<IndexSet<Atom>, NoMemory>
    ensures exact { IfOk result (λ set. (a : Atom) → Contains set.keys a ↔ HasAtom g h all.now way a) }
    ensures order { IfOk result (λ set. Ordered set.keys) }
{
    atom_laws();
    let mut atoms = IndexSet::new(alloc);
    for met in all {
        add_atom(&mut atoms, g, h, way, *met)?;
    }
    atoms.sort()?;
    Ok(atoms)
}

// Adds the atom of a meeting, if it has this replacement.
fn add_atom(
    atoms: &mut IndexSet<Atom>,
    g: Atom,
    h: Atom,
    way: Bindings,
    met: Met,
) -> Result<(), NoMemory>
    ensures { OnOk result (IsAtomAdded ⟦<Atom as PartialEq>⟧.eq g h way met atoms.old.keys atoms.new.keys) }
{
    if !is_alike(met.replacement, way, g, h) {
        return Ok(());
    }
    atoms.insert(met.atom)?;
    Ok(())
}

// Whether two replacements make the same of two atoms. Those of meetings of them are one then, since they move no other variable.
fn is_alike(one: Bindings, other: Bindings, g: Atom, h: Atom) -> bool
    ensures { (result ≡ true) ↔ BindAlike g h one other }
{
    atom_laws();
    one.atom(g) == other.atom(g) && one.atom(h) == other.atom(h)
}
