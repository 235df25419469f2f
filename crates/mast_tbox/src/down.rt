//! What is below an atom.
ghost use Rattle.std.specs.Prelude.{◌≡◌, ◌↔◌, ◌⊎◌, Contains, IfOk, OnOk};
ghost use Rattle.mast_cq.specs.declared.atom.Atom.{Atom};
ghost use Rattle.mast_cq.specs.NormalForms.{Ordered};
ghost use Rattle.mast_tbox.specs.Closure.{Down};
ghost use Rattle.mast_tbox.specs.Laws.{IsClosed};
ghost use Rattle.mast_tbox.specs.inside.StepLists.{steps_of, if_blank, all_at, all_pairs};
ghost use Rattle.mast_tbox.specs.inside.Chosen.{AreAdded};

use crate::{Basic, NormalTBox, Prop, RoleExpr};
use indexmap::IndexSet;
use mast_cq::{Arg, Atom, atom_laws};
use mast_terms::{List, NoMemory};
use std::alloc::Global;

impl NormalTBox {
    /// `Down` of an atom: the least set of atoms that holds it and is closed under the steps by inclusions. The atoms
    /// come in their order, each once.
    ///
    /// A step looks up the right side that it needs, so the work is that of the atoms given and of their order.
    pub fn down(&self, alloc: Global, atom: Atom) -> Result<List<Atom>, NoMemory>
        ensures exact { IfOk result (λ list. (h : Atom) → Contains list h ↔ Down self.now atom h) }
        ensures order { IfOk result Ordered }
    {
        atom_laws();
        let mut set = self.reached(alloc, atom)?;
        set.sort()?;
        listed(alloc, set.as_slice())
    }

    /// Adds `Down` of an atom to a set that is closed under the steps by inclusions, as the empty set is and each that this call
    /// leaves.
    ///
    /// The steps on what is in the set already are not looked at: the work is that of the atoms that are added.
    pub fn add_down(&self, set: &mut IndexSet<Atom>, atom: Atom) -> Result<(), NoMemory>
        requires { IsClosed self.now (Contains set.old.keys) }
        ensures exact { OnOk result ((h : Atom) → Contains set.new.keys h ↔ (Contains set.old.keys h ⊎ Down self.now atom h)) }
        ensures closed { OnOk result (IsClosed self.now (Contains set.new.keys)) }
    {
        atom_laws();
        let start = set.len();
        set.insert(atom)?;
        for done in start..usize::MAX {
            let next = match set.get_index(done) {
                Some(next) => *next,
                None => return Ok(()),
            };
            self.add_steps(set, next)?;
        }
        let _count = set.len();
        Ok(())
    }

    // The atoms in the order in which they are reached.
    fn reached(&self, alloc: Global, atom: Atom) -> Result<IndexSet<Atom>, NoMemory>
        ensures { IfOk result (λ set. (h : Atom) → Contains set.keys h ↔ Down self.now atom h) }
    {
        let mut set = IndexSet::new(alloc);
        self.add_down(&mut set, atom)?;
        Ok(set)
    }

    // Adds what the steps on an atom give.
    fn add_steps(&self, set: &mut IndexSet<Atom>, atom: Atom) -> Result<(), NoMemory>
        ensures { OnOk result (AreAdded ⟦<Atom as PartialEq>⟧.eq (steps_of self.now atom) set.old set.new) }
    {
        match atom {
            Atom::Class { name, arg } => add_members(set, self.below(Basic::Class(name)), arg),
            Atom::Role { name, from, to } => {
                let role = RoleExpr::Direct(name);
                add_if_blank(set, to, self.below(Basic::Some(role)), from)?;
                add_if_blank(set, from, self.below(Basic::Some(role.inverse())), to)?;
                add_pairs(set, self.narrower(Prop::Role(role)), from, to)
            }
            Atom::Attr { name, from, value } => {
                add_if_blank(set, value, self.below(Basic::Subjects(name)), from)?;
                add_pairs(set, self.narrower(Prop::Attr(name)), from, value)
            }
        }
    }
}

fn listed(alloc: Global, atoms: &[Atom]) -> Result<List<Atom>, NoMemory>
    ensures { IfOk result (λ list. list ≡ atoms.now) }
{
    let copy = atoms.iter().copied().collect(alloc)?;
    Ok(List::from_vec(copy))
}

// Adds the atoms that an argument is in the concepts, where the other argument is `_`.
fn add_if_blank(
    set: &mut IndexSet<Atom>,
    other: Arg,
    basics: &[Basic],
    arg: Arg,
) -> Result<(), NoMemory>
    ensures { OnOk result (AreAdded ⟦<Atom as PartialEq>⟧.eq (if_blank other (all_at basics.now arg)) set.old set.new) }
{
    match other {
        Arg::Blank => add_members(set, basics, arg),
        _ => Ok(()),
    }
}

fn add_members(set: &mut IndexSet<Atom>, basics: &[Basic], arg: Arg) -> Result<(), NoMemory>
    ensures { OnOk result (AreAdded ⟦<Atom as PartialEq>⟧.eq (all_at basics.now arg) set.old set.new) }
{
    for basic in basics {
        set.insert(basic.at(arg))?;
    }
    Ok(())
}

fn add_pairs(set: &mut IndexSet<Atom>, props: &[Prop], from: Arg, to: Arg) -> Result<(), NoMemory>
    ensures { OnOk result (AreAdded ⟦<Atom as PartialEq>⟧.eq (all_pairs props.now from to) set.old set.new) }
{
    for prop in props {
        set.insert(prop.pair(from, to))?;
    }
    Ok(())
}
