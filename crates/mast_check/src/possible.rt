//! Which atoms can become true over the rows that take part, whatever their arguments.
ghost use Rattle.std.specs.Prelude.{◌≡◌, IfOk, OnOk};
ghost use Rattle.std.specs.Option.{IfSome};
ghost use Rattle.mast_cq.specs.declared.atom.Atom.{Atom as Asked};
ghost use Rattle.mast_join.specs.declared.extensions.Wanted.TheVariants.{SomeHits};
ghost use Rattle.mast_join.specs.Answers.{IsOverSame};
ghost use Rattle.mast_join.specs.Extensions.{Over};
ghost use Rattle.mast_check.specs.inside.Possible.{IsPossible, TellsAllPossible, TellsPossible, unbound};

use crate::judge::Judge;
use indexmap::IndexMap;
use mast_cq::{Arg, Atom, CqRef, atom_laws};
use mast_join::Extensions;
use mast_terms::NoMemory;
use mast_violate::Test;
use std::alloc::Global;

/// Whether atoms with `_` for all arguments are possible, as far as they were asked for: each is asked once, for all violations.
/// A violation with an atom that isn't needs no closure.
#[derive(Drop)]
pub(crate) struct Possible {
    // whether few rows take part; over all rows every atom is taken for possible
    few: bool,
    known: IndexMap<Atom, bool>,
}

impl Possible {
    /// Nothing is asked yet.
    pub(crate) fn new(alloc: Global, few: bool) -> Possible
        ensures { (over : Over) → IsPossible over result }
    {
        Possible {
            few,
            known: IndexMap::new(alloc),
        }
    }

    /// Whether all of some atoms are possible; each is asked with `_` for its arguments.
    pub(crate) fn are(
        &mut self,
        alloc: Global,
        extensions: &mut Extensions<'_, '_, '_, '_>,
        atoms: &[Atom],
    ) -> Result<bool, NoMemory>
        requires wanted { extensions.old.wanted ≡ SomeHits }
        requires right { IsPossible extensions.old.over self.old }
        ensures same { IsOverSame extensions.old extensions.new }
        ensures right { OnOk result (IsPossible extensions.old.over self.new) }
        ensures told { IfOk result (TellsAllPossible extensions.old.over atoms.now) }
    {
        if !self.few {
            return Ok(true);
        }
        self.all(alloc, extensions, atoms)
    }

    // Whether all of them are, each asked for.
    fn all(
        &mut self,
        alloc: Global,
        extensions: &mut Extensions<'_, '_, '_, '_>,
        atoms: &[Atom],
    ) -> Result<bool, NoMemory>
        requires wanted { extensions.old.wanted ≡ SomeHits }
        requires right { IsPossible extensions.old.over self.old }
        ensures same { IsOverSame extensions.old extensions.new }
        ensures right { OnOk result (IsPossible extensions.old.over self.new) }
        ensures told { IfOk result (TellsAllPossible extensions.old.over atoms.now) }
    {
        for atom in atoms {
            if !self.is(alloc, extensions, without_arguments(*atom))? {
                return Ok(false);
            }
        }
        Ok(true)
    }

    // Whether an atom is possible.
    fn is(
        &mut self,
        alloc: Global,
        extensions: &mut Extensions<'_, '_, '_, '_>,
        atom: Atom,
    ) -> Result<bool, NoMemory>
        requires wanted { extensions.old.wanted ≡ SomeHits }
        requires free { atom ≡ unbound atom }
        requires right { IsPossible extensions.old.over self.old }
        ensures same { IsOverSame extensions.old extensions.new }
        ensures right { OnOk result (IsPossible extensions.old.over self.new) }
        ensures told { IfOk result (TellsPossible extensions.old.over atom) }
    {
        if let Some(told) = self.told(atom) {
            return Ok(told);
        }
        let has = has_match(alloc, extensions, atom)?;
        self.learn(atom, has)?;
        Ok(has)
    }

    // What is kept of an atom.
    fn told(&self, atom: Atom) -> Option<bool>
        ensures { (over : Over) → IsPossible over self.now → IfSome result (TellsPossible over atom) }
    {
        atom_laws();
        self.known.get(&atom).copied()
    }

    fn learn(&mut self, atom: Atom, has: bool) -> Result<(), NoMemory>
        ensures { OnOk result ((over : Over) → IsPossible over self.old → TellsPossible over atom has → IsPossible over self.new) }
    {
        atom_laws();
        self.known.insert(atom, has)?;
        Ok(())
    }
}

// The atom with `_` for its arguments.
fn without_arguments(atom: Atom) -> Atom
    ensures { result ≡ unbound atom }
{
    let arg = Arg::Blank;
    let from = Arg::Blank;
    match atom {
        Atom::Class { name, .. } => Atom::Class { name, arg },
        Atom::Role { name, .. } => Atom::Role {
            name,
            from,
            to: arg,
        },
        Atom::Attr { name, .. } => Atom::Attr {
            name,
            from,
            value: arg,
        },
    }
}

// Whether an atom has a match.
fn has_match(
    alloc: Global,
    extensions: &mut Extensions<'_, '_, '_, '_>,
    atom: Atom,
) -> Result<bool, NoMemory>
    requires wanted { extensions.old.wanted ≡ SomeHits }
    requires free { atom ≡ unbound atom }
    ensures same { IsOverSame extensions.old extensions.new }
    ensures told { IfOk result (TellsPossible extensions.old.over atom) }
{
    let query = CqRef {
        answer: &[],
        atoms: &[atom],
    };
    let ready = extensions.ready(alloc, query)?;
    let judge = Judge {
        test: Test::Plain,
        extensions,
    };
    let found = extensions.first(alloc, &ready, 0, ready.plan.size, &judge)?;
    Ok(found.is_some())
}
