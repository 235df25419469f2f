//! What is below the atoms of a closure, and the meetings of their pairs that count: each made once.
ghost use Rattle.std.specs.Prelude.{◌≡◌, ◌↔◌, ◌⊎◌, List, map, Contains, Some, slice_get, IfOk, OnOk};
ghost use Rattle.std.specs.Option.{IfSome};
ghost use Rattle.indexmap.specs.IndexMap.{values, ContainsKey};
ghost use Rattle.mast_cq.specs.declared.atom.Atom.{Atom};
ghost use Rattle.mast_cq.specs.declared.unifier.Met.{Met};
ghost use Rattle.mast_tbox.specs.declared.axiom.Inclusion.{Inclusion};
ghost use Rattle.mast_rewrite.specs.inside.Leaders.{IsDownList, CountsExactly};
ghost use Rattle.mast_rewrite.specs.inside.Memos.{IsMemo, IsPlaceOf, HasPlace};
ghost use Rattle.mast_rewrite.specs.declared.pair.Pair.{Pair};

use crate::counting::counting;
use crate::meetings::meetings;
use crate::pair::{Pair, pair_laws};
use indexmap::IndexMap;
use mast_cq::{Atom, Met, atom_laws};
use mast_tbox::NormalTBox;
use mast_terms::{List, NoMemory};
use std::alloc::Global;

/// The lists of `Down` and of the meetings that count, as far as they were asked for.
#[derive(Drop)]
pub struct Memo {
    below: IndexMap<Atom, List<Atom>>,
    meetings: IndexMap<Pair, List<Met>>,
}

impl Memo {
    pub(crate) fn new(alloc: Global) -> Memo
        ensures { (tbox : List Inclusion) → IsMemo tbox result }
    {
        Memo {
            below: IndexMap::new(alloc),
            meetings: IndexMap::new(alloc),
        }
    }

    // The place of the meetings of a pair that count. They are made where they are not there yet.
    fn place(&mut self, alloc: Global, normal: &NormalTBox, pair: Pair) -> Result<usize, NoMemory>
        requires { IsMemo normal.now self.old }
        ensures place { IfOk result (IsPlaceOf normal.now self.new pair) }
        ensures memo { OnOk result (IsMemo normal.now self.new) }
    {
        if let Some(place) = self.found(pair) {
            return Ok(place);
        }
        self.learn_pair(alloc, normal, pair)?;
        match self.found(pair) {
            Some(place) => Ok(place),
            None => Err(NoMemory),
        }
    }

    /// The place of the meetings of a pair that count; None where inclusions do not link the names of its atoms, so that there are none.
    pub(crate) fn linked(
        &mut self,
        alloc: Global,
        normal: &NormalTBox,
        pair: Pair,
    ) -> Result<Option<usize>, NoMemory>
        requires { IsMemo normal.now self.old }
        ensures place { IfOk result (HasPlace normal.now self.new pair) }
        ensures memo { OnOk result (IsMemo normal.now self.new) }
    {
        if !normal.are_linked(pair.left.atom, pair.right.atom) {
            return Ok(None);
        }
        let place = self.place(alloc, normal, pair)?;
        Ok(Some(place))
    }

    // Makes the meetings of a pair.
    fn learn_pair(&mut self, alloc: Global, normal: &NormalTBox, pair: Pair) -> Result<(), NoMemory>
        requires { IsMemo normal.now self.old }
        ensures { OnOk result (IsMemo normal.now self.new) }
    {
        pair_laws();
        let list = self.made(alloc, normal, pair)?;
        self.meetings.insert(pair, list)?;
        Ok(())
    }

    // The place of the meetings of a pair, if they are there.
    fn found(&self, pair: Pair) -> Option<usize>
        ensures { (tbox : List Inclusion) → IsMemo tbox self.now → IfSome result (IsPlaceOf tbox self.now pair) }
    {
        pair_laws();
        self.meetings.get_index_of(&pair)
    }

    /// The meetings at a place; none at no place.
    pub(crate) fn at(&self, place: Option<usize>) -> &[Met]
        ensures { (tbox : List Inclusion) (pair : Pair) → HasPlace tbox self.now pair place → CountsExactly tbox pair result.now }
    {
        match place {
            Some(place) => self.stored(place),
            None => &[],
        }
    }

    fn stored(&self, place: usize) -> &[Met]
        ensures { (list : List Met) → slice_get (values self.now.meetings) place ≡ Some list → result.now ≡ list }
    {
        match self.meetings.get_index(place) {
            Some((_, list)) => list.as_slice(),
            None => &[],
        }
    }

    // The meetings of a pair that count.
    fn made(
        &mut self,
        alloc: Global,
        normal: &NormalTBox,
        pair: Pair,
    ) -> Result<List<Met>, NoMemory>
        requires { IsMemo normal.now self.old }
        ensures exact { IfOk result (CountsExactly normal.now pair) }
        ensures memo { OnOk result (IsMemo normal.now self.new) }
        ensures meetings { self.new.meetings ≡ self.old.meetings }
    {
        self.learn(alloc, normal, pair.left.atom)?;
        self.learn(alloc, normal, pair.right.atom)?;
        counted(
            alloc,
            normal,
            pair,
            self.below(pair.left.atom),
            self.below(pair.right.atom),
        )
    }

    // Makes `Down` of an atom, where it is not there yet.
    fn learn(&mut self, alloc: Global, normal: &NormalTBox, atom: Atom) -> Result<(), NoMemory>
        requires { IsMemo normal.now self.old }
        ensures memo { OnOk result (IsMemo normal.now self.new) }
        ensures meetings { self.new.meetings ≡ self.old.meetings }
        ensures there { OnOk result (ContainsKey ⟦<Atom as PartialEq>⟧.eq self.new.below atom) }
        ensures kept { (g : Atom) → ContainsKey ⟦<Atom as PartialEq>⟧.eq self.old.below g → ContainsKey ⟦<Atom as PartialEq>⟧.eq self.new.below g }
    {
        atom_laws();
        if !self.below.contains_key(&atom) {
            let list = normal.down(alloc, atom)?;
            self.below.insert(atom, list)?;
        }
        Ok(())
    }

    // `Down` of an atom that was learnt.
    fn below(&self, atom: Atom) -> &[Atom]
        requires { ContainsKey ⟦<Atom as PartialEq>⟧.eq self.now.below atom }
        ensures { (tbox : List Inclusion) → IsMemo tbox self.now → IsDownList tbox atom result.now }
    {
        atom_laws();
        match self.below.get(&atom) {
            Some(list) => list.as_slice(),
            None => &[],
        }
    }
}

// The meetings of a pair that count, where what is below its atoms is given.
fn counted(
    alloc: Global,
    normal: &NormalTBox,
    pair: Pair,
    lefts: &[Atom],
    rights: &[Atom],
) -> Result<List<Met>, NoMemory>
    requires left { IsDownList normal.now pair.left.atom lefts.now }
    requires right { IsDownList normal.now pair.right.atom rights.now }
    ensures { IfOk result (CountsExactly normal.now pair) }
{
    let all = meetings(alloc, &pair.answer(), lefts, rights)?;
    counting(alloc, normal, pair.left.atom, pair.right.atom, &all)
}
