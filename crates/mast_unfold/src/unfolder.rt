//! The sources of atoms.
ghost use Rattle.std.specs.Prelude.{◌≡◌, ◌↔◌, ◌<◌, ◌++◌, length, Contains, IfOk, OnOk};
ghost use Rattle.std.specs.List.{AllByRecursion};
ghost use Rattle.mast_cq.specs.UnifierMeanings.{IsBelow, KnownAtom};
ghost use Rattle.mast_unfold.specs.Sources.{HeadsAreOver, InOrder, IsSource, unfolding_of};
ghost use Rattle.mast_unfold.specs.declared.source.Source.{Source};
ghost use Rattle.mast_unfold.specs.inside.Listing.{IsIndex, same_name, sources_of_member, sources_of_members};
ghost use Rattle.mast_unfold.specs.inside.Lookups.{found};

use crate::columns::Tables;
use crate::forms::{
    Entry, KindedName, fits, form_of, kinded_name_laws, name_of_atom, name_of_head,
};
use crate::groups::Groups;
use crate::source::Source;
use mast_cq::Atom;
use mast_mapping::SplitMap;
use mast_tables::TableDecl;
use mast_tbox::NormalTBox;
use mast_terms::{List, NoMemory, Vocabulary};
use std::alloc::Global;
use std::marker::Model;

/// Maps by the names of their heads, over the inclusions of an ontology, a vocabulary and declared tables. It knows which atoms
/// each head may become, and gives the sources of an atom.
#[derive(Drop)]
pub struct Unfolder<'a> {
    normal: &'a NormalTBox,
    vocab: &'a Vocabulary,
    maps: &'a [SplitMap],
    tables: &'a [TableDecl],
    index: Groups<KindedName, Entry<'a>>,
}

impl<'a> Model for Unfolder<'a> {
    ghost use Rattle.mast_unfold.specs.Sources.{Unfolding, unfolding_of, HeadsAreOver};
    ghost use Rattle.mast_unfold.specs.inside.Listing.{IsIndex};

    ghost Value = { Unfolding };

    ghost view = { λ u. unfolding_of u.normal.now u.vocab.now u.maps.now u.tables.now };

    ghost invariant = { λ u. HeadsAreOver u.tables.now u.maps.now × IsIndex u.tables.now u.maps.now u.index };
}

// The maps by the names of their heads, in order, each with the form of its head.
fn index_of<'a>(
    alloc: Global,
    tables: &Tables<'_>,
    maps: &'a [SplitMap],
) -> Result<Groups<KindedName, Entry<'a>>, NoMemory>
    requires { length maps.now < 4294967295 }
    ensures { IfOk result (IsIndex tables.now maps.now) }
{
    kinded_name_laws();
    let mut index = Groups::new(alloc);
    let mut number: u32 = 0;
    for map in maps {
        let form = form_of(alloc, tables, map)?;
        index.add(alloc, name_of_head(&map.head), Entry { map: number, form })?;
        number += 1;
    }
    Ok(index)
}

// Puts the sources that a member has by these entries.
fn add_sources(
    alloc: Global,
    sources: &mut List<Source>,
    vocab: &Vocabulary,
    member: Atom,
    entries: &[Entry<'_>],
) -> Result<(), NoMemory>
    requires { KnownAtom (IsBelow (length vocab.now.constants)) member }
    ensures { OnOk result (sources.new ≡ sources.old ++ sources_of_member vocab.now.constants member entries.now) }
{
    for entry in entries {
        if fits(vocab, member, entry.form) {
            let source = Source {
                member,
                map: entry.map,
            };
            sources.push(alloc, source)?;
        }
    }
    Ok(())
}

// The sources that members have by an index, one member after the other.
fn sources_by(
    alloc: Global,
    vocab: &Vocabulary,
    index: &Groups<KindedName, Entry<'_>>,
    members: &[Atom],
) -> Result<List<Source>, NoMemory>
    requires { AllByRecursion (KnownAtom (IsBelow (length vocab.now.constants))) members.now }
    ensures { IfOk result (λ list. list ≡ sources_of_members vocab.now.constants (found same_name index.now) members.now) }
{
    let mut sources = List::new(alloc);
    for member in members {
        let entries = index.get(name_of_atom(*member));
        add_sources(alloc, &mut sources, vocab, *member, entries)?;
    }
    Ok(sources)
}

impl<'a> Unfolder<'a> {
    /// The unfolder of the normal inclusions of an ontology, over a vocabulary, with these maps over these tables.
    ///
    /// Each slot of a head must mean a column, or be a constant. Tables, columns and outputs are looked up here, once for each
    /// slot that decides what a head may become.
    pub fn new(
        alloc: Global,
        normal: &'a NormalTBox,
        vocab: &'a Vocabulary,
        maps: &'a [SplitMap],
        tables: &'a [TableDecl],
    ) -> Result<Unfolder<'a>, NoMemory>
        requires over { HeadsAreOver tables.now maps.now }
        requires size { length maps.now < 4294967295 }
        ensures { IfOk result (λ unfolder. unfolder ≡ unfolding_of normal.now vocab.now maps.now tables.now) }
    {
        let by_name = Tables::new(alloc, tables)?;
        let index = index_of(alloc, &by_name, maps)?;
        Ok(Unfolder {
            normal,
            vocab,
            maps,
            tables,
            index,
        })
    }

    /// The sources of an atom whose constants stand in the vocabulary: in the order of members, and for one member in the order
    /// of maps, each once.
    ///
    /// Beside the work of `down`, each member costs one look-up and a look at each map of its name.
    pub fn sources(&self, alloc: Global, atom: Atom) -> Result<List<Source>, NoMemory>
        requires { KnownAtom (IsBelow (length self.now.vocab.constants)) atom }
        ensures exact { IfOk result (λ list. (s : Source) → Contains list s ↔ IsSource self.now atom s) }
        ensures order { IfOk result InOrder }
    {
        let members = self.normal.down(alloc, atom)?;
        sources_by(alloc, self.vocab, &self.index, members.as_slice())
    }
}
