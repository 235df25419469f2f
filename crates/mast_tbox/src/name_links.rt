//! Which names inclusions link.
ghost use Rattle.std.specs.Prelude.{◌≡◌, ◌↔◌, IfOk, OnOk, Contains};
ghost use Rattle.mast_tbox.specs.Expressions.{same_basic};
ghost use Rattle.mast_tbox.specs.Inclusions.{pairs, firsts};
ghost use Rattle.mast_tbox.specs.Lists.{once, Reaches};
ghost use Rattle.mast_tbox.specs.NameLinks.{links as links_of, atom_name as atom_name_of, role_name as role_name_of, basic_name as basic_name_of, left_name as left_name_of, right_name as right_name_of};
ghost use Rattle.mast_tbox.specs.inside.Chosen.{AreAdded};
ghost use Rattle.mast_tbox.specs.inside.Groups.{found, AreGrown};
ghost use Rattle.mast_tbox.specs.inside.Linking.{noted_for, name_chief, AreNamesNoted, LeadsOn, GoBothWays, AreSettled, IsSettled, TellsLinked};
ghost use Rattle.mast_tbox.specs.declared.expression.Basic.{Basic};

use crate::expression::basic_laws;
use crate::groups::Groups;
use crate::index::add_concept;
use crate::name_chiefs::NameChiefs;
use crate::{Basic, Inclusion, RoleExpr};
use indexmap::IndexSet;
use mast_cq::Atom;
use mast_terms::NoMemory;
use std::alloc::Global;

/// For each name a chief: two have one chief exactly where links lead from one to the other.
///
/// Each name is reached from one root, so each inclusion is looked at a fixed number of times.
pub(crate) fn name_chiefs(alloc: Global, inclusions: &[Inclusion]) -> Result<NameChiefs, NoMemory>
    ensures { IfOk result (λ chiefs. TellsLinked inclusions.now (name_chief chiefs)) }
{
    let links = links(alloc, inclusions)?;
    let mut chiefs = NameChiefs::new(alloc);
    for inclusion in inclusions {
        settle(alloc, &links, &mut chiefs, left_name(*inclusion))?;
    }
    Ok(chiefs)
}

/// The name of an atom.
pub(crate) fn atom_name(atom: Atom) -> Basic
    ensures { result ≡ atom_name_of atom }
{
    match atom {
        Atom::Class { name, .. } => Basic::Class(name),
        Atom::Role { name, .. } => Basic::Some(RoleExpr::Direct(name)),
        Atom::Attr { name, .. } => Basic::Subjects(name),
    }
}

fn role_name(role: RoleExpr) -> Basic
    ensures { result ≡ role_name_of role }
{
    match role {
        RoleExpr::Direct(name) => Basic::Some(RoleExpr::Direct(name)),
        RoleExpr::Inverse(name) => Basic::Some(RoleExpr::Direct(name)),
    }
}

fn basic_name(basic: Basic) -> Basic
    ensures { result ≡ basic_name_of basic }
{
    match basic {
        Basic::Class(name) => Basic::Class(name),
        Basic::Some(role) => role_name(role),
        Basic::Subjects(name) => Basic::Subjects(name),
    }
}

fn left_name(inclusion: Inclusion) -> Basic
    ensures { result ≡ left_name_of inclusion }
{
    match inclusion {
        Inclusion::Class { sub, .. } => basic_name(sub),
        Inclusion::Exists { sub, .. } => basic_name(sub),
        Inclusion::HasValue { sub, .. } => basic_name(sub),
        Inclusion::Role { sub, .. } => role_name(sub),
        Inclusion::Attr { sub, .. } => Basic::Subjects(sub),
        Inclusion::Range { attr, .. } => Basic::Subjects(attr),
    }
}

fn right_name(inclusion: Inclusion) -> Basic
    ensures { result ≡ right_name_of inclusion }
{
    match inclusion {
        Inclusion::Class { sup, .. } => Basic::Class(sup),
        Inclusion::Exists { role, .. } => role_name(role),
        Inclusion::HasValue { attr, .. } => Basic::Subjects(attr),
        Inclusion::Role { sup, .. } => role_name(sup),
        Inclusion::Attr { sup, .. } => Basic::Subjects(sup),
        Inclusion::Range { attr, .. } => Basic::Subjects(attr),
    }
}

// For each name those that an inclusion links with it.
fn links(alloc: Global, inclusions: &[Inclusion]) -> Result<Groups<Basic>, NoMemory>
    ensures { IfOk result (λ groups. (b : Basic) → found same_basic groups b ≡ once same_basic (firsts same_basic b (pairs links_of inclusions.now))) }
{
    basic_laws();
    let mut groups = Groups::new(alloc);
    for inclusion in inclusions {
        add_links(alloc, &mut groups, *inclusion)?;
    }
    Ok(groups)
}

fn add_links(
    alloc: Global,
    groups: &mut Groups<Basic>,
    inclusion: Inclusion,
) -> Result<(), NoMemory>
    ensures { OnOk result (AreGrown same_basic groups.old (links_of inclusion) groups.new) }
{
    let left = left_name(inclusion);
    let right = right_name(inclusion);
    add_concept(alloc, groups, left, right)?;
    add_concept(alloc, groups, right, left)
}

// Notes a root as the chief of all names that are reached from it, where it has no chief yet.
fn settle(
    alloc: Global,
    links: &Groups<Basic>,
    chiefs: &mut NameChiefs,
    root: Basic,
) -> Result<(), NoMemory>
    requires both_ways { GoBothWays links.now }
    requires settled { AreSettled links.now (noted_for chiefs.old) }
    ensures { OnOk result (IsSettled links.now (noted_for chiefs.old) root (noted_for chiefs.new)) }
{
    match chiefs.noted(root) {
        Some(_) => Ok(()),
        None => {
            let names = reached(alloc, links, root)?;
            note(chiefs, names.as_slice(), root)
        }
    }
}

// The names that are reached from one, and it.
fn reached(alloc: Global, links: &Groups<Basic>, start: Basic) -> Result<IndexSet<Basic>, NoMemory>
    ensures { IfOk result (λ set. (n : Basic) → Contains set.keys n ↔ Reaches (LeadsOn links.now) start n) }
{
    basic_laws();
    let mut set = IndexSet::new(alloc);
    set.insert(start)?;
    for done in 0..usize::MAX {
        let next = match set.get_index(done) {
            Some(next) => *next,
            None => return Ok(set),
        };
        add_names(&mut set, links.get(next))?;
    }
    let _count = set.len();
    Ok(set)
}

fn add_names(set: &mut IndexSet<Basic>, names: &[Basic]) -> Result<(), NoMemory>
    ensures { OnOk result (AreAdded ⟦<Basic as PartialEq>⟧.eq names.now set.old set.new) }
{
    for name in names {
        set.insert(*name)?;
    }
    Ok(())
}

// Notes a root as the chief of names.
fn note(chiefs: &mut NameChiefs, names: &[Basic], root: Basic) -> Result<(), NoMemory>
    ensures { OnOk result (AreNamesNoted root names.now chiefs.old chiefs.new) }
{
    for name in names {
        chiefs.note(*name, root)?;
    }
    Ok(())
}
