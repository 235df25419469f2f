//! The indices of inclusions by their right sides.
ghost use Rattle.std.specs.Prelude.{◌≡◌, [], ◌∷◌, IfOk, OnOk};
ghost use Rattle.mast_tbox.specs.Expressions.{same_basic, same_prop};
ghost use Rattle.mast_tbox.specs.Inclusions.{concept_pairs, directly_below};
ghost use Rattle.mast_tbox.specs.inside.StepLists.{prop_pairs, leading_to};
ghost use Rattle.mast_tbox.specs.inside.Groups.{found, AreGrown};
ghost use Rattle.mast_tbox.specs.declared.expression.Basic.{Basic};
ghost use Rattle.mast_tbox.specs.declared.expression.Prop.{Prop};

use crate::expression::{basic_laws, prop_laws};
use crate::groups::Groups;
use crate::{Basic, Inclusion, Prop};
use mast_terms::NoMemory;
use std::alloc::Global;

/// For each basic concept, those that are directly below it.
pub(crate) fn concepts_below(
    alloc: Global,
    inclusions: &[Inclusion],
) -> Result<Groups<Basic>, NoMemory>
    ensures { IfOk result (λ groups. (b : Basic) → found same_basic groups b ≡ directly_below inclusions.now b) }
{
    basic_laws();
    let mut groups = Groups::new(alloc);
    for inclusion in inclusions {
        add_concepts(alloc, &mut groups, *inclusion)?;
    }
    Ok(groups)
}

// Adds what one inclusion puts directly below basic concepts.
fn add_concepts(
    alloc: Global,
    groups: &mut Groups<Basic>,
    inclusion: Inclusion,
) -> Result<(), NoMemory>
    ensures { OnOk result (AreGrown same_basic groups.old (concept_pairs inclusion) groups.new) }
{
    match inclusion {
        Inclusion::Class { sub, sup } => add_concept(alloc, groups, sub, Basic::Class(sup)),
        Inclusion::Exists { sub, role, .. } => add_concept(alloc, groups, sub, Basic::Some(role)),
        Inclusion::HasValue { sub, attr, .. } => {
            add_concept(alloc, groups, sub, Basic::Subjects(attr))
        }
        Inclusion::Role { sub, sup } => {
            add_concept(alloc, groups, Basic::Some(sub), Basic::Some(sup))?;
            add_concept(
                alloc,
                groups,
                Basic::Some(sub.inverse()),
                Basic::Some(sup.inverse()),
            )
        }
        Inclusion::Attr { sub, sup } => {
            add_concept(alloc, groups, Basic::Subjects(sub), Basic::Subjects(sup))
        }
        Inclusion::Range { .. } => Ok(()),
    }
}

/// Adds that one basic concept is directly below another, or linked with it.
pub(crate) fn add_concept(
    alloc: Global,
    groups: &mut Groups<Basic>,
    sub: Basic,
    sup: Basic,
) -> Result<(), NoMemory>
    ensures { OnOk result (AreGrown same_basic groups.old ((sub, sup) ∷ []) groups.new) }
{
    basic_laws();
    groups.add(alloc, sup, sub)
}

/// For each property, those from which an inclusion leads to it.
pub(crate) fn props_below(alloc: Global, inclusions: &[Inclusion]) -> Result<Groups<Prop>, NoMemory>
    ensures { IfOk result (λ groups. (p : Prop) → found same_prop groups p ≡ leading_to inclusions.now p) }
{
    prop_laws();
    let mut groups = Groups::new(alloc);
    for inclusion in inclusions {
        add_props(alloc, &mut groups, *inclusion)?;
    }
    Ok(groups)
}

// Adds the properties from which one inclusion leads.
fn add_props(alloc: Global, groups: &mut Groups<Prop>, inclusion: Inclusion) -> Result<(), NoMemory>
    ensures { OnOk result (AreGrown same_prop groups.old (prop_pairs inclusion) groups.new) }
{
    match inclusion {
        Inclusion::Role { sub, sup } => {
            add_prop(alloc, groups, Prop::Role(sub), Prop::Role(sup))?;
            add_prop(
                alloc,
                groups,
                Prop::Role(sub.inverse()),
                Prop::Role(sup.inverse()),
            )
        }
        Inclusion::Attr { sub, sup } => add_prop(alloc, groups, Prop::Attr(sub), Prop::Attr(sup)),
        _ => Ok(()),
    }
}

fn add_prop(alloc: Global, groups: &mut Groups<Prop>, sub: Prop, sup: Prop) -> Result<(), NoMemory>
    ensures { OnOk result (AreGrown same_prop groups.old ((sub, sup) ∷ []) groups.new) }
{
    prop_laws();
    groups.add(alloc, sup, sub)
}
