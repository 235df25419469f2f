//! The normal inclusions of a TBox.
ghost use Rattle.std.specs.Prelude.{◌≡◌, ◌++◌, ◌<◌, ◌↔◌, true, Some, IfOk, OnOk};
ghost use Rattle.mast_tbox.specs.Inclusions.{normal as normal_inclusions, normal_of, directly_below};
ghost use Rattle.mast_tbox.specs.inside.StepLists.{leading_to};
ghost use Rattle.mast_tbox.specs.declared.axiom.Inclusion.TheVariants.{Exists};
ghost use Rattle.mast_tbox.specs.Lists.{items};
ghost use Rattle.mast_tbox.specs.NameLinks.{AreLinked};
ghost use Rattle.mast_tbox.specs.Numbers.{number_of};
ghost use Rattle.mast_tbox.specs.inside.Bounds.{AllBelow};

use crate::expression::{basic_laws, prop_laws};
use crate::groups::Groups;
use crate::index::{concepts_below, props_below};
use crate::name_chiefs::NameChiefs;
use crate::name_links::{atom_name, name_chiefs};
use crate::{Basic, Inclusion, Lined, Prop, RoleExpr, TBox};
use mast_cq::Atom;
use mast_terms::{Name, NoMemory};
use std::alloc::Global;
use std::marker::Model;

/// The normal inclusions, with indices by their right sides. Contracts see the list of the inclusions.
#[derive(Drop)]
pub struct NormalTBox {
    inclusions: Vec<Inclusion>,
    concepts: Groups<Basic>,
    props: Groups<Prop>,
    chiefs: NameChiefs,
}

impl Model for NormalTBox {
    ghost use Rattle.std.specs.Prelude.{List};
    ghost use Rattle.mast_tbox.specs.declared.axiom.Inclusion.{Inclusion};
    ghost use Rattle.mast_tbox.specs.inside.Linking.{IsLookup};

    ghost Value = { List Inclusion };

    ghost view = { λ n. n.inclusions.items };

    ghost invariant = { λ n. IsLookup n.inclusions.items n.concepts n.props n.chiefs };
}

/// The normal inclusions of a TBox: those of the TBox in order, without the ranges. Each qualified one of number k is
/// replaced in its place by three over the role `65_536 + k`: this role is below its role, the ends of this role are in
/// its class, and what is on its left side has a filler by this role.
pub fn normal(alloc: Global, tbox: &TBox) -> Result<NormalTBox, NoMemory>
    ensures { IfOk result (λ n. n ≡ normal_inclusions (items tbox.now.inclusions)) }
{
    let inclusions = replaced(alloc, tbox)?;
    let concepts = concepts_below(alloc, &inclusions)?;
    let props = props_below(alloc, &inclusions)?;
    let chiefs = name_chiefs(alloc, &inclusions)?;
    Ok(NormalTBox {
        inclusions,
        concepts,
        props,
        chiefs,
    })
}

fn replaced(alloc: Global, tbox: &TBox) -> Result<Vec<Inclusion>, NoMemory>
    ensures { IfOk result (λ v. v.items ≡ normal_inclusions (items tbox.now.inclusions)) }
{
    let lines = tbox.inclusions.as_slice();
    let mut inclusions = Vec::with_capacity(alloc, lines.len())?;
    for line in lines {
        replace_into(&mut inclusions, line.item)?;
    }
    Ok(inclusions)
}

fn replace_into(inclusions: &mut Vec<Inclusion>, inclusion: Inclusion) -> Result<(), NoMemory>
    requires { AllBelow 1000000 (number_of inclusion) }
    ensures { OnOk result (inclusions.new.items ≡ inclusions.old.items ++ normal_of inclusion) }
{
    match inclusion {
        Inclusion::Exists {
            sub,
            role,
            end: Some(end),
            k,
        } => push_three(inclusions, sub, role, end, k),
        Inclusion::Range { .. } => Ok(()),
        _ => {
            inclusions.push(inclusion)?;
            Ok(())
        }
    }
}

fn push_three(
    inclusions: &mut Vec<Inclusion>,
    sub: Basic,
    role: RoleExpr,
    end: Name,
    k: u32,
) -> Result<(), NoMemory>
    requires { k < 1000000 }
    ensures { OnOk result (inclusions.new.items ≡ inclusions.old.items ++ normal_of (Exists sub role (Some end) k)) }
{
    let name = Name(65_536 + k);
    inclusions.push(Inclusion::Role {
        sub: RoleExpr::Direct(name),
        sup: role,
    })?;
    inclusions.push(Inclusion::Class {
        sub: Basic::Some(RoleExpr::Inverse(name)),
        sup: end,
    })?;
    inclusions.push(Inclusion::Exists {
        sub,
        role: RoleExpr::Direct(name),
        end: None,
        k,
    })?;
    Ok(())
}

impl NormalTBox {
    /// The normal inclusions, in order. It takes no memory.
    pub fn inclusions(&self) -> &[Inclusion]
        ensures { result.now ≡ self.now }
    {
        self.inclusions.as_slice()
    }

    /// The basic concepts that are directly below one, in the order of the inclusions, each once. It takes no memory.
    pub fn below(&self, basic: Basic) -> &[Basic]
        ensures { result.now ≡ directly_below self.now basic }
    {
        basic_laws();
        self.concepts.get(basic)
    }

    /// Whether a list of inclusions leads from the name of one atom to that of the other, each with a name of the one before it.
    /// Where it does not, no member of `Down` of the one has the name of a member of `Down` of the other. It takes no memory.
    pub fn are_linked(&self, first: Atom, second: Atom) -> bool
        ensures { (result ≡ true) ↔ AreLinked self.now first second }
    {
        basic_laws();
        self.chiefs.chief(atom_name(first)) == self.chiefs.chief(atom_name(second))
    }

    // The properties from which an inclusion leads to one.
    pub(crate) fn narrower(&self, prop: Prop) -> &[Prop]
        ensures { result.now ≡ leading_to self.now prop }
    {
        prop_laws();
        self.props.get(prop)
    }
}
