//! How specifications are made and changed.
ghost use Rattle.std.specs.Prelude.{◌≡◌, [], IfOk};
ghost use Rattle.mast_mapping.specs.Split.{split_maps};
ghost use Rattle.mast_tbox.specs.Inclusions.{normal as normal_inclusions};
ghost use Rattle.mast_tbox.specs.Lists.{items};
ghost use Rattle.mast_tree.specs.Growing.{Begins};
ghost use Rattle.mast_canon.specs.Conditions.{HasNumbers};
ghost use Rattle.mast_canon.specs.Premises.{AreMappings, AreOneSpecification, AreSplitMaps, IsRefusedAtBreach};

use crate::Spec;
use mast_mapping::{Mappings, SplitMap, split};
use mast_tables::TableDecl;
use mast_tbox::{
    Constraints, NormalTBox, Ontology, RestrictionBreach, TBox, normal, restriction_breach,
};
use mast_terms::{List, NoMemory, Stop, Vocabulary};
use std::alloc::Global;

impl Spec {
    /// The specification of three documents. The refusal is their restriction breach, and it comes exactly where there
    /// is one. The vocabulary is that of the mappings, which begins with the others.
    pub fn new(
        alloc: Global,
        ontology: Ontology,
        constraints: Constraints,
        mappings: Mappings,
    ) -> Result<Spec, Stop<RestrictionBreach>>
        requires { AreOneSpecification ontology constraints mappings }
        ensures exact { IsRefusedAtBreach ontology constraints result }
        ensures vocab { IfOk result (λ spec. spec.vocab ≡ mappings.vocab) }
        ensures axioms { IfOk result (λ spec. spec.tbox ≡ ontology.tbox) }
        ensures constraints { IfOk result (λ spec. spec.constraints ≡ constraints.list) }
        ensures tables { IfOk result (λ spec. spec.tables ≡ mappings.tables) }
        ensures maps { IfOk result (λ spec. spec.maps ≡ split_maps mappings.maps) }
    {
        let (normal, maps) = made(alloc, &ontology, &constraints, &mappings)?;
        Ok(Spec {
            vocab: mappings.vocab,
            tbox: ontology.tbox,
            normal,
            constraints: constraints.list,
            tables: mappings.tables,
            maps,
        })
    }

    /// The specification of a mapping document alone: no axiom and no constraint.
    pub fn facts_only(alloc: Global, mappings: Mappings) -> Result<Spec, NoMemory>
        requires { AreMappings mappings }
        ensures vocab { IfOk result (λ spec. spec.vocab ≡ mappings.vocab) }
        ensures inclusions { IfOk result (λ spec. spec.tbox.inclusions ≡ []) }
        ensures negatives { IfOk result (λ spec. spec.tbox.negatives ≡ []) }
        ensures functional { IfOk result (λ spec. spec.tbox.functional ≡ []) }
        ensures constraints { IfOk result (λ spec. spec.constraints ≡ []) }
        ensures tables { IfOk result (λ spec. spec.tables ≡ mappings.tables) }
        ensures maps { IfOk result (λ spec. spec.maps ≡ split_maps mappings.maps) }
    {
        let tbox = TBox {
            inclusions: List::new(alloc),
            negatives: List::new(alloc),
            functional: List::new(alloc),
        };
        let normal = normal(alloc, &tbox)?;
        let maps = split(alloc, &mappings)?;
        Ok(Spec {
            vocab: mappings.vocab,
            tbox,
            normal,
            constraints: List::new(alloc),
            tables: mappings.tables,
            maps,
        })
    }

    /// The same specification over a vocabulary that begins with its own. It takes no memory.
    pub fn with_vocab(self, vocab: Vocabulary) -> Spec
        requires { Begins vocab self.vocab }
        ensures vocab { result.vocab ≡ vocab }
        ensures axioms { result.tbox ≡ self.tbox }
        ensures constraints { result.constraints ≡ self.constraints }
        ensures tables { result.tables ≡ self.tables }
        ensures maps { result.maps ≡ self.maps }
    {
        Spec {
            vocab,
            tbox: self.tbox,
            normal: self.normal,
            constraints: self.constraints,
            tables: self.tables,
            maps: self.maps,
        }
    }

    /// The same axioms and constraints over other tables and split mappings. It takes no memory.
    pub fn remap(self, tables: List<TableDecl>, maps: List<SplitMap>) -> Spec
        requires { AreSplitMaps self.vocab tables maps }
        ensures vocab { result.vocab ≡ self.vocab }
        ensures axioms { result.tbox ≡ self.tbox }
        ensures constraints { result.constraints ≡ self.constraints }
        ensures tables { result.tables ≡ tables }
        ensures maps { result.maps ≡ maps }
    {
        Spec {
            vocab: self.vocab,
            tbox: self.tbox,
            normal: self.normal,
            constraints: self.constraints,
            tables,
            maps,
        }
    }
}

// The normal inclusions and the split mappings of documents that have no restriction breach.
fn made(
    alloc: Global,
    ontology: &Ontology,
    constraints: &Constraints,
    mappings: &Mappings,
) -> Result<(NormalTBox, List<SplitMap>), Stop<RestrictionBreach>>
    requires { HasNumbers (split_maps mappings.now.maps) }
    ensures exact { IsRefusedAtBreach ontology.now constraints.now result }
    ensures normal { IfOk result (λ parts. parts.0 ≡ normal_inclusions (items ontology.now.tbox.inclusions)) }
    ensures maps { IfOk result (λ parts. parts.1 ≡ split_maps mappings.now.maps) }
{
    judge(alloc, ontology, constraints)?;
    let normal = normal(alloc, &ontology.tbox)?;
    let maps = split(alloc, mappings)?;
    Ok((normal, maps))
}

// Refuses at the restriction breach.
fn judge(
    alloc: Global,
    ontology: &Ontology,
    constraints: &Constraints,
) -> Result<(), Stop<RestrictionBreach>>
    ensures { IsRefusedAtBreach ontology.now constraints.now result }
{
    match restriction_breach(alloc, &ontology.tbox, constraints.list.as_slice())? {
        Some(breach) => Err(Stop::Named(breach)),
        None => Ok(()),
    }
}
