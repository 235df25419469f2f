//! Documents, each with what its reader tells of it. What no reader takes, or has too many places, is want of memory here.
ghost use Rattle.std.specs.Prelude.{◌≡◌, ◌<◌, length, true, IfOk};
ghost use Rattle.std.specs.List.{AllByRecursion};
ghost use Rattle.mast_canon.specs.Conditions.{HasNumbers, TablesHaveNumbers};
ghost use Rattle.mast_canon.specs.Premises.{AreMappings};
ghost use Rattle.mast_constr.specs.Kept.{AreKept};
ghost use Rattle.mast_mapping.specs.Split.{split_maps};
ghost use Rattle.mast_onto.specs.Known.{HasNames};
ghost use Rattle.mast_tree.specs.Growing.{Begins};
ghost use Rattle.mast_tree.specs.Source.{AreTokens};

use mast_canon::Spec;
use mast_constr::read_constraints;
use mast_mapping::{Map, Mappings, read_mappings};
use mast_onto::read_ontology;
use mast_tables::TableDecl;
use mast_tbox::{Constraints, Ontology, RestrictionBreach};
use mast_terms::{List, NoMemory, Stop, Vocabulary};
use mast_tree::{Token, read_doc, tokens};
use std::alloc::{AllocError, Global};

// The tokens of a source.
fn listed(alloc: Global, source: &[u8]) -> Result<List<Token>, NoMemory>
    ensures tokens { IfOk result (AreTokens source.now) }
    ensures few { IfOk result (λ list. length list < 4294967295) }
{
    if source.len() >= 4294967295 {
        return Err(NoMemory);
    }
    let Ok(list) = tokens(alloc, source) else {
        return Err(NoMemory);
    };
    if list.as_slice().len() >= 4294967295 {
        return Err(NoMemory);
    }
    Ok(list)
}

/// The ontology of a source, over no names.
pub(crate) fn ontology_of(alloc: Global, source: &[u8]) -> Result<Ontology, NoMemory>
    ensures { IfOk result HasNames }
{
    let list = listed(alloc, source)?;
    let Ok(doc) = read_doc(alloc, source, list.as_slice()) else {
        return Err(NoMemory);
    };
    match read_ontology(alloc, &doc, Vocabulary::new(alloc)) {
        Ok(ontology) => Ok(ontology),
        Err(_) => Err(NoMemory),
    }
}

/// The constraints of a source, over these names.
pub(crate) fn constraints_of(
    alloc: Global,
    source: &[u8],
    vocab: Vocabulary,
) -> Result<Constraints, NoMemory>
    ensures begins { IfOk result (λ constraints. Begins constraints.vocab vocab) }
    ensures kept { IfOk result AreKept }
    ensures numbered { IfOk result (λ constraints. HasNumbers constraints.list) }
{
    let list = listed(alloc, source)?;
    let Ok(doc) = read_doc(alloc, source, list.as_slice()) else {
        return Err(NoMemory);
    };
    let Ok(constraints) = read_constraints(alloc, &doc, vocab) else {
        return Err(NoMemory);
    };
    if constraints.list.as_slice().len() >= 4294967295 {
        return Err(NoMemory);
    }
    Ok(constraints)
}

// Whether each table has few columns.
fn few_columns(tables: &[TableDecl]) -> bool
    ensures { result ≡ true → AllByRecursion (λ table. HasNumbers table.columns) tables.now }
{
    for table in tables {
        if table.columns.as_slice().len() >= 4294967295 {
            return false;
        }
    }
    true
}

// Whether the maps together have few heads.
fn few_heads(maps: &[Map]) -> bool
    ensures { result ≡ true → HasNumbers (split_maps maps.now) }
{
    let mut left = 2000;
    for map in maps {
        let heads = map.heads.as_slice().len();
        if heads > left {
            return false;
        }
        left -= heads;
    }
    true
}

// Whether there are few tables, each with few columns.
fn few_tables(tables: &[TableDecl]) -> bool
    ensures { result ≡ true → TablesHaveNumbers tables.now }
{
    tables.len() < 4294967295 && few_columns(tables)
}

/// The mappings of a source, over these names.
pub fn mappings_of(alloc: Global, source: &[u8], vocab: Vocabulary) -> Result<Mappings, NoMemory>
    ensures begins { IfOk result (λ mappings. Begins mappings.vocab vocab) }
    ensures maps { IfOk result AreMappings }
{
    let list = listed(alloc, source)?;
    let Ok(doc) = read_doc(alloc, source, list.as_slice()) else {
        return Err(NoMemory);
    };
    let Ok(mappings) = read_mappings(alloc, &doc, vocab) else {
        return Err(NoMemory);
    };
    if !few_tables(mappings.tables.as_slice()) || !few_heads(mappings.maps.as_slice()) {
        return Err(NoMemory);
    }
    Ok(mappings)
}

/// The document of a main node whose items begin on line 3.
pub fn document(alloc: Global, word: &str, items: &str) -> Result<String, AllocError> {
    format!(in alloc; "Prefix(:=<http://e/>)\n{word}(\n{items}\n)\n")
}

/// The specification of three documents, each read over the names of the one before, or its restriction breach.
pub fn specification_of(
    alloc: Global,
    axioms: &str,
    constraints: &str,
    mappings: &str,
) -> Result<Spec, Stop<RestrictionBreach>> {
    let ontology = ontology_of(alloc, axioms.as_bytes())?;
    let vocab = ontology.vocab.copy(alloc)?;
    let constraints = constraints_of(alloc, constraints.as_bytes(), vocab)?;
    let vocab = constraints.vocab.copy(alloc)?;
    let mappings = mappings_of(alloc, mappings.as_bytes(), vocab)?;
    Spec::new(alloc, ontology, constraints, mappings)
}
