//! An ontology and mappings, each read from its document. What no reader takes, or has too many places, is want of memory here.
ghost use Rattle.std.specs.Prelude.{◌≡◌, ◌<◌, length, true, IfOk};
ghost use Rattle.mast_mapping.specs.OverTables.{AreOverTables};
ghost use Rattle.mast_mapping.specs.Split.{split_maps};
ghost use Rattle.mast_tree.specs.Source.{AreTokens};
ghost use Rattle.mast_unfold.specs.Sources.{HeadsAreOver};

use mast_mapping::{Map, Mappings, SplitMap, read_mappings, split};
use mast_onto::read_ontology;
use mast_tbox::Ontology;
use mast_terms::{List, NoMemory, Vocabulary};
use mast_tree::{Token, read_doc, tokens};
use std::alloc::Global;

// The tokens of a source.
fn listed(alloc: Global, source: &[u8]) -> Result<List<Token>, NoMemory>
    ensures tokens { IfOk result (AreTokens source.now) }
    ensures few { IfOk result (λ list. length list < 4294967295) }
{
    if source.len() >= 4294967295 {
        return Err(NoMemory);
    }
    let Ok(list) = tokens(alloc, source) else {
        return Err(NoMemory);
    };
    if list.as_slice().len() >= 4294967295 {
        return Err(NoMemory);
    }
    Ok(list)
}

/// The ontology of a source, over no names.
pub(crate) fn ontology_of(alloc: Global, source: &[u8]) -> Result<Ontology, NoMemory> {
    let list = listed(alloc, source)?;
    let Ok(doc) = read_doc(alloc, source, list.as_slice()) else {
        return Err(NoMemory);
    };
    match read_ontology(alloc, &doc, Vocabulary::new(alloc)) {
        Ok(ontology) => Ok(ontology),
        Err(_) => Err(NoMemory),
    }
}

/// The mappings of a source, over these names.
pub(crate) fn mappings_of(
    alloc: Global,
    source: &[u8],
    vocab: Vocabulary,
) -> Result<Mappings, NoMemory>
    ensures { IfOk result (λ mappings. AreOverTables mappings.tables mappings.maps) }
{
    let list = listed(alloc, source)?;
    let Ok(doc) = read_doc(alloc, source, list.as_slice()) else {
        return Err(NoMemory);
    };
    let Ok(mappings) = read_mappings(alloc, &doc, vocab) else {
        return Err(NoMemory);
    };
    Ok(mappings)
}

// Whether the maps together have few heads.
fn few_heads(maps: &[Map]) -> bool
    ensures { result ≡ true → length (split_maps maps.now) < 4294967295 }
{
    let mut left = 1000;
    for map in maps {
        let heads = map.heads.as_slice().len();
        if heads > left {
            return false;
        }
        left -= heads;
    }
    true
}

/// The split maps of mappings.
pub(crate) fn split_of(alloc: Global, mappings: &Mappings) -> Result<List<SplitMap>, NoMemory>
    requires { AreOverTables mappings.now.tables mappings.now.maps }
    ensures few { IfOk result (λ maps. length maps < 4294967295) }
    ensures over { IfOk result (HeadsAreOver mappings.now.tables) }
{
    if !few_heads(mappings.maps.as_slice()) {
        return Err(NoMemory);
    }
    split(alloc, mappings)
}
