//! The prefixes of a document, and the IRIs that its items name by them.
ghost use Rattle.std.specs.Prelude.{◌≡◌, ◌++◌, ◌∷◌, [], None, option_copied, OnOk, IfOk};
ghost use Rattle.mast_tree.specs.inside.Prologue.{IsAdded, parts_of};
ghost use Rattle.mast_tree.specs.Prefixes as spec;
ghost use Rattle.mast_tree.specs.Results.{Gives};
ghost use Rattle.mast_tree.specs.Tables.{shown};

use crate::{Doc, Item, ShapeBreach, ShapeKind, wrong};
use indexmap::IndexMap;
use mast_terms::{NoMemory, Stop, Text};
use std::alloc::Global;
use std::marker::Model;

/// What the prefixes of a document stand for. Contracts see them in order, each without its colon.
#[derive(Drop)]
pub struct PrefixTable {
    namespaces: IndexMap<String, Text>,
}

impl Model for PrefixTable {
    ghost use Rattle.std.specs.Prelude as p;
    ghost use Rattle.mast_tree.specs.Tables.{shown as shown_entries};

    ghost Value = { p.List (p.List p.ℕ × p.List p.ℕ) };

    ghost view = { λ t. shown_entries t.namespaces.entries };
}

// The number of the first token of an item.
pub(crate) fn first_token(item: &Item) -> u32
    ensures { result ≡ spec.first_of item.now }
{
    match item {
        Item::Leaf { token } => *token,
        Item::Iri { token } => *token,
        Item::Str { token, .. } => *token,
        Item::Bind { token, .. } => *token,
        Item::Node { token, .. } => *token,
    }
}

// The namespaces that are known without a node.
fn standard(prefix: &str) -> Option<&'static str>
    ensures { option_copied result ≡ spec.standard prefix.now }
{
    if prefix == "owl" {
        Some("http://www.w3.org/2002/07/owl#")
    } else if prefix == "rdf" {
        Some("http://www.w3.org/1999/02/22-rdf-syntax-ns#")
    } else if prefix == "rdfs" {
        Some("http://www.w3.org/2000/01/rdf-schema#")
    } else if prefix == "xsd" {
        Some("http://www.w3.org/2001/XMLSchema#")
    } else {
        None
    }
}

// What stands before the first colon, and after it.
pub(crate) fn split(name: &str) -> Option<(&str, &str)>
    ensures { parts_of result ≡ spec.colon_split name.now }
{
    name.split_once(':')
}

// What a prefix stands for in the table.
fn find<'t>(namespaces: &'t IndexMap<String, Text>, prefix: &str) -> Option<&'t Text>
    ensures { option_copied result ≡ spec.namespace_of prefix.now (shown namespaces.now.entries) }
{
    namespaces.get(prefix)
}

// Puts a new prefix at the end.
fn put(
    map: &mut IndexMap<String, Text>,
    alloc: Global,
    prefix: &str,
    namespace: &str,
) -> Result<(), NoMemory>
    requires new { spec.namespace_of prefix.now (shown map.old.entries) ≡ None }
    ensures { OnOk result (shown map.new.entries ≡ shown map.old.entries ++ (prefix.now, namespace.now) ∷ []) }
{
    let prefix = String::from_str(alloc, prefix)?;
    let namespace = Text::from_str(alloc, namespace)?;
    map.insert(prefix, namespace)?;
    Ok(())
}

impl PrefixTable {
    // A table with no prefix.
    pub(crate) fn new(alloc: Global) -> PrefixTable
        ensures { result ≡ [] }
    {
        PrefixTable {
            namespaces: IndexMap::new(alloc),
        }
    }

    // Adds a prefix. The answer is whether it is new.
    pub(crate) fn add(
        &mut self,
        alloc: Global,
        prefix: &str,
        namespace: &str,
    ) -> Result<bool, NoMemory>
        ensures { IfOk result (λ fresh. IsAdded fresh prefix.now namespace.now self.old self.new) }
    {
        if find(&self.namespaces, prefix).is_some() {
            return Ok(false);
        }
        put(&mut self.namespaces, alloc, prefix, namespace)?;
        Ok(true)
    }

    // What a prefix stands for.
    fn namespace(&self, prefix: &str) -> Option<&str>
        ensures { option_copied result ≡ spec.known prefix.now self.now }
    {
        match find(&self.namespaces, prefix) {
            Some(namespace) => Some(namespace.as_str()),
            None => standard(prefix),
        }
    }

    /// The IRI that an item names: an IRI is itself, and a name with a colon is what its prefix stands for and what
    /// follows. Any other item is a Shape breach, and a prefix that is not known an UnknownPrefix, at the item's line.
    pub fn expand(&self, alloc: Global, doc: &Doc, item: &Item) -> Result<Text, Stop<ShapeBreach>>
        ensures { Gives result (spec.iri_of doc.now.source.now doc.now.tokens.now self.now item.now) }
    {
        match item {
            Item::Iri { token } => Ok(Text::from_str(alloc, doc.word(*token))?),
            Item::Leaf { token } => match split(doc.word(*token)) {
                None => Err(wrong(doc.line(*token), ShapeKind::Shape)),
                Some((prefix, name)) => match self.namespace(prefix) {
                    None => Err(wrong(doc.line(*token), ShapeKind::UnknownPrefix)),
                    Some(namespace) => Ok(joined(alloc, namespace, name)?),
                },
            },
            _ => Err(wrong(doc.line(first_token(item)), ShapeKind::Shape)),
        }
    }
}

// What a prefix stands for, and what follows it.
fn joined(alloc: Global, namespace: &str, name: &str) -> Result<Text, NoMemory>
    ensures { IfOk result (λ iri. iri ≡ namespace.now ++ name.now) }
{
    let mut iri = String::with_capacity(alloc, namespace.len() + name.len())?;
    iri.push_str(namespace)?;
    iri.push_str(name)?;
    Text::from_string(alloc, iri)
}
