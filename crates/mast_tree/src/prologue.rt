//! What a document begins with: its prefixes, up to the main node.
ghost use Rattle.std.specs.Prelude.{◌≡◌, []};
ghost use Rattle.mast_tree.specs.inside.Parts.{shown_part};
ghost use Rattle.mast_tree.specs.inside.Prologue as prologue;
ghost use Rattle.mast_tree.specs.Prologue.{AnswersPrologue};
ghost use Rattle.mast_tree.specs.Results.{Gives};
ghost use Rattle.mast_tree.specs.declared.item.Item.{out-Item};

use crate::prefix::{first_token, split};
use crate::{Doc, Item, PrefixTable, ShapeBreach, ShapeKind, wrong};
use mast_terms::Stop;
use std::alloc::Global;

// A part of a document's prologue.
#[derive(Clone, Copy)]
enum Part<'a> {
    // The node with the wanted word.
    Main,
    // A prefix without its colon, and the IRI that it stands for.
    Prefix(&'a str, &'a str),
    // Something else; the breach is at that line.
    Wrong(u32),
}

// A name with one colon, at its end, and the IRI that it is bound to.
fn binding<'a>(doc: &Doc<'a>, item: &Item) -> Part<'a>
    ensures { shown_part result ≡ prologue.binding_in doc.now.source.now doc.now.tokens.now (out-Item item.now) }
{
    let wrong = Part::Wrong(doc.line(first_token(item)));
    match item {
        Item::Bind { token, iri } => match split(doc.word(*token)) {
            Some((prefix, name)) => {
                if name.is_empty() {
                    Part::Prefix(prefix, doc.word(*iri))
                } else {
                    wrong
                }
            }
            None => wrong,
        },
        _ => wrong,
    }
}

// What an item of a document's prologue is.
fn part_of<'a>(doc: &Doc<'a>, item: &Item, word: &str) -> Part<'a>
    ensures { shown_part result ≡ prologue.part_in doc.now.source.now doc.now.tokens.now word.now (out-Item item.now) }
{
    let wrong = Part::Wrong(doc.line(first_token(item)));
    match item {
        Item::Node { token, items } => {
            let name = doc.word(*token);
            if name == word {
                return Part::Main;
            }
            if name != "Prefix" {
                return wrong;
            }
            match items.get().as_slice() {
                [only] => binding(doc, only),
                _ => wrong,
            }
        }
        _ => wrong,
    }
}

// The prefixes, item by item.
fn read_prefixes(alloc: Global, doc: &Doc, word: &str) -> Result<PrefixTable, Stop<ShapeBreach>>
    ensures { Gives result (prologue.prologue_of doc.now.source.now doc.now.tokens.now word.now [] doc.now.items) }
{
    let mut table = PrefixTable::new(alloc);
    for item in doc.items.as_slice() {
        match part_of(doc, item, word) {
            Part::Main => return Ok(table),
            Part::Wrong(line) => return Err(wrong(line, ShapeKind::Shape)),
            Part::Prefix(prefix, namespace) => {
                if !table.add(alloc, prefix, namespace)? {
                    return Err(wrong(doc.line(first_token(item)), ShapeKind::Shape));
                }
            }
        }
    }
    Err(wrong(1, ShapeKind::Shape))
}

/// The prefixes of a document, whose main node has the given word: `Ontology`, `Constraints` or `Mappings`. A breach is
/// the first one up to that node.
pub fn prefixes(alloc: Global, doc: &Doc, word: &str) -> Result<PrefixTable, Stop<ShapeBreach>>
    ensures prologue { AnswersPrologue doc.now.source.now doc.now.tokens.now word.now doc.now.items result }
{
    read_prefixes(alloc, doc, word)
}
