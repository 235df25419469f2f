//! Mapping documents, read by the grammar's rules, in its order:
//!
//! ```text
//! document  Prefix ..  Mappings(item ..)
//! item      table | map
//! table     Table(Identifier Str column column ..)        declarations.rt
//! column    Column(Identifier kind) | Column(Identifier kind Null)
//! kind      text | integer | date
//! map       Map(source head head ..)
//! source    Str                                           sources.rt
//! head      Class(IRI object)                             heads.rt
//!           | Role(IRI object object)
//!           | Attr(IRI object slot)
//! object    Obj(Identifier slot ..)
//! slot      Identifier | constant
//! ```
ghost use Rattle.std.specs.Prelude.{◌≡◌, IfOk};
ghost use Rattle.mast_terms.specs.Answers.{Answers};
ghost use Rattle.mast_tree.specs.Growing.{Begins};
ghost use Rattle.mast_tree.specs.Said.{said};
ghost use Rattle.mast_tree.specs.Seen.{seen};
ghost use Rattle.mast_mapping.specs.Documents as spec;
ghost use Rattle.mast_mapping.specs.InRange.{AreInRange};
ghost use Rattle.mast_mapping.specs.OverTables.{AreOverTables};
ghost use Rattle.mast_mapping.specs.Readings.{Texts, AreTexts};
ghost use Rattle.mast_mapping.specs.inside.Progress.{page, ReadsMap, ReadsItem, ReadsEntry, ReadsInside};
ghost use Rattle.mast_mapping.specs.inside.Readers.{ByTexts};

use crate::doc_reader::DocReader;
use crate::heads::HeadReader;
use crate::table_index::TableIndex;
use crate::{Map, Mappings};
use mast_terms::{List, Stop, Vocabulary};
use mast_tree::{Doc, Item, Layer, ShapeBreach, ShapeKind, wrong};
use std::alloc::Global;

// What was read of a main node so far.
#[derive(Drop)]
struct Contents {
    vocab: Vocabulary,
    tables: TableIndex,
    maps: List<Map>,
}

/// The mappings of a document, whose names are added to a vocabulary, or the document's first breach.
///
/// The breach is the first in preorder: that of the prologue; an item that is no table and no map, or not of their form;
/// a name of a table or a column that stands before; at the line of its string, a text that is no source query, or one
/// with which something is wrong by the tables before it; a head that is not of its form, whose name is refused, or of
/// which a slot is neither an output nor a constant; an item after the main node.
pub fn read_mappings(
    alloc: Global,
    doc: &Doc,
    vocab: Vocabulary,
) -> Result<Mappings, Stop<ShapeBreach>>
    ensures exact { (texts : Texts) → AreTexts texts → spec.AnswersMappings texts (seen doc.now) vocab result }
    ensures begins { IfOk result (λ mappings. Begins mappings.vocab vocab) }
    ensures constants { IfOk result (λ mappings. mappings.vocab.constants ≡ vocab.constants) }
    ensures over { IfOk result (λ mappings. AreOverTables mappings.tables mappings.maps) }
    ensures names { IfOk result (λ mappings. AreInRange mappings.vocab mappings.maps) }
{
    let parts = doc.parts(alloc, "Mappings")?;
    let reader = DocReader {
        doc,
        prefixes: &parts.prefixes,
    };
    let Contents {
        vocab,
        tables,
        maps,
    } = reader.items(alloc, vocab, parts.inside)?;
    doc.nothing_after(parts.after)?;
    Ok(Mappings {
        vocab,
        tables: tables.into_tables(),
        maps,
    })
}

impl<'r, 'a> DocReader<'r, 'a> {
    // The items of the main node.
    fn items(
        &self,
        alloc: Global,
        vocab: Vocabulary,
        items: &[Item],
    ) -> Result<Contents, Stop<ShapeBreach>>
        ensures { ByTexts (λ t. ReadsInside t (page self.now) vocab items.now result) }
    {
        let mut read = Contents {
            vocab,
            tables: TableIndex::new(alloc),
            maps: List::new(alloc),
        };
        for item in items {
            read = self.item(alloc, read, item)?;
        }
        Ok(read)
    }

    // A `Table` or a `Map` node, behind what was read.
    fn item(
        &self,
        alloc: Global,
        before: Contents,
        item: &Item,
    ) -> Result<Contents, Stop<ShapeBreach>>
        ensures { ByTexts (λ t. ReadsItem t (page self.now) before item.now result) }
    {
        match self.doc.layer(item) {
            Layer::Node { word, line, items } => {
                if word == "Table" {
                    self.table_item(alloc, before, line, items)
                } else if word == "Map" {
                    self.map_item(alloc, before, line, items)
                } else {
                    Err(wrong(line, ShapeKind::Shape))
                }
            }
            _ => Err(self.wrong(item, ShapeKind::Shape)),
        }
    }

    // A `Table` node at a line.
    fn table_item(
        &self,
        alloc: Global,
        before: Contents,
        line: u32,
        items: &[Item],
    ) -> Result<Contents, Stop<ShapeBreach>>
        ensures { ByTexts (λ t. ReadsEntry t (page self.now) before (spec.table line items.now) result) }
    {
        let Contents {
            vocab,
            tables,
            maps,
        } = before;
        let (table, kinds) = self.table(alloc, &tables, line, items)?;
        let tables = tables.with(alloc, table, kinds)?;
        Ok(Contents {
            vocab,
            tables,
            maps,
        })
    }

    // A `Map` node at a line.
    fn map_item(
        &self,
        alloc: Global,
        before: Contents,
        line: u32,
        items: &[Item],
    ) -> Result<Contents, Stop<ShapeBreach>>
        ensures { ByTexts (λ t. ReadsEntry t (page self.now) before (spec.map line items.now) result) }
    {
        let Contents {
            mut vocab,
            tables,
            mut maps,
        } = before;
        let map = self.map(alloc, &mut vocab, &tables, line, items)?;
        maps.push(alloc, map)?;
        Ok(Contents {
            vocab,
            tables,
            maps,
        })
    }

    // Map(Str head head ..): the map, by the tables before it.
    fn map(
        &self,
        alloc: Global,
        vocab: &mut Vocabulary,
        tables: &TableIndex,
        line: u32,
        items: &[Item],
    ) -> Result<Map, Stop<ShapeBreach>>
        ensures { ByTexts (λ t. ReadsMap t (page self.now) tables.now line items.now vocab.old vocab.new result) }
    {
        match items {
            [source, _, ..] => {
                let (query, outputs) = self.source(alloc, tables, source)?;
                let reader = HeadReader {
                    place: *self,
                    outputs: &outputs,
                };
                let (_, heads) = items.split_at(1);
                let heads = reader.heads(alloc, vocab, heads)?;
                Ok(Map {
                    line: self.line(source),
                    query,
                    heads,
                })
            }
            _ => Err(wrong(line, ShapeKind::Shape)),
        }
    }
}
