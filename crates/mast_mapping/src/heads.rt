//! Heads of maps, read by the grammar's rules over the outputs of their source query.
ghost use Rattle.std.specs.Prelude.{◌≡◌, [], Some};
ghost use Rattle.mast_terms.specs.declared.name.NameKind.TheVariants as kind;
ghost use Rattle.mast_tree.specs.Results.{Gives};
ghost use Rattle.mast_tree.specs.Said.{said};
ghost use Rattle.mast_mapping.specs.Heads as spec;
ghost use Rattle.mast_mapping.specs.inside.Readers.{ByDates};
ghost use Rattle.mast_mapping.specs.inside.ReadHeads.{ReadsHead, ReadsItems, ReadsHeads, constant_at, output_at};

use crate::doc_reader::DocReader;
use crate::name_index::NameIndex;
use crate::{Head, Slot, Template};
use mast_terms::{List, NameKind, Stop, Vocabulary};
use mast_tree::{Item, Layer, ShapeBreach, ShapeKind, wrong};
use std::alloc::Global;

/// A document with its prefixes, and the outputs of a source query.
#[derive(Clone, Copy)]
pub(crate) struct HeadReader<'r, 'a> {
    pub(crate) place: DocReader<'r, 'a>,
    pub(crate) outputs: &'r NameIndex,
}

// The kind of the name in a head of this word.
fn head_kind(word: &str) -> Option<NameKind>
    ensures { result ≡ spec.head_kind word.now }
{
    if word == "Class" {
        Some(NameKind::Class)
    } else if word == "Role" {
        Some(NameKind::Role)
    } else if word == "Attr" {
        Some(NameKind::Attr)
    } else {
        None
    }
}

impl<'r, 'a> HeadReader<'r, 'a> {
    // Heads, in order.
    pub(crate) fn heads(
        &self,
        alloc: Global,
        vocab: &mut Vocabulary,
        items: &[Item],
    ) -> Result<List<Head>, Stop<ShapeBreach>>
        ensures { ByDates self.now (λ s. ReadsHeads s items.now vocab.old vocab.new result) }
    {
        let mut heads = List::new(alloc);
        for item in items {
            let head = self.head(alloc, vocab, item)?;
            heads.push(alloc, head)?;
        }
        Ok(heads)
    }

    // A head: a node of one of the three words.
    fn head(
        &self,
        alloc: Global,
        vocab: &mut Vocabulary,
        item: &Item,
    ) -> Result<Head, Stop<ShapeBreach>>
        ensures { ByDates self.now (λ s. ReadsHead s item.now vocab.old vocab.new result) }
    {
        match self.place.doc.layer(item) {
            Layer::Node { word, line, items } => match head_kind(word) {
                Some(NameKind::Class) => self.class(alloc, vocab, line, items),
                Some(NameKind::Role) => self.role(alloc, vocab, line, items),
                Some(NameKind::Attr) => self.attribute(alloc, vocab, line, items),
                None => Err(wrong(line, ShapeKind::Shape)),
            },
            _ => Err(self.place.wrong(item, ShapeKind::Shape)),
        }
    }

    // Class(IRI object).
    fn class(
        &self,
        alloc: Global,
        vocab: &mut Vocabulary,
        line: u32,
        items: &[Item],
    ) -> Result<Head, Stop<ShapeBreach>>
        ensures { ByDates self.now (λ s. ReadsItems s (Some kind.Class) line items.now vocab.old vocab.new result) }
    {
        match items {
            [iri, subject] => {
                let doc = self.place.doc;
                let name = self
                    .place
                    .prefixes
                    .name(alloc, doc, iri, NameKind::Class, vocab)?;
                let subject = self.object(alloc, subject)?;
                Ok(Head::Class { name, subject })
            }
            _ => Err(wrong(line, ShapeKind::Shape)),
        }
    }

    // Role(IRI object object).
    fn role(
        &self,
        alloc: Global,
        vocab: &mut Vocabulary,
        line: u32,
        items: &[Item],
    ) -> Result<Head, Stop<ShapeBreach>>
        ensures { ByDates self.now (λ s. ReadsItems s (Some kind.Role) line items.now vocab.old vocab.new result) }
    {
        match items {
            [iri, from, to] => {
                let doc = self.place.doc;
                let name = self
                    .place
                    .prefixes
                    .name(alloc, doc, iri, NameKind::Role, vocab)?;
                let from = self.object(alloc, from)?;
                let to = self.object(alloc, to)?;
                Ok(Head::Role { name, from, to })
            }
            _ => Err(wrong(line, ShapeKind::Shape)),
        }
    }

    // Attr(IRI object slot).
    fn attribute(
        &self,
        alloc: Global,
        vocab: &mut Vocabulary,
        line: u32,
        items: &[Item],
    ) -> Result<Head, Stop<ShapeBreach>>
        ensures { ByDates self.now (λ s. ReadsItems s (Some kind.Attr) line items.now vocab.old vocab.new result) }
    {
        match items {
            [iri, from, value] => {
                let doc = self.place.doc;
                let name = self
                    .place
                    .prefixes
                    .name(alloc, doc, iri, NameKind::Attr, vocab)?;
                let from = self.object(alloc, from)?;
                let value = self.slot(alloc, value)?;
                Ok(Head::Attr { name, from, value })
            }
            _ => Err(wrong(line, ShapeKind::Shape)),
        }
    }

    // Obj(Identifier slot ..).
    fn object(&self, alloc: Global, item: &Item) -> Result<Template, Stop<ShapeBreach>>
        ensures { ByDates self.now (λ s. Gives result (spec.object_of s (said s.doc item.now))) }
    {
        match self.place.doc.layer(item) {
            Layer::Node { word, line, items } => {
                if word == "Obj" {
                    self.object_in(alloc, line, items)
                } else {
                    Err(wrong(line, ShapeKind::Shape))
                }
            }
            _ => Err(self.place.wrong(item, ShapeKind::Shape)),
        }
    }

    // The items of an `Obj` node.
    fn object_in(
        &self,
        alloc: Global,
        line: u32,
        items: &[Item],
    ) -> Result<Template, Stop<ShapeBreach>>
        ensures { ByDates self.now (λ s. Gives result (spec.object_in s line items.now)) }
    {
        match items {
            [] => Err(wrong(line, ShapeKind::Shape)),
            [symbol, ..] => {
                let symbol = self.place.identifier(alloc, symbol)?;
                let (_, slots) = items.split_at(1);
                let args = self.slots(alloc, slots)?;
                Ok(Template { symbol, args })
            }
        }
    }

    // Slots, in order.
    fn slots(&self, alloc: Global, items: &[Item]) -> Result<List<Slot>, Stop<ShapeBreach>>
        ensures { ByDates self.now (λ s. Gives result (spec.slots_of s [] items.now)) }
    {
        let mut slots = List::new(alloc);
        for item in items {
            let slot = self.slot(alloc, item)?;
            slots.push(alloc, slot)?;
        }
        Ok(slots)
    }

    // An output of the source query, or a constant.
    fn slot(&self, alloc: Global, item: &Item) -> Result<Slot, Stop<ShapeBreach>>
        ensures { ByDates self.now (λ s. Gives result (spec.slot_of s (said s.doc item.now))) }
    {
        match self.place.doc.layer(item) {
            Layer::Name { line, .. } => self.output(alloc, line, item),
            Layer::Iri { .. } => self.constant(alloc, item),
            Layer::Text { .. } => self.constant(alloc, item),
            Layer::Tagged { .. } => self.constant(alloc, item),
            Layer::Binding { .. } => self.constant(alloc, item),
            Layer::Node { .. } => self.constant(alloc, item),
        }
    }

    // A leaf at a line that is an output of the source query.
    fn output(&self, alloc: Global, line: u32, item: &Item) -> Result<Slot, Stop<ShapeBreach>>
        ensures { Gives result (output_at self.now line item.now) }
    {
        let name = self.place.identifier(alloc, item)?;
        if self.outputs.has(name.as_str()) {
            Ok(Slot::Output(name))
        } else {
            Err(wrong(line, ShapeKind::UnknownColumn))
        }
    }

    // A constant in a slot.
    fn constant(&self, alloc: Global, item: &Item) -> Result<Slot, Stop<ShapeBreach>>
        ensures { ByDates self.now (λ s. Gives result (constant_at s item.now)) }
    {
        let value = self.place.doc.constant(alloc, item)?;
        Ok(Slot::Constant(value))
    }
}
