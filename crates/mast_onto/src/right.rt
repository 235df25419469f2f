//! Right sides, as the parts that each has.
ghost use Rattle.std.specs.Prelude.{◌≡◌, ◌∷◌, [], map, IfOk, OnOk};
ghost use Rattle.std.specs.List.{flat_map};
ghost use Rattle.mast_tree.specs.Pages.{names, says};
ghost use Rattle.mast_expressions.specs.Reads.{page};
ghost use Rattle.mast_onto.specs.Rights as spec;
ghost use Rattle.mast_onto.specs.inside.Reads.{ReadsPart, ReadsParts, ReadsRight};
ghost use Rattle.mast_onto.specs.inside.Shown.{shown_part, Extends};

use crate::reader::Reader;
use crate::statement::Part;
use mast_expressions::Places;
use mast_terms::{List, NoMemory, Stop, Vocabulary};
use mast_tree::{Item, Layer, ShapeBreach, ShapeKind, wrong};
use std::alloc::Global;

/// The form of a part of a right side.
#[derive(Clone, Copy)]
pub(crate) enum PartForm<'i> {
    /// owl:Thing.
    Thing,
    /// A left side.
    Left(&'i Item),
    /// A role, and the class of its filler.
    Filled(&'i Item, &'i Item),
    /// A left side, of which the part is the complement.
    Complement(&'i Item),
    /// A node at a line, with a wrong number of items.
    Wrong(u32),
}

impl<'d> Reader<'d> {
    /// The parts of a right side, in order.
    pub(crate) fn right(
        &self,
        alloc: Global,
        vocab: &mut Vocabulary,
        item: &Item,
    ) -> Result<List<Part>, Stop<ShapeBreach>>
        ensures { ReadsRight (page self.now.places) item.now vocab.old vocab.new result }
    {
        let mut forms = Vec::new(alloc);
        self.open(alloc, item, &mut forms)?;
        self.parts(alloc, vocab, forms.as_slice())
    }

    // The parts of a right side.
    #[cycle(opening)]
    fn open<'i>(
        &self,
        alloc: Global,
        item: &'i Item,
        forms: &mut Vec<PartForm<'i>>,
    ) -> Result<(), NoMemory>
        ensures { OnOk result (Extends forms.old.items (spec.right_forms (page self.now.places) item.now) forms.new.items) }
    {
        match item {
            Item::Node { items, .. } => match self.intersection(item) {
                None => self.add_part(alloc, item, forms),
                Some(line) => self.open_both(alloc, line, items.get().as_slice(), forms),
            },
            _ => self.add_part(alloc, item, forms),
        }
    }

    // The parts of two or more right sides of an intersection at a line.
    #[cycle(opening)]
    fn open_both<'i>(
        &self,
        alloc: Global,
        line: u32,
        items: &'i [Item],
        forms: &mut Vec<PartForm<'i>>,
    ) -> Result<(), NoMemory>
        ensures { OnOk result (Extends forms.old.items (spec.both_forms (spec.right_forms (page self.now.places)) line items.now) forms.new.items) }
    {
        match items {
            [] => Ok(forms.push(PartForm::Wrong(line))?),
            [_] => Ok(forms.push(PartForm::Wrong(line))?),
            [_, _, ..] => self.open_each(alloc, items, forms),
        }
    }

    // The parts of right sides, one after the other.
    #[cycle(opening)]
    fn open_each<'i>(
        &self,
        alloc: Global,
        items: &'i [Item],
        forms: &mut Vec<PartForm<'i>>,
    ) -> Result<(), NoMemory>
        ensures { OnOk result (Extends forms.old.items (flat_map (spec.right_forms (page self.now.places)) items.now) forms.new.items) }
    {
        for item in items {
            self.open(alloc, item, forms)?;
        }
        Ok(())
    }

    // Adds the form of a part.
    fn add_part<'i>(
        &self,
        alloc: Global,
        item: &'i Item,
        forms: &mut Vec<PartForm<'i>>,
    ) -> Result<(), NoMemory>
        ensures { OnOk result (Extends forms.old.items (spec.part_form (page self.now.places) item.now ∷ []) forms.new.items) }
    {
        forms.push(self.part_form(alloc, item)?)?;
        Ok(())
    }

    // The line of an intersection.
    fn intersection(&self, item: &Item) -> Option<u32>
        ensures { result ≡ spec.intersection (says (page self.now.places) item.now) }
    {
        match self.places.doc.layer(item) {
            Layer::Node { word, line, .. } => {
                if word == "ObjectIntersectionOf" {
                    Some(line)
                } else {
                    None
                }
            }
            _ => None,
        }
    }

    // The form of a part.
    fn part_form<'i>(&self, alloc: Global, item: &'i Item) -> Result<PartForm<'i>, NoMemory>
        ensures { IfOk result (λ form. shown_part form ≡ spec.part_form (page self.now.places) item.now) }
    {
        match self.places.doc.layer(item) {
            Layer::Node { word, line, items } => self.part_node(alloc, item, word, line, items),
            _ => self.part_leaf(alloc, item),
        }
    }

    // Another item as a part.
    fn part_leaf<'i>(&self, alloc: Global, item: &'i Item) -> Result<PartForm<'i>, NoMemory>
        ensures { IfOk result (λ form. shown_part form ≡ spec.part_leaf (page self.now.places) item.now) }
    {
        if self.is_thing(alloc, item)? {
            Ok(PartForm::Thing)
        } else {
            Ok(PartForm::Left(item))
        }
    }

    // A node as a part.
    fn part_node<'i>(
        &self,
        alloc: Global,
        item: &'i Item,
        word: &str,
        line: u32,
        items: &'i [Item],
    ) -> Result<PartForm<'i>, NoMemory>
        ensures { IfOk result (λ form. shown_part form ≡ spec.part_node (page self.now.places) item.now word.now line items.now) }
    {
        if word == "ObjectSomeValuesFrom" {
            return self.filled_form(alloc, item, line, items);
        }
        if word == "ObjectComplementOf" {
            return Ok(complement_form(line, items));
        }
        Ok(PartForm::Left(item))
    }

    // What stands in `ObjectSomeValuesFrom(..)` at a line: a left side where its filler is owl:Thing, else a role and a class.
    fn filled_form<'i>(
        &self,
        alloc: Global,
        item: &'i Item,
        line: u32,
        items: &'i [Item],
    ) -> Result<PartForm<'i>, NoMemory>
        ensures { IfOk result (λ form. shown_part form ≡ spec.filled_form (page self.now.places) item.now line items.now) }
    {
        match items {
            [role, filler] => {
                if self.is_thing(alloc, filler)? {
                    Ok(PartForm::Left(item))
                } else {
                    Ok(PartForm::Filled(role, filler))
                }
            }
            _ => Ok(PartForm::Wrong(line)),
        }
    }

    // Whether an item names owl:Thing.
    fn is_thing(&self, alloc: Global, item: &Item) -> Result<bool, NoMemory>
        ensures { IfOk result (λ is. is ≡ spec.is_thing (names (page self.now.places) item.now)) }
    {
        match self.places.prefixes.expand(alloc, self.places.doc, item) {
            Ok(iri) => Ok(iri.as_str() == "http://www.w3.org/2002/07/owl#Thing"),
            Err(Stop::Named(_)) => Ok(false),
            Err(Stop::NoMemory) => Err(NoMemory),
        }
    }

    // The parts of some forms.
    fn parts(
        &self,
        alloc: Global,
        vocab: &mut Vocabulary,
        forms: &[PartForm],
    ) -> Result<List<Part>, Stop<ShapeBreach>>
        ensures { ReadsParts (page self.now.places) (map shown_part forms.now) vocab.old vocab.new result }
    {
        let mut parts = List::new(alloc);
        for form in forms {
            let part = self.part(alloc, vocab, *form)?;
            parts.push(alloc, part)?;
        }
        Ok(parts)
    }

    // A part.
    fn part(
        &self,
        alloc: Global,
        vocab: &mut Vocabulary,
        form: PartForm,
    ) -> Result<Part, Stop<ShapeBreach>>
        ensures { ReadsPart (page self.now.places) (shown_part form.entry) vocab.old vocab.new result }
    {
        match form {
            PartForm::Thing => Ok(Part::Thing),
            PartForm::Left(item) => Ok(Part::Basic(self.places.left(alloc, vocab, item)?)),
            PartForm::Filled(role, filler) => self.filled(alloc, vocab, role, filler),
            PartForm::Complement(item) => {
                Ok(Part::Complement(self.places.left(alloc, vocab, item)?))
            }
            PartForm::Wrong(line) => Err(wrong(line, ShapeKind::Shape)),
        }
    }

    // A role and the class of its filler.
    fn filled(
        &self,
        alloc: Global,
        vocab: &mut Vocabulary,
        role: &Item,
        filler: &Item,
    ) -> Result<Part, Stop<ShapeBreach>>
        ensures { ReadsPart (page self.now.places) (spec.filled role.now filler.now) vocab.old vocab.new result }
    {
        let role = self.places.role(alloc, vocab, role, ShapeKind::NotDlLite)?;
        let end = self
            .places
            .class(alloc, vocab, filler, ShapeKind::NotDlLite)?;
        Ok(Part::Qualified { role, end })
    }
}

// What stands in `ObjectComplementOf(..)` at a line: a left side.
fn complement_form<'i>(line: u32, items: &'i [Item]) -> PartForm<'i>
    ensures { shown_part result ≡ spec.complement_form line items.now }
{
    match items {
        [only] => PartForm::Complement(only),
        _ => PartForm::Wrong(line),
    }
}
