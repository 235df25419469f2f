//! Paths and identifications.
ghost use Rattle.std.specs.Prelude.{◌≡◌};
ghost use Rattle.mast_constr.specs.Paths as spec;
ghost use Rattle.mast_constr.specs.inside.Rules as rules;
ghost use Rattle.mast_constr.specs.inside.Rules.{page_in};

use crate::reader::{Reader, is_empty, parted};
use mast_tbox::{Basic, MOST_ATOMS, Step};
use mast_terms::{List, Name, Stop, Vocabulary};
use mast_tree::{Item, Layer, ShapeBreach, ShapeKind, wrong};
use std::alloc::Global;

impl<'d> Reader<'d> {
    // What stands in `Identify(..)`: a left side and one or more paths.
    pub(crate) fn identify(
        &self,
        alloc: Global,
        vocab: &mut Vocabulary,
        line: u32,
        items: &[Item],
    ) -> Result<(Basic, List<List<Step>>), Stop<ShapeBreach>>
        ensures { rules.ReadsIdentify (page_in self.now) line items.now vocab.old vocab.new result }
    {
        match items {
            [] => Err(wrong(line, ShapeKind::Shape)),
            [_] => Err(wrong(line, ShapeKind::Shape)),
            [left, paths @ ..] => self.identified(alloc, vocab, line, left, paths),
        }
    }

    // A left side and paths, for a node at a line.
    fn identified(
        &self,
        alloc: Global,
        vocab: &mut Vocabulary,
        line: u32,
        left: &Item,
        items: &[Item],
    ) -> Result<(Basic, List<List<Step>>), Stop<ShapeBreach>>
        ensures { rules.ReadsIdentified (page_in self.now) line left.now items.now vocab.old vocab.new result }
    {
        if self.are_many(items) {
            return Err(wrong(line, ShapeKind::Atoms));
        }
        self.concept_paths(alloc, vocab, left, items)
    }

    // A left side and paths, which are not too long.
    fn concept_paths(
        &self,
        alloc: Global,
        vocab: &mut Vocabulary,
        left: &Item,
        items: &[Item],
    ) -> Result<(Basic, List<List<Step>>), Stop<ShapeBreach>>
        ensures { rules.ReadsConceptPaths (page_in self.now) left.now items.now vocab.old vocab.new result }
    {
        let concept = self.places.left(alloc, vocab, left)?;
        let mut paths = List::new(alloc);
        self.paths(alloc, vocab, items, &mut paths)?;
        Ok((concept, paths))
    }

    // How many items stand in a `Path` node.
    fn path_length(&self, item: &Item) -> usize
        ensures { result ≡ spec.path_length (rules.said_in self.now item.now) }
    {
        match self.places.doc.layer(item) {
            Layer::Node { word, items, .. } => { if word == "Path" { items.len() } else { 0 } }
            _ => 0,
        }
    }

    // Whether the violation query of an identification with these paths has too many atoms.
    fn are_many(&self, paths: &[Item]) -> bool
        ensures { result ≡ spec.are_many (spec.all_steps (page_in self.now) paths.now) }
    {
        let mut steps = 0;
        for path in paths {
            let length = self.path_length(path);
            if length >= MOST_ATOMS / 2 {
                return true;
            }
            steps += length;
            if steps >= MOST_ATOMS / 2 {
                return true;
            }
        }
        false
    }

    // Paths, put behind those that stand before.
    fn paths(
        &self,
        alloc: Global,
        vocab: &mut Vocabulary,
        items: &[Item],
        paths: &mut List<List<Step>>,
    ) -> Result<(), Stop<ShapeBreach>>
        ensures { rules.ReadsPaths (page_in self.now) items.now vocab.old vocab.new paths.old paths.new result }
    {
        match parted(items) {
            None => Ok(()),
            Some((item, rest)) => match self.put_path(alloc, vocab, item, paths) {
                Err(stop) => Err(stop),
                Ok(()) => self.paths(alloc, vocab, rest, paths),
            },
        }
    }

    // A path, put behind those that stand before.
    fn put_path(
        &self,
        alloc: Global,
        vocab: &mut Vocabulary,
        item: &Item,
        paths: &mut List<List<Step>>,
    ) -> Result<(), Stop<ShapeBreach>>
        ensures { rules.PutsPath (page_in self.now) item.now vocab.old vocab.new paths.old paths.new result }
    {
        let path = self.path(alloc, vocab, item)?;
        paths.push(alloc, path)?;
        Ok(())
    }

    // A path: a `Path` node of steps, of which one leads.
    fn path(
        &self,
        alloc: Global,
        vocab: &mut Vocabulary,
        item: &Item,
    ) -> Result<List<Step>, Stop<ShapeBreach>>
        ensures { rules.ReadsPath (page_in self.now) item.now vocab.old vocab.new result }
    {
        match self.places.doc.layer(item) {
            Layer::Node { word, line, items } => {
                if word == "Path" {
                    self.path_items(alloc, vocab, line, items)
                } else {
                    Err(wrong(line, ShapeKind::Shape))
                }
            }
            _ => Err(wrong(self.places.line(item), ShapeKind::Shape)),
        }
    }

    // What stands in `Path(..)`.
    fn path_items(
        &self,
        alloc: Global,
        vocab: &mut Vocabulary,
        line: u32,
        items: &[Item],
    ) -> Result<List<Step>, Stop<ShapeBreach>>
        ensures { rules.ReadsPathItems (page_in self.now) line items.now vocab.old vocab.new result }
    {
        if !self.some_leads(items) {
            return Err(wrong(line, ShapeKind::Shape));
        }
        let mut steps = List::new(alloc);
        self.steps(alloc, vocab, items, &mut steps)?;
        Ok(steps)
    }

    // Whether some item looks like a role, an inverse role or an attribute.
    fn some_leads(&self, items: &[Item]) -> bool
        ensures { result ≡ spec.some_leads (page_in self.now) items.now }
    {
        for item in items {
            if self.leads(item) {
                return true;
            }
        }
        false
    }

    // Whether an item does.
    fn leads(&self, item: &Item) -> bool
        ensures { result ≡ spec.leads (rules.said_in self.now item.now) }
    {
        match self.places.doc.layer(item) {
            Layer::Name { .. } => true,
            Layer::Iri { .. } => true,
            Layer::Text { .. } => false,
            Layer::Tagged { .. } => false,
            Layer::Binding { .. } => false,
            Layer::Node { word, .. } => word == "ObjectInverseOf" || word == "Attr",
        }
    }

    // Steps, put behind those that stand before.
    fn steps(
        &self,
        alloc: Global,
        vocab: &mut Vocabulary,
        items: &[Item],
        steps: &mut List<Step>,
    ) -> Result<(), Stop<ShapeBreach>>
        ensures { rules.ReadsSteps (page_in self.now) items.now vocab.old vocab.new steps.old steps.new result }
    {
        match parted(items) {
            None => Ok(()),
            Some((item, rest)) => {
                match self.put_step(alloc, vocab, item, is_empty(rest), steps) {
                    Err(stop) => Err(stop),
                    Ok(()) => self.steps(alloc, vocab, rest, steps),
                }
            }
        }
    }

    // A step, put behind those that stand before.
    fn put_step(
        &self,
        alloc: Global,
        vocab: &mut Vocabulary,
        item: &Item,
        last: bool,
        steps: &mut List<Step>,
    ) -> Result<(), Stop<ShapeBreach>>
        ensures { rules.PutsStep last (page_in self.now) item.now vocab.old vocab.new steps.old steps.new result }
    {
        let step = self.step(alloc, vocab, item, last)?;
        steps.push(alloc, step)?;
        Ok(())
    }

    // A step: a role, `Test(IRI)`, or as the last one `Attr(IRI)`.
    fn step(
        &self,
        alloc: Global,
        vocab: &mut Vocabulary,
        item: &Item,
        last: bool,
    ) -> Result<Step, Stop<ShapeBreach>>
        ensures { rules.ReadsStep last (page_in self.now) item.now vocab.old vocab.new result }
    {
        match self.places.doc.layer(item) {
            Layer::Node { word, line, items } => {
                if word == "Test" {
                    Ok(Step::Test(self.test(alloc, vocab, line, items)?))
                } else if word == "Attr" {
                    Ok(Step::Attr(self.last_attribute(alloc, vocab, line, items, last)?))
                } else {
                    self.role_step(alloc, vocab, item)
                }
            }
            _ => self.role_step(alloc, vocab, item),
        }
    }

    // A role as a step.
    fn role_step(
        &self,
        alloc: Global,
        vocab: &mut Vocabulary,
        item: &Item,
    ) -> Result<Step, Stop<ShapeBreach>>
        ensures { rules.ReadsRoleStep (page_in self.now) item.now vocab.old vocab.new result }
    {
        Ok(Step::Role(self.places.role(alloc, vocab, item, ShapeKind::Shape)?))
    }

    // What stands in `Test(..)`: a class.
    fn test(
        &self,
        alloc: Global,
        vocab: &mut Vocabulary,
        line: u32,
        items: &[Item],
    ) -> Result<Name, Stop<ShapeBreach>>
        ensures { rules.ReadsTest (page_in self.now) line items.now vocab.old vocab.new result }
    {
        match items {
            [only] => self.places.class(alloc, vocab, only, ShapeKind::Shape),
            _ => Err(wrong(line, ShapeKind::Shape)),
        }
    }

    // What stands in `Attr(..)` in a path, where it stands last.
    fn last_attribute(
        &self,
        alloc: Global,
        vocab: &mut Vocabulary,
        line: u32,
        items: &[Item],
        last: bool,
    ) -> Result<Name, Stop<ShapeBreach>>
        ensures { rules.ReadsLast last (page_in self.now) line items.now vocab.old vocab.new result }
    {
        if last {
            self.attribute(alloc, vocab, line, items)
        } else {
            Err(wrong(line, ShapeKind::Shape))
        }
    }

    // What stands in `Attr(..)`: an attribute.
    pub(crate) fn attribute(
        &self,
        alloc: Global,
        vocab: &mut Vocabulary,
        line: u32,
        items: &[Item],
    ) -> Result<Name, Stop<ShapeBreach>>
        ensures { rules.ReadsAttribute (page_in self.now) line items.now vocab.old vocab.new result }
    {
        match items {
            [only] => self.places.attr(alloc, vocab, only, ShapeKind::Shape),
            _ => Err(wrong(line, ShapeKind::Shape)),
        }
    }
}
