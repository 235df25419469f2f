//! Denials and their atoms.
ghost use Rattle.std.specs.Prelude.{◌≡◌, ◌+◌, ◌*◌, ◌≤◌, ◌<◌, length, nat_lt, not, option_copied, OnOk};
ghost use Rattle.mast_constr.specs.Denials.{inner_line as inner_line_of};
ghost use Rattle.mast_constr.specs.Variables.{variable as variable_of};
ghost use Rattle.mast_constr.specs.inside.Rules as rules;
ghost use Rattle.mast_constr.specs.inside.Rules.{page_in, said_in};

use crate::reader::{Reader, parted};
use crate::variables::{Sort, Variables, variable_in};
use mast_cq::{Arg, Atom};
use mast_tbox::MOST_ATOMS;
use mast_terms::{AddRefusal, List, NameKind, Stop, Value, Vocabulary};
use mast_tree::{Item, Layer, ShapeBreach, ShapeKind, wrong};
use std::alloc::Global;

// Whether an atom of this number is one too many.
fn is_many(number: usize) -> bool
    ensures { not result ≡ nat_lt number MOST_ATOMS }
{
    number >= MOST_ATOMS
}

impl<'d> Reader<'d> {
    // What stands in `Deny(..)`: one or more atoms.
    pub(crate) fn deny(
        &self,
        alloc: Global,
        vocab: &mut Vocabulary,
        line: u32,
        items: &[Item],
    ) -> Result<List<Atom>, Stop<ShapeBreach>>
        ensures { rules.ReadsDeny (page_in self.now) line items.now vocab.old vocab.new result }
    {
        match parted(items) {
            None => Err(wrong(line, ShapeKind::Shape)),
            Some(_) => self.all_atoms(alloc, vocab, items),
        }
    }

    // All atoms of a denial.
    fn all_atoms(
        &self,
        alloc: Global,
        vocab: &mut Vocabulary,
        items: &[Item],
    ) -> Result<List<Atom>, Stop<ShapeBreach>>
        ensures { rules.ReadsAll (page_in self.now) items.now vocab.old vocab.new result }
    {
        let mut variables = Variables::new(alloc);
        let mut atoms = List::new(alloc);
        self.atoms(alloc, vocab, &mut variables, 0, items, &mut atoms)?;
        Ok(atoms)
    }

    // Atoms from a number on, put behind those that stand before.
    fn atoms(
        &self,
        alloc: Global,
        vocab: &mut Vocabulary,
        variables: &mut Variables<'d>,
        number: usize,
        items: &[Item],
        atoms: &mut List<Atom>,
    ) -> Result<(), Stop<ShapeBreach>>
        requires number { number ≤ MOST_ATOMS }
        requires room { length variables.old ≤ 2 * number }
        ensures { rules.ReadsAtoms (page_in self.now) number items.now
            variables.old variables.new vocab.old vocab.new atoms.old atoms.new result }
    {
        match parted(items) {
            None => Ok(()),
            Some((item, rest)) => {
                match self.put_atom(alloc, vocab, variables, number, item, atoms) {
                    Err(stop) => Err(stop),
                    Ok(()) => self.atoms(alloc, vocab, variables, number + 1, rest, atoms),
                }
            }
        }
    }

    // The atom of a number, put behind those that stand before.
    fn put_atom(
        &self,
        alloc: Global,
        vocab: &mut Vocabulary,
        variables: &mut Variables<'d>,
        number: usize,
        item: &Item,
        atoms: &mut List<Atom>,
    ) -> Result<(), Stop<ShapeBreach>>
        requires { length variables.old ≤ 2 * number }
        ensures few { OnOk result (number < MOST_ATOMS) }
        ensures room { length variables.new ≤ length variables.old + 2 }
        ensures read { rules.PutsAtom (page_in self.now) number item.now
            variables.old variables.new vocab.old vocab.new atoms.old atoms.new result }
    {
        let atom = self.atom(alloc, vocab, variables, number, item)?;
        atoms.push(alloc, atom)?;
        Ok(())
    }

    // The atom of a number.
    fn atom(
        &self,
        alloc: Global,
        vocab: &mut Vocabulary,
        variables: &mut Variables<'d>,
        number: usize,
        item: &Item,
    ) -> Result<Atom, Stop<ShapeBreach>>
        requires { length variables.old ≤ 2 * number }
        ensures few { OnOk result (number < MOST_ATOMS) }
        ensures room { length variables.new ≤ length variables.old + 2 }
        ensures read { rules.ReadsAtom (page_in self.now) number item.now
            variables.old variables.new vocab.old vocab.new result }
    {
        match self.places.doc.layer(item) {
            Layer::Node { word, line, items } => {
                if word == "Class" {
                    self.class_atom(alloc, vocab, variables, number, line, items)
                } else if word == "Role" {
                    self.role_atom(alloc, vocab, variables, number, line, items)
                } else if word == "Attr" {
                    self.attr_atom(alloc, vocab, variables, number, line, items)
                } else {
                    Err(wrong(line, ShapeKind::Shape))
                }
            }
            _ => Err(wrong(self.places.line(item), ShapeKind::Shape)),
        }
    }

    // What stands in `Class(..)`: an IRI and an object.
    fn class_atom(
        &self,
        alloc: Global,
        vocab: &mut Vocabulary,
        variables: &mut Variables<'d>,
        number: usize,
        line: u32,
        items: &[Item],
    ) -> Result<Atom, Stop<ShapeBreach>>
        requires { length variables.old ≤ 2 * number }
        ensures few { OnOk result (number < MOST_ATOMS) }
        ensures room { length variables.new ≤ length variables.old + 2 }
        ensures read { rules.ReadsClassAtom (page_in self.now) number line items.now
            variables.old variables.new vocab.old vocab.new result }
    {
        match items {
            [class, object] => {
                if is_many(number) {
                    Err(wrong(line, ShapeKind::Atoms))
                } else {
                    self.class_parts(alloc, vocab, variables, class, object)
                }
            }
            _ => Err(wrong(line, ShapeKind::Shape)),
        }
    }

    // A class and an object.
    fn class_parts(
        &self,
        alloc: Global,
        vocab: &mut Vocabulary,
        variables: &mut Variables<'d>,
        class: &Item,
        object: &Item,
    ) -> Result<Atom, Stop<ShapeBreach>>
        requires { length variables.old < 48 }
        ensures room { length variables.new ≤ length variables.old + 2 }
        ensures read { rules.ReadsClassParts (page_in self.now) class.now object.now
            variables.old variables.new vocab.old vocab.new result }
    {
        let name = self.places.class(alloc, vocab, class, ShapeKind::Shape)?;
        let arg = self.argument(variables, Sort::Object, object)?;
        Ok(Atom::Class { name, arg })
    }

    // What stands in `Role(..)`: an IRI and two objects.
    fn role_atom(
        &self,
        alloc: Global,
        vocab: &mut Vocabulary,
        variables: &mut Variables<'d>,
        number: usize,
        line: u32,
        items: &[Item],
    ) -> Result<Atom, Stop<ShapeBreach>>
        requires { length variables.old ≤ 2 * number }
        ensures few { OnOk result (number < MOST_ATOMS) }
        ensures room { length variables.new ≤ length variables.old + 2 }
        ensures read { rules.ReadsRoleAtom (page_in self.now) number line items.now
            variables.old variables.new vocab.old vocab.new result }
    {
        match items {
            [role, from, to] => {
                if is_many(number) {
                    Err(wrong(line, ShapeKind::Atoms))
                } else {
                    self.role_parts(alloc, vocab, variables, role, from, to)
                }
            }
            _ => Err(wrong(line, ShapeKind::Shape)),
        }
    }

    // A role and two objects.
    fn role_parts(
        &self,
        alloc: Global,
        vocab: &mut Vocabulary,
        variables: &mut Variables<'d>,
        role: &Item,
        from: &Item,
        to: &Item,
    ) -> Result<Atom, Stop<ShapeBreach>>
        requires { length variables.old < 48 }
        ensures room { length variables.new ≤ length variables.old + 2 }
        ensures read { rules.ReadsRoleParts (page_in self.now) role.now from.now to.now
            variables.old variables.new vocab.old vocab.new result }
    {
        let name = self
            .places
            .named(alloc, vocab, role, NameKind::Role, ShapeKind::Shape)?;
        let (from, to) = self.pair(variables, from, to)?;
        Ok(Atom::Role { name, from, to })
    }

    // Two objects.
    fn pair(
        &self,
        variables: &mut Variables<'d>,
        from: &Item,
        to: &Item,
    ) -> Result<(Arg, Arg), Stop<ShapeBreach>>
        requires { length variables.old < 48 }
        ensures room { length variables.new ≤ length variables.old + 2 }
        ensures read { rules.ReadsPair (page_in self.now) from.now to.now variables.old variables.new result }
    {
        let from = self.argument(variables, Sort::Object, from)?;
        let to = self.argument(variables, Sort::Object, to)?;
        Ok((from, to))
    }

    // What stands in `Attr(..)`: an IRI, an object and a value.
    fn attr_atom(
        &self,
        alloc: Global,
        vocab: &mut Vocabulary,
        variables: &mut Variables<'d>,
        number: usize,
        line: u32,
        items: &[Item],
    ) -> Result<Atom, Stop<ShapeBreach>>
        requires { length variables.old ≤ 2 * number }
        ensures few { OnOk result (number < MOST_ATOMS) }
        ensures room { length variables.new ≤ length variables.old + 2 }
        ensures read { rules.ReadsAttrAtom (page_in self.now) number line items.now
            variables.old variables.new vocab.old vocab.new result }
    {
        match items {
            [attr, from, value] => {
                if is_many(number) {
                    Err(wrong(line, ShapeKind::Atoms))
                } else {
                    self.attr_parts(alloc, vocab, variables, attr, from, value)
                }
            }
            _ => Err(wrong(line, ShapeKind::Shape)),
        }
    }

    // An attribute, an object and a value.
    fn attr_parts(
        &self,
        alloc: Global,
        vocab: &mut Vocabulary,
        variables: &mut Variables<'d>,
        attr: &Item,
        from: &Item,
        value: &Item,
    ) -> Result<Atom, Stop<ShapeBreach>>
        requires { length variables.old < 48 }
        ensures room { length variables.new ≤ length variables.old + 2 }
        ensures read { rules.ReadsAttrParts (page_in self.now) attr.now from.now value.now
            variables.old variables.new vocab.old vocab.new result }
    {
        let name = self.places.attr(alloc, vocab, attr, ShapeKind::Shape)?;
        let (from, value) = self.filler(alloc, vocab, variables, from, value)?;
        Ok(Atom::Attr { name, from, value })
    }

    // An object and a value.
    fn filler(
        &self,
        alloc: Global,
        vocab: &mut Vocabulary,
        variables: &mut Variables<'d>,
        from: &Item,
        value: &Item,
    ) -> Result<(Arg, Arg), Stop<ShapeBreach>>
        requires { length variables.old < 48 }
        ensures room { length variables.new ≤ length variables.old + 2 }
        ensures read { rules.ReadsFiller (page_in self.now) from.now value.now
            variables.old variables.new vocab.old vocab.new result }
    {
        let from = self.argument(variables, Sort::Object, from)?;
        let value = self.value(alloc, vocab, variables, value)?;
        Ok((from, value))
    }

    // The name of the variable that an item is, if it is one.
    fn variable(&self, item: &Item) -> Option<&'d [u8]>
        ensures { option_copied result ≡ variable_of (said_in self.now item.now) }
    {
        match self.places.doc.layer(item) {
            Layer::Name { word, .. } => variable_in(word.as_bytes()),
            _ => None,
        }
    }

    // A variable in a place of the sort.
    fn argument(
        &self,
        variables: &mut Variables<'d>,
        sort: Sort,
        item: &Item,
    ) -> Result<Arg, Stop<ShapeBreach>>
        requires { length variables.old < 64 }
        ensures room { length variables.new ≤ length variables.old + 1 }
        ensures read { rules.ReadsArgument sort (page_in self.now) item.now variables.old variables.new result }
    {
        let line = self.places.line(item);
        match self.variable(item) {
            Some(name) => variables.place(name, sort, line),
            None => Err(wrong(line, ShapeKind::Shape)),
        }
    }

    // A value: a variable or a constant.
    fn value(
        &self,
        alloc: Global,
        vocab: &mut Vocabulary,
        variables: &mut Variables<'d>,
        item: &Item,
    ) -> Result<Arg, Stop<ShapeBreach>>
        requires { length variables.old < 64 }
        ensures room { length variables.new ≤ length variables.old + 1 }
        ensures read { rules.ReadsValue (page_in self.now) item.now
            variables.old variables.new vocab.old vocab.new result }
    {
        match self.places.doc.layer(item) {
            Layer::Name { .. } => self.argument(variables, Sort::Value, item),
            Layer::Iri { .. } => self.argument(variables, Sort::Value, item),
            Layer::Text { .. } => self.argument(variables, Sort::Value, item),
            Layer::Tagged { .. } => self.argument(variables, Sort::Value, item),
            Layer::Binding { .. } => self.argument(variables, Sort::Value, item),
            Layer::Node { line, items, .. } => {
                self.constant_said(alloc, vocab, item, self.inner_line(line, items))
            }
        }
    }

    // The constant that an item says, whose leaf or string is at a line.
    fn constant_said(
        &self,
        alloc: Global,
        vocab: &mut Vocabulary,
        item: &Item,
        line: u32,
    ) -> Result<Arg, Stop<ShapeBreach>>
        ensures { rules.ReadsSaidConstant (page_in self.now) item.now line vocab.old vocab.new result }
    {
        let value = self.places.doc.constant(alloc, item)?;
        self.constant(alloc, vocab, &value, line)
    }

    // The line of the leaf or string of a constant, whose node is at a line.
    fn inner_line(&self, line: u32, items: &[Item]) -> u32
        ensures { result ≡ inner_line_of (page_in self.now) line items.now }
    {
        match items {
            [only] => self.places.line(only),
            _ => line,
        }
    }

    // The number of a constant, whose leaf or string is at a line.
    fn constant(
        &self,
        alloc: Global,
        vocab: &mut Vocabulary,
        value: &Value,
        line: u32,
    ) -> Result<Arg, Stop<ShapeBreach>>
        ensures { rules.ReadsConstantAt value.now line vocab.old vocab.new result }
    {
        match vocab.add_value(alloc, value) {
            Ok(number) => Ok(Arg::Constant(number)),
            Err(Stop::Named(AddRefusal::TwoKinds)) => Err(wrong(line, ShapeKind::TwoKinds)),
            Err(Stop::Named(AddRefusal::Full)) => Err(wrong(line, ShapeKind::Names)),
            Err(Stop::NoMemory) => Err(Stop::NoMemory),
        }
    }
}
