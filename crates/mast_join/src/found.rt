//! Lists of choices, in one vector.
ghost use Rattle.std.specs.Prelude.{◌≡◌, ◌<◌, ◌∷◌, ◌++◌, [], length, get_or, OnOk};

use mast_terms::NoMemory;
use std::alloc::Global;
use std::marker::Model;

/// Choices of rows, each with the number of a row, from 1, for each FROM entry of a source query in order.
/// Contracts see how many entries there are, and the list of the choices.
#[derive(Drop)]
pub struct Choices {
    width: usize,
    count: usize,
    numbers: Vec<u32>,
}

impl Model for Choices {
    ghost use Rattle.std.specs.Prelude.{◌≡◌, ◌*◌, length};
    ghost use Rattle.mast_join.specs.Chosen.{ChoiceList};
    ghost use Rattle.mast_join.specs.inside.Parts.{parts};

    ghost Value = { ChoiceList };

    ghost view = { λ c. record { width = c.width; list = parts c.width c.count c.numbers.items } };

    ghost invariant = { λ c. length c.numbers.items ≡ c.count * c.width };
}

impl Choices {
    // No choice, over so many entries.
    pub(crate) fn new(alloc: Global, width: usize) -> Choices
        ensures width { result.width ≡ width }
        ensures none { result.list ≡ [] }
    {
        Choices {
            width,
            count: 0,
            numbers: Vec::new(alloc),
        }
    }

    /// How many choices there are.
    pub fn len(&self) -> usize
        ensures { result ≡ length self.now.list }
    {
        self.count
    }

    /// The choice of a number, from 0.
    pub fn choice(&self, number: usize) -> &[u32]
        requires { number < length self.now.list }
        ensures { result.now ≡ get_or self.now.list number [] }
    {
        let behind = self.numbers.as_slice().split_at(number * self.width).1;
        behind.split_at(self.width).0
    }

    // Puts a choice behind the others.
    pub(crate) fn push(&mut self, choice: &[u32]) -> Result<(), NoMemory>
        requires long { length choice.now ≡ self.old.width }
        requires some { self.old.width ≡ 0 → self.old.list ≡ [] }
        ensures width { OnOk result (self.new.width ≡ self.old.width) }
        ensures list { OnOk result (self.new.list ≡ self.old.list ++ choice.now ∷ []) }
    {
        self.numbers.extend_from_slice(choice)?;
        self.count += 1;
        Ok(())
    }
}
