//! The variables of a denial.
ghost use Rattle.std.specs.Prelude.{◌≡◌, ◌+◌, ◌<◌, ◌≤◌, ◌++◌, ◌∷◌, [], None, Some, Option, MatchOption, length, slice_get, option_copied, IfOk, OnOk, OnErr};
ghost use Rattle.mast_constr.specs.Variables as spec;
ghost use Rattle.mast_constr.specs.inside.Rules.{ReadsVariable, IsFound, IsSame};
ghost use Rattle.mast_constr.specs.inside.Shown.{shown_all};

use mast_cq::Arg;
use mast_terms::{NoMemory, Stop};
use mast_tree::{ShapeBreach, ShapeKind, is_identifier, wrong};
use std::alloc::Global;
use std::marker::Model;

// What stands in a place of an atom.
#[derive(Clone, Copy)]
pub(crate) enum Sort {
    Object,
    Value,
}

// A variable, with the sort of its first place.
#[derive(Clone, Copy)]
pub(crate) struct Variable<'a> {
    name: &'a [u8],
    sort: Sort,
}

// The variables of a denial in the order of their numbers. Contracts see the name and the sort of each.
#[derive(Drop)]
pub(crate) struct Variables<'a> {
    list: Vec<Variable<'a>>,
}

impl<'a> Model for Variables<'a> {
    ghost use Rattle.mast_constr.specs.Variables.{Variables as Known};
    ghost use Rattle.mast_constr.specs.inside.Shown.{shown_all};

    ghost Value = { Known };

    ghost view = { λ v. shown_all v.list.items };
}

// The name of a variable, behind its `?`.
pub(crate) fn variable_in(word: &[u8]) -> Option<&[u8]>
    ensures { option_copied result ≡ spec.variable_in word.now }
{
    match word {
        [] => None,
        [first, name @ ..] => {
            if *first == b'?' && is_identifier(name) {
                Some(name)
            } else {
                None
            }
        }
    }
}

// The number of a variable among others, and the sort of its first place.
fn find(known: &[Variable], name: &[u8]) -> Option<(usize, Sort)>
    ensures { IsFound (shown_all known.now) name.now result }
{
    for (number, variable) in known.iter().enumerate() {
        if name == variable.name {
            return Some((number, variable.sort));
        }
    }
    None
}

impl<'a> Variables<'a> {
    // No variable.
    pub(crate) fn new(alloc: Global) -> Variables<'a>
        ensures { result ≡ [] }
    {
        Variables {
            list: Vec::new(alloc),
        }
    }

    // Puts a variable at the end.
    fn add(&mut self, name: &'a [u8], sort: Sort) -> Result<u32, NoMemory>
        requires { length self.old < 64 }
        ensures number { IfOk result (λ n. n ≡ length self.old) }
        ensures added { OnOk result (self.new ≡ self.old ++ (name.now, sort) ∷ []) }
        ensures kept { OnErr result (self.new ≡ self.old) }
    {
        let number = self.list.len() as u32;
        self.list.push(Variable { name, sort })?;
        Ok(number)
    }

    // The variable in a place of the sort, at a line.
    pub(crate) fn place(
        &mut self,
        name: &'a [u8],
        sort: Sort,
        line: u32,
    ) -> Result<Arg, Stop<ShapeBreach>>
        requires { length self.old < 64 }
        ensures room { length self.new ≤ length self.old + 1 }
        ensures read { ReadsVariable sort (Some name.now) line self.old self.new result }
    {
        match find(self.list.as_slice(), name) {
            Some((number, first)) => same_sort(sort, first, number, line),
            None => Ok(Arg::Var(self.add(name, sort)?)),
        }
    }
}

// The variable of a number, whose first place is of a sort, in a place of the sort.
fn same_sort(sort: Sort, first: Sort, number: usize, line: u32) -> Result<Arg, Stop<ShapeBreach>>
    requires { number < 64 }
    ensures { IsSame sort first number line result }
{
    let clash = Err(wrong(line, ShapeKind::SortClash));
    match sort {
        Sort::Object => match first {
            Sort::Object => Ok(Arg::Var(number as u32)),
            Sort::Value => clash,
        },
        Sort::Value => match first {
            Sort::Object => clash,
            Sort::Value => Ok(Arg::Var(number as u32)),
        },
    }
}
