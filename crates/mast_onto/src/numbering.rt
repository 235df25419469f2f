//! The three lists of a TBox, of what the axioms of a document state.
ghost use Rattle.std.specs.Prelude.{◌≡◌, ◌+◌, ◌≤◌, ◌<◌, length, IfOk, OnOk};
ghost use Rattle.mast_onto.specs.inside.Sorting.{Includes, Sorts, IsSorted, IsOf};
ghost use Rattle.mast_onto.specs.Numbered as spec;

use crate::statement::Statement;
use crate::statements::Statements;
use mast_tbox::{Inclusion, Lined, Negative, Prop, TBox};
use mast_terms::{List, NoMemory};
use std::alloc::Global;

// The three lists as they grow, and the next number of an existential inclusion.
#[derive(Drop)]
struct Draft {
    inclusions: List<Lined<Inclusion>>,
    negatives: List<Lined<Negative>>,
    functional: List<Lined<Prop>>,
    next: u32,
}

// An existential inclusion with this number; any other inclusion stays as it is.
fn with_number(next: u32, inclusion: Inclusion) -> Inclusion
    ensures { result ≡ spec.with_number next inclusion }
{
    match inclusion {
        Inclusion::Class { sub, sup } => Inclusion::Class { sub, sup },
        Inclusion::Exists { sub, role, end, .. } => Inclusion::Exists {
            sub,
            role,
            end,
            k: next,
        },
        Inclusion::HasValue { sub, attr, .. } => Inclusion::HasValue { sub, attr, k: next },
        Inclusion::Role { sub, sup } => Inclusion::Role { sub, sup },
        Inclusion::Attr { sub, sup } => Inclusion::Attr { sub, sup },
        Inclusion::Range { attr, kind } => Inclusion::Range { attr, kind },
    }
}

// The next number after an inclusion.
fn next_number(next: u32, inclusion: Inclusion) -> u32
    requires { next < 1000000 }
    ensures is { result ≡ spec.next_number next inclusion }
    ensures most { result ≤ next + 1 }
{
    match inclusion {
        Inclusion::Class { .. } => next,
        Inclusion::Exists { .. } => next + 1,
        Inclusion::HasValue { .. } => next + 1,
        Inclusion::Role { .. } => next,
        Inclusion::Attr { .. } => next,
        Inclusion::Range { .. } => next,
    }
}

impl Draft {
    // Adds an inclusion, with its number.
    fn include(&mut self, alloc: Global, line: u32, inclusion: Inclusion) -> Result<(), NoMemory>
        requires { self.old.next < 1000000 }
        ensures { OnOk result (Includes line inclusion self.old self.new) }
    {
        self.inclusions.push(
            alloc,
            Lined {
                line,
                item: with_number(self.next, inclusion),
            },
        )?;
        self.next = next_number(self.next, inclusion);
        Ok(())
    }

    // Adds a statement to its list.
    fn add(&mut self, alloc: Global, line: u32, statement: Statement) -> Result<(), NoMemory>
        requires { self.old.next < 1000000 }
        ensures { OnOk result (Sorts line statement self.old self.new) }
    {
        match statement {
            Statement::Inclusion(inclusion) => self.include(alloc, line, inclusion),
            Statement::Negative(item) => self.negatives.push(alloc, Lined { line, item }),
            Statement::Functional(item) => self.functional.push(alloc, Lined { line, item }),
        }
    }
}

// The three lists of statements.
fn sorted(alloc: Global, lines: &[Lined<Statement>]) -> Result<Draft, NoMemory>
    requires { length lines.now ≤ 1000000 }
    ensures { IfOk result (IsSorted lines.now) }
{
    let mut draft = Draft {
        inclusions: List::new(alloc),
        negatives: List::new(alloc),
        functional: List::new(alloc),
        next: 0,
    };
    for line in lines {
        draft.add(alloc, line.line, line.item)?;
    }
    Ok(draft)
}

/// The TBox of what axioms state.
pub(crate) fn tbox_of(alloc: Global, statements: &Statements) -> Result<TBox, NoMemory>
    ensures { IfOk result (IsOf statements.now.list) }
{
    let draft = sorted(alloc, statements.list.as_slice())?;
    Ok(TBox {
        inclusions: draft.inclusions,
        negatives: draft.negatives,
        functional: draft.functional,
    })
}
