//! Conditions on numbers.
ghost use Rattle.std.specs.Prelude.{◌≡◌, IfOk};
ghost use Rattle.mast_conditions.specs.Choices.{AsksFor};

use mast_terms::NoMemory;
use sqlite_items::{Boxed, Items};
use std::alloc::Global;

/// The rows of a relation that have in these columns the numbers that stand at these places.
#[derive(Drop)]
pub struct Entry {
    pub relation: u32,
    pub columns: Items<usize>,
    pub places: Items<usize>,
}

/// A condition on numbers, which are named by their places. A chain of AND or of OR is one list.
#[derive(Drop)]
pub enum Condition {
    /// The numbers at two places are equal.
    Equal(usize, usize),
    Not(Boxed<Condition>),
    All(Items<Condition>),
    Any(Items<Condition>),
    /// Some row of the entry, put behind the numbers, makes the rest true.
    Row {
        entry: Entry,
        rest: Boxed<Condition>,
    },
    /// The first numbers, so many, with those at the places behind them, make the rest true.
    Only {
        count: usize,
        places: Items<usize>,
        rest: Boxed<Condition>,
    },
}

/// Rows of entries, each found by those before it; a condition on them; and the places whose numbers go out.
#[derive(Drop)]
pub struct Select {
    pub entries: Items<Entry>,
    pub condition: Condition,
    pub items: Items<usize>,
}

impl Select {
    /// The condition that the select has a row.
    pub fn has_row(self, alloc: Global) -> Result<Condition, NoMemory>
        ensures { IfOk result (λ condition. AsksFor self condition) }
    {
        let Select {
            entries,
            condition,
            items: _,
        } = self;
        let mut entries = entries;
        let mut condition = condition;
        while let Some(entry) = entries.pop() {
            condition = Condition::Row {
                entry,
                rest: Boxed::new(alloc, condition)?,
            };
        }
        Ok(condition)
    }
}

impl Entry {
    // An equal entry.
    fn copy(&self, alloc: Global) -> Result<Entry, NoMemory>
        ensures { IfOk result (λ copy. copy ≡ self.now) }
    {
        Ok(Entry {
            relation: self.relation,
            columns: Items::from_slice(alloc, self.columns.as_slice())?,
            places: Items::from_slice(alloc, self.places.as_slice())?,
        })
    }
}

impl Condition {
    /// An equal condition.
    #[cycle(copy)]
    pub fn copy(&self, alloc: Global) -> Result<Condition, NoMemory>
        ensures { IfOk result (λ copy. copy ≡ self.now) }
    {
        match self {
            Condition::Equal(left, right) => Ok(Condition::Equal(*left, *right)),
            Condition::Not(inner) => {
                let copy = inner.get().copy(alloc)?;
                Ok(Condition::Not(Boxed::new(alloc, copy)?))
            }
            Condition::All(parts) => Ok(Condition::All(copies(alloc, parts.as_slice())?)),
            Condition::Any(parts) => Ok(Condition::Any(copies(alloc, parts.as_slice())?)),
            Condition::Row { entry, rest } => {
                let entry = entry.copy(alloc)?;
                let rest = rest.get().copy(alloc)?;
                Ok(Condition::Row {
                    entry,
                    rest: Boxed::new(alloc, rest)?,
                })
            }
            Condition::Only {
                count,
                places,
                rest,
            } => {
                let rest = rest.get().copy(alloc)?;
                Ok(Condition::Only {
                    count: *count,
                    places: Items::from_slice(alloc, places.as_slice())?,
                    rest: Boxed::new(alloc, rest)?,
                })
            }
        }
    }
}

// Equal conditions.
#[cycle(copy)]
fn copies(alloc: Global, conditions: &[Condition]) -> Result<Items<Condition>, NoMemory>
    ensures { IfOk result (λ copies. copies ≡ conditions.now) }
{
    let mut copies = Items::new(alloc);
    for condition in conditions {
        copies.push(condition.copy(alloc)?)?;
    }
    Ok(copies)
}
