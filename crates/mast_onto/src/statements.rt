//! What the axioms of a document state, as it is collected up to the limit of items.
ghost use Rattle.std.specs.Prelude.{◌≡◌, ◌≤◌, ◌∷◌, ◌++◌, [], length};
ghost use Rattle.std.specs.Option.{option_to_list};
ghost use Rattle.mast_terms.specs.declared.memory.Stop.TheVariants as stop;
ghost use Rattle.mast_onto.specs.Stated as spec;
ghost use Rattle.mast_onto.specs.Ontologies.{items_at};
ghost use Rattle.mast_onto.specs.inside.Growing.{Adds};

use crate::form::Relation;
use crate::statement::{Axiom, Expression, Part, Statement};
use mast_tbox::{Basic, Inclusion, Lined};
use mast_terms::{Kind, List, Name, Stop};
use mast_tree::{ShapeBreach, ShapeKind, wrong};
use std::alloc::Global;

/// How many items an ontology may have.
pub const MOST_ITEMS: usize = 1_000_000;

/// What axioms state, in order, each with its line: at most as many as an ontology may have.
#[derive(Drop)]
pub(crate) struct Statements {
    pub(crate) list: List<Lined<Statement>>,
    ghost bounded: { length list ≤ 1000000 },
}

// The limit of items, at a line.
fn items_at(line: u32) -> Stop<ShapeBreach>
    ensures { result ≡ stop.Named (items_at line) }
{
    wrong(line, ShapeKind::Items)
}

impl Statements {
    pub(crate) fn new(alloc: Global) -> Statements
        ensures { result.list ≡ [] }
    {
        Statements {
            list: List::new(alloc),
        }
    }

    // Adds a statement.
    fn push(
        &mut self,
        alloc: Global,
        line: u32,
        statement: Statement,
    ) -> Result<(), Stop<ShapeBreach>>
        ensures { Adds line (spec.lined line (statement ∷ [])) self.old.list self.new.list result }
    {
        if self.list.as_slice().len() >= MOST_ITEMS {
            return Err(items_at(line));
        }
        self.list.push(
            alloc,
            Lined {
                line,
                item: statement,
            },
        )?;
        Ok(())
    }

    // Adds a statement, if there is one.
    fn put(
        &mut self,
        alloc: Global,
        line: u32,
        statement: Option<Statement>,
    ) -> Result<(), Stop<ShapeBreach>>
        ensures { Adds line (spec.lined line (option_to_list statement)) self.old.list self.new.list result }
    {
        match statement {
            None => Ok(()),
            Some(statement) => self.push(alloc, line, statement),
        }
    }

    // One expression is in another.
    fn include(
        &mut self,
        alloc: Global,
        line: u32,
        sub: Expression,
        sup: Expression,
    ) -> Result<(), Stop<ShapeBreach>>
        ensures { Adds line (spec.included line sub sup) self.old.list self.new.list result }
    {
        if sub.is_same(sup) {
            return Ok(());
        }
        self.put(alloc, line, sub.stated_in(sup))
    }

    // Two expressions have nothing in common.
    fn keep_apart(
        &mut self,
        alloc: Global,
        line: u32,
        left: Expression,
        right: Expression,
    ) -> Result<(), Stop<ShapeBreach>>
        ensures { Adds line (spec.apart line left right) self.old.list self.new.list result }
    {
        self.put(alloc, line, left.apart(right))
    }

    // An expression is in the first of some, each of these in the next, and the last in the end.
    fn chain(
        &mut self,
        alloc: Global,
        line: u32,
        first: Expression,
        members: &[Expression],
        end: Expression,
    ) -> Result<(), Stop<ShapeBreach>>
        ensures { Adds line (spec.chain line first (members.now ++ end ∷ [])) self.old.list self.new.list result }
    {
        let mut previous = first;
        for member in members {
            self.include(alloc, line, previous, *member)?;
            previous = *member;
        }
        self.include(alloc, line, previous, end)
    }

    // Each is in the next, and the last in the first.
    fn cycle(
        &mut self,
        alloc: Global,
        line: u32,
        members: &[Expression],
    ) -> Result<(), Stop<ShapeBreach>>
        ensures { Adds line (spec.cycle line members.now) self.old.list self.new.list result }
    {
        match members {
            [] => Ok(()),
            [first, rest @ ..] => self.chain(alloc, line, *first, rest, *first),
        }
    }

    // The first and each of the others have nothing in common.
    fn apart_from(
        &mut self,
        alloc: Global,
        line: u32,
        first: Expression,
        others: &[Expression],
    ) -> Result<(), Stop<ShapeBreach>>
        ensures { Adds line (spec.apart_from line first others.now) self.old.list self.new.list result }
    {
        for other in others {
            self.keep_apart(alloc, line, first, *other)?;
        }
        Ok(())
    }

    // Each two have nothing in common, the earlier first.
    fn pairs(
        &mut self,
        alloc: Global,
        line: u32,
        members: &[Expression],
    ) -> Result<(), Stop<ShapeBreach>>
        ensures { Adds line (spec.pairs line members.now) self.old.list self.new.list result }
    {
        for (at, first) in members.iter().enumerate() {
            self.apart_from(alloc, line, *first, &members[at + 1..])?;
        }
        Ok(())
    }

    // Each of two expressions is in the inverse of the other.
    fn inverses(
        &mut self,
        alloc: Global,
        line: u32,
        one: Expression,
        other: Expression,
    ) -> Result<(), Stop<ShapeBreach>>
        ensures { Adds line (spec.inverses line one other) self.old.list self.new.list result }
    {
        self.include(alloc, line, one, other.inverse())?;
        self.include(alloc, line, other, one.inverse())
    }

    // What is said of two expressions.
    fn two(
        &mut self,
        alloc: Global,
        line: u32,
        relation: Relation,
        one: Expression,
        other: Expression,
    ) -> Result<(), Stop<ShapeBreach>>
        ensures { Adds line (spec.listed_two line relation one other) self.old.list self.new.list result }
    {
        match relation {
            Relation::In => self.include(alloc, line, one, other),
            Relation::Inverses => self.inverses(alloc, line, one, other),
            Relation::Equivalent => Ok(()),
            Relation::Disjoint => Ok(()),
            Relation::Symmetric => Ok(()),
            Relation::Asymmetric => Ok(()),
            Relation::Irreflexive => Ok(()),
            Relation::Functional => Ok(()),
            Relation::InverseFunctional => Ok(()),
        }
    }

    // What is said of one expression.
    fn one(
        &mut self,
        alloc: Global,
        line: u32,
        relation: Relation,
        only: Expression,
    ) -> Result<(), Stop<ShapeBreach>>
        ensures { Adds line (spec.listed_one line relation only) self.old.list self.new.list result }
    {
        match relation {
            Relation::In => Ok(()),
            Relation::Inverses => Ok(()),
            Relation::Equivalent => Ok(()),
            Relation::Disjoint => Ok(()),
            Relation::Symmetric => self.include(alloc, line, only, only.inverse()),
            Relation::Asymmetric => self.keep_apart(alloc, line, only, only.inverse()),
            Relation::Irreflexive => self.put(alloc, line, only.irreflexive()),
            Relation::Functional => self.put(alloc, line, only.functional()),
            Relation::InverseFunctional => self.put(alloc, line, only.inverse().functional()),
        }
    }

    // What is said of a list of one or two.
    fn few(
        &mut self,
        alloc: Global,
        line: u32,
        relation: Relation,
        members: &[Expression],
    ) -> Result<(), Stop<ShapeBreach>>
        ensures { Adds line (spec.listed_few line relation members.now) self.old.list self.new.list result }
    {
        match members {
            [only] => self.one(alloc, line, relation, *only),
            [one, other] => self.two(alloc, line, relation, *one, *other),
            _ => Ok(()),
        }
    }

    // What is said of a list.
    fn listed(
        &mut self,
        alloc: Global,
        line: u32,
        relation: Relation,
        members: &[Expression],
    ) -> Result<(), Stop<ShapeBreach>>
        ensures { Adds line (spec.listed line relation members.now) self.old.list self.new.list result }
    {
        match relation {
            Relation::In => self.few(alloc, line, relation, members),
            Relation::Inverses => self.few(alloc, line, relation, members),
            Relation::Equivalent => self.cycle(alloc, line, members),
            Relation::Disjoint => self.pairs(alloc, line, members),
            Relation::Symmetric => self.few(alloc, line, relation, members),
            Relation::Asymmetric => self.few(alloc, line, relation, members),
            Relation::Irreflexive => self.few(alloc, line, relation, members),
            Relation::Functional => self.few(alloc, line, relation, members),
            Relation::InverseFunctional => self.few(alloc, line, relation, members),
        }
    }

    // A concept is below each part, in order.
    fn below(
        &mut self,
        alloc: Global,
        line: u32,
        sub: Basic,
        parts: &[Part],
    ) -> Result<(), Stop<ShapeBreach>>
        ensures { Adds line (spec.below_parts line sub parts.now) self.old.list self.new.list result }
    {
        for part in parts {
            self.put(alloc, line, part.stated_above(sub))?;
        }
        Ok(())
    }

    // The values of an attribute are of a kind, if they are of one.
    fn ranged(
        &mut self,
        alloc: Global,
        line: u32,
        attr: Name,
        kind: Option<Kind>,
    ) -> Result<(), Stop<ShapeBreach>>
        ensures { Adds line (spec.ranged line attr kind) self.old.list self.new.list result }
    {
        match kind {
            None => Ok(()),
            Some(kind) => self.push(
                alloc,
                line,
                Statement::Inclusion(Inclusion::Range { attr, kind }),
            ),
        }
    }

    /// Adds what an axiom at a line states. Refused with the limit of items where it passes that.
    pub(crate) fn state(
        &mut self,
        alloc: Global,
        line: u32,
        read: &Axiom,
    ) -> Result<(), Stop<ShapeBreach>>
        ensures { Adds line (spec.stated line read.now) self.old.list self.new.list result }
    {
        match read {
            Axiom::Nothing => Ok(()),
            Axiom::Listed { relation, members } => {
                self.listed(alloc, line, *relation, members.as_slice())
            }
            Axiom::Below { sub, parts } => self.below(alloc, line, *sub, parts.as_slice()),
            Axiom::Range { attr, kind } => self.ranged(alloc, line, *attr, *kind),
        }
    }
}
