//! The violations of single axioms and constraints.
ghost use Rattle.std.specs.Prelude.{◌≡◌, [], ◌∷◌, IfOk};
ghost use Rattle.mast_tbox.specs.ConstraintForms.{HasForm};
ghost use Rattle.mast_violate.specs.Patterns.{shared_pair as shared_pair_of};
ghost use Rattle.mast_violate.specs.Patterns.{subject as subject_of, filler as filler_of};
ghost use Rattle.mast_violate.specs.ViolationLists.{of_negative, of_value, of_ranges as of_two_ranges};
ghost use Rattle.mast_violate.specs.ViolationLists.{of_functional, by_constraint};
ghost use Rattle.mast_violate.specs.inside.Shared.{of_disjoint};

use crate::paths::identified;
use crate::{Test, Violation};
use mast_canon::{Ground, Origin};
use mast_cq::{Arg, Atom, Cq};
use mast_tbox::{Basic, Constraint, Lined, Negative, Prop, RoleExpr, Step};
use mast_terms::{Kind, List, Name, NoMemory};
use mast_tree::DocName;
use std::alloc::Global;

const X: Arg = Arg::Var(0);

const Y: Arg = Arg::Var(1);

const Z: Arg = Arg::Var(2);

/// The violation of a negative.
pub(crate) fn negative(alloc: Global, line: Lined<Negative>) -> Result<Violation, NoMemory>
    ensures { IfOk result (λ v. v ≡ of_negative line) }
{
    match line.item {
        Negative::Concepts { left, right } => {
            disjoint(alloc, line.line, left.at(X), right.at(X))
        }
        Negative::Roles { left, right } => {
            shared_pair(alloc, line.line, Prop::Role(left), Prop::Role(right))
        }
        Negative::Attrs { left, right } => {
            shared_pair(alloc, line.line, Prop::Attr(left), Prop::Attr(right))
        }
        Negative::Irreflexive { role } => irreflexive(alloc, line.line, role),
    }
}

// That two atoms hold that can't both.
fn disjoint(alloc: Global, line: u32, one: Atom, other: Atom) -> Result<Violation, NoMemory>
    ensures { IfOk result (λ v. v ≡ of_disjoint line (one ∷ other ∷ [])) }
{
    Ok(Violation {
        origin: Origin {
            ground: Ground::Disjoint,
            doc: DocName::Ontology,
            line,
        },
        query: Cq {
            answer: List::new(alloc),
            atoms: List::from_vec(vec![in alloc; one, other]?),
        },
        test: Test::Plain,
    })
}

// That one pair stands in two disjoint properties.
fn shared_pair(alloc: Global, line: u32, left: Prop, right: Prop) -> Result<Violation, NoMemory>
    ensures { IfOk result (λ v. v ≡ of_disjoint line (shared_pair_of left right)) }
{
    let (from, to) = ends(left);
    disjoint(alloc, line, left.pair(from, to), right.pair(from, to))
}

// In a pattern that begins with a pair of the property, what has a filler, and the filler.
fn ends(prop: Prop) -> (Arg, Arg)
    ensures from { result.0 ≡ subject_of prop }
    ensures to { result.1 ≡ filler_of prop }
{
    match prop {
        Prop::Role(RoleExpr::Direct(_)) => (X, Y),
        Prop::Role(RoleExpr::Inverse(_)) => (Y, X),
        Prop::Attr(_) => (X, Y),
    }
}

fn irreflexive(alloc: Global, line: u32, role: Name) -> Result<Violation, NoMemory>
    ensures { IfOk result (λ v. v ≡ of_negative (record { line = line; item = Negative.Irreflexive role })) }
{
    let atom = Atom::Role {
        name: role,
        from: X,
        to: X,
    };
    Ok(Violation {
        origin: Origin {
            ground: Ground::Irreflexive,
            doc: DocName::Ontology,
            line,
        },
        query: Cq {
            answer: List::new(alloc),
            atoms: List::from_vec(vec![in alloc; atom]?),
        },
        test: Test::Plain,
    })
}

/// The violation of a range by a value of another kind.
pub(crate) fn value(alloc: Global, line: u32, attr: Name, kind: Kind) -> Result<Violation, NoMemory>
    ensures { IfOk result (λ v. v ≡ of_value line attr kind) }
{
    let atom = Atom::Attr {
        name: attr,
        from: X,
        value: Y,
    };
    Ok(Violation {
        origin: Origin {
            ground: Ground::ValueType,
            doc: DocName::Ontology,
            line,
        },
        query: Cq {
            answer: List::from_vec(vec![in alloc; Y]?),
            atoms: List::from_vec(vec![in alloc; atom]?),
        },
        test: Test::KindNot { at: 0, kind },
    })
}

/// The violation of a range and an earlier one of another kind, by a value of both attributes.
pub(crate) fn two_ranges(
    alloc: Global,
    line: u32,
    attr: Name,
    earlier: Name,
) -> Result<Violation, NoMemory>
    ensures { IfOk result (λ v. v ≡ of_two_ranges line attr earlier) }
{
    let one = Atom::Attr {
        name: attr,
        from: X,
        value: Y,
    };
    let other = Atom::Attr {
        name: earlier,
        from: Z,
        value: Y,
    };
    Ok(Violation {
        origin: Origin {
            ground: Ground::ValueType,
            doc: DocName::Ontology,
            line,
        },
        query: Cq {
            answer: List::new(alloc),
            atoms: List::from_vec(vec![in alloc; one, other]?),
        },
        test: Test::Plain,
    })
}

/// The violation of a functional property by two fillers.
pub(crate) fn functional(
    alloc: Global,
    doc: DocName,
    line: u32,
    prop: Prop,
) -> Result<Violation, NoMemory>
    ensures { IfOk result (λ v. v ≡ of_functional doc line prop) }
{
    let (from, to) = ends(prop);
    let one = prop.pair(from, to);
    let other = prop.pair(from, Z);
    Ok(Violation {
        origin: Origin {
            ground: Ground::Functional,
            doc,
            line,
        },
        query: Cq {
            answer: List::from_vec(vec![in alloc; from, to, Z]?),
            atoms: List::from_vec(vec![in alloc; one, other]?),
        },
        test: Test::Differ { left: 1, right: 2 },
    })
}

/// The violation of a constraint.
pub(crate) fn constraint(alloc: Global, line: u32, item: &Constraint) -> Result<Violation, NoMemory>
    requires { HasForm item.now }
    ensures { IfOk result (λ v. v ≡ by_constraint line item.now) }
{
    match item {
        Constraint::Functional { prop } => functional(alloc, DocName::Constraints, line, *prop),
        Constraint::Identify { concept, paths } => {
            identification(alloc, line, *concept, paths.as_slice())
        }
        Constraint::Deny { atoms } => denial(alloc, line, atoms.as_slice()),
    }
}

fn identification(
    alloc: Global,
    line: u32,
    concept: Basic,
    paths: &[List<Step>],
) -> Result<Violation, NoMemory>
    requires { HasForm (Constraint.Identify concept paths.now) }
    ensures { IfOk result (λ v. v ≡ by_constraint line (Constraint.Identify concept paths.now)) }
{
    Ok(Violation {
        origin: Origin {
            ground: Ground::Identify,
            doc: DocName::Constraints,
            line,
        },
        query: Cq {
            answer: List::from_vec(vec![in alloc; X, Y]?),
            atoms: identified(alloc, concept, paths)?,
        },
        test: Test::Differ { left: 0, right: 1 },
    })
}

fn denial(alloc: Global, line: u32, atoms: &[Atom]) -> Result<Violation, NoMemory>
    ensures { IfOk result (λ v. v ≡ by_constraint line (Constraint.Deny atoms.now)) }
{
    Ok(Violation {
        origin: Origin {
            ground: Ground::Deny,
            doc: DocName::Constraints,
            line,
        },
        query: Cq {
            answer: List::new(alloc),
            atoms: List::from_vec(atoms.iter().copied().collect(alloc)?),
        },
        test: Test::Plain,
    })
}
