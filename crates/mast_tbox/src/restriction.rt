//! The restrictions under which the answers are the certain ones.
ghost use Rattle.std.specs.Prelude.{◌≡◌, ◌++◌, [], false, IfOk, OnOk};
ghost use Rattle.mast_tbox.specs.Lists.{items};
ghost use Rattle.mast_tbox.specs.Restrictions.{along, single, anchors, with_first, IsRestrictionBreach};
ghost use Rattle.mast_tbox.specs.inside.Chosen.{chief_of};
ghost use Rattle.mast_tbox.specs.inside.Judging.{narrowed as narrowed_of, all_narrowed, made_functional as made_functional_of, functionals, marking, marked, is_like as is_like_of, narrows, first_line, judged, breach_kind as breach_kind_of, first_judged, step_prop as step_prop_of};

use crate::chiefs::Chiefs;
use crate::components::components;
use crate::expression::prop_laws;
use crate::prop_set::PropSet;
use crate::{Constraint, Inclusion, Lined, Prop, Step, TBox};
use mast_terms::{List, NoMemory};
use mast_tree::DocName;
use std::alloc::Global;

/// How a specification breaches the restrictions.
#[derive(Clone, Copy, Debug, PartialEq, Eq)]
pub enum RestrictionKind {
    /// An axiom specialises a functional property.
    FunctSpecialised,
    /// An identification has no path of length 1.
    NotLocal,
    /// It has such paths, and each one's property is specialised.
    AnchorSpecialised,
}

/// A breach of the restrictions, at its line.
#[derive(Clone, Copy, Debug, PartialEq, Eq)]
pub struct RestrictionBreach {
    /// The ontology, or the constraints.
    pub doc: DocName,
    /// The line of the axiom or of the constraint.
    pub line: u32,
    /// How it breaches.
    pub kind: RestrictionKind,
}

/// The restriction breach: the first axiom that specialises a functional property; if there is none, the first
/// identification that has no path of length 1 or whose paths of length 1 are all of specialised properties.
pub fn restriction_breach(
    alloc: Global,
    tbox: &TBox,
    constraints: &[Lined<Constraint>],
) -> Result<Option<RestrictionBreach>, NoMemory>
    ensures { IfOk result (IsRestrictionBreach tbox.now.inclusions tbox.now.functional constraints.now) }
{
    let lines = tbox.inclusions.as_slice();
    let chiefs = components(alloc, lines)?;
    let functional = functional(alloc, &chiefs, tbox.functional.as_slice(), constraints)?;
    match first_axiom(&chiefs, &functional, lines) {
        Some(line) => Ok(Some(RestrictionBreach {
            doc: DocName::Ontology,
            line,
            kind: RestrictionKind::FunctSpecialised,
        })),
        None => {
            let special = specialised(alloc, &chiefs, lines)?;
            Ok(first_constraint(&chiefs, &special, constraints))
        }
    }
}

// The chiefs of the functional properties.
fn functional(
    alloc: Global,
    chiefs: &Chiefs,
    lines: &[Lined<Prop>],
    constraints: &[Lined<Constraint>],
) -> Result<PropSet, NoMemory>
    ensures { IfOk result (λ set. set ≡ marked (chief_of chiefs.now) (items lines.now ++ functionals constraints.now)) }
{
    let mut set = by_axioms(alloc, chiefs, lines)?;
    add_by_constraints(&mut set, chiefs, constraints)?;
    Ok(set)
}

fn by_axioms(alloc: Global, chiefs: &Chiefs, lines: &[Lined<Prop>]) -> Result<PropSet, NoMemory>
    ensures { IfOk result (λ set. set ≡ marked (chief_of chiefs.now) (items lines.now)) }
{
    let mut set = PropSet::new(alloc);
    for line in lines {
        set.insert(chiefs.chief(line.item))?;
    }
    Ok(set)
}

fn add_by_constraints(
    set: &mut PropSet,
    chiefs: &Chiefs,
    constraints: &[Lined<Constraint>],
) -> Result<(), NoMemory>
    ensures { OnOk result (set.new ≡ marking (chief_of chiefs.now) set.old (functionals constraints.now)) }
{
    for line in constraints {
        add_chief(set, chiefs, made_functional(&line.item))?;
    }
    Ok(())
}

fn made_functional(constraint: &Constraint) -> Option<Prop>
    ensures { result ≡ made_functional_of constraint.now }
{
    match constraint {
        Constraint::Functional { prop } => Some(*prop),
        _ => None,
    }
}

fn add_chief(set: &mut PropSet, chiefs: &Chiefs, prop: Option<Prop>) -> Result<(), NoMemory>
    ensures { OnOk result (set.new ≡ marking (chief_of chiefs.now) set.old (with_first prop [])) }
{
    if let Some(found) = prop {
        set.insert(chiefs.chief(found))?;
    }
    Ok(())
}

// The chiefs of the properties that inclusions specialise.
fn specialised(
    alloc: Global,
    chiefs: &Chiefs,
    lines: &[Lined<Inclusion>],
) -> Result<PropSet, NoMemory>
    ensures { IfOk result (λ set. set ≡ marked (chief_of chiefs.now) (all_narrowed (chief_of chiefs.now) lines.now)) }
{
    let mut set = PropSet::new(alloc);
    for line in lines {
        add_chief(&mut set, chiefs, narrowed(chiefs, line.item))?;
    }
    Ok(set)
}

// The property that an inclusion specialises, among others that are equivalent to it or to its inverse.
fn narrowed(chiefs: &Chiefs, inclusion: Inclusion) -> Option<Prop>
    ensures { result ≡ narrowed_of (chief_of chiefs.now) inclusion }
{
    prop_laws();
    match inclusion {
        Inclusion::Exists {
            role,
            end: Some(_),
            ..
        } => Some(Prop::Role(role)),
        Inclusion::Role { sub, sup } => {
            if chiefs.chief(Prop::Role(sub)) == chiefs.chief(Prop::Role(sup)) {
                None
            } else {
                Some(Prop::Role(sup))
            }
        }
        Inclusion::Attr { sub, sup } => {
            if chiefs.chief(Prop::Attr(sub)) == chiefs.chief(Prop::Attr(sup)) {
                None
            } else {
                Some(Prop::Attr(sup))
            }
        }
        _ => None,
    }
}

// Whether a property or its inverse is equivalent to one whose chief stands in the set.
fn is_like(chiefs: &Chiefs, set: &PropSet, prop: Prop) -> bool
    ensures { result ≡ is_like_of (chief_of chiefs.now) set.now prop }
{
    set.contains(chiefs.chief(prop)) || set.contains(chiefs.chief(prop.inverse()))
}

// The line of the first axiom that specialises a functional property.
fn first_axiom(chiefs: &Chiefs, functional: &PropSet, lines: &[Lined<Inclusion>]) -> Option<u32>
    ensures { result ≡ first_line (narrows (chief_of chiefs.now) functional.now) lines.now }
{
    for line in lines {
        if specialises(chiefs, functional, line.item) {
            return Some(line.line);
        }
    }
    None
}

fn specialises(chiefs: &Chiefs, functional: &PropSet, inclusion: Inclusion) -> bool
    ensures { result ≡ narrows (chief_of chiefs.now) functional.now inclusion }
{
    match narrowed(chiefs, inclusion) {
        Some(prop) => is_like(chiefs, functional, prop),
        None => false,
    }
}

// The first constraint that breaches.
fn first_constraint(
    chiefs: &Chiefs,
    special: &PropSet,
    constraints: &[Lined<Constraint>],
) -> Option<RestrictionBreach>
    ensures { result ≡ first_judged (is_like_of (chief_of chiefs.now) special.now) constraints.now }
{
    for constraint in constraints {
        if let Some(kind) = breach_kind(chiefs, special, &constraint.item) {
            return Some(RestrictionBreach {
                doc: DocName::Constraints,
                line: constraint.line,
                kind,
            });
        }
    }
    None
}

// How a constraint breaches.
fn breach_kind(
    chiefs: &Chiefs,
    special: &PropSet,
    constraint: &Constraint,
) -> Option<RestrictionKind>
    ensures { result ≡ breach_kind_of (is_like_of (chief_of chiefs.now) special.now) constraint.now }
{
    match constraint {
        Constraint::Identify { paths, .. } => judge(chiefs, special, paths.as_slice()),
        _ => None,
    }
}

// How an identification with these paths breaches.
fn judge(chiefs: &Chiefs, special: &PropSet, paths: &[List<Step>]) -> Option<RestrictionKind>
    ensures { result ≡ judged (is_like_of (chief_of chiefs.now) special.now) false (anchors paths.now) }
{
    let mut local = false;
    for path in paths {
        if let Some(prop) = anchor(path.as_slice()) {
            if !is_like(chiefs, special, prop) {
                return None;
            }
            local = true;
        }
    }
    if local {
        Some(RestrictionKind::AnchorSpecialised)
    } else {
        Some(RestrictionKind::NotLocal)
    }
}

// The property of a path of length 1. A test adds nothing to the length.
fn anchor(steps: &[Step]) -> Option<Prop>
    ensures { result ≡ single (along steps.now) }
{
    let mut first = None;
    for step in steps {
        if let Some(prop) = step_prop(*step) {
            if first.is_some() {
                return None;
            }
            first = Some(prop);
        }
    }
    first
}

fn step_prop(step: Step) -> Option<Prop>
    ensures { result ≡ step_prop_of step }
{
    match step {
        Step::Role(role) => Some(Prop::Role(role)),
        Step::Test(_) => None,
        Step::Attr(name) => Some(Prop::Attr(name)),
    }
}
