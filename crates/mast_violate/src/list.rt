//! The violation list.
ghost use Rattle.std.specs.Prelude.{◌≡◌, ◌++◌, List, [], ◌∷◌, map, Bool, IfOk, OnOk};
ghost use Rattle.mast_tbox.specs.ConstraintForms.{HaveForm};
ghost use Rattle.mast_tbox.specs.declared.axiom.Inclusion.{Inclusion};
ghost use Rattle.mast_violate.specs.Breaches.{GiveBreaches};
ghost use Rattle.mast_violate.specs.ViolationLists.{of_negative, of_ranges, of_inclusion, of_inclusions, of_assertion};
ghost use Rattle.mast_violate.specs.ViolationLists.{of_constraint, list_of, IsWholeOrRefused};
ghost use Rattle.mast_violate.specs.inside.Seen.{clashed};

use crate::count::count;
use crate::patterns::{constraint, functional, negative, two_ranges, value};
use crate::ranges::Ranges;
use crate::{MOST_VIOLATIONS, TooManyViolations, Violation};
use mast_tbox::{Constraint, Inclusion, Lined, Negative, Prop, TBox};
use mast_terms::{List, Name, NoMemory, Stop};
use mast_tree::DocName;
use std::alloc::Global;

/// The violation list: a query for each negative of the ontology, for each range and each pair of ranges of two kinds,
/// for each functionality assertion, and for each constraint, in this order. It is refused exactly where it has more
/// members than it may have.
pub fn violation_queries(
    alloc: Global,
    tbox: &TBox,
    constraints: &[Lined<Constraint>],
) -> Result<List<Violation>, Stop<TooManyViolations>>
    requires { HaveForm constraints.now }
    ensures exact { IsWholeOrRefused (list_of tbox.now constraints.now) result }
    ensures breaches { IfOk result (GiveBreaches tbox.now constraints.now) }
{
    if count(tbox, constraints) > MOST_VIOLATIONS {
        return Err(Stop::Named(TooManyViolations));
    }
    let list = listed(alloc, tbox, constraints)?;
    Ok(list)
}

// The violations, however many.
fn listed(
    alloc: Global,
    tbox: &TBox,
    constraints: &[Lined<Constraint>],
) -> Result<List<Violation>, NoMemory>
    requires { HaveForm constraints.now }
    ensures { IfOk result (λ list. list ≡ list_of tbox.now constraints.now) }
{
    let mut list = List::new(alloc);
    add_negatives(alloc, &mut list, tbox.negatives.as_slice())?;
    add_ranges(alloc, &mut list, tbox.inclusions.as_slice())?;
    add_functional(alloc, &mut list, tbox.functional.as_slice())?;
    add_constraints(alloc, &mut list, constraints)?;
    Ok(list)
}

fn add_negatives(
    alloc: Global,
    list: &mut List<Violation>,
    lines: &[Lined<Negative>],
) -> Result<(), NoMemory>
    ensures { OnOk result (list.new ≡ list.old ++ map of_negative lines.now) }
{
    for line in lines {
        list.push(alloc, negative(alloc, *line)?)?;
    }
    Ok(())
}

fn add_ranges(
    alloc: Global,
    list: &mut List<Violation>,
    lines: &[Lined<Inclusion>],
) -> Result<(), NoMemory>
    ensures { OnOk result (list.new ≡ list.old ++ of_inclusions [] lines.now) }
{
    let mut ranges = Ranges::new(alloc);
    for line in lines {
        add_inclusion(alloc, list, &ranges, *line)?;
        ranges.note(alloc, line.item)?;
    }
    Ok(())
}

// The violations of an inclusion that stands after ranges.
fn add_inclusion(
    alloc: Global,
    list: &mut List<Violation>,
    ranges: &Ranges,
    line: Lined<Inclusion>,
) -> Result<(), NoMemory>
    ensures { OnOk result ((before : List Inclusion) → ranges.now ≡ clashed before
        → list.new ≡ list.old ++ of_inclusion before line.line line.item) }
{
    match line.item {
        Inclusion::Range { attr, kind } => {
            list.push(alloc, value(alloc, line.line, attr, kind)?)?;
            add_pairs(alloc, list, line.line, attr, ranges.others(kind))
        }
        _ => Ok(()),
    }
}

// The violations of a range and each of the earlier ones.
fn add_pairs(
    alloc: Global,
    list: &mut List<Violation>,
    line: u32,
    attr: Name,
    earlier: &[Name],
) -> Result<(), NoMemory>
    ensures { OnOk result (list.new ≡ list.old ++ map (of_ranges line attr) earlier.now) }
{
    for other in earlier {
        list.push(alloc, two_ranges(alloc, line, attr, *other)?)?;
    }
    Ok(())
}

fn add_functional(
    alloc: Global,
    list: &mut List<Violation>,
    lines: &[Lined<Prop>],
) -> Result<(), NoMemory>
    ensures { OnOk result (list.new ≡ list.old ++ map of_assertion lines.now) }
{
    for line in lines {
        list.push(
            alloc,
            functional(alloc, DocName::Ontology, line.line, line.item)?,
        )?;
    }
    Ok(())
}

fn add_constraints(
    alloc: Global,
    list: &mut List<Violation>,
    lines: &[Lined<Constraint>],
) -> Result<(), NoMemory>
    requires { HaveForm lines.now }
    ensures { OnOk result (list.new ≡ list.old ++ map of_constraint lines.now) }
{
    for line in lines {
        list.push(alloc, constraint(alloc, line.line, &line.item)?)?;
    }
    Ok(())
}
