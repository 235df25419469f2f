//! The components of properties: those that are equivalent to one another.
ghost use Rattle.std.specs.Prelude.{◌≡◌, [], map, IfOk, OnOk};
ghost use Rattle.std.specs.List.{filter};
ghost use Rattle.indexmap.specs.IndexSet.{insert_all};
ghost use Rattle.mast_tbox.specs.Expressions.{same_prop};
ghost use Rattle.mast_tbox.specs.Lists.{items};
ghost use Rattle.mast_tbox.specs.inside.Chosen.{is_in, chief_of};
ghost use Rattle.mast_tbox.specs.inside.Components.{turned as turned_of, ends, all_ends, Begins, next_in, HasReached, Settles, AreNoted, AreClosed, TellsComponents};

use crate::chiefs::Chiefs;
use crate::expression::prop_laws;
use crate::groups::Groups;
use crate::index::props_below;
use crate::prop_set::PropSet;
use crate::{Inclusion, Lined, Prop};
use mast_terms::NoMemory;
use std::alloc::Global;

/// For each property a chief: two have one chief exactly where they are equivalent. A property that is not noted is its
/// own.
///
/// Each component is what lies below a root and above it too, among the properties that are still free. The roots come
/// against the order in which a search upwards finishes. Then what is free and lies below a root is its component, so
/// each inclusion is looked at a fixed number of times. That is no clause: the order decides the time alone.
pub(crate) fn components(alloc: Global, lines: &[Lined<Inclusion>]) -> Result<Chiefs, NoMemory>
    ensures { IfOk result (λ chiefs. TellsComponents (items lines.now) (chief_of chiefs)) }
{
    prop_laws();
    let stated = stated(alloc, lines)?;
    let turned = turned(alloc, lines)?;
    let below = props_below(alloc, &stated)?;
    let above = props_below(alloc, &turned)?;
    let mut free = nodes(alloc, &stated)?;
    let order = finished(alloc, &above, free.as_slice())?;
    let mut chiefs = Chiefs::new(alloc);
    let mut left = order.len();
    while left > 0 {
        left -= 1;
        let root = order[left];
        if !free.contains(root) {
            continue;
        }
        settle(alloc, &below, &above, &mut free, &mut chiefs, root)?;
    }
    Ok(chiefs)
}

fn stated(alloc: Global, lines: &[Lined<Inclusion>]) -> Result<Vec<Inclusion>, NoMemory>
    ensures { IfOk result (λ v. v.items ≡ items lines.now) }
{
    let mut all = Vec::with_capacity(alloc, lines.len())?;
    for line in lines {
        all.push(line.item)?;
    }
    Ok(all)
}

// The inclusions with their sides changed.
fn turned(alloc: Global, lines: &[Lined<Inclusion>]) -> Result<Vec<Inclusion>, NoMemory>
    ensures { IfOk result (λ v. v.items ≡ map (λ l. turned_of l.item) lines.now) }
{
    let mut all = Vec::with_capacity(alloc, lines.len())?;
    for line in lines {
        all.push(turned_one(line.item))?;
    }
    Ok(all)
}

fn turned_one(inclusion: Inclusion) -> Inclusion
    ensures { result ≡ turned_of inclusion }
{
    match inclusion {
        Inclusion::Role { sub, sup } => Inclusion::Role { sub: sup, sup: sub },
        Inclusion::Attr { sub, sup } => Inclusion::Attr { sub: sup, sup: sub },
        _ => inclusion,
    }
}

// The properties between which inclusions lead.
fn nodes(alloc: Global, inclusions: &[Inclusion]) -> Result<PropSet, NoMemory>
    ensures { IfOk result (λ set. set ≡ insert_all same_prop [] (all_ends inclusions.now)) }
{
    let mut set = PropSet::new(alloc);
    for inclusion in inclusions {
        add_ends(&mut set, *inclusion)?;
    }
    Ok(set)
}

fn add_ends(set: &mut PropSet, inclusion: Inclusion) -> Result<(), NoMemory>
    ensures { OnOk result (set.new ≡ insert_all same_prop set.old (ends inclusion)) }
{
    match inclusion {
        Inclusion::Role { sub, sup } => {
            set.insert(Prop::Role(sub))?;
            set.insert(Prop::Role(sup))?;
            set.insert(Prop::Role(sub.inverse()))?;
            set.insert(Prop::Role(sup.inverse()))?;
            Ok(())
        }
        Inclusion::Attr { sub, sup } => {
            set.insert(Prop::Attr(sub))?;
            set.insert(Prop::Attr(sup))?;
            Ok(())
        }
        _ => Ok(()),
    }
}

// A place in a search: a property, and how many of its next ones were looked at.
#[derive(Clone, Copy)]
struct Visit {
    prop: Prop,
    next: usize,
}

// The properties, and after them all of them again in the order in which a search finishes them. Which order it is
// decides the time alone.
fn finished(alloc: Global, edges: &Groups<Prop>, nodes: &[Prop]) -> Result<Vec<Prop>, NoMemory>
    ensures { IfOk result (λ v. Begins nodes.now v.items) }
{
    let mut order = nodes.iter().copied().collect(alloc)?;
    let mut seen = PropSet::new(alloc);
    let mut stack = Vec::new(alloc);
    for node in nodes {
        search(edges, &mut seen, &mut stack, &mut order, *node)?;
    }
    Ok(order)
}

fn search(
    edges: &Groups<Prop>,
    seen: &mut PropSet,
    stack: &mut Vec<Visit>,
    order: &mut Vec<Prop>,
    node: Prop,
) -> Result<(), NoMemory>
    ensures { OnOk result (Begins order.old.items order.new.items) }
{
    if seen.insert(node)? {
        stack.push(Visit {
            prop: node,
            next: 0,
        })?;
    }
    for _ in 0..usize::MAX {
        match stack.pop() {
            Some(visit) => go_on(edges, seen, stack, order, visit)?,
            None => return Ok(()),
        }
    }
    Ok(())
}

// One step of a search: on to the next property, or back from one that is finished.
fn go_on(
    edges: &Groups<Prop>,
    seen: &mut PropSet,
    stack: &mut Vec<Visit>,
    order: &mut Vec<Prop>,
    visit: Visit,
) -> Result<(), NoMemory>
    ensures { OnOk result (Begins order.old.items order.new.items) }
{
    let Visit { prop, next } = visit;
    let all = edges.get(prop);
    if next >= all.len() {
        order.push(prop)?;
        return Ok(());
    }
    stack.push(Visit {
        prop,
        next: next + 1,
    })?;
    let to = all[next];
    if seen.insert(to)? {
        stack.push(Visit { prop: to, next: 0 })?;
    }
    Ok(())
}

// Notes a root as the chief of the free properties that are equivalent to it. They are no longer free.
fn settle(
    alloc: Global,
    below: &Groups<Prop>,
    above: &Groups<Prop>,
    free: &mut PropSet,
    chiefs: &mut Chiefs,
    root: Prop,
) -> Result<(), NoMemory>
    ensures { OnOk result (Settles below.now above.now free.old chiefs.old root free.new chiefs.new) }
{
    let under = reached(alloc, below, free, root)?;
    let same = reached(alloc, above, &under, root)?;
    note(free, chiefs, same.as_slice(), root)?;
    Ok(())
}

// The properties that are reached from one within a set, and it.
fn reached(
    alloc: Global,
    edges: &Groups<Prop>,
    within: &PropSet,
    start: Prop,
) -> Result<PropSet, NoMemory>
    ensures { IfOk result (HasReached (next_in edges.now) within.now start) }
{
    prop_laws();
    let mut set = PropSet::new(alloc);
    set.insert(start)?;
    for done in 0..usize::MAX {
        let next = match set.get(done) {
            Some(next) => next,
            None => return Ok(set),
        };
        add_within(&mut set, edges.get(next), within)?;
    }
    let _count = set.len();
    Ok(set)
}

// Adds those of the properties that stand in a set.
fn add_within(set: &mut PropSet, props: &[Prop], within: &PropSet) -> Result<(), NoMemory>
    ensures { OnOk result (set.new ≡ insert_all same_prop set.old (filter (λ p. is_in p within.now) props.now)) }
{
    for prop in props {
        if within.contains(*prop) {
            set.insert(*prop)?;
        }
    }
    Ok(())
}

// Notes a root as the chief of properties, and takes them from the free ones.
fn note(free: &mut PropSet, chiefs: &mut Chiefs, props: &[Prop], root: Prop) -> Result<(), NoMemory>
    ensures noted { OnOk result (AreNoted root props.now chiefs.old chiefs.new) }
    ensures closed { OnOk result (AreClosed props.now free.old free.new) }
{
    for prop in props {
        chiefs.note(*prop, root)?;
        free.remove(*prop);
    }
    Ok(())
}
