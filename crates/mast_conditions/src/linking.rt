//! Entries by which the rows of spans are found: by the equalities that tie them to what is chosen before.
ghost use Rattle.std.specs.Prelude.{◌≡◌, ◌+◌, ◌<◌, ◌∷◌, ◌++◌, ℕ, List, [], true, length, get_or, IfOk, IfSome, OnOk};
ghost use Rattle.mast_relations.specs.Matches.{nothing, Rows};
ghost use Rattle.mast_relations.specs.Plans.{AreBelow};
ghost use Rattle.mast_relations.specs.Stores.{contents};
ghost use Rattle.mast_conditions.specs.Spans.{AreSpans, IsFoundBy};
ghost use Rattle.mast_conditions.specs.Truth.{truth};
ghost use Rattle.mast_conditions.specs.inside.Links.{AreEqual, AreLinked, AreLinkedEntries, IsAdded, IsLink, IsLinkedEntry};

use crate::condition::{Condition, Entry};
use crate::span::Span;
use mast_relations::Relations;
use mast_terms::NoMemory;
use sqlite_items::Items;
use std::alloc::Global;

// Two places whose numbers are equal.
#[derive(Clone, Copy)]
pub(crate) struct Equality {
    left: usize,
    right: usize,
}

// A column of a row, and a place before the row.
#[derive(Clone, Copy)]
pub(crate) struct Link {
    column: usize,
    place: usize,
}

// Equalities that hold wherever the condition is true.
fn equalities(condition: &Condition, found: &mut Vec<Equality>) -> Result<(), NoMemory>
    ensures { OnOk result ((relations : List Rows) → (numbers : List ℕ) → AreEqual found.old.items numbers
        → truth relations condition.now numbers ≡ true → AreEqual found.new.items numbers) }
{
    match condition {
        Condition::Equal(left, right) => {
            found.push(Equality {
                left: *left,
                right: *right,
            })?;
            Ok(())
        }
        Condition::All(conditions) => {
            for condition in conditions.as_slice() {
                equalities(condition, found)?;
            }
            Ok(())
        }
        Condition::Not(_) => Ok(()),
        Condition::Any(_) => Ok(()),
        Condition::Row { entry: _, rest: _ } => Ok(()),
        Condition::Only {
            count: _,
            places: _,
            rest: _,
        } => Ok(()),
    }
}

// The column of the span that stands at a place.
fn column_at(span: Span, place: usize) -> Option<usize>
    ensures { IfSome result (λ column. (column < span.width) × (place ≡ span.at + column)) }
{
    if place >= span.at && place - span.at < span.width {
        Some(place - span.at)
    } else {
        None
    }
}

// What an equality ties to each other, if it is a column of the span and a place before it.
fn link_by(span: Span, equality: Equality) -> Option<Link>
    ensures { IfSome result (IsLink span equality) }
{
    if equality.right < span.at {
        return match column_at(span, equality.left) {
            None => None,
            Some(column) => Some(Link {
                column,
                place: equality.right,
            }),
        };
    }
    if equality.left < span.at {
        return match column_at(span, equality.right) {
            None => None,
            Some(column) => Some(Link {
                column,
                place: equality.left,
            }),
        };
    }
    None
}

// Puts a link behind the others.
fn push_link(link: Link, columns: &mut Vec<usize>, places: &mut Vec<usize>) -> Result<(), NoMemory>
    ensures columns { OnOk result (columns.new.items ≡ columns.old.items ++ link.column ∷ []) }
    ensures places { OnOk result (places.new.items ≡ places.old.items ++ link.place ∷ []) }
{
    columns.push(link.column)?;
    places.push(link.place)?;
    Ok(())
}

// Puts what an equality ties behind the others.
fn add_link(
    span: Span,
    equality: Equality,
    columns: &mut Vec<usize>,
    places: &mut Vec<usize>,
) -> Result<(), NoMemory>
    ensures { OnOk result (IsAdded span equality columns.old.items places.old.items columns.new.items places.new.items) }
{
    match link_by(span, equality) {
        None => Ok(()),
        Some(link) => push_link(link, columns, places),
    }
}

// What is tied to each other, the columns and the places.
fn links(
    span: Span,
    equalities: &[Equality],
    columns: &mut Vec<usize>,
    places: &mut Vec<usize>,
) -> Result<(), NoMemory>
    requires columns { columns.old.items ≡ [] }
    requires places { places.old.items ≡ [] }
    ensures linked { OnOk result (AreLinked equalities.now span columns.new.items places.new.items) }
    ensures within { OnOk result (AreBelow span.width columns.new.items) }
{
    for equality in equalities {
        add_link(span, *equality, columns, places)?;
    }
    Ok(())
}

// The entry of a span, with its index.
fn entry_of(
    alloc: Global,
    relations: &mut Relations,
    span: Span,
    equalities: &[Equality],
) -> Result<Entry, NoMemory>
    requires there { span.relation < length relations.old }
    requires wide { span.width ≡ (get_or (contents relations.old) span.relation nothing).width }
    ensures contents { contents relations.new ≡ contents relations.old }
    ensures linked { IfOk result (IsLinkedEntry equalities.now span) }
{
    let mut columns = Vec::new(alloc);
    let mut places = Vec::new(alloc);
    links(span, equalities, &mut columns, &mut places)?;
    let indexed = Vec::from_slice(alloc, &columns)?;
    relations.add_index(alloc, span.relation, indexed)?;
    Ok(Entry {
        relation: span.relation,
        columns: Items::from_vec(columns),
        places: Items::from_vec(places),
    })
}

// The entries of spans.
fn entries_by(
    alloc: Global,
    relations: &mut Relations,
    top: usize,
    spans: &[Span],
    equalities: &[Equality],
) -> Result<Vec<Entry>, NoMemory>
    requires { AreSpans (contents relations.old) top spans.now }
    ensures contents { contents relations.new ≡ contents relations.old }
    ensures linked { IfOk result (λ entries. AreLinkedEntries equalities.now spans.now entries.items) }
{
    let _ = top;
    let mut entries = Vec::new(alloc);
    for span in spans {
        entries.push(entry_of(alloc, relations, *span, equalities)?)?;
    }
    Ok(entries)
}

/// The entries by which rows of the spans are found where they lead to a condition, with their indices: they lead to what is
/// chosen, as long as the condition is true of it.
pub fn entries(
    alloc: Global,
    relations: &mut Relations,
    top: usize,
    spans: &[Span],
    condition: &Condition,
) -> Result<Vec<Entry>, NoMemory>
    requires { AreSpans (contents relations.old) top spans.now }
    ensures contents { contents relations.new ≡ contents relations.old }
    ensures leads { IfOk result (λ entries. IsFoundBy (contents relations.old) top spans.now condition.now entries.items) }
{
    let mut found = Vec::new(alloc);
    equalities(condition, &mut found)?;
    let entries = entries_by(alloc, relations, top, spans, &found)?;
    Ok(entries)
}
