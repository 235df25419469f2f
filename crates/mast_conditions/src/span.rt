//! Where the columns of chosen rows stand among all numbers.
ghost use Rattle.std.specs.Prelude.{◌≡◌, ◌+◌, ◌<◌, ◌^◌, map, IfOk};
ghost use Rattle.mast_relations.specs.Stores.{contents};
ghost use Rattle.mast_conditions.specs.Spans.{AreSpans, IsSpan};

use mast_relations::Relations;
use mast_terms::NoMemory;
use std::alloc::Global;

/// A row of a relation that is put behind other numbers: its columns stand from this place on.
#[derive(Clone, Copy)]
pub struct Span {
    pub relation: u32,
    pub at: usize,
    pub width: usize,
}

// The span of a relation at a place, and the place behind it.
fn span_of(relations: &Relations, relation: u32, at: usize) -> Result<Span, NoMemory>
    ensures at { IfOk result (λ span. span.at ≡ at) }
    ensures relation { IfOk result (λ span. span.relation ≡ relation) }
    ensures there { IfOk result (λ span. IsSpan (contents relations.now) at span) }
    ensures fits { IfOk result (λ span. span.at + span.width < 2 ^ 64) }
{
    if relation as usize >= relations.count() {
        return Err(NoMemory);
    }
    let width = relations.width(relation);
    if at.checked_add(width).is_none() {
        return Err(NoMemory);
    }
    Ok(Span {
        relation,
        at,
        width,
    })
}

/// The spans of rows of these relations, one behind the other, from this place on. A relation that is not there is answered by
/// NoMemory.
pub fn spans(
    alloc: Global,
    relations: &Relations,
    top: usize,
    tables: &[u32],
) -> Result<Vec<Span>, NoMemory>
    ensures tables { IfOk result (λ spans. map (λ span. span.relation) spans.items ≡ tables.now) }
    ensures spans { IfOk result (λ spans. AreSpans (contents relations.now) top spans.items) }
{
    let mut spans = Vec::new(alloc);
    let mut at = top;
    for relation in tables {
        let next = span_of(relations, *relation, at)?;
        spans.push(next)?;
        at = next.at + next.width;
    }
    Ok(spans)
}
