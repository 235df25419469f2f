//! Queries that are ready to be answered.
ghost use Rattle.std.specs.Prelude.{◌≡◌, length, IfOk};
ghost use Rattle.mast_cq.specs.Queries.{viewed};
ghost use Rattle.mast_join.specs.Answers.{IsAsked, IsReady};
ghost use Rattle.mast_join.specs.inside.Keeping.{IsKept, IsStoreMore, extended};

use crate::base::Base;
use crate::conjunction::conjunction;
use crate::store::Store;
use mast_cq::CqRef;
use mast_relations::Plan;
use mast_terms::NoMemory;
use std::alloc::Global;

/// A query, and the plan of the join of the extensions of its atoms. A slice goes from one number to another, both from 0 to
/// the plan's `size`; however that is cut, the slices together give what the whole gives.
#[derive(Drop)]
pub struct Ready<'q> {
    pub query: CqRef<'q>,
    pub plan: Plan,
}

// Makes a query ready over what is kept.
pub(crate) fn made_ready<'q>(
    alloc: Global,
    base: &Base<'_, '_, '_, '_>,
    store: &mut Store,
    query: CqRef<'q>,
) -> Result<Ready<'q>, NoMemory>
    requires asked { IsAsked (length base.now.spec.now.vocab.constants) (viewed query) }
    requires kept { IsKept base.now store.old }
    ensures query { IfOk result (λ ready. viewed ready.query ≡ viewed query.entry) }
    ensures ready { IfOk result (IsReady (extended base.now store.new)) }
    ensures kept { IsKept base.now store.new }
    ensures more { IsStoreMore store.old store.new }
{
    let made = conjunction(alloc, base, store, query)?;
    let _ = store.pool.terms.len();
    let plan = store.relations.plan(alloc, made)?;
    Ok(Ready { query, plan })
}
