//! The closure of a query.
ghost use Rattle.std.specs.Prelude.{◌≡◌, ◌≤◌, ◌↔◌, length, map, Contains, IfOk, IfErr};
ghost use Rattle.mast_terms.specs.Vocabularies.{EachOnce};
ghost use Rattle.mast_cq.specs.declared.query.Cq.{Cq};
ghost use Rattle.mast_cq.specs.Queries.{viewed};
ghost use Rattle.mast_rewrite.specs.Closures.{Closure};
ghost use Rattle.mast_rewrite.specs.Rewritings.{most, HasMoreThan, IsRefused, GiveCertain, GiveAllCertain};

use crate::growth::{add, grow, view};
use crate::memo::Memo;
use bumpalo::Bump;
use indexmap::IndexSet;
use mast_cq::{CqRef, norm, view_laws};
use mast_tbox::NormalTBox;
use mast_terms::Stop;
use std::alloc::Global;
use std::marker::Model;

/// The closure of a query has more members than a rewriting may have.
#[derive(Clone, Copy, Debug, PartialEq, Eq)]
pub struct TooMany {
    /// As many members as were found before the search ended: 200,001.
    pub count: u32,
}

/// The members of a closure, whose slices lie in an arena. Contracts see the list of the queries.
#[derive(Drop)]
pub struct Rewriting<'a> {
    set: IndexSet<CqRef<'a>>,
}

impl<'a> Model for Rewriting<'a> {
    ghost use Rattle.std.specs.Prelude.{List, map};
    ghost use Rattle.mast_cq.specs.Queries.{viewed};
    ghost use Rattle.mast_cq.specs.declared.query.Cq.{Cq};

    ghost Value = { List Cq };

    ghost view = { λ r. map viewed r.set.keys };
}

impl<'a> Rewriting<'a> {
    /// The members, each once, in the order in which they were reached. It takes no memory.
    pub fn queries(&self) -> &[CqRef<'a>]
        ensures { map viewed result.now ≡ self.now }
    {
        self.set.as_slice()
    }
}

/// The closure of a query, each member once: its normal form, and what steps lead to. A step takes two atoms of a query and a
/// meeting of them that counts, and then the normal form. TooMany comes exactly where the closure has more than 200,000
/// members.
///
/// Each member is a pair of slices in the arena. Nothing else is placed there, which no clause says. What is below an atom and
/// the meetings of two atoms are made once, and atoms whose names no inclusions link are passed over, so time and memory grow
/// like the members.
pub fn perfect_ref<'a>(
    alloc: Global,
    arena: &'a Bump,
    normal: &NormalTBox,
    query: CqRef<'_>,
) -> Result<Rewriting<'a>, Stop<TooMany>>
    ensures members { IfOk result (λ queries. (m : Cq) → Contains queries m ↔ Closure normal.now (viewed query.entry) m) }
    ensures once { IfOk result EachOnce }
    ensures at_most { IfOk result (λ queries. length queries ≤ most) }
    ensures too_many { IfErr result (IsRefused normal.now (viewed query.entry)) }
    ensures no_more { IfOk result (λ queries. HasMoreThan most (Closure normal.now (viewed query.entry)) → ⊥) }
    ensures sound { IfOk result (GiveCertain normal.now (viewed query.entry)) }
    ensures complete { IfOk result (GiveAllCertain normal.now (viewed query.entry)) }
{
    view_laws();
    let mut set = IndexSet::new(alloc);
    let mut memo = Memo::new(alloc);
    let start = norm(alloc, query)?;
    add(arena, &mut set, view(&start))?;
    for done in 0..usize::MAX {
        let member = match set.get_index(done) {
            Some(member) => *member,
            None => return Ok(finished(set)),
        };
        grow(alloc, arena, normal, &mut memo, &mut set, member)?;
    }
    let _count = set.len();
    Ok(finished(set))
}

// The members as they stand in a set, which has each once.
fn finished<'a>(set: IndexSet<CqRef<'a>>) -> Rewriting<'a>
    ensures queries { result ≡ map viewed set.entry.keys }
    ensures once { EachOnce result }
{
    view_laws();
    let _count = set.len();
    Rewriting { set }
}
