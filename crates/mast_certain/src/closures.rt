//! The closures of the blocks of a query.
ghost use Rattle.std.specs.Prelude.{◌↔◌, Contains, IfOk, IfErr};
ghost use Rattle.mast_cq.specs.declared.query.Cq.{Cq as Query};
ghost use Rattle.mast_terms.specs.Answers.{Answers};
ghost use Rattle.mast_rewrite.specs.Closures.{Closure};
ghost use Rattle.mast_certain.specs.LargeClosures.{IsFirstTooLarge, IsTooLarge, NoneIsTooLarge};
ghost use Rattle.mast_certain.specs.inside.Found.{IsStopAt};

use bumpalo::Bump;
use mast_canon::Spec;
use mast_cq::{Cq, CqRef, Ucq};
use mast_rewrite::{Rewriting, perfect_ref};
use mast_terms::Stop;
use std::alloc::Global;

/// The closure of a block has more members than a rewriting may have.
#[derive(Clone, Copy, Debug, PartialEq, Eq)]
pub struct TooManyIn {
    /// The block's number, from 0.
    pub block: usize,
    /// As many members as were found before the search ended: 200,001.
    pub count: u32,
}

/// Whether the closure of each block has at most 200,000 members. TooManyIn names the first block whose closure has more. It
/// looks at no row.
pub fn closures_fit(alloc: Global, spec: &Spec, query: &Ucq) -> Result<(), Stop<TooManyIn>>
    ensures { Answers result (λ _. NoneIsTooLarge spec.now query.now) (IsFirstTooLarge spec.now query.now) }
{
    let blocks = query.as_slice();
    for number in 0..blocks.len() {
        judge(alloc, spec, number, &blocks[number])?;
    }
    Ok(())
}

// Whether the closure of a block is too large. It is given up here.
fn judge(alloc: Global, spec: &Spec, number: usize, block: &Cq) -> Result<(), Stop<TooManyIn>>
    ensures fits { IfOk result (λ _. IsTooLarge spec.now block.now → ⊥) }
    ensures stopped { IfErr result (IsStopAt spec.now number block.now) }
{
    let arena = Bump::new(alloc);
    closure_of(alloc, &arena, spec, number, block)?;
    Ok(())
}

/// The members of the closure of a block, whose number is told for a refusal.
pub(crate) fn closure_of<'a>(
    alloc: Global,
    arena: &'a Bump,
    spec: &Spec,
    number: usize,
    block: &Cq,
) -> Result<Rewriting<'a>, Stop<TooManyIn>>
    ensures members { IfOk result (λ queries. (m : Query) → Contains queries m ↔ Closure spec.now.normal block.now m) }
    ensures fits { IfOk result (λ _. IsTooLarge spec.now block.now → ⊥) }
    ensures stopped { IfErr result (IsStopAt spec.now number block.now) }
{
    let query = CqRef {
        answer: block.answer.as_slice(),
        atoms: block.atoms.as_slice(),
    };
    match perfect_ref(alloc, arena, &spec.normal, query) {
        Ok(queries) => Ok(queries),
        Err(Stop::Named(refusal)) => Err(Stop::Named(TooManyIn {
            block: number,
            count: refusal.count,
        })),
        Err(Stop::NoMemory) => Err(Stop::NoMemory),
    }
}
