//! The limits of a check, judged alone.
ghost use Rattle.std.specs.Prelude.{◌≡◌};
ghost use Rattle.mast_canon.specs.Theories.{theory_of};
ghost use Rattle.mast_cq.specs.Queries.{viewed};
ghost use Rattle.mast_terms.specs.Answers.{Answers};
ghost use Rattle.mast_violate.specs.Breaches.{violations_of};
ghost use Rattle.mast_check.specs.Limits.{IsFirstLimit, MeetsNoLimit};
ghost use Rattle.mast_check.specs.inside.Limited.{AreAllSmall, IsItsLimit, IsListedOrMany};

use crate::CheckLimit;
use bumpalo::Bump;
use mast_canon::Spec;
use mast_cq::{Cq, CqRef};
use mast_rewrite::{TooMany, perfect_ref};
use mast_terms::{List, NameKind, Stop};
use mast_violate::{TooManyViolations, Violation, violation_queries};
use std::alloc::Global;

/// Whether a specification meets no limit: it has no more violation queries than there may be, and the closure of none has more
/// members than it may have. The refusal is the first limit. One closure is held at a time.
pub fn violations_fit(alloc: Global, spec: &Spec) -> Result<(), Stop<CheckLimit>>
    ensures { Answers result (λ fits. MeetsNoLimit spec.now) (IsFirstLimit spec.now) }
{
    let list = listed(alloc, spec)?;
    closures_fit(alloc, spec, list.as_slice())
}

/// The violation list of a specification.
pub(crate) fn listed(alloc: Global, spec: &Spec) -> Result<List<Violation>, Stop<CheckLimit>>
    ensures { IsListedOrMany (violations_of (theory_of spec.now)) result }
{
    let _ = spec.vocab.len(NameKind::Class);
    match violation_queries(alloc, &spec.tbox, spec.constraints.as_slice()) {
        Ok(list) => Ok(list),
        Err(Stop::Named(TooManyViolations)) => Err(Stop::Named(CheckLimit::Violations)),
        Err(Stop::NoMemory) => Err(Stop::NoMemory),
    }
}

// Whether the closures of some violations are small enough; else the limit of the first that isn't.
fn closures_fit(alloc: Global, spec: &Spec, list: &[Violation]) -> Result<(), Stop<CheckLimit>>
    ensures { AreAllSmall (theory_of spec.now) list.now result }
{
    for violation in list {
        closure_fits(alloc, spec, violation)?;
    }
    Ok(())
}

// Whether the closure of a violation is.
fn closure_fits(alloc: Global, spec: &Spec, violation: &Violation) -> Result<(), Stop<CheckLimit>>
    ensures { IsItsLimit (theory_of spec.now) violation.now result }
{
    let arena = Bump::new(alloc);
    match perfect_ref(alloc, &arena, &spec.normal, view(&violation.query)) {
        Ok(_) => Ok(()),
        Err(Stop::Named(TooMany { count })) => Err(Stop::Named(CheckLimit::Closure {
            origin: violation.origin,
            count,
        })),
        Err(Stop::NoMemory) => Err(Stop::NoMemory),
    }
}

/// A query, lent.
pub(crate) fn view<'q>(query: &'q Cq) -> CqRef<'q>
    ensures { viewed result ≡ query.now }
{
    CqRef {
        answer: query.answer.as_slice(),
        atoms: query.atoms.as_slice(),
    }
}
