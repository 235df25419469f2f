//! Whether a violation is breached: the members of its closure, made ready and answered slice by slice.
ghost use Rattle.std.specs.Prelude.{◌≡◌, ◌≤◌, ◌<◌, [], length, map, slice_get, Some, All, Contains, IfOk, OnOk};
ghost use Rattle.std.specs.List.{AllByRecursion, AllZip};
ghost use Rattle.mast_canon.specs.Theories.{theory_of};
ghost use Rattle.mast_cq.specs.Queries.{In, viewed};
ghost use Rattle.mast_join.specs.declared.extensions.Wanted.TheVariants.{SomeHits, AllHits};
ghost use Rattle.mast_join.specs.Answers.{HasInSlice, IsOverSame, IsReady};
ghost use Rattle.mast_violate.specs.Breaches.{violations_of};
ghost use Rattle.mast_check.specs.inside.Possible.{IsPossible};
ghost use Rattle.mast_check.specs.inside.Pieces.{AreOfSpec, AreReady, IsAskedOver, TellsBreach, TellsFirst, TellsFirstBreach, TellsFirstIn, first_there, terms_of};

use crate::Breach;
use crate::judge::Judge;
use crate::limits::view;
use crate::possible::Possible;
use bumpalo::Bump;
use mast_canon::Spec;
use mast_cq::CqRef;
use mast_join::{Extensions, Ready, Slice, hit_of, slices_of};
use mast_par::{OpenGate, each_piece};
use mast_rewrite::perfect_ref;
use mast_terms::{List, NameKind, NoMemory};
use mast_violate::Violation;
use std::alloc::Global;
use std::thread::Threads;

/// A breach of the first of the violations that has one, over the rows that the extensions are over, and none where none has.
pub(crate) fn first_of_all<Rt: Threads + Sync>(
    rt: &Rt,
    alloc: Global,
    spec: &Spec,
    extensions: &mut Extensions<'_, '_, '_, '_>,
    possible: &mut Possible,
    violations: &[Violation],
    workers: usize,
) -> Result<Option<Breach>, NoMemory>
    requires workers { (1 ≤ workers) × (workers ≤ 16) }
    requires over { AreOfSpec spec.now extensions.old.over }
    requires wanted { extensions.old.wanted ≡ SomeHits }
    requires lists { violations.now ≡ violations_of (theory_of spec.now) }
    requires possible { IsPossible extensions.old.over possible.old }
    ensures { IfOk result (TellsFirstBreach spec.now extensions.old.over violations.now) }
{
    for violation in violations {
        let found = first_of(rt, alloc, spec, extensions, possible, violation, workers)?;
        if found.is_some() {
            return Ok(found);
        }
    }
    Ok(None)
}

/// A breach of a violation over the rows that the extensions are over, and none where it has none. Where one of its atoms isn't
/// possible, no closure is made. No closure is too large.
pub(crate) fn first_of<Rt: Threads + Sync>(
    rt: &Rt,
    alloc: Global,
    spec: &Spec,
    extensions: &mut Extensions<'_, '_, '_, '_>,
    possible: &mut Possible,
    violation: &Violation,
    workers: usize,
) -> Result<Option<Breach>, NoMemory>
    requires workers { (1 ≤ workers) × (workers ≤ 16) }
    requires over { AreOfSpec spec.now extensions.old.over }
    requires wanted { extensions.old.wanted ≡ SomeHits }
    requires stands { In violation.now (violations_of (theory_of spec.now)) }
    requires possible { IsPossible extensions.old.over possible.old }
    ensures same { IsOverSame extensions.old extensions.new }
    ensures possible { OnOk result (IsPossible extensions.old.over possible.new) }
    ensures found { IfOk result (TellsBreach spec.now extensions.old.over violation.now) }
{
    let _ = spec.vocab.len(NameKind::Class);
    if !possible.are(alloc, extensions, violation.query.atoms.as_slice())? {
        return Ok(None);
    }
    first_by_closure(rt, alloc, spec, extensions, violation, workers)
}

// The same by the closure, whatever is possible.
fn first_by_closure<Rt: Threads + Sync>(
    rt: &Rt,
    alloc: Global,
    spec: &Spec,
    extensions: &mut Extensions<'_, '_, '_, '_>,
    violation: &Violation,
    workers: usize,
) -> Result<Option<Breach>, NoMemory>
    requires workers { (1 ≤ workers) × (workers ≤ 16) }
    requires over { AreOfSpec spec.now extensions.old.over }
    requires wanted { extensions.old.wanted ≡ SomeHits }
    requires stands { In violation.now (violations_of (theory_of spec.now)) }
    ensures same { IsOverSame extensions.old extensions.new }
    ensures found { IfOk result (TellsBreach spec.now extensions.old.over violation.now) }
{
    let _ = spec.vocab.len(NameKind::Class);
    let arena = Bump::new(alloc);
    let Ok(rewriting) = perfect_ref(alloc, &arena, &spec.normal, view(&violation.query)) else {
        return Err(NoMemory);
    };
    let queries = made_ready(alloc, extensions, rewriting.queries())?;
    let _ = extensions.count();
    let slices = slices_of(alloc, &queries)?;
    let found = firsts(
        rt,
        alloc,
        extensions,
        &queries,
        slices.as_slice(),
        violation,
        workers,
    )?;
    Ok(first_some(found))
}

/// Queries, made ready.
pub(crate) fn made_ready<'q>(
    alloc: Global,
    extensions: &mut Extensions<'_, '_, '_, '_>,
    queries: &[CqRef<'q>],
) -> Result<Vec<Ready<'q>>, NoMemory>
    requires { AllByRecursion (IsAskedOver extensions.old.over) (map viewed queries.now) }
    ensures same { IsOverSame extensions.old extensions.new }
    ensures ready { IfOk result (λ all. AreReady extensions.new (map viewed queries.now) all.items) }
{
    let mut all = Vec::new(alloc);
    for query in queries {
        all.push(extensions.ready(alloc, *query)?)?;
    }
    Ok(all)
}

// A breach of each slice, or none.
#[tactic(auto, using(mast_par::proofs::PiecesLemmas::gives_related))]
fn firsts<Rt: Threads + Sync>(
    rt: &Rt,
    alloc: Global,
    extensions: &Extensions<'_, '_, '_, '_>,
    queries: &[Ready<'_>],
    slices: &[Slice],
    violation: &Violation,
    workers: usize,
) -> Result<List<Option<Breach>>, NoMemory>
    requires workers { (1 ≤ workers) × (workers ≤ 16) }
    requires wanted { extensions.now.wanted ≡ SomeHits }
    requires ready { All (IsReady extensions.now) queries.now }
    requires there { All (λ slice. slice.query < length queries.now) slices.now }
    ensures { IfOk result (AllZip (TellsFirstIn extensions.now queries.now violation.now) slices.now) }
{
    let first = |slice: &Slice| -> Result<Option<Breach>, NoMemory>
        requires wanted { extensions.now.wanted ≡ SomeHits }
        requires ready { All (IsReady extensions.now) queries.now }
        requires there { slice.now.query < length queries.now }
        ensures { IfOk result (TellsFirstIn extensions.entry.now queries.entry.now violation.entry.now slice.entry.now) }
    { first_in(alloc, extensions, &queries[slice.query], *slice, violation) };
    each_piece(rt, alloc, slices, workers, &first, &OpenGate)
}

// A breach of a slice, or none.
fn first_in(
    alloc: Global,
    extensions: &Extensions<'_, '_, '_, '_>,
    ready: &Ready<'_>,
    slice: Slice,
    violation: &Violation,
) -> Result<Option<Breach>, NoMemory>
    requires wanted { extensions.now.wanted ≡ SomeHits }
    requires ready { IsReady extensions.now ready.now }
    ensures { IfOk result (TellsFirst extensions.now (terms_of ready.now) violation.now (HasInSlice extensions.now ready.now slice.from slice.to)) }
{
    let judge = Judge {
        test: violation.test,
        extensions,
    };
    match extensions.first(alloc, ready, slice.from, slice.to, &judge)? {
        Some(row) => {
            let hit = hit_of(alloc, extensions, ready.query.answer.len(), row.as_slice())?;
            let origin = violation.origin;
            Ok(Some(Breach { origin, hit }))
        }
        None => Ok(None),
    }
}

// The first that is there.
fn first_some(found: List<Option<Breach>>) -> Option<Breach>
    ensures { result ≡ first_there found }
{
    let mut found = found.into_vec();
    for place in 0..found.len() {
        if found[place].is_some() {
            return found.swap_remove(place);
        }
    }
    None
}
