//! All breaches of a violation: the members of its closure, made ready and answered slice by slice.
ghost use Rattle.std.specs.Prelude.{◌≡◌, ◌≤◌, ◌<◌, [], ◌∷◌, length, None, All, IfOk, OnOk};
ghost use Rattle.std.specs.List.{AllByRecursion, AllZip};
ghost use Rattle.mast_canon.specs.Theories.{theory_of};
ghost use Rattle.mast_cq.specs.Queries.{In};
ghost use Rattle.mast_join.specs.declared.extensions.Wanted.TheVariants.{AllHits};
ghost use Rattle.mast_join.specs.Answers.{HasInSlice, IsNumberRow, IsOverSame, IsReady};
ghost use Rattle.mast_relations.specs.Matches.{In as Among};
ghost use Rattle.mast_violate.specs.Breaches.{violations_of};
ghost use Rattle.mast_check.specs.inside.Judging.{passes_by};
ghost use Rattle.mast_check.specs.inside.Pieces.{AreOfSpec, IsPut, TellsAll, TellsAllIn, TellsBreaches, flat, terms_of};

use crate::Breach;
use crate::judge::Judge;
use crate::limits::view;
use crate::violated::made_ready;
use bumpalo::Bump;
use mast_canon::Spec;
use mast_join::{Extensions, Ready, Slice, hit_of, slices_of};
use mast_par::{OpenGate, each_piece};
use mast_relations::{RowSet, Test};
use mast_rewrite::perfect_ref;
use mast_terms::{List, NameKind, NoMemory};
use mast_violate::Violation;
use std::alloc::Global;
use std::thread::Threads;

/// The breaches of the violations over the rows that the extensions are over, violation by violation.
pub(crate) fn all_of_all<Rt: Threads + Sync>(
    rt: &Rt,
    alloc: Global,
    spec: &Spec,
    extensions: &mut Extensions<'_, '_, '_, '_>,
    violations: &[Violation],
    workers: usize,
) -> Result<List<Breach>, NoMemory>
    requires workers { (1 ≤ workers) × (workers ≤ 16) }
    requires over { AreOfSpec spec.now extensions.old.over }
    requires whole { extensions.old.over.only ≡ None }
    requires wanted { extensions.old.wanted ≡ AllHits }
    requires lists { violations.now ≡ violations_of (theory_of spec.now) }
    ensures { IfOk result (TellsBreaches spec.now extensions.old.over violations.now) }
{
    let mut all = Vec::new(alloc);
    for violation in violations {
        let found = all_of(rt, alloc, spec, extensions, violation, workers)?;
        let mut items = found.into_vec();
        all.append(&mut items)?;
    }
    Ok(List::from_vec(all))
}

/// The breaches of a violation over the rows that the extensions are over. No closure is too large.
pub(crate) fn all_of<Rt: Threads + Sync>(
    rt: &Rt,
    alloc: Global,
    spec: &Spec,
    extensions: &mut Extensions<'_, '_, '_, '_>,
    violation: &Violation,
    workers: usize,
) -> Result<List<Breach>, NoMemory>
    requires workers { (1 ≤ workers) × (workers ≤ 16) }
    requires over { AreOfSpec spec.now extensions.old.over }
    requires whole { extensions.old.over.only ≡ None }
    requires wanted { extensions.old.wanted ≡ AllHits }
    requires stands { In violation.now (violations_of (theory_of spec.now)) }
    ensures same { IsOverSame extensions.old extensions.new }
    ensures found { IfOk result (TellsBreaches spec.now extensions.old.over (violation.now ∷ [])) }
{
    let _ = spec.vocab.len(NameKind::Class);
    let arena = Bump::new(alloc);
    let Ok(rewriting) = perfect_ref(alloc, &arena, &spec.normal, view(&violation.query)) else {
        return Err(NoMemory);
    };
    let queries = made_ready(alloc, extensions, rewriting.queries())?;
    let _ = extensions.count();
    let slices = slices_of(alloc, &queries)?;
    let found = alls(
        rt,
        alloc,
        extensions,
        &queries,
        slices.as_slice(),
        violation,
        workers,
    )?;
    flattened(alloc, found)
}

// The breaches of each slice.
#[tactic(auto, using(mast_par::proofs::PiecesLemmas::gives_related))]
fn alls<Rt: Threads + Sync>(
    rt: &Rt,
    alloc: Global,
    extensions: &Extensions<'_, '_, '_, '_>,
    queries: &[Ready<'_>],
    slices: &[Slice],
    violation: &Violation,
    workers: usize,
) -> Result<List<List<Breach>>, NoMemory>
    requires workers { (1 ≤ workers) × (workers ≤ 16) }
    requires wanted { extensions.now.wanted ≡ AllHits }
    requires ready { All (IsReady extensions.now) queries.now }
    requires there { All (λ slice. slice.query < length queries.now) slices.now }
    ensures { IfOk result (AllZip (TellsAllIn extensions.now queries.now violation.now) slices.now) }
{
    let all = |slice: &Slice| -> Result<List<Breach>, NoMemory>
        requires wanted { extensions.now.wanted ≡ AllHits }
        requires ready { All (IsReady extensions.now) queries.now }
        requires there { slice.now.query < length queries.now }
        ensures { IfOk result (TellsAllIn extensions.entry.now queries.entry.now violation.entry.now slice.entry.now) }
    { all_in(alloc, extensions, &queries[slice.query], *slice, violation) };
    each_piece(rt, alloc, slices, workers, &all, &OpenGate)
}

// The breaches of a slice.
fn all_in(
    alloc: Global,
    extensions: &Extensions<'_, '_, '_, '_>,
    ready: &Ready<'_>,
    slice: Slice,
    violation: &Violation,
) -> Result<List<Breach>, NoMemory>
    requires wanted { extensions.now.wanted ≡ AllHits }
    requires ready { IsReady extensions.now ready.now }
    ensures { IfOk result (TellsAll extensions.now (terms_of ready.now) violation.now (HasInSlice extensions.now ready.now slice.from slice.to)) }
{
    let mut rows = RowSet::new(alloc, ready.query.answer.len() + ready.query.atoms.len());
    extensions.answers(alloc, ready, slice.from, slice.to, &mut rows)?;
    passing(
        alloc,
        extensions,
        ready.query.answer.len(),
        violation,
        &rows,
    )
}

// The breaches of the rows of a set that pass.
fn passing(
    alloc: Global,
    extensions: &Extensions<'_, '_, '_, '_>,
    width: usize,
    violation: &Violation,
    rows: &RowSet,
) -> Result<List<Breach>, NoMemory>
    requires { AllByRecursion (λ row. IsNumberRow extensions.now row width) rows.now.list }
    ensures { IfOk result (TellsAll extensions.now width violation.now (λ row. Among row rows.now.list)) }
{
    let mut list = List::new(alloc);
    for number in 0..rows.len() {
        pass(
            alloc,
            extensions,
            width,
            violation,
            rows.row(number),
            &mut list,
        )?;
    }
    Ok(list)
}

// Puts the breach of a row, if it passes.
fn pass(
    alloc: Global,
    extensions: &Extensions<'_, '_, '_, '_>,
    width: usize,
    violation: &Violation,
    row: &[u32],
    list: &mut List<Breach>,
) -> Result<(), NoMemory>
    requires { IsNumberRow extensions.now row.now width }
    ensures { OnOk result (IsPut extensions.now width violation.now row.now (passes_by extensions.now.numbered.terms violation.now.test row.now) list.old list.new) }
{
    let judge = Judge {
        test: violation.test,
        extensions,
    };
    if judge.passes(row) {
        let hit = hit_of(alloc, extensions, width, row)?;
        let origin = violation.origin;
        list.push(alloc, Breach { origin, hit })?;
    }
    Ok(())
}

// The breaches of lists, one list after another.
fn flattened(alloc: Global, found: List<List<Breach>>) -> Result<List<Breach>, NoMemory>
    ensures { IfOk result (λ list. list ≡ flat found) }
{
    let mut all = Vec::new(alloc);
    for list in found.into_vec() {
        let mut items = list.into_vec();
        all.append(&mut items)?;
    }
    Ok(List::from_vec(all))
}
