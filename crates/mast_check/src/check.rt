//! Whether the facts of a specification's tables have a model.
ghost use Rattle.std.specs.Prelude.{◌≡◌, ◌≤◌, ◌↔◌, None, IfOk};
ghost use Rattle.std.specs.Option.{IfSome, option_copied};
ghost use Rattle.mast_canon.specs.Fitting.{Fits};
ghost use Rattle.mast_terms.specs.Answers.{Answers};
ghost use Rattle.mast_check.specs.Checks.{AreAllBreaches, AreRowsOf, HasNoModelOver, IsOfFirst, TellsModel};
ghost use Rattle.mast_check.specs.Limits.{IsFirstLimit, MeetsNoLimit};

use crate::{Breach, CheckLimit, Checking, violations_fit};
use mast_canon::{RowId, Spec, Tables};
use mast_terms::{List, NameKind, Stop};
use std::alloc::Global;
use std::thread::Threads;

/// A breach over all rows of the tables, or over those that are given. None exactly where the specification meets no limit and
/// their facts have a model. The refusal is the first limit.
pub fn first_violation<Rt: Threads + Sync>(
    rt: &Rt,
    alloc: Global,
    spec: &Spec,
    tables: &Tables,
    only: Option<&[RowId]>,
    workers: usize,
) -> Result<Option<Breach>, Stop<CheckLimit>>
    requires workers { (1 ≤ workers) × (workers ≤ 16) }
    requires fits { Fits spec.now.tables tables.now.list }
    requires rows { AreRowsOf tables.now.list (option_copied only) }
    ensures limits { Answers result (λ found. MeetsNoLimit spec.now) (IsFirstLimit spec.now) }
    ensures found { IfOk result (TellsModel spec.now tables.now.list (option_copied only.entry)) }
    ensures first { IfOk result (λ found. IfSome found (IsOfFirst spec.now tables.now.list (option_copied only.entry))) }
    ensures exact { IfOk result (λ found. (found ≡ None) ↔ (HasNoModelOver spec.now tables.now.list (option_copied only.entry) → ⊥)) }
{
    let _ = spec.vocab.len(NameKind::Class);
    violations_fit(alloc, spec)?;
    let checking = Checking::new(alloc, spec)?;
    let found = checking.first_violation(rt, alloc, tables, only, workers)?;
    Ok(found)
}

/// Breaches over all rows of the tables: all rows whose facts have no model have one of them within. The refusal is the first
/// limit that the specification meets.
pub fn all_violations<Rt: Threads + Sync>(
    rt: &Rt,
    alloc: Global,
    spec: &Spec,
    tables: &Tables,
    workers: usize,
) -> Result<List<Breach>, Stop<CheckLimit>>
    requires workers { (1 ≤ workers) × (workers ≤ 16) }
    requires fits { Fits spec.now.tables tables.now.list }
    ensures limits { Answers result (λ found. MeetsNoLimit spec.now) (IsFirstLimit spec.now) }
    ensures found { IfOk result (AreAllBreaches spec.now tables.now.list) }
{
    violations_fit(alloc, spec)?;
    let checking = Checking::new(alloc, spec)?;
    let found = checking.all_violations(rt, alloc, tables, workers)?;
    Ok(found)
}
