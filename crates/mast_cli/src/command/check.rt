//! The command `check`: the specification, the limits of its violation queries, the tables, and then whether the facts
//! of all rows have a model.
ghost use Rattle.std.specs.Prelude.{◌≡◌, ◌≤◌, IfOk};
ghost use Rattle.std.specs.List.{AllByRecursion};
ghost use Rattle.mast_canon.specs.Facts.{IsOfTables};
ghost use Rattle.mast_canon.specs.Fitting.{Fits};
ghost use Rattle.mast_check.specs.Checks.{IsBrokenBy};
ghost use Rattle.mast_check.specs.Limits.{MeetsNoLimit};
ghost use Rattle.mast_cli.specs.inside.Causes.{JudgedHasCause};
ghost use Rattle.mast_cli.specs.inside.Specifying.{IsConflictOf, TellsWhetherOf};
ghost use Rattle.mast_cli.specs.inside.Telling.{TellsCheck, WhenTold};
ghost use Rattle.mast_cli.specs.stage.Restrictions.{files_of};

use crate::judged::{Judged, Part};
use crate::specification::judge_limited;
use crate::status::Status;
use crate::tables::judge_tables;
use mast_canon::{Spec, Tables};
use mast_check::{Breach, Checking};
use mast_files::Files;
use mast_shrink::shrink_by;
use mast_tables::files_have_one_answer;
use mast_terms::NoMemory;
use mast_write::conflict_text;
use std::alloc::Global;
use std::thread::Threads;

/// What `check` answers on the documents in these files, by up to so many workers.
pub fn judge_check<Rt: Threads + Sync, F: Files>(
    rt: &Rt,
    alloc: Global,
    ontology: &str,
    constraints: &str,
    mappings: &str,
    workers: usize,
    files: &mut F,
) -> Result<Judged, NoMemory>
    requires workers { (1 ≤ workers) × (workers ≤ 16) }
    ensures told { IfOk result (WhenTold (F.contents files.old)
        (TellsCheck (files_of ontology.now constraints.now mappings.now) (F.reading files.new))) }
    ensures kept { F.contents files.new ≡ F.contents files.old }
    ensures cause { IfOk result (JudgedHasCause (F.faults files.old) (F.faults files.new) (F.reading files.new)) }
{
    // Where a call on a file fails, the stages behind it are still those of the contents.
    files_have_one_answer();

    let spec = match judge_limited(alloc, ontology, constraints, mappings, files)? {
        Part::Read(spec) => spec,
        Part::Ended(judged) => return Ok(judged),
    };
    let list = match judge_tables(alloc, spec.tables.as_slice(), files)? {
        Part::Read(list) => list,
        Part::Ended(judged) => return Ok(judged),
    };
    check(rt, alloc, &spec, &Tables { list }, workers)
}

// The text of a conflict where the facts of all rows have no model, and otherwise `consistent`.
fn check<Rt: Threads + Sync>(
    rt: &Rt,
    alloc: Global,
    spec: &Spec,
    tables: &Tables,
    workers: usize,
) -> Result<Judged, NoMemory>
    requires workers { (1 ≤ workers) × (workers ≤ 16) }
    requires fits { Fits spec.now.tables tables.now.list }
    requires limits { MeetsNoLimit spec.now }
    ensures { IfOk result (TellsWhetherOf spec.now tables.now) }
{
    // What is made once of the specification serves the check and the search for a conflict.
    let checking = Checking::new(alloc, spec)?;
    check_by(rt, alloc, spec, &checking, tables, workers)
}

// The same by what was made of the specification.
fn check_by<Rt: Threads + Sync>(
    rt: &Rt,
    alloc: Global,
    spec: &Spec,
    checking: &Checking<'_>,
    tables: &Tables,
    workers: usize,
) -> Result<Judged, NoMemory>
    requires workers { (1 ≤ workers) × (workers ≤ 16) }
    requires same { checking.now ≡ spec.now }
    requires fits { Fits spec.now.tables tables.now.list }
    ensures { IfOk result (TellsWhetherOf spec.now tables.now) }
{
    match checking.first_violation(rt, alloc, tables, None, workers)? {
        Some(breach) => conflict(rt, alloc, spec, checking, tables, breach, workers),
        None => Ok(Judged {
            status: Status::Done,
            text: b"consistent\n".to_vec(alloc)?,
        }),
    }
}

// The text of a conflict among the rows of a breach.
fn conflict<Rt: Threads + Sync>(
    rt: &Rt,
    alloc: Global,
    spec: &Spec,
    checking: &Checking<'_>,
    tables: &Tables,
    breach: Breach,
    workers: usize,
) -> Result<Judged, NoMemory>
    requires workers { (1 ≤ workers) × (workers ≤ 16) }
    requires same { checking.now ≡ spec.now }
    requires fits { Fits spec.now.tables tables.now.list }
    requires rows { AllByRecursion (IsOfTables tables.now.list) breach.hit.rows }
    requires broken { IsBrokenBy spec.now tables.now.list breach.hit.rows breach.origin }
    ensures { IfOk result (IsConflictOf spec.now tables.now) }
{
    let found = shrink_by(rt, alloc, checking, tables, breach, workers)?;
    Ok(Judged {
        status: Status::Conflict,
        text: conflict_text(
            alloc,
            &found.origin,
            spec.tables.as_slice(),
            found.rows.as_slice(),
        )?,
    })
}
