//! The command `facts`: the mapping document, then each declared table, and the text of all facts.
ghost use Rattle.std.specs.Prelude.{◌≡◌, ◌++◌, [], ◌∷◌, IfOk, OnOk};
ghost use Rattle.std.specs.List.{AllByRecursion};
ghost use Rattle.mast_canon.specs.Choices.{IsChoice};
ghost use Rattle.mast_canon.specs.Fitting.{Fits};
ghost use Rattle.mast_canon.specs.Premises.{AreMappings};
ghost use Rattle.mast_cli.specs.inside.Causes.{JudgedHasCause, PartHasCause};
ghost use Rattle.mast_cli.specs.inside.Readings.{TellsMappings};
ghost use Rattle.mast_cli.specs.stage.Document.{nothing_named};
ghost use Rattle.mast_cli.specs.inside.FactLines.{AddsMap, AreFactLines, AreMaps, IsFactText, lines_of};
ghost use Rattle.mast_cli.specs.inside.Telling.{IfRead, TellsFacts, WhenTold};

use crate::document::judge_mappings;
use crate::judged::{Judged, Part};
use crate::status::Status;
use crate::tables::judge_tables;
use mast_canon::{Spec, Tables};
use mast_files::Files;
use mast_join::{Choices, choices};
use mast_mapping::{Mappings, SplitMap};
use mast_tables::{Table, files_have_one_answer};
use mast_terms::{NoMemory, Vocabulary};
use mast_write::{FactPlan, Lines};
use std::alloc::Global;

/// What `facts` answers on the mapping document in this file.
pub fn judge_facts<F: Files>(alloc: Global, file: &str, files: &mut F) -> Result<Judged, NoMemory>
    ensures told { IfOk result (WhenTold (F.contents files.old) (TellsFacts file.now (F.reading files.new))) }
    ensures kept { F.contents files.new ≡ F.contents files.old }
    ensures cause { IfOk result (JudgedHasCause (F.faults files.old) (F.faults files.new) (F.reading files.new)) }
{
    // Where a call on a file fails, the stages behind it are still those of the contents.
    files_have_one_answer();

    let mappings = match mappings_alone(alloc, file, files)? {
        Part::Read(mappings) => mappings,
        Part::Ended(judged) => return Ok(judged),
    };
    let spec = Spec::facts_only(alloc, mappings)?;
    let list = match judge_tables(alloc, spec.tables.as_slice(), files)? {
        Part::Read(list) => list,
        Part::Ended(judged) => return Ok(judged),
    };
    Ok(Judged {
        status: Status::Done,
        text: facts_text(alloc, &spec, Tables { list })?,
    })
}

// The stage of the mapping document, which is read over no names.
fn mappings_alone<F: Files>(
    alloc: Global,
    file: &str,
    files: &mut F,
) -> Result<Part<Mappings>, NoMemory>
    ensures told { IfOk result (WhenTold (F.contents files.old)
        (TellsMappings nothing_named file.now (F.reading files.new))) }
    ensures maps { IfOk result (IfRead AreMappings) }
    ensures kept { F.contents files.new ≡ F.contents files.old }
    ensures cause { IfOk result (PartHasCause (F.faults files.old) (F.faults files.new) (F.reading files.new)) }
{
    judge_mappings(alloc, file, Vocabulary::new(alloc), files)
}

// The text of the lines of all facts.
fn facts_text(alloc: Global, spec: &Spec, tables: Tables) -> Result<Vec<u8>, NoMemory>
    requires maps { AreMaps spec.now.vocab spec.now.tables spec.now.maps }
    requires fits { Fits spec.now.tables tables.list }
    ensures { IfOk result (λ text. IsFactText spec.now tables text.items) }
{
    let lines = facts_lines(alloc, spec, tables)?;
    lines.into_text(alloc)
}

// The lines of all facts. It takes the tables, so that they are gone before the lines are sorted.
#[tactic(auto, using(crate::proofs::MapLemmas::written_next))]
fn facts_lines(alloc: Global, spec: &Spec, tables: Tables) -> Result<Lines, NoMemory>
    requires maps { AreMaps spec.now.vocab spec.now.tables spec.now.maps }
    requires fits { Fits spec.now.tables tables.list }
    ensures { IfOk result (AreFactLines spec.now tables) }
{
    let mut lines = Lines::new(alloc);
    for map in spec.maps.as_slice() {
        put_map(alloc, spec, &tables, map, &mut lines)?;
    }
    Ok(lines)
}

// Writes the line of each choice that meets the source query of a split mapping.
fn put_map(
    alloc: Global,
    spec: &Spec,
    tables: &Tables,
    map: &SplitMap,
    lines: &mut Lines,
) -> Result<(), NoMemory>
    requires maps { AreMaps spec.now.vocab spec.now.tables (map.now ∷ []) }
    requires fits { Fits spec.now.tables tables.now.list }
    requires clean { lines.old.begun ≡ [] }
    ensures lines { OnOk result (AddsMap spec.now tables.now map.now lines.old lines.new) }
    ensures clean { OnOk result (lines.new.begun ≡ []) }
{
    let plan = FactPlan::new(alloc, &spec.vocab, spec.tables.as_slice(), map)?;
    let chosen = choices(alloc, &map.query, spec.tables.as_slice(), tables, None)?;
    put_choices(alloc, &plan, tables.list.as_slice(), &chosen, lines)
}

// Writes the line of each choice.
fn put_choices(
    alloc: Global,
    plan: &FactPlan<'_>,
    tables: &[Table],
    chosen: &Choices,
    lines: &mut Lines,
) -> Result<(), NoMemory>
    requires fits { Fits plan.now.tables tables.now }
    requires choices { AllByRecursion (IsChoice plan.now.tables tables.now plan.now.mapping.query) chosen.now.list }
    requires clean { lines.old.begun ≡ [] }
    ensures lines { OnOk result (lines.new.lines ≡ lines.old.lines ++ lines_of plan.now tables.now chosen.now.list) }
    ensures clean { OnOk result (lines.new.begun ≡ []) }
{
    for number in 0..chosen.len() {
        plan.put_line(alloc, tables, chosen.choice(number), lines)?;
    }
    Ok(())
}
