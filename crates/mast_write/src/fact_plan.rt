//! The lines of the facts of a split mapping, one choice of rows after the other.
ghost use Rattle.std.specs.Prelude.{◌≡◌, ◌++◌, [], IfOk, OnOk, OnErr};
ghost use Rattle.mast_canon.specs.Choices.{IsChoice};
ghost use Rattle.mast_canon.specs.Conditions.{TablesHaveNumbers};
ghost use Rattle.mast_canon.specs.Fitting.{Fits};
ghost use Rattle.mast_mapping.specs.InRange.{IsHeadIn};
ghost use Rattle.mast_mapping.specs.OverTables.{IsHeadOver};
ghost use Rattle.mast_write.specs.FactPlans.{chosen_lines};

use crate::Lines;
use crate::line_plan::{LinePlan, line_plan};
use mast_mapping::SplitMap;
use mast_tables::{Table, TableDecl};
use mast_terms::{NoMemory, Vocabulary};
use std::alloc::Global;
use std::marker::Model;

/// How the facts of a split mapping are printed: what is the same for all choices of rows is found once.
///
/// No term and no text is made for a row: the values of cells are written from the table.
#[derive(Drop)]
pub struct FactPlan<'a> {
    vocab: &'a Vocabulary,
    tables: &'a [TableDecl],
    mapping: &'a SplitMap,
    line: LinePlan,
}

impl<'a> Model for FactPlan<'a> {
    ghost use Rattle.mast_write.specs.FactPlans.{Planned};
    ghost use Rattle.mast_write.specs.inside.Plans.{IsPlan};

    ghost Value = { Planned };

    ghost view = { λ p. record { vocab = p.vocab.now; tables = p.tables.now; mapping = p.mapping.now } };

    ghost invariant = { λ p. ∥ IsPlan p.vocab.now p.tables.now p.mapping.now p.line ∥₁ };
}

impl<'a> FactPlan<'a> {
    /// The plan of a split mapping whose name stands in the vocabulary and whose head is over the declared tables.
    pub fn new(
        alloc: Global,
        vocab: &'a Vocabulary,
        tables: &'a [TableDecl],
        mapping: &'a SplitMap,
    ) -> Result<FactPlan<'a>, NoMemory>
        requires named { IsHeadIn vocab.now mapping.now.head }
        requires over { IsHeadOver tables.now mapping.now.query mapping.now.head }
        requires numbered { TablesHaveNumbers tables.now }
        ensures { IfOk result (λ p. p ≡ record { vocab = vocab.now; tables = tables.now; mapping = mapping.now }) }
    {
        let line = line_plan(alloc, vocab, tables, mapping)?;
        Ok(FactPlan {
            vocab,
            tables,
            mapping,
            line,
        })
    }

    /// Writes the line of the fact that a choice of rows gives, and no line where a cell is missing.
    /// Without memory the complete lines stay as they are.
    pub fn put_line(
        &self,
        alloc: Global,
        tables: &[Table],
        choice: &[u32],
        lines: &mut Lines,
    ) -> Result<(), NoMemory>
        requires fits { Fits self.now.tables tables.now }
        requires choice { IsChoice self.now.tables tables.now self.now.mapping.query choice.now }
        requires clean { lines.old.begun ≡ [] }
        ensures lines { OnOk result (lines.new.lines ≡ lines.old.lines ++ chosen_lines self.now tables.now choice.now) }
        ensures clean { OnOk result (lines.new.begun ≡ []) }
        ensures err { OnErr result (lines.new.lines ≡ lines.old.lines) }
    {
        self.line.put_line(alloc, tables, choice, lines)?;
        Ok(())
    }
}
