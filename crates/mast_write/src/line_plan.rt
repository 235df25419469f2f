//! How the lines of a split mapping's facts are printed: what does not change from choice to choice is found once.
ghost use Rattle.std.specs.Prelude.{◌≡◌, ◌++◌, [], IfOk, OnOk, OnErr};
ghost use Rattle.std.specs.List.{AllByRecursion};
ghost use Rattle.mast_canon.specs.Conditions.{TablesHaveNumbers};
ghost use Rattle.mast_mapping.specs.InRange.{IsHeadIn};
ghost use Rattle.mast_tree.specs.Names.{StandsIn};
ghost use Rattle.mast_mapping.specs.OverTables.{IsHeadOver, IsObjectOver, IsSlotOver};
ghost use Rattle.mast_terms.specs.Printed.{value_text};
ghost use Rattle.mast_write.specs.inside.Plans.{Adds, AddsBytes, AddsCell, AreThere, IsPlan, cells_line};
ghost use Rattle.mast_write.specs.inside.Plans.{attr_text, class_text, head_text, name_text, object_text, role_text};
ghost use Rattle.mast_write.specs.inside.Plans.{later_text, slot_text, slots_text};

use crate::Lines;
use crate::cells::{CellPlace, Source};
use mast_mapping::{Head, Slot, SplitMap, Template};
use mast_tables::{Table, TableDecl};
use mast_terms::{Name, NameKind, NoMemory, Value, Vocabulary, write_value};
use std::alloc::Global;
use std::mem;

/// A cell that a line has, and the bytes before it.
#[derive(Drop)]
pub(crate) struct Cell {
    pub(crate) before: Vec<u8>,
    pub(crate) place: CellPlace,
}

/// The line of a head's fact: its cells in order, and the bytes after the last one.
/// The bytes are the same for all choices of rows.
#[derive(Drop)]
pub(crate) struct LinePlan {
    pub(crate) cells: Vec<Cell>,
    pub(crate) tail: Vec<u8>,
}

// How the line of the fact of a split mapping is printed.
pub(crate) fn line_plan(
    alloc: Global,
    vocab: &Vocabulary,
    tables: &[TableDecl],
    map: &SplitMap,
) -> Result<LinePlan, NoMemory>
    requires named { IsHeadIn vocab.now map.now.head }
    requires over { IsHeadOver tables.now map.now.query map.now.head }
    requires numbered { TablesHaveNumbers tables.now }
    ensures { IfOk result (IsPlan vocab.now tables.now map.now) }
{
    let mut plan = LinePlan {
        cells: Vec::new(alloc),
        tail: Vec::new(alloc),
    };
    let source = Source {
        vocab,
        tables,
        query: &map.query,
    };
    plan.push_head(alloc, &source, &map.head)?;
    Ok(plan)
}

impl LinePlan {
    // The line of the fact that a choice gives by the head.
    fn push_head(&mut self, alloc: Global, source: &Source<'_>, head: &Head) -> Result<(), NoMemory>
        requires named { IsHeadIn source.now.vocab.now head.now }
        requires over { IsHeadOver source.now.tables.now source.now.query.now head.now }
        ensures { OnOk result (Adds source.now self.old self.new (head_text head.now)) }
    {
        match head {
            Head::Class { name, subject } => { self.push_class(alloc, source, *name, subject) }
            Head::Role { name, from, to } => { self.push_role(alloc, source, *name, from, to) }
            Head::Attr { name, from, value } => {
                self.push_attr(alloc, source, *name, from, value)
            }
        }
    }

    // `<iri>(OBJECT)`
    fn push_class(
        &mut self,
        alloc: Global,
        source: &Source<'_>,
        name: Name,
        subject: &Template,
    ) -> Result<(), NoMemory>
        requires named { StandsIn source.now.vocab.now NameKind.Class name.0 }
        requires over { IsObjectOver source.now.tables.now source.now.query.now subject.now }
        ensures { OnOk result (Adds source.now self.old self.new (class_text name subject.now)) }
    {
        self.push_name(source, NameKind::Class, name)?;
        self.push_object(alloc, source, subject)?;
        self.push_bytes(b")")?;
        Ok(())
    }

    // `<iri>(OBJECT,OBJECT)`
    fn push_role(
        &mut self,
        alloc: Global,
        source: &Source<'_>,
        name: Name,
        from: &Template,
        to: &Template,
    ) -> Result<(), NoMemory>
        requires named { StandsIn source.now.vocab.now NameKind.Role name.0 }
        requires from { IsObjectOver source.now.tables.now source.now.query.now from.now }
        requires to { IsObjectOver source.now.tables.now source.now.query.now to.now }
        ensures { OnOk result (Adds source.now self.old self.new (role_text name from.now to.now)) }
    {
        self.push_name(source, NameKind::Role, name)?;
        self.push_object(alloc, source, from)?;
        self.push_bytes(b",")?;
        self.push_object(alloc, source, to)?;
        self.push_bytes(b")")?;
        Ok(())
    }

    // `<iri>(OBJECT,VALUE)`
    fn push_attr(
        &mut self,
        alloc: Global,
        source: &Source<'_>,
        name: Name,
        from: &Template,
        value: &Slot,
    ) -> Result<(), NoMemory>
        requires named { StandsIn source.now.vocab.now NameKind.Attr name.0 }
        requires from { IsObjectOver source.now.tables.now source.now.query.now from.now }
        requires value { IsSlotOver source.now.tables.now source.now.query.now value.now }
        ensures { OnOk result (Adds source.now self.old self.new (attr_text name from.now value.now)) }
    {
        self.push_name(source, NameKind::Attr, name)?;
        self.push_object(alloc, source, from)?;
        self.push_bytes(b",")?;
        self.push_slot(alloc, source, value)?;
        self.push_bytes(b")")?;
        Ok(())
    }

    // `<iri>(`
    fn push_name(&mut self, source: &Source<'_>, kind: NameKind, name: Name) -> Result<(), NoMemory>
        requires { StandsIn source.now.vocab.now kind name.0 }
        ensures { OnOk result (AddsBytes self.old self.new (name_text source.now.vocab.now kind name)) }
    {
        self.push_bytes(b"<")?;
        self.push_bytes(source.vocab.iri(kind, name).as_bytes())?;
        self.push_bytes(b">(")?;
        Ok(())
    }

    // `SYMBOL(ARGUMENTS)`
    fn push_object(
        &mut self,
        alloc: Global,
        source: &Source<'_>,
        object: &Template,
    ) -> Result<(), NoMemory>
        requires over { IsObjectOver source.now.tables.now source.now.query.now object.now }
        ensures { OnOk result (Adds source.now self.old self.new (object_text object.now)) }
    {
        self.push_bytes(object.symbol.as_str().as_bytes())?;
        self.push_bytes(b"(")?;
        self.push_slots(alloc, source, object.args.as_slice())?;
        self.push_bytes(b")")?;
        Ok(())
    }

    // Slots with commas between them.
    fn push_slots(
        &mut self,
        alloc: Global,
        source: &Source<'_>,
        slots: &[Slot],
    ) -> Result<(), NoMemory>
        requires over { AllByRecursion (IsSlotOver source.now.tables.now source.now.query.now) slots.now }
        ensures { OnOk result (Adds source.now self.old self.new (slots_text slots.now)) }
    {
        match slots {
            [] => Ok(()),
            [first, later @ ..] => {
                self.push_slot(alloc, source, first)?;
                self.push_later(alloc, source, later)?;
                Ok(())
            }
        }
    }

    // Slots, each behind a comma.
    fn push_later(
        &mut self,
        alloc: Global,
        source: &Source<'_>,
        slots: &[Slot],
    ) -> Result<(), NoMemory>
        requires over { AllByRecursion (IsSlotOver source.now.tables.now source.now.query.now) slots.now }
        ensures { OnOk result (Adds source.now self.old self.new (later_text slots.now)) }
    {
        for slot in slots {
            self.push_bytes(b",")?;
            self.push_slot(alloc, source, slot)?;
        }
        Ok(())
    }

    // The cell that an output means, or the printed constant.
    fn push_slot(&mut self, alloc: Global, source: &Source<'_>, slot: &Slot) -> Result<(), NoMemory>
        requires over { IsSlotOver source.now.tables.now source.now.query.now slot.now }
        ensures { OnOk result (Adds source.now self.old self.new (slot_text slot.now)) }
    {
        match slot {
            Slot::Output(name) => self.push_cell(alloc, source.cell_place(name)),
            Slot::Constant(value) => self.push_value(alloc, value),
        }
    }

    // A cell.
    fn push_cell(&mut self, alloc: Global, place: CellPlace) -> Result<(), NoMemory>
        ensures { OnOk result (AddsCell self.old self.new place) }
    {
        let before = mem::replace(&mut self.tail, Vec::new(alloc));
        self.cells.push(Cell { before, place })?;
        Ok(())
    }

    // A printed value.
    fn push_value(&mut self, alloc: Global, value: &Value) -> Result<(), NoMemory>
        ensures { OnOk result (AddsBytes self.old self.new (value_text value.now)) }
    {
        write_value(alloc, value, &mut self.tail)
    }

    // Bytes.
    fn push_bytes(&mut self, bytes: &[u8]) -> Result<(), NoMemory>
        ensures { OnOk result (AddsBytes self.old self.new bytes.now) }
    {
        self.tail.extend_from_slice(bytes)?;
        Ok(())
    }

    // Writes the line of a choice of rows, or none where a cell is missing.
    pub(crate) fn put_line(
        &self,
        alloc: Global,
        tables: &[Table],
        choice: &[u32],
        lines: &mut Lines,
    ) -> Result<(), NoMemory>
        requires there { AreThere tables.now choice.now self.now.cells.items }
        requires clean { lines.old.begun ≡ [] }
        ensures lines { OnOk result (lines.new.lines ≡ lines.old.lines ++ cells_line tables.now choice.now self.now) }
        ensures clean { OnOk result (lines.new.begun ≡ []) }
        ensures err { OnErr result (lines.new.lines ≡ lines.old.lines) }
    {
        for cell in &self.cells {
            lines.push(alloc, &cell.before)?;
            let table = &tables[cell.place.table];
            match table.cell(choice[cell.place.entry], cell.place.column) {
                Some(value) => lines.push_value(alloc, value)?,
                None => {
                    lines.give_up();
                    return Ok(());
                }
            }
        }
        lines.push(alloc, &self.tail)?;
        lines.end(alloc)
    }
}
