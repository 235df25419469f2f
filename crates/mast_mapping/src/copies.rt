//! Copies of source queries and of heads.
ghost use Rattle.std.specs.Prelude.{◌≡◌, IfOk};

use crate::{Head, Slot, Template};
use mast_sql::{Comparison, FromEntry, Operand, SelectItem, SourceQuery};
use mast_terms::{List, NoMemory, Text};
use std::alloc::Global;

// An equal alias, or none.
fn copy_alias(alloc: Global, alias: &Option<Text>) -> Result<Option<Text>, NoMemory>
    ensures { IfOk result (λ copy. copy ≡ alias.now) }
{
    match alias {
        None => Ok(None),
        Some(text) => Ok(Some(text.copy(alloc)?)),
    }
}

fn copy_item(alloc: Global, item: &SelectItem) -> Result<SelectItem, NoMemory>
    ensures { IfOk result (λ copy. copy ≡ item.now) }
{
    Ok(SelectItem {
        alias: copy_alias(alloc, &item.alias)?,
        column: item.column.copy(alloc)?,
        output: item.output.copy(alloc)?,
    })
}

fn copy_items(alloc: Global, items: &[SelectItem]) -> Result<List<SelectItem>, NoMemory>
    ensures { IfOk result (λ copy. copy ≡ items.now) }
{
    let mut copy = List::new(alloc);
    for item in items {
        copy.push(alloc, copy_item(alloc, item)?)?;
    }
    Ok(copy)
}

fn copy_entry(alloc: Global, entry: &FromEntry) -> Result<FromEntry, NoMemory>
    ensures { IfOk result (λ copy. copy ≡ entry.now) }
{
    Ok(FromEntry {
        table: entry.table.copy(alloc)?,
        alias: entry.alias.copy(alloc)?,
    })
}

fn copy_entries(alloc: Global, entries: &[FromEntry]) -> Result<List<FromEntry>, NoMemory>
    ensures { IfOk result (λ copy. copy ≡ entries.now) }
{
    let mut copy = List::new(alloc);
    for entry in entries {
        copy.push(alloc, copy_entry(alloc, entry)?)?;
    }
    Ok(copy)
}

fn copy_operand(alloc: Global, operand: &Operand) -> Result<Operand, NoMemory>
    ensures { IfOk result (λ copy. copy ≡ operand.now) }
{
    match operand {
        Operand::Column { alias, column } => Ok(Operand::Column {
            alias: copy_alias(alloc, alias)?,
            column: column.copy(alloc)?,
        }),
        Operand::Constant(value) => Ok(Operand::Constant(value.copy(alloc)?)),
    }
}

fn copy_comparison(alloc: Global, comparison: &Comparison) -> Result<Comparison, NoMemory>
    ensures { IfOk result (λ copy. copy ≡ comparison.now) }
{
    Ok(Comparison {
        left: copy_operand(alloc, &comparison.left)?,
        op: comparison.op,
        right: copy_operand(alloc, &comparison.right)?,
    })
}

fn copy_conditions(alloc: Global, conditions: &[Comparison]) -> Result<List<Comparison>, NoMemory>
    ensures { IfOk result (λ copy. copy ≡ conditions.now) }
{
    let mut copy = List::new(alloc);
    for condition in conditions {
        copy.push(alloc, copy_comparison(alloc, condition)?)?;
    }
    Ok(copy)
}

// An equal source query.
pub(crate) fn copy_query(alloc: Global, query: &SourceQuery) -> Result<SourceQuery, NoMemory>
    ensures { IfOk result (λ copy. copy ≡ query.now) }
{
    Ok(SourceQuery {
        items: copy_items(alloc, query.items.as_slice())?,
        from: copy_entries(alloc, query.from.as_slice())?,
        conditions: copy_conditions(alloc, query.conditions.as_slice())?,
    })
}

fn copy_slot(alloc: Global, slot: &Slot) -> Result<Slot, NoMemory>
    ensures { IfOk result (λ copy. copy ≡ slot.now) }
{
    match slot {
        Slot::Output(name) => Ok(Slot::Output(name.copy(alloc)?)),
        Slot::Constant(value) => Ok(Slot::Constant(value.copy(alloc)?)),
    }
}

fn copy_slots(alloc: Global, slots: &[Slot]) -> Result<List<Slot>, NoMemory>
    ensures { IfOk result (λ copy. copy ≡ slots.now) }
{
    let mut copy = List::new(alloc);
    for slot in slots {
        copy.push(alloc, copy_slot(alloc, slot)?)?;
    }
    Ok(copy)
}

fn copy_template(alloc: Global, template: &Template) -> Result<Template, NoMemory>
    ensures { IfOk result (λ copy. copy ≡ template.now) }
{
    Ok(Template {
        symbol: template.symbol.copy(alloc)?,
        args: copy_slots(alloc, template.args.as_slice())?,
    })
}

// An equal head.
pub(crate) fn copy_head(alloc: Global, head: &Head) -> Result<Head, NoMemory>
    ensures { IfOk result (λ copy. copy ≡ head.now) }
{
    match head {
        Head::Class { name, subject } => Ok(Head::Class {
            name: *name,
            subject: copy_template(alloc, subject)?,
        }),
        Head::Role { name, from, to } => Ok(Head::Role {
            name: *name,
            from: copy_template(alloc, from)?,
            to: copy_template(alloc, to)?,
        }),
        Head::Attr { name, from, value } => Ok(Head::Attr {
            name: *name,
            from: copy_template(alloc, from)?,
            value: copy_slot(alloc, value)?,
        }),
    }
}
