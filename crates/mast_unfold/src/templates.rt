//! Whether two objects of a head can be one.
ghost use Rattle.std.specs.Prelude.{◌≡◌, ◌↔◌, IsTrue, IfOk, length, map};
ghost use Rattle.mast_unfold.specs.Sources.{CanBeOne};
ghost use Rattle.mast_unfold.specs.inside.Equations.{seen, both};
ghost use Rattle.mast_unfold.specs.inside.Lookups.{place_named};
ghost use Rattle.mast_unfold.specs.inside.Slots.{cell_by, equated, have_one_shape as have_one_shape_of};

use crate::columns::Tables;
use crate::equations::{Equation, Side, are_solvable};
use crate::outputs::Outputs;
use mast_mapping::{Slot, Template};
use mast_sql::SourceQuery;
use mast_terms::NoMemory;
use std::alloc::Global;

// What a slot stands for.
pub(crate) fn side_of<'a>(outputs: &Outputs, slot: &'a Slot) -> Side<'a>
    ensures { seen result ≡ cell_by (place_named outputs.now) slot.now }
{
    match slot {
        Slot::Output(name) => match outputs.place(name) {
            Some(place) => Side::Column(place),
            None => Side::Nothing,
        },
        Slot::Constant(value) => Side::Constant(value),
    }
}

// The equations of slots with slots in the same places.
fn equations<'a>(
    alloc: Global,
    outputs: &Outputs,
    from: &'a [Slot],
    to: &'a [Slot],
) -> Result<Vec<Equation<'a>>, NoMemory>
    requires { length from.now ≡ length to.now }
    ensures { IfOk result (λ list. map both list.items ≡ equated (place_named outputs.now) from.now to.now) }
{
    let mut list = Vec::new(alloc);
    for i in 0..from.len() {
        list.push(Equation {
            left: side_of(outputs, &from[i]),
            right: side_of(outputs, &to[i]),
        })?;
    }
    Ok(list)
}

// Whether two templates have one symbol and as many arguments.
fn have_one_shape(from: &Template, to: &Template) -> bool
    ensures { result ≡ have_one_shape_of from.now to.now }
{
    from.symbol == to.symbol && from.args.as_slice().len() == to.args.as_slice().len()
}

// Whether the objects of two templates can be one, each column having one value of its kind.
pub(crate) fn can_be_one(
    alloc: Global,
    tables: &Tables<'_>,
    query: &SourceQuery,
    from: &Template,
    to: &Template,
) -> Result<bool, NoMemory>
    ensures { IfOk result (λ can. IsTrue can ↔ CanBeOne tables.now query.now from.now to.now) }
{
    if !have_one_shape(from, to) {
        return Ok(false);
    }
    let outputs = Outputs::new(alloc, tables, query)?;
    let equations = equations(alloc, &outputs, from.args.as_slice(), to.args.as_slice())?;
    are_solvable(alloc, equations.as_slice())
}
