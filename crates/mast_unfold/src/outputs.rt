//! What the outputs of a source query mean, each found at once by its name.
ghost use Rattle.std.specs.Prelude.{◌≡◌, IfOk};
ghost use Rattle.std.specs.Option.{option_map};
ghost use Rattle.mast_mapping.specs.Columns.{meaning_of};
ghost use Rattle.mast_unfold.specs.inside.Lookups.{meant, AreOutputs, place_named};

use crate::by_name::ByName;
use crate::columns::{Place, Tables};
use mast_sql::{FromEntry, SourceQuery};
use mast_terms::{NoMemory, Text};
use std::alloc::Global;

// What a column means over these entries: the only column of its name. None where no entry has it, or two have.
fn place_of(
    tables: &Tables<'_>,
    entries: &[FromEntry],
    alias: &Option<Text>,
    name: &Text,
) -> Option<Place>
    ensures { option_map meant result ≡ meaning_of tables.now entries.now alias.now name.now }
{
    let mut found = None;
    let mut number = 0;
    for entry in entries {
        if let Some(place) = tables.column(alias, name, number, entry) {
            if found.is_some() {
                return None;
            }
            found = Some(place);
        }
        number += 1;
    }
    found
}

/// The outputs of a source query by name, each with the column that it means.
#[derive(Drop)]
pub(crate) struct Outputs {
    by_name: ByName<Option<Place>>,
}

impl Outputs {
    // The outputs of a source query over tables. Of two with one name it is the first.
    pub(crate) fn new(
        alloc: Global,
        tables: &Tables<'_>,
        query: &SourceQuery,
    ) -> Result<Outputs, NoMemory>
        ensures { IfOk result (AreOutputs tables.now query.now) }
    {
        let items = query.items.as_slice();
        let mut by_name = ByName::new(alloc);
        let mut left = items.len();
        while left > 0 {
            left -= 1;
            let item = &items[left];
            let place = place_of(tables, query.from.as_slice(), &item.alias, &item.column);
            by_name.put(alloc, item.output.as_str(), place)?;
        }
        Ok(Outputs { by_name })
    }

    // The column that an output means.
    pub(crate) fn place(&self, name: &Text) -> Option<Place>
        ensures { result ≡ place_named self.now name.now }
    {
        match self.by_name.find(name.as_str()) {
            Some(place) => *place,
            None => None,
        }
    }
}
