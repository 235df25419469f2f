//! Split mappings.
ghost use Rattle.std.specs.Prelude.{◌≡◌, ◌++◌, ◌<◌, length, IfOk, OnOk};
ghost use Rattle.mast_mapping.specs.Split.{split_heads, split_maps};

use crate::copies::{copy_head, copy_query};
use crate::{Head, Mappings};
use mast_sql::SourceQuery;
use mast_terms::{List, NoMemory};
use std::alloc::Global;

/// A source query with one head.
#[derive(Debug, Drop)]
pub struct SplitMap {
    pub query: SourceQuery,
    pub head: Head,
}

// Puts a split mapping at the end for each head, in order.
fn put_heads(
    alloc: Global,
    split: &mut List<SplitMap>,
    query: &SourceQuery,
    heads: &[Head],
) -> Result<(), NoMemory>
    ensures { OnOk result (split.new ≡ split.old ++ split_heads query.now heads.now) }
{
    for head in heads {
        let query = copy_query(alloc, query)?;
        let head = copy_head(alloc, head)?;
        split.push(alloc, SplitMap { query, head })?;
    }
    Ok(())
}

/// The split mappings: one for each head of each map, in order, with the map's source query.
pub fn split(alloc: Global, mappings: &Mappings) -> Result<List<SplitMap>, NoMemory>
    requires size { length (split_maps mappings.now.maps) < 4294967295 }
    ensures { IfOk result (λ maps. maps ≡ split_maps mappings.now.maps) }
{
    let mut split = List::new(alloc);
    for map in mappings.maps.as_slice() {
        put_heads(alloc, &mut split, &map.query, map.heads.as_slice())?;
    }
    Ok(split)
}
