//! What extensions are over.
use crate::extensions::Wanted;
use mast_canon::{RowId, Spec, Tables};
use mast_unfold::Unfolder;

// Inclusions, maps and rows, and what is wanted of queries.
#[derive(Clone, Copy)]
pub(crate) struct Base<'s, 'u, 't, 'o> {
    pub(crate) spec: &'s Spec,
    pub(crate) unfolder: &'u Unfolder<'s>,
    pub(crate) tables: &'t Tables,
    pub(crate) only: Option<&'o [RowId]>,
    pub(crate) wanted: Wanted,
}
