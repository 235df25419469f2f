//! What is kept of extensions.
ghost use Rattle.mast_join.specs.declared.base.Base.{Base};
ghost use Rattle.mast_join.specs.inside.Keeping.{IsKept};
ghost use Rattle.mast_join.specs.inside.MadeFacts.{IsBase};

use crate::facts::{MadeFact, Pool};
use crate::values::Values;
use indexmap::IndexMap;
use mast_cq::Atom;
use mast_numbers::Terms;
use mast_relations::Relations;
use mast_terms::List;
use std::alloc::Global;

// The terms, values and sets that have numbers, the facts of maps, and the relations of atoms, as far as they were asked for.
#[derive(Drop)]
pub(crate) struct Store {
    pub(crate) pool: Pool,
    pub(crate) facts: Vec<List<MadeFact>>,
    // for each map whose facts are there, their place
    pub(crate) fact_places: IndexMap<u32, usize>,
    pub(crate) relations: Relations,
    // for each atom whose extension is made, its variables named anew, the number of its relation
    pub(crate) made: IndexMap<Atom, u32>,
}

impl Store {
    // Nothing yet.
    pub(crate) fn new(alloc: Global) -> Store
        ensures { (base : Base) → IsBase base → IsKept base result }
    {
        Store {
            pool: Pool {
                terms: Terms::new(alloc),
                values: Values::new(alloc),
                sets: Vec::new(alloc),
            },
            facts: Vec::new(alloc),
            fact_places: IndexMap::new(alloc),
            relations: Relations::new(alloc),
            made: IndexMap::new(alloc),
        }
    }
}
