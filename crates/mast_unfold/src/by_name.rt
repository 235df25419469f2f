//! What each name has.
ghost use Rattle.std.specs.Prelude.{◌≡◌, ℕ, List, None, OnOk, option_copied};
ghost use Rattle.mast_unfold.specs.inside.Lookups.{named, renamed};

use indexmap::IndexMap;
use mast_terms::NoMemory;
use std::alloc::Global;

/// For each name, one thing at most.
#[derive(Drop)]
pub(crate) struct ByName<T> {
    map: IndexMap<String, T>,
}

impl<T: Drop> ByName<T> {
    // No names.
    pub(crate) fn new(alloc: Global) -> ByName<T>
        ensures { (name : List ℕ) → named result name ≡ None }
    {
        ByName {
            map: IndexMap::new(alloc),
        }
    }

    // Gives a name a thing, in place of what it had.
    pub(crate) fn put(&mut self, alloc: Global, name: &str, thing: T) -> Result<(), NoMemory>
        ensures { OnOk result ((other : List ℕ) → named self.new other ≡ renamed self.old name.now thing other) }
    {
        self.map.insert(String::from_str(alloc, name)?, thing)?;
        Ok(())
    }

    // What a name has.
    pub(crate) fn find(&self, name: &str) -> Option<&T>
        ensures { option_copied result ≡ named self.now name.now }
    {
        self.map.get(name)
    }
}
