//! Lists by key: what each key has, in the order in which it was added, each once.
ghost use Rattle.std.specs.Prelude.{◌≡◌, [], OnOk};
ghost use Rattle.mast_tbox.specs.inside.Groups.{found, put};

use indexmap::{IndexMap, IndexSet};
use mast_terms::NoMemory;
use std::alloc::Global;
use std::hash::Hash;

/// For each key, a list of items.
#[derive(Drop)]
pub(crate) struct Groups<T: Eq + Hash> {
    map: IndexMap<T, IndexSet<T>>,
}

impl<T: Eq + Hash + Copy + Drop> Groups<T> {
    pub(crate) fn new(alloc: Global) -> Groups<T>
        ensures { (k : T) → found T.eq result k ≡ [] }
    {
        Groups {
            map: IndexMap::new(alloc),
        }
    }

    /// Adds an item to those of a key, if it is not among them.
    pub(crate) fn add(&mut self, alloc: Global, key: T, item: T) -> Result<(), NoMemory>
        ensures { OnOk result ((k : T) → found T.eq self.new k ≡ put T.eq self.old key item k) }
    {
        match self.map.get_mut(&key) {
            Some(items) => {
                items.insert(item)?;
                Ok(())
            }
            None => {
                let mut items = IndexSet::new(alloc);
                items.insert(item)?;
                self.map.insert(key, items)?;
                Ok(())
            }
        }
    }

    /// The items of a key.
    pub(crate) fn get(&self, key: T) -> &[T]
        ensures { result.now ≡ found T.eq self.now key }
    {
        match self.map.get(&key) {
            Some(items) => items.as_slice(),
            None => &[],
        }
    }
}
