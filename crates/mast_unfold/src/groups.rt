//! Lists by key: what each key has, in the order in which it was added.
ghost use Rattle.std.specs.Prelude.{◌≡◌, [], OnOk};
ghost use Rattle.mast_unfold.specs.inside.Lookups.{found, put};

use indexmap::IndexMap;
use mast_terms::NoMemory;
use std::alloc::Global;
use std::hash::Hash;

/// For each key, a list of items.
#[derive(Drop)]
pub(crate) struct Groups<K: Eq + Hash, T> {
    map: IndexMap<K, Vec<T>>,
}

impl<K: Eq + Hash + Copy + Drop, T: Drop> Groups<K, T> {
    // No keys.
    pub(crate) fn new(alloc: Global) -> Groups<K, T>
        ensures { (k : K) → found K.eq result k ≡ [] }
    {
        Groups {
            map: IndexMap::new(alloc),
        }
    }

    // Adds an item to those of a key.
    pub(crate) fn add(&mut self, alloc: Global, key: K, item: T) -> Result<(), NoMemory>
        ensures { OnOk result ((k : K) → found K.eq self.new k ≡ put K.eq self.old key item k) }
    {
        match self.map.get_mut(&key) {
            Some(items) => {
                items.push(item)?;
                Ok(())
            }
            None => {
                let mut items = Vec::new(alloc);
                items.push(item)?;
                self.map.insert(key, items)?;
                Ok(())
            }
        }
    }

    // The items of a key.
    pub(crate) fn get(&self, key: K) -> &[T]
        ensures { result.now ≡ found K.eq self.now key }
    {
        match self.map.get(&key) {
            Some(items) => items.as_slice(),
            None => &[],
        }
    }
}
