//! Names in order, each found at once.
ghost use Rattle.std.specs.Prelude.{◌≡◌, [], ◌∷◌, ◌++◌, map, string_bytes, false, OnOk};
ghost use Rattle.mast_terms.specs.Vocabularies.{stands};

use indexmap::IndexSet;
use mast_terms::NoMemory;
use std::alloc::Global;
use std::marker::Model;

/// Different names. Contracts see the list of them.
#[derive(Drop)]
pub(crate) struct NameIndex {
    set: IndexSet<String>,
}

impl Model for NameIndex {
    ghost use Rattle.std.specs.Prelude.{List, ℕ, map, string_bytes};

    ghost Value = { List (List ℕ) };

    ghost view = { λ index. map string_bytes index.set.keys };
}

impl NameIndex {
    // No names.
    pub(crate) fn new(alloc: Global) -> NameIndex
        ensures { result ≡ [] }
    {
        NameIndex {
            set: IndexSet::new(alloc),
        }
    }

    // Whether a name is there.
    pub(crate) fn has(&self, name: &str) -> bool
        ensures { result ≡ stands name.now self.now }
    {
        is_in(&self.set, name)
    }

    // Puts a new name last.
    pub(crate) fn push(&mut self, alloc: Global, name: &str) -> Result<(), NoMemory>
        requires { stands name.now self.old ≡ false }
        ensures { OnOk result (self.new ≡ self.old ++ name.now ∷ []) }
    {
        put_last(&mut self.set, alloc, name)
    }
}

// Whether a name is in a set.
fn is_in(set: &IndexSet<String>, name: &str) -> bool
    ensures { result ≡ stands name.now (map string_bytes set.now.keys) }
{
    set.contains(name)
}

// Puts a new name last.
fn put_last(set: &mut IndexSet<String>, alloc: Global, name: &str) -> Result<(), NoMemory>
    requires { stands name.now (map string_bytes set.old.keys) ≡ false }
    ensures { OnOk result (map string_bytes set.new.keys ≡ map string_bytes set.old.keys ++ name.now ∷ []) }
{
    set.insert(String::from_str(alloc, name)?)?;
    Ok(())
}
