//! The prefixes of the PREFIX lines of a query.
ghost use Rattle.std.specs.Prelude.{◌≡◌, ◌++◌, ◌∷◌, [], false, map, IfOk, OnOk};
ghost use Rattle.mast_terms.specs.Vocabularies.{stands};
ghost use Rattle.mast_sparsql.specs.inside.Lines.{items_of};

use indexmap::IndexSet;
use mast_terms::NoMemory;
use std::alloc::Global;
use std::marker::Model;

/// Different prefixes, each with its colon. Contracts see the list of them.
#[derive(Drop)]
pub(crate) struct Lines {
    set: IndexSet<Vec<u8>>,
}

impl Model for Lines {
    ghost use Rattle.std.specs.Prelude.{List, ℕ, map};
    ghost use Rattle.mast_sparsql.specs.inside.Lines.{items_of};

    ghost Value = { List (List ℕ) };

    ghost view = { λ lines. map items_of lines.set.keys };
}

fn has(set: &IndexSet<Vec<u8>>, prefix: &[u8]) -> bool
    ensures { result ≡ stands prefix.now (map items_of set.now.keys) }
{
    set.contains(prefix)
}

fn put(set: &mut IndexSet<Vec<u8>>, alloc: Global, prefix: &[u8]) -> Result<(), NoMemory>
    requires { stands prefix.now (map items_of set.old.keys) ≡ false }
    ensures { OnOk result (map items_of set.new.keys ≡ map items_of set.old.keys ++ prefix.now ∷ []) }
{
    set.insert(Vec::from_slice(alloc, prefix)?)?;
    Ok(())
}

impl Lines {
    pub(crate) fn new(alloc: Global) -> Lines
        ensures { result ≡ [] }
    {
        Lines {
            set: IndexSet::new(alloc),
        }
    }

    pub(crate) fn has(&self, prefix: &[u8]) -> bool
        ensures { result ≡ stands prefix.now self.now }
    {
        has(&self.set, prefix)
    }

    /// Puts a new prefix behind the others.
    pub(crate) fn put(&mut self, alloc: Global, prefix: &[u8]) -> Result<(), NoMemory>
        requires { stands prefix.now self.old ≡ false }
        ensures { OnOk result (self.new ≡ self.old ++ prefix.now ∷ []) }
    {
        put(&mut self.set, alloc, prefix)
    }
}
