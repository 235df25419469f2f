//! The columns of a table, each found at once by its name.
ghost use Rattle.std.specs.Prelude.{◌≡◌, [], ◌∷◌, ◌++◌, None, false, option_copied, OnOk};
ghost use Rattle.mast_terms.specs.Vocabularies.{stands};
ghost use Rattle.mast_mapping.specs.inside.Declared.{names_of};
ghost use Rattle.mast_mapping.specs.inside.Indices.{shown, value_named};

use indexmap::IndexMap;
use mast_terms::{Kind, NoMemory};
use std::alloc::Global;
use std::marker::Model;

/// The kinds of columns with different names. Contracts see the list of names, each with its kind.
#[derive(Drop)]
pub(crate) struct KindIndex {
    kinds: IndexMap<String, Kind>,
}

impl Model for KindIndex {
    ghost use Rattle.std.specs.Prelude as p;
    ghost use Rattle.mast_terms.specs.declared.value.Kind.{Kind as AKind};
    ghost use Rattle.mast_mapping.specs.inside.Indices.{shown as shown_entries};

    ghost Value = { p.List (p.List p.ℕ × AKind) };

    ghost view = { λ index. shown_entries index.kinds.entries };
}

impl KindIndex {
    // No columns.
    pub(crate) fn new(alloc: Global) -> KindIndex
        ensures { result ≡ [] }
    {
        KindIndex {
            kinds: IndexMap::new(alloc),
        }
    }

    // The kind of the column of a name.
    pub(crate) fn kind(&self, name: &str) -> Option<Kind>
        ensures { result ≡ value_named name.now self.now }
    {
        find(&self.kinds, name).copied()
    }

    // Whether a column of a name is there.
    pub(crate) fn has(&self, name: &str) -> bool
        ensures { result ≡ stands name.now (names_of self.now) }
    {
        holds(&self.kinds, name)
    }

    // Puts a column with a new name last.
    pub(crate) fn push(&mut self, alloc: Global, name: &str, kind: Kind) -> Result<(), NoMemory>
        requires { stands name.now (names_of self.old) ≡ false }
        ensures { OnOk result (self.new ≡ self.old ++ (name.now, kind) ∷ []) }
    {
        put(&mut self.kinds, alloc, name, kind)
    }
}

// The kind of the column of a name.
fn find<'t>(kinds: &'t IndexMap<String, Kind>, name: &str) -> Option<&'t Kind>
    ensures { option_copied result ≡ value_named name.now (shown kinds.now.entries) }
{
    kinds.get(name)
}

// Whether a column of a name is there.
fn holds(kinds: &IndexMap<String, Kind>, name: &str) -> bool
    ensures { result ≡ stands name.now (names_of (shown kinds.now.entries)) }
{
    match find(kinds, name) {
        None => false,
        Some(_) => true,
    }
}

// Puts a column with a new name last.
fn put(
    kinds: &mut IndexMap<String, Kind>,
    alloc: Global,
    name: &str,
    kind: Kind,
) -> Result<(), NoMemory>
    requires { value_named name.now (shown kinds.old.entries) ≡ None }
    ensures { OnOk result (shown kinds.new.entries ≡ shown kinds.old.entries ++ (name.now, kind) ∷ []) }
{
    kinds.insert(String::from_str(alloc, name)?, kind)?;
    Ok(())
}
