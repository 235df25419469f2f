//! A set of properties, in the order in which they were added.
ghost use Rattle.std.specs.Prelude.{◌≡◌, [], cond, false, length, slice_get, OnOk};
ghost use Rattle.indexmap.specs.IndexSet.{insert_key};
ghost use Rattle.mast_tbox.specs.Expressions.{same_prop};
ghost use Rattle.mast_tbox.specs.inside.Chosen.{is_in};
ghost use Rattle.mast_tbox.specs.declared.expression.Prop.{Prop};

use crate::Prop;
use crate::expression::prop_laws;
use indexmap::IndexSet;
use mast_terms::NoMemory;
use std::alloc::Global;
use std::marker::Model;

/// A set of properties. Contracts see their list, each once.
#[derive(Drop)]
pub(crate) struct PropSet {
    set: IndexSet<Prop>,
}

impl Model for PropSet {
    ghost use Rattle.std.specs.Prelude.{List};
    ghost use Rattle.mast_tbox.specs.declared.expression.Prop.{Prop};

    ghost Value = { List Prop };

    ghost view = { λ s. s.set.keys };
}

impl PropSet {
    pub(crate) fn new(alloc: Global) -> PropSet
        ensures { result ≡ [] }
    {
        PropSet {
            set: IndexSet::new(alloc),
        }
    }

    /// Adds a property, if it is not there yet.
    pub(crate) fn insert(&mut self, prop: Prop) -> Result<bool, NoMemory>
        ensures { OnOk result (self.new ≡ insert_key same_prop self.old prop) }
    {
        prop_laws();
        let added = self.set.insert(prop)?;
        Ok(added)
    }

    /// Takes a property out.
    pub(crate) fn remove(&mut self, prop: Prop)
        ensures { (p : Prop) → is_in p self.new ≡ cond (same_prop prop p) false (is_in p self.old) }
    {
        prop_laws();
        let _ = self.set.swap_remove(&prop);
    }

    pub(crate) fn contains(&self, prop: Prop) -> bool
        ensures { result ≡ is_in prop self.now }
    {
        prop_laws();
        self.set.contains(&prop)
    }

    /// The property at a place, from 0.
    pub(crate) fn get(&self, place: usize) -> Option<Prop>
        ensures { result ≡ slice_get self.now place }
    {
        self.set.get_index(place).copied()
    }

    pub(crate) fn len(&self) -> usize
        ensures { result ≡ length self.now }
    {
        self.set.len()
    }

    pub(crate) fn as_slice(&self) -> &[Prop]
        ensures { result.now ≡ self.now }
    {
        self.set.as_slice()
    }
}
