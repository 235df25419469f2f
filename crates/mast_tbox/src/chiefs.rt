//! The chiefs of properties: each stands for those that are equivalent to it.
ghost use Rattle.std.specs.Prelude.{◌≡◌, None, OnOk};
ghost use Rattle.mast_tbox.specs.inside.Chosen.{noted_chief, IsNoted, chief_of};
ghost use Rattle.mast_tbox.specs.declared.expression.Prop.{Prop};

use crate::Prop;
use crate::expression::prop_laws;
use indexmap::IndexMap;
use mast_terms::NoMemory;
use std::alloc::Global;
use std::marker::Model;

/// For some properties a chief. One that is not noted is its own. Contracts see the pairs of a property and its chief.
#[derive(Drop)]
pub(crate) struct Chiefs {
    map: IndexMap<Prop, Prop>,
}

impl Model for Chiefs {
    ghost use Rattle.std.specs.Prelude.{List};
    ghost use Rattle.mast_tbox.specs.declared.expression.Prop.{Prop};

    ghost Value = { List (Prop × Prop) };

    ghost view = { λ c. c.map.entries };
}

impl Chiefs {
    pub(crate) fn new(alloc: Global) -> Chiefs
        ensures { (p : Prop) → noted_chief result p ≡ None }
    {
        Chiefs {
            map: IndexMap::new(alloc),
        }
    }

    /// Notes the chief of a property.
    pub(crate) fn note(&mut self, prop: Prop, chief: Prop) -> Result<(), NoMemory>
        ensures { OnOk result (IsNoted prop chief self.old self.new) }
    {
        prop_laws();
        self.map.insert(prop, chief)?;
        Ok(())
    }

    /// The chief of a property.
    pub(crate) fn chief(&self, prop: Prop) -> Prop
        ensures { result ≡ chief_of self.now prop }
    {
        prop_laws();
        match self.map.get(&prop) {
            Some(found) => *found,
            None => prop,
        }
    }
}
