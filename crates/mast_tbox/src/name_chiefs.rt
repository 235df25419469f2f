//! The chiefs of names: each stands for those that inclusions link. A name is written as a basic concept.
ghost use Rattle.std.specs.Prelude.{◌≡◌, None, OnOk};
ghost use Rattle.mast_tbox.specs.inside.Linking.{noted_for, IsNameNoted, name_chief};
ghost use Rattle.mast_tbox.specs.declared.expression.Basic.{Basic};

use crate::Basic;
use crate::expression::basic_laws;
use indexmap::IndexMap;
use mast_terms::NoMemory;
use std::alloc::Global;
use std::marker::Model;

/// For some names a chief. One that is not noted is its own. Contracts see the pairs of a name and its chief.
#[derive(Drop)]
pub(crate) struct NameChiefs {
    map: IndexMap<Basic, Basic>,
}

impl Model for NameChiefs {
    ghost use Rattle.std.specs.Prelude.{List};
    ghost use Rattle.mast_tbox.specs.declared.expression.Basic.{Basic};

    ghost Value = { List (Basic × Basic) };

    ghost view = { λ c. c.map.entries };
}

impl NameChiefs {
    pub(crate) fn new(alloc: Global) -> NameChiefs
        ensures { (n : Basic) → noted_for result n ≡ None }
    {
        NameChiefs {
            map: IndexMap::new(alloc),
        }
    }

    /// Notes the chief of a name.
    pub(crate) fn note(&mut self, name: Basic, chief: Basic) -> Result<(), NoMemory>
        ensures { OnOk result (IsNameNoted name chief self.old self.new) }
    {
        basic_laws();
        self.map.insert(name, chief)?;
        Ok(())
    }

    /// The chief that is noted for a name.
    pub(crate) fn noted(&self, name: Basic) -> Option<Basic>
        ensures { result ≡ noted_for self.now name }
    {
        basic_laws();
        self.map.get(&name).copied()
    }

    /// The chief of a name.
    pub(crate) fn chief(&self, name: Basic) -> Basic
        ensures { result ≡ name_chief self.now name }
    {
        match self.noted(name) {
            Some(chief) => chief,
            None => name,
        }
    }
}
