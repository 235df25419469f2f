//! Kept: the kept interpretation of a specification and its tables, as a world.
ghost use Rattle.mast_cq.specs.Meanings.{InAttr, InClass, InRole};
ghost use Rattle.mast_canon.specs.Elements.{Named};
ghost use Rattle.mast_canon.specs.KeptMembers.{IsTrueInKept, kept_fill, kept_kind};

use crate::{Spec, Tables, World};

/// Kept of a specification and the facts of all rows of its tables: the facts that hold of kept elements. It is a world
/// wherever these facts have a model.
pub struct Kept<'a> {
    /// The specification.
    pub spec: &'a Spec,
    /// Its tables.
    pub tables: &'a Tables,
}

impl World for Kept<'_> {
    ghost class = { λ kept a e. IsTrueInKept kept.spec.now kept.tables.now.list (InClass a e) };

    ghost role = { λ kept p e f. IsTrueInKept kept.spec.now kept.tables.now.list (InRole p e f) };

    ghost attr = { λ kept u e v. IsTrueInKept kept.spec.now kept.tables.now.list (InAttr u e v) };

    ghost kind = { λ kept e. kept_kind kept.spec.now kept.tables.now.list e };

    ghost named = { λ kept t. Named t };

    ghost fill = { λ kept k e. kept_fill kept.spec.now kept.tables.now.list k e };
}
