//! The axioms of an ontology document.
ghost use Rattle.std.specs.Prelude.{◌+◌, ◌≤◌, length};
ghost use Rattle.mast_tbox.specs.Numbers.{IsNumbered};

use crate::{Inclusion, Lined, Negative, Prop};
use mast_terms::{List, Vocabulary};

/// The axioms, in the order of the document. The existential inclusions are numbered from 0 in order, and the three
/// lists have together at most 1,000,000 items.
#[derive(Drop)]
pub struct TBox {
    /// The inclusions and the ranges.
    pub inclusions: List<Lined<Inclusion>>,
    /// The negatives.
    pub negatives: List<Lined<Negative>>,
    /// The properties that are functional.
    pub functional: List<Lined<Prop>>,
    pub ghost numbered: { IsNumbered inclusions },
    pub ghost bounded: { length inclusions + length negatives + length functional ≤ 1000000 },
}

/// An ontology: its axioms, with the names that they use.
#[derive(Drop)]
pub struct Ontology {
    /// The names of the ontology.
    pub vocab: Vocabulary,
    /// Its axioms.
    pub tbox: TBox,
}
