//! Where a contradiction comes from.
use mast_tree::DocName;

/// Why facts have no model.
#[derive(Clone, Copy, Debug, PartialEq, Eq)]
pub enum Ground {
    /// A term or a pair is in two disjoint expressions.
    Disjoint,
    /// A term is related to itself by an irreflexive role.
    Irreflexive,
    /// A value is not of the kind of a range.
    ValueType,
    /// A term has two values by a functional property.
    Functional,
    /// Two objects of an identified concept share an end on every path.
    Identify,
    /// The atoms of a denial hold.
    Deny,
}

/// An axiom or a constraint that facts break.
#[derive(Clone, Copy, Debug, PartialEq, Eq)]
pub struct Origin {
    /// Why they have no model.
    pub ground: Ground,
    /// The ontology, or the constraints.
    pub doc: DocName,
    /// The line of the axiom or of the constraint.
    pub line: u32,
}
