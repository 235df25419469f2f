//! The numbers and the kinds of names.

/// The number of a name among those of its kind. A `Vocabulary` gives the numbers, from 0 on.
#[derive(Clone, Copy, Debug, PartialEq, Eq, PartialOrd, Ord, Hash)]
pub struct Name(pub u32);

/// What a name names: a class, a role (between objects) or an attribute (from objects to values).
#[derive(Clone, Copy, Debug, PartialEq, Eq, PartialOrd, Ord, Hash)]
pub enum NameKind {
    /// A class.
    Class,
    /// A role, which OWL calls an object property.
    Role,
    /// An attribute, which OWL calls a data property.
    Attr,
}

/// Why a vocabulary does not add a name or a constant.
#[derive(Clone, Copy, Debug, PartialEq, Eq)]
pub enum AddRefusal {
    /// The IRI is to be a role and stands as an attribute, or the other way.
    TwoKinds,
    /// It is new, and 65,535 of its kind stand.
    Full,
}
