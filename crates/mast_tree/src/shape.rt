//! What is wrong with an item in its place.
ghost use Rattle.std.specs.Prelude.{◌≡◌};
ghost use Rattle.mast_terms.specs.declared.memory.Stop.TheVariants as stop;

use mast_terms::Stop;

/// Why a tree is no ontology, no constraints or no mappings. The last four are limits.
#[derive(Clone, Copy, Debug, PartialEq, Eq)]
pub enum ShapeKind {
    Shape,
    UnknownPrefix,
    TwoKinds,
    Datatype,
    NotDlLite,
    AssertionHere,
    TopOnLeft,
    BadConstant,
    SortClash,
    DoubleName,
    UnknownTable,
    UnknownColumn,
    KindClash,
    Sql { token: u32 },
    Names,
    Items,
    Atoms,
    Aliases,
}

/// The first breach of a document's rules: the line of the item's first token, from 1, and the kind.
#[derive(Clone, Copy, Debug, PartialEq, Eq)]
pub struct ShapeBreach {
    pub line: u32,
    pub kind: ShapeKind,
}

/// A breach of this kind at a line.
pub fn wrong(line: u32, kind: ShapeKind) -> Stop<ShapeBreach>
    ensures { result ≡ stop.Named (record { line = line; kind = kind }) }
{
    Stop::Named(ShapeBreach { line, kind })
}
