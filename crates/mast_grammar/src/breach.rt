//! Why terminals are no query.

/// Why terminals are no query. All but the first are limits: a counted quantity is above its greatest number.
#[derive(Clone, Copy, Debug, PartialEq, Eq)]
pub enum GrammarKind {
    /// Some query begins with the terminals before, and none with this one as well.
    Grammar,
    /// One parenthesis too many is open.
    Depth,
    /// One operator too many.
    Operators,
    /// One entry of a FROM too many.
    Entries,
    /// One block of a `sparqltable` too many.
    Disjuncts,
    /// One atom of a block too many.
    Atoms,
}

/// The first breach: the number of its terminal, from 0, and the kind. At the end it is the number of terminals.
#[derive(Clone, Copy, Debug, PartialEq, Eq)]
pub struct GrammarBreach {
    pub at: u32,
    pub kind: GrammarKind,
}
