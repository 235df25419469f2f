//! Why a text is no query.

/// Why a text is no query. The last six are limits: a counted quantity is above its greatest number.
#[derive(Clone, Copy, Debug, PartialEq, Eq)]
pub enum QueryKind {
    /// No token stands there.
    Lex,
    /// No query goes on with the token.
    Grammar,
    /// A prefix that is not known, a class or a verb that the vocabulary does not have, or a literal's type that is none.
    UnknownName,
    /// A column that has no meaning, or a selected variable that some block does not hold.
    UnknownColumn,
    /// An alias that stands before in the same FROM, or a variable that is selected twice.
    DoubleName,
    /// A second sort for a variable, for a literal or for a column, or sides of different sorts.
    SortClash,
    /// A set operator whose sides have different numbers of columns.
    Width,
    /// A literal that its type does not accept.
    BadConstant,
    /// One parenthesis too many is open.
    Depth,
    /// One operator too many.
    Operators,
    /// One entry of a FROM too many.
    Entries,
    /// One block of a `sparqltable` too many.
    Disjuncts,
    /// One atom of a block too many.
    Atoms,
    /// One constant too many.
    Names,
}

/// The first breach of a query: the number of its token, from 0, and the kind.
#[derive(Clone, Copy, Debug, PartialEq, Eq)]
pub struct QueryBreach {
    pub token: u32,
    pub kind: QueryKind,
}
