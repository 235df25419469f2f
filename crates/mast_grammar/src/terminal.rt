//! Terminals: what the grammar sees of a token.

/// What the grammar sees of a token: a keyword, a name, a constant or a sign.
#[derive(Clone, Copy, Debug, PartialEq, Eq)]
pub enum Terminal {
    Select,
    Distinct,
    From,
    Where,
    As,
    And,
    Or,
    Not,
    Exists,
    Union,
    Except,
    Intersect,
    Prefix,
    Sparqltable,
    Date,
    /// The Word `a`, which is a name too.
    A,
    /// Any other Word that is no keyword.
    Name,
    Pname,
    /// A Pname behind PREFIX that ends with its colon, where no PREFIX line before has it.
    NewPrefix,
    Var,
    Iri,
    Integer,
    Quoted,
    Doubled,
    Open,
    Close,
    OpenBrace,
    CloseBrace,
    Comma,
    Dot,
    Semicolon,
    Equal,
    /// `<>` or `!=`.
    Differ,
    Carets,
    /// A sign that no query has.
    Other,
}
