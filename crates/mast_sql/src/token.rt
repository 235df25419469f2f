//! Tokens, and where none stands.

/// What a token is: a word, a prefixed name, a variable, an IRI in brackets, an integer, a text in single or in double
/// quotes, or a sign.
#[derive(Clone, Copy, Debug, PartialEq, Eq)]
pub enum SqlKind {
    Word,
    Pname,
    Var,
    Iri,
    Integer,
    Quoted,
    Doubled,
    Sign,
}

/// A token: the bytes of the text from `from` up to `to`, without `to`. Offsets count from 0.
#[derive(Clone, Copy, Debug, PartialEq, Eq)]
pub struct SqlToken {
    pub kind: SqlKind,
    pub from: u32,
    pub to: u32,
}

/// The first place where no token begins: the number of whole tokens before it.
#[derive(Clone, Copy, Debug, PartialEq, Eq)]
pub struct SqlLex {
    pub token: u32,
}
