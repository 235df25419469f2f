//! Tokens, and what is wrong where none stands.

/// What a token is: `(`, `)`, `=`, `^^`, `@` and a language, `<` an IRI `>`, a name, or a string in quotes.
#[derive(Clone, Copy, Debug, PartialEq, Eq)]
pub enum TokenKind {
    Open,
    Close,
    Equals,
    Carets,
    Lang,
    Iri,
    Name,
    Str,
}

/// A token: the bytes of the source from `from` up to `to`, without `to`. Lines are counted from 1, offsets from 0.
#[derive(Clone, Copy, Debug, PartialEq, Eq)]
pub struct Token {
    pub kind: TokenKind,
    pub from: u32,
    pub to: u32,
    pub line: u32,
}

/// Why bytes are no tokens.
#[derive(Clone, Copy, Debug, PartialEq, Eq)]
pub enum LexKind {
    /// A byte that begins no character.
    NotUtf8,
    /// A character that begins no token; `^` and `@` without their rest among them.
    Character,
    /// A quote that no quote closes.
    OpenString,
    /// A backslash in a string, before something else than a quote or a backslash.
    Escape,
    /// A `<` that no `>` closes, or before whose `>` a character stands that no IRI has.
    OpenIri,
}

/// The first lexical breach: the offset in bytes, from 0, and the kind.
#[derive(Clone, Copy, Debug, PartialEq, Eq)]
pub struct LexBreach {
    pub at: u32,
    pub kind: LexKind,
}
