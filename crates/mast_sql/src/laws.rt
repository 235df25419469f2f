//! What the definitions promise by themselves: laws, which no code calls.
ghost use Rattle.mast_sql.specs.Laws.{QueryLaw, SpanLaw, TokenLaw};

/// A text has tokens or a first lexical breach, not both, and only one.
pub fn token_law()
    ensures { TokenLaw }
{}

/// Each token of a text is a slice of it that has the form of its kind.
pub fn span_law()
    ensures { SpanLaw }
{}

/// The tokens of a text are a source query or have a first breach of the grammar, not both, and only one.
pub fn query_law()
    ensures { QueryLaw }
{}
