//! What the definitions promise by themselves: laws, which no code calls.
ghost use Rattle.mast_tree.specs.Laws.{PrologueLaw, SpanLaw, TokenLaw, TreeLaw};

/// Tokens have a tree or a first breach of the grammar, not both, and only one.
pub fn tree_law()
    ensures { TreeLaw }
{}

/// A source has tokens or a first lexical breach.
pub fn token_law()
    ensures { TokenLaw }
{}

/// Tokens are slices of the source, in order, and the line of each is 1 and the line feeds before it.
pub fn span_law()
    ensures { SpanLaw }
{}

/// The items of a document have one table of prefixes up to the main node or one first breach, and not both.
pub fn prologue_law()
    ensures { PrologueLaw }
{}
