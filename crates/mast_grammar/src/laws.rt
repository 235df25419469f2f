//! What the definitions promise by themselves: a law, which no code calls.
ghost use Rattle.mast_grammar.specs.Laws.{GrammarLaw};

/// Terminals are a query within the limits or have a first breach, not both, and only one.
pub fn grammar_law()
    ensures { GrammarLaw }
{}
