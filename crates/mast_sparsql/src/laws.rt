//! What the definitions promise by themselves: a law, which no code calls.
ghost use Rattle.mast_sparsql.specs.Lexing.{FileLaw};

/// The bytes of a file are tokens or have a first lexical breach, not both, and only one.
pub fn file_law()
    ensures { FileLaw }
{}
