//! What the definitions promise by themselves: laws, which no code calls.
ghost use Rattle.mast_source.specs.Laws.{EscapeLaw};

/// A text comes back of its escapes, and of what stands inside its quotes.
pub fn escape_law()
    ensures { EscapeLaw }
{}
