//! What sources mean for extensions, as a law that no code calls.
ghost use Rattle.mast_join.specs.Extensions.{FitsOver, Over, SourcesGivePairs};

/// The extension of an atom, over the rows of tables that fit their declarations or over some of them, is what the atom's sources
/// give by choices of rows, source by source.
pub fn sources_give_extensions()
    ensures { (over : Over) → FitsOver over → SourcesGivePairs over }
{}
