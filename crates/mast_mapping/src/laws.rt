//! What the definitions promise by themselves: laws, which no code calls.
ghost use Rattle.mast_mapping.specs.Documents.{MappingsLaw};
ghost use Rattle.mast_mapping.specs.Readings.{ReadingLaw};

/// Each text is one source query or has one first breach, and not both.
pub fn reading_law()
    ensures { ReadingLaw }
{}

/// Each document, over each vocabulary, has mappings or a first breach, not both, and only one.
pub fn mappings_law()
    ensures { MappingsLaw }
{}
