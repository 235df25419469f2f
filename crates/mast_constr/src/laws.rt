//! What the definitions promise by themselves.
ghost use Rattle.mast_tree.specs.Seen.{Document};
ghost use Rattle.mast_terms.specs.Vocabularies.{Lists, IsVocabulary};
ghost use Rattle.mast_constr.specs.Whole.{ConstraintsLaw};

/// A document has constraints or a first breach, not both, and only one of it.
pub fn constraints_law()
    ensures { (doc : Document) (old : Lists) → IsVocabulary old → ConstraintsLaw doc old }
{}
