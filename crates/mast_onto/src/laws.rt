//! What the definitions promise by themselves.
ghost use Rattle.mast_terms.specs.Vocabularies.{Lists, IsVocabulary};
ghost use Rattle.mast_tree.specs.Seen.{Document};
ghost use Rattle.mast_onto.specs.Known.{HasKnownNames};
ghost use Rattle.mast_onto.specs.Ontologies.{OntologyLaw};

/// Over a vocabulary a document has an ontology or a first breach, not both, and only one of it. The vocabulary of an ontology
/// has each name of its axioms.
pub fn ontology_law()
    ensures outcome { (doc : Document) (old : Lists) → IsVocabulary old → OntologyLaw doc old }
    ensures names { (doc : Document) (old : Lists) → HasKnownNames doc old }
{}
