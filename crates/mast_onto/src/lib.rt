//! The ontology: its document read into axioms.
//! What the crates above rest on: `read_ontology` gives the axioms of a document, or its first breach. The words of its contract stand
//! in specs/Forms.antt, specs/Stated.antt and specs/Ontologies.antt.
//! It must not know of constraints, mappings and tables, nor what an axiom means.
#![tactic(auto)]

mod form;
mod laws;
mod node;
mod numbering;
mod ontology;
mod reader;
mod right;
mod statement;
mod statements;

pub use laws::ontology_law;
pub use ontology::read_ontology;
