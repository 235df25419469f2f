//! What tests of specifications share, itself without a test function, so that it is proved once: documents that are read one
//! after the other make a specification; and what the laws of worlds say of a world, of Kept and of facts as crates above have them.
//! That what their readers tell gives what `Spec::new` needs is proved in proofs/ReaderLemmas.antt.
#![tactic(auto)]

mod documents;
mod worlds;

pub use documents::{document, mappings_of, specification_of};
pub use worlds::{
    Everything, Members, facts_alone_have_a_model, kept_has_the_certain_answers, members_laws,
};
