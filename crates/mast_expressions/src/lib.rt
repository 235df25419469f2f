//! What stands in the place of a class, a role, an attribute or a left side of a document.
//! The crates above rest on `Places`: each of its methods gives what stands in its place, or the first breach there.
//! In `specs/`, Judged has what is judged of an item in its place, and Given what the item gives.
//! It must not know what an axiom or a constraint is, nor what stands on a right side.
#![tactic(auto)]

mod places;

pub use places::Places;
