//! Conjunctive queries: arguments, atoms, their order, sorts, unification and the normal form.
//! What the crates above rest on: `norm` gives the normal form, `unify` the unified query, and equal views are equal contents.
//! The words of its contracts stand in specs/: Queries, Sorts, NormalForms, Unification, Meanings, Steps and Origins.
//! It must not know of vocabularies, axioms, facts of tables, nor how a query is read.
#![tactic(auto)]

mod atom;
mod laws;
mod normal_form;
mod query;
mod sorts;
mod unifier;

pub use atom::{Arg, Atom, arg_laws, atom_laws};
pub use laws::{
    Truth, merge_origin_law, normal_form_law, normal_meaning_law, normal_origin_law, places_law,
    property_law, step_meaning_law, step_origin_law, unify_complete_law, unify_moves_law,
    unify_none_law, unify_sound_law, unify_winner_law,
};
pub use normal_form::norm;
pub use query::{Cq, CqRef, Ucq, query_laws, view_laws};
pub use sorts::{SortClash, sort_breach, sort_breach_law};
pub use unifier::{Binding, Bindings, Met, bindings_laws, meet, met_laws, unify};
