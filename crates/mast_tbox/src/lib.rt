//! Axioms and constraints, the normal inclusions, what is below an atom, and the restrictions.
//! What the crates above rest on: `normal` gives the normal inclusions, `down` all of `Down` of an atom, `restriction_breach`
//! the first breach. The words of its contracts stand in specs/Inclusions.antt, specs/Closure.antt, specs/Properties.antt and
//! specs/Restrictions.antt, those of its laws in specs/Laws.antt. What axioms and constraints over a vocabulary keep stands in
//! specs/Vocabularies.antt and specs/ConstraintForms.antt.
//! It must not know how documents are read, nor of facts, queries with several atoms, or the meaning of an inclusion.
#![tactic(auto)]

mod axiom;
mod chiefs;
mod components;
mod constraint;
mod down;
mod expression;
mod groups;
mod index;
mod laws;
mod name_chiefs;
mod name_links;
mod normal_inclusions;
mod prop_set;
mod restriction;
mod tbox;

pub use axiom::{Inclusion, Lined, Negative};
pub use constraint::{Constraint, Constraints, MOST_ATOMS, Step};
pub use expression::{Basic, Prop, RoleExpr, basic_laws, prop_laws};
pub use laws::{
    below_law, decided_law, down_law, link_law, member_law, number_law, one_breach_law,
    property_order_law, stated_law,
};
pub use normal_inclusions::{NormalTBox, normal};
pub use restriction::{RestrictionBreach, RestrictionKind, restriction_breach};
pub use tbox::{Ontology, TBox};
