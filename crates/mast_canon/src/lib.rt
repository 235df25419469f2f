//! Facts of tables with their supports, specifications, and what answers mean: certain answers, no model, worlds.
//! What the crates above rest on: which facts the rows of tables give, by which rows; what holds of every `Spec`; the laws.
//! The words are defined in specs/Choices.antt, Facts.antt and Conditions.antt, and from Elements.antt to KeptWorlds.antt.
//! It must not know how documents, tables and queries are read, nor how facts are found or printed.
#![tactic(auto)]

mod columns;
mod kept;
mod laws;
mod making;
mod origin;
mod rows;
mod spec;
mod world;

pub use columns::{Place, output_place, place_of, table_number};
pub use kept::Kept;
pub use laws::{
    conflict_law, decided_kept_law, decided_models_law, decided_world_law, growth_law, kept_law,
    models_law, normal_law, split_law, support_law, through_law, world_law,
};
pub use origin::{Ground, Origin};
pub use rows::{RowId, Tables, row_laws};
pub use spec::Spec;
pub use world::World;
