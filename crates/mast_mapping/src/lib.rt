//! Mappings: which rows of which tables give members of classes, fillers of roles and values of attributes.
//! The crates above rest on `read_mappings`: it gives a document's tables and maps, or the document's first breach.
//! The words of its contracts stand in `specs/`: Documents, and for its parts Declarations, Maps, Queries, Heads; Split.
//! It must not know of facts and rows, of axioms and constraints, nor how a refusal is printed.
#![tactic(auto)]

mod copies;
mod declarations;
mod doc_reader;
mod heads;
mod kind_index;
mod laws;
mod map;
mod name_index;
mod reader;
mod sources;
mod split_map;
mod table_index;

pub use laws::{mappings_law, reading_law};
pub use map::{Head, Map, Mappings, Slot, Template};
pub use reader::read_mappings;
pub use split_map::{SplitMap, split};
