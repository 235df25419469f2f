//! Whether facts have a model: the check of the rows of tables, by violation queries.
//! What the crates above rest on: where no limit is met, a breach is found exactly where the facts have no model, and its rows break what
//! has its origin. The words of its contracts stand in specs/Limits.antt, Checks.antt and DecidedLaws.antt.
//! It must not know how documents are read, nor how rows are joined.
#![tactic(auto)]

mod all;
mod breach;
mod check;
mod checking;
mod judge;
mod laws;
mod limits;
mod possible;
mod violated;

pub use breach::{Breach, CheckLimit};
pub use check::{all_violations, first_violation};
pub use checking::Checking;
pub use laws::{decided_no_model_law, no_model_law};
pub use limits::violations_fit;
