//! Every printed line that more than one command has: facts, answers, conflicts, refusals, limits, read faults, usage.
//! What the crates above rest on: each call gives exactly the bytes of its text, whatever order its items come in.
//! In `specs/`, LineText has the text of a set of lines; FactLines, FactPlans, RefusalLines and Usage have the lines.
//! It must not know when a line is due, with which status a run ends, nor where its bytes go.
#![tactic(auto)]

mod answers;
mod cells;
mod conflicts;
mod document_lines;
mod fact_lines;
mod fact_plan;
mod file_lines;
mod laws;
mod line_plan;
mod line_set;
mod places;
mod refusals;
mod usage;

pub use answers::{answer_text, summary_text};
pub use conflicts::conflict_text;
pub use fact_lines::{Fact, facts_text};
pub use fact_plan::FactPlan;
pub use laws::{texts_are_one, tuples_have_lines};
pub use line_set::Lines;
pub use refusals::{EventKind, Refusal, refusal_text};
pub use usage::usage_text;
