//! The top call of Mastro: facts of tables, and whether they contradict an ontology, by the words of the command line.
//! The program rests on this: `program` answers what its words and its files' contents call for, and writes just that.
//! In `specs/`, `Run` has what a run owes, `Outcome` what it may answer; the files that these name define the rest.
//! It alone knows words, stages and statuses. It must not know which machine its files and its sink stand on.
#![tactic(auto)]

mod arguments;
mod command;
mod document;
mod file;
mod given;
mod judged;
mod laws;
mod limits;
mod specification;
mod status;
mod tables;
mod top;
mod words;

pub use given::program;
pub use laws::outcomes_are_one;
pub use status::Status;
pub use top::{run, run_sound};
pub use words::{Task, Usage, read_words};
