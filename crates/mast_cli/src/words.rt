//! The words after the program's name.
ghost use Rattle.std.specs.Prelude.{map, string_bytes, IfOk, Some};
ghost use Rattle.mast_cli.specs.Words as spec;
ghost use Rattle.mast_cli.specs.Words.{HasWorkers, TellsWords, check_task, facts_task};
ghost use Rattle.mast_cli.specs.inside.Arguments.{TellsTask};

use crate::arguments::{Arguments, read_arguments};
use mast_terms::{NoMemory, Stop, Text};
use std::alloc::Global;

/// What the words ask for.
#[derive(Debug, Drop)]
pub enum Task {
    /// Prints the facts of the rows of the mapping document's tables.
    Facts {
        mappings: Text,
    },
    /// Checks the tables against the ontology and the constraints, by up to so many workers.
    Check {
        ontology: Text,
        constraints: Text,
        mappings: Text,
        workers: usize,
    },
}

/// The words are no task.
#[derive(Clone, Copy, Debug, PartialEq, Eq, Drop)]
pub struct Usage;

/// The task of the words. The first word is the command.
///
/// The number of workers is from 1 to 16. Usage comes exactly where the words are no task. A command that is not there yet is no task.
pub fn read_words(alloc: Global, words: &[String]) -> Result<Task, Stop<Usage>>
    ensures told { TellsWords (map string_bytes words.now) result }
    ensures workers { IfOk result HasWorkers }
{
    task_in(alloc, words)
}

// The task of the words.
fn task_in(alloc: Global, words: &[String]) -> Result<Task, Stop<Usage>>
    ensures { TellsWords (map string_bytes words.now) result }
{
    match words {
        [] => Err(Stop::Named(Usage)),
        [command, words @ ..] => match read_arguments(alloc, words)? {
            Some(given) => task_named(alloc, command.as_str(), &given),
            None => Err(Stop::Named(Usage)),
        },
    }
}

// The task of a command with these arguments.
fn task_named(alloc: Global, command: &str, given: &Arguments) -> Result<Task, Stop<Usage>>
    ensures { TellsTask (spec.task_named command.now (Some given.now)) result }
{
    let files = given.files.as_slice();
    if command == "facts" {
        facts(alloc, given.workers, files)
    } else if command == "check" {
        check(alloc, given.workers, files)
    } else {
        Err(Stop::Named(Usage))
    }
}

// `facts` has one file and no option.
fn facts(alloc: Global, workers: Option<usize>, files: &[Text]) -> Result<Task, Stop<Usage>>
    ensures { TellsTask (facts_task workers files.now) result }
{
    match workers {
        None => match files {
            [mappings] => Ok(Task::Facts {
                mappings: mappings.copy(alloc)?,
            }),
            [] | [_, _, ..] => Err(Stop::Named(Usage)),
        },
        Some(_) => Err(Stop::Named(Usage)),
    }
}

// `check` has three files.
fn check(alloc: Global, workers: Option<usize>, files: &[Text]) -> Result<Task, Stop<Usage>>
    ensures { TellsTask (check_task workers files.now) result }
{
    match files {
        [ontology, constraints, mappings] => Ok(Task::Check {
            ontology: ontology.copy(alloc)?,
            constraints: constraints.copy(alloc)?,
            mappings: mappings.copy(alloc)?,
            workers: workers.unwrap_or(1),
        }),
        [] | [_] | [_, _] | [_, _, _, _, ..] => Err(Stop::Named(Usage)),
    }
}
