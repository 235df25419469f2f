//! What the words behind a command give: options and files.
ghost use Rattle.std.specs.Prelude.{◌≡◌, [], ◌∷◌, ◌++◌, map, string_bytes, IfOk, OnOk};
ghost use Rattle.mast_cli.specs.Words as spec;
ghost use Rattle.mast_cli.specs.Words.{arguments_of};
ghost use Rattle.mast_cli.specs.inside.Arguments.{TakesWord, TakesWorkers};

use mast_terms::{List, NoMemory, Text};
use std::alloc::Global;

/// What words give behind a command: the number of workers, if they say one, and the files in order.
#[derive(Debug, Drop)]
pub struct Arguments {
    pub workers: Option<usize>,
    pub files: List<Text>,
}

/// What a word is, by the words before it.
#[derive(Clone, Copy, Debug, PartialEq, Eq)]
pub enum Next {
    /// An option or a file.
    Any,
    /// The number of workers.
    Workers,
    /// A file, whatever it begins with.
    File,
}

/// What the words give. None, where something else stands among the options.
pub fn read_arguments(alloc: Global, words: &[String]) -> Result<Option<Arguments>, NoMemory>
    ensures { IfOk result (λ given. given ≡ arguments_of (map string_bytes words.now)) }
{
    let mut given = Arguments {
        workers: None,
        files: List::new(alloc),
    };
    let mut next = Next::Any;
    for word in words {
        match take_word(alloc, next, word.as_str(), &mut given)? {
            Some(then) => next = then,
            None => return Ok(None),
        }
    }
    match next {
        Next::Any => Ok(Some(given)),
        Next::Workers => Ok(None),
        Next::File => Ok(Some(given)),
    }
}

// Takes a word, and tells what the next one is; None, where the words are wrong with it.
fn take_word(
    alloc: Global,
    next: Next,
    word: &str,
    given: &mut Arguments,
) -> Result<Option<Next>, NoMemory>
    ensures { IfOk result (TakesWord next word.now given.old given.new) }
{
    match next {
        Next::Any => take_any(alloc, word, given),
        Next::Workers => Ok(take_workers(workers_in(word), given)),
        Next::File => {
            take_file(alloc, word, given)?;
            Ok(Some(Next::File))
        }
    }
}

// Takes an option or a file.
fn take_any(alloc: Global, word: &str, given: &mut Arguments) -> Result<Option<Next>, NoMemory>
    ensures { IfOk result (TakesWord Next.Any word.now given.old given.new) }
{
    if word == "--" {
        Ok(Some(Next::File))
    } else if word == "--workers" {
        Ok(Some(Next::Workers))
    } else if is_option(word) {
        Ok(take_workers(workers_of(word), given))
    } else {
        take_file(alloc, word, given)?;
        Ok(Some(Next::Any))
    }
}

// Takes a file.
fn take_file(alloc: Global, word: &str, given: &mut Arguments) -> Result<(), NoMemory>
    ensures workers { OnOk result (given.new.workers ≡ given.old.workers) }
    ensures files { OnOk result (given.new.files ≡ given.old.files ++ word.now ∷ []) }
{
    given.files.push(alloc, Text::from_str(alloc, word)?)?;
    Ok(())
}

// Takes the number of workers, which is said once at most.
fn take_workers(said: Option<usize>, given: &mut Arguments) -> Option<Next>
    ensures { TakesWorkers said given.old given.new result }
{
    let workers = said?;
    match given.workers {
        None => {
            given.workers = Some(workers);
            Some(Next::Any)
        }
        Some(_) => None,
    }
}

// Whether a word begins with `-` and is longer.
fn is_option(word: &str) -> bool
    ensures { result ≡ spec.is_option word.now }
{
    match word.as_bytes() {
        [] | [_] => false,
        [first, _, ..] => *first == b'-',
    }
}

// The number of workers that an option says by itself.
fn workers_of(word: &str) -> Option<usize>
    ensures { result ≡ spec.workers_of word.now }
{
    match word.as_bytes().strip_prefix(b"--workers=") {
        Some(value) => number(value),
        None => None,
    }
}

// The number of workers that a word is.
fn workers_in(word: &str) -> Option<usize>
    ensures { result ≡ spec.workers_in word.now }
{
    number(word.as_bytes())
}

// The number that bytes are, from 1 to 16.
fn number(bytes: &[u8]) -> Option<usize>
    ensures { result ≡ spec.workers_in bytes.now }
{
    match bytes {
        [] => None,
        [digit] => {
            if b'1' <= *digit && *digit <= b'9' {
                Some((*digit - b'0') as usize)
            } else {
                None
            }
        }
        [ten, digit] => {
            if *ten == b'1' && (b'0' <= *digit && *digit <= b'6') {
                Some(10 + (*digit - b'0') as usize)
            } else {
                None
            }
        }
        [_, _, _, ..] => None,
    }
}
