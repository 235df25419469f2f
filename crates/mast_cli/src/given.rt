//! The program, but for the objects of the machine that `main` hands in.
ghost use Rattle.std.specs.Prelude.{◌≡◌, ◌<◌, drop, IfOk};
ghost use Rattle.mast_cli.specs.Given.{WantsMemory, given, left};
ghost use Rattle.mast_cli.specs.Run.{IsAnswer, IsNoAnswer, GivesFront, WritesText, WritesFaultLine, FaultsInPlace, WritesPart};
ghost use Rattle.mast_files.specs.Causes.{Rose};

use crate::status::Status;
use crate::top::run;
use mast_files::{Files, Sink};
use mast_terms::NoMemory;
use std::alloc::Global;
use std::env::Args;
use std::io;
use std::io::ErrorKind;
use std::thread::Threads;

/// What `run` does and answers on the words after the program's name, which is the first word that the machine gives.
///
/// Where the words can't be had as text, the answer is that of words that are no task. Where there was no memory for
/// them, it is NoMemory.
pub fn program<Rt: Threads + Sync, F: Files, S: Sink>(
    rt: &Rt,
    alloc: Global,
    words: io::Result<Args>,
    files: &mut F,
    sink: &mut S,
) -> Status
    // Without memory for the words nothing is written.
    ensures unread { WantsMemory words → result ≡ Status.NoMemory }

    // An answer is that of the definitions, and the sink was given exactly its text.
    ensures outcome { WritesText (given words) (F.contents files.old) result (S.writing sink.old) (S.writing sink.new) }

    // No fault came then.
    ensures no_read_fault { IsAnswer result → F.faults files.new ≡ F.faults files.old }
    ensures no_write_fault { IsAnswer result → S.faults sink.new ≡ S.faults sink.old }

    // A read fault comes only where the count of the files' faults rose; the sink was given exactly its line.
    ensures read_fault { result ≡ Status.ReadFault → Rose (F.faults files.old) (F.faults files.new) }
    ensures read_fault_line { WritesFaultLine (F.reading files.new) result (S.writing sink.old) (S.writing sink.new) }

    // Its file is one that the run judges, and no event stands at an earlier place.
    ensures read_fault_place { FaultsInPlace (given words) (F.contents files.old) (F.reading files.new) result }

    // A write fault comes only where the count of the sink's faults rose.
    ensures write_fault { result ≡ Status.WriteFault → Rose (S.faults sink.old) (S.faults sink.new) }

    // What went out is a front of the text that was to be written.
    ensures write_fault_text { let rose = Rose (F.faults files.old) (F.faults files.new) in
        let front = GivesFront (S.writing sink.old) (S.writing sink.new) in
        WritesPart (given words) (F.contents files.old) (F.reading files.new) rose front result }

    // Without memory nothing is written.
    ensures no_memory { result ≡ Status.NoMemory → S.writing sink.new ≡ S.writing sink.old }

    // A fault of the files is told.
    ensures told { F.faults files.old < F.faults files.new → IsNoAnswer result }
{
    match words {
        Ok(words) => match after_name(alloc, words) {
            Ok(words) => run(rt, alloc, &words, files, sink),
            Err(NoMemory) => Status::NoMemory,
        },
        Err(e) => match e.kind() {
            ErrorKind::OutOfMemory => Status::NoMemory,
            _ => run(rt, alloc, &[], files, sink),
        },
    }
}

// All words but the first.
fn after_name(alloc: Global, words: Args) -> Result<Vec<String>, NoMemory>
    ensures { IfOk result (λ after. after.items ≡ drop 1 (left words)) }
{
    let mut words = words;
    let _name = words.next();
    let mut after = Vec::new(alloc);
    for word in words {
        after.push(word)?;
    }
    Ok(after)
}
