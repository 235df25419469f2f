//! The top call.
ghost use Rattle.std.specs.Prelude.{◌≡◌, ◌⊎◌, ◌<◌, IfOk};
ghost use Rattle.mast_files.specs.Causes.{Rose};
ghost use Rattle.mast_cli.specs.Run.{IsAnswer, IsNoAnswer, GivesFront, WritesText, WritesFaultLine, FaultsInPlace, WritesPart};
ghost use Rattle.mast_cli.specs.Run.{WritesSoundly, TellsText, bytes_of};
ghost use Rattle.mast_cli.specs.inside.Causes.{JudgedHasCause};
ghost use Rattle.mast_cli.specs.inside.Telling.{TellsRun, WhenTold};

use crate::command::check::judge_check;
use crate::command::facts::judge_facts;
use crate::judged::Judged;
use crate::status::Status;
use crate::words::{Task, Usage, read_words};
use mast_files::{Files, Sink, SoundFiles, SoundSink, write_all_of};
use mast_terms::{NoMemory, Stop};
use mast_write::usage_text;
use std::alloc::Global;
use std::thread::Threads;

/// Does what the words ask for: reads `files`, and writes the answer's text to `sink`.
///
/// The text is built whole before the first byte is written. So on NoMemory nothing is written, and a
/// WriteFault leaves a prefix of the text that was to be written.
pub fn run<Rt: Threads + Sync, F: Files, S: Sink>(
    rt: &Rt,
    alloc: Global,
    words: &[String],
    files: &mut F,
    sink: &mut S,
) -> Status
    // An answer is that of the definitions, and the sink was given exactly its text.
    ensures outcome { WritesText words.now (F.contents files.old) result (S.writing sink.old) (S.writing sink.new) }

    // No fault came then.
    ensures no_read_fault { IsAnswer result → F.faults files.new ≡ F.faults files.old }
    ensures no_write_fault { IsAnswer result → S.faults sink.new ≡ S.faults sink.old }

    // A read fault comes only where the count of the files' faults rose; the sink was given exactly its line.
    ensures read_fault { result ≡ Status.ReadFault → Rose (F.faults files.old) (F.faults files.new) }
    ensures read_fault_line { WritesFaultLine (F.reading files.new) result (S.writing sink.old) (S.writing sink.new) }

    // Its file is one that the run judges, and no event stands at an earlier place.
    ensures read_fault_place { FaultsInPlace words.now (F.contents files.old) (F.reading files.new) result }

    // A write fault comes only where the count of the sink's faults rose.
    ensures write_fault { result ≡ Status.WriteFault → Rose (S.faults sink.old) (S.faults sink.new) }

    // What went out is a front of the text that was to be written.
    ensures write_fault_text { let rose = Rose (F.faults files.old) (F.faults files.new) in
        let front = GivesFront (S.writing sink.old) (S.writing sink.new) in
        WritesPart words.now (F.contents files.old) (F.reading files.new) rose front result }

    // Without memory nothing is written.
    ensures no_memory { result ≡ Status.NoMemory → S.writing sink.new ≡ S.writing sink.old }

    // A fault of the files is told.
    ensures told { F.faults files.old < F.faults files.new → IsNoAnswer result }
{
    match judge(rt, alloc, words, files) {
        Ok(judged) => match write_all_of(sink, &judged.text) {
            Ok(()) => judged.status,
            Err(_) => Status::WriteFault,
        },
        Err(NoMemory) => Status::NoMemory,
    }
}

/// Over objects in memory that never fail, each run that has memory answers by the definitions: no fault can come.
pub fn run_sound<Rt: Threads + Sync>(
    rt: &Rt,
    alloc: Global,
    words: &[String],
    files: &mut SoundFiles,
    sink: &mut SoundSink,
) -> Status
    ensures complete { (result ≡ Status.NoMemory) ⊎ IsAnswer result }
    ensures outcome { WritesSoundly words.now files.old result sink.old sink.new }

    // Where the sink has room for the text, the text is told.
    ensures told { TellsText words.now files.old result sink.old sink.new }

    // Without memory nothing is written.
    ensures no_memory { result ≡ Status.NoMemory → sink.new.written ≡ sink.old.written }
{
    run(rt, alloc, words, files, sink)
}

// The status and the text of a run, but for faults of the sink.
fn judge<Rt: Threads + Sync, F: Files>(
    rt: &Rt,
    alloc: Global,
    words: &[String],
    files: &mut F,
) -> Result<Judged, NoMemory>
    ensures told { IfOk result (WhenTold (F.contents files.old) (TellsRun (bytes_of words.now) (F.reading files.new))) }
    ensures kept { F.contents files.new ≡ F.contents files.old }
    ensures cause { IfOk result (JudgedHasCause (F.faults files.old) (F.faults files.new) (F.reading files.new)) }
{
    match read_words(alloc, words) {
        Ok(Task::Facts { mappings }) => judge_facts(alloc, mappings.as_str(), files),
        Ok(
            Task::Check {
                ontology,
                constraints,
                mappings,
                workers,
            },
        ) => judge_check(
            rt,
            alloc,
            ontology.as_str(),
            constraints.as_str(),
            mappings.as_str(),
            workers,
            files,
        ),
        Err(Stop::Named(Usage)) => Ok(Judged {
            status: Status::Usage,
            text: usage_text(alloc)?,
        }),
        Err(Stop::NoMemory) => Err(NoMemory),
    }
}
