//! The content of a file of a run.
ghost use Rattle.std.specs.Prelude.{◌≡◌, ◌<◌, ◌≤◌, length, IfOk};
ghost use Rattle.mast_cli.specs.Limits.{status_of};
ghost use Rattle.mast_cli.specs.Run.{IsAnswer};
ghost use Rattle.mast_cli.specs.inside.Causes.{PartHasCause};
ghost use Rattle.mast_cli.specs.inside.Telling.{IfRead, TellsContent, WhenTold};

use crate::judged::{Part, ended_at, read_fault};
use mast_files::{Files, ReadRefusal, read_all};
use mast_terms::{NoMemory, Stop};
use mast_write::Refusal;
use std::alloc::Global;

/// The content of a file, which may have at most so many bytes. Where it has more, the run ends at `too_long`.
pub fn read_file<F: Files>(
    alloc: Global,
    file: &str,
    most: u64,
    too_long: Refusal,
    files: &mut F,
) -> Result<Part<Vec<u8>>, NoMemory>
    requires small { most < 4294967295 }
    requires event { IsAnswer (status_of too_long) }
    ensures told { IfOk result (WhenTold (F.contents files.old)
        (TellsContent most too_long file.now (F.reading files.new))) }
    ensures within { IfOk result (IfRead (λ bytes. length bytes.items ≤ most)) }
    ensures kept { F.contents files.new ≡ F.contents files.old }
    ensures cause { IfOk result (PartHasCause (F.faults files.old) (F.faults files.new) (F.reading files.new)) }
{
    match read_all(alloc, files, file, most) {
        Ok(bytes) => Ok(Part::Read(bytes)),
        Err(Stop::Named(ReadRefusal::TooLong { .. })) => ended_at(alloc, too_long),
        Err(Stop::Named(ReadRefusal::Failed)) => read_fault(alloc, file),
        Err(Stop::NoMemory) => Err(NoMemory),
    }
}
