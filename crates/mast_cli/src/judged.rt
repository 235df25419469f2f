//! What came of a part of a run.
ghost use Rattle.std.specs.Prelude.{IfOk};
ghost use Rattle.mast_cli.specs.inside.Telling.{JudgedAt, PartAt};

use crate::status::Status;
use mast_terms::{NoMemory, Text};
use mast_write::{Refusal, refusal_text};
use std::alloc::Global;

/// A status, and the text that is to be written with it.
#[derive(Debug, Drop)]
pub struct Judged {
    pub status: Status,
    pub text: Vec<u8>,
}

/// What came of a part of a run: what it read, or the event or fault that ends the run.
#[derive(Debug, Drop)]
pub enum Part<T> {
    Read(T),
    Ended(Judged),
}

/// The run ends at this event, or with this read fault: its status and its line.
pub fn judged_at(alloc: Global, event: &Refusal) -> Result<Judged, NoMemory>
    ensures { IfOk result (JudgedAt event.now) }
{
    Ok(Judged {
        status: Status::of(event),
        text: refusal_text(alloc, event)?,
    })
}

/// The same for a part of a run.
pub fn ended_at<T: Drop>(alloc: Global, event: Refusal) -> Result<Part<T>, NoMemory>
    ensures { IfOk result (PartAt event) }
{
    Ok(Part::Ended(judged_at(alloc, &event)?))
}

/// A call on the current file has failed: its line, with the file's name.
pub fn read_fault<T: Drop>(alloc: Global, file: &str) -> Result<Part<T>, NoMemory>
    ensures { IfOk result (PartAt (Refusal.ReadFault file.now)) }
{
    let file = Text::from_str(alloc, file)?;
    ended_at(alloc, Refusal::ReadFault { file })
}
