//! How a run ends.
ghost use Rattle.std.specs.Prelude.{◌≡◌};
ghost use Rattle.mast_cli.specs.Codes.{code_of};
ghost use Rattle.mast_cli.specs.Limits as spec;

use mast_write::{EventKind, Refusal};

/// How a run ends. Each status has a code, with which the program ends.
#[derive(Clone, Copy, Debug, PartialEq, Eq)]
pub enum Status {
    /// The text of the command was written.
    Done,
    /// The words are no task.
    Usage,
    /// The first event in the order of the run is a breach.
    Refused,
    /// The facts of all rows have no model, and nothing came before.
    Conflict,
    /// The first event in the order of the run is a counted quantity above its number.
    Limit,
    /// A call on the current file has failed.
    ReadFault,
    /// The sink failed; a prefix of the text went out.
    WriteFault,
    /// There was no memory; nothing was written.
    NoMemory,
}

impl Status {
    /// The code with which the program ends: 0 to 7.
    pub fn code(self) -> u8
        ensures { result ≡ code_of self }
    {
        match self {
            Status::Done => 0,
            Status::Usage => 1,
            Status::Refused => 2,
            Status::Conflict => 3,
            Status::Limit => 4,
            Status::ReadFault => 5,
            Status::WriteFault => 6,
            Status::NoMemory => 7,
        }
    }

    /// The status of a run that ends at this event, or with this read fault.
    pub fn of(event: &Refusal) -> Status
        ensures { result ≡ spec.status_of event.now }
    {
        match event.event_kind() {
            EventKind::Refused => Status::Refused,
            EventKind::Limit => Status::Limit,
            EventKind::ReadFault => Status::ReadFault,
        }
    }
}
