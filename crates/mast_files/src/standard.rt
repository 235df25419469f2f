//! Standard output.
ghost use Rattle.std.specs.Prelude.{◌≡◌, ◌≤◌, ◌<◌, [], length, Some, IfOk};
ghost use Rattle.mast_files.specs.Causes.{Counts};
ghost use Rattle.mast_files.specs.Outside.{Puts};
ghost use Rattle.mast_files.specs.States.{StdSinkState, std_writing};
ghost use Rattle.mast_files.specs.Steps.{PutsOut};

use crate::os::Output;
use crate::{Failed, Sink};
use std::io::{Printer, writer};
use std::marker::Model;

/// Standard output, unbuffered. What it tells as written is what the system answered that it took.
/// Contracts see each call of the system with what it answered, and the count of faults.
/// To take nothing is a fault, and so is each error of the system.
#[derive(Drop)]
pub struct StdSink<'a, P: Print> {
    output: Output<Printer<'a, P>>,
    faults: u64,
}

impl<'a, P: Print> Model for StdSink<'a, P> {
    ghost use Rattle.mast_files.specs.States.{StdSinkState};

    ghost Value = { StdSinkState };

    ghost view = { λ s. record { writes = s.output.writes.calls; faults = s.faults } };
}

impl<'a, P: Print> StdSink<'a, P> {
    /// Nothing was taken and there was no fault yet.
    pub fn new(rt: &'a P) -> StdSink<'a, P>
        ensures made { result ≡ record { writes = []; faults = 0 } }
        ensures nothing { (⟦<StdSink<'a, P> as Sink>⟧.writing result).written ≡ Some [] }

        // What each state tells is what went through its calls, and its count of faults.
        ensures writing { (state : StdSinkState) → ⟦<StdSink<'a, P> as Sink>⟧.writing state ≡ std_writing state }
        ensures faults { (state : StdSinkState) → ⟦<StdSink<'a, P> as Sink>⟧.faults state ≡ state.faults }
    {
        StdSink {
            output: Output::new(writer(rt)),
            faults: 0,
        }
    }
}

impl<P: Print> Sink for StdSink<'_, P> {
    ghost writing = { std_writing };

    ghost faults = { λ s. s.faults };

    fn put(&mut self, piece: &[u8]) -> Result<usize, Failed>
        requires some { 0 < length piece.now }
        ensures exact { PutsOut self.old piece.now result self.new }
        ensures bytes { Puts (std_writing self.old) piece.now result (std_writing self.new) }
        ensures bound { IfOk result (λ n. (0 < n) × (n ≤ length piece.now)) }
        ensures cause { Counts self.old.faults self.new.faults result }
    {
        match self.output.write_again(piece) {
            Ok(count) if count > 0 => Ok(count),
            _ => {
                self.faults = self.faults.saturating_add(1);
                Err(Failed)
            }
        }
    }
}
