//! A sink in memory, of which calls can be made to fail.
ghost use Rattle.std.specs.Prelude.{◌≡◌, ◌<◌, ◌≤◌, length, IfOk};
ghost use Rattle.mast_files.specs.Causes.{Counts};
ghost use Rattle.mast_files.specs.States.{MemSinkState, mem_sink, mem_writing};
ghost use Rattle.mast_files.specs.Steps.{PutsInMemory};

use crate::calls::Calls;
use crate::{Failed, Sink};
use mast_terms::NoMemory;
use std::alloc::Global;
use std::marker::Model;

/// A sink in memory, of which calls can be made to fail. It tells all that was written.
#[derive(Debug, Drop)]
pub struct MemSink {
    bytes: Vec<u8>,
    calls: Calls,
    most: usize,
    room: usize,
}

impl Model for MemSink {
    ghost use Rattle.std.specs.Prelude.{◌<◌, ◌≤◌, vec_len, vec_capacity};
    ghost use Rattle.mast_files.specs.States.{MemSinkState};

    ghost Value = { MemSinkState };

    ghost view = { λ s. record {
      written = s.bytes.items;
      room = s.room;
      failing = s.calls.failing.items;
      most = s.most;
      calls = s.calls.count;
      faults = s.calls.faults;
    } };

    ghost invariant = { λ s. (0 < s.most) × (vec_len s.bytes ≤ s.room) × (s.room ≤ vec_capacity s.bytes) };
}

impl MemSink {
    /// Reserves `room` bytes. The calls of `put` are numbered from 0. A put fails exactly where its number
    /// stands in `failing` or no room is left; any other takes as many bytes as `most` and the room left allow.
    pub fn new(
        alloc: Global,
        failing: Vec<u64>,
        most: usize,
        room: usize,
    ) -> Result<MemSink, NoMemory>
        requires some { 0 < most }
        ensures made { IfOk result (λ sink. sink ≡ mem_sink failing.items most room) }

        // What each state tells is just in its fields.
        ensures writing { (state : MemSinkState) → ⟦<MemSink as Sink>⟧.writing state ≡ mem_writing state }
        ensures faults { (state : MemSinkState) → ⟦<MemSink as Sink>⟧.faults state ≡ state.faults }
    {
        Ok(MemSink {
            bytes: Vec::with_capacity(alloc, room)?,
            calls: Calls::new(failing),
            most,
            room,
        })
    }

    /// All that was written.
    pub fn written(&self) -> &[u8]
        ensures { result.now ≡ self.now.written }
    {
        &self.bytes
    }

    /// How many calls there were. The number stays at 2^64 - 1 once it is there.
    pub fn calls(&self) -> u64
        ensures { result ≡ self.now.calls }
    {
        self.calls.count
    }
}

impl Sink for MemSink {
    ghost writing = { mem_writing };

    ghost faults = { λ s. s.faults };

    fn put(&mut self, piece: &[u8]) -> Result<usize, Failed>
        requires some { 0 < length piece.now }
        ensures exact { PutsInMemory self.old piece.now result self.new }
        ensures bound { IfOk result (λ n. (0 < n) × (n ≤ length piece.now)) }
        ensures cause { Counts self.old.faults self.new.faults result }
    {
        if self.calls.next_fails() {
            return Err(Failed);
        }
        let left = self.room - self.bytes.len();
        if left == 0 {
            self.calls.fault();
            return Err(Failed);
        }
        let count = self.most.min(left.min(piece.len()));
        self.bytes.extend_from_slice(&piece[..count]).unwrap();
        Ok(count)
    }
}
