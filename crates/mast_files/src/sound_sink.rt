//! A sink in memory that never fails.
ghost use Rattle.std.specs.Prelude.{◌≡◌, [], Some, IfOk};
ghost use Rattle.std.specs.Option.{option_map};
ghost use Rattle.mast_files.specs.States.{SoundSinkState, sound_writing};
ghost use Rattle.mast_files.specs.Steps.{PutsSoundly};

use crate::{Failed, Sink};
use mast_terms::NoMemory;
use std::alloc::Global;
use std::marker::Model;

/// A sink in memory that takes each piece whole and never fails. It tells all that was written
/// while that is at most its room, and nothing from then on. Its count of faults is 0 at all times.
#[derive(Debug, Drop)]
pub struct SoundSink {
    bytes: Vec<u8>,
    room: usize,
    told: bool,
}

impl Model for SoundSink {
    ghost use Rattle.std.specs.Prelude.{◌≤◌, vec_len, vec_capacity, if◌then◌else◌, Some, None};
    ghost use Rattle.mast_files.specs.States.{SoundSinkState};

    ghost Value = { SoundSinkState };

    ghost view = { λ s. record { written = if s.told then Some s.bytes.items else None; room = s.room } };

    ghost invariant = { λ s. (vec_len s.bytes ≤ s.room) × (s.room ≤ vec_capacity s.bytes) };
}

impl SoundSink {
    /// Reserves `room` bytes.
    pub fn new(alloc: Global, room: usize) -> Result<SoundSink, NoMemory>
        ensures made { IfOk result (λ sink. sink ≡ record { written = Some []; room = room }) }

        // What each state tells is just in its fields.
        ensures writing { (state : SoundSinkState) → ⟦<SoundSink as Sink>⟧.writing state ≡ sound_writing state }
        ensures never_fails { (state : SoundSinkState) → ⟦<SoundSink as Sink>⟧.faults state ≡ 0 }
    {
        Ok(SoundSink {
            bytes: Vec::with_capacity(alloc, room)?,
            room,
            told: true,
        })
    }

    /// All that was written, while that is at most the room.
    pub fn written(&self) -> Option<&[u8]>
        ensures { option_map (λ bytes. bytes.now) result ≡ self.now.written }
    {
        if self.told { Some(&self.bytes) } else { None }
    }
}

impl Sink for SoundSink {
    ghost writing = { sound_writing };

    ghost faults = { λ _. 0 };

    fn put(&mut self, piece: &[u8]) -> Result<usize, Failed>
        ensures exact { PutsSoundly self.old piece.now result self.new }
    {
        if self.told && piece.len() <= self.room - self.bytes.len() {
            self.bytes.extend_from_slice(piece).unwrap();
        } else {
            self.told = false;
        }
        Ok(piece.len())
    }
}
