//! Files in memory that never fail.
ghost use Rattle.std.specs.Prelude.{◌≡◌};
ghost use Rattle.mast_files.specs.States.{SoundFilesState, sound_files, sound_contents, sound_reading};
ghost use Rattle.mast_files.specs.Steps.{StartsSoundly, ReadsSoundly};

use crate::count::Count;
use crate::store::Store;
use crate::{Failed, Files};
use mast_terms::{List, Stop, Text};
use std::alloc::Global;
use std::marker::Model;

/// Files in memory that never fail. They tell all content, and their count of faults is 0 at all times.
#[derive(Debug, Drop)]
pub struct SoundFiles {
    store: Store,
    starts: Count,
    taken: Count,
    current: Option<Text>,
}

impl Model for SoundFiles {
    ghost use Rattle.mast_files.specs.States.{SoundFilesState};

    ghost Value = { SoundFilesState };

    ghost view = { λ m. record {
      files = m.store.files;
      starts = m.starts.number;
      taken = m.taken.number;
      current = m.current;
      rest = m.store.rest;
    } };
}

impl SoundFiles {
    /// A name that `files` does not hold is empty. Where one stands twice, the first entry is its content.
    pub fn new(files: Vec<(Text, List<u8>)>) -> SoundFiles
        ensures made { result ≡ sound_files files.items }

        // What each state tells is just in its fields.
        ensures contents { (state : SoundFilesState) → ⟦<SoundFiles as Files>⟧.contents state ≡ sound_contents state }
        ensures reading { (state : SoundFilesState) → ⟦<SoundFiles as Files>⟧.reading state ≡ sound_reading state }
        ensures starts { (state : SoundFilesState) → ⟦<SoundFiles as Files>⟧.starts state ≡ state.starts }
        ensures taken { (state : SoundFilesState) → ⟦<SoundFiles as Files>⟧.taken state ≡ state.taken }
        ensures never_fails { (state : SoundFilesState) → ⟦<SoundFiles as Files>⟧.faults state ≡ 0 }
    {
        SoundFiles {
            store: Store::new(files),
            starts: Count::new(),
            taken: Count::new(),
            current: None,
        }
    }
}

impl Files for SoundFiles {
    ghost contents = { sound_contents };

    ghost reading = { sound_reading };

    ghost faults = { λ _. 0 };

    ghost starts = { λ m. m.starts };

    ghost taken = { λ m. m.taken };

    fn start(&mut self, alloc: Global, name: &str) -> Result<(), Stop<Failed>>
        ensures exact { StartsSoundly self.old name.now result self.new }
    {
        let text = Text::from_str(alloc, name)?;
        self.starts.grow(1);
        self.store.open(&text);
        self.current = Some(text);
        Ok(())
    }

    fn read(&mut self, buf: &mut [u8]) -> Result<usize, Failed>
        ensures exact { ReadsSoundly self.old buf.old result self.new buf.new }
    {
        let most = buf.len();
        let count = self.store.serve(buf, most);
        self.taken.grow(count);
        Ok(count)
    }
}
