//! Files in memory, of which calls can be made to fail.
ghost use Rattle.std.specs.Prelude.{◌≡◌, ◌<◌, Some};
ghost use Rattle.std.specs.Io.KnownBytes.{ReadConsumes};
ghost use Rattle.mast_files.specs.Causes.{Counts, CountsStop};
ghost use Rattle.mast_files.specs.States.{MemFilesState, mem_files, mem_contents, mem_reading};
ghost use Rattle.mast_files.specs.Steps.{StartsInMemory, ReadsInMemory};

use crate::calls::Calls;
use crate::count::Count;
use crate::store::Store;
use crate::{Failed, Files};
use mast_terms::{List, Stop, Text};
use std::alloc::Global;
use std::marker::Model;

/// Files in memory, of which calls can be made to fail. They tell all content.
#[derive(Debug, Drop)]
pub struct MemFiles {
    store: Store,
    calls: Calls,
    starts: Count,
    taken: Count,
    most: usize,
    current: Option<Text>,
    failed: bool,
}

impl Model for MemFiles {
    ghost use Rattle.std.specs.Prelude.{◌<◌};
    ghost use Rattle.mast_files.specs.States.{MemFilesState};

    ghost Value = { MemFilesState };

    ghost view = { λ m. record {
      files = m.store.files;
      failing = m.calls.failing.items;
      most = m.most;
      calls = m.calls.count;
      faults = m.calls.faults;
      starts = m.starts.number;
      taken = m.taken.number;
      current = m.current;
      rest = m.store.rest;
      failed = m.failed;
    } };

    ghost invariant = { λ m. 0 < m.most };
}

impl MemFiles {
    /// The calls of `start` and `read` are numbered from 0. Those whose number stands in `failing` fail,
    /// and so does the start of a name that `files` does not hold. A read gives at most `most` bytes.
    /// Where a name stands twice in `files`, the first entry is its content.
    pub fn new(files: Vec<(Text, List<u8>)>, failing: Vec<u64>, most: usize) -> MemFiles
        requires some { 0 < most }
        ensures made { result ≡ mem_files files.items failing.items most }

        // What each state tells is just in its fields.
        ensures contents { (state : MemFilesState) → ⟦<MemFiles as Files>⟧.contents state ≡ mem_contents state }
        ensures reading { (state : MemFilesState) → ⟦<MemFiles as Files>⟧.reading state ≡ mem_reading state }
        ensures faults { (state : MemFilesState) → ⟦<MemFiles as Files>⟧.faults state ≡ state.faults }
        ensures starts { (state : MemFilesState) → ⟦<MemFiles as Files>⟧.starts state ≡ state.starts }
        ensures taken { (state : MemFilesState) → ⟦<MemFiles as Files>⟧.taken state ≡ state.taken }
    {
        MemFiles {
            store: Store::new(files),
            calls: Calls::new(failing),
            starts: Count::new(),
            taken: Count::new(),
            most,
            current: None,
            failed: false,
        }
    }

    /// How many calls there were. The number stays at 2^64 - 1 once it is there.
    pub fn calls(&self) -> u64
        ensures { result ≡ self.now.calls }
    {
        self.calls.count
    }
}

impl Files for MemFiles {
    ghost contents = { mem_contents };

    ghost reading = { mem_reading };

    ghost faults = { λ m. m.faults };

    ghost starts = { λ m. m.starts };

    ghost taken = { λ m. m.taken };

    fn start(&mut self, alloc: Global, name: &str) -> Result<(), Stop<Failed>>
        ensures exact { StartsInMemory self.old name.now result self.new }
        ensures cause { CountsStop self.old.faults self.new.faults result }
    {
        let text = Text::from_str(alloc, name)?;
        self.starts.grow(1);
        let fails = self.calls.next_fails();
        let holds = !fails && self.store.open(&text);
        if !fails && !holds {
            self.calls.fault();
        }
        self.current = Some(text);
        self.failed = !holds;
        if holds {
            Ok(())
        } else {
            Err(Stop::Named(Failed))
        }
    }

    fn read(&mut self, buf: &mut [u8]) -> Result<usize, Failed>
        ensures exact { ReadsInMemory self.old buf.old result self.new buf.new }
        ensures bytes { ReadConsumes (Some self.old.rest) (Some self.new.rest) result buf.new }
        ensures cause { Counts self.old.faults self.new.faults result }
    {
        if self.calls.next_fails() {
            self.failed = true;
            return Err(Failed);
        }
        let count = self.store.serve(buf, self.most);
        self.taken.grow(count);
        Ok(count)
    }
}
