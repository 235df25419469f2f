//! The calls on an object in memory: their number, the faults among them, and which of them fail.
ghost use Rattle.std.specs.Prelude.{◌≡◌};
ghost use Rattle.mast_files.specs.States.{next_count, is_failing};
ghost use Rattle.mast_files.specs.inside.Counts.{after_call};

/// The calls that were made, and the numbers of those that fail.
#[derive(Debug, Drop)]
pub(crate) struct Calls {
    pub(crate) failing: Vec<u64>,
    pub(crate) count: u64,
    pub(crate) faults: u64,
}

impl Calls {
    /// No call was made yet.
    pub(crate) fn new(failing: Vec<u64>) -> Calls
        ensures { result ≡ record { failing = failing; count = 0; faults = 0 } }
    {
        Calls {
            failing,
            count: 0,
            faults: 0,
        }
    }

    /// Whether the next call fails by its number. It counts the call, and the fault.
    pub(crate) fn next_fails(&mut self) -> bool
        ensures number { result ≡ is_failing self.old.failing.items self.old.count }
        ensures counted { self.new ≡ after_call self.old result }
    {
        let fails = self.failing.contains(&self.count);
        self.count = self.count.saturating_add(1);
        if fails {
            self.fault();
        }
        fails
    }

    /// Counts a fault.
    pub(crate) fn fault(&mut self)
        ensures { self.new ≡ record self.old { faults = next_count self.old.faults } }
    {
        self.faults = self.faults.saturating_add(1);
    }
}
