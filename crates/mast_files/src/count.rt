//! Counts that exist only in proofs: they take no memory, and no call at run time is made for them.
ghost use Rattle.std.specs.Prelude.{◌≡◌, ◌+◌, ℕ};
ghost use Rattle.std.specs.Borrow.{ftrue};

use std::fmt::{self, Debug, Formatter};
use std::marker::Model;

// How much a count grows.
#[derive(Clone, Copy, Drop)]
struct Growth {
    by: usize,
}

/// A count that has no end, from 0.
#[derive(Drop)]
pub(crate) struct Count {
    ghost number: { ℕ },
}

impl Model for Count {
    ghost also_owns = { λ _. ftrue };
}

impl Count {
    /// Nothing was counted yet.
    pub(crate) fn new() -> Count
        ensures { result.number ≡ 0 }
    {
        Count {}
    }

    // The count that has grown so much.
    #[inline(always)]
    fn with(&self, _growth: &Growth) -> Count
        ensures { result.number ≡ self.now.number + _growth.now.by }
    {
        Count {}
    }

    /// Counts so many more.
    pub(crate) fn grow(&mut self, by: usize)
        ensures { self.new.number ≡ self.old.number + by }
    {
        *self = self.with(&Growth { by });
    }
}

impl Debug for Count {
    fn fmt<W: fmt::Write>(&self, f: &mut Formatter<W>) -> fmt::Result {
        f.debug_struct("Count").finish()
    }
}
