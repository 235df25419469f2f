//! Whether facts have a model, asked of one specification as often as is wanted.
ghost use Rattle.std.specs.Prelude.{◌≡◌, ◌≤◌, length, IfOk};
ghost use Rattle.std.specs.Option.{IfSome, option_copied};
ghost use Rattle.mast_canon.specs.Fitting.{Fits};
ghost use Rattle.mast_check.specs.Checks.{AreAllBreaches, AreRowsOf, IsOfFirst, TellsModel};
ghost use Rattle.mast_check.specs.Limits.{MeetsNoLimit};

use crate::Breach;
use crate::all::all_of_all;
use crate::limits::listed;
use crate::possible::Possible;
use crate::violated::first_of_all;
use mast_canon::{RowId, Spec, Tables};
use mast_join::{Extensions, Wanted, unfolder_of};
use mast_terms::{List, NameKind, NoMemory};
use mast_unfold::Unfolder;
use mast_violate::Violation;
use std::alloc::Global;
use std::marker::Model;
use std::thread::Threads;

/// What is made once of a specification that meets no limit, so that it may be asked often. Contracts see the specification.
#[derive(Drop)]
pub struct Checking<'a> {
    spec: &'a Spec,
    unfolder: Unfolder<'a>,
    list: List<Violation>,
}

impl<'a> Model for Checking<'a> {
    ghost use Rattle.std.specs.Prelude.{◌≡◌};
    ghost use Rattle.mast_canon.specs.declared.spec.Spec.{Spec as Specification};
    ghost use Rattle.mast_check.specs.inside.Made.{IsMadeOf};

    ghost Value = { Specification };

    ghost view = { λ c. c.spec.now };

    ghost invariant = { λ c. IsMadeOf c.spec.now c.unfolder c.list };
}

impl<'a> Checking<'a> {
    /// What is made once of a specification. It judges no limit, so it makes no closure.
    pub fn new(alloc: Global, spec: &'a Spec) -> Result<Checking<'a>, NoMemory>
        requires fit { MeetsNoLimit spec.now }
        ensures { IfOk result (λ checking. checking ≡ spec.now) }
    {
        let Ok(list) = listed(alloc, spec) else {
            return Err(NoMemory);
        };
        Ok(Checking {
            spec,
            unfolder: unfolder_of(alloc, spec)?,
            list,
        })
    }

    /// A breach over all rows, or over those that are given, and none exactly where their facts have a model: that of the first
    /// violation of the list that has one, the same for every number of workers.
    pub fn first_violation<Rt: Threads + Sync>(
        &self,
        rt: &Rt,
        alloc: Global,
        tables: &Tables,
        only: Option<&[RowId]>,
        workers: usize,
    ) -> Result<Option<Breach>, NoMemory>
        requires workers { (1 ≤ workers) × (workers ≤ 16) }
        requires fits { Fits self.now.tables tables.now.list }
        requires rows { AreRowsOf tables.now.list (option_copied only) }
        ensures found { IfOk result (TellsModel self.now tables.now.list (option_copied only.entry)) }
        ensures first { IfOk result (λ found. IfSome found (IsOfFirst self.now tables.now.list (option_copied only.entry))) }
    {
        let _ = self.spec.vocab.len(NameKind::Class);
        let mut possible = Possible::new(alloc, only.is_some());
        let mut extensions = Extensions::new(
            alloc,
            self.spec,
            &self.unfolder,
            tables,
            only,
            Wanted::SomeHits,
        );
        let list = self.list.as_slice();
        first_of_all(
            rt,
            alloc,
            self.spec,
            &mut extensions,
            &mut possible,
            list,
            workers,
        )
    }

    /// Breaches over all rows: all rows whose facts have no model have one of them within.
    pub fn all_violations<Rt: Threads + Sync>(
        &self,
        rt: &Rt,
        alloc: Global,
        tables: &Tables,
        workers: usize,
    ) -> Result<List<Breach>, NoMemory>
        requires workers { (1 ≤ workers) × (workers ≤ 16) }
        requires fits { Fits self.now.tables tables.now.list }
        ensures { IfOk result (AreAllBreaches self.now tables.now.list) }
    {
        let _ = self.spec.vocab.len(NameKind::Class);
        let mut extensions = Extensions::new(
            alloc,
            self.spec,
            &self.unfolder,
            tables,
            None,
            Wanted::AllHits,
        );
        all_of_all(
            rt,
            alloc,
            self.spec,
            &mut extensions,
            self.list.as_slice(),
            workers,
        )
    }
}
