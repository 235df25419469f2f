//! Certain answers over one project.
ghost use Rattle.std.specs.Prelude.{◌≡◌, ◌≤◌, IfOk};
ghost use Rattle.mast_terms.specs.Answers.{Answers};
ghost use Rattle.mast_canon.specs.Fitting.{Fits};
ghost use Rattle.mast_join.specs.Extensions.{unfolding_by};
ghost use Rattle.mast_certain.specs.Answered.{AreBlocks, AreCertain, project_of};
ghost use Rattle.mast_certain.specs.LargeClosures.{IsFirstTooLarge, NoneIsTooLarge};

use crate::closures::TooManyIn;
use crate::tuples::answers_of;
use mast_canon::{Spec, Tables};
use mast_cq::Ucq;
use mast_join::{Extensions, Wanted, unfolder_of};
use mast_par::Gate;
use mast_terms::{List, Stop, Tuple};
use mast_unfold::Unfolder;
use std::alloc::Global;
use std::marker::Model;
use std::thread::Threads;

/// Answers queries over one project: a specification and its tables. The extensions of atoms that a query asked for are kept
/// for the queries after it, so ask all queries of a run here.
#[derive(Drop)]
pub struct Answering<'s, 'u, 't> {
    spec: &'s Spec,
    extensions: Extensions<'s, 'u, 't, 'static>,
}

impl<'s, 'u, 't> Model for Answering<'s, 'u, 't> {
    ghost use Rattle.mast_join.specs.declared.extensions.Wanted.TheVariants.{Tuples};
    ghost use Rattle.mast_certain.specs.Answered.{Project};
    ghost use Rattle.mast_certain.specs.inside.Found.{IsOverAll};

    ghost Value = { Project };

    ghost view = { λ a. record { spec = a.spec.now; tables = a.extensions.over.rows } };

    ghost invariant = { λ a. IsOverAll a.spec.now Tuples a.extensions };
}

impl<'s, 'u, 't> Answering<'s, 'u, 't> {
    /// No query was asked yet. The unfolder is that of the specification.
    pub fn new(
        alloc: Global,
        spec: &'s Spec,
        unfolder: &'u Unfolder<'s>,
        tables: &'t Tables,
    ) -> Answering<'s, 'u, 't>
        requires unfolder { unfolder.now ≡ unfolding_by spec.now }
        requires fits { Fits spec.now.tables tables.now.list }
        ensures { result ≡ project_of spec.now tables.now.list }
    {
        Answering {
            spec,
            extensions: Extensions::new(alloc, spec, unfolder, tables, None, Wanted::Tuples),
        }
    }

    /// The certain answers of the blocks of a query over the facts of all rows: sorted, each once. TooManyIn names the first
    /// block whose closure is too large, and comes exactly where there is one.
    ///
    /// The gate is told of each piece of a block: a slice of at most 4,096 rows of the extension that a member's join begins
    /// with. Nothing of the answers depends on the gate or on how many workers share the pieces.
    pub fn certain<Rt: Threads + Sync, G: Gate + Sync>(
        &mut self,
        rt: &Rt,
        alloc: Global,
        query: &Ucq,
        workers: usize,
        gate: &G,
    ) -> Result<List<Tuple>, Stop<TooManyIn>>
        requires blocks { AreBlocks self.old.spec query.now }
        requires workers { (1 ≤ workers) × (workers ≤ 16) }
        ensures same { self.new ≡ self.old }
        ensures answers { Answers result (AreCertain self.old query.now) (IsFirstTooLarge self.old.spec query.now) }
        ensures fits { IfOk result (λ _. NoneIsTooLarge self.old.spec query.now) }
    {
        answers_of(
            rt,
            alloc,
            self.spec,
            &mut self.extensions,
            query.as_slice(),
            workers,
            gate,
        )
    }
}

/// The certain answers of the blocks of a query over the facts of all rows: sorted, each once. TooManyIn names the first block
/// whose closure is too large, and comes exactly where there is one. Who asks several queries takes `Answering`.
pub fn certain<Rt: Threads + Sync, G: Gate + Sync>(
    rt: &Rt,
    alloc: Global,
    spec: &Spec,
    tables: &Tables,
    query: &Ucq,
    workers: usize,
    gate: &G,
) -> Result<List<Tuple>, Stop<TooManyIn>>
    requires fits { Fits spec.now.tables tables.now.list }
    requires blocks { AreBlocks spec.now query.now }
    requires workers { (1 ≤ workers) × (workers ≤ 16) }
    ensures answers { Answers result (AreCertain (project_of spec.now tables.now.list) query.now) (IsFirstTooLarge spec.now query.now) }
    ensures fits { IfOk result (λ _. NoneIsTooLarge spec.now query.now) }
{
    let unfolder = unfolder_of(alloc, spec)?;
    let mut answering = Answering::new(alloc, spec, &unfolder, tables);
    answering.certain(rt, alloc, query, workers, gate)
}
