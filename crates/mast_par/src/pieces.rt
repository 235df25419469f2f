//! A list of pieces that is cut in two until there are as many parts as workers.
ghost use Rattle.std.specs.Prelude.{ℕ, ◌+◌, ◌<◌, ◌≤◌, ◌^◌, IfOk, length};
ghost use denote.Param.Send.{IsSend, IsSync};
ghost use Rattle.mast_par.specs.Pieces.{GivesAll, TakesAll};

use crate::Gate;
use mast_terms::{List, NoMemory};
use std::alloc::Global;
use std::thread::{Threads, join};

/// Calls `f` on each piece, by up to `workers` threads, and gives its answers in the order of the pieces.
///
/// The pieces are cut in two, and each half again, until there are as many parts as workers, or as pieces. Before the
/// call on a piece the gate is told its number. A piece that answers NoMemory makes the whole call answer so; the
/// other answers are dropped then. Where no thread can be started, its pieces are done by the caller.
pub fn each_piece<
    Rt: Threads + Sync,
    T: Sync,
    U: Send + Drop,
    F: Fn(&T) -> Result<U, NoMemory> + Sync,
    G: Gate + Sync,
>(
    rt: &Rt,
    alloc: Global,
    pieces: &[T],
    workers: usize,
    f: &F,
    gate: &G,
) -> Result<List<U>, NoMemory>
    requires workers { (1 ≤ workers) × (workers ≤ 16) }
    requires takes { TakesAll F.Fn f.now pieces.now }
    ensures { IfOk result (λ answers. GivesAll F.Fn f.now pieces.now answers) }
{
    let answers = answers_from(rt, alloc, 0, pieces, workers, f, gate)?;
    Ok(List::from_vec(answers))
}

// The answers of the pieces from number `first` on.
#[cycle(answers)]
fn answers_from<
    Rt: Threads + Sync,
    T: Sync,
    U: Send + Drop,
    F: Fn(&T) -> Result<U, NoMemory> + Sync,
    G: Gate + Sync,
>(
    rt: &Rt,
    alloc: Global,
    first: usize,
    pieces: &[T],
    workers: usize,
    f: &F,
    gate: &G,
) -> Result<Vec<U>, NoMemory>
    requires room { first + length pieces.now < 2 ^ 64 }
    requires workers { workers ≤ 16 }
    requires takes { TakesAll F.Fn f.now pieces.now }
    ensures { IfOk result (λ answers. GivesAll F.Fn f.now pieces.now answers.items) }
{
    let parts = workers.min(pieces.len());
    if parts < 2 {
        return answers_in_turn(alloc, first, pieces, f, gate);
    }
    let few = parts / 2;
    let more = parts - few;
    let cut = share(pieces.len(), few, parts);
    let (low, high) = pieces.split_at(cut);
    let next = first + cut;
    let front = move || -> Result<Vec<U>, NoMemory>
        requires sends { IsSync Rt.row × IsSync F.row × IsSync G.row × IsSync T.row × IsSend U.row }
        requires room { first + length low.now < 2 ^ 64 }
        requires workers { few ≤ 16 }
        requires takes { TakesAll F.Fn f.now low.now }
        ensures { IfOk result (λ answers. GivesAll F.Fn f.entry.now low.entry.now answers.items) }
    { answers_from(rt, alloc, first, low, few, f, gate) };
    let back = move || -> Result<Vec<U>, NoMemory>
        requires sends { IsSync Rt.row × IsSync F.row × IsSync G.row × IsSync T.row × IsSend U.row }
        requires room { next + length high.now < 2 ^ 64 }
        requires workers { more ≤ 16 }
        requires takes { TakesAll F.Fn f.now high.now }
        ensures { IfOk result (λ answers. GivesAll F.Fn f.entry.now high.entry.now answers.items) }
    { answers_from(rt, alloc, next, high, more, f, gate) };
    let (answers, others) = join(rt, front, back);
    let mut all = answers?;
    let mut rest = others?;
    all.append(&mut rest)?;
    Ok(all)
}

// How many pieces so few of the workers take, where each takes about as many as another.
fn share(pieces: usize, few: usize, workers: usize) -> usize
    requires some { 0 < workers }
    requires most { workers ≤ 16 }
    requires few { few ≤ workers }
    ensures { result ≤ pieces }
{
    let each = pieces / workers;
    let left = pieces % workers;
    each * few + left * few / workers
}

// The answers of the pieces from number `first` on, one call after the other.
fn answers_in_turn<T, U: Drop, F: Fn(&T) -> Result<U, NoMemory>, G: Gate>(
    alloc: Global,
    first: usize,
    pieces: &[T],
    f: &F,
    gate: &G,
) -> Result<Vec<U>, NoMemory>
    requires room { first + length pieces.now < 2 ^ 64 }
    requires takes { TakesAll F.Fn f.now pieces.now }
    ensures { IfOk result (λ answers. GivesAll F.Fn f.now pieces.now answers.items) }
{
    let mut answers = Vec::with_capacity(alloc, pieces.len())?;
    for (at, piece) in pieces.iter().enumerate() {
        gate.begin(first + at);
        answers.push(f(piece)?)?;
    }
    Ok(answers)
}
