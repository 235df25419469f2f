//! Tests of mast_par: pieces run side by side, each is asked once, and callers can say what the answers are.
ghost use Rattle.std.specs.Prelude.{◌≡◌, ◌*◌, ◌<◌, All, IfOk, length, map, slice_index_or};
ghost use Rattle.std.specs.List.{AllZip};

use mast_par::{Gate, OpenGate, each_piece};
use mast_terms::{List, NoMemory};
use std::alloc::Global;
use std::sync::atomic::{AtomicBool, AtomicU64, Ordering};
use std::test::Fail;
use std::thread::Threads;

// Twice each piece. The answers are the map of the function that the closure gives.
#[tactic(auto, using(mast_par::proofs::PiecesLemmas::gives_map))]
fn doubled<Rt: Threads + Sync>(
    rt: &Rt,
    alloc: Global,
    pieces: &[u8],
    workers: usize,
) -> Result<List<u16>, NoMemory>
    ensures { IfOk result (λ answers. answers ≡ map (λ piece. 2 * piece) pieces.now) }
{
    let double = |piece: &u8| -> Result<u16, NoMemory> { Ok(2 * u16::from(*piece)) };
    each_piece(rt, alloc, pieces, workers.clamp(1, 16), &double, &OpenGate)
}

#[test]
fn answers_come_in_order_from_any_number_of_workers(rt: HostRuntime) -> Result<(), Fail> {
    let alloc = rt.alloc();
    for workers in [1, 2, 3, 16] {
        for count in [0u8, 1, 2, 5, 7, 100] {
            let mut pieces = Vec::new(alloc);
            let mut wanted = Vec::new(alloc);
            for piece in 0..count {
                pieces.push(piece)?;
                wanted.push(2 * u16::from(piece))?;
            }
            let answers = doubled(&rt, alloc, &pieces, workers)?;
            assert_eq!(rt; answers.as_slice(), wanted.as_slice());
        }
    }
    Ok(())
}

#[test]
fn seven_pieces_are_doubled(rt: HostRuntime) -> Result<(), Fail> {
    let answers = doubled(&rt, rt.alloc(), &[1, 2, 3, 4, 5, 6, 7], 3)?;
    assert_eq!(rt; answers.as_slice(), [2, 4, 6, 8, 10, 12, 14].as_slice());
    Ok(())
}

// The elements at these places. The closure needs something of a piece, and says something of it by what it borrows.
#[tactic(auto, using(mast_par::proofs::PiecesLemmas::gives_related))]
fn elements<Rt: Threads + Sync>(
    rt: &Rt,
    alloc: Global,
    all: &[u8],
    places: &[usize],
    workers: usize,
) -> Result<List<u8>, NoMemory>
    requires { All (λ place. place < length all.now) places.now }
    ensures { IfOk result (λ answers. AllZip (λ place answer. answer ≡ slice_index_or all.now place 0) places.now answers) }
{
    let element = |place: &usize| -> Result<u8, NoMemory>
        requires { place.now < length all.now }
        ensures { IfOk result (λ element. element ≡ slice_index_or all.entry.now place.entry.now 0) }
    { Ok(all[*place]) };
    each_piece(rt, alloc, places, workers.clamp(1, 16), &element, &OpenGate)
}

#[test]
fn pieces_are_places_of_a_list(rt: HostRuntime) -> Result<(), Fail> {
    let answers = elements(&rt, rt.alloc(), &[5, 6, 7], &[2, 0, 2], 2)?;
    assert_eq!(rt; answers.as_slice(), [7, 5, 7].as_slice());
    Ok(())
}

// The pieces, where none is 3.
fn unless_three<Rt: Threads + Sync>(
    rt: &Rt,
    alloc: Global,
    pieces: &[u8],
    workers: usize,
) -> Result<List<u8>, NoMemory> {
    let same = |piece: &u8| -> Result<u8, NoMemory> {
        if *piece == 3 {
            return Err(NoMemory);
        }
        Ok(*piece)
    };
    each_piece(rt, alloc, pieces, workers.clamp(1, 16), &same, &OpenGate)
}

#[test]
fn a_piece_without_memory_stops_all(rt: HostRuntime) -> Result<(), Fail> {
    for workers in [1, 2, 3, 16] {
        for pieces in [[3u8, 1, 2, 4], [1, 2, 4, 3], [1, 3, 3, 2]] {
            assert!(rt; unless_three(&rt, rt.alloc(), &pieces, workers).is_err());
        }
        assert!(rt; unless_three(&rt, rt.alloc(), &[1, 2, 4, 5], workers).is_ok());
    }
    Ok(())
}

// A piece says that it began, and waits for the other, for at most so many turns.
#[derive(Drop)]
struct Meeting {
    first: AtomicBool,
    second: AtomicBool,
    missed: AtomicBool,
}

const TURNS: u64 = 1_000_000_000;

impl Gate for Meeting {
    fn begin(&self, piece: usize) {
        if piece == 0 {
            self.meet(&self.first, &self.second);
        } else {
            self.meet(&self.second, &self.first);
        }
    }
}

impl Meeting {
    fn meet(&self, own: &AtomicBool, other: &AtomicBool) {
        own.store(true, Ordering::SeqCst);
        for _ in 0..TURNS {
            if other.load(Ordering::SeqCst) {
                return;
            }
        }
        self.missed.store(true, Ordering::SeqCst);
    }
}

#[test]
fn two_pieces_meet(rt: HostRuntime) -> Result<(), Fail> {
    let meeting = Meeting {
        first: AtomicBool::new(false),
        second: AtomicBool::new(false),
        missed: AtomicBool::new(false),
    };
    let same = |piece: &u8| -> Result<u8, NoMemory> { Ok(*piece) };
    let answers = each_piece(&rt, rt.alloc(), &[8, 9], 2, &same, &meeting)?;
    assert_eq!(rt; answers.as_slice(), [8, 9].as_slice());
    assert!(rt; meeting.first.load(Ordering::SeqCst) && meeting.second.load(Ordering::SeqCst));
    assert!(rt; !meeting.missed.load(Ordering::SeqCst));
    Ok(())
}

// How often the gate was told of each piece, how often each was asked, and how many were asked at one time.
#[derive(Drop)]
struct Tally {
    told: Vec<AtomicU64>,
    asked: Vec<AtomicU64>,
    busy: AtomicU64,
    most: AtomicU64,
}

impl Gate for Tally {
    fn begin(&self, piece: usize) {
        count(&self.told, piece);
    }
}

impl Tally {
    fn new(alloc: Global, pieces: usize) -> Result<Tally, NoMemory> {
        Ok(Tally {
            told: noughts(alloc, pieces)?,
            asked: noughts(alloc, pieces)?,
            busy: AtomicU64::new(0),
            most: AtomicU64::new(0),
        })
    }

    fn ask(&self, piece: usize) -> usize {
        count(&self.asked, piece);
        let busy = self.busy.fetch_add(1, Ordering::SeqCst).wrapping_add(1);
        self.most.fetch_max(busy, Ordering::SeqCst);
        for _ in 0..1000 {
            let _ = self.busy.load(Ordering::SeqCst);
        }
        self.busy.fetch_sub(1, Ordering::SeqCst);
        piece
    }

    // Whether the gate was told of each piece once and each was asked once, by at most so many workers at a time.
    fn is_right(&self, workers: u64) -> bool {
        self.told
            .iter()
            .all(|count| count.load(Ordering::SeqCst) == 1)
            && self
                .asked
                .iter()
                .all(|count| count.load(Ordering::SeqCst) == 1)
            && self.most.load(Ordering::SeqCst) <= workers
    }
}

fn noughts(alloc: Global, count: usize) -> Result<Vec<AtomicU64>, NoMemory> {
    let mut counts = Vec::new(alloc);
    for _ in 0..count {
        counts.push(AtomicU64::new(0))?;
    }
    Ok(counts)
}

fn count(counts: &[AtomicU64], piece: usize) {
    if let Some(count) = counts.get(piece) {
        count.fetch_add(1, Ordering::SeqCst);
    }
}

fn asks_each_once<Rt: Threads + Sync>(
    rt: &Rt,
    alloc: Global,
    pieces: usize,
    workers: usize,
) -> Result<bool, NoMemory> {
    let mut numbers = Vec::new(alloc);
    for piece in 0..pieces {
        numbers.push(piece)?;
    }
    let tally = Tally::new(alloc, pieces)?;
    let ask = |piece: &usize| -> Result<usize, NoMemory> { Ok(tally.ask(*piece)) };
    each_piece(rt, alloc, &numbers, workers.clamp(1, 16), &ask, &tally)?;
    Ok(tally.is_right(workers as u64))
}

#[test]
fn each_piece_is_asked_once_by_few_workers(rt: HostRuntime) -> Result<(), Fail> {
    for workers in [1, 2, 3, 7, 16] {
        for pieces in [0, 1, 2, 3, 16, 40] {
            assert!(rt;
                asks_each_once(&rt, rt.alloc(), pieces, workers)?,
                "{pieces} {workers}"
            );
        }
    }
    Ok(())
}
