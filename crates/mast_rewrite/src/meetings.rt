//! The meetings of two lists of atoms.
ghost use Rattle.std.specs.Prelude.{◌≡◌, ◌≤◌, ◌++◌, ◌↔◌, true, length, map, drop, take, IfOk, OnOk};
ghost use Rattle.mast_cq.specs.NormalForms.{Ordered};
ghost use Rattle.mast_rewrite.specs.inside.MeetingLists.{met_value, meetings_with, all_meetings, IsEarlier, HaveOneName, kind_place, name_number, AllEarlier, NoneEarlier};

use mast_cq::{Arg, Atom, Met, meet};
use mast_terms::NoMemory;
use std::alloc::Global;

/// The meetings of each atom of one list with each of another, in a query with this answer list.
///
/// Both lists are in the order of atoms, which goes by the names first. So one walk over both finds the atoms of one name.
pub(crate) fn meetings(
    alloc: Global,
    answer: &[Arg],
    lefts: &[Atom],
    rights: &[Atom],
) -> Result<Vec<Met>, NoMemory>
    requires lefts { Ordered lefts.now }
    requires rights { Ordered rights.now }
    ensures { IfOk result (λ v. map met_value v.items ≡ all_meetings answer.now lefts.now rights.now) }
{
    let mut meetings = Vec::new(alloc);
    let mut start = 0;
    for left in lefts {
        start = add_all(answer, *left, rights, start, &mut meetings)?;
    }
    Ok(meetings)
}

// Adds the meetings of an atom with each of a list, of which those before the start have earlier names. The result is where
// those end that do.
fn add_all(
    answer: &[Arg],
    left: Atom,
    rights: &[Atom],
    start: usize,
    meetings: &mut Vec<Met>,
) -> Result<usize, NoMemory>
    requires order { Ordered rights.now }
    requires there { start ≤ length rights.now }
    requires before { AllEarlier (take start rights.now) left }
    ensures there { IfOk result (λ end. end ≤ length rights.now) }
    ensures before { IfOk result (λ end. AllEarlier (take end rights.now) left) }
    ensures added { OnOk result (map met_value meetings.new.items ≡ map met_value meetings.old.items ++ meetings_with answer.now left rights.now) }
{
    let end = skip(rights, start, left);
    let (_, rest) = rights.split_at(end);
    add_meetings(answer, left, rest, meetings)?;
    Ok(end)
}

// The first place from the start on at which no earlier name stands.
fn skip(rights: &[Atom], start: usize, left: Atom) -> usize
    requires order { Ordered rights.now }
    requires start { start ≤ length rights.now }
    requires before { AllEarlier (take start rights.now) left }
    ensures there { result ≤ length rights.now }
    ensures before { AllEarlier (take result rights.now) left }
    ensures after { NoneEarlier (drop result rights.now) left }
{
    let mut at = start;
    while at < rights.len() {
        if !is_earlier(rights[at], left) {
            return at;
        }
        at += 1;
    }
    at
}

// Adds the meetings of an atom with each of a list.
fn add_meetings(
    answer: &[Arg],
    left: Atom,
    rights: &[Atom],
    meetings: &mut Vec<Met>,
) -> Result<(), NoMemory>
    requires order { Ordered rights.now }
    requires start { NoneEarlier rights.now left }
    ensures { OnOk result (map met_value meetings.new.items ≡ map met_value meetings.old.items ++ meetings_with answer.now left rights.now) }
{
    for right in rights {
        if !has_one_name(*right, left) {
            return Ok(());
        }
        if let Some(met) = meet(answer, left, *right) {
            meetings.push(met)?;
        }
    }
    Ok(())
}

// Whether the name of an atom is earlier than that of another: of an earlier kind, or of a lesser number.
fn is_earlier(atom: Atom, other: Atom) -> bool
    ensures { (result ≡ true) ↔ IsEarlier atom other }
{
    let (kind, number) = name_of(atom);
    let (other_kind, other_number) = name_of(other);
    kind < other_kind || kind == other_kind && number < other_number
}

fn has_one_name(atom: Atom, other: Atom) -> bool
    ensures { (result ≡ true) ↔ HaveOneName atom other }
{
    let (kind, number) = name_of(atom);
    let (other_kind, other_number) = name_of(other);
    kind == other_kind && number == other_number
}

// The place of an atom's kind in the order of kinds, and the number of its name.
fn name_of(atom: Atom) -> (u32, u32)
    ensures kind { result.0 ≡ kind_place atom }
    ensures number { result.1 ≡ name_number atom }
{
    match atom {
        Atom::Class { name, .. } => (0, name.0),
        Atom::Role { name, .. } => (1, name.0),
        Atom::Attr { name, .. } => (2, name.0),
    }
}
