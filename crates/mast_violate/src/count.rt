//! How many violations there are.
ghost use Rattle.std.specs.Prelude.{◌≡◌, ℕ, ◌<◌, ◌≤◌, ◌++◌, [], ◌∷◌, List, length};
ghost use Rattle.mast_tbox.specs.declared.axiom.Inclusion.{Inclusion};
ghost use Rattle.mast_violate.specs.ViolationLists.{clash, clashes, of_inclusion, of_inclusions, list_of};
ghost use Rattle.mast_violate.specs.inside.Seen.{counted, IsSmall};

use crate::ranges::clash_of;
use mast_tbox::{Constraint, Inclusion, Lined, TBox};
use mast_terms::Kind;

/// How many violations the axioms and the constraints have.
pub(crate) fn count(tbox: &TBox, constraints: &[Lined<Constraint>]) -> usize
    ensures { result ≡ length (list_of tbox.now constraints.now) }
{
    let axioms = tbox.negatives.as_slice().len() + tbox.functional.as_slice().len();
    axioms + ranges(tbox.inclusions.as_slice()) + constraints.len()
}

// How many violations ranges have.
fn ranges(lines: &[Lined<Inclusion>]) -> usize
    requires { length lines.now ≤ 1000000 }
    ensures is { result ≡ length (of_inclusions [] lines.now) }
    ensures few { result ≤ 2000000000000 }
{
    let mut tally = Tally {
        text: 0,
        integer: 0,
        date: 0,
    };
    let mut count = 0;
    for line in lines {
        count += tally.violations(line.item);
        tally.note(line.item);
    }
    count
}

/// For each kind, how many ranges of another kind stand before.
#[derive(Drop)]
struct Tally {
    text: usize,
    integer: usize,
    date: usize,
}

impl Tally {
    // How many violations an inclusion has.
    fn violations(&self, inclusion: Inclusion) -> usize
        requires { IsSmall self.now }
        ensures few { result ≤ 1000000 }
        ensures is { (before : List Inclusion) (line : ℕ) → self.now ≡ counted before
            → result ≡ length (of_inclusion before line inclusion) }
    {
        match inclusion {
            Inclusion::Range { kind, .. } => 1 + self.others(kind),
            _ => 0,
        }
    }

    // How many ranges of another kind stand before.
    fn others(&self, kind: Kind) -> usize
        requires { IsSmall self.now }
        ensures is { (before : List Inclusion) → self.now ≡ counted before → result ≡ length (clashes kind before) }
        ensures few { result < 1000000 }
    {
        match kind {
            Kind::Text => self.text,
            Kind::Integer => self.integer,
            Kind::Date => self.date,
        }
    }

    // An inclusion comes after those before.
    fn note(&mut self, inclusion: Inclusion)
        requires { IsSmall self.old }
        ensures { (before : List Inclusion) → self.old ≡ counted before
            → self.new ≡ counted (before ++ inclusion ∷ []) }
    {
        self.text += clashing(Kind::Text, inclusion);
        self.integer += clashing(Kind::Integer, inclusion);
        self.date += clashing(Kind::Date, inclusion);
    }
}

// How many ranges of another kind an inclusion is.
fn clashing(kind: Kind, inclusion: Inclusion) -> usize
    ensures { result ≡ length (clash kind inclusion) }
{
    match clash_of(kind, inclusion) {
        None => 0,
        Some(_) => 1,
    }
}
