//! Ranges that clash with those that stand before.
ghost use Rattle.std.specs.Prelude.{◌≡◌, ◌++◌, List, [], ◌∷◌, OnOk};
ghost use Rattle.mast_tbox.specs.declared.axiom.Inclusion.{Inclusion};
ghost use Rattle.mast_violate.specs.ViolationLists.{clash, clashes, same_kind as same_kind_of};
ghost use Rattle.mast_violate.specs.inside.Seen.{clashed, as_list};

use mast_tbox::Inclusion;
use mast_terms::{Kind, List, Name, NoMemory};
use std::alloc::Global;

/// For each kind, the attributes of the ranges of another kind that stand before, in order.
#[derive(Drop)]
pub(crate) struct Ranges {
    text: List<Name>,
    integer: List<Name>,
    date: List<Name>,
}

impl Ranges {
    /// None stands before.
    pub(crate) fn new(alloc: Global) -> Ranges
        ensures { result ≡ clashed [] }
    {
        Ranges {
            text: List::new(alloc),
            integer: List::new(alloc),
            date: List::new(alloc),
        }
    }

    /// The attributes of the ranges of another kind.
    pub(crate) fn others(&self, kind: Kind) -> &[Name]
        ensures { (before : List Inclusion) → self.now ≡ clashed before → result.now ≡ clashes kind before }
    {
        match kind {
            Kind::Text => self.text.as_slice(),
            Kind::Integer => self.integer.as_slice(),
            Kind::Date => self.date.as_slice(),
        }
    }

    /// An inclusion comes after those before.
    pub(crate) fn note(&mut self, alloc: Global, inclusion: Inclusion) -> Result<(), NoMemory>
        ensures { OnOk result ((before : List Inclusion) → self.old ≡ clashed before
            → self.new ≡ clashed (before ++ inclusion ∷ [])) }
    {
        add(alloc, &mut self.text, clash_of(Kind::Text, inclusion))?;
        add(alloc, &mut self.integer, clash_of(Kind::Integer, inclusion))?;
        add(alloc, &mut self.date, clash_of(Kind::Date, inclusion))?;
        Ok(())
    }
}

// The attribute of a range of another kind.
pub(crate) fn clash_of(kind: Kind, inclusion: Inclusion) -> Option<Name>
    ensures { as_list result ≡ clash kind inclusion }
{
    match inclusion {
        Inclusion::Range { attr, kind: its } => {
            if same_kind(kind, its) {
                None
            } else {
                Some(attr)
            }
        }
        _ => None,
    }
}

fn same_kind(kind: Kind, its: Kind) -> bool
    ensures { result ≡ same_kind_of kind its }
{
    match kind {
        Kind::Text => matches!(its, Kind::Text),
        Kind::Integer => matches!(its, Kind::Integer),
        Kind::Date => matches!(its, Kind::Date),
    }
}

// Puts a name, if there is one, at the end.
fn add(alloc: Global, names: &mut List<Name>, name: Option<Name>) -> Result<(), NoMemory>
    ensures { OnOk result (names.new ≡ names.old ++ as_list name) }
{
    match name {
        None => Ok(()),
        Some(found) => names.push(alloc, found),
    }
}
