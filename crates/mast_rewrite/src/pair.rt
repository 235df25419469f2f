//! Two atoms of a query, as the meetings of what is below them depend on them.
ghost use Rattle.std.specs.Prelude.{◌≡◌, true, ◌↔◌};
ghost use Rattle.mast_cq.specs.Queries.{has_var};
ghost use Rattle.mast_rewrite.specs.declared.pair.Pair.{Pair};
ghost use Rattle.mast_rewrite.specs.inside.Marks.{answering as answering_of, marked_of, marks};

use mast_cq::{Arg, Atom, arg_laws, atom_laws};

/// An atom of a query, and its arguments that are variables of the answer list; `_` in place of any other.
#[derive(Clone, Copy, Debug, PartialEq, Eq, Hash)]
pub struct Marked {
    pub atom: Atom,
    pub first: Arg,
    pub second: Arg,
}

/// Two atoms of a query, the first before the second.
#[derive(Clone, Copy, Debug, PartialEq, Eq, Hash)]
pub struct Pair {
    pub left: Marked,
    pub right: Marked,
}

/// `==` holds exactly of equal pairs.
pub(crate) fn pair_laws()
    ensures { (p q : Pair) → (⟦<Pair as PartialEq>⟧.eq p q ≡ true) ↔ (p ≡ q) }
{
    arg_laws();
    atom_laws();
}

impl Marked {
    /// An atom of a query with this answer list.
    pub(crate) fn new(answer: &[Arg], atom: Atom) -> Marked
        ensures { result ≡ marked_of answer.now atom }
    {
        match atom {
            Atom::Class { arg, .. } => Marked {
                atom,
                first: answering(answer, arg),
                second: Arg::Blank,
            },
            Atom::Role { from, to, .. } => Marked {
                atom,
                first: answering(answer, from),
                second: answering(answer, to),
            },
            Atom::Attr { from, value, .. } => Marked {
                atom,
                first: answering(answer, from),
                second: answering(answer, value),
            },
        }
    }
}

impl Pair {
    /// An answer list with the variables of the two atoms that are answers, and no other variable.
    pub(crate) fn answer(self) -> [Arg; 4]
        ensures { result ≡ marks self }
    {
        [
            self.left.first,
            self.left.second,
            self.right.first,
            self.right.second,
        ]
    }
}

// The argument if it is a variable of the answer list, and else `_`.
fn answering(answer: &[Arg], arg: Arg) -> Arg
    ensures { result ≡ answering_of answer.now arg }
{
    match arg {
        Arg::Var(var) => {
            if is_answer(answer, var) {
                arg
            } else {
                Arg::Blank
            }
        }
        _ => Arg::Blank,
    }
}

fn is_answer(answer: &[Arg], var: u32) -> bool
    ensures { result ≡ has_var answer.now var }
{
    for arg in answer {
        if let Arg::Var(found) = *arg {
            if found == var {
                return true;
            }
        }
    }
    false
}
