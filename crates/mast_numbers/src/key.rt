//! What stands for a term in the set of those that have numbers.
ghost use Rattle.std.specs.Prelude.{◌≡◌, IfOk};
ghost use Rattle.mast_terms.specs.Orders.{TestsEquality};

use mast_terms::{NoMemory, Value, terms_are_ordered};
use smallvec::SmallVec;
use std::alloc::Global;
use std::hash::{Hash, Hasher};
use std::marker::Model;

/// A value, or an object by the number of its symbol and those of its arguments, so that no text is hashed for an object.
#[derive(Debug, PartialEq, Eq, Hash, Drop)]
pub(crate) enum Key {
    Value(Value),
    Object { symbol: u32, args: Places },
}

/// The numbers of an object's arguments. Up to four are kept in place, and take no memory. Contracts see the list of them.
#[derive(Debug, Drop)]
pub(crate) struct Places {
    items: SmallVec<u32, 4>,
}

impl Model for Places {
    ghost use Rattle.std.specs.Prelude.{ℕ, List};

    ghost Value = { List ℕ };

    ghost view = { λ p. p.items.items };
}

impl Places {
    pub(crate) fn of(alloc: Global, numbers: &[u32]) -> Result<Places, NoMemory>
        ensures { IfOk result (λ places. places ≡ numbers.now) }
    {
        let mut items = SmallVec::new(alloc);
        for number in numbers {
            items.push(*number)?;
        }
        Ok(Places { items })
    }

    pub(crate) fn as_slice(&self) -> &[u32]
        ensures { result.now ≡ self.now }
    {
        self.items.as_slice()
    }
}

impl PartialEq for Places {
    ghost use Rattle.std.specs.Prelude.{nat_eq};
    ghost use Rattle.std.specs.Cmp.Lexicographic.{pointwise, nat_list_eq_equiv};
    ghost use Rattle.std.specs.Cmp;

    ghost eq = { pointwise nat_eq };

    ghost laws = { Cmp.partial_equiv_from_equiv nat_list_eq_equiv };

    fn eq(&self, other: &Self) -> bool {
        self.as_slice() == other.as_slice()
    }
}

impl Eq for Places {
    ghost use Rattle.std.specs.Cmp.Lexicographic.{nat_list_eq_equiv};

    ghost laws = { nat_list_eq_equiv };
}

impl Hash for Places {
    ghost use Rattle.std.specs.Hash as fed;
    ghost use Rattle.std.specs.Cmp.Rules.{hashing};
    ghost use Rattle.std.proofs.Common.{rules};

    ghost hash_input = { fed.slice fed.u32 };

    ghost respects_eq = { Prim.search (hashing, rules) };

    fn hash<H: Hasher>(&self, state: &mut H) {
        self.as_slice().hash(state);
    }
}

// Keys are equal exactly where they are one.
pub(crate) fn key_laws()
    ensures { TestsEquality ⟦<Key as PartialEq>⟧.eq }
{
    terms_are_ordered();
}
