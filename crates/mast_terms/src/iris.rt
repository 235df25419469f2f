//! The IRIs of one kind of names.
ghost use Rattle.std.specs.Prelude.{◌≡◌, ◌+◌, ◌<◌, ◌≤◌, [], ◌∷◌, ◌++◌, length, map, slice_get, is_some, string_bytes, Some, true, false, IfOk, IfSome, OnOk, OnErr};
ghost use Rattle.mast_terms.specs.Refusals.{IsRefusedBy};
ghost use Rattle.mast_terms.specs.Vocabularies.{capacity, stands, place, joined, refusal_of_new, EachOnce, IsNumbered};

use crate::{AddRefusal, NoMemory, Stop};
use indexmap::IndexSet;
use std::alloc::Global;
use std::marker::Model;

/// How many names of a kind, and how many constants, there may be.
pub(crate) const CAPACITY: usize = 65_535;

/// Different IRIs, each with its place as its number. Contracts see the list of them.
#[derive(Drop)]
pub(crate) struct Iris {
    set: IndexSet<String>,
}

impl Model for Iris {
    ghost use Rattle.std.specs.Prelude.{List, ℕ, map, string_bytes};
    ghost use Rattle.mast_terms.specs.Vocabularies.{IsNumbered};

    ghost Value = { List (List ℕ) };

    ghost view = { λ iris. map string_bytes iris.set.keys };

    ghost invariant = { λ iris. IsNumbered (map string_bytes iris.set.keys) };
}

impl Iris {
    pub(crate) fn new(alloc: Global) -> Iris
        ensures { result ≡ [] }
    {
        Iris {
            set: IndexSet::new(alloc),
        }
    }

    pub(crate) fn len(&self) -> u32
        ensures len { result ≡ length self.now }
        ensures numbered { IsNumbered self.now }
    {
        self.set.len() as u32
    }

    pub(crate) fn find(&self, iri: &str) -> Option<u32>
        ensures place { result ≡ place iri.now self.now }
        ensures stands { is_some result ≡ stands iri.now self.now }
        ensures shown { IfSome result (λ number. slice_get self.now number ≡ Some iri.now) }
        ensures within { IfSome result (λ number. number < length self.now) }
    {
        match number_in(&self.set, iri) {
            Some(number) => Some(number as u32),
            None => None,
        }
    }

    pub(crate) fn get(&self, number: u32) -> &str
        requires { number < length self.now }
        ensures { slice_get self.now number ≡ Some result.now }
    {
        self.set[number as usize].as_str()
    }

    pub(crate) fn add(&mut self, alloc: Global, iri: &str) -> Result<u32, Stop<AddRefusal>>
        ensures refused { IsRefusedBy result (refusal_of_new iri.now self.old) }
        ensures joined { OnOk result (self.new ≡ joined iri.now self.old) }
        ensures place { IfOk result (λ number. place iri.now self.new ≡ Some number) }
        ensures shown { IfOk result (λ number. slice_get self.new number ≡ Some iri.now) }
        ensures within { IfOk result (λ number. number < length self.new) }
        ensures kept { OnErr result (self.new ≡ self.old) }
        ensures numbered { IsNumbered self.new }
    {
        if let Some(number) = self.find(iri) {
            return Ok(number);
        }
        if self.set.len() >= CAPACITY {
            return Err(Stop::Named(AddRefusal::Full));
        }
        Ok(self.append(alloc, iri)?)
    }

    // A new IRI takes the next number.
    fn append(&mut self, alloc: Global, iri: &str) -> Result<u32, NoMemory>
        requires new { stands iri.now self.old ≡ false }
        requires room { length self.old < capacity }
        ensures joined { OnOk result (self.new ≡ self.old ++ iri.now ∷ []) }
        ensures place { IfOk result (λ number. place iri.now self.new ≡ Some number) }
        ensures shown { IfOk result (λ number. slice_get self.new number ≡ Some iri.now) }
        ensures within { IfOk result (λ number. number < length self.new) }
        ensures kept { OnErr result (self.new ≡ self.old) }
        ensures numbered { IsNumbered self.new }
    {
        let number = self.set.len() as u32;
        put_last(&mut self.set, alloc, iri)?;
        Ok(number)
    }

    pub(crate) fn copy(&self) -> Result<Iris, NoMemory>
        ensures { IfOk result (λ copy. copy ≡ self.now) }
    {
        Ok(Iris {
            set: copy_of(&self.set)?,
        })
    }
}

fn number_in(set: &IndexSet<String>, iri: &str) -> Option<usize>
    ensures place { result ≡ place iri.now (map string_bytes set.now.keys) }
    ensures stands { is_some result ≡ stands iri.now (map string_bytes set.now.keys) }
    ensures shown { IfSome result (λ number. slice_get (map string_bytes set.now.keys) number ≡ Some iri.now) }
    ensures within { IfSome result (λ number. number < length set.now.keys) }
{
    set.get_index_of(iri)
}

fn put_last(set: &mut IndexSet<String>, alloc: Global, iri: &str) -> Result<(), NoMemory>
    requires { stands iri.now (map string_bytes set.old.keys) ≡ false }
    ensures joined { OnOk result (map string_bytes set.new.keys ≡ map string_bytes set.old.keys ++ iri.now ∷ []) }
    ensures place { OnOk result (place iri.now (map string_bytes set.new.keys) ≡ Some (length set.old.keys)) }
    ensures shown { OnOk result (slice_get (map string_bytes set.new.keys) (length set.old.keys) ≡ Some iri.now) }
    ensures len { OnOk result (length set.new.keys ≡ length set.old.keys + 1) }
    ensures once { OnOk result (EachOnce (map string_bytes set.new.keys)) }
    ensures kept { OnErr result (set.new.keys ≡ set.old.keys) }
{
    set.insert(String::from_str(alloc, iri)?)?;
    Ok(())
}

fn copy_of(set: &IndexSet<String>) -> Result<IndexSet<String>, NoMemory>
    ensures copy { IfOk result (λ copy. map string_bytes copy.keys ≡ map string_bytes set.now.keys) }
    ensures len { IfOk result (λ copy. length copy.keys ≡ length set.now.keys) }
{
    Ok(set.clone()?)
}
