//! The constants of a specification.
ghost use Rattle.std.specs.Prelude.{◌≡◌, ◌+◌, ◌<◌, ◌≤◌, [], ◌∷◌, ◌++◌, length, slice_get, is_some, Some, true, false, IfOk, IfSome, OnOk, OnErr};
ghost use Rattle.mast_terms.specs.Refusals.{IsRefusedBy};
ghost use Rattle.mast_terms.specs.Vocabularies.{capacity, value_stands, value_place, joined_value, value_refusal, EachOnce, IsNumbered};

use crate::iris::CAPACITY;
use crate::{AddRefusal, NoMemory, Stop, Value};
use indexmap::IndexSet;
use std::alloc::Global;
use std::marker::Model;

/// Different values, each with its place as its number. Contracts see the list of them.
#[derive(Drop)]
pub(crate) struct Constants {
    set: IndexSet<Value>,
}

impl Model for Constants {
    ghost use Rattle.std.specs.Prelude.{List};
    ghost use Rattle.mast_terms.specs.Vocabularies.{IsNumbered};
    ghost use Rattle.mast_terms.specs.declared.value.Value.{Value as V};

    ghost Value = { List V };

    ghost view = { λ constants. constants.set.keys };

    ghost invariant = { λ constants. IsNumbered constants.set.keys };
}

impl Constants {
    pub(crate) fn new(alloc: Global) -> Constants
        ensures { result ≡ [] }
    {
        Constants {
            set: IndexSet::new(alloc),
        }
    }

    pub(crate) fn get(&self, number: u32) -> &Value
        requires { number < length self.now }
        ensures { slice_get self.now number ≡ Some result.now }
    {
        &self.set[number as usize]
    }

    pub(crate) fn add(&mut self, alloc: Global, value: &Value) -> Result<u32, Stop<AddRefusal>>
        ensures refused { IsRefusedBy result (value_refusal value.now self.old) }
        ensures joined { OnOk result (self.new ≡ joined_value value.now self.old) }
        ensures place { IfOk result (λ number. value_place value.now self.new ≡ Some number) }
        ensures shown { IfOk result (λ number. slice_get self.new number ≡ Some value.now) }
        ensures within { IfOk result (λ number. number < length self.new) }
        ensures kept { OnErr result (self.new ≡ self.old) }
        ensures numbered { IsNumbered self.new }
    {
        if let Some(number) = number_in(&self.set, value) {
            return Ok(number as u32);
        }
        if self.set.len() >= CAPACITY {
            return Err(Stop::Named(AddRefusal::Full));
        }
        Ok(self.append(alloc, value)?)
    }

    // A new value takes the next number.
    fn append(&mut self, alloc: Global, value: &Value) -> Result<u32, NoMemory>
        requires new { value_stands value.now self.old ≡ false }
        requires room { length self.old < capacity }
        ensures joined { OnOk result (self.new ≡ self.old ++ value.now ∷ []) }
        ensures place { IfOk result (λ number. value_place value.now self.new ≡ Some number) }
        ensures shown { IfOk result (λ number. slice_get self.new number ≡ Some value.now) }
        ensures within { IfOk result (λ number. number < length self.new) }
        ensures kept { OnErr result (self.new ≡ self.old) }
        ensures numbered { IsNumbered self.new }
    {
        let number = self.set.len() as u32;
        put_last(&mut self.set, alloc, value)?;
        Ok(number)
    }

    pub(crate) fn copy(&self, alloc: Global) -> Result<Constants, NoMemory>
        ensures { IfOk result (λ copy. copy ≡ self.now) }
    {
        let set = copy_of(&self.set, alloc)?;
        Ok(Constants { set })
    }
}

fn number_in(set: &IndexSet<Value>, value: &Value) -> Option<usize>
    ensures place { result ≡ value_place value.now set.now.keys }
    ensures stands { is_some result ≡ value_stands value.now set.now.keys }
    ensures shown { IfSome result (λ number. slice_get set.now.keys number ≡ Some value.now) }
    ensures within { IfSome result (λ number. number < length set.now.keys) }
{
    set.get_index_of(value)
}

fn put_last(set: &mut IndexSet<Value>, alloc: Global, value: &Value) -> Result<(), NoMemory>
    requires { value_stands value.now set.old.keys ≡ false }
    ensures joined { OnOk result (set.new.keys ≡ set.old.keys ++ value.now ∷ []) }
    ensures place { OnOk result (value_place value.now set.new.keys ≡ Some (length set.old.keys)) }
    ensures shown { OnOk result (slice_get set.new.keys (length set.old.keys) ≡ Some value.now) }
    ensures once { OnOk result (EachOnce set.new.keys) }
    ensures kept { OnErr result (set.new.keys ≡ set.old.keys) }
{
    set.insert(value.copy(alloc)?)?;
    Ok(())
}

fn copy_of(set: &IndexSet<Value>, alloc: Global) -> Result<IndexSet<Value>, NoMemory>
    ensures { IfOk result (λ copy. copy.keys ≡ set.now.keys) }
{
    let mut copy = IndexSet::new(alloc);
    for value in set.as_slice() {
        put_last(&mut copy, alloc, value)?;
    }
    Ok(copy)
}
