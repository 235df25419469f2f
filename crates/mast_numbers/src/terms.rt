//! Terms and their numbers.
ghost use Rattle.std.specs.Prelude.{◌≡◌, ◌<◌, ◌≤◌, [], length, map, slice_get, option_map, Some, IfOk, OnOk, OnErr};
ghost use Rattle.std.specs.List.{AllByRecursion};
ghost use Rattle.mast_terms.specs.Orders.{TestsEquality};
ghost use Rattle.mast_terms.specs.Vocabularies.{EachOnce};
ghost use Rattle.mast_terms.specs.declared.term.Term.TheVariants as term;
ghost use Rattle.mast_numbers.specs.Numbered as spec;
ghost use Rattle.mast_numbers.specs.Numbered.{HasOneEach, IsJoined, IsValueAt, object_of, term_kind};
ghost use Rattle.mast_numbers.specs.inside.Keys.{most_terms, HasValue, value_in};

use crate::key::{Key, Places, key_laws};
use indexmap::IndexSet;
use mast_terms::{Args, Kind, NoMemory, Object, Term, Text, Value, terms_are_ordered};
use std::alloc::Global;
use std::hash::Hash;
use std::marker::Model;

// The greatest number of terms, so that each has a number of 32 bits.
const MOST: usize = 4_294_967_295;

/// Terms with numbers, each the next one where it was not there. Contracts see the list of the terms, whose places are
/// the numbers, and the list of the symbols of objects, which have numbers of their own.
#[derive(Drop)]
pub struct Terms {
    symbols: IndexSet<Text>,
    keys: IndexSet<Key>,
}

impl Model for Terms {
    ghost use Rattle.mast_numbers.specs.Numbered.{Numbered};
    ghost use Rattle.mast_numbers.specs.inside.Keys.{AreKeys, terms_of};

    ghost Value = { Numbered };

    ghost view = { λ t. record { symbols = t.symbols.keys; terms = terms_of t.symbols.keys t.keys.keys } };

    ghost invariant = { λ t. AreKeys t.symbols.keys t.keys.keys };
}

impl Terms {
    /// No term has a number yet.
    pub fn new(alloc: Global) -> Terms
        ensures symbols { result.symbols ≡ [] }
        ensures terms { result.terms ≡ [] }
    {
        Terms {
            symbols: IndexSet::new(alloc),
            keys: IndexSet::new(alloc),
        }
    }

    /// How many terms have numbers, which are those from 0 on; none has two.
    pub fn len(&self) -> usize
        ensures len { result ≡ length self.now.terms }
        ensures once { HasOneEach self.now }
    {
        self.keys.len()
    }

    /// The number of a value: the one that it has, or the next. It costs one hash of the value.
    pub fn value(&mut self, alloc: Global, value: &Value) -> Result<u32, NoMemory>
        ensures place { IfOk result (λ number. slice_get self.new.terms number ≡ Some (term.Value value.now)) }
        ensures joined { OnOk result (IsJoined self.old.terms self.new.terms (term.Value value.now)) }
        ensures symbols { self.new.symbols ≡ self.old.symbols }
        ensures once { OnOk result (HasOneEach self.new) }
        ensures kept { OnErr result (self.new.terms ≡ self.old.terms) }
    {
        key_laws();
        let key = Key::Value(value.copy(alloc)?);
        join(&mut self.keys, key)
    }

    /// The number of a symbol, for the objects that have it: the one that it has, or the next.
    pub fn symbol(&mut self, alloc: Global, symbol: &Text) -> Result<u32, NoMemory>
        ensures place { IfOk result (λ number. slice_get self.new.symbols number ≡ Some symbol.now) }
        ensures joined { OnOk result (IsJoined self.old.symbols self.new.symbols symbol.now) }
        ensures terms { self.new.terms ≡ self.old.terms }
        ensures once { OnOk result (HasOneEach self.new) }
        ensures kept { OnErr result (self.new.symbols ≡ self.old.symbols) }
    {
        terms_are_ordered();
        let symbol = symbol.copy(alloc)?;
        join(&mut self.symbols, symbol)
    }

    /// The number of an object, by the numbers of its symbol and of its arguments: the one that it has, or the next.
    /// No text is hashed. Up to four arguments take no memory where the object has its number.
    pub fn object(&mut self, alloc: Global, symbol: u32, args: &[u32]) -> Result<u32, NoMemory>
        requires symbol { symbol < length self.old.symbols }
        requires args { AllByRecursion (IsValueAt self.old.terms) args.now }
        ensures place { IfOk result (λ number. slice_get self.new.terms number ≡ Some (term.Object (object_of self.old symbol args.now))) }
        ensures joined { OnOk result (IsJoined self.old.terms self.new.terms (term.Object (object_of self.old symbol args.now))) }
        ensures symbols { self.new.symbols ≡ self.old.symbols }
        ensures once { OnOk result (HasOneEach self.new) }
        ensures kept { OnErr result (self.new.terms ≡ self.old.terms) }
    {
        key_laws();
        let args = Places::of(alloc, args)?;
        join(&mut self.keys, Key::Object { symbol, args })
    }

    /// The term of a number, a copy.
    pub fn term(&self, alloc: Global, number: u32) -> Result<Term, NoMemory>
        requires { number < length self.now.terms }
        ensures { IfOk result (λ term. slice_get self.now.terms number ≡ Some term) }
    {
        match &self.keys[number as usize] {
            Key::Value(value) => Ok(Term::Value(value.copy(alloc)?)),
            Key::Object { symbol, args } => {
                let args = arguments(alloc, self.keys.as_slice(), args.as_slice())?;
                let symbol = self.symbols[*symbol as usize].copy(alloc)?;
                Ok(Term::Object(Object { symbol, args }))
            }
        }
    }

    /// The kind of a number's term, where it is a value.
    pub fn kind(&self, number: u32) -> Option<Kind>
        requires { number < length self.now.terms }
        ensures { option_map term_kind (slice_get self.now.terms number) ≡ Some result }
    {
        match &self.keys[number as usize] {
            Key::Value(value) => Some(kind_of(value)),
            Key::Object { .. } => None,
        }
    }
}

fn kind_of(value: &Value) -> Kind
    ensures { result ≡ spec.kind_of value.now }
{
    match value {
        Value::Int(_) => Kind::Integer,
        Value::Text(_) => Kind::Text,
        Value::Date(_) => Kind::Date,
    }
}

// Copies of the values at these places.
fn arguments(alloc: Global, keys: &[Key], places: &[u32]) -> Result<Args, NoMemory>
    requires { AllByRecursion (HasValue keys.now) places.now }
    ensures { IfOk result (λ args. args ≡ map (value_in keys.now) places.now) }
{
    let mut args = Args::new(alloc);
    for place in places {
        args.push(alloc, value_copied(alloc, keys, *place)?)?;
    }
    Ok(args)
}

// A copy of the value at a place.
fn value_copied(alloc: Global, keys: &[Key], place: u32) -> Result<Value, NoMemory>
    requires { HasValue keys.now place }
    ensures { IfOk result (λ value. value ≡ value_in keys.now place) }
{
    match &keys[place as usize] {
        Key::Value(value) => Ok(value.copy(alloc)?),
        Key::Object { .. } => Err(NoMemory),
    }
}

// The place of an item that is to stand in the set: the one that it has, or the next.
fn join<T: Eq + Hash + Drop>(set: &mut IndexSet<T>, item: T) -> Result<u32, NoMemory>
    requires tests { TestsEquality T.eq }
    requires few { length set.old.keys ≤ most_terms }
    ensures few { length set.new.keys ≤ most_terms }
    ensures place { IfOk result (λ place. slice_get set.new.keys place ≡ Some item) }
    ensures joined { IsJoined set.old.keys set.new.keys item }
    ensures once { EachOnce set.new.keys }
    ensures kept { OnErr result (set.new.keys ≡ set.old.keys) }
{
    if set.len() >= MOST {
        return match set.get_index_of(&item) {
            Some(place) => Ok(place as u32),
            None => Err(NoMemory),
        };
    }
    let (place, _) = set.insert_full(item)?;
    Ok(place as u32)
}
