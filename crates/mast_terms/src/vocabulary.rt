//! Vocabularies: the names and the constants of a specification, each with its number.
ghost use Rattle.std.specs.Prelude.{◌≡◌, ◌<◌, ◌≤◌, [], length, slice_get, Some, IfOk, IfSome, OnOk, OnErr};
ghost use Rattle.std.specs.Option.{option_map};
ghost use Rattle.mast_terms.specs.Refusals.{IsRefusedBy};
ghost use Rattle.mast_terms.specs.Vocabularies.{capacity, lists_of, iris, place, stands_otherwise, refusal_of, with_iri, IsVocabulary};
ghost use Rattle.mast_terms.specs.Vocabularies.{value_place, value_refusal, with_value};

use crate::constants::Constants;
use crate::iris::Iris;
use crate::{AddRefusal, Name, NameKind, NoMemory, Stop, Value};
use std::alloc::Global;
use std::marker::Model;

/// The names of each kind and the constants, each with one number: its place among those of its kind.
///
/// Contracts see the lists of IRIs and the list of constants.
#[derive(Drop)]
pub struct Vocabulary {
    classes: Iris,
    roles: Iris,
    attributes: Iris,
    constants: Constants,
}

impl Model for Vocabulary {
    ghost use Rattle.mast_terms.specs.Vocabularies.{Lists, lists_of, IsVocabulary};

    ghost Value = { Lists };

    ghost view = { λ v. lists_of v.classes v.roles v.attributes v.constants };

    ghost invariant = { λ v. IsVocabulary (lists_of v.classes v.roles v.attributes v.constants) };
}

impl Vocabulary {
    /// The empty vocabulary, which takes no memory.
    pub fn new(alloc: Global) -> Vocabulary
        ensures { result ≡ lists_of [] [] [] [] }
    {
        Vocabulary {
            classes: Iris::new(alloc),
            roles: Iris::new(alloc),
            attributes: Iris::new(alloc),
            constants: Constants::new(alloc),
        }
    }

    /// A vocabulary with the same names and constants, by the same numbers.
    pub fn copy(&self, alloc: Global) -> Result<Vocabulary, NoMemory>
        ensures { IfOk result (λ copy. copy ≡ self.now) }
    {
        Ok(Vocabulary {
            classes: self.classes.copy()?,
            roles: self.roles.copy()?,
            attributes: self.attributes.copy()?,
            constants: self.constants.copy(alloc)?,
        })
    }

    /// The number of an IRI as a name of a kind. One that is there keeps its number, and a new one takes the next.
    ///
    /// `TwoKinds` comes exactly where the IRI is to be a role and stands as an attribute, or the other way; else `Full`
    /// comes exactly where it is new and 65,535 of the kind stand. A refused call, and one without memory, changes
    /// nothing.
    pub fn add(
        &mut self,
        alloc: Global,
        kind: NameKind,
        iri: &str,
    ) -> Result<Name, Stop<AddRefusal>>
        ensures refused { IsRefusedBy result (refusal_of self.old kind iri.now) }
        ensures added { OnOk result (self.new ≡ with_iri self.old kind iri.now) }
        ensures place { IfOk result (λ name. place iri.now (iris self.new kind) ≡ Some name.0) }
        ensures shown { IfOk result (λ name. slice_get (iris self.new kind) name.0 ≡ Some iri.now) }
        ensures within { IfOk result (λ name. name.0 < length (iris self.new kind)) }
        ensures kept { OnErr result (self.new ≡ self.old) }
    {
        if self.stands_otherwise(kind, iri) {
            return Err(Stop::Named(AddRefusal::TwoKinds));
        }
        let number = match kind {
            NameKind::Class => self.classes.add(alloc, iri)?,
            NameKind::Role => self.roles.add(alloc, iri)?,
            NameKind::Attr => self.attributes.add(alloc, iri)?,
        };
        Ok(Name(number))
    }

    // Whether an IRI that is to be a role stands as an attribute, or the other way.
    fn stands_otherwise(&self, kind: NameKind, iri: &str) -> bool
        ensures { result ≡ stands_otherwise self.now kind iri.now }
    {
        match kind {
            NameKind::Class => false,
            NameKind::Role => self.attributes.find(iri).is_some(),
            NameKind::Attr => self.roles.find(iri).is_some(),
        }
    }

    /// The number of a constant. One that is there keeps its number, and a new one takes the next.
    ///
    /// `Full` comes exactly where it is new and 65,535 constants stand. A refused call, and one without memory, changes
    /// nothing.
    pub fn add_value(&mut self, alloc: Global, value: &Value) -> Result<u32, Stop<AddRefusal>>
        ensures refused { IsRefusedBy result (value_refusal value.now self.old.constants) }
        ensures added { OnOk result (self.new ≡ with_value self.old value.now) }
        ensures place { IfOk result (λ number. value_place value.now self.new.constants ≡ Some number) }
        ensures shown { IfOk result (λ number. slice_get self.new.constants number ≡ Some value.now) }
        ensures within { IfOk result (λ number. number < length self.new.constants) }
        ensures kept { OnErr result (self.new ≡ self.old) }
    {
        self.constants.add(alloc, value)
    }

    /// The number of an IRI as a name of a kind, or `None` exactly where it is not there.
    pub fn find(&self, kind: NameKind, iri: &str) -> Option<Name>
        ensures place { option_map (λ name. name.0) result ≡ place iri.now (iris self.now kind) }
        ensures shown { IfSome result (λ name. slice_get (iris self.now kind) name.0 ≡ Some iri.now) }
        ensures within { IfSome result (λ name. name.0 < length (iris self.now kind)) }
    {
        let number = self.iris(kind).find(iri)?;
        Some(Name(number))
    }

    /// The IRI of a name.
    pub fn iri(&self, kind: NameKind, name: Name) -> &str
        requires { name.0 < length (iris self.now kind) }
        ensures { slice_get (iris self.now kind) name.0 ≡ Some result.now }
    {
        self.iris(kind).get(name.0)
    }

    /// The constant with a number.
    pub fn value(&self, number: u32) -> &Value
        requires { number < length self.now.constants }
        ensures { slice_get self.now.constants number ≡ Some result.now }
    {
        self.constants.get(number)
    }

    /// How many names of a kind there are: at most 65,535.
    pub fn len(&self, kind: NameKind) -> u32
        ensures len { result ≡ length (iris self.now kind) }
        ensures bound { result ≤ capacity }
        ensures lawful { IsVocabulary self.now }
    {
        let _ = &self.classes;
        self.iris(kind).len()
    }

    fn iris(&self, kind: NameKind) -> &Iris
        ensures { result.now ≡ iris self.now kind }
    {
        match kind {
            NameKind::Class => &self.classes,
            NameKind::Role => &self.roles,
            NameKind::Attr => &self.attributes,
        }
    }
}
