//! The names that a document uses, as they are added to a vocabulary.
ghost use Rattle.std.specs.Prelude.{◌≡◌};
ghost use Rattle.mast_tree.specs.Names.{is_standard, JudgesName};
ghost use Rattle.mast_tree.specs.Seen.{seen};

use crate::prefix::first_token;
use crate::{Doc, Item, PrefixTable, ShapeBreach, ShapeKind, wrong};
use mast_terms::{AddRefusal, Name, NameKind, Stop, Vocabulary};
use std::alloc::Global;

/// Whether an IRI is in one of the four namespaces of the standards: OWL, RDF, RDFS and XML Schema.
pub fn is_standard(iri: &[u8]) -> bool
    ensures { result ≡ is_standard iri.now }
{
    iri.starts_with("http://www.w3.org/2002/07/owl#".as_bytes())
        || iri.starts_with("http://www.w3.org/1999/02/22-rdf-syntax-ns#".as_bytes())
        || iri.starts_with("http://www.w3.org/2000/01/rdf-schema#".as_bytes())
        || iri.starts_with("http://www.w3.org/2001/XMLSchema#".as_bytes())
}

impl PrefixTable {
    /// The name that an item of this document says in the place of a class, a role or an attribute, added to the vocabulary.
    ///
    /// Refused with what `expand` refuses; else with NotDlLite where the IRI is in one of the four namespaces of the standards; else
    /// with TwoKinds where a role is to be an attribute, or the other way; else with the limit Names where 65,535 of its kind stand.
    pub fn name(
        &self,
        alloc: Global,
        doc: &Doc,
        item: &Item,
        kind: NameKind,
        vocab: &mut Vocabulary,
    ) -> Result<Name, Stop<ShapeBreach>>
        ensures { JudgesName vocab.old kind (seen doc.now) self.now item.now vocab.new result }
    {
        let iri = self.expand(alloc, doc, item)?;
        let line = doc.line(first_token(item));
        if is_standard(iri.as_str().as_bytes()) {
            return Err(wrong(line, ShapeKind::NotDlLite));
        }
        match vocab.add(alloc, kind, iri.as_str()) {
            Ok(name) => Ok(name),
            Err(Stop::Named(AddRefusal::TwoKinds)) => Err(wrong(line, ShapeKind::TwoKinds)),
            Err(Stop::Named(AddRefusal::Full)) => Err(wrong(line, ShapeKind::Names)),
            Err(Stop::NoMemory) => Err(Stop::NoMemory),
        }
    }
}
