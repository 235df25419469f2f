//! The stage of a document: its bytes, its tokens, its tree, and then what its reader says of the tree.
ghost use Rattle.std.specs.Prelude.{◌≡◌, ◌<◌, length, IfOk};
ghost use Rattle.mast_constr.specs.Whole.{HasConstraints, IsConstraintsBreach};
ghost use Rattle.mast_mapping.specs.Documents.{HasMappings, IsMappingsBreach};
ghost use Rattle.mast_onto.specs.Known.{HasNames};
ghost use Rattle.mast_onto.specs.Ontologies.{HasOntology, IsOntologyBreach};
ghost use Rattle.mast_terms.specs.Answers.{Answers};
ghost use Rattle.mast_tree.specs.Seen.{seen};
ghost use Rattle.mast_tree.specs.Source.{AreTokens};
ghost use Rattle.mast_tree.specs.Trees.{IsTree};
ghost use Rattle.mast_cli.specs.inside.Causes.{PartHasCause};
ghost use Rattle.mast_cli.specs.inside.Readings.{AreFitConstraints, AreFitMappings, HoldConstraints, HoldMappings};
ghost use Rattle.mast_cli.specs.inside.Readings.{HoldOntology, ConstraintsEvent, MappingsEvent, OntologyEvent};
ghost use Rattle.mast_cli.specs.inside.Readings.{TellsConstraints, TellsMappings, TellsOntology};
ghost use Rattle.mast_cli.specs.inside.Telling.{IfRead, IsValueOf, TellsBytes, WhenTold};
ghost use Rattle.mast_cli.specs.stage.Document.{IsDocumentOf, IsGrammatical, IsLexical, nothing_named};

use crate::file::read_file;
use crate::judged::{Part, ended_at};
use crate::limits::document_bytes;
use mast_constr::read_constraints;
use mast_files::Files;
use mast_mapping::{Mappings, read_mappings};
use mast_onto::read_ontology;
use mast_tbox::{Constraints, Ontology};
use mast_terms::{List, NameKind, NoMemory, Stop, Vocabulary};
use mast_tree::{Doc, DocName, ShapeBreach, Token, read_doc, tokens};
use mast_write::Refusal;
use std::alloc::Global;

/// The stage of an ontology, which is read over no names.
///
/// The names of what was read stand in its vocabulary.
pub fn judge_ontology<F: Files>(
    alloc: Global,
    file: &str,
    files: &mut F,
) -> Result<Part<Ontology>, NoMemory>
    ensures told { IfOk result (WhenTold (F.contents files.old) (TellsOntology file.now (F.reading files.new))) }
    ensures names { IfOk result (IfRead HasNames) }
    ensures kept { F.contents files.new ≡ F.contents files.old }
    ensures cause { IfOk result (PartHasCause (F.faults files.old) (F.faults files.new) (F.reading files.new)) }
{
    let doc = DocName::Ontology;
    let too_long = Refusal::DocBytes { doc };
    match read_file(alloc, file, document_bytes(doc), too_long, files)? {
        Part::Read(bytes) => ontology_of(alloc, &bytes),
        Part::Ended(judged) => Ok(Part::Ended(judged)),
    }
}

/// The stage of a constraint document, which is read over these names and constants.
///
/// What was read is fit for a specification.
pub fn judge_constraints<F: Files>(
    alloc: Global,
    file: &str,
    vocab: Vocabulary,
    files: &mut F,
) -> Result<Part<Constraints>, NoMemory>
    ensures told { IfOk result (WhenTold (F.contents files.old)
        (TellsConstraints vocab file.now (F.reading files.new))) }
    ensures fit { IfOk result (IfRead (AreFitConstraints vocab)) }
    ensures kept { F.contents files.new ≡ F.contents files.old }
    ensures cause { IfOk result (PartHasCause (F.faults files.old) (F.faults files.new) (F.reading files.new)) }
{
    // The names of a vocabulary are lawful, so a document has one reading over them.
    let _ = vocab.len(NameKind::Class);

    let doc = DocName::Constraints;
    let too_long = Refusal::DocBytes { doc };
    match read_file(alloc, file, document_bytes(doc), too_long, files)? {
        Part::Read(bytes) => constraints_of(alloc, &bytes, vocab),
        Part::Ended(judged) => Ok(Part::Ended(judged)),
    }
}

/// The stage of a mapping document, which is read over these names and constants.
///
/// What was read is over its tables, and its places have numbers of 32 bits.
pub fn judge_mappings<F: Files>(
    alloc: Global,
    file: &str,
    vocab: Vocabulary,
    files: &mut F,
) -> Result<Part<Mappings>, NoMemory>
    ensures told { IfOk result (WhenTold (F.contents files.old)
        (TellsMappings vocab file.now (F.reading files.new))) }
    ensures fit { IfOk result (IfRead (AreFitMappings vocab)) }
    ensures kept { F.contents files.new ≡ F.contents files.old }
    ensures cause { IfOk result (PartHasCause (F.faults files.old) (F.faults files.new) (F.reading files.new)) }
{
    // The names of a vocabulary are lawful, so a document has one reading over them.
    let _ = vocab.len(NameKind::Class);

    let doc = DocName::Mappings;
    let too_long = Refusal::DocBytes { doc };
    match read_file(alloc, file, document_bytes(doc), too_long, files)? {
        Part::Read(bytes) => mappings_of(alloc, &bytes, vocab),
        Part::Ended(judged) => Ok(Part::Ended(judged)),
    }
}

// What the bytes of an ontology say.
fn ontology_of(alloc: Global, bytes: &[u8]) -> Result<Part<Ontology>, NoMemory>
    requires { length bytes.now < 4294967295 }
    ensures told { IfOk result (TellsBytes (HoldOntology bytes.now) (OntologyEvent bytes.now)) }
    ensures names { IfOk result (IfRead HasNames) }
{
    let tokens = match tokens_of(alloc, DocName::Ontology, bytes)? {
        Part::Read(tokens) => tokens,
        Part::Ended(judged) => return Ok(Part::Ended(judged)),
    };
    let doc = match tree_of(alloc, DocName::Ontology, bytes, tokens.as_slice())? {
        Part::Read(doc) => doc,
        Part::Ended(judged) => return Ok(Part::Ended(judged)),
    };
    let read = read_ontology(alloc, &doc, Vocabulary::new(alloc));
    value_of(alloc, DocName::Ontology, read)
}

// What the bytes of a constraint document say.
fn constraints_of(
    alloc: Global,
    bytes: &[u8],
    vocab: Vocabulary,
) -> Result<Part<Constraints>, NoMemory>
    requires { length bytes.now < 4294967295 }
    ensures told { IfOk result (TellsBytes (HoldConstraints vocab bytes.now) (ConstraintsEvent vocab bytes.now)) }
    ensures fit { IfOk result (IfRead (AreFitConstraints vocab)) }
{
    let tokens = match tokens_of(alloc, DocName::Constraints, bytes)? {
        Part::Read(tokens) => tokens,
        Part::Ended(judged) => return Ok(Part::Ended(judged)),
    };
    let doc = match tree_of(alloc, DocName::Constraints, bytes, tokens.as_slice())? {
        Part::Read(doc) => doc,
        Part::Ended(judged) => return Ok(Part::Ended(judged)),
    };
    value_of(
        alloc,
        DocName::Constraints,
        constraints_over(alloc, &doc, vocab),
    )
}

// What the bytes of a mapping document say.
fn mappings_of(alloc: Global, bytes: &[u8], vocab: Vocabulary) -> Result<Part<Mappings>, NoMemory>
    requires { length bytes.now < 4294967295 }
    ensures told { IfOk result (TellsBytes (HoldMappings vocab bytes.now) (MappingsEvent vocab bytes.now)) }
    ensures fit { IfOk result (IfRead (AreFitMappings vocab)) }
{
    let tokens = match tokens_of(alloc, DocName::Mappings, bytes)? {
        Part::Read(tokens) => tokens,
        Part::Ended(judged) => return Ok(Part::Ended(judged)),
    };
    let doc = match tree_of(alloc, DocName::Mappings, bytes, tokens.as_slice())? {
        Part::Read(doc) => doc,
        Part::Ended(judged) => return Ok(Part::Ended(judged)),
    };
    value_of(alloc, DocName::Mappings, mappings_over(alloc, &doc, vocab))
}

// The constraints of a document that is read over names and constants.
fn constraints_over(
    alloc: Global,
    doc: &Doc<'_>,
    vocab: Vocabulary,
) -> Result<Constraints, Stop<ShapeBreach>>
    requires tree { IsTree doc.now.tokens.now doc.now.items }
    requires few { length doc.now.tokens.now < 4294967295 }
    ensures exact { let document = seen doc.now in
        Answers result (HasConstraints document vocab) (IsConstraintsBreach document vocab) }
    ensures fit { IfOk result (AreFitConstraints vocab) }
{
    read_constraints(alloc, doc, vocab)
}

// The mappings of a document that is read over names and constants.
fn mappings_over(
    alloc: Global,
    doc: &Doc<'_>,
    vocab: Vocabulary,
) -> Result<Mappings, Stop<ShapeBreach>>
    requires tree { IsTree doc.now.tokens.now doc.now.items }
    requires few { length doc.now.tokens.now < 4294967295 }
    ensures exact { let document = seen doc.now in
        Answers result (HasMappings document vocab) (IsMappingsBreach document vocab) }
    ensures fit { IfOk result (AreFitMappings vocab) }
{
    read_mappings(alloc, doc, vocab)
}

// The tokens of a document's bytes.
fn tokens_of(alloc: Global, doc: DocName, bytes: &[u8]) -> Result<Part<List<Token>>, NoMemory>
    requires { length bytes.now < 4294967295 }
    ensures { IfOk result (TellsBytes (AreTokens bytes.now) (IsLexical doc bytes.now)) }
{
    match tokens(alloc, bytes) {
        Ok(tokens) => Ok(Part::Read(tokens)),
        Err(Stop::Named(breach)) => ended_at(alloc, Refusal::Lex { doc, breach }),
        Err(Stop::NoMemory) => Err(NoMemory),
    }
}

// The tree of these tokens.
fn tree_of<'a>(
    alloc: Global,
    doc: DocName,
    bytes: &'a [u8],
    tokens: &'a [Token],
) -> Result<Part<Doc<'a>>, NoMemory>
    requires few { length bytes.now < 4294967295 }
    requires tokens { AreTokens bytes.now tokens.now }
    ensures { IfOk result (TellsBytes (λ tree. IsDocumentOf bytes.now (seen tree)) (IsGrammatical doc bytes.now)) }
{
    match read_doc(alloc, bytes, tokens) {
        Ok(document) => Ok(Part::Read(document)),
        Err(Stop::Named(breach)) => ended_at(alloc, Refusal::Tree { doc, breach }),
        Err(Stop::NoMemory) => Err(NoMemory),
    }
}

// What a document's reader says of its tree.
fn value_of<T: Drop>(
    alloc: Global,
    doc: DocName,
    read: Result<T, Stop<ShapeBreach>>,
) -> Result<Part<T>, NoMemory>
    ensures { IfOk result (IsValueOf doc read) }
{
    match read {
        Ok(value) => Ok(Part::Read(value)),
        Err(Stop::Named(breach)) => ended_at(alloc, Refusal::Shape { doc, breach }),
        Err(Stop::NoMemory) => Err(NoMemory),
    }
}
