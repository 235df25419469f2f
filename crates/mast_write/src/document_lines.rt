//! The lines of what is wrong with a document, or with the three documents together.
ghost use Rattle.std.specs.Prelude.{◌≡◌, IfOk};
ghost use Rattle.mast_write.specs.RefusalLines as lines;

use mast_tbox::{RestrictionBreach, RestrictionKind};
use mast_terms::NoMemory;
use mast_tree::{DocName, LexBreach, LexKind, ShapeBreach, ShapeKind, TreeBreach, TreeKind};
use std::alloc::Global;

// `refused DOC byte AT KIND`
pub(crate) fn lex_line(alloc: Global, doc: DocName, breach: LexBreach) -> Result<Vec<u8>, NoMemory>
    ensures { IfOk result (λ text. text.items ≡ (lines.lex_event doc breach).1) }
{
    let doc = doc_word(doc);
    let at = breach.at;
    let kind = lex_word(breach.kind);
    Ok(format!(in alloc; "refused {doc} byte {at} {kind}\n")?.into_bytes())
}

// `refused DOC token T unexpected`, or `limit depth DOC token T`
pub(crate) fn tree_line(
    alloc: Global,
    doc: DocName,
    breach: TreeBreach,
) -> Result<Vec<u8>, NoMemory>
    ensures { IfOk result (λ text. text.items ≡ (lines.tree_event doc breach.token breach.kind).1) }
{
    let doc = doc_word(doc);
    let token = breach.token;
    match breach.kind {
        TreeKind::Unexpected => {
            Ok(format!(in alloc; "refused {doc} token {token} unexpected\n")?.into_bytes())
        }
        TreeKind::Deep => Ok(format!(in alloc; "limit depth {doc} token {token}\n")?.into_bytes()),
    }
}

// `refused DOC line L KIND`, `limit LIMIT DOC line L`, or `refused mappings line L sql T`
pub(crate) fn shape_line(
    alloc: Global,
    doc: DocName,
    breach: ShapeBreach,
) -> Result<Vec<u8>, NoMemory>
    ensures { IfOk result (λ text. text.items ≡ (lines.shape_event doc breach.line breach.kind).1) }
{
    let line = breach.line;
    match breach.kind {
        ShapeKind::Shape => shape_refused(alloc, doc, line, "shape"),
        ShapeKind::UnknownPrefix => shape_refused(alloc, doc, line, "unknown-prefix"),
        ShapeKind::TwoKinds => shape_refused(alloc, doc, line, "two-kinds"),
        ShapeKind::Datatype => shape_refused(alloc, doc, line, "datatype"),
        ShapeKind::NotDlLite => shape_refused(alloc, doc, line, "not-dl-lite"),
        ShapeKind::AssertionHere => shape_refused(alloc, doc, line, "assertion-here"),
        ShapeKind::TopOnLeft => shape_refused(alloc, doc, line, "top-on-left"),
        ShapeKind::BadConstant => shape_refused(alloc, doc, line, "bad-constant"),
        ShapeKind::SortClash => shape_refused(alloc, doc, line, "sort-clash"),
        ShapeKind::DoubleName => shape_refused(alloc, doc, line, "double-name"),
        ShapeKind::UnknownTable => shape_refused(alloc, doc, line, "unknown-table"),
        ShapeKind::UnknownColumn => shape_refused(alloc, doc, line, "unknown-column"),
        ShapeKind::KindClash => shape_refused(alloc, doc, line, "kind-clash"),
        ShapeKind::Sql { token } => sql_refused(alloc, line, token),
        ShapeKind::Names => shape_limit(alloc, doc, line, "names"),
        ShapeKind::Items => shape_limit(alloc, doc, line, "items"),
        ShapeKind::Atoms => shape_limit(alloc, doc, line, "atoms"),
        ShapeKind::Aliases => shape_limit(alloc, doc, line, "aliases"),
    }
}

// `refused DOC line L KIND`
fn shape_refused(alloc: Global, doc: DocName, line: u32, kind: &str) -> Result<Vec<u8>, NoMemory>
    ensures { IfOk result (λ text. text.items ≡ (lines.shape_refused doc line kind.now).1) }
{
    let doc = doc_word(doc);
    Ok(format!(in alloc; "refused {doc} line {line} {kind}\n")?.into_bytes())
}

// `limit LIMIT DOC line L`
fn shape_limit(alloc: Global, doc: DocName, line: u32, name: &str) -> Result<Vec<u8>, NoMemory>
    ensures { IfOk result (λ text. text.items ≡ (lines.shape_limit doc line name.now).1) }
{
    let doc = doc_word(doc);
    Ok(format!(in alloc; "limit {name} {doc} line {line}\n")?.into_bytes())
}

// `refused mappings line L sql T`
fn sql_refused(alloc: Global, line: u32, token: u32) -> Result<Vec<u8>, NoMemory>
    ensures { IfOk result (λ text. text.items ≡ (lines.sql_refused line token).1) }
{
    Ok(format!(in alloc; "refused mappings line {line} sql {token}\n")?.into_bytes())
}

// `refused restrictions DOC line L KIND`
pub(crate) fn restriction_line(
    alloc: Global,
    breach: RestrictionBreach,
) -> Result<Vec<u8>, NoMemory>
    ensures { IfOk result (λ text. text.items ≡ (lines.restriction_event breach).1) }
{
    let doc = doc_word(breach.doc);
    let line = breach.line;
    let kind = restriction_word(breach.kind);
    Ok(format!(in alloc; "refused restrictions {doc} line {line} {kind}\n")?.into_bytes())
}

// `limit bytes DOC`
pub(crate) fn doc_bytes(alloc: Global, doc: DocName) -> Result<Vec<u8>, NoMemory>
    ensures { IfOk result (λ text. text.items ≡ (lines.doc_bytes doc).1) }
{
    let doc = doc_word(doc);
    Ok(format!(in alloc; "limit bytes {doc}\n")?.into_bytes())
}

// `limit closure violation DOC line L`
pub(crate) fn violation_closure(alloc: Global, doc: DocName, line: u32) -> Result<Vec<u8>, NoMemory>
    ensures { IfOk result (λ text. text.items ≡ (lines.violation_closure doc line).1) }
{
    let doc = doc_word(doc);
    Ok(format!(in alloc; "limit closure violation {doc} line {line}\n")?.into_bytes())
}

pub(crate) fn doc_word(doc: DocName) -> &'static str
    ensures { result.now ≡ lines.doc_word doc }
{
    match doc {
        DocName::Ontology => "ontology",
        DocName::Constraints => "constraints",
        DocName::Mappings => "mappings",
    }
}

fn lex_word(kind: LexKind) -> &'static str
    ensures { result.now ≡ lines.lex_word kind }
{
    match kind {
        LexKind::NotUtf8 => "not-utf8",
        LexKind::Character => "character",
        LexKind::OpenString => "open-string",
        LexKind::Escape => "escape",
        LexKind::OpenIri => "open-iri",
    }
}

fn restriction_word(kind: RestrictionKind) -> &'static str
    ensures { result.now ≡ lines.restriction_word kind }
{
    match kind {
        RestrictionKind::FunctSpecialised => "funct-specialised",
        RestrictionKind::NotLocal => "not-local",
        RestrictionKind::AnchorSpecialised => "anchor-specialised",
    }
}
