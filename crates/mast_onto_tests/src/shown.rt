//! What the document of an ontology states, as a text.
use mast_onto::read_ontology;
use mast_tbox::{Basic, Inclusion, Negative, Ontology, Prop, RoleExpr};
use mast_terms::{Kind, Name, Stop, Vocabulary};
use mast_tree::{ShapeBreach, read_doc, tokens};
use std::alloc::{AllocError, Global};

// A name or a line by its number.
fn put(text: &mut String, before: &str, number: u32, behind: &str) -> Result<(), AllocError> {
    write!(text, "{before}{number}{behind}")
}

// A role with its number, and a dash behind the inverse of one.
fn put_role(text: &mut String, role: RoleExpr, behind: &str) -> Result<(), AllocError> {
    match role {
        RoleExpr::Direct(name) => put(text, "P", name.0, behind),
        RoleExpr::Inverse(name) => {
            put(text, "P", name.0, "-")?;
            text.push_str(behind)
        }
    }
}

// A class, a role with a question mark, or an attribute with one.
fn put_basic(text: &mut String, basic: Basic, behind: &str) -> Result<(), AllocError> {
    match basic {
        Basic::Class(name) => put(text, "A", name.0, behind),
        Basic::Some(role) => {
            put_role(text, role, "?")?;
            text.push_str(behind)
        }
        Basic::Subjects(name) => {
            put(text, "U", name.0, "?")?;
            text.push_str(behind)
        }
    }
}

fn put_end(text: &mut String, end: Option<Name>) -> Result<(), AllocError> {
    match end {
        None => text.push_str("?"),
        Some(name) => put(text, ".A", name.0, ""),
    }
}

fn kind_text(kind: Kind) -> &'static str {
    match kind {
        Kind::Text => "Text",
        Kind::Integer => "Integer",
        Kind::Date => "Date",
    }
}

fn put_inclusion(text: &mut String, inclusion: Inclusion) -> Result<(), AllocError> {
    match inclusion {
        Inclusion::Class { sub, sup } => {
            put_basic(text, sub, "<")?;
            put(text, "A", sup.0, ";")
        }
        Inclusion::Exists { sub, role, end, k } => {
            put_basic(text, sub, "<")?;
            put_role(text, role, "")?;
            put_end(text, end)?;
            put(text, "#", k, ";")
        }
        Inclusion::HasValue { sub, attr, k } => {
            put_basic(text, sub, "<")?;
            put(text, "U", attr.0, "?#")?;
            put(text, "", k, ";")
        }
        Inclusion::Role { sub, sup } => {
            put_role(text, sub, "<")?;
            put_role(text, sup, ";")
        }
        Inclusion::Attr { sub, sup } => {
            put(text, "U", sub.0, "<")?;
            put(text, "U", sup.0, ";")
        }
        Inclusion::Range { attr, kind } => {
            put(text, "U", attr.0, ":")?;
            text.push_str(kind_text(kind))?;
            text.push_str(";")
        }
    }
}

fn put_negative(text: &mut String, negative: Negative) -> Result<(), AllocError> {
    match negative {
        Negative::Concepts { left, right } => {
            put_basic(text, left, "/")?;
            put_basic(text, right, ";")
        }
        Negative::Roles { left, right } => {
            put_role(text, left, "/")?;
            put_role(text, right, ";")
        }
        Negative::Attrs { left, right } => {
            put(text, "U", left.0, "/")?;
            put(text, "U", right.0, ";")
        }
        Negative::Irreflexive { role } => put(text, "P", role.0, "!;"),
    }
}

fn put_functional(text: &mut String, prop: Prop) -> Result<(), AllocError> {
    match prop {
        Prop::Role(role) => put_role(text, role, "=;"),
        Prop::Attr(name) => put(text, "U", name.0, "=;"),
    }
}

// The inclusions, the negatives and the functional properties, each behind its line.
fn stated(alloc: Global, ontology: &Ontology) -> Result<String, AllocError> {
    let mut text = String::new(alloc);
    for lined in ontology.tbox.inclusions.as_slice() {
        put(&mut text, "", lined.line, " ")?;
        put_inclusion(&mut text, lined.item)?;
    }
    for lined in ontology.tbox.negatives.as_slice() {
        put(&mut text, "", lined.line, " ")?;
        put_negative(&mut text, lined.item)?;
    }
    for lined in ontology.tbox.functional.as_slice() {
        put(&mut text, "", lined.line, " ")?;
        put_functional(&mut text, lined.item)?;
    }
    Ok(text)
}

// A breach by its line and its kind.
fn told(alloc: Global, stop: Stop<ShapeBreach>) -> Result<String, AllocError> {
    match stop {
        Stop::Named(ShapeBreach { line, kind }) => format!(in alloc; "{line} {kind:?}"),
        Stop::NoMemory => String::from_str(alloc, "no document"),
    }
}

// The ontology of a source, or its first breach.
fn read(alloc: Global, source: &[u8]) -> Result<Ontology, Stop<ShapeBreach>> {
    if source.len() >= 4294967295 {
        return Err(Stop::NoMemory);
    }
    let list = match tokens(alloc, source) {
        Ok(list) => list,
        Err(_) => return Err(Stop::NoMemory),
    };
    if list.as_slice().len() >= 4294967295 {
        return Err(Stop::NoMemory);
    }
    match read_doc(alloc, source, list.as_slice()) {
        Ok(doc) => read_ontology(alloc, &doc, Vocabulary::new(alloc)),
        Err(_) => Err(Stop::NoMemory),
    }
}

/// What a source states, or the line and the kind of its first breach.
pub(crate) fn outcome(alloc: Global, source: &str) -> Result<String, AllocError> {
    match read(alloc, source.as_bytes()) {
        Ok(ontology) => stated(alloc, &ontology),
        Err(stop) => told(alloc, stop),
    }
}

/// How many inclusions, negatives and functional properties a source states, or the line and the kind of its first breach.
pub(crate) fn counted(alloc: Global, source: &str) -> Result<String, AllocError> {
    match read(alloc, source.as_bytes()) {
        Ok(ontology) => {
            let inclusions = ontology.tbox.inclusions.as_slice().len();
            let negatives = ontology.tbox.negatives.as_slice().len();
            let functional = ontology.tbox.functional.as_slice().len();
            format!(in alloc; "{inclusions} {negatives} {functional}")
        }
        Err(stop) => told(alloc, stop),
    }
}

/// A list of so many names, each on a line.
pub(crate) fn list_of(alloc: Global, word: &str, count: usize) -> Result<String, AllocError> {
    let mut text = format!(in alloc; "{word}(")?;
    for number in 0..count {
        write!(text, "\n:n{number}")?;
    }
    text.push_str(")")?;
    Ok(text)
}

/// What axioms on the first line of an ontology state, or the line and the kind of their first breach.
pub(crate) fn inside(alloc: Global, axioms: &str) -> Result<String, AllocError> {
    let source = format!(in alloc; "Prefix(:=<http://e/>)Ontology({axioms}\n)")?;
    outcome(alloc, source.as_str())
}
