//! What the document of constraints says, as a text.
use mast_constr::read_constraints;
use mast_cq::{Arg, Atom};
use mast_tbox::{Basic, Constraint, Constraints, Prop, RoleExpr, Step};
use mast_terms::{List, Stop, Vocabulary};
use mast_tree::{ShapeBreach, read_doc, tokens};
use std::alloc::{AllocError, Global};

// A role by its number, with `-` behind an inverse.
fn put_role(text: &mut String, role: RoleExpr) -> Result<(), AllocError> {
    match role {
        RoleExpr::Direct(name) => {
            let n = name.0;
            write!(text, "r{n}")
        }
        RoleExpr::Inverse(name) => {
            let n = name.0;
            write!(text, "r{n}-")
        }
    }
}

fn put_arg(text: &mut String, arg: Arg) -> Result<(), AllocError> {
    match arg {
        Arg::Blank => text.push_str("_"),
        Arg::Var(n) => write!(text, "?{n}"),
        Arg::Constant(n) => write!(text, "!{n}"),
    }
}

fn put_atom(text: &mut String, atom: Atom) -> Result<(), AllocError> {
    match atom {
        Atom::Class { name, arg } => {
            let n = name.0;
            write!(text, " c{n}")?;
            put_arg(text, arg)
        }
        Atom::Role { name, from, to } => {
            let n = name.0;
            write!(text, " r{n}")?;
            put_arg(text, from)?;
            put_arg(text, to)
        }
        Atom::Attr { name, from, value } => {
            let n = name.0;
            write!(text, " a{n}")?;
            put_arg(text, from)?;
            put_arg(text, value)
        }
    }
}

fn put_path(text: &mut String, path: &List<Step>) -> Result<(), AllocError> {
    text.push_str(" ")?;
    for step in path.as_slice() {
        match step {
            Step::Role(role) => put_role(text, *role)?,
            Step::Test(name) => {
                let n = name.0;
                write!(text, "c{n}")?;
            }
            Step::Attr(name) => {
                let n = name.0;
                write!(text, "a{n}")?;
            }
        }
    }
    Ok(())
}

fn put_constraint(text: &mut String, constraint: &Constraint) -> Result<(), AllocError> {
    match constraint {
        Constraint::Functional { prop } => match prop {
            Prop::Role(role) => put_role(text, *role)?,
            Prop::Attr(name) => {
                let n = name.0;
                write!(text, "a{n}")?;
            }
        },
        Constraint::Identify { concept, paths } => {
            match concept {
                Basic::Class(name) => {
                    let n = name.0;
                    write!(text, "c{n}")?;
                }
                Basic::Some(role) => put_role(text, *role)?,
                Basic::Subjects(name) => {
                    let n = name.0;
                    write!(text, "a{n}")?;
                }
            }
            for path in paths.as_slice() {
                put_path(text, path)?;
            }
        }
        Constraint::Deny { atoms } => {
            for atom in atoms.as_slice() {
                put_atom(text, *atom)?;
            }
        }
    }
    text.push_str(";")
}

// The constraints of a source over a vocabulary, or its first breach.
fn read(alloc: Global, source: &[u8], vocab: Vocabulary) -> Result<Constraints, Stop<ShapeBreach>> {
    if source.len() >= 4294967295 {
        return Err(Stop::NoMemory);
    }
    let list = match tokens(alloc, source) {
        Ok(list) => list,
        Err(_) => return Err(Stop::NoMemory),
    };
    if list.as_slice().len() >= 4294967295 {
        return Err(Stop::NoMemory);
    }
    match read_doc(alloc, source, list.as_slice()) {
        Ok(doc) => read_constraints(alloc, &doc, vocab),
        Err(_) => Err(Stop::NoMemory),
    }
}

// The constraints, each with its line.
fn said(alloc: Global, constraints: &Constraints) -> Result<String, AllocError> {
    let mut text = String::new(alloc);
    for lined in constraints.list.as_slice() {
        let line = lined.line;
        write!(text, "{line} ")?;
        put_constraint(&mut text, &lined.item)?;
    }
    Ok(text)
}

// A breach by its line and its kind.
fn told(alloc: Global, stop: Stop<ShapeBreach>) -> Result<String, AllocError> {
    match stop {
        Stop::Named(ShapeBreach { line, kind }) => format!(in alloc; "{line} {kind:?}"),
        Stop::NoMemory => String::from_str(alloc, "no document"),
    }
}

/// What a source says over a vocabulary, or the line and the kind of its first breach.
pub(crate) fn outcome(
    alloc: Global,
    source: &str,
    vocab: Vocabulary,
) -> Result<String, AllocError> {
    match read(alloc, source.as_bytes(), vocab) {
        Ok(constraints) => said(alloc, &constraints),
        Err(stop) => told(alloc, stop),
    }
}

/// How many constraints a source says, or the line and the kind of its first breach.
pub(crate) fn counted(alloc: Global, source: &str) -> Result<String, AllocError> {
    match read(alloc, source.as_bytes(), Vocabulary::new(alloc)) {
        Ok(constraints) => {
            let count = constraints.list.as_slice().len();
            format!(in alloc; "{count}")
        }
        Err(stop) => told(alloc, stop),
    }
}

/// What constraints on the first line of a document say, or the line and the kind of their first breach.
pub(crate) fn inside(alloc: Global, constraints: &str) -> Result<String, AllocError> {
    let source = format!(in alloc; "Prefix(:=<http://e/>)Constraints({constraints})")?;
    outcome(alloc, source.as_str(), Vocabulary::new(alloc))
}
