//! The limits of atoms and of names, with what else is wrong at the same item.
use crate::shown::{counted, inside};
use std::alloc::{AllocError, Global};
use std::test::Fail;

// A denial of so many atoms, each on a line from line 2 on, and what stands last in it.
fn denial(alloc: Global, count: usize, last: &str) -> Result<String, AllocError> {
    let mut text = String::from_str(alloc, "Prefix(:=<http://e/>)Constraints(Deny(")?;
    for _ in 0..count {
        text.push_str("\nClass(:A ?x)")?;
    }
    text.push_str("\n")?;
    text.push_str(last)?;
    text.push_str("))")?;
    Ok(text)
}

static DENIALS: [(usize, &str, &str); 9] = [
    (24, "", "1"),
    (23, "Attr(:u ?x Int(1))", "1"),
    (24, "Attr(:u ?x Int(1))", "26 Atoms"),
    (24, "Class(\n\"x\" ?x)", "26 Atoms"),
    (24, "Role(\n:p ?x ?y)\nno", "26 Atoms"),
    (24, "Role(:p ?x)", "26 Shape"),
    (24, "no", "26 Shape"),
    (23, "no Class(:A ?x) Class(:A ?x)", "25 Shape"),
    (30, "no", "26 Atoms"),
];

#[test]
fn a_denial_has_at_most_24_atoms(rt: HostRuntime) -> Result<(), Fail> {
    let alloc = rt.alloc();
    for (count, last, want) in DENIALS {
        let source = denial(alloc, count, last)?;
        assert_eq!(rt;
            counted(alloc, source.as_str())?.as_str(),
            want,
            "{count} {last}"
        );
    }
    Ok(())
}

// An identification on line 2 with two paths of so many steps, and what stands last in the second.
fn identification(
    alloc: Global,
    first: usize,
    second: usize,
    last: &str,
) -> Result<String, AllocError> {
    let mut text = String::from_str(alloc, "\nIdentify(\n\"x\" Path(:p")?;
    for _ in 0..first {
        text.push_str(" :p")?;
    }
    text.push_str(") Path(:p")?;
    for _ in 0..second {
        text.push_str(" :p")?;
    }
    text.push_str(last)?;
    text.push_str("))")?;
    Ok(text)
}

// The left side is wrong, on line 3: its breach is told where the limit is not passed.
static IDENTIFICATIONS: [(usize, usize, &str, &str); 8] = [
    (0, 0, "", "3 Shape"),
    (4, 5, "", "3 Shape"),
    (0, 8, " \"x\"", "3 Shape"),
    (5, 5, "", "2 Atoms"),
    (10, 0, "", "2 Atoms"),
    (0, 10, "", "2 Atoms"),
    (0, 9, " \"x\"", "2 Atoms"),
    (200, 200, " Path(:p)", "2 Atoms"),
];

#[test]
fn an_identification_has_at_most_24_atoms(rt: HostRuntime) -> Result<(), Fail> {
    let alloc = rt.alloc();
    for (first, second, last, want) in IDENTIFICATIONS {
        let constraints = identification(alloc, first, second, last)?;
        let got = inside(alloc, constraints.as_str())?;
        assert_eq!(rt; got.as_str(), want, "{first} {second} {last}");
    }
    let whole = "Identify(:A Path(:p :p :p :p :p :p) Path(:p :p :p :p :p))";
    assert_eq!(rt;
        inside(alloc, whole)?.as_str(),
        "1 c0 r0r0r0r0r0r0 r0r0r0r0r0;"
    );
    Ok(())
}

// So many constraints, each with its number in it and on a line from line 2 on, and what stands last.
fn numbered(
    alloc: Global,
    before: &str,
    behind: &str,
    count: usize,
    last: &str,
) -> Result<String, AllocError> {
    let mut text = String::from_str(alloc, "Prefix(:=<http://e/>)Constraints(")?;
    for number in 0..count {
        write!(text, "\n{before}{number}{behind}")?;
    }
    text.push_str("\n")?;
    text.push_str(last)?;
    text.push_str(")")?;
    Ok(text)
}

static NAMES: [(&str, &str, usize, &str, &str); 4] = [
    ("Functional(:n", ")", 65536, "no", "65537 Names"),
    (
        "Functional(Attr(:n",
        "))",
        65535,
        "Functional(:q)Deny(Attr(
:q ?x ?v))",
        "65538 TwoKinds",
    ),
    (
        "Deny(Attr(:u ?x Int(",
        ")))",
        65535,
        "Deny(Attr(:u ?x Int(07)) Attr(:u ?x Text(
\"7\")))",
        "65538 Names",
    ),
    (
        "Deny(Attr(:u ?x Int(",
        ")))",
        65535,
        "Deny(Attr(:u ?x Int(
no)))",
        "65538 BadConstant",
    ),
];

#[test]
fn there_are_at_most_65535_names_of_a_kind_and_constants(rt: HostRuntime) -> Result<(), Fail> {
    let alloc = rt.alloc();
    for (before, behind, count, last, want) in NAMES {
        let source = numbered(alloc, before, behind, count, last)?;
        assert_eq!(rt;
            counted(alloc, source.as_str())?.as_str(),
            want,
            "{before} {last}"
        );
    }
    Ok(())
}
