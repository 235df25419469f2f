//! The limits of items and of names, with what else is wrong at the same item.
use crate::shown::{counted, list_of};
use std::alloc::{AllocError, Global};
use std::test::Fail;

// An ontology with the disjointness of so many classes, as many axioms of two classes, each on a line, and what stands last.
fn of_items(
    alloc: Global,
    classes: usize,
    axioms: usize,
    last: &str,
) -> Result<String, AllocError> {
    let list = list_of(alloc, "DisjointClasses", classes)?;
    let mut text = format!(in alloc; "Prefix(:=<http://e/>)Ontology({list}")?;
    for _ in 0..axioms {
        text.push_str("\nSubClassOf(:n0 :n1)")?;
    }
    text.push_str("\n")?;
    text.push_str(last)?;
    text.push_str(")")?;
    Ok(text)
}

// Of 1414 classes there are 998,991 pairs, and of 1415 more than a million. Where 1009 axioms fill the ontology, what stands last is on line 2425.
static ITEMS: [(usize, usize, &str, &str); 8] = [
    (1414, 1009, "SubClassOf(:n0 owl:Thing)", "1009 998991 0"),
    (1414, 1009, "SubClassOf(:n0 :n1)", "2425 Items"),
    (
        1414,
        1009,
        "SubClassOf(:n0 :n0)SubClassOf(:n0 owl:Thing)\n:o",
        "2426 Shape",
    ),
    (1414, 1009, "SubClassOf(:n0\n\"x\")", "2426 Shape"),
    (1414, 1009, "FunctionalDataProperty(:u)\nno", "2425 Items"),
    (
        1414,
        1009,
        "SubClassOf(:n0 ObjectIntersectionOf(owl:Thing\n:n1))",
        "2425 Items",
    ),
    (1414, 1008, "EquivalentClasses(:n0\n:n1)", "2424 Items"),
    (1415, 0, "no", "1 Items"),
];

#[test]
fn an_ontology_has_at_most_a_million_items(rt: HostRuntime) -> Result<(), Fail> {
    let alloc = rt.alloc();
    for (classes, axioms, last, want) in ITEMS {
        let source = of_items(alloc, classes, axioms, last)?;
        assert_eq!(rt; counted(alloc, source.as_str())?.as_str(), want, "{last}");
    }
    Ok(())
}

// Each name of the list is on a line from line 2 on, so what stands behind 65,535 names is on line 65537.
static NAMES: [(&str, usize, &str, &str); 6] = [
    (
        "EquivalentClasses",
        65535,
        "SubClassOf(:n0 :n65534)",
        "65536 0 0",
    ),
    (
        "EquivalentClasses",
        65535,
        "SubClassOf(:n0
owl:Nothing)",
        "65538 NotDlLite",
    ),
    ("EquivalentClasses", 65536, "no", "65537 Names"),
    ("EquivalentObjectProperties", 65536, "no", "65537 Names"),
    (
        "EquivalentDataProperties",
        65535,
        "Declaration(DataProperty(
:n65535))",
        "65538 Names",
    ),
    (
        "EquivalentDataProperties",
        65535,
        "SymmetricObjectProperty(:p)FunctionalDataProperty(
:p)",
        "65538 TwoKinds",
    ),
];

#[test]
fn there_are_at_most_65535_names_of_a_kind(rt: HostRuntime) -> Result<(), Fail> {
    let alloc = rt.alloc();
    for (word, count, last, want) in NAMES {
        let list = list_of(alloc, word, count)?;
        let source = format!(in alloc; "Prefix(:=<http://e/>)Ontology({list}\n{last})")?;
        assert_eq!(rt;
            counted(alloc, source.as_str())?.as_str(),
            want,
            "{word} {last}"
        );
    }
    Ok(())
}
