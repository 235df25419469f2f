//! Tests of specifications: what they have of their documents, and where documents are refused.
use mast_canon::Spec;
use mast_canon_tests::{document, mappings_of, specification_of};
use mast_tbox::RestrictionBreach;
use mast_terms::{NameKind, NoMemory, Stop, Vocabulary};
use std::alloc::{AllocError, Global};
use std::test::Fail;

// The specification of a mapping document alone.
fn facts_alone(alloc: Global, mappings: &str) -> Result<Spec, NoMemory> {
    let mappings = mappings_of(alloc, mappings.as_bytes(), Vocabulary::new(alloc))?;
    Spec::facts_only(alloc, mappings)
}

// How many inclusions, negatives and functional properties, constraints, tables and split mappings a specification
// has, and how many classes, roles and attributes.
fn counted(alloc: Global, spec: &Spec) -> Result<String, AllocError> {
    let mut text = String::new(alloc);
    let inclusions = spec.tbox.inclusions.as_slice().len();
    let negatives = spec.tbox.negatives.as_slice().len();
    let functional = spec.tbox.functional.as_slice().len();
    write!(text, "{inclusions} {negatives} {functional}")?;
    let constraints = spec.constraints.as_slice().len();
    let tables = spec.tables.as_slice().len();
    let maps = spec.maps.as_slice().len();
    write!(text, ", {constraints} {tables} {maps}")?;
    let classes = spec.vocab.len(NameKind::Class);
    let roles = spec.vocab.len(NameKind::Role);
    let attributes = spec.vocab.len(NameKind::Attr);
    write!(text, ", {classes} {roles} {attributes}")?;
    Ok(text)
}

// What a specification has, or the restriction breach at its document, its line and its kind.
fn told(alloc: Global, made: Result<Spec, Stop<RestrictionBreach>>) -> Result<String, AllocError> {
    match made {
        Ok(spec) => counted(alloc, &spec),
        Err(Stop::Named(RestrictionBreach { doc, line, kind })) => {
            format!(in alloc; "{doc:?} {line} {kind:?}")
        }
        Err(Stop::NoMemory) => String::from_str(alloc, "no memory"),
    }
}

// What the specification of these axioms, constraints, tables and maps has, or their restriction breach.
fn outcome(
    alloc: Global,
    axioms: &str,
    constraints: &str,
    mappings: &str,
) -> Result<String, AllocError> {
    let axioms = document(alloc, "Ontology", axioms)?;
    let constraints = document(alloc, "Constraints", constraints)?;
    let mappings = document(alloc, "Mappings", mappings)?;
    told(
        alloc,
        specification_of(
            alloc,
            axioms.as_str(),
            constraints.as_str(),
            mappings.as_str(),
        ),
    )
}

const MAPPINGS: &str = "Table(t \"t.csv\" Column(id integer) Column(boss integer Null))
Table(u \"u.csv\" Column(name text))
Map(\"SELECT id, boss FROM t\" Class(:Employee Obj(p id)) Role(:hasBoss Obj(p id) Obj(p boss)) Attr(:id Obj(p id) id))
Map(\"SELECT name FROM u\" Class(:Guest Obj(g name)))";

static SPECIFICATIONS: [(&str, &str, &str, &str); 6] = [
    ("", "", "", "0 0 0, 0 0 0, 0 0 0"),
    ("", "", MAPPINGS, "0 0 0, 0 2 4, 2 1 1"),
    (
        "SubClassOf(:Manager :Employee)\nObjectPropertyDomain(:hasBoss :Employee)\nDisjointClasses(:Guest :Employee)",
        "Functional(:hasBoss)\nDeny(Role(:hasBoss ?x ?x))\nIdentify(:Employee Path(Attr(:id)))",
        MAPPINGS,
        "2 1 0, 3 2 4, 3 1 1",
    ),
    (
        "SubClassOf(:A ObjectSomeValuesFrom(:p :B))\nDataPropertyRange(:u xsd:integer)\nFunctionalDataProperty(:u)",
        "",
        "",
        "2 0 1, 0 0 0, 2 1 1",
    ),
    (
        "SubClassOf(:A :B)",
        "Deny(Class(:C ?x) Role(:q ?x ?y))",
        "Table(t \"t.csv\" Column(id integer))\nMap(\"SELECT id FROM t\" Class(:D Obj(p id)) Role(:r Obj(p id) Obj(q)))",
        "1 0 0, 1 1 2, 4 2 0",
    ),
    (
        "FunctionalObjectProperty(:p)",
        "Functional(:p)\nFunctional(ObjectInverseOf(:p))",
        "",
        "0 0 1, 2 0 0, 0 1 0",
    ),
];

#[test]
fn a_specification_has_what_its_documents_say(rt: HostRuntime) -> Result<(), Fail> {
    for (axioms, constraints, mappings, want) in &SPECIFICATIONS {
        let got = outcome(rt.alloc(), axioms, constraints, mappings)?;
        assert_eq!(rt; got.as_str(), *want, "{axioms} {constraints} {mappings}");
    }
    Ok(())
}

// Axioms and constraints, each from line 3 on, and what the specification has or the restriction breach.
static RESTRICTIONS: [(&str, &str, &str); 16] = [
    (
        "FunctionalObjectProperty(:p)\nSubObjectPropertyOf(:q :p)",
        "",
        "Ontology 4 FunctSpecialised",
    ),
    (
        "SubObjectPropertyOf(:q :p)",
        "\nFunctional(:p)",
        "Ontology 3 FunctSpecialised",
    ),
    (
        "FunctionalObjectProperty(:p)\nInverseObjectProperties(:p :q)",
        "",
        "2 0 1, 0 0 0, 0 2 0",
    ),
    (
        "FunctionalObjectProperty(:p)\nSubObjectPropertyOf(:q :p)\nSubObjectPropertyOf(:p :q)",
        "",
        "2 0 1, 0 0 0, 0 2 0",
    ),
    (
        "FunctionalObjectProperty(:p)\nInverseObjectProperties(:p :q)\nSubObjectPropertyOf(:r :q)",
        "",
        "Ontology 5 FunctSpecialised",
    ),
    (
        "FunctionalObjectProperty(:q)\nSubObjectPropertyOf(:q :p)",
        "",
        "1 0 1, 0 0 0, 0 2 0",
    ),
    (
        "FunctionalDataProperty(:u)\n\nSubDataPropertyOf(:w :u)",
        "",
        "Ontology 5 FunctSpecialised",
    ),
    (
        "FunctionalObjectProperty(:p)\nSubClassOf(:A ObjectSomeValuesFrom(:p :B))",
        "",
        "Ontology 4 FunctSpecialised",
    ),
    (
        "FunctionalObjectProperty(:p)\nSubClassOf(:A ObjectSomeValuesFrom(:p owl:Thing))",
        "",
        "1 0 1, 0 0 0, 1 1 0",
    ),
    (
        "",
        "Identify(:Person Path(:livesIn Attr(:zip)))",
        "Constraints 3 NotLocal",
    ),
    (
        "",
        "Identify(:Person Path(:livesIn Test(:Town)))",
        "0 0 0, 1 0 0, 2 1 0",
    ),
    (
        "SubObjectPropertyOf(:rents :livesIn)",
        "Identify(:Person Path(:livesIn Test(:Town)))",
        "Constraints 3 AnchorSpecialised",
    ),
    (
        "SubObjectPropertyOf(:rents :livesIn)",
        "Identify(:Person Path(:livesIn) Path(:rents))",
        "1 0 0, 1 0 0, 1 2 0",
    ),
    (
        "SubObjectPropertyOf(:rents :livesIn)",
        "\nIdentify(:Person Path(:rents))\nIdentify(:Person Path(:livesIn))\nIdentify(:Person Path(:p :q))",
        "Constraints 5 AnchorSpecialised",
    ),
    (
        "SubObjectPropertyOf(:rents :livesIn)",
        "Identify(:Person Path(:p :q))\nIdentify(:Person Path(:livesIn))",
        "Constraints 3 NotLocal",
    ),
    (
        "SubObjectPropertyOf(:q :p)",
        "Identify(:A Path(:p :q))\nFunctional(:p)",
        "Ontology 3 FunctSpecialised",
    ),
];

#[test]
fn a_restriction_breach_is_told_at_its_line(rt: HostRuntime) -> Result<(), Fail> {
    for (axioms, constraints, want) in &RESTRICTIONS {
        let got = outcome(rt.alloc(), axioms, constraints, "")?;
        assert_eq!(rt; got.as_str(), *want, "{axioms} {constraints}");
    }
    Ok(())
}

#[test]
fn mappings_alone_make_a_specification(rt: HostRuntime) -> Result<(), Fail> {
    let alloc = rt.alloc();
    for (mappings, want) in [
        ("", "0 0 0, 0 0 0, 0 0 0"),
        (MAPPINGS, "0 0 0, 0 2 4, 2 1 1"),
    ] {
        let source = document(alloc, "Mappings", mappings)?;
        let spec = facts_alone(alloc, source.as_str())?;
        assert_eq!(rt; counted(alloc, &spec)?.as_str(), want, "{mappings}");
    }
    Ok(())
}
