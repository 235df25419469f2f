//! Breaches: each kind in each place, in the first axiom and in a later one, and which of two counts.
use crate::shown::{inside, outcome};
use std::alloc::Global;
use std::process::Abort;
use std::test::Fail;

// Places, each by what stands before and behind it.

static LEFTS: [(&str, &str); 7] = [
    ("SubClassOf(", " :B)"),
    ("EquivalentClasses(", " :B)"),
    ("EquivalentClasses(:A :B ", ")"),
    ("DisjointClasses(", " :B)"),
    ("DisjointClasses(:A :B ", ")"),
    ("SubClassOf(:A ObjectComplementOf(", "))"),
    (
        "DataPropertyDomain(:u ObjectIntersectionOf(:B ObjectComplementOf(",
        ")))",
    ),
];

static RIGHTS: [(&str, &str); 7] = [
    ("SubClassOf(:A ", ")"),
    ("ObjectPropertyDomain(:p ", ")"),
    ("ObjectPropertyRange(:p ", ")"),
    ("DataPropertyDomain(:u ", ")"),
    ("SubClassOf(:A ObjectIntersectionOf(", " :B))"),
    ("SubClassOf(:A ObjectIntersectionOf(:B :C ", "))"),
    (
        "ObjectPropertyRange(:p ObjectIntersectionOf(:B ObjectIntersectionOf(:C ",
        ")))",
    ),
];

static ROLES: [(&str, &str); 19] = [
    ("SubObjectPropertyOf(", " :q)"),
    ("SubObjectPropertyOf(:q ", ")"),
    ("EquivalentObjectProperties(", " :q)"),
    ("EquivalentObjectProperties(:q :r ", ")"),
    ("InverseObjectProperties(", " :q)"),
    ("InverseObjectProperties(:q ", ")"),
    ("DisjointObjectProperties(", " :q)"),
    ("DisjointObjectProperties(:q :r ", ")"),
    ("ObjectPropertyDomain(", " :A)"),
    ("ObjectPropertyRange(", " :A)"),
    ("SymmetricObjectProperty(", ")"),
    ("AsymmetricObjectProperty(", ")"),
    ("IrreflexiveObjectProperty(", ")"),
    ("FunctionalObjectProperty(", ")"),
    ("InverseFunctionalObjectProperty(", ")"),
    ("SubClassOf(ObjectSomeValuesFrom(", " owl:Thing) :A)"),
    ("SubClassOf(:A ObjectSomeValuesFrom(", " owl:Thing))"),
    ("SubClassOf(:A ObjectSomeValuesFrom(", " :B))"),
    ("DisjointClasses(:A ObjectSomeValuesFrom(", " owl:Thing))"),
];

static ATTRIBUTES: [(&str, &str); 10] = [
    ("SubDataPropertyOf(", " :v)"),
    ("SubDataPropertyOf(:v ", ")"),
    ("EquivalentDataProperties(", " :v)"),
    ("EquivalentDataProperties(:v :w ", ")"),
    ("DisjointDataProperties(", " :v)"),
    ("DisjointDataProperties(:v :w ", ")"),
    ("DataPropertyDomain(", " :A)"),
    ("DataPropertyRange(", " xsd:date)"),
    ("FunctionalDataProperty(", ")"),
    ("SubClassOf(DataSomeValuesFrom(", " rdfs:Literal) :A)"),
];

static FILLERS: [(&str, &str); 3] = [
    ("SubClassOf(:A ObjectSomeValuesFrom(:p ", "))"),
    (
        "ObjectPropertyRange(:p ObjectIntersectionOf(:A ObjectSomeValuesFrom(ObjectInverseOf(:p) ",
        ")))",
    ),
    ("Declaration(Class(", "))"),
];

static TYPES: [(&str, &str); 3] = [
    ("DataPropertyRange(:u ", ")"),
    ("SubClassOf(:A DataSomeValuesFrom(:u ", "))"),
    ("DisjointClasses(:A DataSomeValuesFrom(:u ", "))"),
];

// Axioms: as one follows others.
static AXIOMS: [(&str, &str); 1] = [("", "")];

// What is wrong in a place, and the kind of its breach.

static IN_EACH: [(&str, &str); 6] = [
    ("no", "Shape"),
    ("\"x\"", "Shape"),
    ("\"x\"@en", "Shape"),
    ("\"x\"^^xsd:string", "Shape"),
    ("a=<b>", "Shape"),
    ("x:n", "UnknownPrefix"),
];

static IN_LEFTS: [(&str, &str); 21] = [
    ("owl:Thing", "TopOnLeft"),
    ("<http://www.w3.org/2002/07/owl#Thing>", "TopOnLeft"),
    ("owl:Nothing", "NotDlLite"),
    ("rdfs:Literal", "NotDlLite"),
    ("ObjectUnionOf(:A :B)", "NotDlLite"),
    ("ObjectIntersectionOf(:A :B)", "NotDlLite"),
    ("ObjectComplementOf(:A)", "NotDlLite"),
    ("ObjectInverseOf(:p)", "NotDlLite"),
    ("ObjectSomeValuesFrom(:p :A)", "NotDlLite"),
    ("ObjectSomeValuesFrom(:p owl:Nothing)", "NotDlLite"),
    ("ObjectSomeValuesFrom(:p ObjectUnionOf())", "NotDlLite"),
    ("ObjectSomeValuesFrom(:p \"x\")", "Shape"),
    ("ObjectSomeValuesFrom(:p)", "Shape"),
    ("ObjectSomeValuesFrom(owl:Thing)", "Shape"),
    ("ObjectSomeValuesFrom(:u owl:Thing)", "TwoKinds"),
    ("ObjectSomeValuesFrom(:u :A)", "TwoKinds"),
    ("DataSomeValuesFrom(:u xsd:string)", "Datatype"),
    ("DataSomeValuesFrom(:u DataOneOf(\"x\"))", "NotDlLite"),
    ("DataSomeValuesFrom(:p rdfs:Literal)", "TwoKinds"),
    ("DataSomeValuesFrom(:u)", "Shape"),
    ("DataSomeValuesFrom(:u :v rdfs:Literal)", "Shape"),
];

static IN_RIGHTS: [(&str, &str); 20] = [
    ("owl:Nothing", "NotDlLite"),
    ("ObjectUnionOf(:A :B)", "NotDlLite"),
    ("ObjectAllValuesFrom(:p :A)", "NotDlLite"),
    ("ObjectIntersectionOf()", "Shape"),
    ("ObjectIntersectionOf(:A)", "Shape"),
    ("ObjectIntersectionOf(:A no)", "Shape"),
    ("ObjectIntersectionOf(:A ObjectIntersectionOf(:B))", "Shape"),
    ("ObjectComplementOf()", "Shape"),
    ("ObjectComplementOf(:A :B)", "Shape"),
    ("ObjectComplementOf(owl:Thing)", "TopOnLeft"),
    ("ObjectComplementOf(ObjectComplementOf(:A))", "NotDlLite"),
    (
        "ObjectComplementOf(ObjectIntersectionOf(:A :B))",
        "NotDlLite",
    ),
    (
        "ObjectComplementOf(ObjectSomeValuesFrom(:p :A))",
        "NotDlLite",
    ),
    ("ObjectSomeValuesFrom(:p owl:Nothing)", "NotDlLite"),
    (
        "ObjectSomeValuesFrom(:p ObjectIntersectionOf(:A :B))",
        "NotDlLite",
    ),
    ("ObjectSomeValuesFrom(:p)", "Shape"),
    ("ObjectSomeValuesFrom(:p \"x\")", "Shape"),
    ("ObjectSomeValuesFrom(:u :A)", "TwoKinds"),
    ("DataSomeValuesFrom(:u xsd:integer)", "Datatype"),
    ("DataSomeValuesFrom(:p rdfs:Literal)", "TwoKinds"),
];

static IN_ROLES: [(&str, &str); 9] = [
    ("owl:topObjectProperty", "NotDlLite"),
    (":u", "TwoKinds"),
    ("ObjectPropertyChain(:p :p)", "NotDlLite"),
    ("ObjectInverseOf()", "Shape"),
    ("ObjectInverseOf(:p :p)", "Shape"),
    ("ObjectInverseOf(\"x\")", "Shape"),
    ("ObjectInverseOf(x:p)", "UnknownPrefix"),
    ("ObjectInverseOf(:u)", "TwoKinds"),
    ("ObjectInverseOf(ObjectInverseOf(:p))", "NotDlLite"),
];

static IN_ATTRIBUTES: [(&str, &str); 3] = [
    ("rdfs:label", "NotDlLite"),
    (":p", "TwoKinds"),
    ("ObjectInverseOf(:u)", "NotDlLite"),
];

static IN_FILLERS: [(&str, &str); 1] = [("ObjectIntersectionOf(:A :B)", "NotDlLite")];

static IN_TYPES: [(&str, &str); 4] = [
    ("xsd:int", "Datatype"),
    ("owl:Thing", "Datatype"),
    (":u", "Datatype"),
    ("DataOneOf(\"x\")", "NotDlLite"),
];

static IN_AXIOMS: [(&str, &str); 60] = [
    (":o", "Shape"),
    ("<http://e/o>", "Shape"),
    ("Import(<http://e/>)", "NotDlLite"),
    ("HasKey(:A :u)", "NotDlLite"),
    ("DatatypeDefinition(:d xsd:string)", "NotDlLite"),
    ("TransitiveObjectProperty(:p)", "NotDlLite"),
    ("Ontology()", "NotDlLite"),
    ("Class(:A)", "NotDlLite"),
    ("ClassAssertion(:A :x)", "AssertionHere"),
    ("ObjectPropertyAssertion()", "AssertionHere"),
    ("DataPropertyAssertion(:u :x \"x\")", "AssertionHere"),
    ("NegativeObjectPropertyAssertion(no)", "AssertionHere"),
    ("NegativeDataPropertyAssertion()", "AssertionHere"),
    ("SameIndividual(x:x)", "AssertionHere"),
    ("DifferentIndividuals()", "AssertionHere"),
    ("Declaration()", "Shape"),
    ("Declaration(:A)", "Shape"),
    ("Declaration(Class(:A) Class(:B))", "Shape"),
    ("Declaration(Class())", "Shape"),
    ("Declaration(Class(:A :B))", "Shape"),
    ("Declaration(Thing(:A))", "NotDlLite"),
    ("Declaration(Class(ObjectInverseOf(:A)))", "NotDlLite"),
    ("Declaration(ObjectProperty(:u))", "TwoKinds"),
    ("Declaration(DataProperty(:p))", "TwoKinds"),
    ("Declaration(AnnotationProperty(x:a))", "UnknownPrefix"),
    ("Declaration(Datatype(no))", "Shape"),
    ("Declaration(NamedIndividual(\"i\"))", "Shape"),
    ("SubClassOf(x:A)", "Shape"),
    ("SubClassOf(x:A :B :C)", "Shape"),
    ("EquivalentClasses(x:A)", "Shape"),
    ("DisjointClasses(x:A)", "Shape"),
    ("SubObjectPropertyOf(x:p)", "Shape"),
    ("SubObjectPropertyOf(x:p :q :r)", "Shape"),
    ("EquivalentObjectProperties(x:p)", "Shape"),
    ("InverseObjectProperties(x:p)", "Shape"),
    ("InverseObjectProperties(x:p :q :r)", "Shape"),
    ("DisjointObjectProperties(x:p)", "Shape"),
    ("ObjectPropertyDomain(x:p)", "Shape"),
    ("ObjectPropertyDomain(x:p :A :B)", "Shape"),
    ("ObjectPropertyRange(x:p)", "Shape"),
    ("ObjectPropertyRange(x:p :A :B)", "Shape"),
    ("SymmetricObjectProperty()", "Shape"),
    ("SymmetricObjectProperty(x:p :q)", "Shape"),
    ("AsymmetricObjectProperty()", "Shape"),
    ("AsymmetricObjectProperty(x:p :q)", "Shape"),
    ("IrreflexiveObjectProperty()", "Shape"),
    ("IrreflexiveObjectProperty(x:p :q)", "Shape"),
    ("FunctionalObjectProperty()", "Shape"),
    ("FunctionalObjectProperty(x:p :q)", "Shape"),
    ("InverseFunctionalObjectProperty()", "Shape"),
    ("InverseFunctionalObjectProperty(x:p :q)", "Shape"),
    ("SubDataPropertyOf(x:u)", "Shape"),
    ("SubDataPropertyOf(x:u :v :w)", "Shape"),
    ("EquivalentDataProperties(x:u)", "Shape"),
    ("DisjointDataProperties(x:u)", "Shape"),
    ("DataPropertyDomain(x:u)", "Shape"),
    ("DataPropertyRange(x:u)", "Shape"),
    ("DataPropertyRange(x:u xsd:date xsd:date)", "Shape"),
    ("FunctionalDataProperty()", "Shape"),
    ("FunctionalDataProperty(x:u :v)", "Shape"),
];

// The first breach of an axiom whose second line has one: where it is the first axiom and where it is a later one, with a breach behind it.
fn judge(rt: &impl Abort, alloc: Global, axiom: &str, kind: &str) -> Result<(), Fail> {
    let declared = "Declaration(ObjectProperty(:p))Declaration(DataProperty(:u))";
    let first = format!(in alloc; "{declared}{axiom}")?;
    let want = format!(in alloc; "2 {kind}")?;
    assert_eq!(rt;
        inside(alloc, first.as_str())?.as_str(),
        want.as_str(),
        "{axiom}"
    );
    let later = format!(in alloc; "{declared}SubClassOf(:A :B)\n{axiom}\nno")?;
    let want = format!(in alloc; "3 {kind}")?;
    assert_eq!(rt;
        inside(alloc, later.as_str())?.as_str(),
        want.as_str(),
        "{axiom}"
    );
    Ok(())
}

// The same of each wrong item in each of the places.
fn judge_all(
    rt: &impl Abort,
    alloc: Global,
    places: &[(&str, &str)],
    wrong: &[(&str, &str)],
) -> Result<(), Fail> {
    for (before, behind) in places {
        for (item, kind) in wrong {
            let axiom = format!(in alloc; "{before}\n{item}{behind}")?;
            judge(rt, alloc, axiom.as_str(), kind)?;
        }
    }
    Ok(())
}

#[test]
fn each_place_has_its_breaches(rt: HostRuntime) -> Result<(), Fail> {
    let alloc = rt.alloc();
    let tables = [
        (LEFTS.as_slice(), IN_LEFTS.as_slice()),
        (RIGHTS.as_slice(), IN_RIGHTS.as_slice()),
        (ROLES.as_slice(), IN_ROLES.as_slice()),
        (ATTRIBUTES.as_slice(), IN_ATTRIBUTES.as_slice()),
        (FILLERS.as_slice(), IN_FILLERS.as_slice()),
        (TYPES.as_slice(), IN_TYPES.as_slice()),
    ];
    for (places, wrong) in tables {
        judge_all(&rt, alloc, places, &IN_EACH)?;
        judge_all(&rt, alloc, places, wrong)?;
    }
    judge_all(&rt, alloc, &AXIOMS, &IN_EACH[..5])?;
    judge_all(&rt, alloc, &AXIOMS, &IN_AXIOMS)
}

#[test]
fn the_first_of_two_breaches_counts(rt: HostRuntime) -> Result<(), Fail> {
    let alloc = rt.alloc();
    for (first, kind) in &IN_LEFTS {
        for (second, _) in &IN_RIGHTS {
            let axiom = format!(in alloc; "SubClassOf(\n{first}\n{second})")?;
            judge(&rt, alloc, axiom.as_str(), kind)?;
        }
    }
    for (first, kind) in &IN_AXIOMS {
        for (second, _) in &IN_AXIOMS {
            let axioms = format!(in alloc; "\n{first} {second}")?;
            judge(&rt, alloc, axioms.as_str(), kind)?;
        }
    }
    Ok(())
}

static WHOLE: [(&str, &str); 14] = [
    ("Ontology(:a\n<b>\n:c)", "3 Shape"),
    ("Ontology(\nx:a)", "2 UnknownPrefix"),
    ("Ontology(<a>\nx:b\n:c)", "2 UnknownPrefix"),
    ("Ontology(\nno SubClassOf(:A))", "2 Shape"),
    ("Ontology(\n\"a\")", "2 Shape"),
    ("Ontology(<a>\n\"b\")", "2 Shape"),
    ("Ontology(owl:a\n<b>)", ""),
    ("Ontology()\nno", "2 Shape"),
    ("Ontology(\nno)\nno", "2 Shape"),
    ("Ontology()\nOntology()", "2 Shape"),
    ("\nMappings()\nOntology()", "2 Shape"),
    ("Ontology()\nPrefix(a:=<b>)", "2 Shape"),
    ("\nPrefix(:=<b>)\nOntology()", "2 Shape"),
    ("\n", "1 Shape"),
];

#[test]
fn what_stands_around_the_axioms_is_judged(rt: HostRuntime) -> Result<(), Fail> {
    let alloc = rt.alloc();
    for (document, want) in &WHOLE {
        let source = format!(in alloc; "Prefix(:=<http://e/>){document}")?;
        assert_eq!(rt;
            outcome(alloc, source.as_str())?.as_str(),
            *want,
            "{document:?}"
        );
    }
    Ok(())
}
