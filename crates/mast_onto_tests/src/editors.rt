//! Ontologies as editors write them.
use crate::shown::{counted, inside, list_of, outcome};
use std::test::Fail;

static CAMPUS: &str = "Prefix(:=<http://example.org/campus#>)
Prefix(owl:=<http://www.w3.org/2002/07/owl#>)
Prefix(rdf:=<http://www.w3.org/1999/02/22-rdf-syntax-ns#>)
Prefix(xml:=<http://www.w3.org/XML/1998/namespace>)
Prefix(xsd:=<http://www.w3.org/2001/XMLSchema#>)
Prefix(rdfs:=<http://www.w3.org/2000/01/rdf-schema#>)


Ontology(<http://example.org/campus>

Declaration(Class(:Course))
Declaration(Class(:Lecturer))
Declaration(Class(:Person))
Declaration(Class(:Student))
Declaration(ObjectProperty(:attends))
Declaration(ObjectProperty(:teaches))
Declaration(DataProperty(:code))
Declaration(DataProperty(:ssn))

############################
#   Object Properties
############################

# Object Property: :attends (:attends)

ObjectPropertyDomain(:attends :Student)
ObjectPropertyRange(:attends :Course)

# Object Property: :teaches (:teaches)

ObjectPropertyDomain(:teaches :Lecturer)
ObjectPropertyRange(:teaches :Course)

# Data Property: :ssn (:ssn)

FunctionalDataProperty(:ssn)
DataPropertyDomain(:ssn :Person)
DataPropertyRange(:ssn xsd:string)

# Class: :Student (student)

AnnotationAssertion(rdfs:label :Student \"student\"@en)
AnnotationAssertion(rdfs:label :Student \"studente\"@it)
SubClassOf(:Student :Person)
SubClassOf(:Student ObjectSomeValuesFrom(:attends :Course))
SubClassOf(:Lecturer :Person)
SubClassOf(:Course ObjectSomeValuesFrom(ObjectInverseOf(:teaches) owl:Thing))
DisjointClasses(:Course :Person)
)
";

#[test]
fn the_campus_project_is_read(rt: HostRuntime) -> Result<(), Fail> {
    let alloc = rt.alloc();
    let want =
        "26 P0?<A3;27 P0-?<A0;31 P1?<A1;32 P1-?<A0;37 U1?<A2;38 U1:Text;44 A3<A2;45 A3<P0.A0#0;46 A1<A2;47 A0<P1-?#1;48 A0/A2;36 U1=;";
    assert_eq!(rt; outcome(alloc, CAMPUS)?.as_str(), want);
    Ok(())
}

static ANNOTATED: [(&str, &str); 5] = [
    (
        "<http://e/o><http://e/o/1.0>Annotation(owl:versionInfo \"1.0\"^^xsd:string)Annotation(rdfs:comment \"text\"@en-GB)\nDeclaration(Class(:A))Annotation(:last <http://e/>)\nSubClassOf(:B :A)",
        "3 A1<A0;",
    ),
    (
        "Declaration(Annotation(rdfs:label \"d\")Datatype(:d))Declaration(AnnotationProperty(rdfs:label))Declaration(NamedIndividual(_:genid1))SubClassOf(:d :A)",
        "1 UnknownPrefix",
    ),
    (
        "Declaration(Datatype(:d))AnnotationAssertion(rdfs:comment _:genid1 \"x\"^^rdf:PlainLiteral)AnnotationAssertion(Annotation(rdfs:label \"x\"@de)rdfs:seeAlso :A _:genid2147483648)SubClassOf(:d :A)",
        "1 A0<A1;",
    ),
    (
        "SubClassOf(Annotation(Annotation(rdfs:label \"a\") rdfs:comment _:genid1) Annotation(rdfs:comment \"SubClassOf(\\\"\\\\\")\n:A :B)\nDisjointClasses(Annotation(no) :A :B :C)",
        "1 A0<A1;3 A0/A1;3 A0/A2;3 A1/A2;",
    ),
    (
        "SubAnnotationPropertyOf(:a :b)AnnotationPropertyDomain(:a _:x)AnnotationPropertyRange(Annotation() :a xsd:string)FunctionalDataProperty(Annotation(x) :u)",
        "1 U0=;",
    ),
];

#[test]
fn annotations_are_skipped(rt: HostRuntime) -> Result<(), Fail> {
    let alloc = rt.alloc();
    for (axioms, want) in &ANNOTATED {
        assert_eq!(rt; inside(alloc, axioms)?.as_str(), *want, "{axioms:?}");
    }
    Ok(())
}

static LISTS: [(&str, usize, &str); 5] = [
    ("EquivalentClasses", 10000, "10000 0 0"),
    ("DisjointClasses", 500, "0 124750 0"),
    ("EquivalentObjectProperties", 3000, "3000 0 0"),
    ("DisjointObjectProperties", 300, "0 44850 0"),
    ("DisjointDataProperties", 300, "0 44850 0"),
];

#[test]
fn lists_may_be_long(rt: HostRuntime) -> Result<(), Fail> {
    let alloc = rt.alloc();
    for (word, count, want) in LISTS {
        let list = list_of(alloc, word, count)?;
        let source = format!(in alloc; "Prefix(:=<http://e/>)Ontology({list})")?;
        assert_eq!(rt; counted(alloc, source.as_str())?.as_str(), want, "{word}");
    }
    Ok(())
}
