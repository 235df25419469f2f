//! What each form of axiom states.
use crate::shown::inside;
use std::test::Fail;

static AXIOMS: [(&str, &str); 45] = [
    ("", ""),
    ("<http://e/o> <http://e/v> SubClassOf(:A :B)", "1 A0<A1;"),
    (":o SubClassOf(:A :B)", "1 A0<A1;"),
    ("SubClassOf(:A <http://e/A>)", ""),
    ("SubClassOf(:A owl:Thing)", ""),
    (
        "SubClassOf(:A ObjectSomeValuesFrom(:p owl:Thing))",
        "1 A0<P0?#0;",
    ),
    (
        "SubClassOf(ObjectSomeValuesFrom(:p owl:Thing) ObjectSomeValuesFrom(:p owl:Thing))",
        "",
    ),
    (
        "SubClassOf(ObjectSomeValuesFrom(:p owl:Thing) ObjectSomeValuesFrom(ObjectInverseOf(:p) :A))",
        "1 P0?<P0-.A0#0;",
    ),
    (
        "SubClassOf(DataSomeValuesFrom(:u rdfs:Literal) DataSomeValuesFrom(:v rdfs:Literal))",
        "1 U0?<U1?#0;",
    ),
    (
        "SubClassOf(:A ObjectComplementOf(ObjectSomeValuesFrom(:p owl:Thing)))",
        "1 A0/P0?;",
    ),
    (
        "SubClassOf(:A ObjectIntersectionOf(:B ObjectIntersectionOf(ObjectSomeValuesFrom(:p :C) ObjectComplementOf(:D) owl:Thing) ObjectSomeValuesFrom(:q owl:Thing)))",
        "1 A0<A1;1 A0<P0.A2#0;1 A0<P1?#1;1 A0/A3;",
    ),
    ("EquivalentClasses(:A :B :C)", "1 A0<A1;1 A1<A2;1 A2<A0;"),
    ("EquivalentClasses(:A :A :B)", "1 A0<A1;1 A1<A0;"),
    (
        "EquivalentClasses(:A ObjectSomeValuesFrom(:p owl:Thing))",
        "1 A0<P0?#0;1 P0?<A0;",
    ),
    ("DisjointClasses(:A :B :C)", "1 A0/A1;1 A0/A2;1 A1/A2;"),
    ("SubObjectPropertyOf(:p ObjectInverseOf(:q))", "1 P0<P1-;"),
    (
        "EquivalentObjectProperties(:p :q :r)",
        "1 P0<P1;1 P1<P2;1 P2<P0;",
    ),
    ("InverseObjectProperties(:p :q)", "1 P0<P1-;1 P1<P0-;"),
    ("InverseObjectProperties(:p ObjectInverseOf(:p))", ""),
    (
        "DisjointObjectProperties(:p ObjectInverseOf(:q))",
        "1 P0/P1-;",
    ),
    ("ObjectPropertyDomain(:p :A)", "1 P0?<A0;"),
    ("ObjectPropertyRange(:p :A)", "1 P0-?<A0;"),
    ("ObjectPropertyRange(ObjectInverseOf(:p) :A)", "1 P0?<A0;"),
    ("SymmetricObjectProperty(:p)", "1 P0<P0-;"),
    ("AsymmetricObjectProperty(:p)", "1 P0/P0-;"),
    ("IrreflexiveObjectProperty(ObjectInverseOf(:p))", "1 P0!;"),
    ("FunctionalObjectProperty(:p)", "1 P0=;"),
    ("InverseFunctionalObjectProperty(:p)", "1 P0-=;"),
    ("SubDataPropertyOf(:u :v)", "1 U0<U1;"),
    ("EquivalentDataProperties(:u :v)", "1 U0<U1;1 U1<U0;"),
    ("DisjointDataProperties(:u :v)", "1 U0/U1;"),
    ("DataPropertyDomain(:u :A)", "1 U0?<A0;"),
    ("DataPropertyRange(:u xsd:string)", "1 U0:Text;"),
    ("DataPropertyRange(:u xsd:integer)", "1 U0:Integer;"),
    ("DataPropertyRange(:u xsd:date)", "1 U0:Date;"),
    ("DataPropertyRange(:u rdfs:Literal)", ""),
    ("FunctionalDataProperty(:u)", "1 U0=;"),
    (
        "Declaration(Class(:B))Declaration(ObjectProperty(:p))Declaration(DataProperty(:u))SubClassOf(:A :B)",
        "1 A1<A0;",
    ),
    (
        "Declaration(Class(owl:Thing))Declaration(Datatype(:d))Declaration(NamedIndividual(:i))Declaration(AnnotationProperty(:a))SubClassOf(:A :B)",
        "1 A0<A1;",
    ),
    (
        "Annotation(:a \"x\"@en)SubClassOf(Annotation(no \"x\")Annotation()\n:A\n:B)",
        "1 A0<A1;",
    ),
    (
        "Declaration(Annotation(x)Class(:A))SubClassOf(:B :A)",
        "1 A1<A0;",
    ),
    (
        "AnnotationAssertion(no:such \"x\")SubAnnotationPropertyOf()AnnotationPropertyDomain(x=<y>)AnnotationPropertyRange()",
        "",
    ),
    (
        "SubClassOf(:p :A)\nObjectPropertyDomain(:p :B)",
        "1 A0<A1;2 P0?<A2;",
    ),
    (
        "DisjointClasses(:A :A)FunctionalDataProperty(:u)\nSubClassOf(:A :B)",
        "2 A0<A1;1 A0/A0;1 U0=;",
    ),
    ("SubClassOf(owl:Nothings :A)", "1 NotDlLite"),
];

#[test]
fn each_axiom_states_what_its_table_says(rt: HostRuntime) -> Result<(), Fail> {
    let alloc = rt.alloc();
    for (axioms, want) in &AXIOMS {
        assert_eq!(rt; inside(alloc, axioms)?.as_str(), *want, "{axioms:?}");
    }
    Ok(())
}
