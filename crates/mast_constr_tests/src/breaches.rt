//! Breaches: each kind in each place, in the first constraint and in a later one, and which of two counts.
use crate::shown::{inside, outcome};
use mast_terms::Vocabulary;
use std::alloc::Global;
use std::process::Abort;
use std::test::Fail;

// Places, each by what stands before and behind it.

static LEFTS: [(&str, &str); 1] = [("Identify(", " Path(:p))")];

static ROLES: [(&str, &str); 5] = [
    ("Functional(", ")"),
    ("Identify(:A Path(", " :q))"),
    ("Identify(:A Path(:p ", "))"),
    ("Identify(:A Path(:p) Path(:q ", "))"),
    ("Identify(ObjectSomeValuesFrom(:p owl:Thing) Path(:p ", "))"),
];

static ATOM_ROLES: [(&str, &str); 2] = [
    ("Deny(Role(", " ?x ?y))"),
    ("Deny(Class(:A ?x) Role(", " ?x ?x))"),
];

static CLASSES: [(&str, &str); 4] = [
    ("Identify(:A Path(:p Test(", ")))"),
    ("Identify(:A Path(Test(", ") :p))"),
    ("Deny(Class(", " ?x))"),
    ("Deny(Role(:p ?x ?y) Class(", " ?x))"),
];

static ATTRIBUTES: [(&str, &str); 5] = [
    ("Functional(Attr(", "))"),
    ("Identify(:A Path(Attr(", ")))"),
    ("Identify(:A Path(:p) Path(:p Attr(", ")))"),
    ("Deny(Attr(", " ?x ?v))"),
    ("Deny(Class(:A ?x) Attr(", " ?x Int(1)))"),
];

static OBJECTS: [(&str, &str); 5] = [
    ("Deny(Class(:A ", "))"),
    ("Deny(Role(:p ", " ?y))"),
    ("Deny(Role(:p ?x ", "))"),
    ("Deny(Class(:A ?x) Role(:p ?x ", "))"),
    ("Deny(Attr(:u ", " ?w))"),
];

static VALUES: [(&str, &str); 2] = [
    ("Deny(Attr(:u ?x ", "))"),
    ("Deny(Class(:A ?x) Attr(:u ?y ", ") Class(:A ?z))"),
];

static ATOMS: [(&str, &str); 2] = [("Deny(", ")"), ("Deny(Class(:A ?x) ", " Class(:A ?x))")];

static PATHS: [(&str, &str); 3] = [
    ("Identify(:A ", ")"),
    ("Identify(:A ", " Path(:p))"),
    ("Identify(:A Path(:p) Path(:q) ", ")"),
];

static CONSTRAINTS: [(&str, &str); 1] = [("", "")];

// What is wrong in a place, and the kind of its breach.

static IN_EACH: [(&str, &str); 5] = [
    ("no", "Shape"),
    ("\"x\"", "Shape"),
    ("\"x\"@en", "Shape"),
    ("\"x\"^^xsd:string", "Shape"),
    ("a=<b>", "Shape"),
];

static IN_LEFTS: [(&str, &str); 17] = [
    ("x:n", "UnknownPrefix"),
    ("owl:Thing", "TopOnLeft"),
    ("owl:Nothing", "NotDlLite"),
    ("ObjectIntersectionOf(:A :B)", "NotDlLite"),
    ("ObjectInverseOf(:p)", "NotDlLite"),
    ("Attr(:u)", "NotDlLite"),
    ("ObjectSomeValuesFrom(:p :A)", "NotDlLite"),
    ("ObjectSomeValuesFrom(:p \"x\")", "Shape"),
    ("ObjectSomeValuesFrom(:p)", "Shape"),
    ("ObjectSomeValuesFrom(:u owl:Thing)", "TwoKinds"),
    ("ObjectSomeValuesFrom(Attr(:u) owl:Thing)", "NotDlLite"),
    (
        "ObjectSomeValuesFrom(ObjectInverseOf(Attr(:u)) owl:Thing)",
        "NotDlLite",
    ),
    ("DataSomeValuesFrom(:u xsd:string)", "Datatype"),
    ("DataSomeValuesFrom(:u DataOneOf(\"x\"))", "NotDlLite"),
    ("DataSomeValuesFrom(Attr(:u) rdfs:Literal)", "NotDlLite"),
    ("DataSomeValuesFrom(:p rdfs:Literal)", "TwoKinds"),
    ("DataSomeValuesFrom()", "Shape"),
];

static IN_ROLES: [(&str, &str); 10] = [
    ("x:n", "UnknownPrefix"),
    ("owl:topObjectProperty", "NotDlLite"),
    (":u", "TwoKinds"),
    ("ObjectPropertyChain(:p :p)", "Shape"),
    ("ObjectInverseOf()", "Shape"),
    ("ObjectInverseOf(:p :p)", "Shape"),
    ("ObjectInverseOf(\"x\")", "Shape"),
    ("ObjectInverseOf(x:p)", "UnknownPrefix"),
    ("ObjectInverseOf(:u)", "TwoKinds"),
    ("ObjectInverseOf(ObjectInverseOf(:p))", "NotDlLite"),
];

static IN_ATOM_ROLES: [(&str, &str); 4] = [
    ("x:n", "UnknownPrefix"),
    ("owl:topObjectProperty", "NotDlLite"),
    (":u", "TwoKinds"),
    ("ObjectInverseOf(:p)", "Shape"),
];

static IN_CLASSES: [(&str, &str); 4] = [
    ("x:n", "UnknownPrefix"),
    ("owl:Thing", "NotDlLite"),
    ("Class(:A)", "Shape"),
    ("ObjectSomeValuesFrom(:p owl:Thing)", "Shape"),
];

static IN_ATTRIBUTES: [(&str, &str); 4] = [
    ("x:n", "UnknownPrefix"),
    ("rdfs:label", "NotDlLite"),
    (":p", "TwoKinds"),
    ("Attr(:u)", "Shape"),
];

// Where an object stands, and where a value stands.
static IN_ARGUMENTS: [(&str, &str); 11] = [
    (":x", "Shape"),
    ("x:n", "Shape"),
    ("<http://e/x>", "Shape"),
    ("?", "Shape"),
    ("?1", "Shape"),
    ("??x", "Shape"),
    ("?a-b", "Shape"),
    ("?a.b", "Shape"),
    ("?\u{e9}", "Shape"),
    ("x?", "Shape"),
    ("Var(?x)", "Shape"),
];

static IN_OBJECTS: [(&str, &str); 3] = [
    ("Int(1)", "Shape"),
    ("Text(\"x\")", "Shape"),
    ("Date(\"2024-02-29\")", "Shape"),
];

static IN_VALUES: [(&str, &str); 24] = [
    ("?x", "SortClash"),
    ("Int(no)", "BadConstant"),
    ("Int(1.0)", "BadConstant"),
    ("Int(-)", "BadConstant"),
    ("Int(9223372036854775808)", "BadConstant"),
    ("Int(-9223372036854775809)", "BadConstant"),
    ("Int(?x)", "BadConstant"),
    ("Int()", "Shape"),
    ("Int(1 2)", "Shape"),
    ("Int(\"1\")", "Shape"),
    ("Int(Int(1))", "Shape"),
    ("Text()", "Shape"),
    ("Text(no)", "Shape"),
    ("Text(\"x\" \"x\")", "Shape"),
    ("Text(\"x\"@en)", "Shape"),
    ("Text(\"x\"^^xsd:string)", "Shape"),
    ("Date(\"2023-02-29\")", "BadConstant"),
    ("Date(\"2024-2-29\")", "BadConstant"),
    ("Date(\"0000-01-01\")", "BadConstant"),
    ("Date(\"\")", "BadConstant"),
    ("Date(2024-02-29)", "Shape"),
    ("Date(\"2024-02-29\"@en)", "Shape"),
    ("Date()", "Shape"),
    ("Float(1)", "Shape"),
];

static IN_ATOMS: [(&str, &str); 12] = [
    (":A", "Shape"),
    ("x:n", "Shape"),
    ("?x", "Shape"),
    ("Class()", "Shape"),
    ("Class(x:A)", "Shape"),
    ("Class(x:A ?x ?y)", "Shape"),
    ("Role(x:p ?x)", "Shape"),
    ("Role(x:p ?x ?y ?z)", "Shape"),
    ("Attr(x:u ?x)", "Shape"),
    ("Attr(x:u ?x ?v ?w)", "Shape"),
    ("Deny(Class(:A ?x))", "Shape"),
    ("Attr(:u ?y ?y)", "SortClash"),
];

static IN_PATHS: [(&str, &str); 16] = [
    (":p", "Shape"),
    ("x:n", "Shape"),
    ("ObjectInverseOf(:p)", "Shape"),
    ("Paths(:p)", "Shape"),
    ("Path()", "Shape"),
    ("Path(\"x\")", "Shape"),
    ("Path(Test(:A))", "Shape"),
    ("Path(Test(x:A) Test(:A))", "Shape"),
    ("Path(ObjectInverse(x:p))", "Shape"),
    ("Path(Attr(:u) :p)", "Shape"),
    ("Path(Attr(x:u) Attr(:u))", "Shape"),
    ("Path(Attr(x:u :v))", "Shape"),
    ("Path(Attr())", "Shape"),
    ("Path(:p Test())", "Shape"),
    ("Path(:p Test(x:A :B))", "Shape"),
    ("Path(:p Path(:p))", "Shape"),
];

static IN_CONSTRAINTS: [(&str, &str); 16] = [
    (":o", "Shape"),
    ("x:n", "Shape"),
    ("Functional()", "Shape"),
    ("Functional(x:p :q)", "Shape"),
    ("Functional(Attr())", "Shape"),
    ("Functional(Attr(x:u :v))", "Shape"),
    ("Functional(Test(:A))", "Shape"),
    ("Functional(ObjectUnionOf(:p))", "Shape"),
    ("Identify()", "Shape"),
    ("Identify(x:A)", "Shape"),
    ("Deny()", "Shape"),
    ("Class(:A ?x)", "Shape"),
    ("Annotation(:a \"x\")", "Shape"),
    ("SubClassOf(:A :B)", "Shape"),
    ("Declaration(Class(:A))", "Shape"),
    ("Constraints()", "Shape"),
];

// The first breach of a constraint whose second line has one: where it is the first one and where it is a later one, with a breach behind it.
fn judge(rt: &impl Abort, alloc: Global, constraint: &str, kind: &str) -> Result<(), Fail> {
    let first = format!(in alloc; "Functional(:p)Functional(Attr(:u)){constraint}")?;
    let want = format!(in alloc; "2 {kind}")?;
    assert_eq!(rt;
        inside(alloc, first.as_str())?.as_str(),
        want.as_str(),
        "{constraint}"
    );
    let later = format!(in alloc; "Deny(Attr(:u ?x ?v)Role(:p ?x ?y))\n{constraint}\nno")?;
    let want = format!(in alloc; "3 {kind}")?;
    assert_eq!(rt;
        inside(alloc, later.as_str())?.as_str(),
        want.as_str(),
        "{constraint}"
    );
    Ok(())
}

// The same of each wrong item in each of the places.
fn judge_all(
    rt: &impl Abort,
    alloc: Global,
    places: &[(&str, &str)],
    wrong: &[(&str, &str)],
) -> Result<(), Fail> {
    for (before, behind) in places {
        for (item, kind) in wrong {
            let constraint = format!(in alloc; "{before}\n{item}{behind}")?;
            judge(rt, alloc, constraint.as_str(), kind)?;
        }
    }
    Ok(())
}

#[test]
fn each_place_has_its_breaches(rt: HostRuntime) -> Result<(), Fail> {
    let alloc = rt.alloc();
    let tables = [
        (LEFTS.as_slice(), IN_LEFTS.as_slice()),
        (ROLES.as_slice(), IN_ROLES.as_slice()),
        (ATOM_ROLES.as_slice(), IN_ATOM_ROLES.as_slice()),
        (CLASSES.as_slice(), IN_CLASSES.as_slice()),
        (ATTRIBUTES.as_slice(), IN_ATTRIBUTES.as_slice()),
        (OBJECTS.as_slice(), IN_ARGUMENTS.as_slice()),
        (OBJECTS.as_slice(), IN_OBJECTS.as_slice()),
        (VALUES.as_slice(), IN_ARGUMENTS.as_slice()),
        (VALUES.as_slice(), IN_VALUES.as_slice()),
        (ATOMS.as_slice(), IN_ATOMS.as_slice()),
        (PATHS.as_slice(), IN_PATHS.as_slice()),
        (CONSTRAINTS.as_slice(), IN_CONSTRAINTS.as_slice()),
    ];
    for (places, wrong) in tables {
        judge_all(&rt, alloc, places, &IN_EACH)?;
        judge_all(&rt, alloc, places, wrong)?;
    }
    Ok(())
}

#[test]
fn the_first_of_two_breaches_counts(rt: HostRuntime) -> Result<(), Fail> {
    let alloc = rt.alloc();
    for (first, kind) in &IN_LEFTS {
        for (second, _) in &IN_PATHS {
            let constraint = format!(in alloc; "Identify(\n{first}\n{second})")?;
            judge(&rt, alloc, constraint.as_str(), kind)?;
        }
    }
    for (first, kind) in &IN_VALUES {
        for (second, _) in &IN_ATOMS {
            let constraint = format!(in alloc; "Deny(Attr(:u ?x\n{first})\n{second})")?;
            judge(&rt, alloc, constraint.as_str(), kind)?;
        }
    }
    Ok(())
}

// A variable in an object's place and in a value's: its second place is on line 2.
static CLASHES: [(&str, &str); 8] = [
    ("Deny(Attr(:u ?x\n?x))", "2 SortClash"),
    ("Deny(Attr(:u ?x ?v) Class(:A\n?v))", "2 SortClash"),
    ("Deny(Class(:A ?v) Attr(:u ?x\n?v))", "2 SortClash"),
    (
        "Deny(Role(:p ?x ?y) Class(:A ?z) Attr(:u ?z\n?y))",
        "2 SortClash",
    ),
    ("Deny(Attr(:u ?x ?v) Role(:p ?x\n?v))", "2 SortClash"),
    ("Deny(Attr(:u ?x ?v) Role(:p\n?v ?x))", "2 SortClash"),
    (
        "Deny(Attr(:u ?x ?v) Attr(:u\n?v ?w) Class(:A\n?w))",
        "2 SortClash",
    ),
    (
        "Deny(Attr(:u ?x ?v))\nDeny(Class(:A ?v))",
        "1  a0?0?1;2  c0?0;",
    ),
];

#[test]
fn a_variable_has_one_sort_in_a_denial(rt: HostRuntime) -> Result<(), Fail> {
    let alloc = rt.alloc();
    for (constraints, want) in &CLASHES {
        assert_eq!(rt;
            inside(alloc, constraints)?.as_str(),
            *want,
            "{constraints:?}"
        );
    }
    Ok(())
}

static WHOLE: [(&str, &str); 8] = [
    ("Constraints()\nno", "2 Shape"),
    ("Constraints(\nno)\nno", "2 Shape"),
    ("Constraints()\nConstraints()", "2 Shape"),
    ("Constraints()\nPrefix(a:=<b>)", "2 Shape"),
    ("\nOntology()\nConstraints()", "2 Shape"),
    ("\nPrefix(:=<b>)\nConstraints()", "2 Shape"),
    ("\n", "1 Shape"),
    ("Constraints()\n", ""),
];

#[test]
fn what_stands_around_the_constraints_is_judged(rt: HostRuntime) -> Result<(), Fail> {
    let alloc = rt.alloc();
    for (document, want) in &WHOLE {
        let source = format!(in alloc; "Prefix(:=<http://e/>){document}")?;
        let got = outcome(alloc, source.as_str(), Vocabulary::new(alloc))?;
        assert_eq!(rt; got.as_str(), *want, "{document:?}");
    }
    Ok(())
}
