//! What each form of constraint says.
use crate::shown::{inside, outcome};
use mast_terms::{NameKind, Vocabulary};
use std::alloc::Global;
use std::test::Fail;

static CONSTRAINTS: [(&str, &str); 19] = [
    ("", ""),
    (
        "Functional(:p)\nFunctional(ObjectInverseOf(:p)) Functional(Attr(:u))",
        "1 r0;2 r0-;2 a0;",
    ),
    (
        "Functional(<http://e/p>)Functional(:q)Functional(:p)",
        "1 r0;1 r1;1 r0;",
    ),
    (
        "Identify(:A Path(:p Test(:B) Attr(:u)) Path(ObjectInverseOf(:p)))",
        "1 c0 r0c1a0 r0-;",
    ),
    (
        "Identify(ObjectSomeValuesFrom(:p owl:Thing) Path(:p))",
        "1 r0 r0;",
    ),
    (
        "Identify(ObjectSomeValuesFrom(ObjectInverseOf(:p) owl:Thing)\nPath(:q))",
        "1 r0- r1;",
    ),
    (
        "Identify(DataSomeValuesFrom(:u rdfs:Literal) Path(Attr(:u)))",
        "1 a0 a0;",
    ),
    ("Identify(:A Path(:p) Path(:p))", "1 c0 r0 r0;"),
    ("Deny(Class(:A ?x))", "1  c0?0;"),
    ("Deny(Role(:p ?x ?x))", "1  r0?0?0;"),
    ("Deny(Class(:A ?_a1)\nClass(:A ?_A1))", "1  c0?0 c0?1;"),
    (
        "Deny(Role(:p ?x ?y) Class(:A ?y) Attr(:u ?x ?v) Attr(:u ?z Int(07)))",
        "1  r0?0?1 c0?1 a0?0?2 a0?3!0;",
    ),
    (
        "Deny(Attr(:u ?x Text(\"a\")) Attr(:u ?x Date(\"2024-02-29\")) Attr(:u ?y Text(\"a\")))",
        "1  a0?0!0 a0?0!1 a0?1!0;",
    ),
    (
        "Deny(Attr(:u ?x Int(7)) Attr(:u ?x Text(\"7\")))\nDeny(Attr(:u ?x Int(-0)) Attr(:u ?x Int(007)))",
        "1  a0?0!0 a0?0!1;2  a0?0!2 a0?0!0;",
    ),
    (
        "Deny(Attr(:u ?x Int(-9223372036854775808)) Attr(:u ?x Int(9223372036854775807)))",
        "1  a0?0!0 a0?0!1;",
    ),
    (
        "Deny(Attr(:u ?x Date(\"0001-01-01\")) Attr(:u ?x Text(\"\\\"\\\\\n\")))",
        "1  a0?0!0 a0?0!1;",
    ),
    (
        "Deny(Attr(:u ?x ?y))Deny(Attr(:u ?y ?x))",
        "1  a0?0?1;1  a0?0?1;",
    ),
    (
        "Deny(Attr(:u ?x ?v) Attr(:w ?y ?v) Role(:p ?y ?x))",
        "1  a0?0?1 a1?2?1 r0?2?0;",
    ),
    (
        "Deny(Class(:p ?x) Role(:p ?x ?x))Identify(:u Path(Attr(:u)))",
        "1  c0?0 r0?0?0;1 c1 a0;",
    ),
];

#[test]
fn constraints_are_those_of_the_tree(rt: HostRuntime) -> Result<(), Fail> {
    let alloc = rt.alloc();
    for (constraints, want) in &CONSTRAINTS {
        assert_eq!(rt;
            inside(alloc, constraints)?.as_str(),
            *want,
            "{constraints:?}"
        );
    }
    Ok(())
}

// Steps, how they are shown, and whether they lead.
static STEPS: [(&str, &str, bool); 5] = [
    ("", "", false),
    (":p ", "r0", true),
    ("<http://e/p>", "r0", true),
    ("ObjectInverseOf(:p)", "r0-", true),
    ("Test(:A)", "c0", false),
];

static ENDS: [(&str, &str, bool); 3] = [
    ("", "", false),
    ("Test(:A)", "c0", false),
    ("Attr(:u)", "a0", true),
];

#[test]
fn a_path_has_any_steps_of_which_one_leads(rt: HostRuntime) -> Result<(), Fail> {
    let alloc = rt.alloc();
    for (one, first, starts) in &STEPS {
        for (other, second, goes_on) in &STEPS {
            for (end, third, arrives) in &ENDS {
                let constraints = format!(in alloc; "Identify(:A\nPath({one}{other}{end}))")?;
                let mut want = String::from_str(alloc, "2 Shape")?;
                if *starts || *goes_on || *arrives {
                    want = format!(in alloc; "1 c0 {first}{second}{third};")?;
                }
                assert_eq!(rt;
                    inside(alloc, constraints.as_str())?.as_str(),
                    want.as_str(),
                    "{constraints}"
                );
            }
        }
    }
    Ok(())
}

// A vocabulary with a class, a role and an attribute.
fn known(alloc: Global) -> Result<Vocabulary, Fail> {
    let mut vocab = Vocabulary::new(alloc);
    let _ = vocab.add(alloc, NameKind::Class, "http://e/A").is_ok();
    let _ = vocab.add(alloc, NameKind::Role, "http://e/p").is_ok();
    let _ = vocab.add(alloc, NameKind::Attr, "http://e/u").is_ok();
    Ok(vocab)
}

static OVER: [(&str, &str); 6] = [
    (
        "Deny(Class(:B ?x) Class(:A ?x) Class(:p ?x))",
        "1  c1?0 c0?0 c2?0;",
    ),
    ("Functional(:q)Functional(:p)", "1 r1;1 r0;"),
    ("Functional(Attr(:v))Functional(Attr(:u))", "1 a1;1 a0;"),
    ("Functional(:A)Functional(Attr(:B))", "1 r1;1 a1;"),
    ("Functional(\n:u)", "2 TwoKinds"),
    ("Functional(Attr(\n:p))", "2 TwoKinds"),
];

#[test]
fn names_of_the_ontology_keep_their_numbers_and_kinds(rt: HostRuntime) -> Result<(), Fail> {
    let alloc = rt.alloc();
    for (constraints, want) in &OVER {
        let source = format!(in alloc; "Prefix(:=<http://e/>)Constraints({constraints})")?;
        let got = outcome(alloc, source.as_str(), known(alloc)?)?;
        assert_eq!(rt; got.as_str(), *want, "{constraints:?}");
    }
    Ok(())
}
