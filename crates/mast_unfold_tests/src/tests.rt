//! Tests of mast_unfold: that calls succeed, and that the definitions give the sources of worked atoms.
ghost use Rattle.std.specs.Prelude.{◌<◌, ℕ, length};
ghost use Rattle.mast_cq.specs.UnifierMeanings.{IsBelow, KnownArg};
ghost use Rattle.mast_unfold_tests.specs.Known.{OnKnown};

use crate::documents::{mappings_of, ontology_of, split_of};
use mast_cq::{Arg, Atom};
use mast_tbox::normal;
use mast_terms::{NameKind, NoMemory, Text, Value, Vocabulary};
use mast_unfold::{Source, Unfolder};
use std::alloc::{AllocError, Global};
use std::test::Fail;

// An argument: `_`, a variable, or the constant that the test gives.
#[derive(Clone, Copy)]
enum Given {
    Blank,
    Var(u32),
    Value,
}

// An atom of a name without its namespace. A class has its first argument alone.
#[derive(Clone, Copy)]
struct Asked {
    kind: NameKind,
    name: &'static str,
    first: Given,
    second: Given,
}

const X: Given = Given::Var(0);

const Y: Given = Given::Var(1);

const NONE: Given = Given::Blank;

const C: Given = Given::Value;

// A table with three columns of integers, two of texts and one of dates.
const TABLE: &str =
    "Table(t \"t.csv\" Column(i integer) Column(j integer) Column(k integer) Column(s text) Column(u text) Column(d date))";

const ALL: &str = "\"SELECT i, j, k, s, u, d, t.i AS also FROM t\"";

fn class(name: &'static str, first: Given) -> Asked {
    Asked {
        kind: NameKind::Class,
        name,
        first,
        second: NONE,
    }
}

fn role(name: &'static str, first: Given, second: Given) -> Asked {
    Asked {
        kind: NameKind::Role,
        name,
        first,
        second,
    }
}

fn attr(name: &'static str, first: Given, second: Given) -> Asked {
    Asked {
        kind: NameKind::Attr,
        name,
        first,
        second,
    }
}

fn argument(given: Given, number: u32) -> Arg
    ensures { (bound : ℕ) → number < bound → KnownArg (IsBelow bound) result }
{
    match given {
        Given::Blank => Arg::Blank,
        Given::Var(variable) => Arg::Var(variable),
        Given::Value => Arg::Constant(number),
    }
}

// The atom, where the vocabulary has its name.
fn atom_of(
    alloc: Global,
    vocab: &Vocabulary,
    asked: Asked,
    number: u32,
) -> Result<Option<Atom>, NoMemory>
    requires { number < length vocab.now.constants }
    ensures { OnKnown (length vocab.now.constants) result }
{
    let name = asked.name;
    let iri = format!(in alloc; "http://e/{name}")?;
    let from = argument(asked.first, number);
    let to = argument(asked.second, number);
    match vocab.find(asked.kind, iri.as_str()) {
        None => Ok(None),
        Some(name) => Ok(Some(match asked.kind {
            NameKind::Class => Atom::Class { name, arg: from },
            NameKind::Role => Atom::Role { name, from, to },
            NameKind::Attr => Atom::Attr {
                name,
                from,
                value: to,
            },
        })),
    }
}

fn document(alloc: Global, word: &str, items: &str) -> Result<String, AllocError> {
    format!(in alloc; "Prefix(:=<http://e/>)\n{word}(\n{items}\n)\n")
}

fn show_arg(arg: Arg, out: &mut String) -> Result<(), AllocError> {
    match arg {
        Arg::Blank => out.push('_')?,
        Arg::Var(number) => write!(out, "?{number}")?,
        Arg::Constant(_) => out.push('c')?,
    }
    Ok(())
}

// The member, by its name without the namespace, and the number of the map.
fn show(vocab: &Vocabulary, source: Source, out: &mut String) -> Result<(), AllocError> {
    let (kind, name, first, second) = match source.member {
        Atom::Class { name, arg } => (NameKind::Class, name, arg, None),
        Atom::Role { name, from, to } => (NameKind::Role, name, from, Some(to)),
        Atom::Attr { name, from, value } => (NameKind::Attr, name, from, Some(value)),
    };
    if name.0 < vocab.len(kind) {
        let iri = vocab.iri(kind, name);
        out.push_str(iri.strip_prefix("http://e/").unwrap_or(iri))?;
    }
    out.push('(')?;
    show_arg(first, out)?;
    if let Some(second) = second {
        out.push(' ')?;
        show_arg(second, out)?;
    }
    out.push(')')?;
    let map = source.map;
    write!(out, "{map} ")?;
    Ok(())
}

// The sources of an atom, whose constant has this value.
fn sources_of(
    alloc: Global,
    axioms: &str,
    maps: &str,
    asked: Asked,
    value: &Value,
) -> Result<String, NoMemory> {
    let ontology = ontology_of(alloc, document(alloc, "Ontology", axioms)?.as_bytes())?;
    let normal = normal(alloc, &ontology.tbox)?;
    let vocab = ontology.vocab.copy(alloc)?;
    let items = format!(in alloc; "{TABLE}\n{maps}")?;
    let source = document(alloc, "Mappings", items.as_str())?;
    let mut mappings = mappings_of(alloc, source.as_bytes(), vocab)?;
    let split = split_of(alloc, &mappings)?;
    let Ok(number) = mappings.vocab.add_value(alloc, value) else {
        return Err(NoMemory);
    };
    let mut out = String::new(alloc);
    let Some(atom) = atom_of(alloc, &mappings.vocab, asked, number)? else {
        out.push_str("no such name")?;
        return Ok(out);
    };
    let unfolder = Unfolder::new(
        alloc,
        &normal,
        &mappings.vocab,
        split.as_slice(),
        mappings.tables.as_slice(),
    )?;
    for source in unfolder.sources(alloc, atom)?.as_slice() {
        show(&mappings.vocab, *source, &mut out)?;
    }
    Ok(out)
}

// One map with these heads.
fn heads(alloc: Global, heads: &str) -> Result<String, AllocError> {
    format!(in alloc; "Map({ALL} {heads})")
}

#[test]
fn each_subclass_is_a_source_in_order(rt: HostRuntime) -> Result<(), Fail> {
    let alloc = rt.alloc();
    let axioms =
        "SubClassOf(:S1 :S) SubClassOf(:S2 :S) SubClassOf(:S3 :S) SubClassOf(:S4 :S) SubClassOf(:S5 :S) SubClassOf(:S6 :S)";
    let maps = heads(
        alloc,
        "Class(:S6 Obj(p i)) Class(:S1 Obj(p i)) Class(:S2 Obj(p i)) Class(:S3 Obj(p i)) Class(:S4 Obj(p i)) Class(:S5 Obj(p i))",
    )?;
    let given = sources_of(alloc, axioms, maps.as_str(), class("S", X), &Value::Int(1))?;
    assert_eq!(&rt;
        given.as_str(),
        "S1(?0)1 S2(?0)2 S3(?0)3 S4(?0)4 S5(?0)5 S6(?0)0 "
    );
    Ok(())
}

#[test]
fn two_maps_of_one_class_are_two_sources(rt: HostRuntime) -> Result<(), Fail> {
    let alloc = rt.alloc();
    let maps =
        "Map(\"SELECT i FROM t WHERE s = 'a'\" Class(:A Obj(p i)) Class(:B Obj(p i))) Map(\"SELECT i FROM t WHERE s = 'b'\" Class(:A Obj(p i)))";
    let given = sources_of(
        alloc,
        "SubClassOf(:B :A)",
        maps,
        class("A", X),
        &Value::Int(1),
    )?;
    assert_eq!(&rt; given.as_str(), "B(?0)1 A(?0)0 A(?0)2 ");
    Ok(())
}

#[test]
fn an_argument_of_its_own_goes_below(rt: HostRuntime) -> Result<(), Fail> {
    let alloc = rt.alloc();
    let axioms =
        "SubClassOf(:A ObjectSomeValuesFrom(:r owl:Thing)) SubObjectPropertyOf(ObjectInverseOf(:q) :r)";
    let maps = heads(
        alloc,
        "Class(:A Obj(p i)) Role(:q Obj(p i) Obj(p j)) Role(:r Obj(p i) Obj(c s))",
    )?;
    let one = Value::Int(1);
    let given = sources_of(alloc, axioms, maps.as_str(), role("r", X, NONE), &one)?;
    assert_eq!(&rt; given.as_str(), "A(?0)0 r(?0 _)2 q(_ ?0)1 ");
    let given = sources_of(alloc, axioms, maps.as_str(), role("r", X, Y), &one)?;
    assert_eq!(&rt; given.as_str(), "r(?0 ?1)2 q(?1 ?0)1 ");
    let given = sources_of(alloc, axioms, maps.as_str(), role("r", X, C), &one)?;
    assert_eq!(&rt; given.as_str(), "");
    Ok(())
}

#[test]
fn two_templates_are_one_object_where_their_columns_allow_it(rt: HostRuntime) -> Result<(), Fail> {
    let alloc = rt.alloc();
    let cases = [
        ("Role(:r Obj(p i) Obj(p i))", true),
        ("Role(:r Obj(p i) Obj(p j))", true),
        ("Role(:r Obj(p i) Obj(c i))", false),
        ("Role(:r Obj(p i) Obj(p i j))", false),
        ("Role(:r Obj(p) Obj(p))", true),
        ("Role(:r Obj(p i) Obj(p s))", false),
        ("Role(:r Obj(p i s) Obj(p j u))", true),
        ("Role(:r Obj(p i j) Obj(p j i))", true),
        ("Role(:r Obj(p i) Obj(p Int(1)))", true),
        ("Role(:r Obj(p s) Obj(p Int(1)))", false),
        ("Role(:r Obj(p Int(1)) Obj(p Int(1)))", true),
        ("Role(:r Obj(p Int(1)) Obj(p Int(2)))", false),
        ("Role(:r Obj(p Int(1) i) Obj(p i Int(2)))", false),
        ("Role(:r Obj(p Int(1) i) Obj(p i Int(1)))", true),
        ("Role(:r Obj(p i i) Obj(p Int(1) Int(2)))", false),
        ("Role(:r Obj(p i also) Obj(p Int(1) Int(2)))", false),
        ("Role(:r Obj(p i j) Obj(p Int(1) Int(2)))", true),
        ("Role(:r Obj(p i j k Int(1)) Obj(p j k Int(2) i))", false),
        ("Role(:r Obj(p Int(2) i j Int(1)) Obj(p k j k i))", false),
        ("Role(:r Obj(p Int(2) i j Int(2)) Obj(p k j k i))", true),
    ];
    for (head, can) in cases.as_slice() {
        let maps = heads(alloc, head)?;
        let given = sources_of(alloc, "", maps.as_str(), role("r", X, X), &Value::Int(1))?;
        assert_eq!(&rt;
            given.as_str(),
            if *can { "r(?0 ?0)0 " } else { "" },
            "{head}"
        );
        let given = sources_of(alloc, "", maps.as_str(), role("r", X, Y), &Value::Int(1))?;
        assert_eq!(&rt; given.as_str(), "r(?0 ?1)0 ", "{head}");
    }
    Ok(())
}

#[test]
fn a_constant_is_a_value_of_its_kind(rt: HostRuntime) -> Result<(), Fail> {
    let alloc = rt.alloc();
    let maps = heads(
        alloc,
        "Attr(:v Obj(p i) j) Attr(:v Obj(p i) s) Attr(:v Obj(p i) d) Attr(:v Obj(p i) Int(1)) Attr(:v Obj(p i) Int(2)) Attr(:v Obj(p i) Text(\"1\"))",
    )?;
    let one = Value::Int(1);
    let given = sources_of(alloc, "", maps.as_str(), attr("v", X, C), &one)?;
    assert_eq!(&rt; given.as_str(), "v(?0 c)0 v(?0 c)3 ");
    let text = Value::Text(Text::from_str(alloc, "1")?);
    let given = sources_of(alloc, "", maps.as_str(), attr("v", NONE, C), &text)?;
    assert_eq!(&rt; given.as_str(), "v(_ c)1 v(_ c)5 ");
    let given = sources_of(alloc, "", maps.as_str(), attr("v", X, Y), &one)?;
    assert_eq!(&rt;
        given.as_str(),
        "v(?0 ?1)0 v(?0 ?1)1 v(?0 ?1)2 v(?0 ?1)3 v(?0 ?1)4 v(?0 ?1)5 "
    );
    let given = sources_of(alloc, "", maps.as_str(), attr("v", X, X), &one)?;
    assert_eq!(&rt; given.as_str(), "");
    let given = sources_of(alloc, "", maps.as_str(), attr("v", C, X), &one)?;
    assert_eq!(&rt; given.as_str(), "");
    Ok(())
}
