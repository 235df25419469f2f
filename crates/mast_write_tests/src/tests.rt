//! Tests of mast_write: every line of a refusal, the usage text, and the texts of facts, answers, conflicts and lines.
ghost use Rattle.std.specs.Prelude.{◌<◌, length, IfOk};
ghost use Rattle.mast_terms.specs.Vocabularies.{iris};
ghost use Rattle.mast_write.specs.FactLines.{IsFactOf};

use mast_canon::{Ground, Origin, RowId};
use mast_sparsql::{QueryBreach, QueryKind};
use mast_tables::{RowBreach, RowKind, TableDecl};
use mast_tbox::{RestrictionBreach, RestrictionKind};
use mast_terms::{
    Args, List, Name, NameKind, NoMemory, Object, Term, Text, Tuple, Value, Vocabulary,
};
use mast_tree::{DocName, LexBreach, LexKind, ShapeBreach, ShapeKind, TreeBreach, TreeKind};
use mast_write::{
    EventKind, Fact, Lines, Refusal, answer_text, conflict_text, facts_text, refusal_text,
    summary_text, usage_text,
};
use std::alloc::Global;
use std::test::Fail;

static LEXICAL: [(LexKind, EventKind, &str); 5] = [
    (
        LexKind::NotUtf8,
        EventKind::Refused,
        "refused ontology byte 4294967295 not-utf8\n",
    ),
    (
        LexKind::Character,
        EventKind::Refused,
        "refused ontology byte 4294967295 character\n",
    ),
    (
        LexKind::OpenString,
        EventKind::Refused,
        "refused ontology byte 4294967295 open-string\n",
    ),
    (
        LexKind::Escape,
        EventKind::Refused,
        "refused ontology byte 4294967295 escape\n",
    ),
    (
        LexKind::OpenIri,
        EventKind::Refused,
        "refused ontology byte 4294967295 open-iri\n",
    ),
];

static TREES: [(TreeKind, EventKind, &str); 2] = [
    (
        TreeKind::Unexpected,
        EventKind::Refused,
        "refused constraints token 0 unexpected\n",
    ),
    (
        TreeKind::Deep,
        EventKind::Limit,
        "limit depth constraints token 0\n",
    ),
];

static SHAPES: [(ShapeKind, EventKind, &str); 18] = [
    (
        ShapeKind::Shape,
        EventKind::Refused,
        "refused mappings line 12 shape\n",
    ),
    (
        ShapeKind::UnknownPrefix,
        EventKind::Refused,
        "refused mappings line 12 unknown-prefix\n",
    ),
    (
        ShapeKind::TwoKinds,
        EventKind::Refused,
        "refused mappings line 12 two-kinds\n",
    ),
    (
        ShapeKind::Datatype,
        EventKind::Refused,
        "refused mappings line 12 datatype\n",
    ),
    (
        ShapeKind::NotDlLite,
        EventKind::Refused,
        "refused mappings line 12 not-dl-lite\n",
    ),
    (
        ShapeKind::AssertionHere,
        EventKind::Refused,
        "refused mappings line 12 assertion-here\n",
    ),
    (
        ShapeKind::TopOnLeft,
        EventKind::Refused,
        "refused mappings line 12 top-on-left\n",
    ),
    (
        ShapeKind::BadConstant,
        EventKind::Refused,
        "refused mappings line 12 bad-constant\n",
    ),
    (
        ShapeKind::SortClash,
        EventKind::Refused,
        "refused mappings line 12 sort-clash\n",
    ),
    (
        ShapeKind::DoubleName,
        EventKind::Refused,
        "refused mappings line 12 double-name\n",
    ),
    (
        ShapeKind::UnknownTable,
        EventKind::Refused,
        "refused mappings line 12 unknown-table\n",
    ),
    (
        ShapeKind::UnknownColumn,
        EventKind::Refused,
        "refused mappings line 12 unknown-column\n",
    ),
    (
        ShapeKind::KindClash,
        EventKind::Refused,
        "refused mappings line 12 kind-clash\n",
    ),
    (
        ShapeKind::Sql { token: 7 },
        EventKind::Refused,
        "refused mappings line 12 sql 7\n",
    ),
    (
        ShapeKind::Names,
        EventKind::Limit,
        "limit names mappings line 12\n",
    ),
    (
        ShapeKind::Items,
        EventKind::Limit,
        "limit items mappings line 12\n",
    ),
    (
        ShapeKind::Atoms,
        EventKind::Limit,
        "limit atoms mappings line 12\n",
    ),
    (
        ShapeKind::Aliases,
        EventKind::Limit,
        "limit aliases mappings line 12\n",
    ),
];

static RESTRICTIONS: [(RestrictionKind, EventKind, &str); 3] = [
    (
        RestrictionKind::FunctSpecialised,
        EventKind::Refused,
        "refused restrictions ontology line 3 funct-specialised\n",
    ),
    (
        RestrictionKind::NotLocal,
        EventKind::Refused,
        "refused restrictions ontology line 3 not-local\n",
    ),
    (
        RestrictionKind::AnchorSpecialised,
        EventKind::Refused,
        "refused restrictions ontology line 3 anchor-specialised\n",
    ),
];

static QUERIES: [(QueryKind, EventKind, &str); 14] = [
    (
        QueryKind::Lex,
        EventKind::Refused,
        "refused query \"a\\\"b.rq\" token 5 lex\n",
    ),
    (
        QueryKind::Grammar,
        EventKind::Refused,
        "refused query \"a\\\"b.rq\" token 5 grammar\n",
    ),
    (
        QueryKind::UnknownName,
        EventKind::Refused,
        "refused query \"a\\\"b.rq\" token 5 unknown-name\n",
    ),
    (
        QueryKind::UnknownColumn,
        EventKind::Refused,
        "refused query \"a\\\"b.rq\" token 5 unknown-column\n",
    ),
    (
        QueryKind::DoubleName,
        EventKind::Refused,
        "refused query \"a\\\"b.rq\" token 5 double-name\n",
    ),
    (
        QueryKind::SortClash,
        EventKind::Refused,
        "refused query \"a\\\"b.rq\" token 5 sort-clash\n",
    ),
    (
        QueryKind::Width,
        EventKind::Refused,
        "refused query \"a\\\"b.rq\" token 5 width\n",
    ),
    (
        QueryKind::BadConstant,
        EventKind::Refused,
        "refused query \"a\\\"b.rq\" token 5 bad-constant\n",
    ),
    (
        QueryKind::Depth,
        EventKind::Limit,
        "limit depth query \"a\\\"b.rq\" token 5\n",
    ),
    (
        QueryKind::Operators,
        EventKind::Limit,
        "limit operators query \"a\\\"b.rq\" token 5\n",
    ),
    (
        QueryKind::Entries,
        EventKind::Limit,
        "limit entries query \"a\\\"b.rq\" token 5\n",
    ),
    (
        QueryKind::Disjuncts,
        EventKind::Limit,
        "limit disjuncts query \"a\\\"b.rq\" token 5\n",
    ),
    (
        QueryKind::Atoms,
        EventKind::Limit,
        "limit atoms query \"a\\\"b.rq\" token 5\n",
    ),
    (
        QueryKind::Names,
        EventKind::Limit,
        "limit names query \"a\\\"b.rq\" token 5\n",
    ),
];

static ROWS: [(RowKind, EventKind, &str); 7] = [
    (
        RowKind::Header,
        EventKind::Refused,
        "refused table people record 0 column 2 header\n",
    ),
    (
        RowKind::Width,
        EventKind::Refused,
        "refused table people record 0 column 2 width\n",
    ),
    (
        RowKind::NotUtf8,
        EventKind::Refused,
        "refused table people record 0 column 2 not-utf8\n",
    ),
    (
        RowKind::Missing,
        EventKind::Refused,
        "refused table people record 0 column 2 missing\n",
    ),
    (
        RowKind::BadInt,
        EventKind::Refused,
        "refused table people record 0 column 2 bad-int\n",
    ),
    (
        RowKind::BadDate,
        EventKind::Refused,
        "refused table people record 0 column 2 bad-date\n",
    ),
    (
        RowKind::Rows,
        EventKind::Limit,
        "limit rows table people record 0\n",
    ),
];

// Whether a refusal has this line and tells of this.
fn tells(alloc: Global, refusal: &Refusal, kind: EventKind, line: &str) -> Result<bool, NoMemory> {
    let text = refusal_text(alloc, refusal)?;
    Ok(text.as_slice() == line.as_bytes() && refusal.event_kind() == kind)
}

fn named(alloc: Global) -> Result<Text, NoMemory> {
    Text::from_str(alloc, "a\"b.rq")
}

fn people(alloc: Global) -> Result<Text, NoMemory> {
    Text::from_str(alloc, "people")
}

#[test]
fn breaches_of_documents_have_their_lines(rt: HostRuntime) -> Result<(), Fail> {
    let alloc = rt.alloc();
    for (kind, event, line) in LEXICAL {
        let breach = LexBreach {
            at: 4294967295,
            kind,
        };
        let doc = DocName::Ontology;
        assert!(rt; tells(alloc, &Refusal::Lex { doc, breach }, event, line)?);
    }
    for (kind, event, line) in TREES {
        let breach = TreeBreach { token: 0, kind };
        let doc = DocName::Constraints;
        assert!(rt; tells(alloc, &Refusal::Tree { doc, breach }, event, line)?);
    }
    for (kind, event, line) in SHAPES {
        let breach = ShapeBreach { line: 12, kind };
        let doc = DocName::Mappings;
        assert!(rt; tells(alloc, &Refusal::Shape { doc, breach }, event, line)?);
    }
    for (kind, event, line) in RESTRICTIONS {
        let doc = DocName::Ontology;
        let breach = RestrictionBreach { doc, line: 3, kind };
        assert!(rt; tells(alloc, &Refusal::Restriction { breach }, event, line)?);
    }
    Ok(())
}

#[test]
fn breaches_of_queries_and_tables_have_their_lines(rt: HostRuntime) -> Result<(), Fail> {
    let alloc = rt.alloc();
    for (kind, event, line) in QUERIES {
        let breach = QueryBreach { token: 5, kind };
        let file = named(alloc)?;
        assert!(rt; tells(alloc, &Refusal::Query { file, breach }, event, line)?);
    }
    for (kind, event, line) in ROWS {
        let breach = RowBreach {
            number: 0,
            column: 2,
            kind,
        };
        let table = people(alloc)?;
        assert!(rt; tells(alloc, &Refusal::Table { table, breach }, event, line)?);
    }
    Ok(())
}

#[test]
fn other_limits_and_faults_have_their_lines(rt: HostRuntime) -> Result<(), Fail> {
    let alloc = rt.alloc();
    let doc = DocName::Constraints;
    let cases = [
        (Refusal::DocBytes { doc }, "limit bytes constraints\n"),
        (
            Refusal::QueryBytes {
                file: named(alloc)?,
            },
            "limit bytes query \"a\\\"b.rq\"\n",
        ),
        (
            Refusal::TableBytes {
                table: people(alloc)?,
            },
            "limit bytes table people\n",
        ),
        (Refusal::Violations, "limit violations\n"),
        (
            Refusal::ViolationClosure { doc, line: 9 },
            "limit closure violation constraints line 9\n",
        ),
        (
            Refusal::BlockClosure {
                file: named(alloc)?,
                table: 0,
                block: 18446744073709551615,
            },
            "limit closure query \"a\\\"b.rq\" table 0 block 18446744073709551615\n",
        ),
    ];
    for (refusal, line) in &cases {
        assert!(rt; tells(alloc, refusal, EventKind::Limit, line)?);
    }
    let fault = Refusal::ReadFault {
        file: named(alloc)?,
    };
    assert!(rt;
        tells(
            alloc,
            &fault,
            EventKind::ReadFault,
            "read fault \"a\\\"b.rq\"\n"
        )?
    );
    Ok(())
}

#[test]
fn the_usage_text_has_a_line_for_each_command(rt: HostRuntime) -> Result<(), Fail> {
    let text = usage_text(rt.alloc())?;
    assert!(rt; text.starts_with(b"usage: mastro facts MAPPINGS\n       mastro check "));
    assert!(rt;
        text.ends_with(b"\n       mastro desk ONTOLOGY CONSTRAINTS MAPPINGS SCRIPT [SCRIPT]\n")
    );
    Ok(())
}

static WRITTEN: [&str; 9] = [
    "abcdefghijk",
    "abcdefgh",
    "abcdefghi",
    "",
    "abcdefgh\0",
    "abcdefgh",
    "abcdefgg~~",
    "abc",
    "",
];

static SORTED: &str = "\nabc\nabcdefgg~~\nabcdefgh\nabcdefgh\0\nabcdefghi\nabcdefghijk\n";

#[test]
fn lines_are_sorted_by_bytes_and_printed_once(rt: HostRuntime) -> Result<(), Fail> {
    let alloc = rt.alloc();
    let mut lines = Lines::new(alloc);
    for line in WRITTEN {
        lines.push(alloc, b"given up")?;
        lines.give_up();
        lines.push(alloc, line.as_bytes())?;
        lines.end(alloc)?;
    }
    lines.push(alloc, b"never ended")?;
    let text = lines.into_text(alloc)?;
    assert!(rt; text.as_slice() == SORTED.as_bytes());
    Ok(())
}

// The fact that `p(number)` is a member of a class.
fn member(alloc: Global, vocab: &Vocabulary, name: Name, number: i64) -> Result<Fact, NoMemory>
    requires { name.0 < length (iris vocab.now NameKind.Class) }
    ensures { IfOk result (IsFactOf vocab.now) }
{
    let _ = vocab;
    let mut args = Args::new(alloc);
    args.push(alloc, Value::Int(number))?;
    let symbol = Text::from_str(alloc, "p")?;
    let mut terms = List::new(alloc);
    terms.push(alloc, Term::Object(Object { symbol, args }))?;
    Ok(Fact {
        kind: NameKind::Class,
        name,
        terms,
    })
}

// The fact that a number has a text in an attribute.
fn value(alloc: Global, vocab: &Vocabulary, name: Name, number: i64) -> Result<Fact, NoMemory>
    requires { name.0 < length (iris vocab.now NameKind.Attr) }
    ensures { IfOk result (IsFactOf vocab.now) }
{
    let _ = vocab;
    let text = Text::from_str(alloc, "a\tb")?;
    let mut terms = List::new(alloc);
    terms.push(alloc, Term::Value(Value::Int(number)))?;
    terms.push(alloc, Term::Value(Value::Text(text)))?;
    Ok(Fact {
        kind: NameKind::Attr,
        name,
        terms,
    })
}

fn members_text(alloc: Global) -> Result<Vec<u8>, NoMemory> {
    let mut vocab = Vocabulary::new(alloc);
    match vocab.add(alloc, NameKind::Class, "http://e/P") {
        Ok(name) => {
            let facts = [
                member(alloc, &vocab, name, 2)?,
                member(alloc, &vocab, name, 10)?,
                member(alloc, &vocab, name, 2)?,
            ];
            facts_text(alloc, &facts, &vocab)
        }
        Err(_) => Err(NoMemory),
    }
}

fn values_text(alloc: Global) -> Result<Vec<u8>, NoMemory> {
    let mut vocab = Vocabulary::new(alloc);
    match vocab.add(alloc, NameKind::Attr, "http://e/a") {
        Ok(name) => {
            let facts = [
                value(alloc, &vocab, name, 2)?,
                value(alloc, &vocab, name, -1)?,
            ];
            facts_text(alloc, &facts, &vocab)
        }
        Err(_) => Err(NoMemory),
    }
}

#[test]
fn facts_are_printed_once_in_the_order_of_their_lines(rt: HostRuntime) -> Result<(), Fail> {
    let alloc = rt.alloc();
    let text = members_text(alloc)?;
    assert!(rt; text.as_slice() == b"<http://e/P>(p(10))\n<http://e/P>(p(2))\n".as_slice());
    let text = values_text(alloc)?;
    let wanted = "<http://e/a>(-1,\"a\\tb\")\n<http://e/a>(2,\"a\\tb\")\n";
    assert!(rt; text.as_slice() == wanted.as_bytes());
    Ok(())
}

// The tuple of `p(number)` and a text.
fn tuple(alloc: Global, number: i64, text: &str) -> Result<Tuple, NoMemory> {
    let mut args = Args::new(alloc);
    args.push(alloc, Value::Int(number))?;
    let symbol = Text::from_str(alloc, "p")?;
    let mut terms = List::new(alloc);
    terms.push(alloc, Term::Object(Object { symbol, args }))?;
    terms.push(
        alloc,
        Term::Value(Value::Text(Text::from_str(alloc, text)?)),
    )?;
    Ok(terms)
}

static NO_ANSWER: &str = "query \"q.sq\" rows 0\nx\n";

static ANSWERS: &str =
    "query \"a\\tb.sq\" rows 3\nx\tn\np(10)\t\"a\\tb\"\np(2)\t\"\"\np(2)\t\"\\n\"\n";

#[test]
fn answers_are_counted_and_printed_by_line(rt: HostRuntime) -> Result<(), Fail> {
    let alloc = rt.alloc();
    let header = [Text::from_str(alloc, "x")?];
    let rows: [Tuple; 0] = [];
    let text = answer_text(alloc, "q.sq", &header, &rows)?;
    assert!(rt; text.as_slice() == NO_ANSWER.as_bytes());
    let header = [Text::from_str(alloc, "x")?, Text::from_str(alloc, "n")?];
    let rows = [
        tuple(alloc, 2, "\n")?,
        tuple(alloc, 10, "a\tb")?,
        tuple(alloc, 2, "")?,
        tuple(alloc, 10, "a\tb")?,
    ];
    let text = answer_text(alloc, "a\tb.sq", &header, &rows)?;
    assert!(rt; text.as_slice() == ANSWERS.as_bytes());
    let text = summary_text(alloc, "q1.sq", 5000)?;
    assert!(rt; text.as_slice() == b"query \"q1.sq\" rows 5000\n".as_slice());
    Ok(())
}

// A declared table of this name.
fn table(alloc: Global, name: &str) -> Result<TableDecl, NoMemory> {
    Ok(TableDecl {
        name: Text::from_str(alloc, name)?,
        file: Text::from_str(alloc, "t.csv")?,
        columns: List::new(alloc),
    })
}

static GROUNDS: [(Ground, &str); 6] = [
    (
        Ground::Disjoint,
        "conflict disjoint ontology line 3\nrow u 7\nrow t 7\nrow t 1001\n",
    ),
    (
        Ground::Irreflexive,
        "conflict irreflexive ontology line 3\nrow u 7\nrow t 7\nrow t 1001\n",
    ),
    (
        Ground::ValueType,
        "conflict type ontology line 3\nrow u 7\nrow t 7\nrow t 1001\n",
    ),
    (
        Ground::Functional,
        "conflict functional ontology line 3\nrow u 7\nrow t 7\nrow t 1001\n",
    ),
    (
        Ground::Identify,
        "conflict identify ontology line 3\nrow u 7\nrow t 7\nrow t 1001\n",
    ),
    (
        Ground::Deny,
        "conflict deny ontology line 3\nrow u 7\nrow t 7\nrow t 1001\n",
    ),
];

#[test]
fn rows_of_a_conflict_are_printed_once_in_declared_order(rt: HostRuntime) -> Result<(), Fail> {
    let alloc = rt.alloc();
    let tables = [table(alloc, "u")?, table(alloc, "t")?];
    let rows = [
        RowId {
            table: 1,
            number: 1001,
        },
        RowId {
            table: 1,
            number: 7,
        },
        RowId {
            table: 0,
            number: 7,
        },
        RowId {
            table: 1,
            number: 1001,
        },
    ];
    for (ground, wanted) in GROUNDS {
        let origin = Origin {
            ground,
            doc: DocName::Ontology,
            line: 3,
        };
        let text = conflict_text(alloc, &origin, &tables, &rows)?;
        assert!(rt; text.as_slice() == wanted.as_bytes());
    }
    Ok(())
}
