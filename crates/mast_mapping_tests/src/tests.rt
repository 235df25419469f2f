//! Tests of mast_mapping: what no clause says, that calls succeed, and that the definitions give the answers of worked documents.
use mast_mapping::{Head, Mappings, Slot, Template, read_mappings};
use mast_terms::{NameKind, Stop, Value, Vocabulary};
use mast_tree::{ShapeBreach, read_doc, tokens};
use std::alloc::{AllocError, Global};
use std::test::Fail;

fn show_slot(slot: &Slot, out: &mut String) -> Result<(), AllocError> {
    match slot {
        Slot::Output(name) => out.push_str(name.as_str())?,
        Slot::Constant(Value::Int(number)) => write!(out, "{number}")?,
        Slot::Constant(Value::Text(text)) => {
            out.push('\'')?;
            out.push_str(text.as_str())?;
            out.push('\'')?;
        }
        Slot::Constant(Value::Date(date)) => {
            let year = date.year;
            write!(out, "{year}")?;
        }
    }
    Ok(())
}

fn show_object(object: &Template, out: &mut String) -> Result<(), AllocError> {
    out.push_str(object.symbol.as_str())?;
    for slot in object.args.as_slice() {
        out.push(' ')?;
        show_slot(slot, out)?;
    }
    Ok(())
}

fn show_head(head: &Head, out: &mut String) -> Result<(), AllocError> {
    match head {
        Head::Class { name, subject } => {
            let number = name.0;
            write!(out, " C{number}(")?;
            show_object(subject, out)?;
        }
        Head::Role { name, from, to } => {
            let number = name.0;
            write!(out, " R{number}(")?;
            show_object(from, out)?;
            out.push_str(", ")?;
            show_object(to, out)?;
        }
        Head::Attr { name, from, value } => {
            let number = name.0;
            write!(out, " A{number}(")?;
            show_object(from, out)?;
            out.push_str(", ")?;
            show_slot(value, out)?;
        }
    }
    out.push(')')?;
    Ok(())
}

// The tables with the names of their columns, and the maps by their lines and heads.
fn show(mappings: &Mappings, out: &mut String) -> Result<(), AllocError> {
    for table in mappings.tables.as_slice() {
        out.push_str(table.name.as_str())?;
        out.push('=')?;
        out.push_str(table.file.as_str())?;
        for column in table.columns.as_slice() {
            out.push(' ')?;
            out.push_str(column.name.as_str())?;
            let kind = column.kind;
            write!(out, ":{kind:?}")?;
            if column.null {
                out.push('?')?;
            }
        }
        out.push('\n')?;
    }
    for map in mappings.maps.as_slice() {
        let line = map.line;
        write!(out, "{line}")?;
        for head in map.heads.as_slice() {
            show_head(head, out)?;
        }
        out.push('\n')?;
    }
    Ok(())
}

// The mappings of a document over an empty vocabulary, or its first breach.
fn read(alloc: Global, source: &str) -> Result<String, AllocError> {
    let mut out = String::new(alloc);
    let bytes = source.as_bytes();
    if bytes.len() >= 4294967295 {
        return Ok(out);
    }
    let Ok(list) = tokens(alloc, bytes) else {
        return Ok(out);
    };
    let list = list.as_slice();
    if list.len() >= 4294967295 {
        return Ok(out);
    }
    let Ok(doc) = read_doc(alloc, bytes, list) else {
        return Ok(out);
    };
    match read_mappings(alloc, &doc, Vocabulary::new(alloc)) {
        Ok(mappings) => {
            show(&mappings, &mut out)?;
            let classes = mappings.vocab.len(NameKind::Class);
            let roles = mappings.vocab.len(NameKind::Role);
            let attributes = mappings.vocab.len(NameKind::Attr);
            write!(out, "{classes} {roles} {attributes}")?;
        }
        Err(Stop::Named(ShapeBreach { line, kind })) => write!(out, "{line} {kind:?}")?,
        Err(Stop::NoMemory) => out.push_str("no memory")?,
    }
    Ok(out)
}

static WHOLE: &str = "Prefix(:=<http://e/>)
Mappings(
Table(student \"student.csv\" Column(id integer) Column(name text Null) Column(born date))
Table(attends \"attends.csv\" Column(student integer) Column(course text))
Map(
 \"SELECT s.id, name AS n FROM student s WHERE s.id > 5 AND name <> 'x'\"
 Class(:Student Obj(student id))
 Attr(:name Obj(student id) n)
)
Map(\"SELECT student, course FROM attends\"
 Role(:attends Obj(student student) Obj(course course))
 Class(<http://e/Course> Obj(course course))
 Attr(:kind Obj(course Int(5) Text(\"a b\") Date(\"2020-02-29\")) Text(\"taught\")))
)
";

#[test]
fn a_document_gives_its_tables_and_maps(rt: HostRuntime) -> Result<(), Fail> {
    let alloc = rt.alloc();
    let want = "student=student.csv id:Integer name:Text? born:Date
attends=attends.csv student:Integer course:Text
6 C0(student id) A0(student id, n)
10 R0(student student, course course) C1(course course) A1(course 5 'a b' 2020, 'taught')
2 1 2";
    assert_eq!(rt; read(alloc, WHOLE)?.as_str(), want);
    Ok(())
}

// What stands inside the main node, whose first line is 3, behind a table `t` on line 2, and the answer.
static BREACHES: [(&str, &str); 36] = [
    ("View()", "3 Shape"),
    ("Table", "3 Shape"),
    ("Table(u \"u.csv\")", "3 Shape"),
    ("Table(\n9 \"u.csv\" Column(a text))", "4 Shape"),
    ("Table(\nt \"u.csv\" Column(a text))", "4 DoubleName"),
    ("Table(u\n\"u.csv\"@en Column(a text))", "4 Shape"),
    ("Table(u \"u.csv\"\nColumns(a text))", "4 Shape"),
    ("Table(u \"u.csv\"\nColumn(\na))", "4 Shape"),
    (
        "Table(u \"u.csv\" Column(a text) Column(\na text))",
        "4 DoubleName",
    ),
    ("Table(u \"u.csv\" Column(a\ndecimal))", "4 Shape"),
    ("Table(u \"u.csv\" Column(a text\nNULL))", "4 Shape"),
    ("Table(t \"u.csv\"\nColumn(a))", "3 DoubleName"),
    ("Map(\"SELECT a FROM t\")", "3 Shape"),
    ("Map(\nt Class(:C Obj(c a)))", "4 Shape"),
    (
        "Map(\n\"SELECT a FROM t ~\" Class(:C Obj(c a)))",
        "4 Sql { token: 4 }",
    ),
    (
        "Map(\n\"SELECT a t\" Class(:C Obj(c a)))",
        "4 Sql { token: 2 }",
    ),
    (
        "Map(\n\"SELECT a FROM t,t,t,t,t,t,t,t,t\" Class(:C Obj(c a)))",
        "4 Aliases",
    ),
    (
        "Map(\n\"SELECT a FROM u\" Class(:C Obj(c a)))",
        "4 UnknownTable",
    ),
    (
        "Map(\n\"SELECT a FROM t, t\" Class(:C Obj(c a)))",
        "4 DoubleName",
    ),
    (
        "Map(\n\"SELECT x FROM t\" Class(:C Obj(c a)))",
        "4 UnknownColumn",
    ),
    (
        "Map(\n\"SELECT a FROM t, t u\" Class(:C Obj(c a)))",
        "4 UnknownColumn",
    ),
    (
        "Map(\n\"SELECT a, b AS a FROM t\" Class(:C Obj(c a)))",
        "4 DoubleName",
    ),
    (
        "Map(\n\"SELECT a FROM t WHERE x = 5\" Class(:C Obj(c a)))",
        "4 UnknownColumn",
    ),
    (
        "Map(\n\"SELECT a FROM t WHERE a = b\" Class(:C Obj(c a)))",
        "4 KindClash",
    ),
    ("Map(\"SELECT a FROM t\"\nFact(:C Obj(c a)))", "4 Shape"),
    (
        "Map(\"SELECT a FROM t\"\nClass(:C Obj(c a) Obj(c a)))",
        "4 Shape",
    ),
    (
        "Map(\"SELECT a FROM t\" Class(\nx:C Obj(c a)))",
        "4 UnknownPrefix",
    ),
    (
        "Map(\"SELECT a FROM t\" Class(\nowl:Thing Obj(c a)))",
        "4 NotDlLite",
    ),
    (
        "Map(\"SELECT a FROM t\" Role(:p Obj(c a) Obj(c a)) Attr(\n:p Obj(c a) a))",
        "4 TwoKinds",
    ),
    ("Map(\"SELECT a FROM t\" Class(:C\nObj()))", "4 Shape"),
    (
        "Map(\"SELECT a FROM t\" Class(:C Obj(c\nb)))",
        "4 UnknownColumn",
    ),
    (
        "Map(\"SELECT a FROM t\" Class(:C Obj(c\nInt(a))))",
        "4 BadConstant",
    ),
    (
        "Map(\"SELECT a FROM t\" Attr(:U Obj(c a)\n\"a\"))",
        "4 Shape",
    ),
    (
        "Map(\"SELECT a FROM t\" Attr(:U Obj(c a)\nDate(\"2021-02-29\")))",
        "4 BadConstant",
    ),
    (")\nMappings(", "4 Shape"),
    (
        "Map(\"SELECT x FROM t\" Class(:C Obj(c a)))\n) a(",
        "3 UnknownColumn",
    ),
];

#[test]
fn the_first_breach_is_told_at_its_line(rt: HostRuntime) -> Result<(), Fail> {
    let alloc = rt.alloc();
    for (inside, want) in &BREACHES {
        let mut source = String::new(alloc);
        source.push_str("Prefix(:=<http://e/>) Mappings(\n")?;
        source.push_str("Table(t \"t.csv\" Column(a text) Column(b integer))\n")?;
        source.push_str(inside)?;
        source.push_str(")")?;
        assert_eq!(rt; read(alloc, source.as_str())?.as_str(), *want, "{inside:?}");
    }
    assert_eq!(rt; read(alloc, "Prefix(:=<http://e/>)")?.as_str(), "1 Shape");
    Ok(())
}
