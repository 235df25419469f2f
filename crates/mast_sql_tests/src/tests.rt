//! Tests of mast_sql, of what no clause says: that calls succeed, and that the definitions give the answers of worked inputs.
use mast_sql::{
    Compare, Operand, SourceQuery, SqlBreach, SqlKind, SqlLex, read_source_query, sql_tokens,
};
use mast_terms::{Stop, Text, Value};
use std::alloc::{AllocError, Global};
use std::test::Fail;

fn letter(kind: SqlKind) -> u8 {
    match kind {
        SqlKind::Word => b'w',
        SqlKind::Pname => b'p',
        SqlKind::Var => b'v',
        SqlKind::Iri => b'i',
        SqlKind::Integer => b'n',
        SqlKind::Quoted => b'q',
        SqlKind::Doubled => b'd',
        SqlKind::Sign => b's',
    }
}

// The kinds as letters, each with its number of bytes, or the number of tokens before the breach.
fn kinds(alloc: Global, source: &str) -> Result<String, AllocError> {
    let mut text = String::new(alloc);
    if source.len() >= 4294967295 {
        return Ok(text);
    }
    match sql_tokens(alloc, source) {
        Ok(list) => {
            for token in list.as_slice() {
                let letter = letter(token.kind) as char;
                let size = token.to.saturating_sub(token.from);
                write!(text, "{letter}{size}")?;
            }
        }
        Err(Stop::Named(SqlLex { token })) => write!(text, "{token} lex")?,
        Err(Stop::NoMemory) => text.push_str("no memory")?,
    }
    Ok(text)
}

static SOURCES: [(&str, &str); 22] = [
    ("\u{feff} \t\r\n-- a comment\n# and one to the end", ""),
    ("a \u{feff}", "1 lex"),
    ("_a1 SELECT 1a", "w3w6n1w1"),
    ("a:b : :a.b :a. a:b..c :.b", "p3p1p4p2s1p3s1s1w1p1s1w1"),
    (":\u{e4}-1--x a:-", "p8p3"),
    ("?x $x", "v2v2"),
    ("? x", "0 lex"),
    ("<http://e/#--a>", "i15"),
    ("<h+.-1:\u{e4}> <> <= < a:b>", "i10s2s2s1p3s1"),
    ("<a:b{c", "s1p3s1w1"),
    ("-5 5 -05--6", "n2n1n3"),
    ("a-b", "1 lex"),
    ("-", "0 lex"),
    ("'' 'a''b' 'a' 'b'", "q2q6q3q3"),
    ("'a''", "1 lex"),
    ("'a''b", "1 lex"),
    ("'--\n#'", "q6"),
    ("\"a\\\"\\\\\" \"\"", "d7d2"),
    ("\"a\\b\"", "0 lex"),
    ("( a \"b", "2 lex"),
    ("(){},.;=!=>=>^^*", "12 lex"),
    ("(){},.;=!=>=>^^", "s1s1s1s1s1s1s1s1s2s2s1s2"),
];

#[test]
fn tokens_are_the_longest_at_each_place(rt: HostRuntime) -> Result<(), Fail> {
    let alloc = rt.alloc();
    for (source, want) in &SOURCES {
        assert_eq!(rt; kinds(alloc, source)?.as_str(), *want, "{source:?}");
    }
    Ok(())
}

fn show_column(alias: &Option<Text>, column: &Text, out: &mut String) -> Result<(), AllocError> {
    if let Some(alias) = alias {
        out.push_str(alias.as_str())?;
        out.push('.')?;
    }
    out.push_str(column.as_str())
}

fn show_operand(operand: &Operand, out: &mut String) -> Result<(), AllocError> {
    match operand {
        Operand::Column { alias, column } => show_column(alias, column, out),
        Operand::Constant(Value::Int(number)) => write!(out, "{number}"),
        Operand::Constant(Value::Text(text)) => {
            let text = text.as_str();
            write!(out, "[{text}]")
        }
        Operand::Constant(Value::Date(date)) => {
            let (year, month, day) = (date.year, date.month, date.day);
            write!(out, "{year}/{month}/{day}")
        }
    }
}

fn sign(op: Compare) -> &'static str {
    match op {
        Compare::Equal => "=",
        Compare::Differ => "<>",
        Compare::Less => "<",
        Compare::AtMost => "<=",
        Compare::More => ">",
        Compare::AtLeast => ">=",
    }
}

// The parts of a query, each with what it means where the text does not say it.
fn show(query: &SourceQuery, out: &mut String) -> Result<(), AllocError> {
    for item in query.items.as_slice() {
        show_column(&item.alias, &item.column, out)?;
        let output = item.output.as_str();
        write!(out, ":{output} ")?;
    }
    for entry in query.from.as_slice() {
        let (table, alias) = (entry.table.as_str(), entry.alias.as_str());
        write!(out, "| {table}:{alias} ")?;
    }
    for condition in query.conditions.as_slice() {
        out.push_str("& ")?;
        show_operand(&condition.left, out)?;
        out.push_str(sign(condition.op))?;
        show_operand(&condition.right, out)?;
        out.push(' ')?;
    }
    Ok(())
}

// The query, or the kind of its breach and its token.
fn read(alloc: Global, text: &str) -> Result<String, AllocError> {
    let mut out = String::new(alloc);
    if text.len() >= 4294967295 {
        return Ok(out);
    }
    let Ok(list) = sql_tokens(alloc, text) else {
        return Ok(out);
    };
    if list.as_slice().len() >= 4294967295 {
        return Ok(out);
    }
    match read_source_query(alloc, text, list.as_slice()) {
        Ok(query) => show(&query, &mut out)?,
        Err(Stop::Named(SqlBreach { token, kind })) => write!(out, "{token} {kind:?}")?,
        Err(Stop::NoMemory) => out.push_str("no memory")?,
    }
    Ok(out)
}

static QUERIES: [(&str, &str); 20] = [
    ("SELECT id FROM people", "id:id | people:people "),
    (
        "select Distinct p.id AS n, Load from people as p, other o # all",
        "p.id:n Load:Load | people:p | other:o ",
    ),
    (
        "SELECT x FROM t WHERE x=-07 AND t.y!='it''s' AND 'a'<>date '2024-02-29' AND 1<x AND 1<=x AND 1>x AND 1>=x",
        "x:x | t:t & x=-7 & t.y<>[it's] & [a]<>2024/2/29 & 1<x & 1<=x & 1>x & 1>=x ",
    ),
    ("SELECT id people", "2 Grammar"),
    ("", "0 Grammar"),
    ("SELECT", "1 Grammar"),
    ("SELECT DISTINCT FROM t", "2 Grammar"),
    ("SELECT a.b.c FROM t", "4 Grammar"),
    ("SELECT a AS date FROM t", "3 Grammar"),
    ("SELECT a FROM t t2 t3", "5 Grammar"),
    ("SELECT a FROM t, union", "5 Grammar"),
    ("SELECT a FROM t;", "4 Grammar"),
    ("SELECT a FROM t WHERE a = b = c", "8 Grammar"),
    ("SELECT a FROM t WHERE a = b OR c = d", "8 Grammar"),
    ("SELECT a FROM t WHERE a = 9223372036854775808", "7 Grammar"),
    ("SELECT a FROM t WHERE a = DATE '2023-02-30'", "8 Grammar"),
    ("SELECT a FROM t WHERE a = \"b\"", "7 Grammar"),
    (
        "SELECT a FROM a,b,c,d,e,f,g,h",
        "a:a | a:a | b:b | c:c | d:d | e:e | f:f | g:g | h:h ",
    ),
    ("SELECT a FROM a,b,c,d,e,f,g,h,i,,", "19 Aliases"),
    ("SELECT a FROM a,b,c,d,e,f,g,h,where", "19 Grammar"),
];

#[test]
fn a_source_query_is_that_of_the_grammar_or_its_first_breach(rt: HostRuntime) -> Result<(), Fail> {
    let alloc = rt.alloc();
    for (text, want) in &QUERIES {
        assert_eq!(rt; read(alloc, text)?.as_str(), *want, "{text:?}");
    }
    Ok(())
}
