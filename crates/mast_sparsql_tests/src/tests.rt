//! Tests of mast_sparsql, of what no clause says: that calls succeed, and that the definitions give the answers of worked files.
use mast_sparsql::{QueryBreach, file_tokens, query_tokens, query_tree};
use mast_sql::SqlLex;
use mast_terms::Stop;
use std::alloc::{AllocError, Global};
use std::test::Fail;

// The number of tokens, or of the tokens before the first lexical breach.
fn lexed(alloc: Global, source: &[u8]) -> Result<String, AllocError> {
    let mut text = String::new(alloc);
    if source.len() >= 4294967295 {
        return Ok(text);
    }
    match file_tokens(alloc, source) {
        Ok(tokens) => {
            let size = tokens.as_slice().len();
            write!(text, "{size}")?;
        }
        Err(Stop::Named(SqlLex { token })) => write!(text, "{token} lex")?,
        Err(Stop::NoMemory) => text.push_str("no memory")?,
    }
    Ok(text)
}

// The number of tokens, or the first breach of the first two passes.
fn judged(alloc: Global, source: &[u8]) -> Result<String, AllocError> {
    let mut text = String::new(alloc);
    if source.len() >= 4294967295 {
        return Ok(text);
    }
    match query_tokens(alloc, source) {
        Ok(tokens) => {
            let size = tokens.as_slice().len();
            write!(text, "{size}")?;
        }
        Err(Stop::Named(QueryBreach { token, kind })) => write!(text, "{token} {kind:?}")?,
        Err(Stop::NoMemory) => text.push_str("no memory")?,
    }
    Ok(text)
}

// The number of tokens of a tree, or the first breach of the first two passes.
fn read(alloc: Global, source: &[u8]) -> Result<String, AllocError> {
    let mut text = String::new(alloc);
    if source.len() >= 4294967295 {
        return Ok(text);
    }
    match query_tree(alloc, source) {
        Ok(read) => {
            let size = read.0.as_slice().len();
            write!(text, "{size}")?;
        }
        Err(Stop::Named(QueryBreach { token, kind })) => write!(text, "{token} {kind:?}")?,
        Err(Stop::NoMemory) => text.push_str("no memory")?,
    }
    Ok(text)
}

static FILES: [(&[u8], &str); 8] = [
    (b"", "0"),
    (b"SELECT ?x :likes", "3"),
    (b"SELECT 'a", "1 lex"),
    (b"SELECT ?x \xff", "2 lex"),
    (b"SELECT ? \xff", "1 lex"),
    (b"SELECT 'a\xff'", "1 lex"),
    (b"SELECT -- \xff", "1 lex"),
    (b":a\xc3", "1 lex"),
];

static QUERIES: [(&str, &str); 14] = [
    (
        "PREFIX : <http://e/> SELECT t.x FROM sparqltable(SELECT ?x WHERE { ?x :likes ?y }) t",
        "20",
    ),
    (
        "select a from sparqltable(select $a { $a a <h:A> ; <h:r> 5 , \"x\"^^<h:t> }) as a where a != date '' ;",
        "28",
    ),
    (
        "PREFIX a: <h:a> PREFIX b: <h:b> PREFIX : <h:c> SELECT",
        "10 Grammar",
    ),
    ("PREFIX a: <h:a> PREFIX a: <h:b>", "4 Grammar"),
    ("PREFIX a:b <h:a>", "1 Grammar"),
    ("PREFIX a <h:a>", "1 Grammar"),
    ("a:", "0 Grammar"),
    ("SELECT x FROM t", "3 Grammar"),
    (
        "SELECT x FROM sparqltable(SELECT ?x { ?x :r :y",
        "10 Grammar",
    ),
    ("SELECT x FROM sparqltable(SELECT ?x { ?x A", "9 Grammar"),
    ("SELECT x <= y", "2 Grammar"),
    ("((((((((((((((((( \"", "17 Lex"),
    ("(((((((((((((((((", "16 Depth"),
    ("SELECT x ? \u{e4}", "2 Lex"),
];

// Each form of the grammar, and parentheses as deep as they go.
static FORMS: [&str; 9] = [
    "SELECT a FROM sparqltable(SELECT ?a {?a a <h:A>}) t",
    "SELECT DISTINCT t.a AS b, a FROM sparqltable(SELECT DISTINCT ?a ?b WHERE {?a <h:p> ?b, 1, \"x\"^^<h:t> ; a <h:A>, <h:B> . ?b <h:q> \"y\" .}) AS t, sparqltable(SELECT ?a {?a a <h:A>}) t;",
    "SELECT a FROM sparqltable(SELECT ?a {{?a a <h:A>} UNION {?a a <h:B> .}}) t",
    "SELECT a FROM sparqltable(SELECT ?a {{?a a <h:A>}}) t WHERE a = 1",
    "SELECT a FROM sparqltable(SELECT ?a {?a a <h:A>}) t WHERE NOT NOT a = f('x', 3, DATE '2020-01-01') AND g() <> t.a OR a != 'y' AND NOT (5 = a OR a = a)",
    "SELECT a FROM sparqltable(SELECT ?a {?a a <h:A>}) t WHERE NOT EXISTS (SELECT a FROM sparqltable(SELECT ?a {?a a <h:A>}) t UNION (SELECT a FROM sparqltable(SELECT ?a {?a a <h:A>}) t)) OR a = 1",
    "SELECT a FROM sparqltable(SELECT ?a {?a a <h:A>}) t INTERSECT SELECT a FROM sparqltable(SELECT ?a {?a a <h:A>}) t UNION SELECT a FROM sparqltable(SELECT ?a {?a a <h:A>}) t EXCEPT (SELECT a FROM sparqltable(SELECT ?a {?a a <h:A>}) t) INTERSECT SELECT a FROM sparqltable(SELECT ?a {?a a <h:A>}) t",
    "PREFIX a: <h:a> PREFIX : <h:b> (((((((((((((((SELECT a FROM sparqltable(SELECT ?a {?a a <h:A>}) t WHERE (a = 1))))))))))))))));",
    "SELECT a FROM sparqltable(SELECT ?a {?a a <h:A>}) t WHERE ((((((((((((((((a = 1))))))))))))))))",
];

#[test]
fn first_lexical_breaches_of_files(rt: HostRuntime) -> Result<(), Fail> {
    let alloc = rt.alloc();
    for (source, want) in &FILES {
        assert_eq!(rt; lexed(alloc, source)?.as_str(), *want, "{source:?}");
    }
    Ok(())
}

#[test]
fn first_breaches_of_two_passes(rt: HostRuntime) -> Result<(), Fail> {
    let alloc = rt.alloc();
    for (source, want) in &QUERIES {
        assert_eq!(rt;
            judged(alloc, source.as_bytes())?.as_str(),
            *want,
            "{source:?}"
        );
    }
    Ok(())
}

#[test]
fn what_passes_the_grammar_has_a_tree(rt: HostRuntime) -> Result<(), Fail> {
    let alloc = rt.alloc();
    for (source, want) in &QUERIES {
        assert_eq!(rt;
            read(alloc, source.as_bytes())?.as_str(),
            *want,
            "{source:?}"
        );
    }
    for source in &FORMS {
        let tokens = read(alloc, source.as_bytes())?;
        assert_eq!(rt;
            tokens.as_str(),
            judged(alloc, source.as_bytes())?.as_str(),
            "{source:?}"
        );
        assert!(rt;
            tokens.as_str().bytes().all(|b| b.is_ascii_digit()),
            "{source:?} {tokens}"
        );
    }
    Ok(())
}
