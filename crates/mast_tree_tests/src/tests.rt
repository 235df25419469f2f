//! Tests of mast_tree: what no clause says, that calls succeed, and that the definitions give the answers of worked inputs.
use mast_terms::Stop;
use mast_tree::{
    Doc, Item, LexBreach, ShapeBreach, TokenKind, TreeBreach, prefixes, read_doc, tokens,
};
use std::alloc::{AllocError, Global};
use std::test::Fail;

// `(`, `)`, `=`, `^`, `@`, `<`, `n`, `s` for the kinds of tokens.
fn letter(kind: TokenKind) -> u8 {
    match kind {
        TokenKind::Open => b'(',
        TokenKind::Close => b')',
        TokenKind::Equals => b'=',
        TokenKind::Carets => b'^',
        TokenKind::Lang => b'@',
        TokenKind::Iri => b'<',
        TokenKind::Name => b'n',
        TokenKind::Str => b's',
    }
}

// The kinds as letters, each with its line, or the kind of the breach and its offset.
fn kinds(alloc: Global, source: &[u8]) -> Result<String, AllocError> {
    let mut text = String::new(alloc);
    if source.len() >= 4294967295 {
        return Ok(text);
    }
    match tokens(alloc, source) {
        Ok(list) => {
            for token in list.as_slice() {
                let letter = letter(token.kind) as char;
                let line = token.line;
                write!(text, "{letter}{line}")?;
            }
        }
        Err(Stop::Named(LexBreach { at, kind })) => write!(text, "{at} {kind:?}")?,
        Err(Stop::NoMemory) => text.push_str("no memory")?,
    }
    Ok(text)
}

static SOURCES: [(&str, &str); 18] = [
    (" \t\r\n# only a comment", ""),
    ("\u{feff}\u{feff}", "n1"),
    ("a:b(c=<d> \"e\"@en-1 \"f\"^^g)", "n1(1n1=1<1s1@1s1^1n1)1"),
    ("<http://e/#a> b", "<1n1"),
    ("\"#\" # \"\n(", "s1(2"),
    ("\"a\\\"b\\\\\n\" a%?._-:9\u{e4}", "s1n2"),
    ("<>", "<1"),
    ("a>", "1 Character"),
    ("a ^b", "2 Character"),
    ("@_", "0 Character"),
    ("<a b>", "0 OpenIri"),
    ("(<a", "1 OpenIri"),
    (" \"ab", "1 OpenString"),
    ("\"ab\\c", "3 Escape"),
    ("\"ab\\", "3 Escape"),
    ("\"ab\\\\", "0 OpenString"),
    ("> \u{7f}", "0 Character"),
    (
        "Prefix(:=<http://e/>)\nOntology(\nAnnotationAssertion(:note :A \"abc",
        "61 OpenString",
    ),
];

#[test]
fn tokens_are_the_longest_at_each_place(rt: HostRuntime) -> Result<(), Fail> {
    let alloc = rt.alloc();
    for (source, want) in &SOURCES {
        assert_eq!(rt;
            kinds(alloc, source.as_bytes())?.as_str(),
            *want,
            "{source:?}"
        );
    }
    assert_eq!(rt; kinds(alloc, b"> \xe2\x82")?.as_str(), "2 NotUtf8");
    Ok(())
}

// Items in the notation of trees: `n`, `<`, `s`, `s@`, `n=`, `n(..)`, each with the numbers of its tokens.
fn show(items: &[Item], out: &mut String) -> Result<(), AllocError> {
    for item in items {
        match item {
            Item::Leaf { token } => write!(out, "n{token} ")?,
            Item::Iri { token } => write!(out, "<{token} ")?,
            Item::Str { token, tag: None } => write!(out, "s{token} ")?,
            Item::Str {
                token,
                tag: Some(tag),
            } => write!(out, "s{token}@{tag} ")?,
            Item::Bind { token, iri } => write!(out, "n{token}={iri} ")?,
            Item::Node { token, items } => {
                write!(out, "n{token}( ")?;
                show(items.get().as_slice(), out)?;
                write!(out, ") ")?;
            }
        }
    }
    Ok(())
}

// The items, or the kind of the tree breach and its token.
fn tree(alloc: Global, source: &[u8]) -> Result<String, AllocError> {
    let mut out = String::new(alloc);
    if source.len() >= 4294967295 {
        return Ok(out);
    }
    let Ok(list) = tokens(alloc, source) else {
        return Ok(out);
    };
    let list = list.as_slice();
    if list.len() >= 4294967295 {
        return Ok(out);
    }
    match read_doc(alloc, source, list) {
        Ok(doc) => show(doc.items.as_slice(), &mut out)?,
        Err(Stop::Named(TreeBreach { token, kind })) => write!(out, "{token} {kind:?}")?,
        Err(Stop::NoMemory) => out.push_str("no memory")?,
    }
    Ok(out)
}

static TREES: [(&str, &str); 8] = [
    (
        "a <b> \"c\" \"d\"@e \"f\"^^g \"h\"^^<i>",
        "n0 <1 s2 s3@4 s5@7 s8@10 ",
    ),
    (
        "a=<b> c() d(e f(g) \"h\")",
        "n0=2 n3( ) n6( n8 n9( n11 ) s13 ) ",
    ),
    ("a(b", "3 Unexpected"),
    ("a(b))", "4 Unexpected"),
    ("a = b", "2 Unexpected"),
    ("\"a\" ^^ \"b\"", "2 Unexpected"),
    ("<a>(", "1 Unexpected"),
    (
        "Prefix(:=<http://e/>)\nOntology(\nAnnotationAssertion(:note :A ",
        "12 Unexpected",
    ),
];

#[test]
fn a_tree_is_that_of_the_grammar_or_its_first_breach(rt: HostRuntime) -> Result<(), Fail> {
    let alloc = rt.alloc();
    for (source, want) in &TREES {
        assert_eq!(rt;
            tree(alloc, source.as_bytes())?.as_str(),
            *want,
            "{source:?}"
        );
    }
    Ok(())
}

#[test]
fn at_most_64_parentheses_are_open(rt: HostRuntime) -> Result<(), Fail> {
    let alloc = rt.alloc();
    let mut source = Vec::new(alloc);
    for _ in 0..65 {
        source.extend_from_slice(b"a(")?;
    }
    for _ in 0..65 {
        source.push(b')')?;
    }
    assert_eq!(rt; tree(alloc, source.as_slice())?.as_str(), "129 Deep");
    Ok(())
}

// The IRI of the last item of the last node, and the text of the item before, or the kind of the breach and its line.
fn last_iri(alloc: Global, source: &[u8]) -> Result<String, AllocError> {
    let mut out = String::new(alloc);
    if source.len() >= 4294967295 {
        return Ok(out);
    }
    let Ok(list) = tokens(alloc, source) else {
        return Ok(out);
    };
    let list = list.as_slice();
    if list.len() >= 4294967295 {
        return Ok(out);
    }
    let Ok(doc) = read_doc(alloc, source, list) else {
        return Ok(out);
    };
    match expanded(alloc, &doc, &mut out) {
        Ok(()) => (),
        Err(Stop::Named(ShapeBreach { line, kind })) => write!(out, "{line} {kind:?}")?,
        Err(Stop::NoMemory) => out.push_str("no memory")?,
    }
    Ok(out)
}

fn expanded(alloc: Global, doc: &Doc, out: &mut String) -> Result<(), Stop<ShapeBreach>> {
    let table = prefixes(alloc, doc, "Ontology")?;
    if let Some(Item::Node { items, .. }) = doc.items.as_slice().last() {
        match items.get().as_slice() {
            [Item::Str { token, .. }] => out.push_str(doc.text(alloc, *token)?.as_str())?,
            [item] => out.push_str(table.expand(alloc, doc, item)?.as_str())?,
            _ => (),
        }
    }
    Ok(())
}

static DOCUMENTS: [(&str, &str); 20] = [
    ("Ontology(<http://e/a>)", "http://e/a"),
    ("Prefix(:=<http://e/>)\nOntology(:a:b)", "http://e/a:b"),
    ("Ontology(owl:Thing)", "http://www.w3.org/2002/07/owl#Thing"),
    (
        "Ontology(rdf:a)",
        "http://www.w3.org/1999/02/22-rdf-syntax-ns#a",
    ),
    ("Ontology(rdfs:a)", "http://www.w3.org/2000/01/rdf-schema#a"),
    ("Ontology(xsd:a)", "http://www.w3.org/2001/XMLSchema#a"),
    ("Prefix(owl:=<x>)Ontology(owl:Thing)", "xThing"),
    ("Ontology(\"a\\\"\\\\\nb\u{e4}\")", "a\"\\\nb\u{e4}"),
    ("Ontology(\na)", "2 Shape"),
    ("Ontology(\n:a)", "2 UnknownPrefix"),
    ("Ontology(\na=<b>)", "2 Shape"),
    ("\nPrefix()Ontology()", "2 Shape"),
    ("\nPrefix(:=<a>\nb:=<c>)Ontology()", "2 Shape"),
    ("Prefix(\n:a)Ontology()", "2 Shape"),
    ("Prefix(\n:a:=<b>)Ontology()", "2 Shape"),
    ("Prefix(:=<a>)\nPrefix(\n:=<a>)Ontology()", "2 Shape"),
    ("\nMappings()", "2 Shape"),
    ("\nOntology Ontology()", "2 Shape"),
    ("\n\nPrefix(:=<a>)", "1 Shape"),
    ("", "1 Shape"),
];

#[test]
fn an_iri_is_a_prefix_and_what_follows(rt: HostRuntime) -> Result<(), Fail> {
    let alloc = rt.alloc();
    for (source, want) in &DOCUMENTS {
        assert_eq!(rt;
            last_iri(alloc, source.as_bytes())?.as_str(),
            *want,
            "{source:?}"
        );
    }
    Ok(())
}
