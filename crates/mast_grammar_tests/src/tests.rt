//! Tests of mast_grammar, of what no clause says: that calls succeed, and that the definitions give the answers of worked inputs.
use mast_grammar::{GrammarBreach, Terminal, first_breach};
use std::alloc::{AllocError, Global};
use std::test::Fail;

// One letter a terminal.
fn terminal(letter: u8) -> Terminal {
    match letter {
        b'S' => Terminal::Select,
        b'D' => Terminal::Distinct,
        b'F' => Terminal::From,
        b'W' => Terminal::Where,
        b'@' => Terminal::As,
        b'&' => Terminal::And,
        b'|' => Terminal::Or,
        b'!' => Terminal::Not,
        b'E' => Terminal::Exists,
        b'U' => Terminal::Union,
        b'X' => Terminal::Except,
        b'I' => Terminal::Intersect,
        b'P' => Terminal::Prefix,
        b'T' => Terminal::Sparqltable,
        b'd' => Terminal::Date,
        b'a' => Terminal::A,
        b'n' => Terminal::Name,
        b'p' => Terminal::Pname,
        b':' => Terminal::NewPrefix,
        b'v' => Terminal::Var,
        b'i' => Terminal::Iri,
        b'5' => Terminal::Integer,
        b'q' => Terminal::Quoted,
        b's' => Terminal::Doubled,
        b'(' => Terminal::Open,
        b')' => Terminal::Close,
        b'{' => Terminal::OpenBrace,
        b'}' => Terminal::CloseBrace,
        b',' => Terminal::Comma,
        b'.' => Terminal::Dot,
        b';' => Terminal::Semicolon,
        b'=' => Terminal::Equal,
        b'#' => Terminal::Differ,
        b'^' => Terminal::Carets,
        _ => Terminal::Other,
    }
}

fn push(list: &mut Vec<Terminal>, letters: &str) -> Result<(), AllocError> {
    for letter in letters.as_bytes() {
        list.push(terminal(*letter))?;
    }
    Ok(())
}

// The first breach of the terminals, or that they are a query.
fn told(alloc: Global, terminals: &[Terminal]) -> Result<String, AllocError> {
    let mut text = String::new(alloc);
    if terminals.len() >= 4294967295 {
        return Ok(text);
    }
    match first_breach(alloc, terminals) {
        Ok(None) => text.push_str("query")?,
        Ok(Some(GrammarBreach { at, kind })) => write!(text, "{at} {kind:?}")?,
        Err(_) => text.push_str("no memory")?,
    }
    Ok(text)
}

// A front, a part so many times, and an end; and what is told of them.
static ROWS: [(&str, &str, usize, &str, &str); 30] = [
    ("P:iSn.nFT(SvW{vpv})n", "", 0, "", "query"),
    (
        "(Sn@nFT(SDvvW{vps^i;ai,i.})@n)USnFT(Sv{{vai}U{vai.vp5}})nISnFT(Sv{vai})n;",
        "",
        0,
        "",
        "query",
    ),
    (
        "SDnFT(Sv{vai})nWn.n=n(5,q)|!E(SnFT(Sv{vai})n)&(dq#a)",
        "",
        0,
        "",
        "query",
    ),
    ("", "", 0, "", "0 Grammar"),
    ("P:iPpi", "", 0, "", "4 Grammar"),
    ("Sn", "", 0, "", "2 Grammar"),
    ("Sn,F", "", 0, "", "3 Grammar"),
    ("SnFT(Sv{vpi", "", 0, "", "10 Grammar"),
    ("SnFT(Sv{va5", "", 0, "", "10 Grammar"),
    ("SnFT(Sv{vav", "", 0, "", "10 Grammar"),
    ("SnFT(Sv{vai..", "", 0, "", "12 Grammar"),
    ("SnFT(Sv{{vai}vai", "", 0, "", "13 Grammar"),
    ("SnFT(Sv{vai})nW5=5=", "", 0, "", "18 Grammar"),
    ("SnFT(Sv{vai})nWn<", "", 0, "", "16 Grammar"),
    ("SnFT(Sv{vai})n;;", "", 0, "", "15 Grammar"),
    ("", "(", 15, "SnFT(Sv{vai})n)))))))))))))))", "query"),
    ("", "(", 17, "", "16 Depth"),
    ("S", "(", 17, "", "1 Grammar"),
    ("SnFT(Sv{vai})nW", "!", 1000, "5=5", "query"),
    ("SnFT(Sv{vai})nW", "!", 1000, "&", "1015 Operators"),
    ("SnF", "T(Sv{vai})n,", 7, "T(Sv{vai})n", "query"),
    ("SnF", "T(Sv{vai})n,", 8, "T", "99 Entries"),
    ("SnF", "T(Sv{vai})n,", 8, "n", "99 Grammar"),
    ("SnFT(Sv{", "{vai}U", 15, "{vai}})n", "query"),
    ("SnFT(Sv{", "{vai}U", 16, "{", "104 Disjuncts"),
    ("SnFT(Sv{", "{vai}U", 16, "v", "104 Grammar"),
    ("SnFT(Sv{vp", "v,", 23, "v})n", "query"),
    ("SnFT(Sv{vp", "v,", 24, "p", "58 Atoms"),
    ("SnFT(Sv{va", "i,", 24, "v", "58 Atoms"),
    ("SnFT(Sv{vp", "v,", 24, "n", "58 Grammar"),
];

#[test]
fn first_breaches_of_terminals(rt: HostRuntime) -> Result<(), Fail> {
    let alloc = rt.alloc();
    for (front, part, times, end, want) in &ROWS {
        let mut list = Vec::new(alloc);
        push(&mut list, front)?;
        for _ in 0..*times {
            push(&mut list, part)?;
        }
        push(&mut list, end)?;
        assert_eq!(rt;
            told(alloc, list.as_slice())?.as_str(),
            *want,
            "{front} {part} {end}"
        );
    }
    Ok(())
}
