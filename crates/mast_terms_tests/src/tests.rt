//! Tests of mast_terms: what no clause says, values from outside, and that calls succeed where memory is there.
use mast_terms::{
    Args, BadDate, BadInt, Date, NameKind, NoMemory, Object, Stop, Term, Text, Value, Vocabulary,
    read_date, read_int, write_term,
};
use std::alloc::Global;
use std::test::Fail;

#[test]
fn integers_are_read(rt: HostRuntime) {
    let cases = [
        ("007", Ok(7)),
        ("+5", Ok(5)),
        ("-0", Ok(0)),
        ("9223372036854775807", Ok(i64::MAX)),
        ("-9223372036854775808", Ok(i64::MIN)),
        ("00000000000000000000001", Ok(1)),
        ("", Err(0)),
        ("-", Err(1)),
        ("+-1", Err(1)),
        ("12a", Err(2)),
        ("9223372036854775808", Err(18)),
        ("-9223372036854775809", Err(19)),
        ("12 ", Err(2)),
    ];
    for (cell, want) in cases {
        let want = match want {
            Ok(number) => Ok(number),
            Err(at) => Err(BadInt { at }),
        };
        assert_eq!(rt; read_int(cell.as_bytes()), want, "{cell}");
    }
}

#[test]
fn dates_are_read(rt: HostRuntime) {
    let cases = [
        ("2024-02-29", Ok((2024, 2, 29))),
        ("2000-02-29", Ok((2000, 2, 29))),
        ("0001-01-01", Ok((1, 1, 1))),
        ("9999-12-31", Ok((9999, 12, 31))),
        ("", Err(0)),
        ("0000-01-01", Err(3)),
        ("2023/01/01", Err(4)),
        ("2023-00-10", Err(6)),
        ("2023-13-01", Err(6)),
        ("2023-2-01", Err(5)),
        ("2023-02-30", Err(8)),
        ("2023-02-29", Err(9)),
        ("1900-02-29", Err(9)),
        ("2023-04-31", Err(9)),
        ("2023-04-3", Err(9)),
        ("2023-04-300", Err(10)),
    ];
    for (cell, want) in cases {
        let want = match want {
            Ok((year, month, day)) => match Date::new(year, month, day) {
                Some(date) => Ok(date),
                None => Err(BadDate { at: 99 }),
            },
            Err(at) => Err(BadDate { at }),
        };
        assert_eq!(rt; read_date(cell.as_bytes()), want, "{cell}");
    }
}

fn printed(alloc: Global, term: &Term) -> Result<Vec<u8>, NoMemory> {
    let mut out = Vec::new(alloc);
    write_term(alloc, term, &mut out)?;
    Ok(out)
}

fn sample(alloc: Global) -> Result<Term, NoMemory> {
    let mut args = Args::new(alloc);
    for number in [7, -7, i64::MIN] {
        args.push(alloc, Value::Int(number))?;
    }
    args.push(
        alloc,
        Value::Text(Text::from_str(alloc, "a\"b\\c\nd\re\tf,")?),
    )?;
    Ok(Term::Object(Object {
        symbol: Text::from_str(alloc, "p")?,
        args,
    }))
}

fn printed_sample(alloc: Global) -> Result<Vec<u8>, NoMemory> {
    let term = sample(alloc)?;
    let copy = term.copy(alloc)?;
    printed(alloc, &copy)
}

#[test]
fn terms_are_printed(rt: HostRuntime) -> Result<(), Fail> {
    let want = "p(7,-7,-9223372036854775808,\"a\\\"b\\\\c\\nd\\re\\tf,\")";
    let text = printed_sample(rt.alloc())?;
    assert_eq!(rt; text.as_slice(), want.as_bytes());
    Ok(())
}

// Whether each way to this text gives it: from a text, from a buffer, by a copy, and in the place of another text.
fn is_kept(alloc: Global, text: &str, other: &str) -> Result<bool, NoMemory> {
    let made = Text::from_str(alloc, text)?;
    let of_buffer = Text::from_string(alloc, String::from_str(alloc, text)?)?;
    let mut set = Text::from_str(alloc, other)?;
    set.set(alloc, text)?;
    let copy = set.copy(alloc)?;
    Ok(copy.as_str() == text && copy == made && of_buffer == made && set == made)
}

#[test]
fn texts_are_kept(rt: HostRuntime) -> Result<(), Fail> {
    let texts = [
        "",
        "a",
        "fourteen bytes",
        "fifteen bytes..",
        "dreizehn Bytё",
        "a text of many more bytes",
    ];
    for text in texts {
        for other in texts {
            assert!(rt; is_kept(rt.alloc(), text, other)?, "{text} after {other}");
        }
    }
    Ok(())
}

// Whether an IRI gets this number, or is refused where there is none.
fn gets(
    vocabulary: &mut Vocabulary,
    alloc: Global,
    kind: NameKind,
    iri: &str,
    want: Option<u32>,
) -> bool {
    match vocabulary.add(alloc, kind, iri) {
        Ok(name) => want == Some(name.0),
        Err(Stop::Named(_)) => want.is_none(),
        Err(Stop::NoMemory) => false,
    }
}

// How many of the answers are as wanted.
fn right_names(
    vocabulary: &mut Vocabulary,
    alloc: Global,
    cases: &[(NameKind, &str, Option<u32>)],
) -> u64 {
    let mut right = 0u64;
    for (kind, iri, want) in cases {
        if gets(vocabulary, alloc, *kind, iri, *want) {
            right = right.wrapping_add(1);
        }
    }
    right
}

// How many of the answers are as wanted, by a copy of a vocabulary that the first names were added to.
fn names_by_a_copy(
    alloc: Global,
    first: &[(NameKind, &str, Option<u32>)],
    cases: &[(NameKind, &str, Option<u32>)],
) -> Result<u64, NoMemory> {
    let mut vocabulary = Vocabulary::new(alloc);
    right_names(&mut vocabulary, alloc, first);
    copied_names(alloc, &vocabulary, cases)
}

fn copied_names(
    alloc: Global,
    vocabulary: &Vocabulary,
    cases: &[(NameKind, &str, Option<u32>)],
) -> Result<u64, NoMemory> {
    let mut copy = vocabulary.copy(alloc)?;
    Ok(right_names(&mut copy, alloc, cases))
}

#[test]
fn names_keep_their_numbers(rt: HostRuntime) -> Result<(), Fail> {
    let cases = [
        (NameKind::Class, "http://e/a", Some(0)),
        (NameKind::Role, "http://e/a", Some(0)),
        (NameKind::Role, "http://e/b", Some(1)),
        (NameKind::Role, "http://e/a", Some(0)),
        (NameKind::Attr, "http://e/b", None),
        (NameKind::Attr, "http://e/c", Some(0)),
        (NameKind::Role, "http://e/c", None),
        (NameKind::Class, "http://e/c", Some(1)),
    ];
    for first in [&cases[..0], &cases[..4], &cases] {
        assert_eq!(rt; names_by_a_copy(rt.alloc(), first, &cases)?, 8);
    }
    Ok(())
}

// Whether a constant gets this number in a vocabulary.
fn is_numbered(vocabulary: &mut Vocabulary, alloc: Global, value: &Value, want: u32) -> bool {
    match vocabulary.add_value(alloc, value) {
        Ok(number) => number == want,
        Err(Stop::Named(_) | Stop::NoMemory) => false,
    }
}

// How many constants get the numbers behind them.
fn right_numbers(vocabulary: &mut Vocabulary, alloc: Global, cases: &[(i64, u32)]) -> u64 {
    let mut right = 0u64;
    for (number, want) in cases {
        if is_numbered(vocabulary, alloc, &Value::Int(*number), *want) {
            right = right.wrapping_add(1);
        }
    }
    right
}

// How many constants get the numbers behind them, by a copy of a vocabulary that the first were added to.
fn numbers_by_a_copy(
    alloc: Global,
    first: &[(i64, u32)],
    cases: &[(i64, u32)],
) -> Result<u64, NoMemory> {
    let mut vocabulary = Vocabulary::new(alloc);
    right_numbers(&mut vocabulary, alloc, first);
    copied_numbers(alloc, &vocabulary, cases)
}

fn copied_numbers(
    alloc: Global,
    vocabulary: &Vocabulary,
    cases: &[(i64, u32)],
) -> Result<u64, NoMemory> {
    let mut copy = vocabulary.copy(alloc)?;
    Ok(right_numbers(&mut copy, alloc, cases))
}

#[test]
fn constants_keep_their_numbers(rt: HostRuntime) -> Result<(), Fail> {
    let cases = [(5, 0), (7, 1), (5, 0)];
    for first in [&cases[..0], &cases[..1], &cases] {
        assert_eq!(rt; numbers_by_a_copy(rt.alloc(), first, &cases)?, 3);
    }
    Ok(())
}
