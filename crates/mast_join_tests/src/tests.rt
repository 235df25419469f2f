//! Tests of mast_join: source queries over small tables, with the choices that SQLite gives for the same rows.
ghost use Rattle.std.specs.Prelude.{◌≡◌, ◌∷◌, [], IfOk, OnOk};
ghost use Rattle.mast_canon.specs.Fitting.{Fits};
ghost use Rattle.mast_join.specs.Chosen.{AreFew};
ghost use Rattle.mast_join_tests.specs.Loaded.{AreLoaded};

use mast_canon::{RowId, Tables};
use mast_join::{Choices, choices};
use mast_sql::{SourceQuery, read_source_query, sql_tokens};
use mast_tables::{Column, Table, TableDecl, load};
use mast_terms::{Kind, List, NoMemory, Text};
use std::alloc::{AllocError, Global};
use std::test::Fail;

fn column(alloc: Global, name: &str, kind: Kind) -> Result<Column, NoMemory> {
    Ok(Column {
        name: Text::from_str(alloc, name)?,
        kind,
        null: true,
    })
}

// A table with a text, an integer and a date column, each of which may have missing cells.
fn declared(alloc: Global, name: &str, columns: &[&str; 3]) -> Result<TableDecl, NoMemory> {
    let mut list = List::new(alloc);
    list.push(alloc, column(alloc, columns[0], Kind::Text)?)?;
    list.push(alloc, column(alloc, columns[1], Kind::Integer)?)?;
    list.push(alloc, column(alloc, columns[2], Kind::Date)?)?;
    Ok(TableDecl {
        name: Text::from_str(alloc, name)?,
        file: Text::from_str(alloc, name)?,
        columns: list,
    })
}

// The table of a file.
pub(crate) fn loaded(alloc: Global, decl: &TableDecl, file: &str) -> Result<Table, NoMemory>
    ensures { IfOk result (AreLoaded decl.now) }
{
    if file.len() > 100_000 || decl.columns.as_slice().len() > 3 {
        return Err(NoMemory);
    }
    match load(alloc, file.as_bytes(), decl, 1000) {
        Ok(table) => Ok(table),
        Err(_) => Err(NoMemory),
    }
}

// The source query of a text.
fn read(alloc: Global, text: &str) -> Result<SourceQuery, NoMemory> {
    if text.len() > 1000 {
        return Err(NoMemory);
    }
    match sql_tokens(alloc, text) {
        Ok(tokens) => {
            if tokens.as_slice().len() > 1000 {
                return Err(NoMemory);
            }
            match read_source_query(alloc, text, tokens.as_slice()) {
                Ok(query) => Ok(query),
                Err(_) => Err(NoMemory),
            }
        }
        Err(_) => Err(NoMemory),
    }
}

// A choice as text.
fn shown(alloc: Global, choice: &[u32]) -> Result<String, AllocError> {
    let mut text = String::new(alloc);
    for number in choice {
        write!(text, "{number};")?;
    }
    Ok(text)
}

const PEOPLE: &str =
    "name,age,born\nAda,36,1815-12-10\nAlan,41,1912-06-23\nGrace,,1906-12-09\n,41,1912-06-23\nAda,7,\n";

const POSTS: &str =
    "who,year,since\nAda,36,1815-12-10\nGrace,41,\nAlan,7,1912-06-23\nBob,41,1912-06-24\nAda,,1815-12-10\n";

// The choices of a query over both tables, in ascending order of their texts.
//
// It is in steps, each of which leaves few values where it ends early: what is dropped at an end is proved at each.
fn found(alloc: Global, text: &str, only: Option<&[RowId]>) -> Result<String, NoMemory> {
    let people = declared(alloc, "people", &["name", "age", "born"])?;
    let posts = declared(alloc, "posts", &["who", "year", "since"])?;
    let tables = both(alloc, &people, &posts)?;
    found_in(alloc, text, &[people, posts], &tables, only)
}

// The tables of both files.
fn both(alloc: Global, people: &TableDecl, posts: &TableDecl) -> Result<Tables, NoMemory>
    ensures fits { IfOk result (λ tables. Fits (people.now ∷ posts.now ∷ []) tables.list) }
    ensures few { OnOk result (AreFew (people.now ∷ posts.now ∷ [])) }
{
    let mut list = List::new(alloc);
    list.push(alloc, loaded(alloc, people, PEOPLE)?)?;
    list.push(alloc, loaded(alloc, posts, POSTS)?)?;
    Ok(Tables { list })
}

fn found_in(
    alloc: Global,
    text: &str,
    decls: &[TableDecl],
    tables: &Tables,
    only: Option<&[RowId]>,
) -> Result<String, NoMemory>
    requires fits { Fits decls.now tables.now.list }
    requires few { AreFew decls.now }
{
    let query = read(alloc, text)?;
    let found = choices(alloc, &query, decls, tables, only)?;
    listed(alloc, &found)
}

fn listed(alloc: Global, found: &Choices) -> Result<String, NoMemory> {
    let mut lines = lines(alloc, found)?;
    lines.sort_unstable();
    joined(alloc, &lines)
}

fn lines(alloc: Global, found: &Choices) -> Result<Vec<String>, NoMemory> {
    let mut lines = Vec::new(alloc);
    for number in 0..found.len() {
        lines.push(shown(alloc, found.choice(number))?)?;
    }
    Ok(lines)
}

fn joined(alloc: Global, lines: &[String]) -> Result<String, NoMemory> {
    let mut all = String::new(alloc);
    for line in lines {
        all.push_str(line.as_str())?;
        all.push(' ')?;
    }
    Ok(all)
}

static QUERIES: [(&str, &str); 14] = [
    ("SELECT p.name FROM people p", "1; 2; 3; 4; 5; "),
    ("SELECT p.name FROM people p WHERE p.age <> 41", "1; 5; "),
    (
        "SELECT p.name FROM people p WHERE p.name = 'Ada' AND p.age > 7",
        "1; ",
    ),
    (
        "SELECT p.name FROM people p WHERE p.born >= DATE '1906-12-09'",
        "2; 3; 4; ",
    ),
    (
        "SELECT p.name FROM people p WHERE p.name < 'Alan'",
        "1; 5; ",
    ),
    ("SELECT p.name FROM people p WHERE 1 = 2", ""),
    (
        "SELECT p.name FROM people p WHERE p.age = p.age",
        "1; 2; 4; 5; ",
    ),
    (
        "SELECT p.name FROM people p, posts q WHERE p.name = q.who",
        "1;1; 1;5; 2;3; 3;2; 5;1; 5;5; ",
    ),
    (
        "SELECT p.name FROM people p, posts q WHERE p.name = q.who AND q.year = p.age",
        "1;1; ",
    ),
    (
        "SELECT p.name FROM people p, posts q WHERE p.born = q.since AND p.age <= q.year",
        "1;1; ",
    ),
    (
        "SELECT p.name FROM people p, posts q WHERE p.age < q.year AND q.since <> DATE '1912-06-24'",
        "5;1; ",
    ),
    (
        "SELECT p.name FROM people p, people r WHERE p.age = r.age",
        "1;1; 2;2; 2;4; 4;2; 4;4; 5;5; ",
    ),
    (
        "SELECT p.name FROM people p, posts q, people r WHERE p.name = q.who AND r.age = q.year",
        "1;1;1; 2;3;5; 3;2;2; 3;2;4; 5;1;1; ",
    ),
    (
        "SELECT p.name FROM people p, people r, posts q WHERE q.year = r.age AND q.who = p.name AND r.born <> p.born",
        "3;2;2; 3;4;2; ",
    ),
];

#[test]
fn choices_are_those_of_the_query(rt: HostRuntime) -> Result<(), Fail> {
    for (text, want) in &QUERIES {
        assert_eq!(rt; found(rt.alloc(), text, None)?.as_str(), *want, "{text}");
    }
    Ok(())
}

#[test]
fn rows_that_are_not_given_are_not_chosen(rt: HostRuntime) -> Result<(), Fail> {
    let text = "SELECT p.name FROM people p, posts q WHERE p.name = q.who";
    let rows = [(1, 5), (0, 5), (1, 1), (0, 5), (1, 9), (7, 1), (0, 2)];
    let only = rows.map(|(table, number)| RowId { table, number });
    assert_eq!(rt;
        found(rt.alloc(), text, Some(&only))?.as_str(),
        "5;1; 5;5; "
    );
    assert_eq!(rt; found(rt.alloc(), text, Some(&only[..1]))?.as_str(), "");
    Ok(())
}
