//! Tests of extensions: what queries have over small tables, and the rows that give it.
ghost use Rattle.std.specs.Prelude.{◌≡◌, ℕ, length, IfOk};
ghost use Rattle.std.specs.Prelude.{List as Items};
ghost use Rattle.mast_cq.specs.Queries.{viewed};
ghost use Rattle.mast_canon.specs.Fitting.{Fits};
ghost use Rattle.mast_relations.specs.Matches.{In};
ghost use Rattle.mast_join.specs.Answers.{IsAsked, IsNumberRow, IsReady};

use crate::tests::loaded;
use mast_canon::{RowId, Spec, Tables};
use mast_canon_tests::{document, specification_of};
use mast_cq::{Arg, Atom, CqRef};
use mast_join::{Extensions, Hit, Ready, Wanted, hit_of, unfolder_of};
use mast_relations::{RowSet, Test};
use mast_tables::TableDecl;
use mast_terms::{List, Name, NoMemory, write_term};
use std::alloc::Global;
use std::test::Fail;

const X: Arg = Arg::Var(0);

const Y: Arg = Arg::Var(1);

const Z: Arg = Arg::Var(2);

// A query over names by their numbers.
#[derive(Clone, Copy)]
enum Asked {
    // x, where x is in the class
    Members(u32),
    // x and y, where they are a pair of the role
    Pairs(u32),
    // x and z, where x and some y are a pair of the role, and y and z
    Chain(u32),
    // x, where x has some value by both attributes
    Shared(u32, u32),
    // x, where x and x are a pair of the role
    Loops(u32),
    // x, where x and some object of its own are a pair of the role
    Subjects(u32),
    // x, where x is in both classes
    Common(u32, u32),
    // x, where x is in the class, and a pair of the role with some y in the class
    Steps(u32, u32),
}

// A test that every row passes.
struct Any;

impl Test for Any {
    ghost use Rattle.std.specs.Prelude.{true};

    ghost passes = { λ any row. true };

    fn passes(&self, row: &[u32]) -> bool {
        let _ = row;
        true
    }
}

// The tables of files.
fn tables_of(alloc: Global, decls: &[TableDecl], files: &[&str]) -> Result<Tables, NoMemory>
    ensures { IfOk result (λ tables. Fits decls.now tables.list) }
{
    if files.len() != decls.len() {
        return Err(NoMemory);
    }
    let mut list = List::new(alloc);
    for place in 0..decls.len() {
        list.push(alloc, loaded(alloc, &decls[place], files[place])?)?;
    }
    Ok(Tables { list })
}

// The specification of axioms and mappings.
fn specification(alloc: Global, axioms: &str, mappings: &str) -> Result<Spec, NoMemory> {
    let axioms = document(alloc, "Ontology", axioms)?;
    let constraints = document(alloc, "Constraints", "")?;
    let mappings = document(alloc, "Mappings", mappings)?;
    match specification_of(
        alloc,
        axioms.as_str(),
        constraints.as_str(),
        mappings.as_str(),
    ) {
        Ok(spec) => Ok(spec),
        Err(_) => Err(NoMemory),
    }
}

// The rows of numbers that stand for what a query has, asked slice by slice.
fn rows_of(
    alloc: Global,
    extensions: &Extensions<'_, '_, '_, '_>,
    ready: &Ready<'_>,
) -> Result<RowSet, NoMemory>
    requires { IsReady extensions.now ready.now }
    ensures { IfOk result (λ rows. (row : Items ℕ) → In row rows.list → IsNumberRow extensions.now row (length ready.now.query.answer.now)) }
{
    let size = ready.plan.size;
    let mut rows = RowSet::new(alloc, ready.plan.query.answer.as_slice().len());
    extensions.answers(alloc, ready, 0, size / 2, &mut rows)?;
    extensions.answers(alloc, ready, size / 2, size, &mut rows)?;
    Ok(rows)
}

// A hit as text.
fn shown(alloc: Global, hit: &Hit) -> Result<String, NoMemory> {
    let mut bytes = Vec::new(alloc);
    for term in hit.terms.as_slice() {
        write_term(alloc, term, &mut bytes)?;
        bytes.push(b' ')?;
    }
    let Ok(mut text) = String::from_utf8(bytes) else {
        return Err(NoMemory);
    };
    for row in hit.rows.as_slice() {
        write!(text, "{}:{} ", row.table, row.number)?;
    }
    Ok(text)
}

// The hits of rows of numbers as texts, in ascending order.
fn lines(
    alloc: Global,
    extensions: &Extensions<'_, '_, '_, '_>,
    width: usize,
    rows: &RowSet,
) -> Result<String, NoMemory>
    requires { (row : Items ℕ) → In row rows.now.list → IsNumberRow extensions.now row width }
{
    let mut lines = Vec::new(alloc);
    for number in 0..rows.len() {
        let hit = hit_of(alloc, extensions, width, rows.row(number))?;
        lines.push(shown(alloc, &hit)?)?;
    }
    lines.sort_unstable();
    let mut all = String::new(alloc);
    for line in &lines {
        all.push_str(line.as_str())?;
        all.push_str("; ")?;
    }
    Ok(all)
}

// What a query has. Where it has something, there is a first hit, and else none.
fn told_of(
    alloc: Global,
    extensions: &mut Extensions<'_, '_, '_, '_>,
    query: CqRef<'_>,
) -> Result<String, NoMemory>
    requires { IsAsked (length extensions.old.over.sources.vocab.constants) (viewed query) }
{
    let ready = extensions.ready(alloc, query)?;
    let rows = rows_of(alloc, extensions, &ready)?;
    let first = extensions.first(alloc, &ready, 0, ready.plan.size, &Any)?;
    if first.is_some() != (rows.len() > 0) {
        return Ok(String::from_str(alloc, "the first hit is wrong")?);
    }
    lines(alloc, extensions, query.answer.len(), &rows)
}

// What a query over names has.
fn told(
    alloc: Global,
    extensions: &mut Extensions<'_, '_, '_, '_>,
    asked: Asked,
) -> Result<String, NoMemory> {
    match asked {
        Asked::Members(name) => {
            let name = Name(name);
            let atoms = [Atom::Class { name, arg: X }];
            told_of(
                alloc,
                extensions,
                CqRef {
                    answer: &[X],
                    atoms: &atoms,
                },
            )
        }
        Asked::Pairs(name) => {
            let name = Name(name);
            let atoms = [Atom::Role {
                name,
                from: X,
                to: Y,
            }];
            told_of(
                alloc,
                extensions,
                CqRef {
                    answer: &[X, Y],
                    atoms: &atoms,
                },
            )
        }
        Asked::Chain(name) => {
            let name = Name(name);
            let atoms = [
                Atom::Role {
                    name,
                    from: X,
                    to: Y,
                },
                Atom::Role {
                    name,
                    from: Y,
                    to: Z,
                },
            ];
            told_of(
                alloc,
                extensions,
                CqRef {
                    answer: &[X, Z],
                    atoms: &atoms,
                },
            )
        }
        Asked::Shared(one, other) => {
            let (one, other) = (Name(one), Name(other));
            let atoms = [
                Atom::Attr {
                    name: one,
                    from: X,
                    value: Y,
                },
                Atom::Attr {
                    name: other,
                    from: X,
                    value: Y,
                },
            ];
            told_of(
                alloc,
                extensions,
                CqRef {
                    answer: &[X],
                    atoms: &atoms,
                },
            )
        }
        Asked::Loops(name) => {
            let name = Name(name);
            let atoms = [Atom::Role {
                name,
                from: X,
                to: X,
            }];
            told_of(
                alloc,
                extensions,
                CqRef {
                    answer: &[X],
                    atoms: &atoms,
                },
            )
        }
        Asked::Subjects(name) => {
            let name = Name(name);
            let atoms = [Atom::Role {
                name,
                from: X,
                to: Arg::Blank,
            }];
            told_of(
                alloc,
                extensions,
                CqRef {
                    answer: &[X],
                    atoms: &atoms,
                },
            )
        }
        Asked::Common(one, other) => {
            let (one, other) = (Name(one), Name(other));
            let atoms = [
                Atom::Class { name: one, arg: X },
                Atom::Class {
                    name: other,
                    arg: X,
                },
            ];
            told_of(
                alloc,
                extensions,
                CqRef {
                    answer: &[X],
                    atoms: &atoms,
                },
            )
        }
        Asked::Steps(class, role) => {
            let (class, role) = (Name(class), Name(role));
            let atoms = [
                Atom::Class {
                    name: class,
                    arg: X,
                },
                Atom::Role {
                    name: role,
                    from: X,
                    to: Y,
                },
                Atom::Class {
                    name: class,
                    arg: Y,
                },
            ];
            told_of(
                alloc,
                extensions,
                CqRef {
                    answer: &[X],
                    atoms: &atoms,
                },
            )
        }
    }
}

// What a query has over a specification and the file of its table. The unfolder is made here.
fn found(
    alloc: Global,
    (axioms, mappings, file): (&str, &str, &str),
    only: Option<&[RowId]>,
    wanted: Wanted,
    asked: Asked,
) -> Result<String, NoMemory> {
    let spec = specification(alloc, axioms, mappings)?;
    let tables = tables_of(alloc, spec.tables.as_slice(), &[file])?;
    let unfolder = unfolder_of(alloc, &spec)?;
    let mut extensions = Extensions::new(alloc, &spec, &unfolder, &tables, only, wanted);
    told(alloc, &mut extensions, asked)
}

// The tuples and the hits that a query has over all rows.
fn both(alloc: Global, over: (&str, &str, &str), asked: Asked) -> Result<String, NoMemory> {
    let mut text = found(alloc, over, None, Wanted::Tuples, asked)?;
    text.push_str("| ")?;
    let hits = found(alloc, over, None, Wanted::AllHits, asked)?;
    text.push_str(hits.as_str())?;
    Ok(text)
}

const STEPS: &str = "Table(t \"t.csv\" Column(a integer) Column(b integer))
Map(\"SELECT a, b FROM t\" Role(:r Obj(o a) Obj(o b)))";

const KINDS: &str = "Table(t \"t.csv\" Column(id integer) Column(n integer) Column(s text))
Map(\"SELECT id, n, s FROM t\" Attr(:n Obj(p id) n) Attr(:s Obj(p id) s) Attr(:m Obj(p id) id))";

#[test]
fn each_subclass_gives_its_tuples(rt: HostRuntime) -> Result<(), Fail> {
    let axioms = "SubClassOf(:S1 :S) SubClassOf(:S2 :S) SubClassOf(:S3 :S)";
    let maps = "Table(t \"t.csv\" Column(id integer))
Map(\"SELECT id FROM t WHERE id = 1\" Class(:S1 Obj(p id)))
Map(\"SELECT id FROM t WHERE id = 2\" Class(:S2 Obj(p id)))
Map(\"SELECT id FROM t WHERE id > 2\" Class(:S3 Obj(p id)))";
    let over = (axioms, maps, "id\n1\n2\n3\n4\n");
    assert_eq!(rt;
        both(rt.alloc(), over, Asked::Members(1))?.as_str(),
        "p(1) ; p(2) ; p(3) ; p(4) ; | p(1) 0:1 ; p(2) 0:2 ; p(3) 0:3 ; p(4) 0:4 ; "
    );
    Ok(())
}

#[test]
fn two_maps_of_one_class_give_two_tuples(rt: HostRuntime) -> Result<(), Fail> {
    let maps = "Table(t \"t.csv\" Column(id integer) Column(k text))
Map(\"SELECT id FROM t WHERE k = 'a'\" Class(:A Obj(p id)))
Map(\"SELECT id FROM t WHERE k = 'b'\" Class(:A Obj(p id)))";
    let over = ("", maps, "id,k\n1,a\n2,b\n");
    assert_eq!(rt;
        both(rt.alloc(), over, Asked::Members(0))?.as_str(),
        "p(1) ; p(2) ; | p(1) 0:1 ; p(2) 0:2 ; "
    );
    Ok(())
}

#[test]
fn missing_cells_never_join(rt: HostRuntime) -> Result<(), Fail> {
    let maps = "Table(s \"s.csv\" Column(a integer Null) Column(n text))
Map(\"SELECT x.n AS n, y.n AS m FROM s AS x, s AS y WHERE x.a = y.a\" Role(:same Obj(o n) Obj(o m)))";
    let over = ("", maps, "a,n\n1,u\n,v\n,w\n");
    assert_eq!(rt;
        both(rt.alloc(), over, Asked::Pairs(0))?.as_str(),
        "o(\"u\") o(\"u\") ; | o(\"u\") o(\"u\") 0:1 ; "
    );
    Ok(())
}

#[test]
fn a_hit_has_the_rows_of_each_atom(rt: HostRuntime) -> Result<(), Fail> {
    let over = ("", STEPS, "a,b\n1,2\n2,3\n1,2\n");
    assert_eq!(rt;
        both(rt.alloc(), over, Asked::Chain(0))?.as_str(),
        "o(1) o(3) ; | o(1) o(3) 0:1 0:2 ; o(1) o(3) 0:2 0:3 ; "
    );
    Ok(())
}

#[test]
fn an_integer_and_a_text_are_two_terms(rt: HostRuntime) -> Result<(), Fail> {
    let over = ("", KINDS, "id,n,s\n1,7,7\n8,8,\n");
    assert_eq!(rt; both(rt.alloc(), over, Asked::Shared(0, 1))?.as_str(), "| ");
    assert_eq!(rt;
        both(rt.alloc(), over, Asked::Shared(0, 2))?.as_str(),
        "p(8) ; | p(8) 0:2 ; "
    );
    Ok(())
}

#[test]
fn rows_that_are_not_given_give_nothing(rt: HostRuntime) -> Result<(), Fail> {
    let over = ("", STEPS, "a,b\n1,2\n2,3\n1,2\n");
    let rows = [(0, 3), (0, 2), (0, 9), (1, 1)];
    let only = rows.map(|(table, number)| RowId { table, number });
    let asked = Asked::Chain(0);
    assert_eq!(rt;
        found(rt.alloc(), over, Some(&only), Wanted::SomeHits, asked)?.as_str(),
        "o(1) o(3) 0:2 0:3 ; "
    );
    assert_eq!(rt;
        found(rt.alloc(), over, Some(&only[..1]), Wanted::AllHits, asked)?.as_str(),
        ""
    );
    Ok(())
}

const STUDENTS: &str =
    "SubClassOf(:Student ObjectSomeValuesFrom(:attends owl:Thing)) ObjectPropertyRange(:attends :Course)";

const STUDENT: &str = "Table(s \"s.csv\" Column(id integer))
Map(\"SELECT id FROM s\" Class(:Student Obj(p id)))";

// Axioms, mappings, the file of the table, a query, and its tuples and hits.
static WORKED: [(&str, &str, &str, Asked, &str); 8] = [
    // who has a boss and who manages are employees, and no one is boss where the cell is missing
    (
        "SubClassOf(:Manager :Employee) ObjectPropertyDomain(:hasBoss :Employee)",
        "Table(t \"t.csv\" Column(id integer) Column(boss integer Null))
Map(\"SELECT id, boss FROM t\" Role(:hasBoss Obj(p id) Obj(p boss)))
Map(\"SELECT boss FROM t\" Class(:Manager Obj(p boss)))",
        "id,boss\n1,2\n3,\n",
        Asked::Members(1),
        "p(1) ; p(2) ; | p(1) 0:1 ; p(2) 0:1 ; ",
    ),
    // a course without a name is enough where none is asked for, and no answer where it is
    (
        STUDENTS,
        STUDENT,
        "id\n1\n",
        Asked::Subjects(0),
        "p(1) ; | p(1) 0:1 ; ",
    ),
    (STUDENTS, STUDENT, "id\n1\n", Asked::Pairs(0), "| "),
    // one variable twice
    (
        "",
        STEPS,
        "a,b\n1,2\n3,3\n",
        Asked::Loops(0),
        "o(3) ; | o(3) 0:2 ; ",
    ),
    // each row supports the first class, and one of them the second
    (
        "",
        "Table(t \"t.csv\" Column(a integer) Column(k text))
Map(\"SELECT a FROM t\" Class(:B Obj(o a)))
Map(\"SELECT a FROM t WHERE k = 'c'\" Class(:C Obj(o a)))",
        "a,k\n1,b\n1,c\n1,b\n",
        Asked::Common(0, 1),
        "o(1) ; | o(1) 0:1 0:2 ; o(1) 0:2 ; o(1) 0:2 0:3 ; ",
    ),
    // missing cells are no objects that meet
    (
        "",
        "Table(t \"t.csv\" Column(a integer Null) Column(b integer Null))
Map(\"SELECT a, b FROM t\" Role(:r Obj(o a) Obj(o b)))",
        "a,b\n1,\n,2\n",
        Asked::Chain(0),
        "| ",
    ),
    // nor are objects of two symbols
    (
        "",
        "Table(t \"t.csv\" Column(a integer) Column(b integer))
Map(\"SELECT a, b FROM t\" Role(:r Obj(o a) Obj(p b)))",
        "a,b\n1,2\n2,3\n",
        Asked::Chain(0),
        "| ",
    ),
    // a constant that a map gives is that of a cell
    (
        "",
        "Table(t \"t.csv\" Column(a integer) Column(b integer))
Map(\"SELECT a FROM t\" Role(:r Obj(o a) Obj(o Int(2))))",
        "a,b\n1,1\n2,2\n",
        Asked::Chain(0),
        "o(1) o(2) ; o(2) o(2) ; | o(1) o(2) 0:1 0:2 ; o(2) o(2) 0:2 ; ",
    ),
];

#[test]
fn worked_queries_have_their_tuples_and_hits(rt: HostRuntime) -> Result<(), Fail> {
    for (axioms, maps, file, asked, want) in &WORKED {
        assert_eq!(rt;
            both(rt.alloc(), (axioms, maps, file), *asked)?.as_str(),
            *want,
            "{maps}"
        );
    }
    Ok(())
}

// A class and a role with so many below each, and a map for each of these, over a table with a row for each.
fn wide(alloc: Global, count: u32) -> Result<(String, String, String), NoMemory> {
    let mut axioms = String::new(alloc);
    let mut maps = String::from_str(
        alloc,
        "Table(t \"t.csv\" Column(a integer) Column(b integer))\n",
    )?;
    let mut file = String::from_str(alloc, "a,b\n")?;
    for row in 0..count {
        write!(
            axioms,
            "SubClassOf(:S{row} :S) SubObjectPropertyOf(:r{row} :r)\n"
        )?;
        write!(
            maps,
            "Map(\"SELECT a FROM t WHERE a = {row}\" Class(:S{row} Obj(p a)))\n"
        )?;
        write!(
            maps,
            "Map(\"SELECT a, b FROM t WHERE a = {row}\" Role(:r{row} Obj(p a) Obj(p b)))\n"
        )?;
        let next = row + 1;
        write!(file, "{row},{next}\n")?;
    }
    Ok((axioms, maps, file))
}

#[test]
fn three_atoms_of_a_thousand_sources(rt: HostRuntime) -> Result<(), Fail> {
    let alloc = rt.alloc();
    let (axioms, maps, file) = wide(alloc, 1000)?;
    let over = (axioms.as_str(), maps.as_str(), file.as_str());
    let text = found(alloc, over, None, Wanted::Tuples, Asked::Steps(1, 1))?;
    assert!(rt; text.as_str().starts_with("p(0) ; p(1) ; p(10) ; p(100) ; "));
    // all but the last, of which the next is in no class: 999 with 10, 180 and 2,697 digits
    assert_eq!(rt; text.len(), 999 * 6 + 10 + 180 + 2697);
    Ok(())
}
