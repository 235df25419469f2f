//! Worked closures: that the call succeeds, and that the definitions give the members of worked queries.
ghost use Rattle.std.specs.Prelude.{◌≡◌, ◌≤◌, ◌<◌, length, map, IfOk};
ghost use Rattle.mast_tbox.specs.Numbers.{IsNumbered};
ghost use Rattle.mast_rewrite_tests.specs.Lines.{on_one_line};

use bumpalo::Bump;
use mast_cq::{Arg, Atom, CqRef};
use mast_rewrite::perfect_ref;
use mast_tbox::{Basic, Inclusion, Lined, RoleExpr, TBox, normal};
use mast_terms::{List, Name, NoMemory, Stop};
use std::alloc::Global;
use std::process::Abort;
use std::test::Fail;

const X: Arg = Arg::Var(0);

const Y: Arg = Arg::Var(1);

const Z: Arg = Arg::Var(2);

const W: Arg = Arg::Var(3);

const NONE: Arg = Arg::Blank;

const ONE: Arg = Arg::Constant(0);

const TWO: Arg = Arg::Constant(1);

const A: Name = Name(0);

const B: Name = Name(1);

const P: RoleExpr = RoleExpr::Direct(Name(0));

fn class(name: u32, arg: Arg) -> Atom {
    Atom::Class {
        name: Name(name),
        arg,
    }
}

fn role(name: u32, from: Arg, to: Arg) -> Atom {
    Atom::Role {
        name: Name(name),
        from,
        to,
    }
}

fn attr(name: u32, from: Arg, value: Arg) -> Atom {
    Atom::Attr {
        name: Name(name),
        from,
        value,
    }
}

fn lines(alloc: Global, inclusions: &[Inclusion]) -> Result<Vec<Lined<Inclusion>>, NoMemory>
    ensures { IfOk result (λ v. v.items ≡ on_one_line inclusions.now) }
{
    let lines = inclusions
        .iter()
        .map(|item| Lined {
            line: 1,
            item: *item,
        })
        .collect(alloc)?;
    Ok(lines)
}

fn tbox_of(alloc: Global, inclusions: &[Inclusion]) -> Result<TBox, NoMemory>
    requires numbered { IsNumbered (on_one_line inclusions.now) }
    requires few { length inclusions.now ≤ 1000 }
{
    Ok(TBox {
        inclusions: List::from_vec(lines(alloc, inclusions)?),
        negatives: List::new(alloc),
        functional: List::new(alloc),
    })
}

fn is_query(rt: &impl Abort, query: CqRef, want: CqRef) {
    assert_eq!(rt; query.answer, want.answer);
    assert_eq!(rt; query.atoms, want.atoms);
}

// Asks that the closure of a query has these members, in this order.
fn has_members(
    rt: &impl Abort,
    alloc: Global,
    tbox: &TBox,
    query: CqRef,
    members: &[CqRef],
) -> Result<(), Fail> {
    let normal = normal(alloc, tbox)?;
    let arena = Bump::new(alloc);
    let rewriting = perfect_ref(alloc, &arena, &normal, query)?;
    assert_eq!(rt; rewriting.queries().len(), members.len());
    for at in 0..members.len() {
        match rewriting.queries().get(at) {
            Some(query) => is_query(rt, *query, members[at]),
            None => assert!(rt; false),
        }
    }
    Ok(())
}

// Asks that the closure of a query has so many members.
fn has_count(
    rt: &impl Abort,
    alloc: Global,
    tbox: &TBox,
    query: CqRef,
    count: usize,
) -> Result<(), Fail> {
    let normal = normal(alloc, tbox)?;
    let arena = Bump::new(alloc);
    let rewriting = perfect_ref(alloc, &arena, &normal, query)?;
    assert_eq!(rt; rewriting.queries().len(), count);
    Ok(())
}

// Each student attends something, and what is attended is a course.
#[test]
fn what_meets_is_one_atom(rt: HostRuntime) -> Result<(), Fail> {
    let alloc = rt.alloc();
    let attending = [
        Inclusion::Exists {
            sub: Basic::Class(A),
            role: P,
            end: None,
            k: 0,
        },
        Inclusion::Class {
            sub: Basic::Some(RoleExpr::Inverse(Name(0))),
            sup: B,
        },
    ];
    let tbox = tbox_of(alloc, &attending)?;
    let attends = CqRef {
        answer: &[X],
        atoms: &[role(0, X, NONE)],
    };
    let shared = CqRef {
        answer: &[X],
        atoms: &[role(0, NONE, Y), role(0, X, Y)],
    };
    let sharing = CqRef {
        answer: &[X],
        atoms: &[role(0, X, Y), role(0, Z, Y)],
    };
    has_members(&rt, alloc, &tbox, sharing, &[shared, attends])?;
    let unnamed = CqRef {
        answer: &[X],
        atoms: &[class(1, Y), role(0, X, Y)],
    };
    has_members(&rt, alloc, &tbox, unnamed, &[unnamed, attends])?;
    let named = CqRef {
        answer: &[X, Y],
        atoms: &[class(1, Y), role(0, X, Y)],
    };
    let alone = CqRef {
        answer: &[X, Y],
        atoms: &[role(0, X, Y)],
    };
    has_members(&rt, alloc, &tbox, named, &[named, alone])
}

#[test]
fn the_earlier_of_two_equal_classes_counts(rt: HostRuntime) -> Result<(), Fail> {
    let alloc = rt.alloc();
    let equal = [
        Inclusion::Class {
            sub: Basic::Class(A),
            sup: B,
        },
        Inclusion::Class {
            sub: Basic::Class(B),
            sup: A,
        },
    ];
    let tbox = tbox_of(alloc, &equal)?;
    let query = CqRef {
        answer: &[X, Y],
        atoms: &[class(1, X), class(1, Y)],
    };
    let met = CqRef {
        answer: &[X, X],
        atoms: &[class(0, X)],
    };
    has_members(&rt, alloc, &tbox, query, &[query, met])
}

#[test]
fn what_is_below_one_atom_makes_no_member(rt: HostRuntime) -> Result<(), Fail> {
    let alloc = rt.alloc();
    let below = [
        Inclusion::Class {
            sub: Basic::Class(B),
            sup: A,
        },
        Inclusion::Class {
            sub: Basic::Some(P),
            sup: B,
        },
        Inclusion::Role {
            sub: RoleExpr::Inverse(Name(1)),
            sup: P,
        },
    ];
    let tbox = tbox_of(alloc, &below)?;
    let query = CqRef {
        answer: &[X],
        atoms: &[class(0, X)],
    };
    has_members(&rt, alloc, &tbox, query, &[query])
}

// The pair of two sub-properties, and two values that no atom can have both.
#[test]
fn different_constants_stay_apart(rt: HostRuntime) -> Result<(), Fail> {
    let alloc = rt.alloc();
    let below = [Inclusion::Attr {
        sub: Name(1),
        sup: Name(0),
    }];
    let tbox = tbox_of(alloc, &below)?;
    let three = CqRef {
        answer: &[X, Y, Z],
        atoms: &[attr(0, X, ONE), attr(0, Y, TWO), attr(0, Z, W)],
    };
    has_count(&rt, alloc, &tbox, three, 3)?;
    let four = CqRef {
        answer: &[X, Y, Z, W],
        atoms: &[
            attr(0, X, ONE),
            attr(0, Y, TWO),
            attr(0, Z, Arg::Var(4)),
            attr(0, W, Arg::Var(5)),
        ],
    };
    has_count(&rt, alloc, &tbox, four, 10)
}

// Classes below two classes, each below one of them.
fn hierarchies(alloc: Global, first: u32, end: u32) -> Result<Vec<Inclusion>, NoMemory>
    requires { end ≤ 1000 }
    ensures numbered { IfOk result (λ v. IsNumbered (on_one_line v.items)) }
    ensures few { IfOk result (λ v. length v.items ≤ 1000) }
{
    let mut below = Vec::new(alloc);
    for name in 2..end {
        let sup = if name < first { A } else { B };
        below.push(Inclusion::Class {
            sub: Basic::Class(Name(name)),
            sup,
        })?;
    }
    Ok(below)
}

// What is below the two classes are 500 and 400 classes, and 489 and 409.
#[test]
fn two_wide_hierarchies(rt: HostRuntime) -> Result<(), Fail> {
    let alloc = rt.alloc();
    let query = CqRef {
        answer: &[X],
        atoms: &[class(0, X), class(1, X)],
    };
    let wide = tbox_of(alloc, &hierarchies(alloc, 501, 900)?)?;
    has_members(&rt, alloc, &wide, query, &[query])?;
    let wider = tbox_of(alloc, &hierarchies(alloc, 490, 898)?)?;
    has_members(&rt, alloc, &wider, query, &[query])
}

// Three attributes below each of six.
fn attributes(alloc: Global) -> Result<Vec<Inclusion>, NoMemory>
    ensures numbered { IfOk result (λ v. IsNumbered (on_one_line v.items)) }
    ensures few { IfOk result (λ v. length v.items ≤ 1000) }
{
    let mut below = Vec::new(alloc);
    for name in 6..24 {
        below.push(Inclusion::Attr {
            sub: Name(name),
            sup: Name((name - 6) / 3),
        })?;
    }
    Ok(below)
}

// Adds an atom with an attribute, whose subject is an answer.
fn add(
    answer: &mut Vec<Arg>,
    atoms: &mut Vec<Atom>,
    name: u32,
    subject: u32,
    value: Arg,
) -> Result<(), NoMemory> {
    answer.push(Arg::Var(subject))?;
    atoms.push(attr(name, Arg::Var(subject), value))?;
    Ok(())
}

// Adds a group of four atoms with one attribute, where two have different constants as values: it has ten forms.
fn add_group(answer: &mut Vec<Arg>, atoms: &mut Vec<Atom>, name: u32) -> Result<(), NoMemory>
    requires { name < 6 }
{
    let first = 6 * name;
    add(answer, atoms, name, first, ONE)?;
    add(answer, atoms, name, first + 1, TWO)?;
    add(answer, atoms, name, first + 2, Arg::Var(first + 4))?;
    add(answer, atoms, name, first + 3, Arg::Var(first + 5))
}

// Five groups, and these subjects and values of one more attribute. The closure is as large as it may be, or larger.
fn folded(
    rt: &impl Abort,
    alloc: Global,
    values: &[(u32, Arg)],
    is_small: bool,
) -> Result<(), Fail> {
    let tbox = tbox_of(alloc, &attributes(alloc)?)?;
    let mut answer = Vec::new(alloc);
    let mut atoms = Vec::new(alloc);
    for name in 0..5 {
        add_group(&mut answer, &mut atoms, name)?;
    }
    for (subject, value) in values {
        add(&mut answer, &mut atoms, 5, *subject, *value)?;
    }
    let query = CqRef {
        answer: &answer,
        atoms: &atoms,
    };
    if is_small {
        has_count(rt, alloc, &tbox, query, 200_000)
    } else {
        is_refused(rt, alloc, &tbox, query)
    }
}

// Asks that the closure of a query has too many members.
fn is_refused(rt: &impl Abort, alloc: Global, tbox: &TBox, query: CqRef) -> Result<(), Fail> {
    let normal = normal(alloc, tbox)?;
    let arena = Bump::new(alloc);
    match perfect_ref(alloc, &arena, &normal, query) {
        Err(Stop::Named(refusal)) => assert_eq!(rt; refusal.count, 200_001),
        _ => assert!(rt; false),
    }
    Ok(())
}

#[test]
fn folded_groups(rt: HostRuntime) -> Result<(), Fail> {
    let alloc = rt.alloc();
    folded(&rt, alloc, &[(30, Arg::Var(33)), (31, Arg::Var(34))], true)?;
    folded(
        &rt,
        alloc,
        &[(30, ONE), (31, TWO), (32, Arg::Var(33))],
        false,
    )
}

// What is in a class has a filler in it by each of 24 roles.
fn fillers(alloc: Global) -> Result<Vec<Inclusion>, NoMemory>
    ensures numbered { IfOk result (λ v. IsNumbered (on_one_line v.items)) }
    ensures few { IfOk result (λ v. length v.items ≤ 1000) }
{
    let mut fillers = Vec::new(alloc);
    for k in 0..24 {
        fillers.push(Inclusion::Exists {
            sub: Basic::Class(A),
            role: RoleExpr::Direct(Name(k)),
            end: Some(A),
            k,
        })?;
    }
    Ok(fillers)
}

// A chain of eight of these roles.
#[test]
fn eight_steps(rt: HostRuntime) -> Result<(), Fail> {
    let alloc = rt.alloc();
    let tbox = tbox_of(alloc, &fillers(alloc)?)?;
    let mut chain = Vec::new(alloc);
    for k in 0..8 {
        chain.push(role(k, Arg::Var(k), Arg::Var(k + 1)))?;
    }
    let query = CqRef {
        answer: &[X],
        atoms: &chain,
    };
    has_count(&rt, alloc, &tbox, query, 29)
}
