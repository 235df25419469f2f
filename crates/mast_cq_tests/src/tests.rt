//! Tests of mast_cq: worked queries, with what they become, and that calls succeed where memory is there.
use indexmap::IndexSet;
use mast_cq::{Arg, Atom, CqRef, SortClash, norm, sort_breach, unify};
use mast_terms::Name;
use std::alloc::Global;
use std::process::Abort;
use std::test::Fail;

const X: Arg = Arg::Var(0);

const Y: Arg = Arg::Var(1);

const Z: Arg = Arg::Var(2);

const FIVE: Arg = Arg::Constant(5);

const SIX: Arg = Arg::Constant(6);

const NONE: Arg = Arg::Blank;

fn class(name: u32, arg: Arg) -> Atom {
    Atom::Class {
        name: Name(name),
        arg,
    }
}

fn role(name: u32, from: Arg, to: Arg) -> Atom {
    Atom::Role {
        name: Name(name),
        from,
        to,
    }
}

fn attr(name: u32, from: Arg, value: Arg) -> Atom {
    Atom::Attr {
        name: Name(name),
        from,
        value,
    }
}

fn norms(
    rt: &impl Abort,
    alloc: Global,
    answer: &[Arg],
    atoms: &[Atom],
    want: &[Atom],
) -> Result<(), Fail> {
    let cq = norm(alloc, CqRef { answer, atoms })?;
    assert_eq!(rt; cq.answer.as_slice(), answer);
    assert_eq!(rt; cq.atoms.as_slice(), want);
    Ok(())
}

#[test]
fn normal_forms(rt: HostRuntime) -> Result<(), Fail> {
    let alloc = rt.alloc();
    // A variable that stands once becomes `_`, but not an answer, nor one that stands twice.
    norms(&rt, alloc, &[X], &[role(0, X, Y)], &[role(0, X, NONE)])?;
    norms(&rt, alloc, &[], &[role(0, X, X)], &[role(0, X, X)])?;
    // Two atoms become one, and then their common variable stands once.
    norms(
        &rt,
        alloc,
        &[],
        &[role(0, X, Y), role(0, X, Z)],
        &[role(0, NONE, NONE)],
    )?;
    // Kinds, then names, then arguments: `_`, variables, constants.
    norms(
        &rt,
        alloc,
        &[X, Y],
        &[
            attr(0, X, FIVE),
            role(1, NONE, Y),
            role(0, X, Y),
            class(1, X),
            attr(0, X, Y),
            attr(0, X, NONE),
            class(1, X),
            class(0, Y),
        ],
        &[
            class(0, Y),
            class(1, X),
            role(0, X, Y),
            role(1, NONE, Y),
            attr(0, X, NONE),
            attr(0, X, Y),
            attr(0, X, FIVE),
        ],
    )
}

fn unifies(
    rt: &impl Abort,
    alloc: Global,
    answer: &[Arg],
    atoms: &[Atom],
    want: Option<(&[Arg], &[Atom])>,
) -> Result<(), Fail> {
    assert!(rt; atoms.len() >= 2);
    let cq = unify(alloc, CqRef { answer, atoms }, 0, 1)?;
    match (cq, want) {
        (None, None) => {}
        (Some(cq), Some((answer, atoms))) => {
            assert_eq!(rt; cq.answer.as_slice(), answer);
            assert_eq!(rt; cq.atoms.as_slice(), atoms);
        }
        _ => assert!(rt; false, "one unifies, and the other does not"),
    }
    Ok(())
}

#[test]
fn unified_queries(rt: HostRuntime) -> Result<(), Fail> {
    let alloc = rt.alloc();
    // An answer wins over a lower variable, and the replacement reaches the other atoms.
    unifies(
        &rt,
        alloc,
        &[Y],
        &[role(0, X, NONE), role(0, Y, NONE), class(0, X)],
        Some((&[Y], &[role(0, Y, NONE), role(0, Y, NONE), class(0, Y)])),
    )?;
    // A constant wins over an answer.
    unifies(
        &rt,
        alloc,
        &[X, Y],
        &[attr(0, X, Y), attr(0, Z, FIVE)],
        Some((&[X, FIVE], &[attr(0, X, FIVE), attr(0, X, FIVE)])),
    )?;
    // A class of arguments over both places: the lowest number wins.
    unifies(
        &rt,
        alloc,
        &[],
        &[role(0, Z, Z), role(0, Y, X)],
        Some((&[], &[role(0, X, X), role(0, X, X)])),
    )?;
    // Different names, kinds and constants do not unify.
    unifies(&rt, alloc, &[X], &[class(0, X), class(1, X)], None)?;
    unifies(&rt, alloc, &[X], &[role(0, X, Y), attr(0, X, Y)], None)?;
    unifies(&rt, alloc, &[X], &[attr(0, X, FIVE), attr(0, X, SIX)], None)
}

#[test]
fn sort_breaches(rt: HostRuntime) {
    let answer = [X].as_slice();
    let fine = [class(0, X), attr(0, X, Y), attr(1, NONE, NONE)];
    assert_eq!(rt;
        sort_breach(CqRef {
            answer,
            atoms: &fine
        }),
        None
    );
    let both = [attr(0, X, Y), class(0, Y), role(0, FIVE, X)];
    assert_eq!(rt;
        sort_breach(CqRef {
            answer,
            atoms: &both
        }),
        Some(SortClash { arg: Y })
    );
    let constant = [attr(0, X, FIVE), class(0, FIVE)];
    assert_eq!(rt;
        sort_breach(CqRef {
            answer,
            atoms: &constant
        }),
        Some(SortClash { arg: FIVE })
    );
}

#[test]
fn equal_views_are_one_key(rt: HostRuntime) -> Result<(), Fail> {
    let first = [class(0, X), class(1, X)];
    let again = [class(0, X), class(1, X)];
    let other = [class(0, X), class(1, Y)];
    let mut set = IndexSet::new(rt.alloc());
    for atoms in [&first, &again, &other] {
        set.insert(CqRef { answer: &[], atoms })?;
    }
    assert_eq!(rt; set.len(), 2);
    Ok(())
}
