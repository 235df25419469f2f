//! Worked TBoxes, with what they give: that the calls succeed, and that the definitions give the answers of worked inputs.
ghost use Rattle.std.specs.Prelude.{◌≡◌, ◌+◌, ◌≤◌, length, IfOk};

use mast_cq::{Arg, Atom};
use mast_tbox::{
    Basic, Constraint, Inclusion, Lined, Prop, RestrictionBreach, RestrictionKind, RoleExpr, Step,
    TBox, normal, restriction_breach,
};
use mast_terms::{List, Name, NoMemory};
use mast_tree::DocName;
use std::alloc::Global;
use std::process::Abort;
use std::test::Fail;

const X: Arg = Arg::Var(0);

const Y: Arg = Arg::Var(1);

const NONE: Arg = Arg::Blank;

const P: RoleExpr = RoleExpr::Direct(Name(0));

const Q: RoleExpr = RoleExpr::Direct(Name(1));

const R: RoleExpr = RoleExpr::Direct(Name(2));

fn class(name: u32, arg: Arg) -> Atom {
    Atom::Class {
        name: Name(name),
        arg,
    }
}

fn role(name: u32, from: Arg, to: Arg) -> Atom {
    Atom::Role {
        name: Name(name),
        from,
        to,
    }
}

fn copied<T: Copy + Drop>(alloc: Global, items: &[T]) -> Result<List<T>, NoMemory>
    ensures { IfOk result (λ list. list ≡ items.now) }
{
    let copy = items.iter().copied().collect(alloc)?;
    Ok(List::from_vec(copy))
}

fn at<T>(line: u32, item: T) -> Lined<T> {
    Lined { line, item }
}

// The first role expression of each pair is below the second.
fn roles(
    alloc: Global,
    lines: &[Lined<[RoleExpr; 2]>],
    functional: &[Lined<Prop>],
) -> Result<TBox, NoMemory>
    requires { length lines.now + length functional.now ≤ 1000 }
{
    let mut inclusions = Vec::new(alloc);
    for line in lines {
        let [sub, sup] = line.item;
        inclusions.push(Lined {
            line: line.line,
            item: Inclusion::Role { sub, sup },
        })?;
    }
    Ok(TBox {
        inclusions: List::from_vec(inclusions),
        negatives: List::new(alloc),
        functional: copied(alloc, functional)?,
    })
}

// The range of a role is a class with a filler by it, and the inverse of another role is below it.
fn teaching(alloc: Global) -> Result<TBox, NoMemory> {
    let mut inclusions = Vec::new(alloc);
    inclusions.push(Lined {
        line: 1,
        item: Inclusion::Class {
            sub: Basic::Some(P),
            sup: Name(0),
        },
    })?;
    inclusions.push(Lined {
        line: 2,
        item: Inclusion::Exists {
            sub: Basic::Class(Name(1)),
            role: P,
            end: Some(Name(2)),
            k: 0,
        },
    })?;
    inclusions.push(Lined {
        line: 3,
        item: Inclusion::Role {
            sub: RoleExpr::Inverse(Name(1)),
            sup: P,
        },
    })?;
    Ok(TBox {
        inclusions: List::from_vec(inclusions),
        negatives: List::new(alloc),
        functional: List::new(alloc),
    })
}

// Workers share what is lent to it.
fn shared<T: Sync>(_: &T) {}

// The name of the role that stands for the one qualified inclusion.
const AUXILIARY: u32 = 65_536;

#[test]
fn what_is_below_an_atom(rt: HostRuntime) -> Result<(), Fail> {
    let alloc = rt.alloc();
    let normal = normal(alloc, &teaching(alloc)?)?;
    assert_eq!(&rt; normal.inclusions().len(), 5);
    shared(&normal);
    let all = [
        class(0, X),
        class(1, X),
        role(0, X, NONE),
        role(1, NONE, X),
        role(AUXILIARY, X, NONE),
    ];
    let bound = [role(0, X, Y), role(1, Y, X), role(AUXILIARY, X, Y)];
    let alone = [role(1, X, Y)];
    let rows = [
        (class(0, X), all.as_slice()),
        (role(0, X, Y), bound.as_slice()),
        (role(1, X, Y), alone.as_slice()),
    ];
    for (atom, members) in rows {
        assert_eq!(&rt; normal.down(alloc, atom)?.as_slice(), members);
    }
    assert_eq!(&rt;
        normal.below(Basic::Class(Name(2))),
        [Basic::Some(RoleExpr::Inverse(Name(AUXILIARY)))].as_slice()
    );
    let linked = [(class(2, X), class(1, X)), (role(1, X, Y), class(0, X))];
    for (first, second) in linked {
        assert!(&rt; normal.are_linked(first, second));
    }
    for atom in [class(3, X), role(2, X, Y)] {
        assert!(&rt; normal.are_linked(atom, atom));
        assert!(&rt; !normal.are_linked(atom, class(0, X)));
    }
    Ok(())
}

fn judged(
    rt: &impl Abort,
    alloc: Global,
    inclusions: &[Lined<[RoleExpr; 2]>],
    functional: &[Lined<Prop>],
    paths: &[&[Step]],
    want: Option<RestrictionBreach>,
) -> Result<(), Fail>
    requires { length inclusions.now + length functional.now ≤ 1000 }
{
    let tbox = roles(alloc, inclusions, functional)?;
    let mut list = List::new(alloc);
    for path in paths {
        list.push(alloc, copied(alloc, *path)?)?;
    }
    let mut constraints = Vec::new(alloc);
    if !paths.is_empty() {
        constraints.push(at(
            3,
            Constraint::Identify {
                concept: Basic::Class(Name(0)),
                paths: list,
            },
        ))?;
    }
    let breach = restriction_breach(alloc, &tbox, &constraints)?;
    assert_eq!(rt; breach, want);
    Ok(())
}

fn by_axiom(line: u32) -> Option<RestrictionBreach> {
    Some(RestrictionBreach {
        doc: DocName::Ontology,
        line,
        kind: RestrictionKind::FunctSpecialised,
    })
}

fn by_constraint(kind: RestrictionKind) -> Option<RestrictionBreach> {
    Some(RestrictionBreach {
        doc: DocName::Constraints,
        line: 3,
        kind,
    })
}

#[test]
fn functional_properties(rt: HostRuntime) -> Result<(), Fail> {
    let alloc = rt.alloc();
    let f = [at(1, Prop::Role(P))];
    let one = [at(5, [Q, P]), at(4, [R, P])];
    judged(&rt, alloc, &one, &f, &[], by_axiom(5))?;
    let same = [at(5, [Q, P]), at(6, [P, Q])];
    judged(&rt, alloc, &same, &f, &[], None)?;
    let turned = [
        at(4, [Q.inverse(), P]),
        at(4, [P, Q.inverse()]),
        at(5, [R, Q]),
    ];
    judged(&rt, alloc, &turned[..2], &f, &[], None)?;
    judged(&rt, alloc, &turned, &f, &[], by_axiom(5))?;
    Ok(())
}

#[test]
fn anchors(rt: HostRuntime) -> Result<(), Fail> {
    let alloc = rt.alloc();
    let f = [];
    let long = [Step::Role(P), Step::Attr(Name(0))];
    let tested = [Step::Role(P), Step::Test(Name(1))];
    let other = [Step::Attr(Name(0))];
    let one = [at(5, [Q, P.inverse()])];
    judged(
        &rt,
        alloc,
        &[],
        &f,
        &[&long],
        by_constraint(RestrictionKind::NotLocal),
    )?;
    judged(&rt, alloc, &[], &f, &[&long, &tested], None)?;
    judged(
        &rt,
        alloc,
        &one,
        &f,
        &[&long, &tested],
        by_constraint(RestrictionKind::AnchorSpecialised),
    )?;
    judged(&rt, alloc, &one, &f, &[&tested, &other], None)?;
    Ok(())
}
