//! What is known of a map's head beside its name: which atoms it may become.
ghost use Rattle.std.specs.Prelude.{◌≡◌, ◌<◌, length, IfOk};
ghost use Rattle.mast_terms.specs.Orders.{TestsEquality};
ghost use Rattle.mast_cq.specs.UnifierMeanings.{IsBelow, KnownArg, KnownAtom};
ghost use Rattle.mast_unfold.specs.inside.Equations.{seen};
ghost use Rattle.mast_unfold.specs.inside.Forms as spec;
ghost use Rattle.mast_unfold.specs.inside.Forms.{IsForm, head_name, atom_name};

use crate::columns::{Place, Tables};
use crate::equations::{Side, kind_of};
use crate::outputs::Outputs;
use crate::templates::{can_be_one, side_of};
use mast_cq::{Arg, Atom};
use mast_mapping::{Head, SplitMap};
use mast_terms::{Name, NameKind, NoMemory, Value, Vocabulary, names_are_ordered};
use std::alloc::Global;

/// The name of a head or an atom, with its kind.
#[derive(Clone, Copy, PartialEq, Eq, Hash)]
pub(crate) struct KindedName {
    kind: NameKind,
    name: Name,
}

// `==` of names with their kinds holds exactly of equal ones.
pub(crate) fn kinded_name_laws()
    ensures { TestsEquality ⟦<KindedName as PartialEq>⟧.eq }
{
    names_are_ordered();
}

/// A head, but for its name: that of a class; that of a role, and whether its two objects can be one; that of an attribute, and
/// what its value is.
#[derive(Clone, Copy)]
pub(crate) enum Form<'a> {
    Class,
    Role { alike: bool },
    Attr { value: Side<'a> },
}

/// A map by its number, and the form of its head.
#[derive(Clone, Copy)]
pub(crate) struct Entry<'a> {
    pub(crate) map: u32,
    pub(crate) form: Form<'a>,
}

// The name of a head.
pub(crate) fn name_of_head(head: &Head) -> KindedName
    ensures { result ≡ head_name head.now }
{
    match head {
        Head::Class { name, .. } => KindedName {
            kind: NameKind::Class,
            name: *name,
        },
        Head::Role { name, .. } => KindedName {
            kind: NameKind::Role,
            name: *name,
        },
        Head::Attr { name, .. } => KindedName {
            kind: NameKind::Attr,
            name: *name,
        },
    }
}

// The name of an atom.
pub(crate) fn name_of_atom(atom: Atom) -> KindedName
    ensures { result ≡ atom_name atom }
{
    match atom {
        Atom::Class { name, .. } => KindedName {
            kind: NameKind::Class,
            name,
        },
        Atom::Role { name, .. } => KindedName {
            kind: NameKind::Role,
            name,
        },
        Atom::Attr { name, .. } => KindedName {
            kind: NameKind::Attr,
            name,
        },
    }
}

// The form of a map's head.
pub(crate) fn form_of<'a>(
    alloc: Global,
    tables: &Tables<'_>,
    map: &'a SplitMap,
) -> Result<Form<'a>, NoMemory>
    ensures { IfOk result (IsForm tables.now map.now) }
{
    match &map.head {
        Head::Class { .. } => Ok(Form::Class),
        Head::Role { from, to, .. } => {
            let alike = can_be_one(alloc, tables, &map.query, from, to)?;
            Ok(Form::Role { alike })
        }
        Head::Attr { value, .. } => {
            let outputs = Outputs::new(alloc, tables, &map.query)?;
            let value = side_of(&outputs, value);
            Ok(Form::Attr { value })
        }
    }
}

// Whether an argument may stand for an object. A constant stands for a value.
fn is_object(arg: Arg) -> bool
    ensures { result ≡ spec.is_object arg }
{
    match arg {
        Arg::Blank => true,
        Arg::Var(_) => true,
        Arg::Constant(_) => false,
    }
}

// Whether both arguments are one variable.
fn is_one_variable(left: Arg, right: Arg) -> bool
    ensures { result ≡ spec.is_one_variable left right }
{
    match left {
        Arg::Var(variable) => match right {
            Arg::Var(other) => variable == other,
            _ => false,
        },
        _ => false,
    }
}

// Whether a value can be that of a side.
fn can_be_value(value: &Value, side: Side<'_>) -> bool
    ensures { result ≡ spec.can_be_value value.now (seen side.entry) }
{
    match side {
        Side::Column(Place { kind, .. }) => kind_of(value) == kind,
        Side::Constant(other) => *value == *other,
        Side::Nothing => false,
    }
}

// Whether the arguments of an attribute may stand for an object and this value.
fn value_fits(vocab: &Vocabulary, from: Arg, arg: Arg, value: Side<'_>) -> bool
    requires { KnownArg (IsBelow (length vocab.now.constants)) arg }
    ensures { result ≡ spec.value_fits vocab.now.constants from arg (seen value.entry) }
{
    match arg {
        Arg::Blank => true,
        Arg::Var(_) => !is_one_variable(from, arg),
        Arg::Constant(number) => can_be_value(vocab.value(number), value),
    }
}

// Whether a head of this form becomes the atom, which has its name.
pub(crate) fn fits(vocab: &Vocabulary, atom: Atom, form: Form<'_>) -> bool
    requires { KnownAtom (IsBelow (length vocab.now.constants)) atom }
    ensures { result ≡ spec.fits vocab.now.constants atom form.entry }
{
    match atom {
        Atom::Class { arg, .. } => is_object(arg),
        Atom::Role { from, to, .. } => match form {
            Form::Role { alike } => {
                is_object(from) && is_object(to) && (alike || !is_one_variable(from, to))
            }
            _ => false,
        },
        Atom::Attr { from, value, .. } => match form {
            Form::Attr { value: side } => {
                is_object(from) && value_fits(vocab, from, value, side)
            }
            _ => false,
        },
    }
}
