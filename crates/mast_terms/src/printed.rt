//! The printed form of terms.
ghost use Rattle.std.specs.Prelude.{◌≡◌, ◌++◌, ◌∷◌, [], ◌<◌, OnOk, OnErr};
ghost use Rattle.std.specs.List.{flat_map};
ghost use Rattle.mast_terms.specs.Printed.{term_text, object_text, args_text, after_commas, value_text, IsInjective};
ghost use Rattle.mast_terms.specs.Printed.{int_text, two_digits, date_text, escaped, quoted};
ghost use Rattle.mast_terms.specs.inside.Growth.{Grows};

use crate::{Date, NoMemory, Object, Term, Value};
use itoa::Buffer;
use std::alloc::Global;

/// Appends the printed form of a term. For want of memory `out` is as it was.
pub fn write_term(alloc: Global, term: &Term, out: &mut Vec<u8>) -> Result<(), NoMemory>
    ensures ok { OnOk result (out.new.items ≡ out.old.items ++ term_text term.now) }
    ensures err { OnErr result (out.new.items ≡ out.old.items) }
{
    let _ = alloc;
    let start = out.len();
    match push_term(term, out) {
        Ok(()) => Ok(()),
        Err(NoMemory) => {
            out.truncate(start);
            Err(NoMemory)
        }
    }
}

/// Appends the printed form of a value. For want of memory `out` is as it was.
pub fn write_value(alloc: Global, value: &Value, out: &mut Vec<u8>) -> Result<(), NoMemory>
    ensures ok { OnOk result (out.new.items ≡ out.old.items ++ value_text value.now) }
    ensures err { OnErr result (out.new.items ≡ out.old.items) }
{
    let _ = alloc;
    let start = out.len();
    match push_value(value, out) {
        Ok(()) => Ok(()),
        Err(NoMemory) => {
            out.truncate(start);
            Err(NoMemory)
        }
    }
}

/// A law: different terms have different printed forms, whatever their symbols.
pub fn printing_is_injective()
    ensures { IsInjective term_text }
{}

#[tactic(auto, using(crate::proofs::GrowthLemmas::grows_same, crate::proofs::GrowthLemmas::grows_after))]
fn push_term(term: &Term, out: &mut Vec<u8>) -> Result<(), NoMemory>
    ensures ok { OnOk result (out.new.items ≡ out.old.items ++ term_text term.now) }
    ensures err { OnErr result (Grows out.old.items out.new.items) }
{
    match term {
        Term::Value(value) => push_value(value, out),
        Term::Object(object) => push_object(object, out),
    }
}

#[tactic(auto, using(crate::proofs::GrowthLemmas::grows_same, crate::proofs::GrowthLemmas::grows_after))]
fn push_object(object: &Object, out: &mut Vec<u8>) -> Result<(), NoMemory>
    ensures ok { OnOk result (out.new.items ≡ out.old.items ++ object_text object.now) }
    ensures err { OnErr result (Grows out.old.items out.new.items) }
{
    push_bytes(object.symbol.as_str().as_bytes(), out)?;
    push_bytes(b"(", out)?;
    push_args(object.args.as_slice(), out)?;
    push_bytes(b")", out)?;
    Ok(())
}

#[tactic(auto, using(crate::proofs::GrowthLemmas::grows_same, crate::proofs::GrowthLemmas::grows_after))]
fn push_args(args: &[Value], out: &mut Vec<u8>) -> Result<(), NoMemory>
    ensures ok { OnOk result (out.new.items ≡ out.old.items ++ args_text args.now) }
    ensures err { OnErr result (Grows out.old.items out.new.items) }
{
    if let [first, rest @ ..] = args {
        push_value(first, out)?;
        push_after_commas(rest, out)?;
    }
    Ok(())
}

#[tactic(auto, using(crate::proofs::GrowthLemmas::grows_then, crate::proofs::GrowthLemmas::grows_after))]
fn push_after_commas(args: &[Value], out: &mut Vec<u8>) -> Result<(), NoMemory>
    ensures ok { OnOk result (out.new.items ≡ out.old.items ++ after_commas args.now) }
    ensures err { OnErr result (Grows out.old.items out.new.items) }
{
    for value in args {
        push_bytes(b",", out)?;
        push_value(value, out)?;
    }
    Ok(())
}

#[tactic(auto, using(crate::proofs::GrowthLemmas::grows_same, crate::proofs::GrowthLemmas::grows_after))]
fn push_value(value: &Value, out: &mut Vec<u8>) -> Result<(), NoMemory>
    ensures ok { OnOk result (out.new.items ≡ out.old.items ++ value_text value.now) }
    ensures err { OnErr result (Grows out.old.items out.new.items) }
{
    match value {
        Value::Int(number) => push_int(*number, out),
        Value::Text(text) => push_quoted(text.as_str().as_bytes(), out),
        Value::Date(date) => push_date(*date, out),
    }
}

#[tactic(auto, using(crate::proofs::GrowthLemmas::grows_same, crate::proofs::GrowthLemmas::grows_after))]
fn push_int(number: i64, out: &mut Vec<u8>) -> Result<(), NoMemory>
    ensures ok { OnOk result (out.new.items ≡ out.old.items ++ int_text number) }
    ensures err { OnErr result (Grows out.old.items out.new.items) }
{
    let mut buffer = Buffer::new();
    push_bytes(buffer.format(number).as_bytes(), out)?;
    Ok(())
}

#[tactic(auto, using(crate::proofs::GrowthLemmas::grows_same, crate::proofs::GrowthLemmas::grows_after))]
fn push_two_digits(number: u8, out: &mut Vec<u8>) -> Result<(), NoMemory>
    requires { number < 100 }
    ensures ok { OnOk result (out.new.items ≡ out.old.items ++ two_digits number) }
    ensures err { OnErr result (Grows out.old.items out.new.items) }
{
    push_bytes(&[b'0' + number / 10, b'0' + number % 10], out)?;
    Ok(())
}

#[tactic(auto, using(crate::proofs::GrowthLemmas::grows_same, crate::proofs::GrowthLemmas::grows_after))]
fn push_date(date: Date, out: &mut Vec<u8>) -> Result<(), NoMemory>
    ensures ok { OnOk result (out.new.items ≡ out.old.items ++ date_text date) }
    ensures err { OnErr result (Grows out.old.items out.new.items) }
{
    push_two_digits((date.year / 100) as u8, out)?;
    push_two_digits((date.year % 100) as u8, out)?;
    push_bytes(b"-", out)?;
    push_two_digits(date.month, out)?;
    push_bytes(b"-", out)?;
    push_two_digits(date.day, out)?;
    Ok(())
}

#[tactic(auto, using(crate::proofs::GrowthLemmas::grows_same, crate::proofs::GrowthLemmas::grows_after))]
fn push_escaped(byte: u8, out: &mut Vec<u8>) -> Result<(), NoMemory>
    ensures ok { OnOk result (out.new.items ≡ out.old.items ++ escaped byte) }
    ensures err { OnErr result (Grows out.old.items out.new.items) }
{
    match byte {
        b'"' => push_bytes(b"\\\"", out)?,
        b'\\' => push_bytes(b"\\\\", out)?,
        b'\n' => push_bytes(b"\\n", out)?,
        b'\r' => push_bytes(b"\\r", out)?,
        b'\t' => push_bytes(b"\\t", out)?,
        _ => push_bytes(&[byte], out)?,
    }
    Ok(())
}

fn push_quoted(text: &[u8], out: &mut Vec<u8>) -> Result<(), NoMemory>
    ensures ok { OnOk result (out.new.items ≡ out.old.items ++ quoted text.now) }
    ensures err { OnErr result (Grows out.old.items out.new.items) }
{
    push_bytes(b"\"", out)?;
    for byte in text {
        push_escaped(*byte, out)?;
    }
    push_bytes(b"\"", out)?;
    Ok(())
}

#[tactic(auto, using(crate::proofs::GrowthLemmas::grows_same))]
fn push_bytes(bytes: &[u8], out: &mut Vec<u8>) -> Result<(), NoMemory>
    ensures ok { OnOk result (out.new.items ≡ out.old.items ++ bytes.now) }
    ensures err { OnErr result (Grows out.old.items out.new.items) }
{
    out.extend_from_slice(bytes)?;
    Ok(())
}
