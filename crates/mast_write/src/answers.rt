//! The texts of answers and of their summaries.
ghost use Rattle.std.specs.Prelude.{◌≡◌, ◌++◌, ◌∷◌, [], map, IfOk, OnOk};
ghost use Rattle.mast_terms.specs.Printed.{term_text};
ghost use Rattle.mast_write.specs.AnswerLines.{IsAnswerText, after_tabs, summary, tabbed, tuple_line};

use crate::Lines;
use crate::file_lines::{push_quoted, push_text};
use mast_terms::{NoMemory, Term, Text, Tuple};
use std::alloc::Global;

/// The text of an answer: its summary, the names of its columns separated by tabs, and the line of each row.
///
/// The rows may stand in any order, and one several times: their different lines are counted, and sorted by bytes.
pub fn answer_text(
    alloc: Global,
    file: &str,
    header: &[Text],
    rows: &[Tuple],
) -> Result<Vec<u8>, NoMemory>
    ensures { IfOk result (λ text. IsAnswerText file.now header.now rows.now text.items) }
{
    let mut lines = Lines::new(alloc);
    for row in rows {
        push_tuple(alloc, row.as_slice(), &mut lines)?;
    }
    let body = lines.into_counted(alloc)?;
    let mut text = summary_text(alloc, file, body.count)?;
    push_names(header, &mut text)?;
    text.push(b'\n')?;
    text.extend_from_slice(&body.text)?;
    Ok(text)
}

/// The summary of an answer, `query NAME rows N`, with its line feed. NAME is the file's name, printed as a text.
pub fn summary_text(alloc: Global, file: &str, rows: usize) -> Result<Vec<u8>, NoMemory>
    ensures { IfOk result (λ text. text.items ≡ summary file.now rows) }
{
    let mut text = b"query ".to_vec(alloc)?;
    push_quoted(alloc, file, &mut text)?;
    push_text(format!(in alloc; " rows {rows}\n")?, &mut text)?;
    Ok(text)
}

// Writes the line of a row.
fn push_tuple(alloc: Global, terms: &[Term], lines: &mut Lines) -> Result<(), NoMemory>
    requires begun { lines.old.begun ≡ [] }
    ensures lines { OnOk result (lines.new.lines ≡ lines.old.lines ++ tuple_line terms.now ∷ []) }
    ensures begun { OnOk result (lines.new.begun ≡ []) }
{
    push_terms(alloc, terms, lines)?;
    lines.end(alloc)
}

// Writes terms with tabs between them.
fn push_terms(alloc: Global, terms: &[Term], lines: &mut Lines) -> Result<(), NoMemory>
    ensures lines { OnOk result (lines.new.lines ≡ lines.old.lines) }
    ensures begun { OnOk result (lines.new.begun ≡ lines.old.begun ++ tuple_line terms.now) }
{
    if let [first, rest @ ..] = terms {
        lines.push_term(alloc, first)?;
        push_later(alloc, rest, lines)?;
    }
    Ok(())
}

// Writes terms, each after a tab.
fn push_later(alloc: Global, terms: &[Term], lines: &mut Lines) -> Result<(), NoMemory>
    ensures lines { OnOk result (lines.new.lines ≡ lines.old.lines) }
    ensures begun { OnOk result (lines.new.begun ≡ lines.old.begun ++ after_tabs (map term_text terms.now)) }
{
    for term in terms {
        lines.push(alloc, b"\t")?;
        lines.push_term(alloc, term)?;
    }
    Ok(())
}

// Appends names with tabs between them.
fn push_names(names: &[Text], text: &mut Vec<u8>) -> Result<(), NoMemory>
    ensures { OnOk result (text.new.items ≡ text.old.items ++ tabbed names.now) }
{
    if let [first, rest @ ..] = names {
        text.extend_from_slice(first.as_str().as_bytes())?;
        push_later_names(rest, text)?;
    }
    Ok(())
}

// Appends names, each after a tab.
fn push_later_names(names: &[Text], text: &mut Vec<u8>) -> Result<(), NoMemory>
    ensures { OnOk result (text.new.items ≡ text.old.items ++ after_tabs names.now) }
{
    for name in names {
        text.push(b'\t')?;
        text.extend_from_slice(name.as_str().as_bytes())?;
    }
    Ok(())
}
