//! Facts, and their text.
ghost use Rattle.std.specs.Prelude.{◌≡◌, ◌++◌, ◌∷◌, [], IfOk, OnOk};
ghost use Rattle.std.specs.List.{AllByRecursion};
ghost use Rattle.mast_write.specs.FactLines.{IsFactLine, IsFactOf, fact_line, later_terms, terms_text};
ghost use Rattle.mast_write.specs.LineText.{IsTextOf};

use crate::Lines;
use mast_terms::{List, Name, NameKind, NoMemory, Term, Vocabulary};
use std::alloc::Global;

/// A fact: an object is a member of a class, or two terms stand in a role or an attribute.
#[derive(Debug, Drop)]
pub struct Fact {
    /// The kind of the name.
    pub kind: NameKind,
    /// The number of the name among those of its kind.
    pub name: Name,
    /// One term of a class, and two of a role or an attribute.
    pub terms: List<Term>,
}

/// The text of facts: the line `<iri>(term)` or `<iri>(term,term)` of each, sorted by bytes, each different line once.
///
/// The facts may stand in any order, and one fact several times.
pub fn facts_text(alloc: Global, facts: &[Fact], vocab: &Vocabulary) -> Result<Vec<u8>, NoMemory>
    requires { AllByRecursion (IsFactOf vocab.now) facts.now }
    ensures { IfOk result (λ text. IsTextOf (IsFactLine vocab.now facts.now) text.items) }
{
    let mut lines = Lines::new(alloc);
    for fact in facts {
        push_fact(alloc, fact, vocab, &mut lines)?;
    }
    lines.into_text(alloc)
}

// Writes the line of a fact.
fn push_fact(
    alloc: Global,
    fact: &Fact,
    vocab: &Vocabulary,
    lines: &mut Lines,
) -> Result<(), NoMemory>
    requires fact { IsFactOf vocab.now fact.now }
    requires begun { lines.old.begun ≡ [] }
    ensures lines { OnOk result (lines.new.lines ≡ lines.old.lines ++ fact_line vocab.now fact.now ∷ []) }
    ensures begun { OnOk result (lines.new.begun ≡ []) }
{
    lines.push(alloc, b"<")?;
    lines.push(alloc, vocab.iri(fact.kind, fact.name).as_bytes())?;
    lines.push(alloc, b">(")?;
    push_terms(alloc, fact.terms.as_slice(), lines)?;
    lines.push(alloc, b")")?;
    lines.end(alloc)
}

// Writes terms with commas between them.
fn push_terms(alloc: Global, terms: &[Term], lines: &mut Lines) -> Result<(), NoMemory>
    ensures lines { OnOk result (lines.new.lines ≡ lines.old.lines) }
    ensures begun { OnOk result (lines.new.begun ≡ lines.old.begun ++ terms_text terms.now) }
{
    if let [first, rest @ ..] = terms {
        lines.push_term(alloc, first)?;
        push_later(alloc, rest, lines)?;
    }
    Ok(())
}

// Writes terms, each after a comma.
fn push_later(alloc: Global, terms: &[Term], lines: &mut Lines) -> Result<(), NoMemory>
    ensures lines { OnOk result (lines.new.lines ≡ lines.old.lines) }
    ensures begun { OnOk result (lines.new.begun ≡ lines.old.begun ++ later_terms terms.now) }
{
    for term in terms {
        lines.push(alloc, b",")?;
        lines.push_term(alloc, term)?;
    }
    Ok(())
}
