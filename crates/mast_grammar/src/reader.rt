//! The first breach of the grammar and its limits.
ghost use Rattle.std.specs.Prelude.{◌≡◌, ◌<◌, length, IfOk};
ghost use Rattle.mast_grammar.specs.Breaches.{Tells};
ghost use Rattle.mast_grammar.specs.inside.Reader.{breach_at};

use crate::limits::Counts;
use crate::stack::Stack;
use crate::{GrammarBreach, GrammarKind, Terminal};
use mast_terms::NoMemory;
use std::alloc::Global;

fn breach(at: u32, kind: GrammarKind) -> Option<GrammarBreach>
    ensures { result ≡ breach_at at kind }
{
    Some(GrammarBreach { at, kind })
}

/// The first breach of the grammar or of its limits, or none where the terminals are a query within the limits.
#[tactic(auto, using(crate::proofs::ReaderLemmas::keeps_first))]
pub fn first_breach(
    alloc: Global,
    terminals: &[Terminal],
) -> Result<Option<GrammarBreach>, NoMemory>
    requires size { length terminals.now < 4294967295 }
    ensures { IfOk result (Tells terminals.now) }
{
    let mut stack = Stack::new(alloc)?;
    let mut counts = Counts::new();
    let mut at = 0;
    for terminal in terminals {
        match counts.limit(alloc, &stack, *terminal)? {
            Some(kind) => return Ok(breach(at, kind)),
            None => {}
        }
        if !stack.read(*terminal)? {
            return Ok(breach(at, GrammarKind::Grammar));
        }
        counts = counts.counting(*terminal);
        at += 1;
    }
    if stack.may_end() {
        Ok(None)
    } else {
        Ok(breach(at, GrammarKind::Grammar))
    }
}
