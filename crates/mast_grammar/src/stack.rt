//! The parser: a stack of the parts that are still to come.
ghost use Rattle.std.specs.Prelude.{◌≡◌, ◌++◌, ◌∷◌, [], IfOk, OnOk, MatchOption, is_some};
ghost use Rattle.mast_grammar.specs.inside.Machine as machine;
ghost use Rattle.mast_grammar.specs.inside.Machine.{Repeats, Steps, Tries};
ghost use Rattle.mast_grammar.specs.inside.Rules.{query_parts};

use crate::Terminal;
use crate::rules::{Part, Rule};
use mast_terms::NoMemory;
use sqlite_items::Items;
use std::alloc::Global;
use std::marker::Model;

/// The parts that are still to come. Contracts see them in their order.
#[derive(Drop)]
pub(crate) struct Stack {
    parts: Items<Part>,
}

impl Model for Stack {
    ghost use Rattle.std.specs.Prelude as p;
    ghost use Rattle.mast_grammar.specs.declared.rules.Part.{Part};

    ghost Value = { p.List Part };

    ghost view = { λ s. p.reverse s.parts };
}

// What is known of the next part: that the terminal comes, or that what follows decides.
fn found(begun: bool) -> Option<bool>
    ensures { result ≡ machine.found begun }
{
    if begun { Some(true) } else { None }
}

impl Stack {
    // No parts.
    #[tactic(auto, using(crate::proofs::StackLemmas::reversed))]
    fn empty(alloc: Global) -> Stack
        ensures { result ≡ [] }
    {
        Stack {
            parts: Items::new(alloc),
        }
    }

    // Puts a part before the others.
    #[tactic(auto, using(crate::proofs::StackLemmas::pushed))]
    fn push(&mut self, part: Part) -> Result<(), NoMemory>
        ensures { OnOk result (self.new ≡ part ∷ self.old) }
    {
        self.parts.push(part)?;
        Ok(())
    }

    // Takes the next part.
    #[tactic(auto, using(crate::proofs::StackLemmas::popped))]
    fn pop(&mut self) -> Option<Part>
        ensures { MatchOption result (self.old ≡ []) (λ part. self.old ≡ part ∷ self.new) }
    {
        self.parts.pop()
    }

    /// Puts parts before the others.
    pub(crate) fn put(&mut self, parts: &[Part]) -> Result<(), NoMemory>
        ensures { OnOk result (self.new ≡ parts.now ++ self.old) }
    {
        let mut left = parts.len();
        while left > 0 {
            left -= 1;
            self.push(parts[left])?;
        }
        Ok(())
    }

    /// What a query is made of.
    pub(crate) fn new(alloc: Global) -> Result<Stack, NoMemory>
        ensures { IfOk result (λ stack. stack ≡ query_parts) }
    {
        let mut stack = Stack::empty(alloc);
        stack.put(&[
            Part::Many(Rule::Line),
            Part::The(Rule::Body),
            Part::Maybe(Rule::Semicolon),
        ])?;
        Ok(stack)
    }

    // An equal stack.
    #[tactic(auto, using(crate::proofs::StackLemmas::reversed))]
    fn copy(&self, alloc: Global) -> Result<Stack, NoMemory>
        ensures { IfOk result (λ copy. copy ≡ self.now) }
    {
        Ok(Stack {
            parts: Items::from_slice(alloc, self.parts.as_slice())?,
        })
    }

    // Reads a terminal by a rule that may come any number of times.
    #[tactic(auto, using(crate::proofs::StackLemmas::repeats_on, crate::proofs::StackLemmas::repeats_off))]
    fn repeat(&mut self, rule: Rule, terminal: Terminal) -> Result<bool, NoMemory>
        ensures { IfOk result (λ begun. Repeats rule (machine.enter rule terminal) self.old begun self.new) }
    {
        self.push(Part::Many(rule))?;
        if self.enter(rule, terminal)? {
            return Ok(true);
        }
        let _ = self.pop();
        Ok(false)
    }

    // Reads a terminal by the part that was the next one.
    #[tactic(auto, using(crate::proofs::StackLemmas::tries))]
    fn try_part(&mut self, part: Part, terminal: Terminal) -> Result<Option<bool>, NoMemory>
        ensures { IfOk result (λ comes. Tries part self.old terminal comes self.new) }
    {
        match part {
            Part::One(wanted) => Ok(Some(wanted == terminal)),
            Part::The(rule) => Ok(Some(self.enter(rule, terminal)?)),
            Part::Maybe(rule) => Ok(found(self.enter(rule, terminal)?)),
            Part::Many(rule) => Ok(found(self.repeat(rule, terminal)?)),
        }
    }

    /// Reads a terminal, and tells whether it may come.
    #[tactic(auto, using(crate::proofs::StackLemmas::reads))]
    pub(crate) fn read(&mut self, terminal: Terminal) -> Result<bool, NoMemory>
        ensures { IfOk result (λ comes. Steps (machine.step self.old terminal) comes self.new) }
    {
        while let Some(part) = self.pop() {
            if let Some(comes) = self.try_part(part, terminal)? {
                return Ok(comes);
            }
        }
        Ok(false)
    }

    /// Whether the terminal may come.
    #[tactic(auto, using(crate::proofs::StackLemmas::steps_some))]
    pub(crate) fn expects(&self, alloc: Global, terminal: Terminal) -> Result<bool, NoMemory>
        ensures { IfOk result (λ comes. comes ≡ is_some (machine.step self.now terminal)) }
    {
        let mut copy = self.copy(alloc)?;
        copy.read(terminal)
    }

    /// Whether a query may end.
    #[tactic(auto, using(crate::proofs::StackLemmas::ends))]
    pub(crate) fn may_end(mut self) -> bool
        ensures { result ≡ machine.can_end self }
    {
        while let Some(part) = self.pop() {
            match part {
                Part::One(_) | Part::The(_) => return false,
                Part::Maybe(_) | Part::Many(_) => {}
            }
        }
        true
    }
}
