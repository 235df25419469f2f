//! Bodies and conditions, as they are written.
ghost use Rattle.std.specs.Prelude.{◌≡◌, suc, true, IfOk, IfSome};
ghost use Rattle.mast_sparsql.specs.Trees.{is_comparison, is_union};
ghost use Rattle.mast_sparsql.specs.Trees as tree;
ghost use Rattle.mast_sparsql.specs.inside.Cursors.{Reads};
ghost use Rattle.mast_sparsql.specs.Held.{part_of};
ghost use Rattle.mast_sparsql.specs.inside.Parts.{ReadsBody, ReadsCondition, ReadsWhere, nots, nots_written};

use crate::cursor::Cursor;
use crate::tree::{Entry, Item, Part};
use mast_grammar::Terminal;
use mast_terms::{List, NoMemory};
use sqlite_items::Boxed;
use std::alloc::Global;

/// How deep parentheses go in a query: one more than its greatest number of open ones.
pub(crate) const DEPTH: usize = 17;

fn set(
    alloc: Global,
    operator: Terminal,
    at: u32,
    left: Part,
    right: Part,
) -> Result<Part, NoMemory>
    ensures { IfOk result (λ p. part_of p ≡ tree.set operator at (part_of left) (part_of right)) }
{
    let left = Boxed::new(alloc, left)?;
    let right = Boxed::new(alloc, right)?;
    Ok(Part::Set {
        operator,
        at,
        left,
        right,
    })
}

fn inner(alloc: Global, part: Part) -> Result<Part, NoMemory>
    ensures { IfOk result (λ p. part_of p ≡ tree.inner (part_of part)) }
{
    let inside = Boxed::new(alloc, part)?;
    Ok(Part::Inner(inside))
}

fn exists(alloc: Global, part: Part) -> Result<Part, NoMemory>
    ensures { IfOk result (λ p. part_of p ≡ tree.exists (part_of part)) }
{
    let inside = Boxed::new(alloc, part)?;
    Ok(Part::Exists(inside))
}

fn not(alloc: Global, part: Part) -> Result<Part, NoMemory>
    ensures { IfOk result (λ p. part_of p ≡ tree.negation (part_of part)) }
{
    let inside = Boxed::new(alloc, part)?;
    Ok(Part::Not(inside))
}

fn both(alloc: Global, left: Part, right: Part) -> Result<Part, NoMemory>
    ensures { IfOk result (λ p. part_of p ≡ tree.both (part_of left) (part_of right)) }
{
    let left = Boxed::new(alloc, left)?;
    let right = Boxed::new(alloc, right)?;
    Ok(Part::And(left, right))
}

fn either(alloc: Global, left: Part, right: Part) -> Result<Part, NoMemory>
    ensures { IfOk result (λ p. part_of p ≡ tree.either (part_of left) (part_of right)) }
{
    let left = Boxed::new(alloc, left)?;
    let right = Boxed::new(alloc, right)?;
    Ok(Part::Or(left, right))
}

fn select(
    alloc: Global,
    distinct: bool,
    items: List<Item>,
    entries: List<Entry>,
    where_word: bool,
    condition: Part,
) -> Result<Part, NoMemory>
    ensures { IfOk result (λ p. part_of p ≡ tree.select distinct items entries where_word (part_of condition)) }
{
    let condition = Boxed::new(alloc, condition)?;
    Ok(Part::Select {
        distinct,
        items,
        entries,
        where_word,
        condition,
    })
}

// So many NOTs before a condition.
fn negated(alloc: Global, part: Part, count: usize) -> Result<Part, NoMemory>
    ensures { IfOk result (λ p. part_of p ≡ nots count (part_of part)) }
{
    let mut whole = part;
    for _ in 0..count {
        whole = not(alloc, whole)?;
    }
    Ok(whole)
}

fn next(count: usize) -> Result<usize, NoMemory>
    ensures { IfOk result (λ n. n ≡ suc count) }
{
    match count.checked_add(1) {
        None => Err(NoMemory),
        Some(next) => Ok(next),
    }
}

impl<'q> Cursor<'q> {
    // UNION or EXCEPT, if one is next.
    fn set_operator(&self) -> Option<Terminal>
        ensures { IfSome result (λ k. is_union k ≡ true) }
    {
        if self.is_next(Terminal::Union) {
            Some(Terminal::Union)
        } else if self.is_next(Terminal::Except) {
            Some(Terminal::Except)
        } else {
            None
        }
    }

    // The sign of a comparison that is next.
    fn sign(&self) -> Terminal
        ensures { is_comparison result ≡ true }
    {
        if self.is_next(Terminal::Equal) {
            Terminal::Equal
        } else {
            Terminal::Differ
        }
    }

    // operand ("=" | "<>" | "!=") operand
    #[tactic(auto, using(crate::proofs::PartLemmas::reads_comparison))]
    fn comparison(&mut self, alloc: Global) -> Result<Part, NoMemory>
        ensures { IfOk result (ReadsCondition 0 self.old self.new) }
    {
        let left = self.operand(alloc)?;
        let sign = self.sign();
        let at = self.one(sign)?;
        let right = self.operand(alloc)?;
        Ok(Part::Compare {
            left,
            sign,
            at,
            right,
        })
    }

    /// body = term {(UNION | EXCEPT) term}
    #[tactic(auto, using(crate::proofs::PartLemmas::term_body, crate::proofs::PartLemmas::reads_union))]
    #[cycle(parts)]
    pub(crate) fn body(&mut self, alloc: Global, depth: usize) -> Result<Part, NoMemory>
        ensures { IfOk result (ReadsBody 2 self.old self.new) }
    {
        let mut left = self.term(alloc, depth)?;
        for _ in 0..self.left() {
            match self.set_operator() {
                None => return Ok(left),
                Some(operator) => {
                    let at = self.one(operator)?;
                    let right = self.term(alloc, depth)?;
                    left = set(alloc, operator, at, left, right)?;
                }
            }
        }
        Ok(left)
    }

    // term = factor {INTERSECT factor}
    #[tactic(auto, using(crate::proofs::PartLemmas::factor_term, crate::proofs::PartLemmas::reads_intersect))]
    #[cycle(parts)]
    fn term(&mut self, alloc: Global, depth: usize) -> Result<Part, NoMemory>
        ensures { IfOk result (ReadsBody 1 self.old self.new) }
    {
        let mut left = self.factor(alloc, depth)?;
        for _ in 0..self.left() {
            if !self.is_next(Terminal::Intersect) {
                return Ok(left);
            }
            let at = self.one(Terminal::Intersect)?;
            let right = self.factor(alloc, depth)?;
            left = set(alloc, Terminal::Intersect, at, left, right)?;
        }
        Ok(left)
    }

    // factor = select | "(" body ")"
    #[tactic(auto, using(crate::proofs::PartLemmas::reads_inner_body))]
    #[cycle(parts)]
    fn factor(&mut self, alloc: Global, depth: usize) -> Result<Part, NoMemory>
        ensures { IfOk result (ReadsBody 0 self.old self.new) }
    {
        if !self.is_next(Terminal::Open) {
            return self.select(alloc, depth);
        }
        if depth == 0 {
            return Err(NoMemory);
        }
        self.word(Terminal::Open)?;
        let inside = self.body(alloc, depth - 1)?;
        self.word(Terminal::Close)?;
        inner(alloc, inside)
    }

    // select = SELECT [DISTINCT] item {"," item} FROM entry {"," entry} [WHERE cond]
    #[tactic(auto, using(crate::proofs::PartLemmas::reads_select))]
    #[cycle(parts)]
    fn select(&mut self, alloc: Global, depth: usize) -> Result<Part, NoMemory>
        ensures { IfOk result (ReadsBody 0 self.old self.new) }
    {
        self.word(Terminal::Select)?;
        let distinct = self.may(Terminal::Distinct)?;
        let items = self.items(alloc)?;
        self.word(Terminal::From)?;
        let entries = self.entries(alloc)?;
        let (where_word, condition) = self.filter(alloc, depth)?;
        select(alloc, distinct, items, entries, where_word, condition)
    }

    // [WHERE cond]
    #[tactic(auto, using(crate::proofs::PartLemmas::reads_where, crate::proofs::PartLemmas::reads_always))]
    #[cycle(parts)]
    fn filter(&mut self, alloc: Global, depth: usize) -> Result<(bool, Part), NoMemory>
        ensures { IfOk result (λ w. ReadsWhere w.0 self.old self.new w.1) }
    {
        if !self.is_next(Terminal::Where) {
            return Ok((false, Part::Always));
        }
        self.word(Terminal::Where)?;
        let condition = self.condition(alloc, depth)?;
        Ok((true, condition))
    }

    // cond = conj {OR conj}
    #[tactic(auto, using(crate::proofs::PartLemmas::conj_cond, crate::proofs::PartLemmas::reads_either))]
    #[cycle(parts)]
    fn condition(&mut self, alloc: Global, depth: usize) -> Result<Part, NoMemory>
        ensures { IfOk result (ReadsCondition 2 self.old self.new) }
    {
        let mut left = self.conjunction(alloc, depth)?;
        for _ in 0..self.left() {
            if !self.is_next(Terminal::Or) {
                return Ok(left);
            }
            self.word(Terminal::Or)?;
            let right = self.conjunction(alloc, depth)?;
            left = either(alloc, left, right)?;
        }
        Ok(left)
    }

    // conj = neg {AND neg}
    #[tactic(auto, using(crate::proofs::PartLemmas::neg_conj, crate::proofs::PartLemmas::reads_and))]
    #[cycle(parts)]
    fn conjunction(&mut self, alloc: Global, depth: usize) -> Result<Part, NoMemory>
        ensures { IfOk result (ReadsCondition 1 self.old self.new) }
    {
        let mut left = self.negation(alloc, depth)?;
        for _ in 0..self.left() {
            if !self.is_next(Terminal::And) {
                return Ok(left);
            }
            self.word(Terminal::And)?;
            let right = self.negation(alloc, depth)?;
            left = both(alloc, left, right)?;
        }
        Ok(left)
    }

    // {NOT}
    #[tactic(auto, using(crate::proofs::PartLemmas::nots_next))]
    fn nots(&mut self) -> Result<usize, NoMemory>
        ensures { IfOk result (λ n. Reads self.old self.new (nots_written n)) }
    {
        let mut count: usize = 0;
        for _ in 0..self.left() {
            if !self.is_next(Terminal::Not) {
                return Ok(count);
            }
            self.word(Terminal::Not)?;
            count = next(count)?;
        }
        Ok(count)
    }

    // neg = NOT neg
    #[tactic(auto, using(crate::proofs::PartLemmas::reads_nots))]
    #[cycle(parts)]
    fn negation(&mut self, alloc: Global, depth: usize) -> Result<Part, NoMemory>
        ensures { IfOk result (ReadsCondition 0 self.old self.new) }
    {
        let count = self.nots()?;
        let condition = self.plain(alloc, depth)?;
        let whole = negated(alloc, condition, count)?;
        Ok(whole)
    }

    // EXISTS "(" body ")" | "(" cond ")" | operand ("=" | "<>" | "!=") operand
    #[tactic(auto, using(crate::proofs::PartLemmas::reads_exists, crate::proofs::PartLemmas::reads_inner_condition))]
    #[cycle(parts)]
    fn plain(&mut self, alloc: Global, depth: usize) -> Result<Part, NoMemory>
        ensures { IfOk result (ReadsCondition 0 self.old self.new) }
    {
        if depth == 0 {
            return self.comparison(alloc);
        }
        if self.is_next(Terminal::Exists) {
            self.word(Terminal::Exists)?;
            self.word(Terminal::Open)?;
            let body = self.body(alloc, depth - 1)?;
            self.word(Terminal::Close)?;
            return exists(alloc, body);
        }
        if self.is_next(Terminal::Open) {
            self.word(Terminal::Open)?;
            let inside = self.condition(alloc, depth - 1)?;
            self.word(Terminal::Close)?;
            return inner(alloc, inside);
        }
        self.comparison(alloc)
    }
}
