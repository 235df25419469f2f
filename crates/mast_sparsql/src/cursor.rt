//! The terminals that are still to be read.
ghost use Rattle.std.specs.Prelude.{◌≡◌, ◌∷◌, [], IfOk, OnOk, List, length};
ghost use Rattle.mast_sparsql.specs.Terminals.{same};
ghost use Rattle.mast_sparsql.specs.Trees as tree;
ghost use Rattle.mast_sparsql.specs.Trees.{the, token, word};
ghost use Rattle.mast_sparsql.specs.inside.Cursors.{Reads, Steps, Takes, starts};

use mast_grammar::Terminal;
use mast_terms::NoMemory;
use std::marker::Model;

/// The number of the next token, and the terminals from it on.
///
/// A method that reads is called where the grammar lets a query go on so. Where it does not, which no query meets, it answers want of
/// memory.
#[derive(Drop)]
pub(crate) struct Cursor<'q> {
    at: u32,
    rest: &'q [Terminal],
}

impl<'q> Model for Cursor<'q> {
    ghost use Rattle.mast_sparsql.specs.inside.Cursors.{Left};

    ghost Value = { Left };

    ghost view = { λ c. record { at = c.at; rest = c.rest.now } };
}

fn is_name(terminal: Terminal) -> bool
    ensures { result ≡ tree.is_name terminal }
{
    terminal == Terminal::Name || terminal == Terminal::A
}

fn is_iri(terminal: Terminal) -> bool
    ensures { result ≡ tree.is_iri terminal }
{
    terminal == Terminal::Pname || terminal == Terminal::Iri
}

impl<'q> Cursor<'q> {
    /// At the first token of these terminals.
    pub(crate) fn new(terminals: &'q [Terminal]) -> Cursor<'q>
        ensures { result ≡ record { at = 0; rest = terminals.now } }
    {
        Cursor {
            at: 0,
            rest: terminals,
        }
    }

    /// How many tokens are left.
    pub(crate) fn left(&self) -> usize
        ensures { result ≡ length self.now.rest }
    {
        self.rest.len()
    }

    /// Whether the next token is this.
    pub(crate) fn is_next(&self, wanted: Terminal) -> bool
        ensures { result ≡ starts wanted self.now.rest }
    {
        match self.rest {
            [] => false,
            [k, ..] => wanted == *k,
        }
    }

    // Goes on behind the next token.
    fn step(&mut self) -> Result<(u32, Terminal), NoMemory>
        ensures { IfOk result (λ s. Steps self.old self.new s.0 s.1) }
    {
        let at = self.at;
        match self.rest {
            [] => Err(NoMemory),
            [k, more @ ..] => match at.checked_add(1) {
                None => Err(NoMemory),
                Some(next) => {
                    self.at = next;
                    self.rest = more;
                    Ok((at, *k))
                }
            },
        }
    }

    /// Goes on behind the next token where it is this, and tells whether it is.
    #[tactic(auto, using(crate::proofs::CursorLemmas::reads_seen))]
    pub(crate) fn take(&mut self, wanted: Terminal) -> Result<bool, NoMemory>
        ensures { IfOk result (λ took. Takes took self.old self.new (word wanted ∷ [])) }
    {
        if !self.is_next(wanted) {
            return Ok(false);
        }
        self.step()?;
        Ok(true)
    }

    /// Goes on behind the next token where it is this word, which may be left out.
    #[tactic(auto, using(crate::proofs::CursorLemmas::reads_optional))]
    pub(crate) fn may(&mut self, wanted: Terminal) -> Result<bool, NoMemory>
        ensures { IfOk result (λ took. Reads self.old self.new (tree.optional took wanted)) }
    {
        let took = self.take(wanted)?;
        Ok(took)
    }

    /// Goes on behind the next token, which is this.
    #[tactic(auto, using(crate::proofs::CursorLemmas::reads_word))]
    pub(crate) fn word(&mut self, wanted: Terminal) -> Result<(), NoMemory>
        ensures { OnOk result (Reads self.old self.new (word wanted ∷ [])) }
    {
        let (_, terminal) = self.step()?;
        if wanted == terminal {
            Ok(())
        } else {
            Err(NoMemory)
        }
    }

    /// The number of the next token, which is this.
    #[tactic(auto, using(crate::proofs::CursorLemmas::reads_token))]
    pub(crate) fn one(&mut self, wanted: Terminal) -> Result<u32, NoMemory>
        ensures { IfOk result (λ n. Reads self.old self.new (the wanted n ∷ [])) }
    {
        let (number, terminal) = self.step()?;
        if wanted == terminal {
            Ok(number)
        } else {
            Err(NoMemory)
        }
    }

    /// The number of the next token, which is a name.
    #[tactic(auto, using(crate::proofs::CursorLemmas::reads_token))]
    pub(crate) fn name(&mut self) -> Result<u32, NoMemory>
        ensures { IfOk result (λ n. Reads self.old self.new (token n tree.is_name ∷ [])) }
    {
        let (number, terminal) = self.step()?;
        if is_name(terminal) {
            Ok(number)
        } else {
            Err(NoMemory)
        }
    }

    /// The number of the next token, which is a Pname or an Iri.
    #[tactic(auto, using(crate::proofs::CursorLemmas::reads_token))]
    pub(crate) fn iri(&mut self) -> Result<u32, NoMemory>
        ensures { IfOk result (λ n. Reads self.old self.new (token n tree.is_iri ∷ [])) }
    {
        let (number, terminal) = self.step()?;
        if is_iri(terminal) {
            Ok(number)
        } else {
            Err(NoMemory)
        }
    }
}
