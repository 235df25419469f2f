//! The counted quantities of a query and their greatest numbers.
ghost use Rattle.std.specs.Prelude.{◌≡◌, ◌<◌, IfOk};
ghost use Rattle.mast_grammar.specs.Breaches as breaches;
ghost use Rattle.mast_grammar.specs.inside.Reader as reader;
ghost use Rattle.mast_grammar.specs.inside.Reader.{CountsBelow};

use crate::stack::Stack;
use crate::{GrammarKind, Terminal};
use mast_terms::NoMemory;
use std::alloc::Global;

/// How many parentheses may be open.
pub const MOST_OPEN: usize = 16;

/// How many operators a query may have.
pub const MOST_OPERATORS: usize = 1000;

/// How many entries a FROM may have.
pub const MOST_ENTRIES: usize = 8;

/// How many blocks a `sparqltable` may have.
pub const MOST_BLOCKS: usize = 16;

/// How many atoms a block may have.
pub const MOST_ATOMS: usize = 24;

/// What was counted of the terminals so far.
#[derive(Clone, Copy)]
pub(crate) struct Counts {
    /// Parentheses that are open.
    pub(crate) depth: usize,
    /// UNION, EXCEPT, INTERSECT, AND, OR and NOT.
    pub(crate) operators: usize,
    /// SPARQLTABLE behind the last FROM.
    pub(crate) entries: usize,
    /// Braces that open behind the last SPARQLTABLE.
    pub(crate) braces: usize,
    /// Commas, semicolons and dots behind the last brace that opens.
    pub(crate) separators: usize,
    /// Whether the last terminal is `a` or a comma.
    pub(crate) after_class: bool,
}

fn is_operator(terminal: Terminal) -> bool
    ensures { result ≡ breaches.is_operator terminal }
{
    match terminal {
        Terminal::Union
        | Terminal::Except
        | Terminal::Intersect
        | Terminal::And
        | Terminal::Or
        | Terminal::Not => true,
        _ => false,
    }
}

// An object, also one against the rule on `a`.
fn is_object(terminal: Terminal) -> bool
    ensures { result ≡ breaches.is_object terminal }
{
    match terminal {
        Terminal::Var | Terminal::Pname | Terminal::Iri | Terminal::Integer | Terminal::Doubled =>
            true,
        _ => false,
    }
}

fn is_class_front(terminal: Terminal) -> bool
    ensures { result ≡ breaches.is_class_front terminal }
{
    match terminal {
        Terminal::A | Terminal::Comma => true,
        _ => false,
    }
}

fn opened(n: usize, terminal: Terminal) -> usize
    requires { n < 4294967295 }
    ensures { result ≡ breaches.opened n terminal }
{
    match terminal {
        Terminal::Open => n + 1,
        Terminal::Close => n.saturating_sub(1),
        _ => n,
    }
}

fn listed(n: usize, terminal: Terminal) -> usize
    requires { n < 4294967295 }
    ensures { result ≡ breaches.listed n terminal }
{
    match terminal {
        Terminal::From => 0,
        Terminal::Sparqltable => n + 1,
        _ => n,
    }
}

fn braced(n: usize, terminal: Terminal) -> usize
    requires { n < 4294967295 }
    ensures { result ≡ breaches.braced n terminal }
{
    match terminal {
        Terminal::Sparqltable => 0,
        Terminal::OpenBrace => n + 1,
        _ => n,
    }
}

fn parted(n: usize, terminal: Terminal) -> usize
    requires { n < 4294967295 }
    ensures { result ≡ breaches.parted n terminal }
{
    match terminal {
        Terminal::OpenBrace => 0,
        Terminal::Comma | Terminal::Dot | Terminal::Semicolon => n + 1,
        _ => n,
    }
}

fn operated(n: usize, terminal: Terminal) -> usize
    requires { n < 4294967295 }
    ensures { result ≡ breaches.operated n terminal }
{
    if is_operator(terminal) { n + 1 } else { n }
}

impl Counts {
    /// Before any terminal.
    pub(crate) fn new() -> Counts
        ensures { result ≡ reader.nothing_counted }
    {
        Counts {
            depth: 0,
            operators: 0,
            entries: 0,
            braces: 0,
            separators: 0,
            after_class: false,
        }
    }

    /// Behind a terminal.
    pub(crate) fn counting(self, terminal: Terminal) -> Counts
        requires below { CountsBelow 4294967295 self }
        ensures { result ≡ reader.counting self terminal }
    {
        Counts {
            depth: opened(self.depth, terminal),
            operators: operated(self.operators, terminal),
            entries: listed(self.entries, terminal),
            braces: braced(self.braces, terminal),
            separators: parted(self.separators, terminal),
            after_class: is_class_front(terminal),
        }
    }

    fn is_deep(self, terminal: Terminal) -> bool
        ensures { result ≡ reader.deep_at self terminal }
    {
        terminal == Terminal::Open && self.depth == MOST_OPEN
    }

    fn is_long(self, terminal: Terminal) -> bool
        ensures { result ≡ reader.long_at self terminal }
    {
        is_operator(terminal) && self.operators == MOST_OPERATORS
    }

    fn is_ninth(self, alloc: Global, stack: &Stack, terminal: Terminal) -> Result<bool, NoMemory>
        ensures { IfOk result (λ is. is ≡ reader.tested GrammarKind.Entries self stack.now terminal) }
    {
        if terminal == Terminal::Sparqltable && self.entries == MOST_ENTRIES {
            stack.expects(alloc, terminal)
        } else {
            Ok(false)
        }
    }

    fn is_wide(self, alloc: Global, stack: &Stack, terminal: Terminal) -> Result<bool, NoMemory>
        ensures { IfOk result (λ is. is ≡ reader.tested GrammarKind.Disjuncts self stack.now terminal) }
    {
        if terminal == Terminal::OpenBrace && self.braces == MOST_BLOCKS + 1 {
            stack.expects(alloc, terminal)
        } else {
            Ok(false)
        }
    }

    // An object comes: a text in double quotes may, or behind `a` or a comma a Pname may.
    fn at_object(self, alloc: Global, stack: &Stack) -> Result<bool, NoMemory>
        ensures { IfOk result (λ is. is ≡ reader.at_object self stack.now) }
    {
        if stack.expects(alloc, Terminal::Doubled)? {
            return Ok(true);
        }
        if self.after_class {
            stack.expects(alloc, Terminal::Pname)
        } else {
            Ok(false)
        }
    }

    fn is_full(self, alloc: Global, stack: &Stack, terminal: Terminal) -> Result<bool, NoMemory>
        ensures { IfOk result (λ is. is ≡ reader.tested GrammarKind.Atoms self stack.now terminal) }
    {
        if is_object(terminal) && self.separators == MOST_ATOMS {
            self.at_object(alloc, stack)
        } else {
            Ok(false)
        }
    }

    /// The limit that the terminal passes, if it passes one.
    pub(crate) fn limit(
        self,
        alloc: Global,
        stack: &Stack,
        terminal: Terminal,
    ) -> Result<Option<GrammarKind>, NoMemory>
        ensures { IfOk result (λ found. found ≡ reader.limit self stack.now terminal) }
    {
        if self.is_deep(terminal) {
            return Ok(Some(GrammarKind::Depth));
        }
        if self.is_long(terminal) {
            return Ok(Some(GrammarKind::Operators));
        }
        if self.is_ninth(alloc, stack, terminal)? {
            return Ok(Some(GrammarKind::Entries));
        }
        if self.is_wide(alloc, stack, terminal)? {
            return Ok(Some(GrammarKind::Disjuncts));
        }
        if self.is_full(alloc, stack, terminal)? {
            return Ok(Some(GrammarKind::Atoms));
        }
        Ok(None)
    }
}
