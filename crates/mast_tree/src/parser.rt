//! The parser of the grammar: what may come next.
ghost use Rattle.std.specs.Prelude.{◌≡◌, ◌≤◌};
ghost use Rattle.mast_tree.specs.inside.Parser as parser;
ghost use Rattle.mast_tree.specs.inside.Parser.{state_of, MoveWithin};

use crate::TokenKind;
use crate::item::MOST_OPEN;

/// What was read last, where it has a part in what may come next.
#[derive(Clone, Copy)]
pub enum ParseState {
    Item,
    AfterName,
    AfterStr,
    AfterCarets,
    AfterEquals,
}

/// Where a token leads: one parenthesis too many, nowhere, or a state with so many parentheses open.
#[derive(Clone, Copy)]
pub enum Move {
    Deeper,
    Stuck,
    To(ParseState, usize),
}

// The first token of an item, or a parenthesis that closes.
fn item_step(depth: usize, kind: TokenKind) -> Option<(ParseState, usize)>
    ensures { state_of result ≡ parser.item_step depth kind }
{
    match kind {
        TokenKind::Name => Some((ParseState::AfterName, depth)),
        TokenKind::Iri => Some((ParseState::Item, depth)),
        TokenKind::Str => Some((ParseState::AfterStr, depth)),
        TokenKind::Close => close(depth),
        TokenKind::Open => None,
        TokenKind::Equals => None,
        TokenKind::Carets => None,
        TokenKind::Lang => None,
    }
}

// A parenthesis that closes.
#[tactic(auto, using(crate::proofs::Steps::steps))]
fn close(depth: usize) -> Option<(ParseState, usize)>
    ensures { state_of result ≡ parser.item_step depth TokenKind.Close }
{
    if depth == 0 {
        None
    } else {
        Some((ParseState::Item, depth - 1))
    }
}

// What comes behind a name.
fn after_name(depth: usize, kind: TokenKind) -> Option<(ParseState, usize)>
    requires { depth ≤ MOST_OPEN }
    ensures { state_of result ≡ parser.step ParseState.AfterName depth kind }
{
    match kind {
        TokenKind::Equals => Some((ParseState::AfterEquals, depth)),
        TokenKind::Open => Some((ParseState::Item, depth + 1)),
        TokenKind::Name => item_step(depth, kind),
        TokenKind::Iri => item_step(depth, kind),
        TokenKind::Str => item_step(depth, kind),
        TokenKind::Close => item_step(depth, kind),
        TokenKind::Carets => item_step(depth, kind),
        TokenKind::Lang => item_step(depth, kind),
    }
}

// What comes behind a string.
fn after_str(depth: usize, kind: TokenKind) -> Option<(ParseState, usize)>
    ensures { state_of result ≡ parser.step ParseState.AfterStr depth kind }
{
    match kind {
        TokenKind::Carets => Some((ParseState::AfterCarets, depth)),
        TokenKind::Lang => Some((ParseState::Item, depth)),
        TokenKind::Name => item_step(depth, kind),
        TokenKind::Iri => item_step(depth, kind),
        TokenKind::Str => item_step(depth, kind),
        TokenKind::Close => item_step(depth, kind),
        TokenKind::Open => item_step(depth, kind),
        TokenKind::Equals => item_step(depth, kind),
    }
}

// What comes behind `^^`.
fn after_carets(depth: usize, kind: TokenKind) -> Option<(ParseState, usize)>
    ensures { state_of result ≡ parser.step ParseState.AfterCarets depth kind }
{
    match kind {
        TokenKind::Name | TokenKind::Iri => Some((ParseState::Item, depth)),
        _ => None,
    }
}

// What comes behind `=`.
fn after_equals(depth: usize, kind: TokenKind) -> Option<(ParseState, usize)>
    ensures { state_of result ≡ parser.step ParseState.AfterEquals depth kind }
{
    match kind {
        TokenKind::Iri => Some((ParseState::Item, depth)),
        _ => None,
    }
}

// What comes in a state.
fn step(state: ParseState, depth: usize, kind: TokenKind) -> Option<(ParseState, usize)>
    requires { depth ≤ MOST_OPEN }
    ensures { state_of result ≡ parser.step state depth kind }
{
    match state {
        ParseState::Item => item_step(depth, kind),
        ParseState::AfterName => after_name(depth, kind),
        ParseState::AfterStr => after_str(depth, kind),
        ParseState::AfterCarets => after_carets(depth, kind),
        ParseState::AfterEquals => after_equals(depth, kind),
    }
}

// The parenthesis is one too many.
fn is_deep(depth: usize, kind: TokenKind) -> bool
    ensures { result ≡ parser.is_deep depth kind }
{
    match kind {
        TokenKind::Open => depth == MOST_OPEN,
        _ => false,
    }
}

/// Whether a document may end here.
pub fn ends(state: ParseState, depth: usize) -> bool
    ensures { result ≡ parser.ends (parser.at state depth) }
{
    match state {
        ParseState::Item => depth == 0,
        ParseState::AfterName => depth == 0,
        ParseState::AfterStr => depth == 0,
        ParseState::AfterCarets => false,
        ParseState::AfterEquals => false,
    }
}

/// Where a token leads from here.
pub fn advance(state: ParseState, depth: usize, kind: TokenKind) -> Move
    requires { depth ≤ MOST_OPEN }
    ensures moves { result ≡ parser.move_of state depth kind }
    ensures within { MoveWithin MOST_OPEN result }
{
    if is_deep(depth, kind) {
        return Move::Deeper;
    }
    match step(state, depth, kind) {
        None => Move::Stuck,
        Some((state, depth)) => Move::To(state, depth),
    }
}
